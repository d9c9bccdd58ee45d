//! The scopes of a function, and in which of them its labels stand.
ghost use Rattle.std.specs.Prelude.{◌≡◌, ◌++◌, IfOk, length, slice_set, replicate, map};
ghost use Rattle.c_layout.specs.CheckedTrees.{statement_tree, statement_trees};
ghost use Rattle.c_layout.specs.CheckedUnits.{function_view};
ghost use Rattle.lower_templates.specs.Worklist.Scopes.{tree_view, scope_at, with_new_scope, with_choice, with_case, with_default, with_label, default_noted, scoped, all_scoped, no_scopes, function_scopes};

use c_layout::{CheckedStatement, Function};
use std::alloc::{AllocError, Global};

/// A scope's objects, and the scope around it, which has a lower number. Scope 0 has the parameters,
/// which are not among its objects.
#[derive(Clone, Copy)]
pub struct Scope<'a> {
    pub around: u32,
    pub objects: &'a [u32],
}

/// Where the scopes of a `switch`'s case labels stand in the list of all of them, and the scope of its
/// default label.
#[derive(Clone, Copy)]
pub struct Choice {
    pub first: u32,
    pub fallback: Option<u32>,
}

/// The scopes of a function in order of their beginnings, the scopes of its labels and of its case
/// labels by number, and its `switch`es in order.
#[derive(Drop)]
pub struct ScopeTree<'a> {
    pub scopes: Vec<Scope<'a>>,
    pub labels: Vec<u32>,
    pub cases: Vec<u32>,
    pub choices: Vec<Choice>,
}

/// Replaces a number of a list, where there is one.
fn set(list: &mut Vec<u32>, at: u32, value: u32)
    ensures { list.new.items ≡ slice_set list.old.items at value }
{
    if (at as usize) < list.len() {
        list[at as usize] = value;
    }
}

/// So many zeros.
fn zeros(alloc: Global, count: usize) -> Result<Vec<u32>, AllocError>
    ensures { IfOk result (λ v. v.items ≡ replicate count 0) }
{
    Ok(vec![in alloc; 0u32; count]?)
}

/// The `switch` whose default label stands in a scope.
fn default_noted(choice: Choice, scope: u32) -> Choice
    ensures { result ≡ default_noted choice scope }
{
    Choice {
        first: choice.first,
        fallback: Some(scope),
    }
}

impl<'a> ScopeTree<'a> {
    #[tactic(auto, unfolding(crate::specs::Worklist::Scopes::with_new_scope))]
    fn begin(&mut self, around: u32, objects: &'a [u32]) -> Result<u32, AllocError>
        ensures number { IfOk result (λ n. n ≡ length (tree_view self.old).scopes) }
        ensures after { IfOk result (λ _. tree_view self.new ≡ with_new_scope around objects.now (tree_view self.old)) }
    {
        let number = u32::try_from(self.scopes.len()).ok().ok_or(AllocError)?;
        self.scopes.push(Scope { around, objects })?;
        Ok(number)
    }

    #[tactic(auto, unfolding(crate::specs::Worklist::Scopes::with_choice))]
    fn choose(&mut self, alloc: Global, cases: usize) -> Result<u32, AllocError>
        ensures number { IfOk result (λ n. n ≡ length (tree_view self.old).choices) }
        ensures after { IfOk result (λ _. tree_view self.new ≡ with_choice cases (tree_view self.old)) }
    {
        let number = u32::try_from(self.choices.len()).ok().ok_or(AllocError)?;
        let first = u32::try_from(self.cases.len()).ok().ok_or(AllocError)?;
        let mut more = zeros(alloc, cases)?;
        self.cases.append(&mut more)?;
        self.choices.push(Choice {
            first,
            fallback: None,
        })?;
        Ok(number)
    }

    #[tactic(auto, unfolding(crate::specs::Worklist::Scopes::with_case))]
    fn note_case(&mut self, choice: u32, case: u32, scope: u32)
        ensures { tree_view self.new ≡ with_case choice case scope (tree_view self.old) }
    {
        if let Some(found) = self.choices.get(choice as usize) {
            let at = found.first.saturating_add(case);
            set(&mut self.cases, at, scope);
        }
    }

    #[tactic(auto, unfolding(crate::specs::Worklist::Scopes::with_default))]
    fn note_default(&mut self, choice: u32, scope: u32)
        ensures { tree_view self.new ≡ with_default choice scope (tree_view self.old) }
    {
        if let Some(found) = self.choices.get(choice as usize) {
            let noted = default_noted(*found, scope);
            self.choices[choice as usize] = noted;
        }
    }

    #[tactic(auto, unfolding(crate::specs::Worklist::Scopes::with_label))]
    fn note_label(&mut self, label: u32, scope: u32)
        ensures { tree_view self.new ≡ with_label label scope (tree_view self.old) }
    {
        set(&mut self.labels, label, scope);
    }

    /// A scope of the function; an empty one for a number that has none.
    pub fn scope(&self, number: u32) -> Scope<'a>
        ensures around { result.around ≡ (scope_at (tree_view self.now).scopes number).around }
        ensures objects { result.objects.now ≡ (scope_at (tree_view self.now).scopes number).objects }
    {
        match self.scopes.get(number as usize) {
            Some(found) => *found,
            None => Scope {
                around: 0,
                objects: &[],
            },
        }
    }
}

/// Notes the scopes and labels of statements in order.
#[cycle(scopes)]
fn visit_all<'a>(
    alloc: Global,
    tree: &mut ScopeTree<'a>,
    list: &'a [CheckedStatement],
    scope: u32,
    choice: u32,
) -> Result<(), AllocError>
    ensures { IfOk result (λ _. tree_view tree.new ≡ all_scoped (statement_trees (map statement_tree list.now)) scope choice (tree_view tree.old)) }
{
    for statement in list {
        visit(alloc, tree, statement, scope, choice)?;
    }
    Ok(())
}

/// Notes the scopes and labels of a statement that stands in a scope and in a `switch`.
#[cycle(scopes)]
fn visit<'a>(
    alloc: Global,
    tree: &mut ScopeTree<'a>,
    statement: &'a CheckedStatement,
    scope: u32,
    choice: u32,
) -> Result<(), AllocError>
    ensures { IfOk result (λ _. tree_view tree.new ≡ scoped (statement_tree statement.now) scope choice (tree_view tree.old)) }
{
    match statement {
        CheckedStatement::Value(_) => Ok(()),
        CheckedStatement::Nothing => Ok(()),
        CheckedStatement::Forget(_, _) => Ok(()),
        CheckedStatement::Start(_, _, _) => Ok(()),
        CheckedStatement::StartCopy(_, _, _) => Ok(()),
        CheckedStatement::StartList(_, _, _) => Ok(()),
        CheckedStatement::Block(objects, list) => {
            let inside = tree.begin(scope, objects.as_slice())?;
            visit_all(alloc, tree, list.as_slice(), inside, choice)
        }
        CheckedStatement::If(_, body) => visit(alloc, tree, body, scope, choice),
        CheckedStatement::IfElse(_, body, other) => {
            visit(alloc, tree, body, scope, choice)?;
            visit(alloc, tree, other, scope, choice)
        }
        CheckedStatement::While(_, body) => visit(alloc, tree, body, scope, choice),
        CheckedStatement::Do(body, _) => visit(alloc, tree, body, scope, choice),
        CheckedStatement::For(objects, first, _, _, body) => {
            let inside = tree.begin(scope, objects.as_slice())?;
            visit_all(alloc, tree, first.as_slice(), inside, choice)?;
            visit(alloc, tree, body, inside, choice)
        }
        CheckedStatement::Switch(_, _, cases, _, _, body) => {
            let inside = tree.choose(alloc, cases.len())?;
            visit(alloc, tree, body, scope, inside)
        }
        CheckedStatement::Case(number, body) => {
            tree.note_case(choice, *number, scope);
            visit(alloc, tree, body, scope, choice)
        }
        CheckedStatement::Default(body) => {
            tree.note_default(choice, scope);
            visit(alloc, tree, body, scope, choice)
        }
        CheckedStatement::Label(number, body) => {
            tree.note_label(*number, scope);
            visit(alloc, tree, body, scope, choice)
        }
        CheckedStatement::Goto(_) => Ok(()),
        CheckedStatement::Break => Ok(()),
        CheckedStatement::Continue => Ok(()),
        CheckedStatement::Return(_, _) => Ok(()),
    }
}

/// No scopes, and so many labels.
fn no_scopes<'a>(alloc: Global, labels: u32) -> Result<ScopeTree<'a>, AllocError>
    ensures { IfOk result (λ t. tree_view t ≡ no_scopes labels) }
{
    let labels = zeros(alloc, labels as usize)?;
    Ok(ScopeTree {
        scopes: Vec::new(alloc),
        labels,
        cases: Vec::new(alloc),
        choices: Vec::new(alloc),
    })
}

/// The scopes of a function. Scope 1 is that of its outermost block.
pub fn scope_tree<'a>(alloc: Global, function: &'a Function) -> Result<ScopeTree<'a>, AllocError>
    ensures { IfOk result (λ t. tree_view t ≡ function_scopes (function_view function.now)) }
{
    let mut tree = no_scopes(alloc, function.labels)?;
    tree.begin(0, &[])?;
    tree.begin(0, function.scope.as_slice())?;
    visit_all(alloc, &mut tree, function.body.as_slice(), 1, 0)?;
    Ok(tree)
}
