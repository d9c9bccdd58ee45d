//! Nodes of trees, made of their parts. Each refuses where its height would pass the budget.
ghost use Rattle.std.specs.Prelude.{◌≡◌, ◌+◌, ◌≤◌, [], ◌∷◌, ◌++◌, max, map, IfOk, IfErr};
ghost use Rattle.c_layout.specs.SyntaxTrees as tree;
ghost use Rattle.c_layout.specs.SyntaxTrees.{tree_of, trees, type_name_view};
ghost use Rattle.c_parser_expression_grammar.specs.Findings.{infix_tree};
ghost use Rattle.c_parser_expression_grammar.specs.ReadingResults.{OnSyntax};

use crate::heights::{Parsed, Trouble, made};
use crate::operators::Infix;
use crate::type_name_parts::TypeNameParts;
use c_layout::{AssignOp, Expr, Name, StepOp, UnaryOp};
use cc_base::Place;
use std::alloc::{AllocError, Global};

/// Adds an expression at the end of a list.
pub fn add_expression(list: &mut Vec<Expr>, node: Box<Expr>) -> Result<(), AllocError>
    ensures { IfOk result (λ _. map tree_of list.new.items ≡ map tree_of list.old.items ++ tree_of node.value ∷ []) }
{
    Ok(list.push(Box::into_inner(node))?)
}

/// An expression without parts.
pub fn leaf_node(alloc: Global, leaf: Expr) -> Result<Parsed<Box<Expr>>, Trouble>
    ensures tree { IfOk result (λ n. tree_of n.tree.value ≡ tree_of leaf) }
    ensures height { IfOk result (λ n. n.height ≡ 0) }
    ensures memory { IfErr result (λ e. e ≡ Trouble.Memory) }
{
    Ok(Parsed {
        tree: Box::new(alloc, leaf)?,
        height: 0,
    })
}

/// Two operands and the operator between them.
pub fn infix_node(
    alloc: Global,
    place: Place,
    op: Infix,
    left: Parsed<Box<Expr>>,
    right: Parsed<Box<Expr>>,
    budget: u32,
) -> Result<Parsed<Box<Expr>>, Trouble>
    ensures tree { IfOk result (λ n. tree_of n.tree.value ≡ infix_tree op place (tree_of left.tree.value) (tree_of right.tree.value)) }
    ensures height { IfOk result (λ n. (n.height ≡ max left.height right.height + 1) × (n.height ≤ budget)) }
    ensures refused { IfErr result (OnSyntax (budget ≤ max left.height right.height)) }
{
    let height = made(budget, left.height.max(right.height))?;
    let tree = match op {
        Infix::Binary(op) => Expr::Binary(place, op, left.tree, right.tree),
        Infix::Logical(op) => Expr::Logical(place, op, left.tree, right.tree),
    };
    let tree = Box::new(alloc, tree)?;
    Ok(Parsed { tree, height })
}

/// `?:`
pub fn conditional_node(
    alloc: Global,
    place: Place,
    condition: Parsed<Box<Expr>>,
    first: Parsed<Box<Expr>>,
    second: Parsed<Box<Expr>>,
    budget: u32,
) -> Result<Parsed<Box<Expr>>, Trouble>
    ensures tree { IfOk result (λ n. tree_of n.tree.value ≡ tree.Conditional place (tree_of condition.tree.value) (tree_of first.tree.value) (tree_of second.tree.value)) }
    ensures height { IfOk result (λ n. (n.height ≡ max (max condition.height first.height) second.height + 1) × (n.height ≤ budget)) }
    ensures refused { IfErr result (OnSyntax (budget ≤ max (max condition.height first.height) second.height)) }
{
    let parts = condition.height.max(first.height).max(second.height);
    let height = made(budget, parts)?;
    let tree = Expr::Conditional(place, condition.tree, first.tree, second.tree);
    let tree = Box::new(alloc, tree)?;
    Ok(Parsed { tree, height })
}

/// An assignment.
pub fn assign_node(
    alloc: Global,
    place: Place,
    op: AssignOp,
    left: Parsed<Box<Expr>>,
    right: Parsed<Box<Expr>>,
    budget: u32,
) -> Result<Parsed<Box<Expr>>, Trouble>
    ensures tree { IfOk result (λ n. tree_of n.tree.value ≡ tree.Assign place op (tree_of left.tree.value) (tree_of right.tree.value)) }
    ensures height { IfOk result (λ n. (n.height ≡ max left.height right.height + 1) × (n.height ≤ budget)) }
    ensures refused { IfErr result (OnSyntax (budget ≤ max left.height right.height)) }
{
    let height = made(budget, left.height.max(right.height))?;
    let tree = Box::new(alloc, Expr::Assign(place, op, left.tree, right.tree))?;
    Ok(Parsed { tree, height })
}

/// `,`
pub fn comma_node(
    alloc: Global,
    place: Place,
    first: Parsed<Box<Expr>>,
    second: Parsed<Box<Expr>>,
    budget: u32,
) -> Result<Parsed<Box<Expr>>, Trouble>
    ensures tree { IfOk result (λ n. tree_of n.tree.value ≡ tree.Comma place (tree_of first.tree.value) (tree_of second.tree.value)) }
    ensures height { IfOk result (λ n. (n.height ≡ max first.height second.height + 1) × (n.height ≤ budget)) }
    ensures refused { IfErr result (OnSyntax (budget ≤ max first.height second.height)) }
{
    let height = made(budget, first.height.max(second.height))?;
    let tree = Box::new(alloc, Expr::Comma(place, first.tree, second.tree))?;
    Ok(Parsed { tree, height })
}

/// Parentheses.
pub fn paren_node(
    alloc: Global,
    place: Place,
    operand: Parsed<Box<Expr>>,
    budget: u32,
) -> Result<Parsed<Box<Expr>>, Trouble>
    ensures tree { IfOk result (λ n. tree_of n.tree.value ≡ tree.Paren place (tree_of operand.tree.value)) }
    ensures height { IfOk result (λ n. (n.height ≡ operand.height + 1) × (n.height ≤ budget)) }
    ensures refused { IfErr result (OnSyntax (budget ≤ operand.height)) }
{
    let height = made(budget, operand.height)?;
    let tree = Box::new(alloc, Expr::Paren(place, operand.tree))?;
    Ok(Parsed { tree, height })
}

/// `++` or `--` before an operand.
pub fn prefix_node(
    alloc: Global,
    place: Place,
    op: StepOp,
    operand: Parsed<Box<Expr>>,
    budget: u32,
) -> Result<Parsed<Box<Expr>>, Trouble>
    ensures tree { IfOk result (λ n. tree_of n.tree.value ≡ tree.Prefix place op (tree_of operand.tree.value)) }
    ensures height { IfOk result (λ n. (n.height ≡ operand.height + 1) × (n.height ≤ budget)) }
    ensures refused { IfErr result (OnSyntax (budget ≤ operand.height)) }
{
    let height = made(budget, operand.height)?;
    let tree = Box::new(alloc, Expr::Prefix(place, op, operand.tree))?;
    Ok(Parsed { tree, height })
}

/// A unary operator.
pub fn unary_node(
    alloc: Global,
    place: Place,
    op: UnaryOp,
    operand: Parsed<Box<Expr>>,
    budget: u32,
) -> Result<Parsed<Box<Expr>>, Trouble>
    ensures tree { IfOk result (λ n. tree_of n.tree.value ≡ tree.Unary place op (tree_of operand.tree.value)) }
    ensures height { IfOk result (λ n. (n.height ≡ operand.height + 1) × (n.height ≤ budget)) }
    ensures refused { IfErr result (OnSyntax (budget ≤ operand.height)) }
{
    let height = made(budget, operand.height)?;
    let tree = Box::new(alloc, Expr::Unary(place, op, operand.tree))?;
    Ok(Parsed { tree, height })
}

/// `sizeof` of an expression.
pub fn sizeof_node(
    alloc: Global,
    place: Place,
    operand: Parsed<Box<Expr>>,
    budget: u32,
) -> Result<Parsed<Box<Expr>>, Trouble>
    ensures tree { IfOk result (λ n. tree_of n.tree.value ≡ tree.SizeofExpr place (tree_of operand.tree.value)) }
    ensures height { IfOk result (λ n. (n.height ≡ operand.height + 1) × (n.height ≤ budget)) }
    ensures refused { IfErr result (OnSyntax (budget ≤ operand.height)) }
{
    let height = made(budget, operand.height)?;
    let tree = Box::new(alloc, Expr::SizeofExpr(place, operand.tree))?;
    Ok(Parsed { tree, height })
}

/// A cast.
pub fn cast_node(
    alloc: Global,
    place: Place,
    named: Parsed<Box<TypeNameParts>>,
    operand: Parsed<Box<Expr>>,
    budget: u32,
) -> Result<Parsed<Box<Expr>>, Trouble>
    ensures tree { IfOk result (λ n. tree_of n.tree.value ≡ tree.Cast place (type_name_view named.tree.value.name) (trees (map tree_of named.tree.value.lengths.items)) (tree_of operand.tree.value)) }
    ensures height { IfOk result (λ n. (n.height ≡ max named.height operand.height + 1) × (n.height ≤ budget)) }
    ensures refused { IfErr result (OnSyntax (budget ≤ max named.height operand.height)) }
{
    let height = made(budget, named.height.max(operand.height))?;
    let TypeNameParts { name, lengths } = Box::into_inner(named.tree);
    let tree = Box::new(alloc, Expr::Cast(place, name, lengths, operand.tree))?;
    Ok(Parsed { tree, height })
}

/// `sizeof` of a type name.
pub fn sizeof_type_node(
    alloc: Global,
    place: Place,
    named: Parsed<Box<TypeNameParts>>,
    budget: u32,
) -> Result<Parsed<Box<Expr>>, Trouble>
    ensures tree { IfOk result (λ n. tree_of n.tree.value ≡ tree.SizeofType place (type_name_view named.tree.value.name) (trees (map tree_of named.tree.value.lengths.items))) }
    ensures height { IfOk result (λ n. (n.height ≡ named.height + 1) × (n.height ≤ budget)) }
    ensures refused { IfErr result (OnSyntax (budget ≤ named.height)) }
{
    let height = made(budget, named.height)?;
    let TypeNameParts { name, lengths } = Box::into_inner(named.tree);
    let tree = Box::new(alloc, Expr::SizeofType(place, name, lengths))?;
    Ok(Parsed { tree, height })
}

/// A call.
pub fn call_node(
    alloc: Global,
    name: Name,
    arguments: Parsed<Vec<Expr>>,
    budget: u32,
) -> Result<Parsed<Box<Expr>>, Trouble>
    ensures tree { IfOk result (λ n. tree_of n.tree.value ≡ tree.Call name.place name.text (trees (map tree_of arguments.tree.items))) }
    ensures height { IfOk result (λ n. (n.height ≡ arguments.height + 1) × (n.height ≤ budget)) }
    ensures refused { IfErr result (OnSyntax (budget ≤ arguments.height)) }
{
    let height = made(budget, arguments.height)?;
    let Name { place, text } = name;
    let tree = Box::new(alloc, Expr::Call(place, text, arguments.tree))?;
    Ok(Parsed { tree, height })
}
