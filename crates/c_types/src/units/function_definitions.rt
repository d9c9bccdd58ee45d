//! Function definitions (6.9.1 of ISO/IEC 9899:2011).
ghost use Rattle.std.specs.Prelude.{◌≡◌, map};
ghost use Rattle.c_layout.specs.DeclarationTrees as syntax;
ghost use Rattle.c_layout.specs.DeclarationTrees.{
  name_view,
  spec_tree,
  function_declarator_view,
  statement_trees,
};
ghost use Rattle.c_layout.specs.CheckedUnits.{function_view};
ghost use Rattle.c_types_scopes.specs.Answers.{Leads};
ghost use Rattle.c_types_scopes.specs.States.{state};
ghost use Rattle.c_types_declarations.specs.Specifiers.{specified_view};
ghost use Rattle.c_types_declarations.specs.FunctionHeads.{head_view};
ghost use Rattle.c_types_statement_rules.specs.Objects.LocalObjects.{parts_view};
ghost use Rattle.c_types.specs.Units.FunctionDefinitions as spec;

use crate::file_scope::{function_slot, is_typedef, judged_head, taken_body};
use c_layout::{Function, FunctionDeclarator, Name, SpecWord, Statement};
use c_types_declarations::{FunctionHead, Specified, function_head, specifiers_of};
use c_types_scopes::{Body, Context, type_fault};
use c_types_statement_rules::objects::BlockParts;
use c_types_statement_rules::statement_rules::{BodyFlow, no_parts};
use c_types_statements::{add_labels, items};
use cc_base::{Place, Stop};

/// The body at hand is that of the function of a name.
fn number_body(cx: &mut Context, known: u32)
    ensures { state cx.new ≡ spec.with_number known (state cx.old) }
{
    let number = match cx.definitions.function(known) {
        Some(number) => number,
        None => 0,
    };
    cx.body.number = number;
}

/// The head of a definition, in a scope of its own that stays open.
fn defined_head(
    cx: &mut Context,
    base: &Specified,
    declarator: &FunctionDeclarator,
) -> Result<FunctionHead, Stop>
    ensures { Leads head_view (spec.defined_head (state cx.old) (specified_view base.now) (function_declarator_view declarator.now)) result (state cx.new) }
{
    let slot = function_slot(cx, &declarator.name)?;
    cx.scopes.open()?;
    let head = function_head(cx, &base.declared, declarator)?;
    judged_head(cx, &declarator.name, slot, &head)?;
    number_body(cx, slot.known);
    Ok(head)
}

/// The parts of a body that is typed in the scope of its parameters, and how many labels it has.
fn body_parts(
    cx: &mut Context,
    head: &FunctionHead,
    list: &[Statement],
) -> Result<(BlockParts, u32), Stop>
    ensures { Leads (λ r. (parts_view r.0, r.1)) (spec.body_parts (head_view head.now) (statement_trees (map syntax.statement_tree list.now)) (state cx.old)) result (state cx.new) }
{
    let result_type = head.declared.ctype.copy(cx.alloc)?;
    let mut flow = BodyFlow::new(cx.alloc, result_type);
    add_labels(cx, &mut flow, list)?;
    let mut parts = no_parts(cx.alloc);
    items(cx, &mut flow, list, &mut parts)?;
    Ok((parts, flow.label_count()))
}

/// A function of the parts of its body.
fn function_of_parts(
    cx: &mut Context,
    name: &Name,
    head: FunctionHead,
    body: (BlockParts, u32),
) -> Result<Function, Stop>
    ensures { Leads function_view (spec.function_of_parts (name_view name.now) (head_view head) (parts_view body.0, body.1) (state cx.old)) result (state cx.new) }
{
    let parameters = u32::try_from(head.parameters.len()).map_err(|_| Stop::Memory)?;
    let text = name.text.copy(cx.alloc)?;
    let (parts, labels) = body;
    let BlockParts {
        objects,
        statements,
    } = parts;
    let FunctionHead { declared, .. } = head;
    let Body { locals, .. } = taken_body(cx);
    Ok(Function {
        name: text,
        place: name.place,
        result: declared.ctype,
        parameters,
        locals,
        scope: objects,
        body: statements,
        labels,
    })
}

/// The function with a body whose head has a type.
fn with_body(
    cx: &mut Context,
    name: &Name,
    list: &[Statement],
    head: FunctionHead,
) -> Result<Function, Stop>
    ensures { Leads function_view (spec.with_body (name_view name.now) (statement_trees (map syntax.statement_tree list.now)) (head_view head) (state cx.old)) result (state cx.new) }
{
    let body = body_parts(cx, &head, list)?;
    function_of_parts(cx, name, head, body)
}

/// A definition whose specifiers are read.
fn defined(
    cx: &mut Context,
    declarator: &FunctionDeclarator,
    list: &[Statement],
    base: &Specified,
) -> Result<Function, Stop>
    ensures { Leads function_view (spec.defined (function_declarator_view declarator.now) (statement_trees (map syntax.statement_tree list.now)) (specified_view base.now) (state cx.old)) result (state cx.new) }
{
    let head = defined_head(cx, base, declarator)?;
    let made = with_body(cx, &declarator.name, list, head)?;
    cx.scopes.close();
    Ok(made)
}

/// A function definition.
pub fn function_definition(
    cx: &mut Context,
    place: Place,
    words: &[SpecWord],
    declarator: &FunctionDeclarator,
    list: &[Statement],
) -> Result<Function, Stop>
    ensures { Leads function_view (spec.function_definition (state cx.old) place (map spec_tree words.now) (function_declarator_view declarator.now) (map syntax.statement_tree list.now)) result (state cx.new) }
{
    let base = specifiers_of(cx, place, words, false)?;
    if is_typedef(base.storage) {
        return Err(type_fault(declarator.name.place));
    }
    defined(cx, declarator, list, &base)
}
