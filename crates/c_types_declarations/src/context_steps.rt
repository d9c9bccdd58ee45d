//! Steps of what typing knows: a struct more, a tag or an identifier more (6.2.1 of ISO/IEC
//! 9899:2011).
ghost use Rattle.std.specs.Prelude.{◌≡◌, IfOk, length};
ghost use Rattle.c_layout.specs.StructViews.{struct_view};
ghost use Rattle.c_types_scopes.specs.StructTables as types;
ghost use Rattle.c_types_scopes.specs.States.{state};
ghost use Rattle.c_types_declarations.specs.ContextSteps as spec;

use c_layout::StructType;
use c_types_scopes::{Context, Meaning, Tag};
use cc_base::Memory;

/// Declares a struct of which nothing is known; its number.
pub fn declare_struct(cx: &mut Context) -> Result<u32, Memory>
    ensures number { IfOk result (λ n. n ≡ length (state cx.old).types.structs) }
    ensures after { IfOk result (λ _. state cx.new ≡ spec.with_struct (state cx.old)) }
{
    cx.types.declare(cx.alloc)
}

/// Notes that a body of a struct begins; whether one did before.
pub fn begin_body(cx: &mut Context, owner: u32) -> Result<bool, Memory>
    ensures before { IfOk result (λ b. b ≡ types.has_body (state cx.old).types owner) }
    ensures after { IfOk result (λ _. state cx.new ≡ spec.with_body (state cx.old) owner) }
{
    cx.types.begin_body(owner)
}

/// Notes a member: it is the field with this number.
pub fn note_member(
    cx: &mut Context,
    owner: u32,
    name: u32,
    field: u32,
    enumeration: Option<u32>,
) -> Result<(), Memory>
    ensures { IfOk result (λ _. state cx.new ≡ spec.with_member (state cx.old) owner name field enumeration) }
{
    cx.types.note_member(owner, name, field, enumeration)
}

/// Completes a struct.
pub fn complete(cx: &mut Context, number: u32, made: StructType)
    ensures { state cx.new ≡ spec.with_complete (state cx.old) number (struct_view made) }
{
    cx.types.complete(number, made)
}

/// Declares a tag in the innermost scope.
pub fn declare_tag(cx: &mut Context, name: u32, tag: Tag) -> Result<(), Memory>
    ensures { IfOk result (λ _. state cx.new ≡ spec.with_tag (state cx.old) name tag) }
{
    cx.scopes.declare_tag(name, tag)
}

/// Declares an identifier in the innermost scope.
pub fn declare_meaning(cx: &mut Context, name: u32, meaning: Meaning) -> Result<(), Memory>
    ensures { IfOk result (λ _. state cx.new ≡ spec.with_meaning (state cx.old) name meaning) }
{
    cx.scopes.declare(name, meaning)
}
