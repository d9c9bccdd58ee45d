//! Initializers of objects of static storage (6.7.9 of ISO/IEC 9899:2011).
ghost use Rattle.std.specs.Prelude.{◌≡◌};
ghost use Rattle.c_layout.specs.Types.{view};
ghost use Rattle.c_layout.specs.DeclarationTrees.{initializer_tree};
ghost use Rattle.c_types_scopes.specs.Answers.{Leads};
ghost use Rattle.c_types_scopes.specs.Known.{known};
ghost use Rattle.c_types_scopes.specs.States.{state};
ghost use Rattle.c_types_initializers.specs.Initialized.{initialized_view};
ghost use Rattle.c_types_initializers.specs.StaticStores.{stores_view};
ghost use Rattle.c_types_statements.specs.StaticInitializers as spec;

use c_layout::{CType, Initializer, StaticStore};
use c_types_declarations::{Initialized, initializer_of, static_stores};
use c_types_scopes::{Context, type_fault};
use c_types_statement_rules::objects::set_static;
use cc_base::{Place, Stop};

/// Whether a type is complete.
pub fn has_size(cx: &Context, t: &CType) -> bool
    ensures { result ≡ spec.has_size (known cx.now) (view t.now) }
{
    cx.size_of(t).is_some()
}

/// Gives an object of the run its stores.
fn set_stores(cx: &mut Context, number: u32, stores: Vec<StaticStore>)
    ensures { state cx.new ≡ spec.with_object_stores number (stores_view stores) (state cx.old) }
{
    if let Some(object) = cx.statics.get_mut(number as usize) {
        object.stores = stores;
    }
}

/// Gives an object the type and the stores that its initializer gives, which are constant.
fn store_static(
    cx: &mut Context,
    equals: Place,
    index: u32,
    number: u32,
    made: Initialized,
    ctype: CType,
) -> Result<(), Stop>
    ensures { Leads (λ _. tt) (spec.store_static equals index number (initialized_view made) (view ctype) (state cx.old)) result (state cx.new) }
{
    let stores = static_stores(cx, equals, made)?;
    set_static(cx, index, number, ctype)?;
    set_stores(cx, number, stores);
    cx.note_initializer(number, equals)?;
    Ok(())
}

/// An initializer that has types. Where its object's type is not complete then, it is refused.
fn judged_static(
    cx: &mut Context,
    index: u32,
    number: u32,
    equals: Place,
    initialized: (Initialized, CType),
) -> Result<(), Stop>
    ensures { Leads (λ _. tt) (spec.judged_static index number equals (initialized_view initialized.0, view initialized.1) (state cx.old)) result (state cx.new) }
{
    let (made, ctype) = initialized;
    if has_size(cx, &ctype) {
        store_static(cx, equals, index, number, made, ctype)
    } else {
        Err(type_fault(equals))
    }
}

/// The initializer of an object by its numbers among those declared and those of the run.
///
/// # Errors
///
/// A refusal of an expression; or, at the `=`, that of a type which does not go with the object's, of
/// an array whose length the initializer gives and which is larger than any type (`TypeFault`), or of
/// what is no constant (6.7.9p4); or want of memory.
pub fn static_initializer(
    cx: &mut Context,
    index: u32,
    number: u32,
    equals: Place,
    ctype: CType,
    initializer: &Initializer,
) -> Result<(), Stop>
    ensures { Leads (λ _. tt) (spec.static_initializer (state cx.old) index number equals (view ctype) (initializer_tree initializer.now)) result (state cx.new) }
{
    let made = initializer_of(cx, equals, ctype, initializer)?;
    judged_static(cx, index, number, equals, made)
}
