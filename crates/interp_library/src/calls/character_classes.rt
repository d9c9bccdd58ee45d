//! Functions on characters (7.4 of ISO/IEC 9899:2011) in the "C" locale.
ghost use Rattle.std.specs.Prelude.{◌≡◌, map};
ghost use Rattle.c_layout.specs.declared.library_functions.LibFn.TheVariants as f;
ghost use Rattle.memory_model.specs.Effects.CharacterCalls as machine;
ghost use Rattle.memory_model.specs.Effects.LibraryCalls as calls;
ghost use Rattle.interp_memory.specs.ByteViews.{labels_view, scalar_view};
ghost use Rattle.interp_accesses.specs.WorldViews.{world_view, ComesTo};

use c_layout::{LibFn, has_class, is_lower, is_upper, lies_in};
use cc_base::Rule;
use interp_accesses::{Cause, Halt, World7, truth_value};
use interp_memory::{LabelSet, Value7};

fn raised(c: i128, labels: LabelSet) -> Value7
    ensures { scalar_view result ≡ machine.answer f.Toupper c (labels_view labels) }
{
    if is_lower(c) {
        Value7::Int(c - 32, labels)
    } else {
        Value7::Int(c, labels)
    }
}

fn lowered(c: i128, labels: LabelSet) -> Value7
    ensures { scalar_view result ≡ machine.answer f.Tolower c (labels_view labels) }
{
    if is_upper(c) {
        Value7::Int(c + 32, labels)
    } else {
        Value7::Int(c, labels)
    }
}

// What a function gives for a character.
fn answer(function: LibFn, c: i128, labels: LabelSet) -> Value7
    ensures { scalar_view result ≡ machine.answer function c (labels_view labels) }
{
    match function {
        LibFn::Toupper => raised(c, labels),
        LibFn::Tolower => lowered(c, labels),
        _ => truth_value(has_class(function, c)),
    }
}

// An unsigned character or EOF.
fn on_character(w: &mut World7, function: LibFn, c: i128, labels: LabelSet) -> Result<Value7, Halt>
    ensures { ComesTo scalar_view (machine.on_character function c (labels_view labels) (world_view w.old)) result (world_view w.new) }
{
    if lies_in(-1, 255, c) {
        Ok(answer(function, c, labels))
    } else {
        Err(w.stopped_by(Rule::Chrsgnext))
    }
}

/// A function on one character.
pub fn character_call(w: &mut World7, function: LibFn, arguments: &[Value7]) -> Result<Value7, Halt>
    ensures { ComesTo scalar_view (calls.character_call function (map scalar_view arguments.now) (world_view w.old)) result (world_view w.new) }
{
    match arguments {
        [Value7::Int(c, labels)] => on_character(w, function, *c, *labels),
        _ => Err(Halt::Stops(Cause::Stuck)),
    }
}
