//! Characters from the outside and to it (7.21.7.6 and 7.21.7.8 of ISO/IEC 9899:2011).
ghost use Rattle.std.specs.Prelude.{◌≡◌, map};
ghost use Rattle.c_layout.specs.declared.data_model.Model.{Model};
ghost use Rattle.memory_model.specs.Memory.Labels.{input_labels};
ghost use Rattle.memory_model.specs.Memory.Scalars.{integer};
ghost use Rattle.memory_model.specs.Effects.LibraryCalls as calls;
ghost use Rattle.interp_memory.specs.ByteViews.{scalar_view};
ghost use Rattle.interp_accesses.specs.WorldViews.{world_view, ComesTo};

use crate::worlds::{Cause, Halt, World7};
use c_layout::Model;
use interp_memory::{LabelSet, Value7};

// A number of the type int from the outside.
fn input(number: i128) -> Value7
    ensures { (m : Model) → scalar_view result ≡ integer number (input_labels (calls.int_type m)) }
{
    Value7::Int(
        number,
        LabelSet {
            low: true,
            high: true,
            changed: false,
        },
    )
}

/// `getchar`.
pub fn getchar(w: &mut World7, model: &Model) -> Result<Value7, Halt>
    ensures { ComesTo scalar_view (calls.getchar model.now (world_view w.old)) result (world_view w.new) }
{
    let character = w.draw(-1, 255)?;
    Ok(input(character))
}

/// `putchar`.
pub fn putchar(w: &World7, arguments: &[Value7]) -> Result<Value7, Halt>
    ensures { ComesTo scalar_view (calls.putchar (map scalar_view arguments.now) (world_view w.now)) result (world_view w.now) }
{
    match arguments {
        [Value7::Int(character, labels)] => { Ok(Value7::Int(character.rem_euclid(256), *labels)) }
        _ => Err(Halt::Stops(Cause::Stuck)),
    }
}
