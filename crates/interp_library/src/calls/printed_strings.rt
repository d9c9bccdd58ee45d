//! `printf` (7.21.6.3 of ISO/IEC 9899:2011).
ghost use Rattle.std.specs.Prelude.{◌≡◌, map, true};
ghost use Rattle.c_layout.specs.Models.{is_model};
ghost use Rattle.memory_model.specs.Effects.LibraryCalls as calls;
ghost use Rattle.interp_memory.specs.ByteViews.{scalar_view};
ghost use Rattle.interp_accesses.specs.WorldViews.{world_view, ComesTo, nothing_view};
ghost use Rattle.interp_accesses.specs.Reaches.{reach_view};

use c_layout::Model;
use interp_accesses::{Cause, Halt, Reach, World7, reached, string_length};
use interp_memory::{Value7, unlabelled};

// The pointers among arguments, each of which is a string.
fn strings_in(w: &mut World7, arguments: &[Value7]) -> Result<Vec<Reach>, Halt>
    ensures { ComesTo (λ rs. map reach_view rs.items) (calls.strings_in (map scalar_view arguments.now) (world_view w.old)) result (world_view w.new) }
{
    let mut strings = Vec::new(w.alloc);
    for argument in arguments {
        match argument {
            Value7::Int(_, _) => {}
            Value7::Ptr(p) => {
                let reach = reached(w, *p)?;
                match strings.push(reach) {
                    Ok(()) => {}
                    Err(_) => return Err(Halt::Memory),
                }
            }
        }
    }
    Ok(strings)
}

fn all_scanned(w: &mut World7, strings: &[Reach]) -> Result<(), Halt>
    ensures { ComesTo nothing_view (calls.all_scanned (map reach_view strings.now) (world_view w.old)) result (world_view w.new) }
{
    for reach in strings {
        string_length(w, *reach)?;
    }
    Ok(())
}

// The greatest number of the type int.
fn most_int(model: &Model) -> i128
    requires { is_model model.now ≡ true }
    ensures { result ≡ calls.most_int model.now }
{
    if model.int == 2 { 0x7fff } else { 0x7fff_ffff }
}

/// `printf`. The format, a literal, is not scanned; the strings are, and then the outside says how many
/// characters were written.
pub fn printf(w: &mut World7, model: &Model, arguments: &[Value7]) -> Result<Value7, Halt>
    requires { is_model model.now ≡ true }
    ensures { ComesTo scalar_view (calls.printf model.now (map scalar_view arguments.now) (world_view w.old)) result (world_view w.new) }
{
    match arguments {
        [Value7::Ptr(format), rest @ ..] => {
            reached(w, *format)?;
            let strings = strings_in(w, rest)?;
            all_scanned(w, strings.as_slice())?;
            let written = w.draw(0, most_int(model))?;
            Ok(Value7::Int(written, unlabelled()))
        }
        _ => Err(Halt::Stops(Cause::Stuck)),
    }
}
