//! Texts of initializers (6.7.9p14 of ISO/IEC 9899:2011).
ghost use Rattle.std.specs.Prelude.{◌≡◌, ◌++◌, ◌∷◌, [], IfOk, take};
ghost use Rattle.memory_model.specs.Memory.Labels.{no_labels};
ghost use Rattle.memory_model.specs.Memory.Bytes.{number};
ghost use Rattle.memory_model.specs.Effects.ObjectEffects as machine;
ghost use Rattle.memory_model.specs.Effects.ObjectEffects.{characters};
ghost use Rattle.interp_memory.specs.ByteViews.{content_view, contents_view};
ghost use Rattle.interp_accesses.specs.WorldViews.{world_view, Leaves};
ghost use Rattle.interp_starts.specs.Starts.Rewrites.{Becomes, rewritten};

use interp_accesses::{Halt, World7};
use interp_memory::{Content7, Memory7, Spot, unlabelled};
use std::alloc::{AllocError, Global};

// A character of a text.
fn character(c: u8) -> Content7
    ensures { content_view result ≡ number c no_labels }
{
    Content7::Number(c, unlabelled())
}

// The characters of a text.
fn characters_of(alloc: Global, text: &[u8]) -> Result<Vec<Content7>, AllocError>
    ensures { IfOk result (λ cs. contents_view cs.items ≡ characters text.now) }
{
    let mut contents = Vec::new(alloc);
    for c in text {
        contents.push(character(*c))?;
    }
    Ok(contents)
}

/// A text and its closing zero, as far as they fit into so many bytes.
pub fn text_contents(alloc: Global, text: &[u8], room: u64) -> Result<Vec<Content7>, AllocError>
    ensures { IfOk result (λ cs. contents_view cs.items ≡ take room (characters text.now ++ number 0 no_labels ∷ [])) }
{
    let mut contents = characters_of(alloc, text)?;
    contents.push(character(0))?;
    contents.truncate(room as usize);
    Ok(contents)
}

/// Writes a text and its closing zero, as far as they fit, at an offset of an instance.
pub fn spell_in(
    alloc: Global,
    memory: &mut Memory7,
    at: Spot,
    room: u64,
    text: &[u8],
) -> Result<(), Halt>
    ensures { Becomes (rewritten memory.old at (take room (characters text.now ++ number 0 no_labels ∷ []))) result memory.new }
{
    match text_contents(alloc, text, room) {
        Ok(contents) => {
            memory.rewrite(at, contents.as_slice());
            Ok(())
        }
        Err(_) => Err(Halt::Memory),
    }
}

/// A text of an initializer and its closing zero, as far as they fit into so many bytes at an offset.
pub fn spell(w: &mut World7, inst: u32, offset: u64, room: u64, text: &[u8]) -> Result<(), Halt>
    ensures { Leaves (machine.spelled inst offset room text.now (world_view w.old)) result (world_view w.new) }
{
    spell_in(w.alloc, &mut w.memory, Spot { inst, offset }, room, text)
}
