//! `fgets` (7.21.7.2 of ISO/IEC 9899:2011).
ghost use Rattle.std.specs.Prelude.{◌≡◌, ◌<◌, ◌++◌, ◌∷◌, [], pos, unsigned_abs, ◌≤ℤ◌};
ghost use Rattle.memory_model.specs.Memory.Labels.{no_labels, input_labels};
ghost use Rattle.memory_model.specs.Memory.Bytes as byte;
ghost use Rattle.memory_model.specs.Memory.Scalars.{pointer, integer};
ghost use Rattle.memory_model.specs.Effects.Worlds.{goes, behind};
ghost use Rattle.memory_model.specs.Effects.MemoryCalls.{with_contents};
ghost use Rattle.memory_model.specs.Effects.LibraryCalls as calls;
ghost use Rattle.interp_memory.specs.ByteViews.{content_view, contents_view, pointer_view, scalar_view};
ghost use Rattle.interp_accesses.specs.WorldViews.{world_view, ComesTo};
ghost use Rattle.interp_accesses.specs.Reaches.{reach_view};
ghost use Rattle.interp_library.specs.Calls.Lines.{ended_line, next_character};

use c_layout::Model;
use interp_accesses::{Cause, Halt, Reach, World7, fitting, reached, with_size, writable};
use interp_memory::{Content7, LabelSet, Pointer7, Value7, unlabelled};

// A character of a line, as a number from the outside.
fn character(model: &Model, c: u8) -> Content7
    ensures { content_view result ≡ byte.number c (input_labels (calls.char_type model.now)) }
{
    Content7::Number(
        c,
        LabelSet {
            low: model.char_signed,
            high: true,
            changed: false,
        },
    )
}

// The next character of a line.
fn next_character(w: &mut World7, model: &Model) -> Result<Content7, Halt>
    ensures { ComesTo content_view (next_character model.now (world_view w.old)) result (world_view w.new) }
{
    let c = w.draw(0, 255)?;
    match u8::try_from(c) {
        Ok(c) => Ok(character(model, c)),
        Err(_) => Err(Halt::Memory),
    }
}

// So many characters of a line, and a zero byte.
fn line_of(w: &mut World7, model: &Model, count: u64) -> Result<Vec<Content7>, Halt>
    ensures { ComesTo (λ cs. contents_view cs.items) (ended_line model.now count (world_view w.old)) result (world_view w.new) }
{
    let mut line = Vec::new(w.alloc);
    for k in 0..count {
        let c = next_character(w, model)?;
        match line.push(c) {
            Ok(()) => {}
            Err(_) => return Err(Halt::Memory),
        }
    }
    match line.push(Content7::Number(0, unlabelled())) {
        Ok(()) => Ok(line),
        Err(_) => Err(Halt::Memory),
    }
}

fn line_read(
    w: &mut World7,
    model: &Model,
    p: Pointer7,
    to: Reach,
    count: u64,
) -> Result<Value7, Halt>
    ensures { ComesTo scalar_view (behind (ended_line model.now count (world_view w.old)) (λ cs w. goes (pointer (pointer_view p)) (with_contents w (reach_view to) cs))) result (world_view w.new) }
{
    let line = line_of(w, model, count)?;
    w.memory.rewrite(to.spot, line.as_slice());
    Ok(Value7::Ptr(p))
}

// Nothing is written where there is no line.
fn if_read(
    w: &mut World7,
    model: &Model,
    p: Pointer7,
    size: i128,
    to: Reach,
    answer: i128,
) -> Result<Value7, Halt>
    requires { pos 1 ≤ℤ size }
    ensures { ComesTo scalar_view (calls.if_read model.now (pointer_view p) (unsigned_abs size) (reach_view to) answer (world_view w.old)) result (world_view w.new) }
{
    if answer == 0 {
        return Ok(Value7::Ptr(Pointer7::Null));
    }
    let count = w.draw(0, size - 1)?;
    match u64::try_from(count) {
        Ok(count) => line_read(w, model, p, to, count),
        Err(_) => Err(Halt::Memory),
    }
}

// A line of no character at all is not looked at.
fn read_into(
    w: &mut World7,
    model: &Model,
    p: Pointer7,
    size: i128,
    to: Reach,
) -> Result<Value7, Halt>
    ensures { ComesTo scalar_view (calls.read_into model.now (pointer_view p) size (reach_view to) (world_view w.old)) result (world_view w.new) }
{
    if size < 1 {
        return Err(Halt::Stops(Cause::Left));
    }
    fitting(w, size.unsigned_abs(), to)?;
    writable(w, size.unsigned_abs(), to)?;
    let answer = w.draw(0, 1)?;
    if_read(w, model, p, size, to, answer)
}

/// `fgets`. The stream is not looked at.
pub fn fgets(
    w: &mut World7,
    model: &Model,
    text: Value7,
    size: Value7,
    stream: Value7,
) -> Result<Value7, Halt>
    ensures { ComesTo scalar_view (calls.fgets model.now (scalar_view text ∷ (scalar_view size ∷ (scalar_view stream ∷ []))) (world_view w.old)) result (world_view w.new) }
{
    match (text, size, stream) {
        (Value7::Ptr(p), Value7::Int(n, labels), Value7::Ptr(_)) => {
            with_size(w, labels)?;
            let to = reached(w, p)?;
            read_into(w, model, p, n, to)
        }
        (Value7::Ptr(_), Value7::Int(_, _), Value7::Int(_, _)) => Err(Halt::Stops(Cause::Stuck)),
        (Value7::Ptr(_), Value7::Ptr(_), _) => Err(Halt::Stops(Cause::Stuck)),
        (Value7::Int(_, _), _, _) => Err(Halt::Stops(Cause::Stuck)),
    }
}
