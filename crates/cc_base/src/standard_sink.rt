//! The sink of the standard output.
ghost use Rattle.std.specs.Prelude.{◌≡◌, ◌≤◌, length, OnErr};
ghost use Rattle.cc_base.specs.Outside.{Rose, next_count};

use crate::outside::{Sink, SinkFailed};
use std::io::Write;

/// What is put goes to a writer, such as standard output. What was written is not told; `faults`
/// counts the errors of the system and the writes that take nothing.
#[derive(Drop)]
pub struct StdSink<W: Write + Drop> {
    writer: W,
    faults: u64,
    calls: u64,
}

impl<W: Write + Drop> StdSink<W> {
    /// A sink over the writer, with all counts 0.
    pub fn new(writer: W) -> Self {
        StdSink {
            writer,
            faults: 0,
            calls: 0,
        }
    }
}

/// Writes all of a piece. Each turn gives at least one byte or ends the call.
fn write_whole<W: Write>(writer: &mut W, bytes: &[u8], faults: &mut u64) -> Result<(), SinkFailed>
    ensures failed { OnErr result (Rose faults.old faults.new) }
    ensures faults { faults.old ≤ faults.new }
{
    let mut rest = bytes;
    while rest.len() > 0 {
        let count = writer.write(rest).unwrap_or(0);
        if count == 0 {
            *faults = faults.saturating_add(1);
            return Err(SinkFailed);
        }
        rest = rest.split_at(count).1;
    }
    Ok(())
}

impl<W: Write + Drop> Sink for StdSink<W> {
    ghost use Rattle.std.specs.Prelude.{None};

    ghost written = { λ _. None };

    ghost faults = { λ s. s.faults };

    ghost calls = { λ s. s.calls };

    fn put(&mut self, bytes: &[u8]) -> Result<(), SinkFailed> {
        self.calls = self.calls.saturating_add(1);
        let outcome = write_whole(&mut self.writer, bytes, &mut self.faults);
        outcome
    }
}
