//! A sink in memory, for tests and for callers that keep the output.
ghost use Rattle.std.specs.Prelude.{◌≡◌, ◌≤◌, ◌+◌, [], IfOk, OnOk, OnErr, is_ok, length, min, unwrap_or};
ghost use Rattle.cc_base.specs.MemorySink.{Kept, fits, after_piece};
ghost use Rattle.cc_base.specs.Outside.{Appends, AppendsPrefix, Rose, next_count};

use crate::outside::{Sink, SinkFailed};
use crate::refusals::Memory;
use std::alloc::Global;
use std::marker::Model;

/// A byte vector that is reserved once and never grows.
#[derive(Drop)]
pub struct MemSink {
    bytes: Vec<u8>,
    most: usize,
    faults: u64,
    calls: u64,
}

impl Model for MemSink {
    ghost use Rattle.std.specs.Prelude.{◌≤◌, vec_capacity, vec_len};
    ghost use Rattle.cc_base.specs.MemorySink.{Kept, kept_code};

    ghost Value = { Kept };

    ghost coded = { kept_code };

    ghost view = { λ s. record { bytes = s.bytes.items; most = s.most; faults = s.faults; calls = s.calls } };

    ghost invariant = { λ s. (s.most ≤ vec_capacity s.bytes) × (vec_len s.bytes ≤ s.most) };
}

impl MemSink {
    /// A sink with room for `room` bytes, which takes `fail_after` bytes at most where that is
    /// given and less.
    pub fn new(alloc: Global, room: usize, fail_after: Option<usize>) -> Result<MemSink, Memory>
        ensures { IfOk result (λ s. s ≡ record { bytes = []; most = min room (unwrap_or fail_after room); faults = 0; calls = 0 }) }
    {
        let bytes = Vec::with_capacity(alloc, room)?;
        let most = room.min(fail_after.unwrap_or(room));
        Ok(MemSink {
            bytes,
            most,
            faults: 0,
            calls: 0,
        })
    }

    /// The bytes so far.
    pub fn bytes(&self) -> &[u8]
        ensures { result.now ≡ self.now.bytes }
    {
        self.bytes.as_slice()
    }

    /// The room that is left.
    fn left(&self) -> usize
        ensures { result + length self.now.bytes ≡ self.now.most }
    {
        self.most - self.bytes.len()
    }
}

impl Sink for MemSink {
    ghost use Rattle.std.specs.Prelude.{Some};

    ghost written = { λ s. Some s.bytes };

    ghost faults = { λ s. s.faults };

    ghost calls = { λ s. s.calls };

    /// Answers `SinkFailed` exactly where the piece does not fit, and then keeps as much of it as
    /// fits and counts a fault. Takes no memory.
    fn put(&mut self, bytes: &[u8]) -> Result<(), SinkFailed>
        ensures ok { OnOk result (Appends (Some self.old.bytes) bytes.now (Some self.new.bytes)) }
        ensures prefix { OnErr result (AppendsPrefix (Some self.old.bytes) bytes.now (Some self.new.bytes)) }
        ensures failed { OnErr result (Rose self.old.faults self.new.faults) }
        ensures faults { self.old.faults ≤ self.new.faults }
        ensures calls { self.new.calls ≡ next_count self.old.calls }
        ensures whole { is_ok result ≡ fits self.old bytes.now }
        ensures kept { self.new ≡ after_piece self.old bytes.now }
    {
        let left = self.left();
        self.calls = self.calls.saturating_add(1);
        if bytes.len() <= left {
            let _ = self.bytes.extend_from_slice(bytes);
            return Ok(());
        }
        let _ = self.bytes.extend_from_slice(&bytes[..left]);
        self.faults = self.faults.saturating_add(1);
        Err(SinkFailed)
    }
}
