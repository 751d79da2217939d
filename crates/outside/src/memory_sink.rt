// A sink in memory, with so much room, which fails at given writes.
ghost use Rattle.std.specs.Prelude.{◌≡◌, ◌≤◌, ◌<◌, ◌↔◌, [], length, take, IfOk, OnErr, IsErr};
ghost use Rattle.outside.specs.Meaning.{Rose, written_more};
ghost use Rattle.outside.specs.MemorySink.{as_sink, taken, FailsAt, after_write};

use crate::{Sink, SinkError};
use base_kit::Memory;
use std::alloc::Global;
use std::marker::Model;

/// Output in memory. A write takes at most `most` bytes, the k-th fails where k is in `failing`,
/// and one of a piece that isn't empty fails where no room is left or `most` is 0.
#[derive(Drop)]
pub struct MemSink {
    written: Vec<u8>,
    room: usize,
    most: usize,
    failing: Vec<u64>,
    writes: u64,
    faults: u64,
}

impl Model for MemSink {
    ghost use Rattle.std.specs.Prelude.{◌+◌, ◌≤◌, vec_len, vec_capacity};
    ghost use Rattle.outside.specs.MemorySink.{MemorySink};

    ghost Value = { MemorySink };

    ghost view = { λ m. record { written = m.written.items; room = m.room; most = m.most; failing = m.failing.items; writes = m.writes; faults = m.faults } };

    ghost invariant = { λ m. vec_len m.written + m.room ≤ vec_capacity m.written };
}

impl MemSink {
    /// A sink with room for so many bytes, which are taken from memory at once.
    pub fn new(alloc: Global, room: usize, most: usize, failing: Vec<u64>) -> Result<Self, Memory>
        ensures { IfOk result (λ sink. sink ≡ record { written = []; room = room; most = most; failing = failing.items; writes = 0; faults = 0 }) }
    {
        Ok(MemSink {
            written: Vec::with_capacity(alloc, room)?,
            room,
            most,
            failing,
            writes: 0,
            faults: 0,
        })
    }

    /// What was written.
    pub fn written(&self) -> &[u8]
        ensures { result.now ≡ self.now.written }
    {
        self.written.as_slice()
    }

    /// How many writes failed.
    pub fn faults(&self) -> u64
        ensures { result ≡ self.now.faults }
    {
        self.faults
    }
}

impl Sink for MemSink {
    ghost use Rattle.outside.specs.MemorySink.{as_sink};

    ghost state = { as_sink };

    fn write(&mut self, piece: &[u8]) -> Result<usize, SinkError>
        ensures counts { (as_sink self.old).faults ≤ (as_sink self.new).faults }
        ensures within { IfOk result (λ count. count ≤ length piece.now) }
        ensures some { IfOk result (λ count. 0 < length piece.now → 0 < count) }
        ensures written { IfOk result (λ count. (as_sink self.new).written ≡ written_more (as_sink self.old).written (take count piece.now)) }
        ensures failed { OnErr result (Rose (as_sink self.old).faults (as_sink self.new).faults) }
        ensures kept { OnErr result ((as_sink self.new).written ≡ (as_sink self.old).written) }

        // Beside what every sink ensures: which writes fail, how much one takes, and what is left.
        ensures fails { IsErr result ↔ FailsAt self.old piece.now }
        ensures takes { IfOk result (λ count. count ≡ taken self.old piece.now) }
        ensures after { self.new ≡ after_write self.old piece.now result }
    {
        self.writes = self.writes.saturating_add(1);
        let count = piece.len().min(self.most).min(self.room);
        if self.failing.contains(&self.writes) || (count == 0 && !piece.is_empty()) {
            self.faults = self.faults.saturating_add(1);
            return Err(SinkError::Failed);
        }
        let (taken, _) = piece.split_at(count);
        match self.written.extend_from_slice(taken) {
            Ok(()) => {
                self.room -= count;
                Ok(count)
            }
            Err(_) => unreachable!(),
        }
    }
}
