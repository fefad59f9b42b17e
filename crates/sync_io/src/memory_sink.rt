//! A sink in memory.
ghost use Rattle.std.specs.Prelude.{◌≡◌, ◌≤◌, true, Some, None, []};
ghost use Rattle.sync_io.specs.Faults.{one_more};

use crate::faults::count_fault;
use crate::{Put, Sink};
use std::alloc::Global;
use std::marker::Model;

/// A sink whose bytes are in memory. Its only faults are those of out of memory.
#[derive(Drop)]
pub struct MemorySink {
    bytes: Vec<u8>,
    faults: u64,
}

impl Model for MemorySink {
    ghost use Rattle.sync_io.specs.MemorySink.{Contents};

    ghost Value = { Contents };

    ghost view = { λ s. record { bytes = s.bytes.items; faults = s.faults } };
}

impl MemorySink {
    /// A sink that holds nothing.
    pub fn new(alloc: Global) -> MemorySink
        ensures bytes { result.bytes ≡ [] }
        ensures faults { result.faults ≡ 0 }
    {
        MemorySink {
            bytes: Vec::new(alloc),
            faults: 0,
        }
    }

    /// All that was written.
    pub fn bytes(&self) -> &[u8]
        ensures { result.now ≡ self.now.bytes }
    {
        self.bytes.as_slice()
    }

    /// Counts a fault, and leaves the bytes.
    pub(crate) fn fail(&mut self)
        ensures bytes { self.new.bytes ≡ self.old.bytes }
        ensures counted { self.new.faults ≡ one_more self.old.faults }
        ensures later { self.old.faults ≤ self.new.faults }
    {
        count_fault(&mut self.faults);
    }
}

impl Sink for MemorySink {
    ghost bytes_held = { λ s. Some s.bytes };

    ghost write_fault_count = { λ s. s.faults };

    ghost source_side = { λ _. None };

    fn write_faults(&self) -> u64 {
        self.faults
    }

    fn write(&mut self, piece: &[u8]) -> Put {
        match self.bytes.extend_from_slice(piece) {
            Ok(()) => Put::Wrote(piece.len()),
            Err(_) => {
                self.fail();
                Put::Failed
            }
        }
    }

    /// A flush never fails.
    fn flush(&mut self) -> bool
        ensures passes { result ≡ true }
        ensures same { self.new ≡ self.old }
        ensures later { self.old.faults ≤ self.new.faults }
    {
        true
    }
}
