//! A sink over any writer.
ghost use Rattle.std.specs.Prelude.{◌≡◌, None};

use crate::faults::count_fault;
use crate::{Put, Sink};
use std::io::Write;

/// A sink over any writer, as standard output. It counts the writes and flushes that fail, and
/// reports the bytes that the writer reports. A write that takes nothing of a piece is a fault too,
/// since trying again might never end.
#[derive(Drop)]
pub struct Writing<W: Write + Drop> {
    pub writer: W,
    pub faults: u64,
}

impl<W: Write + Drop> Writing<W> {
    /// Makes a sink over this writer, of which no write has failed yet.
    pub fn new(writer: W) -> Writing<W>
        ensures writer { result.writer ≡ writer }
        ensures faults { result.faults ≡ 0 }
    {
        Writing { writer, faults: 0 }
    }
}

impl<W: Write + Drop> Sink for Writing<W> {
    ghost bytes_held = { λ s. W.contents s.writer };

    ghost write_fault_count = { λ s. s.faults };

    ghost source_side = { λ _. None };

    fn write_faults(&self) -> u64 {
        self.faults
    }

    fn write(&mut self, piece: &[u8]) -> Put {
        match self.writer.write(piece) {
            Ok(0) | Err(_) => {
                count_fault(&mut self.faults);
                Put::Failed
            }
            Ok(count) => Put::Wrote(count),
        }
    }

    fn flush(&mut self) -> bool {
        match self.writer.flush() {
            Ok(()) => true,
            Err(_) => {
                count_fault(&mut self.faults);
                false
            }
        }
    }
}
