//! A source over any reader.
ghost use Rattle.std.specs.Prelude.{◌≡◌, None, false};

use crate::faults::count_fault;
use crate::{Piece, Source};
use std::io::Read;

/// A source over any reader, as standard input. It counts the reads that fail, and reports the
/// bytes that the reader reports.
#[derive(Drop)]
pub struct Reading<R: Read + Drop> {
    pub reader: R,
    pub faults: u64,
}

impl<R: Read + Drop> Reading<R> {
    /// Makes a source over this reader, of which no read has failed yet.
    pub fn new(reader: R) -> Reading<R>
        ensures reader { result.reader ≡ reader }
        ensures faults { result.faults ≡ 0 }
    {
        Reading { reader, faults: 0 }
    }
}

impl<R: Read + Drop> Source for Reading<R> {
    ghost bytes_left = { λ s. R.remaining s.reader };

    ghost bytes_read = { λ _. None };

    ghost waits = { λ _. false };

    ghost read_fault_count = { λ s. s.faults };

    ghost sink_side = { λ _. None };

    fn read_faults(&self) -> u64 {
        self.faults
    }

    fn read(&mut self, buffer: &mut [u8]) -> Piece {
        match self.reader.read(buffer) {
            Ok(0) => Piece::End,
            Ok(count) => Piece::Got(count),
            Err(_) => {
                count_fault(&mut self.faults);
                Piece::Failed
            }
        }
    }
}
