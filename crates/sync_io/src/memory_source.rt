//! A source in memory.
ghost use Rattle.std.specs.Prelude.{◌≡◌, Some, None, false, length, min, take, drop};

use crate::{Piece, Source};
use ldap_ber::Octets;
use std::marker::Model;

/// A source whose bytes are in memory. It is seen as the bytes that are left, never fails and never
/// waits.
#[derive(Drop)]
pub struct MemorySource {
    bytes: Octets,
    place: usize,
}

impl Model for MemorySource {
    ghost use Rattle.std.specs.Prelude.{◌≤◌, List, ℕ, length, drop};

    ghost Value = { List ℕ };

    ghost view = { λ s. drop s.place s.bytes };

    ghost invariant = { λ s. s.place ≤ length s.bytes };
}

impl MemorySource {
    /// Makes a source of these bytes, from the first one on.
    pub fn new(bytes: Octets) -> MemorySource
        ensures { result ≡ bytes }
    {
        MemorySource { bytes, place: 0 }
    }

    /// Moves as many of the bytes as the buffer has room for to its beginning, and gives their
    /// number.
    pub(crate) fn fill(&mut self, buffer: &mut [u8]) -> usize
        ensures count { result ≡ min (length self.old) (length buffer.new) }
        ensures bytes { take result buffer.new ≡ take result self.old }
        ensures left { self.new ≡ drop result self.old }
    {
        let left = &self.bytes.as_slice()[self.place..];
        let count = left.len().min(buffer.len());
        buffer[..count].copy_from_slice(&left[..count]);
        self.place += count;
        count
    }
}

impl Source for MemorySource {
    ghost bytes_left = { λ s. Some s };

    ghost bytes_read = { λ _. None };

    ghost waits = { λ _. false };

    ghost read_fault_count = { λ _. 0 };

    ghost sink_side = { λ _. None };

    fn read_faults(&self) -> u64 {
        0
    }

    fn read(&mut self, buffer: &mut [u8]) -> Piece {
        match self.fill(buffer) {
            0 => Piece::End,
            count => Piece::Got(count),
        }
    }
}
