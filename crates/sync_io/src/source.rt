//! Bytes that come in.
ghost use Rattle.std.specs.Prelude.{◌≡◌, ◌≢◌, ◌<◌, ◌≤◌, List, ℕ, Option, Bool, IsTrue, length};

/// What one read gave.
#[derive(Clone, Copy, Debug, PartialEq, Eq)]
pub enum Piece {
    /// This many bytes, one at least, at the beginning of the buffer.
    Got(usize),
    /// No byte came yet, though more may come.
    Quiet,
    /// No byte is left.
    End,
    /// The read failed, and took no byte away.
    Failed,
}

/// Where bytes come from, in pieces.
pub trait Source {
    ghost use Rattle.sync_io.specs.Faults.{CountHasRisen};
    ghost use Rattle.sync_io.specs.Source.{FitsBuffer, GivesNext, bytes_given};
    ghost use Rattle.sync_io.specs.Sides.{SinkSide};
    ghost use Rattle.sync_io.specs.declared.source.Piece.TheVariants.{Quiet, End, Failed};
    ghost use Rattle.std.specs.Io.KnownBytes.{IsAtEnd, Appends};

    /// The bytes that later reads will give, where the source reports them.
    ghost bytes_left: { Self → Option (List ℕ) };

    /// The bytes that reads gave, where the source reports them.
    ghost bytes_read: { Self → Option (List ℕ) };

    /// Whether a read may answer before a byte has come.
    ghost waits: { Self → Bool };

    /// How many reads have failed.
    ghost read_fault_count: { Self → ℕ };

    /// What a read leaves as it was: of a link, its side where bytes go out.
    ghost sink_side: { Self → Option SinkSide };

    /// How many reads have failed. The count stops at the greatest number.
    fn read_faults(&self) -> u64
        ensures { result ≡ read_fault_count self.now };

    /// Moves the next bytes to the beginning of the buffer.
    fn read(&mut self, buffer: &mut [u8]) -> Piece
        requires room { 0 < length buffer.old }

        ensures count { FitsBuffer result buffer.new }
        ensures bytes { GivesNext (bytes_left self.old) (bytes_left self.new) result buffer.new }
        ensures end { result ≡ End → IsAtEnd (bytes_left self.new) }
        ensures given { Appends (bytes_read self.old) (bytes_read self.new)
            (bytes_given result buffer.new) }
        ensures apart { sink_side self.new ≡ sink_side self.old }

        ensures quiet { result ≡ Quiet → IsTrue (waits self.old) }
        ensures waits { waits self.new ≡ waits self.old }

        ensures failed { result ≡ Failed
            → CountHasRisen (read_fault_count self.old) (read_fault_count self.new) }
        ensures sound { result ≢ Failed → read_fault_count self.new ≡ read_fault_count self.old }
        ensures later { read_fault_count self.old ≤ read_fault_count self.new };
}
