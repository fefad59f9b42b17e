//! Bytes that go out.
ghost use Rattle.std.specs.Prelude.{◌≡◌, ◌≢◌, ◌<◌, ◌≤◌, List, ℕ, Option, length};
ghost use Rattle.std.specs.Bool.{OnTrue, OnFalse};

/// What one write did.
#[derive(Clone, Copy, Debug, PartialEq, Eq)]
pub enum Put {
    /// This many bytes from the beginning of the piece, one at least, were appended.
    Wrote(usize),
    /// The write failed, and appended nothing.
    Failed,
}

/// Where bytes go, in pieces.
pub trait Sink {
    ghost use Rattle.sync_io.specs.Faults.{CountHasRisen};
    ghost use Rattle.sync_io.specs.Sink.{FitsPiece, AppendsPiece};
    ghost use Rattle.sync_io.specs.Sides.{SourceSide};
    ghost use Rattle.sync_io.specs.declared.sink.Put.TheVariants.{Failed};
    ghost use Rattle.std.specs.Io.KnownBytes.{Keeps};

    /// The bytes that were written, where the sink reports them.
    ghost bytes_held: { Self → Option (List ℕ) };

    /// How many writes and flushes have failed.
    ghost write_fault_count: { Self → ℕ };

    /// What a write leaves as it was: of a link, its side where bytes come in.
    ghost source_side: { Self → Option SourceSide };

    /// How many writes and flushes have failed. The count stops at the greatest number.
    fn write_faults(&self) -> u64
        ensures { result ≡ write_fault_count self.now };

    /// Appends bytes from the beginning of the piece.
    fn write(&mut self, piece: &[u8]) -> Put
        requires nonempty { 0 < length piece.now }

        ensures count { FitsPiece result piece.now }
        ensures bytes { AppendsPiece (bytes_held self.old) (bytes_held self.new) result piece.now }
        ensures apart { source_side self.new ≡ source_side self.old }

        ensures failed { result ≡ Failed
            → CountHasRisen (write_fault_count self.old) (write_fault_count self.new) }
        ensures sound { result ≢ Failed → write_fault_count self.new ≡ write_fault_count self.old }
        ensures later { write_fault_count self.old ≤ write_fault_count self.new };

    /// Passes on what was written. It answers false where that failed.
    fn flush(&mut self) -> bool
        ensures bytes { Keeps (bytes_held self.old) (bytes_held self.new) }
        ensures apart { source_side self.new ≡ source_side self.old }

        ensures failed { OnFalse result
            (CountHasRisen (write_fault_count self.old) (write_fault_count self.new)) }
        ensures sound { OnTrue result (write_fault_count self.new ≡ write_fault_count self.old) }
        ensures later { write_fault_count self.old ≤ write_fault_count self.new };
}

ghost use Rattle.sync_io.specs.Faults.{CountHasRisen};
ghost use Rattle.sync_io.specs.Sink.{AppendsPrefix};
ghost use Rattle.std.specs.Io.KnownBytes.{Appends};

/// Appends all the bytes, however few the sink takes at a time. It answers false where a write
/// failed, and then a prefix of the bytes was appended.
pub fn write_whole<K: Sink>(sink: &mut K, bytes: &[u8]) -> bool
    ensures whole { OnTrue result
        (Appends (K.bytes_held sink.old) (K.bytes_held sink.new) bytes.now) }
    ensures prefix { AppendsPrefix (K.bytes_held sink.old) (K.bytes_held sink.new) bytes.now }
    ensures apart { K.source_side sink.new ≡ K.source_side sink.old }

    ensures failed { OnFalse result
        (CountHasRisen (K.write_fault_count sink.old) (K.write_fault_count sink.new)) }
    ensures sound { OnTrue result (K.write_fault_count sink.new ≡ K.write_fault_count sink.old) }
    ensures later { K.write_fault_count sink.old ≤ K.write_fault_count sink.new }
{
    let mut rest = bytes;
    while !rest.is_empty() {
        match sink.write(rest) {
            Put::Wrote(count) => rest = &rest[count..],
            Put::Failed => return false,
        }
    }
    true
}
