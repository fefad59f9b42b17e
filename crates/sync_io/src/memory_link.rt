//! A link in memory.
ghost use Rattle.std.specs.Prelude.{◌≡◌, ◌≢◌, ◌<◌, ◌≤◌, ◌++◌, Some, IsTrue, length, not, refl};

use crate::{FaultySink, FaultySource, Link, Piece, Put, Sink, Source, Step};
use std::alloc::Global;
use std::marker::Model;

/// What a link in memory does: the steps of its reads, and the numbers of the writes and flushes
/// that fail.
#[derive(Drop)]
pub struct LinkPlan {
    pub steps: Vec<Step>,
    pub failing: Vec<u64>,
}

/// A source and a sink in one. It keeps what was read from it and what was written to it.
#[derive(Drop)]
pub struct MemoryLink {
    source: FaultySource,
    sink: FaultySink,
    read: Vec<u8>,
}

impl Model for MemoryLink {
    ghost use Rattle.sync_io.specs.MemoryLink.{LinkContents};

    ghost Value = { LinkContents };

    ghost view = { λ l. record { source = l.source; sink = l.sink; read = l.read.items } };
}

impl MemoryLink {
    ghost use Rattle.sync_io.specs.MemoryLink.{link_of};

    /// A link from which nothing was read and to which nothing was written. It is one that waits
    /// where one of the steps is `Quiet`.
    pub fn new(alloc: Global, plan: LinkPlan) -> MemoryLink
        ensures { result ≡ link_of plan }
    {
        let LinkPlan { steps, failing } = plan;
        MemoryLink {
            source: FaultySource::new(steps),
            sink: FaultySink::new(alloc, failing),
            read: Vec::new(alloc),
        }
    }

    /// All that was read.
    pub fn bytes_read(&self) -> &[u8]
        ensures { result.now ≡ self.now.read }
    {
        self.read.as_slice()
    }

    /// All that was written.
    pub fn bytes_held(&self) -> &[u8]
        ensures { result.now ≡ self.now.sink.contents.bytes }
    {
        self.sink.bytes()
    }
}

impl Source for MemoryLink {
    ghost use Rattle.std.specs.Io.KnownBytes.{IsAtEnd};
    ghost use Rattle.sync_io.specs.Faults.{CountHasRisen};
    ghost use Rattle.sync_io.specs.FaultySource.{bytes_of, PlaysOrFails};
    ghost use Rattle.sync_io.specs.Source.{FitsBuffer, GivesNext, bytes_given};
    ghost use Rattle.sync_io.specs.declared.source.Piece.TheVariants.{Quiet, End, Failed};

    ghost bytes_left = { λ l. Some (bytes_of l.source.steps) };

    ghost bytes_read = { λ l. Some l.read };

    ghost waits = { λ l. l.source.waits };

    ghost read_fault_count = { λ l. l.source.faults };

    ghost sink_side = { λ l. Some (record {
      held = Some l.sink.contents.bytes;
      faults = l.sink.contents.faults;
    }) };

    fn read_faults(&self) -> u64 {
        self.source.read_faults()
    }

    /// A read plays the first of the steps that are left. One that finds no memory to keep its
    /// bytes fails, and leaves the steps.
    fn read(&mut self, buffer: &mut [u8]) -> Piece
        requires room { 0 < length buffer.old }

        ensures step { PlaysOrFails self.old.source.steps self.new.source.steps
            result buffer.new }
        ensures count { FitsBuffer result buffer.new }
        ensures bytes { GivesNext (Some (bytes_of self.old.source.steps))
            (Some (bytes_of self.new.source.steps)) result buffer.new }
        ensures end { result ≡ End → IsAtEnd (Some (bytes_of self.new.source.steps)) }
        ensures given { self.new.read ≡ self.old.read ++ bytes_given result buffer.new }
        ensures sink { self.new.sink ≡ self.old.sink }

        ensures quiet { result ≡ Quiet → IsTrue self.old.source.waits }
        ensures waits { self.new.source.waits ≡ self.old.source.waits }

        ensures failed { result ≡ Failed
            → CountHasRisen self.old.source.faults self.new.source.faults }
        ensures sound { result ≢ Failed → self.new.source.faults ≡ self.old.source.faults }
        ensures later { self.old.source.faults ≤ self.new.source.faults }
    {
        if self.read.reserve(buffer.len()).is_err() {
            self.source.fail();
            return Piece::Failed;
        }
        let piece = self.source.read(buffer);
        if let Piece::Got(count) = piece {
            let _ = self.read.extend_from_slice(&buffer[..count]);
        }
        piece
    }
}

impl Sink for MemoryLink {
    ghost use Rattle.std.specs.Bool.{OnTrue, OnFalse};
    ghost use Rattle.sync_io.specs.Faults.{one_more, CountHasRisen};
    ghost use Rattle.sync_io.specs.FaultySink.{fails_next};
    ghost use Rattle.sync_io.specs.FaultySource.{bytes_of};
    ghost use Rattle.sync_io.specs.Sink.{AppendsPiece, FitsPiece};
    ghost use Rattle.sync_io.specs.declared.sink.Put.TheVariants.{Failed};

    ghost bytes_held = { λ l. Some l.sink.contents.bytes };

    ghost write_fault_count = { λ l. l.sink.contents.faults };

    ghost source_side = { λ l. Some (record {
      left = Some (bytes_of l.source.steps);
      read = Some l.read;
      waits = l.source.waits;
      faults = l.source.faults;
    }) };

    fn write_faults(&self) -> u64 {
        self.sink.write_faults()
    }

    /// A write whose number was chosen fails, as does one that finds no memory.
    fn write(&mut self, piece: &[u8]) -> Put
        requires nonempty { 0 < length piece.now }

        ensures count { FitsPiece result piece.now }
        ensures bytes { AppendsPiece (Some self.old.sink.contents.bytes)
            (Some self.new.sink.contents.bytes) result piece.now }
        ensures source { self.new.source ≡ self.old.source }
        ensures read { self.new.read ≡ self.old.read }

        ensures chosen { IsTrue (fails_next self.old.sink) → result ≡ Failed }
        ensures failed { result ≡ Failed
            → CountHasRisen self.old.sink.contents.faults self.new.sink.contents.faults }
        ensures sound { result ≢ Failed
            → self.new.sink.contents.faults ≡ self.old.sink.contents.faults }
        ensures later { self.old.sink.contents.faults ≤ self.new.sink.contents.faults }

        ensures calls { self.new.sink.calls ≡ one_more self.old.sink.calls }
        ensures failing { self.new.sink.failing ≡ self.old.sink.failing }
    {
        self.sink.write(piece)
    }

    /// A flush fails where its number was chosen, and nowhere else.
    fn flush(&mut self) -> bool
        ensures bytes { self.new.sink.contents.bytes ≡ self.old.sink.contents.bytes }
        ensures source { self.new.source ≡ self.old.source }
        ensures read { self.new.read ≡ self.old.read }

        ensures chosen { result ≡ not (fails_next self.old.sink) }
        ensures failed { OnFalse result
            (CountHasRisen self.old.sink.contents.faults self.new.sink.contents.faults) }
        ensures sound { OnTrue result
            (self.new.sink.contents.faults ≡ self.old.sink.contents.faults) }
        ensures later { self.old.sink.contents.faults ≤ self.new.sink.contents.faults }

        ensures calls { self.new.sink.calls ≡ one_more self.old.sink.calls }
        ensures failing { self.new.sink.failing ≡ self.old.sink.failing }
    {
        self.sink.flush()
    }
}

impl Link for MemoryLink {
    ghost reads_apart = { λ l. refl };

    ghost writes_apart = { λ l. refl };

    ghost reads_reported = { λ l left. refl };
}
