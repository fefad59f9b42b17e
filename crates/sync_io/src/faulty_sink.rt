//! A sink that fails where it is asked to.
ghost use Rattle.std.specs.Prelude.{◌≡◌, ◌≢◌, ◌<◌, ◌≤◌, [], Some, None, IsTrue, not, if◌then◌else◌, length};
ghost use Rattle.std.specs.Bool.{OnTrue, OnFalse};
ghost use Rattle.sync_io.specs.Faults.{one_more, CountHasRisen};
ghost use Rattle.sync_io.specs.declared.sink.Put.TheVariants.{Failed};

use crate::{MemorySink, Put, Sink};
use std::alloc::Global;
use std::marker::Model;

/// A sink in memory whose calls with chosen numbers fail. Writes and flushes are counted together,
/// from 1.
#[derive(Drop)]
pub struct FaultySink {
    sink: MemorySink,
    failing: Vec<u64>,
    calls: u64,
}

impl Model for FaultySink {
    ghost use Rattle.sync_io.specs.FaultySink.{Plan};

    ghost Value = { Plan };

    ghost view = { λ s. record { contents = s.sink; failing = s.failing.items; calls = s.calls } };
}

impl FaultySink {
    ghost use Rattle.sync_io.specs.FaultySink.{fails_next};

    /// A sink that holds nothing, and whose calls with these numbers fail.
    pub fn new(alloc: Global, failing: Vec<u64>) -> FaultySink
        ensures bytes { result.contents.bytes ≡ [] }
        ensures faults { result.contents.faults ≡ 0 }
        ensures failing { result.failing ≡ failing.items }
        ensures calls { result.calls ≡ 0 }
    {
        FaultySink {
            sink: MemorySink::new(alloc),
            failing,
            calls: 0,
        }
    }

    /// All that was written.
    pub fn bytes(&self) -> &[u8]
        ensures { result.now ≡ self.now.contents.bytes }
    {
        self.sink.bytes()
    }

    /// Counts one more call, and reports whether it is one of those that fail.
    fn call_fails(&mut self) -> bool
        ensures fails { result ≡ fails_next self.old }
        ensures calls { self.new.calls ≡ one_more self.old.calls }
        ensures failing { self.new.failing ≡ self.old.failing }

        ensures bytes { self.new.contents.bytes ≡ self.old.contents.bytes }
        ensures counted { self.new.contents.faults
            ≡ if result then one_more self.old.contents.faults else self.old.contents.faults }
        ensures later { self.old.contents.faults ≤ self.new.contents.faults }
    {
        self.calls = self.calls.saturating_add(1);
        let fails = self.failing.contains(&self.calls);
        if fails {
            self.sink.fail();
        }
        fails
    }
}

impl Sink for FaultySink {
    ghost use Rattle.sync_io.specs.FaultySink.{fails_next};
    ghost use Rattle.sync_io.specs.Sink.{FitsPiece, AppendsPiece};

    ghost bytes_held = { λ s. Some s.contents.bytes };

    ghost write_fault_count = { λ s. s.contents.faults };

    ghost source_side = { λ _. None };

    fn write_faults(&self) -> u64 {
        self.sink.write_faults()
    }

    fn write(&mut self, piece: &[u8]) -> Put
        requires nonempty { 0 < length piece.now }

        ensures count { FitsPiece result piece.now }
        ensures bytes { AppendsPiece (Some self.old.contents.bytes) (Some self.new.contents.bytes)
            result piece.now }

        ensures chosen { IsTrue (fails_next self.old) → result ≡ Failed }
        ensures failed { result ≡ Failed
            → CountHasRisen self.old.contents.faults self.new.contents.faults }
        ensures sound { result ≢ Failed
            → self.new.contents.faults ≡ self.old.contents.faults }
        ensures later { self.old.contents.faults ≤ self.new.contents.faults }

        ensures calls { self.new.calls ≡ one_more self.old.calls }
        ensures failing { self.new.failing ≡ self.old.failing }
    {
        if self.call_fails() {
            return Put::Failed;
        }
        self.sink.write(piece)
    }

    fn flush(&mut self) -> bool
        ensures bytes { self.new.contents.bytes ≡ self.old.contents.bytes }

        ensures chosen { result ≡ not (fails_next self.old) }
        ensures failed { OnFalse result
            (CountHasRisen self.old.contents.faults self.new.contents.faults) }
        ensures sound { OnTrue result (self.new.contents.faults ≡ self.old.contents.faults) }
        ensures later { self.old.contents.faults ≤ self.new.contents.faults }

        ensures calls { self.new.calls ≡ one_more self.old.calls }
        ensures failing { self.new.failing ≡ self.old.failing }
    {
        !self.call_fails()
    }
}
