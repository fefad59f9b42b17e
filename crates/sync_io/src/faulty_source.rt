//! A source that fails and waits where it is asked to.
ghost use Rattle.std.specs.Prelude.{◌≡◌, ◌≢◌, ◌<◌, ◌≤◌, Some, None, IsTrue, length, filter};
ghost use Rattle.std.specs.List.{list_any};
ghost use Rattle.sync_io.specs.declared.source.Piece.TheVariants.{Quiet};
ghost use Rattle.sync_io.specs.Source.{FitsBuffer};
ghost use Rattle.sync_io.specs.Faults.{one_more};

use crate::faults::count_fault;
use crate::{MemorySource, Piece, Source};
use ldap_ber::Octets;
use std::alloc::Global;
use std::marker::Model;
use std::vec::IntoIter;

/// What a source does at a read.
#[derive(Drop)]
pub enum Step {
    /// It gives these bytes, over several reads where the buffer has too little room.
    Give(Octets),
    /// No byte came yet.
    Quiet,
    /// The read fails.
    Fail,
}

impl Step {
    ghost use Rattle.sync_io.specs.FaultySource.{is_quiet, is_played};

    fn is_quiet(&self) -> bool
        ensures { result ≡ is_quiet self.now }
    {
        matches!(self, Step::Quiet)
    }

    /// No read plays a gift of no bytes.
    fn is_played(&self) -> bool
        ensures { result ≡ is_played self.now }
    {
        match self {
            Step::Give(bytes) => !bytes.as_slice().is_empty(),
            Step::Quiet | Step::Fail => true,
        }
    }
}

/// A source that plays a list of steps, one at each read, and then is at its end. A gift of no
/// bytes is passed over. It is seen as the steps that are left, the first maybe the rest of a gift.
#[derive(Drop)]
pub struct FaultySource {
    gift: MemorySource,
    steps: IntoIter<Step, Global>,
    waits: bool,
    faults: u64,
}

impl Model for FaultySource {
    ghost use Rattle.sync_io.specs.FaultySource.{StepsLeft, ArePlayable, with_gift};
    ghost use Rattle.std.specs.Vec.Iter.{into_iter_items};

    ghost Value = { StepsLeft };

    ghost view = { λ s. record {
      steps = with_gift s.gift (into_iter_items s.steps);
      waits = s.waits;
      faults = s.faults;
    } };

    ghost invariant = { λ s. ArePlayable (into_iter_items s.steps) s.waits };
}

impl FaultySource {
    ghost use Rattle.sync_io.specs.FaultySource.{is_quiet, is_played};

    /// A source that plays these steps. It is one that waits where one of them is `Quiet`.
    pub fn new(mut steps: Vec<Step>) -> FaultySource
        ensures steps { result.steps ≡ filter is_played steps.items }
        ensures waits { result.waits ≡ list_any is_quiet steps.items }
        ensures faults { result.faults ≡ 0 }
    {
        let waits = has_quiet(&steps);
        steps.retain(|step| step.is_played());
        FaultySource {
            gift: MemorySource::new(Octets::from(Vec::new(*steps.allocator()))),
            steps: steps.into_iter(),
            waits,
            faults: 0,
        }
    }

    /// Counts a fault, and leaves the steps.
    pub(crate) fn fail(&mut self)
        ensures steps { self.new.steps ≡ self.old.steps }
        ensures waits { self.new.waits ≡ self.old.waits }
        ensures faults { self.new.faults ≡ one_more self.old.faults }
        ensures later { self.old.faults ≤ self.new.faults }
    {
        count_fault(&mut self.faults);
    }
}

ghost use Rattle.sync_io.specs.FaultySource.{is_quiet};

fn has_quiet(steps: &[Step]) -> bool
    ensures { result ≡ list_any is_quiet steps.now }
{
    steps.iter().any(|step| step.is_quiet())
}

impl Source for FaultySource {
    ghost use Rattle.std.specs.Io.KnownBytes.{IsAtEnd};
    ghost use Rattle.sync_io.specs.Faults.{CountHasRisen};
    ghost use Rattle.sync_io.specs.FaultySource.{bytes_of, faults_after, Plays};
    ghost use Rattle.sync_io.specs.Source.{GivesNext};
    ghost use Rattle.sync_io.specs.declared.source.Piece.TheVariants.{End, Failed};

    ghost bytes_left = { λ s. Some (bytes_of s.steps) };

    ghost bytes_read = { λ _. None };

    ghost waits = { λ s. s.waits };

    ghost read_fault_count = { λ s. s.faults };

    ghost sink_side = { λ _. None };

    fn read_faults(&self) -> u64 {
        self.faults
    }

    /// A read plays the first of the steps that are left.
    fn read(&mut self, buffer: &mut [u8]) -> Piece
        requires room { 0 < length buffer.old }

        ensures step { Plays self.old.steps self.new.steps result buffer.new }
        ensures faults { self.new.faults ≡ faults_after result self.old.faults }

        ensures count { FitsBuffer result buffer.new }
        ensures bytes { GivesNext (Some (bytes_of self.old.steps)) (Some (bytes_of self.new.steps))
            result buffer.new }
        ensures end { result ≡ End → IsAtEnd (Some (bytes_of self.new.steps)) }

        ensures quiet { result ≡ Quiet → IsTrue self.old.waits }
        ensures waits { self.new.waits ≡ self.old.waits }

        ensures failed { result ≡ Failed → CountHasRisen self.old.faults self.new.faults }
        ensures sound { result ≢ Failed → self.new.faults ≡ self.old.faults }
        ensures later { self.old.faults ≤ self.new.faults }
    {
        let count = self.gift.fill(buffer);
        if count > 0 {
            return Piece::Got(count);
        }
        match self.steps.next() {
            Some(Step::Give(bytes)) => {
                self.gift = MemorySource::new(bytes);
                Piece::Got(self.gift.fill(buffer))
            }
            Some(Step::Quiet) => Piece::Quiet,
            Some(Step::Fail) => {
                count_fault(&mut self.faults);
                Piece::Failed
            }
            None => Piece::End,
        }
    }
}
