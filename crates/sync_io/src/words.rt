//! Random words.
ghost use Rattle.std.specs.Prelude.{◌≡◌, ◌≤◌, ℕ, [], IsNone, IsSome};
ghost use Rattle.sync_io.specs.Faults.{one_more};

use crate::faults::count_fault;
use std::alloc::Global;
use std::marker::Model;
use std::vec::IntoIter;

/// What gives random words.
pub trait Words {
    ghost use Rattle.sync_io.specs.Faults.{CountHasRisen};

    /// How many calls gave no word.
    ghost word_fault_count: { Self → ℕ };

    /// How many calls gave no word. The count stops at the greatest number.
    fn faults(&self) -> u64
        ensures { result ≡ word_fault_count self.now };

    /// Gives the next word, or none where the call failed.
    fn next_word(&mut self) -> Option<u64>
        ensures failed { IsNone result
            → CountHasRisen (word_fault_count self.old) (word_fault_count self.new) }
        ensures sound { IsSome result → word_fault_count self.new ≡ word_fault_count self.old }
        ensures later { word_fault_count self.old ≤ word_fault_count self.new };
}

/// Words of a list, in order. A call after the last one is a fault.
#[derive(Drop)]
pub struct FixedWords {
    words: IntoIter<u64, Global>,
    faults: u64,
}

impl Model for FixedWords {
    ghost use Rattle.std.specs.Vec.Iter.{into_iter_items};
    ghost use Rattle.sync_io.specs.Words.{WordsLeft};

    ghost Value = { WordsLeft };

    ghost view = { λ w. record { words = into_iter_items w.words; faults = w.faults } };
}

impl FixedWords {
    /// Gives these words.
    pub fn new(words: Vec<u64>) -> FixedWords
        ensures words { result.words ≡ words.items }
        ensures faults { result.faults ≡ 0 }
    {
        FixedWords {
            words: words.into_iter(),
            faults: 0,
        }
    }
}

impl Words for FixedWords {
    ghost use Rattle.std.specs.Prelude.{◌++◌, option_to_list};

    ghost word_fault_count = { λ w. w.faults };

    fn faults(&self) -> u64 {
        self.faults
    }

    fn next_word(&mut self) -> Option<u64>
        ensures word { self.old.words ≡ option_to_list result ++ self.new.words }
        ensures spent { IsNone result → self.old.words ≡ [] }
        ensures failed { IsNone result → self.new.faults ≡ one_more self.old.faults }
        ensures sound { IsSome result → self.new.faults ≡ self.old.faults }
        ensures later { self.old.faults ≤ self.new.faults }
    {
        let word = self.words.next();
        if word.is_none() {
            count_fault(&mut self.faults);
        }
        word
    }
}
