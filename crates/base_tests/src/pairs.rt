ghost use Rattle.std.specs.Prelude.{◌≡◌, ◌++◌, [], ◌∷◌, MatchBool};
ghost use Rattle.turn_cell.specs.Rule.{Grows};
ghost use Rattle.base_tests.specs.Entries.{entries_of, no_share};

use std::alloc::Global;
use turn_cell::Journalled;

/// A list of pairs, each the number of a pass and a value that it added.
#[derive(Drop)]
pub struct Pairs {
    list: Vec<(u32, u64)>,
}

impl Journalled for Pairs {
    type Note = u64;

    type Item = u64;

    ghost journal = { entries_of };

    ghost share = { no_share };

    fn count(&self) -> u64 {
        self.list.len() as u64
    }
}

impl Pairs {
    /// No pairs.
    pub fn new(alloc: Global) -> Pairs
        ensures { entries_of result ≡ [] }
    {
        Pairs {
            list: Vec::new(alloc),
        }
    }

    /// The pairs, in the order in which they were added.
    pub fn list(&self) -> &[(u32, u64)] {
        self.list.as_slice()
    }

    /// Adds a pair, or answers false when out of memory.
    pub fn add(&mut self, number: u32, value: u64) -> bool
        ensures grows { Grows entries_of no_share number self.old self.new }
        ensures added { MatchBool result
            (entries_of self.new ≡ entries_of self.old ++ (value, number) ∷ [])
            (entries_of self.new ≡ entries_of self.old) }
    {
        self.list.push((number, value)).is_ok()
    }
}
