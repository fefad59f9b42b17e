//! Two words that were drawn from the system.
ghost use Rattle.std.specs.Prelude.{◌≡◌, ◌≤◌, IsSome, IsNone};
ghost use Rattle.std.specs.Option.{option_map};
ghost use Rattle.sync_io.specs.Faults.{one_more};

use crate::Words;
use crate::faults::count_fault;
use std::random::RandomSource;

/// Two random words, drawn once from the system's random source and given in turn. Where that
/// source failed, each call is a fault.
#[derive(Drop)]
pub struct DrawnWords {
    words: Option<(u64, u64)>,
    faults: u64,
}

impl DrawnWords {
    /// Draws the words.
    pub fn draw<R: RandomSource>(rt: &R) -> DrawnWords
        ensures faults { result.faults ≡ 0 }
    {
        let mut first = [0u8; 8];
        let mut second = [0u8; 8];
        let drawn = rt.fill_bytes(&mut first).is_ok() && rt.fill_bytes(&mut second).is_ok();
        let words = if drawn {
            Some((u64::from_le_bytes(first), u64::from_le_bytes(second)))
        } else {
            None
        };
        DrawnWords { words, faults: 0 }
    }
}

impl Words for DrawnWords {
    ghost word_fault_count = { λ w. w.faults };

    fn faults(&self) -> u64 {
        self.faults
    }

    fn next_word(&mut self) -> Option<u64>
        ensures word { result ≡ option_map (λ drawn. drawn.0) self.old.words }
        ensures other { self.new.words ≡ option_map (λ drawn. (drawn.1, drawn.0)) self.old.words }
        ensures failed { IsNone result → self.new.faults ≡ one_more self.old.faults }
        ensures sound { IsSome result → self.new.faults ≡ self.old.faults }
        ensures later { self.old.faults ≤ self.new.faults }
    {
        match self.words {
            Some((next, other)) => {
                self.words = Some((other, next));
                Some(next)
            }
            None => {
                count_fault(&mut self.faults);
                None
            }
        }
    }
}
