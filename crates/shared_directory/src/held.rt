//! What the cell of a shared directory has.

ghost use Rattle.std.specs.Prelude.{◌≡◌, ◌<◌, ◌≤◌, true, length, map, set, slice_get, is_some, IfOk, IfErr};
ghost use Rattle.turn_cell.specs.Rule.{Grows};
ghost use Rattle.shared_directory.specs.Desks.{first_held, first_state, entries_of, left_by, HaveCome, IsTurnOf};

use crate::calls::Call;
use crate::numbered::NumberedProvider;
use std::alloc::{AllocError, Global};
use std::marker::Model;
use std::snapshot::Snapshot;
use sync_provider::{JournalNote, NoMemory, Provider};
use turn_cell::Journalled;

/// What the cell of a shared directory has: the provider, and for proofs alone as what each pass
/// left it. Snapshots take no memory.
///
/// The provider has memory of its own, since what a cell has is moved twice in each turn.
pub struct HeldDirectory {
    now: Box<NumberedProvider>,
    /// By the numbers of the passes, the first of which is 1.
    last: Vec<Snapshot<NumberedProvider>>,
}

/// A call of its own, so that what drops it is one step.
impl Drop for HeldDirectory {
    fn drop(self) {
        let HeldDirectory {
            now: _now,
            last: _last,
        } = self;
    }
}

impl Model for HeldDirectory {
    ghost use Rattle.std.specs.Prelude.{map};
    ghost use Rattle.std.specs.Coded.{codes};
    ghost use Rattle.entry_tree.specs.FilterCode.{tree_code};
    ghost use Rattle.shared_directory.specs.Desks.{HeldState, HaveCome};

    ghost Value = { HeldState };

    ghost coded = { Prim.hlevel (codes, tree_code) };

    ghost view = { λ h. record {
      now = h.now.value;
      last = map (λ s. s.value) h.last.items;
    } };

    ghost invariant = { λ h. HaveCome (record {
      now = h.now.value;
      last = map (λ s. s.value) h.last.items;
    }) };
}

impl Journalled for HeldDirectory {
    type Note = JournalNote;

    type Item = NumberedProvider;

    ghost journal = { entries_of };

    ghost share = { left_by };

    fn count(&self) -> u64 {
        self.now.as_ref().journal_len()
    }
}

impl HeldDirectory {
    /// What the cell begins with that has this number of passes.
    pub(crate) fn new(
        alloc: Global,
        provider: Provider,
        seats: u32,
    ) -> Result<HeldDirectory, (NoMemory, Provider)>
        requires { seats ≤ 1024 }
        ensures ok { IfOk result (λ h. h ≡ first_held provider seats) }
        ensures err { IfErr result (λ refused. refused.1 ≡ provider) }
    {
        let mut last = match Vec::with_capacity(alloc, seats as usize + 1) {
            Ok(last) => last,
            Err(fault) => return Err((fault, provider)),
        };
        let now = match boxed(alloc, provider) {
            Ok(now) => now,
            Err(refused) => return Err(refused),
        };
        for _place in 0..seats + 1 {
            last.push_reserved(Snapshot::of(now.as_ref()));
        }
        Ok(HeldDirectory { now, last })
    }

    /// The provider as the last turn left it.
    pub(crate) fn into_provider(self) -> Provider
        ensures provider { result ≡ self.now.provider }
        ensures come { HaveCome self }
    {
        let HeldDirectory { now, last: _last } = self;
        Box::into_inner(now).into_provider()
    }

    /// A turn of the pass with this number, which makes one call.
    pub(crate) fn answer<C: Call>(&mut self, number: u32, call: C) -> C::Answer
        requires { is_some (slice_get self.old.last number) ≡ true }
        ensures grows { Grows entries_of left_by number self.old self.new }
        ensures turn { IsTurnOf number self.old self.new (C.replies call result) }
    {
        let answer = call.make(number, self.now.as_mut());
        remember(&mut self.last, number, self.now.as_ref());
        answer
    }
}

/// A provider that no port has called yet, in memory of its own.
fn boxed(alloc: Global, provider: Provider) -> Result<Box<NumberedProvider>, (NoMemory, Provider)>
    ensures ok { IfOk result (λ now. now.value ≡ first_state provider) }
    ensures err { IfErr result (λ refused. refused.1 ≡ provider) }
{
    let now = NumberedProvider::new(alloc, provider);
    match Box::new(alloc, now) {
        Ok(made) => Ok(made),
        Err(failed) => Err((AllocError, failed.value.into_provider())),
    }
}

/// The pass with this number leaves the provider as it is now.
fn remember(last: &mut Vec<Snapshot<NumberedProvider>>, number: u32, now: &NumberedProvider)
    requires { number < length last.old.items }
    ensures { map (λ s. s.value) last.new.items
        ≡ set (map (λ s. s.value) last.old.items) number now.now }
{
    last[number as usize] = Snapshot::of(now);
}
