//! The identities that a refresh goes through (RFC 4533, section 3.3).

ghost use Rattle.std.specs.Prelude.{◌≡◌, ◌≤◌, [], drop, length, take, IfOk};
ghost use Rattle.std.specs.List.Sorted.{IsStrictlySortedBy};
ghost use Rattle.std.specs.Ordering.{nat_cmp};
ghost use Rattle.directory_writes.specs.Starting.{start_of, CanBegin};
ghost use Rattle.sync_model.specs.Law.{is_nil};
ghost use Rattle.sync_slices.specs.Slices.{most_decided};
ghost use Rattle.sync_provider.specs.Refreshing.{walked};
ghost use Rattle.sync_provider.specs.Walks.{last_or};

use crate::NoMemory;
use crate::parts::shared;
use directory_writes::{Directory, Start};
use entry_tree::Tree;
use std::alloc::Global;
use std::marker::Model;
use std::sync::Arc;

/// How many identities are decided at one moment, at most.
const MOST_DECIDED: usize = 256;

/// Where identities come from, and which of them come next.
#[derive(Drop)]
pub(crate) enum WalkPlace {
    /// None is left.
    End,
    /// Those of the entries at an earlier moment, above this one where there is one.
    Entries(Tree, Option<u128>),
    /// Those that were touched, from this place on. Copies share them.
    Touched(Arc<Vec<u128>>, usize),
}

/// The identities that a refresh goes through, as far as they are not decided, in ascending order.
pub(crate) struct Walk {
    alloc: Global,
    place: WalkPlace,
}

/// A call of its own, so that what drops a walk is one step, wherever it goes through.
impl Drop for Walk {
    fn drop(self) {
        let Walk {
            alloc: _,
            place: _place,
        } = self;
    }
}

impl Model for Walk {
    ghost use Rattle.std.specs.Prelude.{List, ℕ};
    ghost use Rattle.sync_provider.specs.Walks.{left_at, IsInOrder};

    ghost Value = { List ℕ };

    ghost view = { λ w. left_at w.place };

    ghost invariant = { λ w. IsInOrder w.place };
}

impl Walk {
    /// All that a refresh that begins so goes through: what was touched since, where that is known,
    /// else all identities. The latter are not listed.
    #[tactic(auto, using(directory_writes::proofs::Writes::ascends_now))]
    pub(crate) fn new(alloc: Global, directory: &Directory, start: Start) -> Result<Walk, NoMemory>
        requires { CanBegin directory.now.state (start_of start) }
        ensures { IfOk result (λ walk. walk ≡ walked directory.now.state (start_of start)) }
    {
        match start {
            Start::DeletePhase(number) => {
                let uuids = directory.touched_since(number)?;
                let uuids = shared(alloc, uuids)?;
                Ok(Walk {
                    alloc,
                    place: WalkPlace::Touched(uuids, 0),
                })
            }
            Start::InitialContent | Start::PresentPhase(_) => {
                let entries = directory.tree().copy()?;
                Ok(Walk {
                    alloc,
                    place: WalkPlace::Entries(entries, None),
                })
            }
        }
    }

    /// None.
    pub(crate) fn none(alloc: Global) -> Walk
        ensures { result ≡ [] }
    {
        Walk {
            alloc,
            place: WalkPlace::End,
        }
    }

    /// The same once more. It is `NoMemory` where no more copies can be counted.
    pub(crate) fn copy(&self) -> Result<Walk, NoMemory>
        ensures { IfOk result (λ copy. copy ≡ self.now) }
    {
        match &self.place {
            WalkPlace::End => Ok(Walk::none(self.alloc)),
            WalkPlace::Entries(entries, after) => Ok(Walk {
                alloc: self.alloc,
                place: WalkPlace::Entries(entries.copy()?, *after),
            }),
            WalkPlace::Touched(uuids, next) => Ok(Walk {
                alloc: self.alloc,
                place: WalkPlace::Touched(uuids.clone()?, *next),
            }),
        }
    }

    /// Whether none is left.
    #[tactic(auto, using(crate::proofs::WalkedOver::none_is, crate::proofs::LeftOver::end_is))]
    pub(crate) fn is_over(&self) -> bool
        ensures { result ≡ is_nil self.now }
    {
        match &self.place {
            WalkPlace::End => true,
            WalkPlace::Entries(entries, after) => entries.identity_after(*after).is_none(),
            WalkPlace::Touched(uuids, next) => uuids.len() <= *next,
        }
    }

    /// Leaves none. It takes no memory.
    pub(crate) fn end(&mut self)
        ensures { self.new ≡ [] }
    {
        self.place = WalkPlace::End;
    }

    /// The identities of the next piece, without going on to the others.
    #[tactic(auto, using(crate::proofs::WalkedOver::none_sorted))]
    pub(crate) fn next_piece(&self) -> Result<Vec<u128>, NoMemory>
        ensures exact { IfOk result (λ uuids. uuids.items ≡ take most_decided self.now) }
        ensures ascends { IfOk result (λ uuids. IsStrictlySortedBy nat_cmp uuids.items) }
    {
        match &self.place {
            WalkPlace::End => Ok(Vec::new(self.alloc)),
            WalkPlace::Entries(entries, after) => entries.identities_after(*after, MOST_DECIDED),
            WalkPlace::Touched(uuids, next) => self.next_of(uuids.as_slice(), *next),
        }
    }

    /// The next of these, from this place on.
    fn next_of(&self, uuids: &[u128], next: usize) -> Result<Vec<u128>, NoMemory>
        requires { IsStrictlySortedBy nat_cmp uuids.now }
        ensures exact { IfOk result
            (λ piece. piece.items ≡ take most_decided (drop next uuids.now)) }
        ensures ascends { IfOk result (λ piece. IsStrictlySortedBy nat_cmp piece.items) }
    {
        if uuids.len() <= next {
            return Ok(Vec::new(self.alloc));
        }
        if uuids.len() - next <= MOST_DECIDED {
            let piece = uuids[next..].to_vec(self.alloc)?;
            return Ok(piece);
        }
        let piece = uuids[next..next + MOST_DECIDED].to_vec(self.alloc)?;
        Ok(piece)
    }

    /// The same without the identities of its next piece, which are these. It is `NoMemory` where
    /// no more copies can be counted.
    #[tactic(auto, using(crate::proofs::WalkedOver::entries_left, crate::proofs::WalkedOver::touched_left, crate::proofs::WalkedOver::touched_within))]
    pub(crate) fn after_piece(&self, piece: &[u128]) -> Result<Walk, NoMemory>
        requires { piece.now ≡ take most_decided self.now }
        ensures { IfOk result (λ walk. walk ≡ drop most_decided self.now) }
    {
        match &self.place {
            WalkPlace::End => Ok(Walk::none(self.alloc)),
            WalkPlace::Entries(entries, after) => Ok(Walk {
                alloc: self.alloc,
                place: WalkPlace::Entries(entries.copy()?, last_of(piece, *after)),
            }),
            WalkPlace::Touched(uuids, next) => Ok(Walk {
                alloc: self.alloc,
                place: WalkPlace::Touched(uuids.clone()?, *next + piece.len()),
            }),
        }
    }
}

/// The last of these identities, or the one before them.
#[tactic(auto, using(crate::proofs::WalkedOver::last_none, crate::proofs::WalkedOver::last_some))]
fn last_of(uuids: &[u128], before: Option<u128>) -> Option<u128>
    ensures { result ≡ last_or before uuids.now }
{
    match uuids.last() {
        None => before,
        Some(uuid) => Some(*uuid),
    }
}
