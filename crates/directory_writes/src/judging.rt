//! How one more write is judged by what is kept beside those before it.

ghost use Rattle.std.specs.Prelude.{◌≡◌, ◌+◌, true, None, Some, is_some, IfOk, IfErr, OnOk, OnErr};
ghost use Rattle.csn_cookie.specs.CsnMaker.{next_csn};
ghost use Rattle.entry_tree.specs.Effects.{committed};
ghost use Rattle.entry_tree.specs.Touched.{IsPlan};
ghost use Rattle.directory_writes.specs.Commits.{held_refusal, refusal_beside, standing_refusal, IsCommitPreview, Rejects};

use crate::commit::DirectoryCommitFault;
use crate::preview::Preview;
use crate::standing::Standing;
use crate::weights::commit_weight;
use csn_cookie::{Csn, CsnMaker};
use entry_tree::{Entry, Touched};

/// The most writes that are kept.
const MOST_WRITES: u64 = 1_000_000;

/// The most that the kept writes weigh, 512 MiB.
const MOST_WRITES_WEIGHT: u64 = 536_870_912;

/// The greatest count of the change numbers of one microsecond.
const GREATEST_COUNT: u64 = 16_777_215;

/// What an operation draws that there is room for: its change number, the maker that drew it, and
/// what the kept writes weigh with it.
#[derive(Drop)]
pub(crate) struct Drawn {
    pub(crate) csn: Csn,
    pub(crate) csn_maker: CsnMaker,
    pub(crate) weight: u64,
}

impl Standing {
    /// What a commit that puts these entries and drops these identities would do where the clock
    /// shows `now`, or the first cause against it: `LimitReached` with the limit, `DuplicateName`
    /// with both identities, or `NoMemory`. Where no two entries are known to have one name, it is
    /// judged by what it puts and drops.
    #[tactic(auto, using(crate::proofs::Commits::refusal_capped, crate::proofs::Commits::first_opposed))]
    pub fn preview_commit(
        &self,
        puts: &[Entry],
        drops: &[u128],
        now: u64,
    ) -> Result<Preview, DirectoryCommitFault>
        ensures planned { IfOk result (IsCommitPreview self.now puts.now drops.now now) }
        ensures refused { IfErr result (Rejects (refusal_beside self.now puts.now drops.now now)) }
    {
        let weight = commit_weight(puts, drops);
        let drawn = self.draw_within(weight, now)?;
        let touched = self.plan_commit(puts, drops)?;
        Ok(Preview {
            csn: drawn.csn,
            csn_maker: drawn.csn_maker,
            weight: drawn.weight,
            touched,
        })
    }

    /// What a commit changes, where the entries after it may be held, or the first cause against
    /// them.
    #[tactic(auto, using(crate::proofs::Commits::open_held))]
    fn plan_commit(&self, puts: &[Entry], drops: &[u128]) -> Result<Touched, DirectoryCommitFault>
        ensures ok { OnOk result
            (held_refusal (committed self.now.entries puts.now drops.now) ≡ None) }
        ensures plan { IfOk result
            (IsPlan self.now.entries (committed self.now.entries puts.now drops.now)) }
        ensures refused { IfErr result
            (Rejects (held_refusal (committed self.now.entries puts.now drops.now))) }
    {
        match self.tree.plan_commit(puts, drops, self.has_unique_names) {
            Ok(entry_changes) => Ok(entry_changes),
            Err(refusal) => Err(DirectoryCommitFault::from(refusal)),
        }
    }

    /// The change number that one more write of this weight would get, or the first cause against
    /// it.
    pub(crate) fn draw_within(&self, weight: u64, now: u64) -> Result<Drawn, DirectoryCommitFault>
        ensures ok { OnOk result (standing_refusal self.now weight now ≡ None) }
        ensures value { IfOk result (λ drawn. next_csn now self.now.last ≡ Some drawn.csn) }
        ensures maker { IfOk result (λ drawn. drawn.csn_maker ≡ drawn.csn) }
        ensures weight { IfOk result (λ drawn. drawn.weight ≡ self.now.weight + weight) }
        ensures refused { IfErr result (Rejects (standing_refusal self.now weight now)) }
        ensures full { OnErr result (is_some (standing_refusal self.now weight now) ≡ true) }
    {
        if self.count >= MOST_WRITES {
            return Err(DirectoryCommitFault::LimitReached(MOST_WRITES));
        }
        if weight > MOST_WRITES_WEIGHT - self.weight {
            return Err(DirectoryCommitFault::LimitReached(MOST_WRITES_WEIGHT));
        }
        let mut csn_maker = self.csn_maker.copy();
        match csn_maker.next(now) {
            Ok(csn) => Ok(Drawn {
                csn,
                csn_maker,
                weight: self.weight + weight,
            }),
            Err(_) => Err(DirectoryCommitFault::LimitReached(GREATEST_COUNT)),
        }
    }
}
