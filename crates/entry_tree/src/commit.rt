//! Commits: what a replica takes from its provider at one time (RFC 4533, section 3.3).
ghost use Rattle.std.specs.Prelude.{◌≡◌, [], ◌∷◌, true, None, map, filter, IfOk, IfErr, OnOk, IsTrue};
ghost use Rattle.std.specs.BTreeMap as btree;
ghost use Rattle.std.specs.Option.{option_copied};
ghost use Rattle.std.specs.Ordering.{nat_cmp};
ghost use Rattle.entry_tree.specs.declared.commit.CommitRefusal.TheVariants.{NoMemory};
ghost use Rattle.entry_writes.specs.Effects.{committed};
ghost use Rattle.entry_tree.specs.Fitting.{is_directory_content, IsCauseOf};
ghost use Rattle.entry_tree.specs.Judging.{change_by};
ghost use Rattle.entry_writes.specs.State as state;
ghost use Rattle.entry_writes.specs.Touched.{is_change, touched, IsPlan};

use crate::after::{entries_after, ids_of};
use crate::held::check_content;
use crate::judging::latest_of;
use crate::tree::Tree;
use entry_writes::{Entry, EntryChange, Touched};
use ldap_ber::NoMemory;
use std::alloc::AllocError;
use std::collections::BTreeMap;

/// Why the entries after a commit may not be held.
#[derive(Clone, Copy, Debug, PartialEq, Eq)]
pub enum CommitRefusal {
    /// There would be more than 200,000 entries.
    TooMany,
    /// The entries would weigh more than 256 MiB.
    TooHeavy,
    /// These two would have one name: the first whose name a later one has, and the first such.
    SameName(u128, u128),
    NoMemory,
}

impl From<AllocError> for CommitRefusal {
    ghost from_gives = { λ _ refusal. refusal ≡ NoMemory };

    fn from(_error: AllocError) -> CommitRefusal {
        CommitRefusal::NoMemory
    }
}

impl Tree {
    /// Whether the entries after a commit may be held: they are no more and no heavier than a
    /// directory's may be, and no two of them have one name. Else it is `TooMany`, `TooHeavy` or
    /// `SameName`, the first of these that is so, or `NoMemory`.
    pub fn check_commit(&self, puts: &[Entry], drops: &[u128]) -> Result<(), CommitRefusal>
        ensures ok { OnOk result
            (is_directory_content (committed self.now puts.now drops.now) ≡ true) }
        ensures refused { IfErr result (IsCauseOf (committed self.now puts.now drops.now)) }
    {
        let entries = self.entries()?;
        let after = entries_after(self.alloc, &entries, puts, drops)?;
        check_content(self.alloc, &after)
    }

    /// What differs after a commit, where the entries after it may be held, or else what
    /// `check_commit` reports of it. Where no two entries have one name, as `unique_names` states,
    /// it is judged by what it puts and drops, and all entries are looked at only where something
    /// may be against that.
    pub fn plan_commit(
        &self,
        puts: &[Entry],
        drops: &[u128],
        unique_names: bool,
    ) -> Result<Touched, CommitRefusal>
        requires { IsTrue unique_names → state.same_named self.now ≡ None }
        ensures held { OnOk result
            (is_directory_content (committed self.now puts.now drops.now) ≡ true) }
        ensures plan { IfOk result (IsPlan self.now (committed self.now puts.now drops.now)) }
        ensures refused { IfErr result (IsCauseOf (committed self.now puts.now drops.now)) }
    {
        let entry_changes = self.changes(puts, drops)?;
        self.check_changes(puts, drops, entry_changes.list(), unique_names)?;
        Ok(entry_changes)
    }

    /// What `check_commit` reports of a commit that makes these changes.
    fn check_changes(
        &self,
        puts: &[Entry],
        drops: &[u128],
        changes: &[EntryChange],
        unique_names: bool,
    ) -> Result<(), CommitRefusal>
        requires unique_names { IsTrue unique_names → state.same_named self.now ≡ None }
        requires exact { changes.now ≡ touched self.now (committed self.now puts.now drops.now) }
        ensures ok { OnOk result
            (is_directory_content (committed self.now puts.now drops.now) ≡ true) }
        ensures refused { IfErr result (IsCauseOf (committed self.now puts.now drops.now)) }
    {
        if unique_names && self.is_clear(changes)? {
            return Ok(());
        }
        self.check_commit(puts, drops)
    }

    /// What differs after identities are dropped and then entries are put, each in the place of one
    /// of its identity.
    pub(crate) fn judge_commit(&self, puts: &[Entry], drops: &[u128]) -> Result<Touched, NoMemory>
        requires { is_directory_content (committed self.now puts.now drops.now) ≡ true }
        ensures { IfOk result (IsPlan self.now (committed self.now puts.now drops.now)) }
    {
        self.changes(puts, drops)
    }

    /// What differs after a commit. Only the identities are looked at that it puts or drops.
    fn changes(&self, puts: &[Entry], drops: &[u128]) -> Result<Touched, NoMemory>
        ensures exact { IfOk result (λ entry_changes.
            entry_changes ≡ touched self.now (committed self.now puts.now drops.now)) }
        ensures ascends { state.ascends self.now ≡ true }
    {
        if let [entry] = puts {
            if drops.is_empty() {
                return self.change_to(entry);
            }
        }
        let uuids = ids_of(self.alloc, puts, drops)?;
        let latest = latest_of(self.alloc, puts)?;
        self.differences(&latest, &uuids)
    }

    /// What differs after an entry is put in the place of that of its identity.
    fn change_to(&self, entry: &Entry) -> Result<Touched, NoMemory>
        ensures exact { IfOk result (λ entry_changes.
            entry_changes ≡ touched self.now (committed self.now (entry.now ∷ []) [])) }
        ensures ascends { state.ascends self.now ≡ true }
    {
        let mut entry_changes = Touched::new(self.alloc);
        entry_changes.push_difference(entry.uuid, self.get(entry.uuid), Some(entry))?;
        Ok(entry_changes)
    }

    /// Which of these identities have another entry in the map than here.
    fn differences(
        &self,
        others: &BTreeMap<u128, &Entry>,
        uuids: &[u128],
    ) -> Result<Touched, NoMemory>
        ensures { IfOk result (λ entry_changes.
            entry_changes
            ≡ filter is_change
            (map (change_by self.now (λ uuid. option_copied (btree.get nat_cmp others.now uuid)))
            uuids.now)) }
    {
        let mut entry_changes = Touched::new(self.alloc);
        for uuid in uuids {
            entry_changes.push_difference(*uuid, self.get(*uuid), others.get(uuid).copied())?;
        }
        Ok(entry_changes)
    }
}
