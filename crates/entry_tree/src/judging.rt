//! What a commit is judged by where no two entries before it have one name: the changes that it
//! makes.
ghost use Rattle.std.specs.Prelude.{◌≡◌, ℕ, ◌+◌, ◌≤◌, true, None, length, map, reverse, IfOk, IsTrue};
ghost use Rattle.std.specs.List.{list_all};
ghost use Rattle.std.specs.Option.{option_copied};
ghost use Rattle.std.specs.Ordering.{nat_cmp};
ghost use Rattle.std.specs.BTreeMap as btree;
ghost use Rattle.entry_tree.specs.Judging as spec;
ghost use Rattle.entry_writes.specs.State as state;
ghost use Rattle.entry_writes.specs.Touched.{puts_of};

use crate::held::{same_named, total_weight};
use crate::tree::Tree;
use entry_writes::{Entry, EntryChange, MOST_ENTRIES, MOST_WEIGHT};
use ldap_ber::NoMemory;
use std::alloc::Global;
use std::collections::BTreeMap;

impl Tree {
    /// Whether the entries after these changes keep within the limits, and those that the changes
    /// leave or make have names of their own, as far as the names of the others were apart. It
    /// looks at the changes alone.
    pub(crate) fn is_clear(&self, changes: &[EntryChange]) -> Result<bool, NoMemory>
        requires { state.same_named self.now ≡ None }
        ensures clear { IfOk result (λ clear.
            IsTrue clear → spec.AreClear self.now changes.now) }
        ensures ascends { state.ascends self.now ≡ true }
    {
        let taken = taken_by(self.alloc, changes)?;
        let put = put_by(self.alloc, changes)?;
        if !self.has_room(&taken, &put) {
            return Ok(false);
        }
        if !self.have_free_names(&put, changes) {
            return Ok(false);
        }
        Ok(same_named(self.alloc, &put)?.is_none())
    }

    /// Whether the entries with some taken away and others put are no more and no heavier than a
    /// directory's may be.
    fn has_room(&self, taken: &[&Entry], put: &[&Entry]) -> bool
        ensures few { IsTrue result
            → length self.now + length put.now ≤ state.most_entries + length taken.now }
        ensures light { IsTrue result
            → state.total_weight self.now + state.total_weight (map (λ e. e.now) put.now)
            ≤ state.most_weight + state.total_weight (map (λ e. e.now) taken.now) }
    {
        let kept = self.len().saturating_sub(taken.len());
        let weight = self.weight().saturating_sub(total_weight(taken));
        put.len() <= MOST_ENTRIES - kept && total_weight(put) <= MOST_WEIGHT - weight
    }

    /// Whether no entry has the name of one of these, but for entries that change.
    fn have_free_names(&self, put: &[&Entry], changes: &[EntryChange]) -> bool
        requires { state.same_named self.now ≡ None }
        ensures { IsTrue result
            → list_all (spec.has_free_name self.now changes.now) (map (λ e. e.now) put.now)
            ≡ true }
    {
        for entry in put {
            if !self.has_free_name(entry, changes) {
                return false;
            }
        }
        true
    }

    /// Whether no entry has the name of this one, or one that changes. Where its identity has the
    /// name, no other entry does, and the name is not looked for.
    fn has_free_name(&self, entry: &Entry, changes: &[EntryChange]) -> bool
        requires { state.same_named self.now ≡ None }
        ensures { IsTrue result → spec.has_free_name self.now changes.now entry.now ≡ true }
    {
        if self.keeps_name(entry) {
            return is_changed(changes, entry.uuid);
        }
        match self.find(&entry.dn) {
            None => true,
            Some(holder) => is_changed(changes, holder.uuid),
        }
    }

    /// Whether the identity of the entry has an entry of its name.
    fn keeps_name(&self, entry: &Entry) -> bool
        ensures kept { result
            ≡ spec.keeps_name (state.entry_at self.now entry.now.uuid) entry.now }
        ensures ascends { state.ascends self.now ≡ true }
    {
        match self.get(entry.uuid) {
            Some(was) => was.dn.same(&entry.dn),
            None => false,
        }
    }
}

/// Whether the identity is found among those that change.
fn is_changed(changes: &[EntryChange], uuid: u128) -> bool
    ensures { IsTrue result → spec.is_changed changes.now uuid ≡ true }
{
    match changes.binary_search_by_key(&uuid, |change| change.uuid) {
        Ok(_) => true,
        Err(_) => false,
    }
}

/// The entries that the changes remove or replace.
fn taken_by(alloc: Global, changes: &[EntryChange]) -> Result<Vec<&Entry>, NoMemory>
    ensures { IfOk result (λ taken. map (λ e. e.now) taken.items ≡ spec.takes_of changes.now) }
{
    let mut taken = Vec::new(alloc);
    for change in changes {
        if let Some(entry) = &change.before {
            taken.push(entry)?;
        }
    }
    Ok(taken)
}

/// The entries that the changes leave or make.
fn put_by(alloc: Global, changes: &[EntryChange]) -> Result<Vec<&Entry>, NoMemory>
    ensures { IfOk result (λ put. map (λ e. e.now) put.items ≡ puts_of changes.now) }
{
    let mut put = Vec::new(alloc);
    for change in changes {
        if let Some(entry) = &change.after {
            put.push(entry)?;
        }
    }
    Ok(put)
}

/// The last of these entries of each identity.
pub(crate) fn latest_of(alloc: Global, puts: &[Entry]) -> Result<BTreeMap<u128, &Entry>, NoMemory>
    ensures { IfOk result (λ latest. (uuid : ℕ)
        → option_copied (btree.get nat_cmp latest uuid)
        ≡ state.entry_at (reverse puts.now) uuid) }
{
    let mut latest = BTreeMap::new(alloc);
    for entry in puts {
        let _ = latest.insert(entry.uuid, entry)?;
    }
    Ok(latest)
}
