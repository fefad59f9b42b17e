//! Changes that are put in place.
ghost use Rattle.std.specs.Prelude.{◌≡◌, ◌≤◌, ◌+◌, ◌-◌, ◌^◌, min, true, [], ◌∷◌, fold, IfOk, OnOk, OnErr};
ghost use Rattle.std.specs.BTreeMap.{is_at, insert_entry};
ghost use Rattle.std.specs.Map.{remove_entry, values_of};
ghost use Rattle.std.specs.Ordering.{nat_cmp};
ghost use Rattle.entry_tree.specs.NameIndex.{by_identity};
ghost use Rattle.entry_writes.specs.State as state;
ghost use Rattle.entry_writes.specs.Touched as changing;

use crate::reindex::reindexed;
use crate::strays::strays_with;
use crate::tree::{Entries, Tree};
use entry_writes::{Entry, EntryChange, Touched, is_one_entry};
use ldap_ber::NoMemory;

impl Tree {
    /// Puts changes in place that are exactly what differs after them and leave a directory, as
    /// those that `preview` reports of these entries. Without memory the entries stay as they are.
    pub fn put(&mut self, entry_changes: &Touched) -> Result<(), NoMemory>
        requires { changing.CanBeMade self.old entry_changes.now }
        ensures ok { OnOk result (self.new ≡ changing.with_changes self.old entry_changes.now) }
        ensures err { OnErr result (self.new ≡ self.old) }
    {
        *self = self.with_changes(entry_changes)?;
        Ok(())
    }

    /// The entries after such changes, beside these, with which they share what did not change. To
    /// put them in the place of these takes no memory.
    pub fn with_changes(&self, entry_changes: &Touched) -> Result<Tree, NoMemory>
        requires { changing.CanBeMade self.now entry_changes.now }
        ensures { IfOk result (λ after.
            after ≡ changing.with_changes self.now entry_changes.now) }
    {
        let copy = self.copy()?;
        copy.changed_by(entry_changes)
    }

    /// The entries after such changes. They are changed where they stand, as far as no other tree
    /// shares them; without memory they are lost.
    pub fn changed_by(self, entry_changes: &Touched) -> Result<Tree, NoMemory>
        requires { changing.CanBeMade self entry_changes.now }
        ensures { IfOk result (λ after.
            after ≡ changing.with_changes self entry_changes.now) }
    {
        let nothing = Tree::new(self.alloc);
        self.changed_as(&nothing, entry_changes)
    }

    /// The same, where what comes in is shared with another tree that has it too.
    pub fn changed_as(self, like: &Tree, entry_changes: &Touched) -> Result<Tree, NoMemory>
        requires { changing.CanBeMade self entry_changes.now }
        ensures { IfOk result (λ after.
            after ≡ changing.with_changes self entry_changes.now) }
    {
        let changes = entry_changes.list();
        let weight = weight_with(self.weight, changes);
        let strays = strays_with(&self.strays, changes);
        let names = reindexed(self.alloc, self.names, &like.names, changes)?;
        let entries = changed(self.entries, &like.entries, changes)?;
        Ok(Tree {
            alloc: self.alloc,
            entries,
            names,
            weight,
            strays,
        })
    }
}

/// The entries after the changes.
fn changed(entries: Entries, like: &Entries, changes: &[EntryChange]) -> Result<Entries, NoMemory>
    requires keyed { entries ≡ by_identity (values_of entries) }
    requires ascends { state.ascends (values_of entries) ≡ true }
    ensures { IfOk result (λ after.
        after ≡ by_identity (changing.with_changes (values_of entries) changes.now)) }
{
    let mut after = entries;
    remove_each(&mut after, changes)?;
    put_each(&mut after, like, changes)?;
    Ok(after)
}

/// Removes the entries of the identities that the changes leave without one.
fn remove_each(entries: &mut Entries, changes: &[EntryChange]) -> Result<(), NoMemory>
    ensures { OnOk result (entries.new
        ≡ fold (λ held uuid. remove_entry (is_at (nat_cmp uuid)) held) entries.old
        (changing.drops_of changes.now)) }
{
    for change in changes {
        remove_one(entries, change)?;
    }
    Ok(())
}

/// Removes the entry of the identity, where the change leaves it without one.
fn remove_one(entries: &mut Entries, change: &EntryChange) -> Result<(), NoMemory>
    ensures ok { OnOk result (entries.new
        ≡ fold (λ held uuid. remove_entry (is_at (nat_cmp uuid)) held) entries.old
        (changing.drops_of (change.now ∷ []))) }
    ensures err { OnErr result (entries.new ≡ entries.old) }
{
    match &change.after {
        Some(_) => Ok(()),
        None => entries.remove(&change.uuid),
    }
}

/// Puts each of the entries that the changes leave or make in its place.
fn put_each(entries: &mut Entries, like: &Entries, changes: &[EntryChange]) -> Result<(), NoMemory>
    ensures { OnOk result (entries.new
        ≡ fold (λ held entry. insert_entry nat_cmp held entry.uuid entry) entries.old
        (changing.puts_of changes.now)) }
{
    for change in changes {
        put_one(entries, like, change)?;
    }
    Ok(())
}

/// Puts the entry that the change leaves or makes in its place.
fn put_one(entries: &mut Entries, like: &Entries, change: &EntryChange) -> Result<(), NoMemory>
    ensures ok { OnOk result (entries.new
        ≡ fold (λ held entry. insert_entry nat_cmp held entry.uuid entry) entries.old
        (changing.puts_of (change.now ∷ []))) }
    ensures err { OnErr result (entries.new ≡ entries.old) }
{
    match &change.after {
        Some(entry) => put_entry(entries, like, entry),
        None => Ok(()),
    }
}

/// Puts the entry at its identity. It is shared with the other entries where these have the same.
fn put_entry(entries: &mut Entries, like: &Entries, entry: &Entry) -> Result<(), NoMemory>
    ensures ok { OnOk result
        (entries.new ≡ insert_entry nat_cmp entries.old entry.now.uuid entry.now) }
    ensures err { OnErr result (entries.new ≡ entries.old) }
{
    match like.pair_at(&entry.uuid) {
        Some(pair) if is_one_entry(pair.value(), entry) => entries.insert_shared(pair),
        _ => entries.insert(entry.uuid, entry.copy()?),
    }
}

/// What entries that weigh so much weigh after the changes.
fn weight_with(total: u64, changes: &[EntryChange]) -> u64
    requires total { total ≤ state.most_weight }
    requires before { changing.weight_before changes.now ≤ total }
    requires after { changing.weight_after changes.now ≤ state.most_weight }
    ensures { result + changing.weight_before changes.now
        ≡ total + changing.weight_after changes.now }
{
    let mut weight = total;
    for change in changes {
        weight -= found_weight(&change.before);
        weight += found_weight(&change.after);
    }
    weight
}

/// What an entry weighs, or 0 where there is none. The greatest number stands for all weights above
/// it.
fn found_weight(entry: &Option<Entry>) -> u64
    ensures { result ≡ min (state.found_weight entry.now) (2 ^ 64 - 1) }
{
    match entry {
        Some(entry) => entry.attrs.weight(),
        None => 0,
    }
}
