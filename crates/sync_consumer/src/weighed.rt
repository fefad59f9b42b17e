//! Entries with what they weigh.

ghost use Rattle.std.specs.Prelude.{◌≡◌, ◌-◌, ◌+◌, ◌++◌, ◌<◌, ◌≤◌, ◌^◌, [], true, not, length, map, filter, option_map, IfOk, IfSome, IfNone, OnOk, OnErr};
ghost use Rattle.std.specs.List.{slice_get};
ghost use Rattle.std.specs.Map.{values_of};
ghost use Rattle.std.specs.Option.{option_copied};
ghost use Rattle.schema_rules.specs.Attributes.{weight_of};
ghost use Rattle.entry_tree.specs.State as state;
ghost use Rattle.entry_tree.specs.State.{ascends, entry_at, found_weight, is_identified, most_weight, total_weight};
ghost use Rattle.sync_model.specs.Copy.{effected, put_or_dropped, puts_of};
ghost use Rattle.sync_consumer.specs.Holding.{entries_put, AreWeighedPuts};
ghost use Rattle.sync_consumer.specs.Staging.{change_of, changes_in, higher, put_alone, up_to};

use crate::stage::{Stage, StagedChange};
use entry_tree::Entry;
use ldap_ber::NoMemory;
use shared_map::SharedMap;
use std::alloc::Global;
use std::marker::Model;

/// Entries by their identities, in ascending order, with what they weigh. Each is kept as the
/// change that puts it, so that what a stage puts can be held as it stands there.
#[derive(Drop)]
pub(crate) struct WeighedEntries {
    puts: SharedMap<u128, StagedChange>,
    weight: u64,
}

impl Model for WeighedEntries {
    ghost use Rattle.std.specs.Prelude.{List};
    ghost use Rattle.std.specs.Map.{values_of};
    ghost use Rattle.entry_tree.specs.declared.entry.Entry.{Entry};
    ghost use Rattle.sync_consumer.specs.Holding.{entries_put, AreWeighedPuts};

    ghost Value = { List Entry };

    ghost view = { λ w. values_of (entries_put w.puts) };

    ghost invariant = { λ w. AreWeighedPuts w.puts w.weight };
}

impl WeighedEntries {
    #[tactic(auto, using(crate::proofs::KeptPuts::nothing_put))]
    pub(crate) fn new(alloc: Global) -> WeighedEntries
        ensures { result ≡ [] }
    {
        WeighedEntries {
            puts: SharedMap::new(alloc),
            weight: 0,
        }
    }

    /// The entries that these changes put, each of which puts one, with what they weigh.
    pub(crate) fn of(puts: SharedMap<u128, StagedChange>, weight: u64) -> WeighedEntries
        requires { AreWeighedPuts puts weight }
        ensures { result ≡ values_of (entries_put puts) }
    {
        WeighedEntries { puts, weight }
    }

    #[tactic(auto, using(crate::proofs::KeptPuts::same_put))]
    pub(crate) fn copy(&self) -> Result<WeighedEntries, NoMemory>
        ensures { IfOk result (λ copy. copy ≡ self.now) }
    {
        Ok(WeighedEntries {
            puts: self.puts.copy()?,
            weight: self.weight,
        })
    }

    pub(crate) fn len(&self) -> usize
        ensures { result ≡ length self.now }
    {
        self.puts.len()
    }

    pub(crate) fn weight(&self) -> u64
        ensures { result ≡ total_weight self.now }
    {
        self.weight
    }

    /// The entry of that identity.
    pub(crate) fn get(&self, uuid: u128) -> Option<&Entry>
        ensures { option_copied result ≡ entry_at self.now uuid }
    {
        match self.puts.get(&uuid) {
            Some(change) => change.entry(),
            None => None,
        }
    }

    /// The entries above an identity, in ascending order of identity.
    pub(crate) fn above(&self, uuid: u128) -> Result<Vec<&Entry>, NoMemory>
        ensures value { IfOk result (λ above. map (λ e. e.now) above.items ≡ higher uuid self.now) }
        ensures ascends { ascends self.now ≡ true }
    {
        let changes = self.puts.values_after(&uuid)?;
        entries_of(*changes.allocator(), &changes)
    }

    /// The greatest identity, up to which all entries are.
    pub(crate) fn greatest(&self) -> Option<u128>
        ensures value { result
            ≡ option_map (λ entry. entry.uuid) (slice_get self.now (length self.now - 1)) }
        ensures all { IfSome result (λ uuid. up_to uuid self.now ≡ self.now) }
        ensures none { IfNone result (self.now ≡ []) }
    {
        match self.puts.last() {
            Some((uuid, _)) => Some(*uuid),
            None => None,
        }
    }

    /// The entries, in ascending order of identity.
    pub(crate) fn list(&self) -> Result<Vec<&Entry>, NoMemory>
        ensures value { IfOk result (λ list. map (λ e. e.now) list.items ≡ self.now) }
        ensures ascends { ascends self.now ≡ true }
    {
        let changes = self.puts.values()?;
        entries_of(*changes.allocator(), &changes)
    }

    /// Puts the entry in the place of that of its identity, where there is one.
    fn put(&mut self, entry: Entry) -> Result<(), NoMemory>
        requires { total_weight self.old + weight_of entry.attrs < 2 ^ 64 }
        ensures ok { OnOk result (self.new ≡ state.put entry self.old) }
        ensures err { OnErr result (self.new ≡ self.old) }
    {
        let uuid = entry.uuid;
        let weight = self.weight_without(uuid) + entry.attrs.weight();
        self.puts.insert(uuid, StagedChange::AddOrModify(entry))?;
        self.weight = weight;
        Ok(())
    }

    /// Removes the entry of the identity, where there is one.
    fn remove(&mut self, uuid: u128) -> Result<(), NoMemory>
        ensures ok { OnOk result
            (self.new ≡ filter (λ entry. not (is_identified uuid entry)) self.old) }
        ensures err { OnErr result (self.new ≡ self.old) }
    {
        let weight = self.weight_without(uuid);
        self.puts.remove(&uuid)?;
        self.weight = weight;
        Ok(())
    }

    /// What the entries weigh but that of the identity.
    fn weight_without(&self, uuid: u128) -> u64
        ensures { result + found_weight (entry_at self.now uuid) ≡ total_weight self.now }
    {
        match self.get(uuid) {
            Some(entry) => self.weight - entry.attrs.weight(),
            None => self.weight,
        }
    }

    /// Brings the change into effect.
    pub(crate) fn apply(&mut self, change: &StagedChange) -> Result<(), NoMemory>
        requires { total_weight self.old + found_weight (change_of change.now).1 < 2 ^ 64 }
        ensures ok { OnOk result (self.new
            ≡ put_or_dropped self.old (change_of change.now).0 (change_of change.now).1) }
        ensures err { OnErr result (self.new ≡ self.old) }
    {
        match change {
            StagedChange::AddOrModify(entry) => self.put(entry.copy()?),
            StagedChange::Delete(uuid) => self.remove(*uuid),
        }
    }
}

/// The entries that there are after the changes. They are shared with those before and with the
/// changes.
fn entries_after(
    held: &WeighedEntries,
    changes: &[&StagedChange],
) -> Result<WeighedEntries, NoMemory>
    requires ascends { ascends held.now ≡ true }
    requires held { total_weight held.now ≤ most_weight }
    requires puts { total_weight (puts_of (changes_in changes.now)) ≤ most_weight }
    ensures { IfOk result (λ after. after ≡ effected held.now (changes_in changes.now)) }
{
    let mut after = held.copy()?;
    let mut left = changes.len();
    while left > 0 {
        left -= 1;
        after.apply(changes[left])?;
    }
    Ok(after)
}

/// The entries that there are after the stage, which has these changes. Where none are held and the
/// stage drops none, they are those that it puts, as they stand in it, and no others are made.
pub(crate) fn entries_with(
    held: &WeighedEntries,
    stage: &Stage,
    changes: &[&StagedChange],
) -> Result<WeighedEntries, NoMemory>
    requires changes { changes_in changes.now ≡ stage.now }
    requires ascends { ascends held.now ≡ true }
    requires held { total_weight held.now ≤ most_weight }
    requires puts { total_weight (puts_of (changes_in changes.now)) ≤ most_weight }
    ensures { IfOk result (λ after. after ≡ effected held.now stage.now) }
{
    if held.len() == 0 {
        if let Some(entries) = stage.entries_alone()? {
            return Ok(entries);
        }
    }
    entries_after(held, changes)
}

/// The entries that the changes put.
fn entries_of<'a>(alloc: Global, changes: &[&'a StagedChange]) -> Result<Vec<&'a Entry>, NoMemory>
    ensures { IfOk result (λ entries.
        map (λ e. e.now) entries.items ≡ puts_of (changes_in changes.now)) }
{
    let mut entries = Vec::with_capacity(alloc, changes.len())?;
    for change in changes {
        push_put(&mut entries, *change)?;
    }
    Ok(entries)
}

/// Puts the entry that the change puts, if any, at the end.
fn push_put<'a>(entries: &mut Vec<&'a Entry>, change: &'a StagedChange) -> Result<(), NoMemory>
    ensures { OnOk result (map (λ e. e.now) entries.new.items
        ≡ map (λ e. e.now) entries.old.items ++ put_alone change.now) }
{
    match change {
        StagedChange::AddOrModify(entry) => entries.push(entry)?,
        StagedChange::Delete(_) => {}
    }
    Ok(())
}
