//! The entries that are held.

ghost use Rattle.std.specs.Prelude.{◌≡◌, ◌==◌, ◌-◌, ◌++◌, [], true, false, None, length, map, option_map, IfOk, IfErr, IfSome, IfNone, OnOk, OnErr, IsTrue};
ghost use Rattle.std.specs.List.{slice_get};
ghost use Rattle.std.specs.Option.{option_copied};
ghost use Rattle.entry_tree.specs.State.{ascends, entry_at, exceeds_limits, same_named};
ghost use Rattle.sync_model.specs.Copy.{effected};
ghost use Rattle.sync_model.specs.Within.{against};
ghost use Rattle.sync_consumer.specs.SyncSession.{RefusesBy};
ghost use Rattle.sync_consumer.specs.Staging.{higher, up_to};

use crate::fault::Refusal;
use crate::names::{IdentitiesByName, names_after};
use crate::stage::{MOST_ENTRIES, MOST_WEIGHT, Stage};
use crate::weighed::{WeighedEntries, entries_with};
use dn_names::Dn;
use entry_tree::{Entry, check_content};
use ldap_ber::NoMemory;
use shared_map::SharedMap;
use std::alloc::Global;
use std::marker::Model;
use sync_wire::KnownNames;

/// Entries by their identities, in ascending order, as a directory may have them, with the identity
/// of each name. A copy shares all of them, and so does a map with a stage in effect, other than
/// what the stage changes.
pub struct EntryMap {
    alloc: Global,
    entries: WeighedEntries,
    names: IdentitiesByName,
}

/// A call of its own, so that what drops a map is one step.
impl Drop for EntryMap {
    fn drop(self) {
        let EntryMap {
            alloc: _,
            entries: _entries,
            names: _names,
        } = self;
    }
}

impl Model for EntryMap {
    ghost use Rattle.std.specs.Prelude.{List};
    ghost use Rattle.entry_tree.specs.declared.entry.Entry.{Entry};
    ghost use Rattle.sync_consumer.specs.Holding.{IsEntryMap};

    ghost Value = { List Entry };

    ghost view = { λ m. m.entries };

    ghost invariant = { λ m. IsEntryMap m.entries m.names };
}

impl EntryMap {
    #[tactic(auto, using(crate::proofs::Effecting::nothing_mapped))]
    pub(crate) fn new(alloc: Global) -> EntryMap
        ensures { result ≡ [] }
    {
        EntryMap {
            alloc,
            entries: WeighedEntries::new(alloc),
            names: SharedMap::new(alloc),
        }
    }

    /// These entries, shared with this map.
    #[tactic(auto, using(crate::proofs::Effecting::same_mapped))]
    pub(crate) fn copy(&self) -> Result<EntryMap, NoMemory>
        ensures { IfOk result (λ copy. copy ≡ self.now) }
    {
        Ok(EntryMap {
            alloc: self.alloc,
            entries: self.entries.copy()?,
            names: self.names.copy()?,
        })
    }

    /// Reports how many entries are held.
    pub fn len(&self) -> usize
        ensures { result ≡ length self.now }
    {
        self.entries.len()
    }

    /// Reports whether no entry is held.
    pub fn is_empty(&self) -> bool
        ensures { result ≡ (length self.now == 0) }
    {
        self.entries.len() == 0
    }

    /// The entry of that identity.
    pub fn get(&self, uuid: u128) -> Option<&Entry>
        ensures { option_copied result ≡ entry_at self.now uuid }
    {
        self.entries.get(uuid)
    }

    /// The entries above an identity, in ascending order of identity. It is `NoMemory` where memory
    /// runs out.
    #[tactic(auto, using(crate::proofs::Prefixes::both_sides))]
    pub fn above(&self, uuid: u128) -> Result<Vec<&Entry>, NoMemory>
        ensures value { IfOk result (λ above. map (λ e. e.now) above.items ≡ higher uuid self.now) }
        ensures split { IfOk result (λ above.
            up_to uuid self.now ++ map (λ e. e.now) above.items ≡ self.now) }
    {
        self.entries.above(uuid)
    }

    /// The greatest identity, up to which all entries are.
    pub fn greatest(&self) -> Option<u128>
        ensures value { result
            ≡ option_map (λ entry. entry.uuid) (slice_get self.now (length self.now - 1)) }
        ensures all { IfSome result (λ uuid. up_to uuid self.now ≡ self.now) }
        ensures none { IfNone result (self.now ≡ []) }
    {
        self.entries.greatest()
    }

    /// The entries, in ascending order of identity. It is `NoMemory` where memory runs out.
    pub fn list(&self) -> Result<Vec<&Entry>, NoMemory>
        ensures value { IfOk result (λ list. map (λ e. e.now) list.items ≡ self.now) }
        ensures ascends { ascends self.now ≡ true }
        ensures within { against self.now ≡ None }
    {
        self.entries.list()
    }

    pub(crate) fn allocator(&self) -> Global {
        self.alloc
    }

    /// Brings the stage into effect, where a directory may have what it leaves. A refusal leaves the
    /// entries as they were.
    pub(crate) fn take_effect(&mut self, stage: &Stage) -> Result<(), Refusal>
        ensures value { OnOk result (self.new ≡ effected self.old stage.now) }
        ensures within { OnOk result (against (effected self.old stage.now) ≡ None) }
        ensures fault { IfErr result (RefusesBy (against (effected self.old stage.now))) }
        ensures err { OnErr result (self.new ≡ self.old) }
    {
        if self.take_one_change(stage)? {
            return Ok(());
        }
        *self = self.with(stage)?;
        Ok(())
    }

    /// Brings a stage of one change into effect where the entries stand. The answer is false, and
    /// all is as before, where it has more changes or none, where it might leave too many entries
    /// or too heavy ones, and where another entry has the name that it puts.
    fn take_one_change(&mut self, stage: &Stage) -> Result<bool, NoMemory>
        ensures made { IfOk result (λ made.
            IsTrue made → self.new ≡ effected self.old stage.now) }
        ensures within { IfOk result (λ made.
            IsTrue made → against (effected self.old stage.now) ≡ None) }
        ensures left { IfOk result (λ made. made ≡ false → self.new ≡ self.old) }
        ensures err { OnErr result (self.new ≡ self.old) }
    {
        let changes = stage.list()?;
        if changes.len() != 1 {
            return Ok(false);
        }
        if !self.has_room(stage) {
            return Ok(false);
        }
        let (names, has_unique_names) = names_after(&self.names, &self.entries, &changes)?;
        if !has_unique_names {
            return Ok(false);
        }
        self.entries.apply(changes[0])?;
        self.names = names;
        Ok(true)
    }

    /// Whether the entries and all that the stage puts are together no more and no heavier than a
    /// directory may have.
    fn has_room(&self, stage: &Stage) -> bool
        ensures { IsTrue result → exceeds_limits (effected self.now stage.now) ≡ false }
    {
        let count = self.entries.len().saturating_add(stage.count());
        let weight = self.entries.weight().saturating_add(stage.weight());
        count <= MOST_ENTRIES && weight <= MOST_WEIGHT
    }

    /// These entries with the stage in effect, where a directory may have them. They are shared
    /// with this map and the stage, and where this one is empty so is what they are kept in.
    pub(crate) fn with(&self, stage: &Stage) -> Result<EntryMap, Refusal>
        ensures value { IfOk result (λ map. map ≡ effected self.now stage.now) }
        ensures within { OnOk result (against (effected self.now stage.now) ≡ None) }
        ensures fault { IfErr result (RefusesBy (against (effected self.now stage.now))) }
    {
        let changes = stage.list()?;
        let entries = entries_with(&self.entries, stage, &changes)?;
        let (names, has_unique_names) = names_after(&self.names, &self.entries, &changes)?;
        check(self.alloc, &entries, has_unique_names)?;
        Ok(EntryMap {
            alloc: self.alloc,
            entries,
            names,
        })
    }
}

impl KnownNames for EntryMap {
    /// The name of the entry of that identity.
    fn name_of(&self, uuid: u128) -> Option<&Dn> {
        match self.get(uuid) {
            Some(entry) => Some(&entry.dn),
            None => None,
        }
    }
}

/// Refuses entries that a directory may not have. All their names are compared only where they are
/// not known to be apart, or where there are too many entries, or too heavy ones.
#[tactic(auto, using(crate::proofs::Opposing::opposed, crate::proofs::Opposing::unopposed))]
fn check(alloc: Global, entries: &WeighedEntries, has_unique_names: bool) -> Result<(), Refusal>
    requires { IsTrue has_unique_names → same_named entries.now ≡ None }
    ensures ok { OnOk result (against entries.now ≡ None) }
    ensures fault { IfErr result (RefusesBy (against entries.now)) }
{
    if has_unique_names && is_within(entries) {
        return Ok(());
    }
    let list = entries.list()?;
    check_content(alloc, &list)?;
    Ok(())
}

/// Whether the entries are no more and no heavier than a directory may have.
fn is_within(entries: &WeighedEntries) -> bool
    ensures { IsTrue result → exceeds_limits entries.now ≡ false }
{
    entries.len() <= MOST_ENTRIES && entries.weight() <= MOST_WEIGHT
}
