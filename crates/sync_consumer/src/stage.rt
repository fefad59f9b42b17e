//! What a search has sent and what has not taken effect yet.

ghost use Rattle.std.specs.Prelude.{◌≡◌, ◌+◌, ◌≤◌, [], Some, None, true, false, not, length, IfOk, IfSome, OnOk, OnErr};
ghost use Rattle.std.specs.Map.{keys_of};
ghost use Rattle.std.specs.Option.{option_copied};
ghost use Rattle.entry_tree.specs.State.{found_weight, most_weight, total_weight};
ghost use Rattle.sync_model.specs.Copy as model;
ghost use Rattle.sync_model.specs.Copy.{effected, puts_of, staged};
ghost use Rattle.sync_model.specs.Within.{exceeds_limits};
ghost use Rattle.sync_consumer.specs.Staging as spec;
ghost use Rattle.entry_tree.specs.Touched.{rises};
ghost use Rattle.sync_consumer.specs.Staging.{change_of, changes_in, entry_staged};

use crate::weighed::WeighedEntries;
use entry_tree::Entry;
use ldap_ber::NoMemory;
use shared_map::SharedMap;
use std::alloc::Global;
use std::marker::Model;

/// The most entries that are staged.
pub(crate) const MOST_ENTRIES: usize = 200_000;

/// The most that the staged entries weigh.
pub(crate) const MOST_WEIGHT: u64 = 268_435_456;

/// What is staged of an identity: its entry, or that it has none.
#[derive(Drop)]
pub(crate) enum StagedChange {
    AddOrModify(Entry),
    Delete(u128),
}

impl StagedChange {
    pub(crate) fn uuid(&self) -> u128
        ensures { result ≡ (change_of self.now).0 }
    {
        match self {
            StagedChange::AddOrModify(entry) => entry.uuid,
            StagedChange::Delete(uuid) => *uuid,
        }
    }

    pub(crate) fn entry(&self) -> Option<&Entry>
        ensures { option_copied result ≡ (change_of self.now).1 }
    {
        match self {
            StagedChange::AddOrModify(entry) => Some(entry),
            StagedChange::Delete(_) => None,
        }
    }
}

/// How many entries are staged, and what they weigh.
#[derive(Clone, Copy)]
struct Load {
    count: usize,
    weight: u64,
}

/// What is staged, in ascending order of identity, within the limits of a directory. The latest of
/// an identity counts. A copy shares all of it.
pub(crate) struct Stage {
    alloc: Global,
    changes: SharedMap<u128, StagedChange>,
    load: Load,
}

/// A call of its own, so that what drops a stage is one step.
impl Drop for Stage {
    fn drop(self) {
        let Stage {
            alloc: _,
            changes: _changes,
            load: _,
        } = self;
    }
}

impl Model for Stage {
    ghost use Rattle.sync_model.specs.Copy as copy;
    ghost use Rattle.sync_consumer.specs.Staging.{changes_kept, IsStage};

    ghost Value = { copy.Stage };

    ghost view = { λ s. changes_kept s.changes };

    ghost invariant = { λ s. IsStage s.changes s.load.count s.load.weight };
}

impl Stage {
    #[tactic(auto, using(crate::proofs::Stages::empty_stage))]
    pub(crate) fn new(alloc: Global) -> Stage
        ensures { result ≡ [] }
    {
        Stage {
            alloc,
            changes: SharedMap::new(alloc),
            load: Load {
                count: 0,
                weight: 0,
            },
        }
    }

    #[tactic(auto, using(crate::proofs::Stages::same_stage))]
    pub(crate) fn copy(&self) -> Result<Stage, NoMemory>
        ensures { IfOk result (λ copy. copy ≡ self.now) }
    {
        Ok(Stage {
            alloc: self.alloc,
            changes: self.changes.copy()?,
            load: self.load,
        })
    }

    /// The changes, in ascending order of identity.
    pub(crate) fn list(&self) -> Result<Vec<&StagedChange>, NoMemory>
        ensures value { IfOk result (λ list. changes_in list.items ≡ self.now) }
        ensures ordered { rises (keys_of self.now) ≡ true }
        ensures light { total_weight (puts_of self.now) ≤ most_weight }
    {
        self.changes.values()
    }

    /// How many entries are staged.
    pub(crate) fn count(&self) -> usize
        ensures { result ≡ length (puts_of self.now) }
    {
        self.load.count
    }

    /// What the staged entries weigh.
    pub(crate) fn weight(&self) -> u64
        ensures { result ≡ total_weight (puts_of self.now) }
    {
        self.load.weight
    }

    /// The entries that take effect where none are held, unless an identity is staged without one.
    /// They share what they are kept in with the stage.
    pub(crate) fn entries_alone(&self) -> Result<Option<WeighedEntries>, NoMemory>
        ensures { IfOk result (λ found. IfSome found (λ entries. entries ≡ effected [] self.now)) }
    {
        if self.load.count != self.changes.len() {
            return Ok(None);
        }
        let changes = self.changes.copy()?;
        Ok(Some(WeighedEntries::of(changes, self.load.weight)))
    }

    /// Whether an entry of the identity is staged.
    #[tactic(auto, using(crate::proofs::Stages::put_is))]
    pub(crate) fn has_entry(&self, uuid: u128) -> bool
        ensures { result ≡ model.is_put (model.slot self.now uuid) }
    {
        self.entry(uuid).is_some()
    }

    /// The staged entry of the identity.
    fn entry(&self, uuid: u128) -> Option<&Entry>
        ensures { option_copied result ≡ entry_staged self.now uuid }
    {
        match self.changes.get(&uuid) {
            Some(change) => change.entry(),
            None => None,
        }
    }

    /// Whether there is room for the entry, in place of the one that is staged of its identity.
    pub(crate) fn has_room(&self, entry: &Entry) -> bool
        ensures { result
            ≡ not (exceeds_limits (puts_of (staged entry.now.uuid (Some entry.now) self.now))) }
    {
        let load = self.load_without(entry.uuid);
        load.count < MOST_ENTRIES && load.weight.saturating_add(entry.attrs.weight()) <= MOST_WEIGHT
    }

    /// What is staged with the entry, in place of what is staged of its identity.
    pub(crate) fn with_entry(&self, entry: Entry) -> Result<Stage, NoMemory>
        requires { exceeds_limits (puts_of (staged entry.uuid (Some entry) self.now)) ≡ false }
        ensures { IfOk result (λ stage. stage ≡ staged entry.uuid (Some entry) self.now) }
    {
        let mut stage = self.copy()?;
        stage.put(entry)?;
        Ok(stage)
    }

    /// Stages the entry, in place of what is staged of its identity.
    pub(crate) fn put(&mut self, entry: Entry) -> Result<(), NoMemory>
        requires { exceeds_limits (puts_of (staged entry.uuid (Some entry) self.old)) ≡ false }
        ensures ok { OnOk result (self.new ≡ staged entry.uuid (Some entry) self.old) }
        ensures err { OnErr result (self.new ≡ self.old) }
    {
        let uuid = entry.uuid;
        let load = self.load_with(&entry);
        self.changes.insert(uuid, StagedChange::AddOrModify(entry))?;
        self.load = load;
        Ok(())
    }

    /// What is staged with these identities without an entry.
    pub(crate) fn without_each(&self, uuids: &[u128]) -> Result<Stage, NoMemory>
        ensures { IfOk result (λ stage. stage ≡ model.all_dropped self.now uuids.now) }
    {
        let mut stage = self.copy()?;
        for uuid in uuids {
            stage.delete(*uuid)?;
        }
        Ok(stage)
    }

    /// Stages that the identity has no entry.
    fn delete(&mut self, uuid: u128) -> Result<(), NoMemory>
        ensures { OnOk result (self.new ≡ staged uuid None self.old) }
    {
        let load = self.load_without(uuid);
        self.changes.insert(uuid, StagedChange::Delete(uuid))?;
        self.load = load;
        Ok(())
    }

    /// Drops all that is staged.
    #[tactic(auto, using(crate::proofs::Stages::empty_stage))]
    pub(crate) fn clear(&mut self)
        ensures { self.new ≡ [] }
    {
        self.changes = SharedMap::new(self.alloc);
        self.load = Load {
            count: 0,
            weight: 0,
        };
    }

    /// The load without the entry of the identity.
    fn load_without(&self, uuid: u128) -> Load
        ensures count { result.count + spec.count_of (entry_staged self.now uuid)
            ≡ length (puts_of self.now) }
        ensures weight { result.weight + found_weight (entry_staged self.now uuid)
            ≡ total_weight (puts_of self.now) }
        ensures light { result.weight ≤ most_weight }
        ensures ordered { rises (keys_of self.now) ≡ true }
    {
        match self.entry(uuid) {
            Some(entry) => Load {
                count: self.load.count - 1,
                weight: self.load.weight - entry.attrs.weight(),
            },
            None => self.load,
        }
    }

    /// The load with the entry in place of the one that is staged of its identity.
    fn load_with(&self, entry: &Entry) -> Load
        requires { exceeds_limits (puts_of (staged entry.now.uuid (Some entry.now) self.now))
            ≡ false }
        ensures count { result.count
            ≡ length (puts_of (staged entry.now.uuid (Some entry.now) self.now)) }
        ensures weight { result.weight
            ≡ total_weight (puts_of (staged entry.now.uuid (Some entry.now) self.now)) }
    {
        let load = self.load_without(entry.uuid);
        Load {
            count: load.count + 1,
            weight: load.weight + entry.attrs.weight(),
        }
    }
}
