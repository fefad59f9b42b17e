//! What changed in the content of a search while its refresh goes on.

ghost use Rattle.std.specs.Prelude.{◌≡◌, [], length, option_map, slice_get, IfOk, OnOk};
ghost use Rattle.std.specs.List.{flat_map};
ghost use Rattle.std.specs.List.Sorted.{IsStrictlySortedBy};
ghost use Rattle.std.specs.BTreeSet.{insert_key};
ghost use Rattle.std.specs.Ordering.{nat_cmp};
ghost use Rattle.entry_tree.specs.IdentityOrder.{above};
ghost use Rattle.entry_tree.specs.Touched.{joined};
ghost use Rattle.sync_model.specs.Incremental.{about};

use crate::NoMemory;
use crate::persist_message::PersistMessage;
use shared_map::SharedMap;
use std::alloc::Global;
use std::marker::Model;

/// Identities, each once, in ascending order. Copies share them.
#[derive(Drop)]
pub(crate) struct ChangedSet {
    alloc: Global,
    uuids: SharedMap<u128, ()>,
}

impl Model for ChangedSet {
    ghost use Rattle.std.specs.Prelude.{List, ℕ};
    ghost use Rattle.std.specs.Map.{keys_of};

    ghost Value = { List ℕ };

    ghost view = { λ s. keys_of s.uuids };
}

impl ChangedSet {
    /// A set without identities, which takes no memory.
    pub(crate) fn new(alloc: Global) -> ChangedSet
        ensures { result ≡ [] }
    {
        ChangedSet {
            alloc,
            uuids: SharedMap::new(alloc),
        }
    }

    /// The same set once more.
    pub(crate) fn copy(&self) -> Result<ChangedSet, NoMemory>
        ensures { IfOk result (λ copy. copy ≡ self.now) }
    {
        Ok(ChangedSet {
            alloc: self.alloc,
            uuids: self.uuids.copy()?,
        })
    }

    /// How many there are.
    pub(crate) fn len(&self) -> usize
        ensures { result ≡ length self.now }
    {
        self.uuids.len()
    }

    /// A set with the identities that these messages are about beside its own.
    pub(crate) fn with_each(&self, messages: &[PersistMessage]) -> Result<ChangedSet, NoMemory>
        ensures { IfOk result (λ set. set ≡ joined self.now (flat_map about messages.now)) }
    {
        let mut set = self.copy()?;
        for message in messages {
            set.insert(message.uuid())?;
        }
        Ok(set)
    }

    fn insert(&mut self, uuid: u128) -> Result<(), NoMemory>
        ensures { OnOk result (self.new ≡ insert_key nat_cmp self.old uuid) }
    {
        self.uuids.insert(uuid, ())
    }

    /// All of them, in their order.
    pub(crate) fn list(&self) -> Result<Vec<u128>, NoMemory>
        ensures exact { IfOk result (λ uuids. uuids.items ≡ self.now) }
        ensures ascends { IfOk result (λ uuids. IsStrictlySortedBy nat_cmp uuids.items) }
    {
        let mut uuids = Vec::new(self.alloc);
        let mut last = None;
        for _ in 0..self.uuids.len() {
            let Some(uuid) = self.first_above(last) else {
                return Ok(uuids);
            };
            uuids.push(uuid)?;
            last = Some(uuid);
        }
        Ok(uuids)
    }

    /// The first of them, or the first above this one.
    fn first_above(&self, after: Option<u128>) -> Option<u128>
        ensures { result ≡ slice_get (above after self.now) 0 }
    {
        match after {
            None => key_of(self.uuids.first()),
            Some(after) => key_of(self.uuids.next_after(&after)),
        }
    }
}

/// The key of a pair, where there is one.
fn key_of(pair: Option<(&u128, &())>) -> Option<u128>
    ensures { result ≡ option_map (λ pair. pair.0.now) pair.entry }
{
    match pair {
        None => None,
        Some((uuid, _)) => Some(*uuid),
    }
}
