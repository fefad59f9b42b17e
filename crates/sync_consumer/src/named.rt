//! Identities that were named as present.

ghost use Rattle.std.specs.Prelude.{◌≡◌, [], IfOk, OnErr, OnOk};
ghost use Rattle.std.specs.BTreeSet.{insert_key};
ghost use Rattle.std.specs.Ordering.{nat_cmp};
ghost use Rattle.entry_tree.specs.Touched.{joined};
ghost use Rattle.sync_model.specs.Stream.{among};

use ldap_ber::NoMemory;
use shared_map::SharedMap;
use std::alloc::Global;
use std::marker::Model;

/// Identities, in ascending order. A copy shares them.
#[derive(Drop)]
pub(crate) struct Named {
    alloc: Global,
    uuids: SharedMap<u128, ()>,
}

impl Model for Named {
    ghost use Rattle.std.specs.Prelude.{List, ℕ};
    ghost use Rattle.std.specs.Map.{keys_of};

    ghost Value = { List ℕ };

    ghost view = { λ n. keys_of n.uuids };
}

impl Named {
    pub(crate) fn new(alloc: Global) -> Named
        ensures { result ≡ [] }
    {
        Named {
            alloc,
            uuids: SharedMap::new(alloc),
        }
    }

    pub(crate) fn copy(&self) -> Result<Named, NoMemory>
        ensures { IfOk result (λ copy. copy ≡ self.now) }
    {
        Ok(Named {
            alloc: self.alloc,
            uuids: self.uuids.copy()?,
        })
    }

    /// Adds these identities, or none of them.
    pub(crate) fn add(&mut self, uuids: &[u128]) -> Result<(), NoMemory>
        ensures ok { OnOk result (self.new ≡ joined self.old uuids.now) }
        ensures err { OnErr result (self.new ≡ self.old) }
    {
        *self = self.with(uuids)?;
        Ok(())
    }

    /// These identities, with more of them.
    fn with(&self, uuids: &[u128]) -> Result<Named, NoMemory>
        ensures { IfOk result (λ named. named ≡ joined self.now uuids.now) }
    {
        let mut named = self.copy()?;
        for uuid in uuids {
            named.insert(*uuid)?;
        }
        Ok(named)
    }

    fn insert(&mut self, uuid: u128) -> Result<(), NoMemory>
        ensures { OnOk result (self.new ≡ insert_key nat_cmp self.old uuid) }
    {
        self.uuids.insert(uuid, ())?;
        Ok(())
    }

    pub(crate) fn has(&self, uuid: u128) -> bool
        ensures { result ≡ among uuid self.now }
    {
        self.uuids.get(&uuid).is_some()
    }

    pub(crate) fn clear(&mut self)
        ensures { self.new ≡ [] }
    {
        self.uuids = SharedMap::new(self.alloc);
    }
}
