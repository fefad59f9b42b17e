//! The identities of entries in their order.
ghost use Rattle.std.specs.Prelude.{◌≡◌, option_map, slice_get, take, IfOk};
ghost use Rattle.std.specs.List.Sorted.{IsStrictlySortedBy};
ghost use Rattle.std.specs.Ordering.{nat_cmp};
ghost use Rattle.entry_tree.specs.IdentityOrder.{above};
ghost use Rattle.entry_writes.specs.Touched.{identities};

use crate::tree::Tree;
use entry_writes::Entry;
use ldap_ber::NoMemory;

impl Tree {
    /// The identities of the entries in ascending order, n at most: from the first on, or
    /// from the first above this one. Those before it are not gone through. It is `NoMemory` where
    /// memory runs out.
    pub fn identities_after(&self, after: Option<u128>, most: usize) -> Result<Vec<u128>, NoMemory>
        ensures exact { IfOk result
            (λ uuids. uuids.items ≡ take most (above after (identities self.now))) }
        ensures ascends { IfOk result (λ uuids. IsStrictlySortedBy nat_cmp uuids.items) }
    {
        let mut uuids = Vec::new(self.alloc);
        let mut last = after;
        for _ in 0..most {
            let Some(uuid) = self.identity_after(last) else {
                return Ok(uuids);
            };
            uuids.push(uuid)?;
            last = Some(uuid);
        }
        Ok(uuids)
    }

    /// The first identity, or the first above this one.
    pub fn identity_after(&self, after: Option<u128>) -> Option<u128>
        ensures { result ≡ slice_get (above after (identities self.now)) 0 }
    {
        match after {
            None => key_of(self.entries.first()),
            Some(after) => key_of(self.entries.next_after(&after)),
        }
    }
}

/// The key of a pair, where there is one.
fn key_of(pair: Option<(&u128, &Entry)>) -> Option<u128>
    ensures { result ≡ option_map (λ pair. pair.0.now) pair.entry }
{
    match pair {
        None => None,
        Some((uuid, _)) => Some(*uuid),
    }
}
