ghost use Rattle.std.specs.Prelude.{◌≡◌, ◌-◌, ◌<◌, ◌^◌, ◌↔◌, [], IsTrue, length, map, slice_get, option_copied, IfOk, IfSome, OnErr, OnOk};
ghost use Rattle.std.specs.Option.{option_map};
ghost use Rattle.std.specs.Ordering.{is_le, is_lt};
ghost use Rattle.std.specs.List.{filter};
ghost use Rattle.std.specs.List.Sorted.{IsStrictlySortedBy};
ghost use Rattle.std.specs.Map.{keys_of, values_of, lookup, lookup_entry, remove_entry};
ghost use Rattle.std.specs.BTreeMap.{is_at, insert_entry};
ghost use Rattle.shared_map.specs.Nodes.{count_with, pair_of};
ghost use Rattle.shared_map.specs.Queries.{begins};

use crate::in_place::put_into;
use crate::nodes::{MapPair, Nodes};
use crate::queries::Query;
use crate::seeking::{first_pair, last_pair, pair_after, pair_at, pair_from};
use crate::taking_out::take_from;
use crate::walking::{push_values, push_values_after, push_values_within};
use std::alloc::{AllocError, Global};
use std::marker::Model;
use std::mem;
use std::sync::Arc;

const MOST_PAIRS: usize = 0x7fff_ffff_ffff_ffff;

/// Down to how many levels a pair is put in or taken out where it stands: as many as a height can
/// say.
const MOST_LEVELS: u8 = 255;

/// Pairs of a key and a value in ascending order of key, one pair at most for a key.
pub struct SharedMap<K: Ord, V> {
    alloc: Global,
    root: Nodes<K, V>,
    len: usize,
}

/// A call of its own, so that what drops a map is one step.
impl<K: Ord + Drop, V: Drop> Drop for SharedMap<K, V> {
    fn drop(self) {
        let SharedMap {
            alloc: _,
            root: _root,
            len: _,
        } = self;
    }
}

impl<K: Ord, V> Model for SharedMap<K, V> {
    ghost use Rattle.std.specs.Prelude.{◌≡◌, ◌<◌, ◌^◌, List, length};
    ghost use Rattle.std.specs.List.Sorted.{IsStrictlySortedBy};
    ghost use Rattle.std.specs.Map.{keys_of};
    ghost use Rattle.shared_map.specs.Nodes.{pairs};

    ghost Value = { List (K × V) };

    ghost view = { λ map. pairs map.root };

    ghost invariant = { λ map. IsStrictlySortedBy K.cmp (keys_of (pairs map.root))
        × (map.len ≡ length (pairs map.root)) × (map.len < 2 ^ 63) };
}

impl<K: Ord, V> SharedMap<K, V> {
    /// A map with no pair, which takes no memory.
    pub fn new(alloc: Global) -> SharedMap<K, V>
        ensures { result ≡ [] }
    {
        SharedMap {
            alloc,
            root: Nodes::Nothing,
            len: 0,
        }
    }

    /// The number of pairs.
    pub fn len(&self) -> usize
        ensures value { result ≡ length self.now }
        ensures small { result < 2 ^ 63 }
        ensures ordered { IsStrictlySortedBy K.cmp (keys_of self.now) }
    {
        self.len
    }

    /// Whether there is no pair.
    pub fn is_empty(&self) -> bool
        ensures { IsTrue result ↔ (self.now ≡ []) }
    {
        self.len == 0
    }

    /// How many nodes the longest way down has: a hint of what a look-up costs, which no contract
    /// speaks of.
    pub fn height(&self) -> u8 {
        self.root.height()
    }

    /// The value at the key.
    pub fn get<Q: Query<K>>(&self, key: Q) -> Option<&V>
        ensures { option_copied result ≡ lookup (is_at (Q.compare key)) self.now }
    {
        match self.pair_at(key) {
            Some(pair) => Some(pair.value()),
            None => None,
        }
    }

    /// The pair at the key, as another map can have it too.
    pub fn pair_at<Q: Query<K>>(&self, key: Q) -> Option<&MapPair<K, V>>
        ensures pair { option_map (λ pair. pair_of pair.now) result
            ≡ lookup_entry (is_at (Q.compare key)) self.now }
        ensures key { IfSome result (λ pair. IsTrue (is_at (Q.compare key) pair.now.key.value)) }
    {
        pair_at(&self.root, key)
    }

    /// The pair of the lowest key.
    pub fn first(&self) -> Option<(&K, &V)>
        ensures { option_map (λ pair. (pair.0.now, pair.1.now)) result ≡ slice_get self.now 0 }
    {
        lent(first_pair(&self.root))
    }

    /// The pair of the highest key.
    pub fn last(&self) -> Option<(&K, &V)>
        ensures { option_map (λ pair. (pair.0.now, pair.1.now)) result
            ≡ slice_get self.now (length self.now - 1) }
    {
        lent(last_pair(&self.root))
    }

    /// The first pair whose key is not below what the query stands for.
    pub fn next_from<Q: Query<K>>(&self, key: Q) -> Option<(&K, &V)>
        ensures { option_map (λ pair. (pair.0.now, pair.1.now)) result
            ≡ lookup_entry (λ other. is_le (Q.compare key other)) self.now }
    {
        lent(pair_from(&self.root, key))
    }

    /// The first pair whose key is above what the query stands for.
    pub fn next_after<Q: Query<K>>(&self, key: Q) -> Option<(&K, &V)>
        ensures { option_map (λ pair. (pair.0.now, pair.1.now)) result
            ≡ lookup_entry (λ other. is_lt (Q.compare key other)) self.now }
    {
        lent(pair_after(&self.root, key))
    }

    /// The values in the order of their keys. It is `AllocError` where memory runs out.
    pub fn values(&self) -> Result<Vec<&V>, AllocError>
        ensures { IfOk result (λ list. map (λ value. value.now) list.items ≡ values_of self.now) }
    {
        let mut list = Vec::with_capacity(self.alloc, self.len)?;
        push_values(&mut list, &self.root)?;
        Ok(list)
    }

    /// The values of the keys above what the query stands for, in their order. It is `AllocError`
    /// where memory runs out.
    pub fn values_after<Q: Query<K>>(&self, key: Q) -> Result<Vec<&V>, AllocError>
        ensures { IfOk result (λ list. map (λ value. value.now) list.items
            ≡ values_of (filter (λ pair. is_lt (Q.compare key pair.0)) self.now)) }
    {
        let mut list = Vec::new(self.alloc);
        push_values_after(&mut list, &self.root, key)?;
        Ok(list)
    }
}

impl<V> SharedMap<Vec<u8>, V> {
    /// The values of the keys that begin with these octets, in the order of their keys. Others are
    /// met only on the ways down to these. It is `AllocError` where memory runs out.
    pub fn values_within(&self, octets: &[u8]) -> Result<Vec<&V>, AllocError>
        ensures { IfOk result (λ list. map (λ value. value.now) list.items
            ≡ values_of (filter (λ pair. begins octets.now pair.0) self.now)) }
    {
        let mut list = Vec::new(self.alloc);
        push_values_within(&mut list, &self.root, octets)?;
        Ok(list)
    }
}

impl<K: Ord + Drop, V: Drop> SharedMap<K, V> {
    /// The same map. It shares all nodes. It is `AllocError` where no more copies can be counted.
    pub fn copy(&self) -> Result<SharedMap<K, V>, AllocError>
        ensures { IfOk result (λ copy. copy ≡ self.now) }
    {
        Ok(SharedMap {
            alloc: self.alloc,
            root: self.root.copy()?,
            len: self.len,
        })
    }

    /// Puts the value at the key. A key that is there stays. The nodes on the way to it are made
    /// anew only where another map shares them. It is `AllocError` where memory runs out, and the
    /// map is as before.
    pub fn insert(&mut self, key: K, value: V) -> Result<(), AllocError>
        ensures ok { OnOk result (self.new ≡ insert_entry K.cmp self.old key value) }
        ensures err { OnErr result (self.new ≡ self.old) }
    {
        let pair = MapPair {
            key: Arc::new(self.alloc, key)?,
            value: Arc::new(self.alloc, value)?,
        };
        self.insert_pair(pair)
    }

    /// Puts a pair of another map in, which both share then. A key that is there stays. It is
    /// `AllocError` where memory runs out, and the map is as before.
    pub fn insert_shared(&mut self, pair: &MapPair<K, V>) -> Result<(), AllocError>
        ensures ok { OnOk result
            (self.new ≡ insert_entry K.cmp self.old pair.now.key.value pair.now.value.value) }
        ensures err { OnErr result (self.new ≡ self.old) }
    {
        let copy = pair.copy()?;
        self.insert_pair(copy)
    }

    /// Puts the pair in, as `insert` does.
    fn insert_pair(&mut self, pair: MapPair<K, V>) -> Result<(), AllocError>
        ensures ok { OnOk result
            (self.new ≡ insert_entry K.cmp self.old pair.key.value pair.value.value) }
        ensures err { OnErr result (self.new ≡ self.old) }
    {
        if self.len == MOST_PAIRS {
            return Err(AllocError);
        }
        let root = mem::replace(&mut self.root, Nodes::Nothing);
        let (root, answer) = put_into(self.alloc, MOST_LEVELS, root, pair);
        self.root = root;
        let is_new = answer?;
        self.len = count_with(self.len, is_new);
        Ok(())
    }

    /// Takes the pair of the key out. The nodes on the way to it are made anew only where another
    /// map shares them. Where there is none, no memory is taken. It is `AllocError` where memory
    /// runs out, and the map is as before.
    pub fn remove<Q: Query<K>>(&mut self, key: Q) -> Result<(), AllocError>
        ensures ok { OnOk result
            (self.new ≡ remove_entry (is_at (Q.compare key)) self.old) }
        ensures err { OnErr result (self.new ≡ self.old) }
    {
        let root = mem::replace(&mut self.root, Nodes::Nothing);
        let (root, answer) = take_from(self.alloc, MOST_LEVELS, root, key);
        self.root = root;
        let was_there = answer?;
        self.len = count_without(self.len, was_there);
        Ok(())
    }
}

/// How many pairs there are with one more, or with one whose key was there.
fn count_with(count: usize, is_new: bool) -> usize
    requires { count < 2 ^ 63 }
    ensures { result ≡ count_with is_new count }
{
    if is_new { count + 1 } else { count }
}

/// How many pairs there are with one less, or with one whose key was not there.
fn count_without(count: usize, was_there: bool) -> usize
    requires { IsTrue was_there → 0 < count }
    ensures { count ≡ count_with was_there result }
{
    if was_there { count - 1 } else { count }
}

fn lent<'a, K, V>(pair: Option<&'a MapPair<K, V>>) -> Option<(&'a K, &'a V)>
    ensures { option_map (λ pair. (pair.0.now, pair.1.now)) result
        ≡ option_map (λ pair. pair_of pair.now) pair.entry }
{
    match pair {
        None => None,
        Some(pair) => Some((&pair.key, &pair.value)),
    }
}
