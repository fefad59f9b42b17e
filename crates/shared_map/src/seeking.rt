//! How a pair is found. Nothing here takes memory.
ghost use Rattle.std.specs.Prelude.{◌≡◌, ◌-◌, length, slice_get, IfSome, IsTrue};
ghost use Rattle.std.specs.Option.{option_map};
ghost use Rattle.std.specs.Ordering.{is_le, is_lt};
ghost use Rattle.std.specs.List.Sorted.{IsStrictlySortedBy};
ghost use Rattle.std.specs.Map.{keys_of, lookup_entry};
ghost use Rattle.std.specs.BTreeMap.{is_at};
ghost use Rattle.shared_map.specs.Nodes.{pair_of, pairs};

use crate::nodes::{MapPair, Nodes};
use crate::queries::Query;
use std::cmp::Ordering;

/// The pair at the key.
pub(crate) fn pair_at<'a, K: Ord, V, Q: Query<K>>(
    nodes: &'a Nodes<K, V>,
    key: Q,
) -> Option<&'a MapPair<K, V>>
    ensures pair { IsStrictlySortedBy K.cmp (keys_of (pairs nodes.now))
        → option_map (λ pair. pair_of pair.now) result
        ≡ lookup_entry (is_at (Q.compare key)) (pairs nodes.now) }
    ensures key { IfSome result (λ pair. IsTrue (is_at (Q.compare key) pair.now.key.value)) }
{
    match nodes {
        Nodes::Nothing => None,
        Nodes::Fork(_, shared) => {
            let node = &**shared;
            match key.compare(&node.pair.key) {
                Ordering::Less => pair_at(&node.lower, key),
                Ordering::Equal => Some(&node.pair),
                Ordering::Greater => pair_at(&node.higher, key),
            }
        }
    }
}

/// The first pair whose key is not below what the query stands for.
pub(crate) fn pair_from<'a, K: Ord, V, Q: Query<K>>(
    nodes: &'a Nodes<K, V>,
    key: Q,
) -> Option<&'a MapPair<K, V>>
    ensures { IsStrictlySortedBy K.cmp (keys_of (pairs nodes.now))
        → option_map (λ pair. pair_of pair.now) result
        ≡ lookup_entry (λ other. is_le (Q.compare key other)) (pairs nodes.now) }
{
    match nodes {
        Nodes::Nothing => None,
        Nodes::Fork(_, shared) => {
            let node = &**shared;
            let fits = key.compare(&node.pair.key).is_le();
            if fits {
                return pair_from(&node.lower, key).or(Some(&node.pair));
            }
            pair_from(&node.higher, key)
        }
    }
}

/// The first pair whose key is above what the query stands for.
pub(crate) fn pair_after<'a, K: Ord, V, Q: Query<K>>(
    nodes: &'a Nodes<K, V>,
    key: Q,
) -> Option<&'a MapPair<K, V>>
    ensures { IsStrictlySortedBy K.cmp (keys_of (pairs nodes.now))
        → option_map (λ pair. pair_of pair.now) result
        ≡ lookup_entry (λ other. is_lt (Q.compare key other)) (pairs nodes.now) }
{
    match nodes {
        Nodes::Nothing => None,
        Nodes::Fork(_, shared) => {
            let node = &**shared;
            let fits = key.compare(&node.pair.key).is_lt();
            if fits {
                return pair_after(&node.lower, key).or(Some(&node.pair));
            }
            pair_after(&node.higher, key)
        }
    }
}

pub(crate) fn first_pair<K, V>(nodes: &Nodes<K, V>) -> Option<&MapPair<K, V>>
    ensures { option_map (λ pair. pair_of pair.now) result ≡ slice_get (pairs nodes.now) 0 }
{
    match nodes {
        Nodes::Nothing => None,
        Nodes::Fork(_, node) => first_pair(&node.lower).or(Some(&node.pair)),
    }
}

pub(crate) fn last_pair<K, V>(nodes: &Nodes<K, V>) -> Option<&MapPair<K, V>>
    ensures { option_map (λ pair. pair_of pair.now) result
        ≡ slice_get (pairs nodes.now) (length (pairs nodes.now) - 1) }
{
    match nodes {
        Nodes::Nothing => None,
        Nodes::Fork(_, node) => last_pair(&node.higher).or(Some(&node.pair)),
    }
}
