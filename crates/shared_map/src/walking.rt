//! How values are listed in the order of their keys.
ghost use Rattle.std.specs.Prelude.{◌≡◌, ◌++◌, map, OnOk};
ghost use Rattle.std.specs.Ordering.{is_lt};
ghost use Rattle.std.specs.List.{filter};
ghost use Rattle.std.specs.List.Sorted.{IsStrictlySortedBy};
ghost use Rattle.std.specs.Map.{keys_of, values_of};
ghost use Rattle.shared_map.specs.Nodes.{pairs};
ghost use Rattle.shared_map.specs.Queries.{begins, octets_cmp, place_at};

use crate::nodes::{MapPair, Nodes};
use crate::queries::{Query, compare_bytes};
use std::alloc::AllocError;
use std::cmp::Ordering;

pub(crate) fn push_values<'a, K, V>(
    list: &mut Vec<&'a V>,
    nodes: &'a Nodes<K, V>,
) -> Result<(), AllocError>
    ensures { OnOk result (map (λ value. value.now) list.new.items
        ≡ map (λ value. value.now) list.old.items ++ values_of (pairs nodes.now)) }
{
    match nodes {
        Nodes::Nothing => Ok(()),
        Nodes::Fork(_, node) => {
            push_values(list, &node.lower)?;
            list.push(&node.pair.value)?;
            push_values(list, &node.higher)
        }
    }
}

/// Pushes the values of keys above what the query stands for.
pub(crate) fn push_values_after<'a, K: Ord, V, Q: Query<K>>(
    list: &mut Vec<&'a V>,
    nodes: &'a Nodes<K, V>,
    key: Q,
) -> Result<(), AllocError>
    ensures { IsStrictlySortedBy K.cmp (keys_of (pairs nodes.now))
        → OnOk result (map (λ value. value.now) list.new.items
        ≡ map (λ value. value.now) list.old.items
        ++ values_of (filter (λ pair. is_lt (Q.compare key pair.0)) (pairs nodes.now))) }
{
    match nodes {
        Nodes::Nothing => Ok(()),
        Nodes::Fork(_, shared) => {
            let node = &**shared;
            let fits = key.compare(&node.pair.key).is_lt();
            if fits {
                push_values_after(list, &node.lower, key)?;
                list.push(&node.pair.value)?;
                push_values(list, &node.higher)
            } else {
                push_values_after(list, &node.higher, key)
            }
        }
    }
}

/// Pushes the values of keys that begin with these octets.
pub(crate) fn push_values_within<'a, V>(
    list: &mut Vec<&'a V>,
    nodes: &'a Nodes<Vec<u8>, V>,
    octets: &[u8],
) -> Result<(), AllocError>
    ensures { IsStrictlySortedBy octets_cmp (keys_of (pairs nodes.now))
        → OnOk result (map (λ value. value.now) list.new.items
        ≡ map (λ value. value.now) list.old.items
        ++ values_of (filter (λ pair. begins octets.now pair.0) (pairs nodes.now))) }
{
    match nodes {
        Nodes::Nothing => Ok(()),
        Nodes::Fork(_, shared) => {
            let node = &**shared;
            match place_at(octets, &node.pair) {
                Ordering::Less => push_values_within(list, &node.lower, octets),
                Ordering::Equal => {
                    push_values_within(list, &node.lower, octets)?;
                    list.push(&node.pair.value)?;
                    push_values_within(list, &node.higher, octets)
                }
                Ordering::Greater => push_values_within(list, &node.higher, octets),
            }
        }
    }
}

/// On which side of the key of a pair those stand that begin with these octets, where it is none of
/// them.
fn place_at<V>(octets: &[u8], pair: &MapPair<Vec<u8>, V>) -> Ordering
    ensures { result ≡ place_at octets.now pair.now.key.value }
{
    let key = pair.key().as_slice();
    if key.starts_with(octets) {
        return Ordering::Equal;
    }
    if compare_bytes(octets, key).is_lt() {
        return Ordering::Less;
    }
    Ordering::Greater
}
