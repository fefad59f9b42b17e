//! How a pair is taken out of nodes that are made anew.
ghost use Rattle.std.specs.Prelude.{◌≡◌, ◌∷◌, ◌++◌, IfOk, drop, is_some, length};
ghost use Rattle.std.specs.BTreeMap.{is_at};
ghost use Rattle.std.specs.List.Sorted.{IsStrictlySortedBy};
ghost use Rattle.std.specs.Map.{keys_of, remove_entry};
ghost use Rattle.shared_map.specs.Nodes.{count_with, pair_of, pairs, pairs_of, pairs_or};

use crate::balance::{balanced, with_higher, with_lower};
use crate::nodes::{Node, Nodes};
use crate::queries::Query;
use crate::seeking::first_pair;
use std::alloc::{AllocError, Global};
use std::cmp::Ordering;

/// The pairs without the one of the key, or None where there is none: then no node is made anew.
pub(crate) fn without<K: Ord + Drop, V: Drop, Q: Query<K>>(
    alloc: Global,
    nodes: &Nodes<K, V>,
    key: Q,
) -> Result<Option<Nodes<K, V>>, AllocError>
    ensures pairs { IsStrictlySortedBy K.cmp (keys_of (pairs nodes.now)) → IfOk result (λ taken.
        pairs_or taken (pairs nodes.now)
        ≡ remove_entry (is_at (Q.compare key)) (pairs nodes.now)) }
    ensures count { IfOk result (λ taken. length (pairs nodes.now)
        ≡ count_with (is_some taken) (length (pairs_or taken (pairs nodes.now)))) }
{
    match nodes {
        Nodes::Nothing => Ok(None),
        Nodes::Fork(_, shared) => {
            let node = &**shared;
            match key.compare(&node.pair.key) {
                Ordering::Less => {
                    let lower = without(alloc, &node.lower, key)?;
                    below_pair(alloc, node, lower)
                }
                Ordering::Equal => {
                    let after = joined(alloc, &node.lower, &node.higher)?;
                    Ok(Some(after))
                }
                Ordering::Greater => {
                    let higher = without(alloc, &node.higher, key)?;
                    above_pair(alloc, node, higher)
                }
            }
        }
    }
}

/// The node's pair and higher pairs above these lower ones, where any were taken from.
fn below_pair<K: Drop, V: Drop>(
    alloc: Global,
    node: &Node<K, V>,
    taken: Option<Nodes<K, V>>,
) -> Result<Option<Nodes<K, V>>, AllocError>
    ensures pairs { IfOk result (λ after. pairs_or after (pairs_of node.now)
        ≡ pairs_or taken (pairs node.now.lower)
        ++ pair_of node.now.pair ∷ pairs node.now.higher) }
    ensures same { IfOk result (λ after. is_some after ≡ is_some taken) }
{
    match taken {
        None => Ok(None),
        Some(lower) => {
            let after = with_lower(alloc, node, lower)?;
            Ok(Some(after))
        }
    }
}

/// The node's lower pairs and pair below these higher ones, where any were taken from.
fn above_pair<K: Drop, V: Drop>(
    alloc: Global,
    node: &Node<K, V>,
    taken: Option<Nodes<K, V>>,
) -> Result<Option<Nodes<K, V>>, AllocError>
    ensures pairs { IfOk result (λ after. pairs_or after (pairs_of node.now)
        ≡ pairs node.now.lower
        ++ pair_of node.now.pair ∷ pairs_or taken (pairs node.now.higher)) }
    ensures same { IfOk result (λ after. is_some after ≡ is_some taken) }
{
    match taken {
        None => Ok(None),
        Some(higher) => {
            let after = with_higher(alloc, node, higher)?;
            Ok(Some(after))
        }
    }
}

/// The lower pairs and the higher ones, of which the first goes between them.
pub(crate) fn joined<K: Drop, V: Drop>(
    alloc: Global,
    lower: &Nodes<K, V>,
    higher: &Nodes<K, V>,
) -> Result<Nodes<K, V>, AllocError>
    ensures { IfOk result (λ nodes. pairs nodes ≡ pairs lower.now ++ pairs higher.now) }
{
    let Some(pair) = first_pair(higher) else {
        return lower.copy();
    };
    let rest = without_first(alloc, higher)?;
    balanced(alloc, lower.copy()?, pair.copy()?, rest)
}

fn without_first<K: Drop, V: Drop>(
    alloc: Global,
    nodes: &Nodes<K, V>,
) -> Result<Nodes<K, V>, AllocError>
    ensures { IfOk result (λ rest. pairs rest ≡ drop 1 (pairs nodes.now)) }
{
    match nodes {
        Nodes::Nothing => Ok(Nodes::Nothing),
        Nodes::Fork(_, shared) => {
            let node = &**shared;
            match &node.lower {
                Nodes::Nothing => node.higher.copy(),
                Nodes::Fork(_, _) => {
                    let lower = without_first(alloc, &node.lower)?;
                    with_lower(alloc, node, lower)
                }
            }
        }
    }
}
