//! How a pair is put in.
ghost use Rattle.std.specs.Prelude.{◌≡◌, ◌++◌, ◌∷◌, length, IfOk};
ghost use Rattle.std.specs.BTreeMap.{insert_entry};
ghost use Rattle.std.specs.List.Sorted.{IsStrictlySortedBy};
ghost use Rattle.std.specs.Map.{keys_of};
ghost use Rattle.shared_map.specs.Nodes.{count_with, pairs};

use crate::balance::{with_higher, with_lower};
use crate::nodes::{MapPair, Node, Nodes, fork};
use std::alloc::{AllocError, Global};
use std::cmp::Ordering;
use std::sync::Arc;

/// The pairs with this one, or with its value at a key that is there, and whether the key is new.
pub(crate) fn with_pair<K: Ord + Drop, V: Drop>(
    alloc: Global,
    nodes: &Nodes<K, V>,
    pair: MapPair<K, V>,
) -> Result<(Nodes<K, V>, bool), AllocError>
    ensures pairs { IsStrictlySortedBy K.cmp (keys_of (pairs nodes.now)) → IfOk result (λ after.
        pairs after.0 ≡ insert_entry K.cmp (pairs nodes.now) pair.key.value pair.value.value) }
    ensures count { IfOk result (λ after.
        length (pairs after.0) ≡ count_with after.1 (length (pairs nodes.now))) }
{
    match nodes {
        Nodes::Nothing => {
            let after = fork(alloc, Nodes::Nothing, pair, Nodes::Nothing)?;
            Ok((after, true))
        }
        Nodes::Fork(_, shared) => {
            let node = &**shared;
            let key = &*pair.key;
            match key.cmp(&node.pair.key) {
                Ordering::Less => {
                    let (lower, is_new) = with_pair(alloc, &node.lower, pair)?;
                    let after = with_lower(alloc, node, lower)?;
                    Ok((after, is_new))
                }
                Ordering::Equal => {
                    let after = with_value(alloc, node, pair.value)?;
                    Ok((after, false))
                }
                Ordering::Greater => {
                    let (higher, is_new) = with_pair(alloc, &node.higher, pair)?;
                    let after = with_higher(alloc, node, higher)?;
                    Ok((after, is_new))
                }
            }
        }
    }
}

/// The same keys, with this value in the node.
fn with_value<K: Drop, V: Drop>(
    alloc: Global,
    node: &Node<K, V>,
    value: Arc<V>,
) -> Result<Nodes<K, V>, AllocError>
    ensures { IfOk result (λ after. pairs after
        ≡ pairs node.now.lower ++ (node.now.pair.key.value, value.value) ∷ pairs node.now.higher) }
{
    let pair = MapPair {
        key: node.pair.key.clone()?,
        value,
    };
    fork(alloc, node.lower.copy()?, pair, node.higher.copy()?)
}
