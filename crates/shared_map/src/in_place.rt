//! How a pair is put in where its way down stands, as far as no other map shares the nodes.
ghost use Rattle.std.specs.Prelude.{◌≡◌, IfOk};
ghost use Rattle.shared_map.specs.Nodes.{InsertsPair, pairs, pairs_of};

use crate::balance::balanced;
use crate::nodes::{MapPair, Node, Nodes, measured};
use crate::placing::with_pair;
use std::alloc::{AllocError, Global};
use std::cmp::Ordering;
use std::mem;
use std::sync::Arc;

/// The nodes with this pair, or with its value at a key that is there, and whether the key is new.
/// Where memory runs out they are as before. Down to the given number of levels nodes are changed
/// where they stand; below that, and where another map shares them, they are made anew.
#[cycle(putting)]
pub(crate) fn put_into<K: Ord + Drop, V: Drop>(
    alloc: Global,
    levels: u8,
    nodes: Nodes<K, V>,
    pair: MapPair<K, V>,
) -> (Nodes<K, V>, Result<bool, AllocError>)
    ensures { InsertsPair K.cmp pair (pairs nodes) (pairs result.0) result.1 }
{
    if levels == 0 {
        return put_anew(alloc, nodes, pair);
    }
    match nodes {
        Nodes::Nothing => put_anew(alloc, Nodes::Nothing, pair),
        Nodes::Fork(height, shared) => put_into_node(alloc, levels - 1, height, shared, pair),
    }
}

/// The same for a node of this height and those below it.
#[cycle(putting)]
fn put_into_node<K: Ord + Drop, V: Drop>(
    alloc: Global,
    levels: u8,
    height: u8,
    mut shared: Arc<Node<K, V>>,
    pair: MapPair<K, V>,
) -> (Nodes<K, V>, Result<bool, AllocError>)
    ensures { InsertsPair K.cmp pair (pairs_of shared.value) (pairs result.0) result.1 }
{
    let Some(node) = Arc::get_mut(&mut shared) else {
        return put_anew(alloc, Nodes::Fork(height, shared), pair);
    };
    let answer = put_below(alloc, levels, node, pair);
    (rebalanced(alloc, height, shared, &answer), answer)
}

/// Puts the pair into a node that no other map shares, or into those below it.
#[cycle(putting)]
fn put_below<K: Ord + Drop, V: Drop>(
    alloc: Global,
    levels: u8,
    node: &mut Node<K, V>,
    pair: MapPair<K, V>,
) -> Result<bool, AllocError>
    ensures { InsertsPair K.cmp pair (pairs_of node.old) (pairs_of node.new) result }
{
    let key = &*pair.key;
    match key.cmp(&node.pair.key) {
        Ordering::Less => {
            let lower = mem::replace(&mut node.lower, Nodes::Nothing);
            let (lower, answer) = put_into(alloc, levels, lower, pair);
            node.set_lower(lower);
            answer
        }
        Ordering::Equal => {
            node.pair.value = pair.value;
            Ok(false)
        }
        Ordering::Greater => {
            let higher = mem::replace(&mut node.higher, Nodes::Nothing);
            let (higher, answer) = put_into(alloc, levels, higher, pair);
            node.set_higher(higher);
            answer
        }
    }
}

/// The nodes with this pair, of which those on the way to it are made anew.
fn put_anew<K: Ord + Drop, V: Drop>(
    alloc: Global,
    nodes: Nodes<K, V>,
    pair: MapPair<K, V>,
) -> (Nodes<K, V>, Result<bool, AllocError>)
    ensures { InsertsPair K.cmp pair (pairs nodes) (pairs result.0) result.1 }
{
    match with_pair(alloc, &nodes, pair) {
        Ok((after, is_new)) => (after, Ok(is_new)),
        Err(error) => (nodes, Err(error)),
    }
}

/// The node with those below it, among which a pair was put or from which one was taken, unless the
/// answer says that none came or went. Then its height is the one that it had, and it is in balance
/// as before.
pub(crate) fn rebalanced<K: Drop, V: Drop>(
    alloc: Global,
    height: u8,
    shared: Arc<Node<K, V>>,
    answer: &Result<bool, AllocError>,
) -> Nodes<K, V>
    ensures { pairs result ≡ pairs_of shared.value }
{
    if has_changed(answer) {
        return in_balance(alloc, shared);
    }
    Nodes::Fork(height, shared)
}

/// Whether a pair came or went, so that a way down may be longer or shorter than before.
fn has_changed(answer: &Result<bool, AllocError>) -> bool {
    match answer {
        Ok(has_changed) => *has_changed,
        Err(_) => false,
    }
}

/// The node with those below it, in balance where there is memory for that.
fn in_balance<K: Drop, V: Drop>(alloc: Global, shared: Arc<Node<K, V>>) -> Nodes<K, V>
    ensures { pairs result ≡ pairs_of shared.value }
{
    if shared.is_level() {
        return measured(shared);
    }
    match raised(alloc, &shared) {
        Ok(nodes) => nodes,
        Err(_) => measured(shared),
    }
}

/// The same pairs with the longer side of the node raised.
fn raised<K: Drop, V: Drop>(alloc: Global, node: &Node<K, V>) -> Result<Nodes<K, V>, AllocError>
    ensures { IfOk result (λ nodes. pairs nodes ≡ pairs_of node.now) }
{
    balanced(
        alloc,
        node.lower.copy()?,
        node.pair.copy()?,
        node.higher.copy()?,
    )
}
