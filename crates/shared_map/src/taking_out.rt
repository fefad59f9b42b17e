//! How a pair is taken out where its way down stands, as far as no other map shares the nodes.
ghost use Rattle.std.specs.Prelude.{◌≡◌, IfNone, IfOk, IfSome, OnErr, OnOk, is_some, length};
ghost use Rattle.std.specs.BTreeMap.{is_at};
ghost use Rattle.std.specs.List.Sorted.{IsStrictlySortedBy};
ghost use Rattle.std.specs.Map.{keys_of, remove_entry};
ghost use Rattle.shared_map.specs.Nodes.{count_with, pairs, pairs_beside, pairs_of, pairs_or};

use crate::in_place::rebalanced;
use crate::nodes::{Node, Nodes, measured};
use crate::queries::Query;
use crate::taking::{joined, without};
use std::alloc::{AllocError, Global};
use std::cmp::Ordering;
use std::mem;
use std::sync::Arc;

/// The nodes without the pair of the key, and whether there was one. Where memory runs out they are
/// as before. Down to the given number of levels nodes are changed where they stand; below that,
/// and where another map shares them, they are made anew.
#[cycle(taking)]
pub(crate) fn take_from<K: Ord + Drop, V: Drop, Q: Query<K>>(
    alloc: Global,
    levels: u8,
    nodes: Nodes<K, V>,
    key: Q,
) -> (Nodes<K, V>, Result<bool, AllocError>)
    ensures ok { IsStrictlySortedBy K.cmp (keys_of (pairs nodes)) → OnOk result.1
        (pairs result.0 ≡ remove_entry (is_at (Q.compare key)) (pairs nodes)) }
    ensures count { IfOk result.1 (λ was_there.
        length (pairs nodes) ≡ count_with was_there (length (pairs result.0))) }
    ensures err { OnErr result.1 (pairs result.0 ≡ pairs nodes) }
{
    if levels == 0 {
        return take_anew(alloc, nodes, key);
    }
    match nodes {
        Nodes::Nothing => (Nodes::Nothing, Ok(false)),
        Nodes::Fork(height, shared) => take_from_node(alloc, levels - 1, height, shared, key),
    }
}

/// The same for a node of this height and those below it.
#[cycle(taking)]
fn take_from_node<K: Ord + Drop, V: Drop, Q: Query<K>>(
    alloc: Global,
    levels: u8,
    height: u8,
    mut shared: Arc<Node<K, V>>,
    key: Q,
) -> (Nodes<K, V>, Result<bool, AllocError>)
    ensures ok { IsStrictlySortedBy K.cmp (keys_of (pairs_of shared.value)) → OnOk result.1
        (pairs result.0 ≡ remove_entry (is_at (Q.compare key)) (pairs_of shared.value)) }
    ensures count { IfOk result.1 (λ was_there.
        length (pairs_of shared.value) ≡ count_with was_there (length (pairs result.0))) }
    ensures err { OnErr result.1 (pairs result.0 ≡ pairs_of shared.value) }
{
    let Some(node) = Arc::get_mut(&mut shared) else {
        return take_anew(alloc, Nodes::Fork(height, shared), key);
    };
    match take_below(alloc, levels, node, key) {
        Some(answer) => (rebalanced(alloc, height, shared, &answer), answer),
        None => without_own(alloc, shared),
    }
}

/// Takes the pair out of those below a node that no other map shares. None where it is the node's
/// own, which stays.
#[cycle(taking)]
fn take_below<K: Ord + Drop, V: Drop, Q: Query<K>>(
    alloc: Global,
    levels: u8,
    node: &mut Node<K, V>,
    key: Q,
) -> Option<Result<bool, AllocError>>
    ensures ok { IsStrictlySortedBy K.cmp (keys_of (pairs_of node.old)) → IfSome result (λ answer.
        OnOk answer
        (pairs_of node.new ≡ remove_entry (is_at (Q.compare key)) (pairs_of node.old))) }
    ensures count { IfSome result (λ answer. IfOk answer (λ was_there.
        length (pairs_of node.old) ≡ count_with was_there (length (pairs_of node.new)))) }
    ensures err { IfSome result (λ answer. OnErr answer (pairs_of node.new ≡ pairs_of node.old)) }
    ensures own { IsStrictlySortedBy K.cmp (keys_of (pairs_of node.old)) → IfNone result
        (pairs_beside node.new ≡ remove_entry (is_at (Q.compare key)) (pairs_of node.old)) }
    ensures same { IfNone result (pairs_of node.new ≡ pairs_of node.old) }
{
    match key.compare(&node.pair.key) {
        Ordering::Less => {
            let lower = mem::replace(&mut node.lower, Nodes::Nothing);
            let (lower, answer) = take_from(alloc, levels, lower, key);
            node.set_lower(lower);
            Some(answer)
        }
        Ordering::Equal => None,
        Ordering::Greater => {
            let higher = mem::replace(&mut node.higher, Nodes::Nothing);
            let (higher, answer) = take_from(alloc, levels, higher, key);
            node.set_higher(higher);
            Some(answer)
        }
    }
}

/// The nodes below a node, without its own pair.
fn without_own<K: Drop, V: Drop>(
    alloc: Global,
    shared: Arc<Node<K, V>>,
) -> (Nodes<K, V>, Result<bool, AllocError>)
    ensures ok { OnOk result.1 (pairs result.0 ≡ pairs_beside shared.value) }
    ensures count { IfOk result.1 (λ was_there.
        length (pairs_of shared.value) ≡ count_with was_there (length (pairs result.0))) }
    ensures err { OnErr result.1 (pairs result.0 ≡ pairs_of shared.value) }
{
    match both_sides(alloc, &shared) {
        Ok(nodes) => (nodes, Ok(true)),
        Err(error) => (measured(shared), Err(error)),
    }
}

/// The lower and the higher pairs of a node.
fn both_sides<K: Drop, V: Drop>(alloc: Global, node: &Node<K, V>) -> Result<Nodes<K, V>, AllocError>
    ensures { IfOk result (λ nodes. pairs nodes ≡ pairs_beside node.now) }
{
    joined(alloc, &node.lower, &node.higher)
}

/// The nodes without the pair of the key, of which those on the way to it are made anew where there
/// is one.
fn take_anew<K: Ord + Drop, V: Drop, Q: Query<K>>(
    alloc: Global,
    nodes: Nodes<K, V>,
    key: Q,
) -> (Nodes<K, V>, Result<bool, AllocError>)
    ensures ok { IsStrictlySortedBy K.cmp (keys_of (pairs nodes)) → OnOk result.1
        (pairs result.0 ≡ remove_entry (is_at (Q.compare key)) (pairs nodes)) }
    ensures count { IfOk result.1 (λ was_there.
        length (pairs nodes) ≡ count_with was_there (length (pairs result.0))) }
    ensures err { OnErr result.1 (pairs result.0 ≡ pairs nodes) }
{
    match without(alloc, &nodes, key) {
        Ok(taken) => {
            let (after, was_there) = taken_or_same(taken, nodes);
            (after, Ok(was_there))
        }
        Err(error) => (nodes, Err(error)),
    }
}

/// The nodes from which a pair was taken, or the others where there was none.
fn taken_or_same<K: Drop, V: Drop>(
    taken: Option<Nodes<K, V>>,
    nodes: Nodes<K, V>,
) -> (Nodes<K, V>, bool)
    ensures pairs { pairs result.0 ≡ pairs_or taken (pairs nodes) }
    ensures was_there { result.1 ≡ is_some taken }
{
    match taken {
        Some(after) => (after, true),
        None => (nodes, false),
    }
}
