//! How nodes keep short ways down: each side of a node is at most one level longer than the other,
//! as far as the heights say, which serve nothing else.
ghost use Rattle.std.specs.Prelude.{◌≡◌, ◌++◌, ◌∷◌, IfOk};
ghost use Rattle.shared_map.specs.Nodes.{pair_of, pairs, pairs_of};

use crate::nodes::{MapPair, Node, Nodes, fork, fork_of};
use std::alloc::{AllocError, Global};

/// The node's pair and higher pairs, above these lower ones.
pub(crate) fn with_lower<K: Drop, V: Drop>(
    alloc: Global,
    node: &Node<K, V>,
    lower: Nodes<K, V>,
) -> Result<Nodes<K, V>, AllocError>
    ensures { IfOk result (λ nodes. pairs nodes
        ≡ pairs lower ++ pair_of node.now.pair ∷ pairs node.now.higher) }
{
    balanced(alloc, lower, node.pair.copy()?, node.higher.copy()?)
}

/// The node's lower pairs and pair, below these higher ones.
pub(crate) fn with_higher<K: Drop, V: Drop>(
    alloc: Global,
    node: &Node<K, V>,
    higher: Nodes<K, V>,
) -> Result<Nodes<K, V>, AllocError>
    ensures { IfOk result (λ nodes. pairs nodes
        ≡ pairs node.now.lower ++ pair_of node.now.pair ∷ pairs higher) }
{
    balanced(alloc, node.lower.copy()?, node.pair.copy()?, higher)
}

/// Nodes with these pairs, where one change was made in one of two sides that were in balance.
pub(crate) fn balanced<K: Drop, V: Drop>(
    alloc: Global,
    lower: Nodes<K, V>,
    pair: MapPair<K, V>,
    higher: Nodes<K, V>,
) -> Result<Nodes<K, V>, AllocError>
    ensures { IfOk result (λ nodes. pairs nodes ≡ pairs lower ++ pair_of pair ∷ pairs higher) }
{
    if lower.height() > higher.height().saturating_add(1) {
        return lower_raised(alloc, lower, pair, higher);
    }
    if higher.height() > lower.height().saturating_add(1) {
        return higher_raised(alloc, lower, pair, higher);
    }
    fork(alloc, lower, pair, higher)
}

fn lower_raised<K: Drop, V: Drop>(
    alloc: Global,
    lower: Nodes<K, V>,
    pair: MapPair<K, V>,
    higher: Nodes<K, V>,
) -> Result<Nodes<K, V>, AllocError>
    ensures { IfOk result (λ nodes. pairs nodes ≡ pairs lower ++ pair_of pair ∷ pairs higher) }
{
    let Nodes::Fork(_, node) = lower else {
        return fork(alloc, lower, pair, higher);
    };
    if node.higher.height() > node.lower.height() {
        return between_raised_from_lower(alloc, &node, pair, higher);
    }
    let higher = fork(alloc, node.higher.copy()?, pair, higher)?;
    fork(alloc, node.lower.copy()?, node.pair.copy()?, higher)
}

/// The node between both pairs, if there is one, goes to the top.
fn between_raised_from_lower<K: Drop, V: Drop>(
    alloc: Global,
    node: &Node<K, V>,
    pair: MapPair<K, V>,
    higher: Nodes<K, V>,
) -> Result<Nodes<K, V>, AllocError>
    ensures { IfOk result
        (λ nodes. pairs nodes ≡ pairs_of node.now ++ pair_of pair ∷ pairs higher) }
{
    let Nodes::Fork(_, between) = &node.higher else {
        let higher = fork(alloc, Nodes::Nothing, pair, higher)?;
        return fork(alloc, node.lower.copy()?, node.pair.copy()?, higher);
    };
    let lower = fork_of(alloc, &node.lower, &node.pair, &between.lower)?;
    let higher = fork(alloc, between.higher.copy()?, pair, higher)?;
    fork(alloc, lower, between.pair.copy()?, higher)
}

fn higher_raised<K: Drop, V: Drop>(
    alloc: Global,
    lower: Nodes<K, V>,
    pair: MapPair<K, V>,
    higher: Nodes<K, V>,
) -> Result<Nodes<K, V>, AllocError>
    ensures { IfOk result (λ nodes. pairs nodes ≡ pairs lower ++ pair_of pair ∷ pairs higher) }
{
    let Nodes::Fork(_, node) = higher else {
        return fork(alloc, lower, pair, higher);
    };
    if node.lower.height() > node.higher.height() {
        return between_raised_from_higher(alloc, lower, pair, &node);
    }
    let lower = fork(alloc, lower, pair, node.lower.copy()?)?;
    fork(alloc, lower, node.pair.copy()?, node.higher.copy()?)
}

/// The node between both pairs, if there is one, goes to the top.
#[tactic(auto, using(crate::proofs::Parts::regrouped))]
fn between_raised_from_higher<K: Drop, V: Drop>(
    alloc: Global,
    lower: Nodes<K, V>,
    pair: MapPair<K, V>,
    node: &Node<K, V>,
) -> Result<Nodes<K, V>, AllocError>
    ensures { IfOk result
        (λ nodes. pairs nodes ≡ pairs lower ++ pair_of pair ∷ pairs_of node.now) }
{
    let Nodes::Fork(_, between) = &node.lower else {
        let lower = fork(alloc, lower, pair, Nodes::Nothing)?;
        return fork(alloc, lower, node.pair.copy()?, node.higher.copy()?);
    };
    let lower = fork(alloc, lower, pair, between.lower.copy()?)?;
    let higher = fork_of(alloc, &between.higher, &node.pair, &node.higher)?;
    fork(alloc, lower, between.pair.copy()?, higher)
}
