//! The nodes in which a map keeps its pairs.
ghost use Rattle.std.specs.Prelude.{◌≡◌, ◌++◌, ◌∷◌, IfOk};
ghost use Rattle.shared_map.specs.Nodes.{pair_of, pairs, pairs_of};

use std::alloc::{AllocError, Global};
use std::sync::Arc;

/// A key with its value. Both are shared, so that a node is made anew with no copy of them, and so
/// that several maps can have the same.
#[derive(Drop)]
pub struct MapPair<K, V> {
    pub(crate) key: Arc<K>,
    pub(crate) value: Arc<V>,
}

/// No pair, or a node with those below it, and how many nodes the longest way down has. The latter
/// serves the balance alone.
#[cycle(nodes)]
#[derive(Drop)]
pub(crate) enum Nodes<K, V> {
    Nothing,
    Fork(u8, Arc<Node<K, V>>),
}

/// A pair between the pairs of lower keys and those of higher keys.
#[cycle(nodes)]
#[derive(Drop)]
pub(crate) struct Node<K, V> {
    pub(crate) lower: Nodes<K, V>,
    pub(crate) pair: MapPair<K, V>,
    pub(crate) higher: Nodes<K, V>,
}

impl<K, V> MapPair<K, V> {
    /// Lends the key.
    pub fn key(&self) -> &K
        ensures { result.now ≡ self.now.key.value }
    {
        &self.key
    }

    /// Lends the value.
    pub fn value(&self) -> &V
        ensures { result.now ≡ self.now.value.value }
    {
        &self.value
    }
}

impl<K: Drop, V: Drop> MapPair<K, V> {
    pub(crate) fn copy(&self) -> Result<MapPair<K, V>, AllocError>
        ensures { IfOk result (λ pair. pair_of pair ≡ pair_of self.now) }
    {
        Ok(MapPair {
            key: self.key.clone()?,
            value: self.value.clone()?,
        })
    }
}

impl<K, V> Nodes<K, V> {
    pub(crate) fn height(&self) -> u8 {
        match self {
            Nodes::Nothing => 0,
            Nodes::Fork(height, _) => *height,
        }
    }
}

impl<K: Drop, V: Drop> Nodes<K, V> {
    pub(crate) fn copy(&self) -> Result<Nodes<K, V>, AllocError>
        ensures { IfOk result (λ nodes. pairs nodes ≡ pairs self.now) }
    {
        match self {
            Nodes::Nothing => Ok(Nodes::Nothing),
            Nodes::Fork(height, node) => Ok(Nodes::Fork(*height, node.clone()?)),
        }
    }
}

impl<K, V> Node<K, V> {
    /// Whether no side is more than one level longer than the other, as far as the heights say.
    pub(crate) fn is_level(&self) -> bool {
        let lower = self.lower.height();
        let higher = self.higher.height();
        lower <= higher.saturating_add(1) && higher <= lower.saturating_add(1)
    }

    /// One more than the greater of both heights.
    fn height(&self) -> u8 {
        let below = self.lower.height().max(self.higher.height());
        below.saturating_add(1)
    }
}

impl<K: Drop, V: Drop> Node<K, V> {
    /// Has these lower nodes from now on.
    pub(crate) fn set_lower(&mut self, lower: Nodes<K, V>)
        ensures { pairs_of self.new
            ≡ pairs lower ++ pair_of self.old.pair ∷ pairs self.old.higher }
    {
        self.lower = lower;
    }

    /// Has these higher nodes from now on.
    pub(crate) fn set_higher(&mut self, higher: Nodes<K, V>)
        ensures { pairs_of self.new
            ≡ pairs self.old.lower ++ pair_of self.old.pair ∷ pairs higher }
    {
        self.higher = higher;
    }
}

/// A node with these pairs.
pub(crate) fn fork<K: Drop, V: Drop>(
    alloc: Global,
    lower: Nodes<K, V>,
    pair: MapPair<K, V>,
    higher: Nodes<K, V>,
) -> Result<Nodes<K, V>, AllocError>
    ensures { IfOk result (λ nodes. pairs nodes ≡ pairs lower ++ pair_of pair ∷ pairs higher) }
{
    let node = Node {
        lower,
        pair,
        higher,
    };
    match Arc::new(alloc, node) {
        Ok(node) => Ok(measured(node)),
        Err(_) => Err(AllocError),
    }
}

/// The node and those below it, with the height that these say.
pub(crate) fn measured<K, V>(node: Arc<Node<K, V>>) -> Nodes<K, V>
    ensures { pairs result ≡ pairs_of node.value }
{
    let height = node.height();
    Nodes::Fork(height, node)
}

/// A node with copies of these.
pub(crate) fn fork_of<K: Drop, V: Drop>(
    alloc: Global,
    lower: &Nodes<K, V>,
    pair: &MapPair<K, V>,
    higher: &Nodes<K, V>,
) -> Result<Nodes<K, V>, AllocError>
    ensures { IfOk result
        (λ nodes. pairs nodes ≡ pairs lower.now ++ pair_of pair.now ∷ pairs higher.now) }
{
    fork(alloc, lower.copy()?, pair.copy()?, higher.copy()?)
}
