//! Declarations of nodes.
ghost use Rattle.std.specs.Prelude.{◌≡◌, ◌+◌, ◌<◌, ◌≤◌, ◌++◌, ◌∷◌, [], OnOk, OnErr, IfOk, IfErr, Ok, Err};
ghost use Rattle.entry_tree.specs.Selection.{search_of};
ghost use Rattle.cascade_exchange.specs.Cookies.{most_nodes};
ghost use Rattle.cascade_script.specs.Orders.{Order as order};
ghost use Rattle.cascade_world.specs.World as spec;
ghost use Rattle.cascade_world.specs.World.{DoesStep};

use crate::nodes::{ScriptNodes, no_lines};
use crate::world::Lines;
use cascade_exchange::MOST_NODES;
use cascade_nodes::{ConsumerNode, ProviderNode};
use cascade_script::Cause;
use dn_names::Dn;
use entry_tree::Spec;
use ldap_ber::{NoMemory, Octets, discard};
use std::alloc::AllocError;
use sync_provider::Kind;

impl ScriptNodes {
    /// The number of the next node, where there is room for one.
    fn next_number(&self) -> Result<u16, Cause>
        ensures ok { IfOk result (λ number.
            (number ≡ self.now.nodes + 1) × (self.now.nodes < most_nodes)) }
        ensures fault { IfErr result (λ cause.
            (cause ≡ Cause.LimitReached most_nodes) × (most_nodes ≤ self.now.nodes)) }
    {
        if usize::from(self.nodes) >= MOST_NODES {
            return Err(Cause::LimitReached(MOST_NODES as u64));
        }
        Ok(self.nodes + 1)
    }

    /// Declares a root.
    pub(crate) fn declare_root(&mut self, name: Octets, suffix: Dn) -> Result<Lines, Cause>
        ensures steps { DoesStep (spec.step self.old (order.Provider name suffix)) self.new result }
        ensures err { OnErr result (self.new ≡ self.old) }
    {
        if self.has_node(&name) {
            return Err(Cause::NameTaken);
        }
        let number = self.next_number()?;
        let root = ProviderNode::new(self.alloc, name, suffix, number, Kind::Root)?;
        self.provider_nodes.push(root)?;
        self.nodes = number;
        Ok(no_lines(self.alloc))
    }

    /// Whether a name is free, its provider is there and offers what is wanted, and there is room
    /// for a node. The answer is its number.
    #[tactic(auto, using(crate::proofs::Declaring::taken, crate::proofs::Declaring::no_source, crate::proofs::Declaring::outside, crate::proofs::Declaring::no_room, crate::proofs::Declaring::followed))]
    fn next_consumer_node(
        &self,
        name: &Octets,
        source: &Octets,
        wanted: &Spec,
    ) -> Result<u16, Cause>
        ensures ok { IfOk result (λ number.
            (number ≡ self.now.nodes + 1) × (self.now.nodes < most_nodes)
            × ((after : spec.WorldState)
            → spec.declare_consumer_node self.now name.now source.now (search_of wanted.now) after
            ≡ Ok (after, []))) }
        ensures fault { IfErr result (λ cause.
            (after : spec.WorldState)
            → spec.declare_consumer_node self.now name.now source.now (search_of wanted.now) after
            ≡ Err cause) }
    {
        if self.has_node(name) {
            return Err(Cause::NameTaken);
        }
        let Some(place) = self.provider_node_place(source) else {
            return Err(Cause::UnknownNode);
        };
        if !self.provider_nodes[place].offers(wanted) {
            return Err(Cause::OutsideSuffix);
        }
        self.next_number()
    }

    /// Declares a consumer of a provider.
    pub(crate) fn declare_consumer(
        &mut self,
        name: Octets,
        source: Octets,
        wanted: Spec,
        reload: bool,
    ) -> Result<Lines, Cause>
        ensures steps { DoesStep
            (spec.step self.old (order.Consumer name source (search_of wanted) reload)) self.new
            result }
        ensures err { OnErr result (self.new ≡ self.old) }
    {
        match self.next_consumer_node(&name, &source, &wanted) {
            Ok(number) => {
                let consumer_node = ConsumerNode::wanting(
                    self.alloc, name, source, wanted, reload,
                )?;
                self.consumer_nodes.push(consumer_node)?;
                self.nodes = number;
                Ok(no_lines(self.alloc))
            }
            Err(cause) => {
                discard(wanted);
                Err(cause)
            }
        }
    }

    /// Declares a replica: a consumer of a provider, and a directory with the empty suffix, which
    /// holds what the consumer takes.
    pub(crate) fn declare_replica(
        &mut self,
        name: Octets,
        source: Octets,
        wanted: Spec,
        reload: bool,
    ) -> Result<Lines, Cause>
        ensures steps { DoesStep
            (spec.step self.old (order.Replica name source (search_of wanted) reload)) self.new
            result }
        ensures err { OnErr result (self.new ≡ self.old) }
    {
        match self.next_consumer_node(&name, &source, &wanted) {
            Ok(number) => {
                let consumer_node = ConsumerNode::wanting(
                    self.alloc, name, source, wanted, reload,
                )?;
                self.add_replica(number, consumer_node)?;
                Ok(no_lines(self.alloc))
            }
            Err(cause) => {
                discard(wanted);
                Err(cause)
            }
        }
    }

    /// Adds a consumer, and a directory of its name for what it takes, which get this number.
    fn add_replica(&mut self, number: u16, consumer_node: ConsumerNode) -> Result<(), NoMemory>
        requires next { number ≡ self.old.nodes + 1 }
        requires room { self.old.nodes < most_nodes }
        ensures ok { OnOk result (self.new ≡ spec.with_replica self.old consumer_node) }
        ensures err { OnErr result (self.new ≡ self.old) }
    {
        match ProviderNode::replica(self.alloc, &consumer_node.name, number) {
            Ok(own) => {
                self.add_pair(own, consumer_node)?;
                self.nodes = number;
                Ok(())
            }
            Err(full) => {
                discard(consumer_node);
                Err(full)
            }
        }
    }

    /// Adds a directory and a consumer, or neither. The number of nodes stays.
    fn add_pair(&mut self, own: ProviderNode, consumer_node: ConsumerNode) -> Result<(), NoMemory>
        ensures ok { OnOk result (self.new ≡ record self.old {
          provider_nodes = self.old.provider_nodes ++ own ∷ [];
          consumer_nodes = self.old.consumer_nodes ++ consumer_node ∷ [];
        }) }
        ensures err { OnErr result (self.new ≡ self.old) }
    {
        if self.provider_nodes.reserve(1).is_err() || self.consumer_nodes.reserve(1).is_err() {
            discard(own);
            discard(consumer_node);
            return Err(AllocError);
        }
        self.provider_nodes.push_reserved(own);
        self.consumer_nodes.push_reserved(consumer_node);
        Ok(())
    }
}
