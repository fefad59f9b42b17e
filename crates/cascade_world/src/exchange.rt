//! What goes on between a consumer and its provider, and what a replica commits at the end of an
//! event.
ghost use Rattle.std.specs.Prelude.{◌≡◌, ◌<◌, ℕ, List, length, slice_get, IfSome, OnErr};
ghost use Rattle.cascade_exchange.specs.Exchange.{part_of};
ghost use Rattle.cascade_nodes.specs.Commits.{Leaves};
ghost use Rattle.cascade_world.specs.InStep.{AreInStep, OwnCanCommit};
ghost use Rattle.cascade_world.specs.Places.{ArePlaces, PerformsAt};
ghost use Rattle.cascade_world.specs.World as spec;
ghost use Rattle.cascade_world.specs.World.{DoesStep};

use crate::nodes::ScriptNodes;
use crate::world::Lines;
use cascade_exchange::{Exchange, Performed, perform_exchange};
use cascade_report::StoredStage;
use cascade_script::Cause;
use ldap_ber::{Octets, discard};

impl ScriptNodes {
    /// Does what goes on between a consumer and its provider, and then the commits of a replica.
    /// After a refusal the world is as before.
    pub(crate) fn exchange(&mut self, name: Octets, exchange: Exchange) -> Result<Lines, Cause>
        requires in_step { AreInStep self.old }
        ensures steps { DoesStep (spec.exchange self.old name (part_of exchange)) self.new result }
        ensures err { OnErr result (self.new ≡ self.old) }
    {
        match self.places(&name) {
            Ok((provider_node, consumer_node)) => self.exchange_at(
                provider_node,
                consumer_node,
                exchange,
            ),
            Err(cause) => {
                discard(exchange);
                Err(cause)
            }
        }
    }

    /// The same, where the provider and the consumer stand at these places.
    fn exchange_at(
        &mut self,
        provider_node: usize,
        consumer_node: usize,
        exchange: Exchange,
    ) -> Result<Lines, Cause>
        requires in_step { AreInStep self.old }
        requires provider_node { provider_node < length self.old.provider_nodes }
        requires consumer_node { consumer_node < length self.old.consumer_nodes }
        requires places { (name : List ℕ) × ArePlaces self.old name (provider_node, consumer_node) }
        ensures steps { (name : List ℕ) → ArePlaces self.old name (provider_node, consumer_node)
            → DoesStep (spec.exchange self.old name (part_of exchange)) self.new result }
        ensures err { OnErr result (self.new ≡ self.old) }
    {
        let done = self.perform(provider_node, consumer_node, exchange)?;
        if done.stages.is_empty() {
            discard(done.before);
            return Ok(Octets::from(done.text));
        }
        match self.commit(consumer_node, done.stages) {
            Ok(()) => {
                discard(done.before);
                Ok(Octets::from(done.text))
            }
            Err(cause) => {
                let from = &mut self.provider_nodes[provider_node];
                let to = &mut self.consumer_nodes[consumer_node];
                done.before.restore(&mut from.provider, to);
                Err(cause)
            }
        }
    }

    /// Does what goes on between the two at these places. After a refusal the world is as before.
    fn perform(
        &mut self,
        provider_node: usize,
        consumer_node: usize,
        exchange: Exchange,
    ) -> Result<Performed, Cause>
        requires provider_node { provider_node < length self.old.provider_nodes }
        requires consumer_node { consumer_node < length self.old.consumer_nodes }
        ensures does { PerformsAt self.old provider_node consumer_node
            (part_of exchange) self.new result }
        ensures err { OnErr result (self.new ≡ self.old) }
    {
        match self.top_of(&self.provider_nodes[provider_node].name) {
            Ok(top) => {
                let from = &mut self.provider_nodes[provider_node];
                let to = &mut self.consumer_nodes[consumer_node];
                perform_exchange(self.alloc, from, top, to, exchange)
            }
            Err(_) => {
                discard(exchange);
                Err(Cause::NoMemory)
            }
        }
    }

    /// The node at this place commits these stages, one write for each, where it is a replica.
    /// After a refusal its directory is as before.
    #[tactic(auto, using(crate::proofs::OwnCommits::at_place, crate::proofs::OwnCommits::commits_nothing, crate::proofs::OwnCommits::own_same))]
    fn commit(&mut self, place: usize, stages: Vec<StoredStage>) -> Result<(), Cause>
        requires place { place < length self.old.consumer_nodes }
        requires can { IfSome (slice_get self.old.consumer_nodes place)
            (OwnCanCommit self.old stages.items) }
        ensures does { IfSome (slice_get self.old.consumer_nodes place)
            (λ consumer_node.
            Leaves (spec.commits_of self.old consumer_node stages.items) self.new result) }
        ensures err { OnErr result (self.new ≡ self.old) }
    {
        let Some(own) = self.provider_node_place(&self.consumer_nodes[place].name) else {
            return Ok(());
        };
        let wanted = self.consumer_nodes[place].consumer.inner().spec();
        self.provider_nodes[own].commit_all(wanted, stages, self.clock)
    }
}
