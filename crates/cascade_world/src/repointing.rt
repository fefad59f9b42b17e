//! Consumers that follow another provider, or want something else.
ghost use Rattle.std.specs.Prelude.{◌≡◌, OnOk, OnErr, IfOk, IfErr, Err};
ghost use Rattle.std.specs.Option.{option_copied};
ghost use Rattle.entry_tree.specs.Selection.{search_of};
ghost use Rattle.cascade_exchange.specs.Exchange as exchange;
ghost use Rattle.cascade_nodes.specs.Nodes as nodes;
ghost use Rattle.cascade_script.specs.Orders.{Order as order};
ghost use Rattle.cascade_world.specs.World as spec;
ghost use Rattle.cascade_world.specs.World.{DoesStep};
ghost use Rattle.cascade_world.specs.InStep.{AreInStep};

use crate::nodes::ScriptNodes;
use crate::world::Lines;
use cascade_exchange::Exchange;
use cascade_script::Cause;
use entry_tree::Spec;
use ldap_ber::{NoMemory, Octets, discard};

impl ScriptNodes {
    /// A consumer follows another provider from now on: a busy one is cut, and keeps its cookie and
    /// its entries.
    pub(crate) fn repoint(&mut self, name: Octets, source: Octets) -> Result<Lines, Cause>
        requires in_step { AreInStep self.old }
        ensures steps { DoesStep (spec.step self.old (order.Repoint name source)) self.new result }
        ensures err { OnErr result (self.new ≡ self.old) }
    {
        let Some(consumer_node) = self.consumer_node_place(&name) else {
            return Err(Cause::UnknownNode);
        };
        let Some(provider_node) = self.provider_node_place(&source) else {
            return Err(Cause::UnknownNode);
        };
        if self.is_fed(&name, &source) {
            return Err(Cause::Circle);
        }
        if !self.provider_nodes[provider_node].offers(
            self.consumer_nodes[consumer_node].consumer.inner().spec(),
        ) {
            return Err(Cause::OutsideSuffix);
        }
        let lines = self.exchange(name, Exchange::CutIfBusy)?;
        self.consumer_nodes[consumer_node].source = source;
        Ok(lines)
    }

    /// A consumer wants this from now on: a busy one is cut, loses its cookie, and keeps its
    /// entries.
    pub(crate) fn respec(&mut self, name: Octets, wanted: Spec) -> Result<Lines, Cause>
        requires in_step { AreInStep self.old }
        ensures steps { DoesStep (spec.step self.old (order.Respec name (search_of wanted)))
            self.new result }
        ensures err { OnErr result (self.new ≡ self.old) }
    {
        match self.check_offered(&name, &wanted) {
            Ok(()) => self.exchange(name, Exchange::Respec(wanted)),
            Err(cause) => {
                discard(wanted);
                Err(cause)
            }
        }
    }

    /// Whether the provider of the consumer of this name offers what is wanted.
    fn check_offered(&self, name: &Octets, wanted: &Spec) -> Result<(), Cause>
        ensures ok { OnOk result (spec.respec self.now name.now (search_of wanted.now)
            ≡ spec.exchange self.now name.now (exchange.respecs (search_of wanted.now))) }
        ensures fault { IfErr result (λ cause.
            spec.respec self.now name.now (search_of wanted.now) ≡ Err cause) }
    {
        let (provider_node, _) = self.places(name)?;
        if !self.provider_nodes[provider_node].offers(wanted) {
            return Err(Cause::OutsideSuffix);
        }
        Ok(())
    }

    /// The place of the name that the node of this name follows.
    #[tactic(auto, using(crate::proofs::Upwards::source_at, crate::proofs::Upwards::source_nowhere))]
    fn source_of(&self, name: &Octets) -> Option<&Octets>
        ensures { option_copied result ≡ nodes.source_of self.now.consumer_nodes name.now }
    {
        match self.consumer_node_place(name) {
            Some(place) => Some(&self.consumer_nodes[place].source),
            None => None,
        }
    }

    /// Whether the node is the other one, or gets its content from it, directly or not.
    #[tactic(auto, using(crate::proofs::Upwards::fed_here, crate::proofs::Upwards::fed_nowhere, crate::proofs::Upwards::fed_up))]
    fn is_fed(&self, other: &Octets, name: &Octets) -> bool
        ensures { result ≡ spec.is_fed self.now other.now name.now }
    {
        let mut at = name;
        let mut left = self.consumer_nodes.len();
        while left > 0 {
            if *at == *other {
                return true;
            }
            match self.source_of(at) {
                Some(source) => at = source,
                None => return false,
            }
            left -= 1;
        }
        *at == *other
    }

    /// The root at the top of the providers of this node.
    #[tactic(auto, using(crate::proofs::Upwards::top_is, crate::proofs::Upwards::top_up))]
    pub(crate) fn top_of(&self, name: &Octets) -> Result<Octets, NoMemory>
        ensures { IfOk result (λ top. top ≡ spec.top_of self.now name.now) }
    {
        let mut at = name;
        let mut left = self.consumer_nodes.len();
        while left > 0 {
            match self.source_of(at) {
                Some(source) => at = source,
                None => return at.copy(),
            }
            left -= 1;
        }
        at.copy()
    }
}
