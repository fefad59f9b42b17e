//! The nodes of a script, and what each command does and reports.
ghost use Rattle.std.specs.Prelude.{◌≡◌, ◌+◌, ◌<◌, ◌≤◌, ◌∷◌, [], length, position, IfOk, IfErr, OnErr, Err};
ghost use Rattle.std.specs.List.{list_any};
ghost use Rattle.cascade_script.specs.Orders.{order_of};
ghost use Rattle.cascade_script.specs.Orders.{Order as order};
ghost use Rattle.cascade_report.specs.ReportLines.{lines_text};
ghost use Rattle.cascade_report.specs.ReportLines.ReportLine.{Wrote};
ghost use Rattle.cascade_world.specs.World as spec;
ghost use Rattle.cascade_exchange.specs.Cookies.{most_nodes};
ghost use Rattle.cascade_world.specs.InStep.{AreInStep};
ghost use Rattle.cascade_world.specs.World.{DoesStep};
ghost use Rattle.cascade_exchange.specs.Exchange.{Agreement, ExchangeOutcome};
ghost use Rattle.cascade_world.specs.Places.{ArePlaces, Writes};

use crate::world::Lines;
use cascade_exchange::Exchange;
use cascade_nodes::{ConsumerNode, ProviderNode, ScriptProvider};
use cascade_report::{push_wrote, text_of};
use cascade_script::{Cause, Command};
use entry_tree::{OpFault, read_op};
use ldap_ber::{NoMemory, Octets, discard};
use ldap_constants::{OTHER, SUCCESS};
use schema_rules::Change;
use std::alloc::Global;
use std::marker::Model;
use sync_messages::Mode;

/// The nodes of a script, and the time that their clocks show.
#[derive(Drop)]
pub struct ScriptNodes {
    pub(crate) alloc: Global,
    pub(crate) clock: u64,
    /// How many nodes are declared: a replica is one, and has a directory and a consumer.
    pub(crate) nodes: u16,
    pub(crate) provider_nodes: Vec<ProviderNode>,
    pub(crate) consumer_nodes: Vec<ConsumerNode>,
}

/// Contracts see the time, the number of nodes, and the directories and the consumers, each in the
/// order of their declaration.
impl Model for ScriptNodes {
    ghost use Rattle.std.specs.Prelude.{◌≡◌, ◌+◌, ◌≤◌, length};
    ghost use Rattle.std.specs.Coded.{codes};
    ghost use Rattle.cascade_nodes.specs.contracts.node.ProviderNode as provider_node;
    ghost use Rattle.cascade_nodes.specs.contracts.node.ConsumerNode as consumer_node;
    ghost use Rattle.cascade_exchange.specs.Cookies.{most_nodes};
    ghost use Rattle.cascade_world.specs.World.{WorldState};

    ghost Value = { WorldState };

    ghost coded = { Prim.hlevel (codes, provider_node.the_row.coded, consumer_node.the_row.coded) };

    ghost view = { λ w. record {
      clock = w.clock;
      nodes = w.nodes;
      provider_nodes = w.provider_nodes.items;
      consumer_nodes = w.consumer_nodes.items;
    } };

    ghost invariant = { λ w. w.nodes ≤ most_nodes };
}

impl ScriptNodes {
    /// No node, and the first moment of 1970.
    pub(crate) fn new(alloc: Global) -> ScriptNodes
        ensures { result ≡ spec.no_nodes }
    {
        ScriptNodes {
            alloc,
            clock: 0,
            nodes: 0,
            provider_nodes: Vec::new(alloc),
            consumer_nodes: Vec::new(alloc),
        }
    }

    /// Does a command, and gives its lines. After a refusal the nodes are as before.
    pub(crate) fn apply(&mut self, command: Command) -> Result<Lines, Cause>
        requires in_step { AreInStep self.old }
        ensures steps { DoesStep (spec.step self.old (order_of command)) self.new result }
        ensures err { OnErr result (self.new ≡ self.old) }
    {
        match command {
            Command::Provider(name, suffix) => self.declare_root(name, suffix),
            Command::Consumer(name, source, wanted, reload) => {
                self.declare_consumer(name, source, wanted, reload)
            }
            Command::Replica(name, source, wanted, reload) => {
                self.declare_replica(name, source, wanted, reload)
            }
            Command::Clock(time) => {
                self.clock = time;
                Ok(no_lines(self.alloc))
            }
            Command::Write(name, change) => {
                let written = self.write(&name, &change);
                discard(change);
                written
            }
            Command::OpenOnce(name) => self.exchange(name, Exchange::Open(Mode::RefreshOnly)),
            Command::OpenStay(name) => {
                self.exchange(name, Exchange::Open(Mode::RefreshAndPersist))
            }
            Command::Send(name, count) => self.exchange(name, Exchange::Send(count)),
            Command::Take(name, count) => self.exchange(name, Exchange::Take(count)),
            Command::Cut(name) => self.exchange(name, Exchange::Cut),
            Command::Settle(name) => self.exchange(name, Exchange::Settle),
            Command::Lose(name) => self.exchange(name, Exchange::LoseCookie),
            Command::Cookie(name, text) => self.exchange(name, Exchange::SetCookie(text)),
            Command::Repoint(name, source) => self.repoint(name, source),
            Command::Respec(name, wanted) => self.respec(name, wanted),
            Command::Log(name, limit) => self.limit_log(&name, limit),
            Command::Queue(name, limit) => self.limit_queue(&name, limit),
            Command::Show(name) => self.show(&name),
        }
    }

    // ---- nodes by their names

    pub(crate) fn provider_node_place(&self, name: &Octets) -> Option<usize>
        ensures { result ≡ position (spec.is_provider_node name.now) self.now.provider_nodes }
    {
        self.provider_nodes
            .iter()
            .position(|provider_node| *name == provider_node.name)
    }

    pub(crate) fn consumer_node_place(&self, name: &Octets) -> Option<usize>
        ensures { result ≡ position (spec.is_consumer_node name.now) self.now.consumer_nodes }
    {
        self.consumer_nodes
            .iter()
            .position(|consumer_node| *name == consumer_node.name)
    }

    fn has_provider_node(&self, name: &Octets) -> bool
        ensures { result ≡ list_any (spec.is_provider_node name.now) self.now.provider_nodes }
    {
        self.provider_nodes
            .iter()
            .any(|provider_node| *name == provider_node.name)
    }

    fn has_consumer_node(&self, name: &Octets) -> bool
        ensures { result ≡ list_any (spec.is_consumer_node name.now) self.now.consumer_nodes }
    {
        self.consumer_nodes
            .iter()
            .any(|consumer_node| *name == consumer_node.name)
    }

    pub(crate) fn has_node(&self, name: &Octets) -> bool
        ensures { result ≡ spec.has_node name.now self.now }
    {
        self.has_provider_node(name) || self.has_consumer_node(name)
    }

    /// The places of a consumer's provider and of the consumer.
    pub(crate) fn places(&self, name: &Octets) -> Result<(usize, usize), Cause>
        ensures ok { IfOk result (ArePlaces self.now name.now) }
        ensures fault { IfErr result (λ cause.
            (cause ≡ Cause.UnknownNode)
            × ((part : Agreement → ExchangeOutcome)
            → spec.exchange self.now name.now part ≡ Err Cause.UnknownNode)) }
    {
        let Some(consumer_node) = self.consumer_node_place(name) else {
            return Err(Cause::UnknownNode);
        };
        match self.provider_node_place(&self.consumer_nodes[consumer_node].source) {
            Some(provider_node) => Ok((provider_node, consumer_node)),
            None => Err(Cause::UnknownNode),
        }
    }

    // ---- writes

    #[tactic(auto, using(crate::proofs::Steps::no_provider_node, crate::proofs::Steps::write_same))]
    fn write(&mut self, name: &Octets, change: &Change) -> Result<Lines, Cause>
        ensures steps { DoesStep (spec.step self.old (order.Write name.now change.now))
            self.new result }
        ensures err { OnErr result (self.new ≡ self.old) }
    {
        let Some(place) = self.provider_node_place(name) else {
            return Err(Cause::UnknownNode);
        };
        let provider = &mut self.provider_nodes[place].provider;
        write_to(self.alloc, provider, name.as_slice(), self.clock, change)
    }

    #[tactic(auto, using(crate::proofs::Steps::no_log_limited))]
    fn limit_log(&mut self, name: &Octets, limit: u64) -> Result<Lines, Cause>
        ensures steps { DoesStep (spec.step self.old (order.Log name.now limit)) self.new result }
        ensures err { OnErr result (self.new ≡ self.old) }
    {
        let Some(place) = self.provider_node_place(name) else {
            return Err(Cause::UnknownNode);
        };
        self.provider_nodes[place].provider.set_log_limit(limit);
        Ok(no_lines(self.alloc))
    }

    #[tactic(auto, using(crate::proofs::Steps::no_queue_limited))]
    fn limit_queue(&mut self, name: &Octets, limit: u64) -> Result<Lines, Cause>
        ensures steps { DoesStep (spec.step self.old (order.Queue name.now limit)) self.new result }
        ensures err { OnErr result (self.new ≡ self.old) }
    {
        let Some(place) = self.provider_node_place(name) else {
            return Err(Cause::UnknownNode);
        };
        self.provider_nodes[place].provider.set_queue_limit(limit);
        Ok(no_lines(self.alloc))
    }

    // ---- entries

    #[tactic(auto, using(crate::proofs::Showing::shows_provider_node, crate::proofs::Showing::shows_consumer_node, crate::proofs::Showing::shown_none))]
    fn show(&self, name: &Octets) -> Result<Lines, Cause>
        ensures { DoesStep (spec.step self.now (order.Show name.now)) self.now result }
    {
        if let Some(provider_node) = self.provider_node_place(name) {
            let entries = self.provider_nodes[provider_node].provider.entries()?;
            return Ok(Octets::from(text_of(self.alloc, &entries)?));
        }
        let Some(consumer_node) = self.consumer_node_place(name) else {
            return Err(Cause::UnknownNode);
        };
        let entries = self.consumer_nodes[consumer_node]
            .consumer
            .inner()
            .entries()
            .list()?;
        Ok(Octets::from(text_of(self.alloc, &entries)?))
    }
}

pub(crate) fn no_lines(alloc: Global) -> Lines
    ensures { result ≡ [] }
{
    Octets::from(Vec::new(alloc))
}

/// Writes to a provider node, and reports it.
#[tactic(auto, using(sync_provider::proofs::AddedWrites::grown, sync_provider::proofs::AddedWrites::refused_same))]
fn write_to(
    alloc: Global,
    provider: &mut ScriptProvider,
    name: &[u8],
    now: u64,
    change: &Change,
) -> Result<Lines, Cause>
    ensures { Writes provider.old name.now now change.now provider.new result }
{
    match read_op(alloc, change) {
        Ok(op) => {
            // The line of an accepted write is made before the write, which then can't fail any
            // more.
            let number = provider.writes();
            let accepted = wrote_lines(alloc, name, SUCCESS, number + 1)?;
            let reply = provider.write(op, now);
            if reply.code == OTHER {
                return Err(Cause::NoMemory);
            }
            if reply.number > number {
                return Ok(accepted);
            }
            Ok(wrote_lines(alloc, name, reply.code, number)?)
        }
        Err(OpFault::Code(code)) => Ok(wrote_lines(alloc, name, code, provider.writes())?),
        Err(OpFault::NoMemory) => Err(Cause::NoMemory),
    }
}

/// The line of a write.
fn wrote_lines(alloc: Global, name: &[u8], code: u32, number: u64) -> Result<Lines, NoMemory>
    ensures { IfOk result (λ lines. lines ≡ lines_text (Wrote name.now code number ∷ [])) }
{
    let mut lines = Vec::new(alloc);
    push_wrote(&mut lines, name, code, number)?;
    Ok(Octets::from(lines))
}
