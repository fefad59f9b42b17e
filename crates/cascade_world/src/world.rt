//! The world of a script, and what each event does and reports.
ghost use Rattle.std.specs.Prelude.{◌≡◌, IfOk, OnErr};
ghost use Rattle.cascade_script.specs.Orders.{order_of};
ghost use Rattle.cascade_world.specs.World as spec;
ghost use Rattle.cascade_world.specs.World.{StepsBy};

use crate::nodes::ScriptNodes;
use cascade_script::{Event, ScriptFault};
use ldap_ber::{NoMemory, Octets};
use std::alloc::Global;
use std::marker::Model;

/// The lines of an event as bytes, each ended by a line feed.
pub type Lines = Octets;

/// The nodes of a script, where the directory of each replica holds what its consumer holds. So
/// each stage that takes effect can be committed there, up to the limits of a directory's writes.
#[derive(Drop)]
pub struct World {
    nodes: ScriptNodes,
}

/// Contracts see the nodes.
impl Model for World {
    ghost use Rattle.std.specs.Coded.{codes};
    ghost use Rattle.cascade_nodes.specs.contracts.node.ProviderNode as provider_node;
    ghost use Rattle.cascade_nodes.specs.contracts.node.ConsumerNode as consumer_node;
    ghost use Rattle.cascade_world.specs.InStep.{AreInStep};
    ghost use Rattle.cascade_world.specs.World.{WorldState};

    ghost Value = { WorldState };

    ghost coded = { Prim.hlevel (codes, provider_node.the_row.coded, consumer_node.the_row.coded) };

    ghost view = { λ w. w.nodes };

    ghost invariant = { λ w. AreInStep w.nodes };
}

impl World {
    /// A world without nodes, at the first moment of 1970. It is `NoMemory` where memory runs out.
    #[tactic(auto, using(crate::proofs::Keeping::none_in_step))]
    pub fn new(alloc: Global) -> Result<World, NoMemory>
        ensures { IfOk result (λ world. world ≡ spec.no_nodes) }
    {
        Ok(World {
            nodes: ScriptNodes::new(alloc),
        })
    }

    /// Does an event, and gives its lines. It is a refusal with the number of its line, for one of
    /// the causes that name a node, a limit, a circle, a suffix or a cookie, or `NoMemory`; and
    /// then the world is as before.
    #[tactic(auto, using(crate::proofs::Steps::refused_at, crate::proofs::Keeping::does_in_step))]
    pub fn step(&mut self, event: Event) -> Result<Lines, ScriptFault>
        ensures steps { StepsBy self.old event.line (order_of event.command) self.new result }
        ensures err { OnErr result (self.new ≡ self.old) }
    {
        let line = event.line;
        match self.nodes.apply(event.command) {
            Ok(lines) => Ok(lines),
            Err(cause) => Err(ScriptFault { line, cause }),
        }
    }
}
