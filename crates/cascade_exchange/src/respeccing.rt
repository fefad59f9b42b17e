//! Consumers that want something else.
ghost use Rattle.std.specs.Prelude.{◌≡◌, OnErr};
ghost use Rattle.entry_tree.specs.Selection.{search_of};
ghost use Rattle.cascade_exchange.specs.Exchange as spec;
ghost use Rattle.cascade_exchange.specs.Exchange.{agreement_of};
ghost use Rattle.cascade_exchange.specs.Parts.{AreAsBefore, Does, KeepsOthers};

use crate::opening::cut_if_busy;
use cascade_nodes::{ConsumerNode, ScriptProvider};
use cascade_report::Report;
use cascade_script::Cause;
use entry_tree::Spec;
use ldap_ber::discard;

/// A busy consumer is cut, and wants this from now on. After a refusal both are as before.
pub fn respec(
    provider: &mut ScriptProvider,
    consumer_node: &mut ConsumerNode,
    wanted: Spec,
    out: &mut Report,
) -> Result<(), Cause>
    ensures does { Does
        (spec.respecs (search_of wanted)
        (agreement_of provider.old consumer_node.old out.old.lineage))
        out.old (agreement_of provider.new consumer_node.new out.old.lineage) out.new result }
    ensures provider { KeepsOthers provider.old consumer_node.old provider.new consumer_node.new }
    ensures err { OnErr result
        (AreAsBefore provider.old consumer_node.old provider.new consumer_node.new) }
{
    match cut_if_busy(provider, consumer_node, out) {
        Ok(()) => {
            consumer_node.consumer.respec(wanted);
            Ok(())
        }
        Err(cause) => {
            discard(wanted);
            Err(cause)
        }
    }
}
