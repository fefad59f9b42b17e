//! The end of what goes on between a consumer and its provider.
ghost use Rattle.std.specs.Prelude.{◌≡◌, Some, None, OnOk, OnErr};
ghost use Rattle.cascade_exchange.specs.Exchange as spec;
ghost use Rattle.cascade_exchange.specs.Exchange.{agreement_of};
ghost use Rattle.cascade_report.specs.Origins.{Lineage};
ghost use Rattle.cascade_exchange.specs.Parts.{AreAsBefore, Does, KeepsOthers};

use cascade_nodes::{ConsumerNode, ScriptProvider};
use cascade_report::Report;
use cascade_script::Cause;

/// Whether a search of the consumer is open or runs, or its link holds a message.
pub fn is_busy(consumer_node: &ConsumerNode) -> bool
    ensures { result ≡ spec.is_busy consumer_node.now }
{
    consumer_node.search.is_some()
        || consumer_node.consumer.inner().has_session()
        || !consumer_node.link.is_empty()
}

/// Closes this search of a provider, where there is one.
pub fn close(provider: &mut ScriptProvider, search: Option<u64>)
    ensures { provider.new ≡ spec.closed provider.old search }
{
    if let Some(number) = search {
        provider.drop_search(number);
    }
}

/// Drops the search, and what the link and the stage hold.
pub fn drop_all(provider: &mut ScriptProvider, consumer_node: &mut ConsumerNode)
    ensures does { (lineage : Lineage) → agreement_of provider.new consumer_node.new lineage
        ≡ spec.given_up (agreement_of provider.old consumer_node.old lineage)
        consumer_node.old.consumer.copy }
    ensures idle { consumer_node.new.search ≡ None }
    ensures provider { KeepsOthers provider.old consumer_node.old provider.new consumer_node.new }
{
    close(provider, consumer_node.search);
    consumer_node.search = None;
    consumer_node.link.clear();
    consumer_node.consumer.cut();
}

/// Cuts a busy consumer. After a refusal both are as before.
#[tactic(auto, using(crate::proofs::Performing::both_stay))]
pub fn cut(
    provider: &mut ScriptProvider,
    consumer_node: &mut ConsumerNode,
    out: &mut Report,
) -> Result<(), Cause>
    ensures does { Does (spec.cut (agreement_of provider.old consumer_node.old out.old.lineage))
        out.old (agreement_of provider.new consumer_node.new out.old.lineage) out.new result }
    ensures provider { KeepsOthers provider.old consumer_node.old provider.new consumer_node.new }
    ensures idle { OnOk result (consumer_node.new.search ≡ None) }
    ensures err { OnErr result
        (AreAsBefore provider.old consumer_node.old provider.new consumer_node.new) }
{
    if !is_busy(consumer_node) {
        out.nothing(consumer_node.name.as_slice())?;
        return Ok(());
    }
    out.cut(consumer_node.name.as_slice())?;
    drop_all(provider, consumer_node);
    Ok(())
}
