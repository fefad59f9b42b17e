//! A consumer that is brought up to its provider.
ghost use Rattle.std.specs.Prelude.{◌≡◌};
ghost use Rattle.sync_provider.specs.Machine.{ProviderState};
ghost use Rattle.cascade_exchange.specs.Exchange as spec;
ghost use Rattle.cascade_exchange.specs.Exchange.{agreement_of};
ghost use Rattle.cascade_report.specs.Origins.{Lineage};
ghost use Rattle.cascade_exchange.specs.Parts.{Does, KeepsOthers};

use crate::opening::open_anew;
use crate::receiving::take_one;
use crate::sending::send_one;
use cascade_nodes::{ConsumerNode, ScriptProvider};
use cascade_report::Report;
use cascade_script::Cause;
use std::alloc::Global;

/// Brings the consumer up to its provider: it takes what its link holds, and what the search that
/// is open has pending. A consumer whose persistent search has done its refresh is up then; another
/// one gets there by a new search. It is `LimitReached` where the link would hold more than
/// 67,108,864 bytes, or `NoMemory`.
#[tactic(auto, using(crate::proofs::Settled::settled, crate::proofs::Settled::drain_refused, crate::proofs::Settled::run_refused, crate::proofs::Settled::catching_refused))]
pub fn settle(
    alloc: Global,
    provider: &mut ScriptProvider,
    consumer_node: &mut ConsumerNode,
    out: &mut Report,
) -> Result<(), Cause>
    ensures does { Does (spec.settles (agreement_of provider.old consumer_node.old out.old.lineage))
        out.old (agreement_of provider.new consumer_node.new out.old.lineage) out.new result }
    ensures provider { KeepsOthers provider.old consumer_node.old provider.new consumer_node.new }
{
    take_all(alloc, provider, consumer_node, out)?;
    run_search(alloc, provider, consumer_node, out)?;
    catch_up(alloc, provider, consumer_node, out)?;
    out.settled(consumer_node.name.as_slice(), provider.writes())?;
    Ok(())
}

/// Opens a new search and runs it to its end, unless the consumer follows on.
#[tactic(auto, using(crate::proofs::Settled::followed, crate::proofs::Settled::not_followed))]
fn catch_up(
    alloc: Global,
    provider: &mut ScriptProvider,
    consumer_node: &mut ConsumerNode,
    out: &mut Report,
) -> Result<(), Cause>
    ensures does { Does
        (spec.catches_up (agreement_of provider.old consumer_node.old out.old.lineage))
        out.old (agreement_of provider.new consumer_node.new out.old.lineage) out.new result }
    ensures provider { KeepsOthers provider.old consumer_node.old provider.new consumer_node.new }
{
    if follows_on(consumer_node) {
        return Ok(());
    }
    refresh(alloc, provider, consumer_node, out)
}

/// Opens a new search and runs it to its end.
#[tactic(auto, using(crate::proofs::Doing::refused_first))]
fn refresh(
    alloc: Global,
    provider: &mut ScriptProvider,
    consumer_node: &mut ConsumerNode,
    out: &mut Report,
) -> Result<(), Cause>
    ensures does { Does
        (spec.refreshes (agreement_of provider.old consumer_node.old out.old.lineage))
        out.old (agreement_of provider.new consumer_node.new out.old.lineage) out.new result }
    ensures provider { KeepsOthers provider.old consumer_node.old provider.new consumer_node.new }
{
    open_anew(alloc, provider, consumer_node, out)?;
    run_search(alloc, provider, consumer_node, out)
}

/// Whether a persistent search of the consumer is open, and its refresh is done.
fn follows_on(consumer_node: &ConsumerNode) -> bool
    ensures { (provider : ProviderState) → (lineage : Lineage)
        → result ≡ spec.follows_on (agreement_of provider consumer_node.now lineage) }
{
    consumer_node.search.is_some() && consumer_node.consumer.inner().is_persisting()
}

/// Takes all that the link holds.
#[tactic(auto, using(crate::proofs::Loops::drains_begin, crate::proofs::Loops::drains_on, crate::proofs::Loops::drains_end, crate::proofs::Loops::takes_from_link, crate::proofs::Pending::taking_starves))]
fn take_all(
    alloc: Global,
    provider: &mut ScriptProvider,
    consumer_node: &mut ConsumerNode,
    out: &mut Report,
) -> Result<(), Cause>
    ensures does { Does (spec.drains (agreement_of provider.old consumer_node.old out.old.lineage))
        out.old (agreement_of provider.new consumer_node.new out.old.lineage) out.new result }
    ensures provider { KeepsOthers provider.old consumer_node.old provider.new consumer_node.new }
{
    while take_one(alloc, provider, consumer_node, out)? {}
    Ok(())
}

/// Sends and takes one message after another, as long as one is pending.
#[tactic(auto, using(crate::proofs::Pending::run_begins, crate::proofs::Pending::run_goes_on, crate::proofs::Pending::run_ends, crate::proofs::Pending::run_leaves_less, crate::proofs::Pending::run_overflows, crate::proofs::Pending::taking_starves))]
fn run_search(
    alloc: Global,
    provider: &mut ScriptProvider,
    consumer_node: &mut ConsumerNode,
    out: &mut Report,
) -> Result<(), Cause>
    ensures does { Does (spec.runs (agreement_of provider.old consumer_node.old out.old.lineage))
        out.old (agreement_of provider.new consumer_node.new out.old.lineage) out.new result }
    ensures provider { KeepsOthers provider.old consumer_node.old provider.new consumer_node.new }
{
    while send_one(alloc, provider, consumer_node, out)? {
        take_one(alloc, provider, consumer_node, out)?;
    }
    Ok(())
}
