//! Messages that a consumer takes from its link, as what their bytes spell.
ghost use Rattle.std.specs.Prelude.{◌≡◌, ◌<◌, ◌≤◌, ◌∷◌, [], Some, None, drop, option_map, IfOk, OnOk};
ghost use Rattle.ldap_messages.specs.Whole.{message_value};
ghost use Rattle.cascade_exchange.specs.Exchange as spec;
ghost use Rattle.cascade_exchange.specs.Reception as decoding;
ghost use Rattle.cascade_exchange.specs.Exchange.{agreement_of};
ghost use Rattle.sync_consumer.specs.Taking.{AreFit};
ghost use Rattle.cascade_exchange.specs.Parts.{IsKeptIfAny, Does, IsUntouched, KeepsOthers, TakesOne};
ghost use Rattle.cascade_exchange.specs.Parts.{IsReceivedSoFar, TakesNext, TakesSoFar, TakesStep};
ghost use Rattle.cascade_report.specs.Report.{said};
ghost use Rattle.cascade_report.specs.ReportLines.{commit_reported, ReportLine as reported};

use crate::aside::Aside;
use crate::cutting::drop_all;
use crate::ending::ends_without_cookie;
use crate::exchange::kept_search;
use crate::taking::{BAD_MESSAGE, OUT_OF_PLACE, fault_name, stored_number};
use cascade_nodes::{ConsumerNode, ScriptProvider};
use cascade_report::Report;
use cascade_script::Cause;
use ldap_ber::{NoMemory, discard};
use ldap_messages::{Message, MessageFault};
use std::alloc::{AllocError, Global};
use std::mem;
use sync_consumer::{Commit, Taken};
use sync_provider::SearchSnapshot;

/// Takes n messages from the link, up to where it is empty. Where a fault gives the search up, how
/// it stood is kept first; else it stays as it is.
pub fn take(
    alloc: Global,
    provider: &mut ScriptProvider,
    consumer_node: &mut ConsumerNode,
    count: u64,
    kept: &mut Aside<SearchSnapshot>,
    out: &mut Report,
) -> Result<(), Cause>
    ensures does { Does
        (spec.takes count (agreement_of provider.old consumer_node.old out.old.lineage))
        out.old (agreement_of provider.new consumer_node.new out.old.lineage) out.new result }
    ensures provider { KeepsOthers provider.old consumer_node.old provider.new consumer_node.new }
    ensures kept { IsKeptIfAny provider.old consumer_node.old.search kept.old
        → IsKeptIfAny provider.old consumer_node.old.search kept.new }
    ensures untouched { IsUntouched kept.new consumer_node.old.search provider.old provider.new }
{
    if take_some(alloc, provider, consumer_node, count, out)? {
        return Ok(());
    }
    let own = kept_search(alloc, provider, consumer_node.search)?;
    discard(mem::replace(kept, own));
    drop_all(provider, consumer_node);
    Ok(())
}

/// Takes n messages from the link, up to where it is empty. False where a fault ends that, for
/// which the search is to be given up.
#[tactic(auto, using(crate::proofs::Loops::begins))]
fn take_some(
    alloc: Global,
    provider: &ScriptProvider,
    consumer_node: &mut ConsumerNode,
    count: u64,
    out: &mut Report,
) -> Result<bool, Cause>
    ensures does { TakesSoFar count (agreement_of provider.now consumer_node.old out.old.lineage)
        out.old (agreement_of provider.now consumer_node.new out.old.lineage) out.new result }
    ensures search { consumer_node.new.search ≡ consumer_node.old.search }
{
    let mut left = count;
    while left > 0 {
        if let Some(goes_on) = take_step(alloc, provider, consumer_node, left, out)? {
            return Ok(goes_on);
        }
        left -= 1;
    }
    Ok(true)
}

/// Takes the first message of the link, of n that are to be taken. The answer is none where others
/// are to be taken then, and false where the search is to be given up.
fn take_step(
    alloc: Global,
    provider: &ScriptProvider,
    consumer_node: &mut ConsumerNode,
    left: u64,
    out: &mut Report,
) -> Result<Option<bool>, Cause>
    requires { 0 < left }
    ensures does { TakesStep left (agreement_of provider.now consumer_node.old out.old.lineage)
        out.old (agreement_of provider.now consumer_node.new out.old.lineage) out.new result }
    ensures search { consumer_node.new.search ≡ consumer_node.old.search }
{
    let Some(goes_on) = take_next(alloc, provider, consumer_node, out)? else {
        out.nothing(consumer_node.name.as_slice())?;
        return Ok(Some(true));
    };
    if goes_on {
        return Ok(None);
    }
    report_rest(consumer_node, left, out)?;
    Ok(Some(false))
}

/// Reports that nothing is left after a fault, where other messages were to be taken.
fn report_rest(consumer_node: &ConsumerNode, left: u64, out: &mut Report) -> Result<(), NoMemory>
    ensures more { 1 < left
        → OnOk result (out.new ≡ said out.old (reported.Nothing consumer_node.now.name ∷ [])) }
    ensures last { left ≤ 1 → OnOk result (out.new ≡ out.old) }
{
    if left > 1 {
        return out.nothing(consumer_node.name.as_slice());
    }
    Ok(())
}

/// Takes the first message of the link, and gives the search up for a fault. False where there is
/// none.
pub fn take_one(
    alloc: Global,
    provider: &mut ScriptProvider,
    consumer_node: &mut ConsumerNode,
    out: &mut Report,
) -> Result<bool, Cause>
    ensures does { TakesOne (agreement_of provider.old consumer_node.old out.old.lineage)
        (spec.taking (agreement_of provider.old consumer_node.old out.old.lineage))
        out.old (agreement_of provider.new consumer_node.new out.old.lineage) out.new result }
    ensures provider { KeepsOthers provider.old consumer_node.old provider.new consumer_node.new }
{
    let Some(goes_on) = take_next(alloc, provider, consumer_node, out)? else {
        return Ok(false);
    };
    if goes_on {
        return Ok(true);
    }
    drop_all(provider, consumer_node);
    Ok(true)
}

/// Takes the first message of the link. The answer is none where there is none, and false for a
/// fault, for which the search is to be given up.
#[tactic(auto, using(crate::proofs::Reception::nothing_there))]
fn take_next(
    alloc: Global,
    provider: &ScriptProvider,
    consumer_node: &mut ConsumerNode,
    out: &mut Report,
) -> Result<Option<bool>, Cause>
    ensures does { TakesNext (agreement_of provider.now consumer_node.old out.old.lineage)
        (spec.taking (agreement_of provider.now consumer_node.old out.old.lineage))
        out.old (agreement_of provider.now consumer_node.new out.old.lineage) out.new result }
    ensures search { consumer_node.new.search ≡ consumer_node.old.search }
{
    let Some(bytes) = consumer_node.link.first() else {
        return Ok(None);
    };
    let found = decoded(alloc, bytes)?;
    match take_first(alloc, provider, consumer_node, found, out) {
        Ok(goes_on) => Ok(Some(goes_on)),
        Err(cause) => Err(cause),
    }
}

/// Takes the first message of the link, of which this was decoded. False where the search is to be
/// given up.
fn take_first(
    alloc: Global,
    provider: &ScriptProvider,
    consumer_node: &mut ConsumerNode,
    found: Option<Message>,
    out: &mut Report,
) -> Result<bool, Cause>
    ensures does { IsReceivedSoFar
        (agreement_of provider.now
        (record consumer_node.old { link = drop 1 consumer_node.old.link }) out.old.lineage)
        (decoding.received_next consumer_node.old.consumer.copy (option_map message_value found))
        out.old (agreement_of provider.now consumer_node.new out.old.lineage) out.new result }
    ensures search { consumer_node.new.search ≡ consumer_node.old.search }
{
    match consumer_node.link.drop_first() {
        Ok(()) => take_found(alloc, provider, consumer_node, found, out),
        Err(_) => {
            discard(found);
            Err(Cause::NoMemory)
        }
    }
}

/// The message that the bytes begin with, if they begin with one.
fn decoded(alloc: Global, bytes: &[u8]) -> Result<Option<Message>, NoMemory>
    ensures { IfOk result (λ found. option_map message_value found ≡ decoding.decoded bytes.now) }
{
    match Message::read(alloc, bytes) {
        Ok(Some((message, _))) => Ok(Some(message)),
        Ok(None) => Ok(None),
        Err(MessageFault::NoMemory) => Err(AllocError),
        Err(_) => Ok(None),
    }
}

/// Takes a message that was decoded. False where there is none, or for another fault: then the
/// search is to be given up.
fn take_found(
    alloc: Global,
    provider: &ScriptProvider,
    consumer_node: &mut ConsumerNode,
    found: Option<Message>,
    out: &mut Report,
) -> Result<bool, Cause>
    ensures does { IsReceivedSoFar (agreement_of provider.now consumer_node.old out.old.lineage)
        (decoding.received_next consumer_node.old.consumer.copy (option_map message_value found))
        out.old (agreement_of provider.now consumer_node.new out.old.lineage) out.new result }
    ensures search { consumer_node.new.search ≡ consumer_node.old.search }
{
    match found {
        Some(message) => {
            let taken = take_message(alloc, provider, consumer_node, &message, out);
            discard(message);
            taken
        }
        None => {
            out.faulted(consumer_node.name.as_slice(), BAD_MESSAGE)?;
            Ok(false)
        }
    }
}

/// Takes a message, and reports what came of it. One that ends a refresh without a cookie is
/// refused.
#[tactic(auto, using(crate::proofs::Reception::no_such_end))]
fn take_message(
    alloc: Global,
    provider: &ScriptProvider,
    consumer_node: &mut ConsumerNode,
    message: &Message,
    out: &mut Report,
) -> Result<bool, Cause>
    ensures does { IsReceivedSoFar (agreement_of provider.now consumer_node.old out.old.lineage)
        (decoding.received_next consumer_node.old.consumer.copy (Some (message_value message.now)))
        out.old (agreement_of provider.now consumer_node.new out.old.lineage) out.new result }
    ensures search { consumer_node.new.search ≡ consumer_node.old.search }
{
    if ends_without_cookie(alloc, message)? {
        out.faulted(consumer_node.name.as_slice(), OUT_OF_PLACE)?;
        return Ok(false);
    }
    hand_to_consumer(provider, consumer_node, message, out)
}

/// Has the consumer take a message, and reports what came of it. False for a fault.
#[tactic(auto, using(crate::proofs::Reception::receives_staged))]
fn hand_to_consumer(
    provider: &ScriptProvider,
    consumer_node: &mut ConsumerNode,
    message: &Message,
    out: &mut Report,
) -> Result<bool, Cause>
    ensures does { IsReceivedSoFar (agreement_of provider.now consumer_node.old out.old.lineage)
        (decoding.received_of consumer_node.old.consumer.copy (Some (message_value message.now)))
        out.old (agreement_of provider.now consumer_node.new out.old.lineage) out.new result }
    ensures search { consumer_node.new.search ≡ consumer_node.old.search }
{
    match consumer_node.consumer.take(message) {
        Taken::Staged => {
            out.taken(consumer_node.name.as_slice())?;
            Ok(true)
        }
        Taken::Copied(_) => {
            out.taken(consumer_node.name.as_slice())?;
            Ok(true)
        }
        Taken::Stored(commit) => {
            report_stored(provider, consumer_node, commit, out)?;
            Ok(true)
        }
        Taken::Over(code) => {
            out.ended(consumer_node.name.as_slice(), code)?;
            Ok(true)
        }
        Taken::Fault(fault) => {
            out.faulted(consumer_node.name.as_slice(), fault_name(fault))?;
            Ok(false)
        }
        Taken::NoMemory => Err(Cause::NoMemory),
    }
}

/// Reports what a consumer holds now that a stage took effect, with the prefix of its provider's
/// writes that its cookie names.
fn report_stored(
    provider: &ScriptProvider,
    consumer_node: &mut ConsumerNode,
    commit: Commit,
    out: &mut Report,
) -> Result<(), NoMemory>
    requires { AreFit commit.puts }
    ensures line { OnOk result (out.new ≡ said out.old
        (spec.stored_reported (agreement_of provider.now consumer_node.old out.old.lineage)
        consumer_node.old.consumer.copy (commit_reported commit) ∷ [])) }
    ensures same { consumer_node.new ≡ consumer_node.old }
{
    let consumer = consumer_node.consumer.inner();
    let number = stored_number(provider, consumer.cookie());
    let origin = out.origin(provider.kind(), consumer.spec(), number)?;
    let name = consumer_node.name.as_slice();
    out.stored(name, &mut consumer_node.consumer, number, origin, commit)
}
