//! Searches that a consumer opens at its provider.
ghost use Rattle.std.specs.Prelude.{◌≡◌, true, Some, None, Ok, IfOk, OnOk, OnErr};
ghost use Rattle.ldap_messages.specs.Whole.{message_value};
ghost use Rattle.sync_consumer.specs.Taking.{asked_of};
ghost use Rattle.sync_messages.specs.Request.{request_of};
ghost use Rattle.sync_wire.specs.Requesting.{persists};
ghost use Rattle.cascade_exchange.specs.Exchange as spec;
ghost use Rattle.cascade_exchange.specs.Reception as decoding;
ghost use Rattle.cascade_exchange.specs.Exchange.{agreement_of};
ghost use Rattle.cascade_exchange.specs.Parts.{AreAsBefore, Does, KeepsOthers, Opens, Refuses};
ghost use Rattle.cascade_exchange.specs.Parts.{first_value};

use crate::cutting::{cut, is_busy};
use cascade_nodes::{ConsumerNode, MESSAGE_ID, ScriptProvider, copy_wanted};
use cascade_report::{DigestedConsumer, Report};
use cascade_script::Cause;
use ldap_ber::{NoMemory, Octets, discard};
use ldap_constants::E_SYNC_REFRESH_REQUIRED;
use ldap_messages::Message;
use std::alloc::{AllocError, Global};
use sync_consumer::Taken;
use sync_messages::Mode;
use sync_provider::{Accepted, done_message};

/// Opens a search that ends with its refresh, or goes on after it; a busy consumer is cut first. It
/// is `LimitReached` where the link would hold more than 67,108,864 bytes, or `NoMemory`.
#[tactic(auto, using(crate::proofs::Doing::refused_first))]
pub fn open_search(
    alloc: Global,
    provider: &mut ScriptProvider,
    consumer_node: &mut ConsumerNode,
    mode: Mode,
    out: &mut Report,
) -> Result<(), Cause>
    ensures does { Does
        (spec.opens mode (agreement_of provider.old consumer_node.old out.old.lineage))
        out.old (agreement_of provider.new consumer_node.new out.old.lineage) out.new result }
    ensures provider { KeepsOthers provider.old consumer_node.old provider.new consumer_node.new }
{
    cut_if_busy(provider, consumer_node, out)?;
    ask_once(alloc, provider, consumer_node, mode, out)
}

/// Opens a search that ends with its refresh, and asks for it a second time where the cookie does
/// not serve. It is `LimitReached` where the link would hold more than 67,108,864 bytes, or
/// `NoMemory`.
#[tactic(auto, using(crate::proofs::Doing::refused_first))]
pub fn open_anew(
    alloc: Global,
    provider: &mut ScriptProvider,
    consumer_node: &mut ConsumerNode,
    out: &mut Report,
) -> Result<(), Cause>
    ensures does { Does
        (spec.opens_anew (agreement_of provider.old consumer_node.old out.old.lineage))
        out.old (agreement_of provider.new consumer_node.new out.old.lineage) out.new result }
    ensures provider { KeepsOthers provider.old consumer_node.old provider.new consumer_node.new }
{
    cut_if_busy(provider, consumer_node, out)?;
    ask_again(alloc, provider, consumer_node, out)
}

/// Opens the search of a consumer that is not busy.
#[tactic(auto, using(crate::proofs::Openings::asked_refused))]
fn ask_once(
    alloc: Global,
    provider: &mut ScriptProvider,
    consumer_node: &mut ConsumerNode,
    mode: Mode,
    out: &mut Report,
) -> Result<(), Cause>
    requires idle { consumer_node.old.search ≡ None }
    ensures does { Does
        (spec.opened_idle mode (agreement_of provider.old consumer_node.old out.old.lineage))
        out.old (agreement_of provider.new consumer_node.new out.old.lineage) out.new result }
    ensures provider { KeepsOthers provider.old consumer_node.old provider.new consumer_node.new }
{
    open_idle(alloc, provider, consumer_node, mode, out)?;
    Ok(())
}

/// Opens it, and asks a second time where the cookie does not serve.
#[tactic(auto, using(crate::proofs::Openings::again_refused))]
fn ask_again(
    alloc: Global,
    provider: &mut ScriptProvider,
    consumer_node: &mut ConsumerNode,
    out: &mut Report,
) -> Result<(), Cause>
    requires idle { consumer_node.old.search ≡ None }
    ensures does { Does
        (spec.asked_again (agreement_of provider.old consumer_node.old out.old.lineage))
        out.old (agreement_of provider.new consumer_node.new out.old.lineage) out.new result }
    ensures provider { KeepsOthers provider.old consumer_node.old provider.new consumer_node.new }
{
    if open_idle(alloc, provider, consumer_node, Mode::RefreshOnly, out)? {
        return ask_once(alloc, provider, consumer_node, Mode::RefreshOnly, out);
    }
    Ok(())
}

/// Cuts a consumer that is busy. After a refusal both are as before.
#[tactic(auto, using(crate::proofs::Openings::idle_cut, crate::proofs::Cuts::idle_free))]
pub fn cut_if_busy(
    provider: &mut ScriptProvider,
    consumer_node: &mut ConsumerNode,
    out: &mut Report,
) -> Result<(), Cause>
    ensures does { Does (spec.idle (agreement_of provider.old consumer_node.old out.old.lineage))
        out.old (agreement_of provider.new consumer_node.new out.old.lineage) out.new result }
    ensures provider { KeepsOthers provider.old consumer_node.old provider.new consumer_node.new }
    ensures idle { OnOk result (consumer_node.new.search ≡ None) }
    ensures err { OnErr result
        (AreAsBefore provider.old consumer_node.old provider.new consumer_node.new) }
{
    if is_busy(consumer_node) {
        return cut(provider, consumer_node, out);
    }
    Ok(())
}

/// Opens the search of a consumer that is not busy, with the cookie that it holds. True where that
/// does not serve, and then none is open.
fn open_idle(
    alloc: Global,
    provider: &mut ScriptProvider,
    consumer_node: &mut ConsumerNode,
    mode: Mode,
    out: &mut Report,
) -> Result<bool, Cause>
    requires idle { consumer_node.old.search ≡ None }
    ensures does { Opens mode (agreement_of provider.old consumer_node.old out.old.lineage)
        out.old (agreement_of provider.new consumer_node.new out.old.lineage) out.new result }
    ensures idle { IfOk result (λ again. again ≡ true → consumer_node.new.search ≡ None) }
    ensures provider { KeepsOthers provider.old consumer_node.old provider.new consumer_node.new }
{
    let control = asked(alloc, consumer_node, mode)?;
    let wanted = copy_wanted(consumer_node.consumer.inner().spec())?;
    match provider.accept(wanted, control) {
        Accepted::Opened(number, writes) => {
            consumer_node.search = Some(number);
            out.opened(consumer_node.name.as_slice(), writes)?;
            Ok(false)
        }
        Accepted::Refused(code) => refuse(alloc, consumer_node, code, out),
        Accepted::NoMemory => Err(Cause::NoMemory),
    }
}

/// Asks for a search, and answers the value of the request's control.
#[tactic(auto, using(crate::proofs::Openings::asked_value))]
fn asked(alloc: Global, consumer_node: &mut ConsumerNode, mode: Mode) -> Result<Octets, NoMemory>
    ensures value { IfOk result (λ value.
        request_of value ≡ Ok (asked_of consumer_node.old.consumer mode)) }
    ensures ok { OnOk result
        (consumer_node.new
        ≡ spec.with_copy consumer_node.old
        (spec.asking (persists mode) consumer_node.old.consumer.copy)) }
    ensures search { consumer_node.new.search ≡ consumer_node.old.search }
{
    let request = consumer_node.consumer.request(MESSAGE_ID, mode)?;
    let control = control_of(alloc, &request);
    discard(request);
    control
}

/// Reports that a search is refused, which its consumer takes at once. True where the cookie does
/// not serve.
fn refuse(
    alloc: Global,
    consumer_node: &mut ConsumerNode,
    code: u32,
    out: &mut Report,
) -> Result<bool, Cause>
    ensures refuses { Refuses consumer_node.old code out.old consumer_node.new out.new result }
    ensures search { consumer_node.new.search ≡ consumer_node.old.search }
{
    let done = done_message(alloc, MESSAGE_ID, code)?;
    let taken = take_refusal(&mut consumer_node.consumer, &done);
    discard(done);
    taken?;
    out.refused(consumer_node.name.as_slice(), code)?;
    Ok(code == E_SYNC_REFRESH_REQUIRED)
}

/// Takes a message, whatever comes of it.
fn take_refusal(consumer: &mut DigestedConsumer, message: &Message) -> Result<(), NoMemory>
    ensures { OnOk result
        (consumer.new
        ≡ record consumer.old {
          copy = (decoding.received_of consumer.old.copy (Some (message_value message.now))).0;
        }) }
{
    match consumer.take(message) {
        Taken::Staged => Ok(()),
        Taken::Stored(_) => Ok(()),
        Taken::Copied(_) => Ok(()),
        Taken::Over(_) => Ok(()),
        Taken::Fault(_) => Ok(()),
        Taken::NoMemory => Err(AllocError),
    }
}

/// The value of the first control of a request.
fn control_of(alloc: Global, request: &Message) -> Result<Octets, NoMemory>
    ensures { IfOk result (λ value. value ≡ first_value request.now.controls) }
{
    match request.controls.list() {
        [control, ..] => match &control.value {
            Some(value) => value.copy(),
            None => Octets::from_slice(alloc, b""),
        },
        [] => Octets::from_slice(alloc, b""),
    }
}
