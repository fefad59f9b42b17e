//! Messages that a provider hands out into the link of a consumer.
ghost use Rattle.std.specs.Prelude.{◌≡◌, IfOk, IfSome};
ghost use Rattle.ldap_messages.specs.Whole.{HasSpelling, message_value, message_octets};
ghost use Rattle.cascade_exchange.specs.Exchange as spec;
ghost use Rattle.cascade_exchange.specs.Exchange.{agreement_of};
ghost use Rattle.cascade_report.specs.Origins.{Lineage};
ghost use Rattle.cascade_exchange.specs.Parts.{Does, HandsOut, KeepsOthers, Links, SendsOne};

use cascade_nodes::{ConsumerNode, ScriptProvider};
use cascade_report::Report;
use cascade_script::Cause;
use ldap_ber::discard;
use ldap_messages::Message;
use std::alloc::Global;
use sync_provider::Handed;

/// Hands out n messages into the link, up to where nothing is pending. It is `LimitReached` where
/// the link would hold more than 67,108,864 bytes, or `NoMemory`.
pub fn send(
    alloc: Global,
    provider: &mut ScriptProvider,
    consumer_node: &mut ConsumerNode,
    count: u64,
    out: &mut Report,
) -> Result<(), Cause>
    ensures does { Does
        (spec.sent count (agreement_of provider.old consumer_node.old out.old.lineage))
        out.old (agreement_of provider.new consumer_node.new out.old.lineage) out.new result }
    ensures provider { KeepsOthers provider.old consumer_node.old provider.new consumer_node.new }
{
    let mut left = count;
    while left > 0 {
        if !send_one(alloc, provider, consumer_node, out)? {
            out.nothing(consumer_node.name.as_slice())?;
            return Ok(());
        }
        left -= 1;
    }
    Ok(())
}

/// Hands out one message into the link. False where nothing is pending. It is `LimitReached` where
/// the link would hold more than 67,108,864 bytes, or `NoMemory`.
pub fn send_one(
    alloc: Global,
    provider: &mut ScriptProvider,
    consumer_node: &mut ConsumerNode,
    out: &mut Report,
) -> Result<bool, Cause>
    ensures does { SendsOne (agreement_of provider.old consumer_node.old out.old.lineage)
        (spec.sending (agreement_of provider.old consumer_node.old out.old.lineage))
        out.old (agreement_of provider.new consumer_node.new out.old.lineage) out.new result }
    ensures provider { KeepsOthers provider.old consumer_node.old provider.new consumer_node.new }
{
    let Some(message) = next_message(provider, consumer_node)? else {
        return Ok(false);
    };
    let linked = put_into_link(alloc, consumer_node, &message, out);
    discard(message);
    match linked {
        Ok(()) => Ok(true),
        Err(cause) => Err(cause),
    }
}

/// The next message of the search, which is closed with its last one.
fn next_message(
    provider: &mut ScriptProvider,
    consumer_node: &mut ConsumerNode,
) -> Result<Option<Message>, Cause>
    ensures exact { (lineage : Lineage)
        → HandsOut (agreement_of provider.old consumer_node.old lineage)
        (spec.turn_of provider.old consumer_node.old.search)
        (agreement_of provider.new consumer_node.new lineage) result }
    ensures spelled { IfOk result (λ found.
        IfSome found (λ message. HasSpelling (message_value message))) }
    ensures provider { KeepsOthers provider.old consumer_node.old provider.new consumer_node.new }
{
    let Some(number) = consumer_node.search else {
        return Ok(None);
    };
    match provider.hand_out(number) {
        Handed::Message(message) => Ok(Some(message)),
        Handed::Ended(_, message) => {
            consumer_node.search = None;
            Ok(Some(message))
        }
        Handed::Nothing => Ok(None),
        Handed::NoSuchSearch => Ok(None),
        Handed::NoMemory => Err(Cause::NoMemory),
    }
}

/// Puts the spelling of a message at the end of the link.
fn put_into_link(
    alloc: Global,
    consumer_node: &mut ConsumerNode,
    message: &Message,
    out: &mut Report,
) -> Result<(), Cause>
    requires { HasSpelling (message_value message.now) }
    ensures links { Links consumer_node.old (message_octets (message_value message.now))
        out.old consumer_node.new out.new result }
    ensures search { consumer_node.new.search ≡ consumer_node.old.search }
{
    let bytes = message.write(alloc)?;
    out.sent(consumer_node.name.as_slice(), bytes.as_slice())?;
    consumer_node.link.push(bytes)
}
