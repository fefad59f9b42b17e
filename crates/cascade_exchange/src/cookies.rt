//! Cookies that a script takes from a consumer, or gives to it.
ghost use Rattle.std.specs.Prelude.{◌≡◌, Some, None, option_map, IfOk, OnErr};
ghost use Rattle.csn_cookie.specs.Cookie.{cookie_of_text};
ghost use Rattle.cascade_exchange.specs.Cookies as spec;
ghost use Rattle.cascade_exchange.specs.Exchange.{with_text};
ghost use Rattle.cascade_exchange.specs.Parts.{SetsCookie};

use cascade_nodes::ConsumerNode;
use cascade_script::Cause;
use csn_cookie::Cookie;
use ldap_ber::{NoMemory, Octets};
use std::alloc::Global;

/// The most nodes of a script, of which each has the history of its number.
pub const MOST_NODES: usize = 16;

/// The consumer loses its cookie.
pub fn lose_cookie(consumer_node: &mut ConsumerNode)
    ensures { consumer_node.new ≡ with_text consumer_node.old None }
{
    consumer_node.consumer.lose_cookie();
}

/// The consumer gets this text for its cookie, unless the text is later than what it holds. After a
/// refusal it is as before.
pub fn set_cookie(
    alloc: Global,
    consumer_node: &mut ConsumerNode,
    text: Octets,
) -> Result<(), Cause>
    ensures gives { SetsCookie consumer_node.old text consumer_node.new result }
    ensures err { OnErr result (consumer_node.new ≡ consumer_node.old) }
{
    if is_later(consumer_node.consumer.inner().cookie(), text.as_slice()) {
        let held = copy_of(alloc, consumer_node.consumer.inner().cookie())?;
        return Err(Cause::LaterCookie(held, text));
    }
    consumer_node.consumer.set_cookie(text.as_slice())?;
    Ok(())
}

/// Whether the text that is given spells a cookie of a node's history which is later than what is
/// held.
fn is_later(held: Option<&[u8]>, given: &[u8]) -> bool
    ensures { result ≡ spec.is_later (option_map (λ text. text.now) held.entry) given.now }
{
    match parsed(given) {
        Some(given) => is_of_node(&given) && !is_not_before(&given, held),
        None => false,
    }
}

/// The cookie that the text spells.
fn parsed(text: &[u8]) -> Option<Cookie>
    ensures { result ≡ cookie_of_text text.now }
{
    Cookie::parse(text).ok()
}

/// Whether the cookie is of the history of a node.
fn is_of_node(cookie: &Cookie) -> bool
    ensures { result ≡ spec.is_of_node cookie.now }
{
    1 <= cookie.history && cookie.history <= MOST_NODES as u128
}

/// Whether what is held is a cookie of the same history whose CSN is not less.
fn is_not_before(given: &Cookie, held: Option<&[u8]>) -> bool
    ensures { result
        ≡ spec.is_not_before given.now
        (spec.held_cookie (option_map (λ text. text.now) held.entry)) }
{
    let Some(text) = held else {
        return false;
    };
    match parsed(text) {
        Some(held) => held.history == given.history && !(held.csn < given.csn),
        None => false,
    }
}

/// A copy of the text, where there is one.
fn copy_of(alloc: Global, text: Option<&[u8]>) -> Result<Option<Octets>, NoMemory>
    ensures { IfOk result (λ copy. copy ≡ option_map (λ text. text.now) text.entry) }
{
    match text {
        Some(text) => Ok(Some(Octets::from_slice(alloc, text)?)),
        None => Ok(None),
    }
}
