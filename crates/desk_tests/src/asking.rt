//! What a port is asked, in words. Where memory runs out, and where a call is answered as no test
//! wants it, there is no answer.
ghost use Rattle.std.specs.Prelude.{◌≡◌};

use crate::tasks::FollowedSearch;
use dn_names::Dn;
use entry_tree::{Scope, Spec, read_op};
use ldap_ber::{Octets, OctetsList, discard};
use ldap_filter::Filter;
use schema_rules::{Change, RawAttribute, RawList};
use std::alloc::Global;
use sync_consumer::{Consumer, Taken};
use sync_messages::Mode;
use sync_provider::{
    Accepted, HandOutStop, Handed, PlainSearch, Port, Reply, SearchReply, SyncSearch,
};

/// Adds `dc=x` where the name is empty, else a unit below it.
pub(crate) fn add<P: Port>(alloc: Global, port: &mut P, unit: &str) -> Option<Reply>
    ensures { P.home port.new ≡ P.home port.old }
{
    let change = addition(alloc, unit)?;
    let op = read_op(alloc, &change);
    discard(change);
    match op {
        Ok(op) => Some(port.write(op, 0)),
        Err(_) => None,
    }
}

fn addition(alloc: Global, unit: &str) -> Option<Change> {
    let name = name_of(alloc, unit)?;
    let attributes = attributes_of(alloc, unit)?;
    added(alloc, &name, &attributes)
}

/// The name of the entry that `add` adds.
pub(crate) fn name_of(alloc: Global, unit: &str) -> Option<String> {
    if unit.is_empty() {
        return "dc=x".to_string(alloc).ok();
    }
    joined(alloc, "ou=", unit, ",dc=x")
}

/// Its attributes.
pub(crate) fn attributes_of(alloc: Global, unit: &str) -> Option<String> {
    if unit.is_empty() {
        return "objectClass=organization,dcObject o=X dc=x"
            .to_string(alloc)
            .ok();
    }
    joined(alloc, "objectClass=organizationalUnit ou=", unit, "")
}

/// These texts, one after another.
pub(crate) fn joined(alloc: Global, first: &str, second: &str, third: &str) -> Option<String> {
    let mut text = first.to_string(alloc).ok()?;
    text.push_str(second).ok()?;
    text.push_str(third).ok()?;
    Some(text)
}

fn added(alloc: Global, name: &str, attributes: &str) -> Option<Change> {
    let list = attribute_list(alloc, attributes)?;
    Some(Change::Add(octets(alloc, name)?, list))
}

fn attribute_list(alloc: Global, attributes: &str) -> Option<RawList> {
    let mut list = RawList::new(alloc);
    for word in attributes.split(' ') {
        list.push(attribute(alloc, word)?).ok()?;
    }
    Some(list)
}

/// `type=value,value`.
fn attribute(alloc: Global, text: &str) -> Option<RawAttribute> {
    let (name, values) = text.split_once('=').unwrap_or((text, ""));
    let values = value_list(alloc, values)?;
    Some(RawAttribute {
        name: octets(alloc, name)?,
        values,
    })
}

fn value_list(alloc: Global, values: &str) -> Option<OctetsList> {
    let mut list = OctetsList::new(alloc);
    for value in values.split(',') {
        list.push(octets(alloc, value)?).ok()?;
    }
    Some(list)
}

fn octets(alloc: Global, text: &str) -> Option<Octets> {
    Octets::from_slice(alloc, text.as_bytes()).ok()
}

/// How many entries a plain search of `dc=x` finds.
pub(crate) fn count<P: Port>(alloc: Global, port: &mut P, scope: Scope) -> Option<usize>
    ensures { P.home port.new ≡ P.home port.old }
{
    let ask = PlainSearch {
        spec: spec(alloc, scope)?,
        size_limit: 0,
    };
    let reply = port.search(&ask);
    discard(ask);
    let count = match &reply {
        SearchReply::Found(found) => Some(found.list().len()),
        SearchReply::Over(_) | SearchReply::NoSuchBase | SearchReply::NoMemory => None,
    };
    discard(reply);
    count
}

fn spec(alloc: Global, scope: Scope) -> Option<Spec> {
    Some(Spec {
        base: Dn::parse(alloc, b"dc=x").ok()?,
        scope,
        filter: Filter::read_text(alloc, b"(objectClass=*)").ok()?,
    })
}

/// The message ID of the searches that are followed.
const SEARCH_ID: u32 = 7;

/// Opens a search that goes on after its refresh (refreshAndPersist), without a cookie.
pub(crate) fn follow<P: Port>(alloc: Global, port: &mut P) -> Option<Accepted>
    ensures { P.home port.new ≡ P.home port.old }
{
    let control = octets(alloc, "\x30\x03\x0a\x01\x03")?;
    Some(port.accept(SyncSearch {
        id: SEARCH_ID,
        spec: spec(alloc, Scope::Sub)?,
        control,
    }))
}

/// A consumer that has asked for that search.
pub(crate) fn asked(alloc: Global) -> Option<Consumer> {
    let mut consumer = Consumer::new(alloc, spec(alloc, Scope::Sub)?, false).ok()?;
    match consumer.request(SEARCH_ID, Mode::RefreshAndPersist) {
        Ok(request) => {
            discard(request);
            Some(consumer)
        }
        Err(_) => {
            discard(consumer);
            None
        }
    }
}

/// `m` for a message, `e` for an end, `-` for nothing, `?` for no such search.
pub(crate) fn next<P: Port>(port: &mut P, search: u64) -> Option<char>
    ensures { P.home port.new ≡ P.home port.old }
{
    let handed = port.hand_out(search);
    let letter = letter_of(&handed);
    discard(handed);
    letter
}

fn letter_of(handed: &Handed) -> Option<char> {
    match handed {
        Handed::Message(_) => Some('m'),
        Handed::Ended(_, _) => Some('e'),
        Handed::Nothing => Some('-'),
        Handed::NoSuchSearch => Some('?'),
        Handed::NoMemory => None,
    }
}

/// The same of a search that is followed. Its consumer takes the message, and there is no answer
/// where it does not go on after that.
pub(crate) fn take_next<P: Port>(port: &mut P, search: &mut FollowedSearch) -> Option<char>
    ensures { P.home port.new ≡ P.home port.old }
{
    let handed = port.hand_out(search.number);
    let runs = match &handed {
        Handed::Message(message) => goes_on(search.consumer.take(message)),
        _ => true,
    };
    let letter = letter_of(&handed);
    discard(handed);
    if runs { letter } else { None }
}

fn goes_on(taken: Taken) -> bool {
    let runs = match &taken {
        Taken::Staged | Taken::Stored(_) | Taken::Copied(_) => true,
        Taken::Over(_) | Taken::Fault(_) | Taken::NoMemory => false,
    };
    discard(taken);
    runs
}

/// How many messages come together, four at most, and why there are no more: `+` where there may
/// be, else as `next` has it.
pub(crate) fn several<P: Port>(alloc: Global, port: &mut P, search: u64) -> Option<(usize, char)>
    ensures { P.home port.new ≡ P.home port.old }
{
    let room = Vec::with_capacity(alloc, 4).ok()?;
    let given = port.hand_out_several(search, 4, room);
    let count = given.messages.len();
    let letter = match &given.stop {
        HandOutStop::Enough => Some('+'),
        HandOutStop::Ended(_, _) => Some('e'),
        HandOutStop::Nothing => Some('-'),
        HandOutStop::NoSuchSearch => Some('?'),
        HandOutStop::NoMemory => None,
    };
    discard(given);
    Some((count, letter?))
}
