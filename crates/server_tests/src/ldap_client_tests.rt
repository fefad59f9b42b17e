//! Messages over links in memory: what is given of the bytes that come, and what is written. The
//! bytes were encoded by hand, after RFC 4511 and ITU-T X.690.

ghost use Rattle.ldap_messages.specs.Whole.{HasSpelling, message_value};

use crate::assertions::assert_same;
use ldap_ber::{NoMemory, Octets, discard};
use ldap_client::{Client, ClientFault};
use ldap_messages::{ControlList, Message, Protocol};
use std::alloc::Global;
use std::process::Abort;
use std::sync::Wait;
use sync_io::{LinkPlan, MemoryLink, Step};

/// The end of a search with noSuchObject and the message ID 1, and one with success and 2.
const MISSING: &[u8] = b"\x30\x0c\x02\x01\x01\x65\x07\x0a\x01\x20\x04\x00\x04\x00";

const SUCCESS: &[u8] = b"\x30\x0c\x02\x01\x02\x65\x07\x0a\x01\x00\x04\x00\x04\x00";

/// An unbind with the message ID 2.
const UNBIND: &[u8] = b"\x30\x05\x02\x01\x02\x42\x00";

/// What a read of a link gives.
#[derive(Clone, Copy)]
enum Part {
    Give(&'static [u8]),
    Quiet,
    Fail,
}

/// What reads give, the message IDs of the messages that are given, and the fault after them.
type LinkRow = (&'static str, &'static [Part], &'static [u32], ClientFault);

const LINKS: [LinkRow; 8] = [
    ("nothing", &[], &[], ClientFault::EndOfInput),
    (
        "two messages in one piece",
        &[Part::Give(
            b"\x30\x0c\x02\x01\x01\x65\x07\x0a\x01\x20\x04\x00\x04\x00\
              \x30\x0c\x02\x01\x02\x65\x07\x0a\x01\x00\x04\x00\x04\x00",
        )],
        &[1, 2],
        ClientFault::EndOfInput,
    ),
    (
        "two messages in four pieces, with quiets",
        &[
            Part::Quiet,
            Part::Give(b"\x30"),
            Part::Give(b"\x0c\x02\x01\x01\x65\x07\x0a\x01\x20\x04\x00"),
            Part::Quiet,
            Part::Give(b"\x04\x00\x30\x0c\x02\x01"),
            Part::Give(b"\x02\x65\x07\x0a\x01\x00\x04\x00\x04\x00"),
        ],
        &[1, 2],
        ClientFault::EndOfInput,
    ),
    (
        "a message and a part of another one",
        &[Part::Give(MISSING), Part::Give(b"\x30\x0c\x02\x01")],
        &[1],
        ClientFault::EndOfInput,
    ),
    (
        "an indefinite length after a message",
        &[Part::Give(MISSING), Part::Give(b"\x30\x80")],
        &[1],
        ClientFault::PeerMessage(1),
    ),
    (
        "a tag that begins no message",
        &[Part::Give(b"\x31\x03\x02\x01\x01"), Part::Give(MISSING)],
        &[],
        ClientFault::PeerMessage(0),
    ),
    (
        "a message that is announced too long",
        &[Part::Give(b"\x30\x84\x00\x40\x00\x01\x00")],
        &[],
        ClientFault::PeerMessage(0),
    ),
    (
        "a read that fails after a message",
        &[Part::Give(SUCCESS), Part::Fail, Part::Give(MISSING)],
        &[2],
        ClientFault::ReadFault,
    ),
];

fn step_of(alloc: Global, part: Part) -> Result<Step, NoMemory> {
    match part {
        Part::Give(bytes) => Ok(Step::Give(Octets::from_slice(alloc, bytes)?)),
        Part::Quiet => Ok(Step::Quiet),
        Part::Fail => Ok(Step::Fail),
    }
}

fn steps_of(alloc: Global, parts: &[Part]) -> Result<Vec<Step>, NoMemory> {
    let mut steps = Vec::new(alloc);
    for part in parts {
        steps.push(step_of(alloc, *part)?)?;
    }
    Ok(steps)
}

/// A client of a link whose reads give these parts, and whose writes with these numbers fail.
fn client_of(
    rt: &impl Abort,
    alloc: Global,
    parts: &[Part],
    failing: &[u64],
) -> Client<MemoryLink> {
    let plan = LinkPlan {
        steps: steps_of(alloc, parts).expect(rt, "steps"),
        failing: failing.to_vec(alloc).expect(rt, "writes that fail"),
    };
    match Client::new(alloc, MemoryLink::new(alloc, plan)) {
        Ok(client) => client,
        Err(_) => panic!(rt; "no client"),
    }
}

/// The message ID of the next message, or the fault in its place.
fn next_id(rt: &impl Wait, client: &mut Client<MemoryLink>) -> Result<u32, ClientFault> {
    match client.next(rt) {
        Ok(message) => {
            let id = message.id;
            discard(message);
            Ok(id)
        }
        Err(fault) => Err(fault),
    }
}

/// Asserts that these messages are given, and then the fault, each time again.
fn assert_given<R: Wait + Abort>(
    rt: &R,
    name: &str,
    client: &mut Client<MemoryLink>,
    ids: &[u32],
    fault: ClientFault,
) {
    for id in ids {
        assert_same(rt, name, &next_id(rt, client), &Ok(*id));
    }
    assert_same(rt, name, &next_id(rt, client), &Err(fault));
    assert_same(rt, name, &next_id(rt, client), &Err(fault));
}

fn check_link<R: Wait + Abort>(rt: &R, alloc: Global, row: &LinkRow) {
    let (name, parts, ids, fault) = *row;
    let mut client = client_of(rt, alloc, parts, &[]);
    assert_given(rt, name, &mut client, ids, fault);
    discard(client);
}

#[test]
fn messages_are_given_in_order(rt: HostRuntime) {
    for row in &LINKS {
        check_link(&rt, rt.alloc(), row);
    }
}

#[tactic(auto, unfolding(ldap_messages::specs::Operation::operation_of))]
fn unbind(alloc: Global) -> Message
    ensures { HasSpelling (message_value result) }
{
    Message {
        id: 2,
        op: Protocol::UnbindRequest,
        controls: ControlList::new(alloc),
    }
}

/// Asks the unbind.
fn ask(alloc: Global, client: &mut Client<MemoryLink>) -> Result<(), ClientFault> {
    let request = unbind(alloc);
    let asked = client.ask(&request);
    discard(request);
    asked
}

/// Asserts that this was written on the client's link, and this was read of it.
fn assert_link(rt: &impl Abort, client: Client<MemoryLink>, written: &[u8], read: &[u8]) {
    let link = client.into_link();
    assert_same(rt, "written", &link.bytes_held(), &written);
    assert_same(rt, "read", &link.bytes_read(), &read);
    discard(link);
}

/// What is asked is written, and leaves what is read; after a fault nothing is written.
#[test]
fn messages_are_written(rt: HostRuntime) {
    let alloc = rt.alloc();
    let mut client = client_of(&rt, alloc, &[Part::Give(MISSING)], &[]);
    assert_same(&rt, "a request", &ask(alloc, &mut client), &Ok(()));
    let end = ClientFault::EndOfInput;
    assert_given(&rt, "a request", &mut client, &[1], end);
    assert_same(&rt, "after it", &ask(alloc, &mut client), &Err(end));
    assert_link(&rt, client, UNBIND, MISSING);
}

/// A write that fails is answered from then on, and nothing is read.
#[test]
fn a_failed_write_is_answered_again(rt: HostRuntime) {
    let alloc = rt.alloc();
    let mut client = client_of(&rt, alloc, &[Part::Give(MISSING)], &[1]);
    let fault = ClientFault::WriteFault;
    assert_same(&rt, "a write", &ask(alloc, &mut client), &Err(fault));
    assert_same(&rt, "again", &ask(alloc, &mut client), &Err(fault));
    assert_given(&rt, "a write", &mut client, &[], fault);
    assert_link(&rt, client, b"", b"");
}
