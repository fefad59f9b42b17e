//! What a session answers. The bytes are by hand from the rules of RFC 4511, sections 4 and 5.1, of
//! RFC 3909, section 2, and of RFC 4533, section 2.2; the codes are those of RFC 4511, appendix
//! A.2, and of RFC 3909, section 3.

use crate::assertions::assert_same;
use dn_names::Dn;
use ldap_ber::{Octets, discard};
use ldap_server::{Access, Connection, Ended, Out};
use std::alloc::Global;
use std::process::Abort;
use sync_provider::{Kind, Provider};

/// A search for `dc=x` with a critical ManageDsaIT, all lengths in five octets.
const LONG_SEARCH: &[u8] =
    b"\x30\x84\x00\x00\x00\x81\x02\x84\x00\x00\x00\x01\x02\x63\x84\x00\x00\x00\x44\x04\x84\x00\x00\x00\x04dc=x\x0a\x84\x00\x00\x00\x01\x02\x0a\x84\x00\x00\x00\x01\x00\x02\x84\x00\x00\x00\x01\x00\x02\x84\x00\x00\x00\x01\x00\x01\x84\x00\x00\x00\x01\x00\x87\x84\x00\x00\x00\x0bobjectClass\x30\x84\x00\x00\x00\x00\xa0\x84\x00\x00\x00\x2a\x30\x84\x00\x00\x00\x24\x04\x84\x00\x00\x00\x172.16.840.1.113730.3.4.2\x01\x84\x00\x00\x00\x01\xff";

/// The Notice of Disconnection with protocolError.
const NOTICE: &[u8] =
    b"\x30\x24\x02\x01\x00\x78\x1f\x0a\x01\x02\x04\x00\x04\x00\x8a\x161.3.6.1.4.1.1466.20036";

/// An anonymous bind, and its answer.
pub(crate) const BIND: &[u8] = b"\x30\x0c\x02\x01\x01\x60\x07\x02\x01\x03\x04\x00\x80\x00";

pub(crate) const BOUND: &[u8] = b"\x30\x0c\x02\x01\x01\x61\x07\x0a\x01\x00\x04\x00\x04\x00";

pub(crate) const UNBIND: &[u8] = b"\x30\x05\x02\x01\x02\x42\x00";

/// A bind, an unbind and a bind.
const BIND_UNBIND_BIND: &[u8] =
    b"\x30\x0c\x02\x01\x01\x60\x07\x02\x01\x03\x04\x00\x80\x00\x30\x05\x02\x01\x02\x42\x00\x30\x0c\x02\x01\x01\x60\x07\x02\x01\x03\x04\x00\x80\x00";

/// The add of `dc=x`, and its answer.
pub(crate) const ADD: &[u8] =
    b"\x30\x4b\x02\x01\x01\x68\x46\x04\x04dc=x\x30\x3e\x30\x27\x04\x0bobjectClass\x31\x18\x04\x0corganization\x04\x08dcObject\x30\x08\x04\x01o\x31\x03\x04\x01X\x30\x09\x04\x02dc\x31\x03\x04\x01x";

pub(crate) const ADDED: &[u8] = b"\x30\x0c\x02\x01\x01\x69\x07\x0a\x01\x00\x04\x00\x04\x00";

/// A search of `dc=x` alone for its user attributes, its entry and its end.
pub(crate) const SEARCH: &[u8] =
    b"\x30\x29\x02\x01\x02\x63\x24\x04\x04dc=x\x0a\x01\x00\x0a\x01\x00\x02\x01\x00\x02\x01\x00\x01\x01\x00\x87\x0bobjectClass\x30\x00";

pub(crate) const FOUND: &[u8] =
    b"\x30\x4b\x02\x01\x02\x64\x46\x04\x04dc=x\x30\x3e\x30\x27\x04\x0bobjectClass\x31\x18\x04\x0corganization\x04\x08dcObject\x30\x08\x04\x01o\x31\x03\x04\x01X\x30\x09\x04\x02dc\x31\x03\x04\x01x\x30\x0c\x02\x01\x02\x65\x07\x0a\x01\x00\x04\x00\x04\x00";

/// The same for types alone.
const SEARCH_TYPES: &[u8] =
    b"\x30\x29\x02\x01\x02\x63\x24\x04\x04dc=x\x0a\x01\x00\x0a\x01\x00\x02\x01\x00\x02\x01\x00\x01\x01\xff\x87\x0bobjectClass\x30\x00";

const FOUND_TYPES: &[u8] =
    b"\x30\x2d\x02\x01\x02\x64\x28\x04\x04dc=x\x30\x20\x30\x0f\x04\x0bobjectClass\x31\x00\x30\x05\x04\x01o\x31\x00\x30\x06\x04\x02dc\x31\x00\x30\x0c\x02\x01\x02\x65\x07\x0a\x01\x00\x04\x00\x04\x00";

/// The same for `1.1`, which is no attribute.
const SEARCH_NONE: &[u8] =
    b"\x30\x2e\x02\x01\x02\x63\x29\x04\x04dc=x\x0a\x01\x00\x0a\x01\x00\x02\x01\x00\x02\x01\x00\x01\x01\x00\x87\x0bobjectClass\x30\x05\x04\x031.1";

const FOUND_NONE: &[u8] =
    b"\x30\x0d\x02\x01\x02\x64\x08\x04\x04dc=x\x30\x00\x30\x0c\x02\x01\x02\x65\x07\x0a\x01\x00\x04\x00\x04\x00";

/// A search that persists, as message 6, of a directory without entries.
const FOLLOW: &[u8] =
    b"\x30\x4e\x02\x01\x06\x63\x24\x04\x04dc=x\x0a\x01\x00\x0a\x01\x00\x02\x01\x00\x02\x01\x00\x01\x01\x00\x87\x0bobjectClass\x30\x00\xa0\x23\x30\x21\x04\x181.3.6.1.4.1.4203.1.9.1.1\x04\x05\x30\x03\x0a\x01\x03";

/// A comparison as message 6, and its answer where a search has that ID, or no entry the name.
const COMPARE: &[u8] = b"\x30\x13\x02\x01\x06\x6e\x0e\x04\x04dc=x\x30\x06\x04\x01o\x04\x01X";

const ID_IN_USE: &[u8] = b"\x30\x0c\x02\x01\x06\x6f\x07\x0a\x01\x02\x04\x00\x04\x00";

const NOT_THERE: &[u8] = b"\x30\x0c\x02\x01\x06\x6f\x07\x0a\x01\x20\x04\x00\x04\x00";

/// An Abandon and a Cancel of message 6, and what a Cancel is answered.
const ABANDON: &[u8] = b"\x30\x06\x02\x01\x07\x50\x01\x06";

const CANCEL: &[u8] =
    b"\x30\x19\x02\x01\x03\x77\x14\x80\x0b1.3.6.1.1.8\x81\x05\x30\x03\x02\x01\x06";

const CANCELLED: &[u8] =
    b"\x30\x0c\x02\x01\x06\x65\x07\x0a\x01\x76\x04\x00\x04\x00\x30\x0c\x02\x01\x03\x78\x07\x0a\x01\x00\x04\x00\x04\x00";

const NO_SUCH_OPERATION: &[u8] = b"\x30\x0c\x02\x01\x03\x78\x07\x0a\x01\x77\x04\x00\x04\x00";

/// A bind as `cn=m` with the password `p`, and its answers.
const BIND_NAMED: &[u8] = b"\x30\x11\x02\x01\x05\x60\x0c\x02\x01\x03\x04\x04cn=m\x80\x01p";

const BOUND_NAMED: &[u8] = b"\x30\x0c\x02\x01\x05\x61\x07\x0a\x01\x00\x04\x00\x04\x00";

/// insufficientAccessRights for the add.
const DENIED: &[u8] = b"\x30\x0c\x02\x01\x01\x69\x07\x0a\x01\x32\x04\x00\x04\x00";

/// What comes to a session.
#[derive(Clone, Copy)]
enum Event {
    Bytes(&'static [u8]),
    Quiet,
    End,
}

/// What a session sends for an event.
#[derive(Clone, Copy)]
enum Sent {
    Exactly(&'static [u8]),
    /// These bytes, and more after them.
    More(&'static [u8]),
}

/// An event in words, what is sent for it, and how the session ended by then.
type Row = (&'static str, Event, Sent, Option<Ended>);

const NOTHING: Sent = Sent::Exactly(b"");

/// Sessions of whom all may write, by their events.
const SESSIONS: [&[Row]; 13] = [
    &[(
        "a search without entries",
        Event::Bytes(LONG_SEARCH),
        Sent::Exactly(b"\x30\x0c\x02\x01\x02\x65\x07\x0a\x01\x20\x04\x00\x04\x00"),
        None,
    )],
    &[(
        "an unbind",
        Event::Bytes(UNBIND),
        NOTHING,
        Some(Ended::Unbound),
    )],
    &[(
        "bytes that are no message",
        Event::Bytes(b"\x30\x80"),
        Sent::Exactly(NOTICE),
        Some(Ended::ProtocolFault(1)),
    )],
    &[(
        "a message that is too long",
        Event::Bytes(b"\x30\x84\x00\x40\x00\x01"),
        Sent::Exactly(NOTICE),
        Some(Ended::ProtocolFault(0)),
    )],
    &[(
        "what only a server sends",
        Event::Bytes(b"\x30\x0c\x02\x01\x01\x65\x07\x0a\x01\x00\x04\x00\x04\x00"),
        Sent::Exactly(NOTICE),
        Some(Ended::ProtocolFault(0)),
    )],
    &[(
        "an abandon of nothing",
        Event::Bytes(ABANDON),
        NOTHING,
        None,
    )],
    &[(
        "a cancel of nothing",
        Event::Bytes(CANCEL),
        Sent::Exactly(NO_SUCH_OPERATION),
        None,
    )],
    // Two messages in one piece are answered in their order, and nothing after an unbind.
    &[
        (
            "a bind, an unbind and a bind",
            Event::Bytes(BIND_UNBIND_BIND),
            Sent::Exactly(BOUND),
            Some(Ended::Unbound),
        ),
        (
            "a bind after them",
            Event::Bytes(BIND),
            NOTHING,
            Some(Ended::Unbound),
        ),
    ],
    // A message is answered with its last byte.
    &[
        ("a byte of a bind", Event::Bytes(b"\x30"), NOTHING, None),
        ("a quiet", Event::Quiet, NOTHING, None),
        (
            "all but its last byte",
            Event::Bytes(b"\x0c\x02\x01\x01\x60\x07\x02\x01\x03\x04\x00\x80"),
            NOTHING,
            None,
        ),
        (
            "its last byte",
            Event::Bytes(b"\x00"),
            Sent::Exactly(BOUND),
            None,
        ),
        ("the end", Event::End, NOTHING, Some(Ended::EndOfInput)),
        (
            "a quiet after it",
            Event::Quiet,
            NOTHING,
            Some(Ended::EndOfInput),
        ),
    ],
    // What an entry is sent with.
    &[
        ("an add", Event::Bytes(ADD), Sent::Exactly(ADDED), None),
        (
            "user attributes",
            Event::Bytes(SEARCH),
            Sent::Exactly(FOUND),
            None,
        ),
        (
            "types alone",
            Event::Bytes(SEARCH_TYPES),
            Sent::Exactly(FOUND_TYPES),
            None,
        ),
        (
            "no attribute",
            Event::Bytes(SEARCH_NONE),
            Sent::Exactly(FOUND_NONE),
            None,
        ),
    ],
    // The message ID of an open search is in use until it is abandoned or cancelled.
    &[
        ("a search", Event::Bytes(FOLLOW), Sent::More(b""), None),
        (
            "its ID",
            Event::Bytes(COMPARE),
            Sent::Exactly(ID_IN_USE),
            None,
        ),
        ("its abandon", Event::Bytes(ABANDON), NOTHING, None),
        (
            "its ID after that",
            Event::Bytes(COMPARE),
            Sent::Exactly(NOT_THERE),
            None,
        ),
        ("another", Event::Bytes(FOLLOW), Sent::More(b""), None),
        (
            "its cancel",
            Event::Bytes(CANCEL),
            Sent::Exactly(CANCELLED),
            None,
        ),
        (
            "the ID after that",
            Event::Bytes(COMPARE),
            Sent::Exactly(NOT_THERE),
            None,
        ),
    ],
    // A bind drops it.
    &[
        ("a search", Event::Bytes(FOLLOW), Sent::More(b""), None),
        ("a bind", Event::Bytes(BIND), Sent::Exactly(BOUND), None),
        (
            "its ID after that",
            Event::Bytes(COMPARE),
            Sent::Exactly(NOT_THERE),
            None,
        ),
    ],
    // What an open search has pending comes after the answers.
    &[
        ("a search", Event::Bytes(FOLLOW), Sent::More(b""), None),
        ("nothing pending", Event::Quiet, NOTHING, None),
        ("an add", Event::Bytes(ADD), Sent::More(ADDED), None),
        ("nothing more", Event::Quiet, NOTHING, None),
        ("the end", Event::End, NOTHING, Some(Ended::EndOfInput)),
    ],
];

/// A session of whom `cn=m` alone may write.
const NAMED: [Row; 5] = [
    (
        "an add before the bind",
        Event::Bytes(ADD),
        Sent::Exactly(DENIED),
        None,
    ),
    (
        "a bind as the name",
        Event::Bytes(BIND_NAMED),
        Sent::Exactly(BOUND_NAMED),
        None,
    ),
    ("an add", Event::Bytes(ADD), Sent::Exactly(ADDED), None),
    (
        "an anonymous bind",
        Event::Bytes(BIND),
        Sent::Exactly(BOUND),
        None,
    ),
    (
        "an add after it",
        Event::Bytes(ADD),
        Sent::Exactly(DENIED),
        None,
    ),
];

/// How many octets the value of a long request has.
const LONG_VALUE: u32 = 1_048_576;

/// What stands before that value: an extended operation `1.2`, as message 1.
const LONG_REQUEST: &[u8] = b"\x30\x84\x00\x10\x00\x14\x02\x01\x01\x77\x84\x00\x10\x00\x0b\
    \x80\x031.2\x81\x84\x00\x10\x00\x00";

/// Its answer: protocolError, since no such operation is known.
const UNKNOWN_OPERATION: &[u8] = b"\x30\x0c\x02\x01\x01\x78\x07\x0a\x01\x02\x04\x00\x04\x00";

/// A directory with the suffix `dc=x` and no entries.
pub(crate) fn provider(rt: &impl Abort, alloc: Global) -> Provider {
    let suffix = Dn::parse(alloc, b"dc=x").expect(rt, "a suffix");
    Provider::new(alloc, suffix, 1, 1, Kind::Root).expect(rt, "a directory")
}

/// A session over such a directory.
pub(crate) fn session(rt: &impl Abort, alloc: Global, access: Access) -> Connection<Provider> {
    match Connection::new(alloc, provider(rt, alloc), access) {
        Ok(connection) => connection,
        Err(_) => panic!(rt; "no session"),
    }
}

fn assert_sent(rt: &impl Abort, row: &str, bytes: &[u8], sent: Sent) {
    match sent {
        Sent::Exactly(wanted) => assert_same(rt, row, &bytes, &wanted),
        Sent::More(prefix) => {
            let has_more = prefix.len() < bytes.len() && bytes.starts_with(prefix);
            assert_same(rt, row, &has_more, &true);
        }
    }
}

fn assert_out(rt: &impl Abort, row: &str, out: Out, sent: Sent, ended: Option<Ended>) {
    let Out {
        bytes,
        ended: found,
    } = out;
    assert_sent(rt, row, bytes.as_slice(), sent);
    assert_same(rt, row, &found, &ended);
}

/// Asserts that these events lead a session to what is sent, and to how it ends.
fn assert_session(rt: &impl Abort, alloc: Global, access: Access, rows: &[Row]) {
    let mut session = session(rt, alloc, access);
    for row in rows {
        assert_row(rt, &mut session, row);
    }
    discard(session);
}

fn assert_row(rt: &impl Abort, session: &mut Connection<Provider>, row: &Row) {
    let (name, event, sent, ended) = *row;
    let out = match event {
        Event::Bytes(bytes) => session.on_bytes(bytes, 0),
        Event::Quiet => session.on_quiet(),
        Event::End => session.on_end(),
    };
    assert_out(rt, name, out, sent, ended);
}

#[test]
fn sessions(rt: HostRuntime) {
    for rows in &SESSIONS {
        assert_session(&rt, rt.alloc(), Access::Free, *rows);
    }
}

#[test]
fn a_session_of_the_configured_name(rt: HostRuntime) {
    let name = Dn::parse(rt.alloc(), b"cn=m").expect(&rt, "a name");
    let password = Octets::from_slice(rt.alloc(), b"p").expect(&rt, "a password");
    let access = Access::Named(name, password);
    assert_session(&rt, rt.alloc(), access, &NAMED);
}

/// The port of a session comes back with what was done through it.
#[test]
fn a_port_comes_back(rt: HostRuntime) {
    let mut session = session(&rt, rt.alloc(), Access::Free);
    discard(session.on_bytes(ADD, 0));
    let provider = session.into_port();
    let writes = provider.writes();
    discard(provider);
    assert!(rt; writes == 1);
}

/// A long message that comes an octet at a time is read once, when it is whole. If what has come
/// were read again at each octet, the test would not end in its time.
#[test]
fn a_long_message_by_octets(rt: HostRuntime) {
    let mut session = session(&rt, rt.alloc(), Access::Free);
    for octet in LONG_REQUEST {
        let out = session.on_bytes(&[*octet], 0);
        assert_out(&rt, "before the value", out, NOTHING, None);
    }
    for _ in 1..LONG_VALUE {
        let out = session.on_bytes(b"x", 0);
        assert_out(&rt, "in the value", out, NOTHING, None);
    }
    let out = session.on_bytes(b"x", 0);
    let answer = Sent::Exactly(UNKNOWN_OPERATION);
    assert_out(&rt, "the last octet", out, answer, None);
    discard(session);
}
