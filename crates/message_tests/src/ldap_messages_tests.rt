//! Messages both ways, and those that are refused. Five spellings were given before the code was
//! written: the end of a refresh, the Sync Info message, the deleted entry, the Notice of
//! Disconnection, and the search with each length in four octets. The other spellings that are
//! written are what the DER encoder of pyasn1 0.6.3 gives by the definitions of RFC 4511, appendix
//! B, of the values beside them; those that are refused were made of such spellings by hand.
ghost use Rattle.std.specs.Prelude.{IfOk};
ghost use Rattle.ldap_messages.specs.Whole.{message_value, HasSpelling};

use crate::assertions::{assert_same, assert_same_of};
use ldap_ber::{Octets, discard};
use ldap_messages::{
    Authentication, Control, ControlList, LdapResult, Message, MessageFault, Protocol, SearchScope,
};
use schema_rules::{Change, How, RawAttribute, RawEdit};
use std::alloc::Global;
use std::process::Abort;
use std::test::Fail;

// What these calls answer is compared when the tests run: the proofs of the tests know nothing of
// it. A message is dropped by `discard`, in the function that reads it and before that can return
// with a fault: so no proof goes through the cases of an operation at each of its ends.

/// The message of the whole of the bytes.
pub(crate) fn message_of(alloc: Global, bytes: &[u8]) -> Result<Message, MessageFault>
    ensures { IfOk result (λ message. HasSpelling (message_value message)) }
{
    match Message::read(alloc, bytes)? {
        Some((message, count)) => {
            if count == bytes.len() {
                Ok(message)
            } else {
                discard(message);
                Err(MessageFault::TooLong)
            }
        }
        None => Err(MessageFault::TooLong),
    }
}

/// What is written of the message of the whole of the bytes.
fn written_again(alloc: Global, bytes: &[u8]) -> Result<Octets, MessageFault> {
    let message = message_of(alloc, bytes)?;
    let written = message.write(alloc);
    discard(message);
    Ok(written?)
}

/// Whether the whole of the bytes is a message with this identifier, these parts of the operation
/// and no controls.
fn says(alloc: Global, bytes: &[u8], id: u32, parts: Expected) -> Result<bool, MessageFault> {
    let message = message_of(alloc, bytes)?;
    let says = message.id == id && has_parts(&message.op, parts) && has_no_controls(&message);
    discard(message);
    Ok(says)
}

fn has_no_controls(message: &Message) -> bool {
    message.controls.list().is_empty()
}

/// The identifier and the controls of the message of the whole of the bytes.
fn controls_of(alloc: Global, bytes: &[u8]) -> Result<(u32, ControlList), MessageFault> {
    let Message { id, op, controls } = message_of(alloc, bytes)?;
    discard(op);
    Ok((id, controls))
}

/// The text of the filter of the message of the whole of the bytes.
fn filter_text(alloc: Global, bytes: &[u8]) -> Result<Option<Octets>, MessageFault> {
    let message = message_of(alloc, bytes)?;
    let text = text_of(alloc, &message.op);
    discard(message);
    Ok(text)
}

/// The text of a search's filter, none where there is none or no memory.
fn text_of(alloc: Global, op: &Protocol) -> Option<Octets> {
    match op {
        Protocol::SearchRequest(asked) => asked.filter.write_text(alloc).ok(),
        _ => None,
    }
}

/// The length of the frame, none where more bytes have to come, or why it is refused.
fn frame_of(alloc: Global, bytes: &[u8]) -> Result<Option<usize>, MessageFault> {
    match Message::read(alloc, bytes)? {
        Some((message, count)) => {
            discard(message);
            Ok(Some(count))
        }
        None => Ok(None),
    }
}

fn bytes_of(option: &Option<Octets>) -> Option<&[u8]> {
    match option {
        Some(octets) => Some(octets.as_slice()),
        None => None,
    }
}

/// The parts of an operation that are still expected: its numbers, truth values and lengths of
/// lists, and its octet strings, each in the order of its components. And whether those that came
/// were the expected ones.
#[derive(Clone, Copy)]
struct Expected<'a> {
    numbers: &'a [i64],
    strings: &'a [&'a [u8]],
    agrees: bool,
}

impl<'a> Expected<'a> {
    fn new(numbers: &'a [i64], strings: &'a [&'a [u8]]) -> Expected<'a> {
        Expected {
            numbers,
            strings,
            agrees: true,
        }
    }

    /// Whether all came, and nothing else.
    fn is_met(self) -> bool {
        self.agrees && self.numbers.is_empty() && self.strings.is_empty()
    }

    fn unmet(self) -> Expected<'a> {
        Expected {
            agrees: false,
            ..self
        }
    }

    fn number(self, number: i64) -> Expected<'a> {
        match self.numbers {
            [first, numbers @ ..] => Expected {
                numbers,
                strings: self.strings,
                agrees: self.agrees && *first == number,
            },
            [] => self.unmet(),
        }
    }

    fn string(self, octets: &Octets) -> Expected<'a> {
        match self.strings {
            [first, strings @ ..] => Expected {
                numbers: self.numbers,
                strings,
                agrees: self.agrees && octets.as_slice() == *first,
            },
            [] => self.unmet(),
        }
    }

    fn option(self, option: &Option<Octets>) -> Expected<'a> {
        match option {
            Some(octets) => self.string(octets),
            None => self,
        }
    }

    fn list(self, list: &[Octets]) -> Expected<'a> {
        let mut left = self.number(list.len() as i64);
        for octets in list {
            left = left.string(octets);
        }
        left
    }

    fn attribute(self, attribute: &RawAttribute) -> Expected<'a> {
        self.string(&attribute.name).list(attribute.values.list())
    }

    fn attributes(self, attributes: &[RawAttribute]) -> Expected<'a> {
        let mut left = self.number(attributes.len() as i64);
        for attribute in attributes {
            left = left.attribute(attribute);
        }
        left
    }

    fn edits(self, edits: &[RawEdit]) -> Expected<'a> {
        let mut left = self.number(edits.len() as i64);
        for edit in edits {
            left = left.number(number_of(edit.how)).attribute(&edit.attribute);
        }
        left
    }

    fn outcome(self, outcome: &LdapResult) -> Expected<'a> {
        let left = self
            .number(outcome.code)
            .string(&outcome.matched_dn)
            .string(&outcome.diagnostic_message);
        match &outcome.referral {
            Some(uris) => left.list(uris.list()),
            None => left,
        }
    }
}

fn number_of(how: How) -> i64 {
    match how {
        How::Add => 0,
        How::Delete => 1,
        How::Replace => 2,
    }
}

fn scope_of(scope: SearchScope) -> i64 {
    match scope {
        SearchScope::Base => 0,
        SearchScope::One => 1,
        SearchScope::Sub => 2,
    }
}

/// What is left of the expected parts after those of a change, the tag in front.
fn without_change<'a>(all: Expected<'a>, change: &Change) -> Expected<'a> {
    match change {
        Change::Add(name, attributes) => {
            all.number(0x68).string(name).attributes(attributes.list())
        }
        Change::Delete(name) => all.number(0x4A).string(name),
        Change::Modify(name, edits) => all.number(0x66).string(name).edits(edits.list()),
        Change::Rename(name, rdn, goes, superior) => all
            .number(0x6C)
            .number(*goes as i64)
            .string(name)
            .string(rdn)
            .option(superior),
    }
}

fn without_authentication<'a>(all: Expected<'a>, authentication: &Authentication) -> Expected<'a> {
    match authentication {
        Authentication::Simple(password) => all.number(0).string(password),
        Authentication::Sasl(body) => all.number(3).string(body),
    }
}

/// What is left of the expected parts after those of a request, the tag in front.
fn without_request<'a>(all: Expected<'a>, op: &Protocol) -> Expected<'a> {
    match op {
        Protocol::BindRequest {
            version,
            name,
            authentication,
        } => without_authentication(
            all.number(0x60).number(*version as i64).string(name),
            authentication,
        ),
        Protocol::UnbindRequest => all.number(0x42),
        Protocol::SearchRequest(asked) => all
            .number(0x63)
            .string(&asked.base)
            .number(scope_of(asked.scope))
            .number(asked.deref as i64)
            .number(asked.size_limit as i64)
            .number(asked.time_limit as i64)
            .number(asked.types_only as i64)
            .list(asked.attributes.list()),
        Protocol::Write(change) => without_change(all, change),
        Protocol::CompareRequest { entry, name, value } => {
            all.number(0x6E).string(entry).string(name).string(value)
        }
        Protocol::AbandonRequest(id) => all.number(0x50).number(*id),
        Protocol::ExtendedRequest { name, value } => { all.number(0x77).string(name).option(value) }
        _ => without_response(all, op),
    }
}

/// What is left of the expected parts after those of a response, the tag in front.
fn without_response<'a>(all: Expected<'a>, op: &Protocol) -> Expected<'a> {
    match op {
        Protocol::BindResponse { result, sasl } => all.number(0x61).outcome(result).option(sasl),
        Protocol::SearchResultEntry { name, attributes } => {
            all.number(0x64).string(name).attributes(attributes.list())
        }
        Protocol::SearchResultDone(result) => all.number(0x65).outcome(result),
        Protocol::SearchResultReference(uris) => all.number(0x73).list(uris.list()),
        Protocol::ModifyResponse(result) => all.number(0x67).outcome(result),
        Protocol::AddResponse(result) => all.number(0x69).outcome(result),
        Protocol::DelResponse(result) => all.number(0x6B).outcome(result),
        Protocol::ModifyDnResponse(result) => all.number(0x6D).outcome(result),
        Protocol::CompareResponse(result) => all.number(0x6F).outcome(result),
        Protocol::ExtendedResponse {
            result,
            name,
            value,
        } => all.number(0x78).outcome(result).option(name).option(value),
        Protocol::IntermediateResponse { name, value } => {
            all.number(0x79).option(name).option(value)
        }
        _ => all.unmet(),
    }
}

/// Whether these are the parts of an operation.
fn has_parts(op: &Protocol, all: Expected) -> bool {
    without_request(all, op).is_met()
}

/// Operations: the spelling, the identifier, the numbers (the tag first) and the octet strings.
const OPERATIONS: [(&[u8], u32, &[i64], &[&[u8]]); 27] = [
    (
        b"0\x16\x02\x01\x01`\x11\x02\x01\x03\x04\x04cn=a\x80\x06secret",
        1,
        &[0x60, 3, 0],
        &[b"cn=a", b"secret"],
    ),
    (
        b"0\x16\x02\x01\x02`\x11\x02\x01\x03\x04\0\xa3\x0a\x04\x05PLAIN\x04\x01x",
        2,
        &[0x60, 3, 3],
        &[b"", b"\x04\x05PLAIN\x04\x01x"],
    ),
    (
        b"0\x11\x02\x01\x01a\x0c\x0a\x01\x0e\x04\0\x04\0\x87\x03abc",
        1,
        &[0x61, 14],
        &[b"", b"", b"abc"],
    ),
    (
        b"0\x0c\x02\x01\x01a\x07\x0a\x01\0\x04\0\x04\0",
        1,
        &[0x61, 0],
        &[b"", b""],
    ),
    (b"0\x05\x02\x01\x03B\0", 3, &[0x42], &[]),
    (
        b"0<\x02\x01\x05c7\x04\x04dc=x\x0a\x01\x01\x0a\x01\0\x02\x04\x7f\xff\xff\xff\x02\
          \x01<\x01\x01\xff\xa1\x1b\xa2\x08\xa5\x06\x04\x01n\x04\x011\xa6\x06\x04\x01n\
          \x04\x019\xa8\x07\x04\x02cn\x04\x01x0\0",
        5,
        &[0x63, 1, 0, 2_147_483_647, 60, 1, 0],
        &[b"dc=x"],
    ),
    (
        b"01\x02\x01\x04c,\x04\x04dc=x\x0a\x01\x02\x0a\x01\x03\x02\x01\0\x02\x01\0\x01\
          \x01\0\xa0\x0d\x87\x02cn\xa3\x07\x04\x02ou\x04\x01s0\x06\x04\x01*\x04\x01+",
        4,
        &[0x63, 2, 3, 0, 0, 0, 2],
        &[b"dc=x", b"*", b"+"],
    ),
    (
        b"0'\x02\x01\x04d\x22\x04\x09ou=s,dc=x0\x150\x0c\x04\x02ou1\x06\x04\x01s\x04\x01\
          t0\x05\x04\x01l1\0",
        4,
        &[0x64, 2, 2, 0],
        &[b"ou=s,dc=x", b"ou", b"s", b"t", b"l"],
    ),
    (
        b"0+\x02\x01\x04e&\x0a\x01\x0a\x04\x04dc=x\x04\x05there\xa3\x14\x04\x08ldap://a\
          \x04\x08ldap://b",
        4,
        &[0x65, 10, 2],
        &[b"dc=x", b"there", b"ldap://a", b"ldap://b"],
    ),
    (
        b"0\x14\x02\x01\x04s\x0f\x04\x0dldap://a/dc=x",
        4,
        &[0x73, 1],
        &[b"ldap://a/dc=x"],
    ),
    (
        b"0:\x02\x01\x08f5\x04\x04dc=x0-0\x0d\x0a\x01\00\x08\x04\x01l1\x03\x04\x01a0\x0a\
          \x0a\x01\x010\x05\x04\x01l1\00\x10\x0a\x01\x020\x0b\x04\x01o1\x06\x04\x01b\x04\
          \x01c",
        8,
        &[0x66, 3, 0, 1, 1, 0, 2, 2],
        &[b"dc=x", b"l", b"a", b"l", b"o", b"b", b"c"],
    ),
    (
        b"0\x0c\x02\x01\x0eg\x07\x0a\x01\x14\x04\0\x04\0",
        14,
        &[0x67, 20],
        &[b"", b""],
    ),
    (
        b"0\x18\x02\x01\x09h\x13\x04\x04dc=x0\x0b0\x09\x04\x02dc1\x03\x04\x01x",
        9,
        &[0x68, 1, 1],
        &[b"dc=x", b"dc", b"x"],
    ),
    (
        b"0\x0c\x02\x01\x0ei\x07\x0a\x01D\x04\0\x04\0",
        14,
        &[0x69, 68],
        &[b"", b""],
    ),
    (b"0\x09\x02\x01\x0aJ\x04dc=x", 10, &[0x4A], &[b"dc=x"]),
    (
        b"0\x0c\x02\x01\x0ek\x07\x0a\x01B\x04\0\x04\0",
        14,
        &[0x6B, 66],
        &[b"", b""],
    ),
    (
        b"0\x1f\x02\x01\x0bl\x1a\x04\x09cn=a,dc=x\x04\x04cn=b\x01\x01\xff\x80\x04dc=y",
        11,
        &[0x6C, 1],
        &[b"cn=a,dc=x", b"cn=b", b"dc=y"],
    ),
    (
        b"0\x19\x02\x01\x0bl\x14\x04\x09cn=a,dc=x\x04\x04cn=b\x01\x01\0",
        11,
        &[0x6C, 0],
        &[b"cn=a,dc=x", b"cn=b"],
    ),
    (
        b"0\x0c\x02\x01\x0em\x07\x0a\x01@\x04\0\x04\0",
        14,
        &[0x6D, 64],
        &[b"", b""],
    ),
    (
        b"0\x13\x02\x01\x0cn\x0e\x04\x04dc=x0\x06\x04\x01o\x04\x01x",
        12,
        &[0x6E],
        &[b"dc=x", b"o", b"x"],
    ),
    (
        b"0\x0c\x02\x01\x0eo\x07\x0a\x01\x06\x04\0\x04\0",
        14,
        &[0x6F, 6],
        &[b"", b""],
    ),
    (b"0\x07\x02\x01\x0dP\x02\x01,", 13, &[0x50, 300], &[]),
    (
        b"0\x19\x02\x01\x0fw\x14\x80\x0b1.3.6.1.1.8\x81\x050\x03\x02\x01\x05",
        15,
        &[0x77],
        &[b"1.3.6.1.1.8", b"0\x03\x02\x01\x05"],
    ),
    (
        b"0\x12\x02\x01\x0fw\x0d\x80\x0b1.3.6.1.1.8",
        15,
        &[0x77],
        &[b"1.3.6.1.1.8"],
    ),
    (
        b"0'\x02\x01\0x\x22\x0a\x01\x02\x04\0\x04\0\x8a\x161.3.6.1.4.1.1466.20036\x8b\
          \x01v",
        0,
        &[0x78, 2],
        &[b"", b"", b"1.3.6.1.4.1.1466.20036", b"v"],
    ),
    (
        b"0#\x02\x01\x10y\x1e\x80\x181.3.6.1.4.1.4203.1.9.1.4\x81\x02\x80\0",
        16,
        &[0x79],
        &[b"1.3.6.1.4.1.4203.1.9.1.4", b"\x80\0"],
    ),
    (b"0\x05\x02\x01\x10y\0", 16, &[0x79], &[]),
];

/// Asserts how the message of the whole of the bytes is written.
fn assert_written(
    rt: &impl Abort,
    alloc: Global,
    bytes: &[u8],
    wanted: &[u8],
) -> Result<(), MessageFault> {
    let written = written_again(alloc, bytes)?;
    assert_same_of(rt, bytes, &written.as_slice(), &wanted);
    Ok(())
}

fn assert_says(
    rt: &impl Abort,
    alloc: Global,
    bytes: &[u8],
    id: u32,
    parts: Expected,
) -> Result<(), MessageFault> {
    assert_same_of(rt, bytes, &says(alloc, bytes, id, parts)?, &true);
    Ok(())
}

#[test]
fn operations_both_ways(rt: HostRuntime) -> Result<(), Fail> {
    for (spelling, id, numbers, strings) in &OPERATIONS {
        assert_written(&rt, rt.alloc(), spelling, spelling)?;
        assert_says(
            &rt,
            rt.alloc(),
            spelling,
            *id,
            Expected::new(numbers, strings),
        )?;
    }
    Ok(())
}

/// Searches, with the text of their filter by RFC 4515 and RFC 4526.
const FILTERS: [(&[u8], &[u8]); 6] = [
    (
        b"01\x02\x01\x04c,\x04\x04dc=x\x0a\x01\x02\x0a\x01\x03\x02\x01\0\x02\x01\0\x01\
          \x01\0\xa0\x0d\x87\x02cn\xa3\x07\x04\x02ou\x04\x01s0\x06\x04\x01*\x04\x01+",
        b"(&(cn=*)(ou=s))",
    ),
    (
        b"0<\x02\x01\x05c7\x04\x04dc=x\x0a\x01\x01\x0a\x01\0\x02\x04\x7f\xff\xff\xff\x02\
          \x01<\x01\x01\xff\xa1\x1b\xa2\x08\xa5\x06\x04\x01n\x04\x011\xa6\x06\x04\x01n\
          \x04\x019\xa8\x07\x04\x02cn\x04\x01x0\0",
        b"(|(!(n>=1))(n<=9)(cn~=x))",
    ),
    (
        b"06\x02\x01\x06c1\x04\x04dc=x\x0a\x01\0\x0a\x01\x03\x02\x01\0\x02\x01\0\x01\x01\
          \0\xa4\x12\x04\x02cn0\x0c\x80\x01a\x81\x01b\x81\x01c\x82\x01d0\x06\x04\x01*\
          \x04\x01+",
        b"(cn=a*b*c*d)",
    ),
    (
        b"0-\x02\x01\x06c(\x04\x04dc=x\x0a\x01\0\x0a\x01\x03\x02\x01\0\x02\x01\0\x01\x01\
          \0\xa4\x09\x04\x02cn0\x03\x81\x01b0\x06\x04\x01*\x04\x01+",
        b"(cn=*b*)",
    ),
    (
        b"0$\x02\x01\x07c\x1f\x04\x04dc=x\x0a\x01\x02\x0a\x01\x03\x02\x01\0\x02\x01\0\
          \x01\x01\0\xa0\00\x06\x04\x01*\x04\x01+",
        b"(&)",
    ),
    // 32 levels, as many as may be
    (
        b"0Z\x02\x01\x01cU\x04\0\x0a\x01\x02\x0a\x01\0\x02\x01\0\x02\x01\0\x01\x01\0\xa2\
          @\xa2>\xa2<\xa2:\xa28\xa26\xa24\xa22\xa20\xa2.\xa2,\xa2*\xa2(\xa2&\xa2$\xa2\
          \x22\xa2 \xa2\x1e\xa2\x1c\xa2\x1a\xa2\x18\xa2\x16\xa2\x14\xa2\x12\xa2\x10\xa2\
          \x0e\xa2\x0c\xa2\x0a\xa2\x08\xa2\x06\xa2\x04\x87\x02cn0\0",
        b"(!(!(!(!(!(!(!(!(!(!(!(!(!(!(!(!(!(!(!(!(!(!(!(!(!(!(!(!(!(!(!(cn=*))))))))))))))))))))))))))))))))",
    ),
];

fn assert_filter(
    rt: &impl Abort,
    alloc: Global,
    bytes: &[u8],
    wanted: &[u8],
) -> Result<(), MessageFault> {
    let text = filter_text(alloc, bytes)?;
    assert_same_of(rt, bytes, &bytes_of(&text), &Some(wanted));
    Ok(())
}

#[test]
fn filters_both_ways(rt: HostRuntime) -> Result<(), Fail> {
    for (spelling, text) in &FILTERS {
        assert_written(&rt, rt.alloc(), spelling, spelling)?;
        assert_filter(&rt, rt.alloc(), spelling, text)?;
    }
    Ok(())
}

fn parts_of(control: &Control) -> ControlParts<'_> {
    (
        control.name.as_slice(),
        control.critical,
        bytes_of(&control.value),
    )
}

/// A message with three controls.
const CONTROLLED: &[u8] =
    b"0F\x02\x04\x7f\xff\xff\xffJ\x04dc=x\xa080\x1c\x04\x172.16.840.1.113730.3.4.2\
      \x01\x01\xff0\x0a\x04\x051.2.3\x04\x01v0\x0c\x04\x051.2.4\x01\x01\xff\x04\0";

/// A name, whether it is critical, and the value.
type ControlParts<'a> = (&'a [u8], bool, Option<&'a [u8]>);

/// Its controls.
const CONTROLS: [ControlParts<'static>; 3] = [
    (b"2.16.840.1.113730.3.4.2", true, None),
    (b"1.2.3", false, Some(b"v")),
    (b"1.2.4", true, Some(b"")),
];

fn assert_control(rt: &impl Abort, control: &Control, wanted: &ControlParts<'static>) {
    assert_same(rt, "control", &parts_of(control), wanted);
}

fn assert_controls(rt: &impl Abort, controls: &[Control]) {
    assert_same(rt, "controls", &controls.len(), &3);
    for (place, control) in controls.iter().enumerate() {
        if let Some(wanted) = CONTROLS.get(place) {
            assert_control(rt, control, wanted);
        }
    }
}

#[test]
fn controls_both_ways(rt: HostRuntime) -> Result<(), Fail> {
    assert_written(&rt, rt.alloc(), CONTROLLED, CONTROLLED)?;
    let (id, controls) = controls_of(rt.alloc(), CONTROLLED)?;
    assert_same(&rt, "identifier", &id, &2_147_483_647);
    assert_controls(&rt, controls.list());
    Ok(())
}

/// The end of a refresh, a Sync Info message, a deleted entry, and the Notice of Disconnection
/// (RFC 4533, sections 2.3 to 2.5; RFC 4511, section 4.4.1), and a filter by a matching rule.
const OTHERS: [&[u8]; 5] = [
    b"0\x81\x93\x02\x01\x01e\x07\x0a\x01\0\x04\0\x04\0\xa0\x81\x840\x81\x81\x04\x181\
      .3.6.1.4.1.4203.1.9.1.3\x04e0c\x04arid=000,sid=001,csn=19700101000000.000000Z#\
      000000#001#000000,gen=00000000000000000000000000000001",
    b"0\x81\x87\x02\x01\x01y\x81\x81\x80\x181.3.6.1.4.1.4203.1.9.1.4\x81e\xa2c\x04ar\
      id=000,sid=001,csn=19700101000000.000000Z#000000#001#000000,gen=00000000000000\
      000000000000000001",
    b"0N\x02\x01\x01d\x12\x04\x0eou=s,ou=a,dc=x0\0\xa0503\x04\x181.3.6.1.4.1.4203.1.\
      9.1.2\x04\x170\x15\x0a\x01\x03\x04\x10\0\0\0\0\0\x01\x80\0\x80\0\0\0\0\0\0\x04",
    b"0$\x02\x01\0x\x1f\x0a\x01\x02\x04\0\x04\0\x8a\x161.3.6.1.4.1.1466.20036",
    b"02\x02\x01\x07c-\x04\x04dc=x\x0a\x01\x02\x0a\x01\x03\x02\x01\0\x02\x01\0\x01\
      \x01\0\xa9\x0e\x81\x052.4.8\x82\x02cn\x83\x01x0\x06\x04\x01*\x04\x01+",
];

#[test]
fn other_messages_both_ways(rt: HostRuntime) -> Result<(), Fail> {
    for spelling in &OTHERS {
        assert_written(&rt, rt.alloc(), spelling, spelling)?;
    }
    Ok(())
}

/// Spellings that are read and never written, each with what is written in its place.
const SPELLINGS: [(&[u8], &[u8]); 7] = [
    // TRUE as 01, a usual value that is written, a length and an integer that are longer
    // than they have to be
    (
        b"0\x15\x02\x01\x01J\x04dc=x\xa0\x0a0\x08\x04\x031.2\x01\x01\x01",
        b"0\x15\x02\x01\x01J\x04dc=x\xa0\x0a0\x08\x04\x031.2\x01\x01\xff",
    ),
    (
        b"0\x15\x02\x01\x01J\x04dc=x\xa0\x0a0\x08\x04\x031.2\x01\x01\0",
        b"0\x12\x02\x01\x01J\x04dc=x\xa0\x070\x05\x04\x031.2",
    ),
    (
        b"0\x84\0\0\0\x0a\x02\x02\0\x01J\x04dc=x",
        b"0\x09\x02\x01\x01J\x04dc=x",
    ),
    // no controls, written
    (
        b"0\x0b\x02\x01\x01J\x04dc=x\xa0\0",
        b"0\x09\x02\x01\x01J\x04dc=x",
    ),
    // unknown elements at the end: of the message, and of a sequence in it
    (
        b"0\x0e\x02\x01\x01J\x04dc=x\xa1\x01?\x04\0",
        b"0\x09\x02\x01\x01J\x04dc=x",
    ),
    (
        b"0\x10\x02\x01\x01w\x0b\x80\x031.2\x82\x01?\x81\x01v",
        b"0\x0a\x02\x01\x01w\x05\x80\x031.2",
    ),
    // a client that writes each length in four octets
    (
        b"0\x84\0\0\0\x81\x02\x84\0\0\0\x01\x02c\x84\0\0\0D\x04\x84\0\0\0\x04dc=x\x0a\
          \x84\0\0\0\x01\x02\x0a\x84\0\0\0\x01\0\x02\x84\0\0\0\x01\0\x02\x84\0\0\0\x01\0\
          \x01\x84\0\0\0\x01\0\x87\x84\0\0\0\x0bobjectClass0\x84\0\0\0\0\xa0\x84\0\0\0*0\
          \x84\0\0\0$\x04\x84\0\0\0\x172.16.840.1.113730.3.4.2\x01\x84\0\0\0\x01\xff",
        b"0I\x02\x01\x02c$\x04\x04dc=x\x0a\x01\x02\x0a\x01\0\x02\x01\0\x02\x01\0\x01\x01\
          \0\x87\x0bobjectClass0\0\xa0\x1e0\x1c\x04\x172.16.840.1.113730.3.4.2\x01\x01\
          \xff",
    ),
];

#[test]
fn other_spellings(rt: HostRuntime) -> Result<(), Fail> {
    for (spelling, written) in &SPELLINGS {
        assert_written(&rt, rt.alloc(), spelling, written)?;
    }
    Ok(())
}

/// A message of 150 bytes.
const FRAME: &[u8; 150] =
    b"0\x81\x93\x02\x01\x01e\x07\x0a\x01\0\x04\0\x04\0\xa0\x81\x840\x81\x81\x04\x181\
      .3.6.1.4.1.4203.1.9.1.3\x04e0c\x04arid=000,sid=001,csn=19700101000000.000000Z#\
      000000#001#000000,gen=00000000000000000000000000000001";

/// Bytes, and the length of the frame that they begin with.
const FRAMES: [(&[u8], Result<Option<usize>, MessageFault>); 8] = [
    (b"\x30\x05\x02\x01\x03B\0\x31", Ok(Some(7))),
    (b"\x30\x84\0\x40\0\0", Ok(None)),
    (b"\x30\x80", Err(MessageFault::BadMessage(1))),
    (b"\x30\x85\0\0\0\0\x01", Err(MessageFault::BadMessage(1))),
    (b"\x31", Err(MessageFault::BadMessage(0))),
    (b"\x31\x03\x02\x01\x01", Err(MessageFault::BadMessage(0))),
    (b"\x30\x84\0\x40\0\x01\0", Err(MessageFault::TooLong)),
    (b"\x30\x83\x40\0\x01", Err(MessageFault::TooLong)),
];

fn assert_frame(
    rt: &impl Abort,
    alloc: Global,
    bytes: &[u8],
    wanted: &Result<Option<usize>, MessageFault>,
) {
    assert_same_of(rt, bytes, &frame_of(alloc, bytes), wanted);
}

/// At each proper prefix of a message more bytes are waited for.
#[test]
fn prefixes_of_a_frame(rt: HostRuntime) {
    for count in 0..150 {
        assert_frame(&rt, rt.alloc(), &FRAME[..count], &Ok(None));
    }
    assert_frame(&rt, rt.alloc(), FRAME, &Ok(Some(150)));
}

/// Whatever follows a message is left, and a header that begins no frame is refused at once.
#[test]
fn frames(rt: HostRuntime) {
    for (bytes, answer) in &FRAMES {
        assert_frame(&rt, rt.alloc(), bytes, answer);
    }
}

/// Messages that are refused, with the place.
const REFUSED: [(&[u8], usize); 31] = [
    // an identifier below 0, above the most, and of nine octets
    (b"0\x05\x02\x01\xffB\0", 2),
    (b"0\x09\x02\x05\0\x80\0\0\0B\0", 2),
    (b"0\x0d\x02\x09\0\0\0\0\0\0\0\0\x01B\0", 2),
    // no operation, another one, and a NULL with a body
    (b"0\x03\x02\x01\x01", 5),
    (b"0\x05\x02\x01\x01z\0", 5),
    (b"0\x06\x02\x01\x01B\x01a", 5),
    // versions out of bounds, and reserved authentication
    (b"0\x0c\x02\x01\x01`\x07\x02\x01\0\x04\0\x80\0", 7),
    (b"0\x0d\x02\x01\x01`\x08\x02\x02\0\x80\x04\0\x80\0", 7),
    (b"0\x0e\x02\x01\x01`\x09\x02\x01\x03\x04\0\x81\x02pw", 12),
    // an OCTET STRING in the constructed form, an indefinite length, five length octets, the
    // tag number 31
    (
        b"0\x10\x02\x01\x01`\x0b\x02\x01\x03$\x04\x04\x02cn\x80\0",
        10,
    ),
    (b"0\x0e\x02\x01\x01`\x80\x02\x01\x03\x04\0\x80\0\0\0", 5),
    (
        b"0\x11\x02\x01\x01`\x0c\x02\x01\x03\x04\x85\0\0\0\0\0\x80\0",
        10,
    ),
    (
        b"0\x0f\x02\x01\x01`\x0a\x02\x01\x03\x04\0\x80\0\x1f\x1f\0",
        14,
    ),
    // an unknown component in the middle, and a missing one at the end
    (
        b"0\x0f\x02\x01\x01`\x0a\x02\x01\x03\x8f\x01?\x04\0\x80\0",
        10,
    ),
    (b"0\x0a\x02\x01\x01`\x05\x02\x01\x03\x04\0", 12),
    // a scope and a dereferencing out of bounds
    (
        b"0\x1c\x02\x01\x01c\x17\x04\0\x0a\x01\x03\x0a\x01\0\x02\x01\0\x02\x01\0\x01\x01\
          \0\x87\x02cn0\0",
        9,
    ),
    (
        b"0\x1c\x02\x01\x01c\x17\x04\0\x0a\x01\x02\x0a\x01\x04\x02\x01\0\x02\x01\0\x01\
          \x01\0\x87\x02cn0\0",
        12,
    ),
    // a substring filter without a piece, with two first ones, with pieces out of order, and
    // with another one
    (
        b"0 \x02\x01\x01c\x1b\x04\0\x0a\x01\x02\x0a\x01\0\x02\x01\0\x02\x01\0\x01\x01\0\
          \xa4\x06\x04\x02cn0\00\0",
        30,
    ),
    (
        b"0&\x02\x01\x01c!\x04\0\x0a\x01\x02\x0a\x01\0\x02\x01\0\x02\x01\0\x01\x01\0\xa4\
          \x0c\x04\x02cn0\x06\x80\x01a\x80\x01b0\0",
        35,
    ),
    (
        b"0&\x02\x01\x01c!\x04\0\x0a\x01\x02\x0a\x01\0\x02\x01\0\x02\x01\0\x01\x01\0\xa4\
          \x0c\x04\x02cn0\x06\x82\x01a\x81\x01b0\0",
        35,
    ),
    (
        b"0&\x02\x01\x01c!\x04\0\x0a\x01\x02\x0a\x01\0\x02\x01\0\x02\x01\0\x01\x01\0\xa4\
          \x0c\x04\x02cn0\x06\x81\x01a\x83\x01b0\0",
        35,
    ),
    // another filter, two filters in a not, none in it, and 33 levels
    (
        b"0\x1b\x02\x01\x01c\x16\x04\0\x0a\x01\x02\x0a\x01\0\x02\x01\0\x02\x01\0\x01\x01\
          \0\xa7\x01a0\0",
        24,
    ),
    (
        b"0 \x02\x01\x01c\x1b\x04\0\x0a\x01\x02\x0a\x01\0\x02\x01\0\x02\x01\0\x01\x01\0\
          \xa2\x06\x87\x01a\x87\x01b0\0",
        29,
    ),
    (
        b"0\x1a\x02\x01\x01c\x15\x04\0\x0a\x01\x02\x0a\x01\0\x02\x01\0\x02\x01\0\x01\x01\
          \0\xa2\00\0",
        26,
    ),
    (
        b"0\x5c\x02\x01\x01cW\x04\0\x0a\x01\x02\x0a\x01\0\x02\x01\0\x02\x01\0\x01\x01\0\
          \xa2B\xa2@\xa2>\xa2<\xa2:\xa28\xa26\xa24\xa22\xa20\xa2.\xa2,\xa2*\xa2(\xa2&\
          \xa2$\xa2\x22\xa2 \xa2\x1e\xa2\x1c\xa2\x1a\xa2\x18\xa2\x16\xa2\x14\xa2\x12\xa2\
          \x10\xa2\x0e\xa2\x0c\xa2\x0a\xa2\x08\xa2\x06\xa2\x04\x87\x02cn0\0",
        88,
    ),
    // another kind of edit, and values in a SEQUENCE
    (
        b"0\x19\x02\x01\x01f\x14\x04\x04dc=x0\x0c0\x0a\x0a\x01\x030\x05\x04\x01o1\0",
        17,
    ),
    (
        b"0\x17\x02\x01\x01h\x12\x04\x04dc=x0\x0a0\x08\x04\x01o0\x03\x04\x01x",
        20,
    ),
    // no URI: of a reference, and of a referral
    (b"0\x05\x02\x01\x01s\0", 5),
    (b"0\x0e\x02\x01\x01e\x09\x0a\x01\x0a\x04\0\x04\0\xa3\0", 14),
    // the criticality of a control in two octets, and a control in a SET
    (
        b"0\x12\x02\x01\x01B\0\xa0\x0b0\x09\x04\x031.2\x01\x02\0\0",
        16,
    ),
    (b"0\x0e\x02\x01\x01B\0\xa0\x071\x05\x04\x031.2", 9),
];

#[test]
fn refusals(rt: HostRuntime) {
    for (bytes, place) in &REFUSED {
        let wanted = Err(MessageFault::BadMessage(*place));
        assert_frame(&rt, rt.alloc(), bytes, &wanted);
    }
}
