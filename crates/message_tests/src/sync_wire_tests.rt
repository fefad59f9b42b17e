//! Messages of searches and what they say. The spellings are put together from RFC 4511, RFC 4533
//! and ITU-T X.690 element by element, apart from this program.
ghost use Rattle.std.specs.Prelude.{◌<◌, IfSome};

use crate::assertions::assert_same;
use csn_cookie::{Cookie, Csn};
use dn_names::Dn;
use entry_tree::{Entry, Scope, Spec};
use ldap_ber::{NoMemory, Octets, OctetsList, discard};
use ldap_filter::Filter;
use ldap_messages::Message;
use schema_rules::{Attribute, Attrs, RawAttribute, RawList};
use std::alloc::Global;
use std::process::Abort;
use std::test::Fail;
use sync_messages::{Mode, SyncDone, SyncRequest};
use sync_wire::{
    DecodeFault, KnownNames, SyncEvent, decode, decode_beside, delete_message, done_message,
    end_message, entry_message, id_set_message, search_request, tag_of,
};

// What these calls answer is compared when the tests run: the proofs of the tests know nothing of
// it.

/// The example of RFC 9562, section 4.
const UUID: u128 = 0xf81d4fae_7dec_11d0_a765_00a0c91e6bf6;

const CSN: &[u8] = b"20260101000000.000000Z#000002#001#000000";

/// The entry in the state add, with the message ID 7.
const ENTRY: &[u8] =
    b"0\x81\xf8\x02\x01\x07d\x81\xbb\x04\x04dc=x0\x81\xb20'\x04\x0bobjectClass1\x18\x04\x0corgani\
    zation\x04\x08dcObject0\x0f\x04\x01o1\x0a\x04\x05X Ltd\x04\x01Y0\x09\x04\x02dc1\x03\x04\x01x0\
    3\x04\x09entryUUID1&\x04$f81d4fae-7dec-11d0-a765-00a0c91e6bf606\x04\x08entryCSN1*\x04(2026010\
    1000000.000000Z#000002#001#000000\xa0503\x04\x181.3.6.1.4.1.4203.1.9.1.2\x04\x170\x15\x0a\x01\
    \x01\x04\x10\xf8\x1dO\xae}\xec\x11\xd0\xa7e\0\xa0\xc9\x1ek\xf6";

/// The entry in the state modify, with the message ID 7.
const CHANGED: &[u8] =
    b"0\x81\xf8\x02\x01\x07d\x81\xbb\x04\x04dc=x0\x81\xb20'\x04\x0bobjectClass1\x18\x04\x0corganiza\
    tion\x04\x08dcObject0\x0f\x04\x01o1\x0a\x04\x05X Ltd\x04\x01Y0\x09\x04\x02dc1\x03\x04\x01x03\
    \x04\x09entryUUID1&\x04$f81d4fae-7dec-11d0-a765-00a0c91e6bf606\x04\x08entryCSN1*\x04(2026010100\
    0000.000000Z#000002#001#000000\xa0503\x04\x181.3.6.1.4.1.4203.1.9.1.2\x04\x170\x15\x0a\x01\x02\
    \x04\x10\xf8\x1dO\xae}\xec\x11\xd0\xa7e\0\xa0\xc9\x1ek\xf6";

/// The entry in the state add with a cookie, with the message ID 7.
const ADDED_LAST: &[u8] =
    b"0\x82\x01]\x02\x01\x07d\x81\xbb\x04\x04dc=x0\x81\xb20'\x04\x0bobjectClass1\x18\x04\x0corganiz\
    ation\x04\x08dcObject0\x0f\x04\x01o1\x0a\x04\x05X Ltd\x04\x01Y0\x09\x04\x02dc1\x03\x04\x01x03\
    \x04\x09entryUUID1&\x04$f81d4fae-7dec-11d0-a765-00a0c91e6bf606\x04\x08entryCSN1*\x04(2026010100\
    0000.000000Z#000002#001#000000\xa0\x81\x990\x81\x96\x04\x181.3.6.1.4.1.4203.1.9.1.2\x04z0x\x0a\
    \x01\x01\x04\x10\xf8\x1dO\xae}\xec\x11\xd0\xa7e\0\xa0\xc9\x1ek\xf6\x04arid=000,sid=001,csn=2026\
    0101000000.000000Z#000002#001#000000,gen=0123456789abcdef0123456789abcdef";

/// The entry in the state modify with a cookie, with the message ID 7.
const CHANGED_LAST: &[u8] =
    b"0\x82\x01]\x02\x01\x07d\x81\xbb\x04\x04dc=x0\x81\xb20'\x04\x0bobjectClass1\x18\x04\x0corganiz\
    ation\x04\x08dcObject0\x0f\x04\x01o1\x0a\x04\x05X Ltd\x04\x01Y0\x09\x04\x02dc1\x03\x04\x01x03\
    \x04\x09entryUUID1&\x04$f81d4fae-7dec-11d0-a765-00a0c91e6bf606\x04\x08entryCSN1*\x04(2026010100\
    0000.000000Z#000002#001#000000\xa0\x81\x990\x81\x96\x04\x181.3.6.1.4.1.4203.1.9.1.2\x04z0x\x0a\
    \x01\x02\x04\x10\xf8\x1dO\xae}\xec\x11\xd0\xa7e\0\xa0\xc9\x1ek\xf6\x04arid=000,sid=001,csn=2026\
    0101000000.000000Z#000002#001#000000,gen=0123456789abcdef0123456789abcdef";

/// `ou=s,ou=a,dc=x` in the state delete, with the message ID 7.
const GONE: &[u8] =
    b"0N\x02\x01\x07d\x12\x04\x0eou=s,ou=a,dc=x0\0\xa0503\x04\x181.3.6.1.4.1.4203.1.9.1.2\x04\x170\
    \x15\x0a\x01\x03\x04\x10\xf8\x1dO\xae}\xec\x11\xd0\xa7e\0\xa0\xc9\x1ek\xf6";

/// `ou=s,ou=a,dc=x` in the state delete with a cookie, with the message ID 7.
const GONE_LAST: &[u8] =
    b"0\x81\xb3\x02\x01\x07d\x12\x04\x0eou=s,ou=a,dc=x0\0\xa0\x81\x990\x81\x96\x04\x181.3.6.1.4.1.4\
    203.1.9.1.2\x04z0x\x0a\x01\x03\x04\x10\xf8\x1dO\xae}\xec\x11\xd0\xa7e\0\xa0\xc9\x1ek\xf6\x04ari\
    d=000,sid=001,csn=20260101000000.000000Z#000002#001#000000,gen=0123456789abcdef0123456789abcdef";

/// The end of a present phase and of its search with its cookie, with the message ID 7.
const END: &[u8] =
    b"0\x81\x93\x02\x01\x07e\x07\x0a\x01\0\x04\0\x04\0\xa0\x81\x840\x81\x81\x04\x181.3.6.1.4.1.42\
    03.1.9.1.3\x04e0c\x04arid=000,sid=001,csn=20260101000000.000000Z#000002#001#000000,gen=012345\
    6789abcdef0123456789abcdef";

/// The end of a delete phase and of its search with its cookie, with the message ID 7.
const DELETES_END: &[u8] =
    b"0\x81\x96\x02\x01\x07e\x07\x0a\x01\0\x04\0\x04\0\xa0\x81\x870\x81\x84\x04\x181.3.6.1.4.1.4203\
    .1.9.1.3\x04h0f\x04arid=000,sid=001,csn=20260101000000.000000Z#000002#001#000000,gen=0123456789\
    abcdef0123456789abcdef\x01\x01\xff";

/// refreshPresent with its cookie, with the message ID 7. The refresh is done, which is the default
/// and not written.
const PRESENT_PHASE_END: &[u8] =
    b"0\x81\x87\x02\x01\x07y\x81\x81\x80\x181.3.6.1.4.1.4203.1.9.1.4\x81e\xa2c\x04arid=000,sid=001,\
    csn=20260101000000.000000Z#000002#001#000000,gen=0123456789abcdef0123456789abcdef";

/// refreshDelete with its cookie, with the message ID 7, likewise.
const DELETE_PHASE_END: &[u8] =
    b"0\x81\x87\x02\x01\x07y\x81\x81\x80\x181.3.6.1.4.1.4203.1.9.1.4\x81e\xa1c\x04arid=000,sid=001,\
    csn=20260101000000.000000Z#000002#001#000000,gen=0123456789abcdef0123456789abcdef";

/// An entry is deleted, with the message ID 7.
const DELETED: &[u8] =
    b"0:\x02\x01\x07y5\x80\x181.3.6.1.4.1.4203.1.9.1.4\x81\x19\xa3\x17\x01\x01\xff1\x12\x04\x10\xf8\
    \x1dO\xae}\xec\x11\xd0\xa7e\0\xa0\xc9\x1ek\xf6";

/// The entries 5 and another are present, with the message ID 7.
const BOTH_PRESENT: &[u8] =
    b"0I\x02\x01\x07yD\x80\x181.3.6.1.4.1.4203.1.9.1.4\x81(\xa3&1$\x04\x10\0\0\0\0\0\0\0\0\0\0\0\0\0\0\0\
    \x05\x04\x10\xf8\x1dO\xae}\xec\x11\xd0\xa7e\0\xa0\xc9\x1ek\xf6";

/// The end of a search that found no room (51), with the message ID 7.
const BUSY: &[u8] = b"0\x0c\x02\x01\x07e\x07\x0a\x013\x04\0\x04\0";

/// A search for the entries with a mail address directly below `ou=a,dc=x`, with the message ID 3:
/// refreshAndPersist with a cookie and the reload hint, critical.
const REQUEST: &[u8] =
    b"0i\x02\x01\x03c(\x04\x09ou=a,dc=x\x0a\x01\x01\x0a\x01\0\x02\x01\0\x02\x01\0\x01\x01\0\x87\
    \x04mail0\x06\x04\x01*\x04\x01+\xa0:08\x04\x181.3.6.1.4.1.4203.1.9.1.1\x01\x01\xff\x04\x190\
    \x17\x0a\x01\x03\x04\x0frid=000,sid=001\x01\x01\xff";

/// An entry in the state present, with the message ID 7.
const PRESENT: &[u8] =
    b"0D\x02\x01\x07d\x08\x04\x04dc=x0\0\xa0503\x04\x181.3.6.1.4.1.4203.1.9.1.2\x04\x170\x15\x0a\
    \x01\0\x04\x10\xf8\x1dO\xae}\xec\x11\xd0\xa7e\0\xa0\xc9\x1ek\xf6";

fn octets(alloc: Global, text: &[u8]) -> Result<Octets, NoMemory> {
    Octets::from_slice(alloc, text)
}

fn attribute(alloc: Global, name: &[u8], values: &[&[u8]]) -> Result<RawAttribute, NoMemory> {
    let mut list = OctetsList::new(alloc);
    for value in values {
        list.push(octets(alloc, value)?)?;
    }
    Ok(RawAttribute {
        name: octets(alloc, name)?,
        values: list,
    })
}

/// The attributes of the entry.
const ATTRIBUTES: [(&[u8], &[&[u8]]); 3] = [
    (b"objectClass", &[b"organization", b"dcObject"]),
    (b"o", &[b"X Ltd", b"Y"]),
    (b"dc", &[b"x"]),
];

fn raw_list(alloc: Global) -> Result<RawList, NoMemory> {
    let mut list = RawList::new(alloc);
    for (name, values) in &ATTRIBUTES {
        list.push(attribute(alloc, name, values)?)?;
    }
    Ok(list)
}

fn entry(alloc: Global) -> Result<Entry, Fail> {
    let csn = Csn::parse(CSN)?;
    let list = raw_list(alloc)?;
    let attrs = Attrs::read(alloc, &list)?;
    Ok(Entry {
        uuid: UUID,
        csn,
        dn: Dn::parse(alloc, b"dc=x")?,
        attrs,
    })
}

/// The cookie of this CSN.
fn cookie(csn: Csn) -> Cookie
    ensures rid { result.rid < 1000 }
    ensures sid { result.sid < 4096 }
{
    Cookie {
        rid: 0,
        sid: 1,
        csn,
        history: 0x0123456789abcdef_0123456789abcdef,
    }
}

/// The cookie of this CSN, if there is one.
fn cookie_with(csn: Option<Csn>) -> Option<Cookie>
    ensures rid { IfSome result (λ c. c.rid < 1000) }
    ensures sid { IfSome result (λ c. c.sid < 4096) }
{
    Some(cookie(csn?))
}

fn entry_bytes(
    alloc: Global,
    adds: bool,
    entry: &Entry,
    csn: Option<Csn>,
) -> Result<Octets, NoMemory> {
    let message = entry_message(alloc, 7, adds, entry, cookie_with(csn))?;
    let bytes = message.write(alloc);
    discard(message);
    bytes
}

fn gone_bytes(alloc: Global, name: &Dn, csn: Option<Csn>) -> Result<Octets, NoMemory> {
    let message = delete_message(alloc, 7, UUID, name, cookie_with(csn))?;
    let bytes = message.write(alloc);
    discard(message);
    bytes
}

/// The end of a refresh with the cookie of this CSN.
fn end_bytes(alloc: Global, persists: bool, deletes: bool, csn: Csn) -> Result<Octets, NoMemory> {
    let message = end_message(alloc, 7, persists, deletes, &cookie(csn))?;
    let bytes = message.write(alloc);
    discard(message);
    bytes
}

fn names_bytes(alloc: Global, deletes: bool, uuids: &[u128]) -> Result<Octets, NoMemory> {
    let message = id_set_message(alloc, 7, deletes, uuids)?;
    let bytes = message.write(alloc);
    discard(message);
    bytes
}

fn busy_bytes(alloc: Global) -> Result<Octets, NoMemory> {
    let message = done_message(alloc, 7, ldap_constants::BUSY)?;
    let bytes = message.write(alloc);
    discard(message);
    bytes
}

fn assert_bytes(rt: &impl Abort, row: &str, found: &Octets, wanted: &[u8]) {
    assert_same(rt, row, &found.as_slice(), &wanted);
}

fn sent_entry(alloc: Global, adds: bool, csn: Option<Csn>) -> Result<Octets, Fail> {
    let entry = entry(alloc)?;
    let bytes = entry_bytes(alloc, adds, &entry, csn);
    discard(entry);
    Ok(bytes?)
}

fn assert_sent(
    rt: &impl Abort,
    alloc: Global,
    adds: bool,
    csn: Option<Csn>,
    wanted: &[u8],
) -> Result<(), Fail> {
    let sent = sent_entry(alloc, adds, csn)?;
    assert_bytes(rt, if adds { "add" } else { "modify" }, &sent, wanted);
    Ok(())
}

#[test]
fn entries_are_sent(rt: HostRuntime) -> Result<(), Fail> {
    let csn = Some(Csn::parse(CSN)?);
    assert_sent(&rt, rt.alloc(), true, None, ENTRY)?;
    assert_sent(&rt, rt.alloc(), false, None, CHANGED)?;
    assert_sent(&rt, rt.alloc(), true, csn, ADDED_LAST)?;
    assert_sent(&rt, rt.alloc(), false, csn, CHANGED_LAST)
}

fn assert_gone(
    rt: &impl Abort,
    alloc: Global,
    csn: Option<Csn>,
    wanted: &[u8],
) -> Result<(), Fail> {
    let name = Dn::parse(alloc, b"ou=s,ou=a,dc=x")?;
    let sent = gone_bytes(alloc, &name, csn)?;
    assert_bytes(rt, "delete", &sent, wanted);
    Ok(())
}

#[test]
fn what_is_gone_is_sent(rt: HostRuntime) -> Result<(), Fail> {
    let csn = Some(Csn::parse(CSN)?);
    assert_gone(&rt, rt.alloc(), None, GONE)?;
    assert_gone(&rt, rt.alloc(), csn, GONE_LAST)
}

#[test]
fn names_are_sent(rt: HostRuntime) -> Result<(), Fail> {
    let deleted = names_bytes(rt.alloc(), true, &[UUID])?;
    assert_bytes(&rt, "deleted", &deleted, DELETED);
    let present = names_bytes(rt.alloc(), false, &[5, UUID])?;
    assert_bytes(&rt, "present", &present, BOTH_PRESENT);
    Ok(())
}

/// Whether the search goes on, whether its refresh reported what is deleted, and its end.
const REFRESH_ENDS: [(bool, bool, &[u8]); 4] = [
    (false, false, END),
    (false, true, DELETES_END),
    (true, false, PRESENT_PHASE_END),
    (true, true, DELETE_PHASE_END),
];

#[test]
fn ends_are_sent(rt: HostRuntime) -> Result<(), Fail> {
    let csn = Csn::parse(CSN)?;
    for (persists, deletes, wanted) in &REFRESH_ENDS {
        let found = end_bytes(rt.alloc(), *persists, *deletes, csn)?;
        assert_bytes(&rt, "end", &found, wanted);
    }
    Ok(())
}

#[test]
fn a_search_that_found_no_room_is_ended(rt: HostRuntime) -> Result<(), Fail> {
    let found = busy_bytes(rt.alloc())?;
    assert_bytes(&rt, "busy", &found, BUSY);
    Ok(())
}

/// The request below `ou=a,dc=x` for what has a mail address.
fn request_bytes(alloc: Global, sync: &SyncRequest) -> Result<Octets, Fail> {
    let wanted = Spec {
        base: Dn::parse(alloc, b"ou=a,dc=x")?,
        scope: Scope::One,
        filter: Filter::Present(octets(alloc, b"mail")?),
    };
    let request = search_request(alloc, 3, &wanted, sync);
    discard(wanted);
    let message = request?;
    let bytes = message.write(alloc);
    discard(message);
    Ok(bytes?)
}

#[test]
fn the_request_that_is_sent(rt: HostRuntime) -> Result<(), Fail> {
    let sync = SyncRequest {
        mode: Mode::RefreshAndPersist,
        cookie: Some(octets(rt.alloc(), b"rid=000,sid=001")?),
        reload_hint: true,
    };
    assert_bytes(&rt, "request", &request_bytes(rt.alloc(), &sync)?, REQUEST);
    Ok(())
}

fn message_of(alloc: Global, bytes: &[u8]) -> Result<Message, Fail> {
    match Message::read(alloc, bytes)? {
        Some((message, _)) => Ok(message),
        None => Err(Fail::from("a message that is cut off")),
    }
}

/// The tag of the message's operation.
fn tag_in(alloc: Global, bytes: &[u8]) -> Result<u8, Fail> {
    let message = message_of(alloc, bytes)?;
    let tag = tag_of(&message.op);
    discard(message);
    Ok(tag)
}

/// A message of each operation.
const OPERATIONS: [&[u8]; 21] = [
    b"0\x0c\x02\x01\x01`\x07\x02\x01\x03\x04\0\x80\0",
    b"0\x0c\x02\x01\x01a\x07\x0a\x01\0\x04\0\x04\0",
    b"0\x05\x02\x01\x01B\0",
    b"0\x1c\x02\x01\x01c\x17\x04\0\x0a\x01\0\x0a\x01\0\x02\x01\0\x02\x01\0\x01\x01\0\x87\x02c\
    n0\0",
    b"0\x09\x02\x01\x01d\x04\x04\x000\0",
    b"0\x0c\x02\x01\x01e\x07\x0a\x01\0\x04\0\x04\0",
    b"0\x09\x02\x01\x01f\x04\x04\x000\0",
    b"0\x0c\x02\x01\x01g\x07\x0a\x01\0\x04\0\x04\0",
    b"0\x09\x02\x01\x01h\x04\x04\x000\0",
    b"0\x0c\x02\x01\x01i\x07\x0a\x01\0\x04\0\x04\0",
    b"0\x05\x02\x01\x01J\0",
    b"0\x0c\x02\x01\x01k\x07\x0a\x01\0\x04\0\x04\0",
    b"0\x10\x02\x01\x01l\x0b\x04\0\x04\x04cn=a\x01\x01\xff",
    b"0\x0c\x02\x01\x01m\x07\x0a\x01\0\x04\0\x04\0",
    b"0\x10\x02\x01\x01n\x0b\x04\x000\x07\x04\x02cn\x04\x01a",
    b"0\x0c\x02\x01\x01o\x07\x0a\x01\x06\x04\0\x04\0",
    b"0\x06\x02\x01\x02P\x01\x01",
    b"0\x0f\x02\x01\x01s\x0a\x04\x08ldap://h",
    b"0\x0a\x02\x01\x01w\x05\x80\x031.2",
    b"0\x0c\x02\x01\x01x\x07\x0a\x01\0\x04\0\x04\0",
    b"0\x05\x02\x01\x01y\0",
];

#[test]
fn each_operation_has_its_tag(rt: HostRuntime) -> Result<(), Fail> {
    for bytes in &OPERATIONS {
        // The tag stands after the message's tag and length and the ID of three octets.
        assert_same(
            &rt,
            "tag",
            &Some(&tag_in(rt.alloc(), bytes)?),
            &bytes.get(5),
        );
    }
    Ok(())
}

// ---- what is decoded, as text

fn shown(octets: &Octets) -> &str {
    str::from_utf8(octets.as_slice()).unwrap_or("?")
}

fn cookie_shown(cookie: &Option<Octets>) -> &str {
    match cookie {
        Some(cookie) => shown(cookie),
        None => "-",
    }
}

/// The values with commas between them.
fn values_shown(alloc: Global, values: &[Octets]) -> Result<String, NoMemory> {
    let mut text = String::new(alloc);
    for value in values {
        if !text.is_empty() {
            text.push_str(",")?;
        }
        text.push_str(shown(value))?;
    }
    Ok(text)
}

/// The type with its values.
fn attribute_shown(alloc: Global, attribute: &Attribute) -> Result<String, NoMemory> {
    let kind = str::from_utf8(attribute.kind.name()).unwrap_or("?");
    let values = values_shown(alloc, attribute.values.list())?;
    format!(in alloc; " {kind}={values}")
}

/// The name and the CSN.
fn head_shown(alloc: Global, entry: &Entry) -> Result<String, NoMemory> {
    let name = entry.dn.write()?;
    let csn = entry.csn.write();
    format!(in alloc; "{} {}", shown(&name), str::from_utf8(&csn).unwrap_or("?"))
}

/// The name, the CSN and the attributes.
fn entry_shown(alloc: Global, entry: &Entry) -> Result<String, NoMemory> {
    let mut text = head_shown(alloc, entry)?;
    for attribute in entry.attrs.list() {
        text.push_str(attribute_shown(alloc, attribute)?.as_str())?;
    }
    Ok(text)
}

/// The text with the cookie after it.
fn with_cookie(alloc: Global, text: &str, cookie: &Option<Octets>) -> Result<String, NoMemory> {
    format!(in alloc; "{text} cookie {}", cookie_shown(cookie))
}

fn put_shown(alloc: Global, entry: &Entry, cookie: &Option<Octets>) -> Result<String, NoMemory> {
    let text = entry_shown(alloc, entry)?;
    let text = format!(in alloc; "put {:x} {text}", entry.uuid)?;
    with_cookie(alloc, &text, cookie)
}

fn gone_shown(alloc: Global, uuid: u128, cookie: &Option<Octets>) -> Result<String, NoMemory> {
    let text = format!(in alloc; "gone {uuid:x}")?;
    with_cookie(alloc, &text, cookie)
}

fn set_shown(
    alloc: Global,
    deletes: bool,
    uuids: &[u128],
    cookie: &Option<Octets>,
) -> Result<String, NoMemory> {
    let mut text = String::new(alloc);
    text.push_str(if deletes { "deleted" } else { "presents" })?;
    for uuid in uuids {
        text.push_str(&format!(in alloc; " {uuid:x}")?)?;
    }
    with_cookie(alloc, &text, cookie)
}

fn phase_shown(
    alloc: Global,
    deletes: bool,
    done: bool,
    cookie: &Option<Octets>,
) -> Result<String, NoMemory> {
    let phase = if deletes { "deletes" } else { "presents" };
    let text = format!(in alloc; "{phase} end {done}")?;
    with_cookie(alloc, &text, cookie)
}

fn done_shown(alloc: Global, code: i64, control: &Option<SyncDone>) -> Result<String, NoMemory> {
    match control {
        Some(control) => {
            let text = format!(in alloc; "done {code} deletes {}", control.refresh_deletes)?;
            with_cookie(alloc, &text, &control.cookie)
        }
        None => format!(in alloc; "done {code}"),
    }
}

fn decoded_shown(alloc: Global, decoded: &SyncEvent) -> Result<String, NoMemory> {
    match decoded {
        SyncEvent::AddOrModify(entry, cookie) => put_shown(alloc, entry, cookie),
        SyncEvent::Delete(uuid, cookie) => gone_shown(alloc, *uuid, cookie),
        SyncEvent::Present(uuid) => format!(in alloc; "present {uuid:x}"),
        SyncEvent::IdSet {
            deletes,
            uuids,
            cookie,
        } => set_shown(alloc, *deletes, uuids.list(), cookie),
        SyncEvent::NewCookie(cookie) => format!(in alloc; "new cookie {}", shown(cookie)),
        SyncEvent::RefreshDelete { done, cookie } => phase_shown(alloc, true, *done, cookie),
        SyncEvent::RefreshPresent { done, cookie } => phase_shown(alloc, false, *done, cookie),
        SyncEvent::Done { code, control } => done_shown(alloc, *code, control),
        SyncEvent::Ignored => format!(in alloc; "passed"),
    }
}

fn fault_shown(alloc: Global, fault: DecodeFault) -> Result<String, NoMemory> {
    match fault {
        DecodeFault::OutOfPlace => format!(in alloc; "out of place"),
        DecodeFault::BadValue => format!(in alloc; "bad value"),
        DecodeFault::UuidDiffers(uuid, other) => format!(in alloc; "differs {uuid:x} {other:x}"),
        DecodeFault::BadEntry(code) => format!(in alloc; "bad entry {code}"),
        DecodeFault::NoMemory => format!(in alloc; "no memory"),
    }
}

/// What is decoded, or the first that rejects it.
fn outcome_shown(
    alloc: Global,
    outcome: &Result<SyncEvent, DecodeFault>,
) -> Result<String, NoMemory> {
    match outcome {
        Ok(decoded) => decoded_shown(alloc, decoded),
        Err(fault) => fault_shown(alloc, *fault),
    }
}

/// What the message says in this part of a search.
fn said_by(alloc: Global, message: &Message, persisting: bool) -> Result<String, NoMemory> {
    let outcome = decode(alloc, message, persisting);
    let text = outcome_shown(alloc, &outcome);
    discard(outcome);
    text
}

/// What the message of these bytes says in this part of a search.
fn said(alloc: Global, bytes: &[u8], persisting: bool) -> Result<String, Fail> {
    let message = message_of(alloc, bytes)?;
    let text = said_by(alloc, &message, persisting);
    discard(message);
    Ok(text?)
}

/// The bytes of a message, and what is decoded of it.
type Row = (&'static [u8], &'static str);

fn assert_said(
    rt: &impl Abort,
    alloc: Global,
    bytes: &[u8],
    persisting: bool,
    wanted: &str,
) -> Result<(), Fail> {
    let text = said(alloc, bytes, persisting)?;
    assert_same(rt, wanted, &text.as_str(), &wanted);
    Ok(())
}

/// What is decoded of each message in this part of a search.
fn assert_decoded(
    rt: &impl Abort,
    alloc: Global,
    rows: &[Row],
    persisting: bool,
) -> Result<(), Fail> {
    for (bytes, wanted) in rows {
        assert_said(rt, alloc, bytes, persisting, wanted)?;
    }
    Ok(())
}

/// Entries, and what is decoded of them.
const ENTRIES: [Row; 3] = [
    // An entry that was added.
    (
        b"0\x81\xf8\x02\x01\x07d\x81\xbb\x04\x04dc=x0\x81\xb20'\x04\x0bobjectClass1\x18\x04\
        \x0corganization\x04\x08dcObject0\x0f\x04\x01o1\x0a\x04\x05X Ltd\x04\x01Y0\x09\x04\
        \x02dc1\x03\x04\x01x03\x04\x09entryUUID1&\x04$f81d4fae-7dec-11d0-a765-00a0c91e6bf606\
        \x04\x08entryCSN1*\x04(20260101000000.000000Z#000002#001#000000\xa0503\x04\x181.3.6.1\
        .4.1.4203.1.9.1.2\x04\x170\x15\x0a\x01\x01\x04\x10\xf8\x1dO\xae}\xec\x11\xd0\xa7e\0\
        \xa0\xc9\x1ek\xf6",
        "put f81d4fae7dec11d0a76500a0c91e6bf6 dc=x 20260101000000.000000Z#000002#001#000000 \
        objectClass=organization,dcObject o=X Ltd,Y dc=x cookie -",
    ),
    // A modified one: types in any case, an unknown type, unknown classes, and one type twice.
    (
        b"0\x82\x01Q\x02\x01\x07d\x82\x01\x02\x04\x04dc=x0\x81\xf905\x04\x0bOBJECTCLASS1&\x04\
        \x0corganization\x04\x0cunknownClass\x04\x08dcObject0\x16\x04\x0ccreatorsName1\x06\
        \x04\x04cn=a0\x0c\x04\x01o1\x07\x04\x05X Ltd0\x09\x04\x02dc1\x03\x04\x01x0\x08\x04\
        \x01O1\x03\x04\x01Y0\x18\x04\x0bobjectClass1\x09\x04\x07nothing03\x04\x09ENTRYUUID1&\
        \x04$F81D4FAE-7DEC-11D0-A765-00A0C91E6BF606\x04\x08entrycsn1*\x04(20260101000000.0000\
        00Z#000002#001#000000\xa0F0D\x04\x181.3.6.1.4.1.4203.1.9.1.2\x04(0&\x0a\x01\x02\x04\
        \x10\xf8\x1dO\xae}\xec\x11\xd0\xa7e\0\xa0\xc9\x1ek\xf6\x04\x0frid=000,sid=001",
        "put f81d4fae7dec11d0a76500a0c91e6bf6 dc=x 20260101000000.000000Z#000002#001#000000 \
        objectClass=organization,dcObject o=X Ltd,Y dc=x cookie rid=000,sid=001",
    ),
    // A deleted one.
    (
        b"0U\x02\x01\x07d\x08\x04\x04dc=x0\0\xa0F0D\x04\x181.3.6.1.4.1.4203.1.9.1.2\x04(0&\
        \x0a\x01\x03\x04\x10\xf8\x1dO\xae}\xec\x11\xd0\xa7e\0\xa0\xc9\x1ek\xf6\x04\x0frid=000\
        ,sid=001",
        "gone f81d4fae7dec11d0a76500a0c91e6bf6 cookie rid=000,sid=001",
    ),
];

#[test]
fn entries_are_decoded(rt: HostRuntime) -> Result<(), Fail> {
    assert_decoded(&rt, rt.alloc(), &ENTRIES, false)?;
    assert_decoded(&rt, rt.alloc(), &ENTRIES, true)
}

/// A name that is known of one identity.
#[derive(Drop)]
struct KnownName {
    uuid: u128,
    name: Dn,
}

impl KnownNames for KnownName {
    fn name_of(&self, uuid: u128) -> Option<&Dn> {
        if uuid == self.uuid {
            Some(&self.name)
        } else {
            None
        }
    }
}

/// What the message of these bytes says where a name of this text is known of the identity.
fn said_beside(alloc: Global, bytes: &[u8], name: &str) -> Result<String, Fail> {
    let known = KnownName {
        uuid: UUID,
        name: Dn::parse(alloc, name.as_bytes())?,
    };
    let message = message_of(alloc, bytes)?;
    let outcome = decode_beside(alloc, &message, true, &known);
    discard(message);
    let text = outcome_shown(alloc, &outcome);
    discard(outcome);
    discard(known);
    Ok(text?)
}

#[test]
fn a_name_that_is_known_changes_nothing(rt: HostRuntime) -> Result<(), Fail> {
    for name in ["dc=x", "dc=y", "ou=a,dc=x"] {
        for (bytes, wanted) in &ENTRIES {
            let text = said_beside(rt.alloc(), bytes, name)?;
            assert_same(&rt, name, &text.as_str(), wanted);
        }
    }
    Ok(())
}

#[test]
fn only_a_refresh_names_what_is_present(rt: HostRuntime) -> Result<(), Fail> {
    let wanted = "present f81d4fae7dec11d0a76500a0c91e6bf6";
    assert_said(&rt, rt.alloc(), PRESENT, false, wanted)?;
    assert_said(&rt, rt.alloc(), PRESENT, true, "out of place")
}

/// Sync Info messages, and what is decoded of them.
const INFORMATION: [Row; 5] = [
    // Deleted ones.
    (
        b"0]\x02\x01\x07yX\x80\x181.3.6.1.4.1.4203.1.9.1.4\x81<\xa3:\x04\x0frid=000,sid=001\
        \x01\x01\xff1$\x04\x10\xf8\x1dO\xae}\xec\x11\xd0\xa7e\0\xa0\xc9\x1ek\xf6\x04\x10\0\
        \x11\"3DUfw\x88\x99\xaa\xbb\xcc\xdd\xee\xff",
        "deleted f81d4fae7dec11d0a76500a0c91e6bf6 112233445566778899aabbccddeeff cookie \
        rid=000,sid=001",
    ),
    // Present ones.
    (
        b"07\x02\x01\x07y2\x80\x181.3.6.1.4.1.4203.1.9.1.4\x81\x16\xa3\x141\x12\x04\x10\0\x11\
        \"3DUfw\x88\x99\xaa\xbb\xcc\xdd\xee\xff",
        "presents 112233445566778899aabbccddeeff cookie -",
    ),
    // A new cookie.
    (
        b"02\x02\x01\x07y-\x80\x181.3.6.1.4.1.4203.1.9.1.4\x81\x11\x80\x0frid=000,sid=001",
        "new cookie rid=000,sid=001",
    ),
    // RefreshDelete.
    (
        b"04\x02\x01\x07y/\x80\x181.3.6.1.4.1.4203.1.9.1.4\x81\x13\xa1\x11\x04\x0frid=000,sid\
        =001",
        "deletes end true cookie rid=000,sid=001",
    ),
    // RefreshPresent.
    (
        b"0&\x02\x01\x07y!\x80\x181.3.6.1.4.1.4203.1.9.1.4\x81\x05\xa2\x03\x01\x01\0",
        "presents end false cookie -",
    ),
];

#[test]
fn sync_info_messages_are_decoded(rt: HostRuntime) -> Result<(), Fail> {
    assert_decoded(&rt, rt.alloc(), &INFORMATION, false)?;
    assert_decoded(&rt, rt.alloc(), &INFORMATION, true)
}

/// Ends and other messages, and what is decoded of them.
const ENDS: [Row; 4] = [
    // The end with a Sync Done control.
    (
        b"0B\x02\x01\x07e\x07\x0a\x01\0\x04\0\x04\0\xa0402\x04\x181.3.6.1.4.1.4203.1.9.1.3\
        \x04\x160\x14\x04\x0frid=000,sid=001\x01\x01\xff",
        "done 0 deletes true cookie rid=000,sid=001",
    ),
    // The end without one.
    (b"0\x0c\x02\x01\x07e\x07\x0a\x013\x04\0\x04\0", "done 51"),
    // A reference.
    (b"0\x14\x02\x01\x07s\x0f\x04\x0dldap://h/dc=x", "passed"),
    // Another intermediate response.
    (
        b"0\x1f\x02\x01\x07y\x1a\x80\x181.3.6.1.4.1.4203.1.9.1.9",
        "passed",
    ),
];

#[test]
fn ends_and_other_messages_are_decoded(rt: HostRuntime) -> Result<(), Fail> {
    assert_decoded(&rt, rt.alloc(), &ENDS, false)?;
    assert_decoded(&rt, rt.alloc(), &ENDS, true)
}

/// What does not belong into a refresh, or is not as it has to be.
const MISPLACED: [Row; 6] = [
    // A bind response.
    (
        b"0\x0c\x02\x01\x07a\x07\x0a\x01\0\x04\0\x04\0",
        "out of place",
    ),
    // An entry without a control.
    (
        b"0\x81\xc1\x02\x01\x07d\x81\xbb\x04\x04dc=x0\x81\xb20'\x04\x0bobjectClass1\x18\x04\
        \x0corganization\x04\x08dcObject0\x0f\x04\x01o1\x0a\x04\x05X Ltd\x04\x01Y0\x09\x04\
        \x02dc1\x03\x04\x01x03\x04\x09entryUUID1&\x04$f81d4fae-7dec-11d0-a765-00a0c91e6bf606\
        \x04\x08entryCSN1*\x04(20260101000000.000000Z#000002#001#000000",
        "out of place",
    ),
    // A state of no grammar.
    (
        b"0\x81\xf8\x02\x01\x07d\x81\xbb\x04\x04dc=x0\x81\xb20'\x04\x0bobjectClass1\x18\x04\
        \x0corganization\x04\x08dcObject0\x0f\x04\x01o1\x0a\x04\x05X Ltd\x04\x01Y0\x09\x04\
        \x02dc1\x03\x04\x01x03\x04\x09entryUUID1&\x04$f81d4fae-7dec-11d0-a765-00a0c91e6bf606\
        \x04\x08entryCSN1*\x04(20260101000000.000000Z#000002#001#000000\xa0503\x04\x181.3.6.1\
        .4.1.4203.1.9.1.2\x04\x170\x15\x0a\x01\x04\x04\x10\xf8\x1dO\xae}\xec\x11\xd0\xa7e\0\
        \xa0\xc9\x1ek\xf6",
        "bad value",
    ),
    // A control without a value.
    (
        b"0\x81\xdf\x02\x01\x07d\x81\xbb\x04\x04dc=x0\x81\xb20'\x04\x0bobjectClass1\x18\x04\
        \x0corganization\x04\x08dcObject0\x0f\x04\x01o1\x0a\x04\x05X Ltd\x04\x01Y0\x09\x04\
        \x02dc1\x03\x04\x01x03\x04\x09entryUUID1&\x04$f81d4fae-7dec-11d0-a765-00a0c91e6bf606\
        \x04\x08entryCSN1*\x04(20260101000000.000000Z#000002#001#000000\xa0\x1c0\x1a\x04\x181\
        .3.6.1.4.1.4203.1.9.1.2",
        "bad value",
    ),
    // An end whose control has no value.
    (
        b"0*\x02\x01\x07e\x07\x0a\x01\0\x04\0\x04\0\xa0\x1c0\x1a\x04\x181.3.6.1.4.1.4203.1.9.\
        1.3",
        "bad value",
    ),
    // A Sync Info message without a value.
    (
        b"0\x1f\x02\x01\x07y\x1a\x80\x181.3.6.1.4.1.4203.1.9.1.4",
        "bad value",
    ),
];

#[test]
fn what_does_not_belong_is_refused(rt: HostRuntime) -> Result<(), Fail> {
    assert_decoded(&rt, rt.alloc(), &MISPLACED, false)
}

/// Entries that cannot be held.
const UNHELD: [Row; 6] = [
    // An entryUUID of another entry.
    (
        b"0\x81\xf8\x02\x01\x07d\x81\xbb\x04\x04dc=x0\x81\xb20'\x04\x0bobjectClass1\x18\x04\
        \x0corganization\x04\x08dcObject0\x0f\x04\x01o1\x0a\x04\x05X Ltd\x04\x01Y0\x09\x04\
        \x02dc1\x03\x04\x01x03\x04\x09entryUUID1&\x04$f81d4fae-7dec-11d0-a765-00a0c91e6bf606\
        \x04\x08entryCSN1*\x04(20260101000000.000000Z#000002#001#000000\xa0503\x04\x181.3.6.1\
        .4.1.4203.1.9.1.2\x04\x170\x15\x0a\x01\x01\x04\x10\0\x11\"3DUfw\x88\x99\xaa\xbb\xcc\
        \xdd\xee\xff",
        "differs 112233445566778899aabbccddeeff f81d4fae7dec11d0a76500a0c91e6bf6",
    ),
    // A name of no grammar.
    (
        b"0\x81\xf6\x02\x01\x07d\x81\xb9\x04\x02dc0\x81\xb20'\x04\x0bobjectClass1\x18\x04\x0c\
        organization\x04\x08dcObject0\x0f\x04\x01o1\x0a\x04\x05X Ltd\x04\x01Y0\x09\x04\x02dc1\
        \x03\x04\x01x03\x04\x09entryUUID1&\x04$f81d4fae-7dec-11d0-a765-00a0c91e6bf606\x04\x08\
        entryCSN1*\x04(20260101000000.000000Z#000002#001#000000\xa0503\x04\x181.3.6.1.4.1.420\
        3.1.9.1.2\x04\x170\x15\x0a\x01\x01\x04\x10\xf8\x1dO\xae}\xec\x11\xd0\xa7e\0\xa0\xc9\
        \x1ek\xf6",
        "bad entry 34",
    ),
    // A value outside the syntax of its type.
    (
        b"0\x81\xc7\x02\x01\x07d\x81\x8a\x04\x04dc=x0\x81\x810\x12\x04\x09uidNumber1\x05\x04\
        \x03one03\x04\x09entryUUID1&\x04$f81d4fae-7dec-11d0-a765-00a0c91e6bf606\x04\x08entryC\
        SN1*\x04(20260101000000.000000Z#000002#001#000000\xa0503\x04\x181.3.6.1.4.1.4203.1.9.\
        1.2\x04\x170\x15\x0a\x01\x01\x04\x10\xf8\x1dO\xae}\xec\x11\xd0\xa7e\0\xa0\xc9\x1ek\
        \xf6",
        "bad entry 21",
    ),
    // An entryUUID that is no text of one.
    (
        b"0\x81\xd7\x02\x01\x07d\x81\x9a\x04\x04dc=x0\x81\x910'\x04\x0bobjectClass1\x18\x04\
        \x0corganization\x04\x08dcObject0\x0f\x04\x01o1\x0a\x04\x05X Ltd\x04\x01Y0\x09\x04\
        \x02dc1\x03\x04\x01x0\x12\x04\x09entryUUID1\x05\x04\x03one06\x04\x08entryCSN1*\x04(20\
        260101000000.000000Z#000002#001#000000\xa0503\x04\x181.3.6.1.4.1.4203.1.9.1.2\x04\x17\
        0\x15\x0a\x01\x01\x04\x10\xf8\x1dO\xae}\xec\x11\xd0\xa7e\0\xa0\xc9\x1ek\xf6",
        "bad entry 21",
    ),
    // No entryCSN.
    (
        b"0\x81\xbf\x02\x01\x07d\x81\x82\x04\x04dc=x0z0'\x04\x0bobjectClass1\x18\x04\x0corgan\
        ization\x04\x08dcObject0\x0f\x04\x01o1\x0a\x04\x05X Ltd\x04\x01Y0\x09\x04\x02dc1\x03\
        \x04\x01x03\x04\x09entryUUID1&\x04$f81d4fae-7dec-11d0-a765-00a0c91e6bf6\xa0503\x04\
        \x181.3.6.1.4.1.4203.1.9.1.2\x04\x170\x15\x0a\x01\x01\x04\x10\xf8\x1dO\xae}\xec\x11\
        \xd0\xa7e\0\xa0\xc9\x1ek\xf6",
        "bad entry 65",
    ),
    // Two values of entryCSN.
    (
        b"0\x82\x01\"\x02\x01\x07d\x81\xe5\x04\x04dc=x0\x81\xdc0'\x04\x0bobjectClass1\x18\x04\
        \x0corganization\x04\x08dcObject0\x0f\x04\x01o1\x0a\x04\x05X Ltd\x04\x01Y0\x09\x04\
        \x02dc1\x03\x04\x01x03\x04\x09entryUUID1&\x04$f81d4fae-7dec-11d0-a765-00a0c91e6bf60`\
        \x04\x08entryCSN1T\x04(20260101000000.000000Z#000002#001#000000\x04(20260101000000.00\
        0000Z#000002#001#000000\xa0503\x04\x181.3.6.1.4.1.4203.1.9.1.2\x04\x170\x15\x0a\x01\
        \x01\x04\x10\xf8\x1dO\xae}\xec\x11\xd0\xa7e\0\xa0\xc9\x1ek\xf6",
        "bad entry 65",
    ),
];

#[test]
fn entries_that_cannot_be_held_are_refused(rt: HostRuntime) -> Result<(), Fail> {
    assert_decoded(&rt, rt.alloc(), &UNHELD, true)
}
