//! Searches over a net in memory: what is written and printed, and how they end. The bytes were
//! encoded by hand, after RFC 4511, RFC 4533 and ITU-T X.690.

ghost use Rattle.std.specs.Prelude.{◌<◌, ◌≤◌, IfSome};
ghost use Rattle.ldap_filter.specs.FilterTree.{depth, tree_of};

use crate::assertions::assert_same;
use dn_names::Dn;
use entry_tree::{Scope, Spec};
use ldap_ber::{NoMemory, Octets, discard};
use ldap_filter::Filter;
use ldap_search::{SearchEnd, search};
use std::alloc::Global;
use std::process::Abort;
use std::sync::Wait;
use sync_io::{FaultySink, LinkPlan, MemoryNet, Step};

/// The search request with the message ID 1 for all of `dc=x`; the same for all user and all
/// operational attributes, with a Sync Request control that asks for refreshAndPersist; and that
/// one with an unbind after it, which has the message ID 2.
const ASKED: &[u8] =
    b"\x30\x29\x02\x01\x01\x63\x24\x04\x04dc=x\x0a\x01\x02\x0a\x01\x00\x02\x01\x00\x02\x01\x00\
      \x01\x01\x00\x87\x0bobjectClass\x30\x00";

const REQUESTED: &[u8] =
    b"\x30\x57\x02\x01\x01\x63\x2a\x04\x04dc=x\x0a\x01\x02\x0a\x01\x00\x02\x01\x00\x02\x01\x00\
      \x01\x01\x00\x87\x0bobjectClass\x30\x06\x04\x01*\x04\x01+\
      \xa0\x26\x30\x24\x04\x181.3.6.1.4.1.4203.1.9.1.1\x01\x01\xff\x04\x05\x30\x03\x0a\x01\x03";

const UNBOUND: &[u8] =
    b"\x30\x57\x02\x01\x01\x63\x2a\x04\x04dc=x\x0a\x01\x02\x0a\x01\x00\x02\x01\x00\x02\x01\x00\
      \x01\x01\x00\x87\x0bobjectClass\x30\x06\x04\x01*\x04\x01+\
      \xa0\x26\x30\x24\x04\x181.3.6.1.4.1.4203.1.9.1.1\x01\x01\xff\x04\x05\x30\x03\x0a\x01\x03\
      \x30\x05\x02\x01\x02\x42\x00";

/// The end of a search with noSuchObject, with success, and with e-syncRefreshRequired; one with
/// the message ID 2; and the answer to a bind.
const MISSING: &[u8] = b"\x30\x0c\x02\x01\x01\x65\x07\x0a\x01\x20\x04\x00\x04\x00";

const SUCCESS: &[u8] = b"\x30\x0c\x02\x01\x01\x65\x07\x0a\x01\x00\x04\x00\x04\x00";

const REQUIRED: &[u8] = b"\x30\x0d\x02\x01\x01\x65\x08\x0a\x02\x10\x00\x04\x00\x04\x00";

const OTHER: &[u8] = b"\x30\x0c\x02\x01\x02\x65\x07\x0a\x01\x00\x04\x00\x04\x00";

const BOUND: &[u8] = b"\x30\x0c\x02\x01\x01\x61\x07\x0a\x01\x00\x04\x00\x04\x00";

/// The entry `dc=x` with two values of `o`, of which one is empty, and the same with the message
/// ID 2; an entry whose name is not in ASCII, with a value that begins with a space and with an
/// attribute that has none; and a reference.
const ENTRY: &[u8] =
    b"\x30\x19\x02\x01\x01\x64\x14\x04\x04dc=x\x30\x0c\x30\x0a\x04\x01o\x31\x05\x04\x01X\x04\x00";

const OTHER_ENTRY: &[u8] =
    b"\x30\x19\x02\x01\x02\x64\x14\x04\x04dc=x\x30\x0c\x30\x0a\x04\x01o\x31\x05\x04\x01X\x04\x00";

const ACCENT: &[u8] =
    b"\x30\x38\x02\x01\x01\x64\x33\x04\x05cn=\xc3\xa9\x30\x2a\x30\x16\x04\x0bdescription\
      \x31\x07\x04\x02 a\x04\x01b\x30\x10\x04\x0cphoto;binary\x31\x00";

const REFERENCE: &[u8] = b"\x30\x14\x02\x01\x01\x73\x0f\x04\x0dldap://a/dc=y";

/// The end of the refresh of an empty directory and of one with a write, each with its cookie; the
/// entry that the write added, and its delete, with the cookie after it.
const EMPTY: &[u8] =
    b"\x30\x81\x87\x02\x01\x01\x79\x81\x81\x80\x181.3.6.1.4.1.4203.1.9.1.4\x81\x65\xa2\x63\x04\x61\
      rid=000,sid=001,csn=19700101000000.000000Z#000000#001#000000,\
      gen=00000000000000000000000000000001";

const REFRESHED: &[u8] =
    b"\x30\x81\x87\x02\x01\x01\x79\x81\x81\x80\x181.3.6.1.4.1.4203.1.9.1.4\x81\x65\xa2\x63\x04\x61\
      rid=000,sid=001,csn=19700101000000.000000Z#000001#001#000000,\
      gen=00000000000000000000000000000001";

const ADDED: &[u8] =
    b"\x30\x81\xf1\x02\x01\x01\x64\x81\xb4\x04\x04dc=x\x30\x81\xab\x30\x27\x04\x0bobjectClass\
      \x31\x18\x04\x0corganization\x04\x08dcObject\x30\x08\x04\x01o\x31\x03\x04\x01X\
      \x30\x09\x04\x02dc\x31\x03\x04\x01x\x30\x33\x04\x09entryUUID\x31\x26\x04\x24\
      00000000-0001-8000-8000-000000000001\x30\x36\x04\x08entryCSN\x31\x2a\x04\x28\
      19700101000000.000000Z#000001#001#000000\xa0\x35\x30\x33\x04\x181.3.6.1.4.1.4203.1.9.1.2\
      \x04\x17\x30\x15\x0a\x01\x01\
      \x04\x10\x00\x00\x00\x00\x00\x01\x80\x00\x80\x00\x00\x00\x00\x00\x00\x01";

const DELETED: &[u8] =
    b"\x30\x81\xa9\x02\x01\x01\x64\x08\x04\x04dc=x\x30\x00\xa0\x81\x99\x30\x81\x96\
      \x04\x181.3.6.1.4.1.4203.1.9.1.2\x04\x7a\x30\x78\x0a\x01\x03\
      \x04\x10\x00\x00\x00\x00\x00\x01\x80\x00\x80\x00\x00\x00\x00\x00\x00\x01\x04\x61\
      rid=000,sid=001,csn=19700101000000.000000Z#000002#001#000000,\
      gen=00000000000000000000000000000001";

/// The lines of the cookies: of no entry, and of the one that was added. The digests are those of
/// the empty text and of its LDIF, by another program.
const NONE_STORED: &[u8] =
    b"stored entries 0 sha256 e3b0c44298fc1c149afbf4c8996fb92427ae41e4649b934ca495991b7852b855\n";

const ONE_STORED: &[u8] =
    b"stored entries 1 sha256 8f8bbfc32f02a834239e30b6652655f8b425d92fe020ac9bd789cbeb3244bf78\n";

/// Searches without a count: what reads give before the link comes to its end, what is printed, and
/// how it ends.
type Answer = (
    &'static str,
    &'static [&'static [u8]],
    &'static [u8],
    SearchEnd,
);

const ANSWERS: [Answer; 11] = [
    ("no such base", &[MISSING], b"result 32\n", SearchEnd::Done),
    ("nothing", &[], b"", SearchEnd::PeerFault),
    (
        "an entry, a reference and an end",
        &[ENTRY, REFERENCE, SUCCESS],
        b"dn: dc=x\no: X\no: \n\nresult 0\n",
        SearchEnd::Done,
    ),
    (
        "values in base64",
        &[ACCENT, SUCCESS],
        b"dn:: Y249w6k=\ndescription:: IGE=\ndescription: b\n\nresult 0\n",
        SearchEnd::Done,
    ),
    (
        "an end in two pieces, with more after it",
        &[
            b"\x30\x0c\x02\x01\x01\x65\x07",
            b"\x0a\x01\x00\x04\x00\x04\x00\x30\x0c\x02",
        ],
        b"result 0\n",
        SearchEnd::Done,
    ),
    (
        "no end",
        &[ENTRY],
        b"dn: dc=x\no: X\no: \n\n",
        SearchEnd::PeerFault,
    ),
    (
        "an entry of another search",
        &[OTHER_ENTRY, SUCCESS],
        b"",
        SearchEnd::PeerFault,
    ),
    (
        "the end of another search",
        &[OTHER, SUCCESS],
        b"",
        SearchEnd::PeerFault,
    ),
    (
        "the answer to a bind",
        &[BOUND, SUCCESS],
        b"",
        SearchEnd::PeerFault,
    ),
    (
        "what is outside the grammar",
        &[ENTRY, b"\x31\x00"],
        b"dn: dc=x\no: X\no: \n\n",
        SearchEnd::PeerFault,
    ),
    (
        "a part of an end",
        &[b"\x30\x0c\x02"],
        b"",
        SearchEnd::PeerFault,
    ),
];

/// Searches that are followed: the same, with the number of cookies after which they end, and what
/// is written.
type Following = (
    &'static str,
    &'static [&'static [u8]],
    u64,
    &'static [&'static [u8]],
    &'static [u8],
    SearchEnd,
);

const FOLLOWED: [Following; 9] = [
    (
        "a cookie",
        &[EMPTY],
        1,
        &[NONE_STORED],
        UNBOUND,
        SearchEnd::Done,
    ),
    (
        "a cookie after an entry",
        &[ADDED, REFRESHED],
        1,
        &[ONE_STORED],
        UNBOUND,
        SearchEnd::Done,
    ),
    (
        "two cookies",
        &[ADDED, REFRESHED, DELETED],
        2,
        &[ONE_STORED, NONE_STORED],
        UNBOUND,
        SearchEnd::Done,
    ),
    (
        "no such base",
        &[MISSING],
        1,
        &[b"result 32\n"],
        REQUESTED,
        SearchEnd::Done,
    ),
    (
        "an end after a cookie",
        &[EMPTY, REQUIRED],
        2,
        &[NONE_STORED, b"result 4096\n"],
        REQUESTED,
        SearchEnd::Done,
    ),
    (
        "no end",
        &[EMPTY],
        2,
        &[NONE_STORED],
        REQUESTED,
        SearchEnd::PeerFault,
    ),
    (
        "an entry without a state",
        &[ENTRY],
        1,
        &[],
        REQUESTED,
        SearchEnd::PeerFault,
    ),
    (
        "the end of another search",
        &[OTHER],
        1,
        &[],
        REQUESTED,
        SearchEnd::PeerFault,
    ),
    (
        "what is outside the grammar",
        &[b"\x31\x00"],
        1,
        &[],
        REQUESTED,
        SearchEnd::PeerFault,
    ),
];

/// Searches of which a call fails: what reads give before one fails, the numbers of the writes of
/// the link and of the calls of the output that fail; after how many cookies it ends, or 0; what is
/// printed and written, and how it ends.
type Failing = (
    &'static str,
    &'static [&'static [u8]],
    &'static [u64],
    &'static [u64],
    u64,
    &'static [u8],
    &'static [u8],
    SearchEnd,
);

const FAILING: [Failing; 9] = [
    (
        "a read",
        &[ENTRY],
        &[],
        &[],
        0,
        b"dn: dc=x\no: X\no: \n\n",
        ASKED,
        SearchEnd::NetFault,
    ),
    (
        "the request",
        &[SUCCESS],
        &[1],
        &[],
        0,
        b"",
        b"",
        SearchEnd::NetFault,
    ),
    (
        "an entry that is printed",
        &[ENTRY, SUCCESS],
        &[],
        &[1],
        0,
        b"",
        ASKED,
        SearchEnd::OutputFault,
    ),
    (
        "the result that is printed",
        &[ENTRY, SUCCESS],
        &[],
        &[2],
        0,
        b"dn: dc=x\no: X\no: \n\n",
        ASKED,
        SearchEnd::OutputFault,
    ),
    (
        "the flush after it",
        &[SUCCESS],
        &[],
        &[2],
        0,
        b"result 0\n",
        ASKED,
        SearchEnd::OutputFault,
    ),
    (
        "a read of a search that is followed",
        &[EMPTY],
        &[],
        &[],
        2,
        NONE_STORED,
        REQUESTED,
        SearchEnd::NetFault,
    ),
    (
        "the request of one that is followed",
        &[EMPTY],
        &[1],
        &[],
        1,
        b"",
        b"",
        SearchEnd::NetFault,
    ),
    (
        "the line of a cookie",
        &[EMPTY],
        &[],
        &[1],
        1,
        b"",
        REQUESTED,
        SearchEnd::OutputFault,
    ),
    (
        "the unbind",
        &[EMPTY],
        &[2],
        &[],
        1,
        NONE_STORED,
        REQUESTED,
        SearchEnd::NetFault,
    ),
];

/// What a search came to.
#[derive(Drop)]
struct Searched {
    end: SearchEnd,
    printed: FaultySink,
    net: MemoryNet,
}

// Nothing is left early while a net or a search stands, whose drop would be written out there: what
// is missing ends the test.

/// Reads that give these bytes, and then fail or come to an end.
fn steps_of(alloc: Global, reads: &[&[u8]], fails: bool) -> Result<Vec<Step>, NoMemory> {
    let mut steps = Vec::new(alloc);
    for bytes in reads {
        steps.push(Step::Give(Octets::from_slice(alloc, bytes)?))?;
    }
    if fails {
        steps.push(Step::Fail)?;
    }
    Ok(steps)
}

/// A link whose reads give these bytes, and then fail or come to an end, and whose writes with
/// these numbers fail.
pub(crate) fn plan_of(
    rt: &impl Abort,
    alloc: Global,
    reads: &[&[u8]],
    fails: bool,
    failing: &[u64],
) -> LinkPlan {
    LinkPlan {
        steps: steps_of(alloc, reads, fails).expect(rt, "steps"),
        failing: failing.to_vec(alloc).expect(rt, "writes that fail"),
    }
}

/// All of `dc=x`.
fn all(rt: &impl Abort, alloc: Global) -> Spec
    ensures { depth (tree_of result.filter) ≤ 32 }
{
    let base = Dn::parse(alloc, b"dc=x").expect(rt, "a base");
    let kind = Octets::from_slice(alloc, b"objectClass").expect(rt, "a type");
    Spec {
        base,
        scope: Scope::Sub,
        filter: Filter::Present(kind),
    }
}

/// The number of cookies, if it is not 0.
fn wanted(count: u64) -> Option<u64>
    ensures { IfSome result (λ wanted. 0 < wanted) }
{
    if count == 0 {
        return None;
    }
    Some(count)
}

/// A net with one caller, which has these links.
fn net_of(rt: &impl Abort, alloc: Global, links: Vec<LinkPlan>) -> MemoryNet {
    let mut calls = Vec::new(alloc);
    calls.push(links).expect(rt, "a caller");
    MemoryNet::new(alloc, Vec::new(alloc), calls)
}

/// Searches all of `dc=x` over a net with one caller, which has these links, for an output whose
/// calls with these numbers fail.
fn search_links<R: Wait + Abort>(
    rt: &R,
    alloc: Global,
    links: Vec<LinkPlan>,
    unprinted: &[u64],
    count: u64,
) -> Searched {
    let unprinted = unprinted.to_vec(alloc).expect(rt, "calls that fail");
    let mut net = net_of(rt, alloc, links);
    let mut printed = FaultySink::new(alloc, unprinted);
    let count = wanted(count);
    let spec = all(rt, alloc);
    let end = search(rt, alloc, "a", spec, count, &mut printed, &mut net);
    let end = end.expect(rt, "an end");
    Searched { end, printed, net }
}

/// The same with one link.
fn search_link<R: Wait + Abort>(
    rt: &R,
    alloc: Global,
    link: LinkPlan,
    unprinted: &[u64],
    count: u64,
) -> Searched {
    let mut links = Vec::new(alloc);
    links.push(link).expect(rt, "a link");
    search_links(rt, alloc, links, unprinted, count)
}

/// Asserts that a search ended so and printed this; that the one caller was retired, and asked the
/// address for the one link, on which this was written and which was hung up.
fn assert_searched(
    rt: &impl Abort,
    name: &str,
    searched: &Searched,
    end: SearchEnd,
    printed: &[u8],
    written: &[u8],
) {
    assert_same(rt, name, &searched.end, &end);
    assert_same(rt, name, &searched.printed.bytes(), &printed);
    assert_called(rt, name, &searched.net, written);
}

fn assert_called(rt: &impl Abort, name: &str, net: &MemoryNet, written: &[u8]) {
    let counts = (net.retired().len(), net.gone().len());
    assert_same(rt, name, &counts, &(1, 0));
    let caller = net.retired().first().expect(rt, name);
    let counts = (caller.asked().len(), caller.hung_up().len());
    assert_same(rt, name, &counts, &(1, 1));
    let attempt = caller.asked().first().expect(rt, name);
    assert_same(rt, name, &attempt.address.as_str(), &"a");
    let link = caller.hung_up().first().expect(rt, name);
    assert_same(rt, name, &link.bytes_held(), &written);
}

fn check_answer<R: Wait + Abort>(rt: &R, alloc: Global, row: &Answer) {
    let (name, reads, printed, end) = *row;
    let plan = plan_of(rt, alloc, reads, false, &[]);
    let searched = search_link(rt, alloc, plan, &[], 0);
    assert_searched(rt, name, &searched, end, printed, ASKED);
    discard(searched);
}

#[test]
fn answers_are_printed(rt: HostRuntime) {
    for row in &ANSWERS {
        check_answer(&rt, rt.alloc(), row);
    }
}

fn joined(alloc: Global, lines: &[&[u8]]) -> Result<Vec<u8>, NoMemory> {
    let mut text = Vec::new(alloc);
    for line in lines {
        text.extend_from_slice(line)?;
    }
    Ok(text)
}

fn check_following<R: Wait + Abort>(rt: &R, alloc: Global, row: &Following) {
    let (name, reads, count, lines, written, end) = *row;
    let printed = joined(alloc, lines).expect(rt, "lines");
    let plan = plan_of(rt, alloc, reads, false, &[]);
    let searched = search_link(rt, alloc, plan, &[], count);
    assert_searched(rt, name, &searched, end, &printed, written);
    discard(searched);
}

#[test]
fn searches_are_followed(rt: HostRuntime) {
    for row in &FOLLOWED {
        check_following(&rt, rt.alloc(), row);
    }
}

fn check_failing<R: Wait + Abort>(rt: &R, alloc: Global, row: &Failing) {
    let (name, reads, failing, unprinted, count, printed, written, end) = *row;
    let plan = plan_of(rt, alloc, reads, true, failing);
    let searched = search_link(rt, alloc, plan, unprinted, count);
    assert_searched(rt, name, &searched, end, printed, written);
    discard(searched);
}

#[test]
fn calls_fail(rt: HostRuntime) {
    for row in &FAILING {
        check_failing(&rt, rt.alloc(), row);
    }
}

/// The address is asked once, and nothing is printed.
#[test]
fn no_link_comes(rt: HostRuntime) {
    let alloc = rt.alloc();
    let searched = search_links(&rt, alloc, Vec::new(alloc), &[], 0);
    assert!(rt; searched.end == SearchEnd::NetFault && searched.printed.bytes().is_empty());
    assert!(rt; searched.net.retired().len() == 1);
    let caller = &searched.net.retired()[0];
    assert!(rt; caller.asked().len() == 1 && caller.hung_up().is_empty());
    assert!(rt; !caller.asked()[0].came);
    discard(searched);
}
