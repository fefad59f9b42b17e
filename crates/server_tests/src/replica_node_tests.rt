//! Replicas over links in memory. The bytes of the links were encoded by hand, after RFC 4511,
//! RFC 4533 and ITU-T X.690.

ghost use Rattle.std.specs.Prelude.{◌≤◌, IfSome};
ghost use Rattle.ldap_filter.specs.FilterTree.{depth, tree_of};

use crate::assertions::assert_same;
use crate::ldap_search_tests::plan_of;
use dn_names::Dn;
use ldap_ber::discard;
use replica_node::{NodeEnd, run_replica};
use std::alloc::Global;
use std::process::Abort;
use std::sync::Wait;
use sync_config::{Config, Upstream};
use sync_io::{FixedClock, MemoryDial, MemoryLink};
use sync_provider::{Kind, Provider};

/// A configuration with the upstream that is followed.
const CONFIG: &[u8] =
    b"listen = 'a'\n[upstream]\naddress = 'b'\nbase = 'dc=x'\nscope = 'sub'\nfilter = '(objectClass=*)'\n";

/// The first entry of a directory, the end of the refresh with its cookie, and that cookie.
const ADDED: &[u8] =
    b"0\x81\xf1\x02\x01\x01d\x81\xb4\x04\x04dc=x0\x81\xab0\x27\x04\x0bobjectClass1\x18\x04\x0corganization\x04\x08dcObject0\x08\x04\x01o1\x03\x04\x01X0\x09\x04\x02dc1\x03\x04\x01x03\x04\x09entryUUID1\x26\x04\x2400000000-0001-8000-8000-00000000000106\x04\x08entryCSN1\x2a\x04\x2819700101000000.000000Z#000001#001#000000\xa0503\x04\x181.3.6.1.4.1.4203.1.9.1.2\x04\x170\x15\x0a\x01\x01\x04\x10\x00\x00\x00\x00\x00\x01\x80\x00\x80\x00\x00\x00\x00\x00\x00\x01";

const REFRESHED: &[u8] =
    b"\x30\x81\x87\x02\x01\x01\x79\x81\x81\x80\x181.3.6.1.4.1.4203.1.9.1.4\x81\x65\xa2\x63\x04\x61rid=000,sid=001,csn=19700101000000.000000Z#000000#001#000000,gen=00000000000000000000000000000001";

const COOKIE: &[u8] =
    b"rid=000,sid=001,csn=19700101000000.000000Z#000000#001#000000,gen=00000000000000000000000000000001";

/// The end of a search with e-syncRefreshRequired.
const REQUIRED: &[u8] = b"\x30\x0d\x02\x01\x01\x65\x08\x0a\x02\x10\x00\x04\x00\x04\x00";

/// The end of a search with success and the message ID 2.
const OTHER: &[u8] = b"\x30\x0c\x02\x01\x02\x65\x07\x0a\x01\x00\x04\x00\x04\x00";

/// What the reads of each link give, how many connections are tried, how many commits are made, how
/// many entries are held then, and which requests have a cookie.
struct Row {
    name: &'static str,
    links: &'static [&'static [&'static [u8]]],
    rounds: u64,
    commits: u64,
    entries: usize,
    with_cookie: &'static [bool],
}

const ROWS: [Row; 9] = [
    Row {
        name: "an empty directory",
        links: &[&[REFRESHED]],
        rounds: 1,
        commits: 1,
        entries: 0,
        with_cookie: &[false],
    },
    Row {
        name: "one entry",
        links: &[&[ADDED, REFRESHED]],
        rounds: 1,
        commits: 1,
        entries: 1,
        with_cookie: &[false],
    },
    Row {
        name: "a refresh that is cut",
        links: &[&[ADDED]],
        rounds: 1,
        commits: 0,
        entries: 0,
        with_cookie: &[false],
    },
    Row {
        name: "a refresh that is cut, and then one that is whole",
        links: &[&[ADDED], &[REFRESHED]],
        rounds: 2,
        commits: 1,
        entries: 0,
        with_cookie: &[false, false],
    },
    Row {
        name: "no link",
        links: &[],
        rounds: 3,
        commits: 0,
        entries: 0,
        with_cookie: &[],
    },
    Row {
        name: "the cookie of the round before",
        links: &[&[ADDED, REFRESHED], &[]],
        rounds: 2,
        commits: 1,
        entries: 1,
        with_cookie: &[false, true],
    },
    Row {
        name: "a cookie that is refused is lost",
        links: &[&[ADDED, REFRESHED], &[REQUIRED], &[]],
        rounds: 3,
        commits: 1,
        entries: 1,
        with_cookie: &[false, true, false],
    },
    Row {
        name: "bytes outside the grammar",
        links: &[&[ADDED, b"\x31\x00", REFRESHED]],
        rounds: 1,
        commits: 0,
        entries: 0,
        with_cookie: &[false],
    },
    Row {
        name: "a message of another search",
        links: &[&[ADDED, OTHER, REFRESHED], &[REFRESHED]],
        rounds: 2,
        commits: 1,
        entries: 0,
        with_cookie: &[false, false],
    },
];

/// A dialler with a link for each list of pieces.
fn dial_of(rt: &impl Abort, alloc: Global, links: &[&[&[u8]]]) -> MemoryDial {
    let mut plans = Vec::new(alloc);
    for pieces in links {
        let plan = plan_of(rt, alloc, pieces, false, &[]);
        plans.push(plan).expect(rt, "a plan");
    }
    MemoryDial::new(alloc, plans)
}

/// The upstream of a configuration, if it has one.
fn upstream_in(config: Config) -> Option<Upstream>
    requires { IfSome config.upstream (λ upstream. depth (tree_of upstream.spec.filter) ≤ 32) }
    ensures { IfSome result (λ upstream. depth (tree_of upstream.spec.filter) ≤ 32) }
{
    config.upstream
}

/// The upstream that is followed.
fn upstream_of(rt: &impl Abort, alloc: Global) -> Upstream
    ensures { depth (tree_of result.spec.filter) ≤ 32 }
{
    let Ok(config) = Config::read(alloc, CONFIG) else {
        panic!(rt; "there is no configuration")
    };
    let Some(upstream) = upstream_in(config) else {
        panic!(rt; "there is no upstream")
    };
    upstream
}

/// Whether these bytes stand among the others.
fn contains(bytes: &[u8], part: &[u8]) -> bool {
    for start in 0..bytes.len() {
        if bytes[start..].starts_with(part) {
            return true;
        }
    }
    false
}

/// Asserts that each connection was asked for at the upstream's address, and each link hung up, and
/// which of the requests on them had the cookie.
fn assert_dialled(rt: &impl Abort, dial: &MemoryDial, row: &Row) {
    let name = row.name;
    assert_same(rt, name, &(dial.asked().len() as u64), &row.rounds);
    for attempt in dial.asked() {
        assert_same(rt, name, &attempt.address.as_str(), &"b");
    }
    assert_requests(rt, dial.hung_up(), row);
}

fn assert_requests(rt: &impl Abort, links: &[MemoryLink], row: &Row) {
    let name = row.name;
    assert_same(rt, name, &links.len(), &row.with_cookie.len());
    for (link, wanted) in links.iter().zip(row.with_cookie) {
        assert_same(rt, name, &contains(link.bytes_held(), COOKIE), wanted);
    }
}

// Nothing is left early while an upstream, a replica or a dialler stands, whose drop would be
// written out there: what is missing ends the test.

/// How a replica follows the upstream over these connections, how many writes it has in the end,
/// and how many entries.
fn followed<R: Wait + Abort>(
    rt: &R,
    alloc: Global,
    dial: &mut MemoryDial,
    rounds: u64,
) -> (NodeEnd, u64, usize) {
    let replica = Provider::new(alloc, Dn::empty(alloc), 0, 1, Kind::Replica);
    let mut replica = replica.expect(rt, "a replica");
    let upstream = upstream_of(rt, alloc);
    let clock = FixedClock { micros: 0 };
    let end = run_replica(rt, alloc, &mut replica, dial, clock, &upstream, rounds);
    discard(upstream);
    let (writes, entries) = (replica.writes(), replica.tree().len());
    discard(replica);
    (end, writes, entries)
}

fn assert_follows<R: Wait + Abort>(rt: &R, alloc: Global, row: &Row) {
    let mut dial = dial_of(rt, alloc, row.links);
    let found = followed(rt, alloc, &mut dial, row.rounds);
    let wanted = (NodeEnd::Rounds(row.commits), row.commits, row.entries);
    assert_same(rt, row.name, &found, &wanted);
    assert_dialled(rt, &dial, row);
    discard(dial);
}

#[test]
fn replicas_follow_their_upstream(rt: HostRuntime) {
    for row in &ROWS {
        assert_follows(&rt, rt.alloc(), row);
    }
}
