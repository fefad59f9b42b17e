//! Connections of a net in memory, each on a thread of its own, over one directory.

use crate::assertions::assert_same;
use crate::ldap_server_tests::{ADD, ADDED, BIND, BOUND, FOUND, SEARCH, UNBIND, provider};
use crate::serving_tests::{Part, plan_of};
use ldap_ber::discard;
use ldap_listener::{Limits, serve_directory};
use ldap_server::{Access, OpenGate};
use std::alloc::Global;
use std::process::Abort;
use std::sync::Wait;
use std::thread::Threads;
use sync_io::{FixedClock, MemoryLink, MemoryNet, Net, NetFault};

/// A link of a net: what its reads give, which write fails, if one does, and what was written on it
/// when it is released.
type LinkRow = (&'static [Part], Option<u64>, &'static [u8]);

/// A net: how many connections are served, or 0 without end, its links, how many writes there are
/// in the end, and whether the net failed.
type NetRow = (&'static str, u64, &'static [LinkRow], u64, Option<NetFault>);

/// Nets whose links have one seat, so that they are served in turn.
const NETS: [NetRow; 4] = [
    (
        "what one connection adds another finds",
        3,
        &[
            (&[Part::Give(ADD), Part::Give(UNBIND)], None, ADDED),
            (&[Part::Give(SEARCH)], None, FOUND),
            (&[Part::Give(SEARCH), Part::Quiet], None, FOUND),
        ],
        1,
        None,
    ),
    (
        "faults of a connection end that one",
        3,
        &[
            (
                &[Part::Give(BIND), Part::Fail, Part::Give(ADD)],
                None,
                BOUND,
            ),
            (&[Part::Give(ADD), Part::Give(BIND)], Some(1), b""),
            (&[Part::Give(SEARCH)], None, FOUND),
        ],
        1,
        None,
    ),
    (
        "a net that fails ends the serving",
        0,
        &[(&[Part::Give(BIND)], None, BOUND), (&[], None, b"")],
        0,
        Some(NetFault::Failed),
    ),
    (
        "a net that fails before the last connection",
        2,
        &[(&[Part::Give(ADD)], None, ADDED)],
        1,
        Some(NetFault::Failed),
    ),
];

fn net_of(rt: &impl Abort, alloc: Global, links: &[LinkRow]) -> MemoryNet {
    let mut plans = Vec::new(alloc);
    for (parts, failing, _) in links {
        let plan = plan_of(alloc, parts, *failing).expect(rt, "a plan");
        plans.push(plan).expect(rt, "a plan");
    }
    MemoryNet::new(alloc, plans, Vec::new(alloc))
}

// Nothing is left early while a net or a directory stands, whose drop would be written out there:
// what is missing ends the test.

/// Serves the links of a net, and gives how many writes were accepted, and how the net failed, if
/// it did.
fn serve<R: Threads + Wait + Sync + Abort>(
    rt: &R,
    alloc: Global,
    net: &mut MemoryNet,
    limits: Limits,
) -> (u64, Option<NetFault>) {
    if limits.seats < 1 || 1_024 < limits.seats {
        panic!(rt; "no seats, or too many")
    }
    let door = net.listen("here:389").expect(rt, "a door");
    let provider = provider(rt, alloc);
    let clock = FixedClock { micros: 0 };
    let served = serve_directory(
        rt,
        alloc,
        provider,
        &Access::Free,
        limits,
        net,
        door,
        clock,
        &OpenGate,
    );
    let (provider, accepted) = served.expect(rt, "a directory");
    let writes = provider.writes();
    discard(provider);
    (writes, accepted.err())
}

/// Asserts that each link was released, and what was written on it.
fn assert_released(rt: &impl Abort, row: &str, released: &[MemoryLink], links: &[LinkRow]) {
    assert_same(rt, row, &released.len(), &links.len());
    for (link, (_, _, held)) in released.iter().zip(links) {
        assert_same(rt, row, &link.bytes_held(), held);
    }
}

fn check_net<R: Threads + Wait + Sync + Abort>(rt: &R, alloc: Global, row: &NetRow) {
    let (name, connections, links, writes, fault) = *row;
    let mut net = net_of(rt, alloc, links);
    let limits = Limits {
        seats: 1,
        connections,
    };
    let found = serve(rt, alloc, &mut net, limits);
    assert_same(rt, name, &found, &(writes, fault));
    assert_same(rt, name, &net.accepted(), &links.len());
    assert_released(rt, name, net.released(), links);
    discard(net);
}

#[test]
fn connections_of_one_seat(rt: HostRuntime) {
    for row in &NETS {
        check_net(&rt, rt.alloc(), row);
    }
}

/// How many connections are served at once.
const SEATS: [u32; 3] = [1, 3, 8];

/// A link that binds and unbinds.
const BOUND_LINK: LinkRow = (&[Part::Give(BIND), Part::Give(UNBIND)], None, BOUND);

fn check_seats<R: Threads + Wait + Sync + Abort>(rt: &R, alloc: Global, seats: u32) {
    let mut net = net_of(rt, alloc, &[BOUND_LINK; 9]);
    let limits = Limits {
        seats,
        connections: 9,
    };
    let found = serve(rt, alloc, &mut net, limits);
    assert_same(rt, "seats", &found, &(0, None));
    assert_same(rt, "links", &net.released().len(), &9);
    for link in net.released() {
        assert!(rt; link.bytes_held() == BOUND && link.bytes_read().len() == 21);
    }
    discard(net);
}

/// Each connection is answered, and its link released once, however many seats there are.
#[test]
fn connections_of_some_seats(rt: HostRuntime) {
    for seats in &SEATS {
        check_seats(&rt, rt.alloc(), *seats);
    }
}
