//! Sessions over links in memory: what is read and written, and how they end.

use crate::assertions::assert_same;
use crate::ldap_server_tests::{ADD, BIND, BOUND, UNBIND, session};
use ldap_ber::{NoMemory, Octets, discard};
use ldap_server::{Access, Ended, OpenGate, serve_connection};
use std::alloc::Global;
use std::process::Abort;
use std::sync::Wait;
use sync_io::{FixedClock, LinkPlan, MemoryLink, Step};

/// What a read of a link gives.
#[derive(Clone, Copy)]
pub(crate) enum Part {
    Give(&'static [u8]),
    Quiet,
    Fail,
}

/// Links: what their reads give, which write fails, if one does, and of the session over them how
/// it ends, how many bytes were read, and what was written.
type LinkRow = (
    &'static str,
    &'static [Part],
    Option<u64>,
    Ended,
    usize,
    &'static [u8],
);

const LINKS: [LinkRow; 5] = [
    (
        "a bind in two pieces, and an unbind",
        &[
            Part::Give(b"\x30\x0c\x02\x01\x01"),
            Part::Quiet,
            Part::Give(b"\x60\x07\x02\x01\x03\x04\x00\x80\x00"),
            Part::Give(UNBIND),
        ],
        None,
        Ended::Unbound,
        21,
        BOUND,
    ),
    (
        "an unbind, after which nothing is read",
        &[Part::Give(UNBIND), Part::Give(BIND)],
        None,
        Ended::Unbound,
        7,
        b"",
    ),
    (
        "an end of the input",
        &[Part::Give(BIND)],
        None,
        Ended::EndOfInput,
        14,
        BOUND,
    ),
    (
        "a read that fails",
        &[Part::Give(BIND), Part::Fail, Part::Give(UNBIND)],
        None,
        Ended::ReadFault,
        14,
        BOUND,
    ),
    (
        "a write that fails",
        &[Part::Give(BIND), Part::Give(UNBIND)],
        Some(1),
        Ended::WriteFault,
        14,
        b"",
    ),
];

/// A search of `dc=x` for its entryCSN.
const SEARCH_CSN: &[u8] =
    b"\x30\x33\x02\x01\x02\x63\x2e\x04\x04dc=x\x0a\x01\x00\x0a\x01\x00\x02\x01\x00\x02\x01\x00\x01\x01\x00\x87\x0bobjectClass\x30\x0a\x04\x08entryCSN";

/// The answers to the add and the search where the clock shows 1,700,000,000 seconds.
const ADDED_WITH_CSN: &[u8] =
    b"\x30\x0c\x02\x01\x01\x69\x07\x0a\x01\x00\x04\x00\x04\x00\x30\x45\x02\x01\x02\x64\x40\x04\x04dc=x\x30\x38\x30\x36\x04\x08entryCSN\x31\x2a\x04\x2820231114221320.000000Z#000000#001#000000\x30\x0c\x02\x01\x02\x65\x07\x0a\x01\x00\x04\x00\x04\x00";

fn step_of(alloc: Global, part: Part) -> Result<Step, NoMemory> {
    match part {
        Part::Give(bytes) => Ok(Step::Give(Octets::from_slice(alloc, bytes)?)),
        Part::Quiet => Ok(Step::Quiet),
        Part::Fail => Ok(Step::Fail),
    }
}

fn steps_of(alloc: Global, parts: &[Part]) -> Result<Vec<Step>, NoMemory> {
    let mut steps = Vec::new(alloc);
    for part in parts {
        steps.push(step_of(alloc, *part)?)?;
    }
    Ok(steps)
}

/// The plan of a link whose reads give these parts, and whose write with this number fails.
pub(crate) fn plan_of(
    alloc: Global,
    parts: &[Part],
    failing: Option<u64>,
) -> Result<LinkPlan, NoMemory> {
    let steps = steps_of(alloc, parts)?;
    let mut numbers = Vec::new(alloc);
    if let Some(number) = failing {
        numbers.push(number)?;
    }
    Ok(LinkPlan {
        steps,
        failing: numbers,
    })
}

/// Serves a link where the clock shows this time, and gives how its session ended.
fn serve<R: Wait + Abort>(rt: &R, alloc: Global, link: &mut MemoryLink, micros: u64) -> Ended {
    let mut connection = session(rt, alloc, Access::Free);
    let clock = FixedClock { micros };
    let ended = serve_connection(rt, 1, &mut connection, link, clock, &OpenGate);
    discard(connection);
    ended
}

fn check_link<R: Wait + Abort>(rt: &R, alloc: Global, row: &LinkRow) {
    let (name, parts, failing, ended, read, held) = *row;
    let plan = plan_of(alloc, parts, failing).expect(rt, "a plan");
    let mut link = MemoryLink::new(alloc, plan);
    let found = serve(rt, alloc, &mut link, 0);
    assert_same(rt, name, &found, &ended);
    assert_same(rt, name, &link.bytes_read().len(), &read);
    assert_same(rt, name, &link.bytes_held(), &held);
    discard(link);
}

#[test]
fn sessions_over_links(rt: HostRuntime) {
    for row in &LINKS {
        check_link(&rt, rt.alloc(), row);
    }
}

/// A write has the time that the clock shows when its piece comes.
#[test]
fn a_write_has_the_time_of_the_clock(rt: HostRuntime) {
    let parts = [Part::Give(ADD), Part::Give(SEARCH_CSN)];
    let plan = plan_of(rt.alloc(), &parts, None).expect(&rt, "a plan");
    let mut link = MemoryLink::new(rt.alloc(), plan);
    let ended = serve(&rt, rt.alloc(), &mut link, 1_700_000_000_000_000);
    assert!(rt; ended == Ended::EndOfInput && link.bytes_held() == ADDED_WITH_CSN);
    discard(link);
}
