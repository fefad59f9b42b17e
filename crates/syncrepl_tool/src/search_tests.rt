//! Searches over a net in memory. The bytes of the links were encoded by hand, after RFC 4511,
//! RFC 4533 and ITU-T X.690.

use crate::run::run;
use cascade_world::World;
use ldap_ber::{NoMemory, Octets, discard};
use std::alloc::Global;
use std::process::Abort;
use std::sync::Wait;
use std::test::Fail;
use std::thread::Threads;
use sync_io::{
    FixedClock, FixedWords, LinkPlan, MemoryNet, MemoryShelf, MemorySink, MemorySource, Step,
};

/// The search request with the message ID 1 for all of `dc=x`; and the same for all user and all
/// operational attributes, with a Sync Request control that asks for refreshAndPersist, and an
/// unbind after it, which has the message ID 2.
const ASKED: &[u8] =
    b"\x30\x29\x02\x01\x01\x63\x24\x04\x04dc=x\x0a\x01\x02\x0a\x01\x00\x02\x01\x00\x02\x01\x00\
      \x01\x01\x00\x87\x0bobjectClass\x30\x00";

const UNBOUND: &[u8] =
    b"\x30\x57\x02\x01\x01\x63\x2a\x04\x04dc=x\x0a\x01\x02\x0a\x01\x00\x02\x01\x00\x02\x01\x00\
      \x01\x01\x00\x87\x0bobjectClass\x30\x06\x04\x01*\x04\x01+\
      \xa0\x26\x30\x24\x04\x181.3.6.1.4.1.4203.1.9.1.1\x01\x01\xff\x04\x05\x30\x03\x0a\x01\x03\
      \x30\x05\x02\x01\x02\x42\x00";

/// The end of a search with noSuchObject, and one with success.
const MISSING: &[u8] = b"\x30\x0c\x02\x01\x01\x65\x07\x0a\x01\x20\x04\x00\x04\x00";

const SUCCESS: &[u8] = b"\x30\x0c\x02\x01\x01\x65\x07\x0a\x01\x00\x04\x00\x04\x00";

/// The entry `dc=x` with two values of `o`, of which one is empty, and the same with the message
/// ID 2.
const ENTRY: &[u8] =
    b"\x30\x19\x02\x01\x01\x64\x14\x04\x04dc=x\x30\x0c\x30\x0a\x04\x01o\x31\x05\x04\x01X\x04\x00";

const OTHER_ENTRY: &[u8] =
    b"\x30\x19\x02\x01\x02\x64\x14\x04\x04dc=x\x30\x0c\x30\x0a\x04\x01o\x31\x05\x04\x01X\x04\x00";

/// The end of the refresh of an empty directory, with its cookie.
const REFRESHED: &[u8] =
    b"\x30\x81\x87\x02\x01\x01\x79\x81\x81\x80\x181.3.6.1.4.1.4203.1.9.1.4\x81\x65\xa2\x63\x04\x61\
      rid=000,sid=001,csn=19700101000000.000000Z#000000#001#000000,\
      gen=00000000000000000000000000000001";

/// The line of its cookie, with the digest of the empty text.
const NONE_STORED: &[u8] =
    b"stored entries 0 sha256 e3b0c44298fc1c149afbf4c8996fb92427ae41e4649b934ca495991b7852b855\n";

/// What a read of the link gives.
#[derive(Clone, Copy, Debug)]
enum Part {
    Give(&'static [u8]),
    Fail,
}

/// What reads of the one link give, the words after the filter, the status, and what is printed and
/// said.
const SEARCHES: [(&[Part], &[&str], u8, &[u8], &[u8]); 7] = [
    // The base is not there; the link ends at once, or a read fails.
    (&[Part::Give(MISSING)], &[], 0, b"result 32\n", b""),
    (&[], &[], 9, b"", b"syncrepl: peer fault\n"),
    (&[Part::Fail], &[], 7, b"", b"syncrepl: net fault\n"),
    // An entry comes before the end, or with the ID of no search.
    (
        &[Part::Give(ENTRY), Part::Give(SUCCESS)],
        &[],
        0,
        b"dn: dc=x\no: X\no: \n\nresult 0\n",
        b"",
    ),
    (
        &[Part::Give(OTHER_ENTRY), Part::Give(SUCCESS)],
        &[],
        9,
        b"",
        b"syncrepl: peer fault\n",
    ),
    // A refresh is followed to one cookie, and to more cookies than there are.
    (&[Part::Give(REFRESHED)], &["1"], 0, NONE_STORED, b""),
    (
        &[Part::Give(REFRESHED)],
        &["2"],
        9,
        NONE_STORED,
        b"syncrepl: peer fault\n",
    ),
];

/// Words that are no search or ask for none, the status, and what is said. No one is called.
const REFUSED: [(&[&str], u8, &[u8]); 9] = [
    (&["search", "a", "dc=x", "sub"], 2, USAGE),
    (
        &["search", "-a", "dc=x", "sub", "(objectClass=*)"],
        2,
        USAGE,
    ),
    (&["search", "a", "dc=x", "all", "(objectClass=*)"], 2, USAGE),
    (
        &["search", "a", "dc=x", "sub", "(objectClass=*)", "0"],
        2,
        USAGE,
    ),
    (
        &["search", "a", "dc=x", "sub", "(objectClass=*)", "01"],
        2,
        USAGE,
    ),
    (
        &["search", "a", "dc=x", "sub", "(objectClass=*)", "1001"],
        2,
        USAGE,
    ),
    (
        &["search", "a", "dc", "sub", "("],
        3,
        b"syncrepl: name: BadName\n",
    ),
    (
        &["search", "a", "foo=x", "sub", "(objectClass=*)"],
        3,
        b"syncrepl: name: UnknownType\n",
    ),
    (
        &["search", "a", "dc=x", "sub", "("],
        3,
        b"syncrepl: filter: BadFilter\n",
    ),
];

const USAGE: &[u8] = b"usage: syncrepl cascade | drill SEED WRITERS CONSUMERS SIZE | serve FILE | \
      search ADDRESS BASE SCOPE FILTER [COUNT]\n";

/// The plan of a link whose reads give these parts.
fn plan_of(alloc: Global, parts: &[Part]) -> Result<LinkPlan, NoMemory> {
    let mut steps = Vec::new(alloc);
    for part in parts {
        steps.push(match part {
            Part::Give(bytes) => Step::Give(Octets::from_slice(alloc, bytes)?),
            Part::Fail => Step::Fail,
        })?;
    }
    Ok(LinkPlan {
        steps,
        failing: Vec::new(alloc),
    })
}

/// A net that gives one caller, with one link whose reads give these parts.
fn net_of(alloc: Global, parts: &[Part]) -> Result<MemoryNet, NoMemory> {
    let mut plans = Vec::new(alloc);
    plans.push(plan_of(alloc, parts)?)?;
    let mut calls = Vec::new(alloc);
    calls.push(plans)?;
    Ok(MemoryNet::new(alloc, Vec::new(alloc), calls))
}

/// What a run came to.
#[derive(Drop)]
struct Ran {
    code: u8,
    printed: MemorySink,
    said: MemorySink,
}

/// Runs these words over this net.
fn searched<R: Threads + Wait + Sync>(
    rt: &R,
    alloc: Global,
    words: &[&str],
    net: &mut MemoryNet,
) -> Result<Ran, Fail> {
    let mut given = Vec::new(alloc);
    for word in words {
        given.push(String::from_str(alloc, word)?)?;
    }
    let mut world = World::new(alloc)?;
    let mut printed = MemorySink::new(alloc);
    let mut said = MemorySink::new(alloc);
    let status = run(
        rt,
        alloc,
        given.as_slice(),
        &mut world,
        &mut MemorySource::new(Octets::from(Vec::new(alloc))),
        &mut printed,
        &mut said,
        &mut MemoryShelf::new(Vec::new(alloc)),
        net,
        &mut FixedClock { micros: 0 },
        &mut FixedWords::new(Vec::new(alloc)),
    );
    discard(world);
    Ok(Ran {
        code: status?.code,
        printed,
        said,
    })
}

/// Asserts that the one caller was retired, and asked the address for the one link, which was hung
/// up.
fn assert_called_once(rt: &impl Abort, net: &MemoryNet) {
    assert!(rt; net.retired().len() == 1 && net.gone().is_empty() && net.asked().is_empty());
    let caller = &net.retired()[0];
    assert!(rt; caller.asked().len() == 1 && caller.asked()[0].address.as_str() == "a");
    assert!(rt; caller.hung_up().len() == 1);
}

/// Asserts that this was written on the one link of the one caller.
fn assert_written(rt: &impl Abort, net: &MemoryNet, written: &[u8]) {
    assert!(rt; net.retired().len() == 1);
    let caller = &net.retired()[0];
    assert!(rt; caller.hung_up().len() == 1);
    assert!(rt; caller.hung_up()[0].bytes_held() == written);
}

#[test]
fn searches_over_one_link(rt: HostRuntime) -> Result<(), Fail> {
    let alloc = rt.alloc();
    for (number, (parts, more, code, printed, said)) in SEARCHES.iter().enumerate() {
        let mut words = ["search", "a", "dc=x", "sub", "(objectClass=*)"].to_vec(alloc)?;
        words.extend_from_slice(more)?;
        let mut net = net_of(alloc, parts)?;
        let ran = searched(&rt, alloc, &words, &mut net)?;
        assert!(&rt; ran.code == *code, "{number}: status");
        assert!(&rt; ran.printed.bytes() == *printed, "{number}: printed");
        assert!(&rt; ran.said.bytes() == *said, "{number}: said");
        assert_called_once(&rt, &net);
    }
    Ok(())
}

/// What is written: the request alone; where the search is followed, an unbind at last.
#[test]
fn what_a_search_writes(rt: HostRuntime) -> Result<(), Fail> {
    let alloc = rt.alloc();
    let mut net = net_of(alloc, &[Part::Give(MISSING)])?;
    let words = ["search", "a", "dc=x", "sub", "(objectClass=*)"];
    let ran = searched(&rt, alloc, &words, &mut net)?;
    assert!(&rt; ran.code == 0);
    assert_written(&rt, &net, ASKED);
    let mut net = net_of(alloc, &[Part::Give(REFRESHED)])?;
    let words = ["search", "a", "dc=x", "sub", "(objectClass=*)", "1"];
    let ran = searched(&rt, alloc, &words, &mut net)?;
    assert!(&rt; ran.code == 0);
    assert_written(&rt, &net, UNBOUND);
    Ok(())
}

#[test]
fn searches_that_are_not_asked(rt: HostRuntime) -> Result<(), Fail> {
    let alloc = rt.alloc();
    for (words, code, said) in REFUSED {
        let mut net = net_of(alloc, &[Part::Give(MISSING)])?;
        let ran = searched(&rt, alloc, words, &mut net)?;
        assert!(&rt; ran.code == code && ran.said.bytes() == said);
        assert!(&rt; ran.printed.bytes().is_empty() && net.retired().is_empty());
    }
    Ok(())
}
