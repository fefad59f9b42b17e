//! Values both ways, and those that are refused. The spellings that are written, and those with
//! TRUE as 01, are what pyasn1 0.6.3 gives by the definitions of RFC 4533, the first by its DER
//! encoder and the others by its BER encoder.
use crate::assertions::{assert_same, assert_same_of};
use ldap_ber::{BerFault, BerKind, NoMemory, Octets, discard};
use std::alloc::Global;
use std::process::Abort;
use sync_messages::{IdList, Mode, State, SyncDone, SyncFault, SyncInfo, SyncRequest, SyncState};

// What these calls answer is compared when the tests run: the proofs of the tests know nothing of
// it.

fn request_of(alloc: Global, bytes: &[u8]) -> Result<SyncRequest, SyncFault> {
    SyncRequest::read(alloc, bytes)
}

fn state_of(alloc: Global, bytes: &[u8]) -> Result<SyncState, SyncFault> {
    SyncState::read(alloc, bytes)
}

fn done_of(alloc: Global, bytes: &[u8]) -> Result<SyncDone, SyncFault> {
    SyncDone::read(alloc, bytes)
}

fn info_of(alloc: Global, bytes: &[u8]) -> Result<SyncInfo, SyncFault> {
    SyncInfo::read(alloc, bytes)
}

fn bytes_of(cookie: &Option<Octets>) -> Option<&[u8]> {
    match cookie {
        Some(cookie) => Some(cookie.as_slice()),
        None => None,
    }
}

/// The example of RFC 9562, section 4.
const UUID: u128 = 0xf81d4fae_7dec_11d0_a765_00a0c91e6bf6;

const OTHER_UUID: u128 = 0x00112233_44556677_8899aabb_ccddeeff;

/// Requests, and what they say.
const REQUESTS: [(&[u8], Request<'static>); 4] = [
    (b"\x30\x03\x0a\x01\x01", (Mode::RefreshOnly, None, false)),
    (
        b"\x30\x14\x0a\x01\x03\x04\x0frid=000,sid=001",
        (Mode::RefreshAndPersist, Some(b"rid=000,sid=001"), false),
    ),
    (
        b"\x30\x08\x0a\x01\x01\x04\0\x01\x01\xff",
        (Mode::RefreshOnly, Some(b""), true),
    ),
    (
        b"\x30\x06\x0a\x01\x03\x01\x01\xff",
        (Mode::RefreshAndPersist, None, true),
    ),
];

type Request<'a> = (Mode, Option<&'a [u8]>, bool);

fn request_parts(request: &SyncRequest) -> Request<'_> {
    (request.mode, bytes_of(&request.cookie), request.reload_hint)
}

#[test]
fn requests_both_ways(rt: HostRuntime) {
    for (spelling, wanted) in &REQUESTS {
        check_request(&rt, rt.alloc(), spelling, *wanted);
    }
}

fn check_request(rt: &impl Abort, alloc: Global, spelling: &[u8], wanted: Request<'_>) {
    let request = request_of(alloc, spelling).expect(rt, "a request");
    assert_same_of(rt, spelling, &request_parts(&request), &wanted);
    let written = request.write(alloc).expect(rt, "memory");
    assert_same_of(rt, spelling, &written.as_slice(), &spelling);
}

/// States of entries, and what they say.
const STATES: [(&[u8], State, u128, Option<&[u8]>); 4] = [
    (
        b"\x30\x15\x0a\x01\0\x04\x10\xf8\x1d\x4f\xae\x7d\xec\x11\xd0\xa7\x65\0\xa0\xc9\x1e\x6b\xf6",
        State::Present,
        UUID,
        None,
    ),
    (
        b"\x30\x26\x0a\x01\x01\x04\x10\xf8\x1d\x4f\xae\x7d\xec\x11\xd0\xa7\x65\0\xa0\xc9\x1e\x6b\xf6\x04\x0frid=000,sid=001",
        State::Add,
        UUID,
        Some(b"rid=000,sid=001"),
    ),
    (
        b"\x30\x17\x0a\x01\x02\x04\x10\0\x11\x22\x33\x44\x55\x66\x77\x88\x99\xaa\xbb\xcc\xdd\xee\xff\x04\0",
        State::Modify,
        OTHER_UUID,
        Some(b""),
    ),
    (
        b"\x30\x15\x0a\x01\x03\x04\x10\0\x11\x22\x33\x44\x55\x66\x77\x88\x99\xaa\xbb\xcc\xdd\xee\xff",
        State::Delete,
        OTHER_UUID,
        None,
    ),
];

fn state_parts(state: &SyncState) -> (State, u128, Option<&[u8]>) {
    (state.state, state.uuid, bytes_of(&state.cookie))
}

#[test]
fn states_both_ways(rt: HostRuntime) {
    for (spelling, kind, uuid, cookie) in &STATES {
        check_state(&rt, rt.alloc(), spelling, (*kind, *uuid, *cookie));
    }
}

fn check_state(
    rt: &impl Abort,
    alloc: Global,
    spelling: &[u8],
    wanted: (State, u128, Option<&[u8]>),
) {
    let state = state_of(alloc, spelling).expect(rt, "a state");
    assert_same_of(rt, spelling, &state_parts(&state), &wanted);
    let written = state.write(alloc).expect(rt, "memory");
    assert_same_of(rt, spelling, &written.as_slice(), &spelling);
}

/// Ends of refreshes, and what they say.
const DONES: [(&[u8], Option<&[u8]>, bool); 4] = [
    (b"\x30\0", None, false),
    (
        b"\x30\x11\x04\x0frid=000,sid=001",
        Some(b"rid=000,sid=001"),
        false,
    ),
    (b"\x30\x03\x01\x01\xff", None, true),
    (
        b"\x30\x14\x04\x0frid=000,sid=001\x01\x01\xff",
        Some(b"rid=000,sid=001"),
        true,
    ),
];

fn done_parts(done: &SyncDone) -> (Option<&[u8]>, bool) {
    (bytes_of(&done.cookie), done.refresh_deletes)
}

#[test]
fn dones_both_ways(rt: HostRuntime) {
    for (spelling, cookie, refresh_deletes) in &DONES {
        check_done(&rt, rt.alloc(), spelling, (*cookie, *refresh_deletes));
    }
}

fn check_done(rt: &impl Abort, alloc: Global, spelling: &[u8], wanted: (Option<&[u8]>, bool)) {
    let done = done_of(alloc, spelling).expect(rt, "an end");
    assert_same_of(rt, spelling, &done_parts(&done), &wanted);
    let written = done.write(alloc).expect(rt, "memory");
    assert_same_of(rt, spelling, &written.as_slice(), &spelling);
}

/// The number of a choice, its cookie and its flag.
type Info<'a> = (u8, Option<&'a [u8]>, bool);

fn parts_of(info: &SyncInfo) -> Info<'_> {
    match info {
        SyncInfo::NewCookie(cookie) => (0, Some(cookie.as_slice()), false),
        SyncInfo::RefreshDelete(cookie, refresh_done) => (1, bytes_of(cookie), *refresh_done),
        SyncInfo::RefreshPresent(cookie, refresh_done) => (2, bytes_of(cookie), *refresh_done),
        SyncInfo::IdSet(cookie, refresh_deletes, _) => (3, bytes_of(cookie), *refresh_deletes),
    }
}

/// The identities, of a set alone.
fn ids_of(info: &SyncInfo) -> &[u128] {
    match info {
        SyncInfo::IdSet(_, _, ids) => ids.list(),
        _ => &[],
    }
}

const COOKIE: Option<&[u8]> = Some(b"rid=000,sid=001");

/// Sync Info values, and what they say.
const INFOS: [(&[u8], Info<'static>, &[u128]); 8] = [
    (b"\x80\x0frid=000,sid=001", (0, COOKIE, false), &[]),
    (b"\xa1\0", (1, None, true), &[]),
    (
        b"\xa1\x14\x04\x0frid=000,sid=001\x01\x01\0",
        (1, COOKIE, false),
        &[],
    ),
    (b"\xa2\x11\x04\x0frid=000,sid=001", (2, COOKIE, true), &[]),
    (b"\xa2\x03\x01\x01\0", (2, None, false), &[]),
    (b"\xa3\x02\x31\0", (3, None, false), &[]),
    (
        b"\xa3\x25\x04\x0frid=000,sid=001\x31\x12\x04\x10\xf8\x1d\x4f\xae\x7d\xec\x11\xd0\xa7\x65\0\xa0\xc9\x1e\x6b\xf6",
        (3, COOKIE, false),
        &[UUID],
    ),
    (
        b"\xa3\x29\x01\x01\xff\x31\x24\x04\x10\0\x11\x22\x33\x44\x55\x66\x77\x88\x99\xaa\xbb\xcc\xdd\xee\xff\x04\x10\xf8\x1d\x4f\xae\x7d\xec\x11\xd0\xa7\x65\0\xa0\xc9\x1e\x6b\xf6",
        (3, None, true),
        &[OTHER_UUID, UUID],
    ),
];

/// How the value of these bytes is written.
fn info_written(alloc: Global, bytes: &[u8]) -> Result<Octets, SyncFault> {
    let info = info_of(alloc, bytes)?;
    let written = info.write(alloc);
    discard(info);
    Ok(written?)
}

fn assert_parts(
    rt: &impl Abort,
    bytes: &[u8],
    info: &SyncInfo,
    parts: &Info<'static>,
    ids: &[u128],
) {
    assert_same_of(rt, bytes, &parts_of(info), parts);
    assert_same_of(rt, bytes, &ids_of(info), &ids);
}

fn assert_info(
    rt: &impl Abort,
    alloc: Global,
    bytes: &[u8],
    parts: &Info<'static>,
    ids: &[u128],
) -> Result<(), SyncFault> {
    let info = info_of(alloc, bytes)?;
    assert_parts(rt, bytes, &info, parts, ids);
    discard(info);
    Ok(())
}

#[test]
fn infos_both_ways(rt: HostRuntime) {
    for (spelling, parts, ids) in &INFOS {
        assert_info(&rt, rt.alloc(), spelling, parts, *ids).expect(&rt, "an info");
        check_info(&rt, rt.alloc(), spelling);
    }
}

fn check_info(rt: &impl Abort, alloc: Global, spelling: &[u8]) {
    let written = info_written(alloc, spelling).expect(rt, "an info");
    assert_same_of(rt, spelling, &written.as_slice(), &spelling);
}

/// Requests that are read and never written, each with what is written in its place.
const SPELLINGS: [(&[u8], &[u8]); 6] = [
    // TRUE as 01
    (
        b"\x30\x08\x0a\x01\x01\x04\0\x01\x01\x01",
        b"\x30\x08\x0a\x01\x01\x04\0\x01\x01\xff",
    ),
    // a usual value that is written
    (b"\x30\x06\x0a\x01\x01\x01\x01\0", b"\x30\x03\x0a\x01\x01"),
    // lengths and an integer that are longer than they have to be
    (
        b"\x30\x84\0\0\0\x05\x0a\x81\x02\0\x03",
        b"\x30\x03\x0a\x01\x03",
    ),
    // unknown elements at the end
    (
        b"\x30\x08\x0a\x01\x01\x80\x01a\xa1\0",
        b"\x30\x03\x0a\x01\x01",
    ),
    (
        b"\x30\x0b\x0a\x01\x01\x80\x01a\x30\x03\x04\x01b",
        b"\x30\x03\x0a\x01\x01",
    ),
    // known tags after the first unknown one are unknown too
    (
        b"\x30\x09\x0a\x01\x01\x80\x01a\x04\x01b",
        b"\x30\x03\x0a\x01\x01",
    ),
];

fn request_written(alloc: Global, bytes: &[u8]) -> Result<Octets, SyncFault> {
    let request = request_of(alloc, bytes)?;
    Ok(request.write(alloc)?)
}

#[test]
fn other_spellings(rt: HostRuntime) {
    for (spelling, wanted) in &SPELLINGS {
        let written = request_written(rt.alloc(), spelling).expect(&rt, "a request");
        assert_same_of(&rt, spelling, &written.as_slice(), wanted);
    }
}

#[test]
fn another_spelling_of_an_info(rt: HostRuntime) {
    let written = info_written(rt.alloc(), b"\xa1\x03\x01\x01\x05").expect(&rt, "memory");
    assert_same(
        &rt,
        "refreshDelete",
        &written.as_slice(),
        &b"\xa1\0".as_slice(),
    );
}

/// Requests that are refused.
const REFUSED_REQUESTS: [(&[u8], SyncFault); 14] = [
    (
        b"",
        SyncFault::Ber(BerFault {
            kind: BerKind::Short,
            at: 0,
        }),
    ),
    (
        b"\x31\x03\x0a\x01\x01",
        SyncFault::Ber(BerFault {
            kind: BerKind::WrongTag,
            at: 0,
        }),
    ),
    (
        b"\x30\x80\x0a\x01\x01\0\0",
        SyncFault::Ber(BerFault {
            kind: BerKind::Indefinite,
            at: 0,
        }),
    ),
    (
        b"\x30\x04\x0a\x01\x01",
        SyncFault::Ber(BerFault {
            kind: BerKind::Short,
            at: 0,
        }),
    ),
    // the mode: missing, an INTEGER, of nine octets, without octets, with another number
    (
        b"\x30\0",
        SyncFault::Ber(BerFault {
            kind: BerKind::Short,
            at: 2,
        }),
    ),
    (
        b"\x30\x03\x02\x01\x01",
        SyncFault::Ber(BerFault {
            kind: BerKind::WrongTag,
            at: 2,
        }),
    ),
    (
        b"\x30\x0b\x0a\x09\0\0\0\0\0\0\0\0\x01",
        SyncFault::Ber(BerFault {
            kind: BerKind::BadInteger,
            at: 2,
        }),
    ),
    (
        b"\x30\x02\x0a\0",
        SyncFault::Ber(BerFault {
            kind: BerKind::BadInteger,
            at: 2,
        }),
    ),
    (b"\x30\x03\x0a\x01\x02", SyncFault::BadMode(2)),
    (b"\x30\x03\x0a\x01\xff", SyncFault::BadMode(-1)),
    // what stands after it
    (
        b"\x30\x05\x0a\x01\x01\x04\x01",
        SyncFault::Ber(BerFault {
            kind: BerKind::Short,
            at: 5,
        }),
    ),
    (
        b"\x30\x07\x0a\x01\x01\x01\x02\0\0",
        SyncFault::Ber(BerFault {
            kind: BerKind::BadBoolean,
            at: 5,
        }),
    ),
    (
        b"\x30\x07\x0a\x01\x01\x04\0\x80\x01",
        SyncFault::Ber(BerFault {
            kind: BerKind::Short,
            at: 7,
        }),
    ),
    (
        b"\x30\x03\x0a\x01\x01\0",
        SyncFault::Ber(BerFault {
            kind: BerKind::Trailing,
            at: 5,
        }),
    ),
];

#[test]
fn requests_refused(rt: HostRuntime) {
    for (bytes, fault) in &REFUSED_REQUESTS {
        let found = request_of(rt.alloc(), bytes).err();
        assert_same_of(&rt, bytes, &found, &Some(*fault));
    }
}

/// States that are refused.
const REFUSED_STATES: [(&[u8], SyncFault); 4] = [
    (b"\x30\x03\x0a\x01\x04", SyncFault::BadState(4)),
    (
        b"\x30\x14\x0a\x01\x01\x04\x0f\x01\x02\x03\x04\x05\x06\x07\x08\x09\x0a\x0b\x0c\x0d\x0e\x0f",
        SyncFault::BadUuidLength(15),
    ),
    // an octet string in the constructed form, and an unknown component in the middle
    (
        b"\x30\x17\x0a\x01\x01\x24\x12\x04\x10\x01\x02\x03\x04\x05\x06\x07\x08\x09\x0a\x0b\x0c\x0d\x0e\x0f\x10",
        SyncFault::Ber(BerFault {
            kind: BerKind::WrongTag,
            at: 5,
        }),
    ),
    (
        b"\x30\x18\x0a\x01\x01\x80\x01a\x04\x10\x01\x02\x03\x04\x05\x06\x07\x08\x09\x0a\x0b\x0c\x0d\x0e\x0f\x10",
        SyncFault::Ber(BerFault {
            kind: BerKind::WrongTag,
            at: 5,
        }),
    ),
];

/// Ends that are refused.
const REFUSED_DONES: [(&[u8], SyncFault); 2] = [
    (
        b"\x30\x05\x04\x01a\x01\0",
        SyncFault::Ber(BerFault {
            kind: BerKind::BadBoolean,
            at: 5,
        }),
    ),
    (
        b"\x30\0\x30\0",
        SyncFault::Ber(BerFault {
            kind: BerKind::Trailing,
            at: 2,
        }),
    ),
];

/// Sync Info values that are refused.
const REFUSED_INFOS: [(&[u8], SyncFault); 7] = [
    (
        b"",
        SyncFault::Ber(BerFault {
            kind: BerKind::Short,
            at: 0,
        }),
    ),
    (
        b"\xa4\0",
        SyncFault::Ber(BerFault {
            kind: BerKind::WrongTag,
            at: 0,
        }),
    ),
    (
        b"\x80\x81\x80",
        SyncFault::Ber(BerFault {
            kind: BerKind::Short,
            at: 0,
        }),
    ),
    (
        b"\xa2\0\0",
        SyncFault::Ber(BerFault {
            kind: BerKind::Trailing,
            at: 2,
        }),
    ),
    // the set: missing, an element in it of another tag, an identity of seventeen octets
    (
        b"\xa3\x02\x04\0",
        SyncFault::Ber(BerFault {
            kind: BerKind::Short,
            at: 4,
        }),
    ),
    (
        b"\xa3\x81\x05\x31\x03\x02\x01\x05",
        SyncFault::Ber(BerFault {
            kind: BerKind::WrongTag,
            at: 5,
        }),
    ),
    (
        b"\xa3\x15\x31\x13\x04\x11\0\0\0\0\0\0\0\0\0\0\0\0\0\0\0\0\0",
        SyncFault::BadUuidLength(17),
    ),
];

#[test]
fn states_refused(rt: HostRuntime) {
    for (bytes, fault) in &REFUSED_STATES {
        let found = state_of(rt.alloc(), bytes).err();
        assert_same_of(&rt, bytes, &found, &Some(*fault));
    }
}

#[test]
fn dones_refused(rt: HostRuntime) {
    for (bytes, fault) in &REFUSED_DONES {
        let found = done_of(rt.alloc(), bytes).err();
        assert_same_of(&rt, bytes, &found, &Some(*fault));
    }
}

#[test]
fn infos_refused(rt: HostRuntime) {
    for (bytes, fault) in &REFUSED_INFOS {
        let found = info_of(rt.alloc(), bytes).err();
        assert_same_of(&rt, bytes, &found, &Some(*fault));
    }
}

fn with_ids(alloc: Global, count: usize) -> Result<IdList, NoMemory> {
    let mut ids = IdList::new(alloc);
    for _ in 0..count {
        ids.push(UUID)?;
    }
    Ok(ids)
}

fn long_set(alloc: Global) -> Result<Octets, NoMemory> {
    let info = SyncInfo::IdSet(None, false, with_ids(alloc, 100_000)?);
    let written = info.write(alloc);
    discard(info);
    written
}

/// How many identities the value of these bytes has.
fn ids_in(alloc: Global, bytes: &[u8]) -> Result<usize, SyncFault> {
    let info = info_of(alloc, bytes)?;
    let count = ids_of(&info).len();
    discard(info);
    Ok(count)
}

/// A long list takes no more of the stack than a short one.
#[test]
fn long_sets(rt: HostRuntime) {
    let written = long_set(rt.alloc()).expect(&rt, "memory");
    let length = written.as_slice().len();
    assert_same(&rt, "length", &length, &(10 + 100_000 * 18));
    let count = ids_in(rt.alloc(), written.as_slice()).expect(&rt, "an info");
    assert_same(&rt, "identities", &count, &100_000);
}
