//! What no script shows of `run` and `run_cascade`: other words, an input and an output that fail,
//! and the longest texts, over objects in memory. Scripts and what they report stand in `examples`
//! and `rows`, and `checks/rows` compares them.
ghost use Rattle.std.specs.Prelude.{◌≡◌, false};

use crate::cut_tests::last_lines;
use crate::run::{run, run_cascade};
use cascade_world::World;
use ldap_ber::{NoMemory, Octets, discard};
use std::alloc::Global;
use std::fmt::Debug;
use std::process::Abort;
use std::sync::Wait;
use std::test::Fail;
use std::thread::Threads;
use sync_io::{
    FaultySink, FaultySource, FixedClock, FixedWords, MemoryNet, MemoryShelf, MemorySink,
    MemorySource, Sink, Source, Step,
};

/// A provider, a consumer of it, and the entry of the suffix.
const START: &[u8] =
    b"provider p \"dc=x\"\nconsumer c from p sub \"dc=x\" \"(objectClass=*)\"\nwrite p\ndn: dc=x\nchangetype: add\nobjectClass: organization\nobjectClass: dcObject\no: X\ndc: x\n\n";

/// What is reported of it.
const WRITTEN: &[u8] = b"wrote p 0 1\n";

const USAGE: &[u8] =
    b"usage: syncrepl cascade | drill SEED WRITERS CONSUMERS SIZE | serve FILE | search ADDRESS BASE SCOPE FILTER [COUNT]\n";

/// The status of a run of these words, and what it said.
pub(crate) fn ran<R: Threads + Wait + Sync, I: Source, O: Sink>(
    rt: &R,
    alloc: Global,
    words: &[&str],
    input: &mut I,
    output: &mut O,
) -> Result<(u8, MemorySink), Fail>
    requires { I.waits input.old ≡ false }
{
    let given = given(alloc, words)?;
    let mut world = World::new(alloc)?;
    let mut errors = MemorySink::new(alloc);
    let status = run(
        rt,
        alloc,
        given.as_slice(),
        &mut world,
        input,
        output,
        &mut errors,
        &mut MemoryShelf::new(Vec::new(alloc)),
        &mut MemoryNet::new(alloc, Vec::new(alloc), Vec::new(alloc)),
        &mut FixedClock { micros: 0 },
        &mut FixedWords::new(Vec::new(alloc)),
    );
    discard(world);
    Ok((status?.code, errors))
}

fn given(alloc: Global, words: &[&str]) -> Result<Vec<String>, NoMemory> {
    let mut given = Vec::new(alloc);
    for word in words {
        given.push(String::from_str(alloc, word)?)?;
    }
    Ok(given)
}

/// Asserts that what was found is what is wanted, or reports both.
pub(crate) fn assert_same<T: PartialEq + Debug>(
    rt: &impl Abort,
    part: &str,
    found: &T,
    wanted: &T,
) {
    assert!(rt;
        *found == *wanted,
        "{part}: {found:?} in place of {wanted:?}"
    );
}

/// The start of a script, and then this.
pub(crate) fn started(alloc: Global, more: &[u8]) -> Result<Vec<u8>, NoMemory> {
    let mut text = START.to_vec(alloc)?;
    text.extend_from_slice(more)?;
    Ok(text)
}

/// What is reported of the start and a settling. The messages were spelled by another encoder,
/// after RFC 4511, RFC 4533 and ITU-T X.690.
const SETTLED: &[u8] = b"wrote p 0 1
opened c 1
sent c 3081f10201016481b4040464633d783081ab3027040b6f626a656374436c6173733118040c6f7267616e697a6174696f6e040864634f626a656374300804016f3103040158300904026463310304017830330409656e747279555549443126042430303030303030302d303030312d383030302d383030302d30303030303030303030303130360408656e74727943534e312a042831393730303130313030303030302e3030303030305a233030303030312330303123303030303030a03530330418312e332e362e312e342e312e343230332e312e392e312e32041730150a0101041000000000000180008000000000000001
taken c
sent c 30819302010165070a010004000400a081843081810418312e332e362e312e342e312e343230332e312e392e312e330465306304617269643d3030302c7369643d3030312c63736e3d31393730303130313030303030302e3030303030305a2330303030303123303031233030303030302c67656e3d3030303030303030303030303030303030303030303030303030303030303031
stored c 1 entries 1 sha256 8f8bbfc32f02a834239e30b6652655f8b425d92fe020ac9bd789cbeb3244bf78 origin p 1
settled c 1
";

/// Asserts that `cascade` on a script of which the start and a settling are done ends with this
/// status, and says the refusal.
fn assert_settled<R: Threads + Wait + Sync + Abort>(
    rt: &R,
    alloc: Global,
    script: Vec<u8>,
    status: u8,
    refusal: &[u8],
) -> Result<(), Fail> {
    let mut input = MemorySource::new(Octets::from(script));
    let mut output = MemorySink::new(alloc);
    let (code, errors) = ran(rt, alloc, &["cascade"], &mut input, &mut output)?;
    assert_same(rt, "errors", &errors.bytes(), &refusal);
    assert_same(rt, "output", &output.bytes(), &SETTLED);
    assert_same(rt, "status", &code, &status);
    Ok(())
}

#[test]
fn run_cascade_does_a_script(rt: HostRuntime) -> Result<(), Fail> {
    let script = started(rt.alloc(), b"settle c\n")?;
    let mut input = MemorySource::new(Octets::from(script));
    let mut output = MemorySink::new(rt.alloc());
    let mut errors = MemorySink::new(rt.alloc());
    let mut world = World::new(rt.alloc())?;
    let status = run_cascade(rt.alloc(), &mut world, &mut input, &mut output, &mut errors);
    discard(world);
    assert_same(&rt, "errors", &errors.bytes(), &b"".as_slice());
    assert_same(&rt, "output", &output.bytes(), &SETTLED);
    assert_same(&rt, "status", &status?.code, &0);
    Ok(())
}

/// What a `show` prints after the start and a settling.
const HELD: &[u8] = b"dn: dc=x
objectClass: organization
objectClass: dcObject
o: X
dc: x
entryUUID: 00000000-0001-8000-8000-000000000001
entryCSN: 19700101000000.000000Z#000001#001#000000

";

/// The world that is handed in has what the events of a script made: its consumer is there, with
/// the entry that it took.
#[test]
fn events_are_done_in_the_world_that_is_handed_in(rt: HostRuntime) -> Result<(), Fail> {
    let script = started(rt.alloc(), b"settle c\n")?;
    let mut input = MemorySource::new(Octets::from(script));
    let mut output = MemorySink::new(rt.alloc());
    let mut errors = MemorySink::new(rt.alloc());
    let mut world = World::new(rt.alloc())?;
    let status = run_cascade(rt.alloc(), &mut world, &mut input, &mut output, &mut errors);
    let held = last_lines(rt.alloc(), &mut world, b"show c\n");
    discard(world);
    let held = held?;
    assert_same(&rt, "status", &status?.code, &0);
    assert_same(&rt, "entries", &held.as_slice(), &HELD);
    Ok(())
}

/// The start, a settling, empty lines up to n lines, and then this.
fn long_script(alloc: Global, lines: usize, more: &[u8]) -> Result<Vec<u8>, Fail> {
    let mut script = started(alloc, b"settle c\n")?;
    for _ in 11..lines {
        script.push(b'\n')?;
    }
    script.extend_from_slice(more)?;
    Ok(script)
}

/// The number of lines, what follows them, the status, and the refusal.
const LENGTHS: [(usize, &[u8], u8, &[u8]); 3] = [
    (1_000_000, b"", 0, b""),
    (
        1_000_000,
        b"# one more",
        8,
        b"syncrepl: line 1000001: LimitReached 1000000\n",
    ),
    (
        999_999,
        b"write p\ndn: dc=x\n",
        8,
        b"syncrepl: line 1000001: LimitReached 1000000\n",
    ),
];

/// A script of the most lines is done; one more is refused, and so is a record that runs into it.
#[test]
fn a_script_has_1000000_lines_at_most(rt: HostRuntime) -> Result<(), Fail> {
    for (lines, more, status, refusal) in &LENGTHS {
        let script = long_script(rt.alloc(), *lines, more)?;
        assert_settled(&rt, rt.alloc(), script, *status, refusal)?;
    }
    Ok(())
}

/// The start, a settling, and a comment up to n bytes.
fn large_script(alloc: Global, bytes: usize) -> Result<Vec<u8>, Fail> {
    let mut script = started(alloc, b"settle c\n")?;
    script.resize(bytes, b'#')?;
    Ok(script)
}

/// The number of bytes, the status, and the refusal. The comment is line 12.
const SIZES: [(usize, u8, &[u8]); 2] = [
    (67_108_864, 0, b""),
    (67_108_865, 8, b"syncrepl: line 12: LimitReached 67108864\n"),
];

/// A script of the most bytes is done; the line that holds one more is refused.
#[test]
fn a_script_has_67108864_bytes_at_most(rt: HostRuntime) -> Result<(), Fail> {
    for (bytes, status, refusal) in &SIZES {
        let script = large_script(rt.alloc(), *bytes)?;
        assert_settled(&rt, rt.alloc(), script, *status, refusal)?;
    }
    Ok(())
}

const OTHER_WORDS: [&[&str]; 3] = [&[], &["cascade", "extra"], &["Cascade"]];

#[test]
fn other_words_are_refused(rt: HostRuntime) -> Result<(), Fail> {
    for words in &OTHER_WORDS {
        assert_usage(&rt, rt.alloc(), words)?;
    }
    Ok(())
}

/// Asserts that these words are of no form.
pub(crate) fn assert_usage<R: Threads + Wait + Sync + Abort>(
    rt: &R,
    alloc: Global,
    words: &[&str],
) -> Result<(), Fail> {
    let mut input = MemorySource::new(Octets::from_slice(alloc, START)?);
    let mut output = MemorySink::new(alloc);
    let (code, errors) = ran(rt, alloc, words, &mut input, &mut output)?;
    assert_same(rt, "errors", &errors.bytes(), &USAGE);
    assert_same(rt, "output", &output.bytes(), &b"".as_slice());
    assert_same(rt, "status", &code, &2);
    Ok(())
}

#[test]
fn a_second_read_that_fails_is_reported(rt: HostRuntime) -> Result<(), Fail> {
    let mut steps = Vec::new(rt.alloc());
    steps.push(Step::Give(Octets::from_slice(rt.alloc(), START)?))?;
    steps.push(Step::Fail)?;
    let mut input = FaultySource::new(steps);
    let mut output = MemorySink::new(rt.alloc());
    let (code, errors) = ran(&rt, rt.alloc(), &["cascade"], &mut input, &mut output)?;
    assert_same(
        &rt,
        "errors",
        &errors.bytes(),
        &b"syncrepl: read fault\n".as_slice(),
    );
    assert_same(&rt, "output", &output.bytes(), &b"".as_slice());
    assert_same(&rt, "status", &code, &4);
    Ok(())
}

/// An output that fails at the second call.
fn failing_output(alloc: Global) -> Result<FaultySink, NoMemory> {
    let failing = Vec::from_slice(alloc, &[2])?;
    Ok(FaultySink::new(alloc, failing))
}

#[test]
fn a_second_write_that_fails_is_reported(rt: HostRuntime) -> Result<(), Fail> {
    let script = started(rt.alloc(), b"settle c\nsettle c\n")?;
    let mut input = MemorySource::new(Octets::from(script));
    let mut output = failing_output(rt.alloc())?;
    let (code, errors) = ran(&rt, rt.alloc(), &["cascade"], &mut input, &mut output)?;
    assert_same(
        &rt,
        "errors",
        &errors.bytes(),
        &b"syncrepl: write fault\n".as_slice(),
    );
    assert_same(&rt, "output", &output.bytes(), &WRITTEN);
    assert_same(&rt, "status", &code, &5);
    Ok(())
}
