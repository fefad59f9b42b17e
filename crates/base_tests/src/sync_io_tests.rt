//! What sources give and sinks hold, over small pieces.
ghost use Rattle.std.specs.Prelude.{Some, None};

use crate::assertions::assert_same;
use ldap_ber::{Octets, discard};
use std::alloc::{AllocError, Global};
use std::io::{BufWriter, Cursor};
use std::process::Abort;
use sync_io::{
    FaultySink, FaultySource, MemorySink, MemorySource, Piece, Put, Reading, Sink, Source, Step,
    Writing, write_whole,
};

/// Reads into two bytes, and appends the answer in words.
pub(crate) fn push_answer<S: Source>(text: &mut String, source: &mut S) -> Result<(), AllocError> {
    let mut buffer = [0u8; 2];
    match source.read(&mut buffer) {
        Piece::Got(count) => push_bytes(text, &buffer[..count]),
        Piece::Quiet => text.push_str("quiet"),
        Piece::End => text.push_str("end"),
        Piece::Failed => text.push_str("failed"),
    }
}

fn push_bytes(text: &mut String, bytes: &[u8]) -> Result<(), AllocError> {
    for byte in bytes {
        text.push(char::from(*byte))?;
    }
    Ok(())
}

/// Reads n times into two bytes, and gives the answers in words.
fn answers<S: Source>(alloc: Global, source: &mut S, reads: u32) -> Result<String, AllocError> {
    let mut text = String::new(alloc);
    for _ in 0..reads {
        push_answer(&mut text, source)?;
        text.push(' ')?;
    }
    Ok(text)
}

fn assert_answers<S: Source>(
    rt: &impl Abort,
    alloc: Global,
    source: &mut S,
    reads: u32,
    wanted: &str,
) {
    let answers = answers(alloc, source, reads).expect(rt, "answers");
    assert_same(rt, "reads", &answers.as_str(), &wanted);
}

const PIECES: &str = "ab cd e end end ";

#[test]
fn sources_give_their_bytes_in_pieces(rt: HostRuntime) {
    let bytes = Octets::from_slice(rt.alloc(), b"abcde").expect(&rt, "bytes");
    let mut memory = MemorySource::new(bytes);
    assert_answers(&rt, rt.alloc(), &mut memory, 5, PIECES);
    let mut reading = Reading::new(Cursor::new(b"abcde".as_slice()));
    assert_answers(&rt, rt.alloc(), &mut reading, 5, PIECES);
}

/// The step that a word names, or one that gives the bytes of the word.
fn step(alloc: Global, word: &str) -> Result<Step, AllocError> {
    match word {
        "fail" => Ok(Step::Fail),
        "quiet" => Ok(Step::Quiet),
        _ => Ok(Step::Give(Octets::from_slice(alloc, word.as_bytes())?)),
    }
}

/// The steps of the words.
pub(crate) fn steps(alloc: Global, words: &[&str]) -> Result<Vec<Step>, AllocError> {
    let mut steps = Vec::new(alloc);
    for word in words {
        steps.push(step(alloc, word)?)?;
    }
    Ok(steps)
}

#[test]
fn a_faulty_source_plays_its_steps(rt: HostRuntime) {
    let steps = steps(rt.alloc(), &["abc", "fail", "", "de", "quiet", "f"]);
    let mut source = FaultySource::new(steps.expect(&rt, "steps"));
    assert_answers(
        &rt,
        rt.alloc(),
        &mut source,
        7,
        "ab c failed de quiet f end ",
    );
    assert!(rt; source.read_faults() == 1);
    discard(source);
}

/// A sink that takes two bytes of a piece at most.
#[derive(Drop)]
struct Narrow {
    sink: MemorySink,
}

impl Sink for Narrow {
    ghost bytes_held = { λ s. Some s.sink.bytes };

    ghost write_fault_count = { λ s. s.sink.faults };

    ghost source_side = { λ _. None };

    fn write_faults(&self) -> u64 {
        self.sink.write_faults()
    }

    fn write(&mut self, piece: &[u8]) -> Put {
        let count = piece.len().min(2);
        self.sink.write(&piece[..count])
    }

    fn flush(&mut self) -> bool {
        self.sink.flush()
    }
}

#[test]
fn a_narrow_sink_takes_all_the_bytes(rt: HostRuntime) {
    let mut narrow = Narrow {
        sink: MemorySink::new(rt.alloc()),
    };
    assert!(rt; write_whole(&mut narrow, b"abcde") && write_whole(&mut narrow, b""));
    assert!(rt; narrow.flush() && narrow.sink.bytes() == b"abcde".as_slice());
    discard(narrow);
}

#[test]
fn a_faulty_sink_fails_at_its_calls(rt: HostRuntime) {
    let calls = Vec::from_slice(rt.alloc(), &[2, 4]).expect(&rt, "calls");
    let mut faulty = FaultySink::new(rt.alloc(), calls);
    assert!(rt; write_whole(&mut faulty, b"ab") && !write_whole(&mut faulty, b"cd"));
    assert!(rt; write_whole(&mut faulty, b"ef") && !faulty.flush());
    assert!(rt; faulty.write(b"g") == Put::Wrote(1));
    assert!(rt; faulty.bytes() == b"abefg".as_slice() && faulty.write_faults() == 2);
    discard(faulty);
}

#[test]
fn a_writer_without_room_is_a_fault(rt: HostRuntime) {
    let mut writing = Writing::new(Cursor::new([0u8; 3]));
    assert!(rt; !write_whole(&mut writing, b"abcde") && writing.flush());
    assert!(rt; writing.faults == 1);
    assert!(rt; writing.writer.into_inner() == *b"abc");
}

#[test]
fn a_flush_reaches_the_writer(rt: HostRuntime) {
    let alloc = rt.alloc();
    let writer = BufWriter::new(alloc, Vec::new(alloc)).expect(&rt, "a writer");
    let mut writing = Writing::new(writer);
    assert!(rt; write_whole(&mut writing, b"abc") && writing.flush());
    assert!(rt; writing.writer.get_ref().as_slice() == b"abc".as_slice());
    discard(writing);
}
