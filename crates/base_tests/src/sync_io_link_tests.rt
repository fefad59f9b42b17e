//! Links, nets, shelves, clocks and words of `sync_io`, in memory and of the system.
use crate::assertions::assert_same;
use crate::sync_io_tests::{push_answer, steps};
use ldap_ber::{Octets, discard};
use std::alloc::{AllocError, Global};
use std::process::Abort;
use std::{env, fs};
use sync_io::{
    Clock, Dial, DialAttempt, DrawnWords, FileShelf, FixedClock, FixedWords, LinkPlan, MemoryDial,
    MemoryLink, MemoryNet, MemoryShelf, NamedFile, Net, NetFault, Piece, Shelf, ShelfFault, Sink,
    Source, SystemClock, TcpNet, Words, write_whole,
};

// What a call gives is taken by `expect`: so a test ends at once where it gives nothing, and drops
// nothing there. What stands at the end is dropped by `discard`, in one call.

/// A plan of one gift of bytes, and of failing writes.
fn plan(alloc: Global, gift: &str, failing: &[u64]) -> Result<LinkPlan, AllocError> {
    Ok(LinkPlan {
        steps: steps(alloc, &[gift, "quiet", "fail"])?,
        failing: Vec::from_slice(alloc, failing)?,
    })
}

/// What is done with a link in turn, each a word, and what each answers, in words: `read`, into two
/// bytes, `flush`, or what is written.
fn played<L: Source + Sink>(
    alloc: Global,
    link: &mut L,
    words: &str,
) -> Result<String, AllocError> {
    let mut text = String::new(alloc);
    for word in words.split(' ') {
        play(&mut text, link, word)?;
        text.push(' ')?;
    }
    Ok(text)
}

fn play<L: Source + Sink>(text: &mut String, link: &mut L, word: &str) -> Result<(), AllocError> {
    match word {
        "read" => push_answer(text, link),
        "flush" => push_done(text, link.flush()),
        _ => push_done(text, write_whole(link, word.as_bytes())),
    }
}

fn push_done(text: &mut String, is_done: bool) -> Result<(), AllocError> {
    text.push_str(if is_done { "done" } else { "failed" })
}

fn assert_played<L: Source + Sink>(
    rt: &impl Abort,
    alloc: Global,
    link: &mut L,
    words: &str,
    wanted: &str,
) {
    let answers = played(alloc, link, words).expect(rt, "answers");
    assert_same(rt, words, &answers.as_str(), &wanted);
}

#[test]
fn a_link_in_memory_keeps_what_it_gave_and_took(rt: HostRuntime) {
    let plan = plan(rt.alloc(), "abc", &[2]).expect(&rt, "a plan");
    let mut link = MemoryLink::new(rt.alloc(), plan);
    let words = "read yes read no read read read flush";
    let wanted = "ab done c failed quiet failed end done ";
    assert_played(&rt, rt.alloc(), &mut link, words, wanted);
    assert!(rt; link.bytes_read() == b"abc".as_slice() && link.bytes_held() == b"yes".as_slice());
    assert!(rt; link.read_faults() == 1 && link.write_faults() == 1);
    discard(link);
}

/// A dialler of one link, whose second write fails.
fn dialler(alloc: Global) -> Result<MemoryDial, AllocError> {
    Ok(MemoryDial::new(alloc, one_plan(alloc, "abc", &[2])?))
}

/// That plan alone.
fn one_plan(alloc: Global, gift: &str, failing: &[u64]) -> Result<Vec<LinkPlan>, AllocError> {
    let mut plans = Vec::new(alloc);
    plans.push(plan(alloc, gift, failing)?)?;
    Ok(plans)
}

#[test]
fn a_dialler_in_memory_keeps_what_it_was_asked(rt: HostRuntime) {
    let mut dial = dialler(rt.alloc()).expect(&rt, "a dialler");
    let mut link = dial.connect("a:1").expect(&rt, "a link");
    assert_played(&rt, rt.alloc(), &mut link, "yes no", "done failed ");
    dial.hang_up(link);
    assert!(rt; dial.faults() == 1);
    let refused = dial.connect("b:2").err();
    assert!(rt; refused == Some(NetFault::Failed) && dial.faults() == 2);
    assert!(rt; dial.asked().len() == 2 && dial.hung_up().len() == 1);
    assert_asked(&rt, &dial.asked()[0], "a:1", true);
    assert_asked(&rt, &dial.asked()[1], "b:2", false);
    assert!(rt; dial.hung_up()[0].bytes_held() == b"yes".as_slice());
    discard(dial);
}

fn assert_asked(rt: &impl Abort, asked: &DialAttempt, address: &str, came: bool) {
    assert!(rt; asked.address.as_str() == address && asked.came == came);
}

/// A net of one link and of two callers, each of one link.
fn net(alloc: Global) -> Result<MemoryNet, AllocError> {
    let links = one_plan(alloc, "abc", &[])?;
    let calls = two_callers(alloc)?;
    Ok(MemoryNet::new(alloc, links, calls))
}

fn two_callers(alloc: Global) -> Result<Vec<Vec<LinkPlan>>, AllocError> {
    let mut calls = Vec::new(alloc);
    for _ in 0..2usize {
        calls.push(one_plan(alloc, "", &[])?)?;
    }
    Ok(calls)
}

#[test]
fn a_net_in_memory_takes_its_links_back(rt: HostRuntime) {
    let mut net = net(rt.alloc()).expect(&rt, "a net");
    let mut door = net.listen("here:389").expect(&rt, "a door");
    let mut link = net.accept(&mut door).expect(&rt, "a link");
    assert_played(&rt, rt.alloc(), &mut link, "yes", "done ");
    net.release(link);
    let refused = net.accept(&mut door).err();
    assert!(rt; refused == Some(NetFault::Failed) && net.faults() == 1 && net.accepted() == 1);
    assert!(rt; net.asked()[0].as_str() == "here:389");
    assert!(rt; net.released()[0].bytes_held() == b"yes".as_slice());
    discard(door);
    discard(net);
}

/// The caller gives one link, and then none.
fn assert_calls_once(rt: &impl Abort, caller: &mut MemoryDial) {
    discard(caller.connect("a:1").expect(rt, "a link"));
    let refused = caller.connect("a:1").err();
    assert!(rt; refused.is_some());
}

#[test]
fn a_net_in_memory_counts_the_faults_of_retired_callers(rt: HostRuntime) {
    let mut net = net(rt.alloc()).expect(&rt, "a net");
    let mut first = net.caller().expect(&rt, "a caller");
    assert_calls_once(&rt, &mut first);
    net.let_go(first);
    assert!(rt; net.faults() == 0);
    let mut second = net.caller().expect(&rt, "a second caller");
    assert_calls_once(&rt, &mut second);
    net.retire(second);
    assert!(rt; net.faults() == 1 && net.gone().len() == 1 && net.retired().len() == 1);
    assert!(rt; net.caller().err() == Some(NetFault::Failed));
    discard(net);
}

/// A shelf with two files of one name, and another.
fn shelf(alloc: Global) -> Result<MemoryShelf, AllocError> {
    let mut files = Vec::new(alloc);
    for (name, text) in &FILES {
        files.push(named(alloc, name, text)?)?;
    }
    Ok(MemoryShelf::new(files))
}

const FILES: [(&str, &str); 3] = [("a", "one"), ("a", "two"), ("b", "six")];

fn named(alloc: Global, name: &str, text: &str) -> Result<NamedFile, AllocError> {
    let bytes = Octets::from_slice(alloc, text.as_bytes())?;
    let name = String::from_str(alloc, name)?;
    Ok(NamedFile { name, bytes })
}

/// Whether the next read, of up to four bytes, gives these.
fn gives<S: Source>(source: &mut S, wanted: &[u8]) -> bool {
    let mut buffer = [0u8; 4];
    match source.read(&mut buffer) {
        Piece::Got(count) => &buffer[..count] == wanted,
        Piece::Quiet | Piece::End | Piece::Failed => false,
    }
}

/// The shelf gives a file of this name whose first bytes are these.
fn assert_fetched(rt: &impl Abort, shelf: &mut MemoryShelf, name: &str, wanted: &[u8]) {
    let mut file = shelf.fetch(name).expect(rt, name);
    assert_same(rt, name, &gives(&mut file, wanted), &true);
    shelf.give_back(file);
}

#[test]
fn a_shelf_in_memory_gives_files_by_name(rt: HostRuntime) {
    let mut shelf = shelf(rt.alloc()).expect(&rt, "a shelf");
    assert_fetched(&rt, &mut shelf, "a", b"one");
    assert_fetched(&rt, &mut shelf, "b", b"six");
    assert!(rt; shelf.faults() == 0);
    assert!(rt; shelf.fetch("c").err() == Some(ShelfFault::Failed) && shelf.faults() == 1);
    discard(shelf);
}

#[test]
fn fixed_words_are_spent_and_a_fixed_clock_stands(rt: HostRuntime) {
    let words = Vec::from_slice(rt.alloc(), &[7, 9]).expect(&rt, "words");
    let mut words = FixedWords::new(words);
    assert!(rt; words.next_word() == Some(7) && words.next_word() == Some(9));
    assert!(rt; words.faults() == 0);
    assert!(rt; words.next_word().is_none() && words.faults() == 1);
    let mut clock = FixedClock { micros: 5 };
    let mut other = clock;
    assert!(rt; clock.now() == 5 && other.now() == 5 && clock.now() == 5);
}

/// The first instant of 2020, in microseconds.
const YEAR_2020: u64 = 1_577_836_800_000_000;

#[test]
fn drawn_words_are_given_in_turn_after_2020(rt: HostRuntime) {
    let mut clock = SystemClock::new(&rt);
    assert!(rt; clock.now() > YEAR_2020);
    let mut words = DrawnWords::draw(&rt);
    let (first, second) = (words.next_word(), words.next_word());
    assert!(rt; first.is_some() && first != second);
    assert!(rt; words.next_word() == first && words.next_word() == second);
    assert!(rt; words.faults() == 0);
}

#[test]
fn a_file_of_the_system_is_read(rt: HostRuntime) {
    let folder = env::temp_dir(&rt).expect(&rt, "a folder");
    let path = folder.join(rt.alloc(), "syncrepl_file_of_the_system");
    let path = path.expect(&rt, "a path");
    let name = path.to_str().expect(&rt, "a name in text");
    fs::write(&rt, name, "one").expect(&rt, "a file");
    let mut shelf = FileShelf::new(&rt);
    let mut file = shelf.fetch(name).expect(&rt, name);
    assert!(rt; gives(&mut file, b"one") && file.read(&mut [0u8; 4]) == Piece::End);
    shelf.give_back(file);
    fs::remove_file(&rt, name).expect(&rt, "a file that goes");
    assert!(rt; shelf.faults() == 0);
    assert!(rt; shelf.fetch(name).err() == Some(ShelfFault::Failed) && shelf.faults() == 1);
}

fn assert_talk<N: Source + Sink, F: Source + Sink>(
    rt: &impl Abort,
    alloc: Global,
    near: &mut N,
    far: &mut F,
) {
    assert_played(rt, alloc, near, "read ask flush", "quiet done done ");
    assert_played(rt, alloc, far, "read read yes", "as k done ");
    assert_played(rt, alloc, near, "read read", "ye s ");
}

#[test]
fn a_link_over_tcp_goes_both_ways(rt: HostRuntime) {
    let alloc = rt.alloc();
    let mut net = TcpNet::new(&rt);
    let mut door = net.listen("127.0.0.1:0").expect(&rt, "a door");
    let port = door.local_addr().expect(&rt, "an address").port();
    let address = format!(in alloc; "127.0.0.1:{port}").expect(&rt, "its text");
    let mut caller = net.caller().expect(&rt, "a caller");
    let mut other = net.caller().expect(&rt, "another caller");
    let mut near = caller.connect(address.as_str()).expect(&rt, "a link");
    let mut far = net.accept(&mut door).expect(&rt, "a link that comes");
    assert_talk(&rt, alloc, &mut near, &mut far);
    caller.hang_up(near);
    assert_played(&rt, alloc, &mut far, "read", "end ");
    net.release(far);
    drop(door);
    assert!(rt; other.connect(address.as_str()).err() == Some(NetFault::Failed));
    net.retire(caller);
    assert!(rt; net.faults() == 0);
    net.retire(other);
    assert!(rt; net.faults() == 1);
}
