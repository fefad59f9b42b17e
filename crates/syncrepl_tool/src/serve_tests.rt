//! Directories that are served over a net in memory.

use crate::serve::serve_with;
use directory_setup::{Setup, set_up};
use ldap_ber::{NoMemory, Octets, discard};
use ldap_server::{Gate, OpenGate};
use std::alloc::Global;
use std::process::Abort;
use std::str;
use std::sync::Wait;
use std::sync::atomic::{AtomicU64, Ordering};
use std::test::Fail;
use std::thread::Threads;
use sync_io::{
    FixedClock, FixedWords, LinkPlan, MemoryNet, MemoryShelf, MemorySink, NamedFile, Step,
};

/// An anonymous bind and its answer, and an unbind.
const BIND: &[u8] = b"\x30\x0c\x02\x01\x01\x60\x07\x02\x01\x03\x04\x00\x80\x00";

const BOUND: &[u8] = b"\x30\x0c\x02\x01\x01\x61\x07\x0a\x01\x00\x04\x00\x04\x00";

/// A second bind, with the message ID 2, and what answers the first one and this one.
const BIND_AGAIN: &[u8] = b"\x30\x0c\x02\x01\x02\x60\x07\x02\x01\x03\x04\x00\x80\x00";

const BOUND_TWICE: &[u8] = b"\x30\x0c\x02\x01\x01\x61\x07\x0a\x01\x00\x04\x00\x04\x00\
    \x30\x0c\x02\x01\x02\x61\x07\x0a\x01\x00\x04\x00\x04\x00";

const UNBIND: &[u8] = b"\x30\x05\x02\x01\x02\x42\x00";

/// How often the piece that waits looks for the other one.
const MOST_LOOKS: u64 = 1_000_000_000;

/// Holds piece 1 of connection 1 until piece 2 of connection 2 has come.
#[derive(Drop)]
struct Crossing {
    come: AtomicU64,
    given_up: AtomicU64,
}

impl Gate for Crossing {
    fn pass(&self, connection: u64, piece: u64) {
        if connection == 2 && piece == 2 {
            self.come.store(1, Ordering::SeqCst);
        }
        if connection == 1 && piece == 1 {
            for _ in 0..MOST_LOOKS {
                if self.come.load(Ordering::SeqCst) == 1 {
                    return;
                }
                std::thread::yield_now();
            }
            self.given_up.store(1, Ordering::SeqCst);
        }
    }
}

/// A text with a slash in place of each line feed.
fn lines_of(alloc: Global, text: &str) -> Result<Vec<u8>, NoMemory> {
    let mut lines = Vec::new(alloc);
    for octet in text.as_bytes() {
        lines.push(if *octet == b'/' { b'\n' } else { *octet })?;
    }
    Ok(lines)
}

fn file_of(alloc: Global, name: &str, text: &str) -> Result<NamedFile, NoMemory> {
    let bytes = Octets::from(lines_of(alloc, text)?);
    let name = String::from_str(alloc, name)?;
    Ok(NamedFile { name, bytes })
}

/// A shelf with files, each its name, and after a colon its text; `&` stands between them.
fn shelf_of(alloc: Global, files: &str) -> Result<MemoryShelf, NoMemory> {
    let mut held = Vec::new(alloc);
    for file in files.split('&') {
        if let Some((name, text)) = file.split_once(':') {
            held.push(file_of(alloc, name, text)?)?;
        }
    }
    Ok(MemoryShelf::new(held))
}

/// The message of this name.
fn message(name: &str) -> &'static [u8] {
    match name {
        "bind" => BIND,
        "bind-again" => BIND_AGAIN,
        "unbind" => UNBIND,
        _ => b"unknown",
    }
}

/// A link that gives these messages, each in a piece of its own.
fn link_of(alloc: Global, names: &str) -> Result<LinkPlan, NoMemory> {
    let mut steps = Vec::new(alloc);
    for name in names.split_ascii_whitespace() {
        steps.push(Step::Give(Octets::from_slice(alloc, message(name))?))?;
    }
    Ok(LinkPlan {
        steps,
        failing: Vec::new(alloc),
    })
}

/// A net with a link for each part between slashes, and none where there is no text.
fn net_of(alloc: Global, links: &str) -> Result<MemoryNet, NoMemory> {
    let mut plans = Vec::new(alloc);
    for names in links.split('/') {
        if !names.is_empty() {
            plans.push(link_of(alloc, names)?)?;
        }
    }
    Ok(MemoryNet::new(alloc, plans, Vec::new(alloc)))
}

/// What two random words are taken from.
fn words_of(alloc: Global) -> Result<FixedWords, NoMemory> {
    let mut words = Vec::new(alloc);
    words.push(1)?;
    words.push(2)?;
    Ok(FixedWords::new(words))
}

/// The status of a directory that is served, and what was said.
fn served<R: Threads + Wait + Sync, G: Gate + Sync>(
    rt: &R,
    alloc: Global,
    files: &str,
    net: &mut MemoryNet,
    gate: &G,
) -> Result<(u8, MemorySink), Fail> {
    let mut shelf = shelf_of(alloc, files)?;
    let mut words = words_of(alloc)?;
    let mut errors = MemorySink::new(alloc);
    let status = serve_with(
        rt,
        alloc,
        "serve.toml",
        &mut errors,
        &mut shelf,
        net,
        &mut FixedClock { micros: 0 },
        &mut words,
        gate,
    );
    discard(shelf);
    discard(words);
    Ok((status?.code, errors))
}

/// Whether as many links were released, and this was written on each.
fn are_released(net: &MemoryNet, count: usize, written: &[u8]) -> bool {
    for link in net.released() {
        if link.bytes_held() != written {
            return false;
        }
    }
    net.released().len() == count
}

/// Whether the net was asked for the one address.
fn is_asked_once(net: &MemoryNet, address: &str) -> bool {
    if net.asked().len() != 1 {
        return false;
    }
    net.asked()[0].as_str() == address
}

/// One connection is served, and its link released.
#[test]
fn one_connection(rt: HostRuntime) -> Result<(), Fail> {
    let files = "serve.toml:listen = \"localhost:3890\"/suffix = \"dc=x\"/connections = 1/";
    let mut net = net_of(rt.alloc(), "bind unbind")?;
    let served = served(&rt, rt.alloc(), files, &mut net, &OpenGate);
    let is_released = net.accepted() == 1 && are_released(&net, 1, BOUND);
    let is_asked = is_asked_once(&net, "localhost:3890");
    discard(net);
    let (code, errors) = served?;
    assert!(rt; code == 0 && errors.bytes().is_empty());
    assert!(rt; is_released && is_asked);
    Ok(())
}

/// Whether this was written on one of two links, and that on the other.
fn is_written_on_each(net: &MemoryNet, one: &[u8], other: &[u8]) -> bool {
    let (mut first, mut second) = (false, false);
    for link in net.released() {
        first = first || link.bytes_held() == one;
        second = second || link.bytes_held() == other;
    }
    first && second && net.released().len() == 2
}

/// Two connections are served at once: the one bind of the first waits for the second of the two
/// binds that the other one sends, each in a piece of its own.
#[test]
fn two_connections_at_once(rt: HostRuntime) -> Result<(), Fail> {
    let files = "serve.toml:listen = \"localhost:3890\"/suffix = \"dc=x\"/connections = 2/";
    let gate = Crossing {
        come: AtomicU64::new(0),
        given_up: AtomicU64::new(0),
    };
    let mut net = net_of(rt.alloc(), "bind / bind bind-again")?;
    let served = served(&rt, rt.alloc(), files, &mut net, &gate);
    let is_written = is_written_on_each(&net, BOUND, BOUND_TWICE);
    discard(net);
    let (code, _) = served?;
    assert!(rt; code == 0 && gate.given_up.load(Ordering::SeqCst) == 0);
    assert!(rt; gate.come.load(Ordering::SeqCst) == 1 && is_written);
    Ok(())
}

/// One seat is used by three connections, one after the other.
#[test]
fn one_seat_for_three(rt: HostRuntime) -> Result<(), Fail> {
    let files =
        "serve.toml:listen = \"localhost:3890\"/suffix = \"dc=x\"/seats = 1/connections = 3/";
    let mut net = net_of(rt.alloc(), "bind / bind unbind / bind")?;
    let served = served(&rt, rt.alloc(), files, &mut net, &OpenGate);
    let are_released = are_released(&net, 3, BOUND);
    discard(net);
    let (code, _) = served?;
    assert!(rt; code == 0 && are_released);
    Ok(())
}

/// The net fails after its one link.
#[test]
fn a_net_that_fails(rt: HostRuntime) -> Result<(), Fail> {
    let files = "serve.toml:listen = \"localhost:3890\"/suffix = \"dc=x\"/";
    let mut net = net_of(rt.alloc(), "bind")?;
    let served = served(&rt, rt.alloc(), files, &mut net, &OpenGate);
    let count = net.released().len();
    discard(net);
    let (code, errors) = served?;
    assert!(rt; code == 7 && errors.bytes() == b"syncrepl: net fault\n".as_slice());
    assert!(rt; count == 1);
    Ok(())
}

/// Files, the status, and the line that is said of them. No one is listened to.
const REFUSED: &str = "\
- => 4 syncrepl: read fault
serve.toml:listen = \"localhost:0\"/ => 3 syncrepl: config: MissingKey suffix
serve.toml:listen = / => 3 syncrepl: config: NotToml
serve.toml:listen = \"a\"/suffix = \"dc=x\"/ldif = \"x.ldif\"/\
      &x.ldif:dn: dc=x/changetype: delete/ => 3 syncrepl: line 2: BadChange
serve.toml:listen = \"a\"/suffix = \"dc=x\"/ldif = \"x.ldif\"/\
      &x.ldif:dn: ou=a,dc=x/objectClass: organizationalUnit/ou: a/ \
      => 3 syncrepl: line 3: Refused 32
serve.toml:listen = \"a\"/suffix = \"dc=x\"/ldif = \"x.ldif\"/ => 4 syncrepl: read fault
";

/// Asserts that these files are not served, with this status and this line.
fn assert_unserved<R: Threads + Wait + Sync + Abort>(
    rt: &R,
    alloc: Global,
    row: &str,
) -> Result<(), Fail> {
    let (files, wanted) = row.split_once(" => ").ok_or(row)?;
    let mut net = net_of(alloc, "")?;
    let served = served(rt, alloc, files, &mut net, &OpenGate);
    let is_asked = !net.asked().is_empty();
    discard(net);
    let (code, errors) = served?;
    let said = str::from_utf8(errors.bytes()).unwrap_or("?");
    let found = format!(in alloc; "{code} {said}")?;
    assert!(rt;
        found.as_str().strip_suffix('\n') == Some(wanted),
        "{row}: {found}"
    );
    assert!(rt; !is_asked, "{row}");
    Ok(())
}

#[test]
fn what_is_not_served(rt: HostRuntime) -> Result<(), Fail> {
    for row in REFUSED.lines() {
        assert_unserved(&rt, rt.alloc(), row)?;
    }
    Ok(())
}

fn history_of(setup: &Setup) -> Option<u128> {
    match setup {
        Setup::Ready(ready) => Some(ready.provider.history()),
        Setup::Refused(_) | Setup::ReadFault => None,
    }
}

/// The history of a directory that is served is the two words that were drawn.
#[test]
fn a_history_is_two_words(rt: HostRuntime) -> Result<(), Fail> {
    let files = "serve.toml:listen = \"localhost:0\"/suffix = \"dc=x\"/";
    let mut shelf = shelf_of(rt.alloc(), files)?;
    let mut words = words_of(rt.alloc())?;
    let setup = set_up(
        &rt,
        rt.alloc(),
        "serve.toml",
        &mut shelf,
        &mut FixedClock { micros: 0 },
        &mut words,
    )?;
    let history = history_of(&setup);
    discard(setup);
    assert!(rt; history == Some(18_446_744_073_709_551_618));
    Ok(())
}
