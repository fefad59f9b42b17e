//! A directory that follows another one and is served meanwhile, over a net of the test's own: the
//! one connection is quiet until the upstream's link has given its end.
ghost use Rattle.std.specs.Prelude.{◌≡◌, ◌≤◌, IfSome, None, Some, refl, true};
ghost use Rattle.sync_io.specs.Faults.{one_more};

use crate::serve::serve_with;
use ldap_ber::{NoMemory, Octets, discard};
use ldap_server::OpenGate;
use std::alloc::Global;
use std::sync::Wait;
use std::sync::atomic::{AtomicU64, Ordering};
use std::test::Fail;
use std::thread::Threads;
use sync_io::{
    Dial, FixedClock, FixedWords, Link, MemoryShelf, MemorySink, MemorySource, NamedFile, Net,
    NetFault, Piece, Put, Sink, Source,
};

const CONFIG: &[u8] =
    b"listen = 'a'\nconnections = 1\n[upstream]\naddress = 'b'\nbase = 'dc=x'\nscope = 'sub'\nfilter = '(objectClass=*)'\nrounds = 1\n";

/// What the upstream's link gives: the first entry of a directory, and the end of the refresh.
const FIRST: &[u8] =
    b"0\x81\xf1\x02\x01\x01d\x81\xb4\x04\x04dc=x0\x81\xab0\x27\x04\x0bobjectClass1\x18\x04\x0corganization\x04\x08dcObject0\x08\x04\x01o1\x03\x04\x01X0\x09\x04\x02dc1\x03\x04\x01x03\x04\x09entryUUID1\x26\x04\x2400000000-0001-8000-8000-00000000000106\x04\x08entryCSN1\x2a\x04\x2819700101000000.000000Z#000001#001#000000\xa0503\x04\x181.3.6.1.4.1.4203.1.9.1.2\x04\x170\x15\x0a\x01\x01\x04\x10\x00\x00\x00\x00\x00\x01\x80\x00\x80\x00\x00\x00\x00\x00\x00\x01";

const REFRESHED: &[u8] =
    b"\x30\x81\x87\x02\x01\x01\x79\x81\x81\x80\x181.3.6.1.4.1.4203.1.9.1.4\x81\x65\xa2\x63\x04\x61rid=000,sid=001,csn=19700101000000.000000Z#000000#001#000000,gen=00000000000000000000000000000001";

/// A search for `dc=x` alone, and its answer: the entry, and success.
const SEARCH: &[u8] =
    b"\x30\x29\x02\x01\x01\x63\x24\x04\x04dc=x\x0a\x01\x00\x0a\x01\x00\x02\x01\x00\x02\x01\x00\x01\x01\x00\x87\x0bobjectClass\x30\x00";

const ANSWER: &[u8] =
    b"\x30\x4b\x02\x01\x01\x64\x46\x04\x04dc=x\x30\x3e\x30\x27\x04\x0bobjectClass\x31\x18\x04\x0corganization\x04\x08dcObject\x30\x08\x04\x01o\x31\x03\x04\x01X\x30\x09\x04\x02dc\x31\x03\x04\x01x\x30\x0c\x02\x01\x01\x65\x07\x0a\x01\x00\x04\x00\x04\x00";

/// How often the connection is quiet at most.
const MOST_QUIETS: u64 = 1_000_000_000;

/// Whether the upstream's link has given its end, and whether the connection no longer waits for
/// that.
#[derive(Drop)]
struct Signal {
    ended: AtomicU64,
    given_up: AtomicU64,
}

/// What a link has to do with the signal.
#[derive(Clone, Copy, Debug, PartialEq, Eq)]
enum Role {
    /// It is the upstream's, and gives the signal at its end.
    Gives,
    /// It is the connection's, and is quiet until then.
    Waits,
}

/// A link of bytes in memory, which reports none of them to a contract.
#[derive(Drop)]
struct TimedLink<'a> {
    signal: &'a Signal,
    role: Role,
    source: MemorySource,
    sink: MemorySink,
    quiets: u64,
}

impl TimedLink<'_> {
    /// Whether it still waits for the signal.
    fn holds_back(&mut self) -> bool
        ensures { self.new.sink ≡ self.old.sink }
    {
        if self.role == Role::Gives || self.signal.ended.load(Ordering::SeqCst) == 1 {
            return false;
        }
        if MOST_QUIETS <= self.quiets {
            self.signal.given_up.store(1, Ordering::SeqCst);
            return false;
        }
        self.quiets += 1;
        std::thread::yield_now();
        true
    }
}

impl Source for TimedLink<'_> {
    ghost bytes_left = { λ _. None };

    ghost bytes_read = { λ _. None };

    ghost waits = { λ _. true };

    ghost read_fault_count = { λ _. 0 };

    ghost sink_side = { λ l. Some (record { held = None; faults = l.sink.faults }) };

    fn read_faults(&self) -> u64 {
        0
    }

    fn read(&mut self, buffer: &mut [u8]) -> Piece {
        if self.holds_back() {
            return Piece::Quiet;
        }
        match self.source.read(buffer) {
            Piece::Got(count) => Piece::Got(count),
            Piece::Quiet => Piece::Quiet,
            Piece::End => {
                self.signal.ended.store(1, Ordering::SeqCst);
                Piece::End
            }
            Piece::Failed => Piece::Failed,
        }
    }
}

impl Sink for TimedLink<'_> {
    ghost bytes_held = { λ _. None };

    ghost write_fault_count = { λ l. l.sink.faults };

    ghost source_side = { λ _. Some (record {
      left = None;
      read = None;
      waits = true;
      faults = 0;
    }) };

    fn write_faults(&self) -> u64 {
        self.sink.write_faults()
    }

    fn write(&mut self, piece: &[u8]) -> Put {
        self.sink.write(piece)
    }

    fn flush(&mut self) -> bool {
        self.sink.flush()
    }
}

impl Link for TimedLink<'_> {
    ghost reads_apart = { λ _. refl };

    ghost writes_apart = { λ _. refl };

    ghost reads_reported = { λ _ left. left };
}

/// Counts one more fault.
fn count_fault(faults: &mut u64)
    ensures counted { faults.new ≡ one_more faults.old }
    ensures later { faults.old ≤ faults.new }
{
    *faults = faults.saturating_add(1);
}

/// Takes a link out, unless a write of it has failed.
fn sound_link<'a>(place: &mut Option<TimedLink<'a>>) -> Option<TimedLink<'a>>
    ensures { IfSome result (λ link. link.sink.faults ≡ 0) }
{
    match place.take() {
        Some(link) => {
            if link.write_faults() > 0 {
                return None;
            }
            Some(link)
        }
        None => None,
    }
}

/// A dialler with one link.
#[derive(Drop)]
struct OneCall<'a> {
    link: Option<TimedLink<'a>>,
    hung_up: u64,
    faults: u64,
}

impl<'a> Dial for OneCall<'a> {
    type Link = TimedLink<'a>;

    ghost dialled = { λ _. None };

    ghost dial_fault_count = { λ d. d.faults };

    fn faults(&self) -> u64 {
        self.faults
    }

    fn connect(&mut self, _address: &str) -> Result<TimedLink<'a>, NetFault> {
        match sound_link(&mut self.link) {
            Some(link) => Ok(link),
            None => {
                count_fault(&mut self.faults);
                Err(NetFault::Failed)
            }
        }
    }

    fn hang_up(&mut self, link: TimedLink<'a>) {
        self.hung_up = self.hung_up.saturating_add(1);
        if link.read_faults() > 0 || link.write_faults() > 0 {
            count_fault(&mut self.faults);
        }
    }

    ghost within = { λ _. tt };
}

/// Takes a dialler out, unless it counted a fault.
fn sound_caller<'a>(place: &mut Option<OneCall<'a>>) -> Option<OneCall<'a>>
    ensures { IfSome result (λ caller. caller.faults ≡ 0) }
{
    match place.take() {
        Some(caller) => {
            if caller.faults > 0 {
                return None;
            }
            Some(caller)
        }
        None => None,
    }
}

/// A door that does nothing.
#[derive(Drop)]
struct OneDoor {}

/// A net with one connection and one caller.
#[derive(Drop)]
struct OneNet<'a> {
    link: Option<TimedLink<'a>>,
    caller: Option<OneCall<'a>>,
    released: Option<TimedLink<'a>>,
    let_go: Option<OneCall<'a>>,
    faults: u64,
}

impl<'a> Net for OneNet<'a> {
    type Door = OneDoor;

    type Link = TimedLink<'a>;

    type Caller = OneCall<'a>;

    ghost served = { λ _. None };

    ghost net_fault_count = { λ n. n.faults };

    fn faults(&self) -> u64 {
        self.faults
    }

    fn listen(&mut self, _address: &str) -> Result<OneDoor, NetFault> {
        Ok(OneDoor {})
    }

    fn accept(&mut self, _door: &mut OneDoor) -> Result<TimedLink<'a>, NetFault> {
        match sound_link(&mut self.link) {
            Some(link) => Ok(link),
            None => {
                count_fault(&mut self.faults);
                Err(NetFault::Failed)
            }
        }
    }

    fn release(&mut self, link: TimedLink<'a>) {
        self.released = Some(link);
    }

    fn caller(&mut self) -> Result<OneCall<'a>, NetFault> {
        match sound_caller(&mut self.caller) {
            Some(caller) => Ok(caller),
            None => {
                count_fault(&mut self.faults);
                Err(NetFault::Failed)
            }
        }
    }

    fn retire(&mut self, caller: OneCall<'a>) {
        if caller.faults() > 0 {
            count_fault(&mut self.faults);
        }
    }

    fn let_go(&mut self, caller: OneCall<'a>) {
        self.let_go = Some(caller);
    }

    ghost links_within = { λ _. tt };

    ghost callers_within = { λ _. tt };
}

/// A link with these bytes.
fn link_of<'a>(
    alloc: Global,
    signal: &'a Signal,
    role: Role,
    pieces: &[&[u8]],
) -> Result<TimedLink<'a>, NoMemory> {
    let mut bytes = Vec::new(alloc);
    for piece in pieces {
        bytes.extend_from_slice(piece)?;
    }
    Ok(TimedLink {
        signal,
        role,
        source: MemorySource::new(Octets::from(bytes)),
        sink: MemorySink::new(alloc),
        quiets: 0,
    })
}

/// A net whose connection searches once the upstream's link has ended.
fn net_of(alloc: Global, signal: &Signal) -> Result<OneNet<'_>, NoMemory> {
    Ok(OneNet {
        link: Some(link_of(alloc, signal, Role::Waits, &[SEARCH])?),
        caller: Some(OneCall {
            link: Some(link_of(alloc, signal, Role::Gives, &[FIRST, REFRESHED])?),
            hung_up: 0,
            faults: 0,
        }),
        released: None,
        let_go: None,
        faults: 0,
    })
}

fn shelf_of(alloc: Global) -> Result<MemoryShelf, NoMemory> {
    let mut files = Vec::new(alloc);
    files.push(NamedFile {
        name: String::from_str(alloc, "serve.toml")?,
        bytes: Octets::from_slice(alloc, CONFIG)?,
    })?;
    Ok(MemoryShelf::new(files))
}

fn words_of(alloc: Global) -> Result<FixedWords, NoMemory> {
    let mut words = Vec::new(alloc);
    words.push(1)?;
    words.push(2)?;
    Ok(FixedWords::new(words))
}

/// The status of the directory that is served over this net, and what was said.
fn served<R: Threads + Wait + Sync>(
    rt: &R,
    alloc: Global,
    net: &mut OneNet<'_>,
) -> Result<(u8, MemorySink), Fail> {
    let mut shelf = shelf_of(alloc)?;
    let mut words = words_of(alloc)?;
    let mut errors = MemorySink::new(alloc);
    let status = serve_with(
        rt,
        alloc,
        "serve.toml",
        &mut errors,
        &mut shelf,
        net,
        &mut FixedClock { micros: 0 },
        &mut words,
        &OpenGate,
    );
    discard(shelf);
    discard(words);
    Ok((status?.code, errors))
}

/// Whether the answer was written on the link of the connection, which was released.
fn is_answered(net: &OneNet<'_>) -> bool {
    match &net.released {
        Some(link) => link.sink.bytes() == ANSWER,
        None => false,
    }
}

/// Whether the caller was let go, and its one link hung up.
fn is_let_go(net: &OneNet<'_>) -> bool {
    match &net.let_go {
        Some(caller) => caller.hung_up == 1 && caller.link.is_none(),
        None => false,
    }
}

/// What the upstream sends is found by the search of the one connection.
#[test]
fn a_replica_serves_what_it_follows(rt: HostRuntime) -> Result<(), Fail> {
    let signal = Signal {
        ended: AtomicU64::new(0),
        given_up: AtomicU64::new(0),
    };
    let mut net = net_of(rt.alloc(), &signal)?;
    let served = served(&rt, rt.alloc(), &mut net);
    let (is_answered, is_let_go) = (is_answered(&net), is_let_go(&net));
    discard(net);
    let (code, errors) = served?;
    assert!(rt; code == 0 && errors.bytes().is_empty());
    assert!(rt; signal.given_up.load(Ordering::SeqCst) == 0);
    assert!(rt; is_answered && is_let_go);
    Ok(())
}
