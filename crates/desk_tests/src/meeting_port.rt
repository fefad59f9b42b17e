//! A port at which one writer waits for another one: so a test sees that they are not run one after
//! the other.

ghost use Rattle.std.specs.Prelude.{◌≡◌};

use dn_names::Dn;
use entry_tree::{EntryList, Op};
use ldap_messages::Message;
use std::sync::atomic::{AtomicU64, Ordering};
use sync_messages::IdList;
use sync_provider::{
    Accepted, CommitFault, Handed, HandedMessages, PlainSearch, Port, Reply, SearchReply,
    SyncSearch,
};

/// How often the port that waits looks for a write of the other one.
const MOST_LOOKS: u64 = 1_000_000_000;

/// Whether a write was answered at the port that is waited for, and whether the one that waits has
/// given up.
#[derive(Drop)]
pub(crate) struct Meeting {
    come: AtomicU64,
    given_up: AtomicU64,
}

impl Meeting {
    pub(crate) fn new() -> Meeting {
        Meeting {
            come: AtomicU64::new(0),
            given_up: AtomicU64::new(0),
        }
    }

    pub(crate) fn was_given_up(&self) -> bool {
        self.given_up.load(Ordering::SeqCst) == 1
    }

    /// Waits until a write was answered, or gives up.
    fn wait(&self) {
        for _ in 0..MOST_LOOKS {
            if self.come.load(Ordering::SeqCst) == 1 {
                return;
            }
            std::thread::yield_now();
        }
        self.given_up.store(1, Ordering::SeqCst);
    }
}

/// What a port has to do with the meeting.
#[derive(Clone, Copy, Debug, PartialEq, Eq)]
pub(crate) enum Role {
    /// It waits before its second write.
    Waits,
    /// It is waited for.
    IsAwaited,
    /// Nothing.
    Apart,
}

/// A port with its role, and how many writes it has answered.
#[derive(Drop)]
pub(crate) struct MeetingPort<'a, P> {
    pub(crate) port: P,
    meeting: &'a Meeting,
    role: Role,
    answered: u64,
}

impl<'a, P> MeetingPort<'a, P> {
    /// A port round this one, which has answered nothing.
    pub(crate) fn new(port: P, meeting: &'a Meeting, role: Role) -> MeetingPort<'a, P>
        ensures { result.port ≡ port }
    {
        MeetingPort {
            port,
            meeting,
            role,
            answered: 0,
        }
    }

    fn before_write(&self) {
        if self.role == Role::Waits && self.answered == 1 {
            self.meeting.wait();
        }
    }

    fn after_write(&mut self)
        ensures { self.new.port ≡ self.old.port }
    {
        self.answered = self.answered.saturating_add(1);
        if self.role == Role::IsAwaited {
            self.meeting.come.store(1, Ordering::SeqCst);
        }
    }
}

impl<P: Port> Port for MeetingPort<'_, P> {
    type Home = P::Home;

    ghost home = { λ m. P.home m.port };

    ghost state = { λ m. P.state m.port };

    fn write(&mut self, op: Op, now: u64) -> Reply {
        self.before_write();
        let reply = self.port.write(op, now);
        self.after_write();
        reply
    }

    fn commit(&mut self, puts: EntryList, drops: IdList, now: u64) -> Result<u64, CommitFault> {
        self.port.commit(puts, drops, now)
    }

    fn search(&mut self, ask: &PlainSearch) -> SearchReply {
        self.port.search(ask)
    }

    fn compare(&mut self, dn: &Dn, name: &[u8], value: &[u8]) -> u32 {
        self.port.compare(dn, name, value)
    }

    fn accept(&mut self, ask: SyncSearch) -> Accepted {
        self.port.accept(ask)
    }

    fn hand_out(&mut self, search: u64) -> Handed {
        self.port.hand_out(search)
    }

    fn hand_out_several(&mut self, search: u64, most: usize, room: Vec<Message>) -> HandedMessages {
        self.port.hand_out_several(search, most, room)
    }

    fn drop_search(&mut self, search: u64) -> bool {
        self.port.drop_search(search)
    }

    fn writes(&mut self) -> u64 {
        self.port.writes()
    }

    fn meet(&mut self, other: &mut Self) {
        self.port.meet(&mut other.port)
    }
}
