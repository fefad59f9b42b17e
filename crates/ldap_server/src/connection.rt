//! A session of LDAP, as a machine of pieces, quiets and an end.

ghost use Rattle.std.specs.Prelude.{◌≡◌, [], Some, Ok, IfErr, IfOk};
ghost use Rattle.ldap_server.specs.Seen.{connected_by, home_in, point_in};
ghost use Rattle.ldap_server.specs.Session.{HandlesEvent, ActsOnOrRunsOut, ended_by, fresh};
ghost use Rattle.ldap_server.specs.Table.{DropsAll};
ghost use Rattle.ldap_session.specs.declared.event.LinkEvent.TheVariants.{Piece, Quiet, End};

use crate::session::Session;
use ldap_ber::{NoMemory, Octets};
use ldap_session::{Access, Ended};
use std::alloc::{AllocError, Global};
use std::mem;
use sync_io::keep_rest;
use sync_provider::Port;

/// For how many bytes of a message that is not whole there is room from the beginning.
const FIRST_ROOM: usize = 1_024;

/// What is sent after an event, and how the session ended, if it did.
#[derive(Drop)]
pub struct Out {
    pub bytes: Octets,
    pub ended: Option<Ended>,
}

/// A session with one peer, over a port of a directory.
pub struct Connection<P> {
    session: Session<P>,
    access: Access,
    /// What came of a message that is not whole.
    kept: Vec<u8>,
    ended: Option<Ended>,
}

/// A call of its own, so that what drops a connection is one step.
impl<P: Drop> Drop for Connection<P> {
    fn drop(self) {
        let Connection {
            session: _session,
            access: _access,
            kept: _kept,
            ended: _,
        } = self;
    }
}

impl<P: Port> Connection<P> {
    /// A session that has just begun. When out of memory, the port comes back.
    pub fn new(alloc: Global, port: P, access: Access) -> Result<Connection<P>, (NoMemory, P)>
        ensures ok { IfOk result (λ connection.
            connected_by P.state connection ≡ fresh (P.state port) access) }
        ensures home { IfOk result (λ connection. home_in P.home connection ≡ P.home port) }
        ensures err { IfErr result (λ refused. refused.1 ≡ port) }
    {
        let Ok(kept) = Vec::with_capacity(alloc, FIRST_ROOM) else {
            return Err((AllocError, port));
        };
        Ok(Connection {
            session: Session::new(alloc, port),
            access,
            kept,
            ended: None,
        })
    }

    /// Takes a piece of the input, which came at this time: answers the messages that are whole
    /// now, and hands out.
    pub fn on_bytes(&mut self, piece: &[u8], now: u64) -> Out
        ensures home { home_in P.home self.new ≡ home_in P.home self.old }
        ensures handles { HandlesEvent (connected_by P.state self.old) (Piece piece.now now)
            result.bytes result.ended (connected_by P.state self.new) }
    {
        if let Some(ended) = self.ended {
            return over(self.session.alloc, ended);
        }
        self.session.sent.clear();
        let done = self.take_piece(piece, now);
        self.end_event(done)
    }

    /// Hands out where no byte came for a while.
    pub fn on_quiet(&mut self) -> Out
        ensures home { home_in P.home self.new ≡ home_in P.home self.old }
        ensures handles { HandlesEvent (connected_by P.state self.old) Quiet
            result.bytes result.ended (connected_by P.state self.new) }
    {
        if let Some(ended) = self.ended {
            return over(self.session.alloc, ended);
        }
        self.session.sent.clear();
        let done = self.take_quiet();
        self.end_event(done)
    }

    /// Ends the session where no byte will come, and drops its open searches.
    pub fn on_end(&mut self) -> Out
        ensures home { home_in P.home self.new ≡ home_in P.home self.old }
        ensures handles { HandlesEvent (connected_by P.state self.old) End
            result.bytes result.ended (connected_by P.state self.new) }
    {
        if let Some(ended) = self.ended {
            return over(self.session.alloc, ended);
        }
        self.session.sent.clear();
        self.session.drop_searches();
        self.end_event(Ok(Some(Ended::EndOfInput)))
    }

    /// Gives the port back. Open searches are dropped.
    pub fn into_port(self) -> P
        ensures home { P.home result ≡ home_in P.home self }
        ensures drops { DropsAll (connected_by P.state self).session.searches
            (connected_by P.state self).port (P.state result) }
    {
        let Connection {
            mut session,
            access: _access,
            kept: _kept,
            ended: _,
        } = self;
        session.drop_searches();
        let Session {
            alloc: _,
            port,
            bound: _,
            searches: _searches,
            sent: _sent,
        } = session;
        port
    }

    /// Answers the messages that are whole with this piece, keeps the rest, and hands out.
    fn take_piece(&mut self, piece: &[u8], now: u64) -> Result<Option<Ended>, NoMemory>
        ensures home { P.home self.new.session.port ≡ P.home self.old.session.port }
        ensures access { self.new.access ≡ self.old.access }
        ensures acts_on { ActsOnOrRunsOut self.old.access self.old.kept.items (Piece piece.now now)
            (point_in P.state self.old.session) result (point_in P.state self.new.session)
            self.new.kept.items }
    {
        let Ok(()) = self.kept.extend_from_slice(piece) else {
            return Err(AllocError);
        };
        match self
            .session
            .answer_all(&self.access, self.kept.as_slice(), now)
        {
            Ok((ended, count)) => match ended {
                Some(ended) => Ok(Some(ended)),
                None => {
                    keep_rest(&mut self.kept, count);
                    self.take_quiet()
                }
            },
            Err(_) => Err(AllocError),
        }
    }

    /// Hands out. Nothing is sent where memory runs out.
    fn take_quiet(&mut self) -> Result<Option<Ended>, NoMemory>
        ensures home { P.home self.new.session.port ≡ P.home self.old.session.port }
        ensures access { self.new.access ≡ self.old.access }
        ensures kept { self.new.kept ≡ self.old.kept }
        ensures acts_on { ActsOnOrRunsOut self.old.access self.old.kept.items Quiet
            (point_in P.state self.old.session) result (point_in P.state self.new.session)
            self.new.kept.items }
    {
        let before = self.session.sent.len();
        match self.session.hand_out_all() {
            Ok(()) => Ok(None),
            Err(_) => {
                self.session.sent.truncate(before);
                Err(AllocError)
            }
        }
    }

    /// What is sent after an event that was done so, and how the session ended, if it did.
    fn end_event(&mut self, done: Result<Option<Ended>, NoMemory>) -> Out
        ensures port { self.new.session.port ≡ self.old.session.port }
        ensures bytes { result.bytes ≡ self.old.session.sent.items }
        ensures ended { result.ended ≡ ended_by done }
        ensures left { connected_by P.state self.new
            ≡ record (connected_by P.state self.old) { ended = ended_by done } }
    {
        let ended = ended_by(done);
        self.ended = ended;
        let nothing = Vec::new(self.session.alloc);
        let sent = mem::replace(&mut self.session.sent, nothing);
        Out {
            bytes: Octets::from(sent),
            ended,
        }
    }
}

/// After the end of a session nothing is sent.
fn over(alloc: Global, ended: Ended) -> Out
    ensures bytes { result.bytes ≡ [] }
    ensures ended { result.ended ≡ Some ended }
{
    Out {
        bytes: Octets::from(Vec::new(alloc)),
        ended: Some(ended),
    }
}

/// How the session ended, where running out of memory ends it too.
fn ended_by(done: Result<Option<Ended>, NoMemory>) -> Option<Ended>
    ensures { result ≡ ended_by done }
{
    match done {
        Ok(ended) => ended,
        Err(_) => Some(Ended::NoMemory),
    }
}
