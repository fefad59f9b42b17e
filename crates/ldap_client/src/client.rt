//! A client of a link.

ghost use Rattle.std.specs.Prelude.{◌≡◌, None, Some, Err, IfErr, IfOk};
ghost use Rattle.ldap_client.specs.Clients.{Asks, GivesNext, client_by, fresh};
ghost use Rattle.ldap_client.specs.Links.{link_by};
ghost use Rattle.ldap_client.specs.Rounds.{GoesRound, ReadsMore};
ghost use Rattle.ldap_client.specs.declared.fault.ClientFault.{ClientFault};
ghost use Rattle.ldap_messages.specs.Whole.{HasSpelling, message_octets, message_value};

use crate::fault::ClientFault;
use crate::received::Received;
use ldap_ber::NoMemory;
use ldap_messages::{Message, MessageFault};
use std::alloc::{AllocError, Global};
use std::sync::Wait;
use sync_io::{Link, Piece, write_whole};

/// A client of a link. Messages are written to it and read from it; after a fault other than
/// `NoMemory` each call answers that fault again.
pub struct Client<L> {
    link: L,
    received: Received,
    fault: Option<ClientFault>,
}

/// A call of its own, so that what drops a client is one step.
impl<L: Drop> Drop for Client<L> {
    fn drop(self) {
        let Client {
            link: _link,
            received: _received,
            fault: _,
        } = self;
    }
}

impl<L: Link> Client<L> {
    /// A client of this link. When out of memory, the link comes back.
    pub fn new(alloc: Global, link: L) -> Result<Client<L>, (NoMemory, L)>
        ensures link { IfOk result (λ client. client.link ≡ link) }
        ensures ok { let state = link_by L.bytes_left L.bytes_read L.bytes_held
            L.read_fault_count L.write_fault_count in
            IfOk result (λ client. client_by state client ≡ fresh (state link)) }
        ensures err { IfErr result (λ refused. refused.1 ≡ link) }
    {
        let Ok(received) = Received::new(alloc) else {
            return Err((AllocError, link));
        };
        Ok(Client {
            link,
            received,
            fault: None,
        })
    }

    /// Gives the link back.
    pub fn into_link(self) -> L
        ensures { result ≡ self.link }
    {
        let Client {
            link,
            received: _received,
            fault: _,
        } = self;
        link
    }

    /// Writes a message in its canonical spelling. It is `WriteFault` where the link counts one
    /// more failed write, and `NoMemory`, and then nothing was written.
    pub fn ask(&mut self, message: &Message) -> Result<(), ClientFault>
        requires { HasSpelling (message_value message.now) }
        ensures again { (fault : ClientFault) → self.old.fault ≡ Some fault
            → (result ≡ Err fault) × (self.new ≡ self.old) }
        ensures asks { let state = link_by L.bytes_left L.bytes_read L.bytes_held
            L.read_fault_count L.write_fault_count in
            self.old.fault ≡ None → Asks (message_octets (message_value message.now))
            (client_by state self.old) result (client_by state self.new) }
    {
        if let Some(fault) = self.fault {
            return Err(fault);
        }
        let Ok(octets) = message.write(self.received.alloc()) else {
            return Err(ClientFault::NoMemory);
        };
        if write_whole(&mut self.link, octets.as_slice()) {
            return Ok(());
        }
        self.fault = Some(ClientFault::WriteFault);
        Err(ClientFault::WriteFault)
    }

    /// Gives the next message. It is `PeerMessage` where what stands in its place is refused
    /// (RFC 4511, section 5.1), `EndOfInput` where the link was read to its end and no message is
    /// left, `ReadFault` where the link counts one more failed read, and `NoMemory`, which leaves
    /// what was read to the next call. On a link that waits it may wait.
    pub fn next<R: Wait>(&mut self, rt: &R) -> Result<Message, ClientFault>
        ensures again { (fault : ClientFault) → self.old.fault ≡ Some fault
            → (result ≡ Err fault) × (self.new ≡ self.old) }
        ensures gives { let state = link_by L.bytes_left L.bytes_read L.bytes_held
            L.read_fault_count L.write_fault_count in
            self.old.fault ≡ None
            → GivesNext (client_by state self.old) result (client_by state self.new) }
    {
        if let Some(fault) = self.fault {
            return Err(fault);
        }
        for _ in rt.forever() {
            match self.go_round() {
                Ok(None) => {}
                Ok(Some(message)) => return Ok(message),
                Err(fault) => return Err(fault),
            }
        }
        unreachable!()
    }

    /// The next message of what came, where one is whole; otherwise one read.
    fn go_round(&mut self) -> Result<Option<Message>, ClientFault>
        ensures { let state = link_by L.bytes_left L.bytes_read L.bytes_held
            L.read_fault_count L.write_fault_count in
            GoesRound (client_by state self.old) result (client_by state self.new) }
    {
        match self.received.next_message() {
            Ok(Some(message)) => Ok(Some(message)),
            Ok(None) => match self.read_more() {
                Ok(()) => Ok(None),
                Err(fault) => Err(fault),
            },
            Err(MessageFault::BadMessage(place)) => Err(self.fail(ClientFault::PeerMessage(place))),
            Err(MessageFault::TooLong) => Err(self.fail(ClientFault::PeerMessage(0))),
            Err(MessageFault::NoMemory) => Err(ClientFault::NoMemory),
        }
    }

    /// Reads once.
    fn read_more(&mut self) -> Result<(), ClientFault>
        ensures { let state = link_by L.bytes_left L.bytes_read L.bytes_held
            L.read_fault_count L.write_fault_count in
            ReadsMore (client_by state self.old) result (client_by state self.new) }
    {
        match self.received.read_from(&mut self.link) {
            Ok(Piece::Got(_)) => Ok(()),
            Ok(Piece::Quiet) => Ok(()),
            Ok(Piece::End) => Err(self.fail(ClientFault::EndOfInput)),
            Ok(Piece::Failed) => Err(self.fail(ClientFault::ReadFault)),
            Err(_) => Err(ClientFault::NoMemory),
        }
    }

    /// Answers this fault from now on.
    fn fail(&mut self, fault: ClientFault) -> ClientFault
        ensures fault { result ≡ fault }
        ensures answers { self.new.fault ≡ Some fault }
        ensures link { self.new.link ≡ self.old.link }
        ensures received { self.new.received ≡ self.old.received }
    {
        self.fault = Some(fault);
        fault
    }
}
