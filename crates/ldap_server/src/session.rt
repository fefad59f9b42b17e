//! What a session has while it answers.

ghost use Rattle.std.specs.Prelude.{◌≡◌, [], false, option_copied};
ghost use Rattle.ldap_messages.specs.Operation.{operation_of, IsOfGrammar};
ghost use Rattle.ldap_messages.specs.Whole.{message_octets, message_value};
ghost use Rattle.ldap_server.specs.Encoding.{notice, response_octets};
ghost use Rattle.ldap_server.specs.Points.{Sends};
ghost use Rattle.ldap_server.specs.Seen.{point_in};
ghost use Rattle.ldap_server.specs.SessionState.{search_with};
ghost use Rattle.ldap_server.specs.Table.{DropsAll};

use crate::SessionSearch;
use crate::encoding::{encoded, encoded_notice};
use crate::response::Response;
use ldap_ber::NoMemory;
use ldap_messages::{ControlList, Message};
use std::alloc::{AllocError, Global};
use sync_provider::Port;

/// What a session has while it answers.
#[derive(Drop)]
pub(crate) struct Session<P> {
    pub(crate) alloc: Global,
    pub(crate) port: P,
    /// Whether it is bound as the configured name.
    pub(crate) bound: bool,
    /// Its open searches, in the order in which they were opened.
    pub(crate) searches: Vec<SessionSearch>,
    /// What it sends.
    pub(crate) sent: Vec<u8>,
}

impl<P: Port> Session<P> {
    /// One that has just begun.
    pub(crate) fn new(alloc: Global, port: P) -> Session<P>
        ensures port { result.port ≡ port }
        ensures bound { result.bound ≡ false }
        ensures searches { result.searches.items ≡ [] }
        ensures sent { result.sent.items ≡ [] }
    {
        Session {
            alloc,
            port,
            bound: false,
            searches: Vec::new(alloc),
            sent: Vec::new(alloc),
        }
    }

    /// The open search with this message ID.
    pub(crate) fn search_with(&self, id: u32) -> Option<SessionSearch>
        ensures { result ≡ search_with id self.now.searches.items }
    {
        found_with(self.searches.as_slice(), id).copied()
    }

    /// Sends a message.
    pub(crate) fn send(&mut self, message: Message) -> Result<(), NoMemory>
        requires { IsOfGrammar (operation_of message.op) }
        ensures port { self.new.port ≡ self.old.port }
        ensures sends { Sends (message_octets (message_value message))
            (point_in P.state self.old) result (point_in P.state self.new) }
    {
        let Ok(octets) = encoded(self.alloc, message) else {
            return Err(AllocError);
        };
        self.sent.extend_from_slice(octets.as_slice())
    }

    /// Sends a response with this code.
    pub(crate) fn respond(&mut self, id: u32, response: Response, code: u32) -> Result<(), NoMemory>
        ensures port { self.new.port ≡ self.old.port }
        ensures sends { Sends (response_octets id response code)
            (point_in P.state self.old) result (point_in P.state self.new) }
    {
        let op = response.operation(self.alloc, code);
        let controls = ControlList::new(self.alloc);
        self.send(Message { id, op, controls })
    }

    /// Sends the Notice of Disconnection with protocolError.
    pub(crate) fn send_notice(&mut self) -> Result<(), NoMemory>
        ensures port { self.new.port ≡ self.old.port }
        ensures sends { Sends notice
            (point_in P.state self.old) result (point_in P.state self.new) }
    {
        let Ok(octets) = encoded_notice(self.alloc) else {
            return Err(AllocError);
        };
        self.sent.extend_from_slice(octets.as_slice())
    }

    /// Drops all open searches.
    pub(crate) fn drop_searches(&mut self)
        ensures home { P.home self.new.port ≡ P.home self.old.port }
        ensures drops { DropsAll self.old.searches.items
            (P.state self.old.port) (P.state self.new.port) }
        ensures searches { self.new.searches.items ≡ [] }
        ensures bound { self.new.bound ≡ self.old.bound }
        ensures sent { self.new.sent.items ≡ self.old.sent.items }
    {
        drop_each(&mut self.port, self.searches.as_slice());
        self.searches.clear();
    }
}

/// The search with this message ID.
fn found_with(searches: &[SessionSearch], id: u32) -> Option<&SessionSearch>
    ensures { option_copied result ≡ search_with id searches.now }
{
    searches.iter().find(|search| search.id == id)
}

/// Drops searches at a port, one after the other.
pub(crate) fn drop_each<P: Port>(port: &mut P, searches: &[SessionSearch])
    ensures home { P.home port.new ≡ P.home port.old }
    ensures drops { DropsAll searches.now (P.state port.old) (P.state port.new) }
{
    for search in searches {
        let _ = port.drop_search(search.number);
    }
}
