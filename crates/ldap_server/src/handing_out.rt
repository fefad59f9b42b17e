//! How a session hands out what its open searches have pending.

ghost use Rattle.std.specs.Prelude.{◌≡◌, ◌<◌, vec_len};
ghost use Rattle.std.specs.List.{flat_map};
ghost use Rattle.ldap_server.specs.HandOuts.{AreOfGrammar, EndsInGrammar, HandsOutAll, SendsLast, TurnEnds, octets_of, place_after, searches_after};
ghost use Rattle.ldap_server.specs.Points.{PerformedOrBegun, Sends};
ghost use Rattle.ldap_server.specs.Seen.{point_in};

use crate::SessionSearch;
use crate::session::Session;
use ldap_ber::{NoMemory, discard};
use ldap_messages::Message;
use std::alloc::AllocError;
use sync_provider::{HandOutStop, HandedMessages, Port};

/// The most messages that one search hands out at a time.
const MOST_MESSAGES: usize = 64;

impl<P: Port> Session<P> {
    /// Hands out what one search has pending, 64 messages at most, and gives whether it is still
    /// open. The port is asked once for all of them.
    fn hand_out(&mut self, search: SessionSearch) -> Result<bool, NoMemory>
        ensures home { P.home self.new.port ≡ P.home self.old.port }
        ensures turn { TurnEnds search
            (point_in P.state self.old) result (point_in P.state self.new) }
    {
        let Ok(room) = Vec::with_capacity(self.alloc, MOST_MESSAGES) else {
            return Err(AllocError);
        };
        let HandedMessages { messages, stop } = self
            .port
            .hand_out_several(search.number, MOST_MESSAGES, room);
        match self.send_each(messages) {
            Ok(()) => self.send_last(stop),
            Err(_) => {
                discard(stop);
                Err(AllocError)
            }
        }
    }

    /// Sends messages, in their order.
    fn send_each(&mut self, messages: Vec<Message>) -> Result<(), NoMemory>
        requires { AreOfGrammar messages.items }
        ensures port { self.new.port ≡ self.old.port }
        ensures sends { Sends (flat_map octets_of messages.items)
            (point_in P.state self.old) result (point_in P.state self.new) }
    {
        for message in messages {
            match self.send(message) {
                Ok(()) => {}
                Err(_) => return Err(AllocError),
            }
        }
        Ok(())
    }

    /// Sends the last message of a search where that stops its messages, and gives whether the
    /// search is still open.
    fn send_last(&mut self, stop: HandOutStop) -> Result<bool, NoMemory>
        requires { EndsInGrammar stop }
        ensures port { self.new.port ≡ self.old.port }
        ensures sends { SendsLast stop
            (point_in P.state self.old) result (point_in P.state self.new) }
    {
        match stop {
            HandOutStop::Enough => Ok(true),
            HandOutStop::Ended(_, message) => match self.send(message) {
                Ok(()) => Ok(false),
                Err(_) => Err(AllocError),
            },
            HandOutStop::Nothing => Ok(true),
            HandOutStop::NoSuchSearch => Ok(false),
            HandOutStop::NoMemory => Err(AllocError),
        }
    }

    /// Hands out of each open search, in the order of opening.
    pub(crate) fn hand_out_all(&mut self) -> Result<(), NoMemory>
        ensures home { P.home self.new.port ≡ P.home self.old.port }
        ensures turns { PerformedOrBegun HandsOutAll
            (point_in P.state self.old) result (point_in P.state self.new) }
    {
        let mut place = 0;
        while place < self.searches.len() {
            let search = self.searches[place];
            match self.hand_out(search) {
                Ok(stays) => place = self.pass_by(place, stays),
                Err(_) => return Err(AllocError),
            }
        }
        Ok(())
    }

    /// Goes on after the turn of the search at a place, which is taken out where it is over.
    fn pass_by(&mut self, place: usize, stays: bool) -> usize
        requires { place < vec_len self.old.searches }
        ensures next { result ≡ place_after stays place }
        ensures searches { self.new.searches.items
            ≡ searches_after stays place self.old.searches.items }
        ensures bound { self.new.bound ≡ self.old.bound }
        ensures port { self.new.port ≡ self.old.port }
        ensures sent { self.new.sent.items ≡ self.old.sent.items }
    {
        if stays {
            return place + 1;
        }
        let _ = self.searches.remove(place);
        place
    }
}
