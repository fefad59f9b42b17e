//! The messages of some bytes, answered one after another.

ghost use Rattle.std.specs.Prelude.{◌≡◌, IfOk};
ghost use Rattle.ldap_messages.specs.Whole.{message_value};
ghost use Rattle.ldap_server.specs.Encoding.{notice};
ghost use Rattle.ldap_server.specs.Following.{AnsweredOn, FollowsOn, FollowsOrBegins, next_after};
ghost use Rattle.ldap_server.specs.Points.{PerformedOrBegun, Sends};
ghost use Rattle.ldap_server.specs.Seen.{point_in};
ghost use Rattle.ldap_server.specs.Session.{Does};
ghost use Rattle.ldap_session.specs.Acts.{Answers, end_of};
ghost use Rattle.ldap_session.specs.Incoming.{Arrived};

use crate::answering::{Envelope, end_by};
use crate::first_frame::FirstFrame;
use crate::session::Session;
use ldap_ber::NoMemory;
use ldap_messages::{Message, MessageFault};
use ldap_session::{Access, Ended, request_of};
use std::alloc::AllocError;
use sync_provider::Port;

impl<P: Port> Session<P> {
    /// Answers a message, which came at this time, and gives how it ends the session, if it does.
    #[tactic(auto, unfolding(ldap_session::specs::Acts::end_of))]
    fn answer(
        &mut self,
        access: &Access,
        message: Message,
        now: u64,
    ) -> Result<Option<Ended>, NoMemory>
        ensures home { P.home self.new.port ≡ P.home self.old.port }
        ensures end { IfOk result (λ ended.
            ended ≡ end_of (Answers (Arrived (message_value message)) now)) }
        ensures answer { PerformedOrBegun
            (Does access.now (Answers (Arrived (message_value message)) now))
            (point_in P.state self.old) result (point_in P.state self.new) }
    {
        let Message { id, op, controls } = message;
        let request = request_of(op);
        let ended = end_by(&request);
        let envelope = Envelope {
            id,
            controls: controls.list(),
            now,
        };
        match self.answer_request(access, &envelope, request) {
            Ok(()) => Ok(ended),
            Err(_) => Err(AllocError),
        }
    }

    /// Answers the first n of the bytes, which are a message.
    fn answer_message(
        &mut self,
        access: &Access,
        message: Message,
        count: usize,
        now: u64,
    ) -> Result<FirstFrame, NoMemory>
        ensures home { P.home self.new.port ≡ P.home self.old.port }
        ensures next { IfOk result (λ next.
            next ≡ next_after count (end_of (Answers (Arrived (message_value message)) now))) }
        ensures answer { PerformedOrBegun
            (Does access.now (Answers (Arrived (message_value message)) now))
            (point_in P.state self.old) result (point_in P.state self.new) }
    {
        match self.answer(access, message, now) {
            Ok(Some(ended)) => Ok(FirstFrame::Over(ended)),
            Ok(None) => Ok(FirstFrame::Message(count)),
            Err(_) => Err(AllocError),
        }
    }

    /// Answers what stands first in the bytes. Something of an answer may have been sent where
    /// memory runs out.
    fn answer_first(
        &mut self,
        access: &Access,
        bytes: &[u8],
        now: u64,
    ) -> Result<FirstFrame, NoMemory>
        ensures home { P.home self.new.port ≡ P.home self.old.port }
        ensures follows { FollowsOrBegins access.now now bytes.now
            (point_in P.state self.old) result (point_in P.state self.new) }
    {
        match Message::read(self.alloc, bytes) {
            Ok(None) => Ok(FirstFrame::Rest),
            Ok(Some((message, count))) => self.answer_message(access, message, count, now),
            Err(MessageFault::BadMessage(place)) => self.refuse_bytes(place),
            Err(MessageFault::TooLong) => self.refuse_bytes(0),
            Err(MessageFault::NoMemory) => Err(AllocError),
        }
    }

    /// Sends the Notice of Disconnection for bytes that are refused at this place.
    fn refuse_bytes(&mut self, place: usize) -> Result<FirstFrame, NoMemory>
        ensures port { self.new.port ≡ self.old.port }
        ensures sends { Sends notice
            (point_in P.state self.old) result (point_in P.state self.new) }
        ensures over { IfOk result (λ next. next ≡ FirstFrame.Over (Ended.ProtocolFault place)) }
    {
        match self.send_notice() {
            Ok(()) => Ok(FirstFrame::Over(Ended::ProtocolFault(place))),
            Err(_) => Err(AllocError),
        }
    }

    /// Answers what stands first in the bytes. Nothing of its answer is sent where memory runs out.
    fn answer_next(
        &mut self,
        access: &Access,
        bytes: &[u8],
        now: u64,
    ) -> Result<FirstFrame, NoMemory>
        ensures home { P.home self.new.port ≡ P.home self.old.port }
        ensures follows { FollowsOn access.now now bytes.now
            (point_in P.state self.old) result (point_in P.state self.new) }
    {
        let before = self.sent.len();
        match self.answer_first(access, bytes, now) {
            Ok(next) => Ok(next),
            Err(_) => {
                self.sent.truncate(before);
                Err(AllocError)
            }
        }
    }

    /// Answers the whole messages of the bytes, from the first one on. It gives how the session
    /// ends, where one of them ends it, and how many bytes those before have.
    pub(crate) fn answer_all(
        &mut self,
        access: &Access,
        bytes: &[u8],
        now: u64,
    ) -> Result<(Option<Ended>, usize), NoMemory>
        ensures home { P.home self.new.port ≡ P.home self.old.port }
        ensures answered { AnsweredOn access.now now bytes.now
            (point_in P.state self.old) result (point_in P.state self.new) }
    {
        let mut place = 0;
        loop {
            let (_, rest) = bytes.split_at(place);
            match self.answer_next(access, rest, now) {
                Ok(FirstFrame::Rest) => return Ok((None, place)),
                Ok(FirstFrame::Message(count)) => place += count,
                Ok(FirstFrame::Over(ended)) => return Ok((Some(ended), place)),
                Err(_) => return Err(AllocError),
            }
        }
    }
}
