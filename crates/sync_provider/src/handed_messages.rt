//! Messages that are handed out of a search together.

ghost use Rattle.std.specs.Prelude.{◌≡◌, ◌≤◌, [], vec_capacity};
ghost use Rattle.sync_provider.specs.Journal.{port_state};
ghost use Rattle.sync_provider.specs.Ports.{SeveralReplies};

use crate::handed::Handed;
use crate::provider::Provider;
use ldap_messages::Message;

/// Why no more messages are handed out together.
#[derive(Drop)]
pub enum HandOutStop {
    /// There are as many as were asked for.
    Enough,
    /// The last message of the search, with its result code. The search is closed.
    Ended(u32, Message),
    /// Nothing is pending.
    Nothing,
    /// No open search has the number.
    NoSuchSearch,
    NoMemory,
}

/// Messages that are handed out of a search together, in order, and why there are no more.
#[derive(Drop)]
pub struct HandedMessages {
    pub messages: Vec<Message>,
    pub stop: HandOutStop,
}

impl Provider {
    /// The next messages of the search with this number, `most` at most, one after the other. They
    /// are put into the room, which has to be empty.
    pub fn hand_out_several(
        &mut self,
        number: u64,
        most: usize,
        room: Vec<Message>,
    ) -> HandedMessages
        requires empty { room.items ≡ [] }
        requires fits { most ≤ vec_capacity room }
        ensures { SeveralReplies (port_state self.old) number most result (port_state self.new) }
    {
        let mut messages = room;
        for _ in 0..most {
            match self.hand_out(number).into_message() {
                Ok(message) => messages.push_reserved(message),
                Err(stop) => return HandedMessages { messages, stop },
            }
        }
        HandedMessages {
            messages,
            stop: HandOutStop::Enough,
        }
    }
}
