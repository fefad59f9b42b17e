//! What is handed out of a search.

ghost use Rattle.std.specs.Prelude.{◌≡◌, Some, IfErr, IfOk};
ghost use Rattle.sync_provider.specs.HandingOut as handing;

use crate::handed_messages::HandOutStop;
use ldap_messages::Message;

/// What is handed out of a search.
#[derive(Drop)]
pub enum Handed {
    /// The next message.
    Message(Message),
    /// The last message, with its result code. The search is closed.
    Ended(u32, Message),
    /// Nothing is pending.
    Nothing,
    /// No open search has the number.
    NoSuchSearch,
    NoMemory,
}

impl Handed {
    /// Whether it is the last message of its search.
    pub(crate) fn is_end(&self) -> bool
        ensures { result ≡ handing.is_closing (handing.turn_of self.now) }
    {
        match self {
            Handed::Ended(_, _) => true,
            Handed::Message(_) | Handed::Nothing | Handed::NoSuchSearch | Handed::NoMemory => false,
        }
    }

    /// Whether it is a message after which its search goes on.
    pub(crate) fn is_message(&self) -> bool
        ensures { result ≡ handing.is_going_on (handing.turn_of self.now) }
    {
        match self {
            Handed::Message(_) => true,
            Handed::Ended(_, _) | Handed::Nothing | Handed::NoSuchSearch | Handed::NoMemory =>
                false,
        }
    }

    /// Its message, where the search goes on after it, or why it goes on no further.
    pub fn into_message(self) -> Result<Message, HandOutStop>
        ensures message { IfOk result (λ message. self ≡ Handed.Message message) }
        ensures stop { IfErr result (λ stop. handing.reply_of stop ≡ Some self) }
    {
        match self {
            Handed::Message(message) => Ok(message),
            Handed::Ended(code, message) => Err(HandOutStop::Ended(code, message)),
            Handed::Nothing => Err(HandOutStop::Nothing),
            Handed::NoSuchSearch => Err(HandOutStop::NoSuchSearch),
            Handed::NoMemory => Err(HandOutStop::NoMemory),
        }
    }
}
