//! Why a message is refused.

ghost use Rattle.std.specs.Prelude.{◌≡◌};
ghost use Rattle.ldap_messages.specs.declared.fault.MessageFault.TheVariants.{NoMemory};

use std::alloc::AllocError;

/// Why the bytes so far begin no message.
#[derive(Clone, Copy, Debug, PartialEq, Eq)]
pub enum MessageFault {
    /// How many octets stand before the part that the grammar refuses: of a header its first wrong
    /// octet, else the first wrong element.
    BadMessage(usize),
    /// More than 4,194,304 octets are announced.
    TooLong,
    NoMemory,
}

impl From<AllocError> for MessageFault {
    ghost from_gives = { λ _ fault. fault ≡ NoMemory };

    fn from(_error: AllocError) -> MessageFault {
        MessageFault::NoMemory
    }
}
