//! Why a message says nothing to a search.

ghost use Rattle.std.specs.Prelude.{◌≡◌};
ghost use Rattle.sync_wire.specs.declared.fault.DecodeFault.TheVariants.{NoMemory};

use std::alloc::AllocError;

/// Why a message says nothing to a search.
#[derive(Clone, Copy, Debug, PartialEq, Eq)]
pub enum DecodeFault {
    /// The message does not belong to a search with content synchronization, or not to this part
    /// of one.
    OutOfPlace,
    /// The value of a control or of a Sync Info message is outside its grammar.
    BadValue,
    /// The identity by the Sync State control, and another one by an entryUUID attribute.
    UuidDiffers(u128, u128),
    /// The entry cannot be held: its name is refused (invalidDNSyntax), a value is not of its
    /// type's syntax (invalidAttributeSyntax), it has no entryCSN (objectClassViolation), or it
    /// weighs too much (adminLimitExceeded).
    BadEntry(u32),
    NoMemory,
}

impl From<AllocError> for DecodeFault {
    ghost from_gives = { λ _ fault. fault ≡ NoMemory };

    fn from(_error: AllocError) -> DecodeFault {
        DecodeFault::NoMemory
    }
}
