//! Why a message is refused.

ghost use Rattle.std.specs.Prelude.{◌≡◌};
ghost use Rattle.sync_consumer.specs.Taking.{refusal_of, refusal_against};
ghost use Rattle.sync_consumer.specs.declared.fault.Refusal.TheVariants.{NoMemory};

use entry_tree::CommitRefusal;
use std::alloc::AllocError;
use sync_wire::DecodeFault;

/// Why a message of a search is refused, and its search given up.
#[derive(Clone, Copy, Debug, PartialEq, Eq)]
pub enum PeerFault {
    /// The identity is named as present, and its entry is neither held nor staged.
    PresentUnknown(u128),
    /// The identity by the Sync State control, and another one by an entryUUID attribute.
    UuidDiffers(u128, u128),
    /// The message does not belong here. The number is the tag of its operation.
    OutOfPlace(u8),
    /// The value of a control or of a Sync Info message is outside its grammar.
    BadValue,
    /// The entry cannot be held: its name is refused (invalidDNSyntax), a value is not of its
    /// type's syntax (invalidAttributeSyntax), it has no entryCSN (objectClassViolation), or it
    /// weighs too much (adminLimitExceeded).
    BadEntry(u32),
    /// There would be more entries than a directory may have, or heavier ones.
    StageFull,
    /// Two entries would have one name.
    DuplicateName(u128, u128),
}

/// Why a message is refused, or cannot be taken now.
#[derive(Clone, Copy, Debug, PartialEq, Eq)]
pub(crate) enum Refusal {
    /// The message does not belong here.
    OutOfPlace,
    Fault(PeerFault),
    NoMemory,
}

impl From<AllocError> for Refusal {
    ghost from_gives = { λ _ refusal. refusal ≡ NoMemory };

    fn from(_error: AllocError) -> Refusal {
        Refusal::NoMemory
    }
}

impl From<DecodeFault> for Refusal {
    ghost from_gives = { λ fault refusal. refusal ≡ refusal_of fault };

    fn from(fault: DecodeFault) -> Refusal {
        match fault {
            DecodeFault::OutOfPlace => Refusal::OutOfPlace,
            DecodeFault::BadValue => Refusal::Fault(PeerFault::BadValue),
            DecodeFault::UuidDiffers(uuid, other) => {
                Refusal::Fault(PeerFault::UuidDiffers(uuid, other))
            }
            DecodeFault::BadEntry(code) => Refusal::Fault(PeerFault::BadEntry(code)),
            DecodeFault::NoMemory => Refusal::NoMemory,
        }
    }
}

impl From<CommitRefusal> for Refusal {
    ghost from_gives = { λ found refusal. refusal ≡ refusal_against found };

    fn from(found: CommitRefusal) -> Refusal {
        match found {
            CommitRefusal::TooMany | CommitRefusal::TooHeavy => {
                Refusal::Fault(PeerFault::StageFull)
            }
            CommitRefusal::SameName(one, other) => {
                Refusal::Fault(PeerFault::DuplicateName(one, other))
            }
            CommitRefusal::NoMemory => Refusal::NoMemory,
        }
    }
}
