//! Why a value is refused.

ghost use Rattle.std.specs.Prelude.{◌≡◌};
ghost use Rattle.sync_messages.specs.declared.fault.SyncFault.TheVariants.{Ber, NoMemory};

use ldap_ber::BerFault;
use std::alloc::AllocError;

/// Why a value is refused: the first fault from left to right.
#[derive(Clone, Copy, Debug, PartialEq, Eq)]
pub enum SyncFault {
    /// An element is not of the grammar, at this place.
    Ber(BerFault),
    /// A mode has this number.
    BadMode(i64),
    /// An identity has n octets and not 16.
    BadUuidLength(usize),
    /// A state has this number.
    BadState(i64),
    NoMemory,
}

impl From<BerFault> for SyncFault {
    ghost from_gives = { λ refusal fault. fault ≡ Ber refusal };

    fn from(refusal: BerFault) -> SyncFault {
        SyncFault::Ber(refusal)
    }
}

impl From<AllocError> for SyncFault {
    ghost from_gives = { λ _ fault. fault ≡ NoMemory };

    fn from(_error: AllocError) -> SyncFault {
        SyncFault::NoMemory
    }
}
