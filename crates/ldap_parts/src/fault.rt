//! Why a component is refused.

ghost use Rattle.std.specs.Prelude.{◌≡◌};
ghost use Rattle.ldap_parts.specs.declared.fault.ComponentFault.TheVariants.{Refused, NoMemory};

use ldap_ber::BerFault;
use std::alloc::{AllocError, AllocFailed};

/// Why a component is refused.
#[derive(Clone, Copy, Debug, PartialEq, Eq)]
pub enum ComponentFault {
    /// The place of the first octet of the refused element, counted from 0.
    Refused(usize),
    NoMemory,
}

impl From<BerFault> for ComponentFault {
    ghost from_gives = { λ refusal fault. fault ≡ Refused refusal.at };

    fn from(refusal: BerFault) -> ComponentFault {
        ComponentFault::Refused(refusal.at)
    }
}

impl From<AllocError> for ComponentFault {
    ghost from_gives = { λ _ fault. fault ≡ NoMemory };

    fn from(_error: AllocError) -> ComponentFault {
        ComponentFault::NoMemory
    }
}

impl<T: Drop> From<AllocFailed<T>> for ComponentFault {
    ghost from_gives = { λ _ fault. fault ≡ NoMemory };

    fn from(_error: AllocFailed<T>) -> ComponentFault {
        ComponentFault::NoMemory
    }
}
