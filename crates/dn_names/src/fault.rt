//! Why a text is not a name.
ghost use Rattle.std.specs.Prelude.{◌≡◌};
ghost use Rattle.dn_names.specs.declared.fault.NameFault.TheVariants.{NoMemory};

use std::alloc::{AllocError, AllocFailed};
use thiserror::Error;

/// Why a text is not a name. A place is the offset of the first byte of the refused RDN, or where
/// it had to begin.
#[derive(Clone, Copy, Debug, PartialEq, Eq, Error)]
pub enum NameFault {
    /// The text is not of the form, a value is not of its type's syntax, or a type stands twice
    /// with one key.
    #[error("not a name at byte {0}")]
    BadName(usize),
    /// The type is not in the schema, or is operational.
    #[error("unknown attribute type in the RDN at byte {0}")]
    UnknownType(usize),
    #[error("out of memory")]
    NoMemory,
    /// More than 32 RDNs, or an RDN that is written in more than 1,024 bytes.
    #[error("too long at byte {0}")]
    TooLong(usize),
}

impl From<AllocError> for NameFault {
    ghost from_gives = { λ _ fault. fault ≡ NoMemory };

    fn from(_error: AllocError) -> NameFault {
        NameFault::NoMemory
    }
}

impl<T: Drop> From<AllocFailed<T>> for NameFault {
    ghost from_gives = { λ _ fault. fault ≡ NoMemory };

    fn from(_error: AllocFailed<T>) -> NameFault {
        NameFault::NoMemory
    }
}
