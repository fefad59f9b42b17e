//! Why a text is refused.
ghost use Rattle.std.specs.Prelude.{◌≡◌};
ghost use Rattle.ldif_text.specs.declared.fault.LdifFault.TheVariants.{NoMemory};

use std::alloc::{AllocError, AllocFailed};

/// Why a text is refused, with the number of the line. Of a folded line this is the number of its
/// first line.
#[derive(Clone, Copy, Debug, PartialEq, Eq)]
pub enum LdifFault {
    /// A line without a colon, one that continues nothing, or a URL in place of a value.
    BadLine(u64),
    /// A value in base64 that is not in the padded standard form.
    BadBase64(u64),
    /// Any other departure, at its line; what is missing, at the last line of the record.
    BadChange(u64),
    NoMemory,
}

impl From<AllocError> for LdifFault {
    ghost from_gives = { λ _ fault. fault ≡ NoMemory };

    fn from(_error: AllocError) -> LdifFault {
        LdifFault::NoMemory
    }
}

impl<T: Drop> From<AllocFailed<T>> for LdifFault {
    ghost from_gives = { λ _ fault. fault ≡ NoMemory };

    fn from(_error: AllocFailed<T>) -> LdifFault {
        LdifFault::NoMemory
    }
}
