//! Why a filter is refused.
ghost use Rattle.std.specs.Prelude.{◌≡◌};
ghost use Rattle.ldap_filter.specs.declared.fault.FilterFault.TheVariants.{NoMemory};

use std::alloc::{AllocError, AllocFailed};
use thiserror::Error;

/// Why a filter is refused.
#[derive(Clone, Copy, Debug, PartialEq, Eq, Error)]
pub enum FilterFault {
    /// The byte at this place cannot follow those before it.
    #[error("no filter at byte {0}")]
    BadFilter(usize),
    /// More than 32 filters stand in one another.
    #[error("the filter is nested too deep")]
    TooDeep,
    #[error("out of memory")]
    NoMemory,
    /// The filter has no text.
    #[error("the filter has no text")]
    NoText,
}

impl From<AllocError> for FilterFault {
    ghost from_gives = { λ _ fault. fault ≡ NoMemory };

    fn from(_error: AllocError) -> FilterFault {
        FilterFault::NoMemory
    }
}

impl<T: Drop> From<AllocFailed<T>> for FilterFault {
    ghost from_gives = { λ _ fault. fault ≡ NoMemory };

    fn from(_error: AllocFailed<T>) -> FilterFault {
        FilterFault::NoMemory
    }
}
