//! Why a value has no key.
ghost use Rattle.std.specs.Prelude.{◌≡◌};

use std::alloc::AllocError;
use thiserror::Error;

/// Why a value has no key.
#[derive(Clone, Copy, Debug, PartialEq, Eq, Error)]
pub enum KeyFault {
    #[error("the value is not UTF-8")]
    NotUtf8,
    #[error("the value is not of its syntax")]
    NotOfSyntax,
    #[error("out of memory")]
    NoMemory,
}

impl From<AllocError> for KeyFault {
    ghost use Rattle.text_keys.specs.declared.fault.KeyFault.TheVariants.{NoMemory};

    ghost from_gives = { λ _ fault. fault ≡ NoMemory };

    fn from(_error: AllocError) -> KeyFault {
        KeyFault::NoMemory
    }
}
