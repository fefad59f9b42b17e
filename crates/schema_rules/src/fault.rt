//! Why the schema refuses.
ghost use Rattle.std.specs.Prelude.{◌≡◌};
ghost use Rattle.schema_rules.specs.declared.fault.SchemaFault.TheVariants.{NoMemory};

use std::alloc::{AllocError, AllocFailed};
use thiserror::Error;

/// Why the schema refuses, as a result code (RFC 4511, section 4.1.9).
#[derive(Clone, Copy, Debug, PartialEq, Eq, Error)]
pub enum SchemaFault {
    /// undefinedAttributeType, constraintViolation, attributeOrValueExists, invalidAttributeSyntax
    /// or objectClassViolation.
    #[error("result code {0}")]
    Code(u32),
    #[error("out of memory")]
    NoMemory,
}

impl From<AllocError> for SchemaFault {
    ghost from_gives = { λ _ fault. fault ≡ NoMemory };

    fn from(_error: AllocError) -> SchemaFault {
        SchemaFault::NoMemory
    }
}

impl<T: Drop> From<AllocFailed<T>> for SchemaFault {
    ghost from_gives = { λ _ fault. fault ≡ NoMemory };

    fn from(_error: AllocFailed<T>) -> SchemaFault {
        SchemaFault::NoMemory
    }
}
