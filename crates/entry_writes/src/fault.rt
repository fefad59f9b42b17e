//! Why a write is refused.
ghost use Rattle.std.specs.Prelude.{◌≡◌, ℕ, Option};
ghost use Rattle.schema_rules.specs.Fault as schema;
ghost use Rattle.entry_writes.specs.Fault.{HasOpCode};
ghost use Rattle.entry_writes.specs.declared.fault.OpFault.TheVariants.{NoMemory};

use schema_rules::SchemaFault;
use std::alloc::{AllocError, AllocFailed};

/// Why a write is refused.
#[derive(Clone, Copy, Debug, PartialEq, Eq)]
pub enum OpFault {
    /// The result code (RFC 4511, section 4.1.9), which is not success.
    Code(u32),
    NoMemory,
}

impl From<AllocError> for OpFault {
    ghost from_gives = { λ _ fault. fault ≡ NoMemory };

    fn from(_error: AllocError) -> OpFault {
        OpFault::NoMemory
    }
}

impl<T: Drop> From<AllocFailed<T>> for OpFault {
    ghost from_gives = { λ _ fault. fault ≡ NoMemory };

    fn from(_error: AllocFailed<T>) -> OpFault {
        OpFault::NoMemory
    }
}

/// The fault reports the same code.
impl From<SchemaFault> for OpFault {
    ghost from_gives = { λ given fault. (code : Option ℕ)
        → schema.HasCode code given → HasOpCode code fault };

    fn from(fault: SchemaFault) -> OpFault {
        match fault {
            SchemaFault::Code(code) => OpFault::Code(code),
            SchemaFault::NoMemory => OpFault::NoMemory,
        }
    }
}
