//! Why a script is refused.
ghost use Rattle.std.specs.Prelude.{◌≡◌};
ghost use Rattle.cascade_script.specs.declared.fault.Cause.TheVariants.{BadCommand, NoMemory};

use ldap_ber::Octets;
use std::alloc::{AllocError, AllocFailed};

/// Why a script is refused.
#[derive(Drop)]
pub enum Cause {
    /// A line is outside the grammar, or is not UTF-8.
    BadCommand,
    /// No node has the name, or only one of another kind than the command asks for.
    UnknownNode,
    /// A declared name is in use.
    NameTaken,
    /// What follows a `write` is not one record.
    BadRecord,
    /// The script has more bytes, lines or nodes than this, or a link more bytes.
    LimitReached(u64),
    /// A consumer would follow itself, or a node that gets its content from it.
    Circle,
    /// The base of a consumer is not at or below its provider's suffix.
    OutsideSuffix,
    /// A consumer would get a cookie that names more of a node's history than the one that it
    /// holds: the text of its own, where it has one, and the text that it would get.
    LaterCookie(Option<Octets>, Octets),
    NoMemory,
}

/// A refusal, with the number of the line where it stands. That of out of memory is free.
#[derive(Drop)]
pub struct ScriptFault {
    pub line: u64,
    pub cause: Cause,
}

impl ScriptFault {
    /// The line is outside the grammar.
    pub fn bad_command(line: u64) -> ScriptFault
        ensures cause { result.cause ≡ BadCommand }
        ensures line { result.line ≡ line }
    {
        ScriptFault {
            line,
            cause: Cause::BadCommand,
        }
    }
}

impl From<AllocError> for ScriptFault {
    ghost from_gives = { λ _ fault. fault.cause ≡ NoMemory };

    fn from(_: AllocError) -> Self {
        ScriptFault {
            line: 0,
            cause: Cause::NoMemory,
        }
    }
}

impl<T: Drop> From<AllocFailed<T>> for ScriptFault {
    ghost from_gives = { λ _ fault. fault.cause ≡ NoMemory };

    fn from(_: AllocFailed<T>) -> Self {
        ScriptFault {
            line: 0,
            cause: Cause::NoMemory,
        }
    }
}

impl From<AllocError> for Cause {
    ghost from_gives = { λ _ cause. cause ≡ NoMemory };

    fn from(_: AllocError) -> Self {
        Cause::NoMemory
    }
}

impl<T: Drop> From<AllocFailed<T>> for Cause {
    ghost from_gives = { λ _ cause. cause ≡ NoMemory };

    fn from(_: AllocFailed<T>) -> Self {
        Cause::NoMemory
    }
}
