//! Ends of replicas and of their rounds.

/// How following an upstream ended.
#[derive(Clone, Copy, Debug, PartialEq, Eq)]
pub enum NodeEnd {
    /// As many connections were tried as were to be, and this many commits were made.
    Rounds(u64),
    /// The last commit would pass this limit of the directory.
    LimitReached(u64),
    /// Out of memory.
    NoMemory,
}

/// How a round ended, by what comes after it.
#[derive(Clone, Copy, Debug, PartialEq, Eq)]
pub(crate) enum RoundOutcome {
    /// Another round may begin.
    Over,
    /// A commit would pass this limit of the directory.
    LimitReached(u64),
    /// Out of memory.
    NoMemory,
}
