//! Ends of sessions.

/// How a session ended.
#[derive(Clone, Copy, Debug, PartialEq, Eq)]
pub enum Ended {
    /// By an Unbind of the peer.
    Unbound,
    /// The input was read to its end.
    EndOfInput,
    /// A message was refused, at this place from its first byte on, or is of a kind that only a
    /// server sends.
    ProtocolFault(usize),
    /// A read failed.
    ReadFault,
    /// A write failed.
    WriteFault,
    /// Out of memory.
    NoMemory,
}
