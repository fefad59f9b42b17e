//! Why a client gives no message.

/// Why a client gives no message, or writes none.
#[derive(Clone, Copy, Debug, PartialEq, Eq)]
pub enum ClientFault {
    /// A read failed.
    ReadFault,
    /// A write failed.
    WriteFault,
    /// What came is refused, at this place from the first byte of the refused message on.
    PeerMessage(usize),
    /// The input was read to its end, and no message of it is left.
    EndOfInput,
    /// Out of memory.
    NoMemory,
}
