//! What is said with the name of a fault.

/// What is said with the name of a fault.
#[derive(Clone, Copy, Debug, PartialEq, Eq)]
pub enum FaultDetail {
    /// The name alone.
    Nothing,
    /// A result code (RFC 4511, 4.1.9).
    Code(i64),
    /// A tag, or the place of an octet from the start of a message.
    Number(u64),
    /// An entry, by its entryUUID.
    Entry(u128),
    /// Two entries, by their entryUUIDs.
    Entries(u128, u128),
}
