//! What the log keeps.

/// A write touched the entry of an identity. Contracts see a log as a list of these.
#[derive(Clone, Copy, Debug, PartialEq, Eq)]
pub struct Note {
    /// The number of the write.
    pub number: u64,

    /// The entryUUID (RFC 4530).
    pub uuid: u128,
}
