//! Searches with content synchronisation that a session has open.

/// A search that a session has open.
#[derive(Clone, Copy, Debug, PartialEq, Eq)]
pub struct SessionSearch {
    /// The message ID of its request, which its messages have too.
    pub id: u32,
    /// Its number at the port.
    pub number: u64,
}
