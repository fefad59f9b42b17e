//! Ends of searches.

/// How a search ended.
#[derive(Clone, Copy, Debug, PartialEq, Eq)]
pub enum SearchEnd {
    /// Its result was printed, or as many cookies were stored as were wanted.
    Done,
    /// A write to the output failed.
    OutputFault,
    /// The net failed, or a call of the link.
    NetFault,
    /// What the peer sent is no part of an answer, or ended before the answer did.
    PeerFault,
}
