//! What a journal notes.

use crate::opened_search::OpenedSearch;
use entry_tree::Write;

/// An entry of the journal of a directory: what was done on it, in order. It is made for contracts;
/// what is kept are the writes of the directory, and the events of its searches beside them.
pub enum JournalNote {
    /// A write was accepted.
    Wrote(Write),
    /// A search with content synchronisation was opened.
    Opened(OpenedSearch),
    /// A search ended.
    Closed(ClosedSearch),
}

/// A call of its own, so that what drops it is one step, whatever it notes.
impl Drop for JournalNote {
    fn drop(self) {
        match self {
            JournalNote::Wrote(_write) => {}
            JournalNote::Opened(_opened) => {}
            JournalNote::Closed(_) => {}
        }
    }
}

/// A search that ended, by its end or because it was dropped.
#[derive(Clone, Copy, Debug, PartialEq, Eq)]
pub struct ClosedSearch {
    pub number: u64,
    /// How many messages were handed out of it, its end included.
    pub handed: u64,
    /// How many had been handed out when a write was too much for it, where one was.
    pub over: Option<u64>,
}

/// A search was opened or ended.
#[derive(Drop)]
pub struct SearchEvent {
    /// How many writes had been accepted before.
    pub writes: u64,
    pub change: SearchChange,
}

/// What became of a search.
#[derive(Drop)]
pub enum SearchChange {
    Opened(OpenedSearch),
    Closed(ClosedSearch),
}
