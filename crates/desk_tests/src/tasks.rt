//! What threads do at their desks, and what they note of it.
use sync_consumer::Consumer;

/// What a thread does at its desk.
#[derive(Clone, Copy)]
pub enum Work {
    /// It tries to add fifty units.
    Units,
    /// It calls two thousand times.
    Calls,
}

/// The work of a thread, with the number of the thread.
#[derive(Clone, Copy)]
pub struct Task {
    pub work: Work,
    pub thread: u32,
}

impl Task {
    /// This work, for the thread of this number.
    pub fn new(work: Work, thread: u32) -> Task {
        Task { work, thread }
    }

    /// The same work, for the thread that comes this many threads later.
    pub fn later(self, threads: u32) -> Task {
        Task::new(self.work, self.thread.wrapping_add(threads))
    }
}

/// A write that was tried, and its reply.
#[derive(Clone, Copy)]
pub struct Tried {
    pub thread: u32,
    pub unit: u32,
    pub code: u32,
    pub number: u64,
}

/// A search that goes on after its refresh, by its number, and the consumer that takes its
/// messages.
pub struct FollowedSearch {
    pub number: u64,
    pub consumer: Consumer,
}

/// A call of its own, so that what drops a search is one step.
impl Drop for FollowedSearch {
    fn drop(self) {
        let FollowedSearch {
            number: _,
            consumer: _consumer,
        } = self;
    }
}

impl FollowedSearch {
    /// The consumer alone.
    pub fn into_consumer(self) -> Consumer {
        let FollowedSearch {
            number: _,
            consumer,
        } = self;
        consumer
    }
}

/// What a thread hands in: the writes that it tried, and the search that it follows, if any.
pub struct Noted {
    pub tried: Vec<Tried>,
    pub search: Option<FollowedSearch>,
}

/// A call of its own, as for [`FollowedSearch`].
impl Drop for Noted {
    fn drop(self) {
        let Noted {
            tried: _tried,
            search: _search,
        } = self;
    }
}

impl Noted {
    /// The writes, and the search.
    pub fn into_parts(self) -> (Vec<Tried>, Option<FollowedSearch>) {
        let Noted { tried, search } = self;
        (tried, search)
    }
}
