use std::error::Error;
use std::fmt;

/// Why items were not put into a queue.
#[derive(Clone, Copy, Debug, PartialEq, Eq)]
pub enum QueueFault {
    /// What would be pending is more than this limit, or weighs more than any search may have.
    QueueFull(u64),
    NoMemory,
}

impl fmt::Display for QueueFault {
    fn fmt<W: fmt::Write>(&self, f: &mut fmt::Formatter<W>) -> fmt::Result {
        match self {
            QueueFault::QueueFull(limit) => write!(f, "the queue of {limit} items is full"),
            QueueFault::NoMemory => f.write_str("there is no memory"),
        }
    }
}

impl Error for QueueFault {}
