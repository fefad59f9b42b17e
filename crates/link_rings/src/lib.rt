//! A bounded ring that hands byte strings from one thread to another: first in, first out, and none
//! is lost.
//!
//! [`ring`] makes the two ends. Each may go to a thread of its own, and neither waits: an end that
//! finds nothing says so. What was offered and what was taken can be compared once both ends are
//! in one thread again, by [`RingConsumer::beside`]. A thread that has to wait for the other end does
//! so at an [`EventCount`], which the other one advances.
#![tactic(auto)]

mod ends;
mod event_count;

pub use ends::{Full, RingConsumer, RingProducer, ring};
pub use event_count::EventCount;
