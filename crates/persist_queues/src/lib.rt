//! The queue of a persistent search (RFC 4533, section 3.4.2): the messages of the writes that were
//! accepted since the last piece of its refresh was decided, which its consumer has not been handed
//! yet, in their order.
//!
//! A queue is bounded in the number and in the weight of what it holds, so a consumer that does
//! not keep up can't take the provider's memory. The messages of a write go in together or not at
//! all, and nothing that went in is ever dropped for something newer: where they do not fit, the
//! provider ends the search, and the consumer starts anew.
#![tactic(auto)]

mod fault;
mod queue;
mod weight;

pub use fault::QueueFault;
pub use queue::SearchQueue;
pub use weight::{MOST_WEIGHT, Weighs};
