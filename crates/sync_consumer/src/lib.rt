//! A consumer's copy of a part of a directory, and what it makes of each message of its search: the
//! client's part of content synchronization (RFC 4533, section 3).
//!
//! What a refresh sends is staged, and takes effect as a whole where the refresh ends. Later
//! changes are staged too, up to a message with a cookie. A message that is out of place, out of
//! its grammar or not to be had ends the search and leaves the copy as it was.
#![tactic(auto)]

mod commit;
mod consumer;
mod entry_map;
mod fault;
mod held;
mod named;
mod names;
mod phase;
mod session;
mod stage;
mod weighed;

pub use commit::Commit;
pub use consumer::{Consumer, Taken};
pub use entry_map::EntryMap;
pub use fault::PeerFault;
pub use ldap_ber::NoMemory;
