//! The values of the content synchronization controls and of the Sync Info message (RFC 4533,
//! section 2), as bytes.
//!
//! Each is read from the whole of some bytes: in any spelling of its elements, with unknown
//! elements after its last known one, and with values written that could be left out. It is
//! written in its one canonical spelling. The elements of a SET are all known.
#![tactic(auto)]

mod done;
mod fault;
mod ids;
mod info;
mod laws;
mod parts;
mod request;
mod state;

pub use done::SyncDone;
pub use fault::SyncFault;
pub use ids::IdList;
pub use info::SyncInfo;
pub use laws::cut_spellings_are_refused;
pub use request::{Mode, SyncRequest};
pub use state::{State, SyncState};
