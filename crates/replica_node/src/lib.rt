//! A replica that follows an upstream provider over links: it asks for a search with content
//! synchronisation, and commits each stage that took effect (RFC 4533, section 3.4).
//!
//! A round is one connection. Whatever ends it, the next one begins with the cookie that is held.
#![tactic(auto)]

mod committing;
mod end;
mod following;
mod replica;
mod reporting;
mod round;

pub use end::NodeEnd;
pub use replica::run_replica;
