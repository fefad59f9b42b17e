//! Change sequence numbers (CSNs), which a directory draws in rising order, and the cookies of a
//! content synchronization (RFC 4533), which carry them.
//!
//! A CSN is a time to the microsecond, a count within it, the number of a directory and a last
//! part. Nothing here takes memory: texts go into arrays.
#![tactic(auto)]

mod cookie;
mod csn;
mod digits;
mod fault;
mod instant;
mod maker;
mod text;

pub use cookie::{Cookie, is_blank};
pub use csn::Csn;
pub use fault::CookieFault;
pub use maker::CsnMaker;
