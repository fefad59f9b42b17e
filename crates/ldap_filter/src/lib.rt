//! Search filters: their truth on an entry, and their text (RFC 4511, section 4.5.1.7; RFC 4515;
//! RFC 4526).
#![tactic(auto)]

mod cursor;
mod equality;
mod fault;
mod filter;
mod grammar;
mod matching;
mod reading;
mod same;
mod truth;
mod writing;

pub use equality::Equality;
pub use fault::FilterFault;
pub use filter::{Filter, FilterList, Pieces};
pub use truth::Truth;
