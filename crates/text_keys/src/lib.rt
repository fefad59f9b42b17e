//! Keys of values: two values of one attribute match exactly where their keys are the same bytes
//! (RFC 4517, section 4; RFC 4518).
#![tactic(auto)]

mod boolean;
mod digits;
mod fault;
mod integer;
mod own;
mod text;
mod time;

pub use boolean::boolean_key;
pub use fault::KeyFault;
pub use integer::integer_key;
pub use text::{exact_key, ignore_case_key, is_own_key, is_plain, piece_key};
pub use time::time_key;
