//! A bounded log of which entries were touched by which write, by which a server reports what was
//! deleted since a client's cookie (RFC 4533, section 3.3.2).
#![tactic(auto)]

mod ascending;
mod ending;
mod law;
mod log;
mod note;
mod searching;

pub use law::a_covered_number_misses_nothing;
pub use log::{NoMemory, SessionLog};
pub use note::Note;
