//! What a served directory begins with: its configuration and the entries of its LDIF file, which
//! are read from a shelf.
#![tactic(auto)]

mod filling;
mod refusal;
mod setup;
mod text_file;
mod text_limits;

pub use filling::{Filling, fill};
pub use refusal::{LineCause, SetupRefusal, TooLong};
pub use setup::{ReadyDirectory, Setup, set_up};
pub use text_file::{FileText, read_file};
