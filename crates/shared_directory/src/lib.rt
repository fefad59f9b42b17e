//! A directory that many threads write to, search and follow at once, each through a port of its
//! own.
//!
//! Each call of a port is one turn at the cell that has the provider. So all that is done stands in
//! one journal, and each reply is the one that a provider of one thread gives at its place there.
//! No turn is held between two calls.
#![tactic(auto)]

mod calls;
mod crossing;
mod desk;
mod directory;
mod held;
mod numbered;
mod port;
mod turning;

pub use crossing::{desks_are_sent, directories_are_shared, passes_are_sent};
pub use desk::{Desk, journal_seen};
pub use directory::{DirectoryCell, DirectoryPass, SharedDirectory};
pub use held::HeldDirectory;
pub use numbered::NumberedProvider;
pub use turn_cell::CloseFault;
