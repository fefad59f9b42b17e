//! A drill at a directory of its own, and what it prints.
//!
//! The directory is a new one, which threads share: each writer and each consumer has a port of its
//! own there.
#![tactic(auto)]

mod directory;
mod drilling;

pub use directory::{desks_of, new_directory};
pub use drilling::{drilled, drilled_at};
