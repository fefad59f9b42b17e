//! Tests of a directory that threads share, by its desks, and of a drill at ports of it at which
//! the writers meet.
#![tactic(auto)]

#[cfg(test)]
mod answers;
#[cfg(test)]
mod asking;
#[cfg(test)]
mod copies;
#[cfg(test)]
mod gathering;
#[cfg(test)]
mod meeting_port;
#[cfg(test)]
mod passing;
#[cfg(test)]
mod replaying;
#[cfg(test)]
mod shared_directory_tests;
#[cfg(test)]
mod sync_drill_tests;
mod tasks;
#[cfg(test)]
mod working;

pub use tasks::{FollowedSearch, Noted, Task, Tried, Work};
