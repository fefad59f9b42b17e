//! Tests of entries and their writes, of a directory and of a provider: the crates `entry_tree`,
//! `directory_writes` and `sync_provider`, by their public calls.
#![tactic(auto)]

#[cfg(test)]
mod commit_tests;
#[cfg(test)]
mod commits;
#[cfg(test)]
mod directory_writes_tests;
#[cfg(test)]
mod entry_tree_tests;
#[cfg(test)]
mod messages;
#[cfg(test)]
mod names_tests;
#[cfg(test)]
mod port_tests;
#[cfg(test)]
mod questions;
#[cfg(test)]
mod rows;
#[cfg(test)]
mod searches;
#[cfg(test)]
mod spellings;
#[cfg(test)]
mod sync_provider_tests;
#[cfg(test)]
mod tree_lines;
#[cfg(test)]
mod tree_rows;
#[cfg(test)]
mod tree_writes;
#[cfg(test)]
mod writes;
