//! The world of a script: its nodes, and what each event does and reports.
//!
//! A consumer gets its content from its provider by messages of LDAP alone. What the provider hands
//! out goes into the consumer's link as bytes, and the consumer takes what these bytes spell.
#![tactic(auto)]

mod exchange;
mod new_nodes;
mod nodes;
mod repointing;
mod world;

pub use cascade_script::{Cause, Command, Event, Script, ScriptFault, read_event};
pub use ldap_ber::NoMemory;
pub use world::{Lines, World};
