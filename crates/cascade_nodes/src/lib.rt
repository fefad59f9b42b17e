//! The nodes of a script: providers whose searches are those of a script, consumers with their
//! links, and what a replica commits to its own directory.
#![tactic(auto)]

mod committing;
mod link;
mod node;
mod script_provider;

pub use ldap_ber::NoMemory;
pub use node::{ConsumerNode, ProviderNode, copy_wanted};
pub use script_provider::{MESSAGE_ID, ScriptProvider};
