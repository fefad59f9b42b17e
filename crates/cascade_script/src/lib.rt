//! The language of scripts, and its reader, which takes one event after another.
#![tactic(auto)]

mod event;
mod fault;
mod grammar;
mod lines;
mod script;
mod words;

pub use event::{Command, Event};
pub use fault::{Cause, ScriptFault};
pub use ldap_ber::NoMemory;
pub use script::{Script, read_event};
