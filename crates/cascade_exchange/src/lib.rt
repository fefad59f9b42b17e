//! What goes on between a consumer and its provider in an event of a script: messages of LDAP as
//! bytes in a link, which the consumer takes as what they spell.
#![tactic(auto)]

mod aside;
mod cookies;
mod cutting;
mod ending;
mod exchange;
mod opening;
mod receiving;
mod respeccing;
mod sending;
mod settling;
mod taking;

pub use cookies::MOST_NODES;
pub use exchange::{Exchange, Performed, Snapshot, perform_exchange};
pub use ldap_ber::NoMemory;
