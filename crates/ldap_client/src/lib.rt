//! A client of LDAP over a link: messages go out in their canonical spelling, and messages come in,
//! however their bytes are cut (RFC 4511, section 5.1).
#![tactic(auto)]

mod client;
mod fault;
mod laws;
mod received;

pub use client::Client;
pub use fault::ClientFault;
pub use laws::messages_are_given_in_order;
pub use ldap_ber::NoMemory;
