//! A search of LDAP as a client asks it over a net: its answer printed as LDIF, or followed with
//! content synchronisation (RFC 4511, section 4.5; RFC 4533).
//!
//! The link is asked for at one address, and hung up when the search is over.
#![tactic(auto)]

mod answering;
mod asking;
mod calling;
mod end;
mod following;
mod printing;
mod requests;
mod searching;

pub use end::SearchEnd;
pub use ldap_ber::NoMemory;
pub use searching::search;
