//! Octet strings that own their bytes (RFC 4511, section 4.1.2), lists of them, and elements of the
//! Basic Encoding Rules as LDAP uses them (RFC 4511, section 5.1; ITU-T X.690).
//!
//! A tag is one octet, and a length is definite, in at most four octets after its first. What is
//! written is the one canonical spelling: the shortest length, the shortest integer, TRUE as `FF`.
#![tactic(auto)]

mod dropping;
mod fault;
mod laws;
mod middle;
mod octets;
mod reader;
mod writer;

pub use dropping::discard;
pub use fault::{BerFault, BerKind};
pub use laws::{canonical_spellings, elements_are_read, no_spelling_begins_another};
pub use octets::{NoMemory, Octets, OctetsList};
pub use reader::{Reader, Tlv, boolean, integer, number_of};
pub use writer::Writer;
