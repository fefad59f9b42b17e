//! LDIF: the reading of change records, and entries as text (RFC 2849).
//!
//! `Records` reads a text record by record, `write_entry` writes one, and `write_received` one as it
//! came from a server. A URL in place of a value is refused, and `control:` lines are not known.
#![tactic(auto)]

mod fault;
mod field;
mod lines;
mod received;
mod record;
mod records;
mod written;

pub use fault::LdifFault;
pub use lines::{Cursor, cut_at, next_line};
pub use received::write_received;
pub use records::Records;
pub use written::{entries_are_read_again, write_entry};
