//! A session of LDAP over a directory (RFC 4511), with content synchronisation (RFC 4533) and
//! Cancel (RFC 3909): a machine of pieces, quiets and an end, and its loop over a link.
//!
//! A [`Connection`] answers the messages that are whole, in order, and then hands out what its open
//! searches have pending. [`serve_connection`] gives it what a link brings, and writes what it
//! sends.
#![tactic(auto)]

mod answering;
mod batches;
mod binding;
mod comparing;
mod connection;
mod encoding;
mod ending;
mod first_frame;
mod gate;
mod handing_out;
mod messages;
mod naming;
mod response;
mod searching;
mod selecting;
mod serving;
mod session;
mod session_search;
mod writing;

pub use connection::{Connection, Out};
pub use gate::{Gate, OpenGate};
pub use ldap_session::{Access, Ended};
pub use serving::serve_connection;
pub use session_search::SessionSearch;
