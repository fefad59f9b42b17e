//! How the messages of a search with content synchronization are made, and what each says that came
//! (RFC 4533, sections 2 and 3).
#![tactic(auto)]

mod decoding;
mod fault;
mod kind;
mod known_names;
mod laws;
mod operational;
mod request;
mod sending;
mod values;
mod wire_entry;

pub use decoding::{SyncEvent, decode, decode_beside};
pub use fault::DecodeFault;
pub use kind::tag_of;
pub use known_names::KnownNames;
pub use laws::sent_is_decoded;
pub use ldap_ber::NoMemory;
pub use request::search_request;
pub use sending::{
    delete_message, done_message, end_message, entry_message, id_set_message, present_end_message,
};
