//! Messages of LDAP as bytes, both ways (RFC 4511; the operations of sections 4.2 to 4.13).
//!
//! A message is read at the start of the bytes of a stream, in any spelling of its elements, and
//! written in its one canonical spelling.
#![tactic(auto)]

mod abandon;
mod add;
mod bind;
mod compare;
mod delete;
mod extended;
mod fault;
mod frame;
mod intermediate;
mod laws;
mod ldap_result;
mod message;
mod modify;
mod modify_dn;
mod protocol;
mod search;
mod unbind;
mod uris;

pub use bind::Authentication;
pub use fault::MessageFault;
pub use laws::{later_bytes_change_nothing, no_message_begins_another};
pub use ldap_parts::{Control, ControlList, control_named};
pub use ldap_result::LdapResult;
pub use message::Message;
pub use protocol::Protocol;
pub use search::{SearchRequest, SearchScope};
