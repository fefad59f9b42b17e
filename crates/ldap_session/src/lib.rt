//! What a server's session does with the bytes that come, whatever its directory replies: which
//! messages they are, what each asks for, who may write, and what ends the session (RFC 4511).
#![tactic(auto)]

mod access;
mod binding;
mod cancelling;
mod ended;
mod event;
mod laws;
mod request;

pub use access::Access;
pub use binding::{bind_code, binds_as, may_write};
pub use cancelling::{cancels, target_of};
pub use ended::Ended;
pub use event::LinkEvent;
pub use laws::{
    cuts_change_no_message, the_configured_bind_alone_binds, the_input_decides_the_end,
};
pub use ldap_ber::NoMemory;
pub use request::{Request, SearchParameters, has_unknown_critical, request_of};
