//! Distinguished names: lists of RDNs that are read from text, written as text and compared by the
//! keys of their values (RFC 4514; RFC 4512, section 2.3).
#![tactic(auto)]

mod dn;
mod fault;
mod keys;
mod name;
mod name_chars;
mod pair;
mod paths;
mod rdn;
mod reading;
mod values;
mod writing;

pub use dn::{Dn, keys_show_names, paths_show_names};
pub use fault::NameFault;
pub use pair::Pair;
pub use rdn::Rdn;
