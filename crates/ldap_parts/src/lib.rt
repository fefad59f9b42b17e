//! Components that several messages of LDAP hold: octet strings, numbers, attributes, controls and
//! filters, as bytes (RFC 4511, sections 4.1 and 4.5.1.7).
//!
//! Each is read in any spelling of its elements, with unknown elements after the last known one
//! of a SEQUENCE, and with values written that could be left out. It is written in its one
//! canonical spelling. In a SEQUENCE OF or SET OF no element is unknown. A refused place is
//! the first octet of the first element that the grammar refuses; a missing element is refused
//! where it had to begin.
//!
//! After a refusal, and where memory runs out, the reader or the writer is as before.
#![tactic(auto)]

mod attributes;
mod component;
mod control;
mod fault;
mod filter_reading;
mod filter_writing;
mod laws;
mod lists;

pub use attributes::{attribute_of, attributes_of, put_attribute, put_attributes};
pub use component::{
    boolean_of, number_of, octet_string_of, option_of, put_number, put_option, range_of,
};
pub use control::{Control, ControlList, control_named, controls_of, put_controls};
pub use fault::ComponentFault;
pub use filter_reading::{assertion_of, filter_of};
pub use filter_writing::{put_assertion, put_filter};
pub use laws::{canonical_spellings, components_are_read};
pub use lists::{put_strings, strings_of};
