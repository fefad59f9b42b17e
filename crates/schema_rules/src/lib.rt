//! The schema of the directory: attribute types, object classes, keys of values, and what the
//! schema says of a list of attributes and of an entry (RFC 4512, section 2).
#![tactic(auto)]

mod attributes;
mod classes;
mod entry_check;
mod fault;
mod keys;
mod raw;
mod types;
mod weighed;

pub use attributes::{Attribute, Attrs, add_values, has_duplicates, has_equal_values, has_kind};
pub use entry_check::check_entry;
pub use fault::SchemaFault;
pub use keys::{any_has_key, are_of_syntax, has_key, key_of, keys_of, known_key};
pub use raw::{Change, EditList, How, RawAttribute, RawEdit, RawList};
pub use types::{AttributeType, Rule};
