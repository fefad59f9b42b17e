//! Entries, writes as they come in, and their codes and effects (RFC 4511, sections 4.6 to 4.9).
#![tactic(auto)]

mod bytes;
mod changing;
mod checks;
mod edit;
mod entry;
mod fault;
mod modify;
mod op;
mod reading;
mod rename;
mod target;
mod touched;

pub use bytes::is_one_entry;
pub use changing::{own_pairs, with_new_rdn};
pub use checks::{MOST_ENTRIES, MOST_WEIGHT, check_naming, check_weight};
pub use edit::{Edit, Edits};
pub use entry::{Entry, EntryList};
pub use fault::OpFault;
pub use ldap_ber::NoMemory;
pub use modify::edited_entry;
pub use op::{Op, Write};
pub use reading::read_op;
pub use rename::{Renamed, moved_entries};
pub use target::{name_above, name_below};
pub use touched::{EntryChange, Touched};
