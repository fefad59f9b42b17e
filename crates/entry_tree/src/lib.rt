//! The entries of a directory as a tree, on which writes are made, and the entries that a
//! specification selects (RFC 4511, sections 4.5 to 4.9).
#![tactic(auto)]

mod add;
mod after;
mod commit;
mod copying;
mod delete;
mod held;
mod identities;
mod judging;
mod listing;
mod modify;
mod names;
mod pinned;
mod places;
mod put;
mod reindex;
mod rename;
mod spec;
mod strays;
mod target;
mod tree;

/// Edits of an entry's attributes, as `entry_writes` has them.
pub mod edit {
    pub use entry_writes::{Edit, Edits};
}

/// Entries, as `entry_writes` has them.
pub mod entry {
    pub use entry_writes::{Entry, EntryList};
}

/// Why a write is refused, as `entry_writes` has it.
pub mod fault {
    pub use entry_writes::OpFault;
}

/// Writes, as `entry_writes` has them.
pub mod op {
    pub use entry_writes::{Op, Write};
}

/// What a write changes, as `entry_writes` has it.
pub mod touched {
    pub use entry_writes::{EntryChange, Touched};
}

pub use commit::CommitRefusal;
pub use edit::{Edit, Edits};
pub use entry::{Entry, EntryList};
pub use entry_writes::read_op;
pub use fault::OpFault;
pub use held::check_content;
pub use ldap_ber::NoMemory;
pub use op::{Op, Write};
pub use spec::{Scope, Spec};
pub use touched::{EntryChange, Touched};
pub use tree::Tree;
