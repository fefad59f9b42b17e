//! A directory by its accepted writes: its entries, the change number of each write, what each
//! write touched (the session log, and for each entry the number of its last touch), and where a
//! search with content synchronisation begins on it (RFC 4533, section 3.3).
#![tactic(auto)]

mod commit;
mod directory;
mod formed;
mod judging;
mod preview;
mod previous;
mod ready;
mod standing;
mod start;
mod touches;
mod weights;

pub use commit::DirectoryCommitFault;
pub use directory::Directory;
pub use ldap_ber::NoMemory;
pub use preview::Preview;
pub use ready::Ready;
pub use standing::Standing;
pub use start::Start;
