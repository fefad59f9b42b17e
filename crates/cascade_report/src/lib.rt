//! What is reported of the events of a script: the lines of its report with their digests, the
//! stages that took effect, and of which writes of a root they are.
#![tactic(auto)]

mod digested;
mod lines;
mod notes;
mod report;
mod reporting;

pub use digested::DigestedConsumer;
pub use ldap_ber::NoMemory;
pub use lines::{push_wrote, text_of};
pub use notes::{CommitOrigin, CommitOrigins, Origin};
pub use report::{Report, StoredStage};
