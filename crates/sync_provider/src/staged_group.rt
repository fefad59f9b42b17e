//! What a write that is not accepted yet sends to a search.

use crate::changed_set::ChangedSet;
use crate::persist_message::PersistMessage;

/// What a write sends to a search, before it is accepted.
#[derive(Drop)]
pub(crate) struct StagedGroup {
    pub(crate) messages: Vec<PersistMessage>,
    /// While pieces of the search's refresh are left, what changed in its content with this write
    /// and those before it since its acceptance; else nothing.
    pub(crate) changed: ChangedSet,
}
