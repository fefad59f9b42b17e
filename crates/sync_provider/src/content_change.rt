//! What a write changes in what a search selects.

ghost use Rattle.std.specs.Prelude.{◌≡◌, IfOk};

use crate::NoMemory;
use dn_names::Dn;
use entry_tree::Entry;

/// What a write changes in what a search selects (RFC 4533, section 3.4).
pub(crate) enum ContentChange {
    /// The entry entered it.
    Added(Entry),
    /// The entry was in it, and is there still.
    Modified(Entry),
    /// The entry of this identity left it. It had this name.
    Deleted(u128, Dn),
}

/// A call of its own, so that what drops a change is one step, whatever became of the entry.
impl Drop for ContentChange {
    fn drop(self) {
        match self {
            ContentChange::Added(_entry) => {}
            ContentChange::Modified(_entry) => {}
            ContentChange::Deleted(_, _dn) => {}
        }
    }
}

impl ContentChange {
    pub(crate) fn copy(&self) -> Result<ContentChange, NoMemory>
        ensures { IfOk result (λ copy. copy ≡ self.now) }
    {
        Ok(match self {
            ContentChange::Added(entry) => ContentChange::Added(entry.copy()?),
            ContentChange::Modified(entry) => ContentChange::Modified(entry.copy()?),
            ContentChange::Deleted(uuid, name) => ContentChange::Deleted(*uuid, name.copy()?),
        })
    }
}
