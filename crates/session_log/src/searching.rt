//! The identities that were noted after a write.
ghost use Rattle.std.specs.Prelude.{◌≡◌, OnOk};
ghost use Rattle.session_log.specs.Log.{joined, uuids_after};

use crate::log::NoMemory;
use crate::note::Note;
use std::collections::BTreeSet;

/// Puts the identities that were noted after write `number` into the set.
pub(crate) fn insert_after(
    uuids: &mut BTreeSet<u128>,
    notes: &[Note],
    number: u64,
) -> Result<(), NoMemory>
    ensures { OnOk result (uuids.new.keys ≡ joined uuids.old.keys (uuids_after number notes.now)) }
{
    for note in notes {
        if number < note.number {
            let _ = uuids.insert(note.uuid)?;
        }
    }
    Ok(())
}
