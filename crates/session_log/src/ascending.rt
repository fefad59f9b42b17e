//! Notes in the order of their numbers, of which those after a write are found by halves.
ghost use Rattle.std.specs.Prelude.{◌≡◌, ℕ, [], ◌∷◌, ◌++◌, IsTrue, OnOk};
ghost use Rattle.session_log.specs.Log.{joined, uuids_after, NumbersRise};

use crate::log::NoMemory;
use crate::note::Note;
use crate::searching::insert_after;
use std::collections::{BTreeSet, VecDeque};

/// Whether notes that are in order, or are not, are in order with one more of this number.
pub(crate) fn in_order_with(notes: &VecDeque<Note>, number: u64, in_order: bool) -> bool
    requires { IsTrue in_order → NumbersRise notes.now.items }
    ensures { IsTrue result → (uuid : ℕ)
        → NumbersRise (notes.now.items ++ record { number = number; uuid = uuid } ∷ []) }
{
    match notes.back() {
        None => true,
        Some(last) => {
            let follows = last.number <= number;
            if follows { in_order } else { false }
        }
    }
}

/// Puts the identities that were noted after write `number` into the set, from notes that are in
/// order or are not.
pub(crate) fn insert_later(
    uuids: &mut BTreeSet<u128>,
    notes: &[Note],
    number: u64,
    in_order: bool,
) -> Result<(), NoMemory>
    requires { IsTrue in_order → NumbersRise notes.now }
    ensures { OnOk result (uuids.new.keys ≡ joined uuids.old.keys (uuids_after number notes.now)) }
{
    insert_after(uuids, later_notes(notes, number, in_order), number)
}

/// The notes from the first on that is after write `number`, where they are in order, or all.
fn later_notes(notes: &[Note], number: u64, in_order: bool) -> &[Note]
    requires { IsTrue in_order → NumbersRise notes.now }
    ensures { uuids_after number result.now ≡ uuids_after number notes.now }
{
    if in_order {
        let first = notes.partition_point(|note| note.number <= number);
        return notes.split_at(first).1;
    }
    notes
}
