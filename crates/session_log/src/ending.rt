//! The last notes of a list.
ghost use Rattle.std.specs.Prelude.{◌≡◌, ◌≤◌};
ghost use Rattle.std.specs.VecDeque.{deque_capacity, deque_len};
ghost use Rattle.session_log.specs.Log.{last_of, before_last, greatest};

use crate::note::Note;
use std::collections::VecDeque;

/// Keeps the last notes, and gives the greatest of `floor` and the numbers of those dropped.
pub(crate) fn keep_last(notes: &mut VecDeque<Note>, limit: u64, floor: u64) -> u64
    ensures kept { notes.new.items ≡ last_of limit notes.old.items }
    ensures floor { result ≡ greatest floor (before_last limit notes.old.items) }
    ensures len { deque_len notes.new ≤ deque_len notes.old }
    ensures capacity { deque_capacity notes.new ≡ deque_capacity notes.old }
{
    let mut highest = floor;
    while limit < notes.len() as u64 {
        if let Some(note) = notes.pop_front() {
            highest = highest.max(note.number);
        }
    }
    highest
}
