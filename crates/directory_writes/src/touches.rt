//! What is known of which write touched which entry.

ghost use Rattle.std.specs.Prelude.{◌≡◌, ◌+◌, ◌≤◌, length, OnOk, IfOk};
ghost use Rattle.directory_writes.specs.Touches as spec;

use crate::NoMemory;
use entry_tree::{Entry, EntryChange};
use session_log::SessionLog;
use shared_map::SharedMap;

/// For each entry that a commit touched last the number of that commit, by identity. Copies share
/// what they have in common.
pub(crate) type Numbers = SharedMap<u128, u64>;

/// The numbers after a write with this number, which is a commit or not, made these changes.
pub(crate) fn renewed(
    before: Numbers,
    commits: bool,
    number: u64,
    touched: &[EntryChange],
) -> Result<Numbers, NoMemory>
    ensures { IfOk result (λ numbers.
        numbers ≡ spec.renewed commits number before touched.now) }
{
    let mut numbers = before;
    for entry_change in touched {
        renew(&mut numbers, commits, number, entry_change)?;
    }
    Ok(numbers)
}

/// One note for each identity. It takes no memory.
pub(crate) fn note_each(log: &mut SessionLog, number: u64, touched: &[EntryChange])
    requires { length touched.now ≤ log.old.spare }
    ensures log { log.new.log ≡ spec.noted_each number (spec.uuids_of touched.now) log.old.log }
    ensures spare { log.old.spare ≤ log.new.spare + length touched.now }
{
    for entry_change in touched {
        log.note(number, entry_change.uuid);
    }
}

/// An entry that a commit left gets the number; any other loses the one that it had.
fn renew(
    numbers: &mut Numbers,
    commits: bool,
    number: u64,
    entry_change: &EntryChange,
) -> Result<(), NoMemory>
    ensures { OnOk result
        (numbers.new ≡ spec.renewed_by commits number numbers.old entry_change.entry.now) }
{
    if is_number_kept(commits, &entry_change.after) {
        return numbers.insert(entry_change.uuid, number);
    }
    let _ = numbers.len();
    numbers.remove(&entry_change.uuid)
}

/// Whether the number of a write is kept for what it left.
fn is_number_kept(commits: bool, after: &Option<Entry>) -> bool
    ensures { result ≡ spec.is_number_kept commits after.now }
{
    commits && after.is_some()
}
