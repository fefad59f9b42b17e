//! Entries in batches, so that those that were sent can be given up while others are sent.

ghost use Rattle.std.specs.Prelude.{◌≡◌, ◌≤◌, drop, length, IfOk};
ghost use Rattle.std.specs.List.{flat_map};

use entry_tree::Entry;
use ldap_ber::NoMemory;
use std::alloc::Global;

/// How many entries a batch has at most: as many as are large enough for the C library to give
/// their batch back to the system at once.
const BATCH: usize = 2_048;

/// The entries from a place on in batches, in their order. A batch is cut from the end of what is
/// left, which is given back as it gets shorter, so that all are in memory about once.
pub(crate) fn in_batches(
    alloc: Global,
    entries: Vec<Entry>,
    place: usize,
) -> Result<Vec<Vec<Entry>>, NoMemory>
    requires { place ≤ length entries.items }
    ensures { IfOk result (λ batches.
        flat_map (λ batch. batch.items) batches.items ≡ drop place entries.items) }
{
    let mut batches = Vec::new(alloc);
    let mut left = entries;
    while place < left.len() {
        let start = left.len().saturating_sub(BATCH).max(place);
        let batch = left.split_off(start)?;
        left.shrink_to_fit();
        batches.push(batch)?;
    }
    batches.reverse();
    Ok(batches)
}
