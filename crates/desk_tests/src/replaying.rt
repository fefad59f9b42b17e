//! What threads tried, tried again by one thread in the order of the journal.
use crate::asking::add;
use crate::tasks::Tried;
use crate::working::{accepted, unit_name};
use std::alloc::Global;
use sync_provider::Port;

/// Whether one port gets each of these replies at its place. Puts the writes in that order.
pub(crate) fn replays<P: Port>(alloc: Global, port: &mut P, log: &mut Vec<Tried>) -> bool {
    let before = port.writes();
    let accepted = accepted(log.as_slice());
    log.as_mut_slice()
        .sort_unstable_by_key(|tried| place(tried));
    for tried in log.as_slice() {
        if !gets(alloc, port, tried) {
            return false;
        }
    }
    port.writes() == before.saturating_add(accepted)
}

/// Where a write stands: one that was accepted at its number, and one that was refused after the
/// writes that its reply counts.
fn place(tried: &Tried) -> u64 {
    let number = tried.number.saturating_mul(2);
    if tried.code == 0 {
        number
    } else {
        number.saturating_add(1)
    }
}

fn gets<P: Port>(alloc: Global, port: &mut P, tried: &Tried) -> bool {
    let Some(name) = unit_name(alloc, tried.thread, tried.unit) else {
        return false;
    };
    match add(alloc, port, &name) {
        Some(reply) => reply.code == tried.code && reply.number == tried.number,
        None => false,
    }
}
