//! What a drill prints.
ghost use Rattle.std.specs.Prelude.{◌≡◌, ◌≤◌, ◌++◌, length, map, IfOk, OnOk};
ghost use Rattle.drill_plan.specs.Plain.{plain_of_each};
ghost use Rattle.drill_plan.specs.Summary.{consumer_line, writes_line};
ghost use Rattle.sync_drill.specs.Summing.{copies_text, IsSummary, IsWholeLine};

use crate::drilled::Summary;
use drill_plan::{push_consumer_line, push_writes_line, whole_spec};
use entry_tree::{Entry, EntryList};
use ldap_ber::{NoMemory, Octets, discard};
use std::alloc::{AllocError, Global};
use sync_consumer::{Consumer, EntryMap};
use sync_provider::{PlainSearch, Port, SearchReply};

/// The line of all entries, which the first port finds, and a line for each copy. It is `NoMemory`
/// where memory runs out.
pub(crate) fn sum_up<P: Port>(
    alloc: Global,
    first: &mut P,
    copies: &[Consumer],
) -> Result<Summary, NoMemory>
    requires { length copies.now ≤ 8 }
    ensures home { P.home first.new ≡ P.home first.old }
    ensures text { IfOk result (λ summary. IsSummary (P.state first.old) (P.state first.new)
        copies.now summary.text) }
{
    let mut text = whole_line(alloc, first)?;
    push_copies(alloc, &mut text, copies)?;
    Ok(Summary {
        text: Octets::from(text),
    })
}

/// The line of all entries that a port finds.
fn whole_line<P: Port>(alloc: Global, port: &mut P) -> Result<Vec<u8>, NoMemory>
    ensures home { P.home port.new ≡ P.home port.old }
    ensures line { IfOk result (λ line.
        IsWholeLine (P.state port.old) (P.state port.new) line.items) }
{
    let spec = whole_spec(alloc)?;
    let ask = PlainSearch {
        spec,
        size_limit: 0,
    };
    let count = port.writes();
    let found = port.search(&ask);
    discard(ask);
    match found {
        SearchReply::Found(entries) => line_of(alloc, count, &entries),
        SearchReply::Over(_) => Err(AllocError),
        SearchReply::NoSuchBase => Err(AllocError),
        SearchReply::NoMemory => Err(AllocError),
    }
}

/// The line of these entries, after this many writes.
fn line_of(alloc: Global, writes: u64, entries: &EntryList) -> Result<Vec<u8>, NoMemory>
    ensures { IfOk result (λ line.
        line.items ≡ writes_line writes (plain_of_each entries.now)) }
{
    let list = references(alloc, entries.list())?;
    let mut line = Vec::new(alloc);
    push_writes_line(alloc, &mut line, writes, list.as_slice())?;
    Ok(line)
}

/// Appends a line for each copy.
fn push_copies(alloc: Global, text: &mut Vec<u8>, copies: &[Consumer]) -> Result<(), NoMemory>
    requires { length copies.now ≤ 8 }
    ensures { OnOk result (text.new.items ≡ text.old.items ++ copies_text 0 copies.now) }
{
    let mut consumer = 0;
    for copy in copies {
        push_copy(alloc, text, consumer, copy.entries())?;
        consumer += 1;
    }
    Ok(())
}

/// Appends the line of a consumer.
fn push_copy(
    alloc: Global,
    text: &mut Vec<u8>,
    consumer: u32,
    entries: &EntryMap,
) -> Result<(), NoMemory>
    ensures { OnOk result (text.new.items
        ≡ text.old.items ++ consumer_line consumer (plain_of_each entries.now)) }
{
    let list = entries.list()?;
    push_consumer_line(alloc, text, consumer, list.as_slice())
}

/// References to these entries.
fn references(alloc: Global, entries: &[Entry]) -> Result<Vec<&Entry>, NoMemory>
    ensures { IfOk result (λ list. map (λ e. e.now) list.items ≡ entries.now) }
{
    let mut list = Vec::with_capacity(alloc, entries.len())?;
    for entry in entries {
        list.push(entry)?;
    }
    Ok(list)
}
