//! What a port answers to a call in words.
use crate::asking::{add, follow, next, several};
use dn_names::Dn;
use entry_tree::EntryList;
use ldap_ber::discard;
use ldap_constants::{COMPARE_FALSE, COMPARE_TRUE};
use std::alloc::Global;
use std::fmt::Debug;
use sync_messages::IdList;
use sync_provider::{CommitFault, Port};

/// The answer, by its `Debug`, to `add` and a unit below `dc=x`, or to `add` of that; to `follow`;
/// to `next`, `several` and `drop` and the number of a search; to `compare` and a value of `o`; to
/// `commit`, of nothing; or to `writes`.
pub(crate) fn answered<P: Port>(alloc: Global, port: &mut P, call: &str) -> Option<String> {
    let (word, of) = call.split_once(' ').unwrap_or((call, ""));
    let search = of.parse::<u64>().unwrap_or(0);
    match word {
        "add" => shown(alloc, add(alloc, port, of)),
        "follow" => shown(alloc, follow(alloc, port)),
        "next" => shown(alloc, next(port, search)),
        "several" => shown(alloc, several(alloc, port, search)),
        "drop" => shown(alloc, Some(port.drop_search(search))),
        "compare" => shown(alloc, compared(alloc, port, of)),
        "commit" => shown(alloc, Some(committed(alloc, port))),
        "writes" => shown(alloc, Some(port.writes())),
        _ => None,
    }
}

/// The value by its `Debug`, where there is one.
fn shown<T: Debug + Drop>(alloc: Global, value: Option<T>) -> Option<String> {
    let value = value?;
    format!(in alloc; "{value:?}").ok()
}

/// Whether `dc=x` has this value of `o`.
fn compared<P: Port>(alloc: Global, port: &mut P, value: &str) -> Option<bool> {
    let name = Dn::parse(alloc, b"dc=x").ok()?;
    let code = port.compare(&name, b"o", value.as_bytes());
    discard(name);
    match code {
        COMPARE_TRUE => Some(true),
        COMPARE_FALSE => Some(false),
        _ => None,
    }
}

fn committed<P: Port>(alloc: Global, port: &mut P) -> Result<u64, CommitFault> {
    port.commit(EntryList::new(alloc), IdList::new(alloc), 0)
}
