//! What is asked without a change, in words: `find`, the most entries that are wanted, 0 for no
//! limit, and base and filter as those of other searches; and `compare`, a name, a type and a
//! value.
//!
//! A search reports `f` and how many entries were found, or `o` and how many of them were given
//! where there are more, and their names, or `c32`. A comparison reports `c` and its code.
use crate::rows::{number, parted, push_counted, push_word, utf8};
use crate::searches::spec;
use dn_names::Dn;
use entry_tree::Entry;
use ldap_ber::discard;
use std::alloc::Global;
use std::test::Fail;
use sync_provider::{PlainSearch, SearchReply, SyncDirectory};

pub(crate) fn find(
    alloc: Global,
    provider: &SyncDirectory,
    of: &str,
    text: &mut String,
) -> Result<(), Fail> {
    let (limit, rest) = parted(of);
    let (base, filter) = parted(rest);
    let ask = PlainSearch {
        spec: spec(alloc, base, filter)?,
        size_limit: number(limit).min(1000) as u32,
    };
    let reply = provider.search(&ask);
    discard(ask);
    let done = push_reply(alloc, &reply, text);
    discard(reply);
    done
}

fn push_reply(alloc: Global, reply: &SearchReply, text: &mut String) -> Result<(), Fail> {
    match reply {
        SearchReply::Found(found) => push_entries(alloc, "f", found.list(), text),
        SearchReply::Over(first) => push_entries(alloc, "o", first.list(), text),
        SearchReply::NoSuchBase => push_word(text, "c32"),
        SearchReply::NoMemory => Err(Fail::from("out of memory")),
    }
}

fn push_entries(
    alloc: Global,
    mark: &str,
    entries: &[Entry],
    text: &mut String,
) -> Result<(), Fail> {
    push_counted(alloc, text, mark, entries.len() as u64)?;
    for entry in entries {
        let name = entry.dn.write()?;
        push_word(text, utf8(name.as_slice()))?;
    }
    Ok(())
}

pub(crate) fn compare(
    alloc: Global,
    provider: &SyncDirectory,
    of: &str,
    text: &mut String,
) -> Result<(), Fail> {
    let (name, rest) = parted(of);
    let (kind, value) = parted(rest);
    let dn = Dn::parse(alloc, name.as_bytes())?;
    let code = provider.compare(&dn, kind.as_bytes(), value.as_bytes());
    discard(dn);
    push_counted(alloc, text, "c", u64::from(code))
}
