//! Searches, in words: the mode, with `!` after it for the reloadHint; the base, after `one:` or
//! `base:` where the scope is no subtree; the filter, or `*` for all entries; and the cookie. That
//! is `-` for none, `''` for one without a letter, N/H for that of the content after N writes of
//! the history H, or a text.
//!
//! An opened search reports `s`, its number, `@` and the number of writes, another one `c` and a
//! code.
use crate::rows::{number, parted, push_counted, push_made};
use dn_names::Dn;
use entry_tree::{Scope, Spec};
use ldap_ber::{NoMemory, Octets};
use ldap_filter::Filter;
use std::alloc::Global;
use std::test::Fail;
use sync_provider::{Accepted, SyncDirectory, SyncSearch};

pub(crate) fn open(
    alloc: Global,
    provider: &mut SyncDirectory,
    word: &str,
    of: &str,
    text: &mut String,
) -> Result<(), Fail> {
    let search = asked(alloc, word, of)?;
    let accepted = provider.accept(search);
    push_accepted(alloc, &accepted, text)
}

/// Reports what comes of a search.
pub(crate) fn push_accepted(
    alloc: Global,
    accepted: &Accepted,
    text: &mut String,
) -> Result<(), Fail> {
    match accepted {
        Accepted::Opened(search, number) => {
            push_made(text, format!(in alloc; "s{search}@{number}"))
        }
        Accepted::Refused(code) => push_counted(alloc, text, "c", u64::from(*code)),
        Accepted::NoMemory => Err(Fail::from("out of memory")),
    }
}

pub(crate) fn asked(alloc: Global, word: &str, of: &str) -> Result<SyncSearch, Fail> {
    let (base, rest) = parted(of);
    let (filter, cookie) = parted(rest);
    let control = control(alloc, word, cookie)?;
    Ok(SyncSearch {
        id: 7,
        spec: spec(alloc, base, filter)?,
        control,
    })
}

pub(crate) fn spec(alloc: Global, base: &str, filter: &str) -> Result<Spec, Fail> {
    let (scope, base) = match base.split_once(':') {
        Some((word, base)) if word == "one" => (Scope::One, base),
        Some((_, base)) => (Scope::Base, base),
        None => (Scope::Sub, base),
    };
    let filter = if filter == "*" {
        "(objectClass=*)"
    } else {
        filter
    };
    Ok(Spec {
        base: Dn::parse(alloc, base.as_bytes())?,
        scope,
        filter: Filter::read_text(alloc, filter.as_bytes())?,
    })
}

/// The control's value, as far as the lengths take one octet.
fn control(alloc: Global, word: &str, cookie: &str) -> Result<Octets, NoMemory> {
    let mode = match word {
        "once" | "once!" => 1,
        "stay" | "stay!" => 3,
        _ => 2,
    };
    let mut inner = Vec::from_slice(alloc, &[0x0a, 1, mode])?;
    push_cookie(alloc, &mut inner, cookie)?;
    if word.ends_with('!') {
        inner.extend_from_slice(b"\x01\x01\xff")?;
    }
    let mut bytes = Vec::from_slice(alloc, &[0x30, inner.len().min(127) as u8])?;
    bytes.extend_from_slice(inner.as_slice())?;
    Ok(Octets::from(bytes))
}

fn push_cookie(alloc: Global, bytes: &mut Vec<u8>, cookie: &str) -> Result<(), NoMemory> {
    if cookie == "-" {
        return Ok(());
    }
    let text = cookie_text(alloc, cookie)?;
    bytes.extend_from_slice(&[4, text.len().min(127) as u8])?;
    bytes.extend_from_slice(text.as_bytes())
}

fn cookie_text(alloc: Global, cookie: &str) -> Result<String, NoMemory> {
    match cookie.split_once('/') {
        Some((writes, history)) => {
            let (writes, history) = (number(writes), number(history));
            format!(in alloc;
                "rid=000,sid=001,csn=19700101000000.000000Z#{writes:06x}#001#000000,gen={history:032x}"
            )
        }
        None if cookie == "''" => Ok(String::new(alloc)),
        None => cookie.to_string(alloc),
    }
}
