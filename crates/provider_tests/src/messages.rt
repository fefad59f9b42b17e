//! Messages that are handed out, in words: `+`, `~` or `!` for an entry that is added, modified or
//! deleted, the number of the write that gave its identity, `:` and its name; `-` or `=` and such
//! numbers for identities that are named as deleted or as present; `deletes` or `presents` for the
//! end of a refresh, with `on-` before it where the search goes on; `busy` for the end of a search
//! whose queue was full. After it, `@` and the number of writes that its cookie names. Where there
//! is no message: `nothing` or `none`.
use crate::rows::{number, parted, push_made, push_word, utf8};
use csn_cookie::Cookie;
use ldap_ber::{NoMemory, Octets, discard};
use ldap_constants::{BUSY, SUCCESS, SYNC_DONE, SYNC_STATE};
use ldap_messages::{Message, Protocol};
use std::alloc::Global;
use std::test::Fail;
use sync_messages::{State, SyncDone, SyncInfo, SyncState};
use sync_provider::{Handed, SyncDirectory};

/// Reports n messages of a search, or fewer where it has not n.
pub(crate) fn hand_out(
    alloc: Global,
    provider: &mut SyncDirectory,
    of: &str,
    text: &mut String,
) -> Result<(), Fail> {
    let (search, count) = parted(of);
    for _ in 0..number(count) {
        if !hand_out_next(alloc, provider, number(search), text)? {
            return Ok(());
        }
    }
    Ok(())
}

/// Reports the next message. False where nothing more can come.
fn hand_out_next(
    alloc: Global,
    provider: &mut SyncDirectory,
    search: u64,
    text: &mut String,
) -> Result<bool, Fail> {
    let handed = provider.hand_out(search);
    let goes_on = push_handed(alloc, provider, &handed, text);
    discard(handed);
    goes_on
}

fn push_handed(
    alloc: Global,
    provider: &SyncDirectory,
    handed: &Handed,
    text: &mut String,
) -> Result<bool, Fail> {
    match handed {
        Handed::Message(message) => {
            push_message(alloc, provider, message, text)?;
            return Ok(true);
        }
        Handed::Ended(code, message) => push_end(alloc, provider, *code, message, text)?,
        Handed::Nothing => push_word(text, "nothing")?,
        Handed::NoSuchSearch => push_word(text, "none")?,
        Handed::NoMemory => return Err(Fail::from("out of memory")),
    }
    Ok(false)
}

fn push_message(
    alloc: Global,
    provider: &SyncDirectory,
    message: &Message,
    text: &mut String,
) -> Result<(), Fail> {
    match &message.op {
        Protocol::SearchResultEntry { name, .. } => {
            let state = SyncState::read(alloc, value_of(message, SYNC_STATE)?)?;
            push_entry(alloc, provider, name, &state, text)
        }
        Protocol::IntermediateResponse {
            value: Some(value),
            ..
        } => {
            let info = SyncInfo::read(alloc, value.as_slice())?;
            push_info(alloc, provider, &info, text)
        }
        _ => Err(Fail::from("another message")),
    }
}

fn push_entry(
    alloc: Global,
    provider: &SyncDirectory,
    name: &Octets,
    state: &SyncState,
    text: &mut String,
) -> Result<(), Fail> {
    let (mark, number) = (mark_of(state.state), number_of(state.uuid));
    push_made(
        text,
        format!(in alloc; "{mark}{number}:{}", utf8(name.as_slice())),
    )?;
    push_cookie(alloc, provider, &state.cookie, text)
}

fn mark_of(state: State) -> &'static str {
    match state {
        State::Present => "=",
        State::Add => "+",
        State::Modify => "~",
        State::Delete => "!",
    }
}

fn push_info(
    alloc: Global,
    provider: &SyncDirectory,
    info: &SyncInfo,
    text: &mut String,
) -> Result<(), Fail> {
    let cookie = match info {
        SyncInfo::IdSet(cookie, deletes, uuids) => {
            push_names(alloc, if *deletes { "-" } else { "=" }, uuids.list(), text)?;
            cookie
        }
        SyncInfo::RefreshDelete(cookie, true) => {
            push_word(text, "on-deletes")?;
            cookie
        }
        SyncInfo::RefreshPresent(cookie, true) => {
            push_word(text, "on-presents")?;
            cookie
        }
        _ => return Err(Fail::from("another Sync Info message")),
    };
    push_cookie(alloc, provider, cookie, text)
}

fn push_names(
    alloc: Global,
    mark: &str,
    uuids: &[u128],
    text: &mut String,
) -> Result<(), NoMemory> {
    let mut before = mark;
    text.push(' ')?;
    for uuid in uuids {
        let name = format!(in alloc; "{before}{}", number_of(*uuid))?;
        text.push_str(&name)?;
        before = ",";
    }
    Ok(())
}

/// The end of a search, which has the code that is reported with it.
fn push_end(
    alloc: Global,
    provider: &SyncDirectory,
    code: u32,
    message: &Message,
    text: &mut String,
) -> Result<(), Fail> {
    match &message.op {
        Protocol::SearchResultDone(outcome)
            if outcome.code == i64::from(SUCCESS) && code == SUCCESS => {
            let done = SyncDone::read(alloc, value_of(message, SYNC_DONE)?)?;
            push_done(alloc, provider, &done, text)
        }
        Protocol::SearchResultDone(outcome) if outcome.code == i64::from(BUSY) && code == BUSY => {
            push_word(text, "busy")
        }
        _ => Err(Fail::from("another end")),
    }
}

fn push_done(
    alloc: Global,
    provider: &SyncDirectory,
    done: &SyncDone,
    text: &mut String,
) -> Result<(), Fail> {
    let word = if done.refresh_deletes {
        "deletes"
    } else {
        "presents"
    };
    push_word(text, word)?;
    push_cookie(alloc, provider, &done.cookie, text)
}

/// `@` and the number of writes that a cookie names, or nothing where there is none.
fn push_cookie(
    alloc: Global,
    provider: &SyncDirectory,
    cookie: &Option<Octets>,
    text: &mut String,
) -> Result<(), Fail> {
    if let Some(cookie) = cookie {
        let cookie = Cookie::parse(cookie.as_slice())?;
        let named = format!(in alloc; "@{}", provider.upto(cookie.csn))?;
        text.push_str(&named)?;
    }
    Ok(())
}

/// The number of the write that gave the identity: its last 62 bits.
fn number_of(uuid: u128) -> u64 {
    (uuid % (1 << 62)) as u64
}

/// The value of the message's one control, which has this name.
fn value_of<'a>(message: &'a Message, name: &[u8]) -> Result<&'a [u8], Fail> {
    match message.controls.list() {
        [control] if control.name.as_slice() == name => match &control.value {
            Some(value) => Ok(value.as_slice()),
            None => Err(Fail::from("a control without a value")),
        },
        _ => Err(Fail::from("other controls")),
    }
}
