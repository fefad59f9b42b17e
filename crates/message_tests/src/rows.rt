//! Rows of tests: a message or something that is done with a consumer, and after ` -> ` what is
//! reported of it. A line that begins with `#` says something of the rows below it.
//!
//! `new`, `once` and `stay` begin with a new consumer, or a search in one of the modes. There are
//! two consumers: `copy` makes the second one a copy of the first, and `swap` puts each in the
//! other's place.
use crate::messages::{CSN, around_number, number, numbered, octets, parted, sent};
use crate::requests::{is_presence, requested};
use dn_names::Dn;
use entry_tree::{Entry, Scope, Spec};
use ldap_ber::{NoMemory, Octets, discard};
use ldap_filter::Filter;
use ldap_messages::Message;
use schema_rules::Attribute;
use std::alloc::Global;
use std::mem;
use std::process::Abort;
use std::test::Fail;
use sync_consumer::{Commit, Consumer, Taken};
use sync_messages::Mode;

/// Asserts that each row is reported as it has it.
pub(crate) fn check_rows(rt: &impl Abort, alloc: Global, rows: &str) -> Result<(), Fail> {
    let mut consumer = new_consumer(alloc)?;
    let done = check_beside(rt, alloc, &mut consumer, rows);
    discard(consumer);
    done
}

fn check_beside(
    rt: &impl Abort,
    alloc: Global,
    consumer: &mut Consumer,
    rows: &str,
) -> Result<(), Fail> {
    let mut other = new_consumer(alloc)?;
    let done = check_each(rt, alloc, consumer, &mut other, rows);
    discard(other);
    done
}

fn check_each(
    rt: &impl Abort,
    alloc: Global,
    consumer: &mut Consumer,
    other: &mut Consumer,
    rows: &str,
) -> Result<(), Fail> {
    for row in rows.lines() {
        match row.split_once(" -> ") {
            Some((asked, wanted)) => check_row(rt, alloc, consumer, asked, wanted)?,
            None => change(alloc, consumer, other, row)?,
        }
    }
    Ok(())
}

fn check_row(
    rt: &impl Abort,
    alloc: Global,
    consumer: &mut Consumer,
    asked: &str,
    wanted: &str,
) -> Result<(), Fail> {
    let notified = notified(alloc, consumer, asked)?;
    assert!(rt;
        notified.as_str() == wanted,
        "{asked}: {notified} in place of {wanted}"
    );
    Ok(())
}

/// What nothing is reported of.
fn change(
    alloc: Global,
    consumer: &mut Consumer,
    other: &mut Consumer,
    row: &str,
) -> Result<(), Fail> {
    let (word, of) = parted(row);
    match word {
        "new" => renew(alloc, consumer),
        "once" => ask(consumer, Mode::RefreshOnly),
        "stay" => ask(consumer, Mode::RefreshAndPersist),
        "copy" => copy(consumer, other),
        "respec" => respec(alloc, consumer),
        "cookie" => Ok(consumer.set_cookie(cookie(of))?),
        _ => change_at_once(consumer, other, word),
    }
}

/// What takes no memory.
fn change_at_once(consumer: &mut Consumer, other: &mut Consumer, word: &str) -> Result<(), Fail> {
    match word {
        "swap" => mem::swap(consumer, other),
        "cut" => consumer.cut(),
        "lose" => consumer.lose_cookie(),
        "#" => {}
        _ => return Err(Fail::from(word)),
    }
    Ok(())
}

fn renew(alloc: Global, consumer: &mut Consumer) -> Result<(), Fail> {
    discard(mem::replace(consumer, new_consumer(alloc)?));
    Ok(())
}

fn ask(consumer: &mut Consumer, mode: Mode) -> Result<(), Fail> {
    discard(consumer.request(1, mode)?);
    Ok(())
}

fn copy(consumer: &Consumer, other: &mut Consumer) -> Result<(), Fail> {
    discard(mem::replace(other, consumer.copy()?));
    Ok(())
}

fn respec(alloc: Global, consumer: &mut Consumer) -> Result<(), Fail> {
    consumer.respec(spec(alloc, b"ou=a,o=x", Scope::One)?);
    Ok(())
}

fn cookie(word: &str) -> &[u8] {
    match word {
        "''" => b"",
        "odd" => b"\xff\x00?",
        _ => word.as_bytes(),
    }
}

fn spec(alloc: Global, base: &[u8], scope: Scope) -> Result<Spec, Fail> {
    Ok(Spec {
        base: Dn::parse(alloc, base)?,
        scope,
        filter: Filter::Present(octets(alloc, "objectClass")?),
    })
}

/// A consumer of all below `o=x`.
pub(crate) fn new_consumer(alloc: Global) -> Result<Consumer, Fail> {
    Ok(Consumer::new(alloc, spec(alloc, b"o=x", Scope::Sub)?, false)?)
}

fn notified(alloc: Global, consumer: &mut Consumer, asked: &str) -> Result<String, Fail> {
    let (word, of) = parted(asked);
    match word {
        "has" => shown(alloc, consumer),
        "running" => made(format!(in alloc; "{}", consumer.has_session())),
        "request" => requested(alloc, consumer),
        "spec" => spec_notified(alloc, consumer.spec()),
        "entry" => entry_notified(alloc, consumer.entries().get(number(of))),
        "above" => identities(alloc, consumer.entries().above(number(of))),
        "list" => identities(alloc, consumer.entries().list()),
        "bounds" => bounds(alloc, consumer),
        _ => taken_in_words(alloc, consumer, asked),
    }
}

/// What comes of a message, or of many.
fn taken_in_words(alloc: Global, consumer: &mut Consumer, asked: &str) -> Result<String, Fail> {
    let (word, of) = parted(asked);
    match word {
        "stages" => staged(alloc, consumer, of.parse::<u32>().unwrap_or(0)),
        "briefly" => briefly(alloc, consumer, of),
        _ => taken(alloc, consumer, asked),
    }
}

/// A text that may be missing.
fn made(text: Result<String, NoMemory>) -> Result<String, Fail> {
    Ok(text?)
}

/// Puts a text that may be missing at the end.
fn push_made(text: &mut String, more: Result<String, NoMemory>) -> Result<(), Fail> {
    Ok(text.push_str(&more?)?)
}

/// The first word of what comes of the message.
fn briefly(alloc: Global, consumer: &mut Consumer, text: &str) -> Result<String, Fail> {
    let notified = taken(alloc, consumer, text)?;
    made(parted(&notified).0.to_string(alloc))
}

/// What comes of the message.
fn taken(alloc: Global, consumer: &mut Consumer, text: &str) -> Result<String, Fail> {
    take(alloc, consumer, sent(alloc, text)?)
}

fn take(alloc: Global, consumer: &mut Consumer, message: Message) -> Result<String, Fail> {
    let taken = consumer.take(&message);
    discard(message);
    let notified = taken_notified(alloc, &taken);
    discard(taken);
    notified
}

fn taken_notified(alloc: Global, taken: &Taken) -> Result<String, Fail> {
    match taken {
        Taken::Staged => made("Staged".to_string(alloc)),
        Taken::Stored(commit) => committed(alloc, "Stored", commit),
        Taken::Copied(commit) => committed(alloc, "Copied", commit),
        Taken::Over(code) => made(format!(in alloc; "Over({code})")),
        Taken::Fault(fault) => made(format!(in alloc; "{fault:?}")),
        Taken::NoMemory => Err(Fail::from("out of memory")),
    }
}

/// The identities put, those dropped, and the cookie.
fn committed(alloc: Global, word: &str, commit: &Commit) -> Result<String, Fail> {
    let mut text = word.to_string(alloc)?;
    push_puts(alloc, &mut text, commit.puts.list())?;
    push_drops(alloc, &mut text, commit.drops.list())?;
    push_cookie(&mut text, &commit.cookie)?;
    Ok(text)
}

fn push_puts(alloc: Global, text: &mut String, entries: &[Entry]) -> Result<(), Fail> {
    for entry in entries {
        push_made(text, format!(in alloc; " +{}", entry.uuid))?;
    }
    Ok(())
}

fn push_drops(alloc: Global, text: &mut String, uuids: &[u128]) -> Result<(), Fail> {
    for uuid in uuids {
        push_made(text, format!(in alloc; " -{uuid}"))?;
    }
    Ok(())
}

fn push_cookie(text: &mut String, cookie: &Option<Octets>) -> Result<(), NoMemory> {
    match cookie {
        Some(cookie) => {
            text.push(' ')?;
            text.push_str(utf8(cookie.as_slice()))
        }
        None => Ok(()),
    }
}

pub(crate) fn utf8(bytes: &[u8]) -> &str {
    str::from_utf8(bytes).unwrap_or("?")
}

/// The identities in their order, and the cookie.
fn shown(alloc: Global, consumer: &Consumer) -> Result<String, Fail> {
    let mut text = identities(alloc, consumer.entries().list())?;
    text.push_str(utf8(consumer.cookie().unwrap_or(b"-")))?;
    Ok(text)
}

fn identities(alloc: Global, entries: Result<Vec<&Entry>, NoMemory>) -> Result<String, Fail> {
    let entries = entries?;
    let mut text = String::new(alloc);
    push_identities(alloc, &mut text, &entries)?;
    Ok(text)
}

fn push_identities(alloc: Global, text: &mut String, entries: &[&Entry]) -> Result<(), Fail> {
    for entry in entries {
        push_made(text, format!(in alloc; "{} ", entry.uuid))?;
    }
    Ok(())
}

/// The number of entries, whether that is none, and the greatest identity.
fn bounds(alloc: Global, consumer: &Consumer) -> Result<String, Fail> {
    let entries = consumer.entries();
    let (count, is_empty) = (entries.len(), entries.is_empty());
    made(format!(in alloc; "{count} {is_empty} {:?}", entries.greatest()))
}

fn spec_notified(alloc: Global, spec: &Spec) -> Result<String, Fail> {
    let base = spec.base.write()?;
    let base = utf8(base.as_slice());
    made(format!(in alloc; "{base} {:?} {}", spec.scope, is_presence(&spec.filter)))
}

/// The name of an entry, whether it has the CSN, and its attributes.
fn entry_notified(alloc: Global, entry: Option<&Entry>) -> Result<String, Fail> {
    let Some(entry) = entry else {
        return made("none".to_string(alloc));
    };
    let mut text = head_notified(alloc, entry)?;
    push_attributes(&mut text, entry.attrs.list())?;
    Ok(text)
}

fn head_notified(alloc: Global, entry: &Entry) -> Result<String, NoMemory> {
    let name = entry.dn.write()?;
    let is_stamped = utf8(&entry.csn.write()) == CSN;
    format!(in alloc; "{} {is_stamped}", utf8(name.as_slice()))
}

fn push_attributes(text: &mut String, attributes: &[Attribute]) -> Result<(), NoMemory> {
    for attribute in attributes {
        push_part(text, ' ', utf8(attribute.kind.name()))?;
        push_values(text, attribute.values.list())?;
    }
    Ok(())
}

fn push_values(text: &mut String, values: &[Octets]) -> Result<(), NoMemory> {
    for value in values {
        push_part(text, ';', utf8(value.as_slice()))?;
    }
    Ok(())
}

fn push_part(text: &mut String, sign: char, part: &str) -> Result<(), NoMemory> {
    text.push(sign)?;
    text.push_str(part)
}

/// What comes of n entries, one after another, as far as each is staged.
fn staged(alloc: Global, consumer: &mut Consumer, count: u32) -> Result<String, Fail> {
    let around = around_number(alloc)?;
    for number in 0..count {
        let notified = take(alloc, consumer, numbered(alloc, &around, number)?)?;
        if notified.as_str() != "Staged" {
            return Ok(notified);
        }
    }
    made("Staged".to_string(alloc))
}
