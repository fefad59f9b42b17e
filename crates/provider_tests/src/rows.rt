//! Rows of tests: steps with `; ` between them, and after ` => ` what is reported of them, word by
//! word. A line that begins with `^` has the steps that the rows below it begin with, and one with
//! `#` says something of them. What `aside` does to three open searches is undone then.
//!
//! A write reports `w` and the number of writes, or `c` and the code that rejects it. `add` is of a
//! unit with the name of its first part, `first` of `dc=x`, `addto` of units up to n writes.
//! `replace` gives an attribute one value, `swell` a description of n octets. `rename` has the
//! name, the new first part and perhaps a new superior; `swing` lets two first parts take turns.
ghost use Rattle.std.specs.Prelude.{◌≡◌};

use crate::commits::{commit, commit_both};
use crate::messages::hand_out;
use crate::questions::{compare, find};
use crate::searches::open;
use crate::spellings::{spell, spell_busy};
use crate::writes::{add_up_to, swing, write};
use csn_cookie::Csn;
use dn_names::Dn;
use ldap_ber::{NoMemory, discard};
use std::alloc::Global;
use std::process::Abort;
use std::test::Fail;
use sync_provider::{Kind, SyncDirectory};

/// Asserts that each row is reported as it has it.
pub(crate) fn check_rows(rt: &impl Abort, alloc: Global, rows: &str) -> Result<(), Fail> {
    for group in rows.split('^') {
        let (begun, rows) = group.split_once('\n').unwrap_or((group, ""));
        check_group(rt, alloc, begun, rows)?;
    }
    Ok(())
}

fn check_group(rt: &impl Abort, alloc: Global, begun: &str, rows: &str) -> Result<(), Fail> {
    for row in rows.lines() {
        check_row(rt, alloc, begun, row)?;
    }
    Ok(())
}

fn check_row(rt: &impl Abort, alloc: Global, begun: &str, row: &str) -> Result<(), Fail> {
    if row.starts_with('#') {
        return Ok(());
    }
    let (steps, wanted) = row.split_once(" => ").ok_or(row)?;
    let notified = notified(alloc, begun, steps)?;
    assert!(rt; notified.as_str() == wanted, "{row}: {notified}");
    Ok(())
}

fn notified(alloc: Global, begun: &str, steps: &str) -> Result<String, Fail> {
    let kind = if begun.starts_with("replica") {
        Kind::Replica
    } else {
        Kind::Root
    };
    let suffix = Dn::parse(alloc, b"dc=x")?;
    let mut provider = SyncDirectory::new(alloc, suffix, 1, 1, kind)?;
    let mut text = String::new(alloc);
    let done = take_row(alloc, &mut provider, begun, steps, &mut text);
    discard(provider);
    done?;
    Ok(text)
}

fn take_row(
    alloc: Global,
    provider: &mut SyncDirectory,
    begun: &str,
    steps: &str,
    text: &mut String,
) -> Result<(), Fail> {
    take_steps(alloc, provider, begun, text)?;
    take_steps(alloc, provider, steps, text)
}

fn take_steps(
    alloc: Global,
    provider: &mut SyncDirectory,
    steps: &str,
    text: &mut String,
) -> Result<(), Fail> {
    for step in steps.split(';') {
        take_often(alloc, provider, step.trim_ascii(), text)?;
    }
    Ok(())
}

/// A step, or `times`, a number and a step.
fn take_often(
    alloc: Global,
    provider: &mut SyncDirectory,
    step: &str,
    text: &mut String,
) -> Result<(), Fail> {
    let (count, step) = match step.strip_prefix("times ") {
        Some(often) => parted(often),
        None => ("1", step),
    };
    for _ in 0..number(count) {
        take_step(alloc, provider, step, text)?;
    }
    Ok(())
}

fn take_step(
    alloc: Global,
    provider: &mut SyncDirectory,
    step: &str,
    text: &mut String,
) -> Result<(), Fail> {
    let (word, of) = parted(step);
    match word {
        "root" | "replica" => Ok(()),
        "hand" => hand_out(alloc, provider, of, text),
        "spell" => spell(alloc, provider, of, text),
        "busy" => spell_busy(alloc, text),
        "aside" => take_aside(alloc, provider, text),
        "log" | "queue" | "drop" => change(alloc, provider, word, of, text),
        _ => ask(alloc, provider, word, of, text),
    }
}

/// What opens a search or asks without a change.
fn ask(
    alloc: Global,
    provider: &mut SyncDirectory,
    word: &str,
    of: &str,
    text: &mut String,
) -> Result<(), Fail> {
    match word {
        "once" | "stay" | "bad" | "once!" | "stay!" => open(alloc, provider, word, of, text),
        "size" | "csn" | "upto" | "of" => look(alloc, provider, word, of, text),
        "find" => find(alloc, provider, of, text),
        "compare" => compare(alloc, provider, of, text),
        _ => write_or_commit(alloc, provider, word, of, text),
    }
}

fn write_or_commit(
    alloc: Global,
    provider: &mut SyncDirectory,
    word: &str,
    of: &str,
    text: &mut String,
) -> Result<(), Fail> {
    match word {
        "commit" => commit(alloc, provider, of, text),
        "commits" => commit_both(alloc, provider, of, text),
        "addto" => add_up_to(alloc, provider, of, text),
        "swing" => swing(alloc, provider, of, text),
        _ => write(alloc, provider, word, of, text),
    }
}

/// Limits, and the drop of a search.
fn change(
    alloc: Global,
    provider: &mut SyncDirectory,
    word: &str,
    of: &str,
    text: &mut String,
) -> Result<(), Fail> {
    match word {
        "log" => provider.set_log_limit(number(of)),
        "queue" => provider.set_queue_limit(number(of)),
        _ => drop_search(provider, number(of), text)?,
    }
    Ok(())
}

fn drop_search(provider: &mut SyncDirectory, search: u64, text: &mut String) -> Result<(), Fail>
    ensures { provider.new.directory ≡ provider.old.directory }
{
    let was_open = provider.drop_search(search);
    push_word(text, if was_open { "dropped" } else { "none" })
}

/// Reports what the first two of three searches hand out up to their ends, and drops the third.
/// Then the searches are again those before.
#[tactic(auto, using(sync_provider::proofs::Returns::no_write_came))]
fn take_aside(alloc: Global, provider: &mut SyncDirectory, text: &mut String) -> Result<(), Fail> {
    let first = provider.search_snapshot(1)?;
    let done = take_beside_first(alloc, provider, text);
    provider.return_to_search(first);
    done
}

// Each snapshot is in a function that cannot return with a fault while it holds it: so no proof
// goes through the parts of a search at its ends.

#[tactic(auto, using(sync_provider::proofs::Returns::no_write_came))]
fn take_beside_first(
    alloc: Global,
    provider: &mut SyncDirectory,
    text: &mut String,
) -> Result<(), Fail>
    ensures { provider.new.directory ≡ provider.old.directory }
{
    let second = provider.search_snapshot(2)?;
    let done = take_beside_second(alloc, provider, text);
    provider.return_to_search(second);
    done
}

#[tactic(auto, using(sync_provider::proofs::Returns::no_write_came))]
fn take_beside_second(
    alloc: Global,
    provider: &mut SyncDirectory,
    text: &mut String,
) -> Result<(), Fail>
    ensures { provider.new.directory ≡ provider.old.directory }
{
    let third = provider.search_snapshot(3)?;
    let done = end_searches(alloc, provider, text);
    provider.return_to_search(third);
    done
}

fn end_searches(alloc: Global, provider: &mut SyncDirectory, text: &mut String) -> Result<(), Fail>
    ensures { provider.new.directory ≡ provider.old.directory }
{
    spell(alloc, provider, "1", text)?;
    spell(alloc, provider, "2", text)?;
    spell(alloc, provider, "1", text)?;
    drop_search(provider, 3, text)
}

/// The numbers of writes and entries with the history, the CSN of a write or of an entry, or the
/// number of writes up to a CSN.
fn look(
    alloc: Global,
    provider: &SyncDirectory,
    word: &str,
    of: &str,
    text: &mut String,
) -> Result<(), Fail> {
    match word {
        "size" => push_size(alloc, provider, text),
        "upto" => push_upto(alloc, provider, of, text),
        _ => push_csn(text, csn_of(provider, word, number(of))?),
    }
}

fn push_size(alloc: Global, provider: &SyncDirectory, text: &mut String) -> Result<(), Fail> {
    let (writes, entries) = (provider.writes(), provider.tree().len());
    push_made(
        text,
        format!(in alloc; "{writes}/{entries}/{}", provider.history()),
    )
}

fn push_upto(
    alloc: Global,
    provider: &SyncDirectory,
    csn: &str,
    text: &mut String,
) -> Result<(), Fail> {
    let writes = provider.upto(Csn::parse(csn.as_bytes())?);
    push_counted(alloc, text, "", writes)
}

fn csn_of(provider: &SyncDirectory, word: &str, number: u64) -> Result<Csn, Fail> {
    if word == "of" {
        let entry = provider.tree().get(u128::from(number)).ok_or("no entry")?;
        return Ok(entry.csn);
    }
    if number == 0 || provider.writes() < number {
        return Err(Fail::from("no write"));
    }
    Ok(provider.write_at(number).csn)
}

/// Puts the word at the end, with a space before it where it is not the first.
pub(crate) fn push_word(text: &mut String, word: &str) -> Result<(), Fail> {
    if !text.is_empty() {
        text.push(' ')?;
    }
    Ok(text.push_str(word)?)
}

/// Puts a word that was made at the end.
pub(crate) fn push_made(text: &mut String, word: Result<String, NoMemory>) -> Result<(), Fail> {
    push_word(text, &word?)
}

/// Puts a word and the number at the end.
pub(crate) fn push_counted(
    alloc: Global,
    text: &mut String,
    word: &str,
    number: u64,
) -> Result<(), Fail> {
    push_made(text, format!(in alloc; "{word}{number}"))
}

pub(crate) fn push_csn(text: &mut String, csn: Csn) -> Result<(), Fail> {
    push_word(text, utf8(&csn.write()))
}

/// The first word of the text, and what is after it.
pub(crate) fn parted(text: &str) -> (&str, &str) {
    text.split_once(' ').unwrap_or((text, ""))
}

pub(crate) fn number(text: &str) -> u64 {
    text.parse::<u64>().unwrap_or(0)
}

pub(crate) fn utf8(bytes: &[u8]) -> &str {
    str::from_utf8(bytes).unwrap_or("?")
}
