//! Rows of tests of a small directory: steps with `/` between them, and what is reported of them,
//! word by word. Each row begins with the first directory, or with none after `new`; `deep` and
//! `wide N` add entries to it, and `moves N` renames one with all below it. In a step that begins with `long`, a number and a piece, the piece
//! stands that often in place of `*`.
//!
//! A write reports its code; `touch` also what it touches, and `count` alone how much; `preview` the
//! code, whether the entries stay, and whether the write then answers the same. `find` reports which
//! identity a name finds in the tree and in a copy, `name` whether the entry of an identity has a
//! name, `get` a copy of that entry. `select` takes a scope, a type or a filter in parentheses, and a
//! base.
use crate::commit_tests::{commit, hold};
use crate::rows::{number, parted, push_counted, push_made, push_word};
use crate::tree_lines::{entries_of, push_difference, push_entry};
use crate::tree_writes::{NEXT, code_of, outcome, preview_outcome};
use crate::writes::octets;
use dn_names::Dn;
use entry_tree::{Entry, EntryList, OpFault, Scope, Spec, Touched, Tree};
use ldap_ber::{NoMemory, discard};
use ldap_filter::Filter;
use std::alloc::Global;
use std::process::Abort;
use std::test::Fail;

/// Steps, and what is reported of them.
pub(crate) type Row = (&'static str, &'static str);

/// The writes that the directory begins with. Each adds the entry whose identity is its number.
const FIRST: [&str; 5] = [
    "1 add o=x|objectClass=organization|o=x",
    "2 add ou=a,o=x|objectClass=organizationalUnit|ou=a",
    "3 add ou=b,o=x|objectClass=organizationalUnit|ou=b|ou=bb|l=p",
    "4 add cn=j,ou=a,o=x|objectClass=inetOrgPerson|cn=j|cn=k|sn=s|employeeNumber=1",
    "5 add ou=s,ou=a,o=x|objectClass=organizationalUnit|ou=s",
];

/// Asserts that each row is reported as it has it.
pub(crate) fn check_rows(rt: &impl Abort, alloc: Global, rows: &[Row]) -> Result<(), Fail> {
    for (steps, wanted) in rows {
        let reported = reported(alloc, steps)?;
        assert_row(rt, steps, &reported, wanted);
    }
    Ok(())
}

fn assert_row(rt: &impl Abort, row: &str, found: &str, wanted: &str) {
    assert!(rt; found == wanted, "{row}: {found} in place of {wanted}");
}

fn reported(alloc: Global, steps: &str) -> Result<String, Fail> {
    let mut tree = Tree::new(alloc);
    let mut text = String::new(alloc);
    let done = take_row(alloc, &mut tree, steps, &mut text);
    discard(tree);
    done?;
    Ok(text)
}

fn take_row(alloc: Global, tree: &mut Tree, steps: &str, text: &mut String) -> Result<(), Fail> {
    if !steps.starts_with("new") {
        write_each(alloc, tree, &FIRST)?;
    }
    for step in steps.split('/') {
        let step = expanded(alloc, step.trim_ascii())?;
        take_step(alloc, tree, &step, text)?;
    }
    Ok(())
}

/// A write that is accepted.
fn accept(alloc: Global, tree: &mut Tree, write: &str) -> Result<(), Fail> {
    discard(outcome(alloc, tree, write)??);
    Ok(())
}

fn write_each(alloc: Global, tree: &mut Tree, writes: &[&str]) -> Result<(), Fail> {
    for write in writes {
        accept(alloc, tree, write)?;
    }
    Ok(())
}

fn expanded(alloc: Global, step: &str) -> Result<String, Fail> {
    let Some(of) = step.strip_prefix("long ") else {
        return Ok(step.to_string(alloc)?);
    };
    let (count, rest) = parted(of);
    let (piece, step) = parted(rest);
    let (before, after) = step.split_once('*').ok_or(step)?;
    Ok(long(alloc, before, piece, number(count), after)?)
}

/// A text with this piece that often in it.
fn long(
    alloc: Global,
    before: &str,
    piece: &str,
    count: u64,
    after: &str,
) -> Result<String, NoMemory> {
    let mut text = before.to_string(alloc)?;
    for _ in 0..count {
        text.push_str(piece)?;
    }
    text.push_str(after)?;
    Ok(text)
}

fn take_step(alloc: Global, tree: &mut Tree, step: &str, text: &mut String) -> Result<(), Fail> {
    let (word, of) = parted(step);
    match word {
        "len" | "weight" | "find" | "name" | "get" | "left" => look(alloc, tree, word, of, text),
        "select" => select(alloc, tree, of, text),
        "held" => hold(alloc, of, text),
        "commit" => commit(alloc, tree, of, text),
        "new" | "deep" | "wide" => begin(alloc, tree, word, number(of)),
        _ => write_in_words(alloc, tree, step, text),
    }
}

/// More entries to begin with.
fn begin(alloc: Global, tree: &mut Tree, word: &str, count: u64) -> Result<(), Fail> {
    match word {
        "deep" => deepen(alloc, tree),
        "wide" => widen(alloc, tree, count),
        _ => Ok(()),
    }
}

/// A write, or a word for what of it is reported and the write.
fn write_in_words(
    alloc: Global,
    tree: &mut Tree,
    step: &str,
    text: &mut String,
) -> Result<(), Fail> {
    let (word, of) = parted(step);
    match word {
        "moves" => move_unit(alloc, tree, number(of), text),
        "touch" => touch(alloc, tree, of, text),
        "count" => report_count(alloc, tree, of, text),
        "preview" => preview(alloc, tree, of, text),
        _ => write(alloc, tree, step, text),
    }
}

/// Units one below another, so that the deepest entry has 32 RDNs.
fn deepen(alloc: Global, tree: &mut Tree) -> Result<(), Fail> {
    for depth in 1..31u64 {
        let write = format!(in alloc;
            "long {depth} ou=d, {} add *ou=b,o=x|objectClass=organizationalUnit|ou=d",
            depth.saturating_add(NEXT)
        )?;
        accept(alloc, tree, &expanded(alloc, &write)?)?;
    }
    Ok(())
}

/// N units below `ou=b`.
fn widen(alloc: Global, tree: &mut Tree, count: u64) -> Result<(), Fail> {
    for place in 0..count {
        let write = format!(in alloc;
            "{} add ou=m{place},ou=b,o=x|objectClass=organizationalUnit|ou=m{place}",
            place.saturating_add(NEXT)
        )?;
        accept(alloc, tree, &write)?;
    }
    Ok(())
}

fn write(alloc: Global, tree: &mut Tree, step: &str, text: &mut String) -> Result<(), Fail> {
    let outcome = outcome(alloc, tree, step)?;
    let code = code_of(&outcome);
    discard(outcome);
    push_counted(alloc, text, "", u64::from(code?))
}

fn touch(alloc: Global, tree: &mut Tree, of: &str, text: &mut String) -> Result<(), Fail> {
    let answer = answered(alloc, tree, of)?;
    push_word(text, &answer)
}

fn report_count(alloc: Global, tree: &mut Tree, of: &str, text: &mut String) -> Result<(), Fail> {
    let entry_changes = outcome(alloc, tree, of)??;
    let count = entry_changes.list().len();
    discard(entry_changes);
    push_counted(alloc, text, "", count as u64)
}

/// Renames `ou=b,o=x` N times, and reports of each of these writes how much it touches.
fn move_unit(alloc: Global, tree: &mut Tree, count: u64, text: &mut String) -> Result<(), Fail> {
    let mut name = "b".to_string(alloc)?;
    for place in 0..count {
        let next = format!(in alloc; "w{place}")?;
        let write = format!(in alloc; "rename ou={name},o=x|ou={next}|drop")?;
        report_count(alloc, tree, &write, text)?;
        name = next;
    }
    Ok(())
}

/// The code, and what is touched.
fn answer_of(alloc: Global, outcome: Result<Touched, OpFault>) -> Result<String, Fail> {
    let mut text = String::new(alloc);
    let done = push_answer(alloc, &mut text, &outcome);
    discard(outcome);
    done?;
    Ok(text)
}

fn push_answer(
    alloc: Global,
    text: &mut String,
    outcome: &Result<Touched, OpFault>,
) -> Result<(), Fail> {
    push_counted(alloc, text, "", u64::from(code_of(outcome)?))?;
    if let Ok(entry_changes) = outcome {
        text.push(' ')?;
        push_difference(alloc, text, entry_changes)?;
    }
    Ok(())
}

/// What comes of a write.
fn answered(alloc: Global, tree: &mut Tree, of: &str) -> Result<String, Fail> {
    answer_of(alloc, outcome(alloc, tree, of)?)
}

/// What would come of it, and whether the entries stay as they were.
fn previewed(alloc: Global, tree: &Tree, of: &str) -> Result<(String, bool), Fail> {
    let before = entries_of(alloc, tree)?;
    let seen = answer_of(alloc, preview_outcome(alloc, tree, of)?)?;
    let after = entries_of(alloc, tree)?;
    Ok((seen, after.as_str() == before.as_str()))
}

fn preview(alloc: Global, tree: &mut Tree, of: &str, text: &mut String) -> Result<(), Fail> {
    let (seen, stays) = previewed(alloc, tree, of)?;
    let done = answered(alloc, tree, of)?;
    let is_same = seen.as_str() == done.as_str();
    let (code, _) = parted(&seen);
    push_made(text, format!(in alloc; "{code} {stays} {is_same}"))
}

fn look(alloc: Global, tree: &Tree, word: &str, of: &str, text: &mut String) -> Result<(), Fail> {
    match word {
        "len" => push_counted(alloc, text, "", tree.len() as u64),
        "weight" => push_counted(alloc, text, "", tree.weight()),
        "find" => find(alloc, tree, of, text),
        "name" => compare(alloc, tree, of, text),
        "get" => get(alloc, tree, of, text),
        _ => push_left(alloc, tree, text),
    }
}

fn uuid_of(entry: Option<&Entry>) -> Option<u128> {
    match entry {
        Some(entry) => Some(entry.uuid),
        None => None,
    }
}

fn find(alloc: Global, tree: &Tree, of: &str, text: &mut String) -> Result<(), Fail> {
    let dn = Dn::parse(alloc, of.as_bytes())?;
    let copy = tree.copy()?;
    let (found, also) = (uuid_of(tree.find(&dn)), uuid_of(copy.find(&dn)));
    discard(copy);
    push_made(text, format!(in alloc; "{found:?} {also:?}"))
}

fn compare(alloc: Global, tree: &Tree, of: &str, text: &mut String) -> Result<(), Fail> {
    let (uuid, name) = parted(of);
    let dn = Dn::parse(alloc, name.as_bytes())?;
    let is_same = match tree.get(u128::from(number(uuid))) {
        Some(entry) => entry.dn.same(&dn),
        None => false,
    };
    push_made(text, format!(in alloc; "{is_same}"))
}

fn get(alloc: Global, tree: &Tree, of: &str, text: &mut String) -> Result<(), Fail> {
    let Some(entry) = tree.get(u128::from(number(of))) else {
        return push_word(text, "none");
    };
    push_word(text, "")?;
    Ok(push_entry(alloc, text, "=", &entry.copy()?)?)
}

/// Reports the entries, their weight, and whether a copy has the same.
fn push_left(alloc: Global, tree: &Tree, text: &mut String) -> Result<(), Fail> {
    let (left, weight) = (entries_of(alloc, tree)?, tree.weight());
    let is_same = is_copied(alloc, tree, &left)?;
    push_made(text, format!(in alloc; "{left}{weight} {is_same}"))
}

fn is_copied(alloc: Global, tree: &Tree, left: &str) -> Result<bool, NoMemory> {
    let copy = tree.copy()?;
    let (copied, weight) = (entries_of(alloc, &copy), copy.weight());
    discard(copy);
    Ok(copied?.as_str() == left && weight == tree.weight())
}

fn scope_of(word: &str) -> Scope {
    match word {
        "base" => Scope::Base,
        "one" => Scope::One,
        _ => Scope::Sub,
    }
}

/// The filter that is written so, or that the type is there.
fn filter_of(alloc: Global, word: &str) -> Result<Filter, Fail> {
    if word.starts_with('(') {
        return Ok(Filter::read_text(alloc, word.as_bytes())?);
    }
    Ok(Filter::Present(octets(alloc, word)?))
}

/// Reports whether the specification is the same as itself, and which entries it selects.
fn select(alloc: Global, tree: &Tree, of: &str, text: &mut String) -> Result<(), Fail> {
    let (scope, rest) = parted(of);
    let (kind, base) = parted(rest);
    let spec = Spec {
        base: Dn::parse(alloc, base.as_bytes())?,
        scope: scope_of(scope),
        filter: filter_of(alloc, kind)?,
    };
    let selected = selected(alloc, tree, &spec);
    discard(spec);
    push_word(text, &selected?)
}

fn selected(alloc: Global, tree: &Tree, spec: &Spec) -> Result<String, NoMemory> {
    let found = tree.select(spec)?;
    let uuids = identities(alloc, &found);
    discard(found);
    let (is_same, uuids) = (spec.same(spec), uuids?);
    format!(in alloc; "{is_same} {:?}", uuids.as_slice())
}

/// The identities of the entries, in the order of the list.
fn identities(alloc: Global, entries: &EntryList) -> Result<Vec<u128>, NoMemory> {
    let mut all = Vec::new(alloc);
    for entry in entries.list() {
        all.push(entry.uuid)?;
    }
    Ok(all)
}
