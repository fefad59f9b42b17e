//! Writes to a small directory, in words: perhaps its number; what it does and the name; and then,
//! each after a bar, attributes `type=value;value`, edits with a sign in front, or the new RDN,
//! `drop` or `keep`, and perhaps a superior.
use crate::rows::{number, parted};
use crate::writes::{attribute, octets, raw_list};
use csn_cookie::Csn;
use dn_names::Dn;
use entry_tree::{OpFault, Touched, Tree, read_op};
use ldap_ber::{NoMemory, Octets, discard};
use schema_rules::{Change, EditList, How, RawEdit};
use std::alloc::Global;
use std::test::Fail;

/// The number of a write that has none, after the first ones.
pub(crate) const NEXT: u64 = 9;

/// The text before the first bar, and that after it.
pub(crate) fn barred(text: &str) -> (&str, &str) {
    text.split_once('|').unwrap_or((text, ""))
}

/// What an edit does, by its sign, and the text after it.
fn signed(text: &str) -> Option<(How, &str)> {
    if let Some(rest) = text.strip_prefix('+') {
        return Some((How::Add, rest));
    }
    if let Some(rest) = text.strip_prefix('-') {
        return Some((How::Delete, rest));
    }
    text.strip_prefix('=').map(|rest| (How::Replace, rest))
}

fn edit_list(alloc: Global, text: &str) -> Result<EditList, Fail> {
    let mut list = EditList::new(alloc);
    for piece in text.split('|') {
        if !piece.is_empty() {
            list.push(raw_edit(alloc, piece)?)?;
        }
    }
    Ok(list)
}

fn raw_edit(alloc: Global, piece: &str) -> Result<RawEdit, Fail> {
    let (how, text) = signed(piece).ok_or("no sign")?;
    let attribute = attribute(alloc, text, ';')?;
    Ok(RawEdit { how, attribute })
}

fn rename_of(alloc: Global, name: Octets, text: &str) -> Result<Change, NoMemory> {
    let (rdn, rest) = barred(text);
    let (what, superior) = barred(rest);
    let superior = match superior {
        "" => None,
        superior => Some(octets(alloc, superior)?),
    };
    let rdn = octets(alloc, rdn)?;
    Ok(Change::Rename(name, rdn, what == "drop", superior))
}

fn change_of(alloc: Global, line: &str) -> Result<Change, Fail> {
    let (head, rest) = barred(line);
    let (verb, name) = parted(head);
    let name = octets(alloc, name)?;
    match verb {
        "add" => Ok(Change::Add(name, raw_list(alloc, rest, '|', ';')?)),
        "delete" => Ok(Change::Delete(name)),
        "modify" => Ok(Change::Modify(name, edit_list(alloc, rest)?)),
        "rename" => Ok(rename_of(alloc, name, rest)?),
        _ => Err(Fail::from(verb)),
    }
}

/// The CSN of the write of that number.
pub(crate) fn csn_of(alloc: Global, number: u64) -> Result<Csn, Fail> {
    let text = format!(in alloc; "19700101000000.{number:06}Z#000000#001#000000")?;
    Ok(Csn::parse(text.as_bytes())?)
}

/// The number in front of a write, or that of the next one, and the write.
fn numbered(write: &str) -> (u64, &str) {
    let (first, rest) = parted(write);
    match number(first) {
        0 => (NEXT, write),
        given => (given, rest),
    }
}

/// What comes of a write to the directory below the suffix.
fn applied(
    alloc: Global,
    tree: &mut Tree,
    change: &Change,
    suffix: &Dn,
    number: u64,
    csn: Csn,
) -> Result<Touched, OpFault> {
    let op = read_op(alloc, change)?;
    let entry_changes = tree.apply(&op, suffix, u128::from(number), csn);
    discard(op);
    entry_changes
}

/// What comes of a write to the directory `o=x`.
pub(crate) fn outcome(
    alloc: Global,
    tree: &mut Tree,
    write: &str,
) -> Result<Result<Touched, OpFault>, Fail> {
    let (number, line) = numbered(write);
    let csn = csn_of(alloc, number)?;
    let suffix = Dn::parse(alloc, b"o=x")?;
    let change = change_of(alloc, line)?;
    let outcome = applied(alloc, tree, &change, &suffix, number, csn);
    discard(change);
    Ok(outcome)
}

/// What would come of a write to the directory below the suffix.
fn previewed(
    alloc: Global,
    tree: &Tree,
    change: &Change,
    suffix: &Dn,
    number: u64,
    csn: Csn,
) -> Result<Touched, OpFault> {
    let op = read_op(alloc, change)?;
    let entry_changes = tree.preview(&op, suffix, u128::from(number), csn);
    discard(op);
    entry_changes
}

/// What would come of a write to the directory `o=x`.
pub(crate) fn preview_outcome(
    alloc: Global,
    tree: &Tree,
    write: &str,
) -> Result<Result<Touched, OpFault>, Fail> {
    let (number, line) = numbered(write);
    let csn = csn_of(alloc, number)?;
    let suffix = Dn::parse(alloc, b"o=x")?;
    let change = change_of(alloc, line)?;
    let outcome = previewed(alloc, tree, &change, &suffix, number, csn);
    discard(change);
    Ok(outcome)
}

/// The code of what comes of a write, and 0 where it is accepted.
pub(crate) fn code_of(outcome: &Result<Touched, OpFault>) -> Result<u32, Fail> {
    match outcome {
        Ok(_) => Ok(0),
        Err(OpFault::Code(code)) => Ok(*code),
        Err(OpFault::NoMemory) => Err(Fail::from("out of memory")),
    }
}
