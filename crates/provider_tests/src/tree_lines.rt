//! Entries of a small directory, each on a line: a sign, its identity, the number of its CSN, its
//! name, and its attributes, each value with its type.
use crate::rows::utf8;
use entry_tree::{Entry, Touched, Tree};
use ldap_ber::NoMemory;
use schema_rules::Attribute;
use std::alloc::Global;

/// Puts each value with its type in front of it, and a bar before it where another is there.
fn push_attribute(text: &mut String, attribute: &Attribute) -> Result<(), NoMemory> {
    for value in attribute.values.list() {
        push_value(text, utf8(attribute.kind.name()), utf8(value.as_slice()))?;
    }
    Ok(())
}

fn push_value(text: &mut String, kind: &str, value: &str) -> Result<(), NoMemory> {
    if !text.as_str().ends_with(' ') {
        text.push('|')?;
    }
    text.push_str(kind)?;
    text.push('=')?;
    text.push_str(value)
}

pub(crate) fn push_entry(
    alloc: Global,
    text: &mut String,
    sign: &str,
    entry: &Entry,
) -> Result<(), NoMemory> {
    let head = head_of(alloc, sign, entry)?;
    text.push_str(&head)?;
    push_attributes(text, entry.attrs.list())?;
    text.push('\n')
}

fn head_of(alloc: Global, sign: &str, entry: &Entry) -> Result<String, NoMemory> {
    let name = entry.dn.write()?;
    let (uuid, micros) = (entry.uuid, entry.csn.micros());
    format!(in alloc; "{sign}{uuid} {micros} {} ", utf8(name.as_slice()))
}

fn push_attributes(text: &mut String, attributes: &[Attribute]) -> Result<(), NoMemory> {
    for attribute in attributes {
        push_attribute(text, attribute)?;
    }
    Ok(())
}

/// Puts the entry, where there is one.
fn push_found(
    alloc: Global,
    text: &mut String,
    sign: &str,
    entry: &Option<Entry>,
) -> Result<(), NoMemory> {
    match entry {
        Some(entry) => push_entry(alloc, text, sign, entry),
        None => Ok(()),
    }
}

/// Puts what a write touches: a line of what was, and one of what is.
pub(crate) fn push_difference(
    alloc: Global,
    text: &mut String,
    entry_changes: &Touched,
) -> Result<(), NoMemory> {
    for entry_change in entry_changes.list() {
        push_found(alloc, text, "-", &entry_change.before)?;
        push_found(alloc, text, "+", &entry_change.after)?;
    }
    Ok(())
}

/// The entries of the tree.
pub(crate) fn entries_of(alloc: Global, tree: &Tree) -> Result<String, NoMemory> {
    let mut text = String::new(alloc);
    for entry in &tree.entries()? {
        push_entry(alloc, &mut text, "=", entry)?;
    }
    Ok(text)
}
