//! What consumers hold, beside what a directory selects for them and what was handed in.
use crate::asking::{attributes_of, joined, name_of};
use crate::tasks::Tried;
use crate::working::unit_name;
use entry_tree::Entry;
use ldap_ber::NoMemory;
use schema_rules::Attribute;
use std::alloc::Global;
use std::process::Abort;
use sync_consumer::Consumer;
use sync_provider::Provider;

/// Whether each consumer holds what the directory selects for it, and that is what was handed in.
pub(crate) fn are_copies(
    rt: &impl Abort,
    alloc: Global,
    directory: &Provider,
    tried: &[Tried],
    consumers: &[Consumer],
) -> bool {
    let written = lines_written(rt, alloc, tried);
    for consumer in consumers {
        if !is_copy(rt, alloc, directory, written.as_slice(), consumer) {
            return false;
        }
    }
    true
}

fn is_copy(
    rt: &impl Abort,
    alloc: Global,
    directory: &Provider,
    written: &[String],
    consumer: &Consumer,
) -> bool {
    let held = consumer.entries().list().expect(rt, "memory");
    let selected = directory.tree().select(consumer.spec());
    let selected = selected.expect(rt, "memory");
    let lines = lines_held(rt, alloc, &held);
    lines.as_slice() == written && are_same(&held, selected.list())
}

/// Whether the lists have the same entries in the same order.
fn are_same(held: &[&Entry], selected: &[Entry]) -> bool {
    if held.len() != selected.len() {
        return false;
    }
    for (one, other) in held.iter().zip(selected) {
        if !is_same(one, other) {
            return false;
        }
    }
    true
}

/// Whether the entries have the same identity, CSN, name and attributes.
fn is_same(one: &Entry, other: &Entry) -> bool {
    one.uuid == other.uuid
        && one.csn == other.csn
        && one.dn.same(&other.dn)
        && has_same_attributes(one.attrs.list(), other.attrs.list())
}

fn has_same_attributes(ones: &[Attribute], others: &[Attribute]) -> bool {
    if ones.len() != others.len() {
        return false;
    }
    for (one, other) in ones.iter().zip(others) {
        if one.kind != other.kind || one.values != other.values {
            return false;
        }
    }
    true
}

/// The entries that these writes and the first one handed in, in ascending order of their lines.
fn lines_written(rt: &impl Abort, alloc: Global, tried: &[Tried]) -> Vec<String> {
    let mut lines = Vec::new(alloc);
    push_written(rt, alloc, &mut lines, "");
    for write in tried {
        if write.code == 0 {
            let unit = unit_name(alloc, write.thread, write.unit).expect(rt, "memory");
            push_written(rt, alloc, &mut lines, &unit);
        }
    }
    lines.sort_unstable();
    lines
}

/// Puts the name of an entry at the end, with its attributes as they were handed in.
fn push_written(rt: &impl Abort, alloc: Global, lines: &mut Vec<String>, unit: &str) {
    let name = name_of(alloc, unit).expect(rt, "memory");
    let attributes = attributes_of(alloc, unit).expect(rt, "memory");
    let line = joined(alloc, &name, " ", &attributes).expect(rt, "memory");
    lines.push(line).expect(rt, "memory");
}

fn lines_held(rt: &impl Abort, alloc: Global, entries: &[&Entry]) -> Vec<String> {
    let mut lines = Vec::new(alloc);
    for entry in entries {
        let line = line_held(alloc, entry).expect(rt, "memory");
        lines.push(line).expect(rt, "memory");
    }
    lines.sort_unstable();
    lines
}

/// The name of an entry, and its attributes as a client hands them in.
fn line_held(alloc: Global, entry: &Entry) -> Result<String, NoMemory> {
    let name = entry.dn.write()?;
    let mut line = text(name.as_slice()).to_string(alloc)?;
    for attribute in entry.attrs.list() {
        if !attribute.kind.operational() {
            push_attribute(&mut line, attribute)?;
        }
    }
    Ok(line)
}

fn push_attribute(line: &mut String, attribute: &Attribute) -> Result<(), NoMemory> {
    line.push(' ')?;
    line.push_str(text(attribute.kind.name()))?;
    let mut separator = '=';
    for value in attribute.values.list() {
        line.push(separator)?;
        line.push_str(text(value.as_slice()))?;
        separator = ',';
    }
    Ok(())
}

fn text(bytes: &[u8]) -> &str {
    str::from_utf8(bytes).unwrap_or("?")
}
