//! Records, as lists of their lines.
ghost use Rattle.std.specs.Prelude.{◌≡◌, ◌≤◌, [], length, None, Ok, OnOk, OnErr};
ghost use Rattle.std.specs.Str.{bytes_eq, str_eq_ignore_ascii_case};
ghost use Rattle.std.specs.List.{position_or_len};
ghost use Rattle.schema_rules.specs.declared.raw.RawAttribute.{RawAttribute};
ghost use Rattle.ldap_ber.specs.Gives.{Gives};
ghost use Rattle.ldif_text.specs.Fault.{Refuses};
ghost use Rattle.ldif_text.specs.Record as spec;

use crate::fault::LdifFault;
use crate::field::{field_of, is_same_type, keyword, value_of_type};
use crate::lines::Line;
use ldap_ber::{NoMemory, Octets, OctetsList};
use schema_rules::{Change, EditList, How, RawAttribute, RawEdit, RawList};
use std::alloc::Global;

/// The change of a record whose last line has this number (RFC 2849). Else it is the first fault of
/// its lines, in their order.
pub fn change_of(alloc: Global, last: u64, lines: &[Line]) -> Result<Change, LdifFault>
    ensures { Gives Refuses (λ x. Ok x) result (spec.change_of last lines.now) }
{
    match lines {
        [] => Err(LdifFault::BadChange(last)),
        [line, lines @ ..] => {
            let name = keyword(alloc, b"dn", line)?;
            body_of(alloc, last, name, lines)
        }
    }
}

/// The change of the lines after the name.
fn body_of(alloc: Global, last: u64, name: Octets, lines: &[Line]) -> Result<Change, LdifFault>
    ensures { Gives Refuses (λ x. Ok x) result (spec.body_of last name lines.now) }
{
    match lines {
        [] => Err(LdifFault::BadChange(last)),
        [line, rest @ ..] => {
            let field = field_of(alloc, line)?;
            if field.name.as_slice() == b"changetype".as_slice() {
                change_of_kind(alloc, last, line.first, name, &field.value, rest)
            } else {
                add_of(alloc, last, name, lines)
            }
        }
    }
}

/// The change of a kind that the line of this number names.
fn change_of_kind(
    alloc: Global,
    last: u64,
    number: u64,
    name: Octets,
    kind: &Octets,
    lines: &[Line],
) -> Result<Change, LdifFault>
    ensures { Gives Refuses (λ x. Ok x) result
        (spec.change_of_kind last number name kind.now lines.now) }
{
    let kind = kind.as_slice();
    if kind == b"add".as_slice() {
        add_of(alloc, last, name, lines)
    } else if kind == b"delete".as_slice() {
        delete_of(alloc, name, lines)
    } else if kind == b"modify".as_slice() {
        modify_of(alloc, name, lines)
    } else if kind == b"modrdn".as_slice() || kind == b"moddn".as_slice() {
        rename_of(alloc, last, name, lines)
    } else {
        Err(LdifFault::BadChange(number))
    }
}

/// Refuses a line that comes where none may.
fn nothing_more(alloc: Global, lines: &[Line]) -> Result<(), LdifFault>
    ensures { Gives Refuses (λ x. Ok x) result (spec.nothing_more lines.now) }
{
    match lines {
        [] => Ok(()),
        [line, ..] => {
            let _field = field_of(alloc, line)?;
            Err(LdifFault::BadChange(line.first))
        }
    }
}

fn add_of(alloc: Global, last: u64, name: Octets, lines: &[Line]) -> Result<Change, LdifFault>
    ensures { Gives Refuses (λ x. Ok x) result (spec.add_of last name lines.now) }
{
    match lines {
        [] => Err(LdifFault::BadChange(last)),
        _ => {
            let attributes = attributes_of(alloc, lines)?;
            Ok(Change::Add(name, RawList::of(attributes)))
        }
    }
}

/// The attributes of the lines, those of one type joined.
fn attributes_of(alloc: Global, lines: &[Line]) -> Result<Vec<RawAttribute>, LdifFault>
    ensures { Gives Refuses (λ x. Ok x.items) result (spec.attributes_of [] lines.now) }
{
    let mut attributes = Vec::with_capacity(alloc, lines.len())?;
    for line in lines {
        let field = field_of(alloc, line)?;
        add_value(alloc, &mut attributes, field.name, field.value)?;
    }
    Ok(attributes)
}

/// Puts a value last in its type's attribute, and that last where it is new.
fn add_value(
    alloc: Global,
    attributes: &mut Vec<RawAttribute>,
    name: Octets,
    value: Octets,
) -> Result<(), NoMemory>
    ensures { OnOk result (attributes.new.items ≡ spec.with_value attributes.old.items name value) }
{
    let place = place_of(attributes, &name);
    if place < attributes.len() {
        let found = &mut attributes[place];
        return found.values.push(value);
    }
    let values = OctetsList::of_one(alloc, value);
    attributes.push(RawAttribute { name, values })?;
    Ok(())
}

/// The place of the attribute of this type, or the number of attributes.
fn place_of(attributes: &[RawAttribute], name: &Octets) -> usize
    ensures place { result ≡ position_or_len (spec.is_of_type name.now) attributes.now }
    ensures within { result ≤ length attributes.now }
{
    for (i, attribute) in attributes.iter().enumerate() {
        if is_of_type(attribute, name) {
            return i;
        }
    }
    attributes.len()
}

fn is_of_type(attribute: &RawAttribute, name: &Octets) -> bool
    ensures { result ≡ spec.is_of_type name.now attribute.now }
{
    is_same_type(attribute.name.as_slice(), name.as_slice())
}

fn delete_of(alloc: Global, name: Octets, lines: &[Line]) -> Result<Change, LdifFault>
    ensures { Gives Refuses (λ x. Ok x) result (spec.delete_of name lines.now) }
{
    nothing_more(alloc, lines)?;
    Ok(Change::Delete(name))
}

fn modify_of(alloc: Global, name: Octets, lines: &[Line]) -> Result<Change, LdifFault>
    ensures { Gives Refuses (λ x. Ok x) result (spec.modify_of name lines.now) }
{
    Ok(Change::Modify(name, edits_of(alloc, lines)?))
}

/// The edits of the lines after `changetype: modify`.
fn edits_of(alloc: Global, lines: &[Line]) -> Result<EditList, LdifFault>
    ensures { Gives Refuses (λ x. Ok x) result (spec.edits_of [] None lines.now) }
{
    let mut done = EditList::new(alloc);
    let mut current = None;
    for line in lines {
        current = next_edit(alloc, &mut done, current, line)?;
    }
    if let Some(edit) = current {
        done.push(edit)?;
    }
    Ok(done)
}

/// Reads one line more into the edits. The current one is open to further values.
fn next_edit(
    alloc: Global,
    done: &mut EditList,
    current: Option<RawEdit>,
    line: &Line,
) -> Result<Option<RawEdit>, LdifFault>
    ensures { spec.Edits result done.old done.new current line.now }
{
    match current {
        None => Ok(Some(edit_of(alloc, line)?)),
        Some(edit) => {
            if line.text.as_slice() == b"-".as_slice() {
                done.push(edit)?;
                return Ok(None);
            }
            Ok(Some(edit_value(alloc, edit, line)?))
        }
    }
}

/// An edit that the line begins.
#[tactic(auto, unfolding(crate::specs::Record::edit_of))]
fn edit_of(alloc: Global, line: &Line) -> Result<RawEdit, LdifFault>
    ensures { Gives Refuses (λ x. Ok x) result (spec.edit_of line.now) }
{
    let field = field_of(alloc, line)?;
    let keyword = field.name.as_slice();
    if keyword == b"add".as_slice() {
        Ok(edit(alloc, How::Add, field.value))
    } else if keyword == b"delete".as_slice() {
        Ok(edit(alloc, How::Delete, field.value))
    } else if keyword == b"replace".as_slice() {
        Ok(edit(alloc, How::Replace, field.value))
    } else {
        Err(LdifFault::BadChange(line.first))
    }
}

/// An edit without a value yet.
fn edit(alloc: Global, how: How, name: Octets) -> RawEdit
    ensures { result ≡ spec.edit how name }
{
    let values = OctetsList::new(alloc);
    RawEdit {
        how,
        attribute: RawAttribute { name, values },
    }
}

/// The edit with the value of the line.
#[tactic(auto, unfolding(crate::specs::Record::edit_value))]
fn edit_value(alloc: Global, edit: RawEdit, line: &Line) -> Result<RawEdit, LdifFault>
    ensures { Gives Refuses (λ x. Ok x) result (spec.edit_value edit line.now) }
{
    let mut edit = edit;
    let value = value_of_type(alloc, edit.attribute.name.as_slice(), line)?;
    edit.attribute.values.push(value)?;
    Ok(edit)
}

fn rename_of(alloc: Global, last: u64, name: Octets, lines: &[Line]) -> Result<Change, LdifFault>
    ensures { Gives Refuses (λ x. Ok x) result (spec.rename_of last name lines.now) }
{
    match lines {
        [] => Err(LdifFault::BadChange(last)),
        [line, lines @ ..] => {
            let rdn = keyword(alloc, b"newrdn", line)?;
            renamed(alloc, last, name, rdn, lines)
        }
    }
}

/// The change of the lines after `newrdn:`.
fn renamed(
    alloc: Global,
    last: u64,
    name: Octets,
    rdn: Octets,
    lines: &[Line],
) -> Result<Change, LdifFault>
    ensures { Gives Refuses (λ x. Ok x) result (spec.renamed last name rdn lines.now) }
{
    match lines {
        [] => Err(LdifFault::BadChange(last)),
        [line, lines @ ..] => {
            let drops = flag_of(alloc, line)?;
            let superior = superior_of(alloc, lines)?;
            Ok(Change::Rename(name, rdn, drops, superior))
        }
    }
}

/// Whether the values of the old name go.
#[tactic(auto, unfolding(crate::specs::Record::flag_of))]
fn flag_of(alloc: Global, line: &Line) -> Result<bool, LdifFault>
    ensures { Gives Refuses (λ x. Ok x) result (spec.flag_of line.now) }
{
    let value = keyword(alloc, b"deleteoldrdn", line)?;
    let value = value.as_slice();
    if value == b"0".as_slice() {
        Ok(false)
    } else if value == b"1".as_slice() {
        Ok(true)
    } else {
        Err(LdifFault::BadChange(line.first))
    }
}

/// The new superior, where one is given.
fn superior_of(alloc: Global, lines: &[Line]) -> Result<Option<Octets>, LdifFault>
    ensures { Gives Refuses (λ x. Ok x) result (spec.superior_of lines.now) }
{
    match lines {
        [] => Ok(None),
        [line, lines @ ..] => {
            let superior = keyword(alloc, b"newsuperior", line)?;
            nothing_more(alloc, lines)?;
            Ok(Some(superior))
        }
    }
}
