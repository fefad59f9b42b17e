//! Entries as text.
ghost use Rattle.std.specs.Prelude.{◌≡◌, ◌++◌, List, ℕ, IfOk, OnOk};
ghost use Rattle.std.specs.List.{list_any};
ghost use Rattle.schema_rules.specs.declared.attributes.Attribute.{Attribute};
ghost use Rattle.ldif_text.specs.Again.{IsReadAgain};
ghost use Rattle.ldif_text.specs.Written as spec;

use base64::engine::general_purpose::STANDARD;
use csn_cookie::Csn;
use ldap_ber::NoMemory;
use schema_rules::{Attribute, Attrs};
use std::alloc::Global;
use uuid::Uuid;

/// Room for what a line has beside its name and its value.
const MARKS_ROOM: usize = 4;

/// Room for the lines of entryUUID and entryCSN, and for the marks of the first line and the last.
const OPERATIONAL_ROOM: usize = 112;

/// The entry of this name as a record of LDIF, ended by an empty line, with its entryUUID and its
/// entryCSN where they are given (RFC 2849). Lines are not folded. A value that could not be read
/// again as it stands is written in base64. It is `NoMemory` where memory runs out.
pub fn write_entry(
    alloc: Global,
    name: &[u8],
    attrs: &Attrs,
    operational: Option<(u128, Csn)>,
) -> Result<Vec<u8>, NoMemory>
    ensures { IfOk result (λ text. text.items ≡ spec.entry_text name.now attrs.now operational) }
{
    let mut text = Vec::with_capacity(alloc, entry_room(name, attrs))?;
    push_line(alloc, &mut text, b"dn", name)?;
    push_attributes(alloc, &mut text, attrs.list())?;
    push_operational(alloc, &mut text, operational)?;
    text.push(b'\n')?;
    Ok(text)
}

/// How many bytes the text of an entry takes, as a hint of the room that it needs.
fn entry_room(name: &[u8], attrs: &Attrs) -> usize {
    let marks = attrs.list().len().saturating_mul(MARKS_ROOM);
    name.len()
        .saturating_add(attrs.weight() as usize)
        .saturating_add(marks)
        .saturating_add(OPERATIONAL_ROOM)
}

fn push_attributes(
    alloc: Global,
    text: &mut Vec<u8>,
    attributes: &[Attribute],
) -> Result<(), NoMemory>
    ensures { OnOk result (text.new.items ≡ text.old.items ++ spec.attributes_text attributes.now) }
{
    for attribute in attributes {
        push_attribute(alloc, text, attribute)?;
    }
    Ok(())
}

fn push_attribute(alloc: Global, text: &mut Vec<u8>, attribute: &Attribute) -> Result<(), NoMemory>
    ensures { OnOk result (text.new.items ≡ text.old.items ++ spec.attribute_text attribute.now) }
{
    let name = attribute.kind.name();
    for value in attribute.values.list() {
        push_line(alloc, text, name, value.as_slice())?;
    }
    Ok(())
}

fn push_operational(
    alloc: Global,
    text: &mut Vec<u8>,
    operational: Option<(u128, Csn)>,
) -> Result<(), NoMemory>
    ensures { OnOk result (text.new.items ≡ text.old.items ++ spec.operational_text operational) }
{
    match operational {
        None => Ok(()),
        Some((uuid, csn)) => {
            push_uuid(alloc, text, uuid)?;
            push_line(alloc, text, b"entryCSN", &csn.write())
        }
    }
}

fn push_uuid(alloc: Global, text: &mut Vec<u8>, uuid: u128) -> Result<(), NoMemory>
    ensures { OnOk result (text.new.items ≡ text.old.items ++ spec.uuid_line uuid) }
{
    let mut buffer = Uuid::encode_buffer();
    let uuid = Uuid::from_u128(uuid).hyphenated().encode_lower(&mut buffer);
    push_line(alloc, text, b"entryUUID", uuid.as_bytes())
}

/// Appends a line with the value after the name.
#[tactic(auto, unfolding(crate::specs::Written::line_text))]
pub(crate) fn push_line(
    alloc: Global,
    text: &mut Vec<u8>,
    name: &[u8],
    value: &[u8],
) -> Result<(), NoMemory>
    ensures { OnOk result (text.new.items ≡ text.old.items ++ spec.line_text name.now value.now) }
{
    text.extend_from_slice(name)?;
    push_value(alloc, text, value)?;
    text.push(b'\n')?;
    Ok(())
}

#[tactic(auto, unfolding(crate::specs::Written::value_text))]
fn push_value(alloc: Global, text: &mut Vec<u8>, value: &[u8]) -> Result<(), NoMemory>
    ensures { OnOk result (text.new.items ≡ text.old.items ++ spec.value_text value.now) }
{
    if is_plain(value) {
        text.extend_from_slice(b": ")?;
        return text.extend_from_slice(value);
    }
    let encoded = STANDARD.encode(alloc, value)?;
    text.extend_from_slice(b":: ")?;
    text.extend_from_slice(encoded.as_bytes())
}

/// Whether the value can be read again as it stands.
fn is_plain(value: &[u8]) -> bool
    ensures { result ≡ spec.is_plain value.now }
{
    if value.is_empty() {
        return true;
    }
    !is_unsafe_first(value[0]) && value[value.len() - 1] != b' ' && !holds_unsafe(value)
}

/// Whether no value in plain text begins with the byte.
fn is_unsafe_first(b: u8) -> bool
    ensures { result ≡ spec.is_unsafe_first b }
{
    b == b' ' || b == b':' || b == b'<'
}

fn holds_unsafe(value: &[u8]) -> bool
    ensures { result ≡ list_any spec.is_unsafe value.now }
{
    value
        .iter()
        .any(|b| *b == 0 || *b == b'\n' || *b == b'\r' || *b > 127)
}

/// What is written of an entry without entryUUID and entryCSN is read again as the add of that
/// entry.
pub fn entries_are_read_again()
    ensures { (name : List ℕ) (attrs : List Attribute) → spec.IsEntry name attrs
        → IsReadAgain name attrs }
{}
