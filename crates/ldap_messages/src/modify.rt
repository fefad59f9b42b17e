//! Modify (RFC 4511, section 4.6).
//!
//! ```text
//! ModifyRequest ::= [APPLICATION 6] SEQUENCE {
//!      object          LDAPDN,
//!      changes         SEQUENCE OF change SEQUENCE {
//!           operation       ENUMERATED {
//!                add     (0),
//!                delete  (1),
//!                replace (2),
//!                ...  },
//!           modification    PartialAttribute } }
//!
//! ModifyResponse ::= [APPLICATION 7] LDAPResult
//! ```

ghost use Rattle.std.specs.Prelude.{◌≡◌, ◌<◌, length, Ok, OnOk};
ghost use Rattle.std.specs.List.{flat_map};
ghost use Rattle.ldap_ber.specs.Reading.{made_at, many_at};
ghost use Rattle.ldap_ber.specs.Writer.{after_bytes};
ghost use Rattle.ldap_ber.specs.Gives.{Gives};
ghost use Rattle.ldap_parts.specs.Faults.{ComponentFails};
ghost use Rattle.ldap_messages.specs.Modify.{how_number, how_at, edit_at, edits_at, modify_at, edit_octets, edits_octets, modify_octets};
ghost use Rattle.ldap_messages.specs.Operation.{operation_of, modify};

use crate::protocol::Protocol;
use ldap_ber::{NoMemory, Octets, Reader, Writer};
use ldap_parts::{ComponentFault, attribute_of, number_of, octet_string_of, put_attribute};
use schema_rules::{Change, EditList, How, RawEdit};
use std::alloc::Global;

/// The ModifyRequest that comes next.
#[tactic(auto, unfolding(crate::specs::Modify::modify_at, crate::specs::Operation::operation_of))]
pub(crate) fn modify_of(alloc: Global, reader: &mut Reader) -> Result<Protocol, ComponentFault>
    ensures exact { Gives ComponentFails (λ op. Ok (operation_of op, reader.new.left)) result
        (made_at modify modify_at reader.old.stop reader.old.left) }
    ensures stop { reader.new.stop ≡ reader.old.stop }
{
    let whole = reader.expect(0x66)?;
    let mut inner = Reader::inside(&whole);
    let name = octet_string_of(alloc, &mut inner, 0x04)?;
    let edits = edits_of(alloc, &mut inner)?;
    inner.skip()?;
    Ok(Protocol::Write(Change::Modify(name, edits)))
}

fn edits_of(alloc: Global, reader: &mut Reader) -> Result<EditList, ComponentFault>
    ensures exact { Gives ComponentFails (λ edits. Ok (edits, reader.new.left)) result
        (edits_at reader.old.stop reader.old.left) }
    ensures stop { reader.new.stop ≡ reader.old.stop }
{
    let whole = reader.expect(0x30)?;
    let mut inner = Reader::inside(&whole);
    edits_in(alloc, &mut inner)
}

/// The edits that are left.
#[tactic(auto, using(crate::proofs::ModifyLemmas::edits_go_on, crate::proofs::ModifyLemmas::edits_fail, crate::proofs::ModifyLemmas::edits_end))]
fn edits_in(alloc: Global, reader: &mut Reader) -> Result<EditList, ComponentFault>
    ensures { Gives ComponentFails (λ edits. Ok edits) result
        (many_at edit_at reader.old.stop reader.old.left) }
{
    let room = reader.count().unwrap_or(0);
    let mut edits = EditList::with_room(alloc, room)?;
    while !reader.is_empty() {
        let edit = edit_of(alloc, reader)?;
        edits.push(edit)?;
    }
    Ok(edits)
}

/// The edit that comes next.
#[tactic(auto, unfolding(crate::specs::Modify::edit_at))]
fn edit_of(alloc: Global, reader: &mut Reader) -> Result<RawEdit, ComponentFault>
    ensures exact { Gives ComponentFails (λ edit. Ok (edit, reader.new.left)) result
        (edit_at reader.old.stop reader.old.left) }
    ensures stop { reader.new.stop ≡ reader.old.stop }
    ensures shorter { OnOk result (length reader.new.left < length reader.old.left) }
{
    let whole = reader.expect(0x30)?;
    let mut inner = Reader::inside(&whole);
    let how = how_of(&mut inner)?;
    let attribute = attribute_of(alloc, &mut inner)?;
    inner.skip()?;
    Ok(RawEdit { how, attribute })
}

fn how_of(reader: &mut Reader) -> Result<How, ComponentFault>
    ensures exact { Gives ComponentFails (λ how. Ok (how, reader.new.left)) result
        (how_at reader.old.stop reader.old.left) }
    ensures stop { reader.new.stop ≡ reader.old.stop }
{
    let place = reader.place();
    let number = number_of(reader, 0x0A)?;
    match number {
        0 => Ok(How::Add),
        1 => Ok(How::Delete),
        2 => Ok(How::Replace),
        _ => Err(ComponentFault::Refused(place)),
    }
}

pub(crate) fn put_modify(
    writer: &mut Writer,
    name: &Octets,
    edits: &[RawEdit],
) -> Result<(), NoMemory>
    ensures { OnOk result
        (writer.new ≡ after_bytes writer.old (modify_octets (name.now, edits.now))) }
{
    writer.begin(0x66)?;
    writer.octets(0x04, name.as_slice())?;
    put_edits(writer, edits)?;
    writer.end()
}

fn put_edits(writer: &mut Writer, edits: &[RawEdit]) -> Result<(), NoMemory>
    ensures { OnOk result (writer.new ≡ after_bytes writer.old (edits_octets edits.now)) }
{
    writer.begin(0x30)?;
    put_each(writer, edits)?;
    writer.end()
}

fn put_each(writer: &mut Writer, edits: &[RawEdit]) -> Result<(), NoMemory>
    ensures { OnOk result
        (writer.new ≡ after_bytes writer.old (flat_map edit_octets edits.now)) }
{
    for edit in edits {
        put_edit(writer, edit)?;
    }
    Ok(())
}

#[tactic(auto, unfolding(crate::specs::Modify::edit_octets))]
fn put_edit(writer: &mut Writer, edit: &RawEdit) -> Result<(), NoMemory>
    ensures { OnOk result (writer.new ≡ after_bytes writer.old (edit_octets edit.now)) }
{
    writer.begin(0x30)?;
    writer.integer(0x0A, how_number(edit.how))?;
    put_attribute(writer, &edit.attribute)?;
    writer.end()
}

fn how_number(how: How) -> i64
    ensures { result ≡ how_number how }
{
    match how {
        How::Add => 0,
        How::Delete => 1,
        How::Replace => 2,
    }
}
