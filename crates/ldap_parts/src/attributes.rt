//! Attributes with their values (RFC 4511, section 4.1.7).
//!
//! ```text
//! PartialAttribute ::= SEQUENCE {
//!      type       AttributeDescription,
//!      vals       SET OF value AttributeValue }
//!
//! PartialAttributeList ::= SEQUENCE OF
//!                      partialAttribute PartialAttribute
//! ```

ghost use Rattle.std.specs.Prelude.{◌≡◌, ◌<◌, ◌≤◌, ◌++◌, length, Ok, OnOk, OnErr};
ghost use Rattle.std.specs.List.{flat_map};
ghost use Rattle.ldap_ber.specs.Canonical.{element};
ghost use Rattle.ldap_ber.specs.Reading.{many_at};
ghost use Rattle.ldap_ber.specs.Writer.{after_bytes};
ghost use Rattle.ldap_ber.specs.Gives.{Gives};
ghost use Rattle.ldap_parts.specs.Faults.{ComponentFails};
ghost use Rattle.ldap_parts.specs.Components.{strings_octets};
ghost use Rattle.ldap_parts.specs.Attributes.{attribute_at, attributes_at, attribute_octets, attributes_octets};

use crate::component::octet_string_of;
use crate::fault::ComponentFault;
use crate::lists::{put_strings, strings_of};
use ldap_ber::{NoMemory, Reader, Writer};
use schema_rules::{RawAttribute, RawList};
use std::alloc::Global;

/// The attribute that comes next (RFC 4511, section 4.1.7). Else it is `Refused` with the place of
/// the first element that is not so, or `NoMemory`, and the reader is as before.
#[inline(always)]
#[tactic(auto, unfolding(crate::specs::Attributes::attribute_at))]
pub fn attribute_of(alloc: Global, reader: &mut Reader) -> Result<RawAttribute, ComponentFault>
    ensures exact { Gives ComponentFails (λ attribute. Ok (attribute, reader.new.left)) result
        (attribute_at reader.old.stop reader.old.left) }
    ensures stop { reader.new.stop ≡ reader.old.stop }
    ensures shorter { OnOk result (length reader.new.left < length reader.old.left) }
    ensures err { OnErr result (reader.new ≡ reader.old) }
{
    let mut ahead = reader.copy();
    let whole = ahead.expect(0x30)?;
    let mut inner = Reader::inside(&whole);
    let name = octet_string_of(alloc, &mut inner, 0x04)?;
    let values = strings_of(alloc, &mut inner, 0x31)?;
    inner.skip()?;
    *reader = ahead;
    Ok(RawAttribute { name, values })
}

/// The list of attributes that comes next (RFC 4511, section 4.1.7). Else it is `Refused` with the
/// place of the first element that is not so, or `NoMemory`, and the reader is as before.
pub fn attributes_of(alloc: Global, reader: &mut Reader) -> Result<RawList, ComponentFault>
    ensures exact { Gives ComponentFails (λ attributes. Ok (attributes, reader.new.left)) result
        (attributes_at reader.old.stop reader.old.left) }
    ensures stop { reader.new.stop ≡ reader.old.stop }
    ensures err { OnErr result (reader.new ≡ reader.old) }
{
    let mut ahead = reader.copy();
    let whole = ahead.expect(0x30)?;
    let mut inner = Reader::inside(&whole);
    let attributes = attributes_in(alloc, &mut inner, room_for(whole.body.len()))?;
    *reader = ahead;
    Ok(attributes)
}

/// How many attributes a list of these octets has room for at first: one for each 24 octets, but
/// sixteen at most. So they need not be counted, and a long value takes no room in the list.
fn room_for(octets: usize) -> usize
    ensures { result ≤ 16 }
{
    let room = octets / 24;
    if room < 16 { room } else { 16 }
}

/// The attributes that are left, in a list that has this room at first.
#[tactic(auto, using(crate::proofs::AttributeLemmas::attributes_go_on, crate::proofs::AttributeLemmas::attributes_fail, crate::proofs::AttributeLemmas::attributes_end))]
fn attributes_in(alloc: Global, reader: &mut Reader, room: usize) -> Result<RawList, ComponentFault>
    ensures { Gives ComponentFails (λ attributes. Ok attributes) result
        (many_at attribute_at reader.old.stop reader.old.left) }
{
    let mut attributes = RawList::with_room(alloc, room)?;
    while !reader.is_empty() {
        let attribute = attribute_of(alloc, reader)?;
        attributes.push(attribute)?;
    }
    Ok(attributes)
}

/// Writes an attribute (RFC 4511, section 4.1.7). It is `NoMemory` where memory runs out, and the
/// writer is as before.
#[tactic(auto, unfolding(crate::specs::Attributes::attribute_octets))]
pub fn put_attribute(writer: &mut Writer, attribute: &RawAttribute) -> Result<(), NoMemory>
    ensures ok { OnOk result
        (writer.new ≡ after_bytes writer.old (attribute_octets attribute.now)) }
    ensures err { OnErr result (writer.new ≡ writer.old) }
{
    writer.begin(0x30)?;
    let body = put_body(writer, attribute);
    writer.end_after(body)
}

fn put_body(writer: &mut Writer, attribute: &RawAttribute) -> Result<(), NoMemory>
    ensures ok { OnOk result (writer.new ≡ after_bytes writer.old
        (element 4 attribute.now.name ++ strings_octets 49 attribute.now.values)) }
    ensures opened { OnErr result (writer.new.opened ≡ writer.old.opened) }
{
    writer.octets(0x04, attribute.name.as_slice())?;
    put_strings(writer, 0x31, attribute.values.list())
}

/// Writes a list of attributes (RFC 4511, section 4.1.7). It is `NoMemory` where memory runs out,
/// and the writer is as before.
pub fn put_attributes(writer: &mut Writer, attributes: &[RawAttribute]) -> Result<(), NoMemory>
    ensures ok { OnOk result
        (writer.new ≡ after_bytes writer.old (attributes_octets attributes.now)) }
    ensures err { OnErr result (writer.new ≡ writer.old) }
{
    writer.begin(0x30)?;
    let body = put_each(writer, attributes);
    writer.end_after(body)
}

fn put_each(writer: &mut Writer, attributes: &[RawAttribute]) -> Result<(), NoMemory>
    ensures ok { OnOk result
        (writer.new ≡ after_bytes writer.old (flat_map attribute_octets attributes.now)) }
    ensures opened { OnErr result (writer.new.opened ≡ writer.old.opened) }
{
    for attribute in attributes {
        put_attribute(writer, attribute)?;
    }
    Ok(())
}
