//! Lists of octet strings.

ghost use Rattle.std.specs.Prelude.{◌≡◌, Ok, OnOk, OnErr};
ghost use Rattle.std.specs.List.{flat_map};
ghost use Rattle.ldap_ber.specs.Reading.{many_at};
ghost use Rattle.ldap_ber.specs.Canonical.{element};
ghost use Rattle.ldap_ber.specs.Writer.{after_bytes};
ghost use Rattle.ldap_ber.specs.Gives.{Gives};
ghost use Rattle.ldap_parts.specs.Faults.{ComponentFails};
ghost use Rattle.ldap_parts.specs.Components.{octet_string_at, strings_at, strings_from_first, strings_octets};

use crate::component::octet_string_of;
use crate::fault::ComponentFault;
use ldap_ber::{NoMemory, Octets, OctetsList, Reader, Writer};
use std::alloc::Global;

/// The element with this tag that comes next: octet strings alone. Else it is `Refused` with the
/// place of the first element that is not so, or `NoMemory`, and the reader is as before.
#[inline(always)]
pub fn strings_of(alloc: Global, reader: &mut Reader, tag: u8) -> Result<OctetsList, ComponentFault>
    ensures exact { Gives ComponentFails (λ strings. Ok (strings, reader.new.left)) result
        (strings_at tag reader.old.stop reader.old.left) }
    ensures stop { reader.new.stop ≡ reader.old.stop }
    ensures err { OnErr result (reader.new ≡ reader.old) }
{
    let mut ahead = reader.copy();
    let whole = ahead.expect(tag)?;
    let mut inner = Reader::inside(&whole);
    let strings = strings_in(alloc, &mut inner)?;
    *reader = ahead;
    Ok(strings)
}

/// The octet strings that are left. The only one takes no memory for a list.
#[inline(always)]
#[tactic(auto, using(crate::proofs::StringLemmas::strings_first, crate::proofs::StringLemmas::strings_only, crate::proofs::StringLemmas::strings_refused, crate::proofs::StringLemmas::strings_none))]
fn strings_in(alloc: Global, reader: &mut Reader) -> Result<OctetsList, ComponentFault>
    ensures { Gives ComponentFails (λ strings. Ok strings) result
        (many_at (octet_string_at 4) reader.old.stop reader.old.left) }
{
    if reader.is_empty() {
        return Ok(OctetsList::new(alloc));
    }
    let first = octet_string_of(alloc, reader, 0x04)?;
    if reader.is_empty() {
        return Ok(OctetsList::of_one(alloc, first));
    }
    let rest = reader.copy();
    let strings = strings_after(alloc, first, &rest)?;
    Ok(OctetsList::from(strings))
}

/// The first octet string and those that are left.
#[inline(never)]
#[tactic(auto, using(crate::proofs::StringLemmas::strings_go_on, crate::proofs::StringLemmas::strings_fail, crate::proofs::StringLemmas::strings_end))]
fn strings_after(
    alloc: Global,
    first: Octets,
    reader: &Reader,
) -> Result<Vec<Octets>, ComponentFault>
    ensures { Gives ComponentFails (λ strings. Ok strings.items) result
        (strings_from_first first reader.now.stop reader.now.left) }
{
    let room = reader.count().unwrap_or(0);
    let mut strings = Vec::with_capacity(alloc, room.saturating_add(1))?;
    strings.push(first)?;
    let mut ahead = reader.copy();
    while !ahead.is_empty() {
        let string = octet_string_of(alloc, &mut ahead, 0x04)?;
        strings.push(string)?;
    }
    Ok(strings)
}

/// Writes an element with this tag of octet strings alone. It is `NoMemory` where memory runs out,
/// and the writer is as before.
#[inline(always)]
pub fn put_strings(writer: &mut Writer, tag: u8, strings: &[Octets]) -> Result<(), NoMemory>
    ensures ok { OnOk result
        (writer.new ≡ after_bytes writer.old (strings_octets tag strings.now)) }
    ensures err { OnErr result (writer.new ≡ writer.old) }
{
    writer.begin(tag)?;
    let body = put_each(writer, 0x04, strings);
    writer.end_after(body)
}

/// Writes octet strings one after the other. After an `Err` only what was written in the innermost
/// open element is changed.
#[inline(always)]
pub(crate) fn put_each(writer: &mut Writer, tag: u8, strings: &[Octets]) -> Result<(), NoMemory>
    ensures ok { OnOk result
        (writer.new ≡ after_bytes writer.old (flat_map (element tag) strings.now)) }
    ensures opened { OnErr result (writer.new.opened ≡ writer.old.opened) }
{
    for string in strings {
        writer.octets(tag, string.as_slice())?;
    }
    Ok(())
}
