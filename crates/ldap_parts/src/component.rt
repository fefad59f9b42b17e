//! Octet strings, numbers and Booleans.
//!
//! ```text
//! MessageID ::= INTEGER (0 .. maxInt)
//!
//! maxInt INTEGER ::= 2147483647 -- (2^^31 - 1) --
//!
//! LDAPString ::= OCTET STRING -- UTF-8 encoded,
//!                             -- [ISO10646] characters
//!
//! LDAPOID ::= OCTET STRING -- Constrained to <numericoid>
//!                          -- [RFC4512]
//!
//! LDAPDN ::= LDAPString -- Constrained to <distinguishedName>
//!                       -- [RFC4514]
//! ```

ghost use Rattle.std.specs.Prelude.{◌≡◌, ◌<◌, ◌≤◌, length, Ok, IfOk, OnOk, OnErr};
ghost use Rattle.ldap_ber.specs.Writer.{after_bytes};
ghost use Rattle.ldap_ber.specs.Gives.{Gives};
ghost use Rattle.ldap_parts.specs.Faults.{ComponentFails};
ghost use Rattle.ldap_parts.specs.Components.{octet_string_at, number_at, boolean_value_at, range_at, option_at, number_octets, string_octets};

use crate::fault::ComponentFault;
use ldap_ber::{NoMemory, Octets, Reader, Writer};
use std::alloc::Global;

/// The octet string with this tag that comes next. Else it is `Refused` with the place of the first
/// element that is not so, or `NoMemory`, and the reader is as before.
#[inline(always)]
pub fn octet_string_of(
    alloc: Global,
    reader: &mut Reader,
    tag: u8,
) -> Result<Octets, ComponentFault>
    ensures exact { Gives ComponentFails (λ string. Ok (string, reader.new.left)) result
        (octet_string_at tag reader.old.stop reader.old.left) }
    ensures stop { reader.new.stop ≡ reader.old.stop }
    ensures shorter { OnOk result (length reader.new.left < length reader.old.left) }
    ensures err { OnErr result (reader.new ≡ reader.old) }
{
    let mut ahead = reader.copy();
    let string = Octets::from_slice(alloc, ahead.octets(tag)?)?;
    *reader = ahead;
    Ok(string)
}

/// The octet string with this tag, where one comes next. It is `Refused` with the place of an
/// element with this tag that is none, or `NoMemory`, and then the reader is as before.
pub fn option_of(
    alloc: Global,
    reader: &mut Reader,
    tag: u8,
) -> Result<Option<Octets>, ComponentFault>
    ensures exact { Gives ComponentFails (λ option. Ok (option, reader.new.left)) result
        (option_at tag reader.old.stop reader.old.left) }
    ensures stop { reader.new.stop ≡ reader.old.stop }
    ensures err { OnErr result (reader.new ≡ reader.old) }
{
    if reader.has(tag) {
        return Ok(Some(octet_string_of(alloc, reader, tag)?));
    }
    Ok(None)
}

/// The integer with this tag that comes next. Else it is `Refused` with its place, and the reader
/// is as before.
pub fn number_of(reader: &mut Reader, tag: u8) -> Result<i64, ComponentFault>
    ensures exact { Gives ComponentFails (λ number. Ok (number, reader.new.left)) result
        (number_at tag reader.old.stop reader.old.left) }
    ensures stop { reader.new.stop ≡ reader.old.stop }
    ensures err { OnErr result (reader.new ≡ reader.old) }
{
    let number = reader.integer(tag)?;
    Ok(number)
}

/// The Boolean that comes next. Else it is `Refused` with its place, and the reader is as
/// before.
pub fn boolean_of(reader: &mut Reader) -> Result<bool, ComponentFault>
    ensures exact { Gives ComponentFails (λ value. Ok (value, reader.new.left)) result
        (boolean_value_at reader.old.stop reader.old.left) }
    ensures stop { reader.new.stop ≡ reader.old.stop }
    ensures err { OnErr result (reader.new ≡ reader.old) }
{
    let value = reader.boolean(0x01)?;
    Ok(value)
}

/// The integer with this tag that comes next, which has to be within these bounds. Else it is
/// `Refused` with its place, and the reader is as before.
pub fn range_of(reader: &mut Reader, tag: u8, least: u32, most: u32) -> Result<u32, ComponentFault>
    ensures exact { Gives ComponentFails (λ number. Ok (number, reader.new.left)) result
        (range_at least most tag reader.old.stop reader.old.left) }
    ensures stop { reader.new.stop ≡ reader.old.stop }
    ensures most { IfOk result (λ number. number ≤ most) }
    ensures err { OnErr result (reader.new ≡ reader.old) }
{
    let place = reader.place();
    let mut ahead = reader.copy();
    let number = number_of(&mut ahead, tag)?;
    if number < 0 {
        return Err(ComponentFault::Refused(place));
    }
    let size = number as u64;
    if (least as u64) <= size && size <= (most as u64) {
        *reader = ahead;
        return Ok(size as u32);
    }
    Err(ComponentFault::Refused(place))
}

/// Writes an octet string with this tag where there is one. It is `NoMemory` where memory runs out,
/// and the writer is as before.
pub fn put_option(writer: &mut Writer, tag: u8, option: &Option<Octets>) -> Result<(), NoMemory>
    ensures ok { OnOk result (writer.new ≡ after_bytes writer.old (string_octets tag option.now)) }
    ensures err { OnErr result (writer.new ≡ writer.old) }
{
    match option {
        Some(string) => writer.octets(tag, string.as_slice()),
        None => Ok(()),
    }
}

/// Writes an integer with this tag. It is `NoMemory` where memory runs out, and the writer is as
/// before.
pub fn put_number(writer: &mut Writer, tag: u8, number: u32) -> Result<(), NoMemory>
    ensures ok { OnOk result (writer.new ≡ after_bytes writer.old (number_octets tag number)) }
    ensures err { OnErr result (writer.new ≡ writer.old) }
{
    writer.integer(tag, number as i64)
}
