//! The values of a name's text (RFC 4514, sections 2.4 and 3).
ghost use Rattle.std.specs.Prelude.{◌≡◌, ◌≤◌, length, option_map, IfOk};
ghost use Rattle.std.specs.Option.{option_copied};
ghost use Rattle.std.specs.Result.{result_ok};
ghost use Rattle.hex.specs.Hex.{decode_of};
ghost use Rattle.dn_names.specs.Reading as spec;

use crate::name_chars::NameChar;
use hex::FromHexError;
use ldap_ber::NoMemory;
use std::alloc::{AllocError, Global};

/// The octets of a value, or None where the characters are not a value.
pub(crate) fn octets_of(alloc: Global, chars: &[NameChar]) -> Result<Option<Vec<u8>>, NoMemory>
    ensures { IfOk result
        (λ octets. option_map (λ v. v.items) octets ≡ spec.octets_of_chars chars.now) }
{
    match chars {
        [] => Ok(Some(Vec::new(alloc))),
        [first, digits @ ..] => {
            if first.is_plain(b'#') {
                hex_value(alloc, digits)
            } else {
                string_bytes(alloc, chars)
            }
        }
    }
}

/// The bytes of a string, or None where a character has no place in one.
fn string_bytes(alloc: Global, chars: &[NameChar]) -> Result<Option<Vec<u8>>, NoMemory>
    ensures { IfOk result (λ octets.
        option_map (λ v. v.items) octets ≡ spec.each_some spec.string_byte chars.now) }
{
    let mut bytes = Vec::with_capacity(alloc, chars.len())?;
    for name_char in chars {
        match string_byte(*name_char) {
            Some(byte) => bytes.push(byte)?,
            None => return Ok(None),
        }
    }
    Ok(Some(bytes))
}

/// The bytes of characters that all stand for themselves, or None.
pub(crate) fn plain_bytes(alloc: Global, chars: &[NameChar]) -> Result<Option<Vec<u8>>, NoMemory>
    ensures { IfOk result (λ octets.
        option_map (λ v. v.items) octets ≡ spec.each_some spec.plain_byte chars.now) }
{
    let mut bytes = Vec::with_capacity(alloc, chars.len())?;
    for name_char in chars {
        match plain_byte(*name_char) {
            Some(byte) => bytes.push(byte)?,
            None => return Ok(None),
        }
    }
    Ok(Some(bytes))
}

fn string_byte(name_char: NameChar) -> Option<u8>
    ensures { result ≡ spec.string_byte name_char }
{
    match name_char {
        NameChar::Plain(byte) => { if is_refused(byte) { None } else { Some(byte) } }
        NameChar::Escaped(byte) => Some(byte),
        NameChar::Hexadecimal(byte) => Some(byte),
        NameChar::Stray => None,
    }
}

fn plain_byte(name_char: NameChar) -> Option<u8>
    ensures { result ≡ spec.plain_byte name_char }
{
    match name_char {
        NameChar::Plain(byte) => Some(byte),
        NameChar::Escaped(_) => None,
        NameChar::Hexadecimal(_) => None,
        NameChar::Stray => None,
    }
}

/// Whether a string may not have the byte unescaped.
fn is_refused(byte: u8) -> bool
    ensures { result ≡ spec.is_refused byte }
{
    matches!(byte, 0 | b'"' | b'+' | b',' | b';' | b'<' | b'>')
}

/// The body of the element that the digits give, or None where they give none.
fn hex_value(alloc: Global, digits: &[NameChar]) -> Result<Option<Vec<u8>>, NoMemory>
    ensures { IfOk result (λ octets. option_map (λ v. v.items) octets ≡ spec.hex_value digits.now) }
{
    let Some(text) = plain_bytes(alloc, digits)? else {
        return Ok(None);
    };
    let Some(element) = decoded(alloc, text.as_slice())? else {
        return Ok(None);
    };
    match string_body(element.as_slice()) {
        Some(body) => Ok(Some(Vec::from_slice(alloc, body)?)),
        None => Ok(None),
    }
}

/// The bytes that the hexadecimal digits write, or None.
fn decoded(alloc: Global, text: &[u8]) -> Result<Option<Vec<u8>>, NoMemory>
    ensures { IfOk result (λ octets.
        option_map (λ v. v.items) octets ≡ result_ok (decode_of text.now)) }
{
    match hex::decode(alloc, text) {
        Ok(bytes) => Ok(Some(bytes)),
        Err(FromHexError::OutOfMemory) => Err(AllocError),
        Err(_) => Ok(None),
    }
}

/// The body of one whole element with a tag of a string, in a definite length of up to four more
/// octets (X.690, section 8.1.3).
fn string_body(element: &[u8]) -> Option<&[u8]>
    ensures { option_copied result ≡ spec.string_body element.now }
{
    match element {
        [] => None,
        [_] => None,
        [tag, count, rest @ ..] => {
            if is_string_tag(*tag) {
                sized_body(*count, rest)
            } else {
                None
            }
        }
    }
}

fn is_string_tag(tag: u8) -> bool
    ensures { result ≡ spec.is_string_tag tag }
{
    matches!(tag, 4 | 12 | 19 | 22)
}

fn sized_body(count: u8, rest: &[u8]) -> Option<&[u8]>
    ensures { option_copied result ≡ spec.sized_body count rest.now }
{
    if count < 128 {
        return body_of(count as u64, rest);
    }
    let octets = (count - 128) as usize;
    if count > 128 && (count <= 132 && octets <= rest.len()) {
        let (length, body) = rest.split_at(octets);
        body_of(length_of(length), body)
    } else {
        None
    }
}

/// The body, where it has this length.
fn body_of(count: u64, body: &[u8]) -> Option<&[u8]>
    ensures { option_copied result ≡ spec.body_of count body.now }
{
    if body.len() as u64 == count {
        Some(body)
    } else {
        None
    }
}

/// The number that the octets of a length write.
fn length_of(octets: &[u8]) -> u64
    requires { length octets.now ≤ 4 }
    ensures { result ≡ spec.length_of octets.now }
{
    let mut sum: u64 = 0;
    for octet in octets {
        sum = sum * 256 + *octet as u64;
    }
    sum
}
