//! The bytes of a filter's text.
ghost use Rattle.std.specs.Prelude.{◌≡◌, ◌<◌, ◌≤◌, length, IfSome};
ghost use Rattle.std.specs.Str.Lossy.{utf8_valid_len};
ghost use Rattle.ldap_filter.specs.Grammar as spec;

use std::str;

/// Whether the bytes are those of a type, one at least.
pub(crate) fn is_type(name: &[u8]) -> bool
    ensures { result ≡ spec.is_type name.now }
{
    !name.is_empty() && all_type_bytes(name)
}

fn all_type_bytes(name: &[u8]) -> bool
    ensures { result ≡ spec.all_type_bytes name.now }
{
    name.iter().all(|byte| is_type_byte(*byte))
}

/// A letter, a digit, `-`, `.` or `;`.
pub(crate) fn is_type_byte(byte: u8) -> bool
    ensures { result ≡ spec.is_type_byte byte }
{
    is_letter_or_digit(byte) || matches!(byte, b'-' | b'.' | b';')
}

fn is_letter_or_digit(byte: u8) -> bool
    ensures { result ≡ spec.is_letter_or_digit byte }
{
    matches!(byte, b'a'..=b'z' | b'A'..=b'Z' | b'0'..=b'9')
}

/// What a value does not hold by itself: NUL, `(`, `)`, `*` and `\`.
pub(crate) fn is_special(byte: u8) -> bool
    ensures { result ≡ spec.is_special byte }
{
    matches!(byte, 0 | b'(' | b')' | b'*' | b'\\')
}

/// The number that a hexadecimal digit stands for.
pub(crate) fn hex_value(byte: u8) -> Option<u8>
    ensures value { result ≡ spec.hex_value byte }
    ensures small { IfSome result (λ digit. digit < 16) }
{
    match byte {
        b'0'..=b'9' => Some(byte - b'0'),
        b'a'..=b'f' => Some(byte - b'a' + 10),
        b'A'..=b'F' => Some(byte - b'A' + 10),
        _ => None,
    }
}

/// The length of the longest prefix that is UTF-8 text.
#[tactic(auto, using(crate::proofs::Utf8::whole_text, std::proofs::lemmas::Str::utf8_valid_len_le))]
pub(crate) fn text_len(bytes: &[u8]) -> usize
    ensures len { result ≡ utf8_valid_len bytes.now }
    ensures within { result ≤ length bytes.now }
{
    match str::from_utf8(bytes) {
        Ok(_) => bytes.len(),
        Err(error) => error.valid_up_to(),
    }
}
