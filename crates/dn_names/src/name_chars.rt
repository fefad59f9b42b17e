//! The characters of a name's text: bytes that stand for themselves, and escapes (RFC 4514,
//! section 3).
ghost use Rattle.std.specs.Prelude.{◌≡◌, ◌-◌, ◌^◌, ◌<◌, false, true, [], ◌∷◌, length, drop, nat_eq, codes, MatchOption, IfSome, is_some, IfOk, position};
ghost use Rattle.std.specs.List.{list_any, before_first, after_first};
ghost use Rattle.hex.specs.Hex.{hex_digit_value};
ghost use Rattle.dn_names.specs.Reading as spec;

use ldap_ber::NoMemory;
use std::alloc::Global;

/// A byte of a name's text that stands for itself, or an escape.
#[derive(Clone, Copy, Debug, PartialEq, Eq)]
pub(crate) enum NameChar {
    Plain(u8),
    /// A backslash and the byte.
    Escaped(u8),
    /// A backslash and the byte in two hexadecimal digits.
    Hexadecimal(u8),
    /// A backslash that escapes nothing.
    Stray,
}

impl NameChar {
    /// Whether it is this byte, unescaped.
    pub(crate) fn is_plain(self, byte: u8) -> bool
        ensures { result ≡ spec.is_plain byte self }
    {
        match self {
            NameChar::Plain(own) => own == byte,
            NameChar::Escaped(_) => false,
            NameChar::Hexadecimal(_) => false,
            NameChar::Stray => false,
        }
    }

    /// How many bytes it has.
    fn width(self) -> usize
        ensures { result ≡ spec.char_width self }
    {
        match self {
            NameChar::Plain(_) => 1,
            NameChar::Escaped(_) => 2,
            NameChar::Hexadecimal(_) => 3,
            NameChar::Stray => 1,
        }
    }
}

/// How many bytes the characters have.
pub(crate) fn width_of(chars: &[NameChar]) -> usize
    requires { spec.chars_width chars.now < 2 ^ 64 }
    ensures { result ≡ spec.chars_width chars.now }
{
    chars.iter().map(|name_char| name_char.width()).sum()
}

/// The characters of a text.
pub(crate) fn chars_of(alloc: Global, text: &[u8]) -> Result<Vec<NameChar>, NoMemory>
    ensures value { IfOk result (λ chars. chars.items ≡ spec.chars_of text.now) }
    ensures width { spec.chars_width (spec.chars_of text.now) ≡ length text.now }
{
    let mut chars = Vec::with_capacity(alloc, text.len())?;
    let mut rest = text;
    while let Some((name_char, after)) = first_char(rest) {
        chars.push(name_char)?;
        rest = after;
    }
    Ok(chars)
}

/// The first character of a text, and what follows it.
fn first_char(text: &[u8]) -> Option<(NameChar, &[u8])>
    ensures value { MatchOption result (spec.chars_of text.now ≡ []) (λ found.
        spec.chars_of text.now ≡ found.0 ∷ spec.chars_of found.1.now) }
    ensures shorter { MatchOption result (length text.now ≡ 0) (λ found.
        length found.1.now < length text.now) }
{
    match text {
        [] => None,
        [byte, rest @ ..] => Some(char_of(*byte, rest)),
    }
}

/// The character that begins with this byte, and what follows it in the rest.
fn char_of(byte: u8, rest: &[u8]) -> (NameChar, &[u8])
    ensures name_char { result.0 ≡ spec.char_of byte rest.now }
    ensures rest { result.1.now ≡ drop (spec.char_width (spec.char_of byte rest.now) - 1) rest.now }
{
    if byte == b'\\' {
        escape(rest)
    } else {
        (NameChar::Plain(byte), rest)
    }
}

/// The character of a backslash before these bytes, and what follows it.
fn escape(text: &[u8]) -> (NameChar, &[u8])
    ensures name_char { result.0 ≡ spec.escape text.now }
    ensures rest { result.1.now ≡ drop (spec.char_width (spec.escape text.now) - 1) text.now }
{
    match text {
        [] => (NameChar::Stray, text),
        [byte] => {
            if is_escapable(*byte) {
                (NameChar::Escaped(*byte), &text[1..])
            } else {
                (NameChar::Stray, text)
            }
        }
        [byte, next, after @ ..] => {
            if is_escapable(*byte) {
                return (NameChar::Escaped(*byte), &text[1..]);
            }
            match (hex_digit(*byte), hex_digit(*next)) {
                (Some(high), Some(low)) => (NameChar::Hexadecimal(high * 16 + low), after),
                _ => (NameChar::Stray, text),
            }
        }
    }
}

/// Whether a backslash may stand before the byte itself.
fn is_escapable(byte: u8) -> bool
    ensures { result ≡ spec.is_escapable byte }
{
    matches!(
        byte,
        b' ' | b'"' | b'#' | b'+' | b',' | b';' | b'<' | b'=' | b'>' | b'\\'
    )
}

fn hex_digit(byte: u8) -> Option<u8>
    ensures value { result ≡ hex_digit_value byte }
    ensures small { IfSome result (λ digit. digit < 16) }
{
    match byte {
        b'A'..=b'F' => Some(byte - b'A' + 10),
        b'a'..=b'f' => Some(byte - b'a' + 10),
        b'0'..=b'9' => Some(byte - b'0'),
        _ => None,
    }
}

/// What stands before the first mark that is not escaped, and what stands after it.
pub(crate) fn cut(chars: &[NameChar], mark: u8) -> (&[NameChar], Option<&[NameChar]>)
    ensures prefix { result.0.now ≡ before_first (spec.is_plain mark) chars.now }
    ensures found { is_some result.1 ≡ list_any (spec.is_plain mark) chars.now }
    ensures back { MatchOption result.1 (list_any (spec.is_plain mark) chars.now ≡ false) (λ after.
        (list_any (spec.is_plain mark) chars.now ≡ true)
        × (after.now ≡ after_first (spec.is_plain mark) chars.now)) }
{
    match place_of(chars, mark) {
        Some(place) => (&chars[..place], Some(&chars[place + 1..])),
        None => (chars, None),
    }
}

/// The place of the first mark that is not escaped.
fn place_of(chars: &[NameChar], mark: u8) -> Option<usize>
    ensures value { result ≡ position (spec.is_plain mark) chars.now }
    ensures within { IfSome result (λ place. place < length chars.now) }
{
    chars.iter().position(|name_char| name_char.is_plain(mark))
}

#[tactic(auto, using(crate::proofs::Cuts::leading))]
pub(crate) fn without_leading_spaces(chars: &[NameChar]) -> &[NameChar]
    ensures { result.now ≡ spec.without_leading_spaces chars.now }
{
    let mut rest = chars;
    while let Some((first, after)) = rest.split_first() {
        if !first.is_plain(b' ') {
            break;
        }
        rest = after;
    }
    rest
}

#[tactic(auto, using(crate::proofs::Cuts::trailing))]
pub(crate) fn without_trailing_spaces(chars: &[NameChar]) -> &[NameChar]
    ensures { result.now ≡ spec.without_trailing_spaces chars.now }
{
    let mut rest = chars;
    while let Some((last, before)) = rest.split_last() {
        if !last.is_plain(b' ') {
            break;
        }
        rest = before;
    }
    rest
}
