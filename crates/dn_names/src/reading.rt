//! RDNs and pairs read from characters (RFC 4514, section 3).
ghost use Rattle.std.specs.Prelude.{◌≡◌, ◌==◌, false, Some, Ok, Err, IfOk, IfErr};
ghost use Rattle.std.specs.List.{list_all, slice_split};
ghost use Rattle.std.specs.Char.{is_ascii_digit};
ghost use Rattle.schema_rules.specs.Schema.{is_operational};
ghost use Rattle.text_keys.specs.Integer as integer;
ghost use Rattle.dn_names.specs.Reading as spec;

use crate::fault::NameFault;
use crate::name_chars::{NameChar, cut, without_leading_spaces, without_trailing_spaces};
use crate::pair::Pair;
use crate::values::{octets_of, plain_bytes};
use ldap_ber::Octets;
use schema_rules::{AttributeType, key_of};
use std::alloc::Global;
use text_keys::KeyFault;

/// Reads the pairs of an RDN that stands at this place; `ended` says that a comma follows.
pub(crate) fn read_pairs(
    alloc: Global,
    place: usize,
    ended: bool,
    chars: &[NameChar],
) -> Result<Vec<Pair>, NameFault>
    ensures ok { IfOk result (λ pairs.
        spec.pairs_of place ended (slice_split (spec.is_plain 43) chars.now) ≡ Ok pairs.items) }
    ensures fault { IfErr result (spec.IsNameFault
        (spec.pairs_of place ended (slice_split (spec.is_plain 43) chars.now))) }
{
    let mut pairs = Vec::with_capacity(alloc, 1)?;
    let mut rest = chars;
    'pairs: loop {
        let (part, more) = cut(rest, b'+');
        match more {
            Some(after) => {
                pairs.push(read_pair(alloc, place, true, part)?)?;
                rest = after;
            }
            None => {
                pairs.push(read_pair(alloc, place, ended, part)?)?;
                return Ok(pairs);
            }
        }
    }
}

/// Reads a pair; `ended` says that a separator follows.
fn read_pair(
    alloc: Global,
    place: usize,
    ended: bool,
    chars: &[NameChar],
) -> Result<Pair, NameFault>
    ensures ok { IfOk result (λ pair. spec.pair_of place ended chars.now ≡ Ok pair) }
    ensures fault { IfErr result (spec.IsNameFault (spec.pair_of place ended chars.now)) }
{
    let (name, Some(value)) = cut(chars, b'=') else {
        return Err(NameFault::BadName(place));
    };
    let kind = read_type(alloc, place, name)?;
    read_value(alloc, place, kind, value_chars(ended, value))
}

/// The characters of a value, without the spaces that are dropped.
fn value_chars(ended: bool, chars: &[NameChar]) -> &[NameChar]
    ensures { result.now ≡ spec.value_chars ended chars.now }
{
    let rest = without_leading_spaces(chars);
    if ended {
        without_trailing_spaces(rest)
    } else {
        rest
    }
}

/// Reads a type that is in the schema and not operational.
fn read_type(alloc: Global, place: usize, chars: &[NameChar]) -> Result<AttributeType, NameFault>
    ensures ok { IfOk result (λ kind. spec.type_of place chars.now ≡ Ok kind) }
    ensures fault { IfErr result (spec.IsNameFault (spec.type_of place chars.now)) }
    ensures known { IfOk result (λ kind. is_operational kind ≡ false) }
{
    let trimmed = without_trailing_spaces(without_leading_spaces(chars));
    let Some(name) = plain_bytes(alloc, trimmed)? else {
        return Err(NameFault::BadName(place));
    };
    match AttributeType::find(name.as_slice()) {
        Some(kind) => {
            if kind.operational() {
                Err(NameFault::UnknownType(place))
            } else {
                Ok(kind)
            }
        }
        None => Err(unknown_type(place, name.as_slice())),
    }
}

/// Why a name that no type has is refused.
fn unknown_type(place: usize, name: &[u8]) -> NameFault
    ensures { Err result ≡ spec.unknown_type place name.now }
{
    if is_descriptor(name) || is_numeric_oid(name) {
        NameFault::UnknownType(place)
    } else {
        NameFault::BadName(place)
    }
}

/// A letter, and then letters, digits and hyphens (RFC 4512, section 1.4).
fn is_descriptor(name: &[u8]) -> bool
    ensures { result ≡ spec.is_descriptor name.now }
{
    match name {
        [] => false,
        [first, rest @ ..] => first.is_ascii_alphabetic() && are_keychars(rest),
    }
}

fn are_keychars(text: &[u8]) -> bool
    ensures { result ≡ list_all spec.is_keychar text.now }
{
    text.iter().all(|byte| is_keychar(*byte))
}

fn is_keychar(byte: u8) -> bool
    ensures { result ≡ spec.is_keychar byte }
{
    byte.is_ascii_alphanumeric() || byte == b'-'
}

/// Numbers with dots between them, two at least (RFC 4512, section 1.4).
fn is_numeric_oid(name: &[u8]) -> bool
    ensures { result ≡ spec.is_numeric_oid name.now }
{
    name.contains(&b'.') && are_numbers(name)
}

/// Whether the parts between dots are numbers.
fn are_numbers(name: &[u8]) -> bool
    ensures { result ≡ list_all integer.is_number (slice_split (λ byte. byte == 46) name.now) }
{
    name.split(|byte| *byte == b'.').all(is_number)
}

/// Digits, the first of which is zero only where it stands alone (RFC 4512, section 1.4).
#[tactic(auto, using(crate::proofs::Cuts::all_digits))]
fn is_number(text: &[u8]) -> bool
    ensures { result ≡ integer.is_number text.now }
{
    match text {
        [] => false,
        [first, rest @ ..] => are_digits(text) && (*first != b'0' || rest.is_empty()),
    }
}

fn are_digits(text: &[u8]) -> bool
    ensures { result ≡ list_all is_ascii_digit text.now }
{
    text.iter().all(|byte| byte.is_ascii_digit())
}

/// Reads a value of the type's syntax.
fn read_value(
    alloc: Global,
    place: usize,
    kind: AttributeType,
    chars: &[NameChar],
) -> Result<Pair, NameFault>
    requires { is_operational kind ≡ false }
    ensures ok { IfOk result (λ pair.
        (pair.kind ≡ kind) × (spec.value_of kind chars.now ≡ Some pair.value)) }
    ensures fault { IfErr result
        (spec.IsNameFault (spec.or_bad place (spec.value_of kind chars.now))) }
{
    let Some(value) = octets_of(alloc, chars)? else {
        return Err(NameFault::BadName(place));
    };
    match key_of(alloc, kind, value.as_slice()) {
        Ok(key) => Ok(Pair::new(kind, Octets::from(value), Octets::from(key))),
        Err(KeyFault::NoMemory) => Err(NameFault::NoMemory),
        Err(KeyFault::NotUtf8) => Err(NameFault::BadName(place)),
        Err(KeyFault::NotOfSyntax) => Err(NameFault::BadName(place)),
    }
}
