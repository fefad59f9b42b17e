//! What an item of a filter asks of the key of a value.
ghost use Rattle.std.specs.Prelude.{◌≡◌, ◌&&◌, true, IfOk, IfSome, Some};
ghost use Rattle.std.specs.List.{list_any};
ghost use Rattle.std.specs.Option.{option_copied};
ghost use Rattle.schema_rules.specs.Keys as keys;
ghost use Rattle.schema_rules.specs.Schema as schema;
ghost use Rattle.text_keys.specs.Integer.{is_integer, integer_of, has_64_bits as is_64_bits};
ghost use Rattle.text_keys.specs.Text as text_spec;
ghost use Rattle.ldap_filter.specs.Matching as spec;
ghost use Rattle.ldap_filter.specs.Truth as truth;

use crate::filter::Pieces;
use ldap_ber::{NoMemory, Octets, OctetsList};
use schema_rules::{Attribute, AttributeType, Rule, any_has_key, known_key};
use std::alloc::{AllocError, Global};
use std::str;
use text_keys::{KeyFault, piece_key};

/// The place of a key in the order of its type.
#[derive(Drop)]
pub(crate) enum Rank {
    Number(i64),
    Instant(Octets),
}

/// The keys of the pieces of a substring filter.
#[derive(Drop)]
pub(crate) struct PieceKeys {
    initial: Option<Octets>,
    middle: OctetsList,
    last: Option<Octets>,
}

/// The type and the key that an equality asks for.
#[derive(Drop)]
pub(crate) struct AskedKey {
    pub(crate) kind: AttributeType,
    pub(crate) key: Octets,
}

/// What the key of a value has to pass.
#[derive(Drop)]
pub(crate) enum Test {
    AtLeast(Rank),
    AtMost(Rank),
    Substrings(PieceKeys),
}

/// The type of this name, where it is one that clients give.
pub(crate) fn asked_type(name: &[u8]) -> Option<AttributeType>
    ensures { result ≡ spec.asked_type name.now }
{
    let kind = AttributeType::find(name)?;
    if kind.operational() { None } else { Some(kind) }
}

/// What an equality of this name and value asks for, where the name is that of a type that clients
/// give, and the value is of its syntax.
pub(crate) fn asked_key(
    alloc: Global,
    name: &[u8],
    value: &[u8],
) -> Result<Option<AskedKey>, NoMemory>
    ensures { IfOk result (λ asked. asked ≡ spec.asked_key name.now value.now) }
{
    let Some(kind) = asked_type(name) else {
        return Ok(None);
    };
    match known_key(alloc, kind, value)? {
        None => Ok(None),
        Some(key) => Ok(Some(AskedKey { kind, key })),
    }
}

pub(crate) fn at_least_test(
    alloc: Global,
    kind: AttributeType,
    value: &[u8],
) -> Result<Option<Test>, NoMemory>
    ensures { IfOk result (λ test. test ≡ spec.at_least_test kind value.now) }
{
    match rank_of(alloc, kind, value)? {
        None => Ok(None),
        Some(rank) => Ok(Some(Test::AtLeast(rank))),
    }
}

pub(crate) fn at_most_test(
    alloc: Global,
    kind: AttributeType,
    value: &[u8],
) -> Result<Option<Test>, NoMemory>
    ensures { IfOk result (λ test. test ≡ spec.at_most_test kind value.now) }
{
    match rank_of(alloc, kind, value)? {
        None => Ok(None),
        Some(rank) => Ok(Some(Test::AtMost(rank))),
    }
}

pub(crate) fn substrings_test(
    alloc: Global,
    kind: AttributeType,
    pieces: &Pieces,
) -> Result<Option<Test>, NoMemory>
    ensures { IfOk result
        (λ test.
        test ≡ spec.substrings_test kind pieces.now.initial pieces.now.middle pieces.now.last) }
{
    match keys_of_pieces(alloc, kind.rule(), pieces)? {
        None => Ok(None),
        Some(keys) => Ok(Some(Test::Substrings(keys))),
    }
}

/// Whether some value of the type has the key.
pub(crate) fn has_keyed(
    alloc: Global,
    attributes: &[Attribute],
    kind: AttributeType,
    key: &[u8],
) -> Result<bool, NoMemory>
    ensures { IfOk result (λ found. found ≡ truth.has_keyed attributes.now kind key.now) }
{
    for attribute in attributes {
        if attribute.kind == kind && any_has_key(alloc, kind, key, attribute.values.list())? {
            return Ok(true);
        }
    }
    Ok(false)
}

/// Whether some value of the type passes the test.
pub(crate) fn has_match(
    alloc: Global,
    attributes: &[Attribute],
    kind: AttributeType,
    test: &Test,
) -> Result<bool, NoMemory>
    ensures { IfOk result (λ found. found ≡ truth.has_match attributes.now kind test.now) }
{
    for attribute in attributes {
        if attribute.kind == kind && any_matches(alloc, attribute.values.list(), kind, test)? {
            return Ok(true);
        }
    }
    Ok(false)
}

fn any_matches(
    alloc: Global,
    values: &[Octets],
    kind: AttributeType,
    test: &Test,
) -> Result<bool, NoMemory>
    ensures { IfOk result (λ found. found ≡ list_any (spec.matches kind test.now) values.now) }
{
    for value in values {
        if matches(alloc, value, kind, test)? {
            return Ok(true);
        }
    }
    Ok(false)
}

fn matches(
    alloc: Global,
    value: &Octets,
    kind: AttributeType,
    test: &Test,
) -> Result<bool, NoMemory>
    ensures { IfOk result (λ found. found ≡ spec.matches kind test.now value.now) }
{
    match key_of(alloc, kind, value.as_slice())? {
        None => Ok(false),
        Some(key) => Ok(test.passes(kind.rule(), key)),
    }
}

impl Test {
    fn passes(&self, rule: Rule, key: Octets) -> bool
        requires { spec.IsKey rule key }
        ensures { result ≡ spec.passes rule self.now key }
    {
        match self {
            Test::AtLeast(least) => match rank_by(rule, key) {
                None => false,
                Some(rank) => is_at_most(least, &rank),
            },
            Test::AtMost(most) => match rank_by(rule, key) {
                None => false,
                Some(rank) => is_at_most(&rank, most),
            },
            Test::Substrings(pieces) => pieces.stand_in(key.as_slice()),
        }
    }
}

/// The key of a value, or nothing where the value is not of its type's syntax.
#[tactic(auto, using(crate::proofs::Keys::number_key))]
fn key_of(alloc: Global, kind: AttributeType, value: &[u8]) -> Result<Option<Octets>, NoMemory>
    ensures key { IfOk result (λ key. key ≡ keys.key_of kind value.now) }
    ensures is_key { IfOk result (λ key. IfSome key (spec.IsKey (schema.type_rule kind))) }
{
    match known_key(alloc, kind, value)? {
        None => Ok(None),
        Some(key) => Ok(Some(key)),
    }
}

// ---- order

/// The rank of a value, where its type has an order and the value is of its syntax.
fn rank_of(alloc: Global, kind: AttributeType, value: &[u8]) -> Result<Option<Rank>, NoMemory>
    ensures { IfOk result (λ rank. rank ≡ spec.rank_of kind value.now) }
{
    match key_of(alloc, kind, value)? {
        None => Ok(None),
        Some(key) => Ok(rank_by(kind.rule(), key)),
    }
}

fn rank_by(rule: Rule, key: Octets) -> Option<Rank>
    requires { spec.IsKey rule key }
    ensures { result ≡ spec.rank_by rule key }
{
    match rule {
        Rule::Whole => Some(Rank::Number(number_of(key.as_slice()))),
        Rule::Time => Some(Rank::Instant(key)),
        Rule::Class | Rule::Folded | Rule::FoldedAscii => None,
        Rule::ExactAscii | Rule::Flag | Rule::Operational => None,
    }
}

/// The number that an integer's text writes.
fn number_of(key: &[u8]) -> i64
    requires { (is_integer key.now && is_64_bits (integer_of key.now)) ≡ true }
    ensures { result ≡ integer_of key.now }
{
    match str::from_utf8(key) {
        Ok(text) => match text.parse::<i64>() {
            Ok(number) => number,
            Err(_) => unreachable!(),
        },
        Err(_) => unreachable!(),
    }
}

fn is_at_most(low: &Rank, high: &Rank) -> bool
    ensures { result ≡ spec.is_at_most low.now high.now }
{
    match low {
        Rank::Number(least) => match high {
            Rank::Number(most) => least <= most,
            Rank::Instant(_) => false,
        },
        Rank::Instant(earliest) => match high {
            Rank::Number(_) => false,
            Rank::Instant(latest) => earliest.as_slice().cmp(latest.as_slice()).is_le(),
        },
    }
}

// ---- substrings

fn keys_of_pieces(alloc: Global, rule: Rule, pieces: &Pieces) -> Result<Option<PieceKeys>, NoMemory>
    ensures { IfOk result
        (λ keys.
        keys ≡ spec.keys_of_pieces rule pieces.now.initial pieces.now.middle pieces.now.last) }
{
    let Some(initial) = end_key(alloc, rule, &pieces.initial, true, false)? else {
        return Ok(None);
    };
    let Some(middle) = middle_keys(alloc, rule, pieces.middle.list())? else {
        return Ok(None);
    };
    let Some(last) = end_key(alloc, rule, &pieces.last, false, true)? else {
        return Ok(None);
    };
    Ok(Some(PieceKeys {
        initial,
        middle,
        last,
    }))
}

/// The key of the first or the last piece, where it is there.
fn end_key(
    alloc: Global,
    rule: Rule,
    piece: &Option<Octets>,
    first: bool,
    last: bool,
) -> Result<Option<Option<Octets>>, NoMemory>
    ensures { IfOk result (λ key. key ≡ spec.end_key rule piece.now first last) }
{
    match piece {
        None => Ok(Some(None)),
        Some(piece) => match piece_key_by(alloc, rule, piece.as_slice(), first, last)? {
            None => Ok(None),
            Some(key) => Ok(Some(Some(key))),
        },
    }
}

fn middle_keys(alloc: Global, rule: Rule, pieces: &[Octets]) -> Result<Option<OctetsList>, NoMemory>
    ensures { IfOk result (λ keys. keys ≡ spec.middle_keys rule pieces.now) }
{
    let mut keys = OctetsList::new(alloc);
    for piece in pieces {
        let Some(key) = piece_key_by(alloc, rule, piece.as_slice(), false, false)? else {
            return Ok(None);
        };
        keys.push(key)?;
    }
    Ok(Some(keys))
}

/// The key of a piece, or nothing where the rule takes no substrings or not these bytes.
fn piece_key_by(
    alloc: Global,
    rule: Rule,
    piece: &[u8],
    first: bool,
    last: bool,
) -> Result<Option<Octets>, NoMemory>
    ensures { IfOk result (λ key. key ≡ spec.piece_key_by rule piece.now first last) }
{
    match rule {
        Rule::Folded => text_key(alloc, piece, true, first, last),
        Rule::FoldedAscii | Rule::ExactAscii if !is_ascii(piece) => Ok(None),
        Rule::FoldedAscii => text_key(alloc, piece, true, first, last),
        Rule::ExactAscii => text_key(alloc, piece, false, first, last),
        Rule::Class | Rule::Whole | Rule::Flag | Rule::Time | Rule::Operational => Ok(None),
    }
}

fn text_key(
    alloc: Global,
    piece: &[u8],
    fold: bool,
    first: bool,
    last: bool,
) -> Result<Option<Octets>, NoMemory>
    ensures { IfOk result (λ key. key ≡ text_spec.piece_key piece.now fold first last) }
{
    match piece_key(alloc, piece, fold, first, last) {
        Ok(key) => Ok(Some(Octets::from(key))),
        Err(KeyFault::NotUtf8 | KeyFault::NotOfSyntax) => Ok(None),
        Err(KeyFault::NoMemory) => Err(AllocError),
    }
}

fn is_ascii(piece: &[u8]) -> bool
    ensures { result ≡ keys.is_ascii piece.now }
{
    piece.iter().all(|byte| *byte < 128)
}

impl PieceKeys {
    /// Whether the pieces stand in the text, in order and without overlap.
    fn stand_in(&self, text: &[u8]) -> bool
        ensures { result ≡ spec.has_pieces self.now text.now }
    {
        let Some(text) = after_initial(&self.initial, text) else {
            return false;
        };
        let Some(text) = after_all(self.middle.list(), text) else {
            return false;
        };
        has_last(&self.last, text)
    }
}

fn after_initial<'a>(piece: &Option<Octets>, text: &'a [u8]) -> Option<&'a [u8]>
    ensures { option_copied result ≡ spec.after_initial piece.now text.now }
{
    match piece {
        None => Some(text),
        Some(piece) => after_prefix(piece.as_slice(), text),
    }
}

/// What stands after the piece, where the text begins with it.
fn after_prefix<'a>(piece: &[u8], text: &'a [u8]) -> Option<&'a [u8]>
    ensures { option_copied result ≡ spec.after_prefix piece.now text.now }
{
    if text.starts_with(piece) {
        Some(text.split_at(piece.len()).1)
    } else {
        None
    }
}

/// What stands after the first place of the piece.
#[tactic(auto, using(crate::proofs::After::after_first_here))]
fn after_first<'a>(piece: &[u8], text: &'a [u8]) -> Option<&'a [u8]>
    ensures { option_copied result ≡ spec.after_first piece.now text.now }
{
    let mut rest = text;
    loop {
        if rest.starts_with(piece) {
            return Some(rest.split_at(piece.len()).1);
        }
        match rest.split_first() {
            None => return None,
            Some((_, later)) => rest = later,
        }
    }
}

fn after_all<'a>(pieces: &[Octets], text: &'a [u8]) -> Option<&'a [u8]>
    ensures { option_copied result ≡ spec.after_all pieces.now text.now }
{
    let mut rest = text;
    for piece in pieces {
        match after_first(piece.as_slice(), rest) {
            None => return None,
            Some(later) => rest = later,
        }
    }
    Some(rest)
}

fn has_last(piece: &Option<Octets>, text: &[u8]) -> bool
    ensures { result ≡ spec.has_last piece.now text.now }
{
    match piece {
        None => true,
        Some(piece) => text.ends_with(piece.as_slice()),
    }
}
