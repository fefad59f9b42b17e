//! Writing a filter's text (RFC 4515, section 3).
ghost use Rattle.std.specs.Prelude.{◌≡◌, ◌≤◌, Ok, ◌<◌, ◌++◌, ◌∷◌, [], true, map, OnOk, IfOk, IfErr};
ghost use Rattle.std.specs.List.{flat_map, list_all};
ghost use Rattle.ldap_filter.specs.Fault.{Lacks};
ghost use Rattle.ldap_filter.specs.Grammar as grammar;
ghost use Rattle.ldap_filter.specs.Reading.{read_filter};
ghost use Rattle.ldap_filter.specs.FilterTree.{tree_of, trees, parts_of, depth};
ghost use Rattle.ldap_filter.specs.Writing as spec;

use crate::fault::FilterFault;
use crate::filter::{Filter, FilterList, Pieces};
use crate::grammar::{is_special, is_type, text_len};
use ldap_ber::{NoMemory, Octets};
use std::alloc::Global;

impl Filter {
    /// The text of the filter, which is read again as the same filter where that is not too deep
    /// (RFC 4515, section 3). `NoText` comes where the filter holds an extensible match, a type
    /// with other bytes than letters, digits, `-`, `.` and `;` or without a byte, or an empty piece
    /// of a substring filter. It is `NoMemory` where memory runs out.
    pub fn write_text(&self, alloc: Global) -> Result<Octets, FilterFault>
        ensures text { IfOk result (λ text. text ≡ spec.text_of (tree_of self.now)) }
        ensures ok { OnOk result (spec.has_text (tree_of self.now) ≡ true) }
        ensures fault { IfErr result (Lacks (spec.has_text (tree_of self.now))) }
        ensures read_again { IfOk result
            (λ text. depth (tree_of self.now) ≤ 32 → read_filter text ≡ Ok (tree_of self.now)) }
    {
        let mut text = Vec::new(alloc);
        self.put(&mut text)?;
        Ok(Octets::from(text))
    }

    #[cycle(writing)]
    fn put(&self, text: &mut Vec<u8>) -> Result<(), FilterFault>
        ensures text { OnOk result
            (text.new.items ≡ text.old.items ++ spec.text_of (tree_of self.now)) }
        ensures ok { OnOk result (spec.has_text (tree_of self.now) ≡ true) }
        ensures sound { OnOk result (spec.is_sound (tree_of self.now) ≡ true) }
        ensures fault { IfErr result (Lacks (spec.has_text (tree_of self.now))) }
    {
        match self {
            Filter::And(parts) => parts.put(text, b'&'),
            Filter::Or(parts) => parts.put(text, b'|'),
            Filter::Not(part) => {
                text.extend_from_slice(b"(!")?;
                part.put(text)?;
                text.push(b')')?;
                Ok(())
            }
            Filter::Equal(equality) => put_item(text, &equality.name, b"=", &equality.value),
            Filter::Substrings(name, pieces) => put_substrings(text, name, pieces),
            Filter::AtLeast(name, value) => put_item(text, name, b">=", value),
            Filter::AtMost(name, value) => put_item(text, name, b"<=", value),
            Filter::Present(name) => put_presence(text, name),
            Filter::Approx(equality) => put_item(text, &equality.name, b"~=", &equality.value),
            Filter::Extensible(_) => Err(FilterFault::NoText),
        }
    }
}

impl FilterList {
    /// The list after the sign of its filter.
    #[cycle(writing)]
    fn put(&self, text: &mut Vec<u8>, sign: u8) -> Result<(), FilterFault>
        ensures text { OnOk result (text.new.items
            ≡ text.old.items
            ++ spec.enclosed (sign ∷ spec.texts_of (trees (map tree_of (parts_of self.now))))) }
        ensures ok { OnOk result
            (spec.have_texts (trees (map tree_of (parts_of self.now))) ≡ true) }
        ensures sound { OnOk result
            (spec.are_sound (trees (map tree_of (parts_of self.now))) ≡ true) }
        ensures fault { IfErr result
            (Lacks (spec.have_texts (trees (map tree_of (parts_of self.now))))) }
    {
        text.push(b'(')?;
        text.push(sign)?;
        self.put_each(text)?;
        text.push(b')')?;
        Ok(())
    }

    #[cycle(writing)]
    fn put_each(&self, text: &mut Vec<u8>) -> Result<(), FilterFault>
        ensures text { OnOk result (text.new.items
            ≡ text.old.items ++ spec.texts_of (trees (map tree_of (parts_of self.now)))) }
        ensures ok { OnOk result
            (spec.have_texts (trees (map tree_of (parts_of self.now))) ≡ true) }
        ensures sound { OnOk result
            (spec.are_sound (trees (map tree_of (parts_of self.now))) ≡ true) }
        ensures fault { IfErr result
            (Lacks (spec.have_texts (trees (map tree_of (parts_of self.now))))) }
    {
        for part in self.list() {
            part.put(text)?;
        }
        Ok(())
    }
}

fn put_item(
    text: &mut Vec<u8>,
    name: &Octets,
    sign: &[u8],
    value: &Octets,
) -> Result<(), FilterFault>
    ensures text { OnOk result
        (text.new.items ≡ text.old.items ++ spec.item_text name.now sign.now value.now) }
    ensures ok { OnOk result (grammar.is_type name.now ≡ true) }
    ensures sound { OnOk result (spec.are_bytes value.now ≡ true) }
    ensures fault { IfErr result (Lacks (grammar.is_type name.now)) }
{
    put_type(text, name)?;
    text.extend_from_slice(sign)?;
    put_value(text, value.as_slice())?;
    text.push(b')')?;
    Ok(())
}

fn put_presence(text: &mut Vec<u8>, name: &Octets) -> Result<(), FilterFault>
    ensures text { OnOk result (text.new.items ≡ text.old.items ++ spec.presence_text name.now) }
    ensures ok { OnOk result (grammar.is_type name.now ≡ true) }
    ensures fault { IfErr result (Lacks (grammar.is_type name.now)) }
{
    put_type(text, name)?;
    text.extend_from_slice(b"=*)")?;
    Ok(())
}

/// The type of an item after its parenthesis.
fn put_type(text: &mut Vec<u8>, name: &Octets) -> Result<(), FilterFault>
    ensures text { OnOk result (text.new.items ≡ text.old.items ++ 40 ∷ name.now) }
    ensures ok { OnOk result (grammar.is_type name.now ≡ true) }
    ensures fault { IfErr result (Lacks (grammar.is_type name.now)) }
{
    if !is_type(name.as_slice()) {
        return Err(FilterFault::NoText);
    }
    text.push(b'(')?;
    text.extend_from_slice(name.as_slice())?;
    Ok(())
}

fn put_substrings(text: &mut Vec<u8>, name: &Octets, pieces: &Pieces) -> Result<(), FilterFault>
    ensures text { OnOk result (text.new.items
        ≡ text.old.items
        ++ spec.substrings_text name.now pieces.now.initial pieces.now.middle pieces.now.last) }
    ensures ok { OnOk result
        (spec.has_substrings_text name.now pieces.now.initial pieces.now.middle pieces.now.last
        ≡ true) }
    ensures sound { OnOk result
        (spec.are_sound_pieces pieces.now.initial pieces.now.middle pieces.now.last ≡ true) }
    ensures fault { IfErr result
        (Lacks
        (spec.has_substrings_text name.now pieces.now.initial pieces.now.middle pieces.now.last)) }
{
    put_type(text, name)?;
    if !are_filled(pieces) {
        return Err(FilterFault::NoText);
    }
    text.push(b'=')?;
    put_end(text, &pieces.initial)?;
    text.push(b'*')?;
    put_middle(text, pieces.middle.list())?;
    put_end(text, &pieces.last)?;
    text.push(b')')?;
    Ok(())
}

/// Whether no piece is empty.
fn are_filled(pieces: &Pieces) -> bool
    ensures { result ≡ spec.are_filled pieces.now.initial pieces.now.middle pieces.now.last }
{
    is_absent_or_filled(&pieces.initial)
        && all_filled(pieces.middle.list())
        && is_absent_or_filled(&pieces.last)
}

fn all_filled(pieces: &[Octets]) -> bool
    ensures { result ≡ list_all spec.is_filled pieces.now }
{
    pieces.iter().all(is_filled)
}

fn is_filled(piece: &Octets) -> bool
    ensures { result ≡ spec.is_filled piece.now }
{
    !piece.as_slice().is_empty()
}

fn is_absent_or_filled(piece: &Option<Octets>) -> bool
    ensures { result ≡ spec.is_absent_or_filled piece.now }
{
    match piece {
        None => true,
        Some(piece) => is_filled(piece),
    }
}

fn put_end(text: &mut Vec<u8>, piece: &Option<Octets>) -> Result<(), NoMemory>
    ensures text { OnOk result (text.new.items ≡ text.old.items ++ spec.end_text piece.now) }
    ensures sound { OnOk result (spec.is_absent_or_bytes piece.now ≡ true) }
{
    match piece {
        None => Ok(()),
        Some(piece) => put_value(text, piece.as_slice()),
    }
}

fn put_middle(text: &mut Vec<u8>, pieces: &[Octets]) -> Result<(), NoMemory>
    ensures text { OnOk result
        (text.new.items ≡ text.old.items ++ flat_map spec.middle_text pieces.now) }
    ensures sound { OnOk result (list_all spec.are_bytes pieces.now ≡ true) }
{
    for piece in pieces {
        put_value(text, piece.as_slice())?;
        text.push(b'*')?;
    }
    Ok(())
}

/// A value: its bytes as they are where they are UTF-8 text and have no meaning of their own, and
/// else escaped.
#[tactic(auto, unfolding(crate::specs::Writing::value_text))]
fn put_value(text: &mut Vec<u8>, value: &[u8]) -> Result<(), NoMemory>
    ensures text { OnOk result (text.new.items ≡ text.old.items ++ spec.value_text value.now) }
    ensures sound { OnOk result (spec.are_bytes value.now ≡ true) }
{
    let mut known = 0;
    let mut rest = value;
    while let Some((byte, later)) = rest.split_first() {
        if known == 0 {
            known = text_len(rest);
        }
        if known == 0 {
            put_escape(text, *byte)?;
        } else {
            put_text_byte(text, *byte)?;
            known -= 1;
        }
        rest = later;
    }
    Ok(())
}

fn put_text_byte(text: &mut Vec<u8>, byte: u8) -> Result<(), NoMemory>
    ensures { OnOk result (text.new.items ≡ text.old.items ++ spec.text_byte byte) }
{
    if is_special(byte) {
        return put_escape(text, byte);
    }
    text.push(byte)?;
    Ok(())
}

fn put_escape(text: &mut Vec<u8>, byte: u8) -> Result<(), NoMemory>
    ensures { OnOk result (text.new.items ≡ text.old.items ++ spec.escape byte) }
{
    text.push(b'\\')?;
    text.push(hex_digit(byte / 16))?;
    text.push(hex_digit(byte % 16))?;
    Ok(())
}

fn hex_digit(number: u8) -> u8
    requires { number < 16 }
    ensures { result ≡ spec.hex_digit number }
{
    if number < 10 {
        b'0' + number
    } else {
        b'a' - 10 + number
    }
}
