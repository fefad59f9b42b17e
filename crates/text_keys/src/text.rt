//! Keys of text (RFC 4518, section 2), of whole values and of the pieces of a substring filter.
ghost use Rattle.std.specs.Prelude.{◌≡◌, true, [], ◌++◌, map, Some, is_some, IfOk, IfErr, OnOk, IsErrOf, IsAscii, IsTrue, chars, string_bytes, encode_utf8_all};
ghost use Rattle.std.specs.List.{list_all};
ghost use Rattle.text_keys.specs.Fault.{IsFaultOf};
ghost use Rattle.text_keys.specs.Text.{prepared, lowered, squeezed, spaced, whole_key, ignore_case_key, exact_key, piece_key, is_settled};

use crate::fault::KeyFault;
use caseless::default_case_fold_str;
use std::alloc::{AllocError, Global};
use std::str;
use unicode_normalization::to_nfkc;

/// The key of a value whose case is ignored, as by caseIgnoreMatch (RFC 4517, section 4.2.11). It
/// is `NotUtf8`, `NotOfSyntax` where it has no character but spaces, or `NoMemory`.
#[tactic(auto, unfolding(crate::specs::Text::ignore_case_key))]
pub fn ignore_case_key(alloc: Global, value: &[u8]) -> Result<Vec<u8>, KeyFault>
    ensures key { IfOk result (λ key. ignore_case_key value.now ≡ Some key.items) }
    ensures fault { IfErr result (IsFaultOf value.now (ignore_case_key value.now)) }
{
    whole_key(alloc, value, true)
}

/// The key of a value whose case counts, as by caseExactMatch (RFC 4517, section 4.2.4). It is
/// `NotUtf8`, `NotOfSyntax` where it has no character but spaces, or `NoMemory`.
#[tactic(auto, unfolding(crate::specs::Text::exact_key))]
pub fn exact_key(alloc: Global, value: &[u8]) -> Result<Vec<u8>, KeyFault>
    ensures key { IfOk result (λ key. exact_key value.now ≡ Some key.items) }
    ensures fault { IfErr result (IsFaultOf value.now (exact_key value.now)) }
{
    whole_key(alloc, value, false)
}

/// Whether the value is in ASCII and begins with another character than a space. Such a value has a
/// key, whether case counts or not, and no key has to be made to see this.
pub fn is_plain(value: &[u8]) -> bool
    ensures ignoring { IsTrue result → is_some (ignore_case_key value.now) ≡ true }
    ensures exact { IsTrue result → is_some (exact_key value.now) ≡ true }
    ensures ascii { IsTrue result → IsAscii value.now }
{
    if value.is_empty() {
        return false;
    }
    if value[0] == b' ' {
        return false;
    }
    value.is_ascii()
}

/// Whether the value is seen to be its own key, whether case counts or not, without making one: it
/// is in ASCII, is not empty, and has neither spaces nor capital letters.
pub fn is_own_key(value: &[u8]) -> bool
    ensures ignoring { IsTrue result → ignore_case_key value.now ≡ Some value.now }
    ensures exact { IsTrue result → exact_key value.now ≡ Some value.now }
    ensures ascii { IsTrue result → IsAscii value.now }
{
    if value.is_empty() {
        return false;
    }
    are_settled(value)
}

/// Whether each byte is settled.
fn are_settled(bytes: &[u8]) -> bool
    ensures { result ≡ list_all is_settled bytes.now }
{
    bytes.iter().all(|byte| is_settled(*byte))
}

/// Whether the byte is a character that each key keeps where it stands: one of ASCII that is
/// neither a space nor a capital letter.
fn is_settled(byte: u8) -> bool
    ensures { result ≡ is_settled byte }
{
    byte < 128 && byte != b' ' && byte.to_ascii_lowercase() == byte
}

/// A whole value is its own first and last piece, and its key is not empty.
fn whole_key(alloc: Global, value: &[u8], fold: bool) -> Result<Vec<u8>, KeyFault>
    ensures key { IfOk result (λ key. whole_key fold value.now ≡ Some key.items) }
    ensures fault { IfErr result (IsFaultOf value.now (whole_key fold value.now)) }
{
    let key = piece_key(alloc, value, fold, true, true)?;
    if key.is_empty() {
        return Err(KeyFault::NotOfSyntax);
    }
    Ok(key)
}

/// The key of a piece of a substring assertion (RFC 4517, sections 4.2.6 and 4.2.13). `fold` says
/// that case is ignored, `first` that the piece stands at the start of the value, `last` that it
/// stands at its end. An empty piece has an empty key. It is `NotUtf8` where the piece is no UTF-8,
/// or `NoMemory`.
#[tactic(auto, using(crate::proofs::Pieces::piece_key_none))]
pub fn piece_key(
    alloc: Global,
    piece: &[u8],
    fold: bool,
    first: bool,
    last: bool,
) -> Result<Vec<u8>, KeyFault>
    ensures key { IfOk result (λ key. piece_key piece.now fold first last ≡ Some key.items) }
    ensures fault { IfErr result (IsFaultOf piece.now (piece_key piece.now fold first last)) }
    ensures any_text { ¬ (IsErrOf result KeyFault.NotOfSyntax) }
{
    if piece.is_ascii() {
        return Ok(ascii_key(alloc, piece, fold, first, last)?);
    }
    let Ok(text) = str::from_utf8(piece) else {
        return Err(KeyFault::NotUtf8);
    };
    let prepared = prepared(alloc, text, fold)?;
    let key = squeezed(alloc, prepared.as_str(), first, last)?;
    Ok(key.into_bytes())
}

/// The key of a piece in ASCII, each byte of which is a character in NFKC. It is made in one pass,
/// with the room that it needs.
fn ascii_key(
    alloc: Global,
    piece: &[u8],
    fold: bool,
    first: bool,
    last: bool,
) -> Result<Vec<u8>, AllocError>
    requires { IsAscii piece.now }
    ensures { IfOk result (λ key.
        key.items ≡ encode_utf8_all (squeezed first last (map (lowered fold) piece.now))) }
{
    let mut key = Vec::with_capacity(alloc, piece.len())?;
    let mut at_start = first;
    let mut after_space = false;
    for byte in piece {
        if *byte == b' ' {
            after_space = !at_start;
        } else {
            push_space_byte(&mut key, after_space)?;
            key.push(lowered(*byte, fold))?;
            at_start = false;
            after_space = false;
        }
    }
    push_space_byte(&mut key, after_space && !last)?;
    Ok(key)
}

/// The byte, in lower case where that is asked for.
fn lowered(byte: u8, fold: bool) -> u8
    ensures { result ≡ lowered fold byte }
{
    if fold {
        byte.to_ascii_lowercase()
    } else {
        byte
    }
}

/// Puts a space at the end, where one is due.
fn push_space_byte(key: &mut Vec<u8>, is_due: bool) -> Result<(), AllocError>
    ensures { OnOk result (key.new.items ≡ key.old.items ++ spaced is_due []) }
{
    if is_due {
        key.push(b' ')?;
    }
    Ok(())
}

/// The text in NFKC, and with its case folded where that is asked for.
fn prepared(alloc: Global, text: &str, fold: bool) -> Result<String, AllocError>
    ensures { IfOk result (λ t. string_bytes t ≡ encode_utf8_all (prepared fold (chars text.now))) }
{
    let normal = to_nfkc(alloc, text)?;
    if fold {
        default_case_fold_str(alloc, normal.as_str())
    } else {
        Ok(normal)
    }
}

/// The text with each run of spaces made one, and without the spaces at its start where it stands
/// first, and at its end where it stands last.
fn squeezed(alloc: Global, text: &str, first: bool, last: bool) -> Result<String, AllocError>
    ensures { IfOk result
        (λ t. string_bytes t ≡ encode_utf8_all (squeezed first last (chars text.now))) }
{
    let mut key = String::new(alloc);
    let mut at_start = first;
    let mut after_space = false;
    for c in text.chars() {
        if c == ' ' {
            after_space = !at_start;
        } else {
            push_space(&mut key, after_space)?;
            key.push(c)?;
            at_start = false;
            after_space = false;
        }
    }
    push_space(&mut key, after_space && !last)?;
    Ok(key)
}

/// Puts a space at the end, where one is due.
fn push_space(key: &mut String, is_due: bool) -> Result<(), AllocError>
    ensures { OnOk result
        (string_bytes key.new ≡ string_bytes key.old ++ encode_utf8_all (spaced is_due [])) }
{
    if is_due {
        key.push(' ')?;
    }
    Ok(())
}
