//! Values and their keys, from outside: those of text by another implementation of the Unicode
//! steps.
use crate::assertions::assert_same;
use std::alloc::Global;
use std::process::Abort;
use text_keys::{
    KeyFault, boolean_key, exact_key, ignore_case_key, integer_key, piece_key, time_key,
};

/// The syntax of a value.
#[derive(Clone, Copy)]
enum Syntax {
    /// Text in any case.
    Folded,
    /// Text in its case.
    Exact,
    /// A piece of text in any case, with nothing in front of it or after it.
    Piece,
    Integer,
    Boolean,
    Time,
}

fn key(alloc: Global, syntax: Syntax, value: &[u8]) -> Result<Vec<u8>, KeyFault> {
    match syntax {
        Syntax::Folded => ignore_case_key(alloc, value),
        Syntax::Exact => exact_key(alloc, value),
        Syntax::Piece => piece_key(alloc, value, true, false, false),
        Syntax::Integer => integer_key(alloc, value),
        Syntax::Boolean => boolean_key(alloc, value),
        Syntax::Time => time_key(alloc, value),
    }
}

/// The key, or the fault by its name.
fn answer(key: &Result<Vec<u8>, KeyFault>) -> &[u8] {
    match key {
        Ok(key) => key.as_slice(),
        Err(KeyFault::NotUtf8) => b"NotUtf8",
        Err(KeyFault::NotOfSyntax) => b"NotOfSyntax",
        Err(KeyFault::NoMemory) => b"NoMemory",
    }
}

fn assert_answer(rt: &impl Abort, row: &str, key: &Result<Vec<u8>, KeyFault>, wanted: &[u8]) {
    assert_same(rt, row, &answer(key), &wanted);
}

/// Texts, and their keys where case does not count and where it does.
const TEXTS: [(&str, &str, &str); 14] = [
    ("  Barbara   Jensen ", "barbara jensen", "Barbara Jensen"),
    ("straße", "strasse", "straße"),
    ("STRASSE", "strasse", "STRASSE"),
    ("\u{fb01}ne", "fine", "fine"),
    ("\u{ff21}\u{ff22}\u{3000}\u{ff11}", "ab 1", "AB 1"),
    ("a\u{a0}b", "a b", "a b"),
    (
        "\u{212b}ngstr\u{f6}m",
        "\u{e5}ngstr\u{f6}m",
        "\u{c5}ngstr\u{f6}m",
    ),
    (
        "A\u{30a}ngstro\u{308}m",
        "\u{e5}ngstr\u{f6}m",
        "\u{c5}ngstr\u{f6}m",
    ),
    ("ΟΔΟΣ", "οδοσ", "ΟΔΟΣ"),
    ("οδος", "οδοσ", "οδος"),
    ("\tA\t", "\ta\t", "\tA\t"),
    ("\u{a8}", "\u{308}", "\u{308}"),
    ("\u{3000}\u{a0}", "NotOfSyntax", "NotOfSyntax"),
    ("", "NotOfSyntax", "NotOfSyntax"),
];

fn check_text(rt: &impl Abort, alloc: Global, syntax: Syntax, value: &str, wanted: &str) {
    let key = key(alloc, syntax, value.as_bytes());
    assert_answer(rt, value, &key, wanted.as_bytes());
}

#[test]
fn keys_of_text(rt: HostRuntime) {
    for (value, folded, exact) in &TEXTS {
        check_text(&rt, rt.alloc(), Syntax::Folded, value, folded);
        check_text(&rt, rt.alloc(), Syntax::Exact, value, exact);
    }
}

/// Pieces, whether case does not count, whether each is the first and the last, and their keys.
const PIECES: [(&str, bool, bool, bool, &str); 11] = [
    ("", true, true, true, ""),
    (" ", true, true, true, ""),
    (" ", true, true, false, ""),
    (" ", true, false, true, ""),
    ("  ", true, false, false, " "),
    (" A  b  ", true, true, true, "a b"),
    (" A  b  ", true, true, false, "a b "),
    (" A  b  ", true, false, true, " a b"),
    (" A  b  ", true, false, false, " a b "),
    ("\u{a0}X", true, false, false, " x"),
    (" A  b  ", false, false, false, " A b "),
];

#[test]
fn keys_of_pieces(rt: HostRuntime) {
    for (piece, folds, first, last, wanted) in &PIECES {
        let key = piece_key(rt.alloc(), piece.as_bytes(), *folds, *first, *last);
        assert_answer(&rt, piece, &key, wanted.as_bytes());
    }
}

/// Values that are their own keys.
const OWN_KEYS: [(Syntax, &str); 11] = [
    (Syntax::Integer, "0"),
    (Syntax::Integer, "7"),
    (Syntax::Integer, "-7"),
    (Syntax::Integer, "-9223372036854775808"),
    (Syntax::Integer, "9223372036854775807"),
    (Syntax::Boolean, "TRUE"),
    (Syntax::Boolean, "FALSE"),
    (Syntax::Time, "00010101000000Z"),
    (Syntax::Time, "20240229235959Z"),
    (Syntax::Time, "20291231235959Z"),
    (Syntax::Time, "99991231235959Z"),
];

#[test]
fn values_that_are_their_own_keys(rt: HostRuntime) {
    for (syntax, value) in &OWN_KEYS {
        check_text(&rt, rt.alloc(), *syntax, value, value);
    }
}

/// Values that are not of their syntax.
const WITHOUT_KEYS: [(Syntax, &str); 27] = [
    (Syntax::Integer, ""),
    (Syntax::Integer, "-"),
    (Syntax::Integer, "-0"),
    (Syntax::Integer, "00"),
    (Syntax::Integer, "07"),
    (Syntax::Integer, "+7"),
    (Syntax::Integer, "7 "),
    (Syntax::Integer, "-07"),
    (Syntax::Integer, "9223372036854775808"),
    (Syntax::Integer, "-9223372036854775809"),
    (Syntax::Boolean, ""),
    (Syntax::Boolean, "true"),
    (Syntax::Boolean, "TRUE "),
    (Syntax::Boolean, "YES"),
    (Syntax::Time, ""),
    (Syntax::Time, "00000101000000Z"),
    (Syntax::Time, "20230229000000Z"),
    (Syntax::Time, "20240431000000Z"),
    (Syntax::Time, "20241301000000Z"),
    (Syntax::Time, "20240100000000Z"),
    (Syntax::Time, "20240101240000Z"),
    (Syntax::Time, "20240101006000Z"),
    (Syntax::Time, "20240101000060Z"),
    (Syntax::Time, "2024010100000Z"),
    (Syntax::Time, "20240101000000z"),
    (Syntax::Time, "202401010000+0Z"),
    (Syntax::Time, "20240101000000ZZ"),
];

#[test]
fn values_without_keys(rt: HostRuntime) {
    for (syntax, value) in &WITHOUT_KEYS {
        check_text(&rt, rt.alloc(), *syntax, value, "NotOfSyntax");
    }
}

const SYNTAXES: [Syntax; 6] = [
    Syntax::Folded,
    Syntax::Exact,
    Syntax::Piece,
    Syntax::Integer,
    Syntax::Boolean,
    Syntax::Time,
];

#[test]
fn bytes_that_are_not_utf8(rt: HostRuntime) {
    for syntax in &SYNTAXES {
        let key = key(rt.alloc(), *syntax, b"a\xff");
        assert_answer(&rt, "not UTF-8", &key, b"NotUtf8");
    }
}
