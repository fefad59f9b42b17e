//! Texts of a fixed length, written from left to right.

ghost use Rattle.std.specs.Prelude.{◌≡◌, ◌≤◌, ◌+◌, [], ◌++◌, length};
ghost use Rattle.csn_cookie.specs.Digits.{field};

use crate::digits::write_digits;
use std::marker::Model;

/// What is written so far of a text of `N` bytes.
#[derive(Drop)]
pub struct Text<const N: usize> {
    bytes: [u8; N],
    len: usize,
}

impl<const N: usize> Model for Text<N> {
    ghost use Rattle.std.specs.Prelude.{List, ℕ, ◌≡◌, ◌≤◌, length, take};

    ghost Value = { List ℕ };

    ghost view = { λ t. take t.len t.bytes };

    ghost invariant = { λ t. (t.len ≤ N) × (length t.bytes ≡ N) };
}

impl<const N: usize> Text<N> {
    /// Makes a text of which nothing is written yet.
    pub fn new() -> Text<N>
        ensures { result ≡ [] }
    {
        Text {
            bytes: [0; N],
            len: 0,
        }
    }

    /// Appends the number in n digits, leading zeros.
    pub fn push_number(&mut self, radix: u8, width: usize, number: u128)
        requires low { 2 ≤ radix }
        requires high { radix ≤ 16 }
        requires room { length self.old + width ≤ N }
        ensures text { self.new ≡ self.old ++ field radix width number }
        ensures len { length self.new ≡ length self.old + width }
    {
        let end = self.len + width;
        let bytes = &mut self.bytes[..];
        write_digits(radix, number, &mut bytes[self.len..end]);
        self.len = end;
    }

    /// Appends these bytes, for which there has to be room.
    pub fn push(&mut self, bytes: &[u8])
        requires room { length self.old + length bytes.now ≤ N }
        ensures text { self.new ≡ self.old ++ bytes.now }
        ensures len { length self.new ≡ length self.old + length bytes.now }
    {
        let end = self.len + bytes.len();
        let all = &mut self.bytes[..];
        all[self.len..end].copy_from_slice(bytes);
        self.len = end;
    }

    /// The text, once it is whole.
    pub fn finish(self) -> [u8; N]
        requires { length self ≡ N }
        ensures { result ≡ self.entry }
    {
        self.bytes
    }
}
