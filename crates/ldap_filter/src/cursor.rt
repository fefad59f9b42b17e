//! A place in a filter's text.
ghost use Rattle.std.specs.Prelude.{◌≡◌, ◌<◌, ◌≤◌, ◌-◌, ◌==◌, length, drop, take_while, Ok, IfOk, OnOk};
ghost use Rattle.std.specs.Bool.{OnTrue, OnFalse};
ghost use Rattle.ldap_ber.specs.Gives.{Gives};
ghost use Rattle.ldap_filter.specs.Fault.{FilterFails};
ghost use Rattle.ldap_filter.specs.Grammar as grammar;
ghost use Rattle.ldap_filter.specs.Reading as spec;

use crate::fault::FilterFault;
use crate::grammar::{hex_value, is_type_byte};
use std::marker::Model;

/// The bytes of a text that are left. Places count from its start.
#[derive(Drop)]
pub(crate) struct FilterCursor<'a> {
    stop: usize,
    left: &'a [u8],
}

impl<'a> Model for FilterCursor<'a> {
    ghost use Rattle.ldap_filter.specs.Place.{Place};

    ghost Value = { Place };

    ghost view = { λ c. record { stop = c.stop; left = c.left.now } };
}

impl<'a> FilterCursor<'a> {
    pub(crate) fn new(text: &'a [u8]) -> FilterCursor<'a>
        ensures stop { result.stop ≡ length text.now }
        ensures left { result.left ≡ text.now }
    {
        FilterCursor {
            stop: text.len(),
            left: text,
        }
    }

    /// The fault that the next byte is refused, or that none is left.
    pub(crate) fn fault(&self) -> FilterFault
        ensures { result ≡ FilterFault.BadFilter (self.now.stop - length self.now.left) }
    {
        FilterFault::BadFilter(self.stop.saturating_sub(self.left.len()))
    }

    pub(crate) fn is_at_end(&self) -> bool
        ensures { result ≡ (length self.now.left == 0) }
    {
        self.left.is_empty()
    }

    pub(crate) fn begins_with(&self, byte: u8) -> bool
        ensures value { result ≡ grammar.begins_with byte self.now.left }
        ensures some { OnTrue result (0 < length self.now.left) }
    {
        match self.left {
            [] => false,
            [first, ..] => *first == byte,
        }
    }

    /// Goes past the byte, where it is the next one.
    pub(crate) fn passes(&mut self, byte: u8) -> bool
        ensures value { result ≡ grammar.begins_with byte self.old.left }
        ensures past { OnTrue result (self.new.left ≡ drop 1 self.old.left) }
        ensures shorter { OnTrue result (length self.new.left < length self.old.left) }
        ensures kept { OnFalse result (self.new.left ≡ self.old.left) }
        ensures stop { self.new.stop ≡ self.old.stop }
    {
        match self.left {
            [first, rest @ ..] if *first == byte => {
                self.left = rest;
                true
            }
            _ => false,
        }
    }

    /// Goes past the byte, which has to be the next one.
    pub(crate) fn pass(&mut self, byte: u8) -> Result<(), FilterFault>
        ensures read { Gives FilterFails (λ _. Ok self.new.left) result
            (spec.past byte self.old.stop self.old.left) }
        ensures stop { self.new.stop ≡ self.old.stop }
        ensures shorter { OnOk result (length self.new.left < length self.old.left) }
    {
        if self.passes(byte) {
            Ok(())
        } else {
            Err(self.fault())
        }
    }

    /// The bytes of a type that are next, maybe none.
    pub(crate) fn type_bytes(&mut self) -> &'a [u8]
        ensures bytes { result.now ≡ take_while grammar.is_type_byte self.old.left }
        ensures left { self.new.left
            ≡ drop (length (take_while grammar.is_type_byte self.old.left)) self.old.left }
        ensures shorter { length self.new.left ≤ length self.old.left }
        ensures stop { self.new.stop ≡ self.old.stop }
    {
        let (name, rest) = self.left.split_at(type_len(self.left));
        self.left = rest;
        name
    }

    /// Whether a value goes on.
    pub(crate) fn value_goes_on(&self) -> bool
        ensures value { result ≡ spec.value_goes_on self.now.left }
        ensures some { OnTrue result (0 < length self.now.left) }
    {
        match self.left {
            [] => false,
            [first, ..] => !matches!(*first, b')' | b'*'),
        }
    }

    /// The next byte of a value.
    pub(crate) fn value_byte(&mut self) -> Result<u8, FilterFault>
        ensures read { Gives FilterFails (λ byte. Ok (byte, self.new.left)) result
            (spec.value_byte_at self.old.stop self.old.left) }
        ensures stop { self.new.stop ≡ self.old.stop }
        ensures shorter { OnOk result (length self.new.left < length self.old.left) }
    {
        let Some((first, rest)) = self.left.split_first() else {
            return Err(self.fault());
        };
        if *first == b'\\' {
            self.left = rest;
            return self.escaped();
        }
        if *first == 0 || *first == b'(' {
            return Err(self.fault());
        }
        self.left = rest;
        Ok(*first)
    }

    /// The byte that two hexadecimal digits write.
    #[tactic(auto, unfolding(crate::specs::Reading::escaped_at))]
    fn escaped(&mut self) -> Result<u8, FilterFault>
        ensures read { Gives FilterFails (λ byte. Ok (byte, self.new.left)) result
            (spec.escaped_at self.old.stop self.old.left) }
        ensures stop { self.new.stop ≡ self.old.stop }
        ensures shorter { OnOk result (length self.new.left < length self.old.left) }
    {
        let high = self.hex_digit()?;
        let low = self.hex_digit()?;
        Ok(16 * high + low)
    }

    fn hex_digit(&mut self) -> Result<u8, FilterFault>
        ensures read { Gives FilterFails (λ digit. Ok (digit, self.new.left)) result
            (spec.hex_at self.old.stop self.old.left) }
        ensures small { IfOk result (λ digit. digit < 16) }
        ensures stop { self.new.stop ≡ self.old.stop }
        ensures shorter { OnOk result (length self.new.left < length self.old.left) }
    {
        let Some((first, rest)) = self.left.split_first() else {
            return Err(self.fault());
        };
        match hex_value(*first) {
            None => Err(self.fault()),
            Some(digit) => {
                self.left = rest;
                Ok(digit)
            }
        }
    }
}

/// How many bytes of a type the bytes begin with.
fn type_len(bytes: &[u8]) -> usize
    ensures len { result ≡ length (take_while grammar.is_type_byte bytes.now) }
    ensures within { result ≤ length bytes.now }
{
    bytes.iter().take_while(|byte| is_type_byte(**byte)).count()
}
