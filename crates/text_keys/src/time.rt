//! Keys of times.
ghost use Rattle.std.specs.Prelude.{◌≡◌, pos, true, ◌+◌, ◌<◌, ◌≤◌, length, Some, IfOk, IfErr};
ghost use Rattle.std.specs.Char.{is_ascii_digit};
ghost use Rattle.std.specs.List.{list_all};
ghost use Rattle.text_keys.specs.Fault.{IsFaultOf};
ghost use Rattle.text_keys.specs.Time.{number_at, is_instant, is_time, time_key};

use crate::digits::all_digits;
use crate::fault::KeyFault;
use crate::own::own_key;
use jiff::civil::DateTime;
use std::alloc::Global;

/// The key of a time `YYYYmmddHHMMSSZ`, the one form of a generalized time that is taken (RFC 4517,
/// section 3.3.13): its text. It is `NotUtf8` or `NotOfSyntax` for any other value, or `NoMemory`.
#[tactic(auto, unfolding(crate::specs::Time::time_key))]
pub fn time_key(alloc: Global, value: &[u8]) -> Result<Vec<u8>, KeyFault>
    ensures key { IfOk result (λ key. time_key value.now ≡ Some key.items) }
    ensures fault { IfErr result (IsFaultOf value.now (time_key value.now)) }
{
    own_key(alloc, value, is_time(value))
}

fn is_time(text: &[u8]) -> bool
    ensures { result ≡ is_time text.now }
{
    if text.len() != 15 || text[14] != b'Z' {
        return false;
    }
    let digits = &text[..14];
    all_digits(digits) && is_instant(digits)
}

/// Whether the digits name a day of the calendar, in a year after the year 0, and a second of that
/// day.
fn is_instant(digits: &[u8]) -> bool
    requires long { length digits.now ≡ 14 }
    requires digits { list_all is_ascii_digit digits.now ≡ true }
    ensures { result ≡ is_instant digits.now }
{
    let year = year_of(digits);
    let month = two_digits(digits, 4);
    let day = two_digits(digits, 6);
    let hour = two_digits(digits, 8);
    let minute = two_digits(digits, 10);
    let second = two_digits(digits, 12);
    year > 0 && DateTime::new(year, month, day, hour, minute, second, 0).is_ok()
}

/// The number that the first four digits write.
fn year_of(digits: &[u8]) -> i16
    requires long { 4 ≤ length digits.now }
    requires digits { list_all is_ascii_digit digits.now ≡ true }
    ensures value { result ≡ pos (number_at digits.now 0 4) }
    ensures small { number_at digits.now 0 4 < 10000 }
{
    100 * two_digits(digits, 0) as i16 + two_digits(digits, 2) as i16
}

/// The number that the two digits at a place write.
fn two_digits(digits: &[u8], at: usize) -> i8
    requires long { at + 2 ≤ length digits.now }
    requires digits { list_all is_ascii_digit digits.now ≡ true }
    ensures value { result ≡ pos (number_at digits.now at (at + 2)) }
    ensures small { number_at digits.now at (at + 2) < 100 }
{
    (10 * (digits[at] - b'0') + (digits[at + 1] - b'0')) as i8
}
