//! Keys of integers.
ghost use Rattle.std.specs.Prelude.{◌≡◌, ◌&&◌, Some, true, IfOk, IfErr};
ghost use Rattle.text_keys.specs.Fault.{IsFaultOf};
ghost use Rattle.text_keys.specs.Integer.{is_number, is_integer, has_64_bits, integer_of, integer_key};

use crate::digits::all_digits;
use crate::fault::KeyFault;
use crate::own::own_key;
use std::alloc::Global;
use std::str;

/// The key of an integer within 64 bits with sign: its text, which has no second form (RFC 4517,
/// section 3.3.16). Else it is `NotUtf8` or `NotOfSyntax`, or `NoMemory`.
#[tactic(auto, unfolding(crate::specs::Integer::integer_key))]
pub fn integer_key(alloc: Global, value: &[u8]) -> Result<Vec<u8>, KeyFault>
    ensures key { IfOk result (λ key. integer_key value.now ≡ Some key.items) }
    ensures fault { IfErr result (IsFaultOf value.now (integer_key value.now)) }
{
    own_key(alloc, value, is_integer(value) && has_64_bits(value))
}

/// Whether the text is an integer in its one form: no leading zero, and no minus before a zero.
fn is_integer(text: &[u8]) -> bool
    ensures { result ≡ is_integer text.now }
{
    match text {
        [b'-', b'0', ..] => false,
        [b'-', digits @ ..] => is_number(digits),
        digits => is_number(digits),
    }
}

fn is_number(text: &[u8]) -> bool
    ensures { result ≡ is_number text.now }
{
    match text {
        [] => false,
        [b'0', rest @ ..] => rest.is_empty(),
        digits => all_digits(digits),
    }
}

/// Whether the number has 64 bits with its sign.
fn has_64_bits(integer: &[u8]) -> bool
    requires { is_integer integer.now ≡ true }
    ensures { result ≡ has_64_bits (integer_of integer.now) }
{
    match str::from_utf8(integer) {
        Ok(text) => text.parse::<i64>().is_ok(),
        Err(_) => false,
    }
}
