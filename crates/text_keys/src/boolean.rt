//! Keys of truth values.
ghost use Rattle.std.specs.Prelude.{◌≡◌, Some, IfOk, IfErr};
ghost use Rattle.text_keys.specs.Boolean.{is_boolean, boolean_key};
ghost use Rattle.text_keys.specs.Fault.{IsFaultOf};

use crate::fault::KeyFault;
use crate::own::own_key;
use std::alloc::Global;

/// The key of `TRUE` or `FALSE`: its text (RFC 4517, section 3.3.3). It is `NotUtf8` or
/// `NotOfSyntax` for any other value, or `NoMemory`.
#[tactic(auto, unfolding(crate::specs::Boolean::boolean_key))]
pub fn boolean_key(alloc: Global, value: &[u8]) -> Result<Vec<u8>, KeyFault>
    ensures key { IfOk result (λ key. boolean_key value.now ≡ Some key.items) }
    ensures fault { IfErr result (IsFaultOf value.now (boolean_key value.now)) }
{
    own_key(alloc, value, is_boolean(value))
}

fn is_boolean(text: &[u8]) -> bool
    ensures { result ≡ is_boolean text.now }
{
    text == b"TRUE".as_slice() || text == b"FALSE".as_slice()
}
