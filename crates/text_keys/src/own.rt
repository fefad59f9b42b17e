//! Keys of values whose text has one form only.
ghost use Rattle.std.specs.Prelude.{◌≡◌, Some, IfOk, IfErr};
ghost use Rattle.text_keys.specs.Fault.{IsFaultOf};
ghost use Rattle.text_keys.specs.Own.{own_key};

use crate::fault::KeyFault;
use std::alloc::Global;
use std::str;

/// The value as its own key, where it is of its syntax.
pub(crate) fn own_key(alloc: Global, value: &[u8], is_of_syntax: bool) -> Result<Vec<u8>, KeyFault>
    ensures key { IfOk result (λ key. own_key is_of_syntax value.now ≡ Some key.items) }
    ensures fault { IfErr result (IsFaultOf value.now (own_key is_of_syntax value.now)) }
{
    if is_of_syntax {
        return Ok(value.to_vec(alloc)?);
    }
    match str::from_utf8(value) {
        Ok(_) => Err(KeyFault::NotOfSyntax),
        Err(_) => Err(KeyFault::NotUtf8),
    }
}
