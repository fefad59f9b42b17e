//! Equalities, with what they ask of the entries that they are tried on.
ghost use Rattle.std.specs.Prelude.{◌≡◌, IfOk};
ghost use Rattle.ldap_filter.specs.Matching.{asked_key};

use crate::matching::{AskedKey, asked_key};
use ldap_ber::{NoMemory, Octets};
use std::alloc::Global;

/// The name of an attribute type and a value that is to match (RFC 4511, section 4.1.6). What they
/// ask for is found once, so that the equality is tried on an entry by it alone.
#[derive(Drop)]
pub struct Equality {
    pub name: Octets,
    pub value: Octets,
    /// Nothing where the name is that of no type that clients give, or the value is not of its
    /// syntax.
    pub(crate) asked: Option<AskedKey>,
    ghost found: { asked ≡ asked_key name value },
}

impl Equality {
    /// Makes the equality of this name and value. It is `NoMemory` where memory runs out.
    pub fn new(alloc: Global, name: Octets, value: Octets) -> Result<Equality, NoMemory>
        ensures name { IfOk result (λ equality. equality.name ≡ name) }
        ensures value { IfOk result (λ equality. equality.value ≡ value) }
    {
        let asked = asked_key(alloc, name.as_slice(), value.as_slice())?;
        Ok(Equality { name, value, asked })
    }
}
