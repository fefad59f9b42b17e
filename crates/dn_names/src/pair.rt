//! Pairs of a type and a value (RFC 4514, section 2.3).
ghost use Rattle.std.specs.Prelude.{◌≡◌, Some, IfOk, IfSome, is_some};
ghost use Rattle.schema_rules.specs.Keys.{key_of};

use ldap_ber::{NoMemory, Octets};
use schema_rules::{AttributeType, known_key};
use std::alloc::Global;
use std::marker::Model;

/// A type and a value of its syntax.
#[derive(Drop)]
pub struct Pair {
    pub kind: AttributeType,
    pub value: Octets,
    /// The key of the value.
    key: Octets,
}

impl Model for Pair {
    ghost use Rattle.std.specs.Prelude.{◌≡◌, Some};
    ghost use Rattle.schema_rules.specs.Keys.{key_of};
    ghost use Rattle.dn_names.specs.Names.{TypeAndValue};

    ghost Value = { TypeAndValue };

    ghost view = { λ p. record { kind = p.kind; value = p.value } };

    ghost invariant = { λ p. key_of p.kind p.value ≡ Some p.key };
}

impl Pair {
    /// The pair of this type and value, or nothing where the value is not of the type's syntax. It
    /// is `NoMemory` where memory runs out.
    pub fn of(alloc: Global, kind: AttributeType, value: &[u8]) -> Result<Option<Pair>, NoMemory>
        ensures value { IfOk result (λ found. IfSome found (λ pair.
            pair ≡ record { kind = kind; value = value.now })) }
        ensures some { IfOk result (λ found. is_some found ≡ is_some (key_of kind value.now)) }
    {
        let Some(key) = known_key(alloc, kind, value)? else {
            return Ok(None);
        };
        let octets = Octets::from_slice(alloc, value)?;
        Ok(Some(Pair::new(kind, octets, key)))
    }

    pub(crate) fn new(kind: AttributeType, value: Octets, key: Octets) -> Pair
        requires { key_of kind value ≡ Some key }
        ensures { result ≡ record { kind = kind; value = value } }
    {
        Pair { kind, value, key }
    }

    /// The key of the value: two values of a type match exactly where their keys are the same.
    pub fn key(&self) -> &[u8]
        ensures { key_of self.now.kind self.now.value ≡ Some result.now }
    {
        self.key.as_slice()
    }

    pub(crate) fn copy(&self) -> Result<Pair, NoMemory>
        ensures { IfOk result (λ pair. pair ≡ self.now) }
    {
        Ok(Pair {
            kind: self.kind,
            value: self.value.copy()?,
            key: self.key.copy()?,
        })
    }
}
