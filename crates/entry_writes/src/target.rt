//! Where an entry goes that gets another name (RFC 4511, section 4.9).
ghost use Rattle.std.specs.Prelude.{◌≡◌, ◌∷◌, unwrap_or, IfOk};
ghost use Rattle.std.specs.Result.{result_ok};
ghost use Rattle.dn_names.specs.Names.{parent_of};
ghost use Rattle.dn_names.specs.Reading.{limited};

use dn_names::{Dn, NameFault, Rdn};
use ldap_ber::NoMemory;
use std::alloc::{AllocError, Global};

/// The name right above the new one: the new superior, or the old parent. It is `NoMemory` where
/// memory runs out.
pub fn name_above(alloc: Global, dn: &Dn, superior: &Option<Dn>) -> Result<Dn, NoMemory>
    ensures { IfOk result (λ above. above ≡ unwrap_or superior.now (parent_of dn.now)) }
{
    match superior {
        Some(superior) => superior.copy(),
        None => {
            if dn.rdns().is_empty() {
                Ok(Dn::empty(alloc))
            } else {
                dn.parent()
            }
        }
    }
}

/// The name with this RDN right below, where it is not too long to be one (RFC 4511, section 4.9).
/// It is `NoMemory` where memory runs out.
pub fn name_below(above: &Dn, rdn: &Rdn) -> Result<Option<Dn>, NoMemory>
    ensures { IfOk result (λ name. name ≡ result_ok (limited (rdn.now ∷ above.now))) }
{
    match above.below(rdn) {
        Ok(name) => Ok(Some(name)),
        Err(NameFault::NoMemory) => Err(AllocError),
        Err(NameFault::BadName(_) | NameFault::UnknownType(_) | NameFault::TooLong(_)) => Ok(None),
    }
}
