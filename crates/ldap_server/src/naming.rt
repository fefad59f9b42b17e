//! The names in requests.

ghost use Rattle.std.specs.Prelude.{◌≡◌, Ok, IfErr, IfOk};
ghost use Rattle.dn_names.specs.Reading.{name_of_text};
ghost use Rattle.ldap_server.specs.Table.{IsRefusedName};

use dn_names::{Dn, NameFault};
use ldap_ber::Octets;
use ldap_constants::{INVALID_DN_SYNTAX, OTHER};
use std::alloc::Global;

/// The name that a text is, or the code that rejects it.
pub(crate) fn name_of(alloc: Global, text: &Octets) -> Result<Dn, u32>
    ensures ok { IfOk result (λ dn. name_of_text text.now ≡ Ok dn) }
    ensures err { IfErr result (IsRefusedName (name_of_text text.now)) }
{
    match Dn::parse(alloc, text.as_slice()) {
        Ok(dn) => Ok(dn),
        Err(NameFault::NoMemory) => Err(OTHER),
        Err(NameFault::BadName(_) | NameFault::UnknownType(_) | NameFault::TooLong(_)) => {
            Err(INVALID_DN_SYNTAX)
        }
    }
}
