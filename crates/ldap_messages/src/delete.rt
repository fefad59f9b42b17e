//! Delete (RFC 4511, section 4.8).
//!
//! ```text
//! DelRequest ::= [APPLICATION 10] LDAPDN
//!
//! DelResponse ::= [APPLICATION 11] LDAPResult
//! ```

ghost use Rattle.std.specs.Prelude.{◌≡◌, Ok};
ghost use Rattle.ldap_ber.specs.Reading.{made_at};
ghost use Rattle.ldap_ber.specs.Gives.{Gives};
ghost use Rattle.ldap_parts.specs.Faults.{ComponentFails};
ghost use Rattle.ldap_messages.specs.Delete.{delete_at};
ghost use Rattle.ldap_messages.specs.Operation.{operation_of, delete};

use crate::protocol::Protocol;
use ldap_ber::Reader;
use ldap_parts::{ComponentFault, octet_string_of};
use schema_rules::Change;
use std::alloc::Global;

/// The DelRequest that comes next.
#[tactic(auto, unfolding(crate::specs::Delete::delete_at, crate::specs::Operation::operation_of))]
pub(crate) fn delete_of(alloc: Global, reader: &mut Reader) -> Result<Protocol, ComponentFault>
    ensures exact { Gives ComponentFails (λ op. Ok (operation_of op, reader.new.left)) result
        (made_at delete delete_at reader.old.stop reader.old.left) }
    ensures stop { reader.new.stop ≡ reader.old.stop }
{
    let name = octet_string_of(alloc, reader, 0x4A)?;
    Ok(Protocol::Write(Change::Delete(name)))
}
