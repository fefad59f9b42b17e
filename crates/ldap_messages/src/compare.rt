//! Compare (RFC 4511, section 4.10).
//!
//! ```text
//! CompareRequest ::= [APPLICATION 14] SEQUENCE {
//!      entry           LDAPDN,
//!      ava             AttributeValueAssertion }
//!
//! CompareResponse ::= [APPLICATION 15] LDAPResult
//! ```

ghost use Rattle.std.specs.Prelude.{◌≡◌, Ok, OnOk};
ghost use Rattle.ldap_ber.specs.Reading.{made_at};
ghost use Rattle.ldap_ber.specs.Writer.{after_bytes};
ghost use Rattle.ldap_ber.specs.Gives.{Gives};
ghost use Rattle.ldap_parts.specs.Faults.{ComponentFails};
ghost use Rattle.ldap_messages.specs.Compare.{compare_at, compare_octets};
ghost use Rattle.ldap_messages.specs.Operation.{operation_of, compare};

use crate::protocol::Protocol;
use ldap_ber::{NoMemory, Octets, Reader, Writer};
use ldap_parts::{ComponentFault, assertion_of, octet_string_of, put_assertion};
use std::alloc::Global;

/// The CompareRequest that comes next.
#[tactic(auto, unfolding(crate::specs::Compare::compare_at, crate::specs::Operation::operation_of))]
pub(crate) fn compare_of(alloc: Global, reader: &mut Reader) -> Result<Protocol, ComponentFault>
    ensures exact { Gives ComponentFails (λ op. Ok (operation_of op, reader.new.left)) result
        (made_at compare compare_at reader.old.stop reader.old.left) }
    ensures stop { reader.new.stop ≡ reader.old.stop }
{
    let whole = reader.expect(0x6E)?;
    let mut inner = Reader::inside(&whole);
    let entry = octet_string_of(alloc, &mut inner, 0x04)?;
    let (name, value) = assertion_of(alloc, &mut inner, 0x30)?;
    inner.skip()?;
    Ok(Protocol::CompareRequest { entry, name, value })
}

pub(crate) fn put_compare(
    writer: &mut Writer,
    entry: &Octets,
    name: &Octets,
    value: &Octets,
) -> Result<(), NoMemory>
    ensures { OnOk result (writer.new ≡ after_bytes writer.old
        (compare_octets (entry.now, (name.now, value.now)))) }
{
    writer.begin(0x6E)?;
    writer.octets(0x04, entry.as_slice())?;
    put_assertion(writer, 0x30, name, value)?;
    writer.end()
}
