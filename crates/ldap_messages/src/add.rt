//! Add (RFC 4511, section 4.7).
//!
//! ```text
//! AddRequest ::= [APPLICATION 8] SEQUENCE {
//!      entry           LDAPDN,
//!      attributes      AttributeList }
//!
//! AttributeList ::= SEQUENCE OF attribute Attribute
//!
//! AddResponse ::= [APPLICATION 9] LDAPResult
//! ```

ghost use Rattle.std.specs.Prelude.{◌≡◌, Ok, OnOk};
ghost use Rattle.ldap_ber.specs.Reading.{made_at};
ghost use Rattle.ldap_ber.specs.Writer.{after_bytes};
ghost use Rattle.ldap_ber.specs.Gives.{Gives};
ghost use Rattle.ldap_parts.specs.Faults.{ComponentFails};
ghost use Rattle.ldap_messages.specs.Add.{add_at, add_octets};
ghost use Rattle.ldap_messages.specs.Operation.{operation_of, add};

use crate::protocol::Protocol;
use ldap_ber::{NoMemory, Octets, Reader, Writer};
use ldap_parts::{ComponentFault, attributes_of, octet_string_of, put_attributes};
use schema_rules::{Change, RawAttribute};
use std::alloc::Global;

/// The AddRequest that comes next.
#[tactic(auto, unfolding(crate::specs::Add::add_at, crate::specs::Operation::operation_of))]
pub(crate) fn add_of(alloc: Global, reader: &mut Reader) -> Result<Protocol, ComponentFault>
    ensures exact { Gives ComponentFails (λ op. Ok (operation_of op, reader.new.left)) result
        (made_at add add_at reader.old.stop reader.old.left) }
    ensures stop { reader.new.stop ≡ reader.old.stop }
{
    let whole = reader.expect(0x68)?;
    let mut inner = Reader::inside(&whole);
    let name = octet_string_of(alloc, &mut inner, 0x04)?;
    let attributes = attributes_of(alloc, &mut inner)?;
    inner.skip()?;
    Ok(Protocol::Write(Change::Add(name, attributes)))
}

pub(crate) fn put_add(
    writer: &mut Writer,
    name: &Octets,
    attributes: &[RawAttribute],
) -> Result<(), NoMemory>
    ensures { OnOk result
        (writer.new ≡ after_bytes writer.old (add_octets (name.now, attributes.now))) }
{
    writer.begin(0x68)?;
    writer.octets(0x04, name.as_slice())?;
    put_attributes(writer, attributes)?;
    writer.end()
}
