//! Modify DN (RFC 4511, section 4.9).
//!
//! ```text
//! ModifyDNRequest ::= [APPLICATION 12] SEQUENCE {
//!      entry           LDAPDN,
//!      newrdn          RelativeLDAPDN,
//!      deleteoldrdn    BOOLEAN,
//!      newSuperior     [0] LDAPDN OPTIONAL }
//!
//! ModifyDNResponse ::= [APPLICATION 13] LDAPResult
//! ```

ghost use Rattle.std.specs.Prelude.{◌≡◌, Ok, OnOk};
ghost use Rattle.ldap_ber.specs.Reading.{made_at};
ghost use Rattle.ldap_ber.specs.Writer.{after_bytes};
ghost use Rattle.ldap_ber.specs.Gives.{Gives};
ghost use Rattle.ldap_parts.specs.Faults.{ComponentFails};
ghost use Rattle.ldap_messages.specs.ModifyDn.{rename_at, rename_octets};
ghost use Rattle.ldap_messages.specs.Operation.{operation_of, rename};

use crate::protocol::Protocol;
use ldap_ber::{NoMemory, Octets, Reader, Writer};
use ldap_parts::{ComponentFault, boolean_of, octet_string_of, option_of, put_option};
use schema_rules::Change;
use std::alloc::Global;

/// The ModifyDNRequest that comes next.
#[tactic(auto, unfolding(crate::specs::ModifyDn::rename_at, crate::specs::Operation::operation_of))]
pub(crate) fn rename_of(alloc: Global, reader: &mut Reader) -> Result<Protocol, ComponentFault>
    ensures exact { Gives ComponentFails (λ op. Ok (operation_of op, reader.new.left)) result
        (made_at rename rename_at reader.old.stop reader.old.left) }
    ensures stop { reader.new.stop ≡ reader.old.stop }
{
    let whole = reader.expect(0x6C)?;
    let mut inner = Reader::inside(&whole);
    let name = octet_string_of(alloc, &mut inner, 0x04)?;
    let rdn = octet_string_of(alloc, &mut inner, 0x04)?;
    let goes = boolean_of(&mut inner)?;
    let superior = option_of(alloc, &mut inner, 0x80)?;
    inner.skip()?;
    Ok(Protocol::Write(Change::Rename(name, rdn, goes, superior)))
}

/// Writes a ModifyDNRequest; `goes` reports whether the values of the old first part go.
pub(crate) fn put_rename(
    writer: &mut Writer,
    name: &Octets,
    rdn: &Octets,
    goes: bool,
    superior: &Option<Octets>,
) -> Result<(), NoMemory>
    ensures { OnOk result (writer.new ≡ after_bytes writer.old
        (rename_octets (name.now, (rdn.now, (goes, superior.now))))) }
{
    writer.begin(0x6C)?;
    writer.octets(0x04, name.as_slice())?;
    writer.octets(0x04, rdn.as_slice())?;
    writer.boolean(0x01, goes)?;
    put_option(writer, 0x80, superior)?;
    writer.end()
}
