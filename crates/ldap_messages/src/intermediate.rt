//! Intermediate responses (RFC 4511, section 4.13).
//!
//! ```text
//! IntermediateResponse ::= [APPLICATION 25] SEQUENCE {
//!         responseName     [0] LDAPOID OPTIONAL,
//!         responseValue    [1] OCTET STRING OPTIONAL }
//! ```

ghost use Rattle.std.specs.Prelude.{◌≡◌, Ok, OnOk};
ghost use Rattle.ldap_ber.specs.Reading.{made_at};
ghost use Rattle.ldap_ber.specs.Writer.{after_bytes};
ghost use Rattle.ldap_ber.specs.Gives.{Gives};
ghost use Rattle.ldap_parts.specs.Faults.{ComponentFails};
ghost use Rattle.ldap_messages.specs.Intermediate.{intermediate_at, intermediate_octets};
ghost use Rattle.ldap_messages.specs.Operation.{operation_of, intermediate};

use crate::protocol::Protocol;
use ldap_ber::{NoMemory, Octets, Reader, Writer};
use ldap_parts::{ComponentFault, option_of, put_option};
use std::alloc::Global;

/// The IntermediateResponse that comes next.
#[tactic(auto, unfolding(crate::specs::Intermediate::intermediate_at, crate::specs::Operation::operation_of))]
pub(crate) fn intermediate_of(
    alloc: Global,
    reader: &mut Reader,
) -> Result<Protocol, ComponentFault>
    ensures exact { Gives ComponentFails (λ op. Ok (operation_of op, reader.new.left)) result
        (made_at intermediate intermediate_at reader.old.stop reader.old.left) }
    ensures stop { reader.new.stop ≡ reader.old.stop }
{
    let whole = reader.expect(0x79)?;
    let mut inner = Reader::inside(&whole);
    let name = option_of(alloc, &mut inner, 0x80)?;
    let value = option_of(alloc, &mut inner, 0x81)?;
    inner.skip()?;
    Ok(Protocol::IntermediateResponse { name, value })
}

pub(crate) fn put_intermediate(
    writer: &mut Writer,
    name: &Option<Octets>,
    value: &Option<Octets>,
) -> Result<(), NoMemory>
    ensures { OnOk result
        (writer.new ≡ after_bytes writer.old (intermediate_octets (name.now, value.now))) }
{
    writer.begin(0x79)?;
    put_option(writer, 0x80, name)?;
    put_option(writer, 0x81, value)?;
    writer.end()
}
