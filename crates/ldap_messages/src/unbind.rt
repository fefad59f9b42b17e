//! Unbind (RFC 4511, section 4.3).
//!
//! ```text
//! UnbindRequest ::= [APPLICATION 2] NULL
//! ```

ghost use Rattle.std.specs.Prelude.{◌≡◌, Ok, OnOk};
ghost use Rattle.ldap_ber.specs.Reading.{made_at};
ghost use Rattle.ldap_ber.specs.Writer.{after_bytes};
ghost use Rattle.ldap_ber.specs.Gives.{Gives};
ghost use Rattle.ldap_parts.specs.Faults.{ComponentFails};
ghost use Rattle.ldap_messages.specs.Unbind.{unbind_at, unbind_octets};
ghost use Rattle.ldap_messages.specs.Operation.{operation_of, unbind};

use crate::protocol::Protocol;
use ldap_ber::{NoMemory, Reader, Writer};
use ldap_parts::ComponentFault;

/// The UnbindRequest that comes next.
#[tactic(auto, unfolding(crate::specs::Unbind::unbind_at, crate::specs::Operation::operation_of))]
pub(crate) fn unbind_of(reader: &mut Reader) -> Result<Protocol, ComponentFault>
    ensures exact { Gives ComponentFails (λ op. Ok (operation_of op, reader.new.left)) result
        (made_at unbind unbind_at reader.old.stop reader.old.left) }
    ensures stop { reader.new.stop ≡ reader.old.stop }
{
    let place = reader.place();
    let body = reader.octets(0x42)?;
    if !body.is_empty() {
        return Err(ComponentFault::Refused(place));
    }
    Ok(Protocol::UnbindRequest)
}

pub(crate) fn put_unbind(writer: &mut Writer) -> Result<(), NoMemory>
    ensures { OnOk result (writer.new ≡ after_bytes writer.old unbind_octets) }
{
    writer.octets(0x42, &[])
}
