//! Abandon (RFC 4511, section 4.11).
//!
//! ```text
//! AbandonRequest ::= [APPLICATION 16] MessageID
//! ```

ghost use Rattle.std.specs.Prelude.{◌≡◌, Ok};
ghost use Rattle.ldap_ber.specs.Reading.{made_at};
ghost use Rattle.ldap_ber.specs.Gives.{Gives};
ghost use Rattle.ldap_parts.specs.Faults.{ComponentFails};
ghost use Rattle.ldap_messages.specs.Abandon.{abandon_at};
ghost use Rattle.ldap_messages.specs.Operation.{operation_of, abandon};

use crate::protocol::Protocol;
use ldap_ber::Reader;
use ldap_parts::{ComponentFault, number_of};

/// The AbandonRequest that comes next. Its number may be that of no message.
#[tactic(auto, unfolding(crate::specs::Abandon::abandon_at, crate::specs::Operation::operation_of))]
pub(crate) fn abandon_of(reader: &mut Reader) -> Result<Protocol, ComponentFault>
    ensures exact { Gives ComponentFails (λ op. Ok (operation_of op, reader.new.left)) result
        (made_at abandon abandon_at reader.old.stop reader.old.left) }
    ensures stop { reader.new.stop ≡ reader.old.stop }
{
    let id = number_of(reader, 0x50)?;
    Ok(Protocol::AbandonRequest(id))
}
