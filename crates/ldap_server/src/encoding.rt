//! Messages as they are sent.

ghost use Rattle.std.specs.Prelude.{◌≡◌, IfOk};
ghost use Rattle.ldap_messages.specs.Operation.{operation_of, IsOfGrammar};
ghost use Rattle.ldap_messages.specs.Whole.{message_octets, message_value};
ghost use Rattle.ldap_server.specs.Encoding.{notice};

use crate::response::result_with;
use ldap_ber::{NoMemory, Octets, discard};
use ldap_constants::{NOTICE_OF_DISCONNECTION, PROTOCOL_ERROR};
use ldap_messages::{ControlList, Message, Protocol};
use std::alloc::{AllocError, Global};

/// The greatest message ID (RFC 4511, section 4.1.1.1).
const MOST_ID: u32 = 2_147_483_647;

/// A message as it is sent. One whose ID is too great has no encoding: it counts as out of memory,
/// so that no caller owes the bound.
pub(crate) fn encoded(alloc: Global, message: Message) -> Result<Octets, NoMemory>
    requires { IsOfGrammar (operation_of message.op) }
    ensures { IfOk result (λ octets. octets ≡ message_octets (message_value message)) }
{
    if MOST_ID < message.id {
        discard(message);
        return Err(AllocError);
    }
    let octets = message.write(alloc);
    discard(message);
    octets
}

/// The Notice of Disconnection with protocolError, as it is sent.
#[tactic(auto, unfolding(ldap_messages::specs::Operation::operation_of))]
pub(crate) fn encoded_notice(alloc: Global) -> Result<Octets, NoMemory>
    ensures { IfOk result (λ octets. octets ≡ notice) }
{
    let name = Octets::from_slice(alloc, NOTICE_OF_DISCONNECTION)?;
    let op = Protocol::ExtendedResponse {
        result: result_with(alloc, PROTOCOL_ERROR),
        name: Some(name),
        value: None,
    };
    encoded(
        alloc,
        Message {
            id: 0,
            op,
            controls: ControlList::new(alloc),
        },
    )
}
