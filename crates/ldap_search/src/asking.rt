//! Messages that are written, and dropped then.

ghost use Rattle.std.specs.Prelude.{◌≡◌, None};
ghost use Rattle.ldap_client.specs.Clients.{Asks, client_by};
ghost use Rattle.ldap_client.specs.Links.{link_by};
ghost use Rattle.ldap_messages.specs.Whole.{HasSpelling, message_octets, message_value};

use ldap_ber::discard;
use ldap_client::{Client, ClientFault};
use ldap_messages::Message;
use sync_io::Link;

/// Writes a message.
pub(crate) fn send<L: Link>(client: &mut Client<L>, message: Message) -> Result<(), ClientFault>
    requires spelled { HasSpelling (message_value message) }
    requires live { let state = link_by L.bytes_left L.bytes_read L.bytes_held
        L.read_fault_count L.write_fault_count in
        (client_by state client.old).fault ≡ None }
    ensures { let state = link_by L.bytes_left L.bytes_read L.bytes_held
        L.read_fault_count L.write_fault_count in
        Asks (message_octets (message_value message)) (client_by state client.old) result
        (client_by state client.new) }
{
    let asked = client.ask(&message);
    discard(message);
    asked
}
