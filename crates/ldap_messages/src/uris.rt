//! Lists of URIs: a referral (RFC 4511, section 4.1.10), and the references of a search (section
//! 4.5.3).
//!
//! ```text
//! Referral ::= SEQUENCE SIZE (1..MAX) OF uri URI
//!
//! URI ::= LDAPString
//! ```

ghost use Rattle.std.specs.Prelude.{◌≡◌, Ok};
ghost use Rattle.ldap_ber.specs.Gives.{Gives};
ghost use Rattle.ldap_parts.specs.Faults.{ComponentFails};
ghost use Rattle.ldap_messages.specs.Uris.{uris_at};

use ldap_ber::{OctetsList, Reader};
use ldap_parts::{ComponentFault, strings_of};
use std::alloc::Global;

/// The URIs that come next, of which there has to be one.
#[tactic(auto, unfolding(crate::specs::Uris::uris_at))]
pub(crate) fn uris_of(
    alloc: Global,
    reader: &mut Reader,
    tag: u8,
) -> Result<OctetsList, ComponentFault>
    ensures exact { Gives ComponentFails (λ uris. Ok (uris, reader.new.left)) result
        (uris_at tag reader.old.stop reader.old.left) }
    ensures stop { reader.new.stop ≡ reader.old.stop }
{
    let place = reader.place();
    let uris = strings_of(alloc, reader, tag)?;
    if uris.list().is_empty() {
        return Err(ComponentFault::Refused(place));
    }
    Ok(uris)
}
