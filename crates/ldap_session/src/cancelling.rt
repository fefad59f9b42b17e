//! The Cancel operation (RFC 3909).

ghost use Rattle.std.specs.Prelude.{◌≡◌, Ok, IfOk};
ghost use Rattle.ldap_ber.specs.Gives.{Gives};
ghost use Rattle.ldap_parts.specs.Faults.{ComponentFails, place_of};
ghost use Rattle.ldap_ber.specs.Reading.{whole_at};
ghost use Rattle.ldap_session.specs.Cancelling.{is_cancel, cancel_at, target_of};

use ldap_ber::{NoMemory, Octets, Reader};
use ldap_constants::CANCEL;
use ldap_parts::{ComponentFault, range_of};
use std::alloc::AllocError;

/// Whether an extended operation of this name is a Cancel.
pub fn cancels(name: &Octets) -> bool
    ensures { result ≡ is_cancel name.now }
{
    name.as_slice() == CANCEL
}

/// The message ID of the operation that is to be cancelled, or None where there is no value, or one
/// outside its grammar. It is `NoMemory` where memory runs out.
#[tactic(auto, unfolding(crate::specs::Cancelling::target_of))]
pub fn target_of(value: &Option<Octets>) -> Result<Option<i64>, NoMemory>
    ensures { IfOk result (λ target. target ≡ target_of value.now) }
{
    let Some(value) = value else {
        return Ok(None);
    };
    match read_target(value.as_slice()) {
        Ok(id) => Ok(Some(i64::from(id))),
        Err(ComponentFault::Refused(_)) => Ok(None),
        Err(ComponentFault::NoMemory) => Err(AllocError),
    }
}

/// The message ID that all of the bytes encode.
fn read_target(bytes: &[u8]) -> Result<u32, ComponentFault>
    ensures { Gives ComponentFails (λ id. Ok id) result (whole_at place_of cancel_at bytes.now) }
{
    let mut reader = Reader::new(bytes);
    let id = next_target(&mut reader)?;
    reader.end()?;
    Ok(id)
}

/// The message ID that comes next.
#[tactic(auto, unfolding(crate::specs::Cancelling::cancel_at))]
fn next_target(reader: &mut Reader) -> Result<u32, ComponentFault>
    ensures exact { Gives ComponentFails (λ id. Ok (id, reader.new.left)) result
        (cancel_at reader.old.stop reader.old.left) }
    ensures stop { reader.new.stop ≡ reader.old.stop }
{
    let whole = reader.expect(0x30)?;
    let mut inner = Reader::inside(&whole);
    let id = range_of(&mut inner, 0x02, 0, 2_147_483_647)?;
    inner.skip()?;
    Ok(id)
}
