//! The values of controls and of Sync Info messages (RFC 4533, section 2).

ghost use Rattle.std.specs.Prelude.{◌≡◌, Ok};
ghost use Rattle.ldap_ber.specs.Gives.{Gives};
ghost use Rattle.sync_wire.specs.Refusals.{DecodeFails};
ghost use Rattle.sync_wire.specs.Values as spec;

use crate::fault::DecodeFault;
use ldap_ber::Octets;
use ldap_constants::{SYNC_DONE, SYNC_STATE};
use ldap_messages::{Control, control_named};
use std::alloc::Global;
use sync_messages::{SyncDone, SyncFault, SyncInfo, SyncState};

impl From<SyncFault> for DecodeFault {
    ghost from_gives = { λ fault refusal. refusal ≡ spec.refusal_of fault };

    fn from(fault: SyncFault) -> DecodeFault {
        match fault {
            SyncFault::NoMemory => DecodeFault::NoMemory,
            SyncFault::Ber(_)
            | SyncFault::BadMode(_)
            | SyncFault::BadUuidLength(_)
            | SyncFault::BadState(_) => DecodeFault::BadValue,
        }
    }
}

/// The bytes of a value, which have to be there.
fn given(value: &Option<Octets>) -> Result<&[u8], DecodeFault>
    ensures { Gives DecodeFails (λ bytes. Ok bytes.now) result (spec.given_value value.now) }
{
    match value {
        Some(value) => Ok(value.as_slice()),
        None => Err(DecodeFault::BadValue),
    }
}

/// What the Sync State control says, where an entry has one.
pub(crate) fn sync_state(alloc: Global, controls: &[Control]) -> Result<SyncState, DecodeFault>
    ensures { Gives DecodeFails (λ state. Ok state) result (spec.sync_state controls.now) }
{
    let Some(control) = control_named(controls, SYNC_STATE) else {
        return Err(DecodeFault::OutOfPlace);
    };
    let value = given(&control.value)?;
    Ok(SyncState::read(alloc, value)?)
}

/// What the Sync Done control says, where the end of a search has one.
pub(crate) fn sync_done(
    alloc: Global,
    controls: &[Control],
) -> Result<Option<SyncDone>, DecodeFault>
    ensures { Gives DecodeFails (λ done. Ok done) result (spec.sync_done controls.now) }
{
    let Some(control) = control_named(controls, SYNC_DONE) else {
        return Ok(None);
    };
    let value = given(&control.value)?;
    Ok(Some(SyncDone::read(alloc, value)?))
}

/// What a Sync Info message says.
pub(crate) fn sync_info(alloc: Global, value: &Option<Octets>) -> Result<SyncInfo, DecodeFault>
    ensures { Gives DecodeFails (λ info. Ok info) result (spec.sync_info value.now) }
{
    let value = given(value)?;
    Ok(SyncInfo::read(alloc, value)?)
}
