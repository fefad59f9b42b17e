//! What a message says to a search.

ghost use Rattle.std.specs.Prelude.{◌≡◌, Ok};
ghost use Rattle.sync_wire.specs.Decoding as spec;
ghost use Rattle.ldap_ber.specs.Gives.{Gives};
ghost use Rattle.sync_wire.specs.Refusals.{DecodeFails, on_ok};

use crate::fault::DecodeFault;
use crate::known_names::{KnownNames, NoNames};
use crate::operational::check_uuid;
use crate::values::{sync_done, sync_info, sync_state};
use crate::wire_entry::entry_of;
use entry_tree::Entry;
use ldap_ber::Octets;
use ldap_constants::SYNC_INFO;
use ldap_messages::{Message, Protocol};
use schema_rules::RawAttribute;
use std::alloc::Global;
use sync_messages::{IdList, State, SyncDone, SyncInfo, SyncState};

/// What a message says. Each cookie is that of the content with what is said.
#[derive(Drop)]
pub enum SyncEvent {
    /// An entry is added or modified.
    AddOrModify(Entry, Option<Octets>),
    /// An entry is deleted.
    Delete(u128, Option<Octets>),
    /// An entry is present.
    Present(u128),
    /// Entries are deleted, or else present.
    IdSet {
        deletes: bool,
        uuids: IdList,
        cookie: Option<Octets>,
    },
    NewCookie(Octets),
    /// A delete phase ends, and with it the refresh or not.
    RefreshDelete {
        done: bool,
        cookie: Option<Octets>,
    },
    /// A present phase ends, and with it the refresh or not.
    RefreshPresent {
        done: bool,
        cookie: Option<Octets>,
    },
    /// The search ends with this result code.
    Done {
        code: i64,
        control: Option<SyncDone>,
    },
    /// Nothing that concerns the copy.
    Ignored,
}

/// What the message says to a search that is in its refresh or has come to its persist stage (RFC
/// 4533, section 2). It is `OutOfPlace` for a message that does not belong there; then `BadValue`
/// for a value outside its grammar; then, of an entry, `UuidDiffers` or `BadEntry`; or `NoMemory`.
pub fn decode(alloc: Global, message: &Message, persisting: bool) -> Result<SyncEvent, DecodeFault>
    ensures { Gives DecodeFails (λ h. Ok h) result
        (on_ok spec.decoded_of (spec.said persisting message.now)) }
{
    decode_beside(alloc, message, persisting, &NoNames)
}

/// The same. An entry shares the RDNs of the name that is known of its identity where it is sent
/// with the text of that name, which is not read again then.
pub fn decode_beside<N: KnownNames>(
    alloc: Global,
    message: &Message,
    persisting: bool,
    names: &N,
) -> Result<SyncEvent, DecodeFault>
    ensures { Gives DecodeFails (λ h. Ok h) result
        (on_ok spec.decoded_of (spec.said persisting message.now)) }
{
    let controls = message.controls.list();
    match &message.op {
        Protocol::SearchResultEntry { name, attributes } => {
            let state = sync_state(alloc, controls)?;
            entry_decoded(alloc, persisting, state, name, attributes.list(), names)
        }
        Protocol::SearchResultReference(_) => Ok(SyncEvent::Ignored),
        Protocol::IntermediateResponse { name, value } => response_decoded(alloc, name, value),
        Protocol::SearchResultDone(result) => {
            let control = sync_done(alloc, controls)?;
            Ok(SyncEvent::Done {
                code: result.code,
                control,
            })
        }
        Protocol::BindRequest { .. }
        | Protocol::BindResponse { .. }
        | Protocol::UnbindRequest
        | Protocol::SearchRequest(_)
        | Protocol::Write(_)
        | Protocol::ModifyResponse(_)
        | Protocol::AddResponse(_)
        | Protocol::DelResponse(_)
        | Protocol::ModifyDnResponse(_)
        | Protocol::CompareRequest { .. }
        | Protocol::CompareResponse(_)
        | Protocol::AbandonRequest(_)
        | Protocol::ExtendedRequest { .. }
        | Protocol::ExtendedResponse { .. } => Err(DecodeFault::OutOfPlace),
    }
}

/// What an entry with this Sync State control says.
fn entry_decoded<N: KnownNames>(
    alloc: Global,
    persisting: bool,
    state: SyncState,
    name: &Octets,
    raws: &[RawAttribute],
    names: &N,
) -> Result<SyncEvent, DecodeFault>
    ensures { Gives DecodeFails (λ h. Ok h) result
        (on_ok spec.decoded_of (spec.entry_said persisting name.now raws.now state)) }
{
    if persisting && matches!(state.state, State::Present) {
        return Err(DecodeFault::OutOfPlace);
    }
    let uuid = state.uuid;
    let are_uuids = check_uuid(raws, uuid)?;
    match state.state {
        State::Add | State::Modify => {
            let entry = entry_of(alloc, uuid, name, names.name_of(uuid), raws, are_uuids)?;
            Ok(SyncEvent::AddOrModify(entry, state.cookie))
        }
        State::Delete => Ok(SyncEvent::Delete(uuid, state.cookie)),
        State::Present => Ok(SyncEvent::Present(uuid)),
    }
}

/// What an intermediate response says.
fn response_decoded(
    alloc: Global,
    name: &Option<Octets>,
    value: &Option<Octets>,
) -> Result<SyncEvent, DecodeFault>
    ensures { Gives DecodeFails (λ h. Ok h) result
        (on_ok spec.decoded_of (spec.response_said name.now value.now)) }
{
    if !is_sync_info(name) {
        return Ok(SyncEvent::Ignored);
    }
    let info = sync_info(alloc, value)?;
    Ok(info_decoded(info))
}

fn is_sync_info(name: &Option<Octets>) -> bool
    ensures { result ≡ spec.is_sync_info name.now }
{
    match name {
        Some(name) => name.as_slice() == SYNC_INFO,
        None => false,
    }
}

fn info_decoded(info: SyncInfo) -> SyncEvent
    ensures { result ≡ spec.decoded_of (spec.info_said info) }
{
    match info {
        SyncInfo::NewCookie(cookie) => SyncEvent::NewCookie(cookie),
        SyncInfo::RefreshDelete(cookie, done) => SyncEvent::RefreshDelete { done, cookie },
        SyncInfo::RefreshPresent(cookie, done) => SyncEvent::RefreshPresent { done, cookie },
        SyncInfo::IdSet(cookie, deletes, uuids) => SyncEvent::IdSet {
            deletes,
            uuids,
            cookie,
        },
    }
}
