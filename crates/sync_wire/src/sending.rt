//! The messages of a search (RFC 4511, section 4.5.2; RFC 4533, sections 2.3 to 2.5).
ghost use Rattle.std.specs.Prelude.{◌≡◌, ◌<◌, ◌∷◌, ◌++◌, [], true, false, pos, Some, None, option_map, IfOk, IfSome, OnOk, codes};
ghost use Rattle.csn_cookie.specs.Cookie.{cookie_text};
ghost use Rattle.dn_names.specs.Writing.{name_text};
ghost use Rattle.ldap_messages.specs.Operation as operation;
ghost use Rattle.ldap_messages.specs.Whole.{message_value};
ghost use Rattle.sync_model.specs.Message.{phase_end};
ghost use Rattle.sync_model.specs.Message.SyncMessage.{AddOrModify, Delete, IdSet, RefreshPresent, Done};
ghost use Rattle.sync_model.specs.Stream.{end_of};
ghost use Rattle.sync_wire.specs.Sending.{sent, attributes_of, operational_attributes_of, single as attribute, state_control, info_name, result_of, uuid_text};

use csn_cookie::Cookie;
use dn_names::Dn;
use entry_tree::Entry;
use ldap_ber::{NoMemory, Octets, OctetsList};
use ldap_constants::{SUCCESS, SYNC_DONE, SYNC_INFO, SYNC_STATE};
use ldap_messages::{Control, ControlList, LdapResult, Message, Protocol};
use schema_rules::{RawAttribute, RawList};
use std::alloc::Global;
use sync_messages::{IdList, State, SyncDone, SyncInfo, SyncState};
use uuid::Uuid;

/// How many attributes an entry is sent with beside those that are held.
const OPERATIONAL_ATTRIBUTES: usize = 2;

/// The end of a search, with this result code and no control (RFC 4511, section 4.5.2). It is
/// `NoMemory` where memory runs out.
#[tactic(auto, using(crate::proofs::Operations::done_operation))]
pub fn done_message(alloc: Global, id: u32, code: u32) -> Result<Message, NoMemory>
    ensures { IfOk result (λ message. message_value message ≡ sent id (Done (pos code) None)) }
{
    let result = result_of(alloc, code)?;
    Ok(Message {
        id,
        op: Protocol::SearchResultDone(result),
        controls: ControlList::new(alloc),
    })
}

/// The end of a refresh that succeeded, with the cookie of its content. It reported what is
/// deleted, or else what is present. A search that persists goes on after a Sync Info message; any
/// other is over with its SearchResultDone (RFC 4533, sections 3.3.2 and 3.4.1). It is `NoMemory`
/// where memory runs out.
pub fn end_message(
    alloc: Global,
    id: u32,
    persists: bool,
    deletes: bool,
    cookie: &Cookie,
) -> Result<Message, NoMemory>
    requires rid { cookie.now.rid < 1000 }
    requires sid { cookie.now.sid < 4096 }
    ensures { IfOk result (λ message.
        message_value message ≡ sent id (end_of persists deletes (cookie_text cookie.now))) }
{
    let text = Octets::from_slice(alloc, &cookie.write())?;
    if persists {
        phase_end_message(alloc, id, deletes, text)
    } else {
        refresh_end_message(alloc, id, deletes, text)
    }
}

/// The Sync Info message with which a present phase ends and a delete phase begins, without a
/// cookie (RFC 4533, section 3.3.2). It is `NoMemory` where memory runs out.
pub fn present_end_message(alloc: Global, id: u32) -> Result<Message, NoMemory>
    ensures { IfOk result
        (λ message. message_value message ≡ sent id (RefreshPresent false None)) }
{
    let value = SyncInfo::RefreshPresent(None, false).write(alloc)?;
    info_message(alloc, id, value)
}

/// The Sync Info message refreshDelete or refreshPresent, with which the refresh is done.
fn phase_end_message(
    alloc: Global,
    id: u32,
    deletes: bool,
    cookie: Octets,
) -> Result<Message, NoMemory>
    ensures { IfOk result (λ message.
        message_value message ≡ sent id (phase_end deletes true (Some cookie))) }
{
    let value = if deletes {
        SyncInfo::RefreshDelete(Some(cookie), true).write(alloc)?
    } else {
        SyncInfo::RefreshPresent(Some(cookie), true).write(alloc)?
    };
    info_message(alloc, id, value)
}

/// SearchResultDone with a Sync Done control.
#[tactic(auto, using(crate::proofs::Operations::done_operation))]
fn refresh_end_message(
    alloc: Global,
    id: u32,
    deletes: bool,
    cookie: Octets,
) -> Result<Message, NoMemory>
    ensures { IfOk result (λ message.
        message_value message ≡ sent id (Done (pos SUCCESS) (Some (deletes, Some cookie)))) }
{
    let done = SyncDone {
        cookie: Some(cookie),
        refresh_deletes: deletes,
    };
    let controls = one_control(alloc, SYNC_DONE, done.write(alloc)?)?;
    let result = result_of(alloc, SUCCESS)?;
    Ok(Message {
        id,
        op: Protocol::SearchResultDone(result),
        controls,
    })
}

/// The whole entry in the state add, or else in the state modify (RFC 4533, section 2.3), with this
/// cookie, if any. It is `NoMemory` where memory runs out.
#[tactic(auto, using(crate::proofs::Operations::entry_operation))]
pub fn entry_message(
    alloc: Global,
    id: u32,
    adds: bool,
    entry: &Entry,
    cookie: Option<Cookie>,
) -> Result<Message, NoMemory>
    requires rid { IfSome cookie (λ c. c.rid < 1000) }
    requires sid { IfSome cookie (λ c. c.sid < 4096) }
    ensures { IfOk result (λ message.
        message_value message ≡ sent id
        (AddOrModify adds entry.now (option_map cookie_text cookie))) }
{
    let state = if adds { State::Add } else { State::Modify };
    let controls = state_control(alloc, state, entry.uuid, cookie)?;
    let name = entry.dn.write()?;
    let attributes = attributes_of(alloc, entry)?;
    Ok(Message {
        id,
        op: Protocol::SearchResultEntry { name, attributes },
        controls,
    })
}

/// The entry of this identity in the state delete (RFC 4533, section 2.3): the name that it had,
/// and no attributes, with this cookie, if any. It is `NoMemory` where memory runs out.
#[tactic(auto, using(crate::proofs::Operations::entry_operation))]
pub fn delete_message(
    alloc: Global,
    id: u32,
    uuid: u128,
    name: &Dn,
    cookie: Option<Cookie>,
) -> Result<Message, NoMemory>
    requires rid { IfSome cookie (λ c. c.rid < 1000) }
    requires sid { IfSome cookie (λ c. c.sid < 4096) }
    ensures { IfOk result (λ message.
        message_value message
        ≡ sent id (Delete uuid (name_text name.now) (option_map cookie_text cookie))) }
{
    let controls = state_control(alloc, State::Delete, uuid, cookie)?;
    let name = name.write()?;
    let attributes = RawList::new(alloc);
    Ok(Message {
        id,
        op: Protocol::SearchResultEntry { name, attributes },
        controls,
    })
}

/// The entries of these identities are deleted, or else present (RFC 4533, section 2.5), without a
/// cookie. It is `NoMemory` where memory runs out.
pub fn id_set_message(
    alloc: Global,
    id: u32,
    deletes: bool,
    uuids: &[u128],
) -> Result<Message, NoMemory>
    ensures { IfOk result
        (λ message. message_value message ≡ sent id (IdSet deletes uuids.now None)) }
{
    let names = SyncInfo::IdSet(None, deletes, list_of(alloc, uuids)?);
    info_message(alloc, id, names.write(alloc)?)
}

/// The Sync Info message with this value.
#[tactic(auto, using(crate::proofs::Operations::info_operation))]
fn info_message(alloc: Global, id: u32, value: Octets) -> Result<Message, NoMemory>
    ensures { IfOk result (λ message.
        message_value message ≡ (id, (operation.intermediate (Some info_name, Some value), []))) }
{
    Ok(Message {
        id,
        op: Protocol::IntermediateResponse {
            name: Some(Octets::from_slice(alloc, SYNC_INFO)?),
            value: Some(value),
        },
        controls: ControlList::new(alloc),
    })
}

/// A list of a Sync State control alone.
fn state_control(
    alloc: Global,
    state: State,
    uuid: u128,
    cookie: Option<Cookie>,
) -> Result<ControlList, NoMemory>
    requires rid { IfSome cookie (λ c. c.rid < 1000) }
    requires sid { IfSome cookie (λ c. c.sid < 4096) }
    ensures { IfOk result (λ controls.
        controls ≡ state_control state uuid (option_map cookie_text cookie) ∷ []) }
{
    let cookie = text_of(alloc, cookie)?;
    let state = SyncState {
        state,
        uuid,
        cookie,
    };
    one_control(alloc, SYNC_STATE, state.write(alloc)?)
}

/// The text of the cookie, if there is one.
fn text_of(alloc: Global, cookie: Option<Cookie>) -> Result<Option<Octets>, NoMemory>
    requires rid { IfSome cookie (λ c. c.rid < 1000) }
    requires sid { IfSome cookie (λ c. c.sid < 4096) }
    ensures { IfOk result (λ text. text ≡ option_map cookie_text cookie) }
{
    match cookie {
        Some(cookie) => Ok(Some(Octets::from_slice(alloc, &cookie.write())?)),
        None => Ok(None),
    }
}

/// The identities as a list of their own.
fn list_of(alloc: Global, uuids: &[u128]) -> Result<IdList, NoMemory>
    ensures { IfOk result (λ list. list ≡ uuids.now) }
{
    let mut list = IdList::with_room(alloc, uuids.len())?;
    for uuid in uuids {
        list.push(*uuid)?;
    }
    Ok(list)
}

/// The attributes in the order held, then `entryUUID` (RFC 4530) and `entryCSN`.
fn attributes_of(alloc: Global, entry: &Entry) -> Result<RawList, NoMemory>
    ensures { IfOk result (λ list. list ≡ attributes_of entry.now) }
{
    let held = entry.attrs.list();
    let mut list = RawList::with_room(alloc, held.len().saturating_add(OPERATIONAL_ATTRIBUTES))?;
    for attribute in held {
        list.push(RawAttribute {
            name: Octets::from_slice(alloc, attribute.kind.name())?,
            values: attribute.values.copy()?,
        })?;
    }
    push_operational_attributes(alloc, &mut list, entry)?;
    Ok(list)
}

fn push_operational_attributes(
    alloc: Global,
    list: &mut RawList,
    entry: &Entry,
) -> Result<(), NoMemory>
    ensures { OnOk result (list.new ≡ list.old ++ operational_attributes_of entry.now) }
{
    list.push(uuid_attribute(alloc, entry.uuid)?)?;
    list.push(single(alloc, b"entryCSN", &entry.csn.write())?)
}

/// The identity as an attribute.
fn uuid_attribute(alloc: Global, uuid: u128) -> Result<RawAttribute, NoMemory>
    ensures { IfOk result (λ made. made ≡ attribute (codes "entryUUID") (uuid_text uuid)) }
{
    let mut buffer = Uuid::encode_buffer();
    let uuid = Uuid::from_u128(uuid).hyphenated().encode_lower(&mut buffer);
    single(alloc, b"entryUUID", uuid.as_bytes())
}

/// The attribute of this name with this one value.
fn single(alloc: Global, name: &[u8], value: &[u8]) -> Result<RawAttribute, NoMemory>
    ensures { IfOk result (λ single. single ≡ attribute name.now value.now) }
{
    let value = Octets::from_slice(alloc, value)?;
    Ok(RawAttribute {
        name: Octets::from_slice(alloc, name)?,
        values: OctetsList::of_one(alloc, value),
    })
}

/// A list of this control alone, which is not critical.
fn one_control(alloc: Global, name: &[u8], value: Octets) -> Result<ControlList, NoMemory>
    ensures { IfOk result (λ controls.
        controls ≡ record { name = name.now; critical = false; value = Some value } ∷ []) }
{
    let mut controls = ControlList::with_room(alloc, 1)?;
    controls.push(Control {
        name: Octets::from_slice(alloc, name)?,
        critical: false,
        value: Some(value),
    })?;
    Ok(controls)
}

/// The result with this code, with empty texts and no referral.
fn result_of(alloc: Global, code: u32) -> Result<LdapResult, NoMemory>
    ensures { IfOk result (λ outcome. outcome ≡ result_of (pos code)) }
{
    Ok(LdapResult {
        code: i64::from(code),
        matched_dn: Octets::from_slice(alloc, b"")?,
        diagnostic_message: Octets::from_slice(alloc, b"")?,
        referral: None,
    })
}
