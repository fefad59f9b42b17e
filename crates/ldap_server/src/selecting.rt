//! Entries as a search without content synchronisation is sent them (RFC 4511, section 4.5.2).

ghost use Rattle.std.specs.Prelude.{◌≡◌, ◌≤◌, [], ◌∷◌, ◌++◌, codes, drop, length, IfOk, OnOk};
ghost use Rattle.std.specs.List.{flat_map, list_any};
ghost use Rattle.csn_cookie.specs.Csn.{csn_text};
ghost use Rattle.ldap_messages.specs.Whole.{message_value};
ghost use Rattle.schema_rules.specs.Schema.{type_named};
ghost use Rattle.schema_rules.specs.Attributes.{raw_of};
ghost use Rattle.sync_wire.specs.Sending.{single, uuid_text};
ghost use Rattle.ldap_server.specs.Points.{Sends};
ghost use Rattle.ldap_server.specs.Seen.{point_in};
ghost use Rattle.ldap_server.specs.Selecting.{entries_and_done, entry_octets, entry_whole, is_chosen, is_type, has_operational, selected_of, selects_type, sent_of, values_sent};

use crate::batches::in_batches;
use crate::response::Response;
use crate::session::Session;
use csn_cookie::Csn;
use entry_tree::{Entry, EntryList};
use ldap_ber::{NoMemory, Octets, OctetsList};
use ldap_messages::{ControlList, Message, Protocol};
use schema_rules::{Attribute, AttributeType, RawAttribute, RawList};
use std::alloc::{AllocError, Global};
use sync_provider::Port;
use uuid::Uuid;

/// The selector of every user attribute (RFC 4511, section 4.5.1.8).
const ALL_USER: &[u8] = b"*";

/// The selector of every operational attribute (RFC 3673).
const ALL_OPERATIONAL: &[u8] = b"+";

/// By how many entries it is guessed how long an answer will be.
const SAMPLE: usize = 64;

/// For how many octets room is made at first, at most. A longer answer makes more as it grows.
const MOST_ROOM: usize = 67_108_864;

/// What a search asks to be sent of each entry.
#[derive(Clone, Copy)]
pub(crate) struct Selection<'a> {
    pub(crate) selectors: &'a OctetsList,
    pub(crate) types_only: bool,
}

/// Whether a type is an operational one of the schema.
fn has_operational(kind: &Option<AttributeType>) -> bool
    ensures { result ≡ has_operational kind.now }
{
    match kind {
        Some(kind) => kind.operational(),
        None => false,
    }
}

/// Whether both types are the same one of the schema.
fn is_type(kind: &Option<AttributeType>, other: &Option<AttributeType>) -> bool
    ensures { result ≡ is_type kind.now other.now }
{
    match kind {
        Some(kind) => match other {
            Some(other) => kind.number() == other.number(),
            None => false,
        },
        None => false,
    }
}

/// Whether a selector selects a type: `*` the user attributes, `+` the operational ones, a name its
/// type.
#[tactic(auto, unfolding(crate::specs::Selecting::all_user, crate::specs::Selecting::all_operational))]
fn selects_type(kind: &Option<AttributeType>, selector: &[u8]) -> bool
    ensures { result ≡ selects_type kind.now selector.now }
{
    let all_user = selector == ALL_USER;
    let all_operational = selector == ALL_OPERATIONAL;
    let operational = has_operational(kind);
    let found = AttributeType::find(selector);
    let named = is_type(&found, kind);
    (all_user && !operational) || ((all_operational && operational) || named)
}

/// Whether some selector selects a type.
fn is_chosen(selectors: &[Octets], kind: &Option<AttributeType>) -> bool
    ensures { result ≡ is_chosen selectors.now kind.now }
{
    if selectors.is_empty() {
        return !has_operational(kind);
    }
    is_selected_by_any(selectors, kind)
}

fn is_selected_by_any(selectors: &[Octets], kind: &Option<AttributeType>) -> bool
    ensures { result ≡ list_any (selects_type kind.now) selectors.now }
{
    selectors
        .iter()
        .any(|selector| selects_type(kind, selector.as_slice()))
}

/// The values that are sent of an attribute: none where types alone are wanted.
fn values_sent(alloc: Global, values: &OctetsList, types_only: bool) -> Result<OctetsList, NoMemory>
    ensures { IfOk result (λ sent. sent ≡ values_sent types_only values.now) }
{
    if types_only {
        return Ok(OctetsList::new(alloc));
    }
    values.copy()
}

/// Puts an attribute of this type at the end of a list, where a search is sent it.
fn push_selected(
    alloc: Global,
    list: &mut RawList,
    kind: Option<AttributeType>,
    name: &[u8],
    values: &OctetsList,
    selection: Selection<'_>,
) -> Result<(), NoMemory>
    requires { kind ≡ type_named name.now }
    ensures { OnOk result (list.new ≡ list.old
        ++ sent_of selection.entry.selectors.now selection.entry.types_only
        ((record { name = name.now; values = values.now }) ∷ [])) }
{
    if !is_chosen(selection.selectors.list(), &kind) {
        return Ok(());
    }
    let sent = values_sent(alloc, values, selection.types_only)?;
    let text = Octets::from_slice(alloc, name)?;
    list.push(RawAttribute {
        name: text,
        values: sent,
    })
}

/// Puts an attribute of an entry at the end of a list, where a search is sent it.
fn push_held(
    alloc: Global,
    list: &mut RawList,
    attribute: &Attribute,
    selection: Selection<'_>,
) -> Result<(), NoMemory>
    ensures { OnOk result (list.new ≡ list.old
        ++ sent_of selection.entry.selectors.now selection.entry.types_only
        (raw_of attribute.now ∷ [])) }
{
    let kind = attribute.kind;
    push_selected(
        alloc,
        list,
        Some(kind),
        kind.name(),
        &attribute.values,
        selection,
    )
}

/// Puts an attribute with one value at the end of a list, where a search is sent it.
fn push_single(
    alloc: Global,
    list: &mut RawList,
    name: &[u8],
    value: &[u8],
    selection: Selection<'_>,
) -> Result<(), NoMemory>
    ensures { OnOk result (list.new ≡ list.old
        ++ sent_of selection.entry.selectors.now selection.entry.types_only
        (single name.now value.now ∷ [])) }
{
    let octets = Octets::from_slice(alloc, value)?;
    let values = OctetsList::of_one(alloc, octets);
    push_selected(
        alloc,
        list,
        AttributeType::find(name),
        name,
        &values,
        selection,
    )
}

/// Puts the identity of an entry (RFC 4530) at the end of a list, where a search is sent it.
fn push_identity(
    alloc: Global,
    list: &mut RawList,
    uuid: u128,
    selection: Selection<'_>,
) -> Result<(), NoMemory>
    ensures { OnOk result (list.new ≡ list.old
        ++ sent_of selection.entry.selectors.now selection.entry.types_only
        (single (codes "entryUUID") (uuid_text uuid) ∷ [])) }
{
    let mut buffer = Uuid::encode_buffer();
    let uuid = Uuid::from_u128(uuid).hyphenated().encode_lower(&mut buffer);
    push_single(alloc, list, b"entryUUID", uuid.as_bytes(), selection)
}

/// Puts the CSN of an entry's last change at the end of a list, where a search is sent it.
fn push_csn(
    alloc: Global,
    list: &mut RawList,
    csn: Csn,
    selection: Selection<'_>,
) -> Result<(), NoMemory>
    ensures { OnOk result (list.new ≡ list.old
        ++ sent_of selection.entry.selectors.now selection.entry.types_only
        (single (codes "entryCSN") (csn_text csn) ∷ [])) }
{
    push_single(alloc, list, b"entryCSN", &csn.write(), selection)
}

/// The attributes of an entry that a search is sent: of those that are held, in their order, and
/// then of the operational ones.
fn selected_of(alloc: Global, entry: &Entry, selection: Selection<'_>) -> Result<RawList, NoMemory>
    ensures { IfOk result (λ list.
        list ≡ selected_of selection.entry.selectors.now selection.entry.types_only entry.now) }
{
    let held = entry.attrs.list();
    let mut list = RawList::new(alloc);
    for attribute in held {
        push_held(alloc, &mut list, attribute, selection)?;
    }
    push_identity(alloc, &mut list, entry.uuid, selection)?;
    push_csn(alloc, &mut list, entry.csn, selection)?;
    Ok(list)
}

/// An entry as a search is sent it.
#[tactic(auto, unfolding(ldap_messages::specs::Operation::operation_of))]
fn entry_message(
    alloc: Global,
    id: u32,
    entry: &Entry,
    selection: Selection<'_>,
) -> Result<Message, NoMemory>
    ensures { IfOk result (λ message. message_value message
        ≡ entry_whole id selection.entry.selectors.now selection.entry.types_only entry.now) }
{
    let name = entry.dn.write()?;
    let attributes = selected_of(alloc, entry, selection)?;
    Ok(Message {
        id,
        op: Protocol::SearchResultEntry { name, attributes },
        controls: ControlList::new(alloc),
    })
}

impl<P: Port> Session<P> {
    /// Sends an entry.
    fn send_entry(
        &mut self,
        id: u32,
        entry: &Entry,
        selection: Selection<'_>,
    ) -> Result<(), NoMemory>
        ensures port { self.new.port ≡ self.old.port }
        ensures sends { Sends
            (entry_octets id selection.entry.selectors.now selection.entry.types_only entry.now)
            (point_in P.state self.old) result (point_in P.state self.new) }
    {
        let Ok(message) = entry_message(self.alloc, id, entry, selection) else {
            return Err(AllocError);
        };
        self.send(message)
    }

    /// Sends entries, in their order.
    fn send_each_entry(
        &mut self,
        id: u32,
        entries: &[Entry],
        selection: Selection<'_>,
    ) -> Result<(), NoMemory>
        ensures port { self.new.port ≡ self.old.port }
        ensures sends { Sends
            (flat_map (entry_octets id selection.entry.selectors.now
            selection.entry.types_only) entries.now)
            (point_in P.state self.old) result (point_in P.state self.new) }
    {
        for entry in entries {
            match self.send_entry(id, entry, selection) {
                Ok(()) => {}
                Err(_) => return Err(AllocError),
            }
        }
        Ok(())
    }

    /// Makes room for this many more entries, by the octets that some others have: so a long answer
    /// is not moved as it grows, which would take its memory twice. Where memory runs out, no room
    /// is made.
    fn make_room(&mut self, octets: usize, count: usize, more: usize)
        ensures port { self.new.port ≡ self.old.port }
        ensures same { point_in P.state self.new ≡ point_in P.state self.old }
    {
        if count == 0 || more == 0 {
            return;
        }
        let wanted = (octets / count).saturating_mul(more);
        let room = wanted.saturating_add(wanted / 8).min(MOST_ROOM);
        let _ = self.sent.reserve(room);
    }

    /// Sends the entries of these batches, in their order. Each batch is given up once it is sent.
    fn send_batches(
        &mut self,
        id: u32,
        batches: Vec<Vec<Entry>>,
        selection: Selection<'_>,
    ) -> Result<(), NoMemory>
        ensures port { self.new.port ≡ self.old.port }
        ensures sends { Sends
            (flat_map (λ batch. flat_map (entry_octets id selection.entry.selectors.now
            selection.entry.types_only) batch.items) batches.items)
            (point_in P.state self.old) result (point_in P.state self.new) }
    {
        for batch in batches {
            match self.send_each_entry(id, batch.as_slice(), selection) {
                Ok(()) => {}
                Err(_) => return Err(AllocError),
            }
        }
        Ok(())
    }

    /// Sends the entries from a place on, in their order. They are given up a batch at a time while
    /// they are sent, so that they don't stand beside the whole answer.
    fn send_from(
        &mut self,
        id: u32,
        entries: EntryList,
        place: usize,
        selection: Selection<'_>,
    ) -> Result<(), NoMemory>
        requires { place ≤ length entries }
        ensures port { self.new.port ≡ self.old.port }
        ensures sends { Sends
            (flat_map (entry_octets id selection.entry.selectors.now
            selection.entry.types_only) (drop place entries))
            (point_in P.state self.old) result (point_in P.state self.new) }
    {
        match in_batches(self.alloc, entries.into_items(), place) {
            Ok(batches) => self.send_batches(id, batches, selection),
            Err(_) => Err(AllocError),
        }
    }

    /// Sends the entries, and the end with this code.
    pub(crate) fn send_entries(
        &mut self,
        id: u32,
        entries: EntryList,
        selection: Selection<'_>,
        code: u32,
    ) -> Result<(), NoMemory>
        ensures port { self.new.port ≡ self.old.port }
        ensures sends { Sends
            (entries_and_done id selection.entry.selectors.now selection.entry.types_only
            entries code)
            (point_in P.state self.old) result (point_in P.state self.new) }
    {
        let held = entries.list();
        let count = held.len().min(SAMPLE);
        let (first, rest) = held.split_at(count);
        let before = self.sent.len();
        let Ok(()) = self.send_each_entry(id, first, selection) else {
            return Err(AllocError);
        };
        let octets = self.sent.len().saturating_sub(before);
        self.make_room(octets, count, rest.len());
        match self.send_from(id, entries, count, selection) {
            Ok(()) => self.respond(id, Response::SearchDone, code),
            Err(_) => Err(AllocError),
        }
    }
}
