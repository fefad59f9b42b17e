//! Search, its entries and its references (RFC 4511, section 4.5).
//!
//! ```text
//! SearchRequest ::= [APPLICATION 3] SEQUENCE {
//!      baseObject      LDAPDN,
//!      scope           ENUMERATED {
//!           baseObject              (0),
//!           singleLevel             (1),
//!           wholeSubtree            (2),
//!           ...  },
//!      derefAliases    ENUMERATED {
//!           neverDerefAliases       (0),
//!           derefInSearching        (1),
//!           derefFindingBaseObj     (2),
//!           derefAlways             (3) },
//!      sizeLimit       INTEGER (0 ..  maxInt),
//!      timeLimit       INTEGER (0 ..  maxInt),
//!      typesOnly       BOOLEAN,
//!      filter          Filter,
//!      attributes      AttributeSelection }
//!
//! AttributeSelection ::= SEQUENCE OF selector LDAPString
//!
//! SearchResultEntry ::= [APPLICATION 4] SEQUENCE {
//!      objectName      LDAPDN,
//!      attributes      PartialAttributeList }
//!
//! SearchResultReference ::= [APPLICATION 19] SEQUENCE
//!                           SIZE (1..MAX) OF uri URI
//!
//! SearchResultDone ::= [APPLICATION 5] LDAPResult
//! ```

ghost use Rattle.std.specs.Prelude.{◌≡◌, ◌≤◌, true, Ok, OnOk};
ghost use Rattle.ldap_ber.specs.Reading.{made_at};
ghost use Rattle.ldap_ber.specs.Writer.{after_bytes};
ghost use Rattle.ldap_filter.specs.FilterTree.{tree_of};
ghost use Rattle.ldap_ber.specs.Gives.{Gives};
ghost use Rattle.ldap_parts.specs.Faults.{ComponentFails};
ghost use Rattle.ldap_parts.specs.Filters.{have_piece};
ghost use Rattle.ldap_messages.specs.Search.{scope_number, scope_at, search_bounds_at, search_at, entry_at, reference_at, search_bounds_octets, search_octets, entry_octets};
ghost use Rattle.ldap_messages.specs.Operation.{operation_of, search, entry, reference};

use crate::protocol::Protocol;
use crate::uris::uris_of;
use ldap_ber::{NoMemory, Octets, OctetsList, Reader, Writer};
use ldap_filter::Filter;
use ldap_parts::{
    ComponentFault, attributes_of, boolean_of, filter_of, octet_string_of, put_attributes,
    put_filter, put_number, put_strings, range_of, strings_of,
};
use schema_rules::RawAttribute;
use std::alloc::Global;

/// How many filters may stand in one another.
const LEVELS: usize = 32;

/// maxInt.
const MOST: u32 = 2_147_483_647;

/// The entries that a search is about.
#[derive(Clone, Copy, Debug, PartialEq, Eq)]
pub enum SearchScope {
    Base,
    One,
    Sub,
}

/// How far a search reaches.
#[derive(Drop)]
struct SearchBounds {
    base: Octets,
    scope: SearchScope,
    deref: u8,
    size_limit: u32,
    time_limit: u32,
    types_only: bool,
}

/// What a SearchRequest asks for.
#[derive(Drop)]
pub struct SearchRequest {
    pub base: Octets,
    pub scope: SearchScope,
    /// How aliases are followed, 0 to 3.
    pub deref: u8,
    /// At most 2,147,483,647 entries, or 0 for any number.
    pub size_limit: u32,
    /// At most 2,147,483,647 seconds, or 0 for any number.
    pub time_limit: u32,
    pub types_only: bool,
    pub filter: Filter,
    pub attributes: OctetsList,
}

/// The SearchRequest that comes next.
#[tactic(auto, unfolding(crate::specs::Search::search_at, crate::specs::Operation::operation_of))]
pub(crate) fn search_of(alloc: Global, reader: &mut Reader) -> Result<Protocol, ComponentFault>
    ensures exact { Gives ComponentFails (λ op. Ok (operation_of op, reader.new.left)) result
        (made_at search search_at reader.old.stop reader.old.left) }
    ensures stop { reader.new.stop ≡ reader.old.stop }
{
    let whole = reader.expect(0x63)?;
    let mut inner = Reader::inside(&whole);
    let search_bounds = search_bounds_of(alloc, &mut inner)?;
    let filter = filter_of(alloc, &mut inner, LEVELS)?;
    let attributes = strings_of(alloc, &mut inner, 0x30)?;
    inner.skip()?;
    Ok(Protocol::SearchRequest(SearchRequest {
        base: search_bounds.base,
        scope: search_bounds.scope,
        deref: search_bounds.deref,
        size_limit: search_bounds.size_limit,
        time_limit: search_bounds.time_limit,
        types_only: search_bounds.types_only,
        filter,
        attributes,
    }))
}

/// The components in front of the filter, which come next.
#[tactic(auto, unfolding(crate::specs::Search::search_bounds_at))]
fn search_bounds_of(alloc: Global, reader: &mut Reader) -> Result<SearchBounds, ComponentFault>
    ensures exact { Gives ComponentFails (λ search_bounds. Ok (
      (
        search_bounds.base,
        (
          scope_number search_bounds.scope,
          (
            search_bounds.deref,
            (search_bounds.size_limit, (search_bounds.time_limit, search_bounds.types_only)),
          ),
        ),
      ),
      reader.new.left,
    )) result
        (search_bounds_at reader.old.stop reader.old.left) }
    ensures stop { reader.new.stop ≡ reader.old.stop }
{
    let base = octet_string_of(alloc, reader, 0x04)?;
    let scope = scope_of(reader)?;
    let deref = range_of(reader, 0x0A, 0, 3)?;
    let size_limit = range_of(reader, 0x02, 0, MOST)?;
    let time_limit = range_of(reader, 0x02, 0, MOST)?;
    let types_only = boolean_of(reader)?;
    Ok(SearchBounds {
        base,
        scope,
        deref: deref as u8,
        size_limit,
        time_limit,
        types_only,
    })
}

fn scope_of(reader: &mut Reader) -> Result<SearchScope, ComponentFault>
    ensures exact { Gives ComponentFails (λ scope. Ok (scope_number scope, reader.new.left)) result
        (scope_at reader.old.stop reader.old.left) }
    ensures stop { reader.new.stop ≡ reader.old.stop }
{
    let number = range_of(reader, 0x0A, 0, 2)?;
    match number {
        0 => Ok(SearchScope::Base),
        1 => Ok(SearchScope::One),
        _ => Ok(SearchScope::Sub),
    }
}

/// The SearchResultEntry that comes next.
#[tactic(auto, unfolding(crate::specs::Search::entry_at, crate::specs::Operation::operation_of))]
pub(crate) fn entry_of(alloc: Global, reader: &mut Reader) -> Result<Protocol, ComponentFault>
    ensures exact { Gives ComponentFails (λ op. Ok (operation_of op, reader.new.left)) result
        (made_at entry entry_at reader.old.stop reader.old.left) }
    ensures stop { reader.new.stop ≡ reader.old.stop }
{
    let whole = reader.expect(0x64)?;
    let mut inner = Reader::inside(&whole);
    let name = octet_string_of(alloc, &mut inner, 0x04)?;
    let attributes = attributes_of(alloc, &mut inner)?;
    inner.skip()?;
    Ok(Protocol::SearchResultEntry { name, attributes })
}

/// The SearchResultReference that comes next.
#[tactic(auto, unfolding(crate::specs::Operation::operation_of))]
pub(crate) fn reference_of(alloc: Global, reader: &mut Reader) -> Result<Protocol, ComponentFault>
    ensures exact { Gives ComponentFails (λ op. Ok (operation_of op, reader.new.left)) result
        (made_at reference reference_at reader.old.stop reader.old.left) }
    ensures stop { reader.new.stop ≡ reader.old.stop }
{
    let uris = uris_of(alloc, reader, 0x73)?;
    Ok(Protocol::SearchResultReference(uris))
}

pub(crate) fn put_search(writer: &mut Writer, asked: &SearchRequest) -> Result<(), NoMemory>
    ensures ok { OnOk result (writer.new ≡ after_bytes writer.old (search_octets (
      (
        asked.now.base,
        (
          scope_number asked.now.scope,
          (
            asked.now.deref,
            (asked.now.size_limit, (asked.now.time_limit, asked.now.types_only)),
          ),
        ),
      ),
      (tree_of asked.now.filter, asked.now.attributes),
    ))) }
    ensures pieces { OnOk result (have_piece (tree_of asked.now.filter) ≡ true) }
    ensures scope { OnOk result (scope_number asked.now.scope ≤ 2) }
{
    writer.begin(0x63)?;
    put_search_bounds(writer, asked)?;
    put_filter(writer, &asked.filter)?;
    put_strings(writer, 0x30, asked.attributes.list())?;
    writer.end()
}

/// Writes the components in front of the filter.
#[tactic(auto, unfolding(crate::specs::Search::search_bounds_octets))]
fn put_search_bounds(writer: &mut Writer, asked: &SearchRequest) -> Result<(), NoMemory>
    ensures ok { OnOk result (writer.new ≡ after_bytes writer.old (search_bounds_octets (
      asked.now.base,
      (
        scope_number asked.now.scope,
        (
          asked.now.deref,
          (asked.now.size_limit, (asked.now.time_limit, asked.now.types_only)),
        ),
      ),
    ))) }
    ensures scope { OnOk result (scope_number asked.now.scope ≤ 2) }
{
    writer.octets(0x04, asked.base.as_slice())?;
    put_number(writer, 0x0A, scope_number(asked.scope))?;
    put_number(writer, 0x0A, asked.deref as u32)?;
    put_number(writer, 0x02, asked.size_limit)?;
    put_number(writer, 0x02, asked.time_limit)?;
    writer.boolean(0x01, asked.types_only)
}

fn scope_number(scope: SearchScope) -> u32
    ensures number { result ≡ scope_number scope }
    ensures few { result ≤ 2 }
{
    match scope {
        SearchScope::Base => 0,
        SearchScope::One => 1,
        SearchScope::Sub => 2,
    }
}

pub(crate) fn put_entry(
    writer: &mut Writer,
    name: &Octets,
    attributes: &[RawAttribute],
) -> Result<(), NoMemory>
    ensures { OnOk result
        (writer.new ≡ after_bytes writer.old (entry_octets (name.now, attributes.now))) }
{
    writer.begin(0x64)?;
    writer.octets(0x04, name.as_slice())?;
    put_attributes(writer, attributes)?;
    writer.end()
}
