//! Reading a filter's text (RFC 4515, section 3; RFC 4526).
ghost use Rattle.std.specs.Prelude.{◌≡◌, ◌<◌, ◌≤◌, ◌-◌, length, map, take, Ok, IfOk, IfErr, OnOk};
ghost use Rattle.ldap_ber.specs.Gives.{Gives};
ghost use Rattle.ldap_filter.specs.Fault.{FilterFails};
ghost use Rattle.ldap_filter.specs.Reading as spec;
ghost use Rattle.ldap_filter.specs.FilterTree.{tree_of, trees, parts_of};

use crate::cursor::FilterCursor;
use crate::fault::FilterFault;
use crate::filter::{Filter, FilterList, Pieces};
use crate::grammar::text_len;
use ldap_ber::{NoMemory, Octets, OctetsList};
use std::alloc::Global;

/// How many filters may stand in one another.
const LEVELS: usize = 32;

impl Filter {
    /// The filter that a text writes (RFC 4515, section 3). The place of a fault is that of the
    /// first byte that cannot follow those before it, or the text's length where the text ends too
    /// early. A byte that is not part of UTF-8 text follows none. `TooDeep` comes at the
    /// parenthesis of a filter that stands in 32 others. Any other fault is `BadFilter`, or
    /// `NoMemory`.
    #[tactic(auto, unfolding(crate::specs::Reading::read_filter))]
    pub fn read_text(alloc: Global, text: &[u8]) -> Result<Filter, FilterFault>
        ensures ok { IfOk result (λ filter. spec.read_filter text.now ≡ Ok (tree_of filter)) }
        ensures fault { IfErr result (λ fault. FilterFails fault (spec.read_filter text.now)) }
    {
        let valid = text_len(text);
        if valid == text.len() {
            return whole(alloc, text);
        }
        match whole(alloc, text.split_at(valid).0) {
            Ok(_) => Err(FilterFault::BadFilter(valid)),
            Err(fault) => Err(fault),
        }
    }
}

/// A filter and nothing after it.
#[tactic(auto, unfolding(crate::specs::Reading::whole_at))]
fn whole(alloc: Global, text: &[u8]) -> Result<Filter, FilterFault>
    ensures { Gives FilterFails (λ filter. Ok (tree_of filter)) result (spec.whole_at text.now) }
{
    let mut cursor = FilterCursor::new(text);
    let filter = filter_in(alloc, &mut cursor, LEVELS)?;
    if cursor.is_at_end() {
        Ok(filter)
    } else {
        Err(cursor.fault())
    }
}

/// A filter in at most n levels.
#[cycle(filters)]
fn filter_in(alloc: Global, cursor: &mut FilterCursor, levels: usize) -> Result<Filter, FilterFault>
    ensures read { Gives FilterFails (λ filter. Ok (tree_of filter, cursor.new.left)) result
        (spec.filter_in levels cursor.old.stop cursor.old.left) }
    ensures stop { cursor.new.stop ≡ cursor.old.stop }
    ensures shorter { OnOk result (length cursor.new.left < length cursor.old.left) }
{
    if levels == 0 {
        return Err(no_level(cursor));
    }
    enclosed(alloc, cursor, levels - 1)
}

/// Why no filter may stand here.
#[tactic(auto, unfolding(crate::specs::Reading::filter_in))]
fn no_level(cursor: &FilterCursor) -> FilterFault
    ensures { FilterFails result (spec.filter_in 0 cursor.now.stop cursor.now.left) }
{
    if cursor.begins_with(b'(') {
        FilterFault::TooDeep
    } else {
        cursor.fault()
    }
}

/// filter = LPAREN filtercomp RPAREN.
#[cycle(filters)]
fn enclosed(alloc: Global, cursor: &mut FilterCursor, levels: usize) -> Result<Filter, FilterFault>
    ensures read { Gives FilterFails (λ filter. Ok (tree_of filter, cursor.new.left)) result
        (spec.enclosed_at (spec.filter_in levels) cursor.old.stop cursor.old.left) }
    ensures stop { cursor.new.stop ≡ cursor.old.stop }
    ensures shorter { OnOk result (length cursor.new.left < length cursor.old.left) }
{
    cursor.pass(b'(')?;
    let filter = component(alloc, cursor, levels)?;
    cursor.pass(b')')?;
    Ok(filter)
}

/// filtercomp = and / or / not / item.
#[cycle(filters)]
fn component(alloc: Global, cursor: &mut FilterCursor, levels: usize) -> Result<Filter, FilterFault>
    ensures read { Gives FilterFails (λ filter. Ok (tree_of filter, cursor.new.left)) result
        (spec.component_at (spec.filter_in levels) cursor.old.stop cursor.old.left) }
    ensures stop { cursor.new.stop ≡ cursor.old.stop }
    ensures shorter { OnOk result (length cursor.new.left ≤ length cursor.old.left) }
{
    if cursor.passes(b'&') {
        return Ok(Filter::And(filters(alloc, cursor, levels)?));
    }
    if cursor.passes(b'|') {
        return Ok(Filter::Or(filters(alloc, cursor, levels)?));
    }
    if cursor.passes(b'!') {
        let part = filter_in(alloc, cursor, levels)?;
        return Ok(Filter::Not(Box::new(alloc, part)?));
    }
    item(alloc, cursor)
}

/// filterlist = *filter.
#[cycle(filters)]
#[tactic(auto, unfolding(crate::specs::Reading::filters_at, crate::specs::Reading::many_at))]
fn filters(
    alloc: Global,
    cursor: &mut FilterCursor,
    levels: usize,
) -> Result<FilterList, FilterFault>
    ensures read { Gives FilterFails
        (λ list. Ok (map tree_of (parts_of list), cursor.new.left)) result
        (spec.filters_at (spec.filter_in levels) cursor.old.stop cursor.old.left) }
    ensures stop { cursor.new.stop ≡ cursor.old.stop }
    ensures shorter { OnOk result (length cursor.new.left ≤ length cursor.old.left) }
{
    let mut items = Vec::new(alloc);
    while cursor.begins_with(b'(') {
        items.push(filter_in(alloc, cursor, levels)?)?;
    }
    Ok(FilterList { items })
}

/// item = simple / present / substring.
#[tactic(auto, unfolding(crate::specs::Reading::item_at))]
fn item(alloc: Global, cursor: &mut FilterCursor) -> Result<Filter, FilterFault>
    ensures read { Gives FilterFails (λ filter. Ok (tree_of filter, cursor.new.left)) result
        (spec.item_at cursor.old.stop cursor.old.left) }
    ensures stop { cursor.new.stop ≡ cursor.old.stop }
    ensures shorter { OnOk result (length cursor.new.left ≤ length cursor.old.left) }
{
    let name = type_name(alloc, cursor)?;
    item_of(alloc, cursor, name)
}

fn type_name(alloc: Global, cursor: &mut FilterCursor) -> Result<Octets, FilterFault>
    ensures read { Gives FilterFails (λ name. Ok (name, cursor.new.left)) result
        (spec.type_at cursor.old.stop cursor.old.left) }
    ensures stop { cursor.new.stop ≡ cursor.old.stop }
    ensures shorter { OnOk result (length cursor.new.left ≤ length cursor.old.left) }
{
    let name = cursor.type_bytes();
    if name.is_empty() {
        return Err(cursor.fault());
    }
    Ok(Octets::from_slice(alloc, name)?)
}

/// What stands after the type of an item.
fn item_of(alloc: Global, cursor: &mut FilterCursor, name: Octets) -> Result<Filter, FilterFault>
    ensures read { Gives FilterFails (λ filter. Ok (tree_of filter, cursor.new.left)) result
        (spec.item_of name cursor.old.stop cursor.old.left) }
    ensures stop { cursor.new.stop ≡ cursor.old.stop }
    ensures shorter { OnOk result (length cursor.new.left ≤ length cursor.old.left) }
{
    if cursor.passes(b'=') {
        return equality(alloc, cursor, name);
    }
    if cursor.passes(b'~') {
        let value = compared(alloc, cursor)?;
        return Ok(Filter::approximation(alloc, name, value)?);
    }
    if cursor.passes(b'>') {
        return Ok(Filter::AtLeast(name, compared(alloc, cursor)?));
    }
    if cursor.passes(b'<') {
        return Ok(Filter::AtMost(name, compared(alloc, cursor)?));
    }
    Err(cursor.fault())
}

/// The value after a sign of two characters, of which the second is `=`.
#[tactic(auto, unfolding(crate::specs::Reading::compared_at))]
fn compared(alloc: Global, cursor: &mut FilterCursor) -> Result<Octets, FilterFault>
    ensures read { Gives FilterFails (λ value. Ok (value, cursor.new.left)) result
        (spec.compared_at cursor.old.stop cursor.old.left) }
    ensures stop { cursor.new.stop ≡ cursor.old.stop }
    ensures shorter { OnOk result (length cursor.new.left ≤ length cursor.old.left) }
{
    cursor.pass(b'=')?;
    value(alloc, cursor)
}

/// An equality, presence, or pieces.
#[tactic(auto, unfolding(crate::specs::Reading::equal_at))]
fn equality(alloc: Global, cursor: &mut FilterCursor, name: Octets) -> Result<Filter, FilterFault>
    ensures read { Gives FilterFails (λ filter. Ok (tree_of filter, cursor.new.left)) result
        (spec.equal_at name cursor.old.stop cursor.old.left) }
    ensures stop { cursor.new.stop ≡ cursor.old.stop }
    ensures shorter { OnOk result (length cursor.new.left ≤ length cursor.old.left) }
{
    let first = value(alloc, cursor)?;
    let beyond = starred_values(alloc, cursor)?;
    Ok(asserted(alloc, name, first, beyond)?)
}

fn asserted(
    alloc: Global,
    name: Octets,
    first: Octets,
    mut beyond: Vec<Octets>,
) -> Result<Filter, NoMemory>
    ensures { IfOk result (λ filter. tree_of filter ≡ spec.asserted name first beyond.items) }
{
    match beyond.pop() {
        None => {
            let filter = Filter::equality(alloc, name, first)?;
            Ok(filter)
        }
        Some(last) => {
            let middle = list_of(alloc, beyond)?;
            Ok(pieced(name, first, middle, last))
        }
    }
}

fn pieced(name: Octets, first: Octets, middle: OctetsList, last: Octets) -> Filter
    ensures { tree_of result ≡ spec.pieced name first middle last }
{
    if middle.list().is_empty() && first.as_slice().is_empty() && last.as_slice().is_empty() {
        return Filter::Present(name);
    }
    let initial = filled(first);
    let last = filled(last);
    Filter::Substrings(
        name,
        Pieces {
            initial,
            middle,
            last,
        },
    )
}

fn filled(piece: Octets) -> Option<Octets>
    ensures { result ≡ spec.filled piece }
{
    if piece.as_slice().is_empty() {
        None
    } else {
        Some(piece)
    }
}

fn list_of(alloc: Global, items: Vec<Octets>) -> Result<OctetsList, NoMemory>
    ensures { IfOk result (λ list. list ≡ items.items) }
{
    let mut list = OctetsList::new(alloc);
    for item in items {
        list.push(item)?;
    }
    Ok(list)
}

/// Values, each after its `*`.
#[tactic(auto, unfolding(crate::specs::Reading::stars_at, crate::specs::Reading::many_at))]
fn starred_values(alloc: Global, cursor: &mut FilterCursor) -> Result<Vec<Octets>, FilterFault>
    ensures read { Gives FilterFails (λ values. Ok (values.items, cursor.new.left)) result
        (spec.stars_at cursor.old.stop cursor.old.left) }
    ensures stop { cursor.new.stop ≡ cursor.old.stop }
    ensures shorter { OnOk result (length cursor.new.left ≤ length cursor.old.left) }
{
    let mut values = Vec::new(alloc);
    while cursor.begins_with(b'*') {
        values.push(starred(alloc, cursor)?)?;
    }
    Ok(values)
}

#[tactic(auto, unfolding(crate::specs::Reading::starred_at))]
fn starred(alloc: Global, cursor: &mut FilterCursor) -> Result<Octets, FilterFault>
    ensures read { Gives FilterFails (λ value. Ok (value, cursor.new.left)) result
        (spec.starred_at cursor.old.stop cursor.old.left) }
    ensures stop { cursor.new.stop ≡ cursor.old.stop }
    ensures shorter { OnOk result (length cursor.new.left < length cursor.old.left) }
{
    cursor.pass(b'*')?;
    value(alloc, cursor)
}

/// assertionvalue = *(normal / escaped).
#[tactic(auto, unfolding(crate::specs::Reading::value_at, crate::specs::Reading::many_at))]
fn value(alloc: Global, cursor: &mut FilterCursor) -> Result<Octets, FilterFault>
    ensures read { Gives FilterFails (λ value. Ok (value, cursor.new.left)) result
        (spec.value_at cursor.old.stop cursor.old.left) }
    ensures stop { cursor.new.stop ≡ cursor.old.stop }
    ensures shorter { OnOk result (length cursor.new.left ≤ length cursor.old.left) }
{
    let mut bytes = Vec::new(alloc);
    while cursor.value_goes_on() {
        bytes.push(cursor.value_byte()?)?;
    }
    Ok(Octets::from(bytes))
}
