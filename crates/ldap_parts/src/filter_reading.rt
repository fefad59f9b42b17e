//! Filters, read (RFC 4511, section 4.5.1.7; an and or an or may be empty by RFC 4526).
//!
//! ```text
//! Filter ::= CHOICE {
//!      and             [0] SET SIZE (1..MAX) OF filter Filter,
//!      or              [1] SET SIZE (1..MAX) OF filter Filter,
//!      not             [2] Filter,
//!      equalityMatch   [3] AttributeValueAssertion,
//!      substrings      [4] SubstringFilter,
//!      greaterOrEqual  [5] AttributeValueAssertion,
//!      lessOrEqual     [6] AttributeValueAssertion,
//!      present         [7] AttributeDescription,
//!      approxMatch     [8] AttributeValueAssertion,
//!      extensibleMatch [9] MatchingRuleAssertion,
//!      ...  }
//!
//! AttributeValueAssertion ::= SEQUENCE {
//!      attributeDesc   AttributeDescription,
//!      assertionValue  AssertionValue }
//!
//! SubstringFilter ::= SEQUENCE {
//!      type           AttributeDescription,
//!      substrings     SEQUENCE SIZE (1..MAX) OF substring CHOICE {
//!           initial [0] AssertionValue,  -- can occur at most once
//!           any     [1] AssertionValue,
//!           final   [2] AssertionValue } -- can occur at most once
//!      }
//! ```

ghost use Rattle.std.specs.Prelude.{◌≡◌, ◌<◌, ◌≤◌, length, map, Ok, IfOk, OnOk, OnErr};
ghost use Rattle.ldap_ber.specs.Reading.{many_at, list_at, made_at, tagged_at};
ghost use Rattle.ldap_filter.specs.FilterTree.{tree_of, parts_of};
ghost use Rattle.ldap_ber.specs.Gives.{Gives};
ghost use Rattle.ldap_parts.specs.Faults.{ComponentFails, place_of};
ghost use Rattle.ldap_parts.specs.Components.{octet_string_at};
ghost use Rattle.ldap_parts.specs.Filters.{while_at, pieces_at, substrings_at, substrings_with, assertion_at, equal_with, approx_with, item_at, filter_in};

use crate::component::{octet_string_of, option_of};
use crate::fault::ComponentFault;
use ldap_ber::{Octets, OctetsList, Reader};
use ldap_filter::{Filter, FilterList, Pieces};
use std::alloc::Global;

/// The filter that comes next, in at most n levels (RFC 4511, section 4.5.1.7). An item and an
/// empty list are a level. Else it is `Refused` with the place of the first element that is not so,
/// or `NoMemory`, and the reader is as before.
#[cycle(filters)]
#[tactic(auto, unfolding(crate::specs::Filters::filter_in))]
pub fn filter_of(
    alloc: Global,
    reader: &mut Reader,
    levels: usize,
) -> Result<Filter, ComponentFault>
    ensures exact { Gives ComponentFails (λ filter. Ok (tree_of filter, reader.new.left)) result
        (filter_in levels reader.old.stop reader.old.left) }
    ensures stop { reader.new.stop ≡ reader.old.stop }
    ensures shorter { OnOk result (length reader.new.left < length reader.old.left) }
    ensures err { OnErr result (reader.new ≡ reader.old) }
{
    if levels == 0 {
        return Err(ComponentFault::Refused(reader.place()));
    }
    if reader.has(0xA0) {
        return Ok(Filter::And(list_of(alloc, reader, 0xA0, levels - 1)?));
    }
    if reader.has(0xA1) {
        return Ok(Filter::Or(list_of(alloc, reader, 0xA1, levels - 1)?));
    }
    if reader.has(0xA2) {
        let mut ahead = reader.copy();
        let part = negated_of(alloc, &mut ahead, levels - 1)?;
        let filter = Filter::Not(Box::new(alloc, part)?);
        *reader = ahead;
        return Ok(filter);
    }
    item_of(alloc, reader)
}

/// The element with this tag that comes next: filters alone.
#[cycle(filters)]
fn list_of(
    alloc: Global,
    reader: &mut Reader,
    tag: u8,
    levels: usize,
) -> Result<FilterList, ComponentFault>
    ensures exact { Gives ComponentFails
        (λ list. Ok (map tree_of (parts_of list), reader.new.left)) result
        (list_at place_of tag (filter_in levels) reader.old.stop reader.old.left) }
    ensures stop { reader.new.stop ≡ reader.old.stop }
    ensures shorter { OnOk result (length reader.new.left < length reader.old.left) }
    ensures err { OnErr result (reader.new ≡ reader.old) }
{
    let mut ahead = reader.copy();
    let whole = ahead.expect(tag)?;
    let mut inner = Reader::inside(&whole);
    let filters = filters_in(alloc, &mut inner, levels)?;
    *reader = ahead;
    Ok(filters)
}

/// The filters that are left.
#[cycle(filters)]
#[tactic(auto, using(crate::proofs::FilterLemmas::filters_go_on, crate::proofs::FilterLemmas::filters_fail, crate::proofs::FilterLemmas::filters_end))]
fn filters_in(
    alloc: Global,
    reader: &mut Reader,
    levels: usize,
) -> Result<FilterList, ComponentFault>
    ensures { Gives ComponentFails (λ list. Ok (map tree_of (parts_of list))) result
        (many_at (filter_in levels) reader.old.stop reader.old.left) }
{
    let room = reader.count().unwrap_or(0);
    let mut filters = FilterList::with_room(alloc, room)?;
    while !reader.is_empty() {
        let filter = filter_of(alloc, reader, levels)?;
        filters.push(filter)?;
    }
    Ok(filters)
}

/// The filter in the element of a `not`, whose tag is explicit.
#[cycle(filters)]
fn negated_of(alloc: Global, reader: &mut Reader, levels: usize) -> Result<Filter, ComponentFault>
    ensures exact { Gives ComponentFails (λ filter. Ok (tree_of filter, reader.new.left)) result
        (tagged_at place_of 162 (filter_in levels) reader.old.stop reader.old.left) }
    ensures stop { reader.new.stop ≡ reader.old.stop }
    ensures shorter { OnOk result (length reader.new.left < length reader.old.left) }
{
    let whole = reader.expect(0xA2)?;
    let mut inner = Reader::inside(&whole);
    let part = filter_of(alloc, &mut inner, levels)?;
    inner.end()?;
    Ok(part)
}

/// The item that comes next.
#[tactic(auto, unfolding(crate::specs::Filters::item_at))]
fn item_of(alloc: Global, reader: &mut Reader) -> Result<Filter, ComponentFault>
    ensures exact { Gives ComponentFails (λ filter. Ok (tree_of filter, reader.new.left)) result
        (item_at reader.old.stop reader.old.left) }
    ensures stop { reader.new.stop ≡ reader.old.stop }
    ensures shorter { OnOk result (length reader.new.left < length reader.old.left) }
    ensures err { OnErr result (reader.new ≡ reader.old) }
{
    if reader.has(0xA3) {
        return equality_of(alloc, reader);
    }
    if reader.has(0xA4) {
        return substrings_of(alloc, reader);
    }
    if reader.has(0xA5) {
        let (name, value) = assertion_of(alloc, reader, 0xA5)?;
        return Ok(Filter::AtLeast(name, value));
    }
    if reader.has(0xA6) {
        let (name, value) = assertion_of(alloc, reader, 0xA6)?;
        return Ok(Filter::AtMost(name, value));
    }
    if reader.has(0x87) {
        return Ok(Filter::Present(octet_string_of(alloc, reader, 0x87)?));
    }
    if reader.has(0xA8) {
        return approximation_of(alloc, reader);
    }
    Ok(Filter::Extensible(octet_string_of(alloc, reader, 0xA9)?))
}

/// The equality that comes next.
fn equality_of(alloc: Global, reader: &mut Reader) -> Result<Filter, ComponentFault>
    ensures exact { Gives ComponentFails (λ filter. Ok (tree_of filter, reader.new.left)) result
        (made_at equal_with (assertion_at 163) reader.old.stop reader.old.left) }
    ensures stop { reader.new.stop ≡ reader.old.stop }
    ensures shorter { OnOk result (length reader.new.left < length reader.old.left) }
    ensures err { OnErr result (reader.new ≡ reader.old) }
{
    let mut ahead = reader.copy();
    let (name, value) = assertion_of(alloc, &mut ahead, 0xA3)?;
    let filter = Filter::equality(alloc, name, value)?;
    *reader = ahead;
    Ok(filter)
}

/// The approximate match that comes next.
fn approximation_of(alloc: Global, reader: &mut Reader) -> Result<Filter, ComponentFault>
    ensures exact { Gives ComponentFails (λ filter. Ok (tree_of filter, reader.new.left)) result
        (made_at approx_with (assertion_at 168) reader.old.stop reader.old.left) }
    ensures stop { reader.new.stop ≡ reader.old.stop }
    ensures shorter { OnOk result (length reader.new.left < length reader.old.left) }
    ensures err { OnErr result (reader.new ≡ reader.old) }
{
    let mut ahead = reader.copy();
    let (name, value) = assertion_of(alloc, &mut ahead, 0xA8)?;
    let filter = Filter::approximation(alloc, name, value)?;
    *reader = ahead;
    Ok(filter)
}

/// The type and the value of the element with this tag that comes next (RFC 4511, section 4.1.6).
/// Else it is `Refused` with the place of the first element that is not so, or `NoMemory`, and the
/// reader is as before.
pub fn assertion_of(
    alloc: Global,
    reader: &mut Reader,
    tag: u8,
) -> Result<(Octets, Octets), ComponentFault>
    ensures exact { Gives ComponentFails (λ item. Ok (item, reader.new.left)) result
        (assertion_at tag reader.old.stop reader.old.left) }
    ensures stop { reader.new.stop ≡ reader.old.stop }
    ensures shorter { OnOk result (length reader.new.left < length reader.old.left) }
    ensures err { OnErr result (reader.new ≡ reader.old) }
{
    let mut ahead = reader.copy();
    let whole = ahead.expect(tag)?;
    let mut inner = Reader::inside(&whole);
    let name = octet_string_of(alloc, &mut inner, 0x04)?;
    let value = octet_string_of(alloc, &mut inner, 0x04)?;
    inner.skip()?;
    *reader = ahead;
    Ok((name, value))
}

/// The substring filter that comes next.
fn substrings_of(alloc: Global, reader: &mut Reader) -> Result<Filter, ComponentFault>
    ensures exact { Gives ComponentFails (λ filter. Ok (tree_of filter, reader.new.left)) result
        (made_at substrings_with substrings_at reader.old.stop reader.old.left) }
    ensures stop { reader.new.stop ≡ reader.old.stop }
    ensures shorter { OnOk result (length reader.new.left < length reader.old.left) }
    ensures err { OnErr result (reader.new ≡ reader.old) }
{
    let mut ahead = reader.copy();
    let whole = ahead.expect(0xA4)?;
    let mut inner = Reader::inside(&whole);
    let name = octet_string_of(alloc, &mut inner, 0x04)?;
    let pieces = pieces_of(alloc, &mut inner)?;
    inner.skip()?;
    *reader = ahead;
    Ok(Filter::Substrings(name, pieces))
}

/// The pieces that come next, one at least.
fn pieces_of(alloc: Global, reader: &mut Reader) -> Result<Pieces, ComponentFault>
    ensures exact { Gives ComponentFails
        (λ pieces. Ok ((pieces.initial, (pieces.middle, pieces.last)), reader.new.left)) result
        (pieces_at reader.old.stop reader.old.left) }
    ensures stop { reader.new.stop ≡ reader.old.stop }
{
    let place = reader.place();
    let whole = reader.expect(0x30)?;
    let mut inner = Reader::inside(&whole);
    let initial = option_of(alloc, &mut inner, 0x80)?;
    let middle = middle_of(alloc, &mut inner)?;
    let last = option_of(alloc, &mut inner, 0x82)?;
    inner.end()?;
    if initial.is_none() && middle.list().is_empty() && last.is_none() {
        return Err(ComponentFault::Refused(place));
    }
    Ok(Pieces {
        initial,
        middle,
        last,
    })
}

/// The pieces that are neither first nor last, as many as come next.
#[tactic(auto, using(crate::proofs::FilterLemmas::middle_begins, crate::proofs::FilterLemmas::middle_goes_on, crate::proofs::FilterLemmas::middle_fails, crate::proofs::FilterLemmas::middle_ends))]
fn middle_of(alloc: Global, reader: &mut Reader) -> Result<OctetsList, ComponentFault>
    ensures exact { Gives ComponentFails (λ pieces. Ok (pieces, reader.new.left)) result
        (while_at 129 (octet_string_at 129) reader.old.stop reader.old.left) }
    ensures stop { reader.new.stop ≡ reader.old.stop }
{
    let mut pieces = OctetsList::new(alloc);
    while reader.has(0x81) {
        let piece = octet_string_of(alloc, reader, 0x81)?;
        pieces.push(piece)?;
    }
    Ok(pieces)
}
