//! How many entries have each type otherwise than as their whole RDN.
ghost use Rattle.std.specs.Prelude.{◌≡◌, ◌≢◌, ◌≤◌, ◌<◌, ◌+◌, ◌-◌, ◌^◌, ℕ, IsTrue, bytes_eq, cond, not, slice_index};
ghost use Rattle.std.specs.List.{list_all, zip};
ghost use Rattle.entry_tree.specs.Pinned as spec;
ghost use Rattle.entry_writes.specs.State as state;

use dn_names::Pair;
use entry_writes::{Entry, EntryChange, own_pairs};
use ldap_ber::Octets;
use schema_rules::{Attribute, AttributeType};

/// How many types there are.
const TYPES: usize = 24;

/// At the number of each type, how many entries have it otherwise than as their whole RDN.
pub(crate) type Strays = [u32; TYPES];

/// Those of no entries.
pub(crate) fn no_strays() -> Strays
    ensures { (kind : ℕ) → slice_index result kind ≡ 0 }
{
    [0; TYPES]
}

/// Whether each entry that has the type has it as its whole RDN.
pub(crate) fn has_none(strays: &Strays, kind: AttributeType) -> bool
    ensures known { IsTrue result → kind < spec.type_count }
    ensures none { IsTrue result → slice_index strays.now kind ≡ 0 }
{
    let place = kind.number() as usize;
    if place >= TYPES {
        return false;
    }
    strays[place] == 0
}

/// Those of the entries after changes to entries that have these.
pub(crate) fn strays_with(strays: &Strays, changes: &[EntryChange]) -> Strays
    requires held { (kind : ℕ) → kind < spec.type_count
        → slice_index strays.now kind ≤ state.most_entries }
    requires before { (kind : ℕ) → kind < spec.type_count
        → spec.strays_before kind changes.now ≤ slice_index strays.now kind }
    requires after { (kind : ℕ) → kind < spec.type_count
        → spec.strays_after kind changes.now ≤ state.most_entries }
    ensures { (kind : ℕ) → kind < spec.type_count
        → slice_index result kind + spec.strays_before kind changes.now
        ≡ slice_index strays.now kind + spec.strays_after kind changes.now }
{
    if all_keep_types(changes) {
        return *strays;
    }
    let gone = strays_before(changes);
    let come = strays_after(changes);
    let mut counts = no_strays();
    for place in 0..TYPES {
        let kept = strays[place] - gone[place];
        let count = kept + come[place];
        set_count(&mut counts, place, count);
    }
    counts
}

/// Whether each change replaces an entry by one that has the same types in the same way.
fn all_keep_types(changes: &[EntryChange]) -> bool
    ensures { result ≡ list_all spec.keeps_types changes.now }
{
    changes.iter().all(|change| keeps_types(change))
}

/// Whether the change replaces an entry by one that has the same types, each as its whole RDN or
/// otherwise as before.
fn keeps_types(change: &EntryChange) -> bool
    ensures { result ≡ spec.keeps_types change.now }
{
    match &change.before {
        Some(was) => match &change.after {
            Some(entry) => have_counterparts(was, entry),
            None => false,
        },
        None => false,
    }
}

/// Whether the attributes of both entries are so, one by one.
fn have_counterparts(was: &Entry, entry: &Entry) -> bool
    ensures { result ≡ spec.have_counterparts was.now entry.now }
{
    let own = own_pairs(&was.dn);
    let attributes = was.attrs.list();
    let other = own_pairs(&entry.dn);
    let others = entry.attrs.list();
    are_counterparts(own, attributes, other, others)
}

/// Whether the attributes of entries with these RDNs are so, one by one.
fn are_counterparts(
    own: &[Pair],
    attributes: &[Attribute],
    other: &[Pair],
    others: &[Attribute],
) -> bool
    ensures { result ≡ spec.are_counterparts own.now attributes.now other.now others.now }
{
    attributes.len() == others.len() && all_counterparts(own, attributes, other, others)
}

fn all_counterparts(
    own: &[Pair],
    attributes: &[Attribute],
    other: &[Pair],
    others: &[Attribute],
) -> bool
    ensures { result
        ≡ list_all (λ items. spec.is_counterpart own.now other.now items.0 items.1)
        (zip attributes.now others.now) }
{
    attributes
        .iter()
        .zip(others)
        .all(|(one, next)| is_counterpart(own, one, other, next))
}

/// Whether both attributes are of one type, and each is all of its RDN or none is.
fn is_counterpart(own: &[Pair], one: &Attribute, other: &[Pair], next: &Attribute) -> bool
    ensures { result ≡ spec.is_counterpart own.now other.now one.now next.now }
{
    one.kind == next.kind && both_or_none(is_whole_rdn(own, one), is_whole_rdn(other, next))
}

fn both_or_none(one: bool, other: bool) -> bool
    ensures { result ≡ cond one other (not other) }
{
    if one { other } else { !other }
}

/// Those of the entries before the changes.
fn strays_before(changes: &[EntryChange]) -> Strays
    requires { (kind : ℕ) → kind < spec.type_count
        → spec.strays_before kind changes.now ≤ state.most_entries }
    ensures { (kind : ℕ) → kind < spec.type_count
        → slice_index result kind ≡ spec.strays_before kind changes.now }
{
    let mut strays = no_strays();
    for change in changes {
        count_found(&mut strays, &change.before);
    }
    strays
}

/// Those of the entries after the changes.
fn strays_after(changes: &[EntryChange]) -> Strays
    requires { (kind : ℕ) → kind < spec.type_count
        → spec.strays_after kind changes.now ≤ state.most_entries }
    ensures { (kind : ℕ) → kind < spec.type_count
        → slice_index result kind ≡ spec.strays_after kind changes.now }
{
    let mut strays = no_strays();
    for change in changes {
        count_found(&mut strays, &change.after);
    }
    strays
}

/// Counts the entry, where there is one.
fn count_found(strays: &mut Strays, found: &Option<Entry>)
    requires { (kind : ℕ) → kind < spec.type_count → slice_index strays.old kind < 2 ^ 31 }
    ensures { (kind : ℕ) → kind < spec.type_count
        → slice_index strays.new kind
        ≡ slice_index strays.old kind + spec.found_stray kind found.now }
{
    match found {
        Some(entry) => count_entry(strays, entry),
        None => {}
    }
}

/// Counts the entry at each type that it has otherwise than as its whole RDN.
fn count_entry(strays: &mut Strays, entry: &Entry)
    requires { (kind : ℕ) → kind < spec.type_count → slice_index strays.old kind < 2 ^ 31 }
    ensures { (kind : ℕ) → kind < spec.type_count
        → slice_index strays.new kind ≡ slice_index strays.old kind + spec.stray kind entry.now }
{
    let own = own_pairs(&entry.dn);
    for attribute in entry.attrs.list() {
        count_attribute(strays, own, attribute);
    }
}

/// Counts the type of the attribute, unless that is all of the RDN of these pairs.
fn count_attribute(strays: &mut Strays, own: &[Pair], attribute: &Attribute)
    requires { (kind : ℕ) → kind < spec.type_count → slice_index strays.old kind < 2 ^ 32 - 1 }
    ensures { (kind : ℕ) → kind < spec.type_count
        → slice_index strays.new kind
        ≡ slice_index strays.old kind + cond (spec.is_astray kind own.now attribute.now) 1 0 }
{
    if is_whole_rdn(own, attribute) {
        return;
    }
    let place = attribute.kind.number() as usize;
    if place >= TYPES {
        return;
    }
    let count = strays[place] + 1;
    set_count(strays, place, count);
}

/// Sets the number at the place.
fn set_count(strays: &mut Strays, place: usize, count: u32)
    requires { place < spec.type_count }
    ensures own { slice_index strays.new place ≡ count }
    ensures others { (n : ℕ) → n ≢ place → slice_index strays.new n ≡ slice_index strays.old n }
{
    strays[place] = count;
}

/// Whether the attribute is all of an RDN of these pairs.
fn is_whole_rdn(own: &[Pair], attribute: &Attribute) -> bool
    ensures { result ≡ spec.is_whole_rdn own.now attribute.now }
{
    match own {
        [pair] => is_of_pair(pair, attribute),
        _ => false,
    }
}

/// Whether the attribute is of the pair's type, with its value and no other.
fn is_of_pair(pair: &Pair, attribute: &Attribute) -> bool
    ensures { result ≡ spec.is_of_pair pair.now attribute.now }
{
    pair.kind == attribute.kind && are_all(attribute.values.list(), &pair.value)
}

/// Whether each of the values is this one.
fn are_all(values: &[Octets], own: &Octets) -> bool
    ensures { result ≡ list_all (λ value. bytes_eq value own.now) values.now }
{
    values.iter().all(|value| value == own)
}
