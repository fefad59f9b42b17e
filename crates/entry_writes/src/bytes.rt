//! Whether two entries are one, byte for byte.
ghost use Rattle.std.specs.Prelude.{◌≡◌};
ghost use Rattle.std.specs.List.{list_all, zip};
ghost use Rattle.std.specs.Option.{option_copied};
ghost use Rattle.entry_writes.specs.Bytes as spec;

use crate::entry::Entry;
use csn_cookie::Csn;
use dn_names::{Pair, Rdn};
use schema_rules::Attribute;

/// Whether the entries have the same identity and CSN, and the same bytes in name and attributes.
pub fn is_one_entry(one: &Entry, other: &Entry) -> bool
    ensures { result ≡ spec.is_one_entry one.now other.now }
{
    one.uuid == other.uuid
        && is_one_csn(one.csn, other.csn)
        && is_one_name(one.dn.rdns(), other.dn.rdns())
        && is_one_list(one.attrs.list(), other.attrs.list())
}

/// Whether neither is there, or both are and are one.
pub(crate) fn is_one_found(one: Option<&Entry>, other: Option<&Entry>) -> bool
    ensures { result ≡ spec.is_one_found (option_copied one.entry) (option_copied other.entry) }
{
    match (one, other) {
        (None, None) => true,
        (Some(one), Some(other)) => is_one_entry(one, other),
        (None, Some(_)) | (Some(_), None) => false,
    }
}

fn is_one_csn(one: Csn, other: Csn) -> bool
    ensures { result ≡ spec.is_one_csn one other }
{
    one.micros() == other.micros()
        && one.count() == other.count()
        && one.sid() == other.sid()
        && one.part() == other.part()
}

fn is_one_name(one: &[Rdn], other: &[Rdn]) -> bool
    ensures { result ≡ spec.is_one_name one.now other.now }
{
    one.len() == other.len() && all_one_rdns(one, other)
}

fn all_one_rdns(one: &[Rdn], other: &[Rdn]) -> bool
    ensures { result ≡ list_all (λ items. spec.is_one_rdn items.0 items.1) (zip one.now other.now) }
{
    one.iter()
        .zip(other)
        .all(|(a, b)| is_one_rdn(a.list(), b.list()))
}

fn is_one_rdn(one: &[Pair], other: &[Pair]) -> bool
    ensures { result ≡ spec.is_one_rdn one.now other.now }
{
    one.len() == other.len() && all_one_pairs(one, other)
}

fn all_one_pairs(one: &[Pair], other: &[Pair]) -> bool
    ensures { result
        ≡ list_all (λ items. spec.is_one_pair items.0 items.1) (zip one.now other.now) }
{
    one.iter().zip(other).all(|(a, b)| is_one_pair(a, b))
}

fn is_one_pair(one: &Pair, other: &Pair) -> bool
    ensures { result ≡ spec.is_one_pair one.now other.now }
{
    one.kind == other.kind && one.value == other.value
}

fn is_one_list(one: &[Attribute], other: &[Attribute]) -> bool
    ensures { result ≡ spec.is_one_list one.now other.now }
{
    one.len() == other.len() && all_one_attributes(one, other)
}

fn all_one_attributes(one: &[Attribute], other: &[Attribute]) -> bool
    ensures { result
        ≡ list_all (λ items. spec.is_one_attribute items.0 items.1) (zip one.now other.now) }
{
    one.iter().zip(other).all(|(a, b)| is_one_attribute(a, b))
}

fn is_one_attribute(one: &Attribute, other: &Attribute) -> bool
    ensures { result ≡ spec.is_one_attribute one.now other.now }
{
    one.kind == other.kind && one.values == other.values
}
