//! What the entries of a directory may be.
ghost use Rattle.std.specs.Prelude.{◌≡◌, ◌-◌, ◌^◌, true, map, min, option_map, IfOk, IfErr, OnOk};
ghost use Rattle.std.specs.Option.{option_or};
ghost use Rattle.dn_names.specs.Keys.{name_key};
ghost use Rattle.dn_names.specs.Sound.{IsName};
ghost use Rattle.entry_tree.specs.Fitting.{is_directory_content, IsCauseOf};
ghost use Rattle.entry_writes.specs.State as state;

use crate::commit::CommitRefusal;
use entry_writes::{Entry, MOST_ENTRIES, MOST_WEIGHT};
use ldap_ber::NoMemory;
use std::alloc::Global;
use std::collections::BTreeMap;

/// Whether a directory may have these entries: they are no more and no heavier than its limits
/// allow, and no two of them have one name. Else it is `TooMany`, `TooHeavy` or `SameName`, the
/// first of these that is so, or `NoMemory`.
pub fn check_content(alloc: Global, entries: &[&Entry]) -> Result<(), CommitRefusal>
    ensures ok { OnOk result (is_directory_content (map (λ e. e.now) entries.now) ≡ true) }
    ensures refused { IfErr result (IsCauseOf (map (λ e. e.now) entries.now)) }
{
    if entries.len() > MOST_ENTRIES {
        return Err(CommitRefusal::TooMany);
    }
    if total_weight(entries) > MOST_WEIGHT {
        return Err(CommitRefusal::TooHeavy);
    }
    match same_named(alloc, entries)? {
        Some((one, other)) => Err(CommitRefusal::SameName(one, other)),
        None => Ok(()),
    }
}

/// What the entries weigh, as far as the numbers go.
pub(crate) fn total_weight(entries: &[&Entry]) -> u64
    ensures { result ≡ min (state.total_weight (map (λ e. e.now) entries.now)) (2 ^ 64 - 1) }
{
    let mut total: u64 = 0;
    for entry in entries {
        total = total.saturating_add(entry.attrs.weight());
    }
    total
}

/// The first entry whose name a later one has, and the first such.
pub(crate) fn same_named(
    alloc: Global,
    entries: &[&Entry],
) -> Result<Option<(u128, u128)>, NoMemory>
    ensures { IfOk result (λ pair. pair ≡ state.same_named (map (λ e. e.now) entries.now)) }
{
    if entries.len() < 2 {
        return Ok(None);
    }
    let mut names = BTreeMap::new(alloc);
    let mut pair = None;
    for entry in entries.iter().rev() {
        let later = names.insert(key_of(entry)?, entry.uuid)?;
        pair = first_pair(entry.uuid, later, pair);
    }
    Ok(pair)
}

/// The pair of an identity with a later one, where there is one, or else the first pair of those
/// after it.
fn first_pair(uuid: u128, later: Option<u128>, pair: Option<(u128, u128)>) -> Option<(u128, u128)>
    ensures { result ≡ option_or (option_map (λ later. (uuid, later)) later) pair }
{
    match later {
        Some(later) => Some((uuid, later)),
        None => pair,
    }
}

/// The key of the entry's name.
fn key_of(entry: &Entry) -> Result<Vec<u8>, NoMemory>
    ensures key { IfOk result (λ key. key.items ≡ name_key entry.now.dn) }
    ensures sound { IsName entry.now.dn }
{
    let _ = entry.dn.rdns();
    entry.dn.key()
}
