//! The entries after a commit, where they are.
ghost use Rattle.std.specs.Prelude.{◌≡◌, true, not, [], map, filter, fold, IfOk, OnOk};
ghost use Rattle.entry_writes.specs.Effects.{committed, is_one_of};
ghost use Rattle.entry_writes.specs.State.{ascends, put};
ghost use Rattle.entry_writes.specs.Touched.{identities, joined};

use entry_writes::Entry;
use ldap_ber::NoMemory;
use std::alloc::Global;
use std::collections::BTreeSet;

/// The entries that there would be after a commit, in ascending order of identity.
pub(crate) fn entries_after<'a>(
    alloc: Global,
    entries: &[&'a Entry],
    puts: &'a [Entry],
    drops: &[u128],
) -> Result<Vec<&'a Entry>, NoMemory>
    requires { ascends (map (λ e. e.now) entries.now) ≡ true }
    ensures { IfOk result (λ after.
        map (λ e. e.now) after.items
        ≡ committed (map (λ e. e.now) entries.now) puts.now drops.now) }
{
    let dropped = id_set(alloc, drops)?;
    let mut after = kept(alloc, entries, &dropped)?;
    put_each(&mut after, puts)?;
    Ok(after)
}

/// The identities, each once.
pub(crate) fn id_set(alloc: Global, uuids: &[u128]) -> Result<BTreeSet<u128>, NoMemory>
    ensures { IfOk result (λ set. set.keys ≡ joined [] uuids.now) }
{
    let mut set = BTreeSet::new(alloc);
    add_each(&mut set, uuids)?;
    Ok(set)
}

/// Puts the identities into the set.
pub(crate) fn add_each(set: &mut BTreeSet<u128>, uuids: &[u128]) -> Result<(), NoMemory>
    ensures { OnOk result (set.new.keys ≡ joined set.old.keys uuids.now) }
{
    for uuid in uuids {
        let _ = set.insert(*uuid)?;
    }
    Ok(())
}

/// Whether the set has the identity of the entry.
pub(crate) fn has(uuids: &BTreeSet<u128>, entry: &Entry) -> bool
    ensures { result ≡ is_one_of uuids.now.keys entry.now }
{
    uuids.contains(&entry.uuid)
}

/// The entries without those of these identities.
fn kept<'a>(
    alloc: Global,
    entries: &[&'a Entry],
    dropped: &BTreeSet<u128>,
) -> Result<Vec<&'a Entry>, NoMemory>
    ensures { IfOk result (λ kept.
        map (λ e. e.now) kept.items
        ≡ filter (λ e. not (is_one_of dropped.now.keys e)) (map (λ e. e.now) entries.now)) }
{
    let mut kept = Vec::new(alloc);
    for entry in entries {
        if !has(dropped, entry) {
            kept.push(*entry)?;
        }
    }
    Ok(kept)
}

/// Puts each of these entries in its place.
fn put_each<'a>(entries: &mut Vec<&'a Entry>, puts: &'a [Entry]) -> Result<(), NoMemory>
    requires { ascends (map (λ e. e.now) entries.old.items) ≡ true }
    ensures { OnOk result
        (map (λ e. e.now) entries.new.items
        ≡ fold (λ held entry. put entry held) (map (λ e. e.now) entries.old.items) puts.now) }
{
    for entry in puts {
        put_one(entries, entry)?;
    }
    Ok(())
}

/// Puts the entry in its place among entries in ascending order.
fn put_one<'a>(entries: &mut Vec<&'a Entry>, entry: &'a Entry) -> Result<(), NoMemory>
    requires { ascends (map (λ e. e.now) entries.old.items) ≡ true }
    ensures { OnOk result
        (map (λ e. e.now) entries.new.items ≡ put entry.now (map (λ e. e.now) entries.old.items)) }
{
    match entries.binary_search_by_key(&entry.uuid, |held| held.uuid) {
        Ok(place) => entries[place] = entry,
        Err(place) => entries.insert(place, entry)?,
    }
    Ok(())
}

/// The identities that a commit puts or drops, in ascending order.
pub(crate) fn ids_of(alloc: Global, puts: &[Entry], drops: &[u128]) -> Result<Vec<u128>, NoMemory>
    ensures { IfOk result (λ uuids.
        uuids.items ≡ joined (joined [] drops.now) (identities puts.now)) }
{
    let mut uuids = id_set(alloc, drops)?;
    for entry in puts {
        let _ = uuids.insert(entry.uuid)?;
    }
    uuids.iter().copied().collect(alloc)
}
