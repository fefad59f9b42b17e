//! The identities of entries by the path keys of their names, in order.
ghost use Rattle.std.specs.Prelude.{◌≡◌, ◌<◌, ℕ, ◌==◌, true, false, not, [], length, filter, IfOk, OnOk, if◌then◌else◌, bytes_eq};
ghost use Rattle.std.specs.List.{flat_map, list_any};
ghost use Rattle.entry_tree.specs.NameIndex as index;
ghost use Rattle.entry_writes.specs.Touched.{joined};

use crate::after::add_each;
use ldap_ber::NoMemory;
use shared_map::SharedMap;
use std::alloc::Global;
use std::collections::BTreeSet;

/// The identities that stand at each path key; at each there is one at least.
pub(crate) type Names = SharedMap<Vec<u8>, Vec<u128>>;

/// Notes the identity at the path key. What stands there then is shared with the other index where
/// that has the same.
pub(crate) fn note(
    alloc: Global,
    names: &mut Names,
    like: &Names,
    path: &[u8],
    uuid: u128,
) -> Result<(), NoMemory>
    requires { index.HasNoEmpty names.old }
    ensures noted { OnOk result (index.Sets names.old names.new path.now uuid true) }
    ensures some { OnOk result (index.HasNoEmpty names.new) }
{
    let mut uuids = others_at(alloc, names, path, uuid)?;
    uuids.push(uuid)?;
    write(alloc, names, like, path, uuids)
}

/// Takes the identity away from the path key. What is left there is shared in the same way.
pub(crate) fn forget(
    alloc: Global,
    names: &mut Names,
    like: &Names,
    path: &[u8],
    uuid: u128,
) -> Result<(), NoMemory>
    requires { index.HasNoEmpty names.old }
    ensures forgotten { OnOk result (index.Sets names.old names.new path.now uuid false) }
    ensures some { OnOk result (index.HasNoEmpty names.new) }
{
    let uuids = others_at(alloc, names, path, uuid)?;
    write(alloc, names, like, path, uuids)
}

/// Lets these identities alone stand at the path key. The pair is shared with the other index where
/// that has the same.
fn write(
    alloc: Global,
    names: &mut Names,
    like: &Names,
    path: &[u8],
    uuids: Vec<u128>,
) -> Result<(), NoMemory>
    requires { index.HasNoEmpty names.old }
    ensures written { OnOk result (index.Writes names.old names.new path.now uuids.items) }
    ensures some { OnOk result (index.HasNoEmpty names.new) }
{
    if uuids.is_empty() {
        let _ = names.len();
        return names.remove(path);
    }
    match like.pair_at(path) {
        Some(pair) if are_same(pair.value(), &uuids) => names.insert_shared(pair),
        _ => write_anew(alloc, names, path, uuids),
    }
}

/// Whether these are the same identities in the same order.
fn are_same(ids: &Vec<u128>, others: &Vec<u128>) -> bool
    ensures { result ≡ bytes_eq ids.now.items others.now.items }
{
    ids.as_slice() == others.as_slice()
}

/// The same for some identities, in memory of their own.
fn write_anew(
    alloc: Global,
    names: &mut Names,
    path: &[u8],
    uuids: Vec<u128>,
) -> Result<(), NoMemory>
    requires some { 0 < length uuids.items }
    requires others { index.HasNoEmpty names.old }
    ensures written { OnOk result (index.Writes names.old names.new path.now uuids.items) }
    ensures some { OnOk result (index.HasNoEmpty names.new) }
{
    let key = copied(alloc, path)?;
    names.insert(key, uuids)
}

/// The identities at the path key, without this one; where there are none, with room for one.
fn others_at(alloc: Global, names: &Names, path: &[u8], uuid: u128) -> Result<Vec<u128>, NoMemory>
    ensures { IfOk result (λ uuids.
        uuids.items ≡ filter (λ id. not (id == uuid)) (index.ids_at names.now path.now)) }
{
    match names.get(path) {
        Some(uuids) => others(alloc, uuids, uuid),
        None => Vec::with_capacity(alloc, 1),
    }
}

/// These identities without the one.
fn others(alloc: Global, uuids: &[u128], uuid: u128) -> Result<Vec<u128>, NoMemory>
    ensures { IfOk result (λ others.
        others.items ≡ filter (λ id. not (id == uuid)) uuids.now) }
{
    let mut others = Vec::new(alloc);
    for id in uuids {
        if *id != uuid {
            others.push(*id)?;
        }
    }
    Ok(others)
}

/// The least identity at the path key.
pub(crate) fn first_at(names: &Names, path: &[u8]) -> Option<u128>
    ensures { index.IsLeast (index.ids_at names.now path.now) result }
{
    match names.get(path) {
        Some(uuids) => least(uuids),
        None => None,
    }
}

/// The least of the identities.
fn least(uuids: &[u128]) -> Option<u128>
    ensures { index.IsLeast uuids.now result }
{
    let mut least = None;
    for uuid in uuids {
        least = Some(lesser(least, *uuid));
    }
    least
}

/// The lesser of both identities.
fn lesser(one: Option<u128>, other: u128) -> u128
    ensures { result ≡ index.lesser one other }
{
    match one {
        Some(one) => { if one < other { one } else { other } }
        None => other,
    }
}

/// Whether another identity stands at the path key.
pub(crate) fn has_other(names: &Names, path: &[u8], uuid: u128) -> bool
    ensures { result ≡ list_any (λ id. not (id == uuid)) (index.ids_at names.now path.now) }
{
    match names.get(path) {
        Some(uuids) => others_than(uuids, uuid),
        None => false,
    }
}

/// Whether one of these identities is another.
fn others_than(uuids: &[u128], uuid: u128) -> bool
    ensures { result ≡ list_any (λ id. not (id == uuid)) uuids.now }
{
    uuids.iter().any(|id| *id != uuid)
}

/// Whether an identity stands at a longer path key that begins with this one.
pub(crate) fn has_longer(names: &Names, path: &[u8]) -> bool
    requires { index.HasNoEmpty names.now }
    ensures { index.IsLonger names.now path.now result }
{
    let _ = names.len();
    match names.next_after(path) {
        Some((next, _)) => next.starts_with(path),
        None => false,
    }
}

/// The identities at the path keys that begin with this one.
pub(crate) fn ids_within(
    alloc: Global,
    names: &Names,
    path: &[u8],
) -> Result<BTreeSet<u128>, NoMemory>
    ensures { IfOk result (λ uuids.
        uuids.keys ≡ joined [] (index.ids_within names.now path.now)) }
{
    let lists = names.values_within(path)?;
    ids_of_each(alloc, &lists)
}

/// The identities of all these lists.
fn ids_of_each(alloc: Global, lists: &[&Vec<u128>]) -> Result<BTreeSet<u128>, NoMemory>
    ensures { IfOk result (λ uuids.
        uuids.keys ≡ joined [] (flat_map (λ ids. ids.now.items) lists.now)) }
{
    let mut uuids = BTreeSet::new(alloc);
    for ids in lists {
        add_each(&mut uuids, ids.as_slice())?;
    }
    Ok(uuids)
}

/// Whether the least and the greatest path key begin with this one, as then all do.
pub(crate) fn all_begin(names: &Names, path: &[u8]) -> bool {
    begins(names.first(), path) && begins(names.last(), path)
}

/// Whether there is a pair whose key begins with the path.
fn begins(pair: Option<(&Vec<u8>, &Vec<u128>)>, path: &[u8]) -> bool {
    match pair {
        Some((key, _)) => key.starts_with(path),
        None => false,
    }
}

fn copied(alloc: Global, path: &[u8]) -> Result<Vec<u8>, NoMemory>
    ensures { IfOk result (λ copy. copy.items ≡ path.now) }
{
    let mut copy = Vec::new(alloc);
    copy.extend_from_slice(path)?;
    Ok(copy)
}
