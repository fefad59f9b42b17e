//! The names that changes bring and take away.
ghost use Rattle.std.specs.Prelude.{◌≡◌, ℕ, ◌&&◌, ◌||◌, ◌==◌, not, List, All, IfOk, OnOk};
ghost use Rattle.entry_tree.specs.NameIndex as index;

use crate::names::{Names, forget, note};
use entry_writes::{Entry, EntryChange};
use ldap_ber::NoMemory;
use std::alloc::Global;

/// The index after the changes: without the names that they take away, and with those that they
/// bring. What stands at these is shared with the other index where that has the same.
pub(crate) fn reindexed(
    alloc: Global,
    names: Names,
    like: &Names,
    changes: &[EntryChange],
) -> Result<Names, NoMemory>
    requires { index.HasNoEmpty names }
    ensures exact { IfOk result (λ after. (path : List ℕ) (uuid : ℕ)
        → index.stands_at after path uuid
        ≡ (index.comes path uuid changes.now
        || (not (index.goes path uuid changes.now) && index.stands_at names path uuid))) }
    ensures some { IfOk result index.HasNoEmpty }
    ensures placed { OnOk result (All index.BringsPathKey changes.now) }
{
    let mut after = names;
    forget_each(alloc, &mut after, like, changes)?;
    note_each(alloc, &mut after, like, changes)?;
    Ok(after)
}

/// Takes the names away that the changes take from their identities.
fn forget_each(
    alloc: Global,
    names: &mut Names,
    like: &Names,
    changes: &[EntryChange],
) -> Result<(), NoMemory>
    requires { index.HasNoEmpty names.old }
    ensures forgotten { OnOk result ((path : List ℕ) (uuid : ℕ)
        → index.stands_at names.new path uuid
        ≡ (not (index.goes path uuid changes.now) && index.stands_at names.old path uuid)) }
    ensures some { OnOk result (index.HasNoEmpty names.new) }
{
    for change in changes {
        leave(
            alloc,
            names,
            like,
            change.uuid,
            &change.before,
            &change.after,
        )?;
    }
    Ok(())
}

/// Notes the names that the changes bring to their identities.
fn note_each(
    alloc: Global,
    names: &mut Names,
    like: &Names,
    changes: &[EntryChange],
) -> Result<(), NoMemory>
    requires { index.HasNoEmpty names.old }
    ensures noted { OnOk result ((path : List ℕ) (uuid : ℕ)
        → index.stands_at names.new path uuid
        ≡ (index.comes path uuid changes.now || index.stands_at names.old path uuid)) }
    ensures some { OnOk result (index.HasNoEmpty names.new) }
    ensures placed { OnOk result (All index.BringsPathKey changes.now) }
{
    for change in changes {
        arrive(
            alloc,
            names,
            like,
            change.uuid,
            &change.after,
            &change.before,
        )?;
    }
    Ok(())
}

/// Takes the name of the one entry away from the identity, unless the other has it.
fn leave(
    alloc: Global,
    names: &mut Names,
    like: &Names,
    uuid: u128,
    gone: &Option<Entry>,
    kept: &Option<Entry>,
) -> Result<(), NoMemory>
    requires { index.HasNoEmpty names.old }
    ensures forgotten { OnOk result ((path : List ℕ) (id : ℕ)
        → index.stands_at names.new path id
        ≡ (not ((id == uuid)
        && (index.has_path path gone.now && not (index.has_path path kept.now)))
        && index.stands_at names.old path id)) }
    ensures some { OnOk result (index.HasNoEmpty names.new) }
{
    match gone {
        Some(entry) => {
            let path = entry.dn.path();
            if has_path(kept, path) {
                return Ok(());
            }
            forget(alloc, names, like, path, uuid)
        }
        None => Ok(()),
    }
}

/// Notes the name of the one entry for the identity, unless the other had it.
fn arrive(
    alloc: Global,
    names: &mut Names,
    like: &Names,
    uuid: u128,
    come: &Option<Entry>,
    had: &Option<Entry>,
) -> Result<(), NoMemory>
    requires { index.HasNoEmpty names.old }
    ensures noted { OnOk result ((path : List ℕ) (id : ℕ)
        → index.stands_at names.new path id
        ≡ (((id == uuid) && (index.has_path path come.now && not (index.has_path path had.now)))
        || index.stands_at names.old path id)) }
    ensures some { OnOk result (index.HasNoEmpty names.new) }
    ensures placed { index.HasPathKey come.now }
{
    match come {
        Some(entry) => {
            let path = entry.dn.path();
            if has_path(had, path) {
                return Ok(());
            }
            note(alloc, names, like, path, uuid)
        }
        None => Ok(()),
    }
}

/// Whether there is an entry whose name has the path key.
fn has_path(entry: &Option<Entry>, path: &[u8]) -> bool
    ensures { result ≡ index.has_path path.now entry.now }
{
    match entry {
        Some(entry) => entry.dn.path() == path,
        None => false,
    }
}
