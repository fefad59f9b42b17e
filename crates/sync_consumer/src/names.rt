//! The identities of entries by the path keys of their names.

ghost use Rattle.std.specs.Prelude.{◌≡◌, ◌∷◌, [], ℕ, List, true, false, None, Some, is_none, bytes_eq, IfOk, OnOk, IsTrue};
ghost use Rattle.std.specs.Map.{keys_of};
ghost use Rattle.dn_names.specs.Paths.{path_key, HasPath};
ghost use Rattle.entry_tree.specs.declared.entry.Entry.{Entry};
ghost use Rattle.entry_tree.specs.State.{ascends, entry_at, same_named};
ghost use Rattle.sync_model.specs.Copy.{effected};
ghost use Rattle.entry_tree.specs.NameIndex.{HasPathKey};
ghost use Rattle.sync_consumer.specs.Holding.{id_at, keeps_name, stays, Forgets, ForgetsFor, IsIndexOf, Notes, NotesAll, SetsId};
ghost use Rattle.entry_tree.specs.Touched.{rises};
ghost use Rattle.sync_consumer.specs.Staging.{change_of, changes_in, entry_staged};

use crate::stage::StagedChange;
use crate::weighed::WeighedEntries;
use dn_names::Dn;
use entry_tree::Entry;
use ldap_ber::NoMemory;
use shared_map::SharedMap;

/// The identity of the entry at each path key.
pub(crate) type IdentitiesByName = SharedMap<Vec<u8>, u128>;

/// The names that there are after the changes, and whether no two entries have one then.
pub(crate) fn names_after(
    names: &IdentitiesByName,
    held: &WeighedEntries,
    changes: &[&StagedChange],
) -> Result<(IdentitiesByName, bool), NoMemory>
    requires index { IsIndexOf names.now held.now }
    requires ascends { ascends held.now ≡ true }
    requires ordered { rises (keys_of (changes_in changes.now)) ≡ true }
    ensures unique_names { IfOk result (λ after.
        IsTrue after.1 → same_named (effected held.now (changes_in changes.now)) ≡ None) }
    ensures index { IfOk result (λ after.
        same_named (effected held.now (changes_in changes.now)) ≡ None
        → IsIndexOf after.0 (effected held.now (changes_in changes.now))) }
{
    let mut after = names.copy()?;
    forget_each(&mut after, held, changes)?;
    let has_unique_names = note_each(&mut after, held, changes)?;
    Ok((after, has_unique_names))
}

/// Takes the names away that the entries have of which a change is, but for those that stay.
fn forget_each(
    names: &mut IdentitiesByName,
    held: &WeighedEntries,
    changes: &[&StagedChange],
) -> Result<(), NoMemory>
    requires index { Notes names.old (λ uuid. entry_at held.now uuid) }
    requires ordered { rises (keys_of (changes_in changes.now)) ≡ true }
    ensures { OnOk result (Notes names.new (stays held.now (changes_in changes.now))) }
{
    let mut left = changes.len();
    while left > 0 {
        left -= 1;
        forget_for(names, held, changes[left])?;
    }
    Ok(())
}

/// Takes the name away that the identity of the change has, unless the change keeps it.
fn forget_for(
    names: &mut IdentitiesByName,
    held: &WeighedEntries,
    change: &StagedChange,
) -> Result<(), NoMemory>
    ensures { OnOk result (ForgetsFor held.now (change_of change.now) names.old names.new) }
{
    if keeps_name(held, change) {
        return Ok(());
    }
    forget_at(names, held, change.uuid())
}

/// Whether the change puts an entry of the name that its identity has.
fn keeps_name(held: &WeighedEntries, change: &StagedChange) -> bool
    ensures value { result
        ≡ keeps_name (entry_at held.now (change_of change.now).0) (change_of change.now).1 }
    ensures pathed { IsTrue result → HasPathKey (change_of change.now).1 }
{
    match change {
        StagedChange::AddOrModify(entry) => has_name_of(held, entry),
        StagedChange::Delete(_) => false,
    }
}

/// Whether the identity of the entry has an entry of its name.
fn has_name_of(held: &WeighedEntries, entry: &Entry) -> bool
    ensures value { result ≡ keeps_name (entry_at held.now entry.now.uuid) (Some entry.now) }
    ensures pathed { HasPath entry.now.dn }
{
    let path = entry.dn.path();
    match held.get(entry.uuid) {
        Some(was) => has_path_key(&was.dn, path),
        None => false,
    }
}

/// Whether the name has this path key.
fn has_path_key(name: &Dn, path: &[u8]) -> bool
    ensures { result ≡ bytes_eq (path_key name.now) path.now }
{
    name.path() == path
}

/// Takes the name away that the entry of the identity has.
fn forget_at(
    names: &mut IdentitiesByName,
    held: &WeighedEntries,
    uuid: u128,
) -> Result<(), NoMemory>
    ensures { OnOk result (Forgets names.old names.new (entry_at held.now uuid)) }
{
    match held.get(uuid) {
        Some(entry) => forget(names, entry),
        None => Ok(()),
    }
}

/// Takes the name of the entry away.
#[tactic(auto, using(crate::proofs::Noting::sets_empty))]
fn forget(names: &mut IdentitiesByName, entry: &Entry) -> Result<(), NoMemory>
    ensures { OnOk result (SetsId names.old names.new (path_key entry.now.dn) None) }
{
    if names.len() == 0 {
        return Ok(());
    }
    names.remove(entry.dn.path())?;
    Ok(())
}

/// Notes the names of the entries that are put, but for those that stay. Whether none of them was
/// there.
fn note_each(
    names: &mut IdentitiesByName,
    held: &WeighedEntries,
    changes: &[&StagedChange],
) -> Result<bool, NoMemory>
    requires { rises (keys_of (changes_in changes.now)) ≡ true }
    ensures noted { IfOk result (NotesAll held.now names.old names.new (changes_in changes.now)) }
    ensures pathed { OnOk result
        ((uuid : ℕ) → HasPathKey (entry_staged (changes_in changes.now) uuid)) }
{
    let mut has_unique_names = true;
    let mut left = changes.len();
    while left > 0 {
        left -= 1;
        let is_free = note_for(names, held, changes[left])?;
        has_unique_names &= is_free;
    }
    Ok(has_unique_names)
}

/// Notes the name of the entry that the change puts, if any, unless its identity has it. Whether it
/// was not there.
fn note_for(
    names: &mut IdentitiesByName,
    held: &WeighedEntries,
    change: &StagedChange,
) -> Result<bool, NoMemory>
    ensures noted { IfOk result
        (NotesAll held.now names.old names.new (change_of change.now ∷ [])) }
    ensures pathed { OnOk result (HasPathKey (change_of change.now).1) }
{
    if keeps_name(held, change) {
        return Ok(true);
    }
    note_change(names, change)
}

/// Notes the name of the entry that the change puts, if any. Whether it was not there.
fn note_change(names: &mut IdentitiesByName, change: &StagedChange) -> Result<bool, NoMemory>
    ensures noted { (entries : List Entry)
        → keeps_name (entry_at entries (change_of change.now).0) (change_of change.now).1 ≡ false
        → IfOk result (NotesAll entries names.old names.new (change_of change.now ∷ [])) }
    ensures pathed { OnOk result (HasPathKey (change_of change.now).1) }
{
    match change {
        StagedChange::AddOrModify(entry) => note(names, entry),
        StagedChange::Delete(_) => Ok(true),
    }
}

/// Notes the name of the entry. Whether it was not there.
fn note(names: &mut IdentitiesByName, entry: &Entry) -> Result<bool, NoMemory>
    ensures free { IfOk result (λ is_free.
        is_free ≡ is_none (id_at names.old (path_key entry.now.dn))) }
    ensures noted { OnOk result
        (SetsId names.old names.new (path_key entry.now.dn) (Some entry.now.uuid)) }
    ensures pathed { HasPath entry.now.dn }
{
    let is_free = names.get(entry.dn.path()).is_none();
    names.insert(entry.dn.path_key()?, entry.uuid)?;
    Ok(is_free)
}
