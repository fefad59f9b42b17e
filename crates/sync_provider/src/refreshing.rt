//! How the pieces of a refresh are decided (RFC 4533, section 3.3).

ghost use Rattle.std.specs.Prelude.{◌≡◌, ◌≤◌, ◌++◌, Bool, [], is_some, length, map, Some, IfOk, OnOk};
ghost use Rattle.std.specs.List.{flat_map};
ghost use Rattle.std.specs.List.Sorted.{IsStrictlySortedBy};
ghost use Rattle.std.specs.Ordering.{nat_cmp};
ghost use Rattle.entry_tree.specs.Selection.{search_of};
ghost use Rattle.refresh_present.specs.Item.{identities as item_identities};
ghost use Rattle.sync_model.specs.Stream.{after_walk, rest_of};
ghost use Rattle.directory_writes.specs.Directory.{entries_of};
ghost use Rattle.sync_provider.specs.Gathering.{Gathers, AddsLast};
ghost use Rattle.sync_provider.specs.Refreshing as refreshing;
ghost use Rattle.directory_writes.specs.Starting.{start_of};
ghost use Rattle.sync_provider.specs.Search.{session_of};

use crate::NoMemory;
use crate::changed_set::ChangedSet;
use crate::gathering::Gathering;
use crate::selecting::selects;
use directory_writes::{Directory, Start};
use entry_tree::Spec;
use refresh_present::{Decision, Item};
use std::alloc::Global;

/// Gathers what is decided now of the identities of a piece.
pub(crate) fn gather_piece(
    directory: &Directory,
    spec: &Spec,
    start: Start,
    uuids: &[u128],
    gathering: &mut Gathering,
) -> Result<(), NoMemory>
    requires few { length uuids.now ≤ 256 }
    requires ascends { IsStrictlySortedBy nat_cmp uuids.now }
    ensures { OnOk result ((persists : Bool) → Gathers
        (refreshing.decided_now persists directory.now.state (search_of spec.now)
        (start_of start) uuids.now)
        gathering.old gathering.new) }
{
    let alloc = gathering.allocator();
    let decisions = decide_piece(alloc, directory, spec, start, uuids)?;
    gather(directory, decisions.as_slice(), gathering)
}

/// What is decided now of the identities of a piece.
fn decide_piece(
    alloc: Global,
    directory: &Directory,
    spec: &Spec,
    start: Start,
    uuids: &[u128],
) -> Result<Vec<Decision>, NoMemory>
    requires few { length uuids.now ≤ 256 }
    requires ascends { IsStrictlySortedBy nat_cmp uuids.now }
    ensures { IfOk result (λ decisions. (persists : Bool)
        → refreshing.said_all (entries_of directory.now.state) decisions.items
        ≡ refreshing.decided_now persists directory.now.state (search_of spec.now)
        (start_of start) uuids.now) }
{
    match start {
        Start::InitialContent => decide_selected(alloc, directory, spec, None, uuids),
        Start::PresentPhase(number) => {
            decide_selected(alloc, directory, spec, Some(number), uuids)
        }
        Start::DeletePhase(_) => decide_touched(alloc, directory, spec, uuids),
    }
}

/// Gathers what follows the last piece: the rest of the names, what is decided now of the
/// identities that changed in the content since the acceptance, and the end.
pub(crate) fn gather_end(
    directory: &Directory,
    spec: &Spec,
    persists: bool,
    changed: &ChangedSet,
    gathering: &mut Gathering,
) -> Result<(), NoMemory>
    ensures { OnOk result (AddsLast
        (rest_of gathering.old.deletes gathering.old.names
        ++ after_walk
        (session_of persists directory.now.state.sid directory.now.state.history
        (search_of spec.now) directory.now.state.writes)
        gathering.old.deletes (length directory.now.state.writes) changed.now)
        gathering.old gathering.new) }
{
    gathering.send_names()?;
    let late = changed.list()?;
    if late.is_empty() {
        return gathering.end(persists, directory.cookie());
    }
    gather_late(directory, spec, late.as_slice(), gathering)?;
    gathering.end(persists, directory.cookie())
}

/// Gathers the late part, which is a delete phase.
#[tactic(auto, using(crate::proofs::Deciding::touched_sorted))]
fn gather_late(
    directory: &Directory,
    spec: &Spec,
    uuids: &[u128],
    gathering: &mut Gathering,
) -> Result<(), NoMemory>
    requires ascends { IsStrictlySortedBy nat_cmp uuids.now }
    requires names { gathering.old.names ≡ [] }
    ensures { OnOk result ((persists : Bool) → refreshing.GathersLate persists
        directory.now.state (search_of spec.now) uuids.now gathering.old gathering.new) }
{
    gathering.turn_to_deletes()?;
    let alloc = gathering.allocator();
    let items = touched_items(alloc, directory, spec, uuids)?;
    let decisions = refresh_delete::plan(alloc, items.as_slice(), 0)?;
    gather(directory, decisions.as_slice(), gathering)?;
    gathering.send_names()
}

/// What is decided of the identities of a piece that may be selected: where those are that were
/// touched after this write, or all, they are sent, and else named as present.
#[tactic(auto, using(crate::proofs::Deciding::items_sorted))]
fn decide_selected(
    alloc: Global,
    directory: &Directory,
    spec: &Spec,
    after: Option<u64>,
    uuids: &[u128],
) -> Result<Vec<Decision>, NoMemory>
    requires few { length uuids.now ≤ 256 }
    requires ascends { IsStrictlySortedBy nat_cmp uuids.now }
    ensures { IfOk result (λ decisions. decisions.items
        ≡ refreshing.present_planned directory.now.state (search_of spec.now) after uuids.now) }
{
    let items = items(alloc, directory, spec, uuids)?;
    refresh_present::slice(alloc, items.as_slice(), after)
}

/// What is decided of the identities of a piece that were all touched since: they are sent, or
/// named as deleted.
#[tactic(auto, using(crate::proofs::Deciding::touched_sorted))]
fn decide_touched(
    alloc: Global,
    directory: &Directory,
    spec: &Spec,
    uuids: &[u128],
) -> Result<Vec<Decision>, NoMemory>
    requires few { length uuids.now ≤ 256 }
    requires ascends { IsStrictlySortedBy nat_cmp uuids.now }
    ensures { IfOk result (λ decisions. decisions.items
        ≡ refreshing.delete_planned directory.now.state (search_of spec.now) uuids.now) }
{
    let items = touched_items(alloc, directory, spec, uuids)?;
    refresh_delete::slice(alloc, items.as_slice(), 0)
}

/// What is known of each of these identities.
fn items(
    alloc: Global,
    directory: &Directory,
    spec: &Spec,
    uuids: &[u128],
) -> Result<Vec<Item>, NoMemory>
    ensures { IfOk result (λ items.
        items.items ≡ map (refreshing.item_at directory.now.state (search_of spec.now)) uuids.now) }
{
    let mut items = Vec::new(alloc);
    for uuid in uuids {
        items.push(item(alloc, directory, spec, *uuid)?)?;
    }
    Ok(items)
}

/// What is known of the identity. Where it has no entry any more, the number of the last write
/// stands for that of its last touch.
fn item(alloc: Global, directory: &Directory, spec: &Spec, uuid: u128) -> Result<Item, NoMemory>
    ensures { IfOk result (λ item.
        item ≡ refreshing.item_at directory.now.state (search_of spec.now) uuid) }
{
    match directory.tree().get(uuid) {
        None => Ok(Item {
            uuid,
            touched: directory.accepted().len() as u64,
            selected: false,
        }),
        Some(entry) => Ok(Item {
            uuid,
            touched: directory.last_touch_of(uuid),
            selected: selects(alloc, spec, entry)?,
        }),
    }
}

/// What is known of each of these identities, all of which were touched since: whether it has an
/// entry that is selected. Which write touched it is not looked up.
fn touched_items(
    alloc: Global,
    directory: &Directory,
    spec: &Spec,
    uuids: &[u128],
) -> Result<Vec<Item>, NoMemory>
    ensures { IfOk result (λ items. items.items
        ≡ map (refreshing.touched_item_at directory.now.state (search_of spec.now)) uuids.now) }
{
    let mut items = Vec::new(alloc);
    for uuid in uuids {
        items.push(Item {
            uuid: *uuid,
            touched: 1,
            selected: selects_found(alloc, directory, spec, *uuid)?,
        })?;
    }
    Ok(items)
}

/// Whether the identity has an entry that is selected.
fn selects_found(
    alloc: Global,
    directory: &Directory,
    spec: &Spec,
    uuid: u128,
) -> Result<bool, NoMemory>
    ensures { IfOk result (λ selects.
        selects ≡ refreshing.is_selected_at directory.now.state (search_of spec.now) uuid) }
{
    match directory.tree().get(uuid) {
        None => Ok(false),
        Some(entry) => selects(alloc, spec, entry),
    }
}

/// Gathers what was decided.
#[tactic(auto, using(crate::proofs::Sets::gathers_none, crate::proofs::Sets::gathers_more))]
fn gather(
    directory: &Directory,
    decisions: &[Decision],
    gathering: &mut Gathering,
) -> Result<(), NoMemory>
    ensures { OnOk result (Gathers
        (refreshing.said_all (entries_of directory.now.state) decisions.now)
        gathering.old gathering.new) }
{
    for decision in decisions {
        gather_one(directory, gathering, *decision)?;
    }
    Ok(())
}

/// What one decision says comes after what is gathered.
#[tactic(auto, using(crate::proofs::Sets::gathers_none))]
fn gather_one(
    directory: &Directory,
    gathering: &mut Gathering,
    decision: Decision,
) -> Result<(), NoMemory>
    ensures { OnOk result
        (Gathers (refreshing.said (entries_of directory.now.state) decision)
        gathering.old gathering.new) }
{
    match decision {
        Decision::Send(uuid) => match directory.tree().get(uuid) {
            None => Ok(()),
            Some(entry) => gathering.send(entry.copy()?),
        },
        Decision::Present(uuid) | Decision::Delete(uuid) => gathering.name(uuid),
    }
}
