//! The decisions of a delete phase.
ghost use Rattle.std.specs.Prelude.{◌≡◌, ◌≤◌, length, List, ℕ, map, IfOk};
ghost use Rattle.std.specs.List.{flat_map};
ghost use Rattle.std.specs.List.Sorted.{IsStrictlySortedBy};
ghost use Rattle.std.specs.Ordering.{nat_cmp};
ghost use Rattle.refresh_present.specs.declared.item.Item.{Item};
ghost use Rattle.refresh_present.specs.Decision.{identity_of};
ghost use Rattle.refresh_present.specs.Item.{identities};
ghost use Rattle.refresh_delete.specs.Delete as spec;

use refresh_present::{Decision, Item, NoMemory};
use std::alloc::Global;

/// Decides a whole walk over identities at one moment, for a client that has the content after
/// write `after`. Of the items that were touched since, the selected ones are sent and the others
/// are named as deleted; nothing is reported of the rest. It is `NoMemory` where memory runs out.
pub fn plan(alloc: Global, items: &[Item], after: u64) -> Result<Vec<Decision>, NoMemory>
    requires { IsStrictlySortedBy nat_cmp (identities items.now) }
    ensures exact { IfOk result (λ plan. plan.items ≡ spec.planned after items.now) }

    // It reports each touched entry once and no other, in ascending order of identity.
    ensures items_decided { IfOk result (λ plan.
        map identity_of plan.items ≡ identities (spec.touched_after after items.now)) }
    ensures ascends { IfOk result (λ plan.
        IsStrictlySortedBy nat_cmp (map identity_of plan.items)) }
{
    decide_each(alloc, items, after)
}

/// Decides one piece of a walk that goes on at another moment. It is `NoMemory` where memory runs
/// out.
pub fn slice(alloc: Global, items: &[Item], after: u64) -> Result<Vec<Decision>, NoMemory>
    requires few { length items.now ≤ 256 }
    requires ascends { IsStrictlySortedBy nat_cmp (identities items.now) }
    ensures exact { IfOk result (λ plan. plan.items ≡ spec.planned after items.now) }
    ensures items_decided { IfOk result (λ plan.
        map identity_of plan.items ≡ identities (spec.touched_after after items.now)) }
    ensures ascends { IfOk result (λ plan.
        IsStrictlySortedBy nat_cmp (map identity_of plan.items)) }
{
    decide_each(alloc, items, after)
}

/// One after the other.
fn decide_each(alloc: Global, items: &[Item], after: u64) -> Result<Vec<Decision>, NoMemory>
    ensures { IfOk result (λ plan. plan.items ≡ spec.planned after items.now) }
{
    items
        .iter()
        .filter_map(|item| decide(item, after))
        .collect(alloc)
}

/// What a delete phase reports of the item, if anything.
fn decide(item: &Item, after: u64) -> Option<Decision>
    ensures { result ≡ spec.decided after item.now }
{
    if item.touched <= after {
        None
    } else if item.selected {
        Some(Decision::Send(item.uuid))
    } else {
        Some(Decision::Delete(item.uuid))
    }
}

/// The law of slices: the decisions of pieces, joined in order, are those of the whole walk where
/// they are made at one moment.
pub fn slices_make_the_plan()
    ensures { (after : ℕ) (pieces : List (List Item))
        → flat_map (spec.planned after) pieces
        ≡ spec.planned after (flat_map (λ piece. piece) pieces) }
{}
