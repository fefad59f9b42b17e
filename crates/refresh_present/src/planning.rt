//! The decisions of a present phase.
ghost use Rattle.std.specs.Prelude.{◌≡◌, ◌≤◌, length, List, Option, ℕ, map, IfOk};
ghost use Rattle.std.specs.List.{flat_map};
ghost use Rattle.std.specs.List.Sorted.{IsStrictlySortedBy};
ghost use Rattle.std.specs.Ordering.{nat_cmp};
ghost use Rattle.refresh_present.specs.declared.item.Item.{Item};
ghost use Rattle.refresh_present.specs.Decision.{identity_of};
ghost use Rattle.refresh_present.specs.Item.{identities, selected_of};
ghost use Rattle.refresh_present.specs.Present as spec;

use crate::decision::Decision;
use crate::item::Item;
use std::alloc::{AllocError, Global};

/// Out of memory, as an error by itself.
pub type NoMemory = AllocError;

/// Decides a whole walk over the entries at one moment. Without a cookie (`after` is None) each
/// selected entry is sent (RFC 4533, section 3.3.1). With the cookie of write `after` those are
/// sent that were touched after it, and the others are named as present (section 3.3.2). It is
/// `NoMemory` where memory runs out.
pub fn plan(alloc: Global, items: &[Item], after: Option<u64>) -> Result<Vec<Decision>, NoMemory>
    requires { IsStrictlySortedBy nat_cmp (identities items.now) }
    ensures exact { IfOk result (λ plan. plan.items ≡ spec.planned after items.now) }

    // It reports each selected entry once and no other, in ascending order of identity.
    ensures items_decided { IfOk result (λ plan.
        map identity_of plan.items ≡ identities (selected_of items.now)) }
    ensures ascends { IfOk result (λ plan.
        IsStrictlySortedBy nat_cmp (map identity_of plan.items)) }
{
    decide_each(alloc, items, after)
}

/// Decides one piece of a walk that goes on at another moment. It is `NoMemory` where memory runs
/// out.
pub fn slice(alloc: Global, items: &[Item], after: Option<u64>) -> Result<Vec<Decision>, NoMemory>
    requires few { length items.now ≤ 256 }
    requires ascends { IsStrictlySortedBy nat_cmp (identities items.now) }
    ensures exact { IfOk result (λ plan. plan.items ≡ spec.planned after items.now) }
    ensures items_decided { IfOk result (λ plan.
        map identity_of plan.items ≡ identities (selected_of items.now)) }
    ensures ascends { IfOk result (λ plan.
        IsStrictlySortedBy nat_cmp (map identity_of plan.items)) }
{
    decide_each(alloc, items, after)
}

/// One after the other.
fn decide_each(alloc: Global, items: &[Item], after: Option<u64>) -> Result<Vec<Decision>, NoMemory>
    ensures { IfOk result (λ plan. plan.items ≡ spec.planned after items.now) }
{
    items
        .iter()
        .filter_map(|item| decide(item, after))
        .collect(alloc)
}

/// What a present phase reports of the item, if anything.
fn decide(item: &Item, after: Option<u64>) -> Option<Decision>
    ensures { result ≡ spec.decided after item.now }
{
    if !item.selected {
        None
    } else if item.is_new_to_client(after) {
        Some(Decision::Send(item.uuid))
    } else {
        Some(Decision::Present(item.uuid))
    }
}

/// The law of slices: the decisions of pieces, joined in order, are those of the whole walk where
/// they are made at one moment.
pub fn slices_make_the_plan()
    ensures { (after : Option ℕ) (pieces : List (List Item))
        → flat_map (spec.planned after) pieces
        ≡ spec.planned after (flat_map (λ piece. piece) pieces) }
{}
