ghost use Rattle.std.specs.Prelude.{◌≡◌, ◌≤◌, [], ◌∷◌, length, vec_len, vec_capacity, IfOk, IfErr, Some};
ghost use Rattle.turn_cell.specs.Journals.{Every};
ghost use Rattle.turn_cell.specs.Rule.{dealer, idle, new_passes};
ghost use Rattle.turn_cell.specs.Passes.{AreNew, cell_id, opened_with, seats_of};

use crate::cell::{NoMemory, TurnCell};
use crate::journalled::Journalled;
use crate::moves::Deal;
use crate::pass::Pass;
use crate::table::{CellSeat, CellTable, CellWords, Opening};
use crate::waiting::WaitingRoom;
use atomic_table::{Refused, Table};
use std::alloc::{AllocError, Global};
use std::snapshot::Snapshot;

impl<D: Journalled> TurnCell<D> {
    /// A cell with `seats` passes, numbered from 1, in this order. Each has seen the journal and
    /// its share as they are. When out of memory, the value comes back.
    pub fn new(
        alloc: Global,
        value: D,
        seats: u32,
    ) -> Result<(TurnCell<D>, Vec<Pass<D>>), (NoMemory, D)>
        requires seats { (1 ≤ seats) × (seats ≤ 1024) }
        requires before { Every (λ entry. entry.1 ≡ 0) (D.journal value) }
        ensures cell { IfOk result (λ made.
            (seats_of made.0 ≡ seats) × (opened_with made.0 ≡ value)) }
        ensures passes { IfOk result (λ made.
            AreNew (cell_id made.0) seats (D.journal value) (D.share value) 1 made.1.items
            × (length made.1.items ≡ seats)) }
        ensures err { IfErr result (λ refused. refused.1 ≡ value) }
    {
        let Ok(mut passes) = Vec::with_capacity(alloc, seats as usize) else {
            return Err((AllocError, value));
        };
        let Ok(room) = WaitingRoom::new(alloc, seats) else {
            return Err((AllocError, value));
        };
        let seen = value.count();
        let (table, mut dealer) = match table_of(alloc, value, seats) {
            Ok(made) => made,
            Err(value) => return Err((AllocError, value)),
        };
        deal(&table.shared, &mut dealer, &mut passes, seats, seen);
        Ok((TurnCell { table, seats, room }, passes))
    }
}

/// A table with the value, and the seat that stands for all its passes.
fn table_of<D: Journalled>(
    alloc: Global,
    value: D,
    seats: u32,
) -> Result<(CellTable<D>, CellSeat<D>), D>
    requires few { seats ≤ 1024 }
    ensures sized { IfOk result (λ made.
        (made.0.shared.table_id.words ≡ 3) × (made.0.shared.table_id.slots ≡ 1)) }
    ensures opened { IfOk result (λ made.
        (made.0.shared.key.seats ≡ seats) × (made.0.shared.key.value.value ≡ value)) }
    ensures dealer { IfOk result (λ made.
        (made.1.table_id ≡ made.0.shared.table_id)
        × (made.1.me ≡ (dealer (D.journal value) (D.share value) seats, []))) }
    ensures err { IfErr result (λ back. back ≡ value) }
{
    let length = value.count();
    let opening = Opening {
        seats: seats as u64,
        value: Snapshot::of(&value),
    };
    let slots = slots_with(alloc, value)?;
    match Table::new(alloc, &[0, 0, length], slots, &opening) {
        Ok(made) => Ok(made),
        Err(Refused { slots }) => Err(value_in(slots)),
    }
}

/// The one slot of a table, with the value.
fn slots_with<D>(alloc: Global, value: D) -> Result<Vec<Option<D>>, D>
    ensures ok { IfOk result (λ slots. slots.items ≡ Some value ∷ []) }
    ensures err { IfErr result (λ back. back ≡ value) }
{
    let Ok(mut slots) = Vec::with_capacity(alloc, 1) else {
        return Err(value);
    };
    slots.push_reserved(Some(value));
    Ok(slots)
}

/// The value in the one slot.
fn value_in<D>(mut slots: Vec<Option<D>>) -> D
    requires { (value : D) × (slots.items ≡ Some value ∷ []) }
    ensures { slots.items ≡ Some result ∷ [] }
{
    let Some(Some(value)) = slots.pop() else {
        unreachable!()
    };
    slots.destroy_empty();
    value
}

/// Splits the passes off the seat that stands for all of them.
fn deal<D: Journalled>(
    words: &CellWords<D>,
    dealer: &mut CellSeat<D>,
    passes: &mut Vec<Pass<D>>,
    seats: u32,
    seen: u64,
)
    requires table { (dealer.old.table_id ≡ words.now.table_id)
        × (words.now.table_id.words ≡ 3) }
    requires dealer { dealer.old.me ≡ (
      idle (new_passes seats
          (D.journal words.now.key.value.value) (D.share words.now.key.value.value) 1 seats),
      [],
    ) }
    requires seen { seen ≡ length (D.journal words.now.key.value.value) }
    requires room { (passes.old.items ≡ []) × (vec_len passes.old ≡ 0)
        × (seats ≤ vec_capacity passes.old) }
    ensures passes { AreNew dealer.old.table_id seats (D.journal words.now.key.value.value)
        (D.share words.now.key.value.value) 1 passes.new.items }
    ensures count { length passes.new.items ≡ seats }
{
    for place in 0..seats {
        let seat = words.split_seat::<Deal>(dealer);
        passes.push_reserved(Pass {
            seat,
            number: place + 1,
            seen,
        });
    }
}
