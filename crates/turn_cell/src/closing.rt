ghost use Rattle.std.specs.Prelude.{◌≡◌, ◌-◌, ◌<◌, ◌≤◌, ◌↔◌, [], ◌++◌, map, length, IsErr, IfOk, IfErr};
ghost use Rattle.turn_cell.specs.Journals.{Every, HasGrown};
ghost use Rattle.turn_cell.specs.Rule.{idle, HaveSeen};
ghost use Rattle.turn_cell.specs.Passes.{Continues, cell_id, cell_of, opened_with, seats_of, view_of};

use crate::cell::{CloseFault, TurnCell};
use crate::journalled::Journalled;
use crate::moves::Merge;
use crate::pass::Pass;
use crate::table::{CellSeat, CellTable, CellWords, VALUE};

impl<D: Journalled> TurnCell<D> {
    /// Gives the value, where all passes of the cell are given; else cell and passes come back.
    /// Allocates nothing. The fault is `PassesOut` with how many are missing.
    pub fn close(self, passes: Vec<Pass<D>>) -> Result<D, (CloseFault, TurnCell<D>, Vec<Pass<D>>)>
        requires { Every (λ pass. cell_of pass ≡ cell_id self) passes.items }
        ensures passes { IfOk result (λ value. Every (λ pass.
            Continues (D.journal value) (D.share value (view_of pass).number) (view_of pass))
            passes.items) }
        ensures numbers { IfOk result (λ value.
            HasGrown (seats_of self) (D.journal (opened_with self)) (D.journal value)) }
        ensures out { IsErr result ↔ (length passes.items < seats_of self) }
        ensures fault { IfErr result (λ refused.
            refused.0 ≡ CloseFault.PassesOut (seats_of self - length passes.items)) }
        ensures err { IfErr result (λ refused. (refused.1 ≡ self) × (refused.2 ≡ passes)) }
    {
        let count = passes.len();
        if count < self.seats as usize {
            let missing = self.seats - count as u32;
            return Err((CloseFault::PassesOut(missing), self, passes));
        }
        let TurnCell {
            table,
            seats: _,
            room: _room,
        } = self;
        let mut others = passes;
        let Some(pass) = others.pop() else {
            unreachable!()
        };
        let (mut seat, _) = pass.into_parts();
        gather(&table.shared, &mut seat, others);
        Ok(end(table, seat))
    }
}

/// Joins the passes into the seat.
fn gather<D: Journalled>(words: &CellWords<D>, seat: &mut CellSeat<D>, passes: Vec<Pass<D>>)
    requires table { (seat.old.table_id ≡ words.now.table_id) × (words.now.table_id.words ≡ 3) }
    requires passes { Every (λ pass. cell_of pass ≡ words.now.table_id) passes.items }
    requires seat { seat.old.me ≡ (idle seat.old.me.0.passes, []) }
    ensures table { seat.new.table_id ≡ seat.old.table_id }
    ensures seat { seat.new.me
        ≡ (idle (seat.old.me.0.passes ++ map view_of passes.items), []) }
{
    for pass in passes {
        let (other, _) = pass.into_parts();
        words.join_seat::<Merge>(seat, other);
    }
}

/// The value of a table, given the seat that stands for all passes.
fn end<D: Journalled>(table: CellTable<D>, seat: CellSeat<D>) -> D
    requires table { (seat.table_id ≡ table.shared.table_id)
        × (table.shared.table_id.slots ≡ 1) }
    requires seat { seat.me ≡ (idle seat.me.0.passes, []) }
    requires all { table.shared.key.seats ≤ length seat.me.0.passes }
    ensures seen { HaveSeen D.journal D.share result seat.me.0.passes }
    ensures grown { HasGrown table.shared.key.seats (D.journal table.shared.key.value.value)
        (D.journal result) }
{
    let mut closed = table.close_with(seat);
    let Some(value) = closed.take(VALUE) else {
        unreachable!()
    };
    closed.free();
    value
}
