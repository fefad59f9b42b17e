ghost use Rattle.std.specs.Prelude.{◌≡◌, [], ◌∷◌};
ghost use Rattle.turn_cell.specs.Rule.{first_pass, idle};
ghost use Rattle.turn_cell.specs.Steps.{HaveMet};
ghost use Rattle.turn_cell.specs.Passes.{Continues, cell_id, cell_of, view_of};

use crate::cell::TurnCell;
use crate::journalled::Journalled;
use crate::moves::{Deal, Meet, Merge};
use crate::pass::Pass;
use crate::table::{CellSeat, CellWords, LENGTH};
use std::mem;

impl<D: Journalled> TurnCell<D> {
    /// Shows the journal to a pass, in no turn and beside another pass of the cell.
    ///
    /// What the pass has then seen goes on from what it had seen by entries of others, and from
    /// what the other pass has seen by entries of others than that one. Waits for nobody, and
    /// allocates nothing.
    pub fn meet(&self, pass: &mut Pass<D>, other: &mut Pass<D>)
        requires pass { cell_of pass.old ≡ cell_id self.now }
        requires other { cell_of other.old ≡ cell_id self.now }
        ensures cell { cell_of pass.new ≡ cell_id self.now }
        ensures number { (view_of pass.new).number ≡ (view_of pass.old).number }
        ensures passes { (view_of pass.new).seats ≡ (view_of pass.old).seats }
        ensures seen { Continues (view_of pass.new).seen (view_of pass.new).share
            (view_of pass.old) }
        ensures seen_beside { Continues (view_of pass.new).seen (view_of other.old).share
            (view_of other.old) }
        ensures other_cell { cell_of other.new ≡ cell_id self.now }
        ensures other { view_of other.new ≡ view_of other.old }
    {
        let words = &self.table.shared;
        let theirs = words.split_seat::<Deal>(&mut other.seat);
        let (mine, seen) = meet_seats(words, &mut pass.seat, theirs);
        let rest = mem::replace(&mut pass.seat, mine);
        other.seat = rest;
        pass.seen = seen;
    }
}

/// Shows the journal to the pass of the first seat, which goes to a new seat; the first one is left
/// with the pass of the other. Gives the new seat, and the length of the journal.
fn meet_seats<D: Journalled>(
    words: &CellWords<D>,
    seat: &mut CellSeat<D>,
    other: CellSeat<D>,
) -> (CellSeat<D>, u64)
    requires table { (seat.old.table_id ≡ words.now.table_id)
        × (other.table_id ≡ words.now.table_id) × (words.now.table_id.words ≡ 3) }
    requires seat { seat.old.me ≡ (idle (first_pass seat.old.me.0.passes ∷ []), []) }
    requires other { other.me ≡ (idle (first_pass other.me.0.passes ∷ []), []) }
    ensures table { (seat.new.table_id ≡ words.now.table_id)
        × (result.0.table_id ≡ words.now.table_id) }
    ensures met { HaveMet (first_pass seat.old.me.0.passes) (first_pass other.me.0.passes)
        result.1 result.0.me seat.new.me }
{
    words.join_seat::<Merge>(seat, other);
    let seen = words.load::<Meet>(seat, LENGTH);
    let mine = words.split_seat::<Deal>(seat);
    (mine, seen)
}
