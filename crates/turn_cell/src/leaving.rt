ghost use Rattle.std.specs.Prelude.{◌≡◌, ◌+◌, [], ◌++◌, map, length};
ghost use Rattle.turn_cell.specs.Journals.{places, next_places};
ghost use Rattle.turn_cell.specs.Rule.{idle, Grows};
ghost use Rattle.turn_cell.specs.Steps.{updated};
ghost use Rattle.turn_cell.specs.Passes.{cell_id, cell_of, view_of, mine};
ghost use Rattle.turn_cell.specs.Turns.{IsTurn, MayEnd, value_of, found_of, number_of, passes_of};

use crate::cell::TurnCell;
use crate::journalled::Journalled;
use crate::moves::{Count, Raise};
use crate::pass::Pass;
use crate::table::{CellSeat, CellWords, LENGTH, SERVED, VALUE};
use crate::turn::TurnAt;

impl<'a, D: Journalled> TurnAt<D, &'a TurnCell<D>> {
    /// Puts the value back and ends the turn. Gives the pass, and the number of entries that the
    /// turn added. Allocates nothing.
    pub fn leave(self) -> (Pass<D>, u64)
        requires turn { IsTurn D.journal (cell_id self.cell.now) self }
        requires grows { Grows D.journal D.share (number_of self) (found_of self) (value_of self) }
        ensures cell { cell_of result.0 ≡ cell_id self.entry.cell.now }
        ensures number { (view_of result.0).number ≡ number_of self.entry }
        ensures passes { (view_of result.0).seats ≡ passes_of self.entry }
        ensures seen { (view_of result.0).seen ≡ D.journal (value_of self.entry) }
        ensures share { (view_of result.0).share
            ≡ D.share (value_of self.entry) (number_of self.entry) }
        ensures added { length (D.journal (value_of self.entry))
            ≡ length (D.journal (found_of self.entry)) + result.1 }
        ensures mine { mine (view_of result.0)
            ≡ places (number_of self.entry) (D.journal (found_of self.entry))
            ++ next_places (length (D.journal (found_of self.entry))) result.1 }
    {
        let TurnAt {
            cell,
            mut seat,
            value,
            found: _,
            before,
            number,
        } = self;
        let seen = value.count();
        let added = seen - before;
        end_turn(&cell.table.shared, &mut seat, value, added);
        cell.wake_next();
        (Pass { seat, number, seen }, added)
    }
}

impl<D: Journalled> TurnCell<D> {
    /// Wakes the pass whose ticket is served now, where it sleeps.
    fn wake_next(&self) {
        self.room.wake(self.table.shared.peek(SERVED));
    }
}

/// Puts the value into its slot, counts its new entries, and lets the next ticket be served.
fn end_turn<D: Journalled>(words: &CellWords<D>, seat: &mut CellSeat<D>, value: D, added: u64)
    requires table { (seat.old.table_id ≡ words.now.table_id) × (words.now.table_id.words ≡ 3) }
    requires turn { MayEnd D.journal D.share value added seat.old.me }
    ensures table { seat.new.table_id ≡ seat.old.table_id }
    ensures seat { seat.new.me
        ≡ (idle (map (updated D.journal D.share value) seat.old.me.0.passes), []) }
{
    let old = words.exchange(seat, VALUE, Some(value));
    let None = old else { unreachable!() };
    words.fetch_add::<Count>(seat, LENGTH, added);
    words.fetch_add::<Raise>(seat, SERVED, 1);
}
