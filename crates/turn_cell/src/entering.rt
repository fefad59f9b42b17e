ghost use Rattle.std.specs.Prelude.{◌≡◌, ◌%◌, ◌^◌, ◌≤◌, [], ◌∷◌, IfSome, IfNone};
ghost use Rattle.turn_cell.specs.Rule.{waiting, ticket_of};
ghost use Rattle.turn_cell.specs.Steps.{HasTaken};
ghost use Rattle.turn_cell.specs.Passes.{cell_id, cell_of, view_of, Continues};
ghost use Rattle.turn_cell.specs.Turns.{IsTurn, value_of, found_of, number_of, passes_of};

use crate::cell::TurnCell;
use crate::journalled::Journalled;
use crate::moves::{Draw, Serve};
use crate::pass::Pass;
use crate::table::{CellSeat, CellWords, DRAWN, SERVED, VALUE};
use crate::turn::{Turn, TurnAt};
use crate::waiting::WaitingRoom;
use std::hint;
use std::snapshot::Snapshot;
use std::sync::Wait;

/// How often a pass whose turn is near looks for it before it sleeps.
const SPINS: u32 = 2_000;

/// How many turns come before a turn that is near, at most: more of them than there are processors
/// only keep a processor from those whose turn comes first.
const NEAR: u64 = 4;

impl<D: Journalled> TurnCell<D> {
    /// Waits for the pass's turn. It has the value as the turn before it left it.
    ///
    /// No promise is made that the turn comes: it does not where another turn is never left.
    pub fn enter<R: Wait>(&self, rt: &R, pass: Pass<D>) -> Turn<'_, D>
        requires { cell_of pass ≡ cell_id self.now }
        ensures cell { result.cell.now ≡ self.now }
        ensures turn { IsTurn D.journal (cell_id self.now) result }
        ensures number { number_of result ≡ (view_of pass).number }
        ensures passes { passes_of result ≡ (view_of pass).seats }
        ensures found { value_of result ≡ found_of result }
        ensures continues { Continues (D.journal (value_of result))
            (D.share (value_of result) (view_of pass).number) (view_of pass) }
    {
        let (mut seat, number) = pass.into_parts();
        let words = &self.table.shared;
        let ticket = words.fetch_add::<Draw>(&mut seat, DRAWN, 1);
        let value = await_turn(rt, words, &self.room, &mut seat, ticket);
        let found = Snapshot::of(&value);
        let before = value.count();
        TurnAt {
            cell: self,
            seat,
            value,
            found,
            before,
            number,
        }
    }
}

/// Waits until the seat's ticket is served, and takes the value.
fn await_turn<D: Journalled, R: Wait>(
    rt: &R,
    words: &CellWords<D>,
    room: &WaitingRoom,
    seat: &mut CellSeat<D>,
    ticket: u64,
) -> D
    requires table { (seat.old.table_id ≡ words.now.table_id) × (words.now.table_id.words ≡ 3) }
    requires seat { seat.old.me
        ≡ (waiting seat.old.me.0.passes (ticket_of seat.old.me.0.ticket), []) }
    requires ticket { ticket ≡ ticket_of seat.old.me.0.ticket % 2 ^ 64 }
    ensures table { seat.new.table_id ≡ seat.old.table_id }
    ensures taken { HasTaken D.journal D.share seat.old.me.0 result seat.new.me }
{
    let mut spins = 0;
    for _ in rt.forever() {
        if let Some(value) = try_take(words, seat, ticket) {
            return value;
        }
        spins = wait_a_little(rt, words, room, ticket, spins);
    }
    unreachable!()
}

/// Takes the value where the seat's ticket is served.
fn try_take<D: Journalled>(words: &CellWords<D>, seat: &mut CellSeat<D>, ticket: u64) -> Option<D>
    requires table { (seat.old.table_id ≡ words.now.table_id) × (words.now.table_id.words ≡ 3) }
    requires seat { seat.old.me
        ≡ (waiting seat.old.me.0.passes (ticket_of seat.old.me.0.ticket), []) }
    requires ticket { ticket ≡ ticket_of seat.old.me.0.ticket % 2 ^ 64 }
    ensures table { seat.new.table_id ≡ seat.old.table_id }
    ensures taken { IfSome result (λ value.
        HasTaken D.journal D.share seat.old.me.0 value seat.new.me) }
    ensures none { IfNone result (seat.new.me ≡ seat.old.me) }
{
    if words.load::<Serve>(seat, SERVED) != ticket {
        return None;
    }
    let Some(value) = words.exchange(seat, VALUE, None) else {
        unreachable!()
    };
    Some(value)
}

/// Waits for a moment: by looking again where the turn is near, or asleep, where it is not, or after
/// SPINS looks.
///
/// What is given and what is answered count the looks since it slept last.
fn wait_a_little<D: Journalled, R: Wait>(
    rt: &R,
    words: &CellWords<D>,
    room: &WaitingRoom,
    ticket: u64,
    spins: u32,
) -> u32
    requires { words.now.table_id.words ≡ 3 }
    ensures { result ≤ SPINS }
{
    let before = ticket.wrapping_sub(words.peek(SERVED));
    if spins < SPINS && before <= NEAR {
        hint::spin_loop();
        return spins + 1;
    }
    room.lie_down(ticket);
    if words.peek(SERVED) != ticket {
        room.sleep(rt, ticket);
    }
    0
}
