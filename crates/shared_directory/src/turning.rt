//! A turn at the cell for each call: none is held after it.

ghost use Rattle.std.specs.Prelude.{◌≡◌};
ghost use Rattle.sync_provider.specs.Ports.{HasMet, IsReplied};
ghost use Rattle.turn_cell.specs.Passes.{cell_id, view_of};
ghost use Rattle.shared_directory.specs.Passes.{port_of, IsPassOf};

use crate::calls::{Call, LookCall};
use crate::directory::{DirectoryCell, DirectoryPass};
use std::sync::Wait;

/// Waits for the pass's turn, makes the call, and ends the turn.
pub(crate) fn take_turn<R: Wait, C: Call>(
    rt: &R,
    cell: &DirectoryCell,
    pass: DirectoryPass,
    call: C,
) -> (DirectoryPass, C::Answer)
    requires { IsPassOf (cell_id cell.now) pass }
    ensures pass { IsPassOf (cell_id cell.now) result.0 }
    ensures replies { IsReplied (port_of (view_of pass))
        (λ p. C.replies call result.1 p (port_of (view_of result.0))) }
{
    let mut turn = cell.enter(rt, pass);
    let number = turn.number();
    let answer = turn.state().answer(number, call);
    let (pass, _) = turn.leave();
    (pass, answer)
}

/// Lets a pass meet another one of the directory, and then take a turn that makes no call.
pub(crate) fn take_turn_beside<R: Wait>(
    rt: &R,
    cell: &DirectoryCell,
    mut pass: DirectoryPass,
    other: &mut DirectoryPass,
) -> DirectoryPass
    requires pass { IsPassOf (cell_id cell.now) pass }
    requires other { IsPassOf (cell_id cell.now) other.old }
    ensures pass { IsPassOf (cell_id cell.now) result }
    ensures met { HasMet (port_of (view_of pass)) (port_of (view_of other.old))
        (port_of (view_of result)) }
    ensures other_pass { IsPassOf (cell_id cell.now) other.new }
    ensures other { view_of other.new ≡ view_of other.old }
{
    cell.meet(&mut pass, other);
    let mut turn = cell.enter(rt, pass);
    let number = turn.number();
    turn.state().answer(number, LookCall);
    let (pass, _) = turn.leave();
    pass
}
