ghost use Rattle.std.specs.Prelude.{◌≡◌, ◌+◌, length, if◌then◌else◌, IsTrue};
ghost use Rattle.std.specs.Thread.{IsSync};
ghost use Rattle.turn_cell.specs.Passes.{cell_id, cell_of, view_of, mine};

use crate::pairs::Pairs;
use std::sync::Wait;
use std::thread::{Threads, join};
use turn_cell::{Pass, TurnCell};

/// Adds a value in one turn. False when out of memory.
pub fn add_one<R: Wait>(
    rt: &R,
    cell: &TurnCell<Pairs>,
    pass: Pass<Pairs>,
    value: u64,
) -> (Pass<Pairs>, bool)
    requires { cell_of pass ≡ cell_id cell.now }
    ensures cell { cell_of result.0 ≡ cell_id cell.now }
    ensures number { (view_of result.0).number ≡ (view_of pass).number }
    ensures mine { length (mine (view_of result.0))
        ≡ length (mine (view_of pass)) + (if result.1 then 1 else 0) }
{
    let mut turn = cell.enter(rt, pass);
    let number = turn.number();
    let added = turn.state().add(number, value);
    let (pass, _) = turn.leave();
    (pass, added)
}

/// Takes a turn that adds nothing. Gives the pass, and how many entries the turn added.
pub fn look<R: Wait>(rt: &R, cell: &TurnCell<Pairs>, pass: Pass<Pairs>) -> (Pass<Pairs>, u64)
    requires { cell_of pass ≡ cell_id cell.now }
    ensures cell { cell_of result.0 ≡ cell_id cell.now }
    ensures number { (view_of result.0).number ≡ (view_of pass).number }
    ensures none { result.1 ≡ 0 }
{
    let turn = cell.enter(rt, pass);
    turn.leave()
}

/// Adds each of the values in a turn of its own. False when out of memory.
pub fn add_all<R: Wait>(
    rt: &R,
    cell: &TurnCell<Pairs>,
    pass: Pass<Pairs>,
    values: &[u64],
) -> (Pass<Pairs>, bool)
    requires { cell_of pass ≡ cell_id cell.now }
    ensures cell { cell_of result.0 ≡ cell_id cell.now }
    ensures number { (view_of result.0).number ≡ (view_of pass).number }
    ensures mine { IsTrue result.1
        → length (mine (view_of result.0)) ≡ length (mine (view_of pass)) + length values.now }
{
    let mut pass = pass;
    let mut all = true;
    for value in values {
        let (back, added) = add_one(rt, cell, pass, *value);
        pass = back;
        all = all && added;
    }
    (pass, all)
}

/// Adds the values of two passes, each in a thread of its own.
pub fn add_both<R: Threads + Wait + Sync>(
    rt: &R,
    cell: &TurnCell<Pairs>,
    first: Pass<Pairs>,
    firsts: &[u64],
    second: Pass<Pairs>,
    seconds: &[u64],
) -> ((Pass<Pairs>, bool), (Pass<Pairs>, bool))
    requires { (cell_of first ≡ cell_id cell.now) × (cell_of second ≡ cell_id cell.now) }
    ensures cell { (cell_of result.0.0 ≡ cell_id cell.now)
        × (cell_of result.1.0 ≡ cell_id cell.now) }
    ensures one { IsTrue result.0.1 → length (mine (view_of result.0.0))
        ≡ length (mine (view_of first)) + length firsts.now }
    ensures two { IsTrue result.1.1 → length (mine (view_of result.1.0))
        ≡ length (mine (view_of second)) + length seconds.now }
{
    join(
        rt,
        || -> (Pass<Pairs>, bool)
            requires { IsSync R.row × (cell_of first ≡ cell_id cell.now) }
            ensures cell { cell_of result.0 ≡ cell_id cell.entry.now }
            ensures mine { IsTrue result.1 → length (mine (view_of result.0))
                ≡ length (mine (view_of first)) + length firsts.entry.now }
        { add_all(rt, cell, first, firsts) },
        || -> (Pass<Pairs>, bool)
            requires { IsSync R.row × (cell_of second ≡ cell_id cell.now) }
            ensures cell { cell_of result.0 ≡ cell_id cell.entry.now }
            ensures mine { IsTrue result.1 → length (mine (view_of result.0))
                ≡ length (mine (view_of second)) + length seconds.entry.now }
        { add_all(rt, cell, second, seconds) },
    )
}
