//! Passes at a cell of pairs: what they are given back, what they have seen, and what stays.
ghost use Rattle.std.specs.Prelude.{◌≡◌, ◌++◌, [], ◌∷◌};
ghost use Rattle.std.specs.Thread.{IsSync};
ghost use Rattle.turn_cell.specs.Passes.{cell_id, cell_of};

use crate::{Pairs, add_both, look};
use std::process::Abort;
use std::sync::Wait;
use std::thread::{Threads, join};
use turn_cell::{CloseFault, Pass, TurnCell, seen};

/// Three passes: one adds two pairs, one adds none, and one takes no turn, but meets the first.
#[test]
fn a_turn_counts_what_it_added(rt: HostRuntime) {
    let Ok((cell, mut passes)) = TurnCell::new(rt.alloc(), Pairs::new(rt.alloc()), 3) else {
        panic!(rt; "out of memory")
    };
    let mut third = passes.pop().unwrap();
    let second = passes.pop().unwrap();
    let first = passes.pop().unwrap();
    let mut turn = cell.enter(&rt, first);
    let number = turn.number();
    let ten = turn.state().add(number, 10);
    let eleven = turn.state().add(number, 11);
    let (mut first, two) = turn.leave();
    let (second, none) = look(&rt, &cell, second);
    assert!(rt; number == 1 && ten && eleven && two == 2 && none == 0);
    assert!(rt; seen(&first) == 2 && seen(&second) == 2 && seen(&third) == 0);
    cell.meet(&mut third, &mut first);
    assert!(rt; seen(&first) == 2 && seen(&third) == 2);
    put_back(&rt, &mut passes, first);
    put_back(&rt, &mut passes, second);
    let Err((fault, cell, mut passes)) = cell.close(passes) else {
        panic!(rt; "a pass was out")
    };
    assert!(rt; fault == CloseFault::PassesOut(1) && passes.len() == 2);
    put_back(&rt, &mut passes, third);
    let Ok(pairs) = cell.close(passes) else {
        panic!(rt; "no pass was out")
    };
    assert!(rt; pairs.list() == [(1, 10), (1, 11)].as_slice());
}

/// Puts a pass at the end.
fn put_back(rt: &impl Abort, passes: &mut Vec<Pass<Pairs>>, pass: Pass<Pairs>)
    ensures { passes.new.items ≡ passes.old.items ++ pass ∷ [] }
{
    let Ok(()) = passes.push(pass) else {
        panic!(rt; "out of memory")
    };
}

/// Four threads, which each add the numbers from their own hundred on, one in a turn.
#[test]
fn all_that_threads_add_stands(rt: HostRuntime) {
    let Ok((cell, mut passes)) = TurnCell::new(rt.alloc(), Pairs::new(rt.alloc()), 4) else {
        panic!(rt; "out of memory")
    };
    let fourth = passes.pop().unwrap();
    let third = passes.pop().unwrap();
    let second = passes.pop().unwrap();
    let first = passes.pop().unwrap();
    let (first, second, third, fourth) = add_from_four(&rt, &cell, first, second, third, fourth);
    put_back(&rt, &mut passes, first);
    put_back(&rt, &mut passes, second);
    put_back(&rt, &mut passes, third);
    put_back(&rt, &mut passes, fourth);
    let Ok(pairs) = cell.close(passes) else {
        panic!(rt; "no pass was out")
    };
    assert!(rt; pairs.list().len() == 400);
    assert_in_order(&rt, pairs.list());
}

/// Asserts that each pass added its numbers in order.
fn assert_in_order(rt: &impl Abort, pairs: &[(u32, u64)]) {
    let mut next = [100u64, 200, 300, 400];
    for (number, value) in pairs {
        let Some(place) = number.checked_sub(1) else {
            panic!(rt; "a pair of no pass")
        };
        let Some(wanted) = next.get_mut(place as usize) else {
            panic!(rt; "a pair of no pass")
        };
        assert!(rt; *value == *wanted);
        *wanted = wanted.wrapping_add(1);
    }
}

/// Adds the numbers from 100, 200, 300 and 400 on, a hundred each, in four threads.
fn add_from_four<R: Threads + Wait + Sync>(
    rt: &R,
    cell: &TurnCell<Pairs>,
    first: Pass<Pairs>,
    second: Pass<Pairs>,
    third: Pass<Pairs>,
    fourth: Pass<Pairs>,
) -> (Pass<Pairs>, Pass<Pairs>, Pass<Pairs>, Pass<Pairs>)
    requires { (cell_of first ≡ cell_id cell.now) × (cell_of second ≡ cell_id cell.now)
        × (cell_of third ≡ cell_id cell.now) × (cell_of fourth ≡ cell_id cell.now) }
    ensures { (cell_of result.0 ≡ cell_id cell.now) × (cell_of result.1 ≡ cell_id cell.now)
        × (cell_of result.2 ≡ cell_id cell.now) × (cell_of result.3 ≡ cell_id cell.now) }
{
    let (firsts, seconds) = (hundred(100), hundred(200));
    let (thirds, fourths) = (hundred(300), hundred(400));
    let (lower, upper) = join(
        rt,
        || -> ((Pass<Pairs>, bool), (Pass<Pairs>, bool))
            requires { IsSync R.row × (cell_of first ≡ cell_id cell.now)
                × (cell_of second ≡ cell_id cell.now) }
            ensures { (cell_of result.0.0 ≡ cell_id cell.entry.now)
                × (cell_of result.1.0 ≡ cell_id cell.entry.now) }
        { add_both(rt, cell, first, &firsts, second, &seconds) },
        || -> ((Pass<Pairs>, bool), (Pass<Pairs>, bool))
            requires { IsSync R.row × (cell_of third ≡ cell_id cell.now)
                × (cell_of fourth ≡ cell_id cell.now) }
            ensures { (cell_of result.0.0 ≡ cell_id cell.entry.now)
                × (cell_of result.1.0 ≡ cell_id cell.entry.now) }
        { add_both(rt, cell, third, &thirds, fourth, &fourths) },
    );
    let ((first, _), (second, _)) = lower;
    let ((third, _), (fourth, _)) = upper;
    (first, second, third, fourth)
}

/// A hundred numbers from this one on.
fn hundred(first: u64) -> [u64; 100] {
    let mut numbers = [first; 100];
    let mut next = first;
    for number in &mut numbers {
        *number = next;
        next = next.wrapping_add(1);
    }
    numbers
}
