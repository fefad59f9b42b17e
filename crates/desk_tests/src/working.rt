//! Threads at work at desks of their own.
ghost use Rattle.std.specs.Prelude.{◌≡◌};
ghost use Rattle.std.specs.Thread.{IsSync};
ghost use Rattle.turn_cell.specs.Passes.{cell_id};
ghost use Rattle.shared_directory.specs.Passes.{IsPassOf};
ghost use Rattle.desk_tests.specs.Groups.{ArePassesOf, AreGivenBack};

use crate::asking::{add, asked, count, follow, next, take_next};
use crate::passing::Pair;
use crate::tasks::{FollowedSearch, Noted, Task, Tried, Work};
use entry_tree::Scope;
use ldap_ber::discard;
use shared_directory::{DirectoryPass, SharedDirectory};
use std::alloc::Global;
use std::sync::Wait;
use std::thread::{Threads, join};
use sync_provider::{Accepted, Port};

/// The name of a unit: of this thread, or of all threads where that is 0.
pub(crate) fn unit_name(alloc: Global, thread: u32, unit: u32) -> Option<String> {
    format!(in alloc; "u{thread}-{unit}").ok()
}

/// Tries to add a unit, and notes the reply.
pub(crate) fn try_unit<P: Port>(
    alloc: Global,
    port: &mut P,
    thread: u32,
    unit: u32,
    log: &mut Vec<Tried>,
) -> Option<()>
    ensures { P.home port.new ≡ P.home port.old }
{
    let name = unit_name(alloc, thread, unit)?;
    let reply = add(alloc, port, &name)?;
    let tried = Tried {
        thread,
        unit,
        code: reply.code,
        number: reply.number,
    };
    log.push(tried).ok()
}

/// The call of a round. Each second round is a write: of a unit of this thread, or of one that all
/// threads want. The others search the base, count the writes, and take a message of the search,
/// where this thread follows one.
fn call<P: Port>(
    alloc: Global,
    port: &mut P,
    thread: u32,
    round: u32,
    noted: &mut Noted,
) -> Option<()>
    ensures { P.home port.new ≡ P.home port.old }
{
    match round % 8 {
        0 | 4 => try_unit(alloc, port, thread, round, &mut noted.tried),
        2 | 6 => try_unit(alloc, port, 0, round, &mut noted.tried),
        1 | 5 => {
            let found = count(alloc, port, Scope::Base)?;
            (found == 1).then_some(())
        }
        3 => {
            let writes = port.writes();
            (writes > 0).then_some(())
        }
        _ => take_one(port, &mut noted.search),
    }
}

/// Takes a message, of which there always is one, since two writes of its own thread come for each
/// that is taken. A thread that follows none asks for a search that there is not.
fn take_one<P: Port>(port: &mut P, search: &mut Option<FollowedSearch>) -> Option<()>
    ensures { P.home port.new ≡ P.home port.old }
{
    let (letter, awaited) = match search {
        Some(search) => (take_next(port, search)?, 'm'),
        None => (next(port, 0)?, '?'),
    };
    (letter == awaited).then_some(())
}

/// The search by which each fourth thread follows the directory.
fn search_of<P: Port>(alloc: Global, port: &mut P, thread: u32) -> Option<Option<FollowedSearch>>
    ensures { P.home port.new ≡ P.home port.old }
{
    if thread % 4 != 0 {
        return Some(None);
    }
    match follow(alloc, port)? {
        Accepted::Opened(number, _) => {
            let consumer = asked(alloc)?;
            Some(Some(FollowedSearch { number, consumer }))
        }
        Accepted::Refused(_) | Accepted::NoMemory => None,
    }
}

/// Tries to add fifty units.
fn add_units<P: Port>(alloc: Global, port: &mut P, thread: u32) -> Option<Vec<Tried>>
    ensures { P.home port.new ≡ P.home port.old }
{
    let mut log = Vec::new(alloc);
    for unit in 0..50u32 {
        try_unit(alloc, port, thread, unit, &mut log)?;
    }
    Some(log)
}

/// Calls two thousand times.
fn make_calls<P: Port>(alloc: Global, port: &mut P, thread: u32) -> Option<Noted>
    ensures { P.home port.new ≡ P.home port.old }
{
    let search = search_of(alloc, port, thread)?;
    let mut noted = Noted {
        tried: Vec::new(alloc),
        search,
    };
    let done = call_each(alloc, port, thread, &mut noted);
    if done.is_some() && rises(noted.tried.as_slice()) {
        return Some(noted);
    }
    discard(noted);
    None
}

fn call_each<P: Port>(alloc: Global, port: &mut P, thread: u32, noted: &mut Noted) -> Option<()>
    ensures { P.home port.new ≡ P.home port.old }
{
    for round in 0..2_000u32 {
        call(alloc, port, thread, round, noted)?;
    }
    Some(())
}

fn perform<P: Port>(alloc: Global, port: &mut P, task: Task) -> Option<Noted>
    ensures { P.home port.new ≡ P.home port.old }
{
    match task.work {
        Work::Units => {
            let tried = add_units(alloc, port, task.thread)?;
            Some(Noted {
                tried,
                search: None,
            })
        }
        Work::Calls => make_calls(alloc, port, task.thread),
    }
}

/// Whether each reply comes after those before it: a write that was accepted has a greater number,
/// and one that was refused counts no fewer writes.
pub(crate) fn rises(log: &[Tried]) -> bool {
    let mut last = 0;
    for tried in log {
        if tried.number < last || (tried.code == 0 && tried.number == last) {
            return false;
        }
        last = tried.number;
    }
    true
}

/// How many of these writes were accepted.
pub(crate) fn accepted(log: &[Tried]) -> u64 {
    log.iter().filter(|tried| tried.code == 0).count() as u64
}

/// A pass that a thread gives back, and what it noted, unless it gave up.
pub(crate) type Worked = (DirectoryPass, Option<Noted>);

pub(crate) type Four = ((Worked, Worked), (Worked, Worked));

fn work_as<R: Wait>(
    rt: &R,
    alloc: Global,
    directory: &SharedDirectory,
    pass: DirectoryPass,
    task: Task,
) -> Worked
    requires { IsPassOf (cell_id directory.now.cell) pass }
    ensures { IsPassOf (cell_id directory.now.cell) result.0 }
{
    let mut desk = directory.desk(rt, pass);
    let noted = perform(alloc, &mut desk, task);
    (desk.leave(), noted)
}

/// Two threads do this work. Gives the passes, and what they noted.
pub(crate) fn work_in_two<R: Threads + Wait + Sync>(
    rt: &R,
    alloc: Global,
    directory: &SharedDirectory,
    passes: Pair,
    task: Task,
) -> (Worked, Worked)
    requires { IsPassOf (cell_id directory.now.cell) passes.0
        × IsPassOf (cell_id directory.now.cell) passes.1 }
    ensures { IsPassOf (cell_id directory.now.cell) result.0.0
        × IsPassOf (cell_id directory.now.cell) result.1.0 }
{
    let (first, second) = passes;
    join(
        rt,
        || -> Worked
            requires { IsSync R.row × IsPassOf (cell_id directory.now.cell) first }
            ensures { IsPassOf (cell_id directory.entry.now.cell) result.0 }
        { work_as(rt, alloc, directory, first, task) },
        || -> Worked
            requires { IsSync R.row × IsPassOf (cell_id directory.now.cell) second }
            ensures { IsPassOf (cell_id directory.entry.now.cell) result.0 }
        { work_as(rt, alloc, directory, second, task.later(1)) },
    )
}

fn work_in_four<R: Threads + Wait + Sync>(
    rt: &R,
    alloc: Global,
    directory: &SharedDirectory,
    passes: (Pair, Pair),
    task: Task,
) -> Four
    requires { ArePassesOf (cell_id directory.now.cell) passes }
    ensures { AreGivenBack (cell_id directory.now.cell) result }
{
    let (lower, upper) = passes;
    join(
        rt,
        || -> (Worked, Worked)
            requires { IsSync R.row × IsPassOf (cell_id directory.now.cell) lower.0
                × IsPassOf (cell_id directory.now.cell) lower.1 }
            ensures { IsPassOf (cell_id directory.entry.now.cell) result.0.0
                × IsPassOf (cell_id directory.entry.now.cell) result.1.0 }
        { work_in_two(rt, alloc, directory, lower, task) },
        || -> (Worked, Worked)
            requires { IsSync R.row × IsPassOf (cell_id directory.now.cell) upper.0
                × IsPassOf (cell_id directory.now.cell) upper.1 }
            ensures { IsPassOf (cell_id directory.entry.now.cell) result.0.0
                × IsPassOf (cell_id directory.entry.now.cell) result.1.0 }
        { work_in_two(rt, alloc, directory, upper, task.later(2)) },
    )
}

/// Eight threads each call 2,000 times. Gives the passes, and what they noted.
pub(crate) fn work_in_eight<R: Threads + Wait + Sync>(
    rt: &R,
    alloc: Global,
    directory: &SharedDirectory,
    lower: (Pair, Pair),
    upper: (Pair, Pair),
) -> (Four, Four)
    requires lower { ArePassesOf (cell_id directory.now.cell) lower }
    requires upper { ArePassesOf (cell_id directory.now.cell) upper }
    ensures lower { AreGivenBack (cell_id directory.now.cell) result.0 }
    ensures upper { AreGivenBack (cell_id directory.now.cell) result.1 }
{
    join(
        rt,
        || -> Four
            requires { IsSync R.row × ArePassesOf (cell_id directory.now.cell) lower }
            ensures { AreGivenBack (cell_id directory.entry.now.cell) result }
        { work_in_four(rt, alloc, directory, lower, Task::new(Work::Calls, 1)) },
        || -> Four
            requires { IsSync R.row × ArePassesOf (cell_id directory.now.cell) upper }
            ensures { AreGivenBack (cell_id directory.entry.now.cell) result }
        { work_in_four(rt, alloc, directory, upper, Task::new(Work::Calls, 5)) },
    )
}
