//! Desks of a shared directory: what they reply, what they have seen, and what stays.
ghost use Rattle.turn_cell.specs.Journals.{Every};
ghost use Rattle.turn_cell.specs.Passes.{cell_id};
ghost use Rattle.shared_directory.specs.Passes.{IsPassOf};

use crate::answers::answered;
use crate::asking::{add, count};
use crate::copies::are_copies;
use crate::gathering::{Gathered, hand_in, hand_in_four};
use crate::passing::{closed, last_two, put_back, share};
use crate::replaying::replays;
use crate::tasks::{Task, Tried, Work};
use crate::working::{accepted, rises, work_in_eight, work_in_two};
use dn_names::Dn;
use entry_tree::Scope;
use ldap_ber::discard;
use shared_directory::{CloseFault, DirectoryPass, SharedDirectory, journal_seen};
use std::alloc::Global;
use std::process::Abort;
use std::sync::Wait;
use sync_provider::{Kind, Port, Provider, Reply};

fn provider(rt: &impl Abort, alloc: Global) -> Provider {
    let suffix = Dn::parse(alloc, b"dc=x").expect(rt, "a suffix");
    Provider::new(alloc, suffix, 1, 1, Kind::Root).expect(rt, "a provider")
}

/// Closes a directory before its last pass is given, and again with it.
fn close_twice(
    rt: &impl Abort,
    directory: SharedDirectory,
    passes: Vec<DirectoryPass>,
    last: DirectoryPass,
) -> Provider
    requires passes { Every (λ pass. IsPassOf (cell_id directory.cell) pass) passes.items }
    requires last { IsPassOf (cell_id directory.cell) last }
{
    match directory.close(passes) {
        Ok(_) => panic!(rt; "a pass was out"),
        Err((fault, directory, passes)) => {
            let mut passes = passes;
            assert!(rt; fault == CloseFault::PassesOut(1) && passes.len() == 1);
            let Some(()) = put_back(&directory, &mut passes, last) else {
                panic!(rt; "out of memory")
            };
            closed(rt, directory, passes)
        }
    }
}

/// Two desks see one directory, which has the write of one of them.
#[test]
fn two_desks_see_one_directory(rt: HostRuntime) {
    let alloc = rt.alloc();
    let provider = provider(&rt, alloc);
    let (directory, mut passes) = share(&rt, alloc, provider, 2);
    let (first, second) = last_two(&directory, &mut passes);
    let mut one = directory.desk(&rt, first);
    let mut two = directory.desk(&rt, second);
    let reply = add(alloc, &mut one, "");
    assert!(rt; reply == Some(Reply { code: 0, number: 1 }));
    let found = (
        count(alloc, &mut one, Scope::Sub),
        count(alloc, &mut two, Scope::Sub),
    );
    assert!(rt; found == (Some(1), Some(1)));
    assert!(rt; journal_seen(&one) == 1 && journal_seen(&two) == 1);
    let (first, second) = (one.leave(), two.leave());
    let Some(()) = put_back(&directory, &mut passes, first) else {
        panic!(rt; "out of memory")
    };
    let provider = close_twice(&rt, directory, passes, second);
    let writes = provider.writes();
    discard(provider);
    assert!(rt; writes == 1);
}

// What is done at two desks of one directory stands in rows: which of them is asked, what, and what
// it answers, as `answered` has it.

/// Asserts that two desks answer so, and how much the first of them has seen of the journal then.
fn assert_at_desks<R: Wait + Abort>(
    rt: &R,
    alloc: Global,
    provider: Provider,
    rows: &str,
    seen: u64,
) {
    let (directory, mut passes) = share(rt, alloc, provider, 2);
    let (first, second) = last_two(&directory, &mut passes);
    let mut one = directory.desk(rt, first);
    let mut two = directory.desk(rt, second);
    assert_rows(rt, alloc, &mut one, &mut two, rows);
    assert!(rt; journal_seen(&one) == seen);
    discard(one);
    discard(two);
    discard(passes);
    discard(directory);
}

fn assert_rows<P: Port>(rt: &impl Abort, alloc: Global, one: &mut P, two: &mut P, rows: &str) {
    for row in rows.lines() {
        assert_row(rt, alloc, one, two, row);
    }
}

fn assert_row<P: Port>(rt: &impl Abort, alloc: Global, one: &mut P, two: &mut P, row: &str) {
    let (asked, wanted) = row.split_once(" => ").expect(rt, row);
    let (desk, call) = asked.split_once(' ').expect(rt, row);
    let answer = match desk {
        "1" => answered(alloc, one, call),
        _ => answered(alloc, two, call),
    };
    let answer = answer.expect(rt, row);
    assert!(rt; answer.as_str() == wanted, "{row}: {answer}");
}

const FOLLOWED: &str = "\
1 add => Reply { code: 0, number: 1 }
1 follow => Opened(1, 1)
2 next 1 => '?'
2 drop 1 => false
1 next 1 => 'm'
1 next 1 => 'm'
1 next 1 => '-'
2 add a => Reply { code: 0, number: 2 }
1 next 1 => 'm'
1 next 1 => '-'
1 drop 1 => true
1 next 1 => '?'
";

/// A desk follows the searches that it opened itself, and no other desk does.
#[test]
fn a_search_is_of_the_desk_that_opened_it(rt: HostRuntime) {
    let root = provider(&rt, rt.alloc());
    assert_at_desks(&rt, rt.alloc(), root, FOLLOWED, 4);
}

const TOGETHER: &str = "\
1 add => Reply { code: 0, number: 1 }
1 follow => Opened(1, 1)
1 several 1 => (2, '-')
1 several 1 => (0, '-')
1 several 2 => (0, '?')
";

/// What is pending at a desk comes in one turn.
#[test]
fn messages_come_together_at_a_desk(rt: HostRuntime) {
    let root = provider(&rt, rt.alloc());
    assert_at_desks(&rt, rt.alloc(), root, TOGETHER, 2);
}

const COMPARED: &str = "\
1 add => Reply { code: 0, number: 1 }
1 compare x => true
1 compare y => false
1 commit => Err(NotAReplica)
1 writes => 1
";

/// What changes nothing is answered at a desk, and a root takes no commit.
#[test]
fn a_desk_compares_and_counts(rt: HostRuntime) {
    let root = provider(&rt, rt.alloc());
    assert_at_desks(&rt, rt.alloc(), root, COMPARED, 1);
}

const COMMITTED: &str = "\
1 commit => Ok(1)
2 commit => Ok(2)
1 writes => 2
";

/// Desks of a replica count each other's commits.
#[test]
fn commits_of_two_desks_are_counted_together(rt: HostRuntime) {
    let suffix = Dn::parse(rt.alloc(), b"").expect(&rt, "a suffix");
    let replica = Provider::new(rt.alloc(), suffix, 1, 1, Kind::Replica);
    let replica = replica.expect(&rt, "a replica");
    assert_at_desks(&rt, rt.alloc(), replica, COMMITTED, 2);
}

/// Two threads each add fifty units below `dc=x`. All are accepted, and each thread gets rising
/// numbers.
#[test]
fn two_threads_add_fifty_units_each(rt: HostRuntime) {
    let alloc = rt.alloc();
    let provider = with_room(&rt, alloc);
    let (directory, mut passes) = share(&rt, alloc, provider, 2);
    let pair = last_two(&directory, &mut passes);
    let units = Task::new(Work::Units, 1);
    let (first, second) = work_in_two(&rt, alloc, &directory, pair, units);
    let (mut ones, mut twos) = (Gathered::new(alloc), Gathered::new(alloc));
    hand_in(&rt, &directory, &mut passes, first, &mut ones);
    hand_in(&rt, &directory, &mut passes, second, &mut twos);
    let provider = closed(&rt, directory, passes);
    let writes = provider.writes();
    discard(provider);
    assert!(rt; has_fifty_in_order(ones.tried.as_slice()));
    assert!(rt; has_fifty_in_order(twos.tried.as_slice()));
    assert!(rt; writes == 101);
    discard(ones);
    discard(twos);
}

fn has_fifty_in_order(tried: &[Tried]) -> bool {
    tried.len() == 50 && accepted(tried) == 50 && rises(tried)
}

/// Eight threads each call 2,000 times: they write 500 units of their own and 500 that the others
/// want too, search, count, and two of them follow. One thread that makes the writes of the journal
/// again gets each reply at its place, and the consumers of those two hold what was written.
#[test]
fn one_thread_gets_the_replies_of_eight(rt: HostRuntime) {
    let alloc = rt.alloc();
    let provider = with_room(&rt, alloc);
    let (directory, mut passes) = share(&rt, alloc, provider, 8);
    let fourth = last_two(&directory, &mut passes);
    let third = last_two(&directory, &mut passes);
    let second = last_two(&directory, &mut passes);
    let first = last_two(&directory, &mut passes);
    let (lower, upper) = work_in_eight(&rt, alloc, &directory, (first, second), (third, fourth));
    let mut gathered = Gathered::new(alloc);
    hand_in_four(&rt, &directory, &mut passes, lower, &mut gathered);
    hand_in_four(&rt, &directory, &mut passes, upper, &mut gathered);
    let shared = closed(&rt, directory, passes);
    assert_gathered(&rt, alloc, &shared, &mut gathered);
    discard(shared);
    discard(gathered);
}

/// Asserts that what eight threads gathered is what one gets, and what was written.
fn assert_gathered(rt: &impl Abort, alloc: Global, shared: &Provider, gathered: &mut Gathered) {
    let (tried, consumers) = (gathered.tried.as_slice(), gathered.consumers.as_slice());
    let copied = are_copies(rt, alloc, shared, tried, consumers);
    assert!(rt; copied && consumers.len() == 2);
    let same = is_made_again(rt, alloc, shared, &mut gathered.tried);
    assert!(rt; same && gathered.tried.len() == 8_000 && shared.writes() == 4_501);
}

/// A provider of `dc=x`, of which searches may have many messages pending.
fn with_room(rt: &impl Abort, alloc: Global) -> Provider {
    let mut made = provider(rt, alloc);
    made.set_queue_limit(100_000);
    let reply = add(alloc, &mut made, "");
    assert!(rt; reply == Some(Reply { code: 0, number: 1 }));
    made
}

/// Whether one thread gets these replies, and has as many writes and entries then.
fn is_made_again(rt: &impl Abort, alloc: Global, shared: &Provider, log: &mut Vec<Tried>) -> bool {
    let mut again = with_room(rt, alloc);
    let same = replays(alloc, &mut again, log);
    let (writes, entries) = (again.writes(), again.tree().len());
    discard(again);
    same && writes == shared.writes() && entries == shared.tree().len()
}
