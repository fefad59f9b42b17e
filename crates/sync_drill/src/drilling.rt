//! A drill, from the first write to what is printed.
ghost use Rattle.std.specs.Prelude.{◌≡◌, ◌<◌, ◌∷◌, ◌++◌, length, map, All, IfOk};
ghost use Rattle.std.specs.List.{AllZip};
ghost use Rattle.drill_plan.specs.Summary.{summary_of};
ghost use Rattle.sync_drill.specs.Drilled.{AreFresh, IsPlan};
ghost use Rattle.sync_drill.specs.Followed.{HaveWorked, IsDrilled, copy_of, ends_of, port_of};
ghost use Rattle.sync_drill.specs.Following.{FollowingGoes, MayFollow};
ghost use Rattle.sync_drill.specs.Writers.{AreBegunFrom, MayWrite, WriterGoes};

use crate::consumer_threads::follow_each;
use crate::drilled::{Drilled, RingEnds};
use crate::events::DrillEvents;
use crate::following::{Following, settle_each};
use crate::handing_out::HandingOut;
use crate::meeting::{meet_each, show_each};
use crate::preparing::followings_of;
use crate::summing_up::sum_up;
use crate::taking::Taking;
use crate::threads::{ports_of, write_each, writings_of};
use crate::writing::{Writing, write_one};
use drill_plan::{DrillPlan, suffix_operation};
use ldap_ber::NoMemory;
use std::alloc::Global;
use std::sync::Wait;
use std::thread::{Threads, join};
use sync_consumer::Consumer;
use sync_provider::Port;

/// Does a drill: as many writers and consumers as the plan says, each writer on a thread of its own
/// and each consumer on two, at these ports. These are all ports of a directory with the suffix
/// `dc=drill` that has had no write. Where no thread can be made, another one does its work.
///
/// It is `NoMemory` where memory runs out, and then the ports are dropped. Otherwise what it prints
/// depends on the plan alone. No promise is made that it returns, as its ports may wait.
pub fn drill<R: Threads + Wait + Sync, P: Port + Send>(
    rt: &R,
    alloc: Global,
    plan: &DrillPlan,
    writers: Vec<P>,
    consumers: Vec<P>,
) -> Result<Drilled<P>, NoMemory>
    requires plan { IsPlan plan.now }
    requires writers { length writers.items ≡ plan.now.writers }
    requires consumers { length consumers.items ≡ plan.now.consumers }
    requires fresh { AreFresh P.home P.state (writers.items ++ consumers.items) }
    ensures summary { IfOk result (λ done. done.summary.text ≡ summary_of plan.now) }
    ensures drilled { IfOk result (λ done. IsDrilled P.state plan.now
        done.writers.items done.consumers.items done.copies.items done.rings.items) }
{
    let (first, others) = parted(writers);
    let ports = begun(alloc, first, others)?;
    let writings = writings_of(alloc, plan, ports)?;
    let followings = followings_of(alloc, consumers)?;
    let events = DrillEvents::new(alloc, plan.writers, plan.consumers)?;
    let worked = work_each(rt, &events, writings, followings)?;
    let (ended, followed) = worked;
    let after = ports_of(alloc, ended)?;
    let (front, back) = parted(after);
    finish(rt, alloc, plan, front, back, followed)
}

/// The ports, at the first of which the first operation was done.
fn begun<P: Port>(alloc: Global, first: P, others: Vec<P>) -> Result<Vec<P>, NoMemory>
    ensures { IfOk result (λ ports. AreBegunFrom P.home P.state first others.items ports.items) }
{
    let mut writing = first;
    write_one(&mut writing, suffix_operation(alloc)?)?;
    let mut ports = others;
    ports.insert(0, writing)?;
    Ok(ports)
}

/// The first of these ports, and the others.
fn parted<P: Port>(ports: Vec<P>) -> (P, Vec<P>)
    requires { 0 < length ports.items }
    ensures { ports.items ≡ result.0 ∷ result.1.items }
{
    let mut others = ports;
    let first = others.remove(0);
    (first, others)
}

/// Lets the writers and the consumers work beside each other, and waits for all of them.
fn work_each<R: Threads + Wait + Sync, P: Port + Send>(
    rt: &R,
    events: &DrillEvents,
    writings: Vec<Writing<P>>,
    followings: Vec<Following<P>>,
) -> Result<(Vec<Writing<P>>, Vec<Following<P>>), NoMemory>
    requires writers { All MayWrite writings.items }
    requires consumers { All (MayFollow P.state) followings.items }
    ensures writers { IfOk result (λ worked.
        AllZip (WriterGoes P.home P.state) writings.items worked.0.items) }
    ensures consumers { IfOk result (λ worked.
        AllZip (FollowingGoes P.home P.state) followings.items worked.1.items) }
{
    let write = move || -> Result<Vec<Writing<P>>, NoMemory>
        requires { All MayWrite writings.items }
        ensures { IfOk result (λ ended.
            AllZip (WriterGoes P.home P.state) writings.items ended.items) }
    { write_each(rt, events, writings) };
    let follow = move || -> Result<Vec<Following<P>>, NoMemory>
        requires { All (MayFollow P.state) followings.items }
        ensures { IfOk result (λ ended.
            AllZip (FollowingGoes P.home P.state) followings.items ended.items) }
    { follow_each(rt, events, followings) };
    let (written, followed) = join(rt, write, follow);
    let ended = written?;
    let gone = followed?;
    Ok((ended, gone))
}

/// Brings all ports up to each other after the threads, and finds what is printed.
///
/// The first port meets each other one, and has then seen all that they added. What is printed is
/// found before each other one meets it in turn: so it is of what all of them added.
fn finish<R: Wait, P: Port>(
    rt: &R,
    alloc: Global,
    plan: &DrillPlan,
    first: P,
    others: Vec<P>,
    followings: Vec<Following<P>>,
) -> Result<Drilled<P>, NoMemory>
    requires plan { IsPlan plan.now }
    requires worked { HaveWorked P.home P.state plan.now (first ∷ others.items) followings.items }
    ensures summary { IfOk result (λ done. done.summary.text ≡ summary_of plan.now) }
    ensures drilled { IfOk result (λ done. IsDrilled P.state plan.now
        done.writers.items done.consumers.items done.copies.items done.rings.items) }
{
    let pair = meet_each(alloc, first, others)?;
    let (met, back) = pair;
    let brought = settle_each(rt, alloc, met, followings)?;
    let (settled, ups) = brought;
    let parts = taken_apart(alloc, plan.consumers as usize, ups)?;
    let (ports, copies, rings) = parts;
    let joined = meet_each(alloc, settled, ports)?;
    let (mut summed, beside) = joined;
    let summary = sum_up(alloc, &mut summed, copies.as_slice())?;
    let first_round = show_each(alloc, summed, back)?;
    let (shown, others) = first_round;
    let second_round = show_each(alloc, shown, beside)?;
    let (last, consumers) = second_round;
    let mut writers = others;
    writers.insert(0, last)?;
    Ok(Drilled {
        summary,
        writers,
        consumers,
        copies,
        rings,
    })
}

/// The ports of `count` consumers, their copies and the ends of their rings.
fn taken_apart<P: Port>(
    alloc: Global,
    count: usize,
    followings: Vec<Following<P>>,
) -> Result<(Vec<P>, Vec<Consumer>, Vec<RingEnds>), NoMemory>
    ensures ports { IfOk result (λ parts. parts.0.items ≡ map port_of followings.items) }
    ensures copies { IfOk result (λ parts. parts.1.items ≡ map copy_of followings.items) }
    ensures rings { IfOk result (λ parts. parts.2.items ≡ map ends_of followings.items) }
{
    let mut ports = Vec::with_capacity(alloc, count)?;
    let mut copies = Vec::with_capacity(alloc, count)?;
    let mut rings = Vec::with_capacity(alloc, count)?;
    for following in followings {
        let (port, copy, ends) = parts_of(following);
        ports.push(port)?;
        copies.push(copy)?;
        rings.push(ends)?;
    }
    Ok((ports, copies, rings))
}

/// The port of a consumer, its copy and the ends of its ring.
fn parts_of<P: Port>(following: Following<P>) -> (P, Consumer, RingEnds)
    ensures port { result.0 ≡ port_of following }
    ensures copy { result.1 ≡ copy_of following }
    ensures ends { result.2 ≡ ends_of following }
{
    let Following { handing, taking } = following;
    let HandingOut { port, producer, .. } = handing;
    let Taking { copy, end, .. } = taking;
    let ends = RingEnds {
        producer,
        consumer: end,
    };
    (port, copy, ends)
}
