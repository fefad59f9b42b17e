//! A drill at ports at which its writers meet.

ghost use Rattle.std.specs.Prelude.{◌≡◌, ◌+◌, length, IfOk};
ghost use Rattle.std.specs.List.{AllZip};
ghost use Rattle.sync_drill.specs.Drilled.{IsPlan};
ghost use Rattle.drill_directory.specs.Ports.{AreNew};

use crate::meeting_port::{Meeting, MeetingPort, Role};
use drill_directory::{desks_of, drilled_at, new_directory};
use drill_plan::DrillPlan;
use ldap_ber::NoMemory;
use shared_directory::{DirectoryPass, SharedDirectory};
use std::alloc::Global;
use std::sync::Wait;
use std::test::Fail;
use std::thread::Threads;
use sync_drill::Summary;
use sync_provider::Port;

/// What is printed of two writers, four consumers and 40 operations of each writer with the seed 7.
/// Two models in another language made it, which do the writes one after another.
const TWO_WRITERS: &str = "\
writes 83 entries 57 sha256 fd2b9f815a1aa9b4b8b02e3d7fc0bcd6730a4ec9ea359a4ef8205ea609811571
consumer 0 entries 13 sha256 099a2147568335de64ce0e7a4f039a6154890d0bfe5aa09a64d5a5ebe57c0135
consumer 1 entries 18 sha256 472b7d5e5d6b68738ebb17dd062b273327f1007d803e3f393e88c9876dd0c5de
consumer 2 entries 6 sha256 52204ea42644a9637fd2419beffc72d503b0ba1920ba262de9235c6f1bc8a9fc
consumer 3 entries 17 sha256 f7071cd09c16fce37e767b7a7b2e4b9e9cc9f99a603eb90395e21f8972ec1944
";

/// The first writer meets a write of the second one, so that they are not run one after the other.
#[test]
fn writers_work_beside_each_other(rt: HostRuntime) -> Result<(), Fail> {
    let plan = DrillPlan {
        seed: 7,
        writers: 2,
        consumers: 4,
        size: 40,
    };
    let meeting = Meeting::new();
    let summary = drilled_meeting(&rt, rt.alloc(), &plan, &meeting)?;
    assert!(&rt;
        summary.text.as_slice() == TWO_WRITERS.as_bytes(),
        "the lines are others"
    );
    assert!(&rt; !meeting.was_given_up(), "the first writer waited in vain");
    Ok(())
}

/// What a drill prints at ports at which writers meet, of a new directory.
fn drilled_meeting<R: Threads + Wait + Sync>(
    rt: &R,
    alloc: Global,
    plan: &DrillPlan,
    meeting: &Meeting,
) -> Result<Summary, NoMemory>
    requires plan { IsPlan plan.now }
{
    let count = plan.writers + plan.consumers;
    let made = new_directory(alloc, count)?;
    let (directory, passes) = made;
    drilled_meeting_at(rt, alloc, plan, meeting, &directory, passes)
}

fn drilled_meeting_at<'a, R: Threads + Wait + Sync>(
    rt: &'a R,
    alloc: Global,
    plan: &DrillPlan,
    meeting: &'a Meeting,
    directory: &'a SharedDirectory,
    passes: Vec<DirectoryPass>,
) -> Result<Summary, NoMemory>
    requires plan { IsPlan plan.now }
    requires count { length passes.items ≡ plan.now.writers + plan.now.consumers }
    requires new { AreNew directory.now (length passes.items) passes.items }
{
    let desks = desks_of(rt, alloc, directory, passes)?;
    let ports = meeting_ports(alloc, meeting, desks)?;
    drilled_at(rt, alloc, plan, ports)
}

/// Ports round these, of which the first one waits for the second one.
fn meeting_ports<'a, P: Port>(
    alloc: Global,
    meeting: &'a Meeting,
    ports: Vec<P>,
) -> Result<Vec<MeetingPort<'a, P>>, NoMemory>
    ensures { IfOk result (λ rounds. AllZip
        (λ port round. (P.home round.port ≡ P.home port) × (P.state round.port ≡ P.state port))
        ports.items rounds.items) }
{
    let mut rounds = Vec::with_capacity(alloc, ports.len())?;
    for port in ports {
        let role = role_of(rounds.len());
        let round = MeetingPort::new(port, meeting, role);
        rounds.push(round)?;
    }
    Ok(rounds)
}

/// The role of the port at this place.
fn role_of(place: usize) -> Role {
    match place {
        0 => Role::Waits,
        1 => Role::IsAwaited,
        _ => Role::Apart,
    }
}
