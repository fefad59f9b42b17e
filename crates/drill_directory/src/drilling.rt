//! A drill, and what it prints.

ghost use Rattle.std.specs.Prelude.{◌≡◌, ◌+◌, length, IfOk};
ghost use Rattle.drill_plan.specs.Summary.{summary_of};
ghost use Rattle.sync_drill.specs.Drilled.{AreFresh, IsPlan};
ghost use Rattle.drill_directory.specs.Ports.{AreNew};

use crate::directory::{desks_of, new_directory};
use drill_plan::DrillPlan;
use ldap_ber::NoMemory;
use shared_directory::{DirectoryPass, SharedDirectory};
use std::alloc::Global;
use std::sync::Wait;
use std::thread::Threads;
use sync_drill::{Drilled, Summary, drill};
use sync_provider::Port;

/// Does a drill at a new directory, and gives what it prints. It is `NoMemory` where memory runs
/// out. No promise is made that it returns.
pub fn drilled<R: Threads + Wait + Sync>(
    rt: &R,
    alloc: Global,
    plan: &DrillPlan,
) -> Result<Summary, NoMemory>
    requires plan { IsPlan plan.now }
    ensures { IfOk result (λ summary. summary.text ≡ summary_of plan.now) }
{
    let count = plan.writers + plan.consumers;
    let made = new_directory(alloc, count)?;
    let (directory, passes) = made;
    drilled_at_desks(rt, alloc, plan, &directory, passes)
}

/// Does it at the desks of these passes.
fn drilled_at_desks<'a, R: Threads + Wait + Sync>(
    rt: &'a R,
    alloc: Global,
    plan: &DrillPlan,
    directory: &'a SharedDirectory,
    passes: Vec<DirectoryPass>,
) -> Result<Summary, NoMemory>
    requires plan { IsPlan plan.now }
    requires count { length passes.items ≡ plan.now.writers + plan.now.consumers }
    requires new { AreNew directory.now (length passes.items) passes.items }
    ensures { IfOk result (λ summary. summary.text ≡ summary_of plan.now) }
{
    let desks = desks_of(rt, alloc, directory, passes)?;
    drilled_at(rt, alloc, plan, desks)
}

/// Does a drill at these ports, which are all ports of a directory that has had no write, first
/// those of the writers, and gives what it prints. It is `NoMemory` where memory runs out.
pub fn drilled_at<R: Threads + Wait + Sync, P: Port + Send>(
    rt: &R,
    alloc: Global,
    plan: &DrillPlan,
    ports: Vec<P>,
) -> Result<Summary, NoMemory>
    requires plan { IsPlan plan.now }
    requires count { length ports.items ≡ plan.now.writers + plan.now.consumers }
    requires fresh { AreFresh P.home P.state ports.items }
    ensures { IfOk result (λ summary. summary.text ≡ summary_of plan.now) }
{
    let mut writers = ports;
    let consumers = writers.split_off(plan.writers as usize)?;
    let done = drill(rt, alloc, plan, writers, consumers)?;
    let Drilled {
        summary,
        writers: _writers,
        consumers: _consumers,
        copies: _copies,
        rings: _rings,
    } = done;
    Ok(summary)
}
