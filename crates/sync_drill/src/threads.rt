//! The threads of the writers.
ghost use Rattle.std.specs.Prelude.{◌≤◌, ◌≡◌, length, All, IfOk};
ghost use Rattle.std.specs.List.{AllZip};
ghost use Rattle.sync_drill.specs.Writers.{first_writing, writings_from, HasEnded, MayWrite, WriterGoes};

use crate::events::DrillEvents;
use crate::writing::Writing;
use drill_plan::{DrillPlan, DrillWriter};
use ldap_ber::NoMemory;
use std::alloc::{AllocError, Global};
use std::thread::{Threads, map_vec};
use sync_provider::Port;

/// The writers at these ports, which have done nothing. It is `NoMemory` where memory runs out.
pub(crate) fn writings_of<P: Port>(
    alloc: Global,
    plan: &DrillPlan,
    ports: Vec<P>,
) -> Result<Vec<Writing<P>>, NoMemory>
    requires { length ports.items ≤ 8 }
    ensures { IfOk result (λ writings. writings.items ≡ writings_from plan.now 0 ports.items) }
{
    let mut writings = Vec::with_capacity(alloc, ports.len())?;
    let mut place = 0;
    for port in ports {
        writings.push(writing_of(alloc, plan, place, port))?;
        place += 1;
    }
    Ok(writings)
}

/// The writer at this place and port.
fn writing_of<P: Port>(alloc: Global, plan: &DrillPlan, place: u32, port: P) -> Writing<P>
    ensures { result ≡ first_writing plan.now place port }
{
    Writing {
        port,
        writer: DrillWriter::new(alloc, plan.seed, place),
        needs_unit: true,
        left: plan.size,
    }
}

/// Lets each writer work on a thread of its own, or on another one's where none can be made, and
/// waits for all of them. It is `NoMemory` where memory runs out.
pub(crate) fn write_each<R: Threads + Sync, P: Port + Send>(
    rt: &R,
    events: &DrillEvents,
    writings: Vec<Writing<P>>,
) -> Result<Vec<Writing<P>>, NoMemory>
    requires { All MayWrite writings.items }
    ensures { IfOk result (λ ended.
        AllZip (WriterGoes P.home P.state) writings.items ended.items) }
{
    let work = |writing: Writing<P>| -> Writing<P>
        requires { MayWrite writing }
        ensures { WriterGoes P.home P.state writing result }
    { writing.work(events) };
    let ended = map_vec(rt, writings, &work);
    // Where memory ran out, some may have been dropped before they began: no one waits for these.
    events.end_all_writing();
    ended
}

/// The ports of writers that have nothing left. It is `NoMemory` where one has, or memory runs out.
pub(crate) fn ports_of<P: Port>(
    alloc: Global,
    writings: Vec<Writing<P>>,
) -> Result<Vec<P>, NoMemory>
    ensures { IfOk result (λ ports. AllZip HasEnded writings.items ports.items) }
{
    let mut ports = Vec::with_capacity(alloc, writings.len())?;
    for writing in writings {
        ports.push(port_of(writing)?)?;
    }
    Ok(ports)
}

/// The port of a writer that has nothing left.
fn port_of<P: Port>(writing: Writing<P>) -> Result<P, NoMemory>
    ensures { IfOk result (λ port. HasEnded writing port) }
{
    let Writing {
        port,
        writer: _writer,
        needs_unit,
        left,
    } = writing;
    if needs_unit {
        return Err(AllocError);
    }
    if left > 0 {
        return Err(AllocError);
    }
    Ok(port)
}
