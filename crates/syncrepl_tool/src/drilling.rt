//! A drill whose lines are printed.

ghost use Rattle.std.specs.Prelude.{◌≡◌, OnErr};
ghost use Rattle.sync_drill.specs.Drilled.{IsPlan};
ghost use Rattle.syncrepl_tool.specs.DrillWords.{EndsDrill, MayPrint, drill_side};

use crate::run::{Status, write_fault};
use drill_directory::drilled;
use drill_plan::DrillPlan;
use ldap_ber::NoMemory;
use std::alloc::Global;
use std::sync::Wait;
use std::thread::Threads;
use sync_io::{Sink, write_whole};

/// Does a drill at a directory of its own, and prints its lines.
pub(crate) fn run_drill<R: Threads + Wait + Sync, O: Sink, E: Sink>(
    rt: &R,
    alloc: Global,
    plan: &DrillPlan,
    output: &mut O,
    errors: &mut E,
) -> Result<Status, NoMemory>
    requires plan { IsPlan plan.now }
    ensures drills { EndsDrill plan.now
        (drill_side (O.bytes_held output.old) (O.write_fault_count output.old)
        (E.bytes_held errors.old) (E.write_fault_count errors.old))
        (drill_side (O.bytes_held output.new) (O.write_fault_count output.new)
        (E.bytes_held errors.new) (E.write_fault_count errors.new))
        result }
    // Where there is no memory nothing was said.
    ensures unsaid { OnErr result (errors.new ≡ errors.old) }
{
    let summary = drilled(rt, alloc, plan)?;
    Ok(print_lines(summary.text.as_slice(), output, errors))
}

/// Prints these lines, and passes them on.
fn print_lines<O: Sink, E: Sink>(lines: &[u8], output: &mut O, errors: &mut E) -> Status
    ensures { MayPrint lines.now
        (drill_side (O.bytes_held output.old) (O.write_fault_count output.old)
        (E.bytes_held errors.old) (E.write_fault_count errors.old))
        (drill_side (O.bytes_held output.new) (O.write_fault_count output.new)
        (E.bytes_held errors.new) (E.write_fault_count errors.new))
        result }
{
    if !write_whole(output, lines) {
        return write_fault(errors);
    }
    if !output.flush() {
        return write_fault(errors);
    }
    Status { code: 0 }
}
