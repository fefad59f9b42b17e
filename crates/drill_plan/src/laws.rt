//! What holds of the operations of a drill.
ghost use Rattle.drill_plan.specs.Ending.{SchedulesEndAlike};
ghost use Rattle.drill_plan.specs.Summary.{SchedulesPrintAlike};

/// Whatever the order between the writers, the entries have the same names and attributes in the
/// end: all of them, and those that a search selects.
pub fn schedules_end_alike()
    ensures { SchedulesEndAlike }
{}

/// Whatever the order between the writers, what a drill prints of its writes and of the entries
/// that are left is the same.
pub fn schedules_print_alike()
    ensures { SchedulesPrintAlike }
{}
