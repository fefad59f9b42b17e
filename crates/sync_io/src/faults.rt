//! Counts of faults.
ghost use Rattle.std.specs.Prelude.{◌≡◌, ◌≤◌};
ghost use Rattle.sync_io.specs.Faults.{one_more};

/// Counts one more fault. A count that stands at the greatest number stays there.
pub(crate) fn count_fault(faults: &mut u64)
    ensures counted { faults.new ≡ one_more faults.old }
    ensures later { faults.old ≤ faults.new }
{
    *faults = faults.saturating_add(1);
}
