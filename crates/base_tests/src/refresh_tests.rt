//! What the phases of a refresh decide of four entries.
ghost use Rattle.std.specs.List.Sorted.{IsStrictlySortedBy};
ghost use Rattle.std.specs.Ordering.{nat_cmp};
ghost use Rattle.refresh_present.specs.Item.{identities};

use crate::rows::{check_rows, shown};
use refresh_present::{Decision, Item};
use std::alloc::{AllocError, Global};

/// After which write the phase begins, and what is decided of the entries: as a whole, and of the
/// entries as one slice. The third entry is not selected, and the last one by a present phase
/// alone.
const ROWS: &str = "\
present none => ([Send(1), Send(2), Send(7)], [Send(1), Send(2), Send(7)])
present 0 => ([Send(1), Send(2), Send(7)], [Send(1), Send(2), Send(7)])
present 5 => ([Present(1), Send(2), Present(7)], [Present(1), Send(2), Present(7)])
present 9 => ([Present(1), Present(2), Present(7)], [Present(1), Present(2), Present(7)])
delete 0 => ([Send(1), Send(2), Delete(3), Delete(7)], [Send(1), Send(2), Delete(3), Delete(7)])
delete 2 => ([Send(1), Send(2), Delete(3), Delete(7)], [Send(1), Send(2), Delete(3), Delete(7)])
delete 3 => ([Send(2), Delete(3), Delete(7)], [Send(2), Delete(3), Delete(7)])
delete 5 => ([Send(2), Delete(3)], [Send(2), Delete(3)])
delete 9 => ([], [])
";

#[test]
fn decided_by_touch_and_selection(rt: HostRuntime) {
    check_rows(&rt, rt.alloc(), ROWS);
}

/// Items in ascending order of identity.
fn items(last: bool) -> [Item; 4]
    ensures { IsStrictlySortedBy nat_cmp (identities result) }
{
    [
        Item {
            uuid: 1,
            touched: 3,
            selected: true,
        },
        Item {
            uuid: 2,
            touched: 9,
            selected: true,
        },
        Item {
            uuid: 3,
            touched: 9,
            selected: false,
        },
        Item {
            uuid: 7,
            touched: 5,
            selected: last,
        },
    ]
}

pub(crate) fn reported(alloc: Global, phase: &str, after: &str) -> Result<String, AllocError> {
    let after = after.parse::<u64>().ok();
    if phase == "present" {
        present_reported(alloc, after)
    } else {
        delete_reported(alloc, after.unwrap_or(0))
    }
}

fn present_reported(alloc: Global, after: Option<u64>) -> Result<String, AllocError> {
    let whole = refresh_present::plan(alloc, &items(true), after)?;
    let piece = refresh_present::slice(alloc, &items(true), after)?;
    both(alloc, &whole, &piece)
}

fn delete_reported(alloc: Global, after: u64) -> Result<String, AllocError> {
    let whole = refresh_delete::plan(alloc, &items(false), after)?;
    let piece = refresh_delete::slice(alloc, &items(false), after)?;
    both(alloc, &whole, &piece)
}

fn both(alloc: Global, whole: &[Decision], piece: &[Decision]) -> Result<String, AllocError> {
    shown(alloc, &(whole, piece))
}
