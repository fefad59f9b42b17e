ghost use Rattle.std.specs.Prelude.{◌≡◌};

use crate::cell::TurnCell;
use crate::journalled::Journalled;
use crate::table::CellSeat;
use std::snapshot::Snapshot;

/// A turn, for which the value is out of its cell; `C` is a reference to the cell.
///
/// It is not `Drop`: each turn ends with [`TurnAt::leave`]. So nothing between may return early,
/// and what a call on the value answers is looked at afterwards.
pub struct TurnAt<D: Journalled, C> {
    pub(crate) cell: C,
    pub(crate) seat: CellSeat<D>,
    pub(crate) value: D,
    pub(crate) found: Snapshot<D>,
    pub(crate) before: u64,
    pub(crate) number: u32,
}

/// A turn at a cell that is borrowed for it.
pub type Turn<'a, D> = TurnAt<D, &'a TurnCell<D>>;

impl<D: Journalled, C> TurnAt<D, C> {
    /// The number of the pass, which each entry has to carry that this turn adds.
    pub fn number(&self) -> u32
        ensures { result ≡ self.now.number }
    {
        self.number
    }
}
