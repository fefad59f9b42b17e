ghost use Rattle.std.specs.Prelude.{◌≡◌, ◌≤◌};

use crate::journalled::Journalled;
use crate::table::CellTable;
use crate::waiting::WaitingRoom;
use std::alloc::AllocError;

/// Memory ran out.
pub type NoMemory = AllocError;

/// A value that passes take turns with, in any thread. At any moment at most one of them has it.
#[derive(Drop)]
pub struct TurnCell<D: Journalled> {
    pub(crate) table: CellTable<D>,
    pub(crate) seats: u32,
    pub(crate) room: WaitingRoom,
    ghost sized: { (table.shared.table_id.words ≡ 3) × (table.shared.table_id.slots ≡ 1) },
    ghost opened: { (table.shared.key.seats ≡ seats) × (1 ≤ seats) },
}

/// Why a cell was not closed.
#[derive(Clone, Copy, Debug, Drop, PartialEq, Eq)]
pub enum CloseFault {
    /// This number of the cell's passes were not given.
    PassesOut(u32),
    NoMemory,
}
