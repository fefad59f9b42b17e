ghost use Rattle.std.specs.Prelude.{◌≡◌, [], ◌∷◌, length};
ghost use Rattle.turn_cell.specs.Rule.{idle, first_pass};

use crate::journalled::Journalled;
use crate::table::CellSeat;

/// The right to take turns at a cell. It can go to another thread.
///
/// Where a pass is dropped its cell goes on, but can't be closed any more.
pub struct Pass<D: Journalled> {
    pub(crate) seat: CellSeat<D>,
    pub(crate) number: u32,
    pub(crate) seen: u64,
    ghost idle: { seat.me ≡ (idle (first_pass seat.me.0.passes ∷ []), []) },
    ghost numbered: { (first_pass seat.me.0.passes).number ≡ number },
    ghost looked: { length (first_pass seat.me.0.passes).seen ≡ seen },
}

impl<D: Journalled> Drop for Pass<D> {
    fn drop(self) {
        let Self {
            seat,
            number: _,
            seen: _,
        } = self;
        drop(seat);
    }
}

impl<D: Journalled> Pass<D> {
    /// The seat that it steps with, and its number.
    pub(crate) fn into_parts(self) -> (CellSeat<D>, u32)
        ensures { (result.0 ≡ self.seat) × (result.1 ≡ self.number) }
    {
        let Pass {
            seat,
            number,
            seen: _,
        } = self;
        (seat, number)
    }
}

/// The length of the journal that the pass has seen.
pub fn seen<D: Journalled>(pass: &Pass<D>) -> u64
    ensures { result ≡ length (first_pass pass.now.seat.me.0.passes).seen }
{
    pass.seen
}
