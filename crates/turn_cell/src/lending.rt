ghost use Rattle.std.specs.Prelude.{◌≡◌};
ghost use Rattle.std.specs.Borrow.{Lends, sem};
ghost use Rattle.turn_cell.specs.contracts.turn.TurnAt.{the_row};
ghost use Rattle.turn_cell.specs.Lent.{with_value};

use crate::journalled::Journalled;
use crate::turn::TurnAt;

impl<D: Journalled, C> TurnAt<D, C> {
    /// The value, which only this turn has. What is written through the borrow stays.
    pub fn state(&mut self) -> &mut D
        ensures* writes_back { sem 𝓛
            (Lends (the_row D.row C.row D.Note.row D.Item.row) D.row self.entry result
            (with_value self.old)) }
        ensures value { result.now ≡ self.old.value }
    {
        &mut self.value
    }
}
