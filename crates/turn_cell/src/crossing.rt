//! What may cross threads: a cell may be shared, and a pass sent, wherever the value may be sent.
ghost use Rattle.std.specs.Prelude.{◌≡◌};

use crate::cell::TurnCell;
use crate::journalled::Journalled;
use crate::pass::Pass;

fn shares<T: Sync>(_shared: &T) {}

fn sends<T: Send>(sent: T) -> T
    ensures { result ≡ sent }
{
    sent
}

/// A cell may be shared by threads.
pub fn cells_are_shared<D: Journalled + Send>(cell: &TurnCell<D>) {
    shares(cell)
}

/// A pass may go to another thread.
pub fn passes_are_sent<D: Journalled + Send>(pass: Pass<D>) -> Pass<D>
    ensures { result ≡ pass }
{
    sends(pass)
}
