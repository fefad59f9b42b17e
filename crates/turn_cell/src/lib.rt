//! A cell whose value threads take turns with, one at a time.
//!
//! The value has a journal, a list of entries that only grows. Each entry carries the number of the
//! pass whose turn added it, or 0 where it was there before. A pass knows the journal as it last
//! saw it; from one turn to its next one the journal may gain entries of other passes alone. When
//! all passes are back, the cell gives its value back, whose journal has all that they added.
//!
//! [`TurnCell::new`] makes a cell with its passes, which may go to different threads.
//! [`TurnCell::enter`] waits for the pass's turn, [`TurnAt::state`] lends the value, and
//! [`TurnAt::leave`] ends the turn. By [`TurnCell::meet`] a pass learns the journal without a turn.
//! [`TurnCell::close`] gives the value back.
#![tactic(auto)]

mod cell;
mod closing;
mod crossing;
mod entering;
mod journalled;
mod leaving;
mod lending;
mod making;
mod meeting;
mod moves;
mod pass;
mod table;
mod turn;
mod waiting;

pub use cell::{CloseFault, NoMemory, TurnCell};
pub use crossing::{cells_are_shared, passes_are_sent};
pub use journalled::Journalled;
pub use pass::{Pass, seen};
pub use turn::{Turn, TurnAt};
