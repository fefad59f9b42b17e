//! The table that a cell stands on: three words and one slot, which has the value.
use crate::journalled::Journalled;
use atomic_table::{Seat, Shared, Table, TableRule};
use std::alloc::Global;
use std::collections::LinkedList;
use std::marker::PhantomData;
use std::snapshot::Snapshot;

/// The word of the next ticket.
pub(crate) const DRAWN: usize = 0;

/// The word of the ticket that is served.
pub(crate) const SERVED: usize = 1;

/// The word of the journal's length.
pub(crate) const LENGTH: usize = 2;

/// The slot of the value.
pub(crate) const VALUE: usize = 0;

/// What a pass has seen: the journal at the end of its last turn, and its share then. Proofs alone
/// speak of it; no value of it is made.
pub struct PassView<N, X> {
    pub number: u64,
    /// How many passes its cell has.
    pub seats: u64,
    pub seen: LinkedList<(N, u64)>,
    pub share: LinkedList<X>,
}

/// What a seat of the table knows. Proofs alone speak of it; no value of it is made.
pub struct SeatView<D, N, X> {
    /// The passes that it stands for.
    pub passes: LinkedList<PassView<N, X>>,
    pub ticket: Option<u64>,
    /// In a turn: the value as the seat found it, or as its entries were last counted.
    pub taken: Option<D>,
}

/// What a table is made for.
pub struct Opening<D> {
    pub seats: u64,
    pub value: Snapshot<D>,
}

impl<D> Drop for Opening<D> {
    fn drop(self) {
        let Self { seats: _, value } = self;
        drop(value);
    }
}

/// The rule of a cell's table.
pub struct TurnRule<D> {
    value: PhantomData<D>,
}

impl<D: Journalled> TableRule<Option<D>, SeatView<D, D::Note, D::Item>, Opening<D>>
    for TurnRule<D> {
    ghost use Rattle.turn_cell.specs.Rule.{TakesTurns, dealer};

    ghost holds = { λ opening.
        TakesTurns D.journal D.share (D.journal opening.value.value) opening.seats };

    ghost first = { λ opening.
        dealer (D.journal opening.value.value) (D.share opening.value.value) opening.seats };
}

/// The table in which a value, its seats and the turn lie.
pub type CellTable<D> = Table<
    Option<D>,
    SeatView<D, <D as Journalled>::Note, <D as Journalled>::Item>,
    Opening<D>,
    TurnRule<D>,
    Global,
>;

/// A table as all threads see it.
pub type CellWords<D> = Shared<
    Option<D>,
    SeatView<D, <D as Journalled>::Note, <D as Journalled>::Item>,
    Opening<D>,
    TurnRule<D>,
>;

/// What one pass steps with.
pub type CellSeat<D> = Seat<
    Option<D>,
    SeatView<D, <D as Journalled>::Note, <D as Journalled>::Item>,
>;
