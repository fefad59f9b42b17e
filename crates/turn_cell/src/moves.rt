//! The kinds of step on a cell's table.
//!
//! In a turn a seat draws a ticket, reads the word of the ticket that is served until that is its
//! own, takes the value out of the slot, puts it back, counts its new entries, and raises the word
//! to the next ticket. Two more kinds split a seat and join two, and by one more a seat of two
//! passes shows its first one the journal. To take the value and to put it back changes no view, so
//! these two need no name here.
use crate::journalled::Journalled;
use crate::table::SeatView;
use atomic_table::{Join, Play, Split};

/// A ticket is drawn.
pub(crate) struct Draw;

impl<D: Journalled> Play<Option<D>, SeatView<D, D::Note, D::Item>> for Draw {
    ghost use Rattle.turn_cell.specs.Steps.{Draws};

    ghost then = { Draws };
}

/// The ticket that is served is read.
pub(crate) struct Serve;

impl<D: Journalled> Play<Option<D>, SeatView<D, D::Note, D::Item>> for Serve {
    ghost use Rattle.turn_cell.specs.Steps.{Serves};

    ghost then = { Serves D.journal D.share };
}

/// The new entries are counted.
pub(crate) struct Count;

impl<D: Journalled> Play<Option<D>, SeatView<D, D::Note, D::Item>> for Count {
    ghost use Rattle.turn_cell.specs.Steps.{Counts};

    ghost then = { Counts D.journal D.share };
}

/// The next ticket is served.
pub(crate) struct Raise;

impl<D: Journalled> Play<Option<D>, SeatView<D, D::Note, D::Item>> for Raise {
    ghost use Rattle.turn_cell.specs.Steps.{Raises};

    ghost then = { Raises };
}

/// The journal's length is read, and the first pass of the seat has then seen the journal.
pub(crate) struct Meet;

impl<D: Journalled> Play<Option<D>, SeatView<D, D::Note, D::Item>> for Meet {
    ghost use Rattle.turn_cell.specs.Steps.{Meets};

    ghost then = { Meets };
}

/// A seat is split: the new one gets its first pass.
pub(crate) struct Deal;

impl<D: Journalled> Split<SeatView<D, D::Note, D::Item>> for Deal {
    ghost use Rattle.turn_cell.specs.Steps.{undealt, dealt};

    ghost left = { undealt };

    ghost right = { dealt };
}

/// Two seats are joined: the first gets the passes of the second.
pub(crate) struct Merge;

impl<D: Journalled> Join<SeatView<D, D::Note, D::Item>> for Merge {
    ghost use Rattle.turn_cell.specs.Steps.{joined, spent};

    ghost both = { joined };

    ghost spent = { spent };
}
