//! Content synchronisation as definitions (RFC 4533), and their laws: what the messages of a search
//! make of a copy. There is no code here but the functions that carry the laws.
#![tactic(auto)]

ghost use Rattle.sync_model.specs.Law.{HistoriesAscend, RefreshEnds, LaterEnds, PrefixShows, PrefixFits, PrefixFitsOrFills};
ghost use Rattle.sync_model.specs.Incremental.{IncrementalRefresh, LaterNotified};
ghost use Rattle.sync_model.specs.Keeping.{TakingKeeps};
ghost use Rattle.sync_model.specs.Examples.{EmptyIsEnded, AddedIsSent, DeletedIsNamed, DeletedIsWalked, KeptIsNamed, MessagesAreAnswered};

/// The states of every directory ascend by identity, so the laws below hold of each history of
/// writes.
pub fn histories_ascend()
    ensures { HistoriesAscend }
{}

/// A refresh, of any number of pieces and in each phase, leaves a copy with exactly the content
/// after the writes at its last piece, and with the cookie of their number.
pub fn refresh_ends()
    ensures { RefreshEnds }
{}

/// What later writes send leads a copy from the content before them to the content after them, with
/// the cookie of the last of them that sent something.
pub fn later_ends()
    ensures { LaterEnds }
{}

/// Wherever the messages of a search are cut off, a copy has what it had before the search, or the
/// content after some number of writes, not fewer than those at the search's acceptance, with that
/// number's cookie.
pub fn prefix_shows()
    ensures { PrefixShows }
{}

/// What a directory that keeps within its limits sends in one piece meets no limit of a copy,
/// wherever it is cut off.
pub fn prefix_fits()
    ensures { PrefixFits }
{}

/// What a directory that keeps within its limits sends in several pieces meets no limit of a copy
/// but one: the entries staged as puts may be more, or heavier, than a directory may have, since
/// each was there at the piece that sent it and not all at once.
pub fn prefix_fits_or_fills()
    ensures { PrefixFitsOrFills }
{}

/// A refresh from a cookie sends an entry whole only where a write after those of that cookie, and
/// up to those of the cookie that the refresh ends with, touched its identity.
pub fn incremental_refresh()
    ensures { IncrementalRefresh }
{}

/// Each message of a later write is about one identity that the write changed in what is selected,
/// and each of these has its one message, in ascending order.
pub fn later_notified()
    ensures { LaterNotified }
{}

/// A message changes the entries only where the stage takes effect, and the cookie only with it or
/// where e-syncRefreshRequired says that it is of no use; after a refused message both are as
/// before and no search runs.
pub fn taking_keeps()
    ensures { TakingKeeps }
{}

/// The definitions on small searches and messages, with what is said and answered worked out by
/// hand.
pub fn worked_examples()
    ensures empty { EmptyIsEnded }
    ensures added { AddedIsSent }
    ensures deleted { DeletedIsNamed }
    ensures walked { DeletedIsWalked }
    ensures kept { KeptIsNamed }
    ensures answered { MessagesAreAnswered }
{}
