//! The seats of connections.

ghost use Rattle.std.specs.Prelude.{◌≡◌};
ghost use Rattle.ldap_listener.specs.Seats.{is_free};
ghost use Rattle.ldap_listener.specs.SeatsOfCode.{seat_of};

use crate::ended_connection::{EndedConnection, ServesOne};
use shared_directory::DirectoryPass;
use std::thread::PromisedHandle;
use sync_io::{Sink, Source};

/// The seat of a connection.
#[derive(Drop)]
pub enum Seat<L: Source + Sink> {
    /// No connection has it.
    Free(DirectoryPass),
    /// A thread serves a connection.
    Busy(PromisedHandle<EndedConnection<L>, ServesOne<L>>),
    /// What was at the place is being moved.
    Vacant,
}

impl<L: Source + Sink> Seat<L> {
    pub(crate) fn is_free(&self) -> bool
        ensures { result ≡ is_free (seat_of self.now) }
    {
        matches!(self, Seat::Free(_))
    }
}
