//! What a thread was given, and what it hands back.

use ldap_server::{Access, Ended};
use shared_directory::DirectoryPass;
use std::snapshot::Snapshot;
use std::thread::Promise;
use sync_io::{Sink, Source};

/// What the thread of a connection hands back.
#[derive(Drop)]
pub struct EndedConnection<L> {
    pub pass: DirectoryPass,
    pub link: L,
    pub ended: Ended,
}

/// That the thread of a connection serves this link over the port of this pass.
#[derive(Drop)]
pub struct ServesOne<L> {
    pub pass: Snapshot<DirectoryPass>,
    pub link: Snapshot<L>,
    pub access: Snapshot<Access>,
}

impl<L: Source + Sink> Promise<EndedConnection<L>> for ServesOne<L> {
    ghost use Rattle.turn_cell.specs.Passes.{cell_of, view_of};
    ghost use Rattle.shared_directory.specs.Passes.{IsPassOf, port_of};
    ghost use Rattle.ldap_listener.specs.Sessions.{HasServed, seen_by};

    ghost kept_by = { λ given back. IsPassOf (cell_of given.pass.value) back.pass
        × HasServed (seen_by L.bytes_left L.bytes_read L.bytes_held
        L.read_fault_count L.write_fault_count)
        given.access.value (port_of (view_of given.pass.value)) given.link.value
        (port_of (view_of back.pass)) back.link };
}
