//! How connections are accepted, and their threads started.

ghost use Rattle.std.specs.Prelude.{◌≡◌, ℕ, map, IfErr, IfOk, OnOk};
ghost use Rattle.turn_cell.specs.Passes.{cell_of, view_of};
ghost use Rattle.shared_directory.specs.Passes.{IsPassOf, directory_id, port_of};
ghost use Rattle.ldap_listener.specs.Seats.{AcceptsLinks, AreInOrder};
ghost use Rattle.ldap_listener.specs.SeatsOfCode.{seat_of};
ghost use Rattle.ldap_listener.specs.Serving.{IsAll, ServesLinks};
ghost use Rattle.ldap_listener.specs.Sessions.{HasServed, seen_by};

use crate::collecting::{free_all, wait_for_seat};
use crate::ended_connection::{EndedConnection, ServesOne};
use crate::seat::Seat;
use crate::server::Server;
use crate::serving::serve_one;
use ldap_server::Gate;
use shared_directory::DirectoryPass;
use std::snapshot::Snapshot;
use std::sync::Wait;
use std::thread::{PromisedHandle, Scope, Threads};
use std::{mem, thread};
use sync_io::{Clock, Net, NetFault};

/// Serves a link on a thread of its own, or here where none can be made.
fn start<'s, E, R: Threads + Wait + Sync, N: Net, K: Clock, G: Gate + Sync>(
    scope: &Scope<'s, E>,
    server: &'s Server<'s, R, G>,
    clock: K,
    place: usize,
    number: u64,
    pass: DirectoryPass,
    link: N::Link,
) -> Result<PromisedHandle<EndedConnection<N::Link>, ServesOne<N::Link>>, EndedConnection<N::Link>>
where
    K: 's,
    N::Link: 's,
    requires pass { IsPassOf (directory_id server.now.directory.now) pass }
    ensures ok { IfOk result (λ child. (child.promise.pass.value ≡ pass)
        × (child.promise.link.value ≡ link)
        × (child.promise.access.value ≡ server.entry.now.access.now)) }
    ensures err { IfErr result (λ served. IsPassOf (cell_of pass) served.pass
        × HasServed
        (seen_by N.Link.bytes_left N.Link.bytes_read N.Link.bytes_held
        N.Link.read_fault_count N.Link.write_fault_count)
        server.entry.now.access.now (port_of (view_of pass)) link
        (port_of (view_of served.pass)) served.link) }
{
    let serves = ServesOne {
        pass: Snapshot::of(&pass),
        link: Snapshot::of(&link),
        access: Snapshot::of(server.access),
    };
    let serve = move || -> EndedConnection<N::Link>
        requires { IsPassOf (directory_id server.now.directory.now) pass }
    { serve_one(server, clock, place, number, pass, link) };
    match scope.spawn_with(serves, serve) {
        Ok(child) => Ok(child),
        Err(refused) => Err((refused.value)()),
    }
}

/// Accepts a link, and starts its thread. A seat is free before a link is accepted.
fn accept_one<'s, E, R: Threads + Wait + Sync, N: Net, K: Clock, G: Gate + Sync>(
    scope: &Scope<'s, E>,
    server: &'s Server<'s, R, G>,
    clock: K,
    net: &mut N,
    door: &mut N::Door,
    seats: &mut [Seat<N::Link>],
    number: u64,
) -> Result<(), NetFault>
where
    K: 's,
    N::Link: 's,
    requires order { AreInOrder (directory_id server.now.directory.now)
        (N.served net.old) (map seat_of seats.old) }
    ensures { AcceptsLinks
        (seen_by N.Link.bytes_left N.Link.bytes_read N.Link.bytes_held
        N.Link.read_fault_count N.Link.write_fault_count)
        server.entry.now.access.now (directory_id server.entry.now.directory.now)
        result (λ k. OnOk result (k ≡ 1))
        (N.served net.old) (map seat_of seats.old) (N.net_fault_count net.old)
        (N.served net.new) (map seat_of seats.new) (N.net_fault_count net.new) }
{
    let place = wait_for_seat(server, net, seats);
    let link = match net.accept(door) {
        Ok(link) => link,
        Err(fault) => return Err(fault),
    };
    let Seat::Free(pass) = mem::replace(&mut seats[place], Seat::Vacant) else {
        unreachable!()
    };
    match start::<_, R, N, K, G>(scope, server, clock, place, number, pass, link) {
        Ok(child) => seats[place] = Seat::Busy(child),
        Err(served) => {
            let EndedConnection {
                pass,
                link,
                ended: _,
            } = served;
            net.release(link);
            seats[place] = Seat::Free(pass);
        }
    }
    Ok(())
}

/// Accepts n links, or links without end where n is 0.
fn accept_all<'s, E, R: Threads + Wait + Sync, N: Net, K: Clock, G: Gate + Sync>(
    scope: &Scope<'s, E>,
    server: &'s Server<'s, R, G>,
    clock: K,
    net: &mut N,
    door: &mut N::Door,
    seats: &mut [Seat<N::Link>],
    connections: u64,
) -> Result<(), NetFault>
where
    K: 's,
    N::Link: 's,
    requires order { AreInOrder (directory_id server.now.directory.now)
        (N.served net.old) (map seat_of seats.old) }
    ensures { AcceptsLinks
        (seen_by N.Link.bytes_left N.Link.bytes_read N.Link.bytes_held
        N.Link.read_fault_count N.Link.write_fault_count)
        server.entry.now.access.now (directory_id server.entry.now.directory.now)
        result (λ k. IsAll result connections k)
        (N.served net.old) (map seat_of seats.old) (N.net_fault_count net.old)
        (N.served net.new) (map seat_of seats.new) (N.net_fault_count net.new) }
{
    let mut number: u64 = 0;
    for _ in server.rt.forever() {
        if connections != 0 && number == connections {
            return Ok(());
        }
        number = number.saturating_add(1);
        match accept_one(scope, server, clock, net, door, seats, number) {
            Ok(()) => {}
            Err(fault) => return Err(fault),
        }
    }
    unreachable!()
}

/// Serves the links of a door, and frees all seats.
pub(crate) fn serve_links<R: Threads + Wait + Sync, N: Net, K: Clock, G: Gate + Sync>(
    server: &Server<'_, R, G>,
    clock: K,
    net: &mut N,
    door: N::Door,
    seats: Vec<Seat<N::Link>>,
    connections: u64,
) -> (Result<(), NetFault>, Vec<Seat<N::Link>>)
    requires order { AreInOrder (directory_id server.now.directory.now)
        (N.served net.old) (map seat_of seats.items) }
    ensures { ServesLinks
        (seen_by N.Link.bytes_left N.Link.bytes_read N.Link.bytes_held
        N.Link.read_fault_count N.Link.write_fault_count)
        server.entry.now.access.now (directory_id server.entry.now.directory.now)
        connections result.0
        (N.served net.old) (map seat_of seats.items) (N.net_fault_count net.old)
        (N.served net.new) (map seat_of result.1.items) (N.net_fault_count net.new) }
{
    let (accepted, seats, _net) = thread::scope(
        thread::scope_env(),
        server.rt,
        move |scope| -> (Result<(), NetFault>, Vec<Seat<N::Link>>, &mut N)
            requires { AreInOrder (directory_id server.now.directory.now)
                (N.served net.now) (map seat_of seats.items) }
            ensures same { result.2.ghost_name ≡ net.entry.ghost_name }
            ensures serves { ServesLinks
                (seen_by N.Link.bytes_left N.Link.bytes_read N.Link.bytes_held
                N.Link.read_fault_count N.Link.write_fault_count)
                server.entry.now.access.now (directory_id server.entry.now.directory.now)
                connections result.0
                (N.served net.entry.now) (map seat_of seats.items) (N.net_fault_count net.entry.now)
                (N.served result.2.now) (map seat_of result.1.items)
                (N.net_fault_count result.2.now) }
        {
            let mut door = door;
            let mut seats = seats;
            let places = seats.as_mut_slice();
            let accepted = accept_all(scope, server, clock, net, &mut door, places, connections);
            free_all(server, net, places);
            (accepted, seats, net)
        },
    );
    (accepted, seats)
}
