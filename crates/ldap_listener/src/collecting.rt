//! How the seats of connections that are over become free.

ghost use Rattle.std.specs.Prelude.{◌<◌, ℕ, length, map};
ghost use Rattle.shared_directory.specs.Passes.{directory_id};
ghost use Rattle.ldap_listener.specs.Seats.{AllFree, AreInOrder, IsFreeAt, KeepsSeats};
ghost use Rattle.ldap_listener.specs.SeatsOfCode.{seat_of};
ghost use Rattle.ldap_listener.specs.Sessions.{seen_by};

use crate::ended_connection::EndedConnection;
use crate::seat::Seat;
use crate::server::Server;
use ldap_server::Gate;
use std::mem;
use std::sync::Wait;
use std::thread::Threads;
use sync_io::Net;

/// Waits for the thread of a seat that is busy, releases its link, and then frees the seat.
fn free_seat<R: Threads + Wait, N: Net, G: Gate>(
    server: &Server<'_, R, G>,
    net: &mut N,
    seats: &mut [Seat<N::Link>],
    place: usize,
)
    requires place { place < length seats.old }
    requires order { AreInOrder (directory_id server.now.directory.now)
        (N.served net.old) (map seat_of seats.old) }
    ensures keeps { KeepsSeats
        (seen_by N.Link.bytes_left N.Link.bytes_read N.Link.bytes_held
        N.Link.read_fault_count N.Link.write_fault_count)
        server.entry.now.access.now (directory_id server.entry.now.directory.now)
        (N.served net.old) (map seat_of seats.old) (N.net_fault_count net.old)
        (N.served net.new) (map seat_of seats.new) (N.net_fault_count net.new) }
    ensures free { IsFreeAt (map seat_of seats.new) place }
    ensures kept { (k : ℕ) → IsFreeAt (map seat_of seats.old) k
        → IsFreeAt (map seat_of seats.new) k }
{
    match mem::replace(&mut seats[place], Seat::Vacant) {
        Seat::Busy(child) => {
            let EndedConnection {
                pass,
                link,
                ended: _,
            } = child.join(server.rt);
            net.release(link);
            seats[place] = Seat::Free(pass);
        }
        other => seats[place] = other,
    }
}

/// Frees the seats for which the bell has rung.
pub(crate) fn free_rung<R: Threads + Wait, N: Net, G: Gate>(
    server: &Server<'_, R, G>,
    net: &mut N,
    seats: &mut [Seat<N::Link>],
)
    requires order { AreInOrder (directory_id server.now.directory.now)
        (N.served net.old) (map seat_of seats.old) }
    ensures { KeepsSeats
        (seen_by N.Link.bytes_left N.Link.bytes_read N.Link.bytes_held
        N.Link.read_fault_count N.Link.write_fault_count)
        server.entry.now.access.now (directory_id server.entry.now.directory.now)
        (N.served net.old) (map seat_of seats.old) (N.net_fault_count net.old)
        (N.served net.new) (map seat_of seats.new) (N.net_fault_count net.new) }
{
    for place in 0..seats.len() {
        if server.bell.has_rung(place) {
            free_seat(server, net, seats, place);
        }
    }
}

/// Frees all seats.
pub(crate) fn free_all<R: Threads + Wait, N: Net, G: Gate>(
    server: &Server<'_, R, G>,
    net: &mut N,
    seats: &mut [Seat<N::Link>],
)
    requires order { AreInOrder (directory_id server.now.directory.now)
        (N.served net.old) (map seat_of seats.old) }
    ensures keeps { KeepsSeats
        (seen_by N.Link.bytes_left N.Link.bytes_read N.Link.bytes_held
        N.Link.read_fault_count N.Link.write_fault_count)
        server.entry.now.access.now (directory_id server.entry.now.directory.now)
        (N.served net.old) (map seat_of seats.old) (N.net_fault_count net.old)
        (N.served net.new) (map seat_of seats.new) (N.net_fault_count net.new) }
    ensures free { AllFree (map seat_of seats.new) }
{
    for place in 0..seats.len() {
        free_seat(server, net, seats, place);
    }
}

/// Waits until a seat is free.
pub(crate) fn wait_for_seat<R: Threads + Wait, N: Net, G: Gate>(
    server: &Server<'_, R, G>,
    net: &mut N,
    seats: &mut [Seat<N::Link>],
) -> usize
    requires order { AreInOrder (directory_id server.now.directory.now)
        (N.served net.old) (map seat_of seats.old) }
    ensures keeps { KeepsSeats
        (seen_by N.Link.bytes_left N.Link.bytes_read N.Link.bytes_held
        N.Link.read_fault_count N.Link.write_fault_count)
        server.entry.now.access.now (directory_id server.entry.now.directory.now)
        (N.served net.old) (map seat_of seats.old) (N.net_fault_count net.old)
        (N.served net.new) (map seat_of seats.new) (N.net_fault_count net.new) }
    ensures place { result < length seats.new }
    ensures free { IsFreeAt (map seat_of seats.new) result }
{
    for _ in server.rt.forever() {
        let count = server.bell.count();
        free_rung(server, net, seats);
        if let Some(place) = seats.iter().position(|seat| seat.is_free()) {
            return place;
        }
        server.bell.wait(server.rt, count);
    }
    unreachable!()
}
