//! A directory whose connections are served.

ghost use Rattle.std.specs.Prelude.{◌≡◌, ◌≤◌, ◌+◌, ◌++◌, ◌∷◌, ℕ, [], length, map, vec_capacity, IfOk, IsErrOf, OnErr};
ghost use Rattle.shared_directory.specs.Passes.{IsPassOf, directory_id, ports_of};
ghost use Rattle.sync_io.specs.Faults.{CountHasRisen};
ghost use Rattle.ldap_listener.specs.Seats.{AllFree, AllSeated};
ghost use Rattle.ldap_listener.specs.SeatsOfCode.{seat_of, seat_of_pass};
ghost use Rattle.ldap_listener.specs.Serving.{AreClosed, AreOpened, IsAll, ServesAll};
ghost use Rattle.ldap_listener.specs.Sessions.{seen_by};

use crate::accepting::serve_links;
use crate::bell::Bell;
use crate::seat::Seat;
use crate::server::Server;
use ldap_ber::NoMemory;
use ldap_server::{Access, Gate};
use shared_directory::{DirectoryPass, SharedDirectory};
use std::alloc::{AllocError, Global};
use std::sync::Wait;
use std::thread::Threads;
use sync_io::{Clock, Net, NetFault};
use sync_provider::Provider;

/// How many connections are served.
#[derive(Clone, Copy, Debug, PartialEq, Eq)]
pub struct Limits {
    /// At once, 1 to 1,024.
    pub seats: u32,
    /// In all, or 0 without end.
    pub connections: u64,
}

/// Free seats, one for each pass.
pub(crate) fn free_seats<N: Net>(
    alloc: Global,
    passes: Vec<DirectoryPass>,
) -> Result<Vec<Seat<N::Link>>, NoMemory>
    ensures { IfOk result (λ seats. map seat_of seats.items ≡ map seat_of_pass passes.items) }
{
    let mut seats = Vec::with_capacity(alloc, passes.len())?;
    for pass in passes {
        seats.push_reserved(Seat::Free(pass));
    }
    Ok(seats)
}

/// The passes of free seats. There is room for them in the list, so that none is lost.
fn passes_of<N: Net>(seats: Vec<Seat<N::Link>>, room: Vec<DirectoryPass>) -> Vec<DirectoryPass>
    requires free { AllFree (map seat_of seats.items) }
    requires empty { room.items ≡ [] }
    requires room { length seats.items ≤ vec_capacity room }
    ensures passes { map seat_of_pass result.items ≡ map seat_of seats.items }
    ensures capacity { vec_capacity result ≡ vec_capacity room }
{
    let mut passes = room;
    for seat in seats {
        let Seat::Free(pass) = seat else {
            unreachable!()
        };
        passes.push_reserved(pass);
    }
    passes
}

/// A directory that is shared, with a free seat for each of its ports.
fn open_seats<N: Net>(
    alloc: Global,
    provider: Provider,
    count: u32,
) -> Result<(SharedDirectory, Vec<Seat<N::Link>>), NoMemory>
    requires { (1 ≤ count) × (count ≤ 1024) }
    ensures { IfOk result (λ made.
        AreOpened provider count made.0 (map seat_of made.1.items)) }
{
    let Ok((directory, passes)) = SharedDirectory::new(alloc, provider, count) else {
        return Err(AllocError);
    };
    match free_seats::<N>(alloc, passes) {
        Ok(seats) => Ok((directory, seats)),
        Err(_) => Err(AllocError),
    }
}

/// The provider of a directory all of whose seats are free. There is room for its passes in the
/// list.
fn close_seats<N: Net>(
    directory: SharedDirectory,
    seats: Vec<Seat<N::Link>>,
    room: Vec<DirectoryPass>,
) -> Provider
    requires seated { AllSeated (directory_id directory) (map seat_of seats.items) }
    requires free { AllFree (map seat_of seats.items) }
    requires count { length seats.items ≡ ports_of directory }
    requires empty { room.items ≡ [] }
    requires room { length seats.items ≤ vec_capacity room }
    ensures { AreClosed directory (map seat_of seats.items) result }
{
    match directory.close(passes_of::<N>(seats, room)) {
        Ok(provider) => provider,
        Err(_) => unreachable!(),
    }
}

/// The provider of a directory all of whose seats are free, with the pass of one more port. There
/// is room for all passes in the list.
pub(crate) fn close_all<N: Net>(
    directory: SharedDirectory,
    seats: Vec<Seat<N::Link>>,
    pass: DirectoryPass,
    room: Vec<DirectoryPass>,
) -> Provider
    requires seated { AllSeated (directory_id directory) (map seat_of seats.items) }
    requires free { AllFree (map seat_of seats.items) }
    requires pass { IsPassOf (directory_id directory) pass }
    requires count { length seats.items + 1 ≡ ports_of directory }
    requires empty { room.items ≡ [] }
    requires room { length seats.items + 1 ≤ vec_capacity room }
    ensures { AreClosed directory (map seat_of seats.items ++ seat_of_pass pass ∷ []) result }
{
    let mut passes = passes_of::<N>(seats, room);
    passes.push_reserved(pass);
    match directory.close(passes) {
        Ok(provider) => provider,
        Err(_) => unreachable!(),
    }
}

/// Serves the links of a door, each on a thread of its own, over the provider's directory, and
/// gives the provider back. The second part says whether the net failed. It is `NoMemory` only
/// before the first link is asked for.
pub fn serve_directory<R: Threads + Wait + Sync, N: Net, K: Clock, G: Gate + Sync>(
    rt: &R,
    alloc: Global,
    provider: Provider,
    access: &Access,
    limits: Limits,
    net: &mut N,
    door: N::Door,
    clock: K,
    gate: &G,
) -> Result<(Provider, Result<(), NetFault>), NoMemory>
    requires { (1 ≤ limits.seats) × (limits.seats ≤ 1024) }
    ensures serves { IfOk result (λ served. (k : ℕ) × IsAll served.1 limits.connections k
        × ServesAll
        (seen_by N.Link.bytes_left N.Link.bytes_read N.Link.bytes_held
        N.Link.read_fault_count N.Link.write_fault_count)
        access.now limits.seats provider served.0 k (N.served net.old) (N.served net.new)) }
    ensures failed { IfOk result (λ served. IsErrOf served.1 NetFault.Failed
        → CountHasRisen (N.net_fault_count net.old) (N.net_fault_count net.new)) }
    ensures faultless { IfOk result (λ served. ¬ (IsErrOf served.1 NetFault.Failed)
        → N.net_fault_count net.new ≡ N.net_fault_count net.old) }
    ensures err { OnErr result (net.new ≡ net.old) }
    ensures later { N.net_fault_count net.old ≤ N.net_fault_count net.new }
{
    let Ok(room) = Vec::with_capacity(alloc, limits.seats as usize) else {
        return Err(AllocError);
    };
    let Ok(bell) = Bell::new(alloc, limits.seats) else {
        return Err(AllocError);
    };
    let Ok((directory, seats)) = open_seats::<N>(alloc, provider, limits.seats) else {
        return Err(AllocError);
    };
    let server = Server {
        rt,
        alloc,
        directory: &directory,
        access,
        gate,
        bell: &bell,
    };
    let (accepted, seats) = serve_links(&server, clock, net, door, seats, limits.connections);
    drop(server);
    Ok((close_seats::<N>(directory, seats, room), accepted))
}
