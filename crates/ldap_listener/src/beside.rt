//! A directory whose connections are served while it follows another one.

ghost use Rattle.std.specs.Prelude.{◌≡◌, ◌≤◌, ℕ, map, IfOk, IsErrOf, OnErr};
ghost use Rattle.turn_cell.specs.Passes.{view_of};
ghost use Rattle.entry_tree.specs.Selection.{search_of};
ghost use Rattle.ldap_client.specs.Links.{link_by};
ghost use Rattle.ldap_filter.specs.FilterTree.{depth, tree_of};
ghost use Rattle.ldap_listener.specs.Beside.{AreOpenedBeside, ServesBeside};
ghost use Rattle.ldap_listener.specs.Seats.{AreInOrder};
ghost use Rattle.ldap_listener.specs.SeatsOfCode.{seat_of};
ghost use Rattle.ldap_listener.specs.Serving.{IsAll, ServesLinks};
ghost use Rattle.ldap_listener.specs.Sessions.{seen_by};
ghost use Rattle.replica_node.specs.Replicas.{Follows};
ghost use Rattle.shared_directory.specs.Passes.{IsPassOf, directory_id, port_of};
ghost use Rattle.sync_io.specs.Faults.{CountHasRisen};

use crate::accepting::serve_links;
use crate::bell::Bell;
use crate::listening::{Limits, close_all, free_seats};
use crate::seat::Seat;
use crate::server::Server;
use ldap_ber::NoMemory;
use ldap_server::{Access, Gate};
use replica_node::{NodeEnd, run_replica};
use shared_directory::{DirectoryPass, SharedDirectory};
use std::alloc::{AllocError, Global};
use std::sync::Wait;
use std::thread;
use std::thread::Threads;
use sync_config::Upstream;
use sync_io::{Clock, Dial, Net, NetFault};
use sync_provider::Provider;

/// What came of a directory that was served while it followed another one.
#[derive(Drop)]
pub struct Replicated<D> {
    pub provider: Provider,
    /// Whether a link failed to come.
    pub accepted: Result<(), NetFault>,
    pub dial: D,
    pub end: NodeEnd,
}

/// What the half that follows hands back.
#[derive(Drop)]
struct Followed<D> {
    pass: DirectoryPass,
    dial: D,
    end: NodeEnd,
}

/// Serves the links of a door over the provider's directory, and meanwhile follows an upstream at
/// one more port of it: the two halves of one join. Where no thread can be made, the links are
/// served first. It is `NoMemory` only before the first link is asked for, and then the net is as
/// before. It may wait.
pub fn serve_replica<
    R: Threads + Wait + Sync,
    N: Net,
    K: Clock,
    G: Gate + Sync,
    D: Dial + Send + Drop,
>(
    rt: &R,
    alloc: Global,
    provider: Provider,
    access: &Access,
    limits: Limits,
    net: &mut N,
    door: N::Door,
    clock: K,
    gate: &G,
    dial: D,
    upstream: &Upstream,
    rounds: u64,
) -> Result<Replicated<D>, NoMemory>
    requires seats { (1 ≤ limits.seats) × (limits.seats ≤ 1023) }
    requires filter { depth (tree_of upstream.now.spec.filter) ≤ 32 }
    ensures serves { IfOk result (λ done. (k : ℕ) × IsAll done.accepted limits.connections k
        × ServesBeside
        (seen_by N.Link.bytes_left N.Link.bytes_read N.Link.bytes_held
        N.Link.read_fault_count N.Link.write_fault_count)
        access.now limits.seats provider done.provider k (N.served net.old) (N.served net.new)
        (λ first left. Follows
        (link_by D.Link.bytes_left D.Link.bytes_read D.Link.bytes_held
        D.Link.read_fault_count D.Link.write_fault_count)
        upstream.now.address
        (record { spec = search_of upstream.now.spec; reload = upstream.now.reload_hint })
        rounds first (D.dialled dial) done.end left (D.dialled done.dial))) }
    ensures failed { IfOk result (λ done. IsErrOf done.accepted NetFault.Failed
        → CountHasRisen (N.net_fault_count net.old) (N.net_fault_count net.new)) }
    ensures faultless { IfOk result (λ done. ¬ (IsErrOf done.accepted NetFault.Failed)
        → N.net_fault_count net.new ≡ N.net_fault_count net.old) }
    ensures err { OnErr result (net.new ≡ net.old) }
    ensures later { N.net_fault_count net.old ≤ N.net_fault_count net.new }
{
    let Ok(room) = Vec::with_capacity(alloc, limits.seats as usize + 1) else {
        return Err(AllocError);
    };
    let Ok(bell) = Bell::new(alloc, limits.seats) else {
        return Err(AllocError);
    };
    let Ok((directory, seats, pass)) = open_beside::<N>(alloc, provider, limits.seats) else {
        return Err(AllocError);
    };
    let server = Server {
        rt,
        alloc,
        directory: &directory,
        access,
        gate,
        bell: &bell,
    };
    let (accepted, seats, followed) = serve_beside(
        &server,
        clock,
        net,
        door,
        seats,
        limits.connections,
        pass,
        dial,
        upstream,
        rounds,
    );
    drop(server);
    let Followed { pass, dial, end } = followed;
    let provider = close_all::<N>(directory, seats, pass, room);
    Ok(Replicated {
        provider,
        accepted,
        dial,
        end,
    })
}

/// A directory that is shared, with a free seat for each of its ports but the last, and the pass of
/// that one.
fn open_beside<N: Net>(
    alloc: Global,
    provider: Provider,
    count: u32,
) -> Result<(SharedDirectory, Vec<Seat<N::Link>>, DirectoryPass), NoMemory>
    requires { (1 ≤ count) × (count ≤ 1023) }
    ensures { IfOk result (λ made.
        AreOpenedBeside provider count made.0 (map seat_of made.1.items) made.2) }
{
    let Ok((directory, passes)) = SharedDirectory::new(alloc, provider, count + 1) else {
        return Err(AllocError);
    };
    let mut passes = passes;
    let Some(pass) = passes.pop() else {
        unreachable!()
    };
    match free_seats::<N>(alloc, passes) {
        Ok(seats) => Ok((directory, seats, pass)),
        Err(_) => Err(AllocError),
    }
}

/// The two halves: the acceptor with its connections, and the replica at the port of this pass.
fn serve_beside<R: Threads + Wait + Sync, N: Net, K: Clock, G: Gate + Sync, D: Dial + Send + Drop>(
    server: &Server<'_, R, G>,
    clock: K,
    net: &mut N,
    door: N::Door,
    seats: Vec<Seat<N::Link>>,
    connections: u64,
    pass: DirectoryPass,
    dial: D,
    upstream: &Upstream,
    rounds: u64,
) -> (Result<(), NetFault>, Vec<Seat<N::Link>>, Followed<D>)
    requires order { AreInOrder (directory_id server.now.directory.now)
        (N.served net.old) (map seat_of seats.items) }
    requires pass { IsPassOf (directory_id server.now.directory.now) pass }
    requires filter { depth (tree_of upstream.now.spec.filter) ≤ 32 }
    ensures serves { ServesLinks
        (seen_by N.Link.bytes_left N.Link.bytes_read N.Link.bytes_held
        N.Link.read_fault_count N.Link.write_fault_count)
        server.entry.now.access.now (directory_id server.entry.now.directory.now)
        connections result.0
        (N.served net.old) (map seat_of seats.items) (N.net_fault_count net.old)
        (N.served net.new) (map seat_of result.1.items) (N.net_fault_count net.new) }
    ensures pass { IsPassOf (directory_id server.entry.now.directory.now) result.2.pass }
    ensures follows { Follows
        (link_by D.Link.bytes_left D.Link.bytes_read D.Link.bytes_held
        D.Link.read_fault_count D.Link.write_fault_count)
        upstream.now.address
        (record { spec = search_of upstream.now.spec; reload = upstream.now.reload_hint })
        rounds (port_of (view_of pass)) (D.dialled dial) result.2.end
        (port_of (view_of result.2.pass)) (D.dialled result.2.dial) }
{
    let replica = move || -> Followed<D>
        requires { IsPassOf (directory_id server.now.directory.now) pass
            × (depth (tree_of upstream.now.spec.filter) ≤ 32) }
        ensures pass { IsPassOf (directory_id server.entry.now.directory.now) result.pass }
        ensures follows { Follows
            (link_by D.Link.bytes_left D.Link.bytes_read D.Link.bytes_held
            D.Link.read_fault_count D.Link.write_fault_count)
            upstream.entry.now.address
            (record {
              spec = search_of upstream.entry.now.spec;
              reload = upstream.entry.now.reload_hint;
            })
            rounds (port_of (view_of pass)) (D.dialled dial) result.end
            (port_of (view_of result.pass)) (D.dialled result.dial) }
    { follow_upstream(server, clock, pass, dial, upstream, rounds) };
    let acceptor = move || -> (Result<(), NetFault>, Vec<Seat<N::Link>>, &mut N)
        requires { AreInOrder (directory_id server.now.directory.now)
            (N.served net.now) (map seat_of seats.items) }
        ensures same { result.2.ghost_name ≡ net.entry.ghost_name }
        ensures serves { ServesLinks
            (seen_by N.Link.bytes_left N.Link.bytes_read N.Link.bytes_held
            N.Link.read_fault_count N.Link.write_fault_count)
            server.entry.now.access.now (directory_id server.entry.now.directory.now)
            connections result.0
            (N.served net.entry.now) (map seat_of seats.items) (N.net_fault_count net.entry.now)
            (N.served result.2.now) (map seat_of result.1.items) (N.net_fault_count result.2.now) }
    {
        let (accepted, seats) = serve_links(server, clock, net, door, seats, connections);
        (accepted, seats, net)
    };
    let (followed, (accepted, seats, _net)) = thread::join(server.rt, replica, acceptor);
    (accepted, seats, followed)
}

/// Follows an upstream at the port of a pass, which it gives back.
fn follow_upstream<R: Wait, K: Clock, G: Gate, D: Dial>(
    server: &Server<'_, R, G>,
    clock: K,
    pass: DirectoryPass,
    dial: D,
    upstream: &Upstream,
    rounds: u64,
) -> Followed<D>
    requires pass { IsPassOf (directory_id server.now.directory.now) pass }
    requires filter { depth (tree_of upstream.now.spec.filter) ≤ 32 }
    ensures pass { IsPassOf (directory_id server.entry.now.directory.now) result.pass }
    ensures follows { Follows
        (link_by D.Link.bytes_left D.Link.bytes_read D.Link.bytes_held
        D.Link.read_fault_count D.Link.write_fault_count)
        upstream.now.address
        (record { spec = search_of upstream.now.spec; reload = upstream.now.reload_hint })
        rounds (port_of (view_of pass)) (D.dialled dial) result.end
        (port_of (view_of result.pass)) (D.dialled result.dial) }
{
    let mut dial = dial;
    let mut desk = server.directory.desk(server.rt, pass);
    let end = run_replica(
        server.rt,
        server.alloc,
        &mut desk,
        &mut dial,
        clock,
        upstream,
        rounds,
    );
    Followed {
        pass: desk.leave(),
        dial,
        end,
    }
}
