//! How a directory that is ready is served.

ghost use Rattle.std.specs.Prelude.{◌≡◌, ◌≤◌, Err, IfSome, OnErr, OnOk};
ghost use Rattle.ldap_client.specs.Links.{link_by};
ghost use Rattle.ldap_filter.specs.FilterTree.{depth, tree_of};
ghost use Rattle.ldap_listener.specs.Seats.{CountsFaults};
ghost use Rattle.ldap_listener.specs.Sessions.{seen_by};
ghost use Rattle.syncrepl_tool.specs.Serve.{EndsReady, net_side};
ghost use Rattle.syncrepl_tool.specs.Serving.{
  AnyEnd,
  EndsAt,
  EndsFrom,
  EndsOpened,
  HasCalled,
  HasMemory,
  IsServedAlone,
  IsServedBeside,
  net_view,
};

use crate::run::Status;
use crate::serve::net_failed;
use directory_setup::ReadyDirectory;
use ldap_ber::{NoMemory, discard};
use ldap_listener::{Limits, Replicated, serve_directory, serve_replica};
use ldap_server::{Access, Gate};
use replica_node::NodeEnd;
use std::alloc::Global;
use std::sync::Wait;
use std::thread::Threads;
use sync_config::Upstream;
use sync_io::{Clock, Net, NetFault, Sink};
use sync_provider::Provider;

/// Listens at the address of a directory, and serves its connections. Where it follows another
/// directory, that is followed meanwhile.
pub(crate) fn serve_ready<R: Threads + Wait + Sync, E: Sink, N: Net, K: Clock, G: Gate + Sync>(
    rt: &R,
    alloc: Global,
    ready: ReadyDirectory,
    errors: &mut E,
    net: &mut N,
    clock: K,
    gate: &G,
) -> Result<Status, NoMemory>
    requires seats { (1 ≤ ready.seats) × (ready.seats ≤ 64) }
    requires filter { IfSome ready.upstream
        (λ upstream. depth (tree_of upstream.spec.filter) ≤ 32) }
    ensures serves { EndsReady
        (net_view
        (seen_by N.Link.bytes_left N.Link.bytes_read N.Link.bytes_held
        N.Link.read_fault_count N.Link.write_fault_count)
        (link_by N.Caller.Link.bytes_left N.Caller.Link.bytes_read N.Caller.Link.bytes_held
        N.Caller.Link.read_fault_count N.Caller.Link.write_fault_count)
        N.Caller.dialled)
        ready
        (net_side (E.bytes_held errors.old) (E.write_fault_count errors.old)
        (N.served net.old) (N.net_fault_count net.old))
        (net_side (E.bytes_held errors.new) (E.write_fault_count errors.new)
        (N.served net.new) (N.net_fault_count net.new))
        result }
    ensures unsaid { OnErr result (errors.new ≡ errors.old) }
{
    match serve_at(rt, alloc, ready, net, clock, gate) {
        Ok(()) => Ok(Status { code: 0 }),
        Err(fault) => net_failed(errors, fault),
    }
}

/// Listens at the address of a directory, and serves its connections, whether it follows another
/// one or none.
fn serve_at<R: Threads + Wait + Sync, N: Net, K: Clock, G: Gate + Sync>(
    rt: &R,
    alloc: Global,
    ready: ReadyDirectory,
    net: &mut N,
    clock: K,
    gate: &G,
) -> Result<(), NetFault>
    requires seats { (1 ≤ ready.seats) × (ready.seats ≤ 64) }
    requires filter { IfSome ready.upstream
        (λ upstream. depth (tree_of upstream.spec.filter) ≤ 32) }
    ensures serves { EndsAt
        (net_view
        (seen_by N.Link.bytes_left N.Link.bytes_read N.Link.bytes_held
        N.Link.read_fault_count N.Link.write_fault_count)
        (link_by N.Caller.Link.bytes_left N.Caller.Link.bytes_read N.Caller.Link.bytes_held
        N.Caller.Link.read_fault_count N.Caller.Link.write_fault_count)
        N.Caller.dialled)
        ready result (N.served net.old) (N.served net.new) }
    ensures faults { CountsFaults result (N.net_fault_count net.old) (N.net_fault_count net.new) }
{
    match net.listen(ready.listen.as_str()) {
        Ok(door) => serve_opened(rt, alloc, ready, net, door, clock, gate),
        Err(fault) => {
            discard(ready);
            Err(fault)
        }
    }
}

/// Serves the connections that come through the door of a directory, whether it follows another one
/// or none.
fn serve_opened<R: Threads + Wait + Sync, N: Net, K: Clock, G: Gate + Sync>(
    rt: &R,
    alloc: Global,
    ready: ReadyDirectory,
    net: &mut N,
    door: N::Door,
    clock: K,
    gate: &G,
) -> Result<(), NetFault>
    requires seats { (1 ≤ ready.seats) × (ready.seats ≤ 64) }
    requires filter { IfSome ready.upstream
        (λ upstream. depth (tree_of upstream.spec.filter) ≤ 32) }
    ensures serves { EndsFrom
        (net_view
        (seen_by N.Link.bytes_left N.Link.bytes_read N.Link.bytes_held
        N.Link.read_fault_count N.Link.write_fault_count)
        (link_by N.Caller.Link.bytes_left N.Caller.Link.bytes_read N.Caller.Link.bytes_held
        N.Caller.Link.read_fault_count N.Caller.Link.write_fault_count)
        N.Caller.dialled)
        ready result (N.served net.old) (N.served net.new) }
    ensures faults { CountsFaults result (N.net_fault_count net.old) (N.net_fault_count net.new) }
{
    let ReadyDirectory {
        provider,
        listen: _listen,
        access,
        seats,
        connections,
        upstream,
        rounds,
    } = ready;
    let limits = Limits { seats, connections };
    match upstream {
        None => serve_alone(rt, alloc, provider, &access, limits, net, door, clock, gate),
        Some(upstream) => serve_following(
            rt, alloc, provider, &access, limits, net, door, clock, gate, &upstream, rounds,
        ),
    }
}

/// Serves the connections that come through a door.
fn serve_alone<R: Threads + Wait + Sync, N: Net, K: Clock, G: Gate + Sync>(
    rt: &R,
    alloc: Global,
    provider: Provider,
    access: &Access,
    limits: Limits,
    net: &mut N,
    door: N::Door,
    clock: K,
    gate: &G,
) -> Result<(), NetFault>
    requires seats { (1 ≤ limits.seats) × (limits.seats ≤ 64) }
    ensures serves { let served = IsServedAlone
        (net_view
        (seen_by N.Link.bytes_left N.Link.bytes_read N.Link.bytes_held
        N.Link.read_fault_count N.Link.write_fault_count)
        (link_by N.Caller.Link.bytes_left N.Caller.Link.bytes_read N.Caller.Link.bytes_held
        N.Caller.Link.read_fault_count N.Caller.Link.write_fault_count)
        N.Caller.dialled)
        access.now limits.seats provider in
        EndsOpened (N.served net.new ≡ N.served net.old)
        (λ n. served n (N.served net.old) (N.served net.new))
        (λ n. served n (N.served net.old) (N.served net.new))
        limits.connections result }
    ensures faults { CountsFaults result (N.net_fault_count net.old) (N.net_fault_count net.new) }
{
    let Ok((provider, accepted)) = serve_directory(
        rt, alloc, provider, access, limits, net, door, clock, gate,
    ) else {
        return Err(NetFault::NoMemory);
    };
    discard(provider);
    accepted
}

/// Asks for a caller, and serves the connections that come through a door while an upstream is
/// followed by that caller, which is let go at the end.
fn serve_following<R: Threads + Wait + Sync, N: Net, K: Clock, G: Gate + Sync>(
    rt: &R,
    alloc: Global,
    provider: Provider,
    access: &Access,
    limits: Limits,
    net: &mut N,
    door: N::Door,
    clock: K,
    gate: &G,
    upstream: &Upstream,
    rounds: u64,
) -> Result<(), NetFault>
    requires seats { (1 ≤ limits.seats) × (limits.seats ≤ 64) }
    requires filter { depth (tree_of upstream.now.spec.filter) ≤ 32 }
    ensures serves { let view = net_view
        (seen_by N.Link.bytes_left N.Link.bytes_read N.Link.bytes_held
        N.Link.read_fault_count N.Link.write_fault_count)
        (link_by N.Caller.Link.bytes_left N.Caller.Link.bytes_read N.Caller.Link.bytes_held
        N.Caller.Link.read_fault_count N.Caller.Link.write_fault_count)
        N.Caller.dialled in
        EndsOpened (HasCalled (N.served net.old) (N.served net.new))
        (λ n. IsServedBeside view HasMemory access.now limits.seats provider upstream.now rounds n
        (N.served net.old) (N.served net.new))
        (λ n. IsServedBeside view AnyEnd access.now limits.seats provider upstream.now rounds n
        (N.served net.old) (N.served net.new))
        limits.connections result }
    ensures faults { CountsFaults result (N.net_fault_count net.old) (N.net_fault_count net.new) }
{
    let caller = match net.caller() {
        Ok(caller) => caller,
        Err(fault) => return Err(fault),
    };
    let Ok(replicated) = serve_replica(
        rt, alloc, provider, access, limits, net, door, clock, gate, caller, upstream, rounds,
    ) else {
        return Err(NetFault::NoMemory);
    };
    let Replicated {
        provider,
        accepted,
        dial,
        end,
    } = replicated;
    discard(provider);
    net.let_go(dial);
    match accepted {
        Ok(()) => to_its_end(end),
        Err(fault) => Err(fault),
    }
}

/// Memory that following an upstream lacked is wanted in the end.
fn to_its_end(end: NodeEnd) -> Result<(), NetFault>
    ensures ok { OnOk result (HasMemory end) }
    ensures err { OnErr result (result ≡ Err NetFault.NoMemory) }
{
    match end {
        NodeEnd::NoMemory => Err(NetFault::NoMemory),
        NodeEnd::Rounds(_) => Ok(()),
        NodeEnd::LimitReached(_) => Ok(()),
    }
}
