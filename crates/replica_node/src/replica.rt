//! A replica that follows an upstream, round after round.

ghost use Rattle.std.specs.Prelude.{◌≡◌, ◌≤◌, IfOk};
ghost use Rattle.entry_tree.specs.Selection.{search_of};
ghost use Rattle.ldap_client.specs.Links.{link_by};
ghost use Rattle.ldap_filter.specs.FilterTree.{depth, tree_of};
ghost use Rattle.replica_node.specs.Replicas.{Follows};
ghost use Rattle.replica_node.specs.Rounds.{wanted_by};
ghost use Rattle.sync_consumer.specs.Taking as taking;

use crate::NodeEnd;
use crate::end::RoundOutcome;
use crate::round::run_round;
use entry_tree::Spec;
use ldap_ber::NoMemory;
use std::alloc::Global;
use std::sync::Wait;
use sync_config::Upstream;
use sync_consumer::Consumer;
use sync_io::{Clock, Dial};
use sync_provider::Port;

/// Follows an upstream: connects to it, asks for what is wanted with refreshAndPersist and the
/// cookie that is held, and commits each stage that took effect, until this many connections were
/// tried; 0 stands for no end. A commit that would pass a limit of the directory ends it before,
/// and so does memory that runs out; each commit is made whole or not at all. After
/// e-syncRefreshRequired the cookie is lost (RFC 4533, section 2.6). It may wait.
pub fn run_replica<R: Wait, P: Port, D: Dial, C: Clock>(
    rt: &R,
    alloc: Global,
    port: &mut P,
    dial: &mut D,
    clock: C,
    upstream: &Upstream,
    rounds: u64,
) -> NodeEnd
    requires { depth (tree_of upstream.now.spec.filter) ≤ 32 }
    ensures home { P.home port.new ≡ P.home port.old }
    ensures follows { let state = link_by D.Link.bytes_left D.Link.bytes_read D.Link.bytes_held
        D.Link.read_fault_count D.Link.write_fault_count in
        Follows state upstream.now.address
        (record { spec = search_of upstream.now.spec; reload = upstream.now.reload_hint }) rounds
        (P.state port.old) (D.dialled dial.old) result (P.state port.new) (D.dialled dial.new) }
    ensures later { D.dial_fault_count dial.old ≤ D.dial_fault_count dial.new }
{
    let address = upstream.address.as_str();
    match consumer_of(alloc, upstream) {
        Ok(consumer) => {
            let mut consumer = consumer;
            let mut clock = clock;
            run_rounds(
                rt,
                alloc,
                port,
                dial,
                &mut clock,
                address,
                &mut consumer,
                rounds,
            )
        }
        Err(_) => NodeEnd::NoMemory,
    }
}

/// Tries one connection after another.
fn run_rounds<R: Wait, P: Port, D: Dial, C: Clock>(
    rt: &R,
    alloc: Global,
    port: &mut P,
    dial: &mut D,
    clock: &mut C,
    address: &str,
    consumer: &mut Consumer,
    rounds: u64,
) -> NodeEnd
    requires filter { depth consumer.old.spec.filter ≤ 32 }
    requires empty { consumer.old.copy ≡ taking.nothing }
    ensures home { P.home port.new ≡ P.home port.old }
    ensures follows { let state = link_by D.Link.bytes_left D.Link.bytes_read D.Link.bytes_held
        D.Link.read_fault_count D.Link.write_fault_count in
        Follows state address.now (wanted_by consumer.old) rounds
        (P.state port.old) (D.dialled dial.old) result (P.state port.new) (D.dialled dial.new) }
    ensures later { D.dial_fault_count dial.old ≤ D.dial_fault_count dial.new }
{
    let mut tried: u64 = 0;
    let mut stored: u64 = 0;
    for _ in rt.forever() {
        if rounds != 0 && tried == rounds {
            return NodeEnd::Rounds(stored);
        }
        tried = tried.saturating_add(1);
        match run_round(rt, alloc, port, dial, address, consumer, clock, &mut stored) {
            RoundOutcome::Over => {}
            RoundOutcome::LimitReached(limit) => return NodeEnd::LimitReached(limit),
            RoundOutcome::NoMemory => return NodeEnd::NoMemory,
        }
    }
    unreachable!()
}

/// An empty copy of what is wanted.
fn consumer_of(alloc: Global, upstream: &Upstream) -> Result<Consumer, NoMemory>
    ensures { IfOk result (λ consumer. consumer ≡ record {
      spec = search_of upstream.now.spec;
      reload = upstream.now.reload_hint;
      copy = taking.nothing;
    }) }
{
    let spec = copy_of_spec(&upstream.spec)?;
    Consumer::new(alloc, spec, upstream.reload_hint)
}

fn copy_of_spec(spec: &Spec) -> Result<Spec, NoMemory>
    ensures { IfOk result (λ copy. search_of copy ≡ search_of spec.now) }
{
    Ok(Spec {
        base: spec.base.copy()?,
        scope: spec.scope,
        filter: spec.filter.copy()?,
    })
}
