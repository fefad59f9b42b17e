//! Rounds.

ghost use Rattle.std.specs.Prelude.{◌≡◌, ◌<◌, ◌≤◌, IfSome, length};
ghost use Rattle.ldap_client.specs.Links.{link_by};
ghost use Rattle.ldap_filter.specs.FilterTree.{depth};
ghost use Rattle.replica_node.specs.Following.{IsCounted, replica_at};
ghost use Rattle.replica_node.specs.ReplicaRounds.{FollowsLink, TriesRound};
ghost use Rattle.replica_node.specs.Rounds.{wanted_by};

use crate::end::RoundOutcome;
use crate::following::follow;
use ldap_client::Client;
use std::alloc::Global;
use std::sync::Wait;
use sync_consumer::Consumer;
use sync_io::{Clock, Dial, NetFault};
use sync_provider::Port;

/// Tries one connection, follows the search over its link, and hangs it up.
pub(crate) fn run_round<R: Wait, P: Port, D: Dial, C: Clock>(
    rt: &R,
    alloc: Global,
    port: &mut P,
    dial: &mut D,
    address: &str,
    consumer: &mut Consumer,
    clock: &mut C,
    stored: &mut u64,
) -> RoundOutcome
    requires counted { IsCounted (P.state port.old) stored.old }
    requires filter { depth consumer.old.spec.filter ≤ 32 }
    ensures round { let state = link_by D.Link.bytes_left D.Link.bytes_read D.Link.bytes_held
        D.Link.read_fault_count D.Link.write_fault_count in
        TriesRound state (wanted_by consumer.old) address.now
        (D.dialled dial.old) (replica_at consumer.old.copy (P.state port.old) stored.old) result
        (D.dialled dial.new) (replica_at consumer.new.copy (P.state port.new) stored.new) }
    ensures home { P.home port.new ≡ P.home port.old }
    ensures later { D.dial_fault_count dial.old ≤ D.dial_fault_count dial.new }
    ensures counted { IsCounted (P.state port.new) stored.new }
    ensures wanted { wanted_by consumer.new ≡ wanted_by consumer.old }
{
    match dial.connect(address) {
        Ok(link) => follow_over(rt, alloc, port, dial, link, consumer, clock, stored),
        Err(NetFault::Failed) => RoundOutcome::Over,
        Err(NetFault::NoMemory) => RoundOutcome::NoMemory,
    }
}

/// Follows the search over a link, and hangs it up.
fn follow_over<R: Wait, P: Port, D: Dial, C: Clock>(
    rt: &R,
    alloc: Global,
    port: &mut P,
    dial: &mut D,
    link: D::Link,
    consumer: &mut Consumer,
    clock: &mut C,
    stored: &mut u64,
) -> RoundOutcome
    requires counted { IsCounted (P.state port.old) stored.old }
    requires filter { depth consumer.old.spec.filter ≤ 32 }
    requires came { IfSome (D.dialled dial.old) (λ d. length d.hung_up < d.came) }
    ensures follows { let state = link_by D.Link.bytes_left D.Link.bytes_read D.Link.bytes_held
        D.Link.read_fault_count D.Link.write_fault_count in
        FollowsLink state (wanted_by consumer.old) link
        (D.dialled dial.old) (replica_at consumer.old.copy (P.state port.old) stored.old) result
        (D.dialled dial.new) (replica_at consumer.new.copy (P.state port.new) stored.new) }
    ensures home { P.home port.new ≡ P.home port.old }
    ensures later { D.dial_fault_count dial.old ≤ D.dial_fault_count dial.new }
    ensures counted { IsCounted (P.state port.new) stored.new }
    ensures wanted { wanted_by consumer.new ≡ wanted_by consumer.old }
{
    match Client::new(alloc, link) {
        Ok(client) => {
            let mut client = client;
            let outcome = follow(rt, &*dial, port, &mut client, consumer, clock, stored);
            dial.hang_up(client.into_link());
            outcome
        }
        Err((_, link)) => {
            dial.hang_up(link);
            consumer.cut();
            RoundOutcome::NoMemory
        }
    }
}
