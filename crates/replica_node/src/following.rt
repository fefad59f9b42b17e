//! What is done over one link.

ghost use Rattle.std.specs.Prelude.{◌≡◌, ◌≤◌, None};
ghost use Rattle.ldap_client.specs.Clients.{Asks, client_by, fresh};
ghost use Rattle.ldap_client.specs.Links.{link_by};
ghost use Rattle.ldap_filter.specs.FilterTree.{depth};
ghost use Rattle.ldap_messages.specs.Whole.{HasSpelling, message_octets, message_value};
ghost use Rattle.replica_node.specs.Following.{AsksOrEnds, EndsOver, IsCounted, TakesNext, TakesToEnd, cut_off, outcome_by, replica_at, round_at};
ghost use Rattle.replica_node.specs.Rounds.{wanted_by};

use crate::committing::take;
use crate::end::RoundOutcome;
use crate::reporting::report_client_fault;
use ldap_ber::discard;
use ldap_client::{Client, ClientFault};
use ldap_messages::Message;
use std::sync::Wait;
use sync_consumer::Consumer;
use sync_io::{Clock, Dial, Link};
use sync_messages::Mode;
use sync_provider::Port;

/// The message ID of the search of each round.
const SEARCH_ID: u32 = 1;

/// Asks for a search over a link, and follows it to the end of the round. What is staged then is
/// dropped.
pub(crate) fn follow<R: Wait, P: Port, L: Link, C: Clock, D: Dial>(
    rt: &R,
    dial: &D,
    port: &mut P,
    client: &mut Client<L>,
    consumer: &mut Consumer,
    clock: &mut C,
    stored: &mut u64,
) -> RoundOutcome
    requires counted { IsCounted (P.state port.old) stored.old }
    requires filter { depth consumer.old.spec.filter ≤ 32 }
    requires fresh { let state = link_by L.bytes_left L.bytes_read L.bytes_held
        L.read_fault_count L.write_fault_count in
        client_by state client.old ≡ fresh (client_by state client.old).link }
    ensures home { P.home port.new ≡ P.home port.old }
    ensures ends { let state = link_by L.bytes_left L.bytes_read L.bytes_held
        L.read_fault_count L.write_fault_count in
        EndsOver (record {
          wanted = wanted_by consumer.old;
          replica = replica_at consumer.old.copy (P.state port.old) stored.old;
          link = (client_by state client.old).link;
        })
        (round_at (client_by state client.new)
        (replica_at consumer.new.copy (P.state port.new) stored.new)) result }
    ensures counted { IsCounted (P.state port.new) stored.new }
    ensures wanted { wanted_by consumer.new ≡ wanted_by consumer.old }
{
    let outcome = follow_to_end(rt, dial, port, client, consumer, clock, stored);
    consumer.cut();
    outcome
}

/// Asks for a search, and takes its messages to the end of the round.
fn follow_to_end<R: Wait, P: Port, L: Link, C: Clock, D: Dial>(
    rt: &R,
    dial: &D,
    port: &mut P,
    client: &mut Client<L>,
    consumer: &mut Consumer,
    clock: &mut C,
    stored: &mut u64,
) -> RoundOutcome
    requires counted { IsCounted (P.state port.old) stored.old }
    requires filter { depth consumer.old.spec.filter ≤ 32 }
    requires fresh { let state = link_by L.bytes_left L.bytes_read L.bytes_held
        L.read_fault_count L.write_fault_count in
        client_by state client.old ≡ fresh (client_by state client.old).link }
    ensures home { P.home port.new ≡ P.home port.old }
    ensures ends { let state = link_by L.bytes_left L.bytes_read L.bytes_held
        L.read_fault_count L.write_fault_count in
        EndsOver (record {
          wanted = wanted_by consumer.old;
          replica = replica_at consumer.old.copy (P.state port.old) stored.old;
          link = (client_by state client.old).link;
        })
        (cut_off (round_at (client_by state client.new)
        (replica_at consumer.new.copy (P.state port.new) stored.new))) result }
    ensures counted { IsCounted (P.state port.new) stored.new }
    ensures wanted { wanted_by consumer.new ≡ wanted_by consumer.old }
{
    match ask(client, consumer) {
        None => take_all(rt, dial, port, client, consumer, clock, stored),
        Some(outcome) => outcome,
    }
}

/// Asks for the search. None where it was asked for.
fn ask<L: Link>(client: &mut Client<L>, consumer: &mut Consumer) -> Option<RoundOutcome>
    requires filter { depth consumer.old.spec.filter ≤ 32 }
    requires live { let state = link_by L.bytes_left L.bytes_read L.bytes_held
        L.read_fault_count L.write_fault_count in
        (client_by state client.old).fault ≡ None }
    ensures asks { let state = link_by L.bytes_left L.bytes_read L.bytes_held
        L.read_fault_count L.write_fault_count in
        AsksOrEnds (wanted_by consumer.old) (client_by state client.old) consumer.old.copy result
        (client_by state client.new) consumer.new.copy }
    ensures wanted { wanted_by consumer.new ≡ wanted_by consumer.old }
{
    let Ok(request) = consumer.request(SEARCH_ID, Mode::RefreshAndPersist) else {
        return Some(RoundOutcome::NoMemory);
    };
    match send(client, request) {
        Ok(()) => None,
        Err(fault) => Some(outcome_by(fault)),
    }
}

/// Writes a message, and drops it.
fn send<L: Link>(client: &mut Client<L>, message: Message) -> Result<(), ClientFault>
    requires spelled { HasSpelling (message_value message) }
    requires live { let state = link_by L.bytes_left L.bytes_read L.bytes_held
        L.read_fault_count L.write_fault_count in
        (client_by state client.old).fault ≡ None }
    ensures { let state = link_by L.bytes_left L.bytes_read L.bytes_held
        L.read_fault_count L.write_fault_count in
        Asks (message_octets (message_value message)) (client_by state client.old) result
        (client_by state client.new) }
{
    let asked = client.ask(&message);
    discard(message);
    asked
}

/// Takes the messages of the search to the end of the round.
fn take_all<R: Wait, P: Port, L: Link, C: Clock, D: Dial>(
    rt: &R,
    dial: &D,
    port: &mut P,
    client: &mut Client<L>,
    consumer: &mut Consumer,
    clock: &mut C,
    stored: &mut u64,
) -> RoundOutcome
    requires counted { IsCounted (P.state port.old) stored.old }
    requires live { let state = link_by L.bytes_left L.bytes_read L.bytes_held
        L.read_fault_count L.write_fault_count in
        (client_by state client.old).fault ≡ None }
    ensures home { P.home port.new ≡ P.home port.old }
    ensures takes { let state = link_by L.bytes_left L.bytes_read L.bytes_held
        L.read_fault_count L.write_fault_count in
        TakesToEnd (round_at (client_by state client.old)
        (replica_at consumer.old.copy (P.state port.old) stored.old)) result
        (round_at (client_by state client.new)
        (replica_at consumer.new.copy (P.state port.new) stored.new)) }
    ensures counted { IsCounted (P.state port.new) stored.new }
    ensures wanted { wanted_by consumer.new ≡ wanted_by consumer.old }
{
    for _ in rt.forever() {
        match take_next(rt, dial, port, client, consumer, clock, stored) {
            None => {}
            Some(outcome) => return outcome,
        }
    }
    unreachable!()
}

/// Takes the next message. None where the round goes on.
fn take_next<R: Wait, P: Port, L: Link, C: Clock, D: Dial>(
    rt: &R,
    dial: &D,
    port: &mut P,
    client: &mut Client<L>,
    consumer: &mut Consumer,
    clock: &mut C,
    stored: &mut u64,
) -> Option<RoundOutcome>
    requires counted { IsCounted (P.state port.old) stored.old }
    requires live { let state = link_by L.bytes_left L.bytes_read L.bytes_held
        L.read_fault_count L.write_fault_count in
        (client_by state client.old).fault ≡ None }
    ensures home { P.home port.new ≡ P.home port.old }
    ensures takes { let state = link_by L.bytes_left L.bytes_read L.bytes_held
        L.read_fault_count L.write_fault_count in
        TakesNext (round_at (client_by state client.old)
        (replica_at consumer.old.copy (P.state port.old) stored.old)) result
        (round_at (client_by state client.new)
        (replica_at consumer.new.copy (P.state port.new) stored.new)) }
    ensures counted { IsCounted (P.state port.new) stored.new }
    ensures wanted { wanted_by consumer.new ≡ wanted_by consumer.old }
    ensures live { let state = link_by L.bytes_left L.bytes_read L.bytes_held
        L.read_fault_count L.write_fault_count in
        result ≡ None → (client_by state client.new).fault ≡ None }
{
    match client.next(rt) {
        Ok(message) => {
            let outcome = take(dial, port, consumer, clock, &message, stored);
            discard(message);
            outcome
        }
        Err(fault) => {
            report_client_fault(dial, fault);
            Some(outcome_by(fault))
        }
    }
}

/// What comes after a fault of the client.
fn outcome_by(fault: ClientFault) -> RoundOutcome
    ensures { result ≡ outcome_by fault }
{
    match fault {
        ClientFault::NoMemory => RoundOutcome::NoMemory,
        ClientFault::ReadFault => RoundOutcome::Over,
        ClientFault::WriteFault => RoundOutcome::Over,
        ClientFault::PeerMessage(_) => RoundOutcome::Over,
        ClientFault::EndOfInput => RoundOutcome::Over,
    }
}
