//! A search that is followed with content synchronisation, up to a number of stored cookies.

ghost use Rattle.std.specs.Prelude.{◌≡◌, ◌<◌, ◌≤◌, None, Some, IfOk, OnErr};
ghost use Rattle.entry_tree.specs.Selection.{search_of};
ghost use Rattle.ldap_client.specs.Clients.{client_by, fresh};
ghost use Rattle.ldap_client.specs.Links.{link_by};
ghost use Rattle.ldap_filter.specs.FilterTree.{depth, tree_of};
ghost use Rattle.ldap_messages.specs.Whole.{message_octets};
ghost use Rattle.ldap_search.specs.Requests.{unbind_request};
ghost use Rattle.ldap_search.specs.Steps.{
  EndsBy,
  FollowsNext,
  IsUnwritten,
  StartsFollowing,
  StopsBy,
  StopsFollowing,
  StopsStoring,
  StoresOne,
  Unbinds,
};
ghost use Rattle.ldap_search.specs.Talks.{
  AsksToFollow,
  AsksToFollowInPart,
  IsLinkSound,
  output_by,
};

use crate::SearchEnd;
use crate::answering::end_by;
use crate::asking::send;
use crate::printing::{print, print_last, print_result, stored_line};
use crate::requests::{SEARCH_ID, unbind_request};
use cascade_report::DigestedConsumer;
use entry_tree::Spec;
use ldap_ber::{NoMemory, discard};
use ldap_client::Client;
use std::alloc::{AllocError, Global};
use std::sync::Wait;
use sync_consumer::{Consumer, Taken};
use sync_io::{Link, Sink};
use sync_messages::Mode;

/// Follows a search up to its end, or to this many stored cookies.
pub(crate) fn follow<R: Wait, L: Link, O: Sink>(
    rt: &R,
    alloc: Global,
    client: &mut Client<L>,
    spec: Spec,
    count: u64,
    output: &mut O,
) -> Result<SearchEnd, NoMemory>
    requires filter { depth (tree_of spec.filter) ≤ 32 }
    requires some { 0 < count }
    requires fresh { let state = link_by L.bytes_left L.bytes_read L.bytes_held
        L.read_fault_count L.write_fault_count in
        client_by state client.old ≡ fresh (client_by state client.old).link }
    ensures asks { let state = link_by L.bytes_left L.bytes_read L.bytes_held
        L.read_fault_count L.write_fault_count in
        let shown = output_by O.bytes_held O.write_fault_count in
        IfOk result (λ end. AsksToFollow (search_of spec) count (client_by state client.old).link
        (client_by state client.new).link (shown output.old) end (shown output.new)) }
    ensures in_part { let state = link_by L.bytes_left L.bytes_read L.bytes_held
        L.read_fault_count L.write_fault_count in
        let shown = output_by O.bytes_held O.write_fault_count in
        OnErr result (AsksToFollowInPart (search_of spec) count (client_by state client.old).link
        (client_by state client.new).link (shown output.old) (shown output.new)) }
{
    let mut consumer = DigestedConsumer::new(Consumer::new(alloc, spec, false)?);
    match ask(client, &mut consumer) {
        Ok(None) => {}
        Ok(Some(end)) => return Ok(end),
        Err(_) => return Err(AllocError),
    }
    let mut wanted = count;
    for _ in rt.forever() {
        match follow_next(rt, alloc, client, &mut consumer, &mut wanted, output) {
            Ok(None) => {}
            Ok(Some(end)) => return Ok(end),
            Err(_) => return Err(AllocError),
        }
    }
    unreachable!()
}

/// Asks for the search. None where it was asked.
fn ask<L: Link>(
    client: &mut Client<L>,
    consumer: &mut DigestedConsumer,
) -> Result<Option<SearchEnd>, NoMemory>
    requires filter { depth consumer.old.spec.filter ≤ 32 }
    requires live { let state = link_by L.bytes_left L.bytes_read L.bytes_held
        L.read_fault_count L.write_fault_count in
        (client_by state client.old).fault ≡ None }
    ensures starts { let state = link_by L.bytes_left L.bytes_read L.bytes_held
        L.read_fault_count L.write_fault_count in
        StartsFollowing (client_by state client.old) consumer.old result (client_by state
        client.new) consumer.new }
    ensures unwritten { let state = link_by L.bytes_left L.bytes_read L.bytes_held
        L.read_fault_count L.write_fault_count in
        OnErr result
        (((client_by state client.new).link.held ≡ (client_by state client.old).link.held)
        × IsLinkSound (client_by state client.old).link (client_by state client.new).link) }
{
    let Ok(request) = consumer.request(SEARCH_ID, Mode::RefreshAndPersist) else {
        return Err(AllocError);
    };
    match send(client, request) {
        Ok(()) => Ok(None),
        Err(fault) => end_by(fault),
    }
}

/// Takes the next message. None where the search goes on.
fn follow_next<R: Wait, L: Link, O: Sink>(
    rt: &R,
    alloc: Global,
    client: &mut Client<L>,
    consumer: &mut DigestedConsumer,
    wanted: &mut u64,
    output: &mut O,
) -> Result<Option<SearchEnd>, NoMemory>
    requires some { 0 < wanted.old }
    requires live { let state = link_by L.bytes_left L.bytes_read L.bytes_held
        L.read_fault_count L.write_fault_count in
        (client_by state client.old).fault ≡ None }
    ensures follows { let state = link_by L.bytes_left L.bytes_read L.bytes_held
        L.read_fault_count L.write_fault_count in
        let shown = output_by O.bytes_held O.write_fault_count in
        FollowsNext wanted.old (client_by state client.old) consumer.old (shown output.old) result
        wanted.new (client_by state client.new) consumer.new (shown output.new) }
    ensures in_part { let state = link_by L.bytes_left L.bytes_read L.bytes_held
        L.read_fault_count L.write_fault_count in
        let shown = output_by O.bytes_held O.write_fault_count in
        OnErr result (StopsFollowing wanted.old (client_by state client.old) consumer.old
        (shown output.old) (client_by state client.new) (shown output.new)) }
    ensures live { let state = link_by L.bytes_left L.bytes_read L.bytes_held
        L.read_fault_count L.write_fault_count in
        IfOk result (λ end. end ≡ None → (client_by state client.new).fault ≡ None) }
    ensures some { IfOk result (λ end. end ≡ None → 0 < wanted.new) }
{
    match client.next(rt) {
        Ok(message) => {
            let taken = consumer.take(&message);
            discard(message);
            end_of(alloc, client, consumer, taken, wanted, output)
        }
        Err(fault) => end_by(fault),
    }
}

/// How what came of a message ends the search. None where it goes on.
fn end_of<L: Link, O: Sink>(
    alloc: Global,
    client: &mut Client<L>,
    consumer: &mut DigestedConsumer,
    taken: Taken,
    wanted: &mut u64,
    output: &mut O,
) -> Result<Option<SearchEnd>, NoMemory>
    requires some { 0 < wanted.old }
    requires live { let state = link_by L.bytes_left L.bytes_read L.bytes_held
        L.read_fault_count L.write_fault_count in
        (client_by state client.old).fault ≡ None }
    ensures same { consumer.new ≡ consumer.old }
    ensures ends { let state = link_by L.bytes_left L.bytes_read L.bytes_held
        L.read_fault_count L.write_fault_count in
        let shown = output_by O.bytes_held O.write_fault_count in
        EndsBy taken consumer.old.copy wanted.old (client_by state client.old) (shown output.old)
        result wanted.new (client_by state client.new) (shown output.new) }
    ensures in_part { let state = link_by L.bytes_left L.bytes_read L.bytes_held
        L.read_fault_count L.write_fault_count in
        let shown = output_by O.bytes_held O.write_fault_count in
        OnErr result (StopsBy taken consumer.old.copy wanted.old (client_by state client.old)
        (shown output.old) (client_by state client.new) (shown output.new)) }
{
    match taken {
        Taken::Staged | Taken::Copied(_) => Ok(None),
        Taken::Stored(_) => print_stored(alloc, client, consumer, wanted, output),
        Taken::Over(code) => match print_result(alloc, code, output) {
            Ok(end) => Ok(Some(end)),
            Err(_) => Err(AllocError),
        },
        Taken::Fault(_) => Ok(Some(SearchEnd::PeerFault)),
        Taken::NoMemory => Err(AllocError),
    }
}

/// Prints the line of a stored cookie. After the last that is wanted the session is ended.
fn print_stored<L: Link, O: Sink>(
    alloc: Global,
    client: &mut Client<L>,
    consumer: &mut DigestedConsumer,
    wanted: &mut u64,
    output: &mut O,
) -> Result<Option<SearchEnd>, NoMemory>
    requires some { 0 < wanted.old }
    requires live { let state = link_by L.bytes_left L.bytes_read L.bytes_held
        L.read_fault_count L.write_fault_count in
        (client_by state client.old).fault ≡ None }
    ensures same { consumer.new ≡ consumer.old }
    ensures stores { let state = link_by L.bytes_left L.bytes_read L.bytes_held
        L.read_fault_count L.write_fault_count in
        let shown = output_by O.bytes_held O.write_fault_count in
        StoresOne consumer.old.copy wanted.old (client_by state client.old) (shown output.old)
        result wanted.new (client_by state client.new) (shown output.new) }
    ensures in_part { let state = link_by L.bytes_left L.bytes_read L.bytes_held
        L.read_fault_count L.write_fault_count in
        let shown = output_by O.bytes_held O.write_fault_count in
        OnErr result (StopsStoring consumer.old.copy wanted.old (client_by state client.old)
        (shown output.old) (client_by state client.new) (shown output.new)) }
{
    let line = stored_line(alloc, consumer)?;
    if 1 < *wanted {
        *wanted -= 1;
        return Ok(print(output, line.as_bytes()));
    }
    match print_last(output, line.as_bytes()) {
        SearchEnd::Done => unbind(alloc, client),
        end => Ok(Some(end)),
    }
}

/// Ends the session (RFC 4511, section 4.3).
fn unbind<L: Link>(alloc: Global, client: &mut Client<L>) -> Result<Option<SearchEnd>, NoMemory>
    requires live { let state = link_by L.bytes_left L.bytes_read L.bytes_held
        L.read_fault_count L.write_fault_count in
        (client_by state client.old).fault ≡ None }
    ensures unbinds { let state = link_by L.bytes_left L.bytes_read L.bytes_held
        L.read_fault_count L.write_fault_count in
        Unbinds (client_by state client.old) result (client_by state client.new) }
    ensures unwritten { let state = link_by L.bytes_left L.bytes_read L.bytes_held
        L.read_fault_count L.write_fault_count in
        OnErr result (IsUnwritten (message_octets unbind_request) (client_by state client.old)
        (client_by state client.new)) }
{
    match send(client, unbind_request(alloc)) {
        Ok(()) => Ok(Some(SearchEnd::Done)),
        Err(fault) => end_by(fault),
    }
}
