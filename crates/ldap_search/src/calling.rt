//! The one link of a search.

ghost use Rattle.std.specs.Prelude.{◌≡◌, ◌<◌, ◌≤◌, None, IfOk, IfSome, OnErr, length};
ghost use Rattle.entry_tree.specs.Selection.{search_of};
ghost use Rattle.ldap_client.specs.Clients.{client_by, fresh};
ghost use Rattle.ldap_client.specs.Links.{link_by};
ghost use Rattle.ldap_filter.specs.FilterTree.{depth, tree_of};
ghost use Rattle.ldap_search.specs.Calls.{
  CallsInPart,
  CallsOnce,
  CountsEndingFaults,
  HungUp,
  HungUpInPart,
  Talks,
  TalksInPart,
};
ghost use Rattle.ldap_search.specs.Talks.{output_by};

use crate::SearchEnd;
use crate::answering::ask_plainly;
use crate::following::follow;
use entry_tree::Spec;
use ldap_ber::NoMemory;
use ldap_client::Client;
use std::alloc::{AllocError, Global};
use std::sync::Wait;
use sync_io::{Dial, Link, NetFault, Sink};

/// Asks a dialler for a link, does the search over it, and hangs it up.
pub(crate) fn call<R: Wait, D: Dial, O: Sink>(
    rt: &R,
    alloc: Global,
    dial: &mut D,
    address: &str,
    spec: Spec,
    count: Option<u64>,
    output: &mut O,
) -> Result<SearchEnd, NoMemory>
    requires filter { depth (tree_of spec.filter) ≤ 32 }
    requires some { IfSome count (λ wanted. 0 < wanted) }
    ensures calls { let state = link_by D.Link.bytes_left D.Link.bytes_read D.Link.bytes_held
        D.Link.read_fault_count D.Link.write_fault_count in
        let shown = output_by O.bytes_held O.write_fault_count in
        IfOk result (λ end. CallsOnce state address.now (search_of spec) count (D.dialled
        dial.old) (shown output.old) end (D.dialled dial.new) (shown output.new)) }
    ensures in_part { let state = link_by D.Link.bytes_left D.Link.bytes_read D.Link.bytes_held
        D.Link.read_fault_count D.Link.write_fault_count in
        let shown = output_by O.bytes_held O.write_fault_count in
        OnErr result (CallsInPart state address.now (search_of spec) count (D.dialled
        dial.old) (shown output.old) (D.dialled dial.new) (shown output.new)) }
    ensures faults { CountsEndingFaults result
        (O.write_fault_count output.old) (O.write_fault_count output.new)
        (D.dial_fault_count dial.old) (D.dial_fault_count dial.new) }
    ensures later { D.dial_fault_count dial.old ≤ D.dial_fault_count dial.new }
{
    match dial.connect(address) {
        Ok(link) => search_over(rt, alloc, dial, link, spec, count, output),
        Err(NetFault::Failed) => Ok(SearchEnd::NetFault),
        Err(NetFault::NoMemory) => Err(AllocError),
    }
}

/// Does the search over a link, and hangs it up.
fn search_over<R: Wait, D: Dial, O: Sink>(
    rt: &R,
    alloc: Global,
    dial: &mut D,
    link: D::Link,
    spec: Spec,
    count: Option<u64>,
    output: &mut O,
) -> Result<SearchEnd, NoMemory>
    requires filter { depth (tree_of spec.filter) ≤ 32 }
    requires some { IfSome count (λ wanted. 0 < wanted) }
    requires came { IfSome (D.dialled dial.old) (λ d. length d.hung_up < d.came) }
    ensures hangs_up { let state = link_by D.Link.bytes_left D.Link.bytes_read D.Link.bytes_held
        D.Link.read_fault_count D.Link.write_fault_count in
        let shown = output_by O.bytes_held O.write_fault_count in
        IfOk result (λ end. HungUp state (search_of spec) count (state link)
        (shown output.old) end (shown output.new)
        (D.dialled dial.old) (D.dial_fault_count dial.old)
        (D.dialled dial.new) (D.dial_fault_count dial.new)) }
    ensures in_part { let state = link_by D.Link.bytes_left D.Link.bytes_read D.Link.bytes_held
        D.Link.read_fault_count D.Link.write_fault_count in
        let shown = output_by O.bytes_held O.write_fault_count in
        OnErr result (HungUpInPart state (search_of spec) count (state link)
        (shown output.old) (shown output.new)
        (D.dialled dial.old) (D.dial_fault_count dial.old)
        (D.dialled dial.new) (D.dial_fault_count dial.new)) }
    ensures later { D.dial_fault_count dial.old ≤ D.dial_fault_count dial.new }
{
    match Client::new(alloc, link) {
        Ok(client) => {
            let mut client = client;
            let end = talk(rt, alloc, &mut client, spec, count, output);
            dial.hang_up(client.into_link());
            end
        }
        Err((_, link)) => {
            dial.hang_up(link);
            Err(AllocError)
        }
    }
}

/// Does the search, with a count or without one.
fn talk<R: Wait, L: Link, O: Sink>(
    rt: &R,
    alloc: Global,
    client: &mut Client<L>,
    spec: Spec,
    count: Option<u64>,
    output: &mut O,
) -> Result<SearchEnd, NoMemory>
    requires filter { depth (tree_of spec.filter) ≤ 32 }
    requires some { IfSome count (λ wanted. 0 < wanted) }
    requires fresh { let state = link_by L.bytes_left L.bytes_read L.bytes_held
        L.read_fault_count L.write_fault_count in
        client_by state client.old ≡ fresh (client_by state client.old).link }
    ensures talks { let state = link_by L.bytes_left L.bytes_read L.bytes_held
        L.read_fault_count L.write_fault_count in
        let shown = output_by O.bytes_held O.write_fault_count in
        IfOk result (λ end. Talks (search_of spec) count (client_by state client.old).link
        (client_by state client.new).link (shown output.old) end (shown output.new)) }
    ensures in_part { let state = link_by L.bytes_left L.bytes_read L.bytes_held
        L.read_fault_count L.write_fault_count in
        let shown = output_by O.bytes_held O.write_fault_count in
        OnErr result (TalksInPart (search_of spec) count (client_by state client.old).link
        (client_by state client.new).link (shown output.old) (shown output.new)) }
{
    match count {
        Some(count) => follow(rt, alloc, client, spec, count, output),
        None => ask_plainly(rt, alloc, client, &spec, output),
    }
}
