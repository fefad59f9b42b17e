//! Searches over a net.

ghost use Rattle.std.specs.Prelude.{◌<◌, ◌≤◌, IfOk, IfSome, OnErr};
ghost use Rattle.entry_tree.specs.Selection.{search_of};
ghost use Rattle.ldap_client.specs.Links.{link_by};
ghost use Rattle.ldap_filter.specs.FilterTree.{depth, tree_of};
ghost use Rattle.ldap_search.specs.Calls.{CountsEndingFaults, Searches, SearchesInPart};
ghost use Rattle.ldap_search.specs.Talks.{output_by};

use crate::SearchEnd;
use crate::calling::call;
use entry_tree::Spec;
use ldap_ber::NoMemory;
use std::alloc::{AllocError, Global};
use std::sync::Wait;
use sync_io::{Net, NetFault, Sink};

/// Searches over one link to an address. Without a count the answer is printed: each entry as LDIF,
/// as it came, and last `result CODE`. With a count the search is followed: a line is printed for
/// each cookie that is stored, `stored entries E sha256 H`, and the session is ended after as many
/// of them; where the peer ends the search before, that is `result CODE`. It is `NoMemory` where
/// memory runs out; then what came of the net went back, and no text of what was printed is cut
/// off. It may wait.
pub fn search<R: Wait, O: Sink, N: Net>(
    rt: &R,
    alloc: Global,
    address: &str,
    spec: Spec,
    count: Option<u64>,
    output: &mut O,
    net: &mut N,
) -> Result<SearchEnd, NoMemory>
    requires filter { depth (tree_of spec.filter) ≤ 32 }
    requires some { IfSome count (λ wanted. 0 < wanted) }
    ensures searches { let state = link_by N.Caller.Link.bytes_left N.Caller.Link.bytes_read
        N.Caller.Link.bytes_held N.Caller.Link.read_fault_count N.Caller.Link.write_fault_count in
        let shown = output_by O.bytes_held O.write_fault_count in
        IfOk result (λ end. Searches state N.Caller.dialled address.now (search_of spec) count
        (N.served net.old) (shown output.old) end (N.served net.new) (shown output.new)) }
    ensures in_part { let state = link_by N.Caller.Link.bytes_left N.Caller.Link.bytes_read
        N.Caller.Link.bytes_held N.Caller.Link.read_fault_count N.Caller.Link.write_fault_count in
        let shown = output_by O.bytes_held O.write_fault_count in
        OnErr result (SearchesInPart state N.Caller.dialled address.now (search_of spec) count
        (N.served net.old) (shown output.old) (N.served net.new) (shown output.new)) }
    ensures faults { CountsEndingFaults result
        (O.write_fault_count output.old) (O.write_fault_count output.new)
        (N.net_fault_count net.old) (N.net_fault_count net.new) }
    ensures later { N.net_fault_count net.old ≤ N.net_fault_count net.new }
{
    match net.caller() {
        Ok(caller) => {
            let mut caller = caller;
            let end = call(rt, alloc, &mut caller, address, spec, count, output);
            net.retire(caller);
            end
        }
        Err(NetFault::Failed) => Ok(SearchEnd::NetFault),
        Err(NetFault::NoMemory) => Err(AllocError),
    }
}
