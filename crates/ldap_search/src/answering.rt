//! The answer to a search, printed as it comes.

ghost use Rattle.std.specs.Prelude.{◌≡◌, ◌≢◌, ◌≤◌, List, None, Some, IfOk, OnErr};
ghost use Rattle.entry_tree.specs.Selection.{search_of};
ghost use Rattle.ldap_client.specs.Clients.{client_by, fresh};
ghost use Rattle.ldap_client.specs.Links.{LinkState, link_by};
ghost use Rattle.ldap_filter.specs.FilterTree.{depth, tree_of};
ghost use Rattle.ldap_messages.specs.Operation.{operation_of};
ghost use Rattle.ldap_messages.specs.Whole.{MessageValue, message_value};
ghost use Rattle.ldap_search.specs.Answers.{part_of, part_of_operation};
ghost use Rattle.ldap_search.specs.Printing.{Prints};
ghost use Rattle.ldap_search.specs.Steps.{IsPrinted, PrintsNext, PrintsPart, StopsPrinting};
ghost use Rattle.ldap_search.specs.Talks.{
  Answers,
  AnswersInPart,
  AsksPlainly,
  AsksPlainlyInPart,
  OutputState,
  end_by,
  output_by,
};
ghost use Rattle.ldif_text.specs.Received.{received_text};

use crate::SearchEnd;
use crate::asking::send;
use crate::printing::{print, print_result};
use crate::requests::{SEARCH_ID, plain_request};
use entry_tree::Spec;
use ldap_ber::{NoMemory, Octets, discard};
use ldap_client::{Client, ClientFault};
use ldap_messages::{Message, Protocol};
use ldif_text::write_received;
use schema_rules::RawList;
use std::alloc::{AllocError, Global};
use std::sync::Wait;
use sync_io::{Link, Sink};

/// Asks for a search, and prints its answer to the end.
pub(crate) fn ask_plainly<R: Wait, L: Link, O: Sink>(
    rt: &R,
    alloc: Global,
    client: &mut Client<L>,
    spec: &Spec,
    output: &mut O,
) -> Result<SearchEnd, NoMemory>
    requires filter { depth (tree_of spec.now.filter) ≤ 32 }
    requires fresh { let state = link_by L.bytes_left L.bytes_read L.bytes_held
        L.read_fault_count L.write_fault_count in
        client_by state client.old ≡ fresh (client_by state client.old).link }
    ensures asks { let state = link_by L.bytes_left L.bytes_read L.bytes_held
        L.read_fault_count L.write_fault_count in
        let shown = output_by O.bytes_held O.write_fault_count in
        IfOk result (λ end. AsksPlainly (search_of spec.now) (client_by state client.old).link
        (client_by state client.new).link (shown output.old) end (shown output.new)) }
    ensures in_part { let state = link_by L.bytes_left L.bytes_read L.bytes_held
        L.read_fault_count L.write_fault_count in
        let shown = output_by O.bytes_held O.write_fault_count in
        OnErr result (AsksPlainlyInPart (search_of spec.now) (client_by state client.old).link
        (client_by state client.new).link (shown output.old) (shown output.new)) }
{
    let Ok(request) = plain_request(alloc, spec) else {
        return Err(AllocError);
    };
    match send(client, request) {
        Ok(()) => print_answer(rt, alloc, client, output),
        Err(fault) => last_by(fault),
    }
}

/// Prints the answer to a search to its end.
fn print_answer<R: Wait, L: Link, O: Sink>(
    rt: &R,
    alloc: Global,
    client: &mut Client<L>,
    output: &mut O,
) -> Result<SearchEnd, NoMemory>
    requires { let state = link_by L.bytes_left L.bytes_read L.bytes_held
        L.read_fault_count L.write_fault_count in
        (client_by state client.old).fault ≡ None }
    ensures answers { let state = link_by L.bytes_left L.bytes_read L.bytes_held
        L.read_fault_count L.write_fault_count in
        let shown = output_by O.bytes_held O.write_fault_count in
        IfOk result (λ end. (first : LinkState) (start : OutputState) (messages : List
        MessageValue) → IsPrinted first start messages (client_by state client.old) (shown
        output.old) → Answers first (client_by state client.new).link start end (shown
        output.new)) }
    ensures in_part { let state = link_by L.bytes_left L.bytes_read L.bytes_held
        L.read_fault_count L.write_fault_count in
        let shown = output_by O.bytes_held O.write_fault_count in
        OnErr result ((first : LinkState) (start : OutputState) (messages : List
        MessageValue) → IsPrinted first start messages (client_by state client.old) (shown
        output.old) → AnswersInPart first (client_by state client.new).link start (shown
        output.new)) }
    ensures held { let state = link_by L.bytes_left L.bytes_read L.bytes_held
        L.read_fault_count L.write_fault_count in
        (client_by state client.new).link.held ≡ (client_by state client.old).link.held }
{
    for _ in rt.forever() {
        match print_next(rt, alloc, client, output) {
            Ok(None) => {}
            Ok(Some(end)) => return Ok(end),
            Err(_) => return Err(AllocError),
        }
    }
    unreachable!()
}

/// Prints the next part of an answer. None where more of it comes.
fn print_next<R: Wait, L: Link, O: Sink>(
    rt: &R,
    alloc: Global,
    client: &mut Client<L>,
    output: &mut O,
) -> Result<Option<SearchEnd>, NoMemory>
    requires { let state = link_by L.bytes_left L.bytes_read L.bytes_held
        L.read_fault_count L.write_fault_count in
        (client_by state client.old).fault ≡ None }
    ensures prints { let state = link_by L.bytes_left L.bytes_read L.bytes_held
        L.read_fault_count L.write_fault_count in
        let shown = output_by O.bytes_held O.write_fault_count in
        PrintsNext (client_by state client.old) (shown output.old) result (client_by state
        client.new) (shown output.new) }
    ensures in_part { let state = link_by L.bytes_left L.bytes_read L.bytes_held
        L.read_fault_count L.write_fault_count in
        let shown = output_by O.bytes_held O.write_fault_count in
        OnErr result (StopsPrinting (client_by state client.old) (shown output.old)
        (client_by state client.new) (shown output.new)) }
    ensures live { let state = link_by L.bytes_left L.bytes_read L.bytes_held
        L.read_fault_count L.write_fault_count in
        IfOk result (λ end. end ≡ None → (client_by state client.new).fault ≡ None) }
    ensures held { let state = link_by L.bytes_left L.bytes_read L.bytes_held
        L.read_fault_count L.write_fault_count in
        (client_by state client.new).link.held ≡ (client_by state client.old).link.held }
{
    match client.next(rt) {
        Ok(message) => {
            let end = print_part(alloc, &message, output);
            discard(message);
            end
        }
        Err(fault) => end_by(fault),
    }
}

/// Prints a part of an answer. None where more of it comes.
fn print_part<O: Sink>(
    alloc: Global,
    message: &Message,
    output: &mut O,
) -> Result<Option<SearchEnd>, NoMemory>
    ensures prints { let shown = output_by O.bytes_held O.write_fault_count in
        PrintsPart (part_of (message_value message.now)) (shown output.old) result
        (shown output.new) }
    ensures unprinted { OnErr result (output.new ≡ output.old) }
{
    if message.id == SEARCH_ID {
        return print_operation(alloc, &message.op, output);
    }
    Ok(Some(SearchEnd::PeerFault))
}

/// Prints what an operation is of an answer. None where more of it comes.
fn print_operation<O: Sink>(
    alloc: Global,
    op: &Protocol,
    output: &mut O,
) -> Result<Option<SearchEnd>, NoMemory>
    ensures prints { let shown = output_by O.bytes_held O.write_fault_count in
        PrintsPart (part_of_operation (operation_of op.now)) (shown output.old) result
        (shown output.new) }
    ensures unprinted { OnErr result (output.new ≡ output.old) }
{
    match op {
        Protocol::SearchResultEntry { name, attributes } => {
            print_entry(alloc, name, attributes, output)
        }
        Protocol::SearchResultReference(_) => Ok(None),
        Protocol::SearchResultDone(result) => match print_result(alloc, result.code, output) {
            Ok(end) => Ok(Some(end)),
            Err(_) => Err(AllocError),
        },
        _ => Ok(Some(SearchEnd::PeerFault)),
    }
}

/// Prints an entry as LDIF, as it came.
fn print_entry<O: Sink>(
    alloc: Global,
    name: &Octets,
    attributes: &RawList,
    output: &mut O,
) -> Result<Option<SearchEnd>, NoMemory>
    ensures prints { IfOk result (λ end. Prints (received_text name.now attributes.now)
        (O.bytes_held output.old) (O.write_fault_count output.old) end
        (O.bytes_held output.new) (O.write_fault_count output.new)) }
    ensures unprinted { OnErr result (output.new ≡ output.old) }
{
    let text = write_received(alloc, name.as_slice(), attributes.list())?;
    Ok(print(output, &text))
}

/// How a search ends by a fault of its client.
fn last_by(fault: ClientFault) -> Result<SearchEnd, NoMemory>
    ensures ends { IfOk result (λ end. (fault ≢ ClientFault.NoMemory) × (end ≡ end_by fault)) }
    ensures memory { OnErr result (fault ≡ ClientFault.NoMemory) }
{
    match fault {
        ClientFault::ReadFault | ClientFault::WriteFault => Ok(SearchEnd::NetFault),
        ClientFault::PeerMessage(_) | ClientFault::EndOfInput => Ok(SearchEnd::PeerFault),
        ClientFault::NoMemory => Err(AllocError),
    }
}

/// The same where None says that the search goes on.
pub(crate) fn end_by(fault: ClientFault) -> Result<Option<SearchEnd>, NoMemory>
    ensures ends { IfOk result (λ end.
        (fault ≢ ClientFault.NoMemory) × (end ≡ Some (end_by fault))) }
    ensures memory { OnErr result (fault ≡ ClientFault.NoMemory) }
{
    let end = last_by(fault)?;
    Ok(Some(end))
}
