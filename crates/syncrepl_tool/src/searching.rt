//! How a search is asked over a net.

ghost use Rattle.std.specs.Prelude.{◌≡◌, ◌≢◌, ◌<◌, Ok, IfOk, IfSome, OnErr};
ghost use Rattle.dn_names.specs.Reading.{name_of_text};
ghost use Rattle.ldap_client.specs.Links.{link_by};
ghost use Rattle.syncrepl_tool.specs.SearchWords.{CanBeAsked, ReadsAs, SaysEnd, asked_by};
ghost use Rattle.syncrepl_tool.specs.Searching.{
  EndsSearch,
  filter_fault_text,
  name_fault_text,
  peer_fault_text,
  search_side,
};
ghost use Rattle.syncrepl_tool.specs.Texts.{Says};

use crate::run::{Status, end_with, write_fault};
use crate::search_words::SearchWords;
use crate::serve::net_fault;
use dn_names::{Dn, NameFault};
use entry_tree::Spec;
use ldap_ber::NoMemory;
use ldap_filter::{Filter, FilterFault};
use ldap_search::{SearchEnd, search};
use std::alloc::{AllocError, Global};
use std::sync::Wait;
use sync_io::{Net, Sink};

/// What the texts of a search are read as.
#[derive(Drop)]
enum Reading {
    Wanted(Spec),
    NoName(NameFault),
    NoFilter(FilterFault),
}

/// Asks a search over a net, and prints its answer or what it stores.
pub(crate) fn search_for<R: Wait, O: Sink, E: Sink, N: Net>(
    rt: &R,
    alloc: Global,
    asked: SearchWords<'_>,
    output: &mut O,
    errors: &mut E,
    net: &mut N,
) -> Result<Status, NoMemory>
    requires some { IfSome asked.count (λ wanted. 0 < wanted) }
    ensures searches { EndsSearch
        (link_by N.Caller.Link.bytes_left N.Caller.Link.bytes_read N.Caller.Link.bytes_held
        N.Caller.Link.read_fault_count N.Caller.Link.write_fault_count)
        N.Caller.dialled (asked_by asked.entry)
        (search_side (O.bytes_held output.old) (O.write_fault_count output.old)
        (E.bytes_held errors.old) (E.write_fault_count errors.old)
        (N.served net.old) (N.net_fault_count net.old))
        (search_side (O.bytes_held output.new) (O.write_fault_count output.new)
        (E.bytes_held errors.new) (E.write_fault_count errors.new)
        (N.served net.new) (N.net_fault_count net.new))
        result }
    // Where there is no memory nothing was said.
    ensures unsaid { OnErr result (errors.new ≡ errors.old) }
{
    let reading = read_texts(alloc, &asked)?;
    match reading {
        Reading::Wanted(spec) => {
            match search(rt, alloc, asked.address, spec, asked.count, output, net) {
                Ok(end) => Ok(say_end(end, errors)),
                Err(_) => Err(AllocError),
            }
        }
        Reading::NoName(fault) => Ok(refuse_name(fault, errors)),
        Reading::NoFilter(fault) => Ok(refuse_filter(fault, errors)),
    }
}

/// Reads the base, and then the filter.
fn read_texts(alloc: Global, asked: &SearchWords<'_>) -> Result<Reading, NoMemory>
    ensures reads { IfOk result (ReadsAs (asked_by asked.now)) }
    ensures askable { IfOk result CanBeAsked }
{
    match Dn::parse(alloc, asked.base.as_bytes()) {
        Ok(base) => read_filter(alloc, base, asked),
        Err(fault) => no_name(fault),
    }
}

/// What a base is read as that is refused.
fn no_name(fault: NameFault) -> Result<Reading, NoMemory>
    ensures { IfOk result (λ reading.
        (fault ≢ NameFault.NoMemory) × (reading ≡ Reading.NoName fault)) }
{
    match fault {
        NameFault::NoMemory => Err(AllocError),
        fault => Ok(Reading::NoName(fault)),
    }
}

/// Reads the filter.
fn read_filter(alloc: Global, base: Dn, asked: &SearchWords<'_>) -> Result<Reading, NoMemory>
    requires { name_of_text (asked_by asked.now).base ≡ Ok base }
    ensures reads { IfOk result (ReadsAs (asked_by asked.now)) }
    ensures askable { IfOk result CanBeAsked }
{
    match Filter::read_text(alloc, asked.filter.as_bytes()) {
        Ok(filter) => Ok(Reading::Wanted(Spec {
            base,
            scope: asked.scope,
            filter,
        })),
        Err(fault) => no_filter(fault),
    }
}

/// What a filter is read as that is refused.
fn no_filter(fault: FilterFault) -> Result<Reading, NoMemory>
    ensures { IfOk result (λ reading.
        (fault ≢ FilterFault.NoMemory) × (reading ≡ Reading.NoFilter fault)) }
{
    match fault {
        FilterFault::NoMemory => Err(AllocError),
        fault => Ok(Reading::NoFilter(fault)),
    }
}

/// Says how a search ended, and gives its status.
fn say_end<E: Sink>(end: SearchEnd, errors: &mut E) -> Status
    ensures { SaysEnd end result.code
        (E.bytes_held errors.old) (E.bytes_held errors.new)
        (E.write_fault_count errors.old) (E.write_fault_count errors.new) }
{
    match end {
        SearchEnd::Done => Status { code: 0 },
        SearchEnd::OutputFault => write_fault(errors),
        SearchEnd::NetFault => net_fault(errors),
        SearchEnd::PeerFault => peer_fault(errors),
    }
}

#[tactic(auto, unfolding(crate::specs::Searching::peer_fault_text))]
fn peer_fault<E: Sink>(errors: &mut E) -> Status
    ensures code { result.code ≡ 9 }
    ensures says { Says peer_fault_text
        (E.bytes_held errors.old) (E.bytes_held errors.new)
        (E.write_fault_count errors.old) (E.write_fault_count errors.new) }
{
    end_with(errors, b"syncrepl: peer fault\n", 9)
}

/// Says why a base is refused.
#[tactic(auto, unfolding(crate::specs::Searching::name_fault_text))]
fn refuse_name<E: Sink>(fault: NameFault, errors: &mut E) -> Status
    ensures code { result.code ≡ 3 }
    ensures says { Says (name_fault_text fault)
        (E.bytes_held errors.old) (E.bytes_held errors.new)
        (E.write_fault_count errors.old) (E.write_fault_count errors.new) }
{
    match fault {
        NameFault::BadName(_) => end_with(errors, b"syncrepl: name: BadName\n", 3),
        NameFault::UnknownType(_) => end_with(errors, b"syncrepl: name: UnknownType\n", 3),
        NameFault::TooLong(_) => end_with(errors, b"syncrepl: name: TooLong\n", 3),
        NameFault::NoMemory => end_with(errors, b"syncrepl: name: NoMemory\n", 3),
    }
}

/// Says why a filter is refused.
#[tactic(auto, unfolding(crate::specs::Searching::filter_fault_text))]
fn refuse_filter<E: Sink>(fault: FilterFault, errors: &mut E) -> Status
    ensures code { result.code ≡ 3 }
    ensures says { Says (filter_fault_text fault)
        (E.bytes_held errors.old) (E.bytes_held errors.new)
        (E.write_fault_count errors.old) (E.write_fault_count errors.new) }
{
    match fault {
        FilterFault::BadFilter(_) => end_with(errors, b"syncrepl: filter: BadFilter\n", 3),
        FilterFault::TooDeep => end_with(errors, b"syncrepl: filter: TooDeep\n", 3),
        FilterFault::NoText => end_with(errors, b"syncrepl: filter: NoText\n", 3),
        FilterFault::NoMemory => end_with(errors, b"syncrepl: filter: NoMemory\n", 3),
    }
}
