//! The operations (RFC 4511, section 4.1.1).
//!
//! ```text
//! protocolOp      CHOICE {
//!      bindRequest           BindRequest,
//!      bindResponse          BindResponse,
//!      unbindRequest         UnbindRequest,
//!      searchRequest         SearchRequest,
//!      searchResEntry        SearchResultEntry,
//!      searchResDone         SearchResultDone,
//!      searchResRef          SearchResultReference,
//!      modifyRequest         ModifyRequest,
//!      modifyResponse        ModifyResponse,
//!      addRequest            AddRequest,
//!      addResponse           AddResponse,
//!      delRequest            DelRequest,
//!      delResponse           DelResponse,
//!      modDNRequest          ModifyDNRequest,
//!      modDNResponse         ModifyDNResponse,
//!      compareRequest        CompareRequest,
//!      compareResponse       CompareResponse,
//!      abandonRequest        AbandonRequest,
//!      extendedReq           ExtendedRequest,
//!      extendedResp          ExtendedResponse,
//!      ...,
//!      intermediateResponse  IntermediateResponse }
//! ```

ghost use Rattle.std.specs.Prelude.{◌≡◌, true, Ok, OnOk};
ghost use Rattle.ldap_ber.specs.Writer.{after_bytes};
ghost use Rattle.ldap_ber.specs.Gives.{Gives};
ghost use Rattle.ldap_parts.specs.Faults.{ComponentFails};
ghost use Rattle.ldap_messages.specs.Operation.{operation_of, change_of, other_response_at, write_response_at, search_response_at, session_response_at, write_request_at, entry_request_at, operation_at, operation_octets, IsHeld};

use crate::abandon::abandon_of;
use crate::add::{add_of, put_add};
use crate::bind::{Authentication, bind_of, bind_response_of, put_bind, put_bind_response};
use crate::compare::{compare_of, put_compare};
use crate::delete::delete_of;
use crate::extended::{extended_of, extended_response_of, put_extended, put_extended_response};
use crate::intermediate::{intermediate_of, put_intermediate};
use crate::ldap_result::{LdapResult, put_response, response_of};
use crate::modify::{modify_of, put_modify};
use crate::modify_dn::{put_rename, rename_of};
use crate::search::{SearchRequest, entry_of, put_entry, put_search, reference_of, search_of};
use crate::unbind::{put_unbind, unbind_of};
use ldap_ber::{NoMemory, Octets, OctetsList, Reader, Writer};
use ldap_parts::{ComponentFault, put_strings};
use schema_rules::{Change, RawList};
use std::alloc::Global;

/// An operation.
#[derive(Drop)]
pub enum Protocol {
    BindRequest {
        /// 1 to 127.
        version: u8,
        name: Octets,
        authentication: Authentication,
    },
    BindResponse {
        result: LdapResult,
        sasl: Option<Octets>,
    },
    UnbindRequest,
    SearchRequest(SearchRequest),
    SearchResultEntry {
        name: Octets,
        attributes: RawList,
    },
    SearchResultDone(LdapResult),
    /// An AddRequest, DelRequest, ModifyRequest or ModifyDNRequest.
    Write(Change),
    ModifyResponse(LdapResult),
    AddResponse(LdapResult),
    DelResponse(LdapResult),
    ModifyDnResponse(LdapResult),
    CompareRequest {
        entry: Octets,
        name: Octets,
        value: Octets,
    },
    CompareResponse(LdapResult),
    /// The message ID of the operation that is to be abandoned.
    AbandonRequest(i64),
    /// One URI at least.
    SearchResultReference(OctetsList),
    ExtendedRequest {
        name: Octets,
        value: Option<Octets>,
    },
    ExtendedResponse {
        result: LdapResult,
        name: Option<Octets>,
        value: Option<Octets>,
    },
    IntermediateResponse {
        name: Option<Octets>,
        value: Option<Octets>,
    },
}

/// The operation that comes next.
#[tactic(auto, unfolding(crate::specs::Operation::operation_at))]
pub(crate) fn operation_of(alloc: Global, reader: &mut Reader) -> Result<Protocol, ComponentFault>
    ensures exact { Gives ComponentFails (λ op. Ok (operation_of op, reader.new.left)) result
        (operation_at reader.old.stop reader.old.left) }
    ensures stop { reader.new.stop ≡ reader.old.stop }
{
    if reader.has(0x60) {
        return bind_of(alloc, reader);
    }
    if reader.has(0x42) {
        return unbind_of(reader);
    }
    if reader.has(0x50) {
        return abandon_of(reader);
    }
    if reader.has(0x77) {
        return extended_of(alloc, reader);
    }
    entry_request_of(alloc, reader)
}

/// A question or a write that comes next, or what a server sends.
#[tactic(auto, unfolding(crate::specs::Operation::entry_request_at))]
fn entry_request_of(alloc: Global, reader: &mut Reader) -> Result<Protocol, ComponentFault>
    ensures exact { Gives ComponentFails (λ op. Ok (operation_of op, reader.new.left)) result
        (entry_request_at reader.old.stop reader.old.left) }
    ensures stop { reader.new.stop ≡ reader.old.stop }
{
    if reader.has(0x63) {
        return search_of(alloc, reader);
    }
    if reader.has(0x6E) {
        return compare_of(alloc, reader);
    }
    write_request_of(alloc, reader)
}

/// The write that comes next, or what a server sends.
#[tactic(auto, unfolding(crate::specs::Operation::write_request_at))]
fn write_request_of(alloc: Global, reader: &mut Reader) -> Result<Protocol, ComponentFault>
    ensures exact { Gives ComponentFails (λ op. Ok (operation_of op, reader.new.left)) result
        (write_request_at reader.old.stop reader.old.left) }
    ensures stop { reader.new.stop ≡ reader.old.stop }
{
    if reader.has(0x66) {
        return modify_of(alloc, reader);
    }
    if reader.has(0x68) {
        return add_of(alloc, reader);
    }
    if reader.has(0x4A) {
        return delete_of(alloc, reader);
    }
    if reader.has(0x6C) {
        return rename_of(alloc, reader);
    }
    session_response_of(alloc, reader)
}

/// What comes next of what a server sends.
#[tactic(auto, unfolding(crate::specs::Operation::session_response_at))]
fn session_response_of(alloc: Global, reader: &mut Reader) -> Result<Protocol, ComponentFault>
    ensures exact { Gives ComponentFails (λ op. Ok (operation_of op, reader.new.left)) result
        (session_response_at reader.old.stop reader.old.left) }
    ensures stop { reader.new.stop ≡ reader.old.stop }
{
    if reader.has(0x61) {
        return bind_response_of(alloc, reader);
    }
    if reader.has(0x78) {
        return extended_response_of(alloc, reader);
    }
    search_response_of(alloc, reader)
}

/// The answer to a search that comes next, or another response but those of a session.
#[tactic(auto, unfolding(crate::specs::Operation::search_response_at, crate::specs::Operation::operation_of))]
fn search_response_of(alloc: Global, reader: &mut Reader) -> Result<Protocol, ComponentFault>
    ensures exact { Gives ComponentFails (λ op. Ok (operation_of op, reader.new.left)) result
        (search_response_at reader.old.stop reader.old.left) }
    ensures stop { reader.new.stop ≡ reader.old.stop }
{
    if reader.has(0x64) {
        return entry_of(alloc, reader);
    }
    if reader.has(0x65) {
        return Ok(Protocol::SearchResultDone(response_of(alloc, reader, 0x65)?));
    }
    if reader.has(0x73) {
        return reference_of(alloc, reader);
    }
    write_response_of(alloc, reader)
}

/// The answer to a write that comes next, or one to a comparison, or an intermediate one.
#[tactic(auto, unfolding(crate::specs::Operation::write_response_at, crate::specs::Operation::operation_of))]
fn write_response_of(alloc: Global, reader: &mut Reader) -> Result<Protocol, ComponentFault>
    ensures exact { Gives ComponentFails (λ op. Ok (operation_of op, reader.new.left)) result
        (write_response_at reader.old.stop reader.old.left) }
    ensures stop { reader.new.stop ≡ reader.old.stop }
{
    if reader.has(0x67) {
        return Ok(Protocol::ModifyResponse(response_of(alloc, reader, 0x67)?));
    }
    if reader.has(0x69) {
        return Ok(Protocol::AddResponse(response_of(alloc, reader, 0x69)?));
    }
    if reader.has(0x6B) {
        return Ok(Protocol::DelResponse(response_of(alloc, reader, 0x6B)?));
    }
    if reader.has(0x6D) {
        return Ok(Protocol::ModifyDnResponse(response_of(alloc, reader, 0x6D)?));
    }
    other_response_of(alloc, reader)
}

/// The answer to a comparison that comes next, or else an intermediate response.
#[tactic(auto, unfolding(crate::specs::Operation::other_response_at, crate::specs::Operation::operation_of))]
fn other_response_of(alloc: Global, reader: &mut Reader) -> Result<Protocol, ComponentFault>
    ensures exact { Gives ComponentFails (λ op. Ok (operation_of op, reader.new.left)) result
        (other_response_at reader.old.stop reader.old.left) }
    ensures stop { reader.new.stop ≡ reader.old.stop }
{
    if reader.has(0x6F) {
        return Ok(Protocol::CompareResponse(response_of(alloc, reader, 0x6F)?));
    }
    intermediate_of(alloc, reader)
}

/// Writes an operation.
#[tactic(auto, unfolding(crate::specs::Operation::operation_of))]
pub(crate) fn put_operation(writer: &mut Writer, op: &Protocol) -> Result<(), NoMemory>
    ensures ok { OnOk result
        (writer.new ≡ after_bytes writer.old (operation_octets (operation_of op.now))) }
    ensures held { OnOk result (IsHeld (operation_of op.now)) }
{
    match op {
        Protocol::BindRequest {
            version,
            name,
            authentication,
        } => put_bind(writer, *version, name, authentication),
        Protocol::UnbindRequest => put_unbind(writer),
        Protocol::SearchRequest(asked) => put_search(writer, asked),
        Protocol::Write(change) => put_change(writer, change),
        Protocol::CompareRequest { entry, name, value } => put_compare(writer, entry, name, value),
        Protocol::AbandonRequest(id) => writer.integer(0x50, *id),
        Protocol::ExtendedRequest { name, value } => put_extended(writer, name, value),
        Protocol::BindResponse { result, sasl } => put_bind_response(writer, result, sasl),
        Protocol::SearchResultEntry { name, attributes } => {
            put_entry(writer, name, attributes.list())
        }
        Protocol::SearchResultDone(result) => put_response(writer, 0x65, result),
        Protocol::SearchResultReference(uris) => put_strings(writer, 0x73, uris.list()),
        Protocol::ModifyResponse(result) => put_response(writer, 0x67, result),
        Protocol::AddResponse(result) => put_response(writer, 0x69, result),
        Protocol::DelResponse(result) => put_response(writer, 0x6B, result),
        Protocol::ModifyDnResponse(result) => put_response(writer, 0x6D, result),
        Protocol::CompareResponse(result) => put_response(writer, 0x6F, result),
        Protocol::ExtendedResponse {
            result,
            name,
            value,
        } => put_extended_response(writer, result, name, value),
        Protocol::IntermediateResponse { name, value } => put_intermediate(writer, name, value),
    }
}

fn put_change(writer: &mut Writer, change: &Change) -> Result<(), NoMemory>
    ensures { OnOk result
        (writer.new ≡ after_bytes writer.old (operation_octets (change_of change.now))) }
{
    match change {
        Change::Add(name, attributes) => put_add(writer, name, attributes.list()),
        Change::Delete(name) => writer.octets(0x4A, name.as_slice()),
        Change::Modify(name, edits) => put_modify(writer, name, edits.list()),
        Change::Rename(name, rdn, goes, superior) => {
            put_rename(writer, name, rdn, *goes, superior)
        }
    }
}
