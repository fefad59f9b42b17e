//! How one request is answered.

ghost use Rattle.std.specs.Prelude.{◌≡◌};
ghost use Rattle.ldap_server.specs.Encoding.{octets_to, response_to};
ghost use Rattle.ldap_server.specs.Points.{PerformedOrBegun, Sends};
ghost use Rattle.ldap_server.specs.Seen.{point_in};
ghost use Rattle.ldap_server.specs.Table.{Answer, RequestAnswer, is_tested, tested_code};
ghost use Rattle.ldap_session.specs.Acts.{end_by};
ghost use Rattle.ldap_session.specs.Shown.{shown};

use crate::binding::Bind;
use crate::comparing::Comparison;
use crate::response::Response;
use crate::session::Session;
use crate::writing::write_response;
use ldap_ber::{NoMemory, discard};
use ldap_constants::{PROTOCOL_ERROR, UNAVAILABLE_CRITICAL_EXTENSION};
use ldap_messages::Control;
use ldap_session::{Access, Ended, Request, has_unknown_critical};
use sync_provider::Port;

/// What a request came in: the ID and the controls of its message, and the time at which that came.
#[derive(Clone, Copy)]
pub(crate) struct Envelope<'a> {
    pub(crate) id: u32,
    pub(crate) controls: &'a [Control],
    pub(crate) now: u64,
}

/// How a request ends the session, if it does.
pub(crate) fn end_by(request: &Request) -> Option<Ended>
    ensures { result ≡ end_by (shown request.now) }
{
    match request {
        Request::Unbind => Some(Ended::Unbound),
        Request::Response => Some(Ended::ProtocolFault(0)),
        Request::Bind(_, _, _)
        | Request::Write(_)
        | Request::Compare(_, _, _)
        | Request::Search(_)
        | Request::Abandon(_)
        | Request::Extended(_, _) => None,
    }
}

/// Whether message ID and controls are tested: not of an Unbind, and what only a server sends is
/// refused before.
fn is_tested(request: &Request) -> bool
    ensures { result ≡ is_tested (shown request.now) }
{
    match request {
        Request::Unbind | Request::Response => false,
        Request::Bind(_, _, _)
        | Request::Write(_)
        | Request::Compare(_, _, _)
        | Request::Search(_)
        | Request::Abandon(_)
        | Request::Extended(_, _) => true,
    }
}

/// The kind of response that answers a request, if it has one.
fn response_to(request: &Request) -> Option<Response>
    ensures { result ≡ response_to (shown request.now) }
{
    match request {
        Request::Bind(_, _, _) => Some(Response::Bind),
        Request::Write(change) => Some(write_response(change)),
        Request::Compare(_, _, _) => Some(Response::Compare),
        Request::Search(_) => Some(Response::SearchDone),
        Request::Extended(_, _) => Some(Response::Extended),
        Request::Unbind | Request::Abandon(_) | Request::Response => None,
    }
}

impl<P: Port> Session<P> {
    /// The code that is tested first: protocolError where the message ID is that of an open search,
    /// unavailableCriticalExtension where a critical control is not known for the operation.
    fn tested_code(&self, id: u32, request: &Request, controls: &[Control]) -> Option<u32>
        ensures { result ≡ tested_code (point_in P.state self.now).session id (shown request.now)
            controls.now }
    {
        if !is_tested(request) {
            return None;
        }
        if self.search_with(id).is_some() {
            return Some(PROTOCOL_ERROR);
        }
        if has_unknown_critical(request, controls) {
            return Some(UNAVAILABLE_CRITICAL_EXTENSION);
        }
        None
    }

    /// Answers a request with this code, and does nothing else.
    fn refuse(&mut self, id: u32, response: Option<Response>, code: u32) -> Result<(), NoMemory>
        ensures port { self.new.port ≡ self.old.port }
        ensures sends { Sends (octets_to id response code)
            (point_in P.state self.old) result (point_in P.state self.new) }
    {
        match response {
            Some(response) => self.respond(id, response, code),
            None => Ok(()),
        }
    }

    /// Answers a request.
    pub(crate) fn answer_request(
        &mut self,
        access: &Access,
        envelope: &Envelope<'_>,
        request: Request,
    ) -> Result<(), NoMemory>
        ensures home { P.home self.new.port ≡ P.home self.old.port }
        ensures answer { PerformedOrBegun (Answer access.now envelope.entry.now.id (shown request)
            envelope.entry.now.controls.now envelope.entry.now.now)
            (point_in P.state self.old) result (point_in P.state self.new) }
    {
        match self.tested_code(envelope.id, &request, envelope.controls) {
            Some(code) => {
                let response = response_to(&request);
                discard(request);
                self.refuse(envelope.id, response, code)
            }
            None => self.answer_tested(access, envelope, request),
        }
    }

    /// Answers a request that both tests let pass.
    fn answer_tested(
        &mut self,
        access: &Access,
        envelope: &Envelope<'_>,
        request: Request,
    ) -> Result<(), NoMemory>
        ensures home { P.home self.new.port ≡ P.home self.old.port }
        ensures answer { PerformedOrBegun
            (RequestAnswer access.now envelope.entry.now.id (shown request)
            envelope.entry.now.controls.now envelope.entry.now.now)
            (point_in P.state self.old) result (point_in P.state self.new) }
    {
        let id = envelope.id;
        match request {
            Request::Bind(version, name, authentication) => {
                let bind = Bind {
                    version,
                    name,
                    authentication,
                };
                self.answer_bind(access, id, &bind)
            }
            Request::Write(change) => self.answer_write(access, id, &change, envelope.now),
            Request::Compare(entry, name, value) => {
                self.answer_comparison(id, &Comparison { entry, name, value })
            }
            Request::Search(search) => self.answer_search(id, search, envelope.controls),
            Request::Abandon(target) => {
                self.abandon(target);
                Ok(())
            }
            Request::Extended(name, value) => self.answer_extended(id, &name, &value),
            Request::Unbind => Ok(()),
            Request::Response => self.send_notice(),
        }
    }
}
