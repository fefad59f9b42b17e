//! What an operation asks for, by its kind.

ghost use Rattle.std.specs.Prelude.{◌≡◌};
ghost use Rattle.ldap_messages.specs.Operation.{operation_of};
ghost use Rattle.ldap_session.specs.Requests.{request_of, is_search, is_known, has_unknown_critical};
ghost use Rattle.ldap_session.specs.Shown.{shown};
ghost use Rattle.ldap_session.specs.declared.request.Request.TheVariants.{Response};

use ldap_ber::{Octets, OctetsList, discard};
use ldap_constants::{MANAGE_DSA_IT, SYNC_REQUEST};
use ldap_filter::Filter;
use ldap_messages::{Authentication, Control, Protocol, SearchScope};
use schema_rules::Change;

/// What a search is asked about.
#[derive(Drop)]
pub struct SearchParameters {
    pub base: Octets,
    pub scope: SearchScope,
    /// How many entries at most, or 0 for any number.
    pub size_limit: u32,
    pub types_only: bool,
    pub filter: Filter,
    /// The attributes that are asked for.
    pub selectors: OctetsList,
}

/// What an operation asks for.
#[derive(Drop)]
pub enum Request {
    /// The version, the name, and how the client says who it is.
    Bind(u8, Octets, Authentication),
    Unbind,
    Write(Change),
    /// The entry's name, and the assertion.
    Compare(Octets, Octets, Octets),
    Search(SearchParameters),
    /// The message ID of the operation that is to be abandoned.
    Abandon(i64),
    /// The object identifier of the operation, and its value.
    Extended(Octets, Option<Octets>),
    /// What only a server sends.
    Response,
}

/// What an operation asks for. How aliases are dereferenced and how long a search may take have no
/// effect.
#[tactic(auto, unfolding(ldap_messages::specs::Operation::operation_of, crate::specs::Requests::request_of))]
pub fn request_of(op: Protocol) -> Request
    ensures { shown result ≡ request_of (operation_of op) }
{
    match op {
        Protocol::BindRequest {
            version,
            name,
            authentication,
        } => Request::Bind(version, name, authentication),
        Protocol::UnbindRequest => Request::Unbind,
        Protocol::Write(change) => Request::Write(change),
        Protocol::SearchRequest(asked) => Request::Search(SearchParameters {
            base: asked.base,
            scope: asked.scope,
            size_limit: asked.size_limit,
            types_only: asked.types_only,
            filter: asked.filter,
            selectors: asked.attributes,
        }),
        Protocol::CompareRequest { entry, name, value } => Request::Compare(entry, name, value),
        Protocol::AbandonRequest(target) => Request::Abandon(target),
        Protocol::ExtendedRequest { name, value } => Request::Extended(name, value),
        Protocol::BindResponse { result, sasl } => response((result, sasl)),
        Protocol::SearchResultEntry { name, attributes } => response((name, attributes)),
        Protocol::SearchResultReference(uris) => response(uris),
        Protocol::ExtendedResponse {
            result,
            name,
            value,
        } => response((result, (name, value))),
        Protocol::IntermediateResponse { name, value } => response((name, value)),
        Protocol::SearchResultDone(result)
        | Protocol::ModifyResponse(result)
        | Protocol::AddResponse(result)
        | Protocol::DelResponse(result)
        | Protocol::ModifyDnResponse(result)
        | Protocol::CompareResponse(result) => response(result),
    }
}

/// What only a server sends, whatever it holds.
fn response<T: Drop>(parts: T) -> Request
    ensures { result ≡ Response }
{
    discard(parts);
    Request::Response
}

/// Whether some control is critical and not known for the request: ManageDsaIT is known for all,
/// Sync Request for searches.
pub fn has_unknown_critical(request: &Request, controls: &[Control]) -> bool
    ensures { result ≡ has_unknown_critical (is_search (shown request.now)) controls.now }
{
    any_unknown_critical(is_search(request), controls)
}

fn any_unknown_critical(searches: bool, controls: &[Control]) -> bool
    ensures { result ≡ has_unknown_critical searches controls.now }
{
    controls
        .iter()
        .any(|control| control.critical && !is_known(searches, control))
}

fn is_search(request: &Request) -> bool
    ensures { result ≡ is_search (shown request.now) }
{
    matches!(request, Request::Search(_))
}

fn is_known(searches: bool, control: &Control) -> bool
    ensures { result ≡ is_known searches control.now }
{
    let name = control.name.as_slice();
    name == MANAGE_DSA_IT || (searches && name == SYNC_REQUEST)
}
