//! What a search asks for.

ghost use Rattle.std.specs.Prelude.{◌≡◌, ◌≤◌, IfOk};
ghost use Rattle.entry_tree.specs.Selection.{search_of};
ghost use Rattle.ldap_filter.specs.FilterTree.{depth, tree_of};
ghost use Rattle.ldap_messages.specs.Search.{scope_number};
ghost use Rattle.ldap_messages.specs.Whole.{HasSpelling, message_value};
ghost use Rattle.ldap_search.specs.Requests.{plain_request, unbind_request};
ghost use Rattle.sync_wire.specs.Requesting as wire;

use entry_tree::{Scope, Spec};
use ldap_ber::{NoMemory, OctetsList};
use ldap_messages::{ControlList, Message, Protocol, SearchRequest, SearchScope};
use std::alloc::Global;

/// The message ID of the search.
pub(crate) const SEARCH_ID: u32 = 1;

/// The request for the user attributes of what is selected, without limits and without a control.
#[tactic(auto, unfolding(ldap_messages::specs::Operation::operation_of))]
pub(crate) fn plain_request(alloc: Global, spec: &Spec) -> Result<Message, NoMemory>
    requires { depth (tree_of spec.now.filter) ≤ 32 }
    ensures request { IfOk result (λ message.
        message_value message ≡ plain_request (search_of spec.now)) }
    ensures spelled { IfOk result (λ message. HasSpelling (message_value message)) }
{
    let base = spec.base.write()?;
    let filter = spec.filter.copy()?;
    Ok(Message {
        id: SEARCH_ID,
        op: Protocol::SearchRequest(SearchRequest {
            base,
            scope: scope_of(spec.scope),
            deref: 0,
            size_limit: 0,
            time_limit: 0,
            types_only: false,
            filter,
            attributes: OctetsList::new(alloc),
        }),
        controls: ControlList::new(alloc),
    })
}

fn scope_of(scope: Scope) -> SearchScope
    ensures { scope_number result ≡ wire.scope_number scope }
{
    match scope {
        Scope::Base => SearchScope::Base,
        Scope::One => SearchScope::One,
        Scope::Sub => SearchScope::Sub,
    }
}

/// The message after the search, which ends the session (RFC 4511, section 4.3).
#[tactic(auto, unfolding(ldap_messages::specs::Operation::operation_of))]
pub(crate) fn unbind_request(alloc: Global) -> Message
    ensures request { message_value result ≡ unbind_request }
    ensures spelled { HasSpelling (message_value result) }
{
    Message {
        id: SEARCH_ID + 1,
        op: Protocol::UnbindRequest,
        controls: ControlList::new(alloc),
    }
}
