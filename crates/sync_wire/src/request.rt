//! The request of a search (RFC 4511, section 4.5.1; RFC 4533, section 2.2).

ghost use Rattle.std.specs.Prelude.{◌≡◌, [], ◌∷◌, codes, Ok, IfOk};
ghost use Rattle.entry_tree.specs.Selection.{search_of};
ghost use Rattle.ldap_messages.specs.Search.{scope_number};
ghost use Rattle.ldap_messages.specs.Whole.{message_value};
ghost use Rattle.sync_messages.specs.Request.{request_of, request_octets};
ghost use Rattle.sync_wire.specs.Requesting as spec;

use entry_tree::{Scope, Spec};
use ldap_ber::{NoMemory, Octets, OctetsList};
use ldap_constants::SYNC_REQUEST;
use ldap_messages::{Control, ControlList, Message, Protocol, SearchRequest, SearchScope};
use std::alloc::Global;
use sync_messages::SyncRequest;

/// The request for what is wanted, with all attributes and without limits (RFC 4533, section 2.2).
/// It is `NoMemory` where memory runs out.
#[tactic(auto, using(crate::proofs::Operations::search_operation))]
pub fn search_request(
    alloc: Global,
    id: u32,
    wanted: &Spec,
    sync: &SyncRequest,
) -> Result<Message, NoMemory>
    ensures message { IfOk result (λ message. message_value message
        ≡ spec.search_request (search_of wanted.now) id sync.now.mode
        sync.now.reload_hint sync.now.cookie) }
    // The value of its control is read again as what is asked.
    ensures read_again { IfOk result (λ message.
        request_of (request_octets sync.now) ≡ Ok sync.now) }
{
    let base = wanted.base.write()?;
    let filter = wanted.filter.copy()?;
    let attributes = all_attributes(alloc)?;
    let controls = sync_control(alloc, sync)?;
    Ok(Message {
        id,
        op: Protocol::SearchRequest(SearchRequest {
            base,
            scope: scope_of(wanted.scope),
            deref: 0,
            size_limit: 0,
            time_limit: 0,
            types_only: false,
            filter,
            attributes,
        }),
        controls,
    })
}

fn scope_of(scope: Scope) -> SearchScope
    ensures { scope_number result ≡ spec.scope_number scope }
{
    match scope {
        Scope::Base => SearchScope::Base,
        Scope::One => SearchScope::One,
        Scope::Sub => SearchScope::Sub,
    }
}

/// All user attributes, and all operational ones (RFC 4511, section 4.5.1.8; RFC 3673).
fn all_attributes(alloc: Global) -> Result<OctetsList, NoMemory>
    ensures { IfOk result (λ names. names ≡ codes "*" ∷ codes "+" ∷ []) }
{
    let mut names = OctetsList::new(alloc);
    names.push(Octets::from_slice(alloc, b"*")?)?;
    names.push(Octets::from_slice(alloc, b"+")?)?;
    Ok(names)
}

/// The control that asks for content synchronization.
fn sync_control(alloc: Global, sync: &SyncRequest) -> Result<ControlList, NoMemory>
    ensures controls { IfOk result
        (λ controls.
        controls ≡ spec.sync_control sync.now.mode sync.now.reload_hint sync.now.cookie ∷ []) }
    ensures read_again { IfOk result (λ controls.
        request_of (request_octets sync.now) ≡ Ok sync.now) }
{
    let mut controls = ControlList::new(alloc);
    controls.push(Control {
        name: Octets::from_slice(alloc, SYNC_REQUEST)?,
        critical: true,
        value: Some(sync.write(alloc)?),
    })?;
    Ok(controls)
}
