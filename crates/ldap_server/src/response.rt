//! Responses that carry a result code.

ghost use Rattle.std.specs.Prelude.{◌≡◌, pos};
ghost use Rattle.ldap_messages.specs.Operation.{operation_of};
ghost use Rattle.ldap_server.specs.Encoding.{operation_with};
ghost use Rattle.sync_wire.specs.Sending.{result_of};

use ldap_ber::Octets;
use ldap_messages::{LdapResult, Protocol};
use std::alloc::Global;

/// The kinds of responses that carry a result code.
#[derive(Clone, Copy, Debug, PartialEq, Eq)]
pub(crate) enum Response {
    Bind,
    Add,
    Delete,
    Modify,
    Rename,
    Compare,
    SearchDone,
    Extended,
}

impl Response {
    /// The operation of such a response.
    #[tactic(auto, unfolding(ldap_messages::specs::Operation::operation_of))]
    pub(crate) fn operation(self, alloc: Global, code: u32) -> Protocol
        ensures { operation_of result ≡ operation_with self code }
    {
        let result = result_with(alloc, code);
        match self {
            Response::Bind => Protocol::BindResponse { result, sasl: None },
            Response::Add => Protocol::AddResponse(result),
            Response::Delete => Protocol::DelResponse(result),
            Response::Modify => Protocol::ModifyResponse(result),
            Response::Rename => Protocol::ModifyDnResponse(result),
            Response::Compare => Protocol::CompareResponse(result),
            Response::SearchDone => Protocol::SearchResultDone(result),
            Response::Extended => Protocol::ExtendedResponse {
                result,
                name: None,
                value: None,
            },
        }
    }
}

/// The result with this code, with empty texts and no referral. It takes no memory.
pub(crate) fn result_with(alloc: Global, code: u32) -> LdapResult
    ensures { result ≡ result_of (pos code) }
{
    LdapResult {
        code: i64::from(code),
        matched_dn: Octets::from(Vec::new(alloc)),
        diagnostic_message: Octets::from(Vec::new(alloc)),
        referral: None,
    }
}
