//! Who a session is bound as (RFC 4511, section 4.2; RFC 4513, section 5.1).

ghost use Rattle.std.specs.Prelude.{◌≡◌, Ok, Err, IfOk};
ghost use Rattle.ldap_session.specs.Binding.{named_code, bind_code, has_password, binds_as, may_write};
ghost use Rattle.dn_names.specs.Reading.{name_of_text};

use crate::Access;
use dn_names::{Dn, NameFault};
use ldap_ber::{NoMemory, Octets};
use ldap_constants::{
    AUTH_METHOD_NOT_SUPPORTED, INVALID_CREDENTIALS, INVALID_DN_SYNTAX, PROTOCOL_ERROR, SUCCESS,
    UNWILLING_TO_PERFORM,
};
use ldap_messages::Authentication;
use std::alloc::{AllocError, Global};

/// The version of LDAP.
const VERSION: u8 = 3;

/// The code that answers a bind: protocolError for another version, authMethodNotSupported for
/// SASL, success without a name and a password, unwillingToPerform for a name without one,
/// invalidDNSyntax for what is no name, success for the configured name with its password, and else
/// invalidCredentials.
#[tactic(auto, unfolding(crate::specs::Binding::bind_code))]
pub fn bind_code(
    alloc: Global,
    access: &Access,
    version: u8,
    name: &Octets,
    authentication: &Authentication,
) -> Result<u32, NoMemory>
    ensures { IfOk result (λ code.
        code ≡ bind_code access.now version name.now authentication.now) }
{
    if version != VERSION {
        return Ok(PROTOCOL_ERROR);
    }
    let Authentication::Simple(password) = authentication else {
        return Ok(AUTH_METHOD_NOT_SUPPORTED);
    };
    if password.as_slice().is_empty() {
        if name.as_slice().is_empty() {
            return Ok(SUCCESS);
        }
        return Ok(UNWILLING_TO_PERFORM);
    }
    named_code(alloc, access, name, password)
}

/// The code of a name with a password.
fn named_code(
    alloc: Global,
    access: &Access,
    name: &Octets,
    password: &Octets,
) -> Result<u32, NoMemory>
    ensures { IfOk result (λ code.
        code ≡ named_code access.now (name_of_text name.now) password.now) }
{
    match Dn::parse(alloc, name.as_slice()) {
        Ok(name) => Ok(code_of_name(access, &name, password)),
        Err(NameFault::NoMemory) => Err(AllocError),
        Err(_) => Ok(INVALID_DN_SYNTAX),
    }
}

/// The code of a name that was read, with a password.
fn code_of_name(access: &Access, name: &Dn, password: &Octets) -> u32
    ensures { result ≡ named_code access.now (Ok name.now) password.now }
{
    match access {
        Access::Free => INVALID_CREDENTIALS,
        Access::Named(known, secret) => {
            if name.same(known) && password == secret {
                SUCCESS
            } else {
                INVALID_CREDENTIALS
            }
        }
    }
}

/// Whether a session is bound as the configured name after a bind with this code: it succeeded, and
/// was not anonymous.
pub fn binds_as(code: u32, authentication: &Authentication) -> bool
    ensures { result ≡ binds_as code authentication.now }
{
    code == SUCCESS && has_password(authentication)
}

/// Whether the bind has a password.
fn has_password(authentication: &Authentication) -> bool
    ensures { result ≡ has_password authentication.now }
{
    match authentication {
        Authentication::Simple(password) => !password.as_slice().is_empty(),
        Authentication::Sasl(_) => false,
    }
}

/// Whether a session may write: it is bound as the configured name, or none is configured.
pub fn may_write(access: &Access, bound: bool) -> bool
    ensures { result ≡ may_write access.now bound }
{
    match access {
        Access::Free => true,
        Access::Named(_, _) => bound,
    }
}
