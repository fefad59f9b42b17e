//! Bind (RFC 4511, section 4.2).
//!
//! ```text
//! BindRequest ::= [APPLICATION 0] SEQUENCE {
//!      version                 INTEGER (1 ..  127),
//!      name                    LDAPDN,
//!      authentication          AuthenticationChoice }
//!
//! AuthenticationChoice ::= CHOICE {
//!      simple                  [0] OCTET STRING,
//!                              -- 1 and 2 reserved
//!      sasl                    [3] SaslCredentials,
//!      ...  }
//!
//! BindResponse ::= [APPLICATION 1] SEQUENCE {
//!      COMPONENTS OF LDAPResult,
//!      serverSaslCreds    [7] OCTET STRING OPTIONAL }
//! ```

ghost use Rattle.std.specs.Prelude.{◌≡◌, Ok, OnOk, FitsSigned};
ghost use Rattle.std.specs.Int.{w64};
ghost use Rattle.ldap_ber.specs.Reading.{made_at};
ghost use Rattle.ldap_ber.specs.Writer.{after_bytes};
ghost use Rattle.ldap_ber.specs.Gives.{Gives};
ghost use Rattle.ldap_parts.specs.Faults.{ComponentFails};
ghost use Rattle.ldap_messages.specs.Bind.{authentication_at, bind_at, bind_response_at, authentication_octets, bind_octets, bind_response_octets};
ghost use Rattle.ldap_messages.specs.Operation.{operation_of, bind, bind_response};

use crate::ldap_result::{LdapResult, ldap_result_of, put_ldap_result};
use crate::protocol::Protocol;
use ldap_ber::{NoMemory, Octets, Reader, Writer};
use ldap_parts::{ComponentFault, octet_string_of, option_of, put_number, put_option, range_of};
use std::alloc::Global;

/// How a client shows who it is.
#[derive(Drop)]
pub enum Authentication {
    /// A password.
    Simple(Octets),
    /// The body of the element, as it came.
    Sasl(Octets),
}

/// The BindRequest that comes next.
#[tactic(auto, unfolding(crate::specs::Bind::bind_at, crate::specs::Operation::operation_of))]
pub(crate) fn bind_of(alloc: Global, reader: &mut Reader) -> Result<Protocol, ComponentFault>
    ensures exact { Gives ComponentFails (λ op. Ok (operation_of op, reader.new.left)) result
        (made_at bind bind_at reader.old.stop reader.old.left) }
    ensures stop { reader.new.stop ≡ reader.old.stop }
{
    let whole = reader.expect(0x60)?;
    let mut inner = Reader::inside(&whole);
    let version = range_of(&mut inner, 0x02, 1, 127)?;
    let name = octet_string_of(alloc, &mut inner, 0x04)?;
    let authentication = authentication_of(alloc, &mut inner)?;
    inner.skip()?;
    Ok(Protocol::BindRequest {
        version: version as u8,
        name,
        authentication,
    })
}

#[tactic(auto, unfolding(crate::specs::Bind::authentication_at))]
fn authentication_of(alloc: Global, reader: &mut Reader) -> Result<Authentication, ComponentFault>
    ensures exact { Gives ComponentFails
        (λ authentication. Ok (authentication, reader.new.left)) result
        (authentication_at reader.old.stop reader.old.left) }
    ensures stop { reader.new.stop ≡ reader.old.stop }
{
    if reader.has(0x80) {
        return Ok(Authentication::Simple(octet_string_of(alloc, reader, 0x80)?));
    }
    Ok(Authentication::Sasl(octet_string_of(alloc, reader, 0xA3)?))
}

/// The BindResponse that comes next.
#[tactic(auto, unfolding(crate::specs::Bind::bind_response_at, crate::specs::Operation::operation_of))]
pub(crate) fn bind_response_of(
    alloc: Global,
    reader: &mut Reader,
) -> Result<Protocol, ComponentFault>
    ensures exact { Gives ComponentFails (λ op. Ok (operation_of op, reader.new.left)) result
        (made_at bind_response bind_response_at reader.old.stop reader.old.left) }
    ensures stop { reader.new.stop ≡ reader.old.stop }
{
    let whole = reader.expect(0x61)?;
    let mut inner = Reader::inside(&whole);
    let result = ldap_result_of(alloc, &mut inner)?;
    let sasl = option_of(alloc, &mut inner, 0x87)?;
    inner.skip()?;
    Ok(Protocol::BindResponse { result, sasl })
}

pub(crate) fn put_bind(
    writer: &mut Writer,
    version: u8,
    name: &Octets,
    authentication: &Authentication,
) -> Result<(), NoMemory>
    ensures { OnOk result (writer.new
        ≡ after_bytes writer.old (bind_octets (version, (name.now, authentication.now)))) }
{
    writer.begin(0x60)?;
    put_number(writer, 0x02, version as u32)?;
    writer.octets(0x04, name.as_slice())?;
    put_authentication(writer, authentication)?;
    writer.end()
}

fn put_authentication(writer: &mut Writer, authentication: &Authentication) -> Result<(), NoMemory>
    ensures { OnOk result
        (writer.new ≡ after_bytes writer.old (authentication_octets authentication.now)) }
{
    match authentication {
        Authentication::Simple(password) => writer.octets(0x80, password.as_slice()),
        Authentication::Sasl(body) => writer.octets(0xA3, body.as_slice()),
    }
}

pub(crate) fn put_bind_response(
    writer: &mut Writer,
    outcome: &LdapResult,
    sasl: &Option<Octets>,
) -> Result<(), NoMemory>
    ensures ok { OnOk result (writer.new
        ≡ after_bytes writer.old (bind_response_octets (outcome.now, sasl.now))) }
    ensures code { OnOk result (FitsSigned w64 outcome.now.code) }
{
    writer.begin(0x61)?;
    put_ldap_result(writer, outcome)?;
    put_option(writer, 0x87, sasl)?;
    writer.end()
}
