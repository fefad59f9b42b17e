//! Extended requests and responses (RFC 4511, section 4.12).
//!
//! ```text
//! ExtendedRequest ::= [APPLICATION 23] SEQUENCE {
//!      requestName      [0] LDAPOID,
//!      requestValue     [1] OCTET STRING OPTIONAL }
//!
//! ExtendedResponse ::= [APPLICATION 24] SEQUENCE {
//!      COMPONENTS OF LDAPResult,
//!      responseName     [10] LDAPOID OPTIONAL,
//!      responseValue    [11] OCTET STRING OPTIONAL }
//! ```

ghost use Rattle.std.specs.Prelude.{◌≡◌, Ok, OnOk, FitsSigned};
ghost use Rattle.std.specs.Int.{w64};
ghost use Rattle.ldap_ber.specs.Reading.{made_at};
ghost use Rattle.ldap_ber.specs.Writer.{after_bytes};
ghost use Rattle.ldap_ber.specs.Gives.{Gives};
ghost use Rattle.ldap_parts.specs.Faults.{ComponentFails};
ghost use Rattle.ldap_messages.specs.Extended.{extended_at, extended_response_at, extended_octets, extended_response_octets};
ghost use Rattle.ldap_messages.specs.Operation.{operation_of, extended, extended_response};

use crate::ldap_result::{LdapResult, ldap_result_of, put_ldap_result};
use crate::protocol::Protocol;
use ldap_ber::{NoMemory, Octets, Reader, Writer};
use ldap_parts::{ComponentFault, octet_string_of, option_of, put_option};
use std::alloc::Global;

/// The ExtendedRequest that comes next.
#[tactic(auto, unfolding(crate::specs::Extended::extended_at, crate::specs::Operation::operation_of))]
pub(crate) fn extended_of(alloc: Global, reader: &mut Reader) -> Result<Protocol, ComponentFault>
    ensures exact { Gives ComponentFails (λ op. Ok (operation_of op, reader.new.left)) result
        (made_at extended extended_at reader.old.stop reader.old.left) }
    ensures stop { reader.new.stop ≡ reader.old.stop }
{
    let whole = reader.expect(0x77)?;
    let mut inner = Reader::inside(&whole);
    let name = octet_string_of(alloc, &mut inner, 0x80)?;
    let value = option_of(alloc, &mut inner, 0x81)?;
    inner.skip()?;
    Ok(Protocol::ExtendedRequest { name, value })
}

/// The ExtendedResponse that comes next.
#[tactic(auto, unfolding(crate::specs::Extended::extended_response_at, crate::specs::Operation::operation_of))]
pub(crate) fn extended_response_of(
    alloc: Global,
    reader: &mut Reader,
) -> Result<Protocol, ComponentFault>
    ensures exact { Gives ComponentFails (λ op. Ok (operation_of op, reader.new.left)) result
        (made_at extended_response extended_response_at reader.old.stop reader.old.left) }
    ensures stop { reader.new.stop ≡ reader.old.stop }
{
    let whole = reader.expect(0x78)?;
    let mut inner = Reader::inside(&whole);
    let result = ldap_result_of(alloc, &mut inner)?;
    let name = option_of(alloc, &mut inner, 0x8A)?;
    let value = option_of(alloc, &mut inner, 0x8B)?;
    inner.skip()?;
    Ok(Protocol::ExtendedResponse {
        result,
        name,
        value,
    })
}

pub(crate) fn put_extended(
    writer: &mut Writer,
    name: &Octets,
    value: &Option<Octets>,
) -> Result<(), NoMemory>
    ensures { OnOk result
        (writer.new ≡ after_bytes writer.old (extended_octets (name.now, value.now))) }
{
    writer.begin(0x77)?;
    writer.octets(0x80, name.as_slice())?;
    put_option(writer, 0x81, value)?;
    writer.end()
}

pub(crate) fn put_extended_response(
    writer: &mut Writer,
    outcome: &LdapResult,
    name: &Option<Octets>,
    value: &Option<Octets>,
) -> Result<(), NoMemory>
    ensures ok { OnOk result (writer.new ≡ after_bytes writer.old
        (extended_response_octets (outcome.now, (name.now, value.now)))) }
    ensures code { OnOk result (FitsSigned w64 outcome.now.code) }
{
    writer.begin(0x78)?;
    put_ldap_result(writer, outcome)?;
    put_option(writer, 0x8A, name)?;
    put_option(writer, 0x8B, value)?;
    writer.end()
}
