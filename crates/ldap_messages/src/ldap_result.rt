//! The result of an operation (RFC 4511, section 4.1.9), and the responses that hold nothing else.
//!
//! ```text
//! LDAPResult ::= SEQUENCE {
//!      resultCode         ENUMERATED { .. },
//!      matchedDN          LDAPDN,
//!      diagnosticMessage  LDAPString,
//!      referral           [3] Referral OPTIONAL }
//! ```

ghost use Rattle.std.specs.Prelude.{◌≡◌, Ok, OnOk, FitsSigned};
ghost use Rattle.std.specs.Int.{w64};
ghost use Rattle.ldap_ber.specs.Writer.{after_bytes};
ghost use Rattle.ldap_ber.specs.Gives.{Gives};
ghost use Rattle.ldap_parts.specs.Faults.{ComponentFails};
ghost use Rattle.ldap_messages.specs.LdapResult.{referral_at, ldap_result_at, response_at, referral_octets, ldap_result_octets, response_octets};

use crate::uris::uris_of;
use ldap_ber::{NoMemory, Octets, OctetsList, Reader, Writer};
use ldap_parts::{ComponentFault, number_of, octet_string_of, put_strings};
use std::alloc::Global;

/// The result of an operation.
pub struct LdapResult {
    /// The result code (RFC 4511, appendix A), whatever number came.
    pub code: i64,
    /// The name of the last entry that was found on the way to the one that was asked for.
    pub matched_dn: Octets,
    pub diagnostic_message: Octets,
    /// Where to ask further: one URI at least.
    pub referral: Option<OctetsList>,
}

/// A call of its own, so that what drops a result is one step.
impl Drop for LdapResult {
    fn drop(self) {
        let LdapResult {
            code: _,
            matched_dn: _matched_dn,
            diagnostic_message: _diagnostic_message,
            referral: _referral,
        } = self;
    }
}

/// The response with this tag that comes next.
#[tactic(auto, unfolding(crate::specs::LdapResult::response_at))]
pub(crate) fn response_of(
    alloc: Global,
    reader: &mut Reader,
    tag: u8,
) -> Result<LdapResult, ComponentFault>
    ensures exact { Gives ComponentFails (λ result. Ok (result, reader.new.left)) result
        (response_at tag reader.old.stop reader.old.left) }
    ensures stop { reader.new.stop ≡ reader.old.stop }
{
    let whole = reader.expect(tag)?;
    let mut inner = Reader::inside(&whole);
    let outcome = ldap_result_of(alloc, &mut inner)?;
    inner.skip()?;
    Ok(outcome)
}

/// The components of a result that come next.
#[tactic(auto, unfolding(crate::specs::LdapResult::ldap_result_at))]
pub(crate) fn ldap_result_of(
    alloc: Global,
    reader: &mut Reader,
) -> Result<LdapResult, ComponentFault>
    ensures exact { Gives ComponentFails (λ outcome. Ok (outcome, reader.new.left)) result
        (ldap_result_at reader.old.stop reader.old.left) }
    ensures stop { reader.new.stop ≡ reader.old.stop }
{
    let code = number_of(reader, 0x0A)?;
    let matched_dn = octet_string_of(alloc, reader, 0x04)?;
    let diagnostic_message = octet_string_of(alloc, reader, 0x04)?;
    let referral = referral_of(alloc, reader)?;
    Ok(LdapResult {
        code,
        matched_dn,
        diagnostic_message,
        referral,
    })
}

/// The referral, where one comes next.
fn referral_of(alloc: Global, reader: &mut Reader) -> Result<Option<OctetsList>, ComponentFault>
    ensures exact { Gives ComponentFails (λ referral. Ok (referral, reader.new.left)) result
        (referral_at reader.old.stop reader.old.left) }
    ensures stop { reader.new.stop ≡ reader.old.stop }
{
    if reader.has(0xA3) {
        return Ok(Some(uris_of(alloc, reader, 0xA3)?));
    }
    Ok(None)
}

/// Writes a response that holds a result alone.
pub(crate) fn put_response(
    writer: &mut Writer,
    tag: u8,
    outcome: &LdapResult,
) -> Result<(), NoMemory>
    ensures ok { OnOk result
        (writer.new ≡ after_bytes writer.old (response_octets tag outcome.now)) }
    ensures code { OnOk result (FitsSigned w64 outcome.now.code) }
{
    writer.begin(tag)?;
    put_ldap_result(writer, outcome)?;
    writer.end()
}

/// Writes the components of a result.
pub(crate) fn put_ldap_result(writer: &mut Writer, outcome: &LdapResult) -> Result<(), NoMemory>
    ensures ok { OnOk result
        (writer.new ≡ after_bytes writer.old (ldap_result_octets outcome.now)) }
    ensures code { FitsSigned w64 outcome.now.code }
{
    writer.integer(0x0A, outcome.code)?;
    writer.octets(0x04, outcome.matched_dn.as_slice())?;
    writer.octets(0x04, outcome.diagnostic_message.as_slice())?;
    put_referral(writer, &outcome.referral)
}

fn put_referral(writer: &mut Writer, referral: &Option<OctetsList>) -> Result<(), NoMemory>
    ensures { OnOk result (writer.new ≡ after_bytes writer.old (referral_octets referral.now)) }
{
    match referral {
        Some(uris) => put_strings(writer, 0xA3, uris.list()),
        None => Ok(()),
    }
}
