//! The operational attributes of an entry that was sent: entryUUID (RFC 4530) and entryCSN.

ghost use Rattle.std.specs.Prelude.{◌≡◌, ◌≤◌, [], ◌∷◌, ◌++◌, length, option_copied, option_to_list, Ok, IfNone, IfOk, IfSome};
ghost use Rattle.std.specs.Str.{str_eq_ignore_ascii_case};
ghost use Rattle.ldap_ber.specs.Gives.{Gives};
ghost use Rattle.sync_wire.specs.Refusals.{DecodeFails};
ghost use Rattle.sync_wire.specs.WireEntry as spec;

use crate::fault::DecodeFault;
use csn_cookie::Csn;
use ldap_ber::Octets;
use ldap_constants::OBJECT_CLASS_VIOLATION;
use schema_rules::RawAttribute;
use uuid::Uuid;

const ENTRY_UUID: &[u8] = b"entryUUID";

const ENTRY_CSN: &[u8] = b"entryCSN";

/// How long the text of an identity is.
const UUID_LENGTH: usize = 36;

/// Refuses an identity by an entryUUID that is another one. Else the answer is whether each
/// entryUUID is the text of an identity.
pub(crate) fn check_uuid(raws: &[RawAttribute], uuid: u128) -> Result<bool, DecodeFault>
    ensures same { Gives DecodeFails (λ all. Ok tt) result (spec.checked_uuid uuid raws.now) }
    ensures all { IfOk result (λ all. all ≡ spec.are_uuids raws.now) }
{
    match uuids_named(raws, uuid) {
        Ok(all) => Ok(all),
        Err(other) => Err(DecodeFault::UuidDiffers(uuid, other)),
    }
}

/// Whether each entryUUID is the text of this identity, or the first that is another one.
fn uuids_named(raws: &[RawAttribute], uuid: u128) -> Result<bool, u128>
    ensures { result ≡ spec.uuids_read uuid (spec.uuid_values raws.now) }
{
    let mut all = true;
    for raw in raws {
        let read = uuids_in(raw, uuid)?;
        all &= read;
    }
    Ok(all)
}

/// The same of one attribute. One of another name has no entryUUID.
fn uuids_in(raw: &RawAttribute, uuid: u128) -> Result<bool, u128>
    ensures { result ≡ spec.uuids_read uuid (spec.uuid_values (raw.now ∷ [])) }
{
    if is_named(raw, ENTRY_UUID) {
        return uuids_of(raw.values.list(), uuid);
    }
    Ok(true)
}

/// Whether each text is that of this identity, or the first that is that of another one.
fn uuids_of(values: &[Octets], uuid: u128) -> Result<bool, u128>
    ensures { result ≡ spec.uuids_read uuid values.now }
{
    let mut all = true;
    for value in values {
        let read = is_uuid(value.as_slice(), uuid)?;
        all &= read;
    }
    Ok(all)
}

/// Whether the text is that of this identity, or the other one that it is of.
fn is_uuid(text: &[u8], uuid: u128) -> Result<bool, u128>
    ensures { result ≡ spec.uuids_read uuid (text.now ∷ []) }
{
    match uuid_of(text) {
        Some(other) if other != uuid => Err(other),
        Some(_) => Ok(true),
        None => Ok(false),
    }
}

/// The one entryCSN.
pub(crate) fn entry_csn(raws: &[RawAttribute]) -> Result<Csn, DecodeFault>
    ensures { Gives DecodeFails (λ csn. Ok csn) result (spec.entry_csn raws.now) }
{
    match only_named(raws, ENTRY_CSN) {
        Some(value) => csn_of(value.as_slice()),
        None => Err(DecodeFault::BadEntry(OBJECT_CLASS_VIOLATION)),
    }
}

fn csn_of(text: &[u8]) -> Result<Csn, DecodeFault>
    ensures { Gives DecodeFails (λ csn. Ok csn) result (spec.csn_of text.now) }
{
    Csn::parse(text).map_err(|_| DecodeFault::BadEntry(OBJECT_CLASS_VIOLATION))
}

/// The value of the attributes of that name, whatever the case of its letters, where there is one
/// alone.
fn only_named<'a>(raws: &'a [RawAttribute], name: &[u8]) -> Option<&'a Octets>
    ensures { option_copied result ≡ spec.only_one (spec.values_named name.now raws.now) }
{
    let mut only = None;
    for raw in raws {
        let after = only_after(only, raw, name)?;
        only = after;
    }
    only
}

/// The one value of that name, if any, where those of this attribute come after another one, if
/// any. None where there are more then.
fn only_after<'a>(
    only: Option<&'a Octets>,
    raw: &'a RawAttribute,
    name: &[u8],
) -> Option<Option<&'a Octets>>
    ensures some { IfSome result (λ after. option_to_list (option_copied after)
        ≡ option_to_list (option_copied only.entry)
        ++ spec.values_named name.now (raw.now ∷ [])) }
    ensures none { IfNone result (2 ≤ length (option_to_list (option_copied only.entry)
        ++ spec.values_named name.now (raw.now ∷ []))) }
{
    if is_named(raw, name) {
        return only_of(only, raw.values.list());
    }
    Some(only)
}

/// The same of these values.
fn only_of<'a>(only: Option<&'a Octets>, values: &'a [Octets]) -> Option<Option<&'a Octets>>
    ensures some { IfSome result (λ after. option_to_list (option_copied after)
        ≡ option_to_list (option_copied only.entry) ++ values.now) }
    ensures none { IfNone result
        (2 ≤ length (option_to_list (option_copied only.entry) ++ values.now)) }
{
    match values {
        [] => Some(only),
        [value] => alone(only, value),
        [_, _, ..] => None,
    }
}

/// The same of one value.
fn alone<'a>(only: Option<&'a Octets>, value: &'a Octets) -> Option<Option<&'a Octets>>
    ensures some { IfSome result (λ after. option_to_list (option_copied after)
        ≡ option_to_list (option_copied only.entry) ++ value.now ∷ []) }
    ensures none { IfNone result
        (2 ≤ length (option_to_list (option_copied only.entry) ++ value.now ∷ [])) }
{
    match only {
        None => Some(Some(value)),
        Some(_) => None,
    }
}

fn is_named(raw: &RawAttribute, name: &[u8]) -> bool
    ensures { result ≡ str_eq_ignore_ascii_case raw.now.name name.now }
{
    raw.name.as_slice().eq_ignore_ascii_case(name)
}

/// The identity of a text, in five groups of hexadecimal digits (RFC 4530, section 2.1).
fn uuid_of(text: &[u8]) -> Option<u128>
    ensures { result ≡ spec.uuid_of text.now }
{
    if text.len() != UUID_LENGTH {
        return None;
    }
    match Uuid::try_parse_ascii(text) {
        Ok(uuid) => Some(uuid.as_u128()),
        Err(_) => None,
    }
}
