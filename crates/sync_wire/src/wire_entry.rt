//! Entries as they are sent.

ghost use Rattle.std.specs.Prelude.{◌≡◌, [], ◌∷◌, Ok, IfOk, IfErr};
ghost use Rattle.std.specs.List.{list_all};
ghost use Rattle.schema_rules.specs.Schema.{type_rule};
ghost use Rattle.dn_names.specs.Reading.{name_of_text, IsNameFault};
ghost use Rattle.ldap_ber.specs.Gives.{Gives};
ghost use Rattle.sync_wire.specs.Refusals.{DecodeFails};
ghost use Rattle.sync_wire.specs.WireEntry as spec;

use crate::fault::DecodeFault;
use crate::operational::entry_csn;
use dn_names::{Dn, NameFault};
use entry_tree::Entry;
use ldap_ber::{NoMemory, Octets, OctetsList};
use ldap_constants::{ADMIN_LIMIT_EXCEEDED, INVALID_ATTRIBUTE_SYNTAX, INVALID_DN_SYNTAX};
use schema_rules::{
    Attribute, AttributeType, Attrs, RawAttribute, Rule, add_values, are_of_syntax,
};
use std::alloc::Global;
use std::slice;

/// The most that an entry weighs.
const MOST_ENTRY_WEIGHT: u64 = 65_536;

/// The entry of an identity that was sent with this name and these attributes, of which it is known
/// whether each entryUUID is the text of an identity. A name that is known may be the same one.
pub(crate) fn entry_of(
    alloc: Global,
    uuid: u128,
    name: &Octets,
    known: Option<&Dn>,
    raws: &[RawAttribute],
    are_uuids: bool,
) -> Result<Entry, DecodeFault>
    requires { are_uuids ≡ spec.are_uuids raws.now }
    ensures { Gives DecodeFails (λ entry. Ok entry) result (spec.entry_of uuid name.now raws.now) }
{
    let dn = name_of(alloc, name, known)?;
    let attrs = attributes_of(alloc, raws)?;
    if !are_uuids || !are_of_their_syntax(alloc, attrs.list())? {
        return Err(DecodeFault::BadEntry(INVALID_ATTRIBUTE_SYNTAX));
    }
    let csn = entry_csn(raws)?;
    if attrs.weight() > MOST_ENTRY_WEIGHT {
        return Err(DecodeFault::BadEntry(ADMIN_LIMIT_EXCEEDED));
    }
    Ok(Entry {
        uuid,
        csn,
        dn,
        attrs,
    })
}

fn name_of(alloc: Global, text: &Octets, known: Option<&Dn>) -> Result<Dn, DecodeFault>
    ensures { Gives DecodeFails (λ dn. Ok dn) result (spec.name_of text.now) }
{
    match read_name(alloc, text.as_slice(), known) {
        Ok(dn) => Ok(dn),
        Err(NameFault::NoMemory) => Err(DecodeFault::NoMemory),
        Err(NameFault::BadName(_) | NameFault::UnknownType(_) | NameFault::TooLong(_)) => {
            Err(DecodeFault::BadEntry(INVALID_DN_SYNTAX))
        }
    }
}

/// Reads a name, beside one that is known, if any.
fn read_name(alloc: Global, text: &[u8], known: Option<&Dn>) -> Result<Dn, NameFault>
    ensures ok { IfOk result (λ dn. name_of_text text.now ≡ Ok dn) }
    ensures fault { IfErr result (IsNameFault (name_of_text text.now)) }
{
    match known {
        Some(dn) => Dn::parse_beside(alloc, text, dn),
        None => Dn::parse(alloc, text),
    }
}

/// The attributes of types that a client may give, with those values that are kept. Those of one
/// type are joined in order.
fn attributes_of(alloc: Global, raws: &[RawAttribute]) -> Result<Attrs, NoMemory>
    ensures { IfOk result (λ attrs. attrs ≡ spec.attributes_of raws.now) }
{
    let mut items = Vec::with_capacity(alloc, raws.len())?;
    for raw in raws {
        if let Some(attribute) = kept(alloc, raw)? {
            add_values(&mut items, attribute.kind, attribute.values)?;
        }
    }
    Attrs::of(items)
}

/// What is kept of an attribute: nothing where its type is unknown or operational, or where it
/// has no value that is kept.
fn kept(alloc: Global, raw: &RawAttribute) -> Result<Option<Attribute>, NoMemory>
    ensures { IfOk result (λ attribute. attribute ≡ spec.kept raw.now) }
{
    let Some(kind) = AttributeType::find(raw.name.as_slice()) else {
        return Ok(None);
    };
    if kind.operational() {
        return Ok(None);
    }
    let values = kept_values(alloc, kind, raw.values.list())?;
    if values.list().is_empty() {
        return Ok(None);
    }
    Ok(Some(Attribute { kind, values }))
}

/// The values without names of unknown object classes.
fn kept_values(
    alloc: Global,
    kind: AttributeType,
    values: &[Octets],
) -> Result<OctetsList, NoMemory>
    ensures { IfOk result (λ list. list ≡ spec.kept_values kind values.now) }
{
    match values {
        [value] => kept_value(alloc, kind, value),
        _ => kept_each(alloc, kind, values),
    }
}

/// The same of one value, in a list that takes no memory.
fn kept_value(alloc: Global, kind: AttributeType, value: &Octets) -> Result<OctetsList, NoMemory>
    ensures { IfOk result (λ list. list ≡ spec.kept_values kind (value.now ∷ [])) }
{
    if is_kept(alloc, kind, value)? {
        return Ok(OctetsList::of_one(alloc, value.copy()?));
    }
    Ok(OctetsList::new(alloc))
}

/// The same of any number.
fn kept_each(alloc: Global, kind: AttributeType, values: &[Octets]) -> Result<OctetsList, NoMemory>
    ensures { IfOk result (λ list. list ≡ spec.kept_values kind values.now) }
{
    let mut list = OctetsList::new(alloc);
    for value in values {
        if is_kept(alloc, kind, value)? {
            list.push(value.copy()?)?;
        }
    }
    Ok(list)
}

/// Whether the value is kept: of a type of object classes only the name of one.
fn is_kept(alloc: Global, kind: AttributeType, value: &Octets) -> Result<bool, NoMemory>
    ensures { IfOk result (λ is_kept. is_kept ≡ spec.is_kept_by (type_rule kind) value.now) }
{
    match kind.rule() {
        Rule::Class => are_of_syntax(alloc, kind, slice::from_ref(value)),
        Rule::Folded
        | Rule::FoldedAscii
        | Rule::ExactAscii
        | Rule::Whole
        | Rule::Flag
        | Rule::Time
        | Rule::Operational => Ok(true),
    }
}

fn are_of_their_syntax(alloc: Global, attributes: &[Attribute]) -> Result<bool, NoMemory>
    ensures { IfOk result (λ all. all ≡ list_all spec.is_of_its_syntax attributes.now) }
{
    for attribute in attributes {
        if !are_of_syntax(alloc, attribute.kind, attribute.values.list())? {
            return Ok(false);
        }
    }
    Ok(true)
}
