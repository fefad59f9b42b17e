//! Changes of a list of attributes: edits, and those of a new RDN.
ghost use Rattle.std.specs.Prelude.{◌≡◌, [], ◌∷◌, true, None, fold, IfOk, IfErr, OnOk};
ghost use Rattle.std.specs.List.{list_any, list_all};
ghost use Rattle.dn_names.specs.Names.{same_pair, has_pair};
ghost use Rattle.entry_writes.specs.Codes.{has_own_pairs};
ghost use Rattle.entry_writes.specs.Edits as spec;
ghost use Rattle.entry_writes.specs.Fault.{HasOpCode};
ghost use Rattle.entry_writes.specs.Sound.{is_sound_edit};
ghost use Rattle.entry_writes.specs.State as state;

use crate::edit::Edit;
use crate::fault::OpFault;
use dn_names::{Dn, Pair, Rdn};
use ldap_ber::{NoMemory, Octets, OctetsList};
use ldap_constants::{ATTRIBUTE_OR_VALUE_EXISTS, NO_SUCH_ATTRIBUTE};
use schema_rules::{
    Attribute, AttributeType, Attrs, How, add_values, has_equal_values, has_kind, keys_of,
    known_key,
};
use std::alloc::Global;
use std::slice::from_ref;

pub(crate) fn copies(alloc: Global, attributes: &[Attribute]) -> Result<Vec<Attribute>, NoMemory>
    ensures { IfOk result (λ copied. copied.items ≡ attributes.now) }
{
    let mut copied = Vec::with_capacity(alloc, attributes.len())?;
    for attribute in attributes {
        copied.push(attribute.copy()?)?;
    }
    Ok(copied)
}

/// The keys of the values that are there of the type.
fn keys_there(
    alloc: Global,
    attributes: &[Attribute],
    kind: AttributeType,
) -> Result<Vec<Octets>, NoMemory>
    ensures { IfOk result (λ keys. keys.items ≡ spec.keys_there attributes.now kind) }
{
    let mut keys = Vec::new(alloc);
    for attribute in attributes {
        if attribute.kind == kind {
            let mut more = keys_of(alloc, kind, attribute.values.list())?;
            keys.append(&mut more)?;
        }
    }
    Ok(keys)
}

/// Whether the key of the value is one of the keys.
fn matches(
    alloc: Global,
    kind: AttributeType,
    keys: &[Octets],
    value: &Octets,
) -> Result<bool, NoMemory>
    ensures { IfOk result (λ found. found ≡ spec.matches kind keys.now value.now) }
{
    match known_key(alloc, kind, value.as_slice())? {
        None => Ok(false),
        Some(key) => Ok(keys.contains(&key)),
    }
}

/// Whether one of the values matches one of these keys.
fn has_some(
    alloc: Global,
    kind: AttributeType,
    keys: &[Octets],
    values: &[Octets],
) -> Result<bool, NoMemory>
    ensures { IfOk result (λ found. found ≡ list_any (spec.matches kind keys.now) values.now) }
{
    for value in values {
        if matches(alloc, kind, keys, value)? {
            return Ok(true);
        }
    }
    Ok(false)
}

/// Whether each of the values matches one of these keys.
fn has_each(
    alloc: Global,
    kind: AttributeType,
    keys: &[Octets],
    values: &[Octets],
) -> Result<bool, NoMemory>
    ensures { IfOk result (λ all. all ≡ list_all (spec.matches kind keys.now) values.now) }
{
    for value in values {
        if !matches(alloc, kind, keys, value)? {
            return Ok(false);
        }
    }
    Ok(true)
}

/// The values that match none of these keys.
fn unmatched(
    alloc: Global,
    kind: AttributeType,
    keys: &[Octets],
    values: &[Octets],
) -> Result<OctetsList, NoMemory>
    ensures { IfOk result (λ left. left ≡ spec.unmatched kind keys.now values.now) }
{
    let mut left = OctetsList::new(alloc);
    for value in values {
        if !matches(alloc, kind, keys, value)? {
            left.push(value.copy()?)?;
        }
    }
    Ok(left)
}

/// Whether nothing rejects the edit: attributeOrValueExists where two of its values have one key
/// or it adds a value that is there, and noSuchAttribute where it deletes a value or a type that is
/// not there.
fn check_edit(alloc: Global, attributes: &[Attribute], edit: &Edit) -> Result<(), OpFault>
    ensures ok { OnOk result (spec.edit_code attributes.now edit.now ≡ None) }
    ensures fault { IfErr result (HasOpCode (spec.edit_code attributes.now edit.now)) }
{
    let kind = edit.kind;
    let values = edit.values.list();
    if has_equal_values(alloc, kind, values)? {
        return Err(OpFault::Code(ATTRIBUTE_OR_VALUE_EXISTS));
    }
    match edit.how {
        How::Add => {
            let keys = keys_there(alloc, attributes, kind)?;
            if has_some(alloc, kind, &keys, values)? {
                return Err(OpFault::Code(ATTRIBUTE_OR_VALUE_EXISTS));
            }
        }
        How::Delete => {
            let keys = keys_there(alloc, attributes, kind)?;
            if !has_kind(attributes, kind) || !has_each(alloc, kind, &keys, values)? {
                return Err(OpFault::Code(NO_SUCH_ATTRIBUTE));
            }
        }
        How::Replace => {}
    }
    Ok(())
}

/// The attributes without the type.
fn without_kind(
    alloc: Global,
    attributes: &[Attribute],
    kind: AttributeType,
) -> Result<Vec<Attribute>, NoMemory>
    ensures { IfOk result (λ left. left.items ≡ spec.without_kind attributes.now kind) }
{
    let mut left = Vec::with_capacity(alloc, attributes.len())?;
    for attribute in attributes {
        if attribute.kind != kind {
            left.push(attribute.copy()?)?;
        }
    }
    Ok(left)
}

/// The attribute without the values that match one of these keys, where it is of the type.
fn left_of(
    alloc: Global,
    attribute: &Attribute,
    kind: AttributeType,
    keys: &[Octets],
) -> Result<Attribute, NoMemory>
    ensures { IfOk result (λ left.
        left ≡ spec.change_of (spec.unmatched kind keys.now) kind attribute.now) }
{
    if attribute.kind == kind {
        let values = unmatched(alloc, kind, keys, attribute.values.list())?;
        return Ok(Attribute {
            kind: attribute.kind,
            values,
        });
    }
    attribute.copy()
}

/// The attributes without the values of the type that match one of these.
fn without_values(
    alloc: Global,
    attributes: &[Attribute],
    kind: AttributeType,
    values: &[Octets],
) -> Result<Vec<Attribute>, NoMemory>
    ensures { IfOk result (λ left.
        left.items ≡ spec.without_values attributes.now kind values.now) }
{
    let keys = keys_of(alloc, kind, values)?;
    let mut left = Vec::with_capacity(alloc, attributes.len())?;
    for attribute in attributes {
        let rest = left_of(alloc, attribute, kind, &keys)?;
        if !rest.values.list().is_empty() {
            left.push(rest)?;
        }
    }
    Ok(left)
}

/// The attributes with these values of the type in the place of its others.
fn with_other_values(
    alloc: Global,
    attributes: &[Attribute],
    kind: AttributeType,
    values: &OctetsList,
) -> Result<Vec<Attribute>, NoMemory>
    ensures { IfOk result (λ items.
        items.items ≡ spec.with_change (λ held. values.now) attributes.now kind) }
{
    let mut items = Vec::with_capacity(alloc, attributes.len())?;
    for attribute in attributes {
        if attribute.kind == kind {
            items.push(Attribute {
                kind: attribute.kind,
                values: values.copy()?,
            })?;
        } else {
            items.push(attribute.copy()?)?;
        }
    }
    Ok(items)
}

/// The attributes with these values of the type alone, last where the type is new.
fn with_only(
    alloc: Global,
    attributes: &[Attribute],
    kind: AttributeType,
    values: &OctetsList,
) -> Result<Vec<Attribute>, NoMemory>
    ensures { IfOk result (λ items. items.items ≡ spec.with_only attributes.now kind values.now) }
{
    if has_kind(attributes, kind) {
        return with_other_values(alloc, attributes, kind, values);
    }
    let mut items = copies(alloc, attributes)?;
    items.push(Attribute {
        kind,
        values: values.copy()?,
    })?;
    Ok(items)
}

/// The attributes after the edit.
fn changed(alloc: Global, attributes: &[Attribute], edit: &Edit) -> Result<Vec<Attribute>, NoMemory>
    ensures { IfOk result (λ items. items.items ≡ spec.after_edit attributes.now edit.now) }
{
    match edit.how {
        How::Add => {
            let mut items = copies(alloc, attributes)?;
            let values = edit.values.copy()?;
            add_values(&mut items, edit.kind, values)?;
            Ok(items)
        }
        How::Delete => deleted(alloc, attributes, edit.kind, &edit.values),
        How::Replace => replaced(alloc, attributes, edit.kind, &edit.values),
    }
}

fn deleted(
    alloc: Global,
    attributes: &[Attribute],
    kind: AttributeType,
    values: &OctetsList,
) -> Result<Vec<Attribute>, NoMemory>
    ensures { IfOk result (λ items. items.items ≡ spec.deleted attributes.now kind values.now) }
{
    if values.list().is_empty() {
        without_kind(alloc, attributes, kind)
    } else {
        without_values(alloc, attributes, kind, values.list())
    }
}

fn replaced(
    alloc: Global,
    attributes: &[Attribute],
    kind: AttributeType,
    values: &OctetsList,
) -> Result<Vec<Attribute>, NoMemory>
    ensures { IfOk result (λ items. items.items ≡ spec.replaced attributes.now kind values.now) }
{
    if values.list().is_empty() {
        without_kind(alloc, attributes, kind)
    } else {
        with_only(alloc, attributes, kind, values)
    }
}

/// The attributes after an edit that a client may ask for.
fn after_edit(alloc: Global, attrs: &Attrs, edit: &Edit) -> Result<Attrs, NoMemory>
    requires { is_sound_edit edit.now ≡ true }
    ensures { IfOk result (λ after. after ≡ spec.after_edit attrs.now edit.now) }
{
    let items = changed(alloc, attrs.list(), edit)?;
    Attrs::of(items)
}

/// The attributes after the edits, which are made and judged one after the other.
pub(crate) fn edited(alloc: Global, attrs: &Attrs, edits: &[Edit]) -> Result<Attrs, OpFault>
    requires { list_all is_sound_edit edits.now ≡ true }
    ensures value { IfOk result (λ after. after ≡ spec.after_edits attrs.now edits.now) }
    ensures ok { OnOk result (spec.edits_code attrs.now edits.now ≡ None) }
    ensures fault { IfErr result (HasOpCode (spec.edits_code attrs.now edits.now)) }
{
    let mut after = attrs.copy()?;
    for edit in edits {
        check_edit(alloc, after.list(), edit)?;
        after = after_edit(alloc, &after, edit)?;
    }
    Ok(after)
}

/// The pairs of the name's own RDN.
pub fn own_pairs(dn: &Dn) -> &[Pair]
    ensures { result.now ≡ state.own_pairs dn.now }
{
    match dn.rdns() {
        [] => &[],
        [rdn, ..] => rdn.list(),
    }
}

/// Whether this is the key of the value.
fn has_key(alloc: Global, kind: AttributeType, key: &[u8], value: &Octets) -> Result<bool, NoMemory>
    ensures { IfOk result (λ found. found ≡ spec.has_key kind key.now value.now) }
{
    match known_key(alloc, kind, value.as_slice())? {
        None => Ok(false),
        Some(own) => Ok(own.as_slice() == key),
    }
}

/// Whether this is the key of one of the values.
fn has_keyed(
    alloc: Global,
    kind: AttributeType,
    key: &[u8],
    values: &[Octets],
) -> Result<bool, NoMemory>
    ensures { IfOk result (λ found. found ≡ list_any (spec.has_key kind key.now) values.now) }
{
    for value in values {
        if has_key(alloc, kind, key, value)? {
            return Ok(true);
        }
    }
    Ok(false)
}

/// Whether the attribute is of the type, and this is the key of one of its values.
fn holds_key(
    alloc: Global,
    kind: AttributeType,
    key: &[u8],
    attribute: &Attribute,
) -> Result<bool, NoMemory>
    ensures { IfOk result (λ found. found ≡ spec.holds_key kind key.now attribute.now) }
{
    if attribute.kind != kind {
        return Ok(false);
    }
    has_keyed(alloc, kind, key, attribute.values.list())
}

/// Whether the value of the pair is there. The pair has its key with it.
fn has_pair_value(alloc: Global, attributes: &[Attribute], pair: &Pair) -> Result<bool, NoMemory>
    ensures { IfOk result (λ found. found ≡ spec.has_pair_value attributes.now pair.now) }
{
    let key = pair.key();
    for attribute in attributes {
        if holds_key(alloc, pair.kind, key, attribute)? {
            return Ok(true);
        }
    }
    Ok(false)
}

/// Whether the value of each pair of the name's own RDN is there.
pub(crate) fn has_own_pairs(
    alloc: Global,
    attributes: &[Attribute],
    dn: &Dn,
) -> Result<bool, NoMemory>
    ensures { IfOk result (λ all. all ≡ has_own_pairs attributes.now dn.now) }
{
    for pair in own_pairs(dn) {
        if !has_pair_value(alloc, attributes, pair)? {
            return Ok(false);
        }
    }
    Ok(true)
}

/// The attributes with the value of the pair last, where none that matches is there.
fn with_pair(alloc: Global, attrs: &Attrs, pair: &Pair) -> Result<Attrs, NoMemory>
    ensures { IfOk result (λ after. after ≡ spec.with_pair attrs.now pair.now) }
{
    if has_pair_value(alloc, attrs.list(), pair)? {
        return attrs.copy();
    }
    let mut items = copies(alloc, attrs.list())?;
    let values = list_of_one(alloc, &pair.value)?;
    add_values(&mut items, pair.kind, values)?;
    Attrs::of(items)
}

/// A list of this value alone.
fn list_of_one(alloc: Global, value: &Octets) -> Result<OctetsList, NoMemory>
    ensures { IfOk result (λ values. values ≡ value.now ∷ []) }
{
    let mut values = OctetsList::new(alloc);
    values.push(value.copy()?)?;
    Ok(values)
}

/// The attributes without the values that match the pair's.
fn without_pair(alloc: Global, attrs: &Attrs, pair: &Pair) -> Result<Attrs, NoMemory>
    ensures { IfOk result (λ after. after ≡ spec.without_pair attrs.now pair.now) }
{
    let items = without_values(alloc, attrs.list(), pair.kind, from_ref(&pair.value))?;
    Attrs::of(items)
}

fn with_pairs(alloc: Global, attrs: &Attrs, pairs: &[Pair]) -> Result<Attrs, NoMemory>
    ensures { IfOk result (λ after. after ≡ fold spec.with_pair attrs.now pairs.now) }
{
    let mut after = attrs.copy()?;
    for pair in pairs {
        after = with_pair(alloc, &after, pair)?;
    }
    Ok(after)
}

/// The attributes without the values of the one RDN's pairs that are not in the other.
fn without_pairs_gone(
    alloc: Global,
    attrs: Attrs,
    old: &[Pair],
    new: &[Pair],
) -> Result<Attrs, NoMemory>
    ensures { IfOk result (λ after.
        after ≡ fold spec.without_pair attrs (spec.pairs_gone old.now new.now)) }
{
    let mut after = attrs;
    for pair in old {
        if !has_pair(new, pair) {
            after = without_pair(alloc, &after, pair)?;
        }
    }
    Ok(after)
}

/// Whether a pair like this one is among the pairs.
fn has_pair(pairs: &[Pair], pair: &Pair) -> bool
    ensures { result ≡ has_pair pairs.now pair.now }
{
    pairs.iter().any(|other| is_same_pair(pair, other))
}

/// Whether the pairs have one type, and values that match.
fn is_same_pair(one: &Pair, other: &Pair) -> bool
    ensures { result ≡ same_pair one.now other.now }
{
    one.kind == other.kind && one.key() == other.key()
}

/// The attributes of an entry that gets another RDN (RFC 4511, section 4.9): with the values of the
/// new one, and where they are to go without those of the old one that are not in the new. It is
/// `NoMemory` where memory runs out.
pub fn with_new_rdn(
    alloc: Global,
    attrs: &Attrs,
    old: &[Pair],
    new: &Rdn,
    deletes: bool,
) -> Result<Attrs, NoMemory>
    ensures { IfOk result (λ after. after ≡ spec.with_rdn attrs.now old.now new.now deletes) }
{
    let after = with_pairs(alloc, attrs, new.list())?;
    if deletes {
        return without_pairs_gone(alloc, after, old, new.list());
    }
    Ok(after)
}
