//! Keys of values, by the rules of their types.
ghost use Rattle.std.specs.Prelude.{◌≡◌, ◌≢◌, false, true, None, Some, is_some, IfOk, IfErr, IsTrue};
ghost use Rattle.std.specs.List.{list_all, list_any};
ghost use Rattle.text_keys.specs.Fault.{IsFaultOf};
ghost use Rattle.schema_rules.specs.Attributes.{is_of_syntax};
ghost use Rattle.schema_rules.specs.Keys as spec;
ghost use Rattle.schema_rules.specs.Schema.{is_operational, is_operational_rule};

use crate::classes::ObjectClass;
use crate::types::{AttributeType, Rule, is_same_name};
use ldap_ber::{NoMemory, Octets};
use std::alloc::{AllocError, Global};
use std::str;
use text_keys::{
    KeyFault, boolean_key, exact_key, ignore_case_key, integer_key, is_own_key, is_plain, time_key,
};

/// The key of a value: two values of a type match exactly where their keys are the same bytes (RFC
/// 4512, section 2.5.1). It is `NotUtf8` or `NotOfSyntax` where the value is not of the type's
/// syntax, or `NoMemory`.
#[tactic(auto, unfolding(crate::specs::Keys::key_of))]
pub fn key_of(alloc: Global, kind: AttributeType, value: &[u8]) -> Result<Vec<u8>, KeyFault>
    requires { is_operational kind ≡ false }
    ensures key { IfOk result (λ key. spec.key_of kind value.now ≡ Some key.items) }
    ensures fault { IfErr result (IsFaultOf value.now (spec.key_of kind value.now)) }
{
    key_by(alloc, kind.rule(), value)
}

/// The key of a value of a type with this rule.
fn key_by(alloc: Global, rule: Rule, value: &[u8]) -> Result<Vec<u8>, KeyFault>
    requires { is_operational_rule rule ≡ false }
    ensures key { IfOk result (λ key. spec.key_by rule value.now ≡ Some key.items) }
    ensures fault { IfErr result (IsFaultOf value.now (spec.key_by rule value.now)) }
{
    match rule {
        Rule::Class => class_key(alloc, value),
        Rule::Folded => ignore_case_key(alloc, value),
        Rule::FoldedAscii | Rule::ExactAscii if !is_ascii(value) => Err(syntax_fault(value)),
        Rule::FoldedAscii => ignore_case_key(alloc, value),
        Rule::ExactAscii => exact_key(alloc, value),
        Rule::Whole => integer_key(alloc, value),
        Rule::Flag => boolean_key(alloc, value),
        Rule::Time => time_key(alloc, value),
        Rule::Operational => unreachable!(),
    }
}

/// The name of a class, in lower case.
fn class_key(alloc: Global, value: &[u8]) -> Result<Vec<u8>, KeyFault>
    ensures key { IfOk result (λ key. spec.class_key value.now ≡ Some key.items) }
    ensures fault { IfErr result (IsFaultOf value.now (spec.class_key value.now)) }
{
    if ObjectClass::find(value).is_none() {
        return Err(syntax_fault(value));
    }
    Ok(
        value
            .iter()
            .map(|byte| byte.to_ascii_lowercase())
            .collect(alloc)?,
    )
}

/// The fault of a value that is not of its type's syntax.
fn syntax_fault(value: &[u8]) -> KeyFault
    ensures fault { IsFaultOf value.now None result }
    ensures shown { result ≢ KeyFault.NoMemory }
{
    match str::from_utf8(value) {
        Ok(_) => KeyFault::NotOfSyntax,
        Err(_) => KeyFault::NotUtf8,
    }
}

fn is_ascii(value: &[u8]) -> bool
    ensures { result ≡ spec.is_ascii value.now }
{
    value.iter().all(|byte| *byte < 128)
}

/// The keys of those values that have one. It is `NoMemory` where memory runs out.
pub fn keys_of(
    alloc: Global,
    kind: AttributeType,
    values: &[Octets],
) -> Result<Vec<Octets>, NoMemory>
    ensures { IfOk result (λ keys. keys.items ≡ spec.keys_of kind values.now) }
{
    let mut keys = Vec::with_capacity(alloc, values.len())?;
    for value in values {
        if let Some(key) = known_key(alloc, kind, value.as_slice())? {
            keys.push(key)?;
        }
    }
    Ok(keys)
}

/// Whether each value is of the type's syntax. It is `NoMemory` where memory runs out.
pub fn are_of_syntax(
    alloc: Global,
    kind: AttributeType,
    values: &[Octets],
) -> Result<bool, NoMemory>
    ensures { IfOk result (λ all. all ≡ list_all (is_of_syntax kind) values.now) }
{
    for value in values {
        if !is_of_syntax(alloc, kind, value.as_slice())? {
            return Ok(false);
        }
    }
    Ok(true)
}

/// Whether the value is of the type's syntax.
fn is_of_syntax(alloc: Global, kind: AttributeType, value: &[u8]) -> Result<bool, NoMemory>
    ensures { IfOk result (λ is_of. is_of ≡ is_of_syntax kind value.now) }
{
    if shows_syntax(kind, value) {
        return Ok(true);
    }
    Ok(known_key(alloc, kind, value)?.is_some())
}

/// Whether the value is seen to be of the type's syntax without its key, as the name of a class is,
/// and most text.
fn shows_syntax(kind: AttributeType, value: &[u8]) -> bool
    ensures { IsTrue result → is_some (spec.key_of kind value.now) ≡ true }
{
    match kind.rule() {
        Rule::Class => ObjectClass::find(value).is_some(),
        Rule::Folded => is_plain(value),
        Rule::FoldedAscii => is_plain(value),
        Rule::ExactAscii => is_plain(value),
        Rule::Whole => false,
        Rule::Flag => false,
        Rule::Time => false,
        Rule::Operational => false,
    }
}

/// Whether the value is seen to be its own key, as words in small letters and digits are.
fn shows_own_key(kind: AttributeType, value: &[u8]) -> bool
    ensures { IsTrue result → spec.key_of kind value.now ≡ Some value.now }
{
    match kind.rule() {
        Rule::Class => false,
        Rule::Folded => is_own_key(value),
        Rule::FoldedAscii => is_own_key(value),
        Rule::ExactAscii => is_own_key(value),
        Rule::Whole => false,
        Rule::Flag => false,
        Rule::Time => false,
        Rule::Operational => false,
    }
}

/// The key of a value, or nothing where the value has none. It is `NoMemory` where memory runs out.
#[tactic(auto, unfolding(crate::specs::Keys::key_of))]
pub fn known_key(
    alloc: Global,
    kind: AttributeType,
    value: &[u8],
) -> Result<Option<Octets>, NoMemory>
    ensures { IfOk result (λ key. key ≡ spec.key_of kind value.now) }
{
    if shows_own_key(kind, value) {
        let key = Octets::from_slice(alloc, value)?;
        return Ok(Some(key));
    }
    if kind.operational() {
        return Ok(None);
    }
    match key_of(alloc, kind, value) {
        Ok(key) => Ok(Some(Octets::from(key))),
        Err(KeyFault::NotUtf8 | KeyFault::NotOfSyntax) => Ok(None),
        Err(KeyFault::NoMemory) => Err(AllocError),
    }
}

/// Whether the value has the key. Its own is not made where it is seen to be the value, or to be
/// another. It is `NoMemory` where memory runs out.
pub fn has_key(
    alloc: Global,
    kind: AttributeType,
    key: &[u8],
    value: &[u8],
) -> Result<bool, NoMemory>
    ensures { IfOk result (λ has. has ≡ spec.has_key kind key.now value.now) }
{
    if shows_own_key(kind, value) {
        return Ok(key == value);
    }
    if is_other_class(kind, key, value) {
        return Ok(false);
    }
    match known_key(alloc, kind, value)? {
        None => Ok(false),
        Some(own) => Ok(key == own.as_slice()),
    }
}

/// Whether some value has the key. It is `NoMemory` where memory runs out.
pub fn any_has_key(
    alloc: Global,
    kind: AttributeType,
    key: &[u8],
    values: &[Octets],
) -> Result<bool, NoMemory>
    ensures { IfOk result (λ found. found ≡ list_any (spec.has_key kind key.now) values.now) }
{
    for value in values {
        if has_key(alloc, kind, key, value.as_slice())? {
            return Ok(true);
        }
    }
    Ok(false)
}

/// Whether values of the type are names of classes, and the value is not the name that is the key.
fn is_other_class(kind: AttributeType, key: &[u8], value: &[u8]) -> bool
    ensures { IsTrue result → spec.has_key kind key.now value.now ≡ false }
{
    match kind.rule() {
        Rule::Class => !is_same_name(key, value),
        Rule::Folded => false,
        Rule::FoldedAscii => false,
        Rule::ExactAscii => false,
        Rule::Whole => false,
        Rule::Flag => false,
        Rule::Time => false,
        Rule::Operational => false,
    }
}
