//! What stands under a key, or beside it.
ghost use Rattle.std.specs.Prelude.{◌≡◌, ◌≢◌, ◌≤◌, ◌&&◌, true, false, not, Ok, Err, IfOk, OnOk, IfErr, option_copied};
ghost use Rattle.toml.specs.Data.{get};
ghost use Rattle.toml.specs.View.{view};
ghost use Rattle.sync_config.specs.Keys.{flag_of, has, text_at, text_of, required, name_at, number_at, number_of};
ghost use Rattle.sync_config.specs.declared.fault.ConfigFault.TheVariants.{NotToml, NoMemory, MissingKey, BadValue};

use crate::fault::{bad_value, missing_key};
use crate::{ConfigFault, ConfigText};
use dn_names::{Dn, NameFault};
use std::alloc::Global;
use toml::Value;

/// The numbers that may stand under a key, and the one that an absent key stands for.
#[derive(Clone, Copy)]
pub(crate) struct Range {
    pub least: u32,
    pub most: u32,
    pub absent: u32,
}

/// Whether the key is there.
pub(crate) fn has(document: &Value, key: &str) -> bool
    ensures { result ≡ has key.now (view document.now) }
{
    document.get(key).is_some()
}

/// The text under a key, or None where the key is absent. A fault has the whole name of the key.
pub(crate) fn text_under<'a>(
    alloc: Global,
    table: &'a Value,
    key: &str,
    whole: &str,
) -> Result<Option<&'a str>, ConfigFault>
    ensures ok { IfOk result
        (λ found. text_of whole.now (get key.now (view table.now)) ≡ Ok (option_copied found)) }
    ensures fault { IfErr result (λ fault. fault ≢ NoMemory
        → text_of whole.now (get key.now (view table.now)) ≡ Err fault) }
    ensures keyed { IfErr result (λ fault. fault ≢ NotToml) }
{
    let Some(value) = table.get(key) else {
        return Ok(None);
    };
    match value.as_str() {
        Some(text) => Ok(Some(text)),
        None => Err(bad_value(alloc, whole)),
    }
}

/// The text under a key of a document, or None where the key is absent.
pub(crate) fn text_at<'a>(
    alloc: Global,
    document: &'a Value,
    key: &str,
) -> Result<Option<&'a str>, ConfigFault>
    ensures ok { IfOk result
        (λ found. text_at key.now (view document.now) ≡ Ok (option_copied found)) }
    ensures fault { IfErr result
        (λ fault. fault ≢ NoMemory → text_at key.now (view document.now) ≡ Err fault) }
    ensures keyed { IfErr result (λ fault. fault ≢ NotToml) }
{
    text_under(alloc, document, key, key)
}

/// The text under a key that has to be there. A fault has the whole name of the key.
pub(crate) fn required_under<'a>(
    alloc: Global,
    table: &'a Value,
    key: &str,
    whole: &str,
) -> Result<&'a str, ConfigFault>
    ensures ok { IfOk result (λ text.
        required whole.now (text_of whole.now (get key.now (view table.now))) ≡ Ok text.now) }
    ensures fault { IfErr result (λ fault. fault ≢ NoMemory
        → required whole.now (text_of whole.now (get key.now (view table.now))) ≡ Err fault) }
    ensures keyed { IfErr result (λ fault. fault ≢ NotToml) }
{
    match text_under(alloc, table, key, whole)? {
        Some(text) => Ok(text),
        None => Err(missing_key(alloc, whole)),
    }
}

/// The flag under a key, which an absent key leaves down. A fault has the whole name of the key.
pub(crate) fn flag_under(
    alloc: Global,
    table: &Value,
    key: &str,
    whole: &str,
) -> Result<bool, ConfigFault>
    ensures ok { IfOk result
        (λ flag. flag_of whole.now (get key.now (view table.now)) ≡ Ok flag) }
    ensures fault { IfErr result (λ fault. fault ≢ NoMemory
        → flag_of whole.now (get key.now (view table.now)) ≡ Err fault) }
    ensures keyed { IfErr result (λ fault. fault ≢ NotToml) }
{
    let Some(value) = table.get(key) else {
        return Ok(false);
    };
    match value.as_bool() {
        Some(flag) => Ok(flag),
        None => Err(bad_value(alloc, whole)),
    }
}

/// A copy of the text under a key, or None where the key is absent.
pub(crate) fn copied_text_at(
    alloc: Global,
    document: &Value,
    key: &str,
) -> Result<Option<ConfigText>, ConfigFault>
    ensures ok { IfOk result (λ found. text_at key.now (view document.now) ≡ Ok found) }
    ensures fault { IfErr result
        (λ fault. fault ≢ NoMemory → text_at key.now (view document.now) ≡ Err fault) }
    ensures keyed { IfErr result (λ fault. fault ≢ NotToml) }
{
    match text_at(alloc, document, key)? {
        Some(text) => Ok(Some(ConfigText::from_str(alloc, text)?)),
        None => Ok(None),
    }
}

/// A copy of the text under a key that has to be there.
pub(crate) fn required_text_at(
    alloc: Global,
    document: &Value,
    key: &str,
) -> Result<ConfigText, ConfigFault>
    ensures ok { IfOk result
        (λ text. required key.now (text_at key.now (view document.now)) ≡ Ok text) }
    ensures fault { IfErr result (λ fault. fault ≢ NoMemory
        → required key.now (text_at key.now (view document.now)) ≡ Err fault) }
    ensures keyed { IfErr result (λ fault. fault ≢ NotToml) }
{
    match copied_text_at(alloc, document, key)? {
        Some(text) => Ok(text),
        None => Err(missing_key(alloc, key)),
    }
}

/// The name under a key, or None where the key is absent.
pub(crate) fn name_at(alloc: Global, document: &Value, key: &str) -> Result<Option<Dn>, ConfigFault>
    ensures ok { IfOk result (λ found. name_at key.now (view document.now) ≡ Ok found) }
    ensures fault { IfErr result
        (λ fault. fault ≢ NoMemory → name_at key.now (view document.now) ≡ Err fault) }
    ensures keyed { IfErr result (λ fault. fault ≢ NotToml) }
{
    let Some(text) = text_at(alloc, document, key)? else {
        return Ok(None);
    };
    match Dn::parse(alloc, text.as_bytes()) {
        Ok(name) => Ok(Some(name)),
        Err(NameFault::NoMemory) => Err(ConfigFault::NoMemory),
        Err(_) => Err(bad_value(alloc, key)),
    }
}

/// The number under a key, within the range, or the one that stands for an absent key. A fault has
/// the whole name of the key.
pub(crate) fn number_under(
    alloc: Global,
    table: &Value,
    key: &str,
    whole: &str,
    range: Range,
) -> Result<u32, ConfigFault>
    requires { range.absent ≤ range.most }
    ensures ok { IfOk result (λ number. number_of whole.now
        range.least range.most range.absent (get key.now (view table.now)) ≡ Ok number) }
    ensures within { IfOk result (λ number. number ≤ range.most) }
    ensures fault { IfErr result (λ fault. fault ≢ NoMemory → number_of whole.now
        range.least range.most range.absent (get key.now (view table.now)) ≡ Err fault) }
    ensures keyed { IfErr result (λ fault. fault ≢ NotToml) }
{
    let Some(value) = table.get(key) else {
        return Ok(range.absent);
    };
    match value.as_integer() {
        Some(number) if i64::from(range.least) <= number && number <= i64::from(range.most) => {
            Ok(number.unsigned_abs() as u32)
        }
        _ => Err(bad_value(alloc, whole)),
    }
}

/// The number under a key of a document, within the range, or the one that stands for an absent
/// key.
pub(crate) fn number_at(
    alloc: Global,
    document: &Value,
    key: &str,
    range: Range,
) -> Result<u32, ConfigFault>
    requires { range.absent ≤ range.most }
    ensures ok { IfOk result (λ number.
        number_at key.now range.least range.most range.absent (view document.now) ≡ Ok number) }
    ensures within { IfOk result (λ number. number ≤ range.most) }
    ensures fault { IfErr result (λ fault. fault ≢ NoMemory
        → number_at key.now range.least range.most range.absent (view document.now) ≡ Err fault) }
    ensures keyed { IfErr result (λ fault. fault ≢ NotToml) }
{
    number_under(alloc, document, key, key, range)
}

/// Refuses a key that is absent though it is needed.
pub(crate) fn check_needed(
    alloc: Global,
    document: &Value,
    key: &str,
    is_needed: bool,
) -> Result<(), ConfigFault>
    ensures ok { OnOk result ((is_needed && not (has key.now (view document.now))) ≡ false) }
    ensures missing { IfErr result (λ _.
        (is_needed && not (has key.now (view document.now))) ≡ true) }
    ensures fault { IfErr result (λ fault. fault ≢ NoMemory → fault ≡ MissingKey key.now) }
    ensures keyed { IfErr result (λ fault. fault ≢ NotToml) }
{
    if is_needed && !has(document, key) {
        return Err(missing_key(alloc, key));
    }
    Ok(())
}

/// Refuses a key that is there though it is forbidden.
pub(crate) fn check_forbidden(
    alloc: Global,
    document: &Value,
    key: &str,
    is_forbidden: bool,
) -> Result<(), ConfigFault>
    ensures ok { OnOk result ((is_forbidden && has key.now (view document.now)) ≡ false) }
    ensures there { IfErr result (λ _.
        (is_forbidden && has key.now (view document.now)) ≡ true) }
    ensures fault { IfErr result (λ fault. fault ≢ NoMemory → fault ≡ BadValue key.now) }
    ensures keyed { IfErr result (λ fault. fault ≢ NotToml) }
{
    if is_forbidden && has(document, key) {
        return Err(bad_value(alloc, key));
    }
    Ok(())
}
