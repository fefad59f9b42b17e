//! What is printed of the entries that are left.
ghost use Rattle.std.specs.Prelude.{◌≡◌, ◌++◌, ◌==◌, IfOk, OnErr, OnOk, map, position, string_bytes};
ghost use Rattle.std.specs.List.{after_first, flat_map};
ghost use Rattle.hex.specs.Hex.{encode_lower};
ghost use Rattle.sha2.specs.Sha256.{sha256};
ghost use Rattle.drill_plan.specs.Plain.{plain, plain_of_each};
ghost use Rattle.drill_plan.specs.Summary as spec;

use entry_writes::Entry;
use hex::encode;
use ldap_ber::NoMemory;
use ldif_text::write_entry;
use sha2::{Digest, Sha256};
use std::alloc::Global;
use std::collections::BTreeSet;

/// The byte between a written name and the text of its entry: no written name has it.
const NAME_END: u8 = 0;

/// Appends `writes N entries E sha256 H`. It is `NoMemory` where memory runs out, and then the text
/// is as before.
pub fn push_writes_line(
    alloc: Global,
    text: &mut Vec<u8>,
    writes: u64,
    entries: &[&Entry],
) -> Result<(), NoMemory>
    ensures ok { OnOk result (text.new.items ≡ text.old.items
        ++ spec.writes_line writes (plain_of_each (map (λ e. e.now) entries.now))) }
    ensures err { OnErr result (text.new.items ≡ text.old.items) }
{
    let end = entries_text(alloc, entries)?;
    let line = format!(in alloc; "writes {writes}{end}")?;
    text.extend_from_slice(line.as_bytes())
}

/// Appends `consumer J entries E sha256 H`. It is `NoMemory` where memory runs out, and then the
/// text is as before.
pub fn push_consumer_line(
    alloc: Global,
    text: &mut Vec<u8>,
    consumer: u32,
    entries: &[&Entry],
) -> Result<(), NoMemory>
    ensures ok { OnOk result (text.new.items ≡ text.old.items
        ++ spec.consumer_line consumer (plain_of_each (map (λ e. e.now) entries.now))) }
    ensures err { OnErr result (text.new.items ≡ text.old.items) }
{
    let end = entries_text(alloc, entries)?;
    let line = format!(in alloc; "consumer {consumer}{end}")?;
    text.extend_from_slice(line.as_bytes())
}

/// ` entries E sha256 H`, and the end of the line.
fn entries_text(alloc: Global, entries: &[&Entry]) -> Result<String, NoMemory>
    ensures { IfOk result (λ text. string_bytes text
        ≡ spec.entries_text (plain_of_each (map (λ e. e.now) entries.now))) }
{
    let count = entries.len();
    let digest = digest_of(alloc, entries)?;
    let text = format!(in alloc; " entries {count} sha256 {digest}\n")?;
    Ok(text)
}

/// The digest of the text of the entries in the order of their written names, in digits.
fn digest_of(alloc: Global, entries: &[&Entry]) -> Result<String, NoMemory>
    ensures { IfOk result (λ digits. string_bytes digits
        ≡ encode_lower (sha256 (spec.text_of (plain_of_each (map (λ e. e.now) entries.now))))) }
{
    let text = text_of(alloc, entries)?;
    let digest = Sha256::digest(text.as_slice());
    encode(alloc, digest.as_slice())
}

/// The text of the entries in the order of their written names.
fn text_of(alloc: Global, entries: &[&Entry]) -> Result<Vec<u8>, NoMemory>
    ensures { IfOk result (λ text.
        text.items ≡ spec.text_of (plain_of_each (map (λ e. e.now) entries.now))) }
{
    let mut named = in_order(alloc, entries)?;
    let mut text = Vec::new(alloc);
    push_texts(&mut text, &mut named)?;
    Ok(text)
}

/// Appends what stands after the names, in the order of the texts, and takes these out of the set.
fn push_texts(text: &mut Vec<u8>, named: &mut BTreeSet<Vec<u8>>) -> Result<(), NoMemory>
    ensures { OnOk result (text.new.items ≡ text.old.items
        ++ flat_map (after_first (λ byte. byte == 0)) (map (λ each. each.items) named.old.keys)) }
{
    while let Some(first) = named.pop_first() {
        text.extend_from_slice(after_name(first.as_slice()))?;
    }
    Ok(())
}

/// The texts of the entries with their names before them, as a set.
fn in_order(alloc: Global, entries: &[&Entry]) -> Result<BTreeSet<Vec<u8>>, NoMemory>
    ensures { IfOk result (λ named. map (λ each. each.items) named.keys
        ≡ spec.in_order (plain_of_each (map (λ e. e.now) entries.now))) }
{
    let mut named = BTreeSet::new(alloc);
    for entry in entries {
        let _ = named.insert(named_text(alloc, entry)?)?;
    }
    Ok(named)
}

/// The text of an entry with its name before it.
fn named_text(alloc: Global, entry: &Entry) -> Result<Vec<u8>, NoMemory>
    ensures { IfOk result (λ named. named.items ≡ spec.named_text (plain entry.now)) }
{
    let name = entry.dn.write()?;
    let text = write_entry(alloc, name.as_slice(), &entry.attrs, None)?;
    let mut named = Vec::from_slice(alloc, name.as_slice())?;
    named.push(NAME_END)?;
    named.extend_from_slice(text.as_slice())?;
    Ok(named)
}

/// What stands after the name.
fn after_name(named: &[u8]) -> &[u8]
    ensures { result.now ≡ after_first (λ byte. byte == 0) named.now }
{
    match name_end(named) {
        Some(end) => &named[end + 1..],
        None => &[],
    }
}

/// Where the name ends.
fn name_end(named: &[u8]) -> Option<usize>
    ensures { result ≡ position (λ byte. byte == 0) named.now }
{
    named.iter().position(|byte| *byte == NAME_END)
}
