//! The lines of a report.
ghost use Rattle.std.specs.Prelude.{◌≡◌, ◌++◌, ◌∷◌, [], map, Some, IfOk, OnOk, OnErr};
ghost use Rattle.std.specs.Fmt.{decimal};
ghost use Rattle.ldap_ber.specs.Unfinished.{Extends};
ghost use Rattle.sha2.specs.Sha256.{sha256};
ghost use Rattle.cascade_report.specs.ReportLines as spec;

use crate::NoMemory;
use crate::digested::DigestedConsumer;
use crate::notes::Origin;
use entry_tree::Entry;
use itoa::Buffer;
use ldif_text::write_entry;
use std::alloc::Global;
use sync_consumer::EntryMap;

/// Room for a line, but for the digits of a message.
const LINE_ROOM: usize = 192;

/// `N`. After a refusal the text is as before.
fn push_number(out: &mut Vec<u8>, number: u64) -> Result<(), NoMemory>
    ensures ok { OnOk result (out.new.items ≡ out.old.items ++ decimal number) }
    ensures err { OnErr result (out.new.items ≡ out.old.items) }
{
    let mut digits = Buffer::new();
    out.extend_from_slice(digits.format(number).as_bytes())
}

/// The entries as LDIF (RFC 2849), each with its entryUUID and its entryCSN. It is `NoMemory` where
/// memory runs out.
#[tactic(auto, unfolding(crate::specs::ReportLines::text_of))]
pub fn text_of(alloc: Global, entries: &[&Entry]) -> Result<Vec<u8>, NoMemory>
    ensures { IfOk result (λ text. text.items ≡ spec.text_of (map (λ e. e.now) entries.now)) }
{
    let mut text = Vec::new(alloc);
    for entry in entries {
        push_entry(&mut text, entry)?;
    }
    Ok(text)
}

/// The entry as a record. After a refusal the text is as before.
fn push_entry(out: &mut Vec<u8>, entry: &Entry) -> Result<(), NoMemory>
    ensures ok { OnOk result (out.new.items ≡ out.old.items ++ spec.entry_text entry.now) }
    ensures err { OnErr result (out.new.items ≡ out.old.items) }
{
    let record = entry_text(*out.allocator(), entry)?;
    out.extend_from_slice(&record)
}

/// The entry as a record of LDIF, with its entryUUID and its entryCSN.
pub(crate) fn entry_text(alloc: Global, entry: &Entry) -> Result<Vec<u8>, NoMemory>
    ensures { IfOk result (λ text. text.items ≡ spec.entry_text entry.now) }
{
    let name = entry.dn.write()?;
    let operational = Some((entry.uuid, entry.csn));
    write_entry(alloc, name.as_slice(), &entry.attrs, operational)
}

/// `WORD NAME`, without the end of the line, for which there is room mostly. After a refusal a part
/// of it may be there.
fn push_front(out: &mut Vec<u8>, word: &[u8], name: &[u8]) -> Result<(), NoMemory>
    ensures ok { OnOk result (out.new.items ≡ out.old.items ++ spec.prefix word.now name.now) }
    ensures more { Extends out.old.items out.new.items }
{
    out.reserve(LINE_ROOM)?;
    out.extend_from_slice(word)?;
    out.push(b' ')?;
    out.extend_from_slice(name)?;
    Ok(())
}

/// `WORD NAME`. After a refusal the text is as before.
fn push_named(out: &mut Vec<u8>, word: &[u8], name: &[u8]) -> Result<(), NoMemory>
    ensures ok { OnOk result (out.new.items ≡ out.old.items ++ spec.named_line word.now name.now) }
    ensures err { OnErr result (out.new.items ≡ out.old.items) }
{
    let before = out.len();
    if let Err(error) = push_parts_of_named(out, word, name) {
        out.truncate(before);
        return Err(error);
    }
    Ok(())
}

/// `WORD NAME`. After a refusal a part of it may be there.
fn push_parts_of_named(out: &mut Vec<u8>, word: &[u8], name: &[u8]) -> Result<(), NoMemory>
    ensures ok { OnOk result (out.new.items ≡ out.old.items ++ spec.named_line word.now name.now) }
    ensures more { Extends out.old.items out.new.items }
{
    push_front(out, word, name)?;
    out.push(b'\n')?;
    Ok(())
}

/// `WORD NAME N`. After a refusal the text is as before.
fn push_numbered(out: &mut Vec<u8>, word: &[u8], name: &[u8], number: u64) -> Result<(), NoMemory>
    ensures ok { OnOk result
        (out.new.items ≡ out.old.items ++ spec.numbered_line word.now name.now number) }
    ensures err { OnErr result (out.new.items ≡ out.old.items) }
{
    let mut digits = Buffer::new();
    push_with_text(out, word, name, digits.format(number).as_bytes())
}

/// `WORD NAME TEXT`. After a refusal the text is as before.
#[inline(always)]
fn push_with_text(out: &mut Vec<u8>, word: &[u8], name: &[u8], text: &[u8]) -> Result<(), NoMemory>
    ensures ok { OnOk result (out.new.items
        ≡ out.old.items ++ spec.prefix word.now name.now ++ 32 ∷ [] ++ text.now ++ 10 ∷ []) }
    ensures err { OnErr result (out.new.items ≡ out.old.items) }
{
    let before = out.len();
    if let Err(error) = push_parts_with_text(out, word, name, text) {
        out.truncate(before);
        return Err(error);
    }
    Ok(())
}

/// `WORD NAME TEXT`. After a refusal a part of it may be there.
#[inline(always)]
fn push_parts_with_text(
    out: &mut Vec<u8>,
    word: &[u8],
    name: &[u8],
    text: &[u8],
) -> Result<(), NoMemory>
    ensures ok { OnOk result (out.new.items
        ≡ out.old.items ++ spec.prefix word.now name.now ++ 32 ∷ [] ++ text.now ++ 10 ∷ []) }
    ensures more { Extends out.old.items out.new.items }
{
    push_front(out, word, name)?;
    out.push(b' ')?;
    out.extend_from_slice(text)?;
    out.push(b'\n')?;
    Ok(())
}

/// Appends the line `wrote P CODE N`. It is `NoMemory` where memory runs out, and the text is as
/// before.
pub fn push_wrote(out: &mut Vec<u8>, name: &[u8], code: u32, number: u64) -> Result<(), NoMemory>
    ensures ok { OnOk result
        (out.new.items ≡ out.old.items ++ spec.wrote_line name.now code number) }
    ensures err { OnErr result (out.new.items ≡ out.old.items) }
{
    let before = out.len();
    if let Err(error) = push_parts_of_wrote(out, name, code, number) {
        out.truncate(before);
        return Err(error);
    }
    Ok(())
}

/// `wrote P CODE N`. After a refusal a part of it may be there.
fn push_parts_of_wrote(
    out: &mut Vec<u8>,
    name: &[u8],
    code: u32,
    number: u64,
) -> Result<(), NoMemory>
    ensures ok { OnOk result
        (out.new.items ≡ out.old.items ++ spec.wrote_line name.now code number) }
    ensures more { Extends out.old.items out.new.items }
{
    push_front(out, b"wrote", name)?;
    out.push(b' ')?;
    push_number(out, u64::from(code))?;
    out.push(b' ')?;
    push_number(out, number)?;
    out.push(b'\n')?;
    Ok(())
}

/// `opened C N`. After a refusal the text is as before.
pub fn push_opened(out: &mut Vec<u8>, name: &[u8], number: u64) -> Result<(), NoMemory>
    ensures ok { OnOk result (out.new.items ≡ out.old.items ++ spec.opened_line name.now number) }
    ensures err { OnErr result (out.new.items ≡ out.old.items) }
{
    push_numbered(out, b"opened", name, number)
}

/// `refused C CODE`. After a refusal the text is as before.
pub fn push_refused(out: &mut Vec<u8>, name: &[u8], code: u32) -> Result<(), NoMemory>
    ensures ok { OnOk result (out.new.items ≡ out.old.items ++ spec.refused_line name.now code) }
    ensures err { OnErr result (out.new.items ≡ out.old.items) }
{
    push_numbered(out, b"refused", name, u64::from(code))
}

/// `sent C HEX`: the bytes of a message in lower-case hexadecimal digits. After a refusal the text
/// is as before.
pub fn push_sent(out: &mut Vec<u8>, name: &[u8], message: &[u8]) -> Result<(), NoMemory>
    ensures ok { OnOk result
        (out.new.items ≡ out.old.items ++ spec.sent_line name.now message.now) }
    ensures err { OnErr result (out.new.items ≡ out.old.items) }
{
    let digits = hex::encode(*out.allocator(), message)?;
    out.reserve(digits.len().saturating_add(LINE_ROOM))?;
    push_with_text(out, b"sent", name, digits.as_bytes())
}

/// `taken C`. After a refusal the text is as before.
pub fn push_taken(out: &mut Vec<u8>, name: &[u8]) -> Result<(), NoMemory>
    ensures ok { OnOk result (out.new.items ≡ out.old.items ++ spec.taken_line name.now) }
    ensures err { OnErr result (out.new.items ≡ out.old.items) }
{
    push_named(out, b"taken", name)
}

/// `stored C N entries E sha256 H origin P M`. After a refusal the text is as before.
pub fn push_stored(
    out: &mut Vec<u8>,
    name: &[u8],
    consumer: &mut DigestedConsumer,
    number: u64,
    origin: &Option<Origin>,
) -> Result<(), NoMemory>
    ensures line { OnOk result (out.new.items ≡ out.old.items
        ++ spec.stored_line name.now number consumer.old.copy.held origin.now) }
    ensures err { OnErr result (out.new.items ≡ out.old.items) }
    ensures same { consumer.new ≡ consumer.old }
{
    let digest = consumer.digest()?;
    let entries = consumer.inner().entries();
    let before = out.len();
    if let Err(error) = push_parts_of_stored(out, name, number, entries, &digest, origin) {
        out.truncate(before);
        return Err(error);
    }
    Ok(())
}

/// `stored C N entries E sha256 H origin P M`, with the digest of their text. After a refusal a
/// part of it may be there.
fn push_parts_of_stored(
    out: &mut Vec<u8>,
    name: &[u8],
    number: u64,
    entries: &EntryMap,
    digest: &[u8; 32],
    origin: &Option<Origin>,
) -> Result<(), NoMemory>
    requires { digest.now ≡ sha256 (spec.text_of entries.now) }
    ensures ok { OnOk result (out.new.items ≡ out.old.items
        ++ spec.stored_line name.now number entries.now origin.now) }
    ensures more { Extends out.old.items out.new.items }
{
    push_front(out, b"stored", name)?;
    push_content(out, number, entries, digest)?;
    push_origin(out, origin)?;
    Ok(())
}

/// ` N entries E sha256 H`, with the digest of their text. After a refusal a part of it may be
/// there.
fn push_content(
    out: &mut Vec<u8>,
    number: u64,
    entries: &EntryMap,
    digest: &[u8; 32],
) -> Result<(), NoMemory>
    requires { digest.now ≡ sha256 (spec.text_of entries.now) }
    ensures ok { OnOk result
        (out.new.items ≡ out.old.items ++ spec.content_text number entries.now) }
    ensures more { Extends out.old.items out.new.items }
{
    let digits = hex::encode(*out.allocator(), digest.as_slice())?;
    out.push(b' ')?;
    push_number(out, number)?;
    out.extend_from_slice(b" entries ")?;
    push_number(out, entries.len() as u64)?;
    out.extend_from_slice(b" sha256 ")?;
    out.extend_from_slice(digits.as_bytes())?;
    Ok(())
}

/// ` origin P M`, or ` origin -` where none is known, and the end of the line. After a refusal a
/// part of it may be there.
fn push_origin(out: &mut Vec<u8>, origin: &Option<Origin>) -> Result<(), NoMemory>
    ensures ok { OnOk result (out.new.items ≡ out.old.items ++ spec.origin_text origin.now) }
    ensures more { Extends out.old.items out.new.items }
{
    out.extend_from_slice(b" origin ")?;
    push_origin_name(out, origin)?;
    out.push(b'\n')?;
    Ok(())
}

/// `P M`, or `-` where none is known. After a refusal a part of it may be there.
fn push_origin_name(out: &mut Vec<u8>, origin: &Option<Origin>) -> Result<(), NoMemory>
    ensures ok { OnOk result (out.new.items ≡ out.old.items ++ spec.origin_name origin.now) }
    ensures more { Extends out.old.items out.new.items }
{
    match origin {
        Some(origin) => push_prefix(out, origin),
        None => {
            out.push(b'-')?;
            Ok(())
        }
    }
}

/// `P M`. After a refusal a part of it may be there.
fn push_prefix(out: &mut Vec<u8>, origin: &Origin) -> Result<(), NoMemory>
    ensures ok { OnOk result
        (out.new.items ≡ out.old.items ++ spec.origin_name (Some origin.now)) }
    ensures more { Extends out.old.items out.new.items }
{
    out.extend_from_slice(origin.root.as_slice())?;
    out.push(b' ')?;
    push_number(out, origin.number)?;
    Ok(())
}

/// `ended C CODE`. After a refusal the text is as before.
pub fn push_ended(out: &mut Vec<u8>, name: &[u8], code: i64) -> Result<(), NoMemory>
    ensures ok { OnOk result (out.new.items ≡ out.old.items ++ spec.ended_line name.now code) }
    ensures err { OnErr result (out.new.items ≡ out.old.items) }
{
    let mut digits = Buffer::new();
    push_with_text(out, b"ended", name, digits.format(code).as_bytes())
}

/// `fault C NAME`. After a refusal the text is as before.
pub fn push_fault(out: &mut Vec<u8>, name: &[u8], fault: &[u8]) -> Result<(), NoMemory>
    ensures ok { OnOk result (out.new.items ≡ out.old.items ++ spec.fault_line name.now fault.now) }
    ensures err { OnErr result (out.new.items ≡ out.old.items) }
{
    push_with_text(out, b"fault", name, fault)
}

/// `cut C`. After a refusal the text is as before.
pub fn push_cut(out: &mut Vec<u8>, name: &[u8]) -> Result<(), NoMemory>
    ensures ok { OnOk result (out.new.items ≡ out.old.items ++ spec.cut_line name.now) }
    ensures err { OnErr result (out.new.items ≡ out.old.items) }
{
    push_named(out, b"cut", name)
}

/// `nothing C`. After a refusal the text is as before.
pub fn push_nothing(out: &mut Vec<u8>, name: &[u8]) -> Result<(), NoMemory>
    ensures ok { OnOk result (out.new.items ≡ out.old.items ++ spec.nothing_line name.now) }
    ensures err { OnErr result (out.new.items ≡ out.old.items) }
{
    push_named(out, b"nothing", name)
}

/// `settled C N`. After a refusal the text is as before.
pub fn push_settled(out: &mut Vec<u8>, name: &[u8], number: u64) -> Result<(), NoMemory>
    ensures ok { OnOk result (out.new.items ≡ out.old.items ++ spec.settled_line name.now number) }
    ensures err { OnErr result (out.new.items ≡ out.old.items) }
{
    push_numbered(out, b"settled", name, number)
}
