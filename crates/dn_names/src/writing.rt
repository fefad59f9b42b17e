//! Names as text (RFC 4514, section 2).
ghost use Rattle.std.specs.Prelude.{◌≡◌, ◌≤◌, ◌*◌, ◌++◌, length, OnOk};
ghost use Rattle.dn_names.specs.Sound.{most_rdns};
ghost use Rattle.dn_names.specs.Writing as spec;

use crate::pair::Pair;
use crate::rdn::Rdn;
use ldap_ber::NoMemory;

/// Appends RDNs with commas between them.
pub(crate) fn append_rdns(text: &mut Vec<u8>, rdns: &[Rdn]) -> Result<(), NoMemory>
    ensures { OnOk result (text.new.items ≡ text.old.items ++ spec.name_text rdns.now) }
{
    match rdns {
        [] => Ok(()),
        [first, more @ ..] => {
            append_pairs(text, first.list())?;
            append_more_rdns(text, more)
        }
    }
}

/// Appends RDNs, each after a comma.
fn append_more_rdns(text: &mut Vec<u8>, rdns: &[Rdn]) -> Result<(), NoMemory>
    ensures { OnOk result (text.new.items ≡ text.old.items ++ spec.more_rdns_text rdns.now) }
{
    for rdn in rdns {
        text.push(b',')?;
        append_pairs(text, rdn.list())?;
    }
    Ok(())
}

/// How many bytes RDNs are written in, with commas between them.
pub(crate) fn rdns_len(rdns: &[Rdn]) -> usize
    requires { length rdns.now ≤ most_rdns }
    ensures { result ≡ length (spec.name_text rdns.now) }
{
    match rdns {
        [] => 0,
        [first, more @ ..] => first.written_len() + more_rdns_len(more),
    }
}

/// How many bytes RDNs are written in, each after a comma.
fn more_rdns_len(rdns: &[Rdn]) -> usize
    requires { length rdns.now ≤ most_rdns }
    ensures value { result ≡ length (spec.more_rdns_text rdns.now) }
    ensures bound { result ≤ 1025 * length rdns.now }
{
    let mut bytes = 0;
    for rdn in rdns {
        bytes += 1 + rdn.written_len();
    }
    bytes
}

/// Appends pairs with plus signs between them.
pub(crate) fn append_pairs(text: &mut Vec<u8>, pairs: &[Pair]) -> Result<(), NoMemory>
    ensures { OnOk result (text.new.items ≡ text.old.items ++ spec.rdn_text pairs.now) }
{
    match pairs {
        [] => Ok(()),
        [first, more @ ..] => {
            append_pair(text, first)?;
            append_more_pairs(text, more)
        }
    }
}

/// Appends pairs, each after a plus sign.
fn append_more_pairs(text: &mut Vec<u8>, pairs: &[Pair]) -> Result<(), NoMemory>
    ensures { OnOk result (text.new.items ≡ text.old.items ++ spec.more_pairs_text pairs.now) }
{
    for pair in pairs {
        text.push(b'+')?;
        append_pair(text, pair)?;
    }
    Ok(())
}

fn append_pair(text: &mut Vec<u8>, pair: &Pair) -> Result<(), NoMemory>
    ensures { OnOk result (text.new.items ≡ text.old.items ++ spec.pair_text pair.now) }
{
    text.extend_from_slice(pair.kind.name())?;
    text.push(b'=')?;
    append_value(text, pair.value.as_slice())
}

/// Appends a value, with a backslash before each byte that needs one.
fn append_value(text: &mut Vec<u8>, value: &[u8]) -> Result<(), NoMemory>
    ensures { OnOk result (text.new.items ≡ text.old.items ++ spec.value_text value.now) }
{
    for (i, byte) in value.iter().enumerate() {
        append_byte(text, i == 0, i + 1 == value.len(), *byte)?;
    }
    Ok(())
}

/// Appends a byte of a value, which may be its first or its last.
fn append_byte(text: &mut Vec<u8>, first: bool, last: bool, byte: u8) -> Result<(), NoMemory>
    ensures { OnOk result (text.new.items ≡ text.old.items ++ spec.byte_text first last byte) }
{
    if is_special(byte) || is_special_at_edge(first, last, byte) {
        text.push(b'\\')?;
        text.push(byte)?;
    } else if byte == 0 {
        text.extend_from_slice(b"\\00")?;
    } else {
        text.push(byte)?;
    }
    Ok(())
}

/// Whether the byte needs a backslash wherever it stands.
fn is_special(byte: u8) -> bool
    ensures { result ≡ spec.is_special byte }
{
    matches!(byte, b'"' | b'+' | b',' | b';' | b'<' | b'>' | b'\\')
}

/// Whether the byte needs a backslash where it stands.
fn is_special_at_edge(first: bool, last: bool, byte: u8) -> bool
    ensures { result ≡ spec.is_special_at_edge first last byte }
{
    (byte == b' ' && (first || last)) || (byte == b'#' && first)
}
