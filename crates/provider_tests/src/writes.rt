//! Writes, in words.
use crate::rows::{number, parted, push_counted};
use entry_tree::{OpFault, read_op};
use ldap_ber::{NoMemory, Octets, OctetsList, discard};
use ldap_constants::SUCCESS;
use schema_rules::{Change, EditList, How, RawAttribute, RawEdit, RawList};
use std::alloc::Global;
use std::test::Fail;
use sync_provider::{Reply, SyncDirectory};

/// Reports what comes of the write.
pub(crate) fn write(
    alloc: Global,
    provider: &mut SyncDirectory,
    word: &str,
    of: &str,
    text: &mut String,
) -> Result<(), Fail> {
    let reply = replied(alloc, provider, change(alloc, word, of)?)?;
    match reply.code {
        SUCCESS => push_counted(alloc, text, "w", reply.number),
        code => push_counted(alloc, text, "c", u64::from(code)),
    }
}

/// The reply to a write.
fn replied(alloc: Global, provider: &mut SyncDirectory, change: Change) -> Result<Reply, Fail> {
    let op = read_op(alloc, &change);
    discard(change);
    match op {
        Ok(op) => Ok(provider.write(op, 0)),
        Err(OpFault::Code(_)) => Err(Fail::from("refused by its form")),
        Err(OpFault::NoMemory) => Err(Fail::from("out of memory")),
    }
}

fn accept(alloc: Global, provider: &mut SyncDirectory, word: &str, of: &str) -> Result<(), Fail> {
    match replied(alloc, provider, change(alloc, word, of)?)?.code {
        SUCCESS => Ok(()),
        _ => Err(Fail::from("a write is refused")),
    }
}

/// Adds units with the names of their writes, up to n writes.
pub(crate) fn add_up_to(
    alloc: Global,
    provider: &mut SyncDirectory,
    last: &str,
    text: &mut String,
) -> Result<(), Fail> {
    for write in provider.writes()..number(last) {
        let name = format!(in alloc; "ou=u{},dc=x", write.saturating_add(1))?;
        accept(alloc, provider, "add", &name)?;
    }
    push_counted(alloc, text, "w", provider.writes())
}

/// One first part becomes the other, and the other the one, n times in all.
pub(crate) fn swing(
    alloc: Global,
    provider: &mut SyncDirectory,
    of: &str,
    text: &mut String,
) -> Result<(), Fail> {
    let (one, rest) = parted(of);
    let (other, count) = parted(rest);
    for turn in 0..number(count) {
        let (from, to) = if turn % 2 == 0 {
            (one, other)
        } else {
            (other, one)
        };
        let renamed = format!(in alloc; "{from},dc=x {to}")?;
        accept(alloc, provider, "rename", &renamed)?;
    }
    push_counted(alloc, text, "w", provider.writes())
}

pub(crate) fn change(alloc: Global, word: &str, of: &str) -> Result<Change, Fail> {
    let (name, rest) = parted(of);
    match word {
        "first" => added(alloc, "dc=x", "objectClass=organization,dcObject o=X dc=x"),
        "add" => added(alloc, name, &unit(alloc, name)?),
        "person" => added(alloc, name, "objectClass=person cn=k sn=s"),
        "delete" => Ok(Change::Delete(octets(alloc, name)?)),
        "replace" => replaced(alloc, name, attribute(alloc, rest, ',')?),
        "swell" => replaced(alloc, name, description(alloc, number(rest))?),
        "rename" => renamed(alloc, name, rest),
        _ => Err(Fail::from(word)),
    }
}

pub(crate) fn octets(alloc: Global, text: &str) -> Result<Octets, NoMemory> {
    Octets::from_slice(alloc, text.as_bytes())
}

fn added(alloc: Global, name: &str, attributes: &str) -> Result<Change, Fail> {
    let name = octets(alloc, name)?;
    Ok(Change::Add(name, raw_list(alloc, attributes, ' ', ',')?))
}

/// The attributes of the unit with this name.
pub(crate) fn unit(alloc: Global, name: &str) -> Result<String, NoMemory> {
    let (first, _) = name.split_once(',').unwrap_or((name, ""));
    let (_, value) = first.split_once('=').unwrap_or(("", first));
    format!(in alloc; "objectClass=organizationalUnit ou={value}")
}

/// The attributes of the text, where these signs stand between attributes and between values.
pub(crate) fn raw_list(
    alloc: Global,
    text: &str,
    sign: char,
    between: char,
) -> Result<RawList, NoMemory> {
    let mut list = RawList::new(alloc);
    for piece in text.split(sign) {
        list.push(attribute(alloc, piece, between)?)?;
    }
    Ok(list)
}

/// The attribute of `type=value,value`, or of `type` alone, with this sign between values.
pub(crate) fn attribute(
    alloc: Global,
    text: &str,
    between: char,
) -> Result<RawAttribute, NoMemory> {
    let (name, values) = match text.split_once('=') {
        None => (text, OctetsList::new(alloc)),
        Some((name, list)) => (name, values_of(alloc, list, between)?),
    };
    Ok(RawAttribute {
        name: octets(alloc, name)?,
        values,
    })
}

/// The values of the text, with this sign between them.
pub(crate) fn values_of(alloc: Global, list: &str, between: char) -> Result<OctetsList, NoMemory> {
    let mut values = OctetsList::new(alloc);
    for value in list.split(between) {
        values.push(octets(alloc, value)?)?;
    }
    Ok(values)
}

/// A description of n octets.
fn description(alloc: Global, length: u64) -> Result<RawAttribute, NoMemory> {
    let mut values = OctetsList::new(alloc);
    values.push(Octets::from(Vec::from_elem(alloc, b'd', length as usize)?))?;
    Ok(RawAttribute {
        name: octets(alloc, "description")?,
        values,
    })
}

fn replaced(alloc: Global, name: &str, attribute: RawAttribute) -> Result<Change, Fail> {
    let mut edits = EditList::new(alloc);
    edits.push(RawEdit {
        how: How::Replace,
        attribute,
    })?;
    Ok(Change::Modify(octets(alloc, name)?, edits))
}

fn renamed(alloc: Global, name: &str, rest: &str) -> Result<Change, Fail> {
    let (first, superior) = parted(rest);
    let superior = match superior {
        "" => None,
        superior => Some(octets(alloc, superior)?),
    };
    let first = octets(alloc, first)?;
    Ok(Change::Rename(octets(alloc, name)?, first, true, superior))
}
