//! The keys of names.
ghost use Rattle.std.specs.Prelude.{◌≡◌, ◌++◌, map, OnOk, IfOk};
ghost use Rattle.dn_names.specs.Keys as spec;

use crate::pair::Pair;
use ldap_ber::NoMemory;
use std::alloc::Global;
use std::collections::BTreeSet;

/// Whether a type stands twice with one key. One pair alone needs no mark.
pub(crate) fn has_double(alloc: Global, pairs: &[Pair]) -> Result<bool, NoMemory>
    ensures { IfOk result (λ double. double ≡ spec.has_double pairs.now) }
{
    if pairs.len() < 2 {
        return Ok(false);
    }
    Ok(pair_set(alloc, pairs)?.len() < pairs.len())
}

/// Appends a text that other pairs have exactly where they are equal as sets.
pub(crate) fn append_rdn_key(
    alloc: Global,
    key: &mut Vec<u8>,
    pairs: &[Pair],
) -> Result<(), NoMemory>
    ensures { OnOk result (key.new.items ≡ key.old.items ++ spec.rdn_key pairs.now) }
{
    let mut marks = pair_set(alloc, pairs)?;
    while let Some(mark) = marks.pop_first() {
        key.extend_from_slice(mark.as_slice())?;
    }
    key.push(0)?;
    Ok(())
}

/// The pairs as a set of their marks.
fn pair_set(alloc: Global, pairs: &[Pair]) -> Result<BTreeSet<Vec<u8>>, NoMemory>
    ensures { IfOk result (λ set. map (λ mark. mark.items) set.keys ≡ spec.pair_set pairs.now) }
{
    let mut set = BTreeSet::new(alloc);
    for pair in pairs {
        let _ = set.insert(pair_mark(alloc, pair)?)?;
    }
    Ok(set)
}

/// The type's name and the key of the value, so that what follows cannot be taken for them.
fn pair_mark(alloc: Global, pair: &Pair) -> Result<Vec<u8>, NoMemory>
    ensures { IfOk result (λ mark. mark.items ≡ spec.pair_mark pair.now) }
{
    let mut mark = Vec::new(alloc);
    mark.push(1)?;
    append_marked(&mut mark, pair.kind.name())?;
    append_marked(&mut mark, pair.key())?;
    Ok(mark)
}

/// Appends bytes with a mark before each and another at the end.
fn append_marked(mark: &mut Vec<u8>, bytes: &[u8]) -> Result<(), NoMemory>
    ensures { OnOk result (mark.new.items ≡ mark.old.items ++ spec.marked bytes.now) }
{
    for byte in bytes {
        mark.push(1)?;
        mark.push(*byte)?;
    }
    mark.push(0)?;
    Ok(())
}
