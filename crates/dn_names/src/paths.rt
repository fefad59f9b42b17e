//! The parts of path keys.
ghost use Rattle.std.specs.Prelude.{◌≡◌, ◌<◌, ◌^◌, [], ◌∷◌, ◌++◌, true, map, IfOk, OnOk};
ghost use Rattle.std.specs.List.{flat_map, list_all};
ghost use Rattle.dn_names.specs.Paths as spec;

use crate::pair::Pair;
use crate::rdn::Rdn;
use ldap_ber::NoMemory;
use std::alloc::{AllocError, Global};
use std::collections::BTreeSet;

/// The largest number that has a place in four octets.
const LARGEST_NUMBER: usize = 4_294_967_295;

/// How many octets a number takes.
const NUMBER_OCTETS: usize = 4;

/// How many pairs an RDN of one pair has.
const ONE_PAIR: u32 = 1;

/// Appends how many pairs there are, and then these in ascending order. It is `NoMemory` where
/// memory runs out, and where a number has no place in four octets.
pub(crate) fn append_rdn_path(
    alloc: Global,
    path: &mut Vec<u8>,
    pairs: &[Pair],
) -> Result<(), NoMemory>
    ensures path { OnOk result (path.new.items ≡ path.old.items ++ spec.rdn_path pairs.now) }
    ensures numbers { OnOk result (spec.has_small_numbers pairs.now ≡ true) }
{
    match pairs {
        [pair] => append_pair_path(path, pair),
        _ => append_set_path(alloc, path, pairs),
    }
}

/// Appends that there is one pair, and then this.
pub(crate) fn append_pair_path(path: &mut Vec<u8>, pair: &Pair) -> Result<(), NoMemory>
    ensures path { OnOk result
        (path.new.items ≡ path.old.items ++ spec.rdn_path (pair.now ∷ [])) }
    ensures numbers { OnOk result (spec.has_small_numbers (pair.now ∷ []) ≡ true) }
{
    path.extend_from_slice(&ONE_PAIR.to_be_bytes())?;
    append_piece(path, pair)?;
    Ok(())
}

/// Appends how many pairs there are, and then these in ascending order, whichever come first.
fn append_set_path(alloc: Global, path: &mut Vec<u8>, pairs: &[Pair]) -> Result<(), NoMemory>
    ensures path { OnOk result (path.new.items ≡ path.old.items ++ spec.rdn_path pairs.now) }
    ensures numbers { OnOk result (spec.has_small_numbers pairs.now ≡ true) }
{
    let mut pieces = piece_set(alloc, pairs)?;
    path.extend_from_slice(&four_octets(pieces.len())?)?;
    append_pieces(path, &mut pieces)
}

/// Appends the texts of a set in ascending order, and takes them out of it.
fn append_pieces(path: &mut Vec<u8>, pieces: &mut BTreeSet<Vec<u8>>) -> Result<(), NoMemory>
    ensures { OnOk result (path.new.items
        ≡ path.old.items
        ++ flat_map (λ piece. piece) (map (λ piece. piece.items) pieces.old.keys)) }
{
    while let Some(piece) = pieces.pop_first() {
        path.extend_from_slice(piece.as_slice())?;
    }
    Ok(())
}

/// The pairs as a set of their pieces.
fn piece_set(alloc: Global, pairs: &[Pair]) -> Result<BTreeSet<Vec<u8>>, NoMemory>
    ensures set { IfOk result (λ set.
        map (λ piece. piece.items) set.keys ≡ spec.piece_set pairs.now) }
    ensures short { OnOk result (list_all spec.has_short_key pairs.now ≡ true) }
{
    let mut set = BTreeSet::new(alloc);
    for pair in pairs {
        let _ = set.insert(pair_piece(alloc, pair)?)?;
    }
    Ok(set)
}

/// The number of the type, the length of the key, and the key.
fn pair_piece(alloc: Global, pair: &Pair) -> Result<Vec<u8>, NoMemory>
    ensures piece { IfOk result (λ piece. piece.items ≡ spec.pair_piece pair.now) }
    ensures short { OnOk result (spec.has_short_key pair.now ≡ true) }
{
    let mut piece = Vec::with_capacity(alloc, pair_room(pair))?;
    append_piece(&mut piece, pair)?;
    Ok(piece)
}

/// Appends the number of the type, the length of the key, and the key.
fn append_piece(path: &mut Vec<u8>, pair: &Pair) -> Result<(), NoMemory>
    ensures piece { OnOk result (path.new.items ≡ path.old.items ++ spec.pair_piece pair.now) }
    ensures short { OnOk result (spec.has_short_key pair.now ≡ true) }
{
    let key = pair.key();
    path.extend_from_slice(&pair.kind.number().to_be_bytes())?;
    path.extend_from_slice(&four_octets(key.len())?)?;
    path.extend_from_slice(key)?;
    Ok(())
}

/// How many octets the path key of RDNs takes, as a hint of the room that it needs.
pub(crate) fn path_room(rdns: &[Rdn]) -> usize {
    let mut room: usize = 0;
    for rdn in rdns {
        room = room.saturating_add(rdn_room(rdn.list()));
    }
    room
}

fn rdn_room(pairs: &[Pair]) -> usize {
    let mut room = NUMBER_OCTETS;
    for pair in pairs {
        room = room.saturating_add(pair_room(pair));
    }
    room
}

fn pair_room(pair: &Pair) -> usize {
    pair.key().len().saturating_add(2 * NUMBER_OCTETS)
}

/// A number in four octets, where it has a place in them.
fn four_octets(number: usize) -> Result<[u8; 4], NoMemory>
    ensures octets { IfOk result (λ octets. octets ≡ spec.four_octets number) }
    ensures small { OnOk result (number < 2 ^ 32) }
{
    if number > LARGEST_NUMBER {
        return Err(AllocError);
    }
    Ok((number as u32).to_be_bytes())
}
