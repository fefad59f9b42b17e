//! Relative distinguished names (RFC 4514, section 2.2).
ghost use Rattle.std.specs.Prelude.{◌≡◌, ◌≤◌, true, nat_lt, length, Ok, IfOk, IfErr};
ghost use Rattle.std.specs.List.{prefix_len};
ghost use Rattle.dn_names.specs.Reading.{rdn_of, rdn_of_text, is_plain, IsNameFault};
ghost use Rattle.dn_names.specs.Sound.{is_rdn, most_bytes};
ghost use Rattle.dn_names.specs.Writing.{rdn_text};

use crate::fault::NameFault;
use crate::keys::has_double;
use crate::name_chars::{NameChar, chars_of};
use crate::pair::Pair;
use crate::reading::read_pairs;
use crate::writing::append_pairs;
use ldap_ber::{NoMemory, Octets};
use std::alloc::Global;
use std::marker::Model;

/// The most bytes in which an RDN is written.
const MOST_BYTES: usize = 1024;

/// Pairs of types and values, one at least, of which no two match. It is written in at most 1,024
/// bytes.
#[derive(Drop)]
pub struct Rdn {
    pairs: Vec<Pair>,
    /// How many bytes it is written in.
    length: usize,
}

impl Model for Rdn {
    ghost use Rattle.std.specs.Prelude.{List};
    ghost use Rattle.dn_names.specs.Names.{TypeAndValue};
    ghost use Rattle.dn_names.specs.Sound.{IsRdnOf};

    ghost Value = { List TypeAndValue };

    ghost view = { λ r. r.pairs.items };

    ghost invariant = { λ r. IsRdnOf r.pairs.items r.length };
}

impl Rdn {
    /// Reads one RDN (RFC 4514, section 3). The place of each fault is 0. It is `BadName`,
    /// `UnknownType` or `TooLong`, or `NoMemory`.
    pub fn parse(alloc: Global, text: &[u8]) -> Result<Rdn, NameFault>
        ensures ok { IfOk result (λ rdn. rdn_of_text text.now ≡ Ok rdn) }
        ensures fault { IfErr result (IsNameFault (rdn_of_text text.now)) }
    {
        let chars = chars_of(alloc, text)?;
        Rdn::read(alloc, 0, false, chars.as_slice())
    }

    /// Reads an RDN that stands at this place; `ended` says that a comma follows.
    pub(crate) fn read(
        alloc: Global,
        place: usize,
        ended: bool,
        chars: &[NameChar],
    ) -> Result<Rdn, NameFault>
        ensures ok { IfOk result (λ rdn. rdn_of place ended chars.now ≡ Ok rdn) }
        ensures sound { IfOk result (λ rdn. is_rdn rdn ≡ true) }
        ensures fault { IfErr result (IsNameFault (rdn_of place ended chars.now)) }
    {
        if begins_with_space(chars) {
            return Err(NameFault::BadName(place));
        }
        let pairs = read_pairs(alloc, place, ended, chars)?;
        if has_double(alloc, pairs.as_slice())? {
            return Err(NameFault::BadName(place));
        }
        let mut text = Vec::with_capacity(alloc, chars.len())?;
        append_pairs(&mut text, pairs.as_slice())?;
        let length = text.len();
        if length > MOST_BYTES {
            return Err(NameFault::TooLong(place));
        }
        Ok(Rdn { pairs, length })
    }

    /// Lends the pairs of a type and a value, in the order in which they were written. No two of
    /// them match.
    pub fn list(&self) -> &[Pair]
        ensures value { result.now ≡ self.now }
        ensures sound { is_rdn self.now ≡ true }
    {
        self.pairs.as_slice()
    }

    /// Makes the same RDN a second time. It is `NoMemory` where memory runs out.
    pub fn copy(&self) -> Result<Rdn, NoMemory>
        ensures { IfOk result (λ rdn. rdn ≡ self.now) }
    {
        let mut pairs = Vec::with_capacity(*self.pairs.allocator(), self.pairs.len())?;
        for pair in self.list() {
            pairs.push(pair.copy()?)?;
        }
        Ok(Rdn {
            pairs,
            length: self.length,
        })
    }

    /// How many bytes the RDN is written in, which needs no writing.
    #[tactic(auto, using(crate::proofs::Sizes::rdn_size))]
    pub fn written_len(&self) -> usize
        ensures value { result ≡ length (rdn_text self.now) }
        ensures bound { result ≤ most_bytes }
    {
        self.length
    }

    /// The RDN as text, which is read again as the same RDN (RFC 4514, section 2.2). It is
    /// `NoMemory` where memory runs out.
    pub fn write(&self) -> Result<Octets, NoMemory>
        ensures text { IfOk result (λ octets. octets ≡ rdn_text self.now) }
        ensures again { IfOk result (λ octets. rdn_of_text octets ≡ Ok self.now) }
    {
        let mut text = Vec::with_capacity(*self.pairs.allocator(), self.length)?;
        append_pairs(&mut text, self.list())?;
        Ok(Octets::from(text))
    }
}

fn begins_with_space(chars: &[NameChar]) -> bool
    ensures { result ≡ nat_lt 0 (prefix_len (is_plain 32) chars.now) }
{
    match chars {
        [] => false,
        [first, ..] => first.is_plain(b' '),
    }
}
