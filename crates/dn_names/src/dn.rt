//! Distinguished names (RFC 4514, section 2.1).
ghost use Rattle.std.specs.Prelude.{◌≡◌, ◌<◌, ◌↔◌, true, List, [], ◌∷◌, ◌++◌, length, Ok, IfOk, IfErr, IsTrue, OnOk};
ghost use Rattle.dn_names.specs.Keys.{name_key};
ghost use Rattle.dn_names.specs.Names.{TypeAndValue, same_name, is_at_or_below, is_child_of, parent_of, moved_name};
ghost use Rattle.dn_names.specs.Paths.{path_key, HasPath, IsPathInParts, ShowsNames};
ghost use Rattle.dn_names.specs.Reading.{name_of_text, rdns_of, chars_width, limited, IsNameFault};
ghost use Rattle.dn_names.specs.Sound.{IsName, most_rdns};
ghost use Rattle.dn_names.specs.Writing.{name_text};

use crate::fault::NameFault;
use crate::keys::append_rdn_key;
use crate::name::Name;
use crate::name_chars::{NameChar, chars_of, cut, width_of, without_leading_spaces};
use crate::pair::Pair;
use crate::paths::append_pair_path;
use crate::rdn::Rdn;
use crate::writing::{append_rdns, rdns_len};
use ldap_ber::{NoMemory, Octets};
use std::alloc::Global;
use std::marker::Model;
use std::sync::Arc;

/// The most RDNs of a name.
const MOST_RDNS: usize = 32;

/// RDNs, the entry's own first, and at most 32. A copy shares them.
pub struct Dn {
    alloc: Global,
    /// Nothing where the name was made without RDNs.
    name: Option<Arc<Name>>,
}

/// A call of its own, so that what drops a name does not ask whether it has RDNs.
impl Drop for Dn {
    #[inline(always)]
    fn drop(self) {
        let Dn {
            alloc: _,
            name: _name,
        } = self;
    }
}

impl Model for Dn {
    ghost use Rattle.std.specs.Prelude.{List};
    ghost use Rattle.dn_names.specs.Names.{TypeAndValue};
    ghost use Rattle.dn_names.specs.Paths.{HasPath};
    ghost use Rattle.dn_names.specs.Sharing.{rdns_in};

    ghost Value = { List (List TypeAndValue) };

    ghost view = { λ d. rdns_in d.name };

    ghost invariant = { λ d. HasPath (rdns_in d.name) };
}

impl Dn {
    /// The empty name, which takes no memory.
    pub fn empty(alloc: Global) -> Dn
        ensures { result ≡ [] }
    {
        Dn { alloc, name: None }
    }

    /// The name of these RDNs, which takes them over.
    fn of(alloc: Global, rdns: Vec<Rdn>) -> Result<Dn, NoMemory>
        requires { IsName rdns.items }
        ensures { IfOk result (λ dn. dn ≡ rdns.items) }
    {
        let name = Name::shared(alloc, rdns)?;
        Ok(Dn {
            alloc,
            name: Some(name),
        })
    }

    /// The same where the path key is made already, with how many octets of it are that of the
    /// parent.
    fn with_path(alloc: Global, rdns: Vec<Rdn>, path: Vec<u8>, above: usize) -> Result<Dn, NoMemory>
        requires sound { IsName rdns.items }
        requires path { IsPathInParts rdns.items path.items above }
        ensures { IfOk result (λ dn. dn ≡ rdns.items) }
    {
        let name = Name::with_path(alloc, rdns, path, above)?;
        Ok(Dn {
            alloc,
            name: Some(name),
        })
    }

    /// Reads a name (RFC 4514, section 3). The first refused RDN is reported. It is `BadName`,
    /// `UnknownType` or `TooLong` with its place, or `NoMemory`.
    pub fn parse(alloc: Global, text: &[u8]) -> Result<Dn, NameFault>
        ensures ok { IfOk result (λ dn. name_of_text text.now ≡ Ok dn) }
        ensures fault { IfErr result (IsNameFault (name_of_text text.now)) }
    {
        if text.is_empty() {
            return Ok(Dn::empty(alloc));
        }
        let chars = chars_of(alloc, text)?;
        let rdns = read_rdns(alloc, text.len(), chars.as_slice())?;
        Ok(Dn::of(alloc, rdns)?)
    }

    /// Reads a name as `parse` does. Where the text is the one in which the known name is written,
    /// the RDNs are shared with that name.
    pub fn parse_beside(alloc: Global, text: &[u8], known: &Dn) -> Result<Dn, NameFault>
        ensures ok { IfOk result (λ dn. name_of_text text.now ≡ Ok dn) }
        ensures fault { IfErr result (IsNameFault (name_of_text text.now)) }
    {
        if known.is_written(text)? {
            return Ok(known.copy()?);
        }
        Dn::parse(alloc, text)
    }

    /// Whether this is the text in which the name is written.
    fn is_written(&self, text: &[u8]) -> Result<bool, NoMemory>
        ensures { IfOk result (λ is_written.
            IsTrue is_written → name_of_text text.now ≡ Ok self.now) }
    {
        if self.written_len() != text.len() {
            return Ok(false);
        }
        let written = self.write()?;
        Ok(written.as_slice() == text)
    }

    /// Lends the RDNs of the name (RFC 4514, section 2.1): the entry's own first, that at the root
    /// of the tree last.
    pub fn rdns(&self) -> &[Rdn]
        ensures value { result.now ≡ self.now }
        ensures sound { IsName self.now }
    {
        match &self.name {
            Some(name) => name.rdns(),
            None => &[],
        }
    }

    /// The same name, whose RDNs are shared with this one. It is `NoMemory` where no more copies
    /// can be counted.
    pub fn copy(&self) -> Result<Dn, NoMemory>
        ensures { IfOk result (λ dn. dn ≡ self.now) }
    {
        let name = match &self.name {
            Some(name) => Some(name.clone()?),
            None => None,
        };
        Ok(Dn {
            alloc: self.alloc,
            name,
        })
    }

    /// The name as text, which is read again as the same name (RFC 4514, section 2). It is
    /// `NoMemory` where memory runs out.
    pub fn write(&self) -> Result<Octets, NoMemory>
        ensures text { IfOk result (λ octets. octets ≡ name_text self.now) }
        ensures again { IfOk result (λ octets. name_of_text octets ≡ Ok self.now) }
    {
        let mut text = Vec::with_capacity(self.alloc, self.written_len())?;
        append_rdns(&mut text, self.rdns())?;
        Ok(Octets::from(text))
    }

    /// How many bytes the name is written in, which needs no writing.
    pub fn written_len(&self) -> usize
        ensures { result ≡ length (name_text self.now) }
    {
        rdns_len(self.rdns())
    }

    /// A text that is another name's exactly where the names are equal. It is `NoMemory` where
    /// memory runs out.
    pub fn key(&self) -> Result<Vec<u8>, NoMemory>
        ensures { IfOk result (λ key. key.items ≡ name_key self.now) }
    {
        let mut key = Vec::new(self.alloc);
        for rdn in self.rdns() {
            append_rdn_key(self.alloc, &mut key, rdn.list())?;
        }
        Ok(key)
    }

    /// Lends the path key, with which another name's begins exactly where that name is at or below
    /// this one.
    pub fn path(&self) -> &[u8]
        ensures value { result.now ≡ path_key self.now }
        ensures sound { HasPath self.now }
    {
        match &self.name {
            Some(name) => name.path(),
            None => &[],
        }
    }

    /// Lends the path key of the parent's name, which is empty where the name has one RDN at most.
    pub fn parent_path(&self) -> &[u8]
        ensures value { result.now ≡ path_key (parent_of self.now) }
        ensures sound { HasPath (parent_of self.now) }
    {
        match &self.name {
            Some(name) => name.parent_path(),
            None => &[],
        }
    }

    /// The path key, made a second time. It is `NoMemory` where memory runs out.
    pub fn path_key(&self) -> Result<Vec<u8>, NoMemory>
        ensures { IfOk result (λ path. path.items ≡ path_key self.now) }
    {
        Vec::from_slice(self.alloc, self.path())
    }

    /// The path key of the name of an entry directly below, whose RDN is this pair alone. It is
    /// `NoMemory` where memory runs out, and where a number has no place in four octets.
    pub fn path_below(&self, pair: &Pair) -> Result<Vec<u8>, NoMemory>
        ensures { IfOk result (λ path. path.items ≡ path_key ((pair.now ∷ []) ∷ self.now)) }
    {
        let mut path = self.path_key()?;
        append_pair_path(&mut path, pair)?;
        Ok(path)
    }

    /// Whether the names are equal (RFC 4517, section 4.2.15).
    pub fn same(&self, other: &Dn) -> bool
        ensures { result ≡ same_name self.now other.now }
    {
        self.path() == other.path()
    }

    /// Whether the other name equals a suffix of this one.
    pub fn is_at_or_below(&self, other: &Dn) -> bool
        ensures { result ≡ is_at_or_below self.now other.now }
    {
        self.path().starts_with(other.path())
    }

    /// Whether the other name is this one without its own RDN.
    pub fn is_child_of(&self, other: &Dn) -> bool
        ensures { result ≡ is_child_of self.now other.now }
    {
        self.rdns().len() == other.rdns().len() + 1 && self.is_at_or_below(other)
    }

    /// The name without its own RDN. It is `NoMemory` where memory runs out.
    pub fn parent(&self) -> Result<Dn, NoMemory>
        requires { 0 < length self.now }
        ensures { IfOk result (λ dn. dn ≡ parent_of self.now) }
    {
        let above = copies(self.alloc, &self.rdns()[1..])?;
        Dn::of(self.alloc, above)
    }

    /// The name of the entry with this RDN directly below. It is `TooLong`, with the place 0, where
    /// that would have more than 32 RDNs, or `NoMemory`.
    pub fn below(&self, rdn: &Rdn) -> Result<Dn, NameFault>
        ensures ok { IfOk result (λ dn. limited (rdn.now ∷ self.now) ≡ Ok dn) }
        ensures fault { IfErr result (IsNameFault (limited (rdn.now ∷ self.now))) }
    {
        if self.rdns().len() >= MOST_RDNS {
            return Err(NameFault::TooLong(0));
        }
        let mut rdns = Vec::with_capacity(self.alloc, self.rdns().len() + 1)?;
        rdns.push(rdn.copy()?)?;
        append_copies(&mut rdns, self.rdns())?;
        Ok(Dn::of(self.alloc, rdns)?)
    }

    /// The name with `to` in place of its suffix that equals `from` (RFC 4511, section 4.9). It is
    /// `TooLong`, with the place 0, where that would have more than 32 RDNs, or `NoMemory`.
    pub fn moved(&self, from: &Dn, to: &Dn) -> Result<Dn, NameFault>
        requires { is_at_or_below self.now from.now ≡ true }
        ensures ok { IfOk result (λ dn. limited (moved_name self.now from.now to.now) ≡ Ok dn) }
        ensures fault { IfErr result (IsNameFault (limited (moved_name self.now from.now to.now))) }
    {
        let own = self.rdns();
        let kept = &own[..own.len() - from.rdns().len()];
        if kept.len() + to.rdns().len() > MOST_RDNS {
            return Err(NameFault::TooLong(0));
        }
        if kept.is_empty() {
            return Ok(to.copy()?);
        }
        let (path, above) = self.moved_path(from, to)?;
        let mut rdns = Vec::with_capacity(self.alloc, kept.len() + to.rdns().len())?;
        append_copies(&mut rdns, kept)?;
        append_copies(&mut rdns, to.rdns())?;
        Ok(Dn::with_path(self.alloc, rdns, path, above)?)
    }

    /// The path key of the name with `to` in place of its suffix that equals `from`, where that is
    /// not the whole name, and how many octets of it are that of the parent.
    fn moved_path(&self, from: &Dn, to: &Dn) -> Result<(Vec<u8>, usize), NoMemory>
        requires below { is_at_or_below self.now from.now ≡ true }
        requires longer { length from.now < length self.now }
        ensures { IfOk result (λ found.
            IsPathInParts (moved_name self.now from.now to.now) found.0.items found.1) }
    {
        let whole = self.path();
        let parent = self.parent_path();
        let own = whole.len() - parent.len();
        let suffix = from.path();
        let (_, kept) = whole.split_at(suffix.len());
        let path = joined(self.alloc, to.path(), kept)?;
        let above = path.len() - own;
        Ok((path, above))
    }
}

/// Both texts, one after the other.
fn joined(alloc: Global, front: &[u8], back: &[u8]) -> Result<Vec<u8>, NoMemory>
    ensures { IfOk result (λ text. text.items ≡ front.now ++ back.now) }
{
    let mut text = Vec::with_capacity(alloc, front.len().saturating_add(back.len()))?;
    text.extend_from_slice(front)?;
    text.extend_from_slice(back)?;
    Ok(text)
}

/// Reads the RDNs of a text of n bytes.
fn read_rdns(alloc: Global, bytes: usize, chars: &[NameChar]) -> Result<Vec<Rdn>, NameFault>
    requires { chars_width chars.now ≡ bytes }
    ensures ok { IfOk result (λ rdns. rdns_of most_rdns bytes chars.now ≡ Ok rdns.items) }
    ensures fault { IfErr result (IsNameFault (rdns_of most_rdns bytes chars.now)) }
    ensures sound { IfOk result (λ rdns. IsName rdns.items) }
{
    let mut rdns = Vec::with_capacity(alloc, rdn_room(chars))?;
    let mut rest = chars;
    'rdns: loop {
        let place = bytes - width_of(rest);
        let (first, beyond) = cut(rest, b',');
        let rdn = Rdn::read(alloc, place, beyond.is_some(), first)?;
        if rdns.len() >= MOST_RDNS {
            return Err(NameFault::TooLong(place));
        }
        rdns.push(rdn)?;
        match beyond {
            Some(after) => rest = without_leading_spaces(after),
            None => return Ok(rdns),
        }
    }
}

/// How many RDNs the characters are cut into, 32 at most, as a hint of the room that they need.
fn rdn_room(chars: &[NameChar]) -> usize {
    let mut room: usize = 1;
    for name_char in chars {
        if name_char.is_plain(b',') {
            room = room.saturating_add(1);
        }
    }
    room.min(MOST_RDNS)
}

fn copies(alloc: Global, rdns: &[Rdn]) -> Result<Vec<Rdn>, NoMemory>
    ensures { IfOk result (λ copied. copied.items ≡ rdns.now) }
{
    let mut copied = Vec::with_capacity(alloc, rdns.len())?;
    append_copies(&mut copied, rdns)?;
    Ok(copied)
}

/// Puts copies of the RDNs at the end.
fn append_copies(to: &mut Vec<Rdn>, rdns: &[Rdn]) -> Result<(), NoMemory>
    ensures { OnOk result (to.new.items ≡ to.old.items ++ rdns.now) }
{
    for rdn in rdns {
        to.push(rdn.copy()?)?;
    }
    Ok(())
}

/// The law of keys: two names are equal exactly where their keys are the same bytes.
pub fn keys_show_names()
    ensures { (one other : List (List TypeAndValue)) → IsName one → IsName other
        → (name_key one ≡ name_key other) ↔ (same_name one other ≡ true) }
{}

/// The law of path keys: one begins with another exactly where its name is at or below the other's,
/// and is the same bytes exactly where the names are equal.
pub fn paths_show_names()
    ensures { (one other : List (List TypeAndValue)) → HasPath one → HasPath other
        → ShowsNames one other }
{}
