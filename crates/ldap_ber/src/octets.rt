ghost use Rattle.std.specs.Prelude.{◌≡◌, ◌≤◌, [], ◌∷◌, ◌++◌, length, List, ℕ, IfOk, OnOk, OnErr};
ghost use Rattle.std.proofs.Common.{rules};
ghost use Rattle.std.specs.Cmp.Rules.{comparing};
ghost use Rattle.std.specs.Str.{bytes_eq};
ghost use Rattle.ldap_ber.specs.Octets.{lists_eq};
ghost use Rattle.ldap_ber.specs.Listed.{strings_of};

use crate::middle::Middle;
use std::alloc::{AllocError, Global};
use std::marker::Model;
use std::sync::Arc;
use std::{mem, slice};

/// Out of memory, as an error by itself.
pub type NoMemory = AllocError;

/// The most octets that a string keeps in itself.
const MOST_INSIDE: usize = 30;

/// The most octets that copies share beside their number.
const MOST_TOGETHER: usize = 63;

/// The same in a larger piece of memory.
const MOST_CLOSE: usize = 127;

/// The octets of a short string, in front of others that say nothing.
#[derive(Clone, Copy)]
struct Short {
    count: u8,
    octets: [u8; MOST_INSIDE],
}

/// Where the octets of a string are.
#[derive(Drop)]
enum Kept {
    /// In the string itself.
    Inside(Short),
    /// In memory that the string was made of.
    Apart(Vec<u8>),
    /// In memory that copies of the string share, beside their number.
    Together(Arc<Middle<MOST_TOGETHER>>),
    /// The same in a larger piece.
    Close(Arc<Middle<MOST_CLOSE>>),
    /// In memory that copies of the string share.
    Shared(Arc<Vec<u8>>),
}

/// An octet string. It takes memory only where it has more than 30 octets, and then copies share
/// them.
pub struct Octets {
    kept: Kept,
}

/// A call of its own, so that what drops a string is one step, whatever its kind.
impl Drop for Octets {
    #[inline(always)]
    fn drop(self) {
        let Octets { kept: _kept } = self;
    }
}

impl Model for Octets {
    ghost use Rattle.std.specs.Prelude.{List, ℕ};
    ghost use Rattle.ldap_ber.specs.Kept.{octets_of, IsWithin};

    ghost Value = { List ℕ };

    ghost view = { λ o. octets_of o.kept };

    ghost invariant = { λ o. IsWithin o.kept };
}

impl Octets {
    /// A copy of these bytes. It is `NoMemory` where memory runs out.
    #[inline(always)]
    pub fn from_slice(alloc: Global, bytes: &[u8]) -> Result<Octets, NoMemory>
        ensures { IfOk result (λ octets. octets ≡ bytes.now) }
    {
        if bytes.len() <= MOST_INSIDE {
            return Ok(Octets::of_few(bytes));
        }
        Octets::shared(alloc, bytes)
    }

    /// A copy of many bytes, in memory that copies of the string share.
    #[inline(never)]
    fn shared(alloc: Global, bytes: &[u8]) -> Result<Octets, NoMemory>
        ensures { IfOk result (λ octets. octets ≡ bytes.now) }
    {
        if bytes.len() <= MOST_TOGETHER {
            let kept = Kept::Together(Middle::shared(alloc, bytes)?);
            return Ok(Octets { kept });
        }
        if bytes.len() <= MOST_CLOSE {
            let kept = Kept::Close(Middle::shared(alloc, bytes)?);
            return Ok(Octets { kept });
        }
        Octets::of_many(alloc, Vec::from_slice(alloc, bytes)?)
    }

    /// The string of these bytes, which its copies share.
    fn of_many(alloc: Global, bytes: Vec<u8>) -> Result<Octets, NoMemory>
        ensures { IfOk result (λ octets. octets ≡ bytes.items) }
    {
        match Arc::new(alloc, bytes) {
            Ok(long) => Ok(Octets {
                kept: Kept::Shared(long),
            }),
            Err(_) => Err(AllocError),
        }
    }

    /// A copy of few bytes, in the string itself.
    #[inline(always)]
    fn of_few(bytes: &[u8]) -> Octets
        requires { length bytes.now ≤ 30 }
        ensures { result ≡ bytes.now }
    {
        let mut octets = [0; MOST_INSIDE];
        octets[..bytes.len()].copy_from_slice(bytes);
        Octets {
            kept: Kept::Inside(Short {
                count: bytes.len() as u8,
                octets,
            }),
        }
    }

    /// Lends the bytes of the string.
    pub fn as_slice(&self) -> &[u8]
        ensures { result.now ≡ self.now }
    {
        match &self.kept {
            Kept::Inside(short) => &short.octets[..short.count as usize],
            Kept::Apart(bytes) => bytes.as_slice(),
            Kept::Together(middle) => middle.as_slice(),
            Kept::Close(middle) => middle.as_slice(),
            Kept::Shared(long) => long.as_slice(),
        }
    }

    /// Makes the same string a second time. It is `NoMemory` where memory runs out, or where no
    /// more copies can be counted.
    pub fn copy(&self) -> Result<Octets, NoMemory>
        ensures { IfOk result (λ octets. octets ≡ self.now) }
    {
        match &self.kept {
            Kept::Inside(short) => Ok(Octets {
                kept: Kept::Inside(*short),
            }),
            Kept::Apart(bytes) => Octets::from_slice(*bytes.allocator(), bytes.as_slice()),
            Kept::Together(middle) => Ok(Octets {
                kept: Kept::Together(middle.clone()?),
            }),
            Kept::Close(middle) => Ok(Octets {
                kept: Kept::Close(middle.clone()?),
            }),
            Kept::Shared(long) => Ok(Octets {
                kept: Kept::Shared(long.clone()?),
            }),
        }
    }
}

impl PartialEq for Octets {
    ghost eq = { λ one two. bytes_eq one two };

    ghost laws = { Prim.search (comparing, rules) };

    fn eq(&self, other: &Octets) -> bool {
        self.as_slice() == other.as_slice()
    }
}

impl Eq for Octets {
    ghost laws = { Prim.search (comparing, rules) };
}

/// The string takes the bytes over, and no memory.
impl From<Vec<u8>> for Octets {
    ghost use Rattle.std.specs.Prelude.{◌≡◌};

    ghost from_gives = { λ bytes octets. octets ≡ bytes.items };

    fn from(bytes: Vec<u8>) -> Self {
        if bytes.len() <= MOST_INSIDE {
            return Octets::of_few(bytes.as_slice());
        }
        Octets {
            kept: Kept::Apart(bytes),
        }
    }
}

/// Where the strings of a list are.
#[derive(Drop)]
enum Listed {
    /// The only one, in the list itself.
    One(Octets),
    /// In memory of their own.
    Any(Vec<Octets>),
}

impl Listed {
    /// The strings and one more at the end, or as they were where memory runs out.
    fn push(self, alloc: Global, item: Octets) -> (Listed, Result<(), NoMemory>)
        ensures ok { OnOk result.1 (strings_of result.0 ≡ strings_of self ++ item ∷ []) }
        ensures err { OnErr result.1 (strings_of result.0 ≡ strings_of self) }
    {
        match self {
            Listed::One(first) => Listed::pair(alloc, first, item),
            Listed::Any(strings) => Listed::more(strings, item),
        }
    }

    /// Two strings, or the first of them where memory runs out.
    fn pair(alloc: Global, first: Octets, second: Octets) -> (Listed, Result<(), NoMemory>)
        ensures ok { OnOk result.1 (strings_of result.0 ≡ first ∷ second ∷ []) }
        ensures err { OnErr result.1 (strings_of result.0 ≡ first ∷ []) }
    {
        match Vec::with_capacity(alloc, 2) {
            Ok(mut strings) => {
                strings.push_reserved(first);
                strings.push_reserved(second);
                (Listed::Any(strings), Ok(()))
            }
            Err(error) => (Listed::One(first), Err(error)),
        }
    }

    /// The strings and one more at the end, in the memory that they have, or as they were where
    /// memory runs out.
    fn more(mut strings: Vec<Octets>, item: Octets) -> (Listed, Result<(), NoMemory>)
        ensures ok { OnOk result.1 (strings_of result.0 ≡ strings.items ++ item ∷ []) }
        ensures err { OnErr result.1 (strings_of result.0 ≡ strings.items) }
    {
        if strings.is_empty() && strings.capacity() == 0 {
            return (Listed::One(item), Ok(()));
        }
        match strings.push(item) {
            Ok(()) => (Listed::Any(strings), Ok(())),
            Err(_) => (Listed::Any(strings), Err(AllocError)),
        }
    }

    /// The strings and more of them at the end, or as they were where memory runs out.
    fn append(self, mut more: Vec<Octets>) -> (Listed, Result<(), NoMemory>)
        ensures ok { OnOk result.1 (strings_of result.0 ≡ strings_of self ++ more.items) }
        ensures err { OnErr result.1 (strings_of result.0 ≡ strings_of self) }
    {
        match self {
            Listed::One(first) => match more.insert(0, first) {
                Ok(()) => (Listed::Any(more), Ok(())),
                Err(failed) => (Listed::One(failed.value), Err(AllocError)),
            },
            Listed::Any(mut strings) => {
                let answer = strings.append(&mut more);
                (Listed::Any(strings), answer)
            }
        }
    }
}

/// A list of octet strings. It takes memory of its own only where it has more than one.
pub struct OctetsList {
    alloc: Global,
    listed: Listed,
}

/// A call of its own, as for [`Octets`].
impl Drop for OctetsList {
    #[inline(always)]
    fn drop(self) {
        let OctetsList {
            alloc: _,
            listed: _listed,
        } = self;
    }
}

impl Model for OctetsList {
    ghost use Rattle.std.specs.Prelude.{List, ℕ};
    ghost use Rattle.ldap_ber.specs.Listed.{strings_of};

    ghost Value = { List (List ℕ) };

    ghost view = { λ l. strings_of l.listed };
}

impl OctetsList {
    /// Makes a list without strings.
    pub fn new(alloc: Global) -> OctetsList
        ensures { result ≡ [] }
    {
        OctetsList {
            alloc,
            listed: Listed::Any(Vec::new(alloc)),
        }
    }

    /// Makes an empty list with room for n strings. It is `NoMemory` where memory runs out.
    pub fn with_room(alloc: Global, count: usize) -> Result<OctetsList, NoMemory>
        ensures { IfOk result (λ list. list ≡ []) }
    {
        if count < 2 {
            return Ok(OctetsList::new(alloc));
        }
        let strings = Vec::with_capacity(alloc, count)?;
        Ok(OctetsList {
            alloc,
            listed: Listed::Any(strings),
        })
    }

    /// The list of this string alone. It takes no memory.
    pub fn of_one(alloc: Global, item: Octets) -> OctetsList
        ensures { result ≡ item ∷ [] }
    {
        OctetsList {
            alloc,
            listed: Listed::One(item),
        }
    }

    /// Puts the string at the end. It is `NoMemory` where memory runs out, and the list is as
    /// before.
    pub fn push(&mut self, item: Octets) -> Result<(), NoMemory>
        ensures ok { OnOk result (self.new ≡ self.old ++ item ∷ []) }
        ensures err { OnErr result (self.new ≡ self.old) }
    {
        let nothing = Listed::Any(Vec::new(self.alloc));
        let (listed, answer) = mem::replace(&mut self.listed, nothing).push(self.alloc, item);
        self.listed = listed;
        answer
    }

    /// Puts the strings at the end, or none of them. It is `NoMemory` where memory runs out.
    pub fn append(&mut self, more: OctetsList) -> Result<(), NoMemory>
        ensures ok { OnOk result (self.new ≡ self.old ++ more) }
        ensures err { OnErr result (self.new ≡ self.old) }
    {
        let OctetsList { alloc: _, listed } = more;
        match listed {
            Listed::One(item) => self.push(item),
            Listed::Any(strings) => self.append_strings(strings),
        }
    }

    fn append_strings(&mut self, more: Vec<Octets>) -> Result<(), NoMemory>
        ensures ok { OnOk result (self.new ≡ self.old ++ more.items) }
        ensures err { OnErr result (self.new ≡ self.old) }
    {
        let nothing = Listed::Any(Vec::new(self.alloc));
        let (listed, answer) = mem::replace(&mut self.listed, nothing).append(more);
        self.listed = listed;
        answer
    }

    /// Lends the strings, in their order.
    pub fn list(&self) -> &[Octets]
        ensures { result.now ≡ self.now }
    {
        match &self.listed {
            Listed::One(item) => slice::from_ref(item),
            Listed::Any(strings) => strings.as_slice(),
        }
    }

    /// Makes the same strings a second time. It is `NoMemory` where memory runs out.
    pub fn copy(&self) -> Result<OctetsList, NoMemory>
        ensures { IfOk result (λ list. list ≡ self.now) }
    {
        let mut list = OctetsList::with_room(self.alloc, self.list().len())?;
        for item in self.list() {
            list.push(item.copy()?)?;
        }
        Ok(list)
    }
}

/// The list takes the strings over, and no memory.
impl From<Vec<Octets>> for OctetsList {
    ghost use Rattle.std.specs.Prelude.{◌≡◌};

    ghost from_gives = { λ strings list. list ≡ strings.items };

    fn from(strings: Vec<Octets>) -> Self {
        OctetsList {
            alloc: *strings.allocator(),
            listed: Listed::Any(strings),
        }
    }
}

impl PartialEq for OctetsList {
    ghost eq = { λ one two. lists_eq one two };

    ghost laws = { Prim.search (comparing, rules) };

    fn eq(&self, other: &OctetsList) -> bool {
        self.list() == other.list()
    }
}

impl Eq for OctetsList {
    ghost laws = { Prim.search (comparing, rules) };
}
