//! Reading elements one at a time.

ghost use Rattle.std.specs.Prelude.{◌≡◌, ◌-◌, ◌==◌, ◌≤◌, ◌<◌, [], ◌∷◌, length, IfOk, OnErr, OnOk};
ghost use Rattle.ldap_ber.specs.Element.{number_after, filler, extended};
ghost use Rattle.ldap_ber.specs.Gives.{Answers};
ghost use Rattle.ldap_ber.specs.Reader.{length_at, parts_at, element_at, expect_at, tag_at, has_tag, end_at, integer_in, boolean_in};
ghost use Rattle.ldap_ber.specs.Reading.{octets_at, integer_at, boolean_at, default_at, skip_at, count_at};
ghost use Rattle.ldap_ber.specs.Tlv.{element_of};

use crate::fault::{BerFault, BerKind};
use std::marker::Model;

/// An element that was read. Places count from the outermost input.
#[derive(Clone, Copy)]
pub struct Tlv<'a> {
    pub tag: u8,
    /// The place of its first octet.
    pub at: usize,
    /// The place after its body.
    pub stop: usize,
    pub body: &'a [u8],
}

/// A reader of elements: the bytes that are left, and the place after them in the outermost
/// input. After a refusal it is as before.
#[derive(Drop)]
pub struct Reader<'a> {
    left: &'a [u8],
    stop: usize,
}

impl<'a> Model for Reader<'a> {
    ghost use Rattle.ldap_ber.specs.Reader.{Unread};

    ghost Value = { Unread };

    ghost view = { λ r. record { stop = r.stop; left = r.left.now } };
}

impl<'a> Reader<'a> {
    /// A reader of all of these bytes, whose first one has the place 0.
    pub fn new(bytes: &'a [u8]) -> Reader<'a>
        ensures { result ≡ record { stop = length bytes.now; left = bytes.now } }
    {
        Reader {
            left: bytes,
            stop: bytes.len(),
        }
    }

    /// A reader of the element's body.
    pub fn inside(tlv: &Tlv<'a>) -> Reader<'a>
        ensures { result ≡ record { stop = tlv.now.stop; left = tlv.now.body.now } }
    {
        Reader {
            left: tlv.body,
            stop: tlv.stop,
        }
    }

    /// A reader of the same bytes, which goes on by itself.
    pub fn copy(&self) -> Reader<'a>
        ensures { result ≡ self.now }
    {
        Reader {
            left: self.left,
            stop: self.stop,
        }
    }

    /// The place of the next octet.
    pub fn place(&self) -> usize
        ensures { result ≡ self.now.stop - length self.now.left }
    {
        self.stop.saturating_sub(self.left.len())
    }

    /// Reports whether no byte is left.
    pub fn is_empty(&self) -> bool
        ensures { result ≡ (length self.now.left == 0) }
    {
        self.left.is_empty()
    }

    /// The next octet.
    pub fn peek_tag(&self) -> Option<u8>
        ensures { result ≡ tag_at self.now.left }
    {
        match self.left {
            [] => None,
            [tag, ..] => Some(*tag),
        }
    }

    /// Whether there is a next octet and it is this one.
    pub fn has(&self, tag: u8) -> bool
        ensures { result ≡ has_tag tag self.now.left }
    {
        match self.left {
            [] => false,
            [first, ..] => *first == tag,
        }
    }

    /// The next element, whatever its tag. Its length is definite, in one to five octets (X.690,
    /// section 8.1.3). Else it is `Short`, `WrongTag`, `Indefinite` or `LongLength`, with the place
    /// of the element, and the reader is as before.
    #[tactic(auto, unfolding(crate::specs::Reader::element_at))]
    pub fn next(&mut self) -> Result<Tlv<'a>, BerFault>
        ensures exact { Answers (λ t. (element_of t, self.new.left)) result
            (element_at self.old.stop self.old.left) }
        ensures shorter { OnOk result (length self.new.left < length self.old.left) }
        ensures stop { self.new.stop ≡ self.old.stop }
        ensures err { OnErr result (self.new ≡ self.old) }
    {
        let at = self.place();
        match parts_of(self.left) {
            Err(kind) => Err(BerFault { kind, at }),
            Ok((tag, body, rest)) => {
                self.left = rest;
                let stop = self.place();
                Ok(Tlv {
                    tag,
                    at,
                    stop,
                    body,
                })
            }
        }
    }

    /// The next element, which has to have this tag, or else it is `WrongTag`.
    #[tactic(auto, unfolding(crate::specs::Reader::expect_at))]
    pub fn expect(&mut self, tag: u8) -> Result<Tlv<'a>, BerFault>
        ensures exact { Answers (λ t. (element_of t, self.new.left)) result
            (expect_at tag self.old.stop self.old.left) }
        ensures shorter { OnOk result (length self.new.left < length self.old.left) }
        ensures stop { self.new.stop ≡ self.old.stop }
        ensures err { OnErr result (self.new ≡ self.old) }
    {
        let before = self.left;
        let at = self.place();
        let tlv = self.next()?;
        if tlv.tag != tag {
            self.left = before;
            return Err(BerFault {
                kind: BerKind::WrongTag,
                at,
            });
        }
        Ok(tlv)
    }

    /// The body of the next element, which has to have this tag (X.690, section 8.7). Else it is a
    /// fault of `next`, or `WrongTag`, and the reader is as before.
    pub fn octets(&mut self, tag: u8) -> Result<&'a [u8], BerFault>
        ensures exact { Answers (λ octets. (octets.now, self.new.left)) result
            (octets_at tag self.old.stop self.old.left) }
        ensures shorter { OnOk result (length self.new.left < length self.old.left) }
        ensures stop { self.new.stop ≡ self.old.stop }
        ensures err { OnErr result (self.new ≡ self.old) }
    {
        let tlv = self.expect(tag)?;
        Ok(tlv.body)
    }

    /// The integer in the next element, which has to have this tag (X.690, section 8.3). Else it is
    /// a fault of `next`, `WrongTag` or `BadInteger`, and the reader is as before.
    pub fn integer(&mut self, tag: u8) -> Result<i64, BerFault>
        ensures exact { Answers (λ value. (value, self.new.left)) result
            (integer_at tag self.old.stop self.old.left) }
        ensures stop { self.new.stop ≡ self.old.stop }
        ensures err { OnErr result (self.new ≡ self.old) }
    {
        let before = self.left;
        let tlv = self.expect(tag)?;
        match integer(&tlv) {
            Err(fault) => {
                self.left = before;
                Err(fault)
            }
            Ok(value) => Ok(value),
        }
    }

    /// The truth value in the next element, which has to have this tag (X.690, section 8.2). Else
    /// it is a fault of `next`, `WrongTag` or `BadBoolean`, and the reader is as before.
    pub fn boolean(&mut self, tag: u8) -> Result<bool, BerFault>
        ensures exact { Answers (λ value. (value, self.new.left)) result
            (boolean_at tag self.old.stop self.old.left) }
        ensures stop { self.new.stop ≡ self.old.stop }
        ensures err { OnErr result (self.new ≡ self.old) }
    {
        let before = self.left;
        let tlv = self.expect(tag)?;
        match boolean(&tlv) {
            Err(fault) => {
                self.left = before;
                Err(fault)
            }
            Ok(value) => Ok(value),
        }
    }

    /// The truth value in the next element where that has this tag, and the usual one otherwise. An
    /// element with this tag that is none is refused as by `boolean`.
    pub fn boolean_or(&mut self, tag: u8, usual: bool) -> Result<bool, BerFault>
        ensures exact { Answers (λ value. (value, self.new.left)) result
            (default_at tag usual (boolean_at tag) self.old.stop self.old.left) }
        ensures stop { self.new.stop ≡ self.old.stop }
        ensures err { OnErr result (self.new ≡ self.old) }
    {
        if self.has(tag) {
            return self.boolean(tag);
        }
        Ok(usual)
    }

    /// Passes over all elements that are left, as unknown ones. The first that is none is refused
    /// with a fault of `next`, and the reader is as before.
    #[tactic(auto, using(crate::proofs::SkipLemmas::skip_next, crate::proofs::SkipLemmas::skip_fault, crate::proofs::SkipLemmas::skip_none))]
    pub fn skip(&mut self) -> Result<(), BerFault>
        ensures exact { result ≡ skip_at self.old.stop self.old.left }
        ensures ok { OnOk result (self.new.left ≡ []) }
        ensures stop { self.new.stop ≡ self.old.stop }
        ensures err { OnErr result (self.new ≡ self.old) }
    {
        let mut ahead = self.copy();
        while !ahead.is_empty() {
            ahead.next()?;
        }
        self.left = ahead.left;
        Ok(())
    }

    /// How many elements are left, whatever their tags. The first that is none is refused with a
    /// fault of `next`.
    #[tactic(auto, using(crate::proofs::CountLemmas::count_goes_on, crate::proofs::CountLemmas::count_fails, crate::proofs::CountLemmas::count_ends))]
    pub fn count(&self) -> Result<usize, BerFault>
        ensures { result ≡ count_at self.now.stop self.now.left }
    {
        let octets = self.left.len();
        let mut ahead = self.copy();
        let mut count = 0;
        while !ahead.is_empty() {
            ahead.next()?;
            // An element has an octet at least, so there are no more elements than octets.
            prove!(count < octets);
            count += 1;
        }
        Ok(count)
    }

    /// Whether no byte is left, or else it is `Trailing`.
    pub fn end(&self) -> Result<(), BerFault>
        ensures { result ≡ end_at self.now.stop self.now.left }
    {
        if self.left.is_empty() {
            return Ok(());
        }
        Err(BerFault {
            kind: BerKind::Trailing,
            at: self.place(),
        })
    }
}

/// The integer in an element, of the tags INTEGER and ENUMERATED or implicit ones: two's
/// complement, the highest octet first (X.690, section 8.3). It is `BadInteger` where the body has
/// no octet or more than eight.
#[tactic(auto, unfolding(crate::specs::Reader::integer_in))]
pub fn integer(tlv: &Tlv) -> Result<i64, BerFault>
    ensures { result ≡ integer_in (element_of tlv.now) }
{
    if tlv.body.is_empty() || 8 < tlv.body.len() {
        return Err(BerFault {
            kind: BerKind::BadInteger,
            at: tlv.at,
        });
    }
    Ok(i64::from_be_bytes(extended(tlv.body)))
}

/// The truth value in an element: any octet but 0 is true (X.690, section 8.2). It is `BadBoolean`
/// where the body has not one octet.
pub fn boolean(tlv: &Tlv) -> Result<bool, BerFault>
    ensures { result ≡ boolean_in (element_of tlv.now) }
{
    match tlv.body {
        [octet] => Ok(*octet != 0),
        _ => Err(BerFault {
            kind: BerKind::BadBoolean,
            at: tlv.at,
        }),
    }
}

/// The tag and the body of the element in front, and what follows it.
fn parts_of(bytes: &[u8]) -> Result<(u8, &[u8], &[u8]), BerKind>
    ensures exact { Answers (λ parts. (parts.0, parts.1.now, parts.2.now)) result
        (parts_at bytes.now) }
    ensures shorter { IfOk result (λ parts. length parts.2.now < length bytes.now) }
{
    match bytes {
        [] => Err(BerKind::Short),
        [tag, more @ ..] => {
            if *tag % 32 == 31 {
                return Err(BerKind::WrongTag);
            }
            let (count, rest) = length_of(more)?;
            if rest.len() < count {
                return Err(BerKind::Short);
            }
            let (body, rest) = rest.split_at(count);
            Ok((*tag, body, rest))
        }
    }
}

/// The length in front (X.690, section 8.1.3), and what follows it.
fn length_of(bytes: &[u8]) -> Result<(usize, &[u8]), BerKind>
    ensures exact { Answers (λ counted. (counted.0, counted.1.now)) result (length_at bytes.now) }
    ensures shorter { IfOk result (λ counted. length counted.1.now < length bytes.now) }
{
    match bytes {
        [] => Err(BerKind::Short),
        [first, more @ ..] => {
            if *first < 128 {
                return Ok((*first as usize, more));
            }
            long_length_of(*first, more)
        }
    }
}

/// The length after an octet of 128 or more, and what follows it.
#[inline(never)]
fn long_length_of(first: u8, more: &[u8]) -> Result<(usize, &[u8]), BerKind>
    requires { 128 ≤ first }
    ensures exact { Answers (λ counted. (counted.0, counted.1.now)) result
        (length_at (first ∷ more.now)) }
    ensures shorter { IfOk result (λ counted. length counted.1.now ≤ length more.now) }
{
    if first == 128 {
        return Err(BerKind::Indefinite);
    }
    if 132 < first {
        return Err(BerKind::LongLength);
    }
    let count = first as usize - 128;
    if more.len() < count {
        return Err(BerKind::Short);
    }
    let (octets, rest) = more.split_at(count);
    Ok((number_of(octets), rest))
}

/// The number of up to four octets, the highest first.
pub fn number_of(octets: &[u8]) -> usize
    requires { length octets.now ≤ 4 }
    ensures { result ≡ number_after 0 octets.now }
{
    match octets {
        [a] => *a as usize,
        [a, b] => *a as usize * 256 + *b as usize,
        [a, b, c] => (*a as usize * 256 + *b as usize) * 256 + *c as usize,
        [a, b, c, d] => ((*a as usize * 256 + *b as usize) * 256 + *c as usize) * 256 + *d as usize,
        _ => 0,
    }
}

/// An integer's octets with its sign in front, so that they are eight.
fn extended(body: &[u8]) -> [u8; 8]
    requires { length body.now ≤ 8 }
    ensures { result ≡ extended body.now }
{
    let mut word = [filler(body); 8];
    let start = 8 - body.len();
    word[start..].copy_from_slice(body);
    word
}

/// The octet that repeats the sign of an integer.
fn filler(body: &[u8]) -> u8
    ensures { result ≡ filler body.now }
{
    match body {
        [] => 0,
        [first, ..] => { if *first < 128 { 0 } else { 255 } }
    }
}
