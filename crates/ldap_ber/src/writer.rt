//! Writing elements, each in its one canonical spelling.

ghost use Rattle.std.specs.Prelude.{◌≡◌, ◌≢◌, ◌<◌, ◌≤◌, ◌+◌, ◌-◌, ◌^◌, [], ◌∷◌, ◌++◌, drop, length, reverse, take, IfNone, IfSome, IsOk, OnOk, OnErr};
ghost use Rattle.ldap_ber.specs.Canonical.{element, length_octets, is_needless, shortest, integer_octets, boolean_octets, flag_octets};
ghost use Rattle.ldap_ber.specs.Unfinished.{put_at, HasRoomFor};
ghost use Rattle.ldap_ber.specs.Writer.{after_bytes, after_begin, after_end, before_begin, IsSmall, EndsSmall};

use crate::octets::{NoMemory, Octets};
use std::alloc::{AllocError, Global};
use std::marker::Model;

/// The most octets of a body whose whole element has fewer than 2^32.
const LONGEST_BODY: usize = 4_294_967_289;

/// The most octets of a tag and a length.
const LONGEST_HEADER: usize = 6;

/// The octets of a tag and a length below 128.
const SHORT_HEADER: usize = 2;

/// The octets of a tag and a length from 256 to 65,535.
const LONG_HEADER: usize = 4;

/// How many elements in one another are expected to be long: a message, its operation, and the list
/// in that.
const LONG_LEVELS: usize = 3;

/// How many elements in one another a writer has room for at first.
const FIRST_LEVELS: usize = 8;

/// How many octets a writer has room for when the first element begins.
const FIRST_OCTETS: usize = 512;

/// An element that is not ended: its tag, where it starts, and how many octets are left there for
/// its header.
#[derive(Clone, Copy)]
struct Begun {
    tag: u8,
    start: usize,
    room: usize,
}

/// A writer of elements. After an `Err` it is as before; a body that is too long for four length
/// octets is one too.
///
/// How long an element is shows at its end alone. So each element that holds others starts with as
/// many octets as its header is expected to have, and the header takes their place at its end. Only
/// where it has fewer or more is the body moved, to the place after it.
#[derive(Drop)]
pub struct Writer {
    /// What is written, with room for the headers of the elements that are not ended.
    out: Vec<u8>,
    /// The elements that are not ended, the outermost first.
    begun: Vec<Begun>,
}

impl Model for Writer {
    ghost use Rattle.std.specs.Prelude.{reverse};
    ghost use Rattle.ldap_ber.specs.Writer.{Written};
    ghost use Rattle.ldap_ber.specs.Unfinished.{written, AreKept};

    ghost Value = { Written };

    ghost view = { λ w. written (reverse w.begun.items) w.out.items };

    ghost invariant = { λ w. AreKept (reverse w.begun.items) w.out.items };
}

impl Writer {
    /// Makes a writer that has written nothing.
    pub fn new(alloc: Global) -> Writer
        ensures { result ≡ record { opened = []; bytes = [] } }
    {
        Writer {
            out: Vec::new(alloc),
            begun: Vec::new(alloc),
        }
    }

    /// Writes an element with this tag and body (X.690, section 8.1). It is `NoMemory` where memory
    /// runs out or a length has no place in four octets, and the writer is as before.
    #[inline(always)]
    pub fn octets(&mut self, tag: u8, bytes: &[u8]) -> Result<(), NoMemory>
        ensures ok { OnOk result (self.new ≡ after_bytes self.old (element tag bytes.now)) }
        ensures small { OnOk result (IsSmall (element tag bytes.now)) }
        ensures err { OnErr result (self.new ≡ self.old) }
    {
        put(&mut self.out, tag, bytes)?;
        Ok(())
    }

    /// Writes an integer with this tag, in the fewest octets (X.690, section 8.3). It is `NoMemory`
    /// where memory runs out, and the writer is as before.
    #[tactic(auto, unfolding(crate::specs::Canonical::integer_octets))]
    pub fn integer(&mut self, tag: u8, value: i64) -> Result<(), NoMemory>
        ensures ok { OnOk result
            (self.new ≡ after_bytes self.old (element tag (integer_octets value))) }
        ensures err { OnErr result (self.new ≡ self.old) }
    {
        self.octets(tag, shortest(&value.to_be_bytes()))
    }

    /// Writes a truth value with this tag (X.690, section 8.2). It is `NoMemory` where memory runs
    /// out, and the writer is as before.
    pub fn boolean(&mut self, tag: u8, value: bool) -> Result<(), NoMemory>
        ensures ok { OnOk result
            (self.new ≡ after_bytes self.old (element tag (boolean_octets value))) }
        ensures err { OnErr result (self.new ≡ self.old) }
    {
        let octet = if value { 0xFF } else { 0 };
        self.octets(tag, &[octet])
    }

    /// Writes a truth value where it is not the usual one. It is `NoMemory` where memory runs out,
    /// and the writer is as before.
    pub fn boolean_unless(&mut self, tag: u8, usual: bool, value: bool) -> Result<(), NoMemory>
        ensures ok { OnOk result (self.new ≡ after_bytes self.old (flag_octets tag usual value)) }
        ensures err { OnErr result (self.new ≡ self.old) }
    {
        if value == usual {
            return Ok(());
        }
        self.boolean(tag, value)
    }

    /// Opens an element with this tag. What is written up to its `end` is its body. It is
    /// `NoMemory` where memory runs out, and the writer is as before.
    #[inline(always)]
    pub fn begin(&mut self, tag: u8) -> Result<(), NoMemory>
        ensures ok { OnOk result (self.new ≡ after_begin self.old tag) }
        ensures err { OnErr result (self.new ≡ self.old) }
    {
        if self.begun.len() < LONG_LEVELS {
            return self.begin_long(tag);
        }
        self.begin_short(tag)
    }

    /// Opens an element that is expected to be long.
    #[inline(never)]
    fn begin_long(&mut self, tag: u8) -> Result<(), NoMemory>
        ensures ok { OnOk result (self.new ≡ after_begin self.old tag) }
        ensures err { OnErr result (self.new ≡ self.old) }
    {
        let start = self.out.len();
        let (levels, octets) = if self.begun.is_empty() {
            (FIRST_LEVELS, FIRST_OCTETS)
        } else {
            (1, LONG_HEADER)
        };
        self.begun.reserve(levels)?;
        self.out.reserve(octets)?;
        self.out.extend_from_slice(&[tag, 0, 0, 0])?;
        self.begun.push_reserved(Begun {
            tag,
            start,
            room: LONG_HEADER,
        });
        Ok(())
    }

    /// Opens an element that is expected to be short.
    #[inline(always)]
    fn begin_short(&mut self, tag: u8) -> Result<(), NoMemory>
        ensures ok { OnOk result (self.new ≡ after_begin self.old tag) }
        ensures err { OnErr result (self.new ≡ self.old) }
    {
        let start = self.out.len();
        self.begun.reserve(1)?;
        self.out.extend_from_slice(&[tag, 0])?;
        self.begun.push_reserved(Begun {
            tag,
            start,
            room: SHORT_HEADER,
        });
        Ok(())
    }

    /// Ends the innermost open element. It is `NoMemory` where memory runs out or a length has no
    /// place in four octets, and the writer is as before.
    #[inline(always)]
    pub fn end(&mut self) -> Result<(), NoMemory>
        requires { self.old.opened ≢ [] }
        ensures ok { OnOk result (self.new ≡ after_end self.old) }
        ensures small { OnOk result (EndsSmall self.old) }
        ensures err { OnErr result (self.new ≡ self.old) }
    {
        match innermost(&self.begun) {
            None => Ok(()),
            Some(last) => {
                put_header_of(&mut self.out, &last)?;
                self.begun.pop();
                Ok(())
            }
        }
    }

    /// Ends the innermost open element where its body was written. After an `Err`, of the body's or
    /// of the end's, the writer is as before the element's `begin`.
    #[inline(always)]
    pub fn end_after(&mut self, body: Result<(), NoMemory>) -> Result<(), NoMemory>
        requires { self.old.opened ≢ [] }
        ensures ok { OnOk result (self.new ≡ after_end self.old) }
        ensures body { OnOk result (IsOk body) }
        ensures small { OnOk result (EndsSmall self.old) }
        ensures err { OnErr result (self.new ≡ before_begin self.old) }
    {
        let ended = match body {
            Ok(()) => self.end(),
            Err(error) => Err(error),
        };
        if ended.is_err() {
            self.drop_innermost();
        }
        ended
    }

    /// Drops the innermost open element with its body.
    fn drop_innermost(&mut self)
        requires { self.old.opened ≢ [] }
        ensures { self.new ≡ before_begin self.old }
    {
        if let Some(last) = self.begun.pop() {
            self.out.truncate(last.start);
        }
    }

    /// What was written.
    pub fn finish(self) -> Octets
        requires { self.opened ≡ [] }
        ensures { result ≡ self.bytes }
    {
        Octets::from(self.out)
    }
}

/// The innermost element that is not ended.
fn innermost(begun: &[Begun]) -> Option<Begun>
    ensures none { IfNone result (begun.now ≡ []) }
    ensures some { IfSome result (λ last.
        reverse begun.now ≡ last ∷ reverse (take (length begun.now - 1) begun.now)) }
{
    if begun.is_empty() {
        return None;
    }
    Some(begun[begun.len() - 1])
}

/// Puts the header of the innermost element in its place. It is `NoMemory` where memory runs out or
/// the whole element would have 2^32 octets or more, and nothing changes.
#[inline(always)]
fn put_header_of(out: &mut Vec<u8>, last: &Begun) -> Result<(), NoMemory>
    requires { last.now.start + last.now.room ≤ length out.old.items }
    ensures ok { OnOk result (out.new.items ≡ take last.now.start out.old.items
        ++ element last.now.tag (drop (last.now.start + last.now.room) out.old.items)) }
    ensures small { OnOk result
        (IsSmall (element last.now.tag (drop (last.now.start + last.now.room) out.old.items))) }
    ensures err { OnErr result (out.new.items ≡ out.old.items) }
{
    let count = out.len() - last.start - last.room;
    if LONGEST_BODY < count {
        return Err(AllocError);
    }
    let wanted = header_length(count);
    fit(out, last.start, last.room, wanted)?;
    put_header_at(out, last.start, last.tag, count);
    Ok(())
}

/// Makes so much room for a header in the place of that which is there. It is `NoMemory` where
/// memory runs out, and nothing changes.
#[inline(always)]
fn fit(out: &mut Vec<u8>, place: usize, room: usize, wanted: usize) -> Result<(), NoMemory>
    requires { place + room ≤ length out.old.items }
    ensures fitted { OnOk result (HasRoomFor place room out.old.items wanted out.new.items) }
    ensures err { OnErr result (out.new.items ≡ out.old.items) }
{
    if wanted == room {
        return Ok(());
    }
    move_body(out, place, room, wanted)
}

/// The same by moving what comes after it.
#[inline(never)]
fn move_body(out: &mut Vec<u8>, place: usize, room: usize, wanted: usize) -> Result<(), NoMemory>
    requires { place + room ≤ length out.old.items }
    ensures fitted { OnOk result (HasRoomFor place room out.old.items wanted out.new.items) }
    ensures err { OnErr result (out.new.items ≡ out.old.items) }
{
    if wanted < room {
        narrow(out, place, room - wanted);
        return Ok(());
    }
    widen(out, place, wanted - room)
}

/// Takes n octets out at the place.
fn narrow(out: &mut Vec<u8>, place: usize, count: usize)
    requires { place + count ≤ length out.old.items }
    ensures { out.new.items ≡ take place out.old.items ++ drop (place + count) out.old.items }
{
    if count == 0 {
        return;
    }
    out.remove(place);
    narrow(out, place, count - 1);
}

/// Puts n octets in at the place, which say nothing. It is `NoMemory` where memory runs out,
/// and nothing changes.
fn widen(out: &mut Vec<u8>, place: usize, count: usize) -> Result<(), NoMemory>
    requires { place ≤ length out.old.items }
    ensures fitted { OnOk result (HasRoomFor place 0 out.old.items count out.new.items) }
    ensures err { OnErr result (out.new.items ≡ out.old.items) }
{
    if count == 0 {
        return Ok(());
    }
    insert_octet(out, place)?;
    match widen(out, place, count - 1) {
        Ok(()) => Ok(()),
        Err(error) => {
            out.remove(place);
            Err(error)
        }
    }
}

/// Puts one octet in at the place. It is `NoMemory` where memory runs out, and nothing changes.
fn insert_octet(out: &mut Vec<u8>, place: usize) -> Result<(), NoMemory>
    requires { place ≤ length out.old.items }
    ensures ok { OnOk result
        (out.new.items ≡ take place out.old.items ++ 0 ∷ drop place out.old.items) }
    ensures err { OnErr result (out.new.items ≡ out.old.items) }
{
    match out.insert(place, 0) {
        Ok(()) => Ok(()),
        Err(_) => Err(AllocError),
    }
}

/// Puts the tag and the shortest length of an element in the place of as many octets.
#[inline(always)]
fn put_header_at(out: &mut Vec<u8>, place: usize, tag: u8, count: usize)
    requires within { place + length (tag ∷ length_octets count) ≤ length out.old.items }
    requires small { count < 2 ^ 32 }
    ensures { out.new.items ≡ put_at out.old.items place (tag ∷ length_octets count) }
{
    if count < 128 {
        put_two(out, place, tag, count as u8);
        return;
    }
    put_long_header_at(out, place, tag, count);
}

/// The same of a length from 128 on.
#[inline(never)]
fn put_long_header_at(out: &mut Vec<u8>, place: usize, tag: u8, count: usize)
    requires within { place + length (tag ∷ length_octets count) ≤ length out.old.items }
    requires long { 128 ≤ count }
    requires small { count < 2 ^ 32 }
    ensures { out.new.items ≡ put_at out.old.items place (tag ∷ length_octets count) }
{
    if count < 256 {
        put_octets(out, place, &[tag, 129, count as u8])
    } else if count < 65_536 {
        put_octets(
            out,
            place,
            &[tag, 130, (count / 256) as u8, (count % 256) as u8],
        )
    } else if count < 16_777_216 {
        put_octets(
            out,
            place,
            &[
                tag,
                131,
                (count / 65_536) as u8,
                (count / 256 % 256) as u8,
                (count % 256) as u8,
            ],
        )
    } else {
        put_octets(
            out,
            place,
            &[
                tag,
                132,
                (count / 16_777_216) as u8,
                (count / 65_536 % 256) as u8,
                (count / 256 % 256) as u8,
                (count % 256) as u8,
            ],
        )
    }
}

/// Puts both octets in the place of two.
#[inline(always)]
#[tactic(auto, using(crate::proofs::UnfinishedLemmas::two_set))]
fn put_two(out: &mut Vec<u8>, place: usize, first: u8, second: u8)
    requires { place + 2 ≤ length out.old.items }
    ensures { out.new.items ≡ put_at out.old.items place (first ∷ second ∷ []) }
{
    out[place] = first;
    out[place + 1] = second;
}

/// Puts the octets in the place of as many.
fn put_octets(out: &mut Vec<u8>, place: usize, octets: &[u8])
    requires { place + length octets.now ≤ length out.old.items }
    ensures { out.new.items ≡ put_at out.old.items place octets.now }
{
    let mut next = place;
    for octet in octets {
        out[next] = *octet;
        next += 1;
    }
}

/// Puts an element at the end. After an `Err` the bytes are as before.
#[inline(always)]
#[tactic(auto, using(crate::proofs::ElementLemmas::element_size))]
fn put(out: &mut Vec<u8>, tag: u8, body: &[u8]) -> Result<(), NoMemory>
    ensures ok { OnOk result (out.new.items ≡ out.old.items ++ element tag body.now) }
    ensures small { OnOk result (IsSmall (element tag body.now)) }
    ensures err { OnErr result (out.new.items ≡ out.old.items) }
{
    if body.len() < 128 {
        return put_short(out, tag, body);
    }
    if LONGEST_BODY < body.len() {
        return Err(AllocError);
    }
    put_parts(out, tag, body)
}

/// Puts an element of fewer than 128 octets, whose header has two octets, at the end.
#[inline(always)]
#[tactic(auto, unfolding(crate::specs::Canonical::element))]
fn put_short(out: &mut Vec<u8>, tag: u8, body: &[u8]) -> Result<(), NoMemory>
    requires { length body.now < 128 }
    ensures ok { OnOk result (out.new.items ≡ out.old.items ++ element tag body.now) }
    ensures err { OnErr result (out.new.items ≡ out.old.items) }
{
    let start = out.len();
    out.reserve(body.len() + SHORT_HEADER)?;
    out.push_reserved(tag);
    out.push_reserved(body.len() as u8);
    if let Err(error) = out.extend_from_slice(body) {
        out.truncate(start);
        return Err(error);
    }
    Ok(())
}

#[inline(never)]
#[tactic(auto, unfolding(crate::specs::Canonical::element))]
fn put_parts(out: &mut Vec<u8>, tag: u8, body: &[u8]) -> Result<(), NoMemory>
    requires { length body.now < 2 ^ 32 }
    ensures ok { OnOk result (out.new.items ≡ out.old.items ++ element tag body.now) }
    ensures err { OnErr result (out.new.items ≡ out.old.items) }
{
    let start = out.len();
    out.reserve(body.len() + LONGEST_HEADER)?;
    put_header(out, tag, body.len())?;
    if let Err(error) = out.extend_from_slice(body) {
        out.truncate(start);
        return Err(error);
    }
    Ok(())
}

/// Puts the tag and the shortest length of an element at the end.
#[inline(never)]
fn put_header(out: &mut Vec<u8>, tag: u8, count: usize) -> Result<(), NoMemory>
    requires { count < 2 ^ 32 }
    ensures ok { OnOk result (out.new.items ≡ out.old.items ++ tag ∷ length_octets count) }
    ensures err { OnErr result (out.new.items ≡ out.old.items) }
{
    if count < 128 {
        out.extend_from_slice(&[tag, count as u8])
    } else if count < 256 {
        out.extend_from_slice(&[tag, 129, count as u8])
    } else if count < 65_536 {
        out.extend_from_slice(&[tag, 130, (count / 256) as u8, (count % 256) as u8])
    } else if count < 16_777_216 {
        out.extend_from_slice(&[
            tag,
            131,
            (count / 65_536) as u8,
            (count / 256 % 256) as u8,
            (count % 256) as u8,
        ])
    } else {
        out.extend_from_slice(&[
            tag,
            132,
            (count / 16_777_216) as u8,
            (count / 65_536 % 256) as u8,
            (count / 256 % 256) as u8,
            (count % 256) as u8,
        ])
    }
}

/// How many octets the tag and the shortest length of an element have.
fn header_length(count: usize) -> usize
    ensures value { result ≡ length (length_octets count) + 1 }
    ensures two { 2 ≤ result }
{
    if count < 128 {
        2
    } else if count < 256 {
        3
    } else if count < 65_536 {
        4
    } else if count < 16_777_216 {
        5
    } else {
        LONGEST_HEADER
    }
}

/// The octets of an integer without those in front that say no more than its sign.
fn shortest(octets: &[u8]) -> &[u8]
    ensures { result.now ≡ shortest octets.now }
{
    match octets {
        [first, rest @ ..] => match rest {
            [second, ..] => {
                if is_needless(*first, *second) {
                    return shortest(rest);
                }
                octets
            }
            [] => octets,
        },
        [] => octets,
    }
}

/// Whether the octet in front says no more than the sign of the next one.
fn is_needless(first: u8, second: u8) -> bool
    ensures { result ≡ is_needless first second }
{
    (first == 0 && second < 128) || (first == 255 && !(second < 128))
}
