//! Elements both ways, and those that are refused. Spellings marked LG are from "A Layman's Guide
//! to a Subset of ASN.1, BER, and DER" (RSA Laboratories, 1993), with its section, and those
//! marked X.690 from that standard.
use crate::assertions::{assert_same, assert_same_of};
use ldap_ber::{
    BerFault, BerKind, NoMemory, Octets, OctetsList, Reader, Tlv, Writer, boolean, discard, integer,
};
use std::alloc::Global;
use std::process::Abort;

// What these calls answer is compared when the tests run: the proofs of the tests know nothing of
// it.

fn reader_of(bytes: &[u8]) -> Reader<'_> {
    Reader::new(bytes)
}

fn with_integer(alloc: Global, value: i64) -> Result<Octets, NoMemory> {
    let mut writer = Writer::new(alloc);
    writer.integer(2, value)?;
    Ok(writer.finish())
}

fn with_octets(alloc: Global, tag: u8, bytes: &[u8]) -> Result<Octets, NoMemory> {
    let mut writer = Writer::new(alloc);
    writer.octets(tag, bytes)?;
    Ok(writer.finish())
}

fn with_boolean(alloc: Global, value: bool) -> Result<Octets, NoMemory> {
    let mut writer = Writer::new(alloc);
    writer.boolean(1, value)?;
    Ok(writer.finish())
}

/// Integers, and how they are written.
const INTEGERS: [(&[u8], i64); 8] = [
    // LG 5.7
    (b"\x02\x01\x00", 0),
    (b"\x02\x01\x7f", 127),
    (b"\x02\x02\x00\x80", 128),
    (b"\x02\x02\x01\x00", 256),
    (b"\x02\x01\x80", -128),
    (b"\x02\x02\xff\x7f", -129),
    // The ends of the range.
    (b"\x02\x08\x7f\xff\xff\xff\xff\xff\xff\xff", i64::MAX),
    (b"\x02\x08\x80\0\0\0\0\0\0\0", i64::MIN),
];

#[test]
fn integers_both_ways(rt: HostRuntime) {
    for (spelling, value) in &INTEGERS {
        assert_same_of(&rt, spelling, &reader_of(spelling).integer(2), &Ok(*value));
        let written = with_integer(rt.alloc(), *value).expect(&rt, "memory");
        assert_same_of(&rt, spelling, &written.as_slice(), spelling);
    }
}

/// Spellings of integers that are read and never written.
const OTHER_INTEGERS: [(&[u8], i64); 3] = [
    // Four length octets, as in each length that some clients write.
    (b"\x02\x84\0\0\0\x01\x02", 2),
    // Needless octets in front of an integer.
    (b"\x02\x03\0\0\x7f", 127),
    (b"\x02\x08\xff\xff\xff\xff\xff\xff\xff\x80", -128),
];

#[test]
fn other_spellings_of_integers(rt: HostRuntime) {
    for (spelling, value) in &OTHER_INTEGERS {
        assert_same_of(&rt, spelling, &reader_of(spelling).integer(2), &Ok(*value));
    }
}

/// LG 5.10: the long form of a length, and the body.
const LONG_FORM: (&[u8], &[u8]) = (
    b"\x04\x81\x08\x01\x23\x45\x67\x89\xab\xcd\xef",
    b"\x01\x23\x45\x67\x89\xab\xcd\xef",
);

#[test]
fn another_spelling_of_octets(rt: HostRuntime) {
    let (spelling, body) = LONG_FORM;
    assert_same_of(&rt, spelling, &reader_of(spelling).octets(4), &Ok(body));
}

/// Any octet but 0 is true.
const TRUE: [&[u8]; 4] = [
    b"\x01\x01\x01",
    b"\x01\x01\x7f",
    b"\x01\x01\x80",
    b"\x01\x01\xfe",
];

#[test]
fn other_spellings_of_truth(rt: HostRuntime) {
    for spelling in &TRUE {
        assert_same_of(&rt, spelling, &reader_of(spelling).boolean(1), &Ok(true));
    }
}

/// Octet strings, their tags and their bodies.
const OCTETS: [(&[u8], u8, &[u8]); 4] = [
    // LG 5.10
    (
        b"\x04\x08\x01\x23\x45\x67\x89\xab\xcd\xef",
        4,
        b"\x01\x23\x45\x67\x89\xab\xcd\xef",
    ),
    // X.690, 8.14: a VisibleString, the same under an application tag, and this under a tag [2]
    (b"\x1a\x05Jones", 0x1A, b"Jones"),
    (b"\x43\x05Jones", 0x43, b"Jones"),
    (b"\xa2\x07\x43\x05Jones", 0xA2, b"\x43\x05Jones"),
];

#[test]
fn octets_both_ways(rt: HostRuntime) {
    for (spelling, tag, body) in &OCTETS {
        assert_same_of(&rt, spelling, &reader_of(spelling).octets(*tag), &Ok(*body));
        let written = with_octets(rt.alloc(), *tag, body).expect(&rt, "memory");
        assert_same_of(&rt, spelling, &written.as_slice(), spelling);
    }
}

/// Octet strings: no octet, some that are no text, a URI, as many octets as a string keeps in
/// itself at most, and one more; and as many as copies share beside their number at most, in a
/// smaller and in a larger piece of memory, and one more than each.
const STRINGS: [&[u8]; 9] = [
    b"",
    b"\0\xff",
    b"ldap://a",
    b"abcdefghijklmnopqrstuvwxyzabcd",
    b"abcdefghijklmnopqrstuvwxyzabcde",
    b"abcdefghijklmnopqrstuvwxyzabcdefghijklmnopqrstuvwxyzabcdefghijk",
    b"abcdefghijklmnopqrstuvwxyzabcdefghijklmnopqrstuvwxyzabcdefghijkl",
    b"abcdefghijklmnopqrstuvwxyzabcdefghijklmnopqrstuvwxyzabcdefghijkl\
      mnopqrstuvwxyzabcdefghijklmnopqrstuvwxyzabcdefghijklmnopqrstuvw",
    b"abcdefghijklmnopqrstuvwxyzabcdefghijklmnopqrstuvwxyzabcdefghijkl\
      mnopqrstuvwxyzabcdefghijklmnopqrstuvwxyzabcdefghijklmnopqrstuvwx",
];

/// Copies of copies of the strings, after those are dropped.
fn copies(alloc: Global) -> Result<OctetsList, NoMemory> {
    let mut list = OctetsList::new(alloc);
    for bytes in &STRINGS {
        list.push(Octets::from_slice(alloc, bytes)?.copy()?)?;
    }
    let copies = list.copy()?.copy();
    discard(list);
    copies
}

#[test]
fn copies_of_octets(rt: HostRuntime) {
    let copies = copies(rt.alloc()).expect(&rt, "memory");
    assert_same(&rt, "strings", &copies.list().len(), &STRINGS.len());
    for (copy, bytes) in copies.list().iter().zip(&STRINGS) {
        assert_same_of(&rt, bytes, &copy.as_slice(), bytes);
    }
}

/// X.690, 8.2.2 and 11.1
const TRUTHS: [(&[u8], bool); 2] = [(b"\x01\x01\xff", true), (b"\x01\x01\0", false)];

#[test]
fn truth_values_both_ways(rt: HostRuntime) {
    for (spelling, value) in &TRUTHS {
        assert_same_of(&rt, spelling, &reader_of(spelling).boolean(1), &Ok(*value));
        let written = with_boolean(rt.alloc(), *value).expect(&rt, "memory");
        assert_same_of(&rt, spelling, &written.as_slice(), spelling);
    }
}

/// Lengths of octet strings, and how these begin.
const LENGTHS: [(usize, &[u8]); 8] = [
    (0, b"\x04\0"),
    (127, b"\x04\x7f"),
    (128, b"\x04\x81\x80"),
    // X.690, 8.1.3.5: the length 201
    (201, b"\x04\x81\xc9"),
    (255, b"\x04\x81\xff"),
    (256, b"\x04\x82\x01\0"),
    (65_535, b"\x04\x82\xff\xff"),
    (65_536, b"\x04\x83\x01\0\0"),
];

/// The header and the body of these bytes, whose header is this.
fn check_length(rt: &impl Abort, bytes: &[u8], header: &[u8], body: &[u8]) {
    assert!(rt; bytes.starts_with(header));
    assert_same_of(rt, header, &bytes.len(), &(header.len() + body.len()));
    assert_same_of(rt, header, &reader_of(bytes).octets(4), &Ok(body));
}

#[test]
fn lengths_both_ways(rt: HostRuntime) {
    for (count, header) in &LENGTHS {
        let body = vec![in rt.alloc(); 7_u8; *count].expect(&rt, "memory");
        let written = with_octets(rt.alloc(), 4, &body).expect(&rt, "memory");
        check_length(&rt, written.as_slice(), header, &body);
    }
}

/// The end of an LDAPResult (RFC 4511, section 4.1.9) with a referral, in its elements.
fn nested(alloc: Global) -> Result<Octets, NoMemory> {
    let mut writer = Writer::new(alloc);
    writer.begin(0x30)?;
    writer.integer(10, 10)?;
    writer.begin(0xA3)?;
    writer.octets(4, b"ldap://a")?;
    writer.octets(4, b"ldap://b")?;
    writer.end()?;
    writer.boolean_unless(1, false, false)?;
    writer.boolean_unless(2, false, true)?;
    writer.end()?;
    Ok(writer.finish())
}

/// How it is written.
const NESTED: &[u8] = b"\x30\x1c\x0a\x01\x0a\xa3\x14\x04\x08ldap://a\x04\x08ldap://b\x02\x01\xff";

#[test]
fn elements_in_elements_are_written(rt: HostRuntime) {
    let written = nested(rt.alloc()).expect(&rt, "memory");
    assert_same_of(&rt, NESTED, &written.as_slice(), &NESTED);
}

fn in_one(alloc: Global, bytes: &[u8]) -> Result<Octets, NoMemory> {
    let mut writer = Writer::new(alloc);
    writer.begin(0x30)?;
    writer.octets(4, bytes)?;
    writer.end()?;
    Ok(writer.finish())
}

fn in_four(alloc: Global, bytes: &[u8]) -> Result<Octets, NoMemory> {
    let mut writer = Writer::new(alloc);
    writer.begin(0x30)?;
    writer.begin(0x30)?;
    writer.begin(0x30)?;
    writer.begin(0x30)?;
    writer.octets(4, bytes)?;
    writer.end()?;
    writer.end()?;
    writer.end()?;
    writer.end()?;
    Ok(writer.finish())
}

/// Lengths of octet strings, and how an element begins that holds such a string alone.
const LENGTHS_IN_ONE: [(usize, &[u8]); 6] = [
    (0, b"\x30\x02\x04\0"),
    (125, b"\x30\x7f\x04\x7d"),
    (126, b"\x30\x81\x80\x04\x7e"),
    (253, b"\x30\x82\x01\0\x04\x81\xfd"),
    (65_531, b"\x30\x82\xff\xff\x04\x82\xff\xfb"),
    (65_532, b"\x30\x83\x01\0\0\x04\x82\xff\xfc"),
];

/// The same of an element in three others.
const LENGTHS_IN_FOUR: [(usize, &[u8]); 4] = [
    (0, b"\x30\x08\x30\x06\x30\x04\x30\x02\x04\0"),
    (
        126,
        b"\x30\x81\x89\x30\x81\x86\x30\x81\x83\x30\x81\x80\x04\x7e",
    ),
    (
        253,
        b"\x30\x82\x01\x0c\x30\x82\x01\x08\x30\x82\x01\x04\x30\x82\x01\0\x04\x81\xfd",
    ),
    (
        65_531,
        b"\x30\x83\x01\0\x0d\x30\x83\x01\0\x08\x30\x83\x01\0\x03\x30\x82\xff\xff\x04\x82\xff\xfb",
    ),
];

/// The header and the body of these bytes, which begin so.
fn check_start(rt: &impl Abort, bytes: &[u8], start: &[u8], body: &[u8]) {
    assert!(rt; bytes.starts_with(start));
    assert!(rt; bytes.ends_with(body));
    assert_same_of(rt, start, &bytes.len(), &(start.len() + body.len()));
}

#[test]
fn lengths_of_elements_in_elements(rt: HostRuntime) {
    for (count, start) in &LENGTHS_IN_ONE {
        check_in_one(&rt, rt.alloc(), *count, start);
    }
    for (count, start) in &LENGTHS_IN_FOUR {
        check_in_four(&rt, rt.alloc(), *count, start);
    }
}

fn check_in_one(rt: &impl Abort, alloc: Global, count: usize, start: &[u8]) {
    let body = vec![in alloc; 7_u8; count].expect(rt, "memory");
    let written = in_one(alloc, &body).expect(rt, "memory");
    check_start(rt, written.as_slice(), start, &body);
}

fn check_in_four(rt: &impl Abort, alloc: Global, count: usize, start: &[u8]) {
    let body = vec![in alloc; 7_u8; count].expect(rt, "memory");
    let written = in_four(alloc, &body).expect(rt, "memory");
    check_start(rt, written.as_slice(), start, &body);
}

/// The list begins at 5 and ends at 27, and its second element is this.
fn check_list(rt: &impl Abort, element: &Tlv) -> Result<(), BerFault> {
    let found = (element.tag, element.at, element.stop);
    assert_same(rt, "list", &found, &(0xA3, 5, 27));
    let mut list = Reader::inside(element);
    list.next()?;
    assert_same(rt, "second", &list.place(), &17);
    assert_same(rt, "URI", &list.octets(4)?, &b"ldap://b".as_slice());
    assert_same(rt, "end of the list", &list.end(), &Ok(()));
    Ok(())
}

/// A number, the list, no truth value, and an element that is passed.
fn check_inside(rt: &impl Abort, inner: &mut Reader) -> Result<(), BerFault> {
    assert_same(rt, "first tag", &inner.peek_tag(), &Some(10));
    assert_same(rt, "number", &integer(&inner.next()?), &Ok(10));
    check_list(rt, &inner.next()?)?;
    assert_same(rt, "truth", &inner.boolean_or(1, true), &Ok(true));
    assert_same(rt, "passed", &inner.skip(), &Ok(()));
    assert_same(rt, "last tag", &inner.peek_tag(), &None);
    Ok(())
}

#[test]
fn elements_in_elements_are_read(rt: HostRuntime) {
    let whole = reader_of(NESTED).expect(0x30).expect(&rt, "a sequence");
    assert_same(&rt, "whole", &(whole.at, whole.stop), &(0, 30));
    check_inside(&rt, &mut Reader::inside(&whole)).expect(&rt, "elements");
}

/// Bytes, and how many elements they are, whatever their tags: none, one with elements in it,
/// two before one of an indefinite length, and three.
const COUNTED: [(&[u8], Result<usize, BerFault>); 4] = [
    (b"", Ok(0)),
    (NESTED, Ok(1)),
    (
        b"\x04\0\x02\x01\x05\x31\x80",
        Err(BerFault {
            kind: BerKind::Indefinite,
            at: 5,
        }),
    ),
    (b"\x04\0\x02\x01\x05\x31\x02\x04\0", Ok(3)),
];

#[test]
fn elements_are_counted(rt: HostRuntime) {
    for (bytes, count) in &COUNTED {
        assert_same_of(&rt, bytes, &reader_of(bytes).count(), count);
    }
}

#[test]
fn a_list_with_room_is_empty(rt: HostRuntime) {
    let mut list = OctetsList::with_room(rt.alloc(), STRINGS.len()).expect(&rt, "memory");
    assert_same(&rt, "before", &list.list().len(), &0);
    let octets = Octets::from_slice(rt.alloc(), b"a").expect(&rt, "memory");
    list.push(octets).expect(&rt, "memory");
    assert_same(&rt, "after", &list.list().len(), &1);
}

/// What a caller asks of the element after the first one in a sequence.
#[derive(Clone, Copy)]
enum Call {
    Next,
    Octets,
    Integer,
    Boolean,
    Skip,
    End,
}

fn refusal_of(inner: &mut Reader, call: Call) -> Option<BerFault> {
    match call {
        Call::Next => inner.next().err(),
        Call::Octets => inner.octets(4).err(),
        Call::Integer => inner.integer(2).err(),
        Call::Boolean => inner.boolean(1).err(),
        Call::Skip => inner.skip().err(),
        Call::End => inner.end().err(),
    }
}

/// The refusal of this call, or none.
fn refusal(bytes: &[u8], call: Call) -> Result<Option<BerFault>, BerFault> {
    let mut outer = Reader::new(bytes);
    let whole = outer.expect(0x30)?;
    let mut inner = Reader::inside(&whole);
    inner.next()?;
    Ok(refusal_of(&mut inner, call))
}

/// Sequences, what is asked of the element after the first one, and what refuses it.
const REFUSED: [(&[u8], Call, BerKind, usize); 17] = [
    // no element, a tag alone, a length cut, a body cut
    (b"\x30\x03\x02\x01\x05", Call::Next, BerKind::Short, 5),
    (b"\x30\x04\x02\x01\x05\x04", Call::Next, BerKind::Short, 5),
    (
        b"\x30\x06\x02\x01\x05\x04\x82\x01",
        Call::Next,
        BerKind::Short,
        5,
    ),
    (
        b"\x30\x06\x02\x01\x05\x04\x02a",
        Call::Next,
        BerKind::Short,
        5,
    ),
    // the place counts from the outermost octet, whatever the lengths are written like
    (
        b"\x30\x84\0\0\0\x0c\x02\x84\0\0\0\x01\x05\x04\x84\0\0\0",
        Call::Next,
        BerKind::Short,
        13,
    ),
    // five length octets, the reserved first length octet
    (
        b"\x30\x0a\x02\x01\x05\x04\x85\0\0\0\0\0",
        Call::Next,
        BerKind::LongLength,
        5,
    ),
    (
        b"\x30\x05\x02\x01\x05\x04\xff",
        Call::Next,
        BerKind::LongLength,
        5,
    ),
    // the tag number 31, which is reported before what is wrong with the length
    (
        b"\x30\x06\x02\x01\x05\x1f\x1f\0",
        Call::Next,
        BerKind::WrongTag,
        5,
    ),
    (
        b"\x30\x05\x02\x01\x05\x3f\x80",
        Call::Next,
        BerKind::WrongTag,
        5,
    ),
    // another tag
    (
        b"\x30\x06\x02\x01\x05\x0a\x01\x05",
        Call::Octets,
        BerKind::WrongTag,
        5,
    ),
    // integers of no octet and of nine, truth values of no octet and of two
    (
        b"\x30\x05\x02\x01\x05\x02\0",
        Call::Integer,
        BerKind::BadInteger,
        5,
    ),
    (
        b"\x30\x0e\x02\x01\x05\x02\x09\0\0\0\0\0\0\0\0\x01",
        Call::Integer,
        BerKind::BadInteger,
        5,
    ),
    (
        b"\x30\x05\x02\x01\x05\x01\0",
        Call::Boolean,
        BerKind::BadBoolean,
        5,
    ),
    (
        b"\x30\x07\x02\x01\x05\x01\x02\0\0",
        Call::Boolean,
        BerKind::BadBoolean,
        5,
    ),
    // the second of two unknown elements
    (
        b"\x30\x08\x02\x01\x05\x80\x01a\x81\x01",
        Call::Skip,
        BerKind::Short,
        8,
    ),
    // bytes after the last element
    (b"\x30\x05\x02\x01\x05\0\0", Call::End, BerKind::Trailing, 5),
    (
        b"\x30\x81\x04\x02\x01\x05\0",
        Call::End,
        BerKind::Trailing,
        6,
    ),
];

#[test]
fn refusals(rt: HostRuntime) {
    assert_refused(&rt, &REFUSED);
}

/// Forms that LDAP leaves out (RFC 4511, section 5.1): an indefinite length, and, as LG 5.10 has
/// it, the constructed form of an octet string.
const OTHER_FORMS: [(&[u8], Call, BerKind, usize); 2] = [
    (
        b"\x30\x07\x02\x01\x05\x24\x80\0\0",
        Call::Next,
        BerKind::Indefinite,
        5,
    ),
    (
        b"\x30\x11\x02\x01\x05\x24\x0c\x04\x04\x01\x23\x45\x67\x04\x04\x89\xab\xcd\xef",
        Call::Octets,
        BerKind::WrongTag,
        5,
    ),
];

#[test]
fn an_indefinite_length_and_a_constructed_string_are_refused(rt: HostRuntime) {
    assert_refused(&rt, &OTHER_FORMS);
}

fn assert_refused(rt: &impl Abort, rows: &[(&[u8], Call, BerKind, usize)]) {
    for (bytes, call, kind, at) in rows {
        let fault = BerFault {
            kind: *kind,
            at: *at,
        };
        assert_same_of(rt, bytes, &refusal(bytes, *call), &Ok(Some(fault)));
    }
}
