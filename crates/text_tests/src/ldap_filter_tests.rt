//! Filters as text, and what they say of an entry.
use crate::assertions::{Row, assert_same, joined, or_fault, push_times, shown, utf8};
use ldap_ber::{NoMemory, Octets, OctetsList, discard};
use ldap_filter::{Filter, FilterFault, FilterList};
use schema_rules::{Attrs, RawAttribute, RawList};
use std::alloc::Global;
use std::process::Abort;

/// Texts, and of each whether its copy is the same and its text is read as the same, and how that
/// is written. The first of them are the examples of RFC 4515, section 4, but for the extensible
/// ones.
const WRITTEN: [Row; 24] = [
    ("(cn=Babs Jensen)", "true (cn=Babs Jensen)"),
    ("(!(cn=Tim Howes))", "true (!(cn=Tim Howes))"),
    (
        "(&(objectClass=Person)(|(sn=Jensen)(cn=Babs J*)))",
        "true (&(objectClass=Person)(|(sn=Jensen)(cn=Babs J*)))",
    ),
    ("(o=univ*of*mich*)", "true (o=univ*of*mich*)"),
    ("(seeAlso=)", "true (seeAlso=)"),
    (
        "(o=Parens R Us \\28for all your parenthetical needs\\29)",
        "true (o=Parens R Us \\28for all your parenthetical needs\\29)",
    ),
    ("(cn=*\\2A*)", "true (cn=*\\2a*)"),
    ("(filename=C:\\5cMyFile)", "true (filename=C:\\5cMyFile)"),
    ("(bin=\\00\\00\\00\\04)", "true (bin=\\00\\00\\00\u{4})"),
    ("(sn=Lu\\c4\\8di\\c4\\87)", "true (sn=Lučić)"),
    (
        "(1.3.6.1.4.1.1466.0=\\04\\02\\48\\69)",
        "true (1.3.6.1.4.1.1466.0=\u{4}\u{2}Hi)",
    ),
    ("(&)", "true (&)"),
    ("(|)", "true (|)"),
    ("(&(cn=a\\2ab)(!(ou=*)))", "true (&(cn=a\\2ab)(!(ou=*)))"),
    ("(cn~=a)", "true (cn~=a)"),
    ("(uidNumber>=-1)", "true (uidNumber>=-1)"),
    ("(uidNumber<=7)", "true (uidNumber<=7)"),
    ("(cn;lang-de=a=b~<>)", "true (cn;lang-de=a=b~<>)"),
    ("(cn=*a)", "true (cn=*a)"),
    ("(cn=a*)", "true (cn=a*)"),
    ("(cn=a*b*c*d)", "true (cn=a*b*c*d)"),
    ("(cn= * )", "true (cn= * )"),
    ("(cn=\\c3\\28\\FF)", "true (cn=\\c3\\28\\ff)"),
    ("(cn=\\c3\\a9\\e2\\82\\e2\\82\\ac)", "true (cn=é\\e2\\82€)"),
];

/// Texts that are no filters, and why: the place of the first byte that cannot stand there. The
/// first of them are the extensible examples of RFC 4515, section 4.
const REFUSED: [Row; 32] = [
    ("(cn:caseExactMatch:=Fred Flintstone)", "BadFilter(3)"),
    ("(cn:=Betty Rubble)", "BadFilter(3)"),
    ("(sn:dn:2.4.6.8.10:=Barney Rubble)", "BadFilter(3)"),
    ("(o:dn:=Ace Industry)", "BadFilter(2)"),
    ("(:1.2.3:=Wilma Flintstone)", "BadFilter(1)"),
    ("(:DN:2.4.6.8.10:=Dino)", "BadFilter(1)"),
    ("", "BadFilter(0)"),
    ("(", "BadFilter(1)"),
    ("()", "BadFilter(1)"),
    ("cn=a", "BadFilter(0)"),
    (" (cn=a)", "BadFilter(0)"),
    ("(cn=a", "BadFilter(5)"),
    ("(cn=a)x", "BadFilter(6)"),
    ("(cn=a))", "BadFilter(6)"),
    ("(a)", "BadFilter(2)"),
    ("(=a)", "BadFilter(1)"),
    ("(c n=a)", "BadFilter(2)"),
    ("(cn>a)", "BadFilter(4)"),
    ("(cn~*)", "BadFilter(4)"),
    ("(cn>=a*)", "BadFilter(6)"),
    ("(cn~=a*b)", "BadFilter(6)"),
    ("(cn=a(b)", "BadFilter(5)"),
    ("(cn=a\0)", "BadFilter(5)"),
    ("(cn=\\2)", "BadFilter(6)"),
    ("(cn=\\g0)", "BadFilter(5)"),
    ("(cn=\\", "BadFilter(5)"),
    ("(!)", "BadFilter(2)"),
    ("(!(cn=a)(cn=b))", "BadFilter(8)"),
    ("(& (cn=a))", "BadFilter(2)"),
    ("(&(cn=a)", "BadFilter(8)"),
    ("(&(cn=a)x)", "BadFilter(8)"),
    ("(cé=a)", "BadFilter(2)"),
];

/// Bytes that are no text.
const NO_TEXTS: [(&[u8], &str); 3] = [
    (b"(cn=\xff)", "BadFilter(4)"),
    (b"(cn=a\xe2\x82)", "BadFilter(5)"),
    (b"(cn=a)\xff", "BadFilter(6)"),
];

/// How often a prefix stands before an item, and `)` after it; and why that is refused.
const LEVELS: [Row; 6] = [
    ("31 (! (cn=a)", "none"),
    ("32 (! (cn=a)", "TooDeep"),
    ("32 (& ", "none"),
    ("33 (& ", "TooDeep"),
    ("31 (|(cn=a) (|)", "none"),
    ("32 (|(cn=a) (|)", "TooDeep"),
];

/// How often a piece stands after a prefix. Long lists take no more of the stack than short ones.
const LONG: [Row; 2] = [
    ("10000 (cn=a) (|", "(true, true)"),
    ("10000 *b (cn=a", "(true, true)"),
];

/// Filters of this text have none of their own.
const WITHOUT_TEXT: [Row; 4] = [
    ("(cn=a**b)", "NoText"),
    ("(cn=**)", "NoText"),
    ("(!(&(cn=a)(cn=**b)))", "NoText"),
    ("(cn=***)", "NoText"),
];

/// Names that are no types, so that their presence has no text.
const NO_TYPES: [Row; 3] = [("", "NoText"), ("c n", "NoText"), ("é", "NoText")];

/// A list of an extensible filter has no text, and such a filter no truth.
const NO_LISTS: [Row; 1] = [("", "NoText")];

const NO_TRUTHS: [Row; 1] = [("", "Undefined")];

/// Two filters, and whether each is the same as the other.
const PAIRS: [Row; 12] = [
    ("(cn=a) (CN=a)", "(true, true)"),
    ("(&(cn=a)(sn=b)) (&(cn=a)(sn=b))", "(true, true)"),
    ("(cn=*) (Cn=*)", "(true, true)"),
    ("(cn=a) (cn=A)", "(false, false)"),
    ("(cn=a) (cn~=a)", "(false, false)"),
    ("(cn=a) (sn=a)", "(false, false)"),
    ("(cn>=a) (cn<=a)", "(false, false)"),
    ("(&(cn=a)(sn=b)) (&(sn=b)(cn=a))", "(false, false)"),
    ("(&(cn=a)) (&(cn=a)(cn=a))", "(false, false)"),
    ("(&) (|)", "(false, false)"),
    ("(cn=a*b) (cn=a\\2ab)", "(false, false)"),
    ("(cn=a*b*) (cn=a*b)", "(false, false)"),
];

const ENTRY: &str = "cn=Ann  Lee|cn=bab|uidNumber=7|gidNumber=-12|syncActive=TRUE\
    |syncExpiry=20291231235959Z|memberUid=x|mail=a@x|objectClass=posixAccount";

/// Numbers go by number, times by text, and text has no order. Pieces stand in order and without
/// overlap.
const TRUTHS: [Row; 54] = [
    ("(cn=ann lee)", "True"),
    ("(cn=BAB)", "True"),
    ("(cn=ba)", "False"),
    ("(mail=A@X)", "True"),
    ("(memberUid=x)", "True"),
    ("(cn=*N L*)", "True"),
    ("(uidNumber>=7)", "True"),
    ("(syncActive=TRUE)", "True"),
    ("(syncExpiry<=20300101000000Z)", "True"),
    ("(memberUid=X)", "False"),
    ("(uidNumber>=x)", "Undefined"),
    ("(!(foo=1))", "Undefined"),
    ("(&)", "True"),
    ("(|)", "False"),
    ("(uidNumber>=10)", "False"),
    ("(uidNumber<=10)", "True"),
    ("(gidNumber<=-2)", "True"),
    ("(gidNumber>=-13)", "True"),
    ("(uidNumber>=07)", "Undefined"),
    ("(syncExpiry>=20291231235959Z)", "True"),
    ("(syncExpiry>=20300101000000Z)", "False"),
    ("(cn>=a)", "Undefined"),
    ("(syncActive<=TRUE)", "Undefined"),
    ("(sn<=a)", "Undefined"),
    ("(cn~=ANN LEE)", "True"),
    ("(sn=a)", "False"),
    ("(cn=)", "Undefined"),
    ("(mail=é)", "Undefined"),
    ("(cn=\\ff)", "Undefined"),
    ("(objectClass=POSIXACCOUNT)", "True"),
    ("(objectClass=person)", "False"),
    ("(objectClass=thing)", "Undefined"),
    ("(CN=*)", "True"),
    ("(sn=*)", "False"),
    ("(foo=*)", "Undefined"),
    ("(entryUUID=*)", "Undefined"),
    ("(entryCSN=1)", "Undefined"),
    ("(cn=b*b)", "True"),
    ("(cn=ba*ab)", "False"),
    ("(cn=b*a*b)", "True"),
    ("(cn=*b*b*)", "True"),
    ("(cn=*b*b*b*)", "False"),
    ("(cn=*b*a*a*)", "False"),
    ("(cn= *)", "True"),
    ("(cn=* *)", "True"),
    ("(cn=*  *)", "True"),
    ("(mail=* *)", "False"),
    ("(cn=*\\ff*)", "Undefined"),
    ("(mail=*é)", "Undefined"),
    ("(memberUid=X*)", "False"),
    ("(uidNumber=7*)", "Undefined"),
    ("(&(cn=bab)(foo=1)(cn=x))", "False"),
    ("(|(foo=1)(cn=x)(cn=bab))", "True"),
    ("(|(cn=x)(!(&(cn=bab)(foo=1))))", "Undefined"),
];

#[test]
fn texts_of_filters(rt: HostRuntime) {
    check_rows(&rt, rt.alloc(), "again", &WRITTEN);
    check_rows(&rt, rt.alloc(), "fault", &REFUSED);
    check_bytes(&rt, rt.alloc());
    check_rows(&rt, rt.alloc(), "nested", &LEVELS);
    check_rows(&rt, rt.alloc(), "long", &LONG);
    check_rows(&rt, rt.alloc(), "again", &WITHOUT_TEXT);
    check_rows(&rt, rt.alloc(), "present", &NO_TYPES);
    check_rows(&rt, rt.alloc(), "list", &NO_LISTS);
}

#[test]
fn truths_of_filters(rt: HostRuntime) {
    check_rows(&rt, rt.alloc(), "pair", &PAIRS);
    check_rows(&rt, rt.alloc(), "truth", &TRUTHS);
    check_rows(&rt, rt.alloc(), "extensible", &NO_TRUTHS);
}

fn check_rows(rt: &impl Abort, alloc: Global, word: &str, rows: &[Row]) {
    for (asked, wanted) in rows {
        let reported = or_fault(alloc, reported(alloc, word, asked)).expect(rt, asked);
        assert_same(rt, asked, &reported.as_str(), wanted);
    }
}

fn check_bytes(rt: &impl Abort, alloc: Global) {
    for (bytes, wanted) in &NO_TEXTS {
        let reported = or_fault(alloc, read(alloc, bytes)).expect(rt, "bytes");
        assert_same(rt, "bytes", &reported.as_str(), wanted);
    }
}

/// What is reported of the text, or the fault that refuses it.
fn reported(alloc: Global, word: &str, text: &str) -> Result<String, FilterFault> {
    match word {
        "again" => again(alloc, text),
        "nested" => nested(alloc, text),
        "long" => long(alloc, text),
        "present" => presence_written(alloc, text),
        "list" => list_written(alloc),
        "pair" => pair(alloc, text),
        "truth" => truth_of_text(alloc, text),
        "extensible" => truth_of_extensible(alloc),
        _ => read(alloc, text.as_bytes()),
    }
}

fn presence_written(alloc: Global, kind: &str) -> Result<String, FilterFault> {
    let kind = octets(alloc, kind)?;
    written(alloc, Filter::Present(kind))
}

fn list_written(alloc: Global) -> Result<String, FilterFault> {
    let filter = list_of_extensible(alloc)?;
    written(alloc, filter)
}

fn truth_of_text(alloc: Global, text: &str) -> Result<String, FilterFault> {
    let filter = Filter::read_text(alloc, text.as_bytes())?;
    truth(alloc, filter)
}

fn truth_of_extensible(alloc: Global) -> Result<String, FilterFault> {
    let rest = octets(alloc, "")?;
    truth(alloc, Filter::Extensible(rest))
}

fn octets(alloc: Global, text: &str) -> Result<Octets, NoMemory> {
    Octets::from_slice(alloc, text.as_bytes())
}

fn read(alloc: Global, text: &[u8]) -> Result<String, FilterFault> {
    discard(Filter::read_text(alloc, text)?);
    Ok("none".to_string(alloc)?)
}

/// Whether a copy is the same and is written as a text of the same, and how.
fn again(alloc: Global, text: &str) -> Result<String, FilterFault> {
    let filter = Filter::read_text(alloc, text.as_bytes())?;
    let copied = copied(alloc, &filter);
    discard(filter);
    copied
}

fn copied(alloc: Global, filter: &Filter) -> Result<String, FilterFault> {
    let copied = filter.copy()?;
    let is_same = filter.same(&copied);
    let text = copied.write_text(alloc);
    discard(copied);
    let text = text?;
    let is_again = is_same && is_read_as(alloc, text.as_slice(), filter)?;
    let word = if is_again { "true " } else { "false " };
    Ok(joined(alloc, word, utf8(text.as_slice()))?)
}

/// Whether the text is read as this filter.
fn is_read_as(alloc: Global, text: &[u8], filter: &Filter) -> Result<bool, FilterFault> {
    let again = Filter::read_text(alloc, text)?;
    let is_same = again.same(filter);
    discard(again);
    Ok(is_same)
}

/// The text up to the first blank, and that after it.
fn parted(text: &str) -> (&str, &str) {
    text.split_once(' ').unwrap_or((text, ""))
}

fn nested(alloc: Global, text: &str) -> Result<String, FilterFault> {
    let (levels, rest) = parted(text);
    let (prefix, item) = parted(rest);
    let text = nested_text(alloc, prefix, levels, item)?;
    read(alloc, text.as_bytes())
}

/// As many times the prefix, the item, and as many times `)`.
fn nested_text(alloc: Global, prefix: &str, levels: &str, item: &str) -> Result<String, NoMemory> {
    let mut text = String::new(alloc);
    push_times(&mut text, prefix, levels)?;
    text.push_str(item)?;
    push_times(&mut text, ")", levels)?;
    Ok(text)
}

/// Whether the copy of a long filter is the same, and is written as its text.
fn long(alloc: Global, text: &str) -> Result<String, FilterFault> {
    let (count, rest) = parted(text);
    let (piece, prefix) = parted(rest);
    let text = long_text(alloc, prefix, piece, count)?;
    let again = again(alloc, &text)?;
    let (is_same, written) = parted(&again);
    Ok(shown(alloc, &(is_same == "true", written == text.as_str()))?)
}

/// The prefix, as many times the piece, and `)`.
fn long_text(alloc: Global, prefix: &str, piece: &str, count: &str) -> Result<String, NoMemory> {
    let mut text = prefix.to_string(alloc)?;
    push_times(&mut text, piece, count)?;
    text.push(')')?;
    Ok(text)
}

/// How the filter is written.
fn written(alloc: Global, filter: Filter) -> Result<String, FilterFault> {
    let text = filter.write_text(alloc);
    discard(filter);
    Ok(utf8(text?.as_slice()).to_string(alloc)?)
}

fn list_of_extensible(alloc: Global) -> Result<Filter, NoMemory> {
    let mut parts = FilterList::new(alloc);
    parts.push(Filter::Extensible(octets(alloc, "")?))?;
    Ok(Filter::And(parts))
}

fn pair(alloc: Global, text: &str) -> Result<String, FilterFault> {
    let (one, other) = parted(text);
    let one = Filter::read_text(alloc, one.as_bytes())?;
    let reported = compared(alloc, &one, other);
    discard(one);
    reported
}

fn compared(alloc: Global, one: &Filter, other: &str) -> Result<String, FilterFault> {
    let other = Filter::read_text(alloc, other.as_bytes())?;
    let (is_same, is_same_again) = (one.same(&other), other.same(one));
    discard(other);
    Ok(shown(alloc, &(is_same, is_same_again))?)
}

fn attribute(alloc: Global, name: &str, value: &str) -> Result<RawAttribute, NoMemory> {
    let mut values = OctetsList::new(alloc);
    values.push(octets(alloc, value)?)?;
    let name = octets(alloc, name)?;
    Ok(RawAttribute { name, values })
}

/// The attributes of the entry: each piece is one attribute with one value.
fn attributes(alloc: Global) -> Result<RawList, NoMemory> {
    let mut raw = RawList::new(alloc);
    for piece in ENTRY.split('|') {
        if let Some((name, value)) = piece.split_once('=') {
            raw.push(attribute(alloc, name, value)?)?;
        }
    }
    Ok(raw)
}

/// The truth of the filter on the entry.
fn truth(alloc: Global, filter: Filter) -> Result<String, FilterFault> {
    let truth = truth_of(alloc, &filter);
    discard(filter);
    truth
}

fn truth_of(alloc: Global, filter: &Filter) -> Result<String, FilterFault> {
    let raw = attributes(alloc)?;
    match Attrs::read(alloc, &raw) {
        Ok(attrs) => Ok(shown(alloc, &filter.value_on(alloc, &attrs)?)?),
        Err(_) => Ok("no entry".to_string(alloc)?),
    }
}
