//! Names read and written, and names against each other.
use crate::assertions::{Row, assert_same, or_fault, push_times, shown, utf8};
use dn_names::{Dn, NameFault, Rdn};
use ldap_ber::NoMemory;
use std::alloc::Global;
use std::process::Abort;

/// Texts of names, and how the names are written.
const WRITTEN: [Row; 19] = [
    ("", ""),
    ("dc=x", "dc=x"),
    (r"CN=Smith\, John , OU=\e2\82\ac", r"cn=Smith\, John,ou=€"),
    (
        "UID=jsmith,DC=example,DC=net",
        "uid=jsmith,dc=example,dc=net",
    ),
    (
        "OU=Sales+CN=J.  Smith,DC=example,DC=net",
        "ou=Sales+cn=J.  Smith,dc=example,dc=net",
    ),
    (
        r#"CN=James \"Jim\" Smith\, III,DC=net"#,
        r#"cn=James \"Jim\" Smith\, III,dc=net"#,
    ),
    (r"CN=Before\0dAfter,DC=net", "cn=Before\rAfter,dc=net"),
    (r"CN=Lu\C4\8Di\C4\87", "cn=Lučić"),
    ("cn=#04024869", "cn=Hi"),
    ("cn=#04820002486a", "cn=Hj"),
    (r"cn=#04025C2C", r"cn=\\\,"),
    ("ou = a + l = b , dc = x", "ou=a+l=b,dc=x"),
    ("ou=a ", r"ou=a\ "),
    (r"ou=a\ ,dc=x", r"ou=a\ ,dc=x"),
    (r"ou=\20a\20\20", r"ou=\ a \ "),
    ("ou=a = b", "ou=a = b"),
    (r"ou=\#a#", r"ou=\#a#"),
    (r"ou=a\00b", r"ou=a\00b"),
    (r"ou=\<\>\;\=\+", r"ou=\<\>\;=\+"),
];

/// Texts that are no names, and why.
const REFUSED: [Row; 31] = [
    ("ou=a,,b", "BadName(5)"),
    ("foo=1", "UnknownType(0)"),
    ("2.5.4.11=a", "UnknownType(0)"),
    ("1=a", "BadName(0)"),
    ("02.5=a", "BadName(0)"),
    ("dc=x,  entryUUID=a", "UnknownType(7)"),
    ("ou", "BadName(0)"),
    ("=a", "BadName(0)"),
    (" ou=a", "BadName(0)"),
    ("ou=a,", "BadName(5)"),
    (r"ou=\2c, ", "BadName(8)"),
    ("ou=a,  ,dc=x", "BadName(7)"),
    ("ou=a+", "BadName(0)"),
    ("cn=", "BadName(0)"),
    ("uidNumber=07", "BadName(0)"),
    ("dc=é", "BadName(0)"),
    (r"ou=\c3", "BadName(0)"),
    (r"ou=a\", "BadName(0)"),
    (r"ou=a\a", "BadName(0)"),
    ("ou=a;b", "BadName(0)"),
    ("ou=\"a\"", "BadName(0)"),
    ("ou=a\0b", "BadName(0)"),
    ("cn=#0403486a", "BadName(0)"),
    ("cn=#0480486a", "BadName(0)"),
    ("cn=#0485000000024869", "BadName(0)"),
    ("cn=#24024869", "BadName(0)"),
    ("cn=#04024869 ", "BadName(0)"),
    ("cn=#", "BadName(0)"),
    ("ou=a+OU=A", "BadName(0)"),
    ("ou=a+ou=a+foo=1", "UnknownType(0)"),
    (r"ou=\zz+foo=1", "BadName(0)"),
];

/// Names at the limits: the prefix, a piece, how often it stands, the end; and why it is refused.
const LONG: [Row; 5] = [
    ("|ou=a,|31|ou=a", "none"),
    ("|ou=a,|32|ou=a", "TooLong(160)"),
    ("|ou=a,|32|", "BadName(160)"),
    ("dc=x,ou=|a|1021|", "none"),
    ("dc=x,ou=\\+|a|1021|", "TooLong(5)"),
];

/// A name and another: whether they are equal, the first is at or below, or a child, and both have
/// one key.
const COMPARED: [Row; 12] = [
    ("|", "(true, true, false, true)"),
    ("dc=x|", "(false, true, true, false)"),
    (
        r"OU=a+l=B,dc=X|L=b+ou=\41,dc=x",
        "(true, true, false, true)",
    ),
    ("ou=a+l=b,dc=x|ou=a,dc=x", "(false, false, false, false)"),
    ("ou=a  b,dc=x|ou=A B,dc=x", "(true, true, false, true)"),
    ("memberUid=a|memberUid=A", "(false, false, false, false)"),
    ("ou=s,ou=a,dc=x|ou=A,dc=x", "(false, true, true, false)"),
    (
        "ou=t,ou=s,ou=a,dc=x|ou=a,dc=x",
        "(false, true, false, false)",
    ),
    ("ou=a,dc=x|ou=s,ou=a,dc=x", "(false, false, false, false)"),
    ("ou=aa,dc=x|ou=a,dc=x", "(false, false, false, false)"),
    ("cn=a,dc=x|sn=a,dc=x", "(false, false, false, false)"),
    ("ou=a,ou=b|ou=a+ou=b", "(false, false, false, false)"),
];

/// A name that is known, and a text that is read beside it: how the name of the text is written, or
/// why it is refused.
const BESIDE: [Row; 7] = [
    ("uid=a,dc=x|uid=a,dc=x", "uid=a,dc=x"),
    ("uid=a,dc=x|uid=b,dc=x", "uid=b,dc=x"),
    ("uid=a,dc=x|UID=A,dc=X", "uid=A,dc=X"),
    (r"ou=a\,b|ou=a\2cb", r"ou=a\,b"),
    ("|dc=x", "dc=x"),
    ("dc=x|", ""),
    ("uid=a,dc=x|uid=a;dc=x", "BadName(0)"),
];

/// The first RDN of a name: how it is written, how many pairs its copy has, and the key of the
/// first.
const RDNS: [Row; 1] = [("CN=e + l=b", r#"("cn=e+l=b", 2, "e")"#)];

/// A name, an RDN that goes below it, a name that it is at or below, and one in the place of that:
/// how the superior, the name below and the name that is moved are written.
const BUILT: [Row; 2] = [
    (
        "ou=s,OU=A,dc=x|CN=e + l=b|ou=a,dc=x|ou=b",
        "ou=A,dc=x cn=e+l=b,ou=s,ou=A,dc=x ou=s,ou=b",
    ),
    // Below the longest name there is none.
    (
        "ou=a,ou=a,ou=a,ou=a,ou=a,ou=a,ou=a,ou=a,ou=a,ou=a,ou=a,ou=a,ou=a,ou=a,ou=a,ou=a,ou=a,ou=a,ou=a,ou=a,ou=a,ou=a,ou=a,ou=a,ou=a,ou=a,ou=a,ou=a,ou=a,ou=a,ou=a,ou=a|ou=a||",
        "TooLong(0)",
    ),
];

/// Names and their path keys: of each RDN the number of its pairs, and of each pair the number of
/// its type, the length of its key, and the key; numbers and lengths in four octets.
const PATHS: [Row; 5] = [
    ("", "(true, [])"),
    ("DC=X", "(true, [0, 0, 0, 1, 0, 0, 0, 12, 0, 0, 0, 1, 120])"),
    // The RDN at the root comes first.
    (
        "L=B,o=c",
        "(true, [0, 0, 0, 1, 0, 0, 0, 10, 0, 0, 0, 1, 99, \
         0, 0, 0, 1, 0, 0, 0, 11, 0, 0, 0, 1, 98])",
    ),
    // The pair of ou is less than that of l.
    (
        "L=B+OU=A",
        "(true, [0, 0, 0, 2, 0, 0, 0, 9, 0, 0, 0, 1, 97, 0, 0, 0, 11, 0, 0, 0, 1, 98])",
    ),
    (
        "cn=ab+ou=A,dc=x",
        "(true, [0, 0, 0, 1, 0, 0, 0, 12, 0, 0, 0, 1, 120, \
         0, 0, 0, 2, 0, 0, 0, 1, 0, 0, 0, 2, 97, 98, 0, 0, 0, 9, 0, 0, 0, 1, 97])",
    ),
];

#[test]
fn names(rt: HostRuntime) {
    check_rows(&rt, rt.alloc(), "written", &WRITTEN);
    check_rows(&rt, rt.alloc(), "fault", &REFUSED);
    check_rows(&rt, rt.alloc(), "long", &LONG);
    check_rows(&rt, rt.alloc(), "compared", &COMPARED);
    check_rows(&rt, rt.alloc(), "beside", &BESIDE);
    check_rows(&rt, rt.alloc(), "path", &PATHS);
    check_rows(&rt, rt.alloc(), "rdn", &RDNS);
    check_rows(&rt, rt.alloc(), "built", &BUILT);
}

fn check_rows(rt: &impl Abort, alloc: Global, word: &str, rows: &[Row]) {
    for (asked, wanted) in rows {
        let reported = or_fault(alloc, reported(alloc, word, asked)).expect(rt, asked);
        assert_same(rt, asked, &reported.as_str(), wanted);
    }
}

/// What is reported of the text, or the fault that refuses it.
fn reported(alloc: Global, word: &str, text: &str) -> Result<String, NameFault> {
    match word {
        "written" => rewritten(alloc, text),
        "long" => long(alloc, text),
        "compared" => compared(alloc, text),
        "beside" => beside(alloc, text),
        "path" => path(alloc, text),
        "rdn" => rdn(alloc, text),
        "built" => built(alloc, text),
        _ => read(alloc, text),
    }
}

fn read(alloc: Global, text: &str) -> Result<String, NameFault> {
    Dn::parse(alloc, text.as_bytes())?;
    Ok("none".to_string(alloc)?)
}

fn rewritten(alloc: Global, text: &str) -> Result<String, NameFault> {
    let name = Dn::parse(alloc, text.as_bytes())?;
    let mut text = String::new(alloc);
    push_name(&mut text, &name)?;
    Ok(text)
}

/// Puts the name at the end as it is written.
fn push_name(text: &mut String, name: &Dn) -> Result<(), NoMemory> {
    text.push_str(utf8(name.write()?.as_slice()))
}

/// The text before the first bar, and that after it.
fn parted(text: &str) -> (&str, &str) {
    text.split_once('|').unwrap_or((text, ""))
}

/// What is reported of a prefix, as many times a piece, and an end.
fn long(alloc: Global, text: &str) -> Result<String, NameFault> {
    let (prefix, rest) = parted(text);
    let (piece, rest) = parted(rest);
    let (count, end) = parted(rest);
    let mut text = prefix.to_string(alloc)?;
    push_times(&mut text, piece, count)?;
    text.push_str(end)?;
    read(alloc, &text)
}

fn compared(alloc: Global, text: &str) -> Result<String, NameFault> {
    let (one, other) = parted(text);
    let name = Dn::parse(alloc, one.as_bytes())?;
    let base = Dn::parse(alloc, other.as_bytes())?;
    Ok(relation(alloc, &name, &base)?)
}

fn relation(alloc: Global, name: &Dn, base: &Dn) -> Result<String, NoMemory> {
    let has_key = name.key()? == base.key()?;
    let (is_same, is_below) = (name.same(base), name.is_at_or_below(base));
    shown(alloc, &(is_same, is_below, name.is_child_of(base), has_key))
}

fn beside(alloc: Global, text: &str) -> Result<String, NameFault> {
    let (known, text) = parted(text);
    let known = Dn::parse(alloc, known.as_bytes())?;
    let name = Dn::parse_beside(alloc, text.as_bytes(), &known)?;
    Ok(utf8(name.write()?.as_slice()).to_string(alloc)?)
}

/// The path key of a name, and whether the one that it lends is the same.
fn path(alloc: Global, text: &str) -> Result<String, NameFault> {
    let name = Dn::parse(alloc, text.as_bytes())?;
    let path = name.copy()?.path_key()?;
    let is_lent = name.path() == path.as_slice();
    Ok(shown(alloc, &(is_lent, path.as_slice()))?)
}

fn rdn(alloc: Global, text: &str) -> Result<String, NameFault> {
    let rdn = Rdn::parse(alloc, text.as_bytes())?.copy()?;
    Ok(rdn_shown(alloc, &rdn)?)
}

fn rdn_shown(alloc: Global, rdn: &Rdn) -> Result<String, NoMemory> {
    let written = rdn.write()?;
    let written = utf8(written.as_slice());
    shown(
        alloc,
        &(written, rdn.list().len(), utf8(rdn.list()[0].key())),
    )
}

fn built(alloc: Global, text: &str) -> Result<String, NameFault> {
    let (name, rest) = parted(text);
    let name = Dn::parse(alloc, name.as_bytes())?.copy()?;
    let mut text = superior(alloc, &name)?;
    push_built(alloc, &mut text, &name, rest)?;
    Ok(text)
}

/// How the name of the superior is written, if there is one.
fn superior(alloc: Global, name: &Dn) -> Result<String, NameFault> {
    let mut text = String::new(alloc);
    if !name.rdns().is_empty() {
        push_name(&mut text, &name.parent()?)?;
    }
    Ok(text)
}

/// Puts the name below, and the name that is moved, each after a space.
fn push_built(alloc: Global, text: &mut String, name: &Dn, of: &str) -> Result<(), NameFault> {
    let (rdn, rest) = parted(of);
    let (from, to) = parted(rest);
    text.push(' ')?;
    push_name(text, &below(alloc, name, rdn)?)?;
    text.push(' ')?;
    Ok(push_name(text, &moved(alloc, name, from, to)?)?)
}

fn below(alloc: Global, name: &Dn, rdn: &str) -> Result<Dn, NameFault> {
    let rdn = Rdn::parse(alloc, rdn.as_bytes())?;
    name.below(&rdn)
}

/// The name with the second in place of the first at its end, or itself where the first is not
/// there.
fn moved(alloc: Global, name: &Dn, from: &str, to: &str) -> Result<Dn, NameFault> {
    let from = Dn::parse(alloc, from.as_bytes())?;
    let to = Dn::parse(alloc, to.as_bytes())?;
    if name.is_at_or_below(&from) {
        name.moved(&from, &to)
    } else {
        Ok(name.copy()?)
    }
}
