//! The tables, as they are agreed, and what the schema says of attributes and of entries.
use crate::assertions::assert_same;
use ldap_ber::{NoMemory, Octets, OctetsList, discard};
use schema_rules::{
    Attribute, AttributeType, Attrs, RawAttribute, RawList, Rule, SchemaFault, add_values,
    are_of_syntax, check_entry, has_key, key_of, keys_of, known_key,
};
use std::alloc::{AllocError, Global};
use std::process::Abort;
use text_keys::KeyFault;

/// The types, how their values are compared, and whether an entry has one value at most.
const TYPE_ROWS: [(&str, Rule, bool); 24] = [
    ("objectClass", Rule::Class, false),
    ("cn", Rule::Folded, false),
    ("sn", Rule::Folded, false),
    ("givenName", Rule::Folded, false),
    ("displayName", Rule::Folded, true),
    ("uid", Rule::Folded, false),
    ("mail", Rule::FoldedAscii, false),
    ("title", Rule::Folded, false),
    ("description", Rule::Folded, false),
    ("ou", Rule::Folded, false),
    ("o", Rule::Folded, false),
    ("l", Rule::Folded, false),
    ("dc", Rule::FoldedAscii, true),
    ("telephoneNumber", Rule::FoldedAscii, false),
    ("departmentNumber", Rule::Folded, false),
    ("employeeNumber", Rule::Folded, true),
    ("uidNumber", Rule::Whole, true),
    ("gidNumber", Rule::Whole, true),
    ("memberUid", Rule::ExactAscii, false),
    ("homeDirectory", Rule::ExactAscii, true),
    ("syncActive", Rule::Flag, true),
    ("syncExpiry", Rule::Time, true),
    ("entryUUID", Rule::Operational, true),
    ("entryCSN", Rule::Operational, true),
];

/// A name, how the values are compared, whether there is one at most, and whether clients may not
/// give it.
type Reported = (&'static [u8], Rule, bool, bool);

fn reported(kind: AttributeType) -> Reported {
    (kind.name(), kind.rule(), kind.single(), kind.operational())
}

/// What the table says of a name.
fn found(name: &str) -> Option<Reported> {
    match AttributeType::find(name.as_bytes()) {
        Some(kind) => Some(reported(kind)),
        None => None,
    }
}

#[test]
fn types_of_the_table(rt: HostRuntime) {
    for (name, rule, single) in &TYPE_ROWS {
        let wanted = (name.as_bytes(), *rule, *single, *rule == Rule::Operational);
        assert_same(&rt, name, &found(name), &Some(wanted));
    }
}

/// Names in any case.
const FOUND: [&str; 3] = ["OBJECTCLASS", "telephonenumber", "EntryCsn"];

/// Names of no type.
const UNKNOWN: [&str; 7] = ["", "c", "cn ", "cnn", "foo", "2.5.4.3", "cn;lang-de"];

fn assert_known(rt: &impl Abort, names: &[&str], wanted: bool) {
    for name in names {
        assert_same(rt, name, &found(name).is_some(), &wanted);
    }
}

#[test]
fn names_of_types(rt: HostRuntime) {
    assert_known(&rt, &FOUND, true);
    assert_known(&rt, &UNKNOWN, false);
}

/// Types and values, and the keys of these or what rejects them.
const KEYS: [(&str, &[u8], &[u8]); 17] = [
    ("objectClass", b"INETORGPERSON", b"inetorgperson"),
    ("objectClass", b"foo", b"NotOfSyntax"),
    ("objectClass", b"foo\xff", b"NotUtf8"),
    ("cn", b"Ann  Lee", b"ann lee"),
    ("cn", b" ", b"NotOfSyntax"),
    ("sn", b"stra\xc3\x9fe", b"strasse"),
    ("mail", b"A@X", b"a@x"),
    ("mail", b"\xc3\xa9@x", b"NotOfSyntax"),
    ("mail", b"\xe9@x", b"NotUtf8"),
    ("memberUid", b"X", b"X"),
    ("memberUid", b"\xc3\xa9", b"NotOfSyntax"),
    ("uidNumber", b"7", b"7"),
    ("uidNumber", b"07", b"NotOfSyntax"),
    ("syncActive", b"TRUE", b"TRUE"),
    ("syncActive", b"true", b"NotOfSyntax"),
    ("syncExpiry", b"20291231235959Z", b"20291231235959Z"),
    ("syncExpiry", b"20290230000000Z", b"NotOfSyntax"),
];

/// The key, or the fault by its name.
fn shown(answer: &Result<Vec<u8>, KeyFault>) -> &[u8] {
    match answer {
        Ok(key) => key.as_slice(),
        Err(KeyFault::NotUtf8) => b"NotUtf8",
        Err(KeyFault::NotOfSyntax) => b"NotOfSyntax",
        Err(KeyFault::NoMemory) => b"NoMemory",
    }
}

fn assert_key(rt: &impl Abort, alloc: Global, kind: AttributeType, value: &[u8], wanted: &[u8]) {
    assert!(rt; !kind.operational());
    let answer = key_of(alloc, kind, value);
    assert_same(rt, "key", &shown(&answer), &wanted);
}

#[test]
fn keys_by_the_rules(rt: HostRuntime) {
    for (name, value, key) in &KEYS {
        let kind = AttributeType::find(name.as_bytes()).expect(&rt, name);
        assert_key(&rt, rt.alloc(), kind, value, key);
    }
}

/// Types with two values, and the keys of those that have one.
const KEYED: [(&str, [&[u8]; 2], &[&[u8]]); 4] = [
    ("cn", [b"Ann  Lee", b"B"], &[b"ann lee", b"b"]),
    ("uidNumber", [b"07", b"7"], &[b"7"]),
    ("mail", [b"\xe9@x", b"A@X"], &[b"a@x"]),
    ("entryCSN", [b"1", b"2"], &[]),
];

fn octets_of(alloc: Global, values: &[&[u8]]) -> Result<OctetsList, NoMemory> {
    let mut list = OctetsList::new(alloc);
    for value in values {
        list.push(Octets::from_slice(alloc, value)?)?;
    }
    Ok(list)
}

/// The key of the value is the last of those, or there is none.
fn check_key(rt: &impl Abort, alloc: Global, name: &str, value: &[u8], wanted: &[&[u8]]) {
    let kind = AttributeType::find(name.as_bytes()).expect(rt, name);
    let key = known_key(alloc, kind, value).expect(rt, name);
    assert_same(rt, name, &bytes_of(&key), &wanted.last().copied());
}

fn bytes_of(key: &Option<Octets>) -> Option<&[u8]> {
    match key {
        Some(key) => Some(key.as_slice()),
        None => None,
    }
}

/// The keys of the values are those, and both values have one where there are two.
fn check_keys(rt: &impl Abort, alloc: Global, name: &str, values: &[Octets], wanted: &[&[u8]]) {
    let kind = AttributeType::find(name.as_bytes()).expect(rt, name);
    let all = are_of_syntax(alloc, kind, values).expect(rt, name);
    assert_same(rt, name, &all, &(wanted.len() == 2));
    let keys = keys_of(alloc, kind, values).expect(rt, name);
    let wanted = octets_of(alloc, wanted).expect(rt, name);
    assert!(rt; keys.as_slice() == wanted.list());
}

#[test]
fn keys_of_values(rt: HostRuntime) {
    for (name, values, wanted) in &KEYED {
        check_key(&rt, rt.alloc(), name, values[1], wanted);
        let values = octets_of(rt.alloc(), values).expect(&rt, name);
        check_keys(&rt, rt.alloc(), name, values.list(), wanted);
    }
}

/// Types, values and keys, and whether the value has the key.
const HAVING: [(&str, &[u8], &[u8], bool); 12] = [
    ("objectClass", b"inetOrgPerson", b"inetorgperson", true),
    ("objectClass", b"Person", b"Person", false),
    ("objectClass", b"person", b"top", false),
    ("objectClass", b"thing", b"thing", false),
    ("cn", b"Ann  Lee", b"ann lee", true),
    ("cn", b"Ann  Lee", b"Ann  Lee", false),
    ("cn", b"bab", b"bab", true),
    ("cn", b"bab", b"ba", false),
    ("memberUid", b"x", b"x", true),
    ("memberUid", b"X", b"x", false),
    ("uidNumber", b"07", b"7", false),
    ("entryCSN", b"1", b"1", false),
];

#[test]
fn values_with_keys(rt: HostRuntime) {
    for (name, value, key, wanted) in &HAVING {
        let kind = AttributeType::find(name.as_bytes()).expect(&rt, name);
        let has = has_key(rt.alloc(), kind, key, value).expect(&rt, name);
        assert_same(&rt, name, &has, wanted);
    }
}

/// Types, and values that are put after those of the type.
const ADDED: [(&str, &[&[u8]]); 3] = [
    ("cn", &[b"a"]),
    ("sn", &[b"b", b"A"]),
    ("cn", &[b"c", b"a"]),
];

fn added(rt: &impl Abort, alloc: Global, rows: &[(&str, &[&[u8]])]) -> Vec<Attribute> {
    let mut attributes = Vec::new(alloc);
    for (name, values) in rows {
        let kind = AttributeType::find(name.as_bytes()).expect(rt, name);
        let values = octets_of(alloc, values).expect(rt, name);
        add_values(&mut attributes, kind, values).expect(rt, name);
    }
    attributes
}

#[test]
fn values_added(rt: HostRuntime) {
    let attributes = added(&rt, rt.alloc(), &ADDED);
    let line = line_of_copies(rt.alloc(), &attributes).expect(&rt, "memory");
    let wanted = b"cn=a|cn=c|cn=a|sn=b|sn=A".as_slice();
    assert_same(&rt, "added", &line.as_slice(), &wanted);
}

fn line_of_copies(alloc: Global, attributes: &[Attribute]) -> Result<Vec<u8>, NoMemory> {
    let mut line = Vec::new(alloc);
    for attribute in attributes {
        push_attribute(&mut line, &attribute.copy()?)?;
    }
    Ok(line)
}

/// The attribute of `type=value`, or of `type` alone.
fn raw_attribute(alloc: Global, piece: &str) -> Result<RawAttribute, NoMemory> {
    let (name, values) = match piece.split_once('=') {
        Some((name, value)) => (name, one_value(alloc, value)?),
        None => (piece, OctetsList::new(alloc)),
    };
    Ok(RawAttribute {
        name: Octets::from_slice(alloc, name.as_bytes())?,
        values,
    })
}

fn one_value(alloc: Global, value: &str) -> Result<OctetsList, NoMemory> {
    let mut values = OctetsList::new(alloc);
    values.push(Octets::from_slice(alloc, value.as_bytes())?)?;
    Ok(values)
}

/// The attributes of a line: each piece is one attribute with one value, or with none.
fn raw_list(alloc: Global, line: &str) -> Result<RawList, NoMemory> {
    let mut raw = RawList::new(alloc);
    for piece in line.split('|') {
        raw.push(raw_attribute(alloc, piece)?)?;
    }
    Ok(raw)
}

fn read(alloc: Global, line: &str) -> Result<Attrs, SchemaFault> {
    let raw = raw_list(alloc, line)?;
    Attrs::read(alloc, &raw)
}

/// Puts a value with its type at the end.
fn push_value(line: &mut Vec<u8>, name: &[u8], value: &[u8]) -> Result<(), NoMemory> {
    if !line.is_empty() {
        line.push(b'|')?;
    }
    line.extend_from_slice(name)?;
    line.push(b'=')?;
    line.extend_from_slice(value)
}

/// Puts each value with the type at the end.
fn push_attribute(line: &mut Vec<u8>, attribute: &Attribute) -> Result<(), NoMemory> {
    for value in attribute.values.list() {
        push_value(line, attribute.kind.name(), value.as_slice())?;
    }
    Ok(())
}

/// The attributes as a line, each value with its type.
fn line_of(alloc: Global, attrs: &Attrs) -> Result<Vec<u8>, NoMemory> {
    let mut line = Vec::new(alloc);
    for attribute in attrs.list() {
        push_attribute(&mut line, attribute)?;
    }
    Ok(line)
}

/// The line as it is read.
fn line_read(alloc: Global, line: &str) -> Result<Vec<u8>, SchemaFault> {
    let attrs = read(alloc, line)?;
    Ok(line_of(alloc, &attrs)?)
}

/// The line as a copy of what is read has it.
fn line_copied(alloc: Global, line: &str) -> Result<Vec<u8>, SchemaFault> {
    let attrs = read(alloc, line)?.copy()?;
    Ok(line_of(alloc, &attrs)?)
}

fn text_of(line: &Result<Vec<u8>, SchemaFault>) -> Result<&str, SchemaFault> {
    match line {
        Ok(line) => Ok(str::from_utf8(line.as_slice()).unwrap_or("?")),
        Err(fault) => Err(*fault),
    }
}

/// Attributes, and how they are read or the code against them.
const LINES: [(&str, Result<&str, SchemaFault>); 18] = [
    ("cn=a", Ok("cn=a")),
    (
        "CN=a|sn=b|cn=c|DESCRIPTION=d",
        Ok("cn=a|cn=c|sn=b|description=d"),
    ),
    ("memberUid=x|memberUid=X", Ok("memberUid=x|memberUid=X")),
    ("foo=1", Err(SchemaFault::Code(17))),
    ("entryUUID=1", Err(SchemaFault::Code(19))),
    ("entryCSN", Err(SchemaFault::Code(19))),
    ("cn", Err(SchemaFault::Code(21))),
    ("cn=", Err(SchemaFault::Code(21))),
    ("uidNumber=7|uidNumber=07", Err(SchemaFault::Code(21))),
    ("objectClass=foo", Err(SchemaFault::Code(21))),
    ("cn=a|sn=b|cn=A", Err(SchemaFault::Code(20))),
    ("o=straße|o=STRASSE", Err(SchemaFault::Code(20))),
    (
        "objectClass=top|objectClass=TOP",
        Err(SchemaFault::Code(20)),
    ),
    ("cn=a|cn=A|foo=1", Err(SchemaFault::Code(17))),
    ("cn=a|cn=A|sn", Err(SchemaFault::Code(21))),
    ("cn=|foo=1", Err(SchemaFault::Code(21))),
    ("foo=1|cn=", Err(SchemaFault::Code(17))),
    ("entryCSN=1|foo=1", Err(SchemaFault::Code(19))),
];

fn assert_line(
    rt: &impl Abort,
    row: &str,
    line: &Result<Vec<u8>, SchemaFault>,
    wanted: &Result<&str, SchemaFault>,
) {
    assert_same(rt, row, &text_of(line), wanted);
}

#[test]
fn attributes_read(rt: HostRuntime) {
    for (line, wanted) in &LINES {
        assert_line(&rt, line, &line_read(rt.alloc(), line), wanted);
        assert_line(&rt, line, &line_copied(rt.alloc(), line), wanted);
    }
}

#[test]
fn weights(rt: HostRuntime) {
    assert_same(&rt, "nothing", &Attrs::new(rt.alloc()).weight(), &0);
    let line = "cn=Ann|CN=Ann Lee|telephoneNumber=1-2";
    let attrs = read(rt.alloc(), line).expect(&rt, line);
    let wanted = (2 + 3) + (2 + 7) + (15 + 3);
    assert_same(&rt, "three values", &attrs.weight(), &wanted);
}

/// Entries, and what the schema says of each.
const ENTRIES: [(&str, Result<(), SchemaFault>); 20] = [
    (
        "objectClass=organization|objectClass=dcObject|o=X|dc=x",
        Ok(()),
    ),
    ("objectClass=ORGANIZATIONALUNIT|ou=a|description=d", Ok(())),
    (
        "objectClass=inetOrgPerson|cn=a|sn=b|mail=a@x|title=t|o=X",
        Ok(()),
    ),
    (
        "objectClass=top|objectClass=person|objectClass=inetOrgPerson|cn=a|sn=b",
        Ok(()),
    ),
    (
        "objectClass=person|objectClass=posixAccount|cn=a|sn=b|uid=a|uidNumber=1|gidNumber=2\
         |homeDirectory=/a",
        Ok(()),
    ),
    (
        "objectClass=posixGroup|cn=a|gidNumber=2|memberUid=x|memberUid=y",
        Ok(()),
    ),
    (
        "objectClass=person|objectClass=syncSubject|cn=a|sn=b|syncActive=TRUE",
        Ok(()),
    ),
    // No objectClass, and no structural class.
    ("o=X", Err(SchemaFault::Code(65))),
    ("objectClass=top", Err(SchemaFault::Code(65))),
    ("objectClass=dcObject|dc=x", Err(SchemaFault::Code(65))),
    // Two lines of superiors.
    (
        "objectClass=person|objectClass=posixGroup|cn=a|sn=b|gidNumber=2",
        Err(SchemaFault::Code(65)),
    ),
    (
        "objectClass=organization|objectClass=organizationalUnit|o=X|ou=a",
        Err(SchemaFault::Code(65)),
    ),
    // A type that a class or its superior asks for is missing.
    ("objectClass=person|cn=a", Err(SchemaFault::Code(65))),
    ("objectClass=inetOrgPerson|cn=a", Err(SchemaFault::Code(65))),
    (
        "objectClass=organization|objectClass=dcObject|o=X",
        Err(SchemaFault::Code(65)),
    ),
    // A type that no class allows.
    (
        "objectClass=organization|o=X|uid=a",
        Err(SchemaFault::Code(65)),
    ),
    (
        "objectClass=person|cn=a|sn=b|mail=a@x",
        Err(SchemaFault::Code(65)),
    ),
    (
        "objectClass=person|cn=a|sn=b|syncActive=TRUE",
        Err(SchemaFault::Code(65)),
    ),
    // Two values of a type that has one, before all else.
    (
        "objectClass=organization|objectClass=dcObject|o=X|dc=x|dc=y",
        Err(SchemaFault::Code(19)),
    ),
    (
        "employeeNumber=1|employeeNumber=2",
        Err(SchemaFault::Code(19)),
    ),
];

#[test]
fn entries_checked(rt: HostRuntime) {
    for (line, wanted) in &ENTRIES {
        let attrs = read(rt.alloc(), line).expect(&rt, line);
        assert_same(&rt, line, &check_entry(rt.alloc(), &attrs), wanted);
    }
}

/// How a class may stand in an entry.
#[derive(Clone, Copy, PartialEq)]
enum ClassKind {
    Abstract,
    Structural,
    Auxiliary,
}

/// A class, its kind, its superior, the types that it asks for, and those that it allows besides.
type ClassRow = (
    &'static str,
    ClassKind,
    &'static str,
    &'static str,
    &'static str,
);

/// The classes, each after its superior.
const CLASSES: [ClassRow; 10] = [
    ("top", ClassKind::Abstract, "", "objectClass", ""),
    (
        "organization",
        ClassKind::Structural,
        "top",
        "o",
        "description l telephoneNumber",
    ),
    (
        "organizationalUnit",
        ClassKind::Structural,
        "top",
        "ou",
        "description l telephoneNumber",
    ),
    (
        "person",
        ClassKind::Structural,
        "top",
        "sn cn",
        "telephoneNumber description",
    ),
    (
        "organizationalPerson",
        ClassKind::Structural,
        "person",
        "",
        "title ou l",
    ),
    (
        "inetOrgPerson",
        ClassKind::Structural,
        "organizationalPerson",
        "",
        "givenName displayName uid mail departmentNumber employeeNumber o",
    ),
    (
        "posixGroup",
        ClassKind::Structural,
        "top",
        "cn gidNumber",
        "memberUid description",
    ),
    ("dcObject", ClassKind::Auxiliary, "top", "dc", ""),
    (
        "posixAccount",
        ClassKind::Auxiliary,
        "top",
        "cn uid uidNumber gidNumber homeDirectory",
        "description",
    ),
    (
        "syncSubject",
        ClassKind::Auxiliary,
        "top",
        "",
        "syncActive syncExpiry",
    ),
];

/// The types that clients give, but for objectClass.
const TYPES: &str = "cn sn givenName displayName uid mail title description ou o l dc \
                     telephoneNumber departmentNumber employeeNumber uidNumber gidNumber \
                     memberUid homeDirectory syncActive syncExpiry";

/// Classes that an entry gives, as a line, and the types that these and their superiors ask for
/// and allow.
#[derive(Drop)]
struct Given {
    classes: String,
    must: Vec<&'static str>,
    may: Vec<&'static str>,
}

impl Given {
    fn none(alloc: Global) -> Given {
        Given {
            classes: String::new(alloc),
            must: Vec::new(alloc),
            may: Vec::new(alloc),
        }
    }

    /// The class, beside a structural one where it is none itself.
    fn of(alloc: Global, class: &'static str, kind: ClassKind) -> Result<Given, AllocError> {
        let mut given = Given::none(alloc);
        if kind != ClassKind::Structural {
            given.add("organization")?;
        }
        given.add(class)?;
        Ok(given)
    }

    fn add(&mut self, class: &'static str) -> Result<(), AllocError> {
        push_piece(&mut self.classes, "objectClass", class)?;
        let mut next = class;
        for (name, _, superior, must, may) in CLASSES.iter().rev() {
            if *name == next {
                push_words(&mut self.must, must)?;
                push_words(&mut self.may, may)?;
                next = superior;
            }
        }
        Ok(())
    }

    /// The line of an entry of these classes that has each type that they ask for, but this one.
    fn entry_without(&self, alloc: Global, left_out: &str) -> Result<String, AllocError> {
        let mut line = String::from_str(alloc, self.classes.as_str())?;
        for name in &self.must {
            if *name != "objectClass" && *name != left_out {
                push_piece(&mut line, name, value_of(name))?;
            }
        }
        Ok(line)
    }
}

/// Puts the words that are not there yet at the end.
fn push_words(words: &mut Vec<&'static str>, text: &'static str) -> Result<(), AllocError> {
    for word in text.split(' ') {
        if !word.is_empty() && !words.contains(&word) {
            words.push(word)?;
        }
    }
    Ok(())
}

fn push_piece(line: &mut String, name: &str, value: &str) -> Result<(), AllocError> {
    if !line.is_empty() {
        line.push('|')?;
    }
    line.push_str(name)?;
    line.push('=')?;
    line.push_str(value)
}

/// A value of the syntax of this type.
fn value_of(name: &str) -> &'static str {
    if name == "syncActive" {
        "TRUE"
    } else if name == "syncExpiry" {
        "20291231235959Z"
    } else {
        "1"
    }
}

/// What the schema says of an entry's line.
fn verdict(alloc: Global, line: &str) -> Result<(), SchemaFault> {
    let attrs = read(alloc, line)?;
    check_entry(alloc, &attrs)
}

const REFUSED: Result<(), SchemaFault> = Err(SchemaFault::Code(65));

/// What the schema is to say.
fn wanted(allowed: bool) -> Result<(), SchemaFault> {
    if allowed { Ok(()) } else { REFUSED }
}

/// What the schema says of an entry of these classes without this type.
fn verdict_without(alloc: Global, given: &Given, name: &str) -> Result<(), SchemaFault> {
    let line = given.entry_without(alloc, name)?;
    verdict(alloc, line.as_str())
}

/// Each type that the classes ask for is missed.
fn check_asked(rt: &impl Abort, alloc: Global, given: &Given) {
    assert_same(
        rt,
        given.classes.as_str(),
        &verdict_without(alloc, given, ""),
        &Ok(()),
    );
    for name in &given.must {
        if *name != "objectClass" {
            assert_same(rt, name, &verdict_without(alloc, given, name), &REFUSED);
        }
    }
}

#[test]
fn types_that_classes_ask_for(rt: HostRuntime) {
    for (class, kind, _, _, _) in &CLASSES {
        let given = Given::of(rt.alloc(), class, *kind).expect(&rt, class);
        check_asked(&rt, rt.alloc(), &given);
        discard(given);
    }
}

/// What the schema says of an entry of these classes with this type beside what they ask for.
fn verdict_with(alloc: Global, given: &Given, name: &str) -> Result<(), SchemaFault> {
    let mut line = given.entry_without(alloc, name)?;
    push_piece(&mut line, name, value_of(name))?;
    verdict(alloc, line.as_str())
}

/// Those types may stand in an entry that the classes ask for or allow, and no others.
fn check_allowed(rt: &impl Abort, alloc: Global, given: &Given) {
    for name in TYPES.split(' ') {
        let allowed = given.must.contains(&name) || given.may.contains(&name);
        assert_same(
            rt,
            name,
            &verdict_with(alloc, given, name),
            &wanted(allowed),
        );
    }
}

#[test]
fn types_that_classes_allow(rt: HostRuntime) {
    for (class, kind, _, _, _) in &CLASSES {
        let given = Given::of(rt.alloc(), class, *kind).expect(&rt, class);
        check_allowed(&rt, rt.alloc(), &given);
        discard(given);
    }
}

/// What the schema says of an entry of this class alone.
fn verdict_alone(alloc: Global, class: &'static str) -> Result<(), SchemaFault> {
    let mut given = Given::none(alloc);
    given.add(class)?;
    verdict_without(alloc, &given, "")
}

#[test]
fn classes_that_make_an_entry(rt: HostRuntime) {
    for (class, kind, _, _, _) in &CLASSES {
        let wanted = wanted(*kind == ClassKind::Structural);
        assert_same(&rt, class, &verdict_alone(rt.alloc(), class), &wanted);
    }
}

/// Whether the other class is this one or a superior of it.
fn is_at_or_below(class: &'static str, other: &'static str) -> bool {
    let mut next = class;
    let mut found = false;
    for (name, _, superior, _, _) in CLASSES.iter().rev() {
        if *name == next {
            found = found || next == other;
            next = superior;
        }
    }
    found
}

/// What the schema says of an entry of both classes.
fn verdict_together(
    alloc: Global,
    class: &'static str,
    other: &'static str,
) -> Result<(), SchemaFault> {
    let mut given = Given::none(alloc);
    given.add(class)?;
    given.add(other)?;
    verdict_without(alloc, &given, "")
}

/// The structural class makes an entry beside each other one exactly where one of both is a
/// superior of the other.
fn check_line(rt: &impl Abort, alloc: Global, class: &'static str) {
    for (other, kind, _, _, _) in &CLASSES {
        if *kind == ClassKind::Structural && class != *other {
            let on_one_line = is_at_or_below(class, other) || is_at_or_below(other, class);
            assert_same(
                rt,
                other,
                &verdict_together(alloc, class, other),
                &wanted(on_one_line),
            );
        }
    }
}

#[test]
fn structural_classes_together(rt: HostRuntime) {
    for (class, kind, _, _, _) in &CLASSES {
        if *kind == ClassKind::Structural {
            check_line(&rt, rt.alloc(), class);
        }
    }
}
