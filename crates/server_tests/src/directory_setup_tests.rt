//! What files lead to: a directory that is to be served, or why there is none. The codes are those
//! of RFC 4511, appendix A.2, and the records are by RFC 2849.

use crate::assertions::{assert_same, joined, shown};
use crate::ldap_server_tests::provider;
use directory_setup::{
    FileText, Filling, LineCause, ReadyDirectory, Setup, SetupRefusal, fill, read_file, set_up,
};
use dn_names::Dn;
use ldap_ber::{NoMemory, Octets, discard};
use ldap_constants::{COMPARE_TRUE, NO_SUCH_OBJECT};
use ldap_session::Access;
use std::alloc::Global;
use std::process::Abort;
use std::str;
use std::sync::Wait;
use std::test::Fail;
use sync_config::ConfigFault;
use sync_io::{FixedClock, FixedWords, MemoryShelf, NamedFile, Shelf};
use sync_provider::Provider;

/// Files, how many random words there are, and what the first file leads to as a configuration.
type Row = (&'static [(&'static str, &'static str)], usize, &'static str);

/// The entry at the top and one below it.
const ENTRIES: &str = "dn: dc=x
objectClass: organization
objectClass: dcObject
o: X
dc: x

dn: ou=a,dc=x
changetype: add
objectClass: organizationalUnit
ou: a
";

/// A configuration whose entries stand in a file.
const WITH_FILE: &str = "listen = 'here:389'\nsuffix = 'dc=x'\nldif = 'entries'\n";

const SETUPS: [Row; 19] = [
    (
        &[("serve", "listen = 'here:389'\nsuffix = 'dc=x'\n")],
        2,
        r#"("here:389", "free", 16, 0, 0, None)"#,
    ),
    (
        &[
            (
                "serve",
                "listen = 'here:390'\nsuffix = 'dc=x'\nsid = 1\nldif = 'entries'\nlog_limit = 5\n\
                 queue_limit = 6\nbind_name = 'cn=m'\nbind_password = 'p'\nseats = 2\n\
                 connections = 3\n",
            ),
            ("entries", ENTRIES),
        ],
        2,
        r#"("here:390", "cn=m p", 2, 3, 2, None)"#,
    ),
    (
        &[("serve", WITH_FILE), ("entries", "# no record\n")],
        2,
        r#"("here:389", "free", 16, 0, 0, None)"#,
    ),
    (
        &[(
            "serve",
            "listen = 'here:389'\n[upstream]\naddress = 'there:389'\nbase = 'dc=x'\n\
             scope = 'sub'\nfilter = '(ou=*)'\nrounds = 3\n",
        )],
        2,
        r#"("here:389", "free", 16, 0, 0, Some(("there:389", 3)))"#,
    ),
    (
        &[("serve", "listen = 'here:389'\n")],
        2,
        "config MissingKey suffix",
    ),
    (&[], 2, "read fault"),
    (&[("serve", WITH_FILE)], 2, "read fault"),
    (
        &[("serve", WITH_FILE), ("entries", ENTRIES)],
        1,
        "read fault",
    ),
    (&[("serve", "listen = ")], 2, "config NotToml"),
    (
        &[("serve", "suffix = 'dc=x'")],
        2,
        "config MissingKey listen",
    ),
    (
        &[("serve", "listen = 'a'\nsuffix = 'dc=x'\nseats = 65")],
        2,
        "config BadValue seats",
    ),
    (
        &[("serve", WITH_FILE), ("entries", "dn: dc=x\nobjectClass")],
        2,
        "(2, BadLine)",
    ),
    (
        &[("serve", WITH_FILE), ("entries", "dn: dc=x\no:: =\n")],
        2,
        "(2, BadBase64)",
    ),
    (
        &[("serve", WITH_FILE), ("entries", "dn: dc=x\n\nou: a\n")],
        2,
        "(1, BadChange)",
    ),
    // Whole records that are no adds, and adds that are rejected.
    (
        &[
            ("serve", WITH_FILE),
            ("entries", "dn: dc=x\nchangetype: delete\n"),
        ],
        2,
        "(2, BadChange)",
    ),
    (
        &[
            ("serve", WITH_FILE),
            (
                "entries",
                "\ndn: ou=a,dc=x\nobjectClass: organizationalUnit\nou: a\n\n# more\n",
            ),
        ],
        2,
        "(4, Refused(32))",
    ),
    (
        &[
            ("serve", WITH_FILE),
            (
                "entries",
                "dn: dc=x\nobjectClass: organization\no: X\nunknown: x\n",
            ),
        ],
        2,
        "(4, Refused(17))",
    ),
    (
        &[
            ("serve", WITH_FILE),
            (
                "entries",
                "dn: dc=x\nobjectClass: organization\nobjectClass: dcObject\no: X\ndc: x\n\n\
                 dn: DC = X\nobjectClass: organization\nobjectClass: dcObject\no: X\ndc: x\n",
            ),
        ],
        2,
        "(11, Refused(68))",
    ),
    (
        &[
            ("serve", WITH_FILE),
            ("entries", "dn: dc=x\nobjectClass: organization\n"),
        ],
        2,
        "(2, Refused(65))",
    ),
];

/// A shelf with these files.
fn shelf_of(rt: &impl Abort, alloc: Global, files: &[(&str, &str)]) -> MemoryShelf {
    let mut held = Vec::new(alloc);
    for (name, text) in files {
        let bytes = Octets::from_slice(alloc, text.as_bytes());
        let file = named(rt, alloc, name, bytes.expect(rt, "bytes"));
        held.push(file).expect(rt, "a file");
    }
    MemoryShelf::new(held)
}

fn named(rt: &impl Abort, alloc: Global, name: &str, bytes: Octets) -> NamedFile {
    let name = String::from_str(alloc, name).expect(rt, "a name");
    NamedFile { name, bytes }
}

/// Who may write: all, or a name with its password.
fn access_text(alloc: Global, access: &Access) -> Result<String, NoMemory> {
    match access {
        Access::Free => String::from_str(alloc, "free"),
        Access::Named(name, password) => {
            let name = name.write()?;
            let mut text = joined(alloc, utf8(name.as_slice()), " ")?;
            text.push_str(utf8(password.as_slice()))?;
            Ok(text)
        }
    }
}

fn utf8(bytes: &[u8]) -> &str {
    str::from_utf8(bytes).unwrap_or("no text")
}

/// The address of the directory that a directory follows, where there is one, and how many
/// connections to it are tried.
fn followed(ready: &ReadyDirectory) -> Option<(&str, u64)> {
    match &ready.upstream {
        Some(upstream) => Some((upstream.address.as_str(), ready.rounds)),
        None => None,
    }
}

/// The address, who may write, how many seats, connections and writes there are, and what it
/// follows.
fn ready_text(alloc: Global, ready: &ReadyDirectory) -> Result<String, NoMemory> {
    let access = access_text(alloc, &ready.access)?;
    let (listen, access) = (ready.listen.as_str(), access.as_str());
    let (seats, connections) = (ready.seats, ready.connections);
    let writes = ready.provider.writes();
    let followed = followed(ready);
    shown(
        alloc,
        &(listen, access, seats, connections, writes, followed),
    )
}

fn config_text(alloc: Global, fault: &ConfigFault) -> Result<String, NoMemory> {
    match fault {
        ConfigFault::NotToml => String::from_str(alloc, "config NotToml"),
        ConfigFault::MissingKey(key) => joined(alloc, "config MissingKey ", key.as_str()),
        ConfigFault::BadValue(key) => joined(alloc, "config BadValue ", key.as_str()),
        ConfigFault::NoMemory => String::from_str(alloc, "config NoMemory"),
    }
}

/// What files led to, in words; of a refusal at a line its number and the cause.
fn setup_text(alloc: Global, setup: &Setup) -> Result<String, NoMemory> {
    match setup {
        Setup::Ready(ready) => ready_text(alloc, ready),
        Setup::Refused(SetupRefusal::InConfig(fault)) => config_text(alloc, fault),
        Setup::Refused(SetupRefusal::AtLine(line, cause)) => shown(alloc, &(*line, *cause)),
        Setup::ReadFault => String::from_str(alloc, "read fault"),
    }
}

/// As many words.
fn words_of(alloc: Global, count: usize) -> Result<Vec<u64>, NoMemory> {
    let mut words = Vec::new(alloc);
    for word in 0..count {
        words.push(word as u64)?;
    }
    Ok(words)
}

// Nothing is left early while a setup or a shelf stands, whose drop would be written out there:
// what is missing ends the test.

/// What the file `serve` leads to as a configuration, in words.
fn set_up_of<R: Wait + Abort>(
    rt: &R,
    alloc: Global,
    shelf: &mut MemoryShelf,
    words: usize,
) -> String {
    let words = words_of(alloc, words).expect(rt, "words");
    let mut random = FixedWords::new(words);
    let mut clock = FixedClock { micros: 0 };
    let setup = set_up(rt, alloc, "serve", shelf, &mut clock, &mut random);
    let setup = setup.expect(rt, "a setup");
    let text = setup_text(alloc, &setup);
    discard(setup);
    text.expect(rt, "a text")
}

fn check_setup<R: Wait + Abort>(rt: &R, alloc: Global, row: &Row) {
    let (files, words, wanted) = *row;
    let mut shelf = shelf_of(rt, alloc, files);
    let found = set_up_of(rt, alloc, &mut shelf, words);
    discard(shelf);
    assert_same(rt, "a setup", &found.as_str(), &wanted);
}

#[test]
fn files_lead_to_a_directory_or_a_refusal(rt: HostRuntime) {
    for row in &SETUPS {
        check_setup(&rt, rt.alloc(), row);
    }
}

/// What a comparison of `ou` with `A` gives at `ou=a,dc=x`.
fn code_of_unit(alloc: Global, provider: &Provider) -> Result<u32, Fail> {
    let name = Dn::parse(alloc, b"ou=a,dc=x")?;
    Ok(provider.compare(&name, b"ou", b"A"))
}

/// How a directory is filled with the same entries twice, and the comparison before and after.
fn filled_twice(
    alloc: Global,
    provider: &mut Provider,
) -> Result<(u32, Filling, Filling, u32), Fail> {
    let mut clock = FixedClock { micros: 0 };
    let before = code_of_unit(alloc, provider)?;
    let first = fill(alloc, provider, ENTRIES.as_bytes(), &mut clock)?;
    let second = fill(alloc, provider, ENTRIES.as_bytes(), &mut clock)?;
    let after = code_of_unit(alloc, provider)?;
    Ok((before, first, second, after))
}

/// The entries of a text are added up to a record that is refused, and stay.
#[test]
fn a_directory_is_filled_up_to_a_refused_record(rt: HostRuntime) -> Result<(), Fail> {
    let mut provider = provider(&rt, rt.alloc());
    let filled = filled_twice(rt.alloc(), &mut provider);
    let writes = provider.writes();
    discard(provider);
    let (before, first, second, after) = filled?;
    assert!(rt; before == NO_SUCH_OBJECT && first == Filling::Filled);
    let refused = Filling::Refused(5, LineCause::Refused(68));
    assert_same(&rt, "the second time", &second, &refused);
    assert!(rt; after == COMPARE_TRUE && writes == 2);
    Ok(())
}

/// Whether the file of this name is read as this text.
fn is_read_as<R: Wait + Abort>(
    rt: &R,
    alloc: Global,
    shelf: &mut MemoryShelf,
    name: &str,
    wanted: &[u8],
) -> bool {
    match read_file(rt, alloc, shelf, name).expect(rt, "a text") {
        FileText::Text(text) => text.as_slice() == wanted,
        FileText::Failed => false,
    }
}

/// A file is read whole, also where that takes more than one read.
#[test]
fn a_file_is_read_whole(rt: HostRuntime) {
    let alloc = rt.alloc();
    let long = [b'x'; 9_000];
    let files = [("short", "a\nb"), ("long", utf8(&long)), ("empty", "")];
    let mut shelf = shelf_of(&rt, alloc, &files);
    assert!(rt; is_read_as(&rt, alloc, &mut shelf, "short", b"a\nb"));
    assert!(rt; is_read_as(&rt, alloc, &mut shelf, "long", &long));
    assert!(rt; is_read_as(&rt, alloc, &mut shelf, "empty", b""));
    assert!(rt; shelf.faults() == 0);
    assert!(rt; !is_read_as(&rt, alloc, &mut shelf, "none", b"") && shelf.faults() == 1);
    discard(shelf);
}

/// How many line feeds an LDIF file has, how many bytes after them, and what it leads to.
type LengthRow = (usize, usize, &'static str);

const LENGTHS: [LengthRow; 4] = [
    (1_000_000, 0, r#"("here:389", "free", 16, 0, 0, None)"#),
    (1_000_000, 1, "(1000001, LimitReached(1000000))"),
    (1, 67_108_863, r#"("here:389", "free", 16, 0, 0, None)"#),
    (1, 67_108_864, "(2, LimitReached(67108864))"),
];

/// A shelf with a configuration and this text as its LDIF file.
fn shelf_with(rt: &impl Abort, alloc: Global, text: Vec<u8>) -> MemoryShelf {
    let mut held = Vec::new(alloc);
    let config = Octets::from_slice(alloc, WITH_FILE.as_bytes());
    let serve = named(rt, alloc, "serve", config.expect(rt, "bytes"));
    held.push(serve).expect(rt, "a file");
    let entries = named(rt, alloc, "entries", Octets::from(text));
    held.push(entries).expect(rt, "a file");
    MemoryShelf::new(held)
}

/// As many line feeds, and as many bytes after them.
fn text_of(alloc: Global, lines: usize, more: usize) -> Result<Vec<u8>, NoMemory> {
    let mut text = Vec::new(alloc);
    text.resize(lines, b'\n')?;
    text.resize(lines.saturating_add(more), b'#')?;
    Ok(text)
}

fn check_length<R: Wait + Abort>(rt: &R, alloc: Global, row: &LengthRow) {
    let (lines, more, wanted) = *row;
    let text = text_of(alloc, lines, more).expect(rt, "a text");
    let mut shelf = shelf_with(rt, alloc, text);
    let found = set_up_of(rt, alloc, &mut shelf, 2);
    discard(shelf);
    assert_same(rt, "a long text", &found.as_str(), &wanted);
}

/// An LDIF file has 1,000,000 lines and 67,108,864 bytes at most.
#[test]
fn a_text_that_is_too_long_is_refused(rt: HostRuntime) {
    for row in &LENGTHS {
        check_length(&rt, rt.alloc(), row);
    }
}
