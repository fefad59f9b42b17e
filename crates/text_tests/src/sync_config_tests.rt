//! Configurations that are read, and those that are refused.
use crate::assertions::{Row, assert_same, joined, shown, utf8};
use dn_names::Dn;
use ldap_ber::{NoMemory, discard};
use std::alloc::{AllocError, Global};
use std::process::Abort;
use std::test::Fail;
use sync_config::{Config, ConfigFault, ConfigText, Upstream};

/// What answers a configuration: `read`, or the fault with its key.
fn answer(alloc: Global, text: &[u8]) -> Result<String, AllocError> {
    match Config::read(alloc, text) {
        Ok(config) => {
            discard(config);
            String::from_str(alloc, "read")
        }
        Err(ConfigFault::NotToml) => String::from_str(alloc, "NotToml"),
        Err(ConfigFault::MissingKey(key)) => joined(alloc, "MissingKey ", key.as_str()),
        Err(ConfigFault::BadValue(key)) => joined(alloc, "BadValue ", key.as_str()),
        Err(ConfigFault::NoMemory) => Err(AllocError),
    }
}

/// The lines that each configuration has at least.
const LEAST: &str = "listen = 'localhost:3890'\nsuffix = 'dc=x'\n";

/// Lines that follow the least ones, and the answer.
const MORE: [Row; 44] = [
    ("", "read"),
    ("connections = 2", "read"),
    ("colour = 'green'", "read"),
    ("[other]\nsid = 'one'", "read"),
    ("sid = 0", "read"),
    ("sid = 4095", "read"),
    ("sid = 0xfff", "read"),
    ("sid = 4096", "BadValue sid"),
    ("sid = -1", "BadValue sid"),
    ("sid = 'one'", "BadValue sid"),
    ("sid = 1.0", "BadValue sid"),
    ("ldif = 'first.ldif'", "read"),
    ("ldif = 1", "BadValue ldif"),
    ("log_limit = 0", "read"),
    ("log_limit = 1_000_000", "read"),
    ("log_limit = 1000001", "BadValue log_limit"),
    ("log_limit = -1", "BadValue log_limit"),
    ("queue_limit = 0", "read"),
    ("queue_limit = 1000000", "read"),
    ("queue_limit = 1000001", "BadValue queue_limit"),
    ("queue_limit = true", "BadValue queue_limit"),
    ("bind_name = 'cn=a,dc=x'\nbind_password = 'b'", "read"),
    ("bind_name = ''\nbind_password = ''", "read"),
    ("bind_name = 'cn=a,dc=x'", "MissingKey bind_password"),
    ("bind_password = 'b'", "MissingKey bind_name"),
    ("bind_name = 'cn'", "BadValue bind_name"),
    (
        "bind_name = 'cn'\nbind_password = 'b'",
        "BadValue bind_name",
    ),
    ("bind_name = 7\nbind_password = 'b'", "BadValue bind_name"),
    (
        "bind_name = 'cn=a'\nbind_password = 7",
        "BadValue bind_password",
    ),
    ("seats = 1", "read"),
    ("seats = 64", "read"),
    ("seats = 0", "BadValue seats"),
    ("seats = 65", "BadValue seats"),
    ("seats = [16]", "BadValue seats"),
    ("connections = 0", "read"),
    ("connections = 1000000", "read"),
    ("connections = 1000001", "BadValue connections"),
    ("connections = -1", "BadValue connections"),
    ("connections = 9223372036854775807", "BadValue connections"),
    ("connections = 9223372036854775808", "NotToml"),
    ("upstream = 1", "BadValue upstream"),
    ("upstream.address = 'a'", "MissingKey upstream.base"),
    ("[upstream]\naddress = 1", "BadValue upstream.address"),
    ("sid = 1\nsid = 1", "NotToml"),
];

/// Asserts that each row has its answer, after these lines.
fn assert_answers(
    rt: &impl Abort,
    alloc: Global,
    before: &str,
    rows: &[Row],
) -> Result<(), AllocError> {
    for (more, wanted) in rows {
        let text = joined(alloc, before, more)?;
        let found = answer(alloc, text.as_bytes())?;
        assert_same(rt, more, &found.as_str(), wanted);
    }
    Ok(())
}

#[test]
fn keys_are_judged(rt: HostRuntime) {
    assert_answers(&rt, rt.alloc(), LEAST, &MORE).expect(&rt, "memory");
}

/// Whole texts, and the answer.
const WHOLE: [Row; 13] = [
    ("", "MissingKey listen"),
    ("# nothing but a comment", "MissingKey listen"),
    ("listen = \"localhost:0\"", "MissingKey suffix"),
    ("suffix = 'dc=x'", "MissingKey listen"),
    ("listen = 1", "BadValue listen"),
    ("listen = ''\nsuffix = ''", "read"),
    ("listen = 'a'\nsuffix = 'dc'", "BadValue suffix"),
    ("listen = 'a'\nsuffix = 'foo=1'", "BadValue suffix"),
    ("listen = 'a'\nsuffix = ['dc=x']", "BadValue suffix"),
    ("listen = 'a'\n[upstream]", "MissingKey upstream.address"),
    ("listen = 'a'\nsuffix = 'dc'\n[upstream]", "BadValue suffix"),
    ("listen = 'a'\nldif = 'f'\n[upstream]", "BadValue ldif"),
    ("listen =", "NotToml"),
];

/// A configuration that follows another directory has these lines at least.
const UPSTREAM: &str =
    "listen = 'a'\n[upstream]\naddress = 'b'\nbase = 'dc=x'\nscope = 'sub'\nfilter = '(ou=*)'\n";

/// Lines that follow those, and the answer.
const FOLLOWING: [Row; 11] = [
    ("", "read"),
    ("reload_hint = true", "read"),
    ("reload_hint = false", "read"),
    ("reload_hint = 1", "BadValue upstream.reload_hint"),
    (
        "reload_hint = 1\nrounds = -1",
        "BadValue upstream.reload_hint",
    ),
    ("rounds = 0", "read"),
    ("rounds = 1000000", "read"),
    ("rounds = 1000001", "BadValue upstream.rounds"),
    ("rounds = -1", "BadValue upstream.rounds"),
    ("colour = 'green'", "read"),
    ("base = 'dc=y'", "NotToml"),
];

/// Tables of an upstream, and the answer.
const UPSTREAMS: [Row; 12] = [
    ("address = 'b'", "MissingKey upstream.base"),
    ("address = 'b'\nbase = ''", "MissingKey upstream.scope"),
    (
        "address = 'b'\nbase = ''\nscope = 'one'",
        "MissingKey upstream.filter",
    ),
    (
        "address = 'b'\nbase = ''\nscope = 'base'\nfilter = '(ou=a)'",
        "read",
    ),
    ("address = 1", "BadValue upstream.address"),
    ("address = 'b'\nbase = 'dc'", "BadValue upstream.base"),
    ("address = 'b'\nbase = 1", "BadValue upstream.base"),
    ("base = 'dc'", "MissingKey upstream.address"),
    (
        "address = 'b'\nbase = ''\nscope = 'subtree'",
        "BadValue upstream.scope",
    ),
    (
        "address = 'b'\nbase = ''\nscope = 1",
        "BadValue upstream.scope",
    ),
    (
        "address = 'b'\nbase = ''\nscope = 'sub'\nfilter = 'ou=a'",
        "BadValue upstream.filter",
    ),
    (
        "filter = '('\nscope = 'all'\nbase = ''\naddress = 'b'",
        "BadValue upstream.scope",
    ),
];

#[test]
fn upstreams_are_judged(rt: HostRuntime) {
    let alloc = rt.alloc();
    assert_answers(&rt, alloc, UPSTREAM, &FOLLOWING).expect(&rt, "memory");
    assert_answers(&rt, alloc, "listen = 'a'\n[upstream]\n", &UPSTREAMS).expect(&rt, "memory");
}

/// Whole texts with two keys that are refused, of which the later one stands first, and the answer.
const PAIRS: [Row; 10] = [
    ("suffix = 'dc'\nlisten = 1", "BadValue listen"),
    ("sid = 4096\nlisten = 'a'", "MissingKey suffix"),
    (
        "ldif = 1\nsid = -1\nlisten = 'a'\nsuffix = ''",
        "BadValue sid",
    ),
    (
        "log_limit = -1\nldif = 1\nlisten = 'a'\nsuffix = ''",
        "BadValue ldif",
    ),
    (
        "queue_limit = -1\nlog_limit = -1\nlisten = 'a'\nsuffix = ''",
        "BadValue log_limit",
    ),
    (
        "bind_password = 1\nqueue_limit = -1\nlisten = 'a'\nsuffix = ''",
        "BadValue queue_limit",
    ),
    (
        "bind_password = 1\nbind_name = 'cn'\nlisten = 'a'\nsuffix = ''",
        "BadValue bind_name",
    ),
    (
        "seats = 0\nbind_name = 'cn=a'\nlisten = 'a'\nsuffix = ''",
        "MissingKey bind_password",
    ),
    (
        "connections = -1\nseats = 0\nlisten = 'a'\nsuffix = ''",
        "BadValue seats",
    ),
    (
        "upstream = 1\nconnections = -1\nlisten = 'a'",
        "BadValue connections",
    ),
];

#[test]
fn the_first_refused_key_is_reported(rt: HostRuntime) {
    assert_answers(&rt, rt.alloc(), "", &WHOLE).expect(&rt, "memory");
    assert_answers(&rt, rt.alloc(), "", &PAIRS).expect(&rt, "memory");
}

#[test]
fn other_bytes_are_no_toml(rt: HostRuntime) {
    let found = answer(rt.alloc(), b"listen = '\xff'\nsuffix = 'dc=x'");
    let found = found.expect(&rt, "memory");
    assert_same(&rt, "octet ff", &found.as_str(), &"NotToml");
}

/// The name as it is written, or `none`.
fn written(alloc: Global, name: &Option<Dn>) -> Result<String, NoMemory> {
    match name {
        Some(name) => String::from_str(alloc, utf8(name.write()?.as_slice())),
        None => String::from_str(alloc, "none"),
    }
}

/// The text, or `none`.
fn text_of(text: &Option<ConfigText>) -> &str {
    match text {
        Some(text) => text.as_str(),
        None => "none",
    }
}

/// All that was read, in the order of the keys.
fn config_shown(alloc: Global, config: &Config) -> Result<String, NoMemory> {
    let first = first_shown(alloc, config)?;
    let last = last_shown(alloc, config)?;
    joined(alloc, &first, &last)
}

fn first_shown(alloc: Global, config: &Config) -> Result<String, NoMemory> {
    let suffix = written(alloc, &config.suffix)?;
    let (listen, ldif) = (config.listen.as_str(), text_of(&config.ldif));
    shown(alloc, &(listen, suffix.as_str(), config.sid, ldif))
}

fn last_shown(alloc: Global, config: &Config) -> Result<String, NoMemory> {
    let name = written(alloc, &config.bind_name)?;
    let limits = (config.log_limit, config.queue_limit);
    let access = (name.as_str(), text_of(&config.bind_password));
    shown(alloc, &(limits, access, config.seats, config.connections))
}

/// The lines of `examples/serve.toml` but for its comments.
const EXAMPLE: &str = r#"
listen = "localhost:3890"
suffix = "dc=example,dc=org"
sid = 1
ldif = "examples/serve.ldif"
log_limit = 10000
queue_limit = 4000
bind_name = "cn=admin,dc=example,dc=org"
bind_password = "secret"
seats = 32
connections = 0
"#;

/// Texts, and all that is read of them.
const READ: [Row; 4] = [
    (
        LEAST,
        r#"("localhost:3890", "dc=x", 0, "none")((1000, 4096), ("none", "none"), 16, 0)"#,
    ),
    (
        "listen = \"localhost:3890\"\nsuffix = \"dc=x\"\nconnections = 2\n",
        r#"("localhost:3890", "dc=x", 0, "none")((1000, 4096), ("none", "none"), 16, 2)"#,
    ),
    (
        "bind_password = ' b '\nbind_name = 'CN = a'\nsid = 0x10\nsuffix = 'OU=b,DC=x'\n\
         listen = '[::1]:389'",
        r#"("[::1]:389", "ou=b,dc=x", 16, "none")((1000, 4096), ("cn=a", " b "), 16, 0)"#,
    ),
    (
        EXAMPLE,
        "(\"localhost:3890\", \"dc=example,dc=org\", 1, \"examples/serve.ldif\")\
         ((10000, 4000), (\"cn=admin,dc=example,dc=org\", \"secret\"), 32, 0)",
    ),
];

// A configuration is dropped by `discard`, in one call, before anything else is looked at.

fn assert_read(rt: &impl Abort, alloc: Global, text: &str, wanted: &str) {
    let config = Config::read(alloc, text.as_bytes()).expect(rt, text);
    let found = config_shown(alloc, &config);
    discard(config);
    let found = found.expect(rt, "memory");
    assert_same(rt, text, &found.as_str(), &wanted);
}

#[test]
fn keys_have_the_values_of_their_lines(rt: HostRuntime) {
    for (text, wanted) in &READ {
        assert_read(&rt, rt.alloc(), text, wanted);
    }
}

/// All that was read of an upstream, in the order of its keys, or `none`.
fn upstream_shown(alloc: Global, config: &Config) -> Result<String, Fail> {
    match &config.upstream {
        Some(upstream) => followed(alloc, upstream, config.rounds),
        None => Ok(String::from_str(alloc, "none")?),
    }
}

fn followed(alloc: Global, upstream: &Upstream, rounds: u64) -> Result<String, Fail> {
    let base = upstream.spec.base.write()?;
    let filter = upstream.spec.filter.write_text(alloc)?;
    let spec = (
        utf8(base.as_slice()),
        upstream.spec.scope,
        utf8(filter.as_slice()),
    );
    let address = upstream.address.as_str();
    Ok(shown(alloc, &(address, spec, upstream.reload_hint, rounds))?)
}

/// What is read of an upstream from these lines.
fn upstream_read(alloc: Global, lines: &str) -> Result<String, Fail> {
    let config = Config::read(alloc, lines.as_bytes())?;
    let found = upstream_shown(alloc, &config);
    discard(config);
    found
}

/// Lines, those after them, and all that is read of an upstream from both.
const FOLLOWED: [(&str, &str, &str); 3] = [
    (UPSTREAM, "", r#"("b", ("dc=x", Sub, "(ou=*)"), false, 0)"#),
    (
        UPSTREAM,
        "reload_hint = true\nrounds = 7",
        r#"("b", ("dc=x", Sub, "(ou=*)"), true, 7)"#,
    ),
    (LEAST, "", "none"),
];

#[test]
fn an_upstream_has_the_values_of_its_lines(rt: HostRuntime) -> Result<(), Fail> {
    for (lines, more, wanted) in &FOLLOWED {
        let text = joined(rt.alloc(), lines, more)?;
        let found = upstream_read(rt.alloc(), &text)?;
        assert_same(&rt, &text, &found.as_str(), wanted);
    }
    Ok(())
}
