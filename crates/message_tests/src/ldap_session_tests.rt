//! What messages ask for, who is bound by a bind, what a Cancel names, and which controls are not
//! known. The bytes are by hand from the rules of RFC 4511, sections 4 and 5.1, and of RFC 3909,
//! section 2.1; the codes are those of RFC 4511, section 4.2.2 and appendix A.2, and of RFC 4513,
//! section 5.1.
use crate::assertions::{assert_same, assert_same_of};
use crate::ldap_messages_tests::message_of;
use dn_names::Dn;
use ldap_ber::{NoMemory, Octets, discard};
use ldap_messages::{Authentication, Control, ControlList, Message, MessageFault};
use ldap_session::{
    Access, Request, SearchParameters, bind_code, binds_as, cancels, has_unknown_critical,
    may_write, request_of, target_of,
};
use schema_rules::Change;
use std::alloc::Global;
use std::process::Abort;
use std::test::Fail;

// A message and a request are dropped by `discard`, in the function that reads them and before that
// can return with a fault.

/// What the message that all of the bytes are asks for.
fn request_in(alloc: Global, bytes: &[u8]) -> Result<Request, MessageFault> {
    let Message { op, controls, .. } = message_of(alloc, bytes)?;
    discard(controls);
    Ok(request_of(op))
}

fn text_of(octets: &Octets) -> &str {
    str::from_utf8(octets.as_slice()).unwrap_or("?")
}

fn change_name(change: &Change) -> &'static str {
    match change {
        Change::Add(_, _) => "add",
        Change::Delete(_) => "delete",
        Change::Modify(_, _) => "modify",
        Change::Rename(_, _, _, _) => "rename",
    }
}

fn bind_reported(
    alloc: Global,
    version: u8,
    name: &Octets,
    authentication: &Authentication,
) -> Result<String, NoMemory> {
    let (kind, given) = match authentication {
        Authentication::Simple(password) => ("simple", password),
        Authentication::Sasl(body) => ("sasl", body),
    };
    let (name, given) = (text_of(name), given.as_slice());
    format!(in alloc; "bind {version} {name} {kind} {given:?}")
}

fn search_reported(alloc: Global, search: &SearchParameters) -> Result<String, Fail> {
    let mut text = head_reported(alloc, search)?;
    push_selectors(&mut text, search.selectors.list())?;
    Ok(text)
}

/// What is reported of a search but for its selectors.
fn head_reported(alloc: Global, search: &SearchParameters) -> Result<String, Fail> {
    let filter = search.filter.write_text(alloc)?;
    Ok(format!(in alloc;
        "search {} {:?} {} {} {}",
        text_of(&search.base),
        search.scope,
        search.size_limit,
        search.types_only,
        text_of(&filter)
    )?)
}

fn push_selectors(text: &mut String, selectors: &[Octets]) -> Result<(), NoMemory> {
    for selector in selectors {
        text.push(' ')?;
        text.push_str(text_of(selector))?;
    }
    Ok(())
}

fn extended_reported(
    alloc: Global,
    name: &Octets,
    value: &Option<Octets>,
) -> Result<String, NoMemory> {
    let value = match value {
        Some(value) => text_of(value),
        None => "none",
    };
    format!(in alloc; "extended {} {value}", text_of(name))
}

fn reported(alloc: Global, request: &Request) -> Result<String, Fail> {
    match request {
        Request::Search(search) => search_reported(alloc, search),
        _ => Ok(other_reported(alloc, request)?),
    }
}

/// The same of what is no search.
fn other_reported(alloc: Global, request: &Request) -> Result<String, NoMemory> {
    match request {
        Request::Bind(version, name, authentication) => {
            bind_reported(alloc, *version, name, authentication)
        }
        Request::Unbind => String::from_str(alloc, "unbind"),
        Request::Write(change) => String::from_str(alloc, change_name(change)),
        Request::Compare(entry, name, value) => {
            let (entry, name, value) = (text_of(entry), text_of(name), text_of(value));
            format!(in alloc; "compare {entry} {name} {value}")
        }
        Request::Search(_) => String::from_str(alloc, "search"),
        Request::Abandon(target) => format!(in alloc; "abandon {target}"),
        Request::Extended(name, value) => extended_reported(alloc, name, value),
        Request::Response => String::from_str(alloc, "response"),
    }
}

/// What the message that all of the bytes are asks for, as text.
fn asked(alloc: Global, bytes: &[u8]) -> Result<String, Fail> {
    let request = request_in(alloc, bytes)?;
    let text = reported(alloc, &request);
    discard(request);
    text
}

/// A search below `ou=a` at one level with each limit, for types alone, of `cn` and the operational
/// attributes, which dereferences aliases always.
const SEARCH: &[u8] = b"0\x27\x02\x01\x01c\x22\x04\x04ou=a\x0a\x01\x01\x0a\x01\x03\x02\x01\
    \x05\x02\x01\x06\x01\x01\xff\x87\x02cn0\x07\x04\x02cn\x04\x01+";

/// The removal of `dc=x`.
const DELETE: &[u8] = b"0\x09\x02\x01\x01J\x04dc=x";

/// Requests, and what they ask for.
const REQUESTS: [(&[u8], &str); 13] = [
    (
        b"0\x0c\x02\x01\x01`\x07\x02\x01\x03\x04\0\x80\0",
        "bind 3  simple []",
    ),
    (
        b"0\x11\x02\x01\x01`\x0c\x02\x01\x02\x04\x04cn=a\x80\x01a",
        "bind 2 cn=a simple [97]",
    ),
    (
        b"0\x0f\x02\x01\x01`\x0a\x02\x01\x03\x04\0\xa3\x03\x04\x01A",
        "bind 3  sasl [4, 1, 65]",
    ),
    (b"0\x05\x02\x01\x02B\0", "unbind"),
    (b"0\x0d\x02\x01\x01h\x08\x04\x04dc=x0\0", "add"),
    (DELETE, "delete"),
    (b"0\x0d\x02\x01\x01f\x08\x04\x04dc=x0\0", "modify"),
    (
        b"0\x14\x02\x01\x01l\x0f\x04\x04dc=x\x04\x04ou=a\x01\x01\xff",
        "rename",
    ),
    (
        b"0\x13\x02\x01\x01n\x0e\x04\x04dc=x0\x06\x04\x01o\x04\x01x",
        "compare dc=x o x",
    ),
    (SEARCH, "search ou=a One 5 true (cn=*) cn +"),
    (b"0\x06\x02\x01\x02P\x01\x05", "abandon 5"),
    (b"0\x0a\x02\x01\x01w\x05\x80\x031.2", "extended 1.2 none"),
    (
        b"0\x0d\x02\x01\x01w\x08\x80\x031.2\x81\x01v",
        "extended 1.2 v",
    ),
];

/// What only a server sends.
const RESPONSES: [&[u8]; 11] = [
    b"0\x0c\x02\x01\x01a\x07\x0a\x01\0\x04\0\x04\0",
    b"0\x09\x02\x01\x01d\x04\x04\00\0",
    b"0\x0c\x02\x01\x01e\x07\x0a\x01\0\x04\0\x04\0",
    b"0\x0c\x02\x01\x01g\x07\x0a\x01\0\x04\0\x04\0",
    b"0\x0c\x02\x01\x01i\x07\x0a\x01\0\x04\0\x04\0",
    b"0\x0c\x02\x01\x01k\x07\x0a\x01\0\x04\0\x04\0",
    b"0\x0c\x02\x01\x01m\x07\x0a\x01\0\x04\0\x04\0",
    b"0\x0c\x02\x01\x01o\x07\x0a\x01\0\x04\0\x04\0",
    b"0\x08\x02\x01\x01s\x03\x04\x01a",
    b"0\x0c\x02\x01\x01x\x07\x0a\x01\0\x04\0\x04\0",
    b"0\x05\x02\x01\x01y\0",
];

fn assert_asked(rt: &impl Abort, alloc: Global, bytes: &[u8], wanted: &str) -> Result<(), Fail> {
    let found = asked(alloc, bytes)?;
    assert_same_of(rt, bytes, &found.as_str(), &wanted);
    Ok(())
}

#[test]
fn requests_by_their_kinds(rt: HostRuntime) -> Result<(), Fail> {
    for (bytes, wanted) in &REQUESTS {
        assert_asked(&rt, rt.alloc(), bytes, wanted)?;
    }
    for bytes in &RESPONSES {
        assert_asked(&rt, rt.alloc(), bytes, "response")?;
    }
    Ok(())
}

/// A simple bind, its version, name and password; its code, and whether the session is then bound
/// as the configured name.
type Bind = (u8, &'static str, &'static str, u32, bool);

fn assert_binds(rt: &impl Abort, alloc: Global, access: &Access, binds: &[Bind]) {
    for bind in binds {
        assert_bind(rt, alloc, access, bind);
    }
}

fn assert_bind(rt: &impl Abort, alloc: Global, access: &Access, bind: &Bind) {
    let (version, name, password, code, bound) = *bind;
    let found = bound_by(alloc, access, version, name, password).expect(rt, name);
    assert_same(rt, name, &found, &(code, bound));
}

/// The code of a simple bind, and whether the session is then bound as the configured name.
fn bound_by(
    alloc: Global,
    access: &Access,
    version: u8,
    name: &str,
    password: &str,
) -> Result<(u32, bool), NoMemory> {
    let name = Octets::from_slice(alloc, name.as_bytes())?;
    let password = Octets::from_slice(alloc, password.as_bytes())?;
    let authentication = Authentication::Simple(password);
    let code = bind_code(alloc, access, version, &name, &authentication)?;
    Ok((code, binds_as(code, &authentication)))
}

/// Binds where `cn=admin,dc=x` is configured, with the password `secret`.
const NAMED: [Bind; 13] = [
    (3, "", "", 0, false),
    (3, "cn=admin,dc=x", "", 53, false),
    (3, "cn", "", 53, false),
    (3, "cn", "secret", 34, false),
    (3, "cn=admin,dc=x", "secret", 0, true),
    (3, "CN = Admin , DC = X", "secret", 0, true),
    (3, "cn=admin,dc=x", "Secret", 49, false),
    (3, "cn=admin,dc=x", "secret ", 49, false),
    (3, "cn=other,dc=x", "secret", 49, false),
    (3, "", "secret", 49, false),
    (2, "cn=admin,dc=x", "secret", 2, false),
    (4, "cn=admin,dc=x", "secret", 2, false),
    (1, "", "", 2, false),
];

/// Binds where no name is configured.
const FREE: [Bind; 5] = [
    (3, "", "", 0, false),
    (3, "cn=admin,dc=x", "", 53, false),
    (3, "cn", "secret", 34, false),
    (3, "cn=admin,dc=x", "secret", 49, false),
    (2, "", "", 2, false),
];

/// Binds where the empty name is configured, with the password `secret`, and where a name is
/// configured with an empty password.
const EMPTY_NAME: [Bind; 2] = [(3, "", "secret", 0, true), (3, "", "", 0, false)];

const EMPTY_PASSWORD: [Bind; 2] = [
    (3, "cn=admin,dc=x", "", 53, false),
    (3, "cn=admin,dc=x", "secret", 49, false),
];

fn named(rt: &impl Abort, alloc: Global, name: &[u8], password: &[u8]) -> Access {
    let name = Dn::parse(alloc, name).expect(rt, "a name");
    Access::Named(
        name,
        Octets::from_slice(alloc, password).expect(rt, "a password"),
    )
}

fn assert_named(rt: &impl Abort, alloc: Global, name: &[u8], password: &[u8], binds: &[Bind]) {
    let access = named(rt, alloc, name, password);
    assert_binds(rt, alloc, &access, binds);
    discard(access);
}

#[test]
fn simple_binds(rt: HostRuntime) {
    let alloc = rt.alloc();
    assert_binds(&rt, alloc, &Access::Free, &FREE);
    assert_named(&rt, alloc, b"cn=admin,dc=x", b"secret", &NAMED);
    assert_named(&rt, alloc, b"", b"secret", &EMPTY_NAME);
    assert_named(&rt, alloc, b"cn=admin,dc=x", b"", &EMPTY_PASSWORD);
}

/// The codes of SASL binds of the versions 3 and 2, and whether a session is bound by one that has
/// the code 0.
#[test]
fn other_binds(rt: HostRuntime) {
    let access = named(&rt, rt.alloc(), b"cn=admin,dc=x", b"secret");
    let name = Octets::from_slice(rt.alloc(), b"cn=admin,dc=x").expect(&rt, "a name");
    let body = Octets::from_slice(rt.alloc(), b"\x04\x05PLAIN").expect(&rt, "a body");
    let sasl = Authentication::Sasl(body);
    let third = bind_code(rt.alloc(), &access, 3, &name, &sasl).expect(&rt, "memory");
    let second = bind_code(rt.alloc(), &access, 2, &name, &sasl).expect(&rt, "memory");
    let is_bound = binds_as(0, &sasl);
    discard(sasl);
    discard(access);
    assert_same(&rt, "sasl", &(third, second, is_bound), &(7, 2, false));
}

/// Whether a session may write that is bound as the configured name, and one that is not.
#[test]
fn writers(rt: HostRuntime) {
    let access = named(&rt, rt.alloc(), b"cn=admin,dc=x", b"secret");
    let found = (may_write(&access, true), may_write(&access, false));
    discard(access);
    assert_same(&rt, "named", &found, &(true, false));
    let access = Access::Free;
    let found = (may_write(&access, true), may_write(&access, false));
    discard(access);
    assert_same(&rt, "free", &found, &(true, true));
}

/// Names of extended operations, and whether they are Cancel.
const NAMES: [(&[u8], bool); 5] = [
    (b"1.3.6.1.1.8", true),
    (b"1.3.6.1.1.80", false),
    (b"1.3.6.1.1", false),
    (b"1.3.6.1.4.1.1466.20037", false),
    (b"", false),
];

/// Values of Cancel, and the message ID that they name.
const TARGETS: [(&[u8], Option<i64>); 13] = [
    (b"0\x03\x02\x01\x05", Some(5)),
    (b"0\x03\x02\x01\0", Some(0)),
    (b"0\x84\0\0\0\x04\x02\x02\0\x80", Some(128)),
    (b"0\x06\x02\x04\x7f\xff\xff\xff", Some(2_147_483_647)),
    (b"0\x07\x02\x05\0\x80\0\0\0", None),
    (b"0\x03\x02\x01\xff", None),
    // an unknown element after the last known one
    (b"0\x06\x02\x01\x05\x04\x01a", Some(5)),
    (b"0\x03\x02\x01\x05\0", None),
    (b"0\0", None),
    (b"\x02\x01\x05", None),
    (b"1\x03\x02\x01\x05", None),
    (b"0\x80\x02\x01\x05\0\0", None),
    (b"", None),
];

fn is_cancel(alloc: Global, name: &[u8]) -> Result<bool, NoMemory> {
    Ok(cancels(&Octets::from_slice(alloc, name)?))
}

fn target_in(alloc: Global, value: &[u8]) -> Result<Option<i64>, NoMemory> {
    target_of(&Some(Octets::from_slice(alloc, value)?))
}

#[test]
fn cancels_and_their_targets(rt: HostRuntime) {
    for (name, wanted) in &NAMES {
        let found = is_cancel(rt.alloc(), name).expect(&rt, "memory");
        assert_same_of(&rt, name, &found, wanted);
    }
    for (value, wanted) in &TARGETS {
        let found = target_in(rt.alloc(), value).expect(&rt, "memory");
        assert_same_of(&rt, value, &found, wanted);
    }
    let found = target_of(&None).expect(&rt, "memory");
    assert_same(&rt, "no value", &found, &None);
}

const MANAGE_DSA_IT: &[u8] = b"2.16.840.1.113730.3.4.2";

const SYNC_REQUEST: &[u8] = b"1.3.6.1.4.1.4203.1.9.1.1";

/// A request, its controls and whether they are critical, and whether one is that is not known.
type Controlled = (&'static [u8], &'static [(&'static [u8], bool)], bool);

const CONTROLLED: [Controlled; 11] = [
    (DELETE, &[], false),
    (DELETE, &[(MANAGE_DSA_IT, true)], false),
    (DELETE, &[(b"1.2", false)], false),
    (DELETE, &[(b"1.2", true)], true),
    (DELETE, &[(SYNC_REQUEST, true)], true),
    (DELETE, &[(SYNC_REQUEST, false)], false),
    (SEARCH, &[(SYNC_REQUEST, true)], false),
    (SEARCH, &[(MANAGE_DSA_IT, true)], false),
    (SEARCH, &[(SYNC_REQUEST, true), (b"1.2", true)], true),
    (SEARCH, &[(b"1.2", false), (SYNC_REQUEST, true)], false),
    (SEARCH, &[(b"1.3.6.1.4.1.4203.1.9.1.2", true)], true),
];

fn control(alloc: Global, name: &[u8], critical: bool) -> Result<Control, NoMemory> {
    let name = Octets::from_slice(alloc, name)?;
    Ok(Control {
        name,
        critical,
        value: None,
    })
}

fn controls_of(alloc: Global, parts: &[(&[u8], bool)]) -> Result<ControlList, NoMemory> {
    let mut controls = ControlList::new(alloc);
    for (name, critical) in parts {
        controls.push(control(alloc, name, *critical)?)?;
    }
    Ok(controls)
}

fn is_refused(alloc: Global, bytes: &[u8], controls: &[Control]) -> Result<bool, MessageFault> {
    let request = request_in(alloc, bytes)?;
    let is_refused = has_unknown_critical(&request, controls);
    discard(request);
    Ok(is_refused)
}

fn assert_refused(rt: &impl Abort, alloc: Global, row: &Controlled) {
    let (bytes, parts, wanted) = *row;
    let controls = controls_of(alloc, parts).expect(rt, "memory");
    let found = is_refused(alloc, bytes, controls.list());
    discard(controls);
    assert_same_of(rt, bytes, &found, &Ok(wanted));
}

#[test]
fn critical_controls(rt: HostRuntime) {
    for row in &CONTROLLED {
        assert_refused(&rt, rt.alloc(), row);
    }
}
