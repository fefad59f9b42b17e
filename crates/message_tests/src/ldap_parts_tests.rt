//! Components both ways, and those that are refused. The texts of filters are examples of RFC 4515,
//! section 4, and such as they are. A spelling that is written is what pyasn1 0.6.3 makes by the
//! definitions of RFC 4511, appendix B: its BER encoder, and for truth values, which that one
//! spells otherwise than section 5.1 asks, its DER encoder. The other bytes are by hand from the
//! rules of RFC 4511, sections 4 and 5.1.
ghost use Rattle.std.specs.Prelude.{◌≡◌, OnOk};

use crate::assertions::assert_same_of;
use ldap_ber::{NoMemory, Octets, OctetsList, Reader, Writer, discard};
use ldap_filter::Filter;
use ldap_parts::{
    ComponentFault, Control, ControlList, assertion_of, attribute_of, attributes_of, boolean_of,
    controls_of, filter_of, number_of, octet_string_of, option_of, put_assertion, put_attribute,
    put_attributes, put_controls, put_filter, put_number, put_option, put_strings, range_of,
    strings_of,
};
use schema_rules::{RawAttribute, RawList};
use std::alloc::Global;
use std::process::Abort;
use std::test::Fail;

#[derive(Clone, Copy)]
enum Kind {
    Assertion,
    Attribute,
    Attributes,
    Controls,
    Filter,
    /// A string, and one that may be left out.
    Names,
    /// A number, one from 1 to 127, and a truth value.
    Numbers,
    Strings,
}

#[derive(Drop)]
enum Component {
    Assertion(Octets, Octets),
    Attribute(RawAttribute),
    Attributes(RawList),
    Controls(ControlList),
    Filter(Filter),
    Names(Octets, Option<Octets>),
    Numbers(i64, u32, bool),
    Strings(OctetsList),
}

// A component is dropped by `discard`, and before the function that holds it can return with a
// fault: so no proof goes through the kinds of components at each of its ends.

/// The component that all of the bytes are.
fn read(alloc: Global, kind: Kind, bytes: &[u8]) -> Result<Component, ComponentFault> {
    let mut reader = Reader::new(bytes);
    let component = read_next(alloc, kind, &mut reader)?;
    match reader.end() {
        Ok(()) => Ok(component),
        Err(fault) => {
            discard(component);
            Err(ComponentFault::from(fault))
        }
    }
}

/// What the component that all of the bytes are says.
fn says(alloc: Global, kind: Kind, bytes: &[u8]) -> Result<Vec<u8>, Fail> {
    let component = read(alloc, kind, bytes)?;
    let text = reported(alloc, &component);
    discard(component);
    text
}

/// What is written of the component that all of the bytes are.
fn written_again(alloc: Global, kind: Kind, bytes: &[u8]) -> Result<Octets, ComponentFault> {
    let component = read(alloc, kind, bytes)?;
    let spelling = written(alloc, &component);
    discard(component);
    Ok(spelling?)
}

fn read_assertion(alloc: Global, reader: &mut Reader) -> Result<Component, ComponentFault> {
    let (name, value) = assertion_of(alloc, reader, 0x30)?;
    Ok(Component::Assertion(name, value))
}

fn read_names(alloc: Global, reader: &mut Reader) -> Result<Component, ComponentFault> {
    let name = octet_string_of(alloc, reader, 0x04)?;
    let superior = option_of(alloc, reader, 0x80)?;
    Ok(Component::Names(name, superior))
}

fn read_numbers(reader: &mut Reader) -> Result<Component, ComponentFault> {
    let code = number_of(reader, 0x0A)?;
    let version = range_of(reader, 0x02, 1, 127)?;
    Ok(Component::Numbers(code, version, boolean_of(reader)?))
}

fn read_next(alloc: Global, kind: Kind, reader: &mut Reader) -> Result<Component, ComponentFault> {
    match kind {
        Kind::Assertion => read_assertion(alloc, reader),
        Kind::Names => read_names(alloc, reader),
        Kind::Numbers => read_numbers(reader),
        _ => read_listed(alloc, kind, reader),
    }
}

/// A component that one reader of the library gives.
fn read_listed(
    alloc: Global,
    kind: Kind,
    reader: &mut Reader,
) -> Result<Component, ComponentFault> {
    match kind {
        Kind::Attribute => Ok(Component::Attribute(attribute_of(alloc, reader)?)),
        Kind::Attributes => Ok(Component::Attributes(attributes_of(alloc, reader)?)),
        Kind::Controls => Ok(Component::Controls(controls_of(alloc, reader)?)),
        Kind::Filter => Ok(Component::Filter(filter_of(alloc, reader, 32)?)),
        _ => Ok(Component::Strings(strings_of(alloc, reader, 0x30)?)),
    }
}

fn written(alloc: Global, component: &Component) -> Result<Octets, NoMemory> {
    let mut writer = Writer::new(alloc);
    put(&mut writer, component)?;
    Ok(writer.finish())
}

fn put_names(writer: &mut Writer, name: &Octets, superior: &Option<Octets>) -> Result<(), NoMemory>
    ensures { OnOk result (writer.new.opened ≡ writer.old.opened) }
{
    writer.octets(0x04, name.as_slice())?;
    put_option(writer, 0x80, superior)
}

fn put_numbers(writer: &mut Writer, code: i64, version: u32, truth: bool) -> Result<(), NoMemory>
    ensures { OnOk result (writer.new.opened ≡ writer.old.opened) }
{
    writer.integer(0x0A, code)?;
    put_number(writer, 0x02, version)?;
    writer.boolean(0x01, truth)
}

fn put(writer: &mut Writer, component: &Component) -> Result<(), NoMemory>
    ensures { OnOk result (writer.new.opened ≡ writer.old.opened) }
{
    match component {
        Component::Assertion(name, value) => put_assertion(writer, 0x30, name, value),
        Component::Attribute(attribute) => put_attribute(writer, attribute),
        Component::Attributes(attributes) => put_attributes(writer, attributes.list()),
        Component::Controls(controls) => put_controls(writer, controls.list()),
        Component::Filter(filter) => put_filter(writer, filter),
        Component::Names(name, superior) => put_names(writer, name, superior),
        Component::Numbers(code, version, truth) => put_numbers(writer, *code, *version, *truth),
        Component::Strings(strings) => put_strings(writer, 0x30, strings.list()),
    }
}

/// What a component says, as a text of these tests.
fn reported(alloc: Global, component: &Component) -> Result<Vec<u8>, Fail> {
    let mut text = Vec::new(alloc);
    report(alloc, &mut text, component)?;
    Ok(text)
}

fn report(alloc: Global, text: &mut Vec<u8>, component: &Component) -> Result<(), Fail> {
    match component {
        Component::Filter(filter) => report_filter(alloc, text, filter),
        _ => Ok(report_other(alloc, text, component)?),
    }
}

/// The same of a component that is no filter.
fn report_other(alloc: Global, text: &mut Vec<u8>, component: &Component) -> Result<(), NoMemory> {
    match component {
        Component::Assertion(name, value) => report_assertion(text, name, value),
        Component::Attribute(attribute) => report_attribute(text, attribute),
        Component::Attributes(attributes) => report_attributes(text, attributes.list()),
        Component::Controls(controls) => report_controls(text, controls.list()),
        Component::Filter(_) => Ok(()),
        Component::Names(name, superior) => report_names(text, name, superior),
        Component::Numbers(code, version, truth) => {
            report_numbers(alloc, text, *code, *version, *truth)
        }
        Component::Strings(strings) => report_strings(text, strings.list()),
    }
}

fn report_assertion(text: &mut Vec<u8>, name: &Octets, value: &Octets) -> Result<(), NoMemory> {
    text.extend_from_slice(name.as_slice())?;
    report_string(text, value)
}

/// The text of a filter, and the body of an extensible one.
fn report_filter(alloc: Global, text: &mut Vec<u8>, filter: &Filter) -> Result<(), Fail> {
    if let Filter::Extensible(body) = filter {
        return Ok(text.extend_from_slice(body.as_slice())?);
    }
    let written = filter.write_text(alloc)?;
    Ok(text.extend_from_slice(written.as_slice())?)
}

fn report_names(
    text: &mut Vec<u8>,
    name: &Octets,
    superior: &Option<Octets>,
) -> Result<(), NoMemory> {
    text.extend_from_slice(name.as_slice())?;
    match superior {
        Some(superior) => report_string(text, superior),
        None => Ok(()),
    }
}

fn report_numbers(
    alloc: Global,
    text: &mut Vec<u8>,
    code: i64,
    version: u32,
    truth: bool,
) -> Result<(), NoMemory> {
    let line = format!(in alloc; "{code} {version} {truth}")?;
    text.extend_from_slice(line.as_bytes())
}

fn report_string(text: &mut Vec<u8>, string: &Octets) -> Result<(), NoMemory> {
    text.push(b':')?;
    text.extend_from_slice(string.as_slice())
}

fn report_strings(text: &mut Vec<u8>, strings: &[Octets]) -> Result<(), NoMemory> {
    for string in strings {
        report_string(text, string)?;
    }
    Ok(())
}

fn report_attribute(text: &mut Vec<u8>, attribute: &RawAttribute) -> Result<(), NoMemory> {
    text.extend_from_slice(attribute.name.as_slice())?;
    report_strings(text, attribute.values.list())
}

fn report_attributes(text: &mut Vec<u8>, attributes: &[RawAttribute]) -> Result<(), NoMemory> {
    for attribute in attributes {
        report_attribute(text, attribute)?;
        text.push(b'\n')?;
    }
    Ok(())
}

fn report_control(text: &mut Vec<u8>, control: &Control) -> Result<(), NoMemory> {
    text.extend_from_slice(control.name.as_slice())?;
    if control.critical {
        text.push(b'!')?;
    }
    if let Some(value) = &control.value {
        report_string(text, value)?;
    }
    text.push(b'\n')?;
    Ok(())
}

/// A line for each: its name, `!` where it is critical, and its value where it has one.
fn report_controls(text: &mut Vec<u8>, controls: &[Control]) -> Result<(), NoMemory> {
    for control in controls {
        report_control(text, control)?;
    }
    Ok(())
}

/// Components, with what they say and their spelling.
const COMPONENTS: [(Kind, &[u8], &[u8]); 31] = [
    // filters: the examples of RFC 4515 and one of each other kind
    (
        Kind::Filter,
        b"(cn=Babs Jensen)",
        b"\xa3\x11\x04\x02cn\x04\x0bBabs Jensen",
    ),
    (
        Kind::Filter,
        b"(!(cn=Tim Howes))",
        b"\xa2\x11\xa3\x0f\x04\x02cn\x04\x09Tim Howes",
    ),
    (
        Kind::Filter,
        b"(&(objectClass=Person)(|(sn=Jensen)(cn=Babs J*)))",
        b"\xa07\xa3\x15\x04\x0bobjectClass\x04\x06Person\xa1\x1e\xa3\x0c\x04\x02sn\x04\
          \x06Jensen\xa4\x0e\x04\x02cn0\x08\x80\x06Babs J",
    ),
    (
        Kind::Filter,
        b"(o=univ*of*mich*)",
        b"\xa4\x15\x04\x01o0\x10\x80\x04univ\x81\x02of\x81\x04mich",
    ),
    (
        Kind::Filter,
        b"(seeAlso=)",
        b"\xa3\x0b\x04\x07seeAlso\x04\0",
    ),
    (
        Kind::Filter,
        b"(bin=\\00\\00\\00\x04)",
        b"\xa3\x0b\x04\x03bin\x04\x04\0\0\0\x04",
    ),
    (Kind::Filter, b"(cn=*)", b"\x87\x02cn"),
    (
        Kind::Filter,
        b"(uidNumber>=-1)",
        b"\xa5\x0f\x04\x09uidNumber\x04\x02-1",
    ),
    (
        Kind::Filter,
        b"(uidNumber<=7)",
        b"\xa6\x0e\x04\x09uidNumber\x04\x017",
    ),
    (Kind::Filter, b"(cn~=a)", b"\xa8\x07\x04\x02cn\x04\x01a"),
    (
        Kind::Filter,
        b"(cn=*b*c)",
        b"\xa4\x0c\x04\x02cn0\x06\x81\x01b\x82\x01c",
    ),
    (
        Kind::Filter,
        b"(cn=a*b*c*d)",
        b"\xa4\x12\x04\x02cn0\x0c\x80\x01a\x81\x01b\x81\x01c\x82\x01d",
    ),
    (Kind::Filter, b"(&)", b"\xa0\0"),
    (Kind::Filter, b"(|)", b"\xa1\0"),
    (
        Kind::Filter,
        b"(!(!(!(!(!(!(!(!(!(!(!(!(!(!(!(!(!(!(!(!(!(!(!(!(!(!(!(!(!(!(!(cn=*)))))))))\
          )))))))))))))))))))))))",
        b"\xa2@\xa2>\xa2<\xa2:\xa28\xa26\xa24\xa22\xa20\xa2.\xa2,\xa2*\xa2(\xa2&\xa2$\
          \xa2\x22\xa2 \xa2\x1e\xa2\x1c\xa2\x1a\xa2\x18\xa2\x16\xa2\x14\xa2\x12\xa2\
          \x10\xa2\x0e\xa2\x0c\xa2\x0a\xa2\x08\xa2\x06\xa2\x04\x87\x02cn",
    ),
    // extensible ones, whose bodies are kept as they come
    (
        Kind::Filter,
        b"\x81\x0ecaseExactMatch\x82\x02cn\x83\x0fFred Flintstone",
        b"\xa9%\x81\x0ecaseExactMatch\x82\x02cn\x83\x0fFred Flintstone",
    ),
    (
        Kind::Filter,
        b"\x81\x0a2.4.6.8.10\x82\x02sn\x83\x0dBarney Rubble\x84\x01\xff",
        b"\xa9\x22\x81\x0a2.4.6.8.10\x82\x02sn\x83\x0dBarney Rubble\x84\x01\xff",
    ),
    // controls: none, by name alone, and with all parts
    (Kind::Controls, b"", b""),
    (
        Kind::Controls,
        b"2.16.840.1.113730.3.4.2\n",
        b"\xa0\x1b0\x19\x04\x172.16.840.1.113730.3.4.2",
    ),
    (
        Kind::Controls,
        b"1.3.6.1.4.1.4203.1.9.1.1!:0\x03\x0a\x01\x03\n1.2:\n1.3!\n",
        b"\xa090$\x04\x181.3.6.1.4.1.4203.1.9.1.1\x01\x01\xff\x04\x050\x03\x0a\x01\x03\
          0\x07\x04\x031.2\x04\x000\x08\x04\x031.3\x01\x01\xff",
    ),
    // attributes with two values, an empty one and none
    (
        Kind::Attribute,
        b"sn:Jensen",
        b"0\x0e\x04\x02sn1\x08\x04\x06Jensen",
    ),
    (
        Kind::Attributes,
        b"cn:Barbara Jensen:Babs Jensen\ndescription;lang-en:\n",
        b"0@0#\x04\x02cn1\x1d\x04\x0eBarbara Jensen\x04\x0bBabs Jensen0\x19\x04\x13des\
          cription;lang-en1\x02\x04\0",
    ),
    (Kind::Attribute, b"l", b"0\x05\x04\x01l1\0"),
    (Kind::Attributes, b"", b"0\0"),
    // strings, assertions, numbers and truth values
    (Kind::Strings, b":*:+:", b"0\x08\x04\x01*\x04\x01+\x04\0"),
    (Kind::Assertion, b"o:x", b"0\x06\x04\x01o\x04\x01x"),
    (Kind::Names, b"cn=b", b"\x04\x04cn=b"),
    (Kind::Names, b"cn=b:dc=y", b"\x04\x04cn=b\x80\x04dc=y"),
    (
        Kind::Numbers,
        b"0 1 false",
        b"\x0a\x01\0\x02\x01\x01\x01\x01\0",
    ),
    (
        Kind::Numbers,
        b"4096 127 true",
        b"\x0a\x02\x10\0\x02\x01\x7f\x01\x01\xff",
    ),
    (
        Kind::Numbers,
        b"-1 3 true",
        b"\x0a\x01\xff\x02\x01\x03\x01\x01\xff",
    ),
];

fn assert_says(
    rt: &impl Abort,
    alloc: Global,
    kind: Kind,
    spelling: &[u8],
    wanted: &[u8],
) -> Result<(), Fail> {
    let reported = says(alloc, kind, spelling)?;
    assert_same_of(rt, spelling, &reported.as_slice(), &wanted);
    Ok(())
}

fn assert_written_again(
    rt: &impl Abort,
    alloc: Global,
    kind: Kind,
    spelling: &[u8],
) -> Result<(), ComponentFault> {
    let written = written_again(alloc, kind, spelling)?;
    assert_same_of(rt, spelling, &written.as_slice(), &spelling);
    Ok(())
}

#[test]
fn components_both_ways(rt: HostRuntime) -> Result<(), Fail> {
    for (kind, text, spelling) in &COMPONENTS {
        assert_says(&rt, rt.alloc(), *kind, spelling, text)?;
        assert_written_again(&rt, rt.alloc(), *kind, spelling)?;
    }
    Ok(())
}

/// Spellings that are read and never written.
const SPELLINGS: [(Kind, &[u8], &[u8]); 11] = [
    // a usual truth value that is written out, and a true one that is not FF
    (
        Kind::Controls,
        b"1.2\n",
        b"\xa0\x0a0\x08\x04\x031.2\x01\x01\0",
    ),
    (
        Kind::Controls,
        b"1.2!:v\n",
        b"\xa0\x0d0\x0b\x04\x031.2\x01\x01\x01\x04\x01v",
    ),
    // no controls, in an element of their own
    (Kind::Controls, b"", b"\xa0\0"),
    // unknown elements after the last known one, and a string after an unknown element
    (
        Kind::Controls,
        b"1.2:v\n",
        b"\xa0\x0d0\x0b\x04\x031.2\x04\x01v\x80\x01x",
    ),
    (
        Kind::Controls,
        b"1.2\n",
        b"\xa0\x0d0\x0b\x04\x031.2\x80\x01x\x04\x01v",
    ),
    (
        Kind::Attribute,
        b"l:a",
        b"0\x0b\x04\x01l1\x03\x04\x01a\x81\x01x",
    ),
    (
        Kind::Assertion,
        b"o:x",
        b"0\x0b\x04\x01o\x04\x01x\x04\x01y\x05\0",
    ),
    (
        Kind::Filter,
        b"(o=x)",
        b"\xa3\x09\x04\x01o\x04\x01x\x85\x01y",
    ),
    (
        Kind::Filter,
        b"(o=*x)",
        b"\xa4\x0b\x04\x01o0\x03\x82\x01x\x81\x01y",
    ),
    // lengths in the long form, and an integer with a needless octet
    (
        Kind::Filter,
        b"(!(o=x))",
        b"\xa2\x84\0\0\0\x0e\xa3\x81\x0b\x04\x82\0\x01o\x04\x83\0\0\x01x",
    ),
    (
        Kind::Numbers,
        b"5 3 true",
        b"\x0a\x02\0\x05\x02\x81\x01\x03\x01\x01\x80",
    ),
];

#[test]
fn other_spellings(rt: HostRuntime) -> Result<(), Fail> {
    for (kind, text, spelling) in &SPELLINGS {
        assert_says(&rt, rt.alloc(), *kind, spelling, text)?;
    }
    Ok(())
}

/// Spellings that are refused, with the place.
const REFUSED: [(Kind, &[u8], usize); 41] = [
    // a string in the constructed form, first and second
    (Kind::Strings, b"0\x05\x24\x03\x04\x01a", 2),
    (Kind::Strings, b"0\x08\x04\x01a\x24\x03\x04\x01b", 5),
    (Kind::Filter, b"\xa3\x08\x04\x01o\x24\x03\x04\x01x", 5),
    // another tag, no element, a string that ends too late
    (Kind::Strings, b"1\0", 0),
    (Kind::Names, b"\x0c\x01a", 0),
    (Kind::Names, b"\x04\x01a\x80\x02x", 3),
    // an unknown element in the middle, and none where a component has to begin
    (Kind::Assertion, b"0\x09\x04\x01o\x80\x01x\x04\x01x", 5),
    (Kind::Assertion, b"0\x03\x04\x01o", 5),
    (Kind::Attribute, b"0\x0a\x04\x01l\x80\x01x1\x02\x04\0", 5),
    (Kind::Attribute, b"0\x04\x04\x02cn", 6),
    // values in a SEQUENCE, a value with another tag, an attribute that is none
    (Kind::Attribute, b"0\x08\x04\x02cn0\x02\x04\0", 6),
    (Kind::Attribute, b"0\x0b\x04\x02cn1\x05\x04\0\x05\x01x", 10),
    (Kind::Attributes, b"0\x0b0\x06\x04\x02cn1\0\x04\x01x", 10),
    // controls: no name, a truth value of two octets, an unknown element cut, one that is none
    (Kind::Controls, b"\xa0\x050\x03\x01\x01\xff", 4),
    (
        Kind::Controls,
        b"\xa0\x0b0\x09\x04\x031.2\x01\x02\xff\xff",
        9,
    ),
    (Kind::Controls, b"\xa0\x090\x07\x04\x031.2\x80\x01", 9),
    (Kind::Controls, b"\xa0\x0c0\x05\x04\x031.2\x04\x031.3", 9),
    // the same where lengths are written long
    (
        Kind::Controls,
        b"\xa0\x81\x0d0\x82\0\x09\x04\x031.2\x01\x02\xff\xff",
        12,
    ),
    // filters: of an unknown kind, of none, within a list, a name in the constructed form
    (Kind::Filter, b"\xaa\x03\x04\x01x", 0),
    (Kind::Filter, b"", 0),
    (Kind::Filter, b"\xa1\x07\x87\x01a\x04\x02\x04\0", 5),
    (Kind::Filter, b"\xa7\x03\x04\x01a", 0),
    // a not of none and of two, and bytes after a filter
    (Kind::Filter, b"\xa2\0", 2),
    (Kind::Filter, b"\xa2\x06\x87\x01a\x87\x01b", 5),
    (Kind::Filter, b"\x87\x01a\x87\x01b", 3),
    // pieces: two initial ones, one after the final one, two final ones, an initial one after
    // another, an unknown one, one in the constructed form, none, and no list of them
    (
        Kind::Filter,
        b"\xa4\x0b\x04\x01o0\x06\x80\x01a\x80\x01b",
        10,
    ),
    (
        Kind::Filter,
        b"\xa4\x0b\x04\x01o0\x06\x82\x01a\x81\x01b",
        10,
    ),
    (
        Kind::Filter,
        b"\xa4\x0b\x04\x01o0\x06\x82\x01a\x82\x01b",
        10,
    ),
    (
        Kind::Filter,
        b"\xa4\x0b\x04\x01o0\x06\x81\x01a\x80\x01b",
        10,
    ),
    (Kind::Filter, b"\xa4\x08\x04\x01o0\x03\x83\x01a", 7),
    (Kind::Filter, b"\xa4\x0a\x04\x01o0\x05\xa0\x03\x04\x01a", 7),
    (Kind::Filter, b"\xa4\x05\x04\x01o0\0", 5),
    (Kind::Filter, b"\xa4\x03\x04\x01o", 5),
    // an item and an empty list in the 33rd level
    (
        Kind::Filter,
        b"\xa2B\xa2@\xa2>\xa2<\xa2:\xa28\xa26\xa24\xa22\xa20\xa2.\xa2,\xa2*\xa2(\xa2&\
          \xa2$\xa2\x22\xa2 \xa2\x1e\xa2\x1c\xa2\x1a\xa2\x18\xa2\x16\xa2\x14\xa2\x12\
          \xa2\x10\xa2\x0e\xa2\x0c\xa2\x0a\xa2\x08\xa2\x06\xa2\x04\x87\x02cn",
        64,
    ),
    (
        Kind::Filter,
        b"\xa2@\xa2>\xa2<\xa2:\xa28\xa26\xa24\xa22\xa20\xa2.\xa2,\xa2*\xa2(\xa2&\xa2$\
          \xa2\x22\xa2 \xa2\x1e\xa2\x1c\xa2\x1a\xa2\x18\xa2\x16\xa2\x14\xa2\x12\xa2\
          \x10\xa2\x0e\xa2\x0c\xa2\x0a\xa2\x08\xa2\x06\xa2\x04\xa2\x02\xa0\0",
        64,
    ),
    // numbers out of their range: 0, 128, -1, 2^32 + 1; one of no octet
    (Kind::Numbers, b"\x0a\x01\x05\x02\x01\0\x01\x01\xff", 3),
    (Kind::Numbers, b"\x0a\x01\x05\x02\x02\0\x80\x01\x01\xff", 3),
    (Kind::Numbers, b"\x0a\x01\x05\x02\x01\xff\x01\x01\xff", 3),
    (
        Kind::Numbers,
        b"\x0a\x01\x05\x02\x05\x01\0\0\0\x01\x01\x01\xff",
        3,
    ),
    (Kind::Numbers, b"\x0a\0\x02\x01\x03\x01\x01\xff", 0),
    (Kind::Numbers, b"\x0a\x01\x05\x02\x01\x03\x01\0", 6),
];

fn fault_of(alloc: Global, kind: Kind, bytes: &[u8]) -> Option<ComponentFault> {
    read(alloc, kind, bytes).err()
}

#[test]
fn refusals(rt: HostRuntime) {
    for (kind, bytes, place) in &REFUSED {
        let fault = fault_of(rt.alloc(), *kind, bytes);
        assert_same_of(&rt, bytes, &fault, &Some(ComponentFault::Refused(*place)));
    }
}
