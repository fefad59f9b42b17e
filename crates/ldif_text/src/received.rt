//! Entries as text, as they came from a server.
ghost use Rattle.std.specs.Prelude.{◌≡◌, ◌++◌, IfOk, OnOk};
ghost use Rattle.std.specs.List.{flat_map};
ghost use Rattle.ldif_text.specs.Received.{received_attribute_text, received_text};

use crate::written::push_line;
use ldap_ber::NoMemory;
use schema_rules::RawAttribute;
use std::alloc::Global;

/// An entry that came from a server as a record of LDIF, ended by an empty line: its name, and a
/// line for each value in the order in which they came, each type as it came (RFC 2849). Lines are
/// not folded. It is `NoMemory` where memory runs out.
#[tactic(auto, unfolding(crate::specs::Received::received_text))]
pub fn write_received(
    alloc: Global,
    name: &[u8],
    attributes: &[RawAttribute],
) -> Result<Vec<u8>, NoMemory>
    ensures { IfOk result (λ text. text.items ≡ received_text name.now attributes.now) }
{
    let mut text = Vec::new(alloc);
    push_line(alloc, &mut text, b"dn", name)?;
    push_received(alloc, &mut text, attributes)?;
    text.push(b'\n')?;
    Ok(text)
}

fn push_received(
    alloc: Global,
    text: &mut Vec<u8>,
    attributes: &[RawAttribute],
) -> Result<(), NoMemory>
    ensures { OnOk result (text.new.items
        ≡ text.old.items ++ flat_map received_attribute_text attributes.now) }
{
    for attribute in attributes {
        push_attribute(alloc, text, attribute)?;
    }
    Ok(())
}

fn push_attribute(
    alloc: Global,
    text: &mut Vec<u8>,
    attribute: &RawAttribute,
) -> Result<(), NoMemory>
    ensures { OnOk result (text.new.items
        ≡ text.old.items ++ received_attribute_text attribute.now) }
{
    let name = attribute.name.as_slice();
    for value in attribute.values.list() {
        push_line(alloc, text, name, value.as_slice())?;
    }
    Ok(())
}
