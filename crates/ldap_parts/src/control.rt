//! Controls of a message (RFC 4511, section 4.1.11).
//!
//! ```text
//! Controls ::= SEQUENCE OF control Control
//!
//! Control ::= SEQUENCE {
//!      controlType             LDAPOID,
//!      criticality             BOOLEAN DEFAULT FALSE,
//!      controlValue            OCTET STRING OPTIONAL }
//! ```

ghost use Rattle.std.specs.Prelude.{◌≡◌, ◌<◌, [], ◌∷◌, ◌++◌, false, length, Ok, IfOk, OnOk, OnErr};
ghost use Rattle.std.specs.List.{flat_map};
ghost use Rattle.std.specs.Option.{option_copied};
ghost use Rattle.ldap_ber.specs.Canonical.{element, flag_octets};
ghost use Rattle.ldap_ber.specs.Reading.{many_at};
ghost use Rattle.ldap_ber.specs.Writer.{after_bytes};
ghost use Rattle.ldap_ber.specs.Gives.{Gives};
ghost use Rattle.ldap_parts.specs.Faults.{ComponentFails};
ghost use Rattle.ldap_parts.specs.Components.{string_octets};
ghost use Rattle.ldap_parts.specs.Controls.{control_at, control_named, controls_at, control_octets, controls_octets};

use crate::component::{octet_string_of, option_of, put_option};
use crate::fault::ComponentFault;
use ldap_ber::{NoMemory, Octets, Reader, Writer};
use std::alloc::Global;
use std::marker::Model;

/// A control (RFC 4511, section 4.1.11).
#[derive(Drop)]
pub struct Control {
    /// The control's object identifier.
    pub name: Octets,
    pub critical: bool,
    pub value: Option<Octets>,
}

/// A list of controls.
#[derive(Drop)]
pub struct ControlList {
    items: Vec<Control>,
}

impl Model for ControlList {
    ghost use Rattle.std.specs.Prelude.{List};
    ghost use Rattle.ldap_parts.specs.declared.control.Control.{Control};

    ghost Value = { List Control };

    ghost view = { λ l. l.items.items };
}

impl ControlList {
    /// Makes a list without controls.
    pub fn new(alloc: Global) -> ControlList
        ensures { result ≡ [] }
    {
        ControlList {
            items: Vec::new(alloc),
        }
    }

    /// Makes an empty list with room for n controls. It is `NoMemory` where memory runs out.
    pub fn with_room(alloc: Global, count: usize) -> Result<ControlList, NoMemory>
        ensures { IfOk result (λ list. list ≡ []) }
    {
        let items = Vec::with_capacity(alloc, count)?;
        Ok(ControlList { items })
    }

    /// Puts the control at the end. It is `NoMemory` where memory runs out, and the list is as
    /// before.
    pub fn push(&mut self, item: Control) -> Result<(), NoMemory>
        ensures ok { OnOk result (self.new ≡ self.old ++ item ∷ []) }
        ensures err { OnErr result (self.new ≡ self.old) }
    {
        self.items.push(item)?;
        Ok(())
    }

    /// Lends the controls, in their order.
    pub fn list(&self) -> &[Control]
        ensures { result.now ≡ self.now }
    {
        self.items.as_slice()
    }
}

/// The first control of this name, where there is one.
pub fn control_named<'a>(controls: &'a [Control], name: &[u8]) -> Option<&'a Control>
    ensures { option_copied result ≡ control_named name.now controls.now }
{
    controls
        .iter()
        .find(|control| control.name.as_slice() == name)
}

/// The controls of a message, where they come next, or none (RFC 4511, section 4.1.11). Else it is
/// `Refused` with the place of the first element that is not so, or `NoMemory`, and the reader is
/// as before.
pub fn controls_of(alloc: Global, reader: &mut Reader) -> Result<ControlList, ComponentFault>
    ensures exact { Gives ComponentFails (λ controls. Ok (controls, reader.new.left)) result
        (controls_at reader.old.stop reader.old.left) }
    ensures stop { reader.new.stop ≡ reader.old.stop }
    ensures err { OnErr result (reader.new ≡ reader.old) }
{
    if !reader.has(0xA0) {
        return Ok(ControlList::new(alloc));
    }
    let mut ahead = reader.copy();
    let whole = ahead.expect(0xA0)?;
    let mut inner = Reader::inside(&whole);
    let controls = controls_in(alloc, &mut inner)?;
    *reader = ahead;
    Ok(controls)
}

/// The controls that are left.
#[tactic(auto, using(crate::proofs::ControlLemmas::controls_go_on, crate::proofs::ControlLemmas::controls_fail, crate::proofs::ControlLemmas::controls_end))]
fn controls_in(alloc: Global, reader: &mut Reader) -> Result<ControlList, ComponentFault>
    ensures { Gives ComponentFails (λ controls. Ok controls) result
        (many_at control_at reader.old.stop reader.old.left) }
{
    let room = reader.count().unwrap_or(0);
    let mut controls = ControlList::with_room(alloc, room)?;
    while !reader.is_empty() {
        let control = control_of(alloc, reader)?;
        controls.push(control)?;
    }
    Ok(controls)
}

/// The control that comes next.
#[tactic(auto, unfolding(crate::specs::Controls::control_at))]
fn control_of(alloc: Global, reader: &mut Reader) -> Result<Control, ComponentFault>
    ensures exact { Gives ComponentFails (λ control. Ok (control, reader.new.left)) result
        (control_at reader.old.stop reader.old.left) }
    ensures stop { reader.new.stop ≡ reader.old.stop }
    ensures shorter { OnOk result (length reader.new.left < length reader.old.left) }
{
    let whole = reader.expect(0x30)?;
    let mut inner = Reader::inside(&whole);
    let name = octet_string_of(alloc, &mut inner, 0x04)?;
    let critical = inner.boolean_or(0x01, false)?;
    let value = option_of(alloc, &mut inner, 0x04)?;
    inner.skip()?;
    Ok(Control {
        name,
        critical,
        value,
    })
}

/// Writes the controls of a message (RFC 4511, section 4.1.11), where there are any. It is
/// `NoMemory` where memory runs out, and the writer is as before.
pub fn put_controls(writer: &mut Writer, controls: &[Control]) -> Result<(), NoMemory>
    ensures ok { OnOk result
        (writer.new ≡ after_bytes writer.old (controls_octets controls.now)) }
    ensures err { OnErr result (writer.new ≡ writer.old) }
{
    match controls {
        [] => Ok(()),
        [_, ..] => {
            writer.begin(0xA0)?;
            let body = put_each(writer, controls);
            writer.end_after(body)
        }
    }
}

fn put_each(writer: &mut Writer, controls: &[Control]) -> Result<(), NoMemory>
    ensures ok { OnOk result
        (writer.new ≡ after_bytes writer.old (flat_map control_octets controls.now)) }
    ensures opened { OnErr result (writer.new.opened ≡ writer.old.opened) }
{
    for control in controls {
        put_control(writer, control)?;
    }
    Ok(())
}

#[tactic(auto, unfolding(crate::specs::Controls::control_octets))]
fn put_control(writer: &mut Writer, control: &Control) -> Result<(), NoMemory>
    ensures ok { OnOk result (writer.new ≡ after_bytes writer.old (control_octets control.now)) }
    ensures err { OnErr result (writer.new ≡ writer.old) }
{
    writer.begin(0x30)?;
    let body = put_body(writer, control);
    writer.end_after(body)
}

fn put_body(writer: &mut Writer, control: &Control) -> Result<(), NoMemory>
    ensures ok { OnOk result (writer.new ≡ after_bytes writer.old
        (element 4 control.now.name
        ++ (flag_octets 1 false control.now.critical ++ string_octets 4 control.now.value))) }
    ensures opened { OnErr result (writer.new.opened ≡ writer.old.opened) }
{
    writer.octets(0x04, control.name.as_slice())?;
    writer.boolean_unless(0x01, false, control.critical)?;
    put_option(writer, 0x04, &control.value)
}
