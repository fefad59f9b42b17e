//! Writes as they come in, read by the schema.
ghost use Rattle.std.specs.Prelude.{◌≡◌, true, false, None, Some, Ok, IfOk, IfErr, OnOk};
ghost use Rattle.std.specs.List.{list_all};
ghost use Rattle.std.specs.Result.{result_err};
ghost use Rattle.entry_writes.specs.Fault.{HasOpCode};
ghost use Rattle.entry_writes.specs.Reading as spec;
ghost use Rattle.entry_writes.specs.Sound as sound;
ghost use Rattle.entry_writes.specs.Sound.{is_sound_op, is_sound_edit, is_commit};

use crate::edit::{Edit, Edits};
use crate::fault::OpFault;
use crate::op::Op;
use dn_names::{Dn, NameFault, Rdn};
use ldap_ber::Octets;
use ldap_constants::{
    CONSTRAINT_VIOLATION, INVALID_ATTRIBUTE_SYNTAX, INVALID_DN_SYNTAX, UNDEFINED_ATTRIBUTE_TYPE,
};
use schema_rules::{AttributeType, Attrs, Change, EditList, How, RawEdit, are_of_syntax};
use std::alloc::Global;

/// Reads a write (RFC 4511, sections 4.6 to 4.9). The first code is reported: invalidDNSyntax where
/// a name is refused; then of each attribute or edit in order undefinedAttributeType where its name
/// names no type, constraintViolation where the type is operational, and invalidAttributeSyntax
/// where a value is not of the type's syntax, and also where what is added has no value; after all
/// of these attributeOrValueExists where two values of a type in an Add have one key. It is
/// `NoMemory` where memory runs out.
#[tactic(auto, unfolding(crate::specs::Reading::read_change))]
pub fn read_op(alloc: Global, change: &Change) -> Result<Op, OpFault>
    ensures ok { IfOk result (λ op. spec.read_change change.now ≡ Ok op) }
    ensures sound { IfOk result (λ op. is_sound_op op ≡ true) }
    ensures asked { IfOk result (λ op. is_commit op ≡ false) }
    ensures fault { IfErr result (HasOpCode (result_err (spec.read_change change.now))) }
{
    match change {
        Change::Add(name, raws) => {
            let dn = read_name(alloc, name)?;
            let attrs = Attrs::read(alloc, raws)?;
            Ok(Op::Add(dn, attrs))
        }
        Change::Delete(name) => {
            let dn = read_name(alloc, name)?;
            Ok(Op::Delete(dn))
        }
        Change::Modify(name, raws) => {
            let dn = read_name(alloc, name)?;
            let edits = read_edits(alloc, raws)?;
            Ok(Op::Modify(dn, edits))
        }
        Change::Rename(name, rdn, deletes, superior) => {
            let dn = read_name(alloc, name)?;
            let new_rdn = read_rdn(alloc, rdn)?;
            let above = read_superior(alloc, superior)?;
            Ok(Op::Rename(dn, new_rdn, *deletes, above))
        }
    }
}

fn read_name(alloc: Global, text: &Octets) -> Result<Dn, OpFault>
    ensures ok { IfOk result (λ dn. spec.read_name text.now ≡ Ok dn) }
    ensures fault { IfErr result (HasOpCode (result_err (spec.read_name text.now))) }
{
    match Dn::parse(alloc, text.as_slice()) {
        Ok(dn) => Ok(dn),
        Err(NameFault::NoMemory) => Err(OpFault::NoMemory),
        Err(NameFault::BadName(_) | NameFault::UnknownType(_) | NameFault::TooLong(_)) => {
            Err(OpFault::Code(INVALID_DN_SYNTAX))
        }
    }
}

fn read_rdn(alloc: Global, text: &Octets) -> Result<Rdn, OpFault>
    ensures ok { IfOk result (λ rdn. spec.read_rdn text.now ≡ Ok rdn) }
    ensures fault { IfErr result (HasOpCode (result_err (spec.read_rdn text.now))) }
{
    match Rdn::parse(alloc, text.as_slice()) {
        Ok(rdn) => Ok(rdn),
        Err(NameFault::NoMemory) => Err(OpFault::NoMemory),
        Err(NameFault::BadName(_) | NameFault::UnknownType(_) | NameFault::TooLong(_)) => {
            Err(OpFault::Code(INVALID_DN_SYNTAX))
        }
    }
}

fn read_superior(alloc: Global, text: &Option<Octets>) -> Result<Option<Dn>, OpFault>
    ensures ok { IfOk result (λ dn. spec.read_superior text.now ≡ Ok dn) }
    ensures fault { IfErr result (HasOpCode (result_err (spec.read_superior text.now))) }
{
    match text {
        None => Ok(None),
        Some(text) => Ok(Some(read_name(alloc, text)?)),
    }
}

fn read_edits(alloc: Global, raws: &EditList) -> Result<Edits, OpFault>
    ensures ok { IfOk result (λ edits. spec.read_edits raws.now ≡ Ok edits) }
    ensures sound { IfOk result (λ edits. list_all is_sound_edit edits ≡ true) }
    ensures fault { IfErr result (HasOpCode (result_err (spec.read_edits raws.now))) }
{
    let mut edits = Edits::new(alloc);
    for raw in raws.list() {
        let edit = read_edit(alloc, raw)?;
        edits.push(edit)?;
    }
    Ok(edits)
}

/// The edit with the type that is named, where nothing rejects it.
fn read_edit(alloc: Global, raw: &RawEdit) -> Result<Edit, OpFault>
    ensures typed { IfOk result (λ edit. spec.typed raw.now ≡ Some edit) }
    ensures sound { IfOk result (λ edit. is_sound_edit edit ≡ true) }
    ensures ok { OnOk result (spec.raw_code raw.now ≡ None) }
    ensures fault { IfErr result (HasOpCode (spec.raw_code raw.now)) }
{
    let Some(kind) = AttributeType::find(raw.attribute.name.as_slice()) else {
        return Err(OpFault::Code(UNDEFINED_ATTRIBUTE_TYPE));
    };
    if kind.operational() {
        return Err(OpFault::Code(CONSTRAINT_VIOLATION));
    }
    let values = raw.attribute.values.list();
    if !may_be_empty(raw.how) && values.is_empty() || !are_of_syntax(alloc, kind, values)? {
        return Err(OpFault::Code(INVALID_ATTRIBUTE_SYNTAX));
    }
    Ok(Edit {
        how: raw.how,
        kind,
        values: raw.attribute.values.copy()?,
    })
}

/// Whether an edit of this kind may come without values.
fn may_be_empty(how: How) -> bool
    ensures { result ≡ sound.may_be_empty how }
{
    match how {
        How::Add => false,
        How::Delete | How::Replace => true,
    }
}
