//! The attributes of the entries of a drill.
ghost use Rattle.std.specs.Prelude.{◌≡◌, [], ◌∷◌, IfOk};
ghost use Rattle.drill_plan.specs.Names as spec;

use crate::kinds::{
    common_name, department_number, domain_component, object_class, organization_name,
    organizational_unit_name, surname,
};
use crate::naming::unit_text;
use ldap_ber::{NoMemory, Octets, OctetsList};
use schema_rules::{Attribute, AttributeType, Attrs};
use std::alloc::Global;

/// The attributes of the suffix.
pub(crate) fn suffix_attributes(alloc: Global) -> Result<Attrs, NoMemory>
    ensures { IfOk result (λ attrs. attrs ≡ spec.suffix_attributes) }
{
    Attrs::of(suffix_items(alloc)?)
}

fn suffix_items(alloc: Global) -> Result<Vec<Attribute>, NoMemory>
    ensures { IfOk result (λ items. items.items ≡ spec.suffix_attributes) }
{
    let mut items = Vec::with_capacity(alloc, 3)?;
    let mut classes = octets_of_one(alloc, b"organization")?;
    classes.push(Octets::from_slice(alloc, b"dcObject")?)?;
    items.push(Attribute {
        kind: object_class(),
        values: classes,
    })?;
    items.push(of_one(alloc, organization_name(), b"drill")?)?;
    items.push(of_one(alloc, domain_component(), b"drill")?)?;
    Ok(items)
}

/// The attributes of a writer's unit.
pub(crate) fn unit_attributes(alloc: Global, writer: u32) -> Result<Attrs, NoMemory>
    ensures { IfOk result (λ attrs. attrs ≡ spec.unit_attributes writer) }
{
    Attrs::of(unit_items(alloc, writer)?)
}

fn unit_items(alloc: Global, writer: u32) -> Result<Vec<Attribute>, NoMemory>
    ensures { IfOk result (λ items. items.items ≡ spec.unit_attributes writer) }
{
    let unit = unit_text(alloc, writer, false)?;
    let mut items = Vec::with_capacity(alloc, 2)?;
    items.push(of_one(alloc, object_class(), b"organizationalUnit")?)?;
    items.push(of_one(alloc, organizational_unit_name(), unit.as_bytes())?)?;
    Ok(items)
}

/// The attributes of an entry that is added in this step.
pub(crate) fn entry_attributes(
    alloc: Global,
    slot: usize,
    step: u32,
    kind: u64,
) -> Result<Attrs, NoMemory>
    ensures { IfOk result (λ attrs. attrs ≡ spec.entry_attributes slot step kind) }
{
    Attrs::of(entry_items(alloc, slot, step, kind)?)
}

fn entry_items(alloc: Global, slot: usize, step: u32, kind: u64) -> Result<Vec<Attribute>, NoMemory>
    ensures { IfOk result (λ items. items.items ≡ spec.entry_attributes slot step kind) }
{
    let name = format!(in alloc; "e{slot}")?;
    let step = format!(in alloc; "{step}")?;
    let kind = format!(in alloc; "{kind}")?;
    let mut items = Vec::with_capacity(alloc, 4)?;
    items.push(of_one(alloc, object_class(), b"inetOrgPerson")?)?;
    items.push(of_one(alloc, common_name(), name.as_bytes())?)?;
    items.push(of_one(alloc, surname(), step.as_bytes())?)?;
    items.push(of_one(alloc, department_number(), kind.as_bytes())?)?;
    Ok(items)
}

/// An attribute with one value.
fn of_one(alloc: Global, kind: AttributeType, value: &[u8]) -> Result<Attribute, NoMemory>
    ensures { IfOk result (λ attribute. attribute ≡ spec.of_one kind value.now) }
{
    Ok(Attribute {
        kind,
        values: octets_of_one(alloc, value)?,
    })
}

/// A list of one string.
pub(crate) fn octets_of_one(alloc: Global, value: &[u8]) -> Result<OctetsList, NoMemory>
    ensures { IfOk result (λ values. values ≡ value.now ∷ []) }
{
    Ok(OctetsList::of_one(alloc, Octets::from_slice(alloc, value)?))
}
