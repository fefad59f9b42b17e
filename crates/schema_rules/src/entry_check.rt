//! What the schema asks of a whole entry (RFC 4512, section 2.4).
ghost use Rattle.std.specs.Prelude.{◌≡◌, ◌++◌, None, codes, filter, map, IfOk, IfErr, OnOk};
ghost use Rattle.std.specs.List.{list_any, list_all, filter_map, flat_map};
ghost use Rattle.schema_rules.specs.Attributes as spec;
ghost use Rattle.schema_rules.specs.Fault.{HasCode};
ghost use Rattle.schema_rules.specs.Schema.{class_named, line_of, is_structural, type_name};

use crate::attributes::{Attribute, Attrs};
use crate::classes::{ObjectClass, push_line};
use crate::fault::SchemaFault;
use ldap_ber::{NoMemory, Octets};
use ldap_constants::{CONSTRAINT_VIOLATION, OBJECT_CLASS_VIOLATION};
use std::alloc::Global;

/// Refuses attributes that no entry may have: constraintViolation where a single-valued type has
/// more than one value, else objectClassViolation where objectClass or a structural class is
/// missing, where the structural classes given are not on one line of superiors, where a type that
/// a class asks for is missing, or where no class allows a type. The superiors of a class count as
/// given. It is `NoMemory` where memory runs out.
#[tactic(auto, unfolding(crate::specs::Attributes::entry_code))]
pub fn check_entry(alloc: Global, attrs: &Attrs) -> Result<(), SchemaFault>
    ensures ok { OnOk result (spec.entry_code attrs.now ≡ None) }
    ensures fault { IfErr result (HasCode (spec.entry_code attrs.now)) }
{
    let attributes = attrs.list();
    if has_crowded(attributes) {
        return Err(SchemaFault::Code(CONSTRAINT_VIOLATION));
    }
    let given = classes_given(alloc, attributes)?;
    let structural = structural_of(alloc, &given)?;
    let classes = with_superiors(alloc, &given)?;
    if conforms(attributes, &structural, &classes) {
        Ok(())
    } else {
        Err(SchemaFault::Code(OBJECT_CLASS_VIOLATION))
    }
}

/// Whether the entry has what its classes ask for, and no more than they allow.
fn conforms(attributes: &[Attribute], structural: &[ObjectClass], classes: &[ObjectClass]) -> bool
    ensures { result ≡ spec.conforms attributes.now structural.now classes.now }
{
    has_type(attributes, OBJECT_CLASS)
        && !structural.is_empty()
        && is_one_line(structural)
        && has_required(attributes, classes)
        && has_only_allowed(attributes, classes)
}

const OBJECT_CLASS: &[u8] = b"objectClass";

/// Whether a single-valued type has more than one value.
fn has_crowded(attributes: &[Attribute]) -> bool
    ensures { result ≡ list_any spec.is_crowded attributes.now }
{
    attributes.iter().any(|attribute| attribute.kind.single() && attribute.values.list().len() > 1)
}

fn has_type(attributes: &[Attribute], name: &[u8]) -> bool
    ensures { result ≡ spec.has_type attributes.now name.now }
{
    attributes
        .iter()
        .any(|attribute| attribute.kind.name() == name)
}

/// The classes that the values of objectClass name.
fn classes_given(alloc: Global, attributes: &[Attribute]) -> Result<Vec<ObjectClass>, NoMemory>
    ensures { IfOk result (λ classes. classes.items ≡ spec.classes_given attributes.now) }
{
    let mut classes = Vec::new(alloc);
    for attribute in attributes {
        if attribute.kind.name() == OBJECT_CLASS {
            push_classes(&mut classes, attribute.values.list())?;
        }
    }
    Ok(classes)
}

/// Puts the classes that these values name at the end.
fn push_classes(classes: &mut Vec<ObjectClass>, values: &[Octets]) -> Result<(), NoMemory>
    ensures { OnOk result
        (classes.new.items ≡ classes.old.items ++ filter_map class_named values.now) }
{
    for value in values {
        if let Some(class) = ObjectClass::find(value.as_slice()) {
            classes.push(class)?;
        }
    }
    Ok(())
}

fn structural_of(alloc: Global, classes: &[ObjectClass]) -> Result<Vec<ObjectClass>, NoMemory>
    ensures { IfOk result (λ structural. structural.items ≡ filter is_structural classes.now) }
{
    classes
        .iter()
        .copied()
        .filter(|class| class.is_structural())
        .collect(alloc)
}

/// Each class with its superiors after it.
fn with_superiors(alloc: Global, classes: &[ObjectClass]) -> Result<Vec<ObjectClass>, NoMemory>
    ensures { IfOk result (λ all. all.items ≡ flat_map line_of classes.now) }
{
    let mut all = Vec::new(alloc);
    for class in classes {
        push_line(&mut all, *class)?;
    }
    Ok(all)
}

/// Whether of each two classes one is a superior of the other, or they are the same.
fn is_one_line(classes: &[ObjectClass]) -> bool
    ensures { result ≡ spec.is_one_line classes.now }
{
    classes.iter().all(|one| is_on_line_of_each(*one, classes))
}

fn is_on_line_of_each(one: ObjectClass, classes: &[ObjectClass]) -> bool
    ensures { result ≡ list_all (spec.is_on_line one) classes.now }
{
    classes
        .iter()
        .all(|two| one.is_at_or_below(*two) || two.is_at_or_below(one))
}

/// Whether each type is there that a class asks for.
fn has_required(attributes: &[Attribute], classes: &[ObjectClass]) -> bool
    ensures { result ≡ spec.has_required attributes.now classes.now }
{
    classes
        .iter()
        .all(|class| has_each(attributes, class.required()))
}

fn has_each(attributes: &[Attribute], names: &[&[u8]]) -> bool
    ensures { result ≡ list_all (spec.has_type attributes.now) (map (λ n. n.now) names.now) }
{
    for name in names {
        if !has_type(attributes, name) {
            return false;
        }
    }
    true
}

/// Whether some class allows each type.
fn has_only_allowed(attributes: &[Attribute], classes: &[ObjectClass]) -> bool
    ensures { result
        ≡ list_all (λ a. spec.is_allowed classes.now (type_name a.kind)) attributes.now }
{
    attributes
        .iter()
        .all(|attribute| is_allowed(classes, attribute.kind.name()))
}

fn is_allowed(classes: &[ObjectClass], name: &[u8]) -> bool
    ensures { result ≡ spec.is_allowed classes.now name.now }
{
    classes.iter().any(|class| class.allows(name))
}
