//! The attribute types of the entries of a drill.
ghost use Rattle.std.specs.Prelude.{◌≡◌, Some, is_some, true};
ghost use Rattle.schema_rules.specs.Schema.{type_named};
ghost use Rattle.drill_plan.specs.Names as spec;

use schema_rules::AttributeType;

pub(crate) fn object_class() -> AttributeType
    ensures { result ≡ spec.object_class }
{
    type_of(b"objectClass")
}

pub(crate) fn common_name() -> AttributeType
    ensures { result ≡ spec.common_name }
{
    type_of(b"cn")
}

pub(crate) fn surname() -> AttributeType
    ensures { result ≡ spec.surname }
{
    type_of(b"sn")
}

pub(crate) fn organizational_unit_name() -> AttributeType
    ensures { result ≡ spec.unit_name_type }
{
    type_of(b"ou")
}

pub(crate) fn organization_name() -> AttributeType
    ensures { result ≡ spec.organization_name }
{
    type_of(b"o")
}

pub(crate) fn domain_component() -> AttributeType
    ensures { result ≡ spec.domain_component }
{
    type_of(b"dc")
}

pub(crate) fn department_number() -> AttributeType
    ensures { result ≡ spec.department_number }
{
    type_of(b"departmentNumber")
}

/// The type of this name, which names one.
fn type_of(name: &[u8]) -> AttributeType
    requires { is_some (type_named name.now) ≡ true }
    ensures { type_named name.now ≡ Some result }
{
    match AttributeType::find(name) {
        Some(kind) => kind,
        None => unreachable!(),
    }
}
