//! Lists of attributes (RFC 4512, section 2.2).
ghost use Rattle.std.specs.Prelude.{◌≡◌, ◌-◌, ◌^◌, ◌==◌, true, [], min, position, Ok, None, Some, IfOk, IfErr, OnOk, OnErr};
ghost use Rattle.std.specs.List.{AllPass, filter_map, list_any, list_all};
ghost use Rattle.std.specs.Result.{result_err};
ghost use Rattle.schema_rules.specs.Attributes as spec;
ghost use Rattle.schema_rules.specs.Fault.{HasCode};
ghost use Rattle.schema_rules.specs.Keys as key_specs;
ghost use Rattle.schema_rules.specs.Schema.{type_name, type_named};

use crate::fault::SchemaFault;
use crate::keys::{are_of_syntax, keys_of};
use crate::raw::{RawAttribute, RawList};
use crate::types::AttributeType;
use crate::weighed::Weighed;
use ldap_ber::{NoMemory, Octets, OctetsList};
use ldap_constants::{
    ATTRIBUTE_OR_VALUE_EXISTS, CONSTRAINT_VIOLATION, INVALID_ATTRIBUTE_SYNTAX,
    UNDEFINED_ATTRIBUTE_TYPE,
};
use std::alloc::Global;
use std::marker::Model;
use std::sync::Arc;

/// The values of one type, in the order held.
#[derive(Drop)]
pub struct Attribute {
    pub kind: AttributeType,
    pub values: OctetsList,
}

impl Attribute {
    /// Makes the same type and values a second time. It is `NoMemory` where memory runs out.
    pub fn copy(&self) -> Result<Attribute, NoMemory>
        ensures { IfOk result (λ attribute. attribute ≡ self.now) }
    {
        Ok(Attribute {
            kind: self.kind,
            values: self.values.copy()?,
        })
    }

    /// The length of each value and of the type's name, summed, as far as the numbers go.
    pub(crate) fn weight(&self) -> u64
        ensures { result
            ≡ min (spec.values_weight (type_name self.now.kind) self.now.values) (2 ^ 64 - 1) }
    {
        let name = self.kind.name().len() as u64;
        let mut total: u64 = 0;
        for value in self.values.list() {
            total = total
                .saturating_add(name)
                .saturating_add(value.as_slice().len() as u64);
        }
        total
    }
}

/// The attributes of an entry: each type once, and none without values. A copy shares them.
pub struct Attrs {
    /// Nothing where there was no attribute yet.
    shared: Option<Arc<Weighed>>,
}

/// A call of its own, so that what drops a list does not ask whether there is an attribute.
impl Drop for Attrs {
    #[inline(always)]
    fn drop(self) {
        let Attrs { shared: _shared } = self;
    }
}

impl Model for Attrs {
    ghost use Rattle.std.specs.Prelude.{List};
    ghost use Rattle.schema_rules.specs.declared.attributes.Attribute.{Attribute};
    ghost use Rattle.schema_rules.specs.Attributes.{IsAttributeList};
    ghost use Rattle.schema_rules.specs.Sharing.{attributes_in};

    ghost Value = { List Attribute };

    ghost view = { λ a. attributes_in a.shared };

    ghost invariant = { λ a. IsAttributeList (attributes_in a.shared) };
}

impl Attrs {
    /// Makes a list without attributes, which takes no memory.
    pub fn new(_alloc: Global) -> Attrs
        ensures { result ≡ [] }
    {
        Attrs { shared: None }
    }

    /// The list of these attributes, which takes them over. It is `NoMemory` where memory runs out.
    pub fn of(items: Vec<Attribute>) -> Result<Attrs, NoMemory>
        requires { spec.IsAttributeList items.items }
        ensures { IfOk result (λ attrs. attrs ≡ items.items) }
    {
        let weighed = Weighed::shared(items)?;
        Ok(Attrs {
            shared: Some(weighed),
        })
    }

    /// Lends the attributes, in the order held: each type once, and none without values.
    pub fn list(&self) -> &[Attribute]
        ensures value { result.now ≡ self.now }
        ensures sound { spec.IsAttributeList self.now }
    {
        match &self.shared {
            Some(weighed) => weighed.items(),
            None => &[],
        }
    }

    /// The same attributes, shared with this list. It is `NoMemory` where no more copies can be
    /// counted.
    pub fn copy(&self) -> Result<Attrs, NoMemory>
        ensures { IfOk result (λ attrs. attrs ≡ self.now) }
    {
        let shared = match &self.shared {
            Some(weighed) => Some(weighed.clone()?),
            None => None,
        };
        Ok(Attrs { shared })
    }

    /// The length of each value and of its type's name, summed. The greatest number stands for all
    /// sums above it.
    pub fn weight(&self) -> u64
        ensures { result ≡ min (spec.weight_of self.now) (2 ^ 64 - 1) }
    {
        match &self.shared {
            Some(weighed) => weighed.weight(),
            None => 0,
        }
    }

    /// Reads attributes as they came (RFC 4512, section 2.2). Those of one type are joined in
    /// order, at the place of the first. The codes, the first of which is reported: of each
    /// attribute in order undefinedAttributeType where its name names no type, constraintViolation
    /// where the type is operational, and invalidAttributeSyntax where it has no value or a value
    /// that is not of the type's syntax; and after all of these attributeOrValueExists where two
    /// values of a type have one key. It is `NoMemory` where memory runs out.
    #[tactic(auto, unfolding(crate::specs::Attributes::read_attributes))]
    pub fn read(alloc: Global, raw: &RawList) -> Result<Attrs, SchemaFault>
        ensures ok { IfOk result (λ attrs. spec.read_attributes raw.now ≡ Ok attrs) }
        ensures fault { IfErr result (HasCode (result_err (spec.read_attributes raw.now))) }
        ensures sound { IfOk result (AllPass spec.is_sound) }
    {
        let items = joined(alloc, raw.list())?;
        if any_repeats(alloc, &items)? {
            return Err(SchemaFault::Code(ATTRIBUTE_OR_VALUE_EXISTS));
        }
        Ok(Attrs::of(items)?)
    }
}

/// One attribute for each type, where nothing rejects any attribute by itself.
fn joined(alloc: Global, raws: &[RawAttribute]) -> Result<Vec<Attribute>, SchemaFault>
    ensures ok { IfOk result (λ items. items.items ≡ spec.joined (filter_map spec.typed raws.now)) }
    ensures none { OnOk result (spec.first_code raws.now ≡ None) }
    ensures list { IfOk result (λ items. spec.IsAttributeList items.items) }
    ensures given { IfOk result (λ items. list_all spec.is_given items.items ≡ true) }
    ensures fault { IfErr result (HasCode (spec.first_code raws.now)) }
{
    let mut items = Vec::with_capacity(alloc, raws.len())?;
    for raw in raws {
        let kind = checked_type(alloc, raw)?;
        let values = raw.values.copy()?;
        add_values(&mut items, kind, values)?;
    }
    Ok(items)
}

/// Whether some attribute has two values that are equal.
fn any_repeats(alloc: Global, attributes: &[Attribute]) -> Result<bool, NoMemory>
    ensures { IfOk result (λ repeats. repeats ≡ list_any spec.repeats_value attributes.now) }
{
    for attribute in attributes {
        if repeats_value(alloc, attribute)? {
            return Ok(true);
        }
    }
    Ok(false)
}

/// The type of an attribute as it came, where nothing rejects the attribute by itself.
fn checked_type(alloc: Global, raw: &RawAttribute) -> Result<AttributeType, SchemaFault>
    ensures kind { IfOk result (λ kind. type_named raw.now.name ≡ Some kind) }
    ensures ok { OnOk result (spec.raw_code raw.now ≡ None) }
    ensures fault { IfErr result (HasCode (spec.raw_code raw.now)) }
{
    let Some(kind) = AttributeType::find(raw.name.as_slice()) else {
        return Err(SchemaFault::Code(UNDEFINED_ATTRIBUTE_TYPE));
    };
    if kind.operational() {
        return Err(SchemaFault::Code(CONSTRAINT_VIOLATION));
    }
    let values = raw.values.list();
    if values.is_empty() || !are_of_syntax(alloc, kind, values)? {
        return Err(SchemaFault::Code(INVALID_ATTRIBUTE_SYNTAX));
    }
    Ok(kind)
}

/// Whether some attribute is of the type.
pub fn has_kind(attributes: &[Attribute], kind: AttributeType) -> bool
    ensures { result ≡ spec.has_kind attributes.now kind }
{
    attributes.iter().any(|attribute| attribute.kind == kind)
}

/// Puts values of a type, which it takes over, after its other values, or after all attributes.
/// After an `Err` the list is as before. It is `NoMemory` where memory runs out.
pub fn add_values(
    attributes: &mut Vec<Attribute>,
    kind: AttributeType,
    values: OctetsList,
) -> Result<(), NoMemory>
    ensures ok { OnOk result
        (attributes.new.items ≡ spec.with_values attributes.old.items kind values) }
    ensures err { OnErr result (attributes.new.items ≡ attributes.old.items) }
{
    if let Some(place) = place_of(attributes, kind) {
        return attributes[place].values.append(values);
    }
    attributes.push(Attribute { kind, values })?;
    Ok(())
}

fn place_of(attributes: &[Attribute], kind: AttributeType) -> Option<usize>
    ensures { result ≡ position (λ a. a.kind == kind) attributes.now }
{
    attributes
        .iter()
        .position(|attribute| attribute.kind == kind)
}

/// Whether two values of the attribute are equal.
fn repeats_value(alloc: Global, attribute: &Attribute) -> Result<bool, NoMemory>
    ensures { IfOk result (λ repeats. repeats ≡ spec.repeats_value attribute.now) }
{
    has_equal_values(alloc, attribute.kind, attribute.values.list())
}

/// Whether two of the values have one key. A value alone needs none. It is `NoMemory` where memory
/// runs out.
pub fn has_equal_values(
    alloc: Global,
    kind: AttributeType,
    values: &[Octets],
) -> Result<bool, NoMemory>
    ensures { IfOk result (λ equal.
        equal ≡ spec.has_duplicates (key_specs.keys_of kind values.now)) }
{
    if values.len() < 2 {
        return Ok(false);
    }
    let keys = keys_of(alloc, kind, values)?;
    Ok(has_duplicates(&keys))
}

/// Whether a key comes twice.
pub fn has_duplicates(keys: &[Octets]) -> bool
    ensures { result ≡ spec.has_duplicates keys.now }
{
    let mut rest = keys;
    while let Some((key, later)) = rest.split_first() {
        if later.contains(key) {
            return true;
        }
        rest = later;
    }
    false
}
