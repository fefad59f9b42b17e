//! Attributes with their weight.
ghost use Rattle.std.specs.Prelude.{◌≡◌, ◌-◌, ◌^◌, min, IfOk};
ghost use Rattle.schema_rules.specs.Attributes as spec;

use crate::attributes::Attribute;
use ldap_ber::NoMemory;
use std::alloc::AllocError;
use std::marker::Model;
use std::sync::Arc;

/// Attributes and their weight, which is summed once.
#[derive(Drop)]
pub(crate) struct Weighed {
    items: Vec<Attribute>,
    weight: u64,
}

/// Contracts see the attributes.
impl Model for Weighed {
    ghost use Rattle.std.specs.Prelude.{◌≡◌, ◌-◌, ◌^◌, min, List};
    ghost use Rattle.schema_rules.specs.declared.attributes.Attribute.{Attribute};
    ghost use Rattle.schema_rules.specs.Attributes.{weight_of};

    ghost Value = { List Attribute };

    ghost view = { λ w. w.items.items };

    ghost invariant = { λ w. w.weight ≡ min (weight_of w.items.items) (2 ^ 64 - 1) };
}

impl Weighed {
    /// The attributes, as lists can share them.
    pub(crate) fn shared(items: Vec<Attribute>) -> Result<Arc<Weighed>, NoMemory>
        ensures { IfOk result (λ weighed. weighed.value ≡ items.items) }
    {
        let alloc = *items.allocator();
        let weight = weight_of(items.as_slice());
        match Arc::new(alloc, Weighed { items, weight }) {
            Ok(weighed) => Ok(weighed),
            Err(_) => Err(AllocError),
        }
    }

    pub(crate) fn items(&self) -> &[Attribute]
        ensures { result.now ≡ self.now }
    {
        self.items.as_slice()
    }

    pub(crate) fn weight(&self) -> u64
        ensures { result ≡ min (spec.weight_of self.now) (2 ^ 64 - 1) }
    {
        self.weight
    }
}

/// The weights of the attributes, summed as far as the numbers go.
fn weight_of(attributes: &[Attribute]) -> u64
    ensures { result ≡ min (spec.weight_of attributes.now) (2 ^ 64 - 1) }
{
    let mut total: u64 = 0;
    for attribute in attributes {
        total = total.saturating_add(attribute.weight());
    }
    total
}
