//! Filters as they are held (RFC 4511, section 4.5.1.7).
ghost use Rattle.std.specs.Prelude.{◌≡◌, [], ◌∷◌, ◌++◌, true, IfOk, OnOk, OnErr};
ghost use Rattle.ldap_filter.specs.Pieces.{has_piece};

use crate::equality::Equality;
use ldap_ber::{NoMemory, Octets, OctetsList};
use std::alloc::Global;

/// A search filter. An item has the name of an attribute type, and but for `Present` a value.
#[cycle(filter)]
#[derive(Drop)]
pub enum Filter {
    And(FilterList),
    Or(FilterList),
    Not(Box<Filter>),
    Equal(Equality),
    Substrings(Octets, Pieces),
    AtLeast(Octets, Octets),
    AtMost(Octets, Octets),
    Present(Octets),
    Approx(Equality),
    /// The body of the element of an extensible match, as it came.
    Extensible(Octets),
}

impl Filter {
    ghost use Rattle.ldap_filter.specs.FilterTree.{approx, equal, tree_of};

    /// Makes the equality of this name and value. It is `NoMemory` where memory runs out.
    pub fn equality(alloc: Global, name: Octets, value: Octets) -> Result<Filter, NoMemory>
        ensures { IfOk result (λ filter. tree_of filter ≡ equal name value) }
    {
        let equality = Equality::new(alloc, name, value)?;
        Ok(Filter::Equal(equality))
    }

    /// Makes the approximate match of this name and value. It is `NoMemory` where memory runs out.
    pub fn approximation(alloc: Global, name: Octets, value: Octets) -> Result<Filter, NoMemory>
        ensures { IfOk result (λ filter. tree_of filter ≡ approx name value) }
    {
        let equality = Equality::new(alloc, name, value)?;
        Ok(Filter::Approx(equality))
    }
}

/// The pieces of a value, one at least.
pub struct Pieces {
    /// What the value begins with.
    pub initial: Option<Octets>,
    /// What the value holds after that, in order.
    pub middle: OctetsList,
    /// What the value ends with, after all others.
    pub last: Option<Octets>,
    ghost some: { has_piece initial middle last ≡ true },
}

/// A call of its own, so that what drops the pieces is one step.
impl Drop for Pieces {
    fn drop(self) {
        let Pieces {
            initial: _initial,
            middle: _middle,
            last: _last,
        } = self;
    }
}

/// A list of filters.
#[cycle(filter)]
#[derive(Drop)]
pub struct FilterList {
    pub(crate) items: Vec<Filter>,
}

impl FilterList {
    ghost use Rattle.ldap_filter.specs.FilterTree.{parts_of};

    /// Makes a list without filters.
    pub fn new(alloc: Global) -> FilterList
        ensures { parts_of result ≡ [] }
    {
        FilterList {
            items: Vec::new(alloc),
        }
    }

    /// Makes an empty list with room for n filters. It is `NoMemory` where memory runs out.
    pub fn with_room(alloc: Global, count: usize) -> Result<FilterList, NoMemory>
        ensures { IfOk result (λ list. parts_of list ≡ []) }
    {
        let items = Vec::with_capacity(alloc, count)?;
        Ok(FilterList { items })
    }

    /// Puts the filter at the end. It is `NoMemory` where memory runs out, and the list is as
    /// before.
    pub fn push(&mut self, item: Filter) -> Result<(), NoMemory>
        ensures ok { OnOk result (parts_of self.new ≡ parts_of self.old ++ item ∷ []) }
        ensures err { OnErr result (parts_of self.new ≡ parts_of self.old) }
    {
        self.items.push(item)?;
        Ok(())
    }

    /// Lends the filters, in their order.
    pub fn list(&self) -> &[Filter]
        ensures { result.now ≡ parts_of self.now }
    {
        self.items.as_slice()
    }
}
