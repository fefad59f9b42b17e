//! Values in memory of their own.
ghost use Rattle.std.specs.Prelude.{◌≡◌, None, Some, IfOk};

use ldap_ber::NoMemory;
use std::alloc::Global;
use std::marker::Model;

/// Nothing, or a value in memory of its own, so that what has it is as small to move with it as
/// without it.
#[derive(Drop)]
pub struct Aside<T> {
    place: Option<Box<T>>,
}

/// Contracts see the value.
impl<T> Model for Aside<T> {
    ghost use Rattle.std.specs.Prelude.{Option, option_map};

    ghost Value = { Option T };

    ghost view = { λ a. option_map (λ b. b.value) a.place };
}

impl<T: Drop> Aside<T> {
    /// Nothing, which takes no memory.
    pub fn nothing() -> Aside<T>
        ensures { result ≡ None }
    {
        Aside { place: None }
    }

    /// This value. It is `NoMemory` where memory runs out.
    pub fn of(alloc: Global, value: T) -> Result<Aside<T>, NoMemory>
        ensures { IfOk result (λ aside. aside ≡ Some value) }
    {
        let place = Box::new(alloc, value)?;
        Ok(Aside { place: Some(place) })
    }

    /// The value, out of its memory.
    pub fn into_inner(self) -> Option<T>
        ensures { result ≡ self }
    {
        match self.place {
            Some(place) => Some(Box::into_inner(place)),
            None => None,
        }
    }
}
