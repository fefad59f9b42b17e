//! Values that are dropped through their bound.

/// Drops a value through its bound: the many cases of a message are gone through once, in the drop
/// of their type, and not wherever one is dropped.
pub fn discard<T: Drop>(_value: T) {}
