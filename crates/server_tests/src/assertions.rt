//! What the tests assert of each row of their tables.
use std::alloc::{AllocError, Global};
use std::fmt::Debug;
use std::process::Abort;

/// Asserts that what was found is what is wanted, or reports the row.
pub(crate) fn assert_same<T: PartialEq + Debug>(rt: &impl Abort, row: &str, found: &T, wanted: &T) {
    assert!(rt;
        *found == *wanted,
        "{row}: {found:?} in place of {wanted:?}"
    );
}

/// A value in words, by its `Debug`.
pub(crate) fn shown<T: Debug>(alloc: Global, value: &T) -> Result<String, AllocError> {
    format!(in alloc; "{value:?}")
}

/// The one text with the other after it.
pub(crate) fn joined(alloc: Global, one: &str, other: &str) -> Result<String, AllocError> {
    let mut text = one.to_string(alloc)?;
    text.push_str(other)?;
    Ok(text)
}
