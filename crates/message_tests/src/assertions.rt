//! What the tests assert of each row of their tables.
use std::fmt::Debug;
use std::process::Abort;

/// Asserts that what was found is what is wanted, or reports the row.
pub(crate) fn assert_same<T: PartialEq + Debug>(rt: &impl Abort, row: &str, found: &T, wanted: &T) {
    assert!(rt;
        *found == *wanted,
        "{row}: {found:?} in place of {wanted:?}"
    );
}

/// The same of a row that is reported by its bytes.
pub(crate) fn assert_same_of<T: PartialEq + Debug>(
    rt: &impl Abort,
    row: &[u8],
    found: &T,
    wanted: &T,
) {
    assert!(rt;
        *found == *wanted,
        "{row:?}: {found:?} in place of {wanted:?}"
    );
}
