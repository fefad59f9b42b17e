//! What the tests assert of each row of their tables.
use std::alloc::{AllocError, Global};
use std::fmt::Debug;
use std::process::Abort;

/// Asserts that what was found is what is wanted, or reports the row.
pub(crate) fn assert_same<T: PartialEq + Debug>(rt: &impl Abort, row: &str, found: &T, wanted: &T) {
    assert!(rt;
        *found == *wanted,
        "{row}: {found:?} in place of {wanted:?}"
    );
}

/// A value in words, by its `Debug`.
pub(crate) fn shown<T: Debug>(alloc: Global, value: &T) -> Result<String, AllocError> {
    format!(in alloc; "{value:?}")
}

/// What is reported, or the fault in words.
pub(crate) fn or_fault<E: Debug + Drop>(
    alloc: Global,
    reported: Result<String, E>,
) -> Result<String, AllocError> {
    match reported {
        Ok(reported) => Ok(reported),
        Err(fault) => shown(alloc, &fault),
    }
}

/// Puts the piece at the end as many times as the count says.
pub(crate) fn push_times(text: &mut String, piece: &str, count: &str) -> Result<(), AllocError> {
    for _ in 0..count.parse::<u64>().unwrap_or(0) {
        text.push_str(piece)?;
    }
    Ok(())
}

/// The one text with the other after it.
pub(crate) fn joined(alloc: Global, one: &str, other: &str) -> Result<String, AllocError> {
    let mut text = one.to_string(alloc)?;
    text.push_str(other)?;
    Ok(text)
}

/// What is asked, and what is reported of it.
pub(crate) type Row = (&'static str, &'static str);

pub(crate) fn utf8(bytes: &[u8]) -> &str {
    str::from_utf8(bytes).unwrap_or("?")
}
