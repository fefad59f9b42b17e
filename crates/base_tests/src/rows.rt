//! Rows of tests: a word that says what is asked, what it is asked of, and after ` => ` what is
//! reported. A line that begins with `#` says something of the rows below it.
use crate::assertions::assert_same;
use crate::{
    csn_cookie_tests, link_rings_tests, persist_queues_tests, refresh_tests, session_log_tests,
    shared_map_tests,
};
use std::alloc::{AllocError, Global};
use std::fmt::Debug;
use std::process::Abort;

/// Asserts that each row is reported as it has it.
pub(crate) fn check_rows(rt: &impl Abort, alloc: Global, rows: &str) {
    for row in rows.lines() {
        if !row.starts_with('#') {
            check_row(rt, alloc, row);
        }
    }
}

fn check_row(rt: &impl Abort, alloc: Global, row: &str) {
    let (asked, wanted) = row.split_once(" => ").expect(rt, row);
    let reported = reported(alloc, asked).expect(rt, row);
    assert_same(rt, row, &reported.as_str(), &wanted);
}

fn reported(alloc: Global, asked: &str) -> Result<String, AllocError> {
    let (word, of) = parted(asked);
    match word {
        "present" | "delete" => refresh_tests::reported(alloc, word, of),
        "queue" => persist_queues_tests::reported(alloc, of),
        "log" => session_log_tests::reported(alloc, of),
        "ring" => link_rings_tests::reported(alloc),
        "map" => shared_map_tests::reported(alloc, of),
        _ => csn_cookie_tests::reported(alloc, word, of),
    }
}

/// A value in words, by its `Debug`.
pub(crate) fn shown<T: Debug>(alloc: Global, value: &T) -> Result<String, AllocError> {
    format!(in alloc; "{value:?}")
}

/// A call in words: the first one, and what it is asked of.
pub(crate) fn parted(call: &str) -> (&str, &str) {
    call.split_once(' ').unwrap_or((call, ""))
}

pub(crate) fn number(text: &str) -> u64 {
    text.parse::<u64>().unwrap_or(0)
}

/// Puts an answer at the end, with a comma after it.
pub(crate) fn push_answer(
    text: &mut String,
    answer: Result<String, AllocError>,
) -> Result<(), AllocError> {
    text.push_str(&answer?)?;
    text.push(',')
}
