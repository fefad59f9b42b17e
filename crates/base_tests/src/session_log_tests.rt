//! Notes and trims of a log of three notes, and then of two, of none and of two again.
use crate::rows::{check_rows, number, parted};
use ldap_ber::discard;
use session_log::SessionLog;
use std::alloc::{AllocError, Global};

/// Notes of a number and an identity, trims to a limit, and a copy that goes on in the log's place,
/// each with a number after it: the floor after it, and what is reported of that number where it is
/// covered.
const ROWS: &str = "\
log note 1 7 0;note 2 5 0;note 2 9 1;note 3 5 1;note 4 6 2;copy 2;note 5 5 1;trim 2 3;trim 2 4;trim 9 5;trim 0 4;note 6 1 6;trim 2 5;note 7 340282366920938463463374607431768211455 6 => 0 Some([7]);0 Some([5, 7]);0 Some([5, 9]);1 Some([5, 9]);2 Some([5, 6]);2 Some([5, 6]);2 None;3 Some([5, 6]);3 Some([5]);3 Some([]);5 None;6 Some([]);6 None;6 Some([340282366920938463463374607431768211455]);
";

#[test]
fn notes_and_trims(rt: HostRuntime) {
    check_rows(&rt, rt.alloc(), ROWS);
}

pub(crate) fn reported(alloc: Global, steps: &str) -> Result<String, AllocError> {
    let mut text = String::new(alloc);
    let mut log = SessionLog::new(alloc, 3);
    let done = push_steps(alloc, &mut text, &mut log, steps);
    discard(log);
    done?;
    Ok(text)
}

fn push_steps(
    alloc: Global,
    text: &mut String,
    log: &mut SessionLog,
    steps: &str,
) -> Result<(), AllocError> {
    for step in steps.split(';') {
        push_step(alloc, text, log, step)?;
    }
    Ok(())
}

fn push_step(
    alloc: Global,
    text: &mut String,
    log: &mut SessionLog,
    step: &str,
) -> Result<(), AllocError> {
    let (change, after) = step.rsplit_once(' ').unwrap_or((step, ""));
    make(log, change)?;
    let since = since(log, number(after))?;
    push_known(alloc, text, log.floor(), since.as_deref())
}

fn push_known(
    alloc: Global,
    text: &mut String,
    floor: u64,
    since: Option<&[u128]>,
) -> Result<(), AllocError> {
    text.push_str(&format!(in alloc; "{floor} {since:?};")?)
}

fn make(log: &mut SessionLog, change: &str) -> Result<(), AllocError> {
    let (word, of) = parted(change);
    match word {
        "copy" => copy(log),
        "note" => note(log, of),
        _ => {
            log.trim(number(of));
            Ok(())
        }
    }
}

/// The log goes on as its copy.
fn copy(log: &mut SessionLog) -> Result<(), AllocError> {
    *log = log.copy()?;
    Ok(())
}

fn note(log: &mut SessionLog, of: &str) -> Result<(), AllocError> {
    let (write, uuid) = parted(of);
    log.reserve(1)?;
    log.note(number(write), uuid.parse::<u128>().unwrap_or(0));
    Ok(())
}

/// What was touched after the write, where that is known.
fn since(log: &SessionLog, number: u64) -> Result<Option<Vec<u128>>, AllocError> {
    if log.covers(number) {
        Ok(Some(log.since(number)?))
    } else {
        Ok(None)
    }
}
