//! The reader of scripts, which takes one event after another.
ghost use Rattle.std.specs.Prelude.{◌≡◌, ◌+◌, ◌<◌, ◌≤◌, ◌-◌, ◌^◌, length, drop, take, false, Some, IfOk, IfSome, OnSome, OnErr};
ghost use Rattle.std.specs.List.{list_all};
ghost use Rattle.std.specs.Str.{is_utf8};
ghost use Rattle.std.specs.Str.Lines.{lines};
ghost use Rattle.cascade_script.specs.Grammar.{saying_of};
ghost use Rattle.cascade_script.specs.Reader as spec;
ghost use Rattle.cascade_script.specs.Reading.{left_at, IsPlace, ReadsEvent, ReadsCommand, ReadsRecord};
ghost use Rattle.cascade_script.specs.Fault.{fault_at};
ghost use Rattle.cascade_script.specs.declared.fault.Cause.TheVariants.{LimitReached, BadRecord};
ghost use Rattle.ldif_text.specs.Lines.{text_lines};
ghost use Rattle.ldif_text.specs.Reader.{next_record};

use crate::grammar::{Heading, heading_of};
use crate::lines::{body_length, within_limits};
use crate::{Cause, Command, Event, ScriptFault};
use ldap_ber::Octets;
use ldif_text::{Cursor, LdifFault, Records, next_line};
use schema_rules::Change;
use std::alloc::{AllocError, Global};
use std::marker::Model;
use std::str;

/// A script, and how far it has been read.
#[derive(Drop)]
pub struct Script {
    text: Octets,
    /// How many bytes are read: those of the lines before the first that passes a limit.
    kept: usize,
    place: Cursor,
    /// The limit that a line after these passes.
    limit: Option<u64>,
}

impl Model for Script {
    ghost use Rattle.std.specs.Prelude.{◌≤◌, length, take};
    ghost use Rattle.cascade_script.specs.Reader.{ScriptReader};
    ghost use Rattle.cascade_script.specs.Reading.{left_at, IsPlace};

    ghost Value = { ScriptReader };

    ghost view = { λ s. record {
      lines = left_at (take s.kept s.text) s.place;
      read = s.place.number;
      limit = s.limit;
    } };

    ghost invariant = { λ s. (s.kept ≤ length s.text) × IsPlace (take s.kept s.text) s.place };
}

impl Script {
    /// A script at its beginning.
    pub fn new(text: Octets) -> Script
        ensures { result ≡ spec.reader_of text }
    {
        let (kept, limit) = within_limits(text.as_slice());
        Script {
            text,
            kept,
            place: Cursor { at: 0, number: 0 },
            limit,
        }
    }
}

/// The next event of the script, or None at its end. It is a refusal with the number of the line:
/// `BadCommand` for a line outside the grammar, `BadRecord` for a change that is no record of LDIF,
/// `LimitReached` for a text with too many bytes or lines, or `NoMemory`; and then the script is as
/// before.
pub fn read_event(alloc: Global, script: &mut Script) -> Result<Option<Event>, ScriptFault>
    ensures reads { spec.Reads script.old script.new result }
    // An event takes a line at least.
    ensures shorter { IfOk result (λ found.
        OnSome found (length script.new.lines < length script.old.lines)) }
    ensures err { OnErr result (script.new ≡ script.old) }
{
    let (bytes, _) = script.text.as_slice().split_at(script.kept);
    match event_at(alloc, bytes, script.place, script.limit)? {
        Some((event, place)) => {
            script.place = place;
            Ok(Some(event))
        }
        None => Ok(None),
    }
}

fn is_skipped(text: &[u8]) -> bool
    ensures { result ≡ spec.is_skipped text.now }
{
    matches!(text, [] | [b'#', ..])
}

/// Whether the bytes are UTF-8.
fn is_text(bytes: &[u8]) -> bool
    ensures { result ≡ is_utf8 bytes.now }
{
    str::from_utf8(bytes).is_ok()
}

/// The event at a place, and the place after it.
fn event_at(
    alloc: Global,
    bytes: &[u8],
    start: Cursor,
    limit: Option<u64>,
) -> Result<Option<(Event, Cursor)>, ScriptFault>
    requires { IsPlace bytes.now start }
    ensures reads { ReadsEvent bytes.now limit result
        (spec.next_from limit start.number (left_at bytes.now start)) }
    ensures shorter { IfOk result (λ found.
        IfSome found (λ x. length (left_at bytes.now x.1) < length (left_at bytes.now start))) }
    ensures place { IfOk result (λ found. IfSome found (λ x. IsPlace bytes.now x.1)) }
{
    let mut place = start;
    while let Some((text, next)) = next_line(bytes, place) {
        place = next;
        let line = place.number;
        if !is_text(text) {
            return Err(ScriptFault::bad_command(line));
        }
        if !is_skipped(text) {
            let heading = heading_of(alloc, text, line)?;
            let (command, after) = rest_of(alloc, bytes, place, limit, heading)?;
            return Ok(Some((Event { line, command }, after)));
        }
    }
    match limit {
        Some(limit) => Err(limit_reached(place, limit)),
        None => Ok(None),
    }
}

/// The line after the place passes the limit.
fn limit_reached(place: Cursor, limit: u64) -> ScriptFault
    requires { place.number < 2 ^ 63 }
    ensures { result ≡ fault_at (place.number + 1) (LimitReached limit) }
{
    ScriptFault {
        line: place.number + 1,
        cause: Cause::LimitReached(limit),
    }
}

/// The event of a first line, at the place after that line.
fn rest_of(
    alloc: Global,
    bytes: &[u8],
    place: Cursor,
    limit: Option<u64>,
    heading: Heading,
) -> Result<(Command, Cursor), ScriptFault>
    requires { IsPlace bytes.now place }
    ensures reads { ReadsCommand bytes.now limit place.number result
        (spec.next_of limit place.number (Some (saying_of heading)) (left_at bytes.now place)) }
    ensures shorter { IfOk result (λ x.
        length (left_at bytes.now x.1) ≤ length (left_at bytes.now place)) }
    ensures place { IfOk result (λ x. IsPlace bytes.now x.1) }
{
    match heading {
        Heading::Whole(command) => Ok((command, place)),
        Heading::Writes(name) => write_at(alloc, bytes, place, limit, name),
    }
}

/// The write whose record stands at the place.
fn write_at(
    alloc: Global,
    bytes: &[u8],
    place: Cursor,
    limit: Option<u64>,
    name: Octets,
) -> Result<(Command, Cursor), ScriptFault>
    requires { IsPlace bytes.now place }
    ensures reads { ReadsCommand bytes.now limit place.number result
        (spec.record_before limit place.number name (spec.body_of (left_at bytes.now place))
        (spec.after_body (left_at bytes.now place))) }
    ensures shorter { IfOk result (λ x.
        length (left_at bytes.now x.1) ≤ length (left_at bytes.now place)) }
    ensures place { IfOk result (λ x. IsPlace bytes.now x.1) }
{
    let end = record_end(bytes, place);
    let body = &bytes[place.at..end.at];
    if !has_text_lines(body) {
        return Err(ScriptFault::bad_command(place.number));
    }
    if let Some(limit) = limit_after(bytes, end, limit) {
        return Err(limit_reached(end, limit));
    }
    let change = record_of(alloc, body, place.number)?;
    Ok((Command::Write(name, change), end))
}

/// The limit that the line at a place passes, where the lines that are read end there.
fn limit_after(bytes: &[u8], place: Cursor, limit: Option<u64>) -> Option<u64>
    requires { IsPlace bytes.now place }
    ensures { result ≡ spec.limit_before limit (left_at bytes.now place) }
{
    if place.at == bytes.len() { limit } else { None }
}

/// The place of the empty line that ends the record at a place, or the end of the text.
fn record_end(bytes: &[u8], place: Cursor) -> Cursor
    requires { IsPlace bytes.now place }
    ensures left { left_at bytes.now result ≡ spec.after_body (left_at bytes.now place) }
    ensures number { result.number
        ≡ place.number + length (spec.body_of (left_at bytes.now place)) }
    ensures body { lines (take (result.at - place.at) (drop place.at bytes.now))
        ≡ spec.body_of (left_at bytes.now place) }
    ensures later { place.at ≤ result.at }
    ensures place { IsPlace bytes.now result }
{
    let (_, rest) = bytes.split_at(place.at);
    let (body, _) = rest.split_at(body_length(rest));
    Cursor {
        at: place.at + body.len(),
        number: place.number + count_lines(body),
    }
}

/// How many lines a text has.
fn count_lines(text: &[u8]) -> u64
    ensures count { result ≡ length (lines text.now) }
    // A line takes a byte at least.
    ensures within { result ≤ length text.now }
{
    let mut place = Cursor { at: 0, number: 0 };
    while let Some((_, next)) = next_line(text, place) {
        place = next;
    }
    place.number
}

/// Whether the lines of a text are UTF-8.
fn has_text_lines(text: &[u8]) -> bool
    ensures { result ≡ list_all is_utf8 (lines text.now) }
{
    let mut place = Cursor { at: 0, number: 0 };
    while let Some((line, next)) = next_line(text, place) {
        if !is_text(line) {
            return false;
        }
        place = next;
    }
    true
}

/// The change that a record reports, which stands after the command of that line.
fn record_of(alloc: Global, body: &[u8], command: u64) -> Result<Change, ScriptFault>
    requires { command < 2 ^ 63 }
    ensures { ReadsRecord command result
        (next_record (record {
          lines = text_lines (command + 1) body.now;
          line = command + 1;
          begun = false;
        })) }
{
    match Records::new(body, command + 1).next(alloc) {
        Ok(Some(change)) => Ok(change),
        Ok(None) => Err(bad_record(command)),
        Err(LdifFault::BadLine(line)) => Err(bad_record(line)),
        Err(LdifFault::BadBase64(line)) => Err(bad_record(line)),
        Err(LdifFault::BadChange(line)) => Err(bad_record(line)),
        Err(LdifFault::NoMemory) => Err(ScriptFault::from(AllocError)),
    }
}

/// The refusal of a record at that line.
fn bad_record(line: u64) -> ScriptFault
    ensures { result ≡ fault_at line BadRecord }
{
    ScriptFault {
        line,
        cause: Cause::BadRecord,
    }
}
