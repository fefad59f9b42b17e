//! Records, one after another.
ghost use Rattle.std.specs.Prelude.{◌≡◌, ◌<◌, ◌≤◌, ◌∷◌, false, true, length, Some, None, Ok, IfOk, IfErr, OnErr, OnSome, IfSome, IfNone, option_map};
ghost use Rattle.ldap_ber.specs.Gives.{Gives};
ghost use Rattle.ldif_text.specs.Fault.{Refuses};
ghost use Rattle.ldif_text.specs.Lines.{left_at, text_lines, from_content};
ghost use Rattle.ldif_text.specs.Reader as spec;
ghost use Rattle.ldif_text.specs.Reader.{found_in};

use crate::fault::LdifFault;
use crate::field::field_of;
use crate::lines::{Cursor, Line, content_place, joined_line, last_number, record_lines};
use crate::record::change_of;
use schema_rules::Change;
use std::alloc::Global;
use std::marker::Model;

/// A reader of the records of a text, each an entry to be added or a change (RFC 2849). Its lines
/// have numbers in order, and the greatest `u64` stands for all numbers beyond it.
#[derive(Drop)]
pub struct Records<'a> {
    text: &'a [u8],
    place: Cursor,
    line: u64,
    begun: bool,
}

impl<'a> Model for Records<'a> {
    ghost use Rattle.std.specs.Prelude.{◌≤◌, length};
    ghost use Rattle.ldif_text.specs.Lines.{left_at};
    ghost use Rattle.ldif_text.specs.Reader.{RecordReader};

    ghost Value = { RecordReader };

    ghost view = { λ r. record {
      lines = left_at r.text.now r.place;
      line = r.line;
      begun = r.begun;
    } };

    ghost invariant = { λ r. r.place.at ≤ length r.text.now };
}

impl<'a> Records<'a> {
    /// A reader at the beginning of a text, whose first line has this number.
    pub fn new(text: &'a [u8], first_line: u64) -> Records<'a>
        ensures { result
            ≡ record {
              lines = text_lines first_line text.entry.now;
              line = first_line;
              begun = false;
            } }
    {
        Records {
            text,
            place: Cursor {
                at: 0,
                number: first_line,
            },
            line: first_line,
            begun: false,
        }
    }

    /// The number of the last line of the record that was given last, or that of the text's first
    /// line before one was given.
    pub fn line(&self) -> u64
        ensures { result ≡ self.now.line }
    {
        self.line
    }

    /// The next record, or None where empty lines and comments alone are left (RFC 2849). After a
    /// refusal the reader is as before. It is `BadLine`, `BadBase64` or `BadChange` with the number
    /// of the line, or `NoMemory`.
    pub fn next(&mut self, alloc: Global) -> Result<Option<Change>, LdifFault>
        ensures given { IfOk result (λ found. IfSome found (λ change.
            spec.next_record self.old ≡ Ok (Some (record { change = change; after = self.new })))) }
        ensures end { IfOk result (λ found. IfNone found (spec.next_record self.old ≡ Ok None)) }
        ensures same { IfOk result (λ found. IfNone found (self.new ≡ self.old)) }
        // A record takes a line at least.
        ensures shorter { IfOk result (λ found.
            OnSome found (length self.new.lines < length self.old.lines)) }
        ensures refused { IfErr result (λ fault. Refuses fault (spec.next_record self.old)) }
        ensures err { OnErr result (self.new ≡ self.old) }
    {
        match next_record(alloc, self.text, self.place, self.begun)? {
            None => Ok(None),
            Some(taken) => {
                self.place = taken.place;
                self.line = taken.line;
                self.begun = true;
                Ok(Some(taken.change))
            }
        }
    }
}

/// A record, the number of its last line, and the place after it.
#[derive(Drop)]
struct TakenRecord {
    change: Change,
    line: u64,
    place: Cursor,
}

/// The next record from a place on.
fn next_record(
    alloc: Global,
    text: &[u8],
    cursor: Cursor,
    begun: bool,
) -> Result<Option<TakenRecord>, LdifFault>
    requires { cursor.at ≤ length text.now }
    ensures found { Gives Refuses (λ found. Ok (option_map (found_in text.now) found)) result
        (spec.record_from begun (from_content (left_at text.now cursor))) }
    ensures within { IfOk result (λ found. IfSome found (λ x. x.place.at ≤ length text.now)) }
{
    let start = content_place(alloc, text, cursor)?;
    match joined_line(alloc, text, start)? {
        None => Ok(None),
        Some((line, after)) => {
            if begun {
                Ok(Some(record_at(alloc, text, start, line.last)?))
            } else {
                Ok(Some(first_record(alloc, text, start, &line, after)?))
            }
        }
    }
}

/// The record that the line begins, or that comes after it where it is the version.
fn first_record(
    alloc: Global,
    text: &[u8],
    cursor: Cursor,
    line: &Line,
    after: Cursor,
) -> Result<TakenRecord, LdifFault>
    requires start { cursor.at ≤ length text.now }
    requires end { after.at ≤ length text.now }
    requires line { left_at text.now cursor ≡ line.now ∷ left_at text.now after }
    ensures found { Gives Refuses (λ found. Ok (found_in text.now found)) result
        (spec.first_record line.now (left_at text.now after)) }
    ensures within { IfOk result (λ x. x.place.at ≤ length text.now) }
{
    let start = if is_version(alloc, line)? {
        content_place(alloc, text, after)?
    } else {
        cursor
    };
    record_at(alloc, text, start, line.last)
}

/// Whether the line reports the version, which is 1.
#[tactic(auto, unfolding(crate::specs::Reader::is_version))]
fn is_version(alloc: Global, line: &Line) -> Result<bool, LdifFault>
    ensures { Gives Refuses (λ x. Ok x) result (spec.is_version line.now) }
{
    let field = field_of(alloc, line)?;
    if field.name.as_slice() != b"version".as_slice() {
        return Ok(false);
    }
    if field.value.as_slice() == b"1".as_slice() {
        Ok(true)
    } else {
        Err(LdifFault::BadChange(line.first))
    }
}

/// The record at a place. A line before it has this number.
fn record_at(
    alloc: Global,
    text: &[u8],
    cursor: Cursor,
    number: u64,
) -> Result<TakenRecord, LdifFault>
    requires { cursor.at ≤ length text.now }
    ensures found { Gives Refuses (λ found. Ok (found_in text.now found)) result
        (spec.record_at number (left_at text.now cursor)) }
    ensures within { IfOk result (λ x. x.place.at ≤ length text.now) }
{
    let (lines, place) = record_lines(alloc, text, cursor)?;
    let line = last_number(number, &lines);
    let change = change_of(alloc, line, &lines)?;
    Ok(TakenRecord {
        change,
        line,
        place,
    })
}
