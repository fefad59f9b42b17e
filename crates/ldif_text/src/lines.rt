//! The lines of a text, with those that continue them.
ghost use Rattle.std.specs.Prelude.{◌≡◌, ◌<◌, ◌≤◌, ◌∷◌, [], false, length, drop, IsSome, MatchOption, IfOk, IfSome};
ghost use Rattle.std.specs.Str.Lines.{lines, strip_carriage_return};
ghost use Rattle.ldif_text.specs.Lines as spec;
ghost use Rattle.ldif_text.specs.Field.{cut, shown};

use ldap_ber::{NoMemory, Octets};
use std::alloc::Global;

/// So many lines most records have at most, and those of others need more room.
const COMMON_LINES: usize = 8;

/// A place in a text.
#[derive(Clone, Copy, Debug)]
pub struct Cursor {
    /// A byte offset from 0.
    pub at: usize,
    /// The number of the line that begins there.
    pub number: u64,
}

/// A line, with the lines that continue it joined to it.
#[derive(Drop)]
pub struct Line {
    /// The number of its first line.
    pub first: u64,
    /// The number of its last line.
    pub last: u64,
    pub text: Octets,
}

impl Line {
    /// Reports whether the line has no byte, as one that ends a record.
    pub fn is_empty(&self) -> bool
        ensures { result ≡ spec.is_empty self.now.text }
    {
        matches!(self.text.as_slice(), [])
    }

    /// Reports whether nothing is read of the line: it is empty or a comment.
    pub fn is_blank(&self) -> bool
        ensures { result ≡ spec.is_blank self.now }
    {
        self.is_empty() || self.is_comment()
    }

    /// Reports whether it begins with `#`, as a comment line does (RFC 2849).
    pub fn is_comment(&self) -> bool
        ensures { result ≡ spec.is_comment self.now.text }
    {
        matches!(self.text.as_slice(), [b'#', ..])
    }

    /// Whether it begins with a space, as a line that continues another does.
    pub fn is_continuation(&self) -> bool
        ensures { result ≡ spec.is_continuation self.now.text }
    {
        matches!(self.text.as_slice(), [b' ', ..])
    }
}

/// The two sides of the first mark: all bytes and nothing where there is none.
pub fn cut_at(bytes: &[u8], mark: u8) -> (&[u8], Option<&[u8]>)
    ensures prefix { result.0.now ≡ (cut mark bytes.now).0 }
    ensures back { shown result.1 ≡ (cut mark bytes.now).1 }
{
    for (i, b) in bytes.iter().enumerate() {
        if *b == mark {
            return (&bytes[..i], Some(&bytes[i + 1..]));
        }
    }
    (bytes, None)
}

/// The next line, as it stands, and the place after it.
pub fn next_line(text: &[u8], cursor: Cursor) -> Option<(&[u8], Cursor)>
    requires { cursor.at ≤ length text.now }
    ensures line { MatchOption result (lines (drop cursor.at text.now) ≡ [])
        (λ x. lines (drop cursor.at text.now) ≡ x.0.now ∷ lines (drop x.1.at text.now)) }
    ensures number { IfSome result (λ x. x.1.number ≡ spec.next_number cursor.number) }
    ensures later { IfSome result (λ x. cursor.at < x.1.at) }
    ensures within { IfSome result (λ x. x.1.at ≤ length text.now) }
{
    if cursor.at < text.len() {
        Some(line_at(text, cursor))
    } else {
        None
    }
}

/// The line at a place that is not the text's end.
fn line_at(text: &[u8], cursor: Cursor) -> (&[u8], Cursor)
    requires { cursor.at < length text.now }
    ensures line { lines (drop cursor.at text.now)
        ≡ result.0.now ∷ lines (drop result.1.at text.now) }
    ensures number { result.1.number ≡ spec.next_number cursor.number }
    ensures later { cursor.at < result.1.at }
    ensures within { result.1.at ≤ length text.now }
{
    let number = cursor.number.saturating_add(1);
    match cut_at(&text[cursor.at..], b'\n') {
        (line, Some(_)) => {
            let at = cursor.at + line.len() + 1;
            (without_return(line), Cursor { at, number })
        }
        (line, None) => {
            let at = text.len();
            (line, Cursor { at, number })
        }
    }
}

/// The line without the carriage return at its end, if it has one.
fn without_return(line: &[u8]) -> &[u8]
    ensures { result.now ≡ strip_carriage_return line.now }
{
    match line {
        [prefix @ .., b'\r'] => prefix,
        _ => line,
    }
}

/// What the next line adds to the line before it, where it continues that, and the place after it.
fn continuation_at(text: &[u8], cursor: Cursor) -> Option<(&[u8], Cursor)>
    requires { cursor.at ≤ length text.now }
    ensures line { MatchOption result (spec.is_continued (lines (drop cursor.at text.now)) ≡ false)
        (λ x. lines (drop cursor.at text.now) ≡ (32 ∷ x.0.now) ∷ lines (drop x.1.at text.now)) }
    ensures number { IfSome result (λ x. x.1.number ≡ spec.next_number cursor.number) }
    ensures later { IfSome result (λ x. cursor.at < x.1.at) }
    ensures within { IfSome result (λ x. x.1.at ≤ length text.now) }
{
    match next_line(text, cursor) {
        Some(([b' ', rest @ ..], after)) => Some((rest, after)),
        _ => None,
    }
}

/// The next line with those that continue it, and the place after them. It is `NoMemory` where
/// memory runs out.
pub fn joined_line(
    alloc: Global,
    text: &[u8],
    cursor: Cursor,
) -> Result<Option<(Line, Cursor)>, NoMemory>
    requires { cursor.at ≤ length text.now }
    ensures line { IfOk result (λ found. MatchOption found (spec.left_at text.now cursor ≡ [])
        (λ x. spec.left_at text.now cursor ≡ x.0 ∷ spec.left_at text.now x.1)) }
    ensures later { IfOk result (λ found. IfSome found (λ x. cursor.at < x.1.at)) }
    ensures within { IfOk result (λ found. IfSome found (λ x. x.1.at ≤ length text.now)) }
{
    match next_line(text, cursor) {
        None => Ok(None),
        Some((prefix, after)) => {
            let line = Line {
                first: cursor.number,
                last: cursor.number,
                text: Octets::from_slice(alloc, prefix)?,
            };
            if line.is_empty() {
                return Ok(Some((line, after)));
            }
            let joined = continued(alloc, line, text, after)?;
            Ok(Some(joined))
        }
    }
}

/// Whether the line at a place continues the one before it.
fn continues_at(text: &[u8], cursor: Cursor) -> bool
    ensures { result ≡ spec.is_continued (lines (drop cursor.at text.now)) }
{
    if cursor.at < text.len() {
        return text[cursor.at] == b' ';
    }
    false
}

/// The line with those at the place that continue it, put together, and the place after them.
/// Where none does, it is the line itself.
fn continued(
    alloc: Global,
    line: Line,
    text: &[u8],
    cursor: Cursor,
) -> Result<(Line, Cursor), NoMemory>
    requires place { cursor.at ≤ length text.now }
    requires filled { spec.is_empty line.text ≡ false }
    ensures line { IfOk result (λ x.
        spec.onto line (spec.left_at text.now cursor) ≡ x.0 ∷ spec.left_at text.now x.1) }
    ensures later { IfOk result (λ x. cursor.at ≤ x.1.at) }
    ensures within { IfOk result (λ x. x.1.at ≤ length text.now) }
{
    if !continues_at(text, cursor) {
        return Ok((line, cursor));
    }
    let mut whole = Vec::from_slice(alloc, line.text.as_slice())?;
    let mut last = line.last;
    let mut place = cursor;
    while let Some((rest, after)) = continuation_at(text, place) {
        whole.extend_from_slice(rest)?;
        last = place.number;
        place = after;
    }
    let whole = Line {
        first: line.first,
        last,
        text: whole.into(),
    };
    Ok((whole, place))
}

/// The place of the next line that is neither empty nor a comment, or the end of the text. It is
/// `NoMemory` where memory runs out.
pub fn content_place(alloc: Global, text: &[u8], cursor: Cursor) -> Result<Cursor, NoMemory>
    requires { cursor.at ≤ length text.now }
    ensures left { IfOk result (λ x.
        spec.from_content (spec.left_at text.now cursor) ≡ spec.left_at text.now x) }
    ensures within { IfOk result (λ x. x.at ≤ length text.now) }
{
    let mut place = cursor;
    while let Some((line, after)) = joined_line(alloc, text, place)? {
        if !line.is_blank() {
            return Ok(place);
        }
        place = after;
    }
    Ok(place)
}

/// The lines before the next empty line, without the comments, and the place after them. It is
/// `NoMemory` where memory runs out.
pub fn record_lines(
    alloc: Global,
    text: &[u8],
    cursor: Cursor,
) -> Result<(Vec<Line>, Cursor), NoMemory>
    requires { cursor.at ≤ length text.now }
    ensures lines { IfOk result (λ x.
        spec.record_lines (spec.left_at text.now cursor) ≡ x.0.items) }
    ensures left { IfOk result (λ x.
        spec.after_record (spec.left_at text.now cursor) ≡ spec.left_at text.now x.1) }
    ensures within { IfOk result (λ x. x.1.at ≤ length text.now) }
{
    let mut lines = Vec::with_capacity(alloc, COMMON_LINES)?;
    let mut place = cursor;
    while let Some((line, after)) = joined_line(alloc, text, place)? {
        if line.is_empty() {
            break;
        }
        place = after;
        if !line.is_comment() {
            lines.push(line)?;
        }
    }
    Ok((lines, place))
}

/// The number of the last of these lines, or that number where there is none.
pub fn last_number(number: u64, lines: &[Line]) -> u64
    ensures { result ≡ spec.last_number number lines.now }
{
    let mut number = number;
    for line in lines {
        number = line.last;
    }
    number
}
