//! Where a script is cut: at the first line that passes a limit.
ghost use Rattle.std.specs.Prelude.{◌≡◌, ◌<◌, ◌≤◌, false, true, length, take, drop, nat_lt, IfSome, IfNone};
ghost use Rattle.std.specs.Str.Lines.{lines};
ghost use Rattle.cascade_script.specs.Lines as spec;
ghost use Rattle.cascade_script.specs.Reader as reader;

use ldif_text::{Cursor, cut_at, next_line};

/// The most bytes of a script.
const MOST_BYTES: usize = 67_108_864;

/// The most lines of a script.
const MOST_LINES: u64 = 1_000_000;

/// How many bytes there are up to the last such byte, that one included.
fn length_up_to_last(bytes: &[u8], mark: u8) -> usize
    ensures first_part { take result bytes.now ≡ spec.up_to_last mark bytes.now }
    ensures within { result ≤ length bytes.now }
{
    let mut length = 0;
    for (i, b) in bytes.iter().enumerate() {
        if *b == mark {
            length = i + 1;
        }
    }
    length
}

/// How many bytes of a text are kept: all, or those of the lines before the one that holds the
/// first byte beyond the most.
fn kept_length(text: &[u8], most: usize) -> usize
    ensures kept { take result text.now ≡ spec.kept_bytes most text.now }
    ensures within { result ≤ length text.now }
{
    if text.len() > most {
        let (first_part, _) = text.split_at(most);
        return length_up_to_last(first_part, b'\n');
    }
    text.len()
}

/// How many bytes the first line of a text has, its line feed included.
fn line_length(text: &[u8]) -> usize
    requires { 0 < length text.now }
    ensures cut { spec.IsCutAt text.now result }
    ensures one { length (lines (take result text.now)) ≡ 1 }
    ensures filled { 0 < result }
    ensures within { result ≤ length text.now }
{
    match cut_at(text, b'\n') {
        (line, Some(_)) => line.len() + 1,
        (_, None) => text.len(),
    }
}

/// How many bytes n first lines of a text have, where more lines follow.
fn length_of_lines(text: &[u8], most: u64) -> Option<usize>
    ensures lines { IfSome result (λ count.
        lines (take count text.now) ≡ take most (lines text.now)) }
    ensures within { IfSome result (λ count. count ≤ length text.now) }
    ensures more { IfSome result (λ count. nat_lt most (length (lines text.now)) ≡ true) }
    ensures all { IfNone result (nat_lt most (length (lines text.now)) ≡ false) }
{
    let mut at = 0;
    for count in 0..most {
        if at == text.len() {
            return None;
        }
        at += line_length(&text[at..]);
    }
    if at < text.len() { Some(at) } else { None }
}

/// How many bytes of a script stand in the lines before the first that passes a limit, and that
/// limit.
pub fn within_limits(text: &[u8]) -> (usize, Option<u64>)
    ensures lines { lines (take result.0 text.now) ≡ spec.script_lines text.now }
    ensures limit { result.1 ≡ spec.limit_passed text.now }
    ensures within { result.0 ≤ length text.now }
{
    let whole = kept_length(text, MOST_BYTES);
    let (first_part, _) = text.split_at(whole);
    match length_of_lines(first_part, MOST_LINES) {
        Some(kept) => (kept, Some(MOST_LINES)),
        None if text.len() > MOST_BYTES => (whole, Some(MOST_BYTES as u64)),
        None => (whole, None),
    }
}

/// How many bytes the lines before the first empty line of a text have.
pub fn body_length(text: &[u8]) -> usize
    ensures body { lines (take result text.now) ≡ reader.body_of (lines text.now) }
    ensures after { lines (drop result text.now) ≡ reader.after_body (lines text.now) }
    ensures within { result ≤ length text.now }
{
    let mut at = 0;
    while let Some((line, _)) = next_line(text, Cursor { at, number: 0 }) {
        if line.is_empty() {
            break;
        }
        at += line_length(&text[at..]);
    }
    at
}
