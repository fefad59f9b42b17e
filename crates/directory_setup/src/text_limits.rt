//! How long a text may be.

ghost use Rattle.std.specs.Prelude.{◌≡◌, ◌≤◌, length, take};
ghost use Rattle.directory_setup.specs.Texts.{line_feeds, too_long, too_many_lines};

use crate::refusal::TooLong;

/// The most bytes of a text.
pub(crate) const MOST_BYTES: usize = 67_108_864;

/// The most lines of a text.
const MOST_LINES: u64 = 1_000_000;

/// How many lines end in some bytes.
fn line_feeds(bytes: &[u8]) -> u64
    ensures { result ≡ line_feeds bytes.now }
{
    bytes.iter().filter(|byte| **byte == 10).count() as u64
}

/// How many lines end in the first n bytes.
fn line_feeds_before(text: &[u8], count: usize) -> u64
    requires { count ≤ length text.now }
    ensures { result ≡ line_feeds (take count text.now) }
{
    let (prefix, _) = text.split_at(count);
    line_feeds(prefix)
}

/// The line that is one too many, where a text has it.
fn too_many_lines(text: &[u8]) -> Option<TooLong>
    ensures { result ≡ too_many_lines text.now }
{
    if line_feeds_before(text, text.len().saturating_sub(1)) < MOST_LINES {
        return None;
    }
    Some(TooLong {
        line: MOST_LINES + 1,
        limit: MOST_LINES,
    })
}

/// The line where a text becomes too long.
pub(crate) fn too_long(text: &[u8]) -> Option<TooLong>
    ensures { result ≡ too_long text.now }
{
    let lines = too_many_lines(text);
    if text.len() <= MOST_BYTES {
        return lines;
    }
    let before = line_feeds_before(text, MOST_BYTES);
    if MOST_LINES <= before {
        return lines;
    }
    Some(TooLong {
        line: before + 1,
        limit: MOST_BYTES as u64,
    })
}
