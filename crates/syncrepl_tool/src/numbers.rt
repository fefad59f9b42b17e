//! Numbers in the words of a run.

ghost use Rattle.std.specs.Prelude.{◌↔◌, ℕ, IfNone, IfSome, IsTrue};
ghost use Rattle.syncrepl_tool.specs.Numbers.{IsNumber};

use itoa::Buffer;

/// The number that a word writes in decimal digits without a leading zero, where it is from `least`
/// to `most`.
pub(crate) fn number_of(word: &str, least: u64, most: u64) -> Option<u64>
    ensures some { IfSome result (IsNumber word.now least most) }
    ensures none { IfNone result ((number : ℕ) → IsNumber word.now least most number → ⊥) }
{
    let Ok(number) = word.parse::<u64>() else {
        return None;
    };
    if is_number(word, number, least, most) {
        return Some(number);
    }
    None
}

/// Whether a word writes this number so, and it is from `least` to `most`.
fn is_number(word: &str, number: u64, least: u64, most: u64) -> bool
    ensures { IsTrue result ↔ IsNumber word.now least most number }
{
    let mut buffer = Buffer::new();
    least <= number && number <= most && buffer.format(number) == word
}
