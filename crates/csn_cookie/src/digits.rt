//! Numbers in a fixed count of digits.

ghost use Rattle.std.specs.Prelude.{◌≡◌, ◌≤◌, ◌<◌, ◌^◌, false, Some, length, take, option_map, IfSome};
ghost use Rattle.std.specs.Char.{is_ascii_uppercase};
ghost use Rattle.std.specs.Fmt.{digit_glyph};
ghost use Rattle.std.specs.List.{list_any};
ghost use Rattle.csn_cookie.specs.Digits as spec;

/// The digit in the radix, a letter in lower case.
fn digit_of(value: u8) -> u8
    requires { value < 16 }
    ensures { result ≡ digit_glyph false value }
{
    if value < 10 {
        b'0' + value
    } else {
        b'a' + (value - 10)
    }
}

/// Fills the text with the digits of the number, leading zeros.
pub fn write_digits(radix: u8, number: u128, text: &mut [u8])
    requires low { 2 ≤ radix }
    requires high { radix ≤ 16 }
    ensures { text.new ≡ spec.field radix (length text.old) number }
{
    let mut left = number;
    for place in (0..text.len()).rev() {
        text[place] = digit_of((left % u128::from(radix)) as u8);
        left /= u128::from(radix);
    }
}

/// The number that the digits spell, a letter in either case, or None where a byte is no digit.
fn number_of(radix: u8, text: &[u8]) -> Option<u128>
    requires low { 2 ≤ radix }
    requires high { radix ≤ 16 }
    requires short { length text.now ≤ 32 }
    ensures value { result ≡ spec.number_of radix text.now }
    ensures below { IfSome result (λ number. number < radix ^ length text.now) }
{
    let mut number = 0;
    for byte in text {
        let digit = char::from(*byte).to_digit(u32::from(radix))?;
        number = number * u128::from(radix) + u128::from(digit);
    }
    Some(number)
}

/// The number in the next n digits, and the text after them.
#[tactic(auto, unfolding(crate::specs::Digits::number_at))]
pub fn number_at(radix: u8, width: usize, text: &[u8]) -> Option<(u128, &[u8])>
    requires low { 2 ≤ radix }
    requires high { radix ≤ 16 }
    requires short { width ≤ 32 }
    ensures value { option_map (λ p. (p.0, p.1.now)) result ≡ spec.number_at radix width text.now }
    ensures below { IfSome result (λ p. p.0 < radix ^ width) }
{
    let (digits, rest) = text.split_at_checked(width)?;
    let number = number_of(radix, digits)?;
    Some((number, rest))
}

/// The same, where no letter is in upper case.
#[tactic(auto, unfolding(crate::specs::Digits::lower_number_at))]
pub fn lower_number_at(radix: u8, width: usize, text: &[u8]) -> Option<(u128, &[u8])>
    requires low { 2 ≤ radix }
    requires high { radix ≤ 16 }
    requires short { width ≤ 32 }
    ensures value { option_map (λ p. (p.0, p.1.now)) result
        ≡ spec.lower_number_at radix width text.now }
    ensures below { IfSome result (λ p. p.0 < radix ^ width) }
{
    if has_upper(width, text) {
        return None;
    }
    number_at(radix, width, text)
}

/// Whether a letter in upper case stands among the first n bytes.
fn has_upper(width: usize, text: &[u8]) -> bool
    ensures { result ≡ list_any is_ascii_uppercase (take width text.now) }
{
    text.iter().take(width).any(|c| c.is_ascii_uppercase())
}

/// The text after these bytes, where it begins with them.
#[tactic(auto, unfolding(crate::specs::Digits::after))]
pub fn after<'a>(prefix: &[u8], text: &'a [u8]) -> Option<&'a [u8]>
    ensures { option_map (λ rest. rest.now) result ≡ spec.after prefix.now text.now }
{
    text.strip_prefix(prefix)
}
