//! Times to the microsecond, as a generalized time writes them (RFC 4517, section 3.3.13).

ghost use Rattle.std.specs.Prelude.{◌≡◌, ◌*◌, ◌≤◌, ◌<◌, Some, None, length, option_map, is_some, IfSome, pos, if◌then◌else◌};
ghost use Rattle.jiff.specs.Words.{civil_nanos};
ghost use Rattle.csn_cookie.specs.Instant as spec;
ghost use Rattle.csn_cookie.specs.Csn.{greatest_micros};

use crate::digits::{after, number_at};
use crate::text::Text;
use jiff::SignedDuration;
use jiff::civil::{DateTime, date};

/// The first year of the times that a CSN can have.
const FIRST_YEAR: u16 = 1970;

/// The parts of a time in the zone Z, to the microsecond. There need not be such a time.
#[derive(Clone, Copy)]
pub struct Instant {
    year: u16,
    month: u8,
    day: u8,
    hour: u8,
    minute: u8,
    second: u8,
    micro: u32,
}

/// The first moment of 1970.
fn epoch() -> DateTime
    ensures { civil_nanos result ≡ pos 0 }
{
    date(1970, 1, 1).at(0, 0, 0, 0)
}

/// The time n microseconds after the first moment of 1970, up to the end of 9999.
fn time_after(micros: u64) -> DateTime
    requires { micros ≤ greatest_micros }
    ensures { civil_nanos result ≡ pos (micros * 1000) }
{
    let since = SignedDuration::from_micros(micros as i64);
    epoch().checked_add(since).unwrap()
}

impl Instant {
    /// The moment n microseconds after the first one of 1970, up to the end of 9999.
    pub fn new(micros: u64) -> Instant
        requires { micros ≤ greatest_micros }
        ensures { result ≡ spec.instant_of micros }
    {
        let time = time_after(micros);
        Instant {
            year: time.year().unsigned_abs(),
            month: time.month().unsigned_abs(),
            day: time.day().unsigned_abs(),
            hour: time.hour().unsigned_abs(),
            minute: time.minute().unsigned_abs(),
            second: time.second().unsigned_abs(),
            micro: time.subsec_nanosecond().unsigned_abs() / 1000,
        }
    }

    /// The time with these parts, where there is one in the years 1970 to 9999.
    fn time(&self) -> Option<DateTime>
        requires { spec.HasDigits self.now }
        ensures found { is_some result ≡ spec.exists self.now }
        ensures nanos { IfSome result
            (λ time. civil_nanos time ≡ pos (spec.micros_of self.now * 1000)) }
    {
        if self.year < FIRST_YEAR {
            return None;
        }
        DateTime::new(
            self.year as i16,
            self.month as i8,
            self.day as i8,
            self.hour as i8,
            self.minute as i8,
            self.second as i8,
            (self.micro * 1000) as i32,
        )
        .ok()
    }

    /// The microseconds from the first moment of 1970 on, where there is such a time in the years
    /// 1970 to 9999.
    fn micros(&self) -> Option<u64>
        requires { spec.HasDigits self.now }
        ensures value { result
            ≡ (if spec.exists self.now then Some (spec.micros_of self.now) else None) }
        ensures bound { IfSome result (λ micros. micros ≤ greatest_micros) }
    {
        let time = self.time()?;
        Some(time.duration_since(epoch()).as_micros() as u64)
    }

    /// `YYYYmmddHHMMSS.uuuuuuZ`.
    #[tactic(auto, unfolding(crate::specs::Instant::instant_text))]
    pub fn write(&self) -> [u8; 22]
        ensures { result ≡ spec.instant_text self.now }
    {
        let mut text = Text::<22>::new();
        text.push_number(10, 4, self.year.into());
        text.push_number(10, 2, self.month.into());
        text.push_number(10, 2, self.day.into());
        text.push_number(10, 2, self.hour.into());
        text.push_number(10, 2, self.minute.into());
        text.push_number(10, 2, self.second.into());
        text.push(b".");
        text.push_number(10, 6, self.micro.into());
        text.push(b"Z");
        text.finish()
    }
}

/// What a text of this form reports, and the text after it.
#[tactic(auto, unfolding(crate::specs::Instant::instant_at))]
fn instant_at(text: &[u8]) -> Option<(Instant, &[u8])>
    ensures digits { IfSome result (λ p. spec.HasDigits p.0) }
    ensures value { option_map (λ p. (p.0, p.1.now)) result ≡ spec.instant_at text.now }
{
    let (year, text) = number_at(10, 4, text)?;
    let (month, text) = number_at(10, 2, text)?;
    let (day, text) = number_at(10, 2, text)?;
    let (hour, text) = number_at(10, 2, text)?;
    let (minute, text) = number_at(10, 2, text)?;
    let (second, text) = number_at(10, 2, text)?;
    let text = after(b".", text)?;
    let (micro, text) = number_at(10, 6, text)?;
    let text = after(b"Z", text)?;
    let instant = Instant {
        year: year as u16,
        month: month as u8,
        day: day as u8,
        hour: hour as u8,
        minute: minute as u8,
        second: second as u8,
        micro: micro as u32,
    };
    Some((instant, text))
}

/// The microseconds of a time that exists, and the text after it.
pub fn micros_at(text: &[u8]) -> Option<(u64, &[u8])>
    ensures bound { IfSome result (λ p. p.0 ≤ greatest_micros) }
    ensures value { option_map (λ p. (p.0, p.1.now)) result ≡ spec.micros_at text.now }
{
    let (instant, rest) = instant_at(text)?;
    let micros = instant.micros()?;
    Some((micros, rest))
}
