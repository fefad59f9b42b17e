//! Change sequence numbers.

ghost use Rattle.std.specs.Prelude.{◌≡◌, ◌≤◌, ◌<◌, ◌^◌, ◌↔◌, Some, option_map, IsNone, IfOk, IfErr, IfSome};
ghost use Rattle.std.specs.Result.{result_ok};
ghost use Rattle.csn_cookie.specs.Csn as spec;
ghost use Rattle.csn_cookie.specs.CsnMaker.{next_csn, csn_from, IsGreatest};

use crate::digits::{after, number_at};
use crate::fault::CookieFault;
use crate::instant::{Instant, micros_at};
use crate::text::Text;
use std::marker::Model;

/// The last microsecond of the year 9999.
const GREATEST_MICROS: u64 = 253_402_300_799_999_999;

/// The greatest count of one microsecond.
const GREATEST_COUNT: u32 = 0xff_ffff;

/// A change sequence number: a time, a count within its microsecond, the number of the directory
/// that drew it, and a last part. CSNs are ordered by these parts in this order.
#[derive(Clone, Copy, Debug, PartialEq, Eq, PartialOrd, Ord)]
pub struct Csn {
    micros: u64,
    count: u32,
    sid: u16,
    part: u32,
}

impl Model for Csn {
    ghost use Rattle.csn_cookie.specs.Csn.{CsnValue, IsCsn};

    ghost Value = { CsnValue };

    ghost view = { λ c. record { micros = c.micros; count = c.count; sid = c.sid; part = c.part } };

    ghost invariant = { λ c. IsCsn
        (record { micros = c.micros; count = c.count; sid = c.sid; part = c.part }) };

    ghost inverse = { λ s.
        record { micros = s.micros; count = s.count; sid = s.sid; part = s.part } };
}

impl Csn {
    /// What a directory without writes has: zero in all but the directory's number.
    pub fn start(sid: u16) -> Csn
        requires { sid < 4096 }
        ensures { result ≡ spec.start sid }
    {
        Csn::at(0, 0, sid)
    }

    /// The directory's CSN at this time and count, with the last part 0.
    fn at(micros: u64, count: u32, sid: u16) -> Csn
        requires micros { micros ≤ spec.greatest_micros }
        requires count { count < 2 ^ 24 }
        requires sid { sid < 4096 }
        ensures { result ≡ csn_from sid micros count }
    {
        Csn {
            micros,
            count,
            sid,
            part: 0,
        }
    }

    /// The microseconds from the first moment of 1970 on, up to the end of the year 9999.
    pub fn micros(&self) -> u64
        ensures value { result ≡ self.now.micros }
        ensures bound { result ≤ spec.greatest_micros }
    {
        self.micros
    }

    /// The count within the microsecond.
    pub fn count(&self) -> u32
        ensures value { result ≡ self.now.count }
        ensures bound { result < 2 ^ 24 }
    {
        self.count
    }

    /// The number of the directory.
    pub fn sid(&self) -> u16
        ensures value { result ≡ self.now.sid }
        ensures bound { result < 4096 }
    {
        self.sid
    }

    /// The last part.
    pub fn part(&self) -> u32
        ensures value { result ≡ self.now.part }
        ensures bound { result < 2 ^ 24 }
    {
        self.part
    }

    /// The CSN that the same directory draws after this one where its clock shows `now`,
    /// in microseconds, or None where it has none left.
    pub(crate) fn next(&self, now: u64) -> Option<Csn>
        ensures exact { result ≡ next_csn now self.now }
        ensures spent { IsNone result ↔ IsGreatest self.now }
    {
        let time = now.min(GREATEST_MICROS);
        if self.micros < time {
            Some(Csn::at(time, 0, self.sid))
        } else if self.count < GREATEST_COUNT {
            Some(Csn::at(self.micros, self.count + 1, self.sid))
        } else if self.micros < GREATEST_MICROS {
            Some(Csn::at(self.micros + 1, 0, self.sid))
        } else {
            None
        }
    }

    /// Reads `YYYYmmddHHMMSS.uuuuuuZ#cccccc#sss#mmmmmm`, which has to be the whole text. The time
    /// is a generalized time (RFC 4517, section 3.3.13) that exists in the years 1970 to 9999, and
    /// the digits after it are hexadecimal, in either case. Any other text is `NotACsn`.
    pub fn parse(text: &[u8]) -> Result<Csn, CookieFault>
        ensures exact { result_ok result ≡ spec.csn_of_text text.now }
        ensures fault { IfErr result (λ e. e ≡ CookieFault.NotACsn) }

        // It is Ok exactly where the text spells a CSN.
        ensures bounds { IfOk result spec.IsCsn }
        ensures spelled { IfOk result (λ csn. spec.IsSpelling csn text.now) }
        ensures only { (csn : spec.CsnValue) → spec.IsCsn csn → spec.IsSpelling csn text.now
            → result ≡ Ok csn }
    {
        csn_of_text(text).ok_or(CookieFault::NotACsn)
    }

    /// Writes the CSN as `parse` reads it, with its letters in lower case.
    pub fn write(&self) -> [u8; 40]
        ensures text { result ≡ spec.csn_text self.now }
        ensures read_again { spec.csn_of_text result ≡ Some self.now }

        // No other CSN is written so.
        ensures one { (csn : spec.CsnValue) → spec.IsCsn csn → spec.csn_text csn ≡ result
            → csn ≡ self.now }
    {
        self.to_text()
    }

    #[tactic(auto, unfolding(crate::specs::Csn::csn_text))]
    fn to_text(&self) -> [u8; 40]
        ensures bounds { spec.IsCsn self.now }
        ensures text { result ≡ spec.csn_text self.now }
    {
        let mut text = Text::<40>::new();
        text.push(&Instant::new(self.micros).write());
        text.push(b"#");
        text.push_number(16, 6, self.count.into());
        text.push(b"#");
        text.push_number(16, 3, self.sid.into());
        text.push(b"#");
        text.push_number(16, 6, self.part.into());
        text.finish()
    }
}

/// The CSN that the whole text spells.
#[tactic(auto, unfolding(crate::specs::Csn::csn_of_text))]
fn csn_of_text(text: &[u8]) -> Option<Csn>
    ensures { result ≡ spec.csn_of_text text.now }
{
    match csn_at(text) {
        Some((csn, [])) => Some(csn),
        _ => None,
    }
}

/// The CSN at the start of the text, and the text after it.
#[tactic(auto, unfolding(crate::specs::Csn::csn_at))]
pub fn csn_at(text: &[u8]) -> Option<(Csn, &[u8])>
    ensures { option_map (λ p. (p.0, p.1.now)) result ≡ spec.csn_at text.now }
{
    let (micros, text) = micros_at(text)?;
    let (count, text) = part_at(6, text)?;
    let (sid, text) = part_at(3, text)?;
    let (part, text) = part_at(6, text)?;
    let csn = Csn {
        micros,
        count: count as u32,
        sid: sid as u16,
        part: part as u32,
    };
    Some((csn, text))
}

/// `#` and a number in n hexadecimal digits, and the text after them.
fn part_at(width: usize, text: &[u8]) -> Option<(u128, &[u8])>
    requires { width < 7 }
    ensures value { option_map (λ p. (p.0, p.1.now)) result ≡ spec.part_at width text.now }
    ensures below { IfSome result (λ p. p.0 < 16 ^ width) }
{
    number_at(16, width, after(b"#", text)?)
}
