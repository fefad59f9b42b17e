//! Cookies of a content synchronization (RFC 4533, section 3).

ghost use Rattle.std.specs.Prelude.{◌≡◌, ◌<◌, ◌↔◌, Some, option_map, IfOk, IfErr, IsTrue};
ghost use Rattle.std.specs.Result.{result_ok};
ghost use Rattle.csn_cookie.specs.Cookie as spec;
ghost use Rattle.csn_cookie.specs.declared.cookie.Cookie.{Cookie};

use crate::csn::{Csn, csn_at};
use crate::digits::{after, lower_number_at, number_at};
use crate::fault::CookieFault;
use crate::text::Text;

/// A cookie: the number of a copy, below 1000 in a text, the number of a directory, below 4096 in
/// a text, and the CSN and the history of the content that was sent.
#[derive(Clone, Copy, Debug, PartialEq, Eq)]
pub struct Cookie {
    pub rid: u16,
    pub sid: u16,
    pub csn: Csn,
    pub history: u128,
}

impl Cookie {
    /// Reads `rid=DDD,sid=HHH,csn=CSN,gen=` and 32 hexadecimal digits, which have to be the whole
    /// text. The letters outside the CSN are in lower case. Any other text is `NotACookie`.
    pub fn parse(text: &[u8]) -> Result<Cookie, CookieFault>
        ensures exact { result_ok result ≡ spec.cookie_of_text text.now }
        ensures fault { IfErr result (λ e. e ≡ CookieFault.NotACookie) }

        // It is Ok exactly where the text spells a cookie.
        ensures bounds { IfOk result spec.IsCookie }
        ensures spelled { IfOk result (λ cookie. spec.IsCookieSpelling cookie text.now) }
        ensures only { (cookie : Cookie) → spec.IsCookie cookie
            → spec.IsCookieSpelling cookie text.now → result ≡ Ok cookie }
    {
        cookie_of_text(text).ok_or(CookieFault::NotACookie)
    }

    /// Writes the cookie as `parse` reads it, with its letters in lower case.
    pub fn write(&self) -> [u8; 97]
        requires rid { self.now.rid < 1000 }
        requires sid { self.now.sid < 4096 }
        ensures text { result ≡ spec.cookie_text self.now }
        ensures read_again { spec.cookie_of_text result ≡ Some self.now }

        // No other cookie is written so.
        ensures one { (cookie : Cookie) → spec.IsCookie cookie → spec.cookie_text cookie ≡ result
            → cookie ≡ self.now }
    {
        self.to_text()
    }

    #[tactic(auto, unfolding(crate::specs::Cookie::cookie_text))]
    fn to_text(&self) -> [u8; 97]
        requires rid { self.now.rid < 1000 }
        requires sid { self.now.sid < 4096 }
        ensures bounds { spec.IsCookie self.now }
        ensures text { result ≡ spec.cookie_text self.now }
    {
        let history = self.history;
        let mut text = Text::<97>::new();
        text.push(b"rid=");
        text.push_number(10, 3, self.rid.into());
        text.push(b",sid=");
        text.push_number(16, 3, self.sid.into());
        text.push(b",csn=");
        text.push(&self.csn.write());
        text.push(b",gen=");
        text.push_number(16, 32, history);
        text.finish()
    }
}

/// The cookie that the whole text spells.
#[tactic(auto, unfolding(crate::specs::Cookie::cookie_of_text))]
fn cookie_of_text(text: &[u8]) -> Option<Cookie>
    ensures { result ≡ spec.cookie_of_text text.now }
{
    let ((rid, sid), text) = ids_at(text)?;
    let text = after(b",csn=", text)?;
    let Some((csn, text)) = csn_at(text) else {
        return None;
    };
    let text = after(b",gen=", text)?;
    match lower_number_at(16, 32, text)? {
        (history, []) => Some(Cookie {
            rid,
            sid,
            csn,
            history,
        }),
        _ => None,
    }
}

/// The number after `rid=`, and the text after it.
fn rid_at(text: &[u8]) -> Option<(u16, &[u8])>
    ensures { option_map (λ p. (p.0, p.1.now)) result ≡ spec.rid_at text.now }
{
    let (rid, text) = number_at(10, 3, after(b"rid=", text)?)?;
    Some((rid as u16, text))
}

/// The numbers after `rid=` and `,sid=`, and the text after them.
fn ids_at(text: &[u8]) -> Option<((u16, u16), &[u8])>
    ensures { option_map (λ p. (p.0, p.1.now)) result ≡ spec.ids_at text.now }
{
    let (rid, text) = rid_at(text)?;
    let (sid, text) = lower_number_at(16, 3, after(b",sid=", text)?)?;
    Some(((rid, sid as u16), text))
}

/// Whether the text counts as no cookie: the empty text, `rid=DDD` and `rid=DDD,sid=HHH`.
pub fn is_blank(text: &[u8]) -> bool
    ensures exact { result ≡ spec.is_blank text.now }
    ensures blank { IsTrue result ↔ spec.IsBlank text.now }
{
    ends_before_csn(text)
}

/// Whether the text ends at once, after its `rid` or after its `sid`.
#[tactic(auto, unfolding(crate::specs::Cookie::is_blank))]
fn ends_before_csn(text: &[u8]) -> bool
    ensures { result ≡ spec.is_blank text.now }
{
    text.is_empty()
        || matches!(rid_at(text), Some((_, [])))
        || matches!(ids_at(text), Some((_, [])))
}
