//! How a directory draws its CSNs.

ghost use Rattle.std.specs.Prelude.{◌≡◌, ◌<◌, ◌↔◌, IfOk, IfErr, IsErr, OnErr, IsTrue};
ghost use Rattle.std.specs.Result.{result_ok};
ghost use Rattle.csn_cookie.specs.Csn.{start, is_before};
ghost use Rattle.csn_cookie.specs.CsnMaker.{next_csn, IsGreatest};

use crate::csn::Csn;
use crate::fault::CookieFault;
use std::marker::Model;

/// Draws the CSNs of one directory, which rise strictly.
#[derive(Debug, Drop)]
pub struct CsnMaker {
    last: Csn,
}

impl Model for CsnMaker {
    ghost use Rattle.csn_cookie.specs.Csn.{CsnValue};

    ghost Value = { CsnValue };

    ghost view = { λ m. m.last };
}

impl CsnMaker {
    /// The maker of a directory without writes.
    pub fn new(sid: u16) -> CsnMaker
        requires { sid < 4096 }
        ensures { result ≡ start sid }
    {
        CsnMaker {
            last: Csn::start(sid),
        }
    }

    /// The CSN that was drawn last, or that of a directory without writes.
    pub fn last(&self) -> Csn
        ensures { result ≡ self.now }
    {
        self.last
    }

    /// A maker that draws the same CSNs.
    pub fn copy(&self) -> CsnMaker
        ensures { result ≡ self.now }
    {
        CsnMaker { last: self.last }
    }

    /// Draws the next CSN, where the clock shows `now`, in microseconds from the first moment of
    /// 1970 on. A clock past the year 9999 counts as its end. It is `CsnsSpent` where the last CSN
    /// is the greatest one, and the maker is as before.
    pub fn next(&mut self, now: u64) -> Result<Csn, CookieFault>
        ensures exact { result_ok result ≡ next_csn now self.old }
        ensures drawn { IfOk result (λ csn. self.new ≡ csn) }

        // It is greater than the one before, whatever the clock does.
        ensures rises { IfOk result (λ csn. IsTrue (is_before self.old csn)) }
        ensures spent { IsErr result ↔ IsGreatest self.old }
        ensures fault { IfErr result (λ e. e ≡ CookieFault.CsnsSpent) }
        ensures err { OnErr result (self.new ≡ self.old) }
    {
        let next = self.last.next(now).ok_or(CookieFault::CsnsSpent)?;
        self.last = next;
        Ok(next)
    }
}
