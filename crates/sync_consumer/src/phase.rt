//! The ends of phases, of a refresh and of a search (RFC 4533, sections 3.3 and 3.4).

ghost use Rattle.std.specs.Prelude.{◌≡◌, ◌||◌, ◌&&◌, pos, not, false, cond, None, IfOk};
ghost use Rattle.std.specs.Ordering.{int_eq};
ghost use Rattle.sync_model.specs.Copy.{ends_phase, taken_info};
ghost use Rattle.sync_model.specs.Message.SyncMessage.{Done};
ghost use Rattle.sync_wire.specs.Decoding.{control_said};
ghost use Rattle.sync_wire.specs.Requesting.{persists};
ghost use Rattle.sync_consumer.specs.SyncSession.{session_of, copy_with, within, refresh_ended, StepsTo, StepsOn};
ghost use Rattle.sync_consumer.specs.declared.consumer.Taken.TheVariants.{Stored, Copied, Over};
ghost use Rattle.sync_consumer.specs.declared.session.SearchStep.TheVariants.{Goes, Ends};

use crate::commit::Commit;
use crate::consumer::Taken;
use crate::fault::Refusal;
use crate::held::HeldContent;
use crate::session::{SearchStep, SyncSession};
use crate::stage::Stage;
use ldap_ber::{NoMemory, Octets};
use ldap_constants::{E_SYNC_REFRESH_REQUIRED, SUCCESS};
use sync_messages::SyncDone;

impl SyncSession {
    /// A delete phase ends, or else a present phase, and with it the refresh or not.
    pub(crate) fn end_phase(
        &mut self,
        held: &mut HeldContent,
        deletes: bool,
        done: bool,
        cookie: Option<Octets>,
    ) -> Result<SearchStep, Refusal>
        ensures { StepsTo held.old self.old held.new self.new result
            (within false held.old self.old
            (taken_info (copy_with held.old self.old) (session_of self.old) deletes done cookie)) }
    {
        if self.is_misplaced(deletes, done) {
            return Err(Refusal::OutOfPlace);
        }
        if done {
            return self.end_refresh(held, deletes, cookie);
        }
        self.stage = self.last_stage(held, deletes)?;
        self.ended |= !deletes;
        Ok(SearchStep::Goes(Taken::Staged))
    }

    /// Whether no such phase ends here: after the refresh none does, a refresh is not done by it
    /// where the search ends with it, and a present phase ends once.
    fn is_misplaced(&self, deletes: bool, done: bool) -> bool
        ensures { result
            ≡ (self.now.persisting
            || ((done && not (persists self.now.mode)) || (not deletes && self.now.ended))) }
    {
        self.persisting || (done && !self.persists()) || self.ends_again(deletes)
    }

    /// Whether a present phase would end a second time.
    fn ends_again(&self, deletes: bool) -> bool
        ensures { result ≡ (not deletes && self.now.ended) }
    {
        !deletes && self.ended
    }

    /// The search ends.
    pub(crate) fn end_search(
        &mut self,
        held: &mut HeldContent,
        code: i64,
        control: Option<SyncDone>,
    ) -> Result<SearchStep, Refusal>
        ensures { StepsOn held.old self.old held.new self.new result
            (Done code (control_said control)) }
    {
        if self.is_over(code) {
            return Ok(SearchStep::Ends(over(held, code)));
        }
        let Some(done) = control else {
            return Err(Refusal::OutOfPlace);
        };
        if self.ends_again(done.refresh_deletes) {
            return Err(Refusal::OutOfPlace);
        }
        self.end_refresh(held, done.refresh_deletes, done.cookie)
    }

    /// Whether the search is over without the end of a refresh.
    fn is_over(&self, code: i64) -> bool
        ensures { result ≡ (persists self.now.mode || not (int_eq code (pos SUCCESS))) }
    {
        self.persists() || code != i64::from(SUCCESS)
    }

    /// The refresh ends in a delete phase, or else in a present phase, and the search with it where
    /// it does not persist.
    fn end_refresh(
        &mut self,
        held: &mut HeldContent,
        deletes: bool,
        cookie: Option<Octets>,
    ) -> Result<SearchStep, Refusal>
        ensures { StepsTo held.old self.old held.new self.new result
            (within false held.old self.old
            (refresh_ended (copy_with held.old self.old) (session_of self.old) deletes cookie)) }
    {
        let stage = self.last_stage(held, deletes)?;
        let has_cookie = cookie.is_some();
        let commit = held.commit_stage(&stage, cookie)?;
        self.named.clear();
        self.stage.clear();
        self.ended |= !deletes;
        self.persisting = true;
        Ok(self.after_refresh(took_effect(commit, has_cookie)))
    }

    /// Whether the search goes on after its refresh.
    fn after_refresh(&self, taken: Taken) -> SearchStep
        ensures { result ≡ cond (persists self.now.mode) (Goes taken) (Ends taken) }
    {
        if self.persists() {
            SearchStep::Goes(taken)
        } else {
            SearchStep::Ends(taken)
        }
    }

    /// What is staged at the end of a phase: a present phase drops what was not named.
    fn last_stage(&self, held: &HeldContent, deletes: bool) -> Result<Stage, NoMemory>
        ensures { IfOk result (λ stage.
            stage ≡ (ends_phase held.now.entries (session_of self.now) deletes).stage) }
    {
        if deletes {
            return self.stage.copy();
        }
        self.stage
            .without_each(&held.unmentioned(&self.named, &self.stage)?)
    }
}

/// What is reported of a search that is over with this code, which may say that the cookie is of no
/// use.
fn over(held: &mut HeldContent, code: i64) -> Taken
    ensures answer_taken { result ≡ Over code }
    ensures entries { held.new.entries ≡ held.old.entries }
    ensures cookie { held.new.cookie
        ≡ cond (int_eq code (pos E_SYNC_REFRESH_REQUIRED)) None held.old.cookie }
{
    if code == i64::from(E_SYNC_REFRESH_REQUIRED) {
        held.cookie = None;
    }
    Taken::Over(code)
}

/// What is reported of the end of a refresh, with or without a cookie.
fn took_effect(commit: Commit, has_cookie: bool) -> Taken
    ensures { result ≡ cond has_cookie (Stored commit) (Copied commit) }
{
    if has_cookie {
        Taken::Stored(commit)
    } else {
        Taken::Copied(commit)
    }
}
