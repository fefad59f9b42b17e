//! The consumer.

ghost use Rattle.std.specs.Prelude.{◌≡◌, true, Ok, None, Some, option_map, is_some, IfOk, OnOk, OnErr};
ghost use Rattle.entry_tree.specs.Fitting.{is_directory_content};
ghost use Rattle.entry_tree.specs.Selection.{search_of};
ghost use Rattle.ldap_messages.specs.Whole.{message_value};
ghost use Rattle.sync_model.specs.Copy as model;
ghost use Rattle.sync_wire.specs.Kind as kind;
ghost use Rattle.sync_consumer.specs.declared.consumer.Taken.TheVariants.{Fault};
ghost use Rattle.sync_consumer.specs.declared.fault.PeerFault.TheVariants.{OutOfPlace};
ghost use Rattle.sync_consumer.specs.SyncSession.{session_of, copy_of, copy_with};
ghost use Rattle.sync_consumer.specs.Committing.{HaveUniqueNames, CanBeCommitted};
ghost use Rattle.sync_consumer.specs.Taking as taking;

use crate::commit::Commit;
use crate::entry_map::EntryMap;
use crate::fault::{PeerFault, Refusal};
use crate::held::{HeldContent, copy_of};
use crate::session::{SearchStep, SyncSession};
use entry_tree::Spec;
use ldap_ber::{NoMemory, Octets};
use ldap_messages::Message;
use std::alloc::Global;
use std::marker::Model;
use sync_messages::{Mode, SyncRequest};
use sync_wire::{search_request, tag_of};

/// What came of a message.
#[derive(Drop)]
pub enum Taken {
    /// It was staged, or it changes nothing.
    Staged,
    /// The stage took effect, and the cookie is that of its content.
    Stored(Commit),
    /// A refresh ended without a cookie: the stage took effect, and the cookie stays.
    Copied(Commit),
    /// The search is over, with this result code. The stage is dropped.
    Over(i64),
    /// The message is refused, and the search given up. Entries and cookie are as before.
    Fault(PeerFault),
    /// All is as before.
    NoMemory,
}

/// A copy of what a specification selects from a directory.
pub struct Consumer {
    spec: Spec,
    reload_hint: bool,
    held: HeldContent,
    session: Option<SyncSession>,
}

/// A call of its own, so that what drops a consumer is one step.
impl Drop for Consumer {
    fn drop(self) {
        let Consumer {
            spec: _spec,
            reload_hint: _,
            held: _held,
            session: _session,
        } = self;
    }
}

/// Contracts see the filter as a tree.
impl Model for Consumer {
    ghost use Rattle.std.specs.Prelude.{option_map};
    ghost use Rattle.std.specs.Coded.{codes};
    ghost use Rattle.entry_tree.specs.FilterCode.{tree_code};
    ghost use Rattle.entry_tree.specs.Selection.{search_of};
    ghost use Rattle.sync_consumer.specs.Committing.{IsReadyOn, stage_in};
    ghost use Rattle.sync_consumer.specs.SyncSession.{session_of, copy_of};
    ghost use Rattle.sync_consumer.specs.Taking.{ConsumerState};

    ghost Value = { ConsumerState };

    ghost coded = { Prim.hlevel (codes, tree_code) };

    ghost view = { λ c. record {
      spec = search_of c.spec;
      reload = c.reload_hint;
      copy = copy_of c.held (option_map session_of c.session);
    } };

    ghost invariant = { λ c. IsReadyOn c.held.entries
        (stage_in (option_map session_of c.session)) };
}

impl Consumer {
    /// A consumer of what the specification selects, without entries, a cookie and a search. Each
    /// of its requests has this reloadHint (RFC 4533, section 2.2). It takes no memory.
    #[tactic(auto, using(crate::proofs::Upholding::nothing_kept))]
    pub fn new(alloc: Global, spec: Spec, reload_hint: bool) -> Result<Consumer, NoMemory>
        ensures { result
            ≡ Ok (record { spec = search_of spec; reload = reload_hint; copy = taking.nothing }) }
    {
        Ok(Consumer {
            spec,
            reload_hint,
            held: HeldContent::new(alloc),
            session: None,
        })
    }

    /// A consumer that goes on as this one does. It is `NoMemory` where memory runs out.
    #[tactic(auto, using(crate::proofs::Upholding::same_kept))]
    pub fn copy(&self) -> Result<Consumer, NoMemory>
        ensures { IfOk result (λ copy. copy ≡ self.now) }
    {
        let spec = copy_of_spec(&self.spec)?;
        let (held, session) = copies_of(&self.held, &self.session)?;
        Ok(Consumer {
            spec,
            reload_hint: self.reload_hint,
            held,
            session,
        })
    }

    /// Begins a search in this mode, in place of one that runs. The answer asks for it: a
    /// SearchRequest with this message ID, whose Sync Request control (RFC 4533, section 2.2) has
    /// the cookie that is held. It is `NoMemory` where memory runs out, and the consumer is as
    /// before.
    pub fn request(&mut self, id: u32, mode: Mode) -> Result<Message, NoMemory>
        ensures message { IfOk result
            (λ message. message_value message ≡ taking.request_of self.old id mode) }
        // The value of its control is read again as what is asked.
        ensures read_again { IfOk result (λ message. taking.IsReadAgain self.old mode) }
        ensures ok { OnOk result (self.new ≡ taking.requesting self.old id mode) }
        ensures err { OnErr result (self.new ≡ self.old) }
    {
        let alloc = self.held.entries.allocator();
        let sync = SyncRequest {
            mode,
            cookie: copy_of(&self.held.cookie)?,
            reload_hint: self.reload_hint,
        };
        let message = search_request(alloc, id, &self.spec, &sync)?;
        self.session = Some(SyncSession::new(alloc, id, mode));
        Ok(message)
    }

    /// Takes a message of the search (RFC 4533, sections 3.3 and 3.4). Where none runs, the message
    /// is of another one, or says what no provider may say then, it is `Fault`.
    pub fn take(&mut self, message: &Message) -> Taken
        ensures exact { taking.Takes self.old.copy message.now self.new.copy result }
        ensures entries { taking.KeepsEntries self.old.copy self.new.copy result }
        ensures cookie { taking.KeepsCookie self.old.copy self.new.copy result }
        // What is put may be put by a commit of a replica: sound values, and no entry too heavy.
        ensures fit { taking.PutsFit result }
        // Whatever came of the message, no name is there twice, and a directory may have the
        // entries.
        ensures names { HaveUniqueNames self.new.copy.held }
        ensures clear { is_directory_content self.new.copy.held ≡ true }
        // The puts and drops of a stage that took effect are a commit: a directory with the entries
        // before has room for it, and is left with those after it.
        ensures committed { CanBeCommitted self.old.copy self.new.copy result }
        ensures spec { self.new.spec ≡ self.old.spec }
        ensures reload { self.new.reload ≡ self.old.reload }
    {
        let Some(session) = self.session.take() else {
            return out_of_place(message);
        };
        let (session, taken) = after_message(session, &mut self.held, message);
        self.session = session;
        taken
    }

    /// Whether a search runs.
    pub fn has_session(&self) -> bool
        ensures { result ≡ is_some self.now.copy.session }
    {
        self.session.is_some()
    }

    /// Whether a search runs whose refresh is done, and which goes on (RFC 4533, section 3.4).
    pub fn is_persisting(&self) -> bool
        ensures { result ≡ taking.is_persisting self.now.copy.session }
    {
        match &self.session {
            Some(session) => session.persisting,
            None => false,
        }
    }

    /// Ends the search, and drops what is staged.
    #[tactic(auto, using(crate::proofs::Upholding::idle_kept))]
    pub fn cut(&mut self)
        ensures { self.new ≡ record self.old { copy = taking.without_search self.old.copy } }
    {
        self.session = None;
    }

    /// Loses the cookie. The entries stay, and a search that runs goes on.
    pub fn lose_cookie(&mut self)
        ensures { self.new ≡ record self.old { copy = record self.old.copy { cookie = None } } }
    {
        self.held.cookie = None;
    }

    /// Wants this from now on, in place of what was wanted. The entries stay, up to the refresh
    /// that reports which of them are wanted now. The cookie is lost, since it speaks of what was
    /// wanted before, and a search that runs is ended, with what is staged. It takes no memory.
    pub fn respec(&mut self, spec: Spec)
        ensures { self.new ≡ taking.wanting self.old (search_of spec) }
    {
        self.spec = spec;
        self.lose_cookie();
        self.cut();
    }

    /// Takes this text for the cookie, in place of the one that was there. A search that runs goes
    /// on. It is `NoMemory` where memory runs out, and the consumer is as before.
    pub fn set_cookie(&mut self, text: &[u8]) -> Result<(), NoMemory>
        ensures ok { OnOk result (self.new
            ≡ record self.old { copy = record self.old.copy { cookie = Some text.now } }) }
        ensures err { OnErr result (self.new ≡ self.old) }
    {
        let alloc = self.held.entries.allocator();
        self.held.cookie = Some(Octets::from_slice(alloc, text)?);
        Ok(())
    }

    /// Lends the entries that the consumer holds. What is staged is not among them.
    pub fn entries(&self) -> &EntryMap
        ensures { result.now ≡ self.now.copy.held }
    {
        &self.held.entries
    }

    /// Lends the cookie that the consumer holds, whose octets came from its provider or were given
    /// to it. It is None where there is none.
    pub fn cookie(&self) -> Option<&[u8]>
        ensures { option_map (λ cookie. cookie.now) result ≡ self.now.copy.cookie }
    {
        match &self.held.cookie {
            Some(cookie) => Some(cookie.as_slice()),
            None => None,
        }
    }

    /// Lends what the consumer wants: the base, the scope and the filter of its searches.
    pub fn spec(&self) -> &Spec
        ensures { search_of result.now ≡ self.now.spec }
    {
        &self.spec
    }
}

/// Copies of what is held and of the search.
fn copies_of(
    held: &HeldContent,
    session: &Option<SyncSession>,
) -> Result<(HeldContent, Option<SyncSession>), NoMemory>
    ensures held { IfOk result (λ copies. copies.0 ≡ held.now) }
    ensures session { IfOk result (λ copies.
        option_map session_of copies.1 ≡ option_map session_of session.now) }
{
    let held = held.copy()?;
    Ok((held, copy_of_session(session)?))
}

fn copy_of_session(session: &Option<SyncSession>) -> Result<Option<SyncSession>, NoMemory>
    ensures { IfOk result (λ copy. option_map session_of copy ≡ option_map session_of session.now) }
{
    match session {
        Some(session) => Ok(Some(session.copy()?)),
        None => Ok(None),
    }
}

fn copy_of_spec(spec: &Spec) -> Result<Spec, NoMemory>
    ensures { IfOk result (λ copy. search_of copy ≡ search_of spec.now) }
{
    Ok(Spec {
        base: spec.base.copy()?,
        scope: spec.scope,
        filter: spec.filter.copy()?,
    })
}

/// The search where it goes on after a message, and what came of that.
fn after_message(
    session: SyncSession,
    held: &mut HeldContent,
    message: &Message,
) -> (Option<SyncSession>, Taken)
    ensures { taking.Takes (copy_with held.old session) message.now
        (copy_of held.new (option_map session_of result.0)) result.1 }
{
    let mut search = session;
    match search.take(held, message) {
        Ok(SearchStep::Goes(taken)) => (Some(search), taken),
        Ok(SearchStep::Ends(taken)) => (None, taken),
        Err(Refusal::NoMemory) => (Some(search), Taken::NoMemory),
        Err(Refusal::OutOfPlace) => (None, out_of_place(message)),
        Err(Refusal::Fault(fault)) => (None, Taken::Fault(fault)),
    }
}

fn out_of_place(message: &Message) -> Taken
    ensures { result ≡ Fault (OutOfPlace (kind.tag_of message.now.op)) }
{
    Taken::Fault(PeerFault::OutOfPlace(tag_of(&message.op)))
}
