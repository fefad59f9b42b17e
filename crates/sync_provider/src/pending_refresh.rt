//! What is left of a refresh.

ghost use Rattle.std.specs.Prelude.{◌≡◌, ◌&&◌, ◌∷◌, ◌++◌, ℕ, [], cond, drop, length, not, true, IfOk, IfSome};
ghost use Rattle.directory_writes.specs.Starting.{start_of, CanBegin};
ghost use Rattle.entry_tree.specs.Selection.{search_of};
ghost use Rattle.sync_model.specs.Law.{is_nil};
ghost use Rattle.sync_model.specs.Stream.{is_delete_phase};
ghost use Rattle.sync_provider.specs.HandingOut.{turn_of, turn_of_pending, has_message, is_going_on};
ghost use Rattle.sync_provider.specs.Search.{sliced_in};
ghost use Rattle.sync_slices.specs.Slices as slices;

use crate::NoMemory;
use crate::changed_set::ChangedSet;
use crate::gathering::Gathering;
use crate::handed::Handed;
use crate::parts::Parts;
use crate::refreshing::{gather_end, gather_piece};
use crate::walk::Walk;
use directory_writes::{Directory, Start};
use entry_tree::Spec;
use ldap_constants::SUCCESS;
use std::alloc::Global;
use std::marker::Model;

/// A refresh, as far as it is not handed out (RFC 4533, section 3.3): the identities that are not
/// decided, and the messages of those that are.
pub(crate) struct PendingRefresh {
    alloc: Global,
    /// How many writes there were when each piece was decided.
    marks: Vec<u64>,
    walk: Walk,
    /// The identities that are to be named, and wait for a set to be full.
    names: Vec<u128>,
    /// What changed in the content since the acceptance, while pieces are left.
    changed: ChangedSet,
    parts: Parts,
}

/// A call of its own, so that what drops a refresh is one step.
impl Drop for PendingRefresh {
    fn drop(self) {
        let PendingRefresh {
            alloc: _,
            marks: _marks,
            walk: _walk,
            names: _names,
            changed: _changed,
            parts: _parts,
        } = self;
    }
}

impl Model for PendingRefresh {
    ghost use Rattle.std.specs.Prelude.{[]};
    ghost use Rattle.sync_slices.specs.Slices.{SliceProgress};

    ghost Value = { SliceProgress };

    ghost view = { λ r. record {
      marks = r.marks.items;
      left = r.walk;
      names = r.names.items;
      changed = r.changed;
      rest = r.parts;
      due = [];
    } };
}

impl PendingRefresh {
    /// A refresh that begins so on this directory. Its first piece is decided.
    pub(crate) fn new(
        alloc: Global,
        directory: &Directory,
        spec: &Spec,
        start: Start,
        persists: bool,
    ) -> Result<PendingRefresh, NoMemory>
        requires { CanBegin directory.now.state (start_of start) }
        ensures { IfOk result (λ refresh. refresh ≡ slices.first_progress
            (sliced_in directory.now.state (search_of spec.now) (start_of start) persists
            (length directory.now.state.writes))) }
    {
        let walk = Walk::new(alloc, directory, start)?;
        let undecided = PendingRefresh::undecided(alloc, walk);
        undecided.with_next(directory, spec, start, persists)
    }

    /// A refresh that goes through these, of which no piece is decided.
    fn undecided(alloc: Global, walk: Walk) -> PendingRefresh
        ensures { result ≡ record {
          marks = [];
          left = walk;
          names = [];
          changed = [];
          rest = [];
          due = [];
        } }
    {
        PendingRefresh {
            alloc,
            marks: Vec::new(alloc),
            walk,
            names: Vec::new(alloc),
            changed: ChangedSet::new(alloc),
            parts: Parts::none(),
        }
    }

    /// The same refresh once more. It shares all but the numbers of writes at its pieces and the
    /// names that wait. It is `NoMemory` where memory runs out.
    pub(crate) fn copy(&self) -> Result<PendingRefresh, NoMemory>
        ensures { IfOk result (λ copy. copy ≡ self.now) }
    {
        let marks = self.marks.as_slice().to_vec(self.alloc)?;
        let names = self.names.as_slice().to_vec(self.alloc)?;
        let walk = self.walk.copy()?;
        let changed = self.changed.copy()?;
        let parts = self.parts.copy()?;
        Ok(PendingRefresh {
            alloc: self.alloc,
            marks,
            walk,
            names,
            changed,
            parts,
        })
    }

    /// Whether all identities are decided.
    pub(crate) fn is_decided(&self) -> bool
        ensures { result ≡ is_nil self.now.left }
    {
        self.walk.is_over()
    }

    /// Whether no message is decided, and identities are left.
    pub(crate) fn is_waiting(&self) -> bool
        ensures { result ≡ (is_nil self.now.rest && not (is_nil self.now.left)) }
    {
        self.parts.is_empty() && !self.walk.is_over()
    }

    /// Whether no message is decided that was not handed out.
    pub(crate) fn is_empty(&self) -> bool
        ensures { result ≡ is_nil self.now.rest }
    {
        self.parts.is_empty()
    }

    /// The first message that is decided, which counts as handed out where it is not the last one
    /// of its search.
    pub(crate) fn hand_out(&mut self, alloc: Global, id: u32) -> Handed
        ensures turn { IfSome (turn_of result)
            (λ turn. turn ≡ turn_of_pending id self.old.rest) }
        ensures memory { result ≡ Handed.NoMemory
            → has_message (turn_of_pending id self.old.rest) ≡ true }
        ensures state { self.new
            ≡ cond (is_going_on (turn_of result))
            (record self.old { rest = drop 1 self.old.rest }) self.old }
    {
        let Some(part) = self.parts.first() else {
            return Handed::Nothing;
        };
        let closes = part.closes();
        let Ok(message) = part.message(alloc, id) else {
            return Handed::NoMemory;
        };
        if closes {
            return Handed::Ended(SUCCESS, message);
        }
        self.parts.advance();
        Handed::Message(message)
    }

    /// Nothing is left, but how many writes there were at each piece. It takes no memory.
    pub(crate) fn give_up(&mut self)
        ensures { self.new ≡ slices.given_up self.old }
    {
        self.walk.end();
        self.names = Vec::new(self.alloc);
        self.changed = ChangedSet::new(self.alloc);
        self.parts = Parts::none();
    }

    /// What changed in the content since the acceptance.
    pub(crate) fn changed(&self) -> &ChangedSet
        ensures { result.now ≡ self.now.changed }
    {
        &self.changed
    }

    /// This changed in the content since the acceptance. It takes no memory.
    pub(crate) fn set_changed(&mut self, changed: ChangedSet)
        ensures { self.new ≡ record self.old { changed = changed } }
    {
        self.changed = changed;
    }

    /// The refresh with further pieces decided on this directory, until there is a message or no
    /// identity is left. It is `NoMemory` where memory runs out.
    pub(crate) fn made_ready(
        &self,
        directory: &Directory,
        spec: &Spec,
        start: Start,
        persists: bool,
    ) -> Result<PendingRefresh, NoMemory>
        ensures { IfOk result (λ ready. (accepted : ℕ) → ready ≡ slices.made_ready
            (sliced_in directory.now.state (search_of spec.now) (start_of start) persists
            accepted)
            (length directory.now.state.writes) self.now) }
    {
        let mut ready = self.copy()?;
        while ready.is_waiting() {
            ready = ready.with_next(directory, spec, start, persists)?;
        }
        Ok(ready)
    }

    /// The refresh with one piece more decided on this directory, and after the last one its end.
    fn with_next(
        &self,
        directory: &Directory,
        spec: &Spec,
        start: Start,
        persists: bool,
    ) -> Result<PendingRefresh, NoMemory>
        requires { self.now.rest ≡ [] }
        ensures { IfOk result (λ next. (accepted : ℕ) → next ≡ slices.with_next
            (sliced_in directory.now.state (search_of spec.now) (start_of start) persists
            accepted)
            (length directory.now.state.writes) self.now) }
    {
        let uuids = self.walk.next_piece()?;
        let mut gathering = self.gathering(start)?;
        gather_piece(directory, spec, start, uuids.as_slice(), &mut gathering)?;
        let walk = self.walk.after_piece(uuids.as_slice())?;
        let marks = self.marks_with(directory)?;
        if !walk.is_over() {
            let changed = self.changed.copy()?;
            return decided(self.alloc, marks, walk, changed, gathering);
        }
        gather_end(directory, spec, persists, &self.changed, &mut gathering)?;
        let changed = ChangedSet::new(self.alloc);
        decided(
            self.alloc,
            marks,
            Walk::none(self.alloc),
            changed,
            gathering,
        )
    }

    /// The names that wait, to be gathered with what is decided next.
    fn gathering(&self, start: Start) -> Result<Gathering, NoMemory>
        ensures { IfOk result (λ gathering. gathering ≡ record {
          deletes = is_delete_phase (start_of start);
          messages = [];
          names = self.now.names;
        }) }
    {
        let names = self.names.as_slice().to_vec(self.alloc)?;
        Ok(Gathering::new(self.alloc, start.deletes(), names))
    }

    /// The numbers of writes at the pieces, and that of now.
    fn marks_with(&self, directory: &Directory) -> Result<Vec<u64>, NoMemory>
        ensures { IfOk result (λ marks.
            marks.items ≡ self.now.marks ++ length directory.now.state.writes ∷ []) }
    {
        let mut marks = self.marks.as_slice().to_vec(self.alloc)?;
        marks.push(directory.accepted().len() as u64)?;
        Ok(marks)
    }
}

/// A refresh of which this is left, with what was gathered.
fn decided(
    alloc: Global,
    marks: Vec<u64>,
    walk: Walk,
    changed: ChangedSet,
    gathering: Gathering,
) -> Result<PendingRefresh, NoMemory>
    ensures { IfOk result (λ refresh. refresh ≡ record {
      marks = marks.items;
      left = walk;
      names = gathering.names;
      changed = changed;
      rest = gathering.messages;
      due = [];
    }) }
{
    let (items, names) = gathering.into_parts();
    let parts = Parts::new(alloc, items)?;
    Ok(PendingRefresh {
        alloc,
        marks,
        walk,
        names,
        changed,
        parts,
    })
}
