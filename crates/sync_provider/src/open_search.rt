//! A search that is open.

ghost use Rattle.std.specs.Prelude.{◌≡◌, ◌≤◌, ◌<◌, ◌+◌, ◌++◌, [], cond, false, true, length, not, IfOk, IfSome, OnOk};
ghost use Rattle.csn_cookie.specs.Cookie.{cookie_text};
ghost use Rattle.directory_writes.specs.Directory.{DirectoryState};
ghost use Rattle.directory_writes.specs.Starting.{start_of};
ghost use Rattle.entry_tree.specs.Selection.{search_of};
ghost use Rattle.sync_model.specs.Law.{is_nil};
ghost use Rattle.sync_provider.specs.HandingOut.{turn_of, turn_of_pending, has_message};
ghost use Rattle.sync_provider.specs.HandingOut.{after_own_turn};
ghost use Rattle.sync_provider.specs.Opened.{opening_of_search};
ghost use Rattle.sync_provider.specs.Queueing.{is_crowded, is_full, is_noting, limits_of};
ghost use Rattle.sync_provider.specs.Search.{pending, sliced};
ghost use Rattle.sync_provider.specs.StagedGroups.{grown_by, last_changed};
ghost use Rattle.sync_provider.specs.Staging.{first_pushed, pushed_staged, staged_for, with_group, without_groups};
ghost use Rattle.sync_slices.specs.Slices.{given_up, grows_too_much, made_ready};

use crate::changed_set::ChangedSet;
use crate::handed::Handed;
use crate::notifying::messages_for;
use crate::opened_search::OpenedSearch;
use crate::parts::shared;
use crate::pending_refresh::PendingRefresh;
use crate::persist_message::PersistMessage;
use crate::staged_group::StagedGroup;
use csn_cookie::Cookie;
use directory_writes::{Directory, Start};
use entry_tree::{EntryChange, Spec};
use ldap_ber::{NoMemory, discard};
use ldap_constants::BUSY;
use persist_queues::SearchQueue;
use std::alloc::{AllocError, Global};
use std::collections::VecDeque;
use std::marker::Model;
use std::sync::Arc;
use sync_wire::done_message;

/// The most identities that changed while a refresh goes on: each weighs 16, and all of them 16 MiB
/// at most.
const MOST_CHANGED: u64 = 1_048_576;

/// A search that is open: what is left of its refresh, and the messages of later writes that were
/// not handed out.
pub struct OpenSearch {
    alloc: Global,
    /// What its messages are numbered with.
    id: u32,
    /// Shared with the copies of the search.
    spec: Arc<Spec>,
    start: Start,
    /// How many writes the directory had at acceptance.
    accepted: u64,
    /// Whether it goes on after its refresh.
    persists: bool,
    refresh: PendingRefresh,
    queue: SearchQueue<PersistMessage>,
    /// What writes that are not accepted yet send it, a group for each write. Once all pieces of
    /// its refresh are decided, the queue has room for all of their messages.
    staged: VecDeque<StagedGroup>,
    /// How many messages are staged.
    staged_count: usize,
    /// Whether a write was too much for it. Then nothing is kept, and only the end is sent.
    over: bool,
}

/// A call of its own, so that what drops a search is one step.
impl Drop for OpenSearch {
    fn drop(self) {
        let OpenSearch {
            alloc: _,
            id: _,
            spec: _spec,
            start: _,
            accepted: _,
            persists: _,
            refresh: _refresh,
            queue: _queue,
            staged: _staged,
            staged_count: _,
            over: _,
        } = self;
    }
}

impl Model for OpenSearch {
    ghost use Rattle.std.specs.Prelude.{map};
    ghost use Rattle.std.specs.Coded.{codes};
    ghost use Rattle.directory_writes.specs.Starting.{start_of};
    ghost use Rattle.entry_tree.specs.FilterCode.{tree_code};
    ghost use Rattle.entry_tree.specs.Selection.{search_of};
    ghost use Rattle.sync_provider.specs.Staging.{HeldSearch};
    ghost use Rattle.sync_provider.specs.StagedGroups.{AreStaged};

    ghost Value = { HeldSearch };

    ghost coded = { Prim.hlevel (codes, tree_code) };

    ghost view = { λ s. record {
      search = record {
        id = s.id;
        spec = search_of s.spec.value;
        start = start_of s.start;
        accepted = s.accepted;
        persists = s.persists;
        progress = record s.refresh { due = s.queue.items };
        over = s.over;
      };
      staged = map (λ group. group.messages.items) s.staged.items;
    } };

    ghost invariant = { λ s.
        AreStaged s.over s.refresh s.queue.spare s.staged_count s.staged.items };
}

/// What a search asks for: the message ID that numbers its messages, its specification, where it
/// begins, and whether it goes on after its refresh.
#[derive(Drop)]
pub(crate) struct SearchOpening {
    pub(crate) id: u32,
    pub(crate) spec: Spec,
    pub(crate) start: Start,
    pub(crate) persists: bool,
}

impl OpenSearch {
    /// A search that is accepted after n writes, with this refresh.
    #[tactic(auto, using(crate::proofs::Filling::none_staged, crate::proofs::Filling::room_open))]
    pub(crate) fn new(
        alloc: Global,
        asked: SearchOpening,
        accepted: u64,
        refresh: PendingRefresh,
    ) -> Result<OpenSearch, NoMemory>
        ensures search { IfOk result (λ opened. opened.search ≡ record {
          id = asked.id;
          spec = search_of asked.spec;
          start = start_of asked.start;
          accepted = accepted;
          persists = asked.persists;
          progress = record refresh { due = [] };
          over = false;
        }) }
        ensures staged { IfOk result (λ opened. opened.staged ≡ []) }
    {
        let spec = shared(alloc, asked.spec)?;
        Ok(OpenSearch {
            alloc,
            id: asked.id,
            spec,
            start: asked.start,
            accepted,
            persists: asked.persists,
            refresh,
            queue: SearchQueue::new(alloc, 0),
            staged: VecDeque::new(alloc),
            staged_count: 0,
            over: false,
        })
    }

    /// A search that goes on as this one does.
    #[tactic(auto, using(crate::proofs::Filling::none_staged, crate::proofs::Filling::room_cleared))]
    pub(crate) fn copy(&self) -> Result<OpenSearch, NoMemory>
        ensures search { IfOk result (λ copy. copy.search ≡ self.now.search) }
    {
        let refresh = self.refresh.copy()?;
        let queue = copy_of_queue(self.alloc, &self.queue)?;
        let spec = self.spec.clone()?;
        Ok(OpenSearch {
            alloc: self.alloc,
            id: self.id,
            spec,
            start: self.start,
            accepted: self.accepted,
            persists: self.persists,
            refresh,
            queue,
            staged: VecDeque::new(self.alloc),
            staged_count: 0,
            over: self.over,
        })
    }

    /// Whether later writes are reported to it.
    pub(crate) fn is_noting(&self) -> bool
        ensures { result ≡ is_noting self.now.search }
    {
        let is_left = !self.refresh.is_decided();
        !self.over && (self.persists || is_left)
    }

    /// Whether a message is pending.
    #[tactic(auto, using(crate::proofs::Turns::over_has_message, crate::proofs::Turns::left_has_message, crate::proofs::Turns::rest_has_message, crate::proofs::Turns::due_has_message, crate::proofs::Journals::none_has_message))]
    pub(crate) fn has_message(&self) -> bool
        ensures { (d : DirectoryState) → result
            ≡ has_message (turn_of_pending self.now.search.id (pending d self.now.search)) }
    {
        if self.over {
            return true;
        }
        if !self.refresh.is_decided() {
            return true;
        }
        if !self.refresh.is_empty() {
            return true;
        }
        let Some(_) = self.queue.get(0) else {
            return false;
        };
        true
    }

    /// Whether a write was too much for it.
    pub(crate) fn is_over(&self) -> bool
        ensures { result ≡ self.now.search.over }
    {
        self.over
    }

    /// How it was opened, under this number, with its specification once more.
    pub(crate) fn opened(&self, number: u64, spec: Spec) -> OpenedSearch
        requires { search_of spec ≡ self.now.search.spec }
        ensures { result ≡ opening_of_search number self.now.search }
    {
        OpenedSearch {
            number,
            id: self.id,
            spec,
            start: self.start,
            accepted: self.accepted,
            persists: self.persists,
        }
    }

    /// The message that is pending first on this directory, which counts as handed out where it is
    /// not the last. The pieces of its refresh that it needs are decided.
    #[tactic(auto, using(crate::proofs::Turns::over_turn, crate::proofs::Turns::over_has_message, crate::proofs::Filling::room_handed))]
    pub(crate) fn hand_out(&mut self, directory: &Directory) -> Handed
        ensures turn { IfSome (turn_of result) (λ turn. turn
            ≡ turn_of_pending self.old.search.id (pending directory.now.state self.old.search)) }
        ensures memory { result ≡ Handed.NoMemory → has_message
            (turn_of_pending self.old.search.id (pending directory.now.state self.old.search))
            ≡ true }
        ensures state { self.new.search
            ≡ after_own_turn directory.now.state self.old.search (turn_of result) }
    {
        if self.over {
            return match done_message(self.alloc, self.id, BUSY) {
                Ok(message) => Handed::Ended(BUSY, message),
                Err(_) => Handed::NoMemory,
            };
        }
        if self.refresh.is_waiting() {
            return self.hand_out_next(directory);
        }
        if self.refresh.is_empty() {
            return self.hand_out_later();
        }
        self.refresh.hand_out(self.alloc, self.id)
    }

    /// The first message of the next pieces, which are decided. Where it is not handed out, they
    /// are not decided either.
    #[tactic(auto, using(crate::proofs::Turns::left_has_message, crate::proofs::Filling::room_open))]
    fn hand_out_next(&mut self, directory: &Directory) -> Handed
        requires over { self.old.search.over ≡ false }
        requires rest { self.old.search.progress.rest ≡ [] }
        requires left { is_nil self.old.search.progress.left ≡ false }
        ensures turn { IfSome (turn_of result) (λ turn. turn
            ≡ turn_of_pending self.old.search.id (pending directory.now.state self.old.search)) }
        ensures memory { result ≡ Handed.NoMemory → has_message
            (turn_of_pending self.old.search.id (pending directory.now.state self.old.search))
            ≡ true }
        ensures state { self.new.search
            ≡ after_own_turn directory.now.state self.old.search (turn_of result) }
    {
        let Ok(mut ready) = self.ready(directory) else {
            return Handed::NoMemory;
        };
        let handed = ready.hand_out(self.alloc, self.id);
        if !handed.is_message() {
            discard(ready);
            return handed;
        }
        self.staged.clear();
        self.staged_count = 0;
        self.refresh = ready;
        handed
    }

    /// Its refresh with the next pieces decided.
    fn ready(&self, directory: &Directory) -> Result<PendingRefresh, NoMemory>
        ensures { IfOk result (λ ready. record ready { due = self.now.search.progress.due }
            ≡ made_ready (sliced directory.now.state self.now.search)
            (length directory.now.state.writes) self.now.search.progress) }
    {
        self.refresh
            .made_ready(directory, &self.spec, self.start, self.persists)
    }

    /// The first message of later writes, once the refresh is handed out.
    #[tactic(auto, using(crate::proofs::Turns::later_turn, crate::proofs::Turns::due_has_message, crate::proofs::Turns::later_state, crate::proofs::Turns::none_turn, crate::proofs::Filling::room_more))]
    fn hand_out_later(&mut self) -> Handed
        requires left { self.old.search.progress.left ≡ [] }
        requires rest { self.old.search.progress.rest ≡ [] }
        requires over { self.old.search.over ≡ false }
        ensures turn { (d : DirectoryState) → IfSome (turn_of result)
            (λ turn. turn ≡ turn_of_pending self.old.search.id (pending d self.old.search)) }
        ensures memory { (d : DirectoryState) → result ≡ Handed.NoMemory
            → has_message (turn_of_pending self.old.search.id (pending d self.old.search)) ≡ true }
        ensures state { (d : DirectoryState)
            → self.new.search ≡ after_own_turn d self.old.search (turn_of result) }
    {
        let Some(later) = self.queue.get(0) else {
            return Handed::Nothing;
        };
        let Ok(message) = later.message(self.id) else {
            return Handed::NoMemory;
        };
        let _ = self.queue.pop();
        Handed::Message(message)
    }

    /// Drops what is staged.
    #[tactic(auto, using(crate::proofs::Filling::none_staged, crate::proofs::Filling::room_cleared))]
    pub(crate) fn unstage(&mut self)
        ensures { self.new ≡ without_groups self.old }
    {
        self.staged.clear();
        self.staged_count = 0;
    }

    /// Makes what a write sends it, after what is staged. It is not pending before the write is
    /// accepted.
    #[tactic(auto, using(crate::proofs::Filling::group_added, crate::proofs::Filling::room_more, crate::proofs::Filling::groups_added))]
    pub(crate) fn stage(&mut self, touched: &[EntryChange], cookie: Cookie) -> Result<(), NoMemory>
        requires rid { cookie.rid < 1000 }
        requires sid { cookie.sid < 4096 }
        ensures search { self.new.search ≡ self.old.search }
        ensures staged { OnOk result
            (self.new ≡ with_group touched.now (cookie_text cookie) self.old) }
    {
        let messages = self.messages_of(touched, cookie)?;
        let all = self.staged_count.checked_add(messages.len());
        let count = all.ok_or(AllocError)?;
        let changed = self.changed_with(messages.as_slice())?;
        make_room(&self.refresh, &mut self.queue, count)?;
        self.staged.push_back(StagedGroup { messages, changed })?;
        self.staged_count = count;
        Ok(())
    }

    /// What changed in the content since the acceptance once all that is staged and these messages
    /// are sent, while pieces of the refresh are left.
    #[tactic(auto, using(crate::proofs::Filling::grown_none))]
    fn changed_with(&self, messages: &[PersistMessage]) -> Result<ChangedSet, NoMemory>
        ensures { IfOk result (λ changed. changed
            ≡ grown_by self.now.search.progress.left
            (last_changed self.now.search.progress.changed self.now.staged) messages.now) }
    {
        if self.refresh.is_decided() {
            return Ok(ChangedSet::new(self.alloc));
        }
        match self.staged.back() {
            Some(group) => group.changed.with_each(messages),
            None => self.refresh.changed().with_each(messages),
        }
    }

    /// The messages that a write sends it.
    fn messages_of(
        &self,
        touched: &[EntryChange],
        cookie: Cookie,
    ) -> Result<Vec<PersistMessage>, NoMemory>
        requires rid { cookie.rid < 1000 }
        requires sid { cookie.sid < 4096 }
        ensures { IfOk result (λ messages.
            messages.items ≡ staged_for self.now.search touched.now (cookie_text cookie)) }
    {
        if self.is_noting() {
            messages_for(self.alloc, &self.spec, touched, cookie)
        } else {
            Ok(Vec::new(self.alloc))
        }
    }

    /// Puts what was staged in place, group by group, or else ends the search. It takes no memory.
    pub(crate) fn push_staged(&mut self, limit: u64)
        ensures { self.new.search ≡ pushed_staged limit self.old.staged self.old.search }
    {
        let count = self.staged.len();
        for _group in 0..count {
            self.push_next(limit);
        }
    }

    /// The same for the first group alone. Where a write was too much before, it is dropped.
    #[tactic(auto, using(crate::proofs::Filling::first_none, crate::proofs::Filling::first_some, crate::proofs::Filling::group_dropped, crate::proofs::Filling::group_counted, crate::proofs::Filling::group_fits, crate::proofs::Filling::left_dropped))]
    fn push_next(&mut self, limit: u64)
        ensures { self.new ≡ first_pushed limit self.old.search self.old.staged }
    {
        let Some(group) = self.staged.pop_front() else {
            return;
        };
        let StagedGroup { messages, changed } = group;
        self.staged_count -= messages.len();
        if self.over || messages.is_empty() {
            discard(messages);
            discard(changed);
            return;
        }
        if self.refresh.is_decided() {
            discard(changed);
            self.over = queue_messages(&mut self.refresh, &mut self.queue, messages, limit);
            return;
        }
        discard(messages);
        self.over = keep_changed(&mut self.refresh, &mut self.queue, changed, limit);
    }
}

/// Makes room for n messages in the queue, once all pieces of the refresh are decided.
fn make_room(
    refresh: &PendingRefresh,
    queue: &mut SearchQueue<PersistMessage>,
    count: usize,
) -> Result<(), NoMemory>
    ensures items { queue.new.items ≡ queue.old.items }
    ensures kept { queue.old.spare ≤ queue.new.spare }
    ensures room { OnOk result (refresh.now.left ≡ [] → count ≤ queue.new.spare) }
{
    if !refresh.is_decided() {
        return Ok(());
    }
    queue.reserve(count)
}

/// Puts the messages of a write after those that are pending. True where that would be too much;
/// then nothing is kept.
#[tactic(auto, using(crate::proofs::Filling::room_is, crate::proofs::Filling::refused_full, crate::proofs::Filling::full_is))]
fn queue_messages(
    refresh: &mut PendingRefresh,
    queue: &mut SearchQueue<PersistMessage>,
    messages: Vec<PersistMessage>,
    limit: u64,
) -> bool
    requires { length messages.items ≤ queue.old.spare }
    ensures over { result ≡ is_full limit (queue.old.items ++ messages.items) }
    ensures refresh { refresh.new ≡ cond result (given_up refresh.old) refresh.old }
    ensures queue { queue.new.items ≡ cond result [] (queue.old.items ++ messages.items) }
    ensures spare { queue.old.spare ≤ queue.new.spare + length messages.items }
{
    queue.set_limit(limit);
    if queue.push_all(messages).is_ok() {
        return false;
    }
    refresh.give_up();
    queue.end();
    true
}

/// Keeps what changed with a write. True where that is too much; then nothing is kept.
fn keep_changed(
    refresh: &mut PendingRefresh,
    queue: &mut SearchQueue<PersistMessage>,
    changed: ChangedSet,
    limit: u64,
) -> bool
    ensures over { result
        ≡ grows_too_much (limits_of limit) (length refresh.old.changed) (length changed) }
    ensures refresh { refresh.new
        ≡ cond result (given_up refresh.old) (record refresh.old { changed = changed }) }
    ensures queue { queue.new.items ≡ cond result [] queue.old.items }
    ensures spare { queue.old.spare ≤ queue.new.spare }
{
    let count = changed.len();
    if count <= refresh.changed().len() || !is_crowded(limit, count as u64) {
        refresh.set_changed(changed);
        return false;
    }
    discard(changed);
    refresh.give_up();
    queue.end();
    true
}

/// Whether n identities are more than the limit, or heavier than what a search may keep.
#[tactic(auto, using(crate::proofs::Filling::crowded_is))]
fn is_crowded(limit: u64, count: u64) -> bool
    ensures { result ≡ is_crowded limit count }
{
    count > limit || count > MOST_CHANGED
}

/// The same messages in a queue of their own.
#[tactic(auto, using(crate::proofs::Copying::taken_next))]
fn copy_of_queue(
    alloc: Global,
    queue: &SearchQueue<PersistMessage>,
) -> Result<SearchQueue<PersistMessage>, NoMemory>
    ensures { IfOk result (λ copy. copy.items ≡ queue.now.items) }
{
    let mut items = Vec::new(alloc);
    for place in 0..queue.len() {
        let later = queue.get(place).unwrap();
        items.push(later.copy()?)?;
    }
    let mut copy = SearchQueue::new(alloc, queue.len() as u64);
    match copy.push_all(items) {
        Ok(()) => Ok(copy),
        Err(_) => Err(AllocError),
    }
}
