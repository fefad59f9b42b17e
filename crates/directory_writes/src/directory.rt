//! A directory by its accepted writes.

ghost use Rattle.std.specs.Prelude.{◌≡◌, ◌+◌, ◌<◌, ◌≤◌, true, [], ◌∷◌, ◌++◌, length, is_some, None, Some, Ok, IfOk, IfErr, OnOk, OnErr, IfSome};
ghost use Rattle.std.specs.List.{list_all};
ghost use Rattle.std.specs.List.Sorted.{IsStrictlySortedBy};
ghost use Rattle.std.specs.Ordering.{nat_cmp};
ghost use Rattle.csn_cookie.specs.Csn as csn_specs;
ghost use Rattle.entry_tree.specs.History.{identity as identity_of, state_of, touched_over};
ghost use Rattle.entry_tree.specs.Fitting.{fits, is_within_entry_limit};
ghost use Rattle.entry_tree.specs.State.{entry_at};
ghost use Rattle.entry_tree.specs.declared.entry.Entry.{Entry};
ghost use Rattle.entry_tree.specs.Sound.{is_sound_op, is_sound_put};
ghost use Rattle.entry_tree.specs.Touched.{touched};
ghost use Rattle.directory_writes.specs.Commits.{commit_refusal, Rejects};
ghost use Rattle.directory_writes.specs.Starting as starting;
ghost use Rattle.directory_writes.specs.Directory as directory;
ghost use Rattle.directory_writes.specs.Formed.{AreFormed};
ghost use Rattle.directory_writes.specs.Ready.{IsReadyWrite};
ghost use Rattle.directory_writes.specs.Starting.{start_of, CanBegin};
ghost use Rattle.directory_writes.specs.Touches.{last_touch};
ghost use Rattle.directory_writes.specs.Weights as weights;
ghost use Rattle.directory_writes.specs.Weights.{kept_weight};

use crate::NoMemory;
use crate::commit::DirectoryCommitFault;
use crate::formed::{is_in_range, is_well_formed};
use crate::judging::Drawn;
use crate::preview::Preview;
use crate::ready::Ready;
use crate::standing::{Standing, is_commit};
use crate::start::Start;
use crate::touches::note_each;
use crate::weights::op_weight;
use csn_cookie::{Cookie, Csn};
use dn_names::Dn;
use entry_tree::{Entry, Op, OpFault, Tree, Write};
use ldap_ber::{Octets, discard};
use ldap_constants::{ADMIN_LIMIT_EXCEEDED, SUCCESS};
use session_log::SessionLog;
use std::alloc::{AllocError, Global};
use std::marker::Model;
use std::mem;

/// How many notes the session log of a new directory keeps.
const FIRST_LOG_LIMIT: u64 = 1_000;

/// The entries of a directory, with the writes that led to them and what these touched.
pub struct Directory {
    suffix: Dn,
    sid: u16,
    history: u128,
    accepted: Vec<Write>,
    /// What the latest writes touched.
    log: SessionLog,
    /// What is kept beside the writes.
    standing: Standing,
}

/// A call of its own, so that what drops a directory is one step.
impl Drop for Directory {
    fn drop(self) {
        let Directory {
            suffix: _suffix,
            sid: _,
            history: _,
            accepted: _accepted,
            log: _log,
            standing: _standing,
        } = self;
    }
}

/// Contracts see its state, and for how many more writes and notes it has room.
impl Model for Directory {
    ghost use Rattle.std.specs.Prelude.{◌-◌, vec_capacity, vec_len};
    ghost use Rattle.directory_writes.specs.Directory.{DirectoryWithRoom, IsKeptBeside};

    ghost Value = { DirectoryWithRoom };

    ghost view = { λ d. record {
      state = record {
        suffix = d.suffix;
        sid = d.sid;
        history = d.history;
        writes = d.accepted.items;
        log = d.log.log;
      };
      room = vec_capacity d.accepted - vec_len d.accepted;
      spare = d.log.spare;
    } };

    ghost invariant = { λ d. IsKeptBeside
        (record {
          suffix = d.suffix;
          sid = d.sid;
          history = d.history;
          writes = d.accepted.items;
          log = d.log.log;
        })
        d.standing };
}

impl Directory {
    /// A directory without writes. Its number, which its CSNs carry, is below 4096.
    pub fn new(alloc: Global, suffix: Dn, sid: u16, history: u128) -> Directory
        requires { sid < 4096 }
        ensures { result.state ≡ directory.fresh_directory suffix sid history }
    {
        Directory {
            suffix,
            sid,
            history,
            accepted: Vec::new(alloc),
            log: SessionLog::new(alloc, FIRST_LOG_LIMIT),
            standing: Standing::new(alloc, sid),
        }
    }

    /// Lends the suffix, which names the naming context (RFC 4512, section 5.1): each entry that a
    /// client adds is named at or below it. That of a replica is empty.
    pub fn suffix(&self) -> &Dn
        ensures { result.now ≡ self.now.state.suffix }
    {
        &self.suffix
    }

    /// Gives the number that distinguishes the cookies of this directory from those of another.
    pub fn history(&self) -> u128
        ensures { result ≡ self.now.state.history }
    {
        self.history
    }

    /// Lends the entries after all writes.
    pub fn tree(&self) -> &Tree
        ensures { result.now ≡ directory.entries_of self.now.state }
    {
        self.standing.tree()
    }

    /// Lends what is kept beside the writes, by which the next one is judged.
    pub fn standing(&self) -> &Standing
        ensures { directory.IsStanding self.now.state result.now }
    {
        &self.standing
    }

    /// The accepted writes, the first of which has the number 1. The CSN of each is in range, and what
    /// a client asked for is well formed.
    pub fn accepted(&self) -> &[Write]
        ensures value { result.now ≡ self.now.state.writes }
        ensures accepted { directory.AreAccepted
            self.now.state.suffix self.now.state.history self.now.state.writes }
        ensures rises { directory.CsnsRise self.now.state.sid self.now.state.writes }
        ensures formed { AreFormed self.now.state.writes }
    {
        self.accepted.as_slice()
    }

    /// How many accepted writes have a CSN that is not greater than this one.
    pub fn upto(&self, csn: Csn) -> u64
        ensures { result ≡ csn_specs.upto (directory.csns self.now.state.writes) csn }
    {
        let writes = self.accepted.as_slice();
        writes.partition_point(|write| write.csn <= csn) as u64
    }

    /// The cookie of the content after all writes.
    pub fn cookie(&self) -> Cookie
        ensures value { result
            ≡ directory.cookie_at self.now.state.sid self.now.state.history
            (directory.last_csn_of self.now.state) }
        ensures number { result.sid < 4096 }
    {
        Cookie {
            rid: 0,
            sid: self.sid,
            csn: self.standing.last(),
            history: self.history,
        }
    }

    /// The identities of the entries that the writes after write `number` touched, ascending. The
    /// session log reports them from its floor on. It is `NoMemory` where memory runs out.
    #[tactic(auto, using(crate::proofs::Served::walk_since))]
    pub fn touched_since(&self, number: u64) -> Result<Vec<u128>, NoMemory>
        requires { self.now.state.log.floor ≤ number }
        ensures exact { IfOk result (λ uuids. uuids.items
            ≡ touched_over self.now.state.history self.now.state.writes number
            (length self.now.state.writes)) }
        ensures ascends { IfOk result (λ uuids. IsStrictlySortedBy nat_cmp uuids.items) }
    {
        self.log.since(number)
    }

    /// The number of the last write that touched the entry of this identity.
    pub fn last_touch_of(&self, uuid: u128) -> u64
        requires { is_some (entry_at (directory.entries_of self.now.state) uuid) ≡ true }
        ensures { result
            ≡ last_touch (state_of self.now.state.history self.now.state.writes)
            (length self.now.state.writes) uuid }
    {
        match self.standing.kept_touch_of(uuid) {
            Some(number) => number,
            None => self.written_upto(uuid),
        }
    }

    /// How many accepted writes have a CSN that is not greater than that of the entry of this
    /// identity.
    fn written_upto(&self, uuid: u128) -> u64
        ensures { (entry : Entry)
            → entry_at (directory.entries_of self.now.state) uuid ≡ Some entry
            → result ≡ csn_specs.upto (directory.csns self.now.state.writes) entry.csn }
    {
        match self.tree().get(uuid) {
            Some(entry) => self.upto(entry.csn),
            None => 0,
        }
    }

    /// The number of writes that a request's cookie names, where one is given and is servable: it
    /// is of this directory's history, and its CSN is not above the last one.
    pub fn prefix_of_cookie(&self, cookie: &Option<Octets>) -> Option<u64>
        ensures value { result ≡ starting.prefix_of_cookie self.now.state cookie.now }
        ensures low { IfSome result (λ number. number ≤ length self.now.state.writes) }
    {
        match cookie {
            None => None,
            Some(text) => match Cookie::parse(text.as_slice()) {
                Ok(cookie) => self.prefix_of(&cookie),
                Err(_) => None,
            },
        }
    }

    #[tactic(auto, using(crate::proofs::Csns::upto_low))]
    fn prefix_of(&self, cookie: &Cookie) -> Option<u64>
        ensures value { result ≡ starting.prefix_of self.now.state (Some cookie.now) }
        ensures low { IfSome result (λ number. number ≤ length self.now.state.writes) }
    {
        if cookie.history == self.history && cookie.csn <= self.standing.last() {
            Some(self.upto(cookie.csn))
        } else {
            None
        }
    }

    /// Where a search begins that has the content after n writes, or none.
    #[tactic(auto, using(crate::proofs::Served::covered, crate::proofs::Served::uncovered))]
    pub fn start_at(&self, prefix: Option<u64>) -> Start
        requires { IfSome prefix (λ number. number ≤ length self.now.state.writes) }
        ensures value { start_of result ≡ starting.start_at self.now.state prefix }
        ensures served { CanBegin self.now.state (start_of result) }
    {
        match prefix {
            None => Start::InitialContent,
            Some(number) => {
                if self.log.covers(number) {
                    Start::DeletePhase(number)
                } else {
                    Start::PresentPhase(number)
                }
            }
        }
    }

    /// The session log keeps n notes from now on.
    pub fn set_log_limit(&mut self, limit: u64)
        ensures { self.new.state ≡ directory.with_log_limit self.old.state limit }
    {
        self.log.trim(limit);
    }

    /// Applies a write where the clock shows `now`, in microseconds from the first moment of 1970
    /// on, and answers its code. A write with another code than success leaves the directory as it
    /// was. It is `NoMemory` where memory runs out, and the directory is as before.
    #[tactic(auto, using(crate::proofs::Judged::written_good, crate::proofs::Judged::code_good, crate::proofs::Judged::refused_code, crate::proofs::Judged::refused_same))]
    pub fn write(&mut self, op: Op, now: u64) -> Result<u32, NoMemory>
        requires sound { is_sound_op op ≡ true }
        requires fits { fits (directory.entries_of self.old.state) op ≡ true }
        ensures code { IfOk result (λ code. code ≡ directory.write_code self.old.state op now) }
        ensures ok { OnOk result (self.new.state ≡ directory.written self.old.state op now) }
        ensures err { OnErr result (self.new.state ≡ self.old.state) }
    {
        match self.preview(&op, now) {
            Ok(preview) => {
                self.put(op, preview)?;
                Ok(SUCCESS)
            }
            Err(fault) => {
                discard(op);
                code_of(fault)
            }
        }
    }

    /// What `write` would do where the clock shows `now`, or the code that it would answer. The
    /// directory is left as it is. It is `Code` or `NoMemory`.
    pub fn preview(&self, op: &Op, now: u64) -> Result<Preview, OpFault>
        requires sound { is_sound_op op.now ≡ true }
        requires fits { fits (directory.entries_of self.now.state) op.now ≡ true }
        ensures accepted { IfOk result (λ preview. directory.judged self.now.state op.now now
            ≡ Ok (record { csn = preview.csn; op = op.now })) }
        ensures touched { IfOk result (λ preview. preview.touched
            ≡ touched (directory.entries_of self.now.state)
            (directory.entries_after self.now.state.history
            (self.now.state.writes ++ record { csn = preview.csn; op = op.now } ∷ []))) }
        ensures planned { IfOk result (directory.IsPreview self.now.state op.now) }
        ensures refused { IfErr result
            (directory.Refuses (directory.judged self.now.state op.now now)) }
    {
        let drawn = self.draw(op, now)?;
        let number = self.accepted.len() as u64 + 1;
        let uuid = identity(self.history, number);
        let tree = self.standing.tree();
        let touched = tree.preview(op, &self.suffix, uuid, drawn.csn)?;
        Ok(Preview {
            csn: drawn.csn,
            csn_maker: drawn.csn_maker,
            weight: drawn.weight,
            touched,
        })
    }

    /// Makes a write that was previewed, which is not judged again. All that takes memory is made
    /// first, and nothing after that can fail. Where memory runs out the directory is as it was.
    pub fn put(&mut self, op: Op, preview: Preview) -> Result<(), NoMemory>
        requires { directory.IsPreview self.old.state op preview }
        ensures ok { OnOk result (self.new.state
            ≡ directory.with_write self.old.state (record { csn = preview.csn; op = op })) }
        ensures err { OnErr result (self.new.state ≡ self.old.state) }
    {
        let ready = self.ready(&op, preview)?;
        self.make_room(1, ready.preview.touched.list().len())?;
        self.install(op, ready);
        Ok(())
    }

    /// A write that was previewed, with what is kept beside the writes after it. It is `NoMemory`
    /// where memory runs out.
    pub fn ready(&mut self, op: &Op, preview: Preview) -> Result<Ready, NoMemory>
        requires { directory.IsPreview self.old.state op.now preview }
        ensures state { self.new.state ≡ self.old.state }
        ensures ready { IfOk result (IsReadyWrite self.new.state op.now) }
        ensures preview { IfOk result (λ ready. ready.preview ≡ preview) }
    {
        self.standing.ready_in_turn(op, preview)
    }

    /// Makes room for as many writes and notes beyond those that are kept. It is `NoMemory` where
    /// memory runs out.
    pub fn make_room(&mut self, writes: usize, notes: usize) -> Result<(), NoMemory>
        ensures state { self.new.state ≡ self.old.state }
        ensures room { OnOk result (writes ≤ self.new.room) }
        ensures spare { OnOk result (notes ≤ self.new.spare) }
    {
        self.accepted.reserve(writes)?;
        self.log.reserve(notes)
    }

    /// Puts a write that is ready in place: it goes after the others, is noted, and what is kept
    /// after it takes the place of what is kept. It takes no memory, and can't fail.
    pub fn install(&mut self, op: Op, ready: Ready)
        requires ready { IsReadyWrite self.old.state op ready }
        requires room { 0 < self.old.room }
        requires spare { length ready.preview.touched ≤ self.old.spare }
        ensures state { self.new.state ≡ directory.with_write self.old.state
            (record { csn = ready.preview.csn; op = op }) }
        ensures room { self.old.room ≤ self.new.room + 1 }
        ensures spare { self.old.spare ≤ self.new.spare + length ready.preview.touched }
    {
        let Ready { preview, after } = ready;
        is_in_range(preview.csn);
        is_well_formed(&op);
        let commits = is_commit(&op);
        let number = self.accepted.len() as u64 + 1;
        note_each(&mut self.log, number, preview.touched.list());
        self.accepted.push_reserved(Write {
            csn: preview.csn,
            op,
        });
        let before = mem::replace(&mut self.standing, after);
        self.standing
            .keep_previous(before, preview.touched, commits);
    }

    /// Whether a commit that puts these entries and drops these identities may be kept where the
    /// clock shows `now`, or the first cause against it. It is `LimitReached` with the limit,
    /// `DuplicateName` with both identities, or `NoMemory`.
    pub fn check_commit(
        &self,
        puts: &[Entry],
        drops: &[u128],
        now: u64,
    ) -> Result<(), DirectoryCommitFault>
        ensures ok { OnOk result (commit_refusal self.now.state puts.now drops.now now ≡ None) }
        ensures refused { IfErr result
            (Rejects (commit_refusal self.now.state puts.now drops.now now)) }
    {
        let _ = self.judge_commit(puts, drops, now)?;
        Ok(())
    }

    /// What a commit that puts these entries and drops these identities would do where the clock
    /// shows `now`, or the first cause against it, as `check_commit` reports it. The directory is
    /// left as it is.
    pub fn preview_commit(
        &self,
        puts: &[Entry],
        drops: &[u128],
        now: u64,
    ) -> Result<Preview, DirectoryCommitFault>
        requires sound { list_all is_sound_put puts.now ≡ true }
        requires light { list_all is_within_entry_limit puts.now ≡ true }
        ensures ok { OnOk result (commit_refusal self.now.state puts.now drops.now now ≡ None) }
        ensures accepted { IfOk result (λ preview.
            directory.judged self.now.state (Op.Commit puts.now drops.now) now
            ≡ Ok (record { csn = preview.csn; op = Op.Commit puts.now drops.now })) }
        ensures planned { IfOk result
            (directory.IsPreview self.now.state (Op.Commit puts.now drops.now)) }
        ensures refused { IfErr result
            (Rejects (commit_refusal self.now.state puts.now drops.now now)) }
    {
        self.judge_commit(puts, drops, now)
    }

    /// What `preview_commit` reports, of entries that need not be sound or light. The commit is
    /// judged by what it puts and drops where the write before it is a commit, or it is the first
    /// write.
    fn judge_commit(
        &self,
        puts: &[Entry],
        drops: &[u128],
        now: u64,
    ) -> Result<Preview, DirectoryCommitFault>
        ensures ok { OnOk result (commit_refusal self.now.state puts.now drops.now now ≡ None) }
        ensures accepted { IfOk result (λ preview.
            directory.judged self.now.state (Op.Commit puts.now drops.now) now
            ≡ Ok (record { csn = preview.csn; op = Op.Commit puts.now drops.now })) }
        ensures planned { IfOk result (λ preview.
            list_all is_sound_put puts.now ≡ true → list_all is_within_entry_limit puts.now ≡ true
            → directory.IsPreview self.now.state (Op.Commit puts.now drops.now) preview) }
        ensures refused { IfErr result
            (Rejects (commit_refusal self.now.state puts.now drops.now now)) }
    {
        self.standing.preview_commit(puts, drops, now)
    }

    /// The change number that this operation would get, or adminLimitExceeded where it cannot be
    /// kept.
    fn draw(&self, op: &Op, now: u64) -> Result<Drawn, OpFault>
        ensures room { OnOk result (directory.has_room self.now.state.writes op.now ≡ true) }
        ensures value { IfOk result (λ drawn.
            directory.csn_of_next_write self.now.state now ≡ Some drawn.csn) }
        ensures maker { IfOk result (λ drawn. drawn.csn_maker ≡ drawn.csn) }
        ensures weight { IfOk result (λ drawn.
            drawn.weight ≡ kept_weight self.now.state.writes + weights.op_weight op.now) }
        ensures refused { IfErr result
            (directory.Refuses (directory.judged self.now.state op.now now)) }
    {
        match self.standing.draw_within(op_weight(op), now) {
            Ok(drawn) => Ok(drawn),
            Err(_) => Err(OpFault::Code(ADMIN_LIMIT_EXCEEDED)),
        }
    }
}

/// The code that a fault reports.
fn code_of(fault: OpFault) -> Result<u32, NoMemory>
    ensures { IfOk result (λ code. fault ≡ OpFault.Code code) }
{
    match fault {
        OpFault::Code(code) => Ok(code),
        OpFault::NoMemory => Err(AllocError),
    }
}

/// The identity of the entry that write `number` adds (RFC 9562, section 5.8): a UUID of version 8
/// of the low 48 bits of the history's number and 62 bits of the write's.
fn identity(history: u128, number: u64) -> u128
    ensures { result ≡ identity_of history number }
{
    let history = history % (1 << 48);
    let number = u128::from(number % (1 << 62));
    (history << 80) + (8 << 76) + (2 << 62) + number
}
