//! A provider of a script.
ghost use Rattle.std.specs.Prelude.{◌≡◌, ◌<◌, ◌^◌, true, false, length, map, None, IfOk, IfSome};
ghost use Rattle.csn_cookie.specs.Csn as csn_specs;
ghost use Rattle.entry_tree.specs.Selection.{search_of};
ghost use Rattle.entry_tree.specs.Fitting.{is_within_entry_limit};
ghost use Rattle.entry_tree.specs.Sound.{is_commit, is_sound_op, is_sound_put};
ghost use Rattle.std.specs.List.{list_all};
ghost use Rattle.sync_provider.specs.Accepting as accepting;
ghost use Rattle.directory_writes.specs.Directory as directory;
ghost use Rattle.sync_provider.specs.Answering.{WriteLeaves, CommitsLeave, HandOutLeaves, DropLeaves};
ghost use Rattle.sync_provider.specs.HandingOut.{is_closing, search_at, turn_of};
ghost use Rattle.sync_provider.specs.Machine as machine;
ghost use Rattle.sync_provider.specs.Placing.{ComesBack, put_back};
ghost use Rattle.sync_provider.specs.Returning.{snapshot_of, HasNoWriteSince};
ghost use Rattle.cascade_nodes.specs.Opening.{answer_to, after_accepted};
ghost use Rattle.cascade_nodes.specs.Ours.{IsOurs, IsSpelled};

use csn_cookie::Csn;
use dn_names::Dn;
use entry_tree::{Entry, Op, Spec};
use ldap_ber::{NoMemory, Octets};
use std::alloc::Global;
use std::marker::Model;
use sync_provider::{
    Accepted, CommitFault, Handed, Kind, Reply, SearchSnapshot, StagedCommit, SyncDirectory,
    SyncSearch,
};

/// The message ID of each message of a script.
pub const MESSAGE_ID: u32 = 1;

/// A provider whose searches have the message ID of a script's messages.
pub struct ScriptProvider {
    provider: SyncDirectory,
}

/// A call of its own, so that what drops a provider is one step.
impl Drop for ScriptProvider {
    fn drop(self) {
        let ScriptProvider {
            provider: _provider,
        } = self;
    }
}

impl Model for ScriptProvider {
    ghost use Rattle.std.specs.Coded.{codes};
    ghost use Rattle.entry_tree.specs.FilterCode.{tree_code};
    ghost use Rattle.sync_provider.specs.Machine.{ProviderState};
    ghost use Rattle.cascade_nodes.specs.Ours.{AreOurs};

    ghost Value = { ProviderState };

    ghost coded = { Prim.hlevel (codes, tree_code) };

    ghost view = { λ s. s.provider };

    ghost invariant = { λ s. AreOurs s.provider.searches };
}

impl ScriptProvider {
    /// A provider with this suffix, without writes and searches. Its number, which is below 4096,
    /// is that of its history too. It is `NoMemory` where memory runs out.
    pub fn new(
        alloc: Global,
        suffix: Dn,
        number: u16,
        kind: Kind,
    ) -> Result<ScriptProvider, NoMemory>
        requires { number < 4096 }
        ensures { IfOk result (λ source. source ≡ machine.fresh suffix number number kind) }
    {
        let history = u128::from(number);
        let provider = SyncDirectory::new(alloc, suffix, number, history, kind)?;
        Ok(ScriptProvider { provider })
    }

    /// Where its writes come from.
    pub fn kind(&self) -> Kind
        ensures { result ≡ self.now.kind }
    {
        self.provider.kind()
    }

    /// Lends the suffix, which names the naming context (RFC 4512, section 5.1): each entry that a
    /// client adds is named at or below it. That of a replica is empty.
    pub fn suffix(&self) -> &Dn
        ensures { result.now ≡ self.now.directory.suffix }
    {
        self.provider.suffix()
    }

    /// How many writes were accepted. Each was sound, had nothing against it on the entries before
    /// it, and has a CSN above those before it.
    pub fn writes(&self) -> u64
        ensures value { result ≡ length self.now.directory.writes }
        ensures small { result < 2 ^ 63 }
        ensures accepted { directory.AreAccepted
            self.now.directory.suffix self.now.directory.history self.now.directory.writes }
        ensures rises { directory.CsnsRise self.now.directory.sid self.now.directory.writes }
    {
        self.provider.writes()
    }

    /// The entries after all writes, in ascending order of identity. It is `NoMemory` where memory
    /// runs out.
    pub fn entries(&self) -> Result<Vec<&Entry>, NoMemory>
        ensures { IfOk result (λ list.
            map (λ e. e.now) list.items ≡ directory.entries_of self.now.directory) }
    {
        self.provider.tree().entries()
    }

    /// How many accepted writes have a CSN that is not greater than this one.
    pub fn upto(&self, csn: Csn) -> u64
        ensures { result ≡ csn_specs.upto (directory.csns self.now.directory.writes) csn }
    {
        self.provider.upto(csn)
    }

    /// Applies a write where the clock shows `now`, in microseconds from the first moment of 1970
    /// on. The reply has the first code that rejects it, or success; it has other where memory runs
    /// out, and then the provider is as before.
    #[tactic(auto, using(crate::proofs::Asked::wrote_ours))]
    pub fn write(&mut self, op: Op, now: u64) -> Reply
        requires sound { is_sound_op op ≡ true }
        requires asked { is_commit op ≡ false }
        ensures leaves { WriteLeaves self.old op now result self.new }
    {
        self.provider.write(op, now)
    }

    /// Adds one write for each of these commits where the clock shows `now`, in microseconds from
    /// the first moment of 1970 on, all of them or none. The answer is the number of accepted
    /// writes after them, or the first cause that rejects one of them. It is `LimitReached`,
    /// `DuplicateName`, `NotAReplica` or `NoMemory`, and the provider is as before then.
    #[tactic(auto, using(crate::proofs::Asked::each_committed_ours))]
    pub fn commit_each(&mut self, commits: Vec<StagedCommit>, now: u64) -> Result<u64, CommitFault>
        requires sound { list_all (λ commit. list_all is_sound_put commit.puts) commits.items
            ≡ true }
        requires light { list_all
            (λ commit. list_all is_within_entry_limit commit.puts) commits.items ≡ true }
        ensures leaves { CommitsLeave self.old commits.items now result self.new }
    {
        self.provider.commit_each(commits, now)
    }

    /// The session log keeps n touches at most from now on.
    pub fn set_log_limit(&mut self, limit: u64)
        ensures { self.new ≡ machine.log_limited self.old limit }
    {
        self.provider.set_log_limit(limit);
    }

    /// The queue of each search holds n messages at most, from the next write on, or, while pieces
    /// of its refresh are left, n identities may have changed.
    pub fn set_queue_limit(&mut self, limit: u64)
        ensures { self.new ≡ machine.queue_limited self.old limit }
    {
        self.provider.set_queue_limit(limit);
    }

    /// Opens a search for what is wanted with this value of its control, or reports what rejects
    /// it.
    #[tactic(auto, using(crate::proofs::Asked::answered, crate::proofs::Asked::accepted_state, crate::proofs::Asked::accepted_ours))]
    pub fn accept(&mut self, wanted: Spec, control: Octets) -> Accepted
        ensures answer { accepting.AnswersAccept result
            (answer_to self.old (search_of wanted) control) }
        ensures state { self.new ≡ after_accepted self.old (search_of wanted) control result }
    {
        let ask = SyncSearch {
            id: MESSAGE_ID,
            spec: wanted,
            control,
        };
        self.provider.accept(ask)
    }

    /// The next message of the search with this number, which has a spelling. Where there is no
    /// message none is asked for.
    #[tactic(auto, using(crate::proofs::Asked::turn_ours))]
    pub fn hand_out(&mut self, number: u64) -> Handed
        ensures leaves { HandOutLeaves self.old number result self.new }
        ensures gone { is_closing (turn_of result) ≡ true
            → search_at self.new.searches number ≡ None }
        ensures spelled { IsSpelled result }
    {
        self.provider.hand_out(number)
    }

    /// The search with this number as it stands now, for a later return to this moment. It is
    /// `NoMemory` where memory runs out.
    #[tactic(auto, using(crate::proofs::Asked::ours_then))]
    pub fn search_snapshot(&self, number: u64) -> Result<SearchSnapshot, NoMemory>
        ensures value { IfOk result (λ snapshot. snapshot ≡ snapshot_of self.now number) }
        ensures back { ComesBack self.now.searches number }
        ensures ours { IfOk result (λ snapshot. IfSome snapshot.search IsOurs) }
    {
        self.provider.search_snapshot(number)
    }

    /// Returns a search to an earlier moment, since which no write came. It takes no memory.
    #[tactic(auto, using(crate::proofs::Asked::put_back_ours))]
    pub fn return_to_search(&mut self, snapshot: SearchSnapshot)
        requires snapshot { HasNoWriteSince self.old.directory snapshot }
        requires ours { IfSome snapshot.search IsOurs }
        ensures { self.new ≡ record self.old {
          searches = put_back self.old.searches snapshot.number snapshot.search;
        } }
    {
        self.provider.return_to_search(snapshot);
    }

    /// Closes the search with this number. False where none is open.
    #[tactic(auto, using(crate::proofs::Asked::dropped_ours))]
    pub fn drop_search(&mut self, number: u64) -> bool
        ensures leaves { DropLeaves self.old number result self.new }
        ensures gone { search_at self.new.searches number ≡ None }
    {
        self.provider.drop_search(number)
    }
}
