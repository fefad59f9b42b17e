//! What a directory keeps beside its writes.

ghost use Rattle.std.specs.Prelude.{◌≡◌, ◌<◌, IfOk};
ghost use Rattle.entry_tree.specs.Sound.{is_commit};
ghost use Rattle.entry_tree.specs.Touched.{with_changes};
ghost use Rattle.directory_writes.specs.Directory.{IsNext};
ghost use Rattle.directory_writes.specs.Standing.{fresh_standing, standing_after, LeadsTo};
ghost use Rattle.directory_writes.specs.Touches as spec;
ghost use Rattle.directory_writes.specs.Touches.{number_at};

use crate::NoMemory;
use crate::preview::Preview;
use crate::previous::Previous;
use crate::ready::Ready;
use crate::touches::{Numbers, renewed};
use csn_cookie::{Csn, CsnMaker};
use entry_tree::{Op, Touched, Tree};
use shared_map::SharedMap;
use std::alloc::Global;
use std::marker::Model;
use std::mem;

/// What a directory keeps beside its writes, and by which the next one is judged: how many there
/// are and what they weigh, the last CSN, the entries, and for each entry that a commit touched
/// last the number of that commit.
pub struct Standing {
    pub(crate) count: u64,
    pub(crate) weight: u64,
    pub(crate) csn_maker: CsnMaker,
    pub(crate) tree: Tree,
    /// True only where no two entries have one name: a commit leaves none, and without writes there
    /// are no entries.
    pub(crate) has_unique_names: bool,
    numbers: Numbers,
    /// What is left of what was kept before the last write, by which the next one is made.
    previous: Option<Previous>,
}

/// A call of its own, so that what drops it is one step.
impl Drop for Standing {
    fn drop(self) {
        let Standing {
            count: _,
            weight: _,
            csn_maker: _csn_maker,
            tree: _tree,
            has_unique_names: _,
            numbers: _numbers,
            previous: _previous,
        } = self;
    }
}

impl Model for Standing {
    ghost use Rattle.directory_writes.specs.Directory.{StandsWithinLimits};
    ghost use Rattle.directory_writes.specs.Standing.{IsPrevious, StandingState};

    ghost Value = { StandingState };

    ghost view = { λ s. record {
      count = s.count;
      weight = s.weight;
      last = s.csn_maker;
      entries = s.tree;
      numbers = s.numbers;
    } };

    ghost invariant = { λ s. StandsWithinLimits s.count s.weight s.tree s.has_unique_names
        × IsPrevious s.previous s.tree s.numbers };
}

impl Standing {
    /// That of a directory without writes. Its number, which its CSNs carry, is below 4096.
    pub(crate) fn new(alloc: Global, sid: u16) -> Standing
        requires { sid < 4096 }
        ensures { result ≡ fresh_standing sid }
    {
        let csn_maker = CsnMaker::new(sid);
        let tree = Tree::new(alloc);
        let numbers = SharedMap::new(alloc);
        Standing {
            count: 0,
            weight: 0,
            csn_maker,
            tree,
            has_unique_names: true,
            numbers,
            previous: None,
        }
    }

    /// The last CSN.
    pub(crate) fn last(&self) -> Csn
        ensures { result ≡ self.now.last }
    {
        self.csn_maker.last()
    }

    /// Lends the entries.
    pub(crate) fn tree(&self) -> &Tree
        ensures { result.now ≡ self.now.entries }
    {
        &self.tree
    }

    /// The number of the write that touched the entry of this identity last, where it is kept: of
    /// another entry the CSN is that of the write.
    pub(crate) fn kept_touch_of(&self, uuid: u128) -> Option<u64>
        ensures { result ≡ number_at self.now.numbers uuid }
    {
        self.numbers.get(&uuid).copied()
    }

    /// A write that was previewed on this, with what is kept after it, which is made beside this.
    /// It is `NoMemory` where memory runs out.
    pub fn ready(&self, op: &Op, preview: Preview) -> Result<Ready, NoMemory>
        requires { IsNext self.now op.now preview }
        ensures preview { IfOk result (λ ready. ready.preview ≡ preview) }
        ensures after { IfOk result (λ ready.
            ready.after ≡ standing_after self.now op.now preview) }
    {
        let tree = self.tree.with_changes(&preview.touched)?;
        let numbers = self.numbers.copy()?;
        let after = self.after(op, &preview, tree, numbers)?;
        Ok(Ready { preview, after })
    }

    /// The same in the place of the entries before the last write, where they are kept. They are
    /// lost then, and all else is as before.
    pub(crate) fn ready_in_turn(&mut self, op: &Op, preview: Preview) -> Result<Ready, NoMemory>
        requires { IsNext self.old op.now preview }
        ensures same { self.new ≡ self.old }
        ensures preview { IfOk result (λ ready. ready.preview ≡ preview) }
        ensures after { IfOk result (λ ready.
            ready.after ≡ standing_after self.old op.now preview) }
    {
        let (spare, numbers) = self.spare()?;
        let tree = spare.changed_by(&preview.touched)?;
        let after = self.after(op, &preview, tree, numbers)?;
        Ok(Ready { preview, after })
    }

    /// The entries and their numbers once more: those before the last write, which are brought up to
    /// date, or copies.
    fn spare(&mut self) -> Result<(Tree, Numbers), NoMemory>
        ensures same { self.new ≡ self.old }
        ensures entries { IfOk result (λ spare. spare.0 ≡ self.old.entries) }
        ensures numbers { IfOk result (λ spare. spare.1 ≡ self.old.numbers) }
    {
        let previous = mem::replace(&mut self.previous, None);
        match previous {
            Some(previous) => previous.caught_up(&self.tree),
            None => copies_of(&self.tree, &self.numbers),
        }
    }

    /// What is kept after one more write, which was previewed so and leaves these entries, where
    /// these are the numbers before it.
    fn after(
        &self,
        op: &Op,
        preview: &Preview,
        tree: Tree,
        before: Numbers,
    ) -> Result<Standing, NoMemory>
        requires next { IsNext self.now op.now preview.now }
        requires entries { tree ≡ with_changes self.now.entries preview.now.touched }
        requires before { before ≡ self.now.numbers }
        ensures { IfOk result (λ after. after ≡ standing_after self.now op.now preview.now) }
    {
        let number = self.count + 1;
        let commits = is_commit(op);
        let csn_maker = preview.csn_maker.copy();
        let numbers = renewed(before, commits, number, preview.touched.list())?;
        Ok(Standing {
            count: number,
            weight: preview.weight,
            csn_maker,
            tree,
            has_unique_names: commits,
            numbers,
            previous: None,
        })
    }

    /// Keeps the entries before the last write with their numbers, unless its changes are many. It
    /// is a commit or not, and made these changes.
    pub(crate) fn keep_previous(&mut self, was: Standing, changes: Touched, commits: bool)
        requires leads { LeadsTo was.entries changes self.old.entries }
        requires numbers { spec.renewed commits self.old.count was.numbers changes
            ≡ self.old.numbers }
        ensures { self.new ≡ self.old }
    {
        let Standing {
            count: _,
            weight: _,
            csn_maker: _csn_maker,
            tree,
            has_unique_names: _,
            numbers,
            previous: _previous,
        } = was;
        let previous = Previous {
            tree,
            numbers,
            changes,
            commits,
            number: self.count,
        };
        self.previous = previous.if_few();
    }
}

/// Copies of both, which share all nodes with them.
fn copies_of(tree: &Tree, numbers: &Numbers) -> Result<(Tree, Numbers), NoMemory>
    ensures tree { IfOk result (λ copies. copies.0 ≡ tree.now) }
    ensures numbers { IfOk result (λ copies. copies.1 ≡ numbers.now) }
{
    let copy = tree.copy()?;
    Ok((copy, numbers.copy()?))
}

/// Whether it is a commit.
pub(crate) fn is_commit(op: &Op) -> bool
    ensures { result ≡ is_commit op.now }
{
    match op {
        Op::Add(_, _) | Op::Delete(_) | Op::Modify(_, _) | Op::Rename(_, _, _, _) => false,
        Op::Commit(_, _) => true,
    }
}
