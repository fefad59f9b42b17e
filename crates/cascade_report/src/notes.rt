//! What a replica keeps of its commits: whence each came.
ghost use Rattle.std.specs.Prelude.{◌≡◌, ◌++◌, [], length, slice_get, take, Some, IfOk, OnOk, OnErr};
ghost use Rattle.entry_tree.specs.Selection.{search_of};
ghost use Rattle.cascade_report.specs.Origins as spec;

use entry_tree::Spec;
use ldap_ber::{NoMemory, Octets};
use std::alloc::Global;
use std::marker::Model;

/// A prefix of a root's writes: the root's name, and how many writes.
#[derive(Drop)]
pub struct Origin {
    pub root: Octets,
    pub number: u64,
}

impl Origin {
    /// The first `number` writes of the root of that name. It is `NoMemory` where memory runs out.
    pub fn of(root: &Octets, number: u64) -> Result<Origin, NoMemory>
        ensures { IfOk result (λ origin. Some origin ≡ spec.prefix_of root.now number) }
    {
        Ok(Origin {
            root: root.copy()?,
            number,
        })
    }

    /// Makes the same origin a second time. It is `NoMemory` where memory runs out.
    pub fn copy(&self) -> Result<Origin, NoMemory>
        ensures { IfOk result (λ copy. copy ≡ self.now) }
    {
        Origin::of(&self.root, self.number)
    }
}

/// What is kept of a commit: what the replica wanted then, and the origin of its content, where one
/// was known.
#[derive(Drop)]
pub struct CommitOrigin {
    pub wanted: Spec,
    pub origin: Option<Origin>,
}

impl Model for CommitOrigin {
    ghost use Rattle.std.specs.Coded.{codes};
    ghost use Rattle.entry_tree.specs.FilterCode.{tree_code};
    ghost use Rattle.entry_tree.specs.Selection.{search_of};
    ghost use Rattle.cascade_report.specs.Origins as origins;

    ghost Value = { origins.CommitOrigin };

    ghost coded = { Prim.hlevel (codes, tree_code) };

    ghost view = { λ n. record { search = search_of n.wanted; origin = n.origin } };
}

impl CommitOrigin {
    /// Its origin, for whoever wants the same as the replica did then.
    fn passed_on(&self, wanted: &Spec) -> Result<Option<Origin>, NoMemory>
        ensures { IfOk result (λ origin.
            origin ≡ spec.passed_on (search_of wanted.now) (Some self.now)) }
    {
        if !self.wanted.same(wanted) {
            return Ok(None);
        }
        match &self.origin {
            Some(origin) => Ok(Some(origin.copy()?)),
            None => Ok(None),
        }
    }
}

/// The notes of a replica, one for each of its commits, in their order.
#[derive(Drop)]
pub struct CommitOrigins {
    notes: Vec<CommitOrigin>,
}

impl Model for CommitOrigins {
    ghost use Rattle.std.specs.Prelude.{List};
    ghost use Rattle.std.specs.Coded.{codes};
    ghost use Rattle.entry_tree.specs.FilterCode.{tree_code};
    ghost use Rattle.cascade_report.specs.Origins as origins;

    ghost Value = { List origins.CommitOrigin };

    ghost coded = { Prim.hlevel (codes, tree_code) };

    ghost view = { λ n. n.notes.items };
}

impl CommitOrigins {
    /// Those of no commit.
    pub fn new(alloc: Global) -> CommitOrigins
        ensures { result ≡ [] }
    {
        CommitOrigins {
            notes: Vec::new(alloc),
        }
    }

    /// Puts the notes of some more commits at the end. It is `NoMemory` where memory runs out, and
    /// the notes are as before.
    pub fn append(&mut self, mut notes: Vec<CommitOrigin>) -> Result<(), NoMemory>
        ensures ok { OnOk result (self.new ≡ self.old ++ notes.items) }
        ensures err { OnErr result (self.new ≡ self.old) }
    {
        self.notes.append(&mut notes)
    }

    /// Reports how many commits there are notes of.
    pub fn len(&self) -> usize
        ensures { result ≡ length self.now }
    {
        self.notes.len()
    }

    /// The notes of the first commits, n.
    pub fn truncate(&mut self, count: usize)
        ensures { self.new ≡ take count self.old }
    {
        self.notes.truncate(count);
    }

    /// The origin that the note at this place passes on to whoever wants this, if any. It is
    /// `NoMemory` where memory runs out.
    pub fn passed_on(&self, place: usize, wanted: &Spec) -> Result<Option<Origin>, NoMemory>
        ensures { IfOk result (λ origin.
            origin ≡ spec.passed_on (search_of wanted.now) (slice_get self.now place)) }
    {
        match self.notes.get(place) {
            Some(note) => note.passed_on(wanted),
            None => Ok(None),
        }
    }
}
