//! What is reported of an event.
ghost use Rattle.std.specs.Prelude.{◌≡◌, [], IfOk};
ghost use Rattle.entry_tree.specs.Selection.{search_of};
ghost use Rattle.sync_consumer.specs.Taking.{AreFit};
ghost use Rattle.cascade_report.specs.Origins as spec;

use crate::notes::{CommitOrigins, Origin};
use entry_tree::{EntryList, Spec};
use ldap_ber::{NoMemory, Octets};
use std::alloc::Global;
use std::marker::Model;
use sync_consumer::Commit;
use sync_messages::IdList;
use sync_provider::Kind;

/// A stage that took effect: the entries that it put, the identities that it dropped, and the
/// origin of what is held then, where one is known. What it put is fit for a commit.
#[derive(Drop)]
pub struct StoredStage {
    puts: EntryList,
    drops: IdList,
    origin: Option<Origin>,
}

impl Model for StoredStage {
    ghost use Rattle.sync_consumer.specs.Taking.{AreFit};
    ghost use Rattle.cascade_report.specs.ReportLines as report;

    ghost Value = { report.StoredStage };

    ghost view = { λ s. record { puts = s.puts; drops = s.drops; origin = s.origin } };

    ghost invariant = { λ s. AreFit s.puts };
}

impl StoredStage {
    /// Keeps what this commit put and dropped, where what is held then has this origin, if one is
    /// known.
    pub fn new(commit: Commit, origin: Option<Origin>) -> StoredStage
        requires { AreFit commit.puts }
        ensures { result ≡ record { puts = commit.puts; drops = commit.drops; origin = origin } }
    {
        let Commit { puts, drops, .. } = commit;
        StoredStage {
            puts,
            drops,
            origin,
        }
    }

    /// What it put and dropped, and the origin.
    pub fn parts(self) -> (EntryList, IdList, Option<Origin>)
        ensures puts { result.0 ≡ self.puts }
        ensures drops { result.1 ≡ self.drops }
        ensures origin { result.2 ≡ self.origin }
        ensures fit { AreFit result.0 }
    {
        (self.puts, self.drops, self.origin)
    }
}

/// The lines of an event so far, as bytes, and the stages that took effect in it. It knows where
/// the content of the event's provider is from: the root at the top of its providers, which is
/// itself at a root, and the notes of a replica's commits.
#[derive(Drop)]
pub struct Report<'a> {
    top: Octets,
    notes: &'a CommitOrigins,
    pub text: Vec<u8>,
    pub stages: Vec<StoredStage>,
}

impl<'a> Model for Report<'a> {
    ghost use Rattle.std.specs.Coded.{codes};
    ghost use Rattle.entry_tree.specs.FilterCode.{tree_code};
    ghost use Rattle.cascade_report.specs.Report as report;

    ghost Value = { report.Report };

    ghost coded = { Prim.hlevel (codes, tree_code) };

    ghost view = { λ t. record {
      lineage = record { top = t.top; notes = t.notes.now };
      text = t.text.items;
      stages = t.stages.items;
    } };
}

impl<'a> Report<'a> {
    /// Nothing is reported yet of what goes on with a provider of this lineage.
    pub fn new(alloc: Global, top: Octets, notes: &'a CommitOrigins) -> Report<'a>
        ensures { result
            ≡ record { lineage = record { top = top; notes = notes.now }; text = []; stages = [] } }
    {
        Report {
            top,
            notes,
            text: Vec::new(alloc),
            stages: Vec::new(alloc),
        }
    }

    /// The origin of the first `number` writes of the provider, of this kind, for whoever wants
    /// this, where one is known. It is `NoMemory` where memory runs out.
    pub fn origin(&self, kind: Kind, wanted: &Spec, number: u64) -> Result<Option<Origin>, NoMemory>
        ensures { IfOk result (λ origin.
            origin ≡ spec.origin_of kind self.now.lineage (search_of wanted.now) number) }
    {
        match kind {
            Kind::Root => Ok(Some(Origin::of(&self.top, number)?)),
            Kind::Replica => self.replica_origin(wanted, number),
        }
    }

    /// The origin of n commits of a replica.
    fn replica_origin(&self, wanted: &Spec, number: u64) -> Result<Option<Origin>, NoMemory>
        ensures { IfOk result (λ origin.
            origin ≡ spec.replica_origin self.now.lineage (search_of wanted.now) number) }
    {
        if number == 0 {
            return Ok(Some(Origin::of(&self.top, 0)?));
        }
        self.notes.passed_on((number - 1) as usize, wanted)
    }
}
