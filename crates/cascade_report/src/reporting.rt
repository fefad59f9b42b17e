//! The lines that are reported of an event, each put at the end.
ghost use Rattle.std.specs.Prelude.{◌≡◌, ◌∷◌, [], Bool, OnOk, OnErr};
ghost use Rattle.sync_consumer.specs.Taking.{AreFit};
ghost use Rattle.cascade_report.specs.ReportLines.{commit_reported};
ghost use Rattle.cascade_report.specs.ReportLines.{ReportLine as line};
ghost use Rattle.cascade_report.specs.Report.{said};

use crate::digested::DigestedConsumer;
use crate::lines::{
    push_cut, push_ended, push_fault, push_nothing, push_opened, push_refused, push_sent,
    push_settled, push_stored, push_taken,
};
use crate::notes::Origin;
use crate::report::{Report, StoredStage};
use ldap_ber::NoMemory;
use sync_consumer::Commit;

impl Report<'_> {
    /// A search is open, at n writes of its provider. It is `NoMemory` where memory runs out, and
    /// the report is as before.
    #[tactic(auto, using(crate::proofs::Reports::reported))]
    pub fn opened(&mut self, name: &[u8], writes: u64) -> Result<(), NoMemory>
        ensures line { (persists : Bool)
            → OnOk result (self.new ≡ said self.old (line.Opened name.now persists writes ∷ [])) }
        ensures err { OnErr result (self.new ≡ self.old) }
    {
        push_opened(&mut self.text, name, writes)
    }

    /// A search is refused with this code. It is `NoMemory` where memory runs out, and the report
    /// is as before.
    #[tactic(auto, using(crate::proofs::Reports::reported))]
    pub fn refused(&mut self, name: &[u8], code: u32) -> Result<(), NoMemory>
        ensures line { (persists : Bool)
            → OnOk result (self.new ≡ said self.old (line.Refused name.now persists code ∷ [])) }
        ensures err { OnErr result (self.new ≡ self.old) }
    {
        push_refused(&mut self.text, name, code)
    }

    /// These bytes went into the link. It is `NoMemory` where memory runs out, and the report is as
    /// before.
    #[tactic(auto, using(crate::proofs::Reports::reported))]
    pub fn sent(&mut self, name: &[u8], message: &[u8]) -> Result<(), NoMemory>
        ensures line { OnOk result
            (self.new ≡ said self.old (line.Sent name.now message.now ∷ [])) }
        ensures err { OnErr result (self.new ≡ self.old) }
    {
        push_sent(&mut self.text, name, message)
    }

    /// A message was taken, and changed no entries. It is `NoMemory` where memory runs out, and the
    /// report is as before.
    #[tactic(auto, using(crate::proofs::Reports::reported))]
    pub fn taken(&mut self, name: &[u8]) -> Result<(), NoMemory>
        ensures line { OnOk result (self.new ≡ said self.old (line.Taken name.now ∷ [])) }
        ensures err { OnErr result (self.new ≡ self.old) }
    {
        push_taken(&mut self.text, name)
    }

    /// A search is over, with this code. It is `NoMemory` where memory runs out, and the report is
    /// as before.
    #[tactic(auto, using(crate::proofs::Reports::reported))]
    pub fn ended(&mut self, name: &[u8], code: i64) -> Result<(), NoMemory>
        ensures line { OnOk result (self.new ≡ said self.old (line.Ended name.now code ∷ [])) }
        ensures err { OnErr result (self.new ≡ self.old) }
    {
        push_ended(&mut self.text, name, code)
    }

    /// A message was refused for this fault. It is `NoMemory` where memory runs out, and the report
    /// is as before.
    #[tactic(auto, using(crate::proofs::Reports::reported))]
    pub fn faulted(&mut self, name: &[u8], fault: &[u8]) -> Result<(), NoMemory>
        ensures line { OnOk result
            (self.new ≡ said self.old (line.Faulted name.now fault.now ∷ [])) }
        ensures err { OnErr result (self.new ≡ self.old) }
    {
        push_fault(&mut self.text, name, fault)
    }

    /// A search was dropped. It is `NoMemory` where memory runs out, and the report is as before.
    #[tactic(auto, using(crate::proofs::Reports::reported))]
    pub fn cut(&mut self, name: &[u8]) -> Result<(), NoMemory>
        ensures line { OnOk result (self.new ≡ said self.old (line.Cut name.now ∷ [])) }
        ensures err { OnErr result (self.new ≡ self.old) }
    {
        push_cut(&mut self.text, name)
    }

    /// There was nothing to send, to take or to cut. It is `NoMemory` where memory runs out, and
    /// the report is as before.
    #[tactic(auto, using(crate::proofs::Reports::reported))]
    pub fn nothing(&mut self, name: &[u8]) -> Result<(), NoMemory>
        ensures line { OnOk result (self.new ≡ said self.old (line.Nothing name.now ∷ [])) }
        ensures err { OnErr result (self.new ≡ self.old) }
    {
        push_nothing(&mut self.text, name)
    }

    /// A settling is done, at n writes of the provider. It is `NoMemory` where memory runs out, and
    /// the report is as before.
    #[tactic(auto, using(crate::proofs::Reports::reported))]
    pub fn settled(&mut self, name: &[u8], writes: u64) -> Result<(), NoMemory>
        ensures line { OnOk result (self.new ≡ said self.old (line.Settled name.now writes ∷ [])) }
        ensures err { OnErr result (self.new ≡ self.old) }
    {
        push_settled(&mut self.text, name, writes)
    }

    /// A stage took effect, with which a consumer holds this prefix of its provider's writes, of
    /// this origin. It is `NoMemory` where memory runs out, and the report is as before.
    pub fn stored(
        &mut self,
        name: &[u8],
        consumer: &mut DigestedConsumer,
        number: u64,
        origin: Option<Origin>,
        commit: Commit,
    ) -> Result<(), NoMemory>
        requires { AreFit commit.puts }
        ensures line { OnOk result (self.new ≡ said self.old (line.Stored name.now (record {
          number = number;
          entries = consumer.old.copy.held;
          origin = origin;
          commit = commit_reported commit;
          search = consumer.old.spec;
        }) ∷ [])) }
        ensures err { OnErr result (self.new ≡ self.old) }
        ensures same { consumer.new ≡ consumer.old }
    {
        self.stages.reserve(1)?;
        push_stored(&mut self.text, name, consumer, number, &origin)?;
        self.stages.push_reserved(StoredStage::new(commit, origin));
        Ok(())
    }
}
