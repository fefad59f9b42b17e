//! The thread of a writer.
ghost use Rattle.std.specs.Prelude.{◌≡◌, ◌+◌, ◌++◌, ◌<◌, ◌^◌, [], ◌∷◌, true, false, OnOk, OnErr};
ghost use Rattle.entry_tree.specs.Sound.{is_commit, is_sound_op};
ghost use Rattle.sync_drill.specs.Journals.{OpenedNone, own_operations};
ghost use Rattle.sync_drill.specs.Going.{HasGoneOn};
ghost use Rattle.sync_drill.specs.Writers.{MayWrite, WriterGoes};

use crate::events::DrillEvents;
use drill_plan::DrillWriter;
use entry_tree::Op;
use ldap_ber::NoMemory;
use ldap_constants::SUCCESS;
use std::alloc::AllocError;
use sync_provider::Port;

/// The clock of a drill, which stands still.
const NOW: u64 = 0;

/// A writer at its port, whether its unit is still to be added, and how many operations below that
/// are left.
#[derive(Drop)]
pub(crate) struct Writing<P> {
    pub(crate) port: P,
    pub(crate) writer: DrillWriter,
    pub(crate) needs_unit: bool,
    pub(crate) left: u32,
}

impl<P: Port> Writing<P> {
    /// Does all that is left. Less is done where memory runs out.
    pub(crate) fn work(self, events: &DrillEvents) -> Writing<P>
        requires { MayWrite self }
        ensures { WriterGoes P.home P.state self result }
    {
        let mut writing = self;
        events.begin_writing();
        writing.write_all(events);
        events.end_writing();
        writing
    }

    /// Does all that is left, the unit first.
    fn write_all(&mut self, events: &DrillEvents)
        requires { MayWrite self.old }
        ensures { WriterGoes P.home P.state self.old self.new }
    {
        match self.write_unit(events) {
            Ok(()) => self.write_each(events),
            Err(_) => {}
        }
    }

    /// Adds the unit, where it is not there.
    fn write_unit(&mut self, events: &DrillEvents) -> Result<(), NoMemory>
        requires { self.old.writer.writer < 8 }
        ensures goes { WriterGoes P.home P.state self.old self.new }
        ensures same { (self.new.writer ≡ self.old.writer) × (self.new.left ≡ self.old.left) }
        ensures unit { OnOk result (self.new.needs_unit ≡ false) }
    {
        if !self.needs_unit {
            return Ok(());
        }
        let op = self.writer.unit_operation()?;
        write_one(&mut self.port, op)?;
        self.needs_unit = false;
        events.written.advance();
        Ok(())
    }

    /// Does the operations below the unit.
    fn write_each(&mut self, events: &DrillEvents)
        requires unit { self.old.needs_unit ≡ false }
        requires writer { self.old.writer.writer < 8 }
        requires steps { self.old.writer.step + self.old.left < 2 ^ 16 }
        ensures { WriterGoes P.home P.state self.old self.new }
    {
        'operations: while self.left > 0 {
            match self.write_next() {
                Ok(()) => events.written.advance(),
                Err(_) => return,
            }
        }
    }

    /// Does the next operation below the unit. Where it is not done, the writer is as before.
    fn write_next(&mut self) -> Result<(), NoMemory>
        requires left { 0 < self.old.left }
        requires unit { self.old.needs_unit ≡ false }
        requires writer { self.old.writer.writer < 8 }
        requires step { self.old.writer.step < 2 ^ 16 }
        ensures goes { WriterGoes P.home P.state self.old self.new }
        ensures unit { self.new.needs_unit ≡ false }
        ensures writer { self.new.writer.writer ≡ self.old.writer.writer }
        ensures steps { self.new.writer.step + self.new.left
            ≡ self.old.writer.step + self.old.left }
        ensures left { OnOk result (self.new.left + 1 ≡ self.old.left) }
    {
        let op = self.writer.next_operation()?;
        write_one(&mut self.port, op)?;
        self.writer.go_on();
        self.left -= 1;
        Ok(())
    }
}

/// Does one operation. It is `NoMemory` where it is not done.
pub(crate) fn write_one<P: Port>(port: &mut P, op: Op) -> Result<(), NoMemory>
    requires { (is_sound_op op ≡ true) × (is_commit op ≡ false) }
    ensures home { P.home port.new ≡ P.home port.old }
    ensures goes_on { HasGoneOn (P.state port.old) (P.state port.new) }
    ensures no_search { OpenedNone (P.state port.old) → OpenedNone (P.state port.new) }
    ensures ok { OnOk result (own_operations (P.state port.new)
        ≡ own_operations (P.state port.old) ++ op ∷ []) }
    ensures err { OnErr result (own_operations (P.state port.new)
        ≡ own_operations (P.state port.old)) }
{
    let code = port.write(op, NOW).code;
    if code == SUCCESS {
        Ok(())
    } else {
        Err(AllocError)
    }
}
