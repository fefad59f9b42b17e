//! What a writer does: what comes next depends on its numbers and on what it did before.
ghost use Rattle.std.specs.Prelude.{◌≡◌, ◌+◌, ◌<◌, ◌^◌, true, false, None, IfOk};
ghost use Rattle.std.specs.Fmt.{decimal};
ghost use Rattle.entry_writes.specs.Sound.{is_commit, is_sound_op};
ghost use Rattle.entry_writes.specs.declared.op.Op.TheVariants.{Modify, Rename};
ghost use Rattle.drill_plan.specs.Names.{unit_rdn, unit_name};
ghost use Rattle.drill_plan.specs.Numbers as numbers;
ghost use Rattle.drill_plan.specs.Operations as spec;

use crate::attributes::{entry_attributes, octets_of_one, suffix_attributes, unit_attributes};
use crate::kinds::{department_number, surname};
use crate::naming::{entry_name, suffix_name, unit_name, unit_rdn};
use crate::numbers::{first_number, kind_of, next_number, slot_of};
use dn_names::Dn;
use entry_writes::{Edit, Edits, Op};
use ldap_ber::NoMemory;
use schema_rules::{AttributeType, How};
use std::alloc::Global;
use std::marker::Model;

/// The first operation of a drill: the suffix is added. It is `NoMemory` where memory runs out.
pub fn suffix_operation(alloc: Global) -> Result<Op, NoMemory>
    ensures op { IfOk result (λ op. op ≡ spec.add_suffix) }
    ensures asked { IfOk result (λ op. (is_sound_op op ≡ true) × (is_commit op ≡ false)) }
{
    let name = suffix_name(alloc)?;
    let attrs = suffix_attributes(alloc)?;
    Ok(Op::Add(name, attrs))
}

/// A writer, and how far it is.
#[derive(Drop)]
pub struct DrillWriter {
    alloc: Global,
    writer: u32,
    step: u32,
    number: u64,
    present: [bool; 64],
    renamed: bool,
}

impl Model for DrillWriter {
    ghost use Rattle.drill_plan.specs.Operations.{WriterState};

    ghost Value = { WriterState };

    ghost view = { λ w. record {
      writer = w.writer;
      step = w.step;
      number = w.number;
      present = w.present;
      renamed = w.renamed;
    } };
}

impl DrillWriter {
    /// The writer with this place among those of the seed, which has done nothing.
    pub fn new(alloc: Global, seed: u64, writer: u32) -> DrillWriter
        ensures { result ≡ spec.first_state seed writer }
    {
        DrillWriter {
            alloc,
            writer,
            step: 0,
            number: first_number(seed, writer),
            present: [false; 64],
            renamed: false,
        }
    }

    /// Its first operation: its unit is added. It is `NoMemory` where memory runs out.
    pub fn unit_operation(&self) -> Result<Op, NoMemory>
        requires { self.now.writer < 8 }
        ensures op { IfOk result (λ op. op ≡ spec.add_unit self.now.writer) }
        ensures asked { IfOk result (λ op. (is_sound_op op ≡ true) × (is_commit op ≡ false)) }
    {
        let name = unit_name(self.alloc, self.writer, false)?;
        let attrs = unit_attributes(self.alloc, self.writer)?;
        Ok(Op::Add(name, attrs))
    }

    /// The next operation below its unit. It is `NoMemory` where memory runs out.
    pub fn next_operation(&self) -> Result<Op, NoMemory>
        requires writer { self.now.writer < 8 }
        requires step { self.now.step < 2 ^ 16 }
        ensures op { IfOk result (λ op. op ≡ spec.operation (spec.drawn self.now)) }
        ensures asked { IfOk result (λ op. (is_sound_op op ≡ true) × (is_commit op ≡ false)) }
    {
        self.drawn().operation()
    }

    /// Goes on, where its next operation was done.
    pub fn go_on(&mut self)
        requires { self.old.step < 2 ^ 16 }
        ensures state { self.new ≡ spec.after_operation (spec.drawn self.old) }
        ensures writer { self.new.writer ≡ self.old.writer }
        ensures step { self.new.step ≡ self.old.step + 1 }
    {
        let mut next = self.drawn();
        next.note_operation();
        *self = next;
    }

    /// The writer after it has drawn its next number.
    fn drawn(&self) -> DrillWriter
        requires { self.now.step < 2 ^ 16 }
        ensures { result ≡ spec.drawn self.now }
    {
        DrillWriter {
            alloc: self.alloc,
            writer: self.writer,
            step: self.step + 1,
            number: next_number(self.number),
            present: self.present,
            renamed: self.renamed,
        }
    }

    /// The operation for the number that it drew last.
    fn operation(&self) -> Result<Op, NoMemory>
        requires { self.now.writer < 8 }
        ensures { IfOk result (λ op. op ≡ spec.operation self.now) }
    {
        if self.is_present() {
            return self.change(kind_of(self.number));
        }
        let name = self.taken_up()?;
        let slot = slot_of(self.number);
        let attrs = entry_attributes(self.alloc, slot, self.step, kind_of(self.number))?;
        Ok(Op::Add(name, attrs))
    }

    /// Whether the entry that it takes up is there.
    fn is_present(&self) -> bool
        ensures { result ≡ spec.is_present self.now }
    {
        self.present[slot_of(self.number)]
    }

    /// The name of the entry that it takes up.
    fn taken_up(&self) -> Result<Dn, NoMemory>
        requires { self.now.writer < 8 }
        ensures { IfOk result (λ name. name ≡ spec.taken_up self.now) }
    {
        entry_name(self.alloc, self.writer, self.renamed, slot_of(self.number))
    }

    /// What is done to an entry that is there.
    fn change(&self, kind: u64) -> Result<Op, NoMemory>
        requires { self.now.writer < 8 }
        ensures { IfOk result (λ op. op ≡ spec.change self.now kind) }
    {
        if kind == 0 {
            Ok(Op::Delete(self.taken_up()?))
        } else if kind == 1 {
            self.modification(department_number(), self.step % 4)
        } else if kind == 2 {
            self.renaming()
        } else {
            self.modification(surname(), self.step)
        }
    }

    /// The entry gets this number as the one value of the type.
    fn modification(&self, kind: AttributeType, number: u32) -> Result<Op, NoMemory>
        requires { self.now.writer < 8 }
        ensures { IfOk result (λ op.
            op ≡ Modify (spec.taken_up self.now) (spec.replacing kind (decimal number))) }
    {
        let name = self.taken_up()?;
        let value = format!(in self.alloc; "{number}")?;
        let edits = replacing(self.alloc, kind, value.as_bytes())?;
        Ok(Op::Modify(name, edits))
    }

    /// The unit gets its other name.
    fn renaming(&self) -> Result<Op, NoMemory>
        requires { self.now.writer < 8 }
        ensures { IfOk result (λ op. op ≡ spec.renaming self.now) }
    {
        let name = unit_name(self.alloc, self.writer, self.renamed)?;
        let rdn = unit_rdn(self.alloc, self.writer, !self.renamed)?;
        Ok(Op::Rename(name, rdn, true, None))
    }

    /// Notes that the operation for the number that it drew last was done.
    fn note_operation(&mut self)
        ensures { self.new ≡ spec.after_operation self.old }
    {
        if self.is_present() {
            self.note_change(kind_of(self.number));
        } else {
            self.present[slot_of(self.number)] = true;
        }
    }

    /// Notes what was done to an entry that is there.
    fn note_change(&mut self, kind: u64)
        ensures { self.new ≡ spec.after_change self.old kind }
    {
        if kind == 0 {
            self.present[slot_of(self.number)] = false;
        } else if kind == 2 {
            self.renamed = !self.renamed;
        }
    }
}

/// The one edit by which a type gets one value.
fn replacing(alloc: Global, kind: AttributeType, value: &[u8]) -> Result<Edits, NoMemory>
    ensures { IfOk result (λ edits. edits ≡ spec.replacing kind value.now) }
{
    let values = octets_of_one(alloc, value)?;
    let mut edits = Edits::new(alloc);
    edits.push(Edit {
        how: How::Replace,
        kind,
        values,
    })?;
    Ok(edits)
}
