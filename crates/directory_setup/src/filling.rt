//! How a directory is filled with the entries of an LDIF file.

ghost use Rattle.std.specs.Prelude.{◌≡◌, IfOk, OnErr};
ghost use Rattle.directory_setup.specs.Filling.{AddsOn, FillsPart, FillsUp, StepsOn, is_add};
ghost use Rattle.directory_setup.specs.Setup.{reader_of};
ghost use Rattle.sync_provider.specs.Journal.{port_state};

use crate::refusal::LineCause;
use entry_tree::{OpFault, read_op};
use ldap_ber::NoMemory;
use ldap_constants::{OTHER, SUCCESS};
use ldif_text::{LdifFault, Records};
use schema_rules::Change;
use std::alloc::{AllocError, Global};
use sync_io::Clock;
use sync_provider::Provider;

/// How filling ended.
#[derive(Clone, Copy, Debug, PartialEq, Eq)]
pub enum Filling {
    /// All entries were added.
    Filled,
    /// The text is refused at this line.
    Refused(u64, LineCause),
}

/// What became of the next record.
#[derive(Clone, Copy, Debug, PartialEq, Eq)]
pub(crate) enum RecordOutcome {
    /// Its entry was added.
    Added,
    /// There is none, or it is refused.
    Over(Filling),
}

fn is_add(change: &Change) -> bool
    ensures { result ≡ is_add change.now }
{
    match change {
        Change::Add(_, _) => true,
        Change::Delete(_) | Change::Modify(_, _) | Change::Rename(_, _, _, _) => false,
    }
}

/// The text is refused at this line.
fn refused(line: u64, cause: LineCause) -> RecordOutcome
    ensures { result ≡ RecordOutcome.Over (Filling.Refused line cause) }
{
    RecordOutcome::Over(Filling::Refused(line, cause))
}

/// Adds an entry, which is refused at this line where its code is not success.
fn add(
    alloc: Global,
    provider: &mut Provider,
    change: &Change,
    line: u64,
    now: u64,
) -> Result<RecordOutcome, NoMemory>
    ensures adds { IfOk result (λ taken. AddsOn change.now line (port_state provider.old) taken
        (port_state provider.new)) }
    ensures err { OnErr result (port_state provider.new ≡ port_state provider.old) }
{
    let op = match read_op(alloc, change) {
        Ok(op) => op,
        Err(OpFault::Code(code)) => {
            return Ok(refused(line, LineCause::Refused(code)));
        }
        Err(OpFault::NoMemory) => return Err(AllocError),
    };
    let code = provider.write(op, now).code;
    if code == SUCCESS {
        return Ok(RecordOutcome::Added);
    }
    if code == OTHER {
        return Err(AllocError);
    }
    Ok(refused(line, LineCause::Refused(code)))
}

/// Adds the entry of the next record.
fn add_next<K: Clock>(
    alloc: Global,
    provider: &mut Provider,
    records: &mut Records<'_>,
    clock: &mut K,
) -> Result<RecordOutcome, NoMemory>
    ensures steps { IfOk result (λ taken. StepsOn records.old (port_state provider.old) taken
        records.new (port_state provider.new)) }
    ensures err { OnErr result (port_state provider.new ≡ port_state provider.old) }
{
    match records.next(alloc) {
        Ok(Some(change)) => {
            let line = records.line();
            if !is_add(&change) {
                return Ok(refused(line, LineCause::BadChange));
            }
            add(alloc, provider, &change, line, clock.now())
        }
        Ok(None) => Ok(RecordOutcome::Over(Filling::Filled)),
        Err(LdifFault::BadLine(line)) => Ok(refused(line, LineCause::BadLine)),
        Err(LdifFault::BadBase64(line)) => Ok(refused(line, LineCause::BadBase64)),
        Err(LdifFault::BadChange(line)) => Ok(refused(line, LineCause::BadChange)),
        Err(LdifFault::NoMemory) => Err(AllocError),
    }
}

/// Adds the entries of a text in LDIF to a directory, one after the other. It is `NoMemory` where
/// memory runs out, and then those before are added.
pub fn fill<K: Clock>(
    alloc: Global,
    provider: &mut Provider,
    text: &[u8],
    clock: &mut K,
) -> Result<Filling, NoMemory>
    ensures fills { IfOk result (λ filling. FillsUp (reader_of text.now) (port_state provider.old)
        filling (port_state provider.new)) }
    ensures err { OnErr result
        (FillsPart (reader_of text.now) (port_state provider.old) (port_state provider.new)) }
{
    let mut records = Records::new(text, 1);
    'records: loop {
        let taken = add_next(alloc, provider, &mut records, clock)?;
        match taken {
            RecordOutcome::Added => {}
            RecordOutcome::Over(filling) => return Ok(filling),
        }
    }
}
