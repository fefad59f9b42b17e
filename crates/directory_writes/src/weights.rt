//! What a kept write weighs.

ghost use Rattle.std.specs.Prelude.{◌≡◌, ◌-◌, ◌^◌, min};
ghost use Rattle.schema_rules.specs.Attributes as attributes;
ghost use Rattle.schema_rules.specs.Schema.{type_name};
ghost use Rattle.entry_tree.specs.declared.op.Op.TheVariants as ops;
ghost use Rattle.directory_writes.specs.Weights as spec;

use dn_names::Dn;
use entry_tree::{Edit, Entry, Op};
use ldap_ber::OctetsList;
use schema_rules::AttributeType;

/// What each write weighs beside what it gives.
const WRITE_WEIGHT: u64 = 64;

/// What each entry that a commit puts weighs beside its name and its attributes.
const PUT_WEIGHT: u64 = 64;

/// What each identity that a commit drops weighs.
const DROP_WEIGHT: u64 = 16;

/// 64, the length of each name that the write gives, as it is written, and for each value the
/// lengths of its type's name and of the value. The greatest number stands for all sums above it.
pub(crate) fn op_weight(op: &Op) -> u64
    ensures { result ≡ min (spec.op_weight op.now) (2 ^ 64 - 1) }
{
    let parts = match op {
        Op::Add(name, attrs) => name_weight(name).saturating_add(attrs.weight()),
        Op::Delete(name) => name_weight(name),
        Op::Modify(name, edits) => name_weight(name).saturating_add(edits_weight(edits.list())),
        Op::Rename(name, rdn, _, superior) => name_weight(name)
            .saturating_add(rdn.written_len() as u64)
            .saturating_add(superior_weight(superior)),
        Op::Commit(puts, drops) => return commit_weight(puts.list(), drops.list()),
    };
    parts.saturating_add(WRITE_WEIGHT)
}

/// The same of a commit: each entry that it puts weighs 64 beside its name and its attributes, and
/// each identity that it drops 16.
pub(crate) fn commit_weight(puts: &[Entry], drops: &[u128]) -> u64
    ensures { result ≡ min (spec.op_weight (ops.Commit puts.now drops.now)) (2 ^ 64 - 1) }
{
    let dropped = (drops.len() as u64).saturating_mul(DROP_WEIGHT);
    puts_weight(puts)
        .saturating_add(dropped)
        .saturating_add(WRITE_WEIGHT)
}

fn puts_weight(puts: &[Entry]) -> u64
    ensures { result ≡ min (spec.puts_weight puts.now) (2 ^ 64 - 1) }
{
    let mut total: u64 = 0;
    for entry in puts {
        total = total.saturating_add(put_weight(entry));
    }
    total
}

fn put_weight(entry: &Entry) -> u64
    ensures { result ≡ min (spec.put_weight entry.now) (2 ^ 64 - 1) }
{
    name_weight(&entry.dn)
        .saturating_add(entry.attrs.weight())
        .saturating_add(PUT_WEIGHT)
}

/// The length of the name as it is written.
fn name_weight(name: &Dn) -> u64
    ensures { result ≡ spec.name_weight name.now }
{
    name.written_len() as u64
}

fn superior_weight(superior: &Option<Dn>) -> u64
    ensures { result ≡ spec.superior_weight superior.now }
{
    match superior {
        None => 0,
        Some(name) => name_weight(name),
    }
}

fn edits_weight(edits: &[Edit]) -> u64
    ensures { result ≡ min (spec.edits_weight edits.now) (2 ^ 64 - 1) }
{
    let mut total: u64 = 0;
    for edit in edits {
        total = total.saturating_add(values_weight(edit.kind, &edit.values));
    }
    total
}

fn values_weight(kind: AttributeType, values: &OctetsList) -> u64
    ensures { result ≡ min (attributes.values_weight (type_name kind) values.now) (2 ^ 64 - 1) }
{
    let name = kind.name().len() as u64;
    let mut total: u64 = 0;
    for value in values.list() {
        total = total
            .saturating_add(name)
            .saturating_add(value.as_slice().len() as u64);
    }
    total
}
