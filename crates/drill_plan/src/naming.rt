//! The names of the entries of a drill.
ghost use Rattle.std.specs.Prelude.{◌≡◌, ◌<◌, List, ◌∷◌, length, Ok, IfOk, string_bytes};
ghost use Rattle.dn_names.specs.Names.{TypeAndValue};
ghost use Rattle.dn_names.specs.Reading.{rdn_of_text};
ghost use Rattle.drill_plan.specs.Names as spec;

use dn_names::{Dn, NameFault, Rdn};
use ldap_ber::NoMemory;
use std::alloc::{AllocError, Global};

/// The name of the suffix.
pub(crate) fn suffix_name(alloc: Global) -> Result<Dn, NoMemory>
    ensures { IfOk result (λ name. name ≡ spec.suffix) }
{
    let rdn = read_rdn(alloc, b"dc=drill")?;
    name_below(&Dn::empty(alloc), &rdn)
}

/// The name of a writer's unit.
pub(crate) fn unit_name(alloc: Global, writer: u32, renamed: bool) -> Result<Dn, NoMemory>
    requires { writer < 8 }
    ensures { IfOk result (λ name. name ≡ spec.unit_name writer renamed) }
{
    let suffix = suffix_name(alloc)?;
    let rdn = unit_rdn(alloc, writer, renamed)?;
    name_below(&suffix, &rdn)
}

/// The name of an entry below the unit.
pub(crate) fn entry_name(
    alloc: Global,
    writer: u32,
    renamed: bool,
    slot: usize,
) -> Result<Dn, NoMemory>
    requires writer { writer < 8 }
    requires slot { slot < 64 }
    ensures { IfOk result (λ name. name ≡ spec.entry_name writer renamed slot) }
{
    let unit = unit_name(alloc, writer, renamed)?;
    let rdn = entry_rdn(alloc, slot)?;
    name_below(&unit, &rdn)
}

/// The RDN of a writer's unit.
pub(crate) fn unit_rdn(alloc: Global, writer: u32, renamed: bool) -> Result<Rdn, NoMemory>
    requires { writer < 8 }
    ensures { IfOk result (λ rdn. rdn ≡ spec.unit_rdn writer renamed) }
{
    let unit = unit_text(alloc, writer, renamed)?;
    let text = format!(in alloc; "ou={unit}")?;
    read_rdn(alloc, text.as_bytes())
}

/// The RDN of an entry below a unit.
fn entry_rdn(alloc: Global, slot: usize) -> Result<Rdn, NoMemory>
    requires { slot < 64 }
    ensures { IfOk result (λ rdn. rdn ≡ spec.entry_rdn slot) }
{
    let text = format!(in alloc; "cn=e{slot}")?;
    read_rdn(alloc, text.as_bytes())
}

/// The value of a unit's name: `wN`, and `wNx` where the unit was renamed.
pub(crate) fn unit_text(alloc: Global, writer: u32, renamed: bool) -> Result<String, NoMemory>
    ensures { IfOk result (λ text. string_bytes text ≡ spec.unit_text writer renamed) }
{
    if renamed {
        format!(in alloc; "w{writer}x")
    } else {
        format!(in alloc; "w{writer}")
    }
}

/// Reads an RDN from a text in which one is written.
fn read_rdn(alloc: Global, text: &[u8]) -> Result<Rdn, NoMemory>
    requires { (rdn : List TypeAndValue) × (rdn_of_text text.now ≡ Ok rdn) }
    ensures { IfOk result (λ rdn. rdn_of_text text.now ≡ Ok rdn) }
{
    match Rdn::parse(alloc, text) {
        Ok(rdn) => Ok(rdn),
        Err(fault) => Err(no_memory(fault)),
    }
}

/// The name of the entry with this RDN directly below another one.
fn name_below(name: &Dn, rdn: &Rdn) -> Result<Dn, NoMemory>
    requires { length name.now < 32 }
    ensures { IfOk result (λ below. below ≡ rdn.now ∷ name.now) }
{
    match name.below(rdn) {
        Ok(below) => Ok(below),
        Err(fault) => Err(no_memory(fault)),
    }
}

/// Out of memory as an error by itself, where a name can have no other fault.
fn no_memory(fault: NameFault) -> NoMemory
    requires { fault ≡ NameFault.NoMemory }
{
    match fault {
        NameFault::NoMemory => AllocError,
        NameFault::BadName(_) | NameFault::UnknownType(_) | NameFault::TooLong(_) => unreachable!(),
    }
}
