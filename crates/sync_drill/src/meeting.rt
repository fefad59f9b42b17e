//! How the ports of a drill meet after its threads.
//!
//! The first one meets each other one, and so has seen all that they added. Then each other one
//! meets it, which shows that none of them had added more by then.
ghost use Rattle.std.specs.Prelude.{◌≡◌, ◌<◌, All, IfOk};
ghost use Rattle.std.specs.List.{AllZip};
ghost use Rattle.sync_drill.specs.Going.{HasMetThis, IsAsBefore, OthersCameIn, WasSeen};

use ldap_ber::NoMemory;
use std::alloc::Global;
use sync_provider::Port;

/// Lets the first port meet each of the others. It is `NoMemory` where memory runs out.
pub(crate) fn meet_each<P: Port>(
    alloc: Global,
    first: P,
    others: Vec<P>,
) -> Result<(P, Vec<P>), NoMemory>
    requires shared { 0 < (P.state first).ports }
    requires homes { All (λ other. P.home other ≡ P.home first) others.items }
    ensures home { IfOk result (λ met. P.home met.0 ≡ P.home first) }
    ensures came { IfOk result (λ met. OthersCameIn (P.state first) (P.state met.0)) }
    ensures seen { IfOk result (λ met.
        AllZip (WasSeen P.home P.state (P.state met.0)) others.items met.1.items) }
{
    let mut meeting = first;
    let mut met = Vec::with_capacity(alloc, others.len())?;
    for other in others {
        let mut beside = other;
        meeting.meet(&mut beside);
        met.push(beside)?;
    }
    Ok((meeting, met))
}

/// Lets each of the others meet the first port. It is `NoMemory` where memory runs out.
pub(crate) fn show_each<P: Port>(
    alloc: Global,
    first: P,
    others: Vec<P>,
) -> Result<(P, Vec<P>), NoMemory>
    requires shared { All (λ other. 0 < (P.state other).ports) others.items }
    requires homes { All (λ other. P.home other ≡ P.home first) others.items }
    ensures first { IfOk result (λ shown. IsAsBefore P.home P.state first shown.0) }
    ensures others { IfOk result (λ shown.
        AllZip (HasMetThis P.home P.state (P.state first)) others.items shown.1.items) }
{
    let mut showing = first;
    let mut shown = Vec::with_capacity(alloc, others.len())?;
    for other in others {
        let mut meeting = other;
        meeting.meet(&mut showing);
        shown.push(meeting)?;
    }
    Ok((showing, shown))
}
