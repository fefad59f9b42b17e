//! A consumer at its port, and how it is brought up to the last write after its threads.
ghost use Rattle.std.specs.Prelude.{◌≡◌, ◌<◌, false, All, IfOk, OnOk};
ghost use Rattle.std.specs.List.{AllZip};
ghost use Rattle.link_rings.specs.Ends.{offered, AreOneRing};
ghost use Rattle.sync_provider.specs.Ports.{HasSeenAllOf};
ghost use Rattle.sync_drill.specs.Going.{IsAsBefore};
ghost use Rattle.sync_drill.specs.Handing.{IsDone};
ghost use Rattle.sync_drill.specs.Following.{FollowingGoes, IsBroughtUp, IsEven, MayFollow, MaySettle};

use crate::handing_out::{HandingOut, HandingOutcome};
use crate::taking::Taking;
use ldap_ber::NoMemory;
use std::alloc::{AllocError, Global};
use std::sync::Wait;
use sync_provider::Port;

/// A consumer: the half that hands its search out, and the half that takes what was handed out.
#[derive(Drop)]
pub(crate) struct Following<P> {
    pub(crate) handing: HandingOut<P>,
    pub(crate) taking: Taking,
}

impl<P: Port> Following<P> {
    /// Whether memory ran out in one of its threads.
    fn has_failed(&self) -> bool
        ensures { result ≡ false
            → (self.now.handing.failed ≡ false) × (self.now.taking.failed ≡ false) }
    {
        if self.handing.failed {
            return true;
        }
        self.taking.failed
    }

    /// Brings the consumer up to all that the first port has seen, and ends its search.
    fn settle<R: Wait>(&mut self, rt: &R, first: &mut P) -> Result<(), NoMemory>
        requires may { MaySettle P.home P.state first.old self.old }
        requires halves { MayFollow P.state self.old }
        ensures first { IsAsBefore P.home P.state first.old first.new }
        ensures up { OnOk result
            (IsBroughtUp P.home P.state (P.state first.old) self.old self.new) }
    {
        self.learn(first);
        self.take_what_is_left()?;
        self.follow_to_end(rt)?;
        self.handing.close();
        Ok(())
    }

    /// Its port learns what this port has seen.
    fn learn(&mut self, first: &mut P)
        requires shared { 0 < (P.state self.old.handing.port).ports }
        requires home { P.home self.old.handing.port ≡ P.home first.old }
        requires halves { MayFollow P.state self.old }
        ensures first { IsAsBefore P.home P.state first.old first.new }
        ensures goes { FollowingGoes P.home P.state self.old self.new }
        ensures halves { MayFollow P.state self.new }
        ensures seen { HasSeenAllOf (P.state self.new.handing.port) (P.state first.old) }
    {
        self.handing.port.meet(first);
    }

    /// Hands out until nothing is pending, and takes each message.
    fn follow_to_end<R: Wait>(&mut self, rt: &R) -> Result<(), NoMemory>
        requires { IsEven P.state self.old }
        ensures goes { FollowingGoes P.home P.state self.old self.new }
        ensures even { OnOk result (IsEven P.state self.new) }
        ensures done { OnOk result (IsDone self.new.handing.consumer self.new.handing.search
            (P.state self.new.handing.port) (offered self.new.handing.producer)) }
    {
        for _ in rt.forever() {
            let more = self.follow_one()?;
            if !more {
                return Ok(());
            }
        }
        unreachable!()
    }

    /// Hands the next message out and takes it. False where nothing is pending.
    fn follow_one(&mut self) -> Result<bool, NoMemory>
        requires { IsEven P.state self.old }
        ensures goes { FollowingGoes P.home P.state self.old self.new }
        ensures even { OnOk result (IsEven P.state self.new) }
        ensures done { IfOk result (λ more. more ≡ false
            → IsDone self.new.handing.consumer self.new.handing.search
            (P.state self.new.handing.port) (offered self.new.handing.producer)) }
    {
        match self.handing.step() {
            HandingOutcome::Offered => {
                self.take_what_is_left()?;
                Ok(true)
            }
            HandingOutcome::Full => Err(AllocError),
            HandingOutcome::Nothing => Ok(false),
            HandingOutcome::Failed => Err(AllocError),
        }
    }

    /// Takes all that the ring has.
    fn take_what_is_left(&mut self) -> Result<(), NoMemory>
        requires ring { AreOneRing self.old.handing.producer self.old.taking.end }
        requires halves { MayFollow P.state self.old }
        ensures goes { FollowingGoes P.home P.state self.old self.new }
        ensures even { OnOk result (IsEven P.state self.new) }
    {
        let left = self.taking.end.beside(&mut self.handing.producer);
        for _item in 0..left {
            self.taking.take_one()?;
        }
        Ok(())
    }
}

/// Brings each consumer up to all that the first port has seen. It is `NoMemory` where memory runs
/// out, or has run out in one of their threads.
pub(crate) fn settle_each<R: Wait, P: Port>(
    rt: &R,
    alloc: Global,
    first: P,
    followings: Vec<Following<P>>,
) -> Result<(P, Vec<Following<P>>), NoMemory>
    requires { All (MaySettle P.home P.state first) followings.items }
    ensures first { IfOk result (λ done. IsAsBefore P.home P.state first done.0) }
    ensures up { IfOk result (λ done. AllZip (IsBroughtUp P.home P.state (P.state first))
        followings.items done.1.items) }
{
    let mut seen = first;
    let mut settled = Vec::with_capacity(alloc, followings.len())?;
    for following in followings {
        settled.push(settled_by(rt, &mut seen, following)?)?;
    }
    Ok((seen, settled))
}

/// The consumer, brought up to all that the first port has seen.
fn settled_by<R: Wait, P: Port>(
    rt: &R,
    first: &mut P,
    following: Following<P>,
) -> Result<Following<P>, NoMemory>
    requires { MaySettle P.home P.state first.old following }
    ensures first { IsAsBefore P.home P.state first.old first.new }
    ensures up { IfOk result
        (λ settled. IsBroughtUp P.home P.state (P.state first.old) following settled) }
{
    if following.has_failed() {
        return Err(AllocError);
    }
    let mut settled = following;
    settled.settle(rt, first)?;
    Ok(settled)
}
