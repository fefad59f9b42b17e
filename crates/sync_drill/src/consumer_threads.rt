//! The threads of the consumers: two for each.
ghost use Rattle.std.specs.Prelude.{All, IfOk};
ghost use Rattle.std.specs.List.{AllZip};
ghost use Rattle.sync_drill.specs.Following.{FollowingGoes, MayFollow};
ghost use Rattle.sync_drill.specs.Halves.{HandingGoes, HandsOut, HasCopied, TakingGoes};

use crate::events::DrillEvents;
use crate::following::Following;
use crate::handing_out::HandingOut;
use crate::taking::Taking;
use ldap_ber::NoMemory;
use std::sync::Wait;
use std::thread::{Threads, join, map_vec};
use sync_provider::Port;

/// Lets each consumer work on threads of its own, or on another one's where none can be made, and
/// waits for all of them. It is `NoMemory` where memory runs out.
pub(crate) fn follow_each<R: Threads + Wait + Sync, P: Port + Send>(
    rt: &R,
    events: &DrillEvents,
    followings: Vec<Following<P>>,
) -> Result<Vec<Following<P>>, NoMemory>
    requires { All (MayFollow P.state) followings.items }
    ensures { IfOk result (λ ended.
        AllZip (FollowingGoes P.home P.state) followings.items ended.items) }
{
    let work = |following: Following<P>| -> Following<P>
        requires { MayFollow P.state following }
        ensures { FollowingGoes P.home P.state following result }
    { follow(rt, events, following) };
    map_vec(rt, followings, &work)
}

/// Lets the two halves of a consumer work beside each other: the one that takes may go to another
/// thread.
fn follow<R: Threads + Wait + Sync, P: Port>(
    rt: &R,
    events: &DrillEvents,
    following: Following<P>,
) -> Following<P>
    requires { MayFollow P.state following }
    ensures { FollowingGoes P.home P.state following result }
{
    let Following { handing, taking } = following;
    let take = move || -> Taking
        requires { HasCopied taking }
        ensures { TakingGoes taking result }
    { taking.work(rt, events) };
    let hand_out = move || -> HandingOut<P>
        requires { HandsOut P.state handing }
        ensures { HandingGoes P.home P.state handing result }
    { handing.work(rt, events) };
    let (taking, handing) = join(rt, take, hand_out);
    Following { handing, taking }
}
