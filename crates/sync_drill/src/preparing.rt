//! What the threads of the consumers begin with.
ghost use Rattle.std.specs.Prelude.{◌≡◌, ◌≤◌, [], false, length, All, IfOk};
ghost use Rattle.std.specs.List.{AllZip};
ghost use Rattle.link_rings.specs.Ends.{offered, taken};
ghost use Rattle.sync_drill.specs.Drilled.{EachAt};
ghost use Rattle.sync_drill.specs.Following.{BeginsAt, IsFollowing, IsUnused};
ghost use Rattle.sync_drill.specs.Going.{HasGoneOn};
ghost use Rattle.sync_drill.specs.Halves.{HandsOut, HasCopied};

use crate::following::Following;
use crate::handing_out::HandingOut;
use crate::taking::Taking;
use drill_plan::followed_spec;
use ldap_ber::NoMemory;
use link_rings::{RingConsumer, RingProducer, ring};
use std::alloc::Global;
use sync_consumer::Consumer;
use sync_provider::Port;

/// How many items a consumer's ring has room for.
const RING_SLOTS: usize = 64;

/// The consumers at these ports, each with its search open and a ring. It is `NoMemory` where
/// memory runs out.
pub(crate) fn followings_of<P: Port>(
    alloc: Global,
    ports: Vec<P>,
) -> Result<Vec<Following<P>>, NoMemory>
    requires few { length ports.items ≤ 8 }
    requires unused { All (λ port. IsUnused (P.state port)) ports.items }
    ensures begin { IfOk result
        (λ followings. AllZip (BeginsAt P.home P.state) ports.items followings.items) }
    ensures follow { IfOk result
        (λ followings. EachAt (IsFollowing P.state) 0 followings.items) }
{
    let mut followings = Vec::with_capacity(alloc, ports.len())?;
    let mut consumer = 0;
    for port in ports {
        followings.push(following_at(alloc, consumer, port)?)?;
        consumer += 1;
    }
    Ok(followings)
}

/// The consumer with this place at a port.
fn following_at<P: Port>(alloc: Global, consumer: u32, port: P) -> Result<Following<P>, NoMemory>
    requires { IsUnused (P.state port) }
    ensures begins { IfOk result (λ following. BeginsAt P.home P.state port following) }
    ensures follows { IfOk result (λ following. IsFollowing P.state consumer following) }
{
    let ends = ring(alloc, RING_SLOTS)?;
    let (producer, end) = ends;
    let taking = waiting(alloc, consumer, end)?;
    let handing = opened(alloc, consumer, port, producer)?;
    Ok(Following { handing, taking })
}

/// The half of a consumer that hands out, with its search open.
fn opened<P: Port>(
    alloc: Global,
    consumer: u32,
    port: P,
    producer: RingProducer,
) -> Result<HandingOut<P>, NoMemory>
    requires unused { IsUnused (P.state port) }
    requires none { offered producer ≡ [] }
    ensures home { IfOk result (λ handing. P.home handing.port ≡ P.home port) }
    ensures goes_on { IfOk result
        (λ handing. HasGoneOn (P.state port) (P.state handing.port)) }
    ensures same { IfOk result (λ handing. (handing.producer ≡ producer)
        × (handing.consumer ≡ consumer) × (handing.failed ≡ false)) }
    ensures handing { IfOk result (λ handing. HandsOut P.state handing) }
{
    let mut handing = HandingOut {
        alloc,
        consumer,
        port,
        search: 0,
        producer,
        failed: false,
    };
    handing.open()?;
    Ok(handing)
}

/// The half that takes, whose copy is of nothing.
fn waiting(alloc: Global, consumer: u32, end: RingConsumer) -> Result<Taking, NoMemory>
    requires { taken end ≡ [] }
    ensures same { IfOk result (λ taking. (taking.end ≡ end)
        × (taking.consumer ≡ consumer) × (taking.failed ≡ false)) }
    ensures taking { IfOk result (λ taking. HasCopied taking) }
{
    let spec = followed_spec(alloc, consumer)?;
    let copy = Consumer::new(alloc, spec, false)?;
    Ok(Taking {
        alloc,
        consumer,
        copy,
        end,
        failed: false,
    })
}
