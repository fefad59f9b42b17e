//! The thread that hands messages of a consumer's search out into its ring.
ghost use Rattle.std.specs.Prelude.{◌≡◌, ◌≢◌, ◌<◌, ◌++◌, [], ◌∷◌, true, false, None, Ok, IfOk, OnOk};
ghost use Rattle.ldap_messages.specs.Whole.{HasSpelling, message_octets, message_value};
ghost use Rattle.link_rings.specs.Ends.{offered, known_slots, IsSameProducer};
ghost use Rattle.sync_messages.specs.Request.{request_of};
ghost use Rattle.sync_messages.specs.declared.request.Mode.TheVariants.{RefreshAndPersist};
ghost use Rattle.sync_drill.specs.Going.{HasGoneOn};
ghost use Rattle.sync_drill.specs.Handing.{IsAsked, IsDone, IsHanding, IsResting, MayOpen};
ghost use Rattle.sync_drill.specs.Halves.{HandingGoes};

use crate::events::{DrillEvents, RingEvents};
use bytes::Bytes;
use drill_plan::followed_spec;
use ldap_ber::{NoMemory, Octets, discard};
use ldap_messages::Message;
use link_rings::{Full, RingProducer};
use std::alloc::{AllocError, Global};
use std::sync::Wait;
use sync_messages::{Mode, SyncRequest};
use sync_provider::{Accepted, Handed, Port, SyncSearch};

/// The message ID of each search.
pub(crate) const SEARCH_ID: u32 = 1;

/// A consumer's port with its open search, and the end of the ring that it offers to.
#[derive(Drop)]
pub(crate) struct HandingOut<P> {
    pub(crate) alloc: Global,
    pub(crate) consumer: u32,
    pub(crate) port: P,
    pub(crate) search: u64,
    pub(crate) producer: RingProducer,
    /// Memory has run out: what it gives back is of no use.
    pub(crate) failed: bool,
}

/// What came of a try to hand a message out.
#[derive(Clone, Copy, PartialEq, Eq)]
pub(crate) enum HandingOutcome {
    /// One was handed out and offered.
    Offered,
    /// The ring has no room.
    Full,
    /// Nothing is pending.
    Nothing,
    /// Memory has run out.
    Failed,
}

impl<P: Port> HandingOut<P> {
    /// Hands out until the writers have ended and nothing is pending, or earlier where it would
    /// wait for a thread that does not begin.
    pub(crate) fn work<R: Wait>(self, rt: &R, events: &DrillEvents) -> HandingOut<P>
        requires { IsHanding self.consumer self.search (P.state self.port) (offered self.producer) }
        ensures { HandingGoes P.home P.state self result }
    {
        let mut handing = self;
        let Some(ring) = events.ring(handing.consumer) else {
            return handing;
        };
        ring.begin_handing_out();
        handing.step_each(rt, events, ring);
        ring.end_handing_out();
        handing
    }

    /// Hands out as long as there is something left to do here.
    fn step_each<R: Wait>(&mut self, rt: &R, events: &DrillEvents, ring: &RingEvents)
        requires { IsHanding self.old.consumer self.old.search (P.state self.old.port)
            (offered self.old.producer) }
        ensures { HandingGoes P.home P.state self.old self.new }
    {
        'steps: for _ in rt.forever() {
            if !self.step_or_wait(rt, events, ring) {
                return;
            }
        }
    }

    /// Hands a message out, or waits where it cannot. False where nothing is left to do here.
    fn step_or_wait<R: Wait>(&mut self, rt: &R, events: &DrillEvents, ring: &RingEvents) -> bool
        requires { IsHanding self.old.consumer self.old.search (P.state self.old.port)
            (offered self.old.producer) }
        ensures goes { HandingGoes P.home P.state self.old self.new }
        ensures more { result ≡ true → IsHanding
            self.new.consumer self.new.search (P.state self.new.port) (offered self.new.producer) }
    {
        let taken = ring.taken.read();
        let written = events.written.read();
        let more = events.may_be_written();
        match self.step() {
            HandingOutcome::Offered => {
                ring.offered.advance();
                true
            }
            HandingOutcome::Full => ring.wait_for_room(rt, taken),
            HandingOutcome::Nothing => more && events.wait_for_write(rt, written),
            HandingOutcome::Failed => false,
        }
    }

    /// Hands the next message out and offers it, where the ring has room for it.
    pub(crate) fn step(&mut self) -> HandingOutcome
        requires { IsHanding self.old.consumer self.old.search (P.state self.old.port)
            (offered self.old.producer) }
        ensures goes { HandingGoes P.home P.state self.old self.new }
        ensures kept { result ≢ HandingOutcome.Failed → self.new.failed ≡ self.old.failed }
        ensures handing { result ≢ HandingOutcome.Failed → IsHanding
            self.new.consumer self.new.search (P.state self.new.port) (offered self.new.producer) }
        ensures nothing { result ≡ HandingOutcome.Nothing → IsDone
            self.new.consumer self.new.search (P.state self.new.port) (offered self.new.producer) }
        ensures still { result ≡ HandingOutcome.Nothing
            → offered self.new.producer ≡ offered self.old.producer }
    {
        if !self.producer.has_room() {
            return HandingOutcome::Full;
        }
        match self.hand_on() {
            Ok(more) => step_of(more),
            Err(_) => {
                self.failed = true;
                HandingOutcome::Failed
            }
        }
    }

    /// Hands the next message out and offers it. False where nothing is pending.
    fn hand_on(&mut self) -> Result<bool, NoMemory>
        requires room { 0 < known_slots self.old.producer }
        requires handing { IsHanding self.old.consumer self.old.search (P.state self.old.port)
            (offered self.old.producer) }
        ensures home { P.home self.new.port ≡ P.home self.old.port }
        ensures goes_on { HasGoneOn (P.state self.old.port) (P.state self.new.port) }
        ensures ring { IsSameProducer self.old.producer self.new.producer }
        ensures same { (self.new.consumer ≡ self.old.consumer)
            × (self.new.failed ≡ self.old.failed) }
        ensures handing { OnOk result (IsHanding
            self.new.consumer self.new.search (P.state self.new.port) (offered self.new.producer)) }
        ensures nothing { IfOk result (λ more. more ≡ false → IsDone
            self.new.consumer self.new.search (P.state self.new.port) (offered self.new.producer)) }
        ensures still { IfOk result (λ more. more ≡ false
            → offered self.new.producer ≡ offered self.old.producer) }
    {
        match self.port.hand_out(self.search) {
            Handed::Message(message) => {
                self.offer(message)?;
                Ok(true)
            }
            Handed::Ended(_, message) => {
                self.offer(message)?;
                self.open()?;
                Ok(true)
            }
            Handed::Nothing => Ok(false),
            Handed::NoSuchSearch => unreachable!(),
            Handed::NoMemory => Err(AllocError),
        }
    }

    /// Puts the message into the ring, which has room for it.
    fn offer(&mut self, message: Message) -> Result<(), NoMemory>
        requires room { 0 < known_slots self.old.producer }
        requires spelled { HasSpelling (message_value message) }
        ensures ok { OnOk result (offered self.new.producer
            ≡ offered self.old.producer ++ message_octets (message_value message) ∷ []) }
        ensures ring { IsSameProducer self.old.producer self.new.producer }
        ensures same { (self.new.port ≡ self.old.port) × (self.new.search ≡ self.old.search)
            × (self.new.consumer ≡ self.old.consumer) × (self.new.failed ≡ self.old.failed) }
    {
        let written = item_of(self.alloc, &message);
        discard(message);
        match self.producer.offer(written?) {
            Ok(()) => Ok(()),
            Err(Full(_)) => unreachable!(),
        }
    }

    /// Ends its search.
    pub(crate) fn close(&mut self)
        requires { IsHanding self.old.consumer self.old.search (P.state self.old.port)
            (offered self.old.producer) }
        ensures home { P.home self.new.port ≡ P.home self.old.port }
        ensures goes_on { HasGoneOn (P.state self.old.port) (P.state self.new.port) }
        ensures resting { IsResting (P.state self.new.port) (offered self.new.producer) }
        ensures same { (self.new.producer ≡ self.old.producer)
            × (self.new.consumer ≡ self.old.consumer) × (self.new.failed ≡ self.old.failed) }
    {
        let _ = self.port.drop_search(self.search);
    }

    /// Opens a search again, without a cookie: all of its content is sent anew.
    pub(crate) fn open(&mut self) -> Result<(), NoMemory>
        requires { MayOpen self.old.consumer (P.state self.old.port) (offered self.old.producer) }
        ensures home { P.home self.new.port ≡ P.home self.old.port }
        ensures goes_on { HasGoneOn (P.state self.old.port) (P.state self.new.port) }
        ensures handing { OnOk result (IsHanding
            self.new.consumer self.new.search (P.state self.new.port) (offered self.new.producer)) }
        ensures same { (self.new.producer ≡ self.old.producer)
            × (self.new.consumer ≡ self.old.consumer) × (self.new.failed ≡ self.old.failed) }
    {
        let ask = asked(self.alloc, self.consumer)?;
        match self.port.accept(ask) {
            Accepted::Opened(search, _) => {
                self.search = search;
                Ok(())
            }
            Accepted::Refused(_) => Err(AllocError),
            Accepted::NoMemory => Err(AllocError),
        }
    }
}

/// What came of a try for which memory did not run out.
fn step_of(more: bool) -> HandingOutcome
    ensures fine { result ≢ HandingOutcome.Failed }
    ensures nothing { result ≡ HandingOutcome.Nothing → more ≡ false }
{
    if more {
        HandingOutcome::Offered
    } else {
        HandingOutcome::Nothing
    }
}

/// The encoding of a message.
fn item_of(alloc: Global, message: &Message) -> Result<Bytes, NoMemory>
    requires { HasSpelling (message_value message.now) }
    ensures { IfOk result (λ item. item ≡ message_octets (message_value message.now)) }
{
    let text = message.write(alloc)?;
    Bytes::copy_from_slice(alloc, text.as_slice())
}

/// A search of what this consumer follows, without a cookie, which goes on after its refresh.
fn asked(alloc: Global, consumer: u32) -> Result<SyncSearch, NoMemory>
    ensures { IfOk result (λ ask. IsAsked consumer ask) }
{
    let control = control(alloc)?;
    let spec = followed_spec(alloc, consumer)?;
    Ok(SyncSearch {
        id: SEARCH_ID,
        spec,
        control,
    })
}

/// The value of the control of such a search.
fn control(alloc: Global) -> Result<Octets, NoMemory>
    ensures { IfOk result (λ value. request_of value
        ≡ Ok (record { mode = RefreshAndPersist; cookie = None; reload_hint = false })) }
{
    let request = SyncRequest {
        mode: Mode::RefreshAndPersist,
        cookie: None,
        reload_hint: false,
    };
    request.write(alloc)
}
