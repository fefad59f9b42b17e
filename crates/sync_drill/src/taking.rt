//! The thread that takes messages from a consumer's ring into its copy.
ghost use Rattle.std.specs.Prelude.{◌≡◌, ℕ, List, ◌∷◌, true, false, IfOk, OnOk};
ghost use mathlib.Core.List.{IsPrefix};
ghost use Rattle.link_rings.specs.Ends.{taken, known_items};
ghost use Rattle.sync_drill.specs.Delivered.{with_search, IsReadFrom, TakesItem, WasTaken};
ghost use Rattle.sync_drill.specs.Handing.{HasTaken, TakesKnown};
ghost use Rattle.sync_drill.specs.Halves.{TakingGoes};

use crate::events::{DrillEvents, RingEvents};
use crate::handing_out::SEARCH_ID;
use bytes::Bytes;
use ldap_ber::{NoMemory, discard};
use ldap_messages::Message;
use link_rings::RingConsumer;
use std::alloc::{AllocError, Global};
use std::sync::Wait;
use sync_consumer::{Consumer, Taken};
use sync_messages::Mode;

/// A consumer, and the end of the ring that it takes from.
#[derive(Drop)]
pub(crate) struct Taking {
    pub(crate) alloc: Global,
    pub(crate) consumer: u32,
    pub(crate) copy: Consumer,
    pub(crate) end: RingConsumer,
    /// Memory has run out: what it gives back is of no use.
    pub(crate) failed: bool,
}

impl Taking {
    /// Takes until nothing more is offered and the ring is empty, or earlier where it would wait
    /// for a thread that does not begin.
    pub(crate) fn work<R: Wait>(self, rt: &R, events: &DrillEvents) -> Taking
        requires { HasTaken self.consumer self.copy (taken self.end) }
        ensures { TakingGoes self result }
    {
        let mut taking = self;
        let Some(ring) = events.ring(taking.consumer) else {
            return taking;
        };
        ring.begin_taking();
        taking.step_each(rt, ring);
        ring.end_taking();
        taking
    }

    /// Takes as long as there is something left to do here.
    fn step_each<R: Wait>(&mut self, rt: &R, ring: &RingEvents)
        requires { HasTaken self.old.consumer self.old.copy (taken self.old.end) }
        ensures { TakingGoes self.old self.new }
    {
        'steps: for _ in rt.forever() {
            if !self.step_or_wait(rt, ring) {
                return;
            }
        }
    }

    /// Takes a message, or waits where there is none. False where nothing is left to do here.
    fn step_or_wait<R: Wait>(&mut self, rt: &R, ring: &RingEvents) -> bool
        requires { HasTaken self.old.consumer self.old.copy (taken self.old.end) }
        ensures goes { TakingGoes self.old self.new }
        ensures more { result ≡ true
            → HasTaken self.new.consumer self.new.copy (taken self.new.end) }
    {
        let offered = ring.offered.read();
        let more = ring.may_be_offered();
        if self.step() {
            ring.taken.advance();
            return !self.failed;
        }
        more && ring.wait_for_offer(rt, offered)
    }

    /// Takes the next message. False where the ring shows none.
    pub(crate) fn step(&mut self) -> bool
        requires { HasTaken self.old.consumer self.old.copy (taken self.old.end) }
        ensures goes { TakingGoes self.old self.new }
        ensures none { result ≡ false
            → HasTaken self.new.consumer self.new.copy (taken self.new.end) }
        // Where it knows of items, it takes the first of these.
        ensures known { (item : List ℕ) (rest : List (List ℕ))
            → IsPrefix (item ∷ rest) (known_items self.old.end)
            → TakesKnown self.old.end self.new.end item rest }
    {
        let Some(item) = self.end.take() else {
            return false;
        };
        match self.apply(&item) {
            Ok(()) => true,
            Err(_) => {
                self.failed = true;
                true
            }
        }
    }

    /// Takes the next message, where memory does not run out.
    pub(crate) fn take_one(&mut self) -> Result<(), NoMemory>
        requires { HasTaken self.old.consumer self.old.copy (taken self.old.end) }
        ensures goes { TakingGoes self.old self.new }
        ensures copy { OnOk result
            (HasTaken self.new.consumer self.new.copy (taken self.new.end)) }
        ensures known { (item : List ℕ) (rest : List (List ℕ))
            → IsPrefix (item ∷ rest) (known_items self.old.end)
            → TakesKnown self.old.end self.new.end item rest }
    {
        let _ = self.step();
        if self.failed { Err(AllocError) } else { Ok(()) }
    }

    /// Lets the copy take the message that these bytes encode. Where its search is over before it,
    /// a new one is asked for.
    fn apply(&mut self, item: &Bytes) -> Result<(), NoMemory>
        ensures ok { OnOk result (TakesItem self.old.copy.copy item.now self.new.copy.copy) }
        ensures same { (self.new.copy.spec ≡ self.old.copy.spec)
            × (self.new.consumer ≡ self.old.consumer) × (self.new.end ≡ self.old.end)
            × (self.new.failed ≡ self.old.failed) }
    {
        begin_search(&mut self.copy)?;
        let message = message_of(self.alloc, item.as_slice())?;
        let taken = self.copy.take(&message);
        discard(message);
        check_taken(taken)
    }
}

/// Asks for a search where none runs. What is asked with is not sent: the other half opens it.
fn begin_search(copy: &mut Consumer) -> Result<(), NoMemory>
    ensures ok { OnOk result (copy.new.copy ≡ with_search copy.old.copy.session copy.old.copy) }
    ensures spec { copy.new.spec ≡ copy.old.spec }
{
    if copy.has_session() {
        return Ok(());
    }
    let request = copy.request(SEARCH_ID, Mode::RefreshAndPersist)?;
    discard(request);
    Ok(())
}

/// Whether a message was taken: not where it is refused, or memory ran out.
fn check_taken(taken: Taken) -> Result<(), NoMemory>
    ensures { OnOk result (WasTaken taken) }
{
    match taken {
        Taken::Staged => Ok(()),
        Taken::Stored(_) => Ok(()),
        Taken::Copied(_) => Ok(()),
        Taken::Over(_) => Ok(()),
        Taken::Fault(_) => Err(AllocError),
        Taken::NoMemory => Err(AllocError),
    }
}

/// The message that these bytes are.
fn message_of(alloc: Global, bytes: &[u8]) -> Result<Message, NoMemory>
    ensures { IfOk result (λ message. IsReadFrom bytes.now message) }
{
    match Message::read(alloc, bytes) {
        Ok(Some((message, _))) => Ok(message),
        Ok(None) => Err(AllocError),
        Err(_) => Err(AllocError),
    }
}
