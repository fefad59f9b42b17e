//! Messages that end a refresh without a cookie.
ghost use Rattle.std.specs.Prelude.{◌≡◌, false, IfOk};
ghost use Rattle.ldap_messages.specs.Whole.{message_value};
ghost use Rattle.sync_consumer.specs.SyncSession.{message_of};
ghost use Rattle.sync_wire.specs.Decoding.{control_said};
ghost use Rattle.cascade_exchange.specs.Reception as spec;
ghost use Rattle.cascade_exchange.specs.Reception.{says_end_without_cookie, whole_said};

use ldap_ber::{NoMemory, discard};
use ldap_constants::SUCCESS;
use ldap_messages::{Message, Protocol};
use std::alloc::{AllocError, Global};
use sync_messages::SyncDone;
use sync_wire::{DecodeFault, SyncEvent, decode};

/// Whether a message ends a refresh and gives no cookie. It is `NoMemory` where memory runs out.
#[tactic(auto, using(crate::proofs::EndsWithoutCookie::entry_no_end))]
pub fn ends_without_cookie(alloc: Global, message: &Message) -> Result<bool, NoMemory>
    ensures { IfOk result
        (λ ends. ends ≡ says_end_without_cookie (whole_said false (message_value message.now))) }
{
    match &message.op {
        Protocol::SearchResultEntry { .. } => Ok(false),
        _ => decoded_ends_without_cookie(alloc, message),
    }
}

/// The same by what the message says.
#[tactic(auto, using(crate::proofs::EndsWithoutCookie::decoded_same_end, crate::proofs::EndsWithoutCookie::failed_no_end))]
fn decoded_ends_without_cookie(alloc: Global, message: &Message) -> Result<bool, NoMemory>
    ensures { IfOk result
        (λ ends. ends ≡ says_end_without_cookie (whole_said false (message_value message.now))) }
{
    match decode(alloc, message, false) {
        Ok(received) => {
            let no_cookie = is_end_without_cookie(&received);
            discard(received);
            Ok(no_cookie)
        }
        Err(DecodeFault::NoMemory) => Err(AllocError),
        Err(DecodeFault::OutOfPlace) => Ok(false),
        Err(DecodeFault::BadValue) => Ok(false),
        Err(DecodeFault::UuidDiffers(_, _)) => Ok(false),
        Err(DecodeFault::BadEntry(_)) => Ok(false),
    }
}

fn is_end_without_cookie(received: &SyncEvent) -> bool
    ensures { result ≡ spec.ends_without_cookie (message_of received.now) }
{
    match received {
        SyncEvent::RefreshDelete { done, cookie } => *done && cookie.is_none(),
        SyncEvent::RefreshPresent { done, cookie } => *done && cookie.is_none(),
        SyncEvent::Done { code, control } => has_no_cookie(control) && *code == i64::from(SUCCESS),
        SyncEvent::AddOrModify(_, _)
        | SyncEvent::Delete(_, _)
        | SyncEvent::Present(_)
        | SyncEvent::IdSet { .. }
        | SyncEvent::NewCookie(_)
        | SyncEvent::Ignored => false,
    }
}

/// Whether the control is there, and gives no cookie.
fn has_no_cookie(control: &Option<SyncDone>) -> bool
    ensures { result ≡ spec.has_no_cookie (control_said control.now) }
{
    match control {
        Some(done) => done.cookie.is_none(),
        None => false,
    }
}
