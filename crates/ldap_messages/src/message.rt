//! Messages (RFC 4511, section 4.1.1).
//!
//! ```text
//! LDAPMessage ::= SEQUENCE {
//!      messageID       MessageID,
//!      protocolOp      CHOICE { .. },
//!      controls       [0] Controls OPTIONAL }
//! ```

ghost use Rattle.std.specs.Prelude.{◌≡◌, ◌≤◌, ℕ, List, [], ◌++◌, length, take, Ok, IfOk, IfSome, OnOk};
ghost use Rattle.ldap_ber.specs.Reading.{whole_at};
ghost use Rattle.ldap_ber.specs.Writer.{after_bytes, IsSmall};
ghost use Rattle.ldap_ber.specs.Gives.{Gives};
ghost use Rattle.ldap_parts.specs.Faults.{ComponentFails, place_of};
ghost use Rattle.ldap_messages.specs.Operation.{operation_of, IsHeld};
ghost use Rattle.ldap_messages.specs.Whole.{MessageValue, message_value, MessageForm, message_at, parts_octets, message_octets, HasSpelling};
ghost use Rattle.ldap_messages.specs.Frame.{message, read_of, HasMeaning, Spells};

use crate::fault::MessageFault;
use crate::frame::{Frame, frame_of};
use crate::protocol::{Protocol, operation_of, put_operation};
use ldap_ber::{NoMemory, Octets, Reader, Writer, discard};
use ldap_parts::{ComponentFault, ControlList, controls_of, put_controls, put_number, range_of};
use std::alloc::Global;

/// A message: its ID, its operation and its controls (RFC 4511, section 4.1.1).
#[derive(Drop)]
pub struct Message {
    /// At most 2,147,483,647.
    pub id: u32,
    pub op: Protocol,
    pub controls: ControlList,
}

impl Message {
    /// Reads the message at the start of a stream, and the length of its frame. None where the
    /// bytes so far begin a frame of at most 4,194,304 octets and more of it have to come. It is
    /// `TooLong` where more octets are announced, `BadMessage` with the first refused place where
    /// the frame is outside the grammar (RFC 4511, appendix B), or `NoMemory`.
    #[tactic(auto, using(crate::proofs::FrameLemmas::found_meaning, crate::proofs::FrameLemmas::only_meaning, crate::proofs::GrammarLemmas::grammar_meaning))]
    pub fn read(alloc: Global, bytes: &[u8]) -> Result<Option<(Message, usize)>, MessageFault>
        ensures exact { HasMeaning result (read_of bytes.now) }
        ensures within { IfOk result (λ o. IfSome o (λ x. x.1 ≤ length bytes.now)) }
        ensures found { IfOk result
            (λ o. IfSome o (λ x. Spells (take x.1 bytes.now) (message_value x.0))) }
        ensures has_spelling { IfOk result (λ o. IfSome o (λ x. HasSpelling (message_value x.0))) }
        ensures only { (whole : MessageValue) (prefix after : List ℕ) → bytes.now ≡ prefix ++ after
            → Spells prefix whole → HasMeaning result (message whole (length prefix)) }
    {
        read_message(alloc, bytes)
    }

    /// Writes the canonical spelling, which is read again as the same message where it is not
    /// longer than a frame may be (RFC 4511, section 5.1). It is `NoMemory` where memory runs out.
    pub fn write(&self, alloc: Global) -> Result<Octets, NoMemory>
        requires { HasSpelling (message_value self.now) }
        ensures canonical { IfOk result
            (λ octets. octets ≡ message_octets (message_value self.now)) }
        ensures spelled { IfOk result (λ octets. MessageForm octets (message_value self.now) []) }
        ensures read_again { IfOk result (λ octets. length octets ≤ 4194304 → (after : List ℕ)
            → read_of (octets ++ after) ≡ message (message_value self.now) (length octets)) }
    {
        self.spelling(alloc)
    }

    #[tactic(auto, unfolding(crate::specs::Whole::message_octets))]
    fn spelling(&self, alloc: Global) -> Result<Octets, NoMemory>
        ensures canonical { IfOk result
            (λ octets. octets ≡ message_octets (message_value self.now)) }
        ensures small { IfOk result IsSmall }
        ensures held { IfOk result (λ octets. IsHeld (operation_of self.now.op)) }
    {
        let mut writer = Writer::new(alloc);
        writer.begin(0x30)?;
        self.put_parts(&mut writer)?;
        writer.end()?;
        Ok(writer.finish())
    }

    fn put_parts(&self, writer: &mut Writer) -> Result<(), NoMemory>
        ensures ok { OnOk result
            (writer.new ≡ after_bytes writer.old (parts_octets (message_value self.now))) }
        ensures held { OnOk result (IsHeld (operation_of self.now.op)) }
    {
        put_number(writer, 0x02, self.id)?;
        put_operation(writer, &self.op)?;
        put_controls(writer, self.controls.list())
    }
}

#[tactic(auto, unfolding(crate::specs::Frame::read_of))]
fn read_message(alloc: Global, bytes: &[u8]) -> Result<Option<(Message, usize)>, MessageFault>
    ensures exact { HasMeaning result (read_of bytes.now) }
    ensures within { IfOk result (λ o. IfSome o (λ x. x.1 ≤ length bytes.now)) }
{
    match frame_of(bytes) {
        Frame::Partial => Ok(None),
        Frame::Refused(place) => Err(MessageFault::BadMessage(place)),
        Frame::Long => Err(MessageFault::TooLong),
        Frame::Held(count) => {
            let (prefix, _) = bytes.split_at(count);
            match message_in(alloc, prefix) {
                Ok(message) => Ok(Some((message, count))),
                Err(ComponentFault::Refused(place)) => Err(MessageFault::BadMessage(place)),
                Err(ComponentFault::NoMemory) => Err(MessageFault::NoMemory),
            }
        }
    }
}

/// The message that all of the bytes spell.
fn message_in(alloc: Global, bytes: &[u8]) -> Result<Message, ComponentFault>
    ensures { Gives ComponentFails (λ x. Ok (message_value x)) result
        (whole_at place_of message_at bytes.now) }
{
    let mut reader = Reader::new(bytes);
    let message = message_of(alloc, &mut reader)?;
    match reader.end() {
        Ok(()) => Ok(message),
        Err(fault) => {
            discard(message);
            Err(ComponentFault::from(fault))
        }
    }
}

/// The message that comes next.
#[tactic(auto, unfolding(crate::specs::Whole::message_at))]
fn message_of(alloc: Global, reader: &mut Reader) -> Result<Message, ComponentFault>
    ensures exact { Gives ComponentFails
        (λ message. Ok (message_value message, reader.new.left)) result
        (message_at reader.old.stop reader.old.left) }
    ensures stop { reader.new.stop ≡ reader.old.stop }
{
    let whole = reader.expect(0x30)?;
    let mut inner = Reader::inside(&whole);
    let id = range_of(&mut inner, 0x02, 0, 2_147_483_647)?;
    let op = operation_of(alloc, &mut inner)?;
    let controls = match controls_of(alloc, &mut inner) {
        Ok(controls) => controls,
        Err(fault) => {
            discard(op);
            return Err(fault);
        }
    };
    match inner.skip() {
        Ok(()) => Ok(Message { id, op, controls }),
        Err(fault) => {
            discard(op);
            Err(ComponentFault::from(fault))
        }
    }
}
