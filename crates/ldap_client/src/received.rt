//! Bytes that were read, of which the first were given as messages.

ghost use Rattle.std.specs.Prelude.{◌≡◌, ◌≤◌, ◌+◌, ◌++◌, ℕ, List, [], length, vec_capacity, vec_len, Ok, IfOk, OnOk};
ghost use Rattle.std.specs.Io.KnownBytes.{Appends, Consumes, IsAtEnd};

use ldap_ber::NoMemory;
use ldap_messages::{Message, MessageFault};
use std::alloc::{AllocError, Global};
use sync_io::{Piece, Source, keep_rest};

/// How many bytes one read takes at most.
const PIECE: usize = 65_536;

/// For how many bytes there is room from the beginning.
const FIRST_ROOM: usize = 1_024;

/// Bytes that were read, of which the first were given as messages.
#[derive(Drop)]
pub(crate) struct Received {
    came: Vec<u8>,
    /// How many of them were given.
    given: usize,
    ghost within: { given ≤ vec_len came },
}

impl Received {
    ghost use Rattle.ldap_client.specs.Receiving.{TakesFirst, kept_in};
    ghost use Rattle.ldap_client.specs.Rounds.{ComeWith, CountsFault};

    /// Nothing was read yet.
    pub(crate) fn new(alloc: Global) -> Result<Received, NoMemory>
        ensures { IfOk result (λ received. kept_in received ≡ []) }
    {
        let Ok(came) = Vec::with_capacity(alloc, FIRST_ROOM) else {
            return Err(AllocError);
        };
        Ok(Received { came, given: 0 })
    }

    /// Where what is kept lies.
    pub(crate) fn alloc(&self) -> Global {
        *self.came.allocator()
    }

    /// The first message that was not given yet, or None where no such message is whole.
    pub(crate) fn next_message(&mut self) -> Result<Option<Message>, MessageFault>
        ensures { TakesFirst (kept_in self.old) result (kept_in self.new) }
    {
        let (_, kept) = self.came.as_slice().split_at(self.given);
        match Message::read(*self.came.allocator(), kept) {
            Ok(None) => Ok(None),
            Ok(Some((message, count))) => {
                self.given += count;
                Ok(Some(message))
            }
            Err(fault) => Err(fault),
        }
    }

    /// Forgets the bytes that were given as messages.
    fn forget_given(&mut self)
        ensures { kept_in self.new ≡ kept_in self.old }
    {
        let given = self.given;
        self.given = 0;
        keep_rest(&mut self.came, given);
    }

    /// Makes room for n bytes more.
    fn make_room(&mut self, count: usize) -> Result<(), NoMemory>
        ensures kept { kept_in self.new ≡ kept_in self.old }
        ensures room { OnOk result
            (vec_len self.new.came + count ≤ vec_capacity self.new.came) }
    {
        self.forget_given();
        self.came.reserve(count)
    }

    /// Keeps these bytes too, for which there is room.
    fn keep(&mut self, bytes: &[u8])
        requires { vec_len self.old.came + length bytes.now ≤ vec_capacity self.old.came }
        ensures { kept_in self.new ≡ kept_in self.old ++ bytes.now }
    {
        let _ = self.came.extend_from_slice(bytes);
    }

    /// Keeps what one read of a source gives. Out of memory nothing is read.
    pub(crate) fn read_from<S: Source>(&mut self, source: &mut S) -> Result<Piece, NoMemory>
        ensures reads { (bytes : List ℕ) × (kept_in self.new ≡ kept_in self.old ++ bytes)
            × Consumes (S.bytes_left source.old) (S.bytes_left source.new) bytes
            × Appends (S.bytes_read source.old) (S.bytes_read source.new) bytes
            × ComeWith result bytes }
        ensures end { result ≡ Ok Piece.End → IsAtEnd (S.bytes_left source.new) }
        ensures faults { CountsFault result (S.read_fault_count source.old)
            (S.read_fault_count source.new) }
        ensures later { S.read_fault_count source.old ≤ S.read_fault_count source.new }
        ensures apart { S.sink_side source.new ≡ S.sink_side source.old }
    {
        let mut buffer = [0u8; PIECE];
        let Ok(()) = self.make_room(buffer.len()) else {
            return Err(AllocError);
        };
        match source.read(&mut buffer) {
            Piece::Got(count) => {
                let (bytes, _) = buffer.split_at(count);
                self.keep(bytes);
                Ok(Piece::Got(count))
            }
            Piece::Quiet => Ok(Piece::Quiet),
            Piece::End => Ok(Piece::End),
            Piece::Failed => Ok(Piece::Failed),
        }
    }
}
