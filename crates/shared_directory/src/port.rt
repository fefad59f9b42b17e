//! A desk as a port. Each call is one turn.

ghost use Rattle.shared_directory.specs.Passes.{port_of, view_or};

use crate::calls::{
    AcceptCall, CommitCall, CompareCall, DropCall, HandOutCall, HandOutSeveralCall, SearchCall,
    WriteCall, WritesCall,
};
use crate::desk::Desk;
use crate::directory::SharedDirectory;
use dn_names::Dn;
use entry_tree::{EntryList, Op};
use ldap_messages::Message;
use std::sync::Wait;
use sync_messages::IdList;
use sync_provider::{
    Accepted, CommitFault, Handed, HandedMessages, PlainSearch, Port, Reply, SearchReply,
    SyncSearch,
};

impl<R: Wait> Port for Desk<'_, R> {
    type Home = SharedDirectory;

    ghost home = { λ d. d.directory.now };

    ghost state = { λ d. port_of (view_or d.pass) };

    fn write(&mut self, op: Op, now: u64) -> Reply {
        self.call(WriteCall { op, now })
    }

    fn commit(&mut self, puts: EntryList, drops: IdList, now: u64) -> Result<u64, CommitFault> {
        self.call(CommitCall { puts, drops, now })
    }

    fn search(&mut self, ask: &PlainSearch) -> SearchReply {
        self.call(SearchCall { ask })
    }

    fn compare(&mut self, dn: &Dn, name: &[u8], value: &[u8]) -> u32 {
        self.call(CompareCall { dn, name, value })
    }

    fn accept(&mut self, ask: SyncSearch) -> Accepted {
        self.call(AcceptCall { ask })
    }

    fn hand_out(&mut self, search: u64) -> Handed {
        self.call(HandOutCall { search })
    }

    fn hand_out_several(&mut self, search: u64, most: usize, room: Vec<Message>) -> HandedMessages {
        self.call(HandOutSeveralCall { search, most, room })
    }

    fn drop_search(&mut self, search: u64) -> bool {
        self.call(DropCall { search })
    }

    fn writes(&mut self) -> u64 {
        self.call(WritesCall)
    }

    fn meet(&mut self, other: &mut Self) {
        self.turn_beside(other)
    }
}
