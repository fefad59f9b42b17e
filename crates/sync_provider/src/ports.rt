//! A provider by itself as a port.

ghost use Rattle.sync_provider.specs.Journal.{port_state};

use crate::handed::Handed;
use crate::handed_messages::HandedMessages;
use crate::port::Port;
use crate::provider::Provider;
use crate::searches::{Accepted, SyncSearch};
use crate::searching::{PlainSearch, SearchReply};
use crate::writing::{CommitFault, Reply};
use dn_names::Dn;
use entry_tree::{EntryList, Op};
use ldap_messages::Message;
use sync_messages::IdList;

/// It is a port of itself alone: no entry of another one comes in.
impl Port for Provider {
    type Home = ();

    ghost home = { λ p. tt };

    ghost state = { port_state };

    #[tactic(auto, using(crate::proofs::Journals::replied_alone))]
    fn write(&mut self, op: Op, now: u64) -> Reply {
        Provider::write(self, op, now)
    }

    #[tactic(auto, using(crate::proofs::Journals::replied_alone))]
    fn commit(&mut self, puts: EntryList, drops: IdList, now: u64) -> Result<u64, CommitFault> {
        Provider::commit(self, puts, drops, now)
    }

    #[tactic(auto, using(crate::proofs::Journals::replied_alone))]
    fn search(&mut self, ask: &PlainSearch) -> SearchReply {
        Provider::search(self, ask)
    }

    #[tactic(auto, using(crate::proofs::Journals::replied_alone))]
    fn compare(&mut self, dn: &Dn, name: &[u8], value: &[u8]) -> u32 {
        Provider::compare(self, dn, name, value)
    }

    #[tactic(auto, using(crate::proofs::Journals::replied_alone))]
    fn accept(&mut self, ask: SyncSearch) -> Accepted {
        Provider::accept(self, ask)
    }

    #[tactic(auto, using(crate::proofs::Journals::replied_alone))]
    fn hand_out(&mut self, search: u64) -> Handed {
        Provider::hand_out(self, search)
    }

    #[tactic(auto, using(crate::proofs::Journals::replied_alone))]
    fn hand_out_several(&mut self, search: u64, most: usize, room: Vec<Message>) -> HandedMessages {
        Provider::hand_out_several(self, search, most, room)
    }

    #[tactic(auto, using(crate::proofs::Journals::replied_alone))]
    fn drop_search(&mut self, search: u64) -> bool {
        Provider::drop_search(self, search)
    }

    #[tactic(auto, using(crate::proofs::Journals::replied_alone))]
    fn writes(&mut self) -> u64 {
        Provider::writes(self)
    }

    #[tactic(auto, using(crate::proofs::Journals::met_alone))]
    fn meet(&mut self, other: &mut Provider) {
        let _ = other;
    }
}
