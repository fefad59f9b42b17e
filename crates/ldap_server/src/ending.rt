//! How searches are abandoned and cancelled (RFC 4511, section 4.11; RFC 3909).

ghost use Rattle.std.specs.Prelude.{◌≡◌, ◌∷◌, [], option_copied};
ghost use Rattle.ldap_server.specs.Points.{PerformedOrBegun, IsPerformed};
ghost use Rattle.ldap_server.specs.Seen.{point_in};
ghost use Rattle.ldap_server.specs.SessionState.{without};
ghost use Rattle.ldap_server.specs.Table.{AbandonAnswer, CancelAnswer, DropsAll, ExtendedAnswer, TargetAnswer, search_of_id};

use crate::SessionSearch;
use crate::response::Response;
use crate::session::{Session, drop_each};
use ldap_ber::{NoMemory, Octets};
use ldap_constants::{CANCELED, NO_SUCH_OPERATION, PROTOCOL_ERROR, SUCCESS};
use ldap_session::{cancels, target_of};
use std::alloc::AllocError;
use sync_provider::Port;

/// The search whose message ID this is.
fn found_of_id(searches: &[SessionSearch], target: i64) -> Option<&SessionSearch>
    ensures { option_copied result ≡ search_of_id target searches.now }
{
    searches
        .iter()
        .find(|search| i64::from(search.id) == target)
}

impl<P: Port> Session<P> {
    /// The open search whose message ID this is.
    fn search_of_id(&self, target: i64) -> Option<SessionSearch>
        ensures { result ≡ search_of_id target self.now.searches.items }
    {
        found_of_id(self.searches.as_slice(), target).copied()
    }

    /// Drops an open search.
    fn drop_search(&mut self, search: SessionSearch)
        ensures home { P.home self.new.port ≡ P.home self.old.port }
        ensures drops { DropsAll (search ∷ []) (P.state self.old.port) (P.state self.new.port) }
        ensures searches { self.new.searches.items ≡ without search.id self.old.searches.items }
        ensures bound { self.new.bound ≡ self.old.bound }
        ensures sent { self.new.sent.items ≡ self.old.sent.items }
    {
        drop_each(&mut self.port, &[search]);
        self.searches.retain(|other| other.id != search.id);
    }

    /// Drops the open search that an Abandon names, if there is one.
    pub(crate) fn abandon(&mut self, target: i64)
        ensures home { P.home self.new.port ≡ P.home self.old.port }
        ensures answer { IsPerformed
            (AbandonAnswer (search_of_id target self.old.searches.items))
            (point_in P.state self.old) (point_in P.state self.new) }
    {
        let Some(search) = self.search_of_id(target) else {
            return;
        };
        self.drop_search(search);
    }

    /// Answers an extended operation: a Cancel, or protocolError.
    pub(crate) fn answer_extended(
        &mut self,
        id: u32,
        name: &Octets,
        value: &Option<Octets>,
    ) -> Result<(), NoMemory>
        ensures home { P.home self.new.port ≡ P.home self.old.port }
        ensures answer { PerformedOrBegun (ExtendedAnswer id name.now value.now)
            (point_in P.state self.old) result (point_in P.state self.new) }
    {
        if !cancels(name) {
            return self.respond(id, Response::Extended, PROTOCOL_ERROR);
        }
        let Ok(target) = target_of(value) else {
            return Err(AllocError);
        };
        self.cancel_target(id, target)
    }

    /// Answers a Cancel of this target, or of none where its value is outside the grammar.
    fn cancel_target(&mut self, id: u32, target: Option<i64>) -> Result<(), NoMemory>
        ensures home { P.home self.new.port ≡ P.home self.old.port }
        ensures answer { PerformedOrBegun (TargetAnswer id target)
            (point_in P.state self.old) result (point_in P.state self.new) }
    {
        match target {
            Some(target) => {
                let search = self.search_of_id(target);
                self.cancel(id, search)
            }
            None => self.respond(id, Response::Extended, PROTOCOL_ERROR),
        }
    }

    /// Cancels an open search, if there is one.
    fn cancel(&mut self, id: u32, search: Option<SessionSearch>) -> Result<(), NoMemory>
        ensures home { P.home self.new.port ≡ P.home self.old.port }
        ensures answer { PerformedOrBegun (CancelAnswer id search)
            (point_in P.state self.old) result (point_in P.state self.new) }
    {
        let Some(search) = search else {
            return self.respond(id, Response::Extended, NO_SUCH_OPERATION);
        };
        self.drop_search(search);
        match self.respond(search.id, Response::SearchDone, CANCELED) {
            Ok(()) => self.respond(id, Response::Extended, SUCCESS),
            Err(_) => Err(AllocError),
        }
    }
}
