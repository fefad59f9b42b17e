//! How a search is answered (RFC 4511, section 4.5; RFC 4533, section 3).

ghost use Rattle.std.specs.Prelude.{◌≡◌, IfOk};
ghost use Rattle.ldap_messages.specs.Search as messages;
ghost use Rattle.ldap_parts.specs.Controls.{control_named};
ghost use Rattle.ldap_server.specs.Points.{PerformedOrBegun};
ghost use Rattle.ldap_server.specs.Seen.{point_in};
ghost use Rattle.ldap_server.specs.Table.{Finds, Opens, OrSendsOther, SearchAnswer, SelectedAnswer, value_or_empty};
ghost use Rattle.ldap_session.specs.Shown.{search_shown};
ghost use Rattle.sync_wire.specs.Requesting.{scope_number};

use crate::SessionSearch;
use crate::naming::name_of;
use crate::response::Response;
use crate::selecting::Selection;
use crate::session::Session;
use dn_names::Dn;
use entry_tree::{Scope, Spec};
use ldap_ber::{NoMemory, Octets, discard};
use ldap_constants::{NO_SUCH_OBJECT, OTHER, SIZE_LIMIT_EXCEEDED, SUCCESS, SYNC_REQUEST};
use ldap_messages::{Control, SearchScope, control_named};
use ldap_session::SearchParameters;
use std::alloc::{AllocError, Global};
use sync_provider::{Accepted, PlainSearch, Port, SearchReply, SyncSearch};

/// The scope of a specification.
fn scope_of(scope: SearchScope) -> Scope
    ensures { scope_number result ≡ messages.scope_number scope }
{
    match scope {
        SearchScope::Base => Scope::Base,
        SearchScope::One => Scope::One,
        SearchScope::Sub => Scope::Sub,
    }
}

/// The value of a control. None counts as one outside its grammar, as the empty value is.
fn value_of(alloc: Global, control: &Control) -> Result<Octets, NoMemory>
    ensures { IfOk result (λ value. value ≡ value_or_empty control.now.value) }
{
    match &control.value {
        Some(value) => value.copy(),
        None => Octets::from_slice(alloc, b""),
    }
}

impl<P: Port> Session<P> {
    /// Answers a search. One with a Sync Request control that is accepted is answered by its
    /// messages.
    pub(crate) fn answer_search(
        &mut self,
        id: u32,
        asked: SearchParameters,
        controls: &[Control],
    ) -> Result<(), NoMemory>
        ensures home { P.home self.new.port ≡ P.home self.old.port }
        ensures answer { PerformedOrBegun (SearchAnswer id (search_shown asked) controls.now)
            (point_in P.state self.old) result (point_in P.state self.new) }
    {
        match name_of(self.alloc, &asked.base) {
            Ok(base) => self.answer_based(id, base, asked, controls),
            Err(code) => {
                discard(asked);
                self.respond(id, Response::SearchDone, code)
            }
        }
    }

    /// Answers a search whose base is this name.
    fn answer_based(
        &mut self,
        id: u32,
        base: Dn,
        asked: SearchParameters,
        controls: &[Control],
    ) -> Result<(), NoMemory>
        ensures home { P.home self.new.port ≡ P.home self.old.port }
        ensures answer { PerformedOrBegun
            (OrSendsOther id (SelectedAnswer id base (search_shown asked)
            (control_named SYNC_REQUEST.now controls.now)))
            (point_in P.state self.old) result (point_in P.state self.new) }
    {
        let SearchParameters {
            base: _text,
            scope,
            size_limit,
            types_only,
            filter,
            selectors,
        } = asked;
        let spec = Spec {
            base,
            scope: scope_of(scope),
            filter,
        };
        match control_named(controls, SYNC_REQUEST) {
            Some(control) => self.answer_sync(id, spec, control),
            None => {
                let selection = Selection {
                    selectors: &selectors,
                    types_only,
                };
                self.answer_plain(id, PlainSearch { spec, size_limit }, selection)
            }
        }
    }

    /// Answers a search without content synchronisation by its entries and its end.
    fn answer_plain(
        &mut self,
        id: u32,
        ask: PlainSearch,
        selection: Selection<'_>,
    ) -> Result<(), NoMemory>
        ensures home { P.home self.new.port ≡ P.home self.old.port }
        ensures answer { PerformedOrBegun
            (Finds ask id selection.entry.selectors.now selection.entry.types_only)
            (point_in P.state self.old) result (point_in P.state self.new) }
    {
        let reply = self.port.search(&ask);
        discard(ask);
        match reply {
            SearchReply::Found(entries) => self.send_entries(id, entries, selection, SUCCESS),
            SearchReply::Over(entries) => {
                self.send_entries(id, entries, selection, SIZE_LIMIT_EXCEEDED)
            }
            SearchReply::NoSuchBase => self.respond(id, Response::SearchDone, NO_SUCH_OBJECT),
            SearchReply::NoMemory => self.respond(id, Response::SearchDone, OTHER),
        }
    }

    /// Opens a search with content synchronisation, or answers the code that rejects it.
    fn answer_sync(&mut self, id: u32, spec: Spec, control: &Control) -> Result<(), NoMemory>
        ensures home { P.home self.new.port ≡ P.home self.old.port }
        ensures answer { PerformedOrBegun (OrSendsOther id (Opens (record {
          id = id;
          spec = spec;
          control = value_or_empty control.now.value;
        })))
            (point_in P.state self.old) result (point_in P.state self.new) }
    {
        match value_of(self.alloc, control) {
            Ok(control) => self.open_search(SyncSearch { id, spec, control }),
            Err(_) => {
                discard(spec);
                self.respond(id, Response::SearchDone, OTHER)
            }
        }
    }

    /// Opens a search at the port, or answers the code that rejects it. Room for it is made first,
    /// so that a search that the port has opened is one of the session's.
    fn open_search(&mut self, ask: SyncSearch) -> Result<(), NoMemory>
        ensures home { P.home self.new.port ≡ P.home self.old.port }
        ensures answer { PerformedOrBegun (Opens ask)
            (point_in P.state self.old) result (point_in P.state self.new) }
    {
        let id = ask.id;
        let Ok(()) = self.searches.reserve(1) else {
            discard(ask);
            return Err(AllocError);
        };
        match self.port.accept(ask) {
            Accepted::Opened(number, _) => {
                self.searches.push_reserved(SessionSearch { id, number });
                Ok(())
            }
            Accepted::Refused(code) => self.respond(id, Response::SearchDone, code),
            Accepted::NoMemory => self.respond(id, Response::SearchDone, OTHER),
        }
    }
}
