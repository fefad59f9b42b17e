//! How a search is accepted (RFC 4533, sections 3.3 and 3.4).

ghost use Rattle.std.specs.Prelude.{◌≡◌, length, Ok, IfOk, IfErr, IfSome, OnOk, OnErr};
ghost use Rattle.entry_tree.specs.Selection.{search_of};
ghost use Rattle.std.specs.Ordering.{nat_cmp};
ghost use Rattle.sync_messages.specs.Request.{request_of};
ghost use Rattle.sync_wire.specs.Requesting.{persists};
ghost use Rattle.std.specs.BTreeMap.{insert_entry};
ghost use Rattle.sync_provider.specs.Accepting as accepting;
ghost use Rattle.sync_provider.specs.Answering.{AcceptLeaves};
ghost use Rattle.directory_writes.specs.Starting.{CanBegin};
ghost use Rattle.directory_writes.specs.Starting.{start_of};
ghost use Rattle.sync_provider.specs.Placing.{IsSearchNumber};
ghost use Rattle.sync_provider.specs.Search.{opening};
ghost use Rattle.sync_provider.specs.declared.searches.Accepted.TheVariants.{Opened, Refused};

use crate::open_search::{OpenSearch, SearchOpening};
use crate::pending_refresh::PendingRefresh;
use crate::search_table::MOST_SEARCHES;
use crate::sync_directory::SyncDirectory;
use csn_cookie::is_blank;
use directory_writes::Start;
use entry_tree::Spec;
use ldap_ber::{NoMemory, Octets, discard};
use ldap_constants::{
    ADMIN_LIMIT_EXCEEDED, E_SYNC_REFRESH_REQUIRED, NO_SUCH_OBJECT, PROTOCOL_ERROR,
};
use sync_messages::{Mode, SyncFault, SyncRequest};

/// A search with a Sync Request control that is asked for.
#[derive(Drop)]
pub struct SyncSearch {
    /// The message ID, which numbers the search's messages.
    pub id: u32,
    pub spec: Spec,
    /// The control's value as it came.
    pub control: Octets,
}

/// What a search that nothing rejects gets: its number, and where it begins.
#[derive(Drop)]
struct Admitted {
    number: u64,
    start: Start,
}

/// What becomes of a search that was asked for.
#[derive(Clone, Copy, Debug, PartialEq, Eq)]
pub enum Accepted {
    /// The search's number, and how many writes the directory has.
    Opened(u64, u64),
    /// The result code that rejects it.
    Refused(u32),
    NoMemory,
}

impl SyncDirectory {
    /// Opens a search under the smallest free number, or reports the first of the codes against it:
    /// protocolError for a control's value outside its grammar, noSuchObject for a base outside the
    /// suffix, adminLimitExceeded where the 64 numbers are all in use, and e-syncRefreshRequired
    /// for a cookie that is neither blank nor servable, from a client that does not ask to reload
    /// then. The first piece of its refresh is decided. A search in the mode refreshAndPersist goes
    /// on after its refresh.
    ///
    /// A cookie is servable where it is of the directory's history and its CSN is not above the
    /// last one. The search then begins with the content after the writes that it names.
    #[tactic(auto, using(crate::proofs::Asking::value_refused, crate::proofs::Asking::value_read))]
    pub fn accept(&mut self, ask: SyncSearch) -> Accepted
        ensures leaves { AcceptLeaves self.old ask result self.new }
    {
        match SyncRequest::read(self.alloc, ask.control.as_slice()) {
            Ok(request) => self.accept_request(&request, ask),
            Err(fault) => {
                discard(ask);
                match fault {
                    SyncFault::NoMemory => Accepted::NoMemory,
                    _ => Accepted::Refused(PROTOCOL_ERROR),
                }
            }
        }
    }

    /// The same, with the request that the control's value spells.
    fn accept_request(&mut self, request: &SyncRequest, ask: SyncSearch) -> Accepted
        requires { request_of ask.control ≡ Ok request.now }
        ensures answer { accepting.AnswersAccept result
            (accepting.answer_to_request self.old.directory self.old.searches ask
            (Ok request.now)) }
        ensures state { self.new ≡ record self.old {
          searches = accepting.after_answer self.old.directory self.old.searches ask result;
        } }
    {
        match self.admitted(request, &ask) {
            Ok(admitted) => {
                let asked = SearchOpening {
                    id: ask.id,
                    spec: ask.spec,
                    start: admitted.start,
                    persists: persists(request.mode),
                };
                match self.open(admitted.number, asked) {
                    Ok(writes) => Accepted::Opened(admitted.number, writes),
                    Err(_) => Accepted::NoMemory,
                }
            }
            Err(code) => {
                discard(ask);
                Accepted::Refused(code)
            }
        }
    }

    /// The number that a search gets and where it begins, or the first code that rejects it.
    #[tactic(auto, using(crate::proofs::Asking::outside, crate::proofs::Asking::crowded, crate::proofs::Asking::opposed, crate::proofs::Asking::admitted))]
    fn admitted(&self, request: &SyncRequest, ask: &SyncSearch) -> Result<Admitted, u32>
        ensures answer { IfOk result (λ found.
            accepting.answer_to_request self.now.directory self.now.searches ask.now
            (Ok request.now)
            ≡ Opened found.number (length self.now.directory.writes)) }
        ensures start { IfOk result (λ found.
            start_of found.start ≡ accepting.start_of_request self.now.directory request.now) }
        ensures served { IfOk result (λ found. CanBegin self.now.directory (start_of found.start)) }
        ensures number { IfOk result (λ found. IsSearchNumber found.number) }
        ensures code { IfErr result (λ code.
            accepting.answer_to_request self.now.directory self.now.searches ask.now
            (Ok request.now)
            ≡ Refused code) }
    {
        if !ask.spec.base.is_at_or_below(self.directory.suffix()) {
            return Err(NO_SUCH_OBJECT);
        }
        let Some(number) = self.free_number() else {
            return Err(ADMIN_LIMIT_EXCEEDED);
        };
        let prefix = self.directory.prefix_of_cookie(&request.cookie);
        if let Some(code) = code_of(request, prefix.is_some()) {
            return Err(code);
        }
        let start = self.directory.start_at(prefix);
        Ok(Admitted { number, start })
    }

    /// Opens a search with this number, and answers how many writes the directory has.
    #[tactic(auto, using(crate::proofs::Held::held_opened, crate::proofs::Pieces::first_due))]
    fn open(&mut self, number: u64, asked: SearchOpening) -> Result<u64, NoMemory>
        requires served { CanBegin self.old.directory (start_of asked.start) }
        requires number { IsSearchNumber number }
        ensures writes { IfOk result (λ writes. writes ≡ length self.old.directory.writes) }
        ensures ok { OnOk result (self.new ≡ record self.old {
          searches = insert_entry nat_cmp self.old.searches number
              (opening self.old.directory asked.id (search_of asked.spec)
              (start_of asked.start) asked.persists);
        }) }
        ensures err { OnErr result (self.new ≡ self.old) }
    {
        let spec = &asked.spec;
        let begun = PendingRefresh::new(
            self.alloc,
            &self.directory,
            spec,
            asked.start,
            asked.persists,
        );
        match begun {
            Ok(refresh) => {
                let accepted = self.writes();
                let search = OpenSearch::new(self.alloc, asked, accepted, refresh)?;
                self.searches.put(number, search);
                Ok(accepted)
            }
            Err(full) => {
                discard(asked);
                Err(full)
            }
        }
    }

    /// The smallest number, of those up to 64, under which no search is open.
    #[tactic(auto, using(crate::proofs::Numbers::found_here, crate::proofs::Numbers::found_later, crate::proofs::Numbers::found_none))]
    fn free_number(&self) -> Option<u64>
        ensures value { result ≡ accepting.free_number self.now.searches }
        ensures number { IfSome result IsSearchNumber }
    {
        for number in 1..=MOST_SEARCHES {
            if !self.searches.contains(number) {
                return Some(number);
            }
        }
        None
    }
}

/// The code that rejects what a control asks for, by whether its cookie is servable.
fn code_of(request: &SyncRequest, servable: bool) -> Option<u32>
    ensures { result ≡ accepting.code_by servable request.now }
{
    if asks_with_cookie(request) && !servable && !request.reload_hint {
        return Some(E_SYNC_REFRESH_REQUIRED);
    }
    None
}

/// Whether a search of this mode goes on after its refresh.
fn persists(mode: Mode) -> bool
    ensures { result ≡ persists mode }
{
    match mode {
        Mode::RefreshOnly => false,
        Mode::RefreshAndPersist => true,
    }
}

/// Whether a cookie is given that is not blank.
fn asks_with_cookie(request: &SyncRequest) -> bool
    ensures { result ≡ accepting.has_cookie request.now.cookie }
{
    match &request.cookie {
        None => false,
        Some(cookie) => !is_blank(cookie.as_slice()),
    }
}
