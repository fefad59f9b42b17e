//! A directory with its accepted writes, and the searches with content synchronisation that are
//! open on it (RFC 4533, section 3, the server's part).
//!
//! A directory that is a root has the writes of its clients. That of a replica has commits of what
//! it took from the provider that it follows; each of them is one write, and is reported to its own
//! searches.
//!
//! Each search begins with a refresh, whose end carries the cookie of the content. Without a cookie
//! every entry that its specification selects is sent whole. With a cookie of the directory only
//! what was touched since then is sent. The rest is a delete phase, where the session log reports
//! what was touched, and else a present phase.
//!
//! A refresh goes through the identities in pieces of 256. The first is decided when the search is
//! accepted, and each later one when a message of it is asked for; writes may come between. What
//! changed in the content meanwhile is sent once more after the last piece, and the cookie is that
//! of the content then.
//!
//! In the mode refreshOnly the search is over then. In the mode refreshAndPersist it goes on: each
//! accepted write puts, in the same call, one message for each identity that it changes in the
//! content into the search's queue, all of them or none. A search whose queue would hold too many
//! messages, or too heavy ones, ends with the code busy, and so does one, in either mode, in whose
//! content too many identities change while pieces of its refresh are left.
//!
//! A `SyncDirectory` is all this. A `Provider` keeps a journal beside it: the writes that were
//! accepted, the searches that were opened, and their ends. It is a `Port`, by which a directory is
//! written to, searched and followed, whether other ports do so too or not.
#![tactic(auto)]

mod by_number;
mod changed_set;
mod committing;
mod comparing;
mod content_change;
mod gathering;
mod handed;
mod handed_messages;
mod journal;
mod journal_note;
mod laws;
mod notifying;
mod open_search;
mod opened_search;
mod parts;
mod pending_refresh;
mod persist_message;
mod port;
mod ports;
mod provider;
mod ready_commit;
mod refresh_end;
mod refresh_item;
mod refreshing;
mod returning;
mod search_table;
mod searches;
mod searching;
mod selecting;
mod staged_group;
mod staging;
mod sync_directory;
mod walk;
mod writing;

pub use committing::StagedCommit;
pub use handed::Handed;
pub use handed_messages::{HandOutStop, HandedMessages};
pub use journal_note::{ClosedSearch, JournalNote, SearchChange, SearchEvent};
pub use laws::{
    cookies_name_their_prefix, logs_show_what_was_touched, numbers_show_what_was_touched,
    queues_overflow_exactly, refreshes_are_incremental, refusals_count_as_none,
    returns_count_as_none, searches_deliver_their_streams, searches_keep_their_place,
    writes_were_accepted,
};
pub use ldap_ber::NoMemory;
pub use open_search::OpenSearch;
pub use opened_search::OpenedSearch;
pub use port::Port;
pub use provider::{Kind, Provider};
pub use returning::SearchSnapshot;
pub use searches::{Accepted, SyncSearch};
pub use searching::{PlainSearch, SearchReply};
pub use sync_directory::SyncDirectory;
pub use sync_wire::done_message;
pub use writing::{CommitFault, Reply};
