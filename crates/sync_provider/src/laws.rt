//! What holds of a provider, over every list of calls.

ghost use Rattle.sync_provider.specs.Answering.{RefusalsCountAsNone};
ghost use Rattle.sync_provider.specs.Law.{
  CookiesNameTheirPrefix,
  LogsShowWhatWasTouched,
  NumbersShowWhatWasTouched,
  QueuesOverflowExactly,
  RefreshesAreIncremental,
  SearchesKeepTheirPlace,
  SearchesDeliverTheirStreams,
  WritesWereAccepted,
};
ghost use Rattle.sync_provider.specs.Returning.{ReturnsCountAsNone};

/// After every list of calls whose writes and commits are sound, each write that is kept was
/// accepted on the entries before it.
pub fn writes_were_accepted()
    ensures { WritesWereAccepted }
{}

/// After every list of calls, as many CSNs are not greater than that of a content's cookie as
/// writes led to the content.
pub fn cookies_name_their_prefix()
    ensures { CookiesNameTheirPrefix }
{}

/// After every list of calls, where the session log covers a number of writes it reports exactly
/// the identities whose entries the writes since then touched; and it covers the number of all
/// writes.
pub fn logs_show_what_was_touched()
    ensures { LogsShowWhatWasTouched }
{}

/// After every list of calls, the number of an identity's last touch is above a number exactly
/// where the writes since then touched it.
pub fn numbers_show_what_was_touched()
    ensures { NumbersShowWhatWasTouched }
{}

/// After every list of calls, what is kept of each open search is what is left of its refresh and
/// then of what the later writes send, all of that where something of the refresh is left; and
/// while pieces are left, what changed in its content since its acceptance; unless a write was too
/// much for the search.
pub fn searches_keep_their_place()
    ensures { SearchesKeepTheirPlace }
{}

/// Over every list of calls, what a search handed out, followed by what was pending when it ended,
/// was dropped or is looked at, is its Stream up to the writes at that moment, by the numbers of
/// writes at which its pieces were decided; or, where a write was too much for it, a prefix of that
/// and then the end with the code busy.
pub fn searches_deliver_their_streams()
    ensures { SearchesDeliverTheirStreams }
{}

/// Over every list of calls, a search ends with the code busy exactly where a write adds to what it
/// is to keep, and that is then more than the queue limit, or heavier than 16 MiB: the messages of
/// later writes that are not handed out, or while pieces of its refresh are left the identities
/// that changed in its content.
pub fn queues_overflow_exactly()
    ensures { QueuesOverflowExactly }
{}

/// Over every list of calls, the refresh of a search that begins with a servable cookie sends an
/// entry whole only where the writes after those that the cookie names touched it, up to the number
/// of writes that the cookie of the refresh's end names.
pub fn refreshes_are_incremental()
    ensures { RefreshesAreIncremental }
{}

/// Over every list of calls with returns of searches to earlier moments, each to a moment since
/// which no write came, the provider is as after the calls that count alone. Once a search is back,
/// of the calls that opened, handed out or closed one under its number those count that counted at
/// that moment; those of other searches stay as they were. A return to a moment at which no search
/// had the number counts as a call that closes it.
pub fn returns_count_as_none()
    ensures { ReturnsCountAsNone }
{}

/// Over every list of calls, whatever they answered, the provider is as after those alone that were
/// not refused. Out of memory is such a refusal. What a call may leave by its answer is what its
/// clause `leaves` promises.
pub fn refusals_count_as_none()
    ensures { RefusalsCountAsNone }
{}
