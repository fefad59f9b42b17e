//! Why the log serves.
ghost use Rattle.std.specs.Prelude.{◌≡◌, ℕ, List, [], IsTrue};
ghost use Rattle.session_log.specs.Log.{covers, since, fresh, uuids_after, joined};
ghost use Rattle.session_log.specs.Calls.{LogCall, after_calls, notes_of};

/// The law of the log: after any notes and trims, where it covers a number, what it reports is all
/// that was ever noted after that number.
pub fn a_covered_number_misses_nothing()
    ensures { (limit : ℕ) (calls : List LogCall) (number : ℕ)
        → IsTrue (covers number (after_calls (fresh limit) calls))
        → since number (after_calls (fresh limit) calls)
        ≡ joined [] (uuids_after number (notes_of calls)) }
{}
