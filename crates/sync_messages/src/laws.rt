//! Laws of the spellings of values.

ghost use Rattle.std.specs.Prelude.{◌≡◌, ◌≢◌, ℕ, List, [], ◌++◌, Err};
ghost use Rattle.ldap_ber.specs.declared.fault.BerKind.TheVariants.{Short};
ghost use Rattle.sync_messages.specs.declared.fault.SyncFault.TheVariants.{Ber};
ghost use Rattle.sync_messages.specs.declared.request.SyncRequest.{SyncRequest};
ghost use Rattle.sync_messages.specs.declared.state.SyncState.{SyncState};
ghost use Rattle.sync_messages.specs.declared.done.SyncDone.{SyncDone};
ghost use Rattle.sync_messages.specs.declared.info.SyncInfo.{SyncInfo};
ghost use Rattle.sync_messages.specs.Request.{RequestForm, request_of};
ghost use Rattle.sync_messages.specs.State.{StateForm, state_of};
ghost use Rattle.sync_messages.specs.Done.{DoneForm, done_of};
ghost use Rattle.sync_messages.specs.Info.{InfoForm, info_of};

/// A proper prefix of a spelling is refused as short, and never read as another value.
pub fn cut_spellings_are_refused()
    ensures request { (prefix more : List ℕ) (request : SyncRequest)
        → RequestForm (prefix ++ more) request [] → more ≢ []
        → request_of prefix ≡ Err (Ber (record { kind = Short; at = 0 })) }
    ensures state { (prefix more : List ℕ) (state : SyncState)
        → StateForm (prefix ++ more) state [] → more ≢ []
        → state_of prefix ≡ Err (Ber (record { kind = Short; at = 0 })) }
    ensures done { (prefix more : List ℕ) (done : SyncDone)
        → DoneForm (prefix ++ more) done [] → more ≢ []
        → done_of prefix ≡ Err (Ber (record { kind = Short; at = 0 })) }
    ensures info { (prefix more : List ℕ) (info : SyncInfo)
        → InfoForm (prefix ++ more) info [] → more ≢ []
        → info_of prefix ≡ Err (Ber (record { kind = Short; at = 0 })) }
{}
