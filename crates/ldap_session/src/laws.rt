//! Laws of a session.

ghost use Rattle.std.specs.Prelude.{◌≡◌, ℕ, true, List, []};
ghost use Rattle.dn_names.specs.Names.{TypeAndValue};
ghost use Rattle.ldap_messages.specs.declared.bind.Authentication.{Authentication};
ghost use Rattle.ldap_session.specs.declared.access.Access.TheVariants.{Named};
ghost use Rattle.ldap_session.specs.declared.event.LinkEvent.{LinkEvent};
ghost use Rattle.ldap_session.specs.Acts.{acts_from, until_end, end_among};
ghost use Rattle.ldap_session.specs.Binding.{bind_code, binds_as, IsByName};
ghost use Rattle.ldap_session.specs.Cuts.{bytes_of, answered_by, until_over, end_by_input};
ghost use Rattle.ldap_session.specs.Incoming.{incoming_in};

/// What is answered are the messages of all the bytes, up to the one that ends the session, however
/// the bytes were cut into pieces and whatever quiets came between.
pub fn cuts_change_no_message()
    ensures { (events : List LinkEvent)
        → answered_by (until_end (acts_from [] events))
        ≡ until_over (incoming_in (bytes_of events)) }
{}

/// How a session ends is decided by all the bytes and the end of the input, however the bytes were
/// cut: by the first message that ends one, or else with the input.
pub fn the_input_decides_the_end()
    ensures { (events : List LinkEvent) → end_among (acts_from [] events) ≡ end_by_input events }
{}

/// A session is bound as the configured name exactly after a bind of version 3 that gave this name
/// and its password, which is not empty.
pub fn the_configured_bind_alone_binds()
    ensures only { (known : List (List TypeAndValue)) (secret : List ℕ)
        (version : ℕ) (name : List ℕ) (authentication : Authentication)
        → binds_as (bind_code (Named known secret) version name authentication) authentication
        ≡ true
        → IsByName known secret version name authentication }
    ensures enough { (known : List (List TypeAndValue)) (secret : List ℕ)
        (version : ℕ) (name : List ℕ) (authentication : Authentication)
        → IsByName known secret version name authentication
        → binds_as (bind_code (Named known secret) version name authentication) authentication
        ≡ true }
{}
