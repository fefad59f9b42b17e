//! Laws of clients.

ghost use Rattle.std.specs.Prelude.{ℕ, List, [], ◌∷◌, ◌++◌, map, Result, Ok, Err};
ghost use Rattle.std.specs.Io.KnownBytes.{IsAtEnd};
ghost use Rattle.ldap_client.specs.Clients.{Asks, ClientState, GivesNext, HasGiven, HasRead, fresh};
ghost use Rattle.ldap_client.specs.Links.{LinkState};
ghost use Rattle.ldap_client.specs.declared.fault.ClientFault.{ClientFault};
ghost use Rattle.ldap_client.specs.declared.fault.ClientFault.TheVariants.{PeerMessage, EndOfInput};
ghost use Rattle.ldap_messages.specs.Whole.{MessageValue, message_value};
ghost use Rattle.ldap_messages.specs.declared.message.Message.{Message};
ghost use Rattle.ldap_session.specs.Incoming.{Arrived, Wrong, incoming_in};

/// The messages that a client gives are, in order, those of the bytes that were read, however these
/// were cut and whatever was written between them. Where it is refused what comes, that stands
/// after all that were given; where the input has ended, no other message was read.
pub fn messages_are_given_in_order()
    ensures none { (link : LinkState) → HasGiven link [] (fresh link) }
    ensures asked { (first : LinkState) (messages : List MessageValue)
        (octets : List ℕ) (old new : ClientState) (result : Result Unit ClientFault)
        → HasGiven first messages old → Asks octets old result new
        → HasGiven first messages new }
    ensures next { (first : LinkState) (messages : List MessageValue)
        (old new : ClientState) (message : Message)
        → HasGiven first messages old → GivesNext old (Ok message) new
        → HasGiven first (messages ++ message_value message ∷ []) new }
    ensures fault { (first : LinkState) (messages : List MessageValue)
        (old new : ClientState) (fault : ClientFault)
        → HasGiven first messages old → GivesNext old (Err fault) new
        → HasGiven first messages new }
    ensures read { (first : LinkState) (messages : List MessageValue) (now : ClientState)
        → HasGiven first messages now
        → HasRead first now.link (map Arrived messages ++ incoming_in now.kept) }
    ensures refused { (first : LinkState) (messages : List MessageValue)
        (old new : ClientState) (place : ℕ)
        → HasGiven first messages old → GivesNext old (Err (PeerMessage place)) new
        → HasRead first new.link (map Arrived messages ++ Wrong place ∷ []) }
    ensures ended { (first : LinkState) (messages : List MessageValue) (old new : ClientState)
        → HasGiven first messages old → GivesNext old (Err EndOfInput) new
        → HasRead first new.link (map Arrived messages) × IsAtEnd new.link.left }
{}
