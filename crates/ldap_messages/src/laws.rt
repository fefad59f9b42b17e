//! Laws of the spellings of messages.

ghost use Rattle.std.specs.Prelude.{◌≡◌, ◌≢◌, ℕ, List, [], ◌++◌};
ghost use Rattle.ldap_messages.specs.Whole.{MessageValue, MessageForm};
ghost use Rattle.ldap_messages.specs.Frame.{Spells, read_of, partial};

/// No spelling of a message is a proper prefix of another one, and of a proper prefix no message is
/// read, but more bytes are waited for.
pub fn no_message_begins_another()
    ensures one { (prefix more : List ℕ) (one other : MessageValue)
        → MessageForm prefix one [] → MessageForm (prefix ++ more) other [] → more ≡ [] }
    ensures cut { (prefix more : List ℕ) (whole : MessageValue)
        → Spells (prefix ++ more) whole → more ≢ [] → read_of prefix ≡ partial }
{}

/// What the first bytes were read as, or refused as, stays so, whatever bytes follow them.
pub fn later_bytes_change_nothing()
    ensures { (prefix after : List ℕ)
        → read_of prefix ≢ partial → read_of (prefix ++ after) ≡ read_of prefix }
{}
