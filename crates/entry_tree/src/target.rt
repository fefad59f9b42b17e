//! Where an entry goes that gets another name (RFC 4511, section 4.9).
ghost use Rattle.std.specs.Prelude.{◌≡◌, List, None, IfErr, OnOk};
ghost use Rattle.std.specs.Result.{result_ok};
ghost use Rattle.dn_names.specs.Names.{TypeAndValue};
ghost use Rattle.dn_names.specs.Reading.{limited};
ghost use Rattle.entry_writes.specs.Codes as codes;
ghost use Rattle.entry_writes.specs.Fault.{HasOpCode};

use crate::names::has_other;
use crate::tree::Tree;
use dn_names::Dn;
use entry_writes::{Entry, OpFault};
use ldap_constants::{ENTRY_ALREADY_EXISTS, NO_SUCH_OBJECT, UNWILLING_TO_PERFORM};

impl Tree {
    /// Refuses the new name of an entry, which is `name` where that is not too long: with
    /// noSuchObject (32) where no entry has the name of the new superior, else with
    /// unwillingToPerform (53) where the entry is that of the suffix or the superior is at or below
    /// it, else with entryAlreadyExists (68) where another entry has the new name.
    pub(crate) fn check_target(
        &self,
        suffix: &Dn,
        top: &Entry,
        name: &Option<Dn>,
        superior: &Option<Dn>,
    ) -> Result<(), OpFault>
        ensures ok { OnOk result ((new : List (List TypeAndValue))
            → name.now ≡ result_ok (limited new)
            → codes.target_code suffix.now self.now top.now new superior.now ≡ None) }
        ensures fault { IfErr result (λ fault. (new : List (List TypeAndValue))
            → name.now ≡ result_ok (limited new)
            → HasOpCode (codes.target_code suffix.now self.now top.now new superior.now) fault) }
    {
        if !self.has_superior(superior) {
            return Err(OpFault::Code(NO_SUCH_OBJECT));
        }
        if top.dn.same(suffix) || is_within(top, superior) {
            return Err(OpFault::Code(UNWILLING_TO_PERFORM));
        }
        if self.is_taken_from(top, name) {
            return Err(OpFault::Code(ENTRY_ALREADY_EXISTS));
        }
        Ok(())
    }

    /// Whether the new superior has an entry, where one is given.
    fn has_superior(&self, superior: &Option<Dn>) -> bool
        ensures { result ≡ codes.has_superior self.now superior.now }
    {
        match superior {
            None => true,
            Some(superior) => self.has_name(superior),
        }
    }

    /// Whether another entry has the new name. None has a name that is too long.
    fn is_taken_from(&self, top: &Entry, name: &Option<Dn>) -> bool
        ensures { (new : List (List TypeAndValue)) → name.now ≡ result_ok (limited new)
            → result ≡ codes.is_taken_from top.now self.now new }
    {
        match name {
            Some(name) => has_other(&self.names, name.path(), top.uuid),
            None => false,
        }
    }
}

/// Whether the new superior is the entry, or below it.
fn is_within(top: &Entry, superior: &Option<Dn>) -> bool
    ensures { result ≡ codes.is_within top.now superior.now }
{
    match superior {
        None => false,
        Some(superior) => superior.is_at_or_below(&top.dn),
    }
}
