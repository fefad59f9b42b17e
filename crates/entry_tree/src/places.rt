//! Which names have entries.
ghost use Rattle.std.specs.Prelude.{◌≡◌, None, filter, map, IfErr, OnOk};
ghost use Rattle.entry_writes.specs.Codes as codes;
ghost use Rattle.entry_writes.specs.Fault.{HasOpCode};
ghost use Rattle.entry_writes.specs.State as state;

use crate::names::{first_at, has_longer};
use crate::tree::Tree;
use dn_names::Dn;
use entry_writes::{Entry, OpFault};
use ldap_constants::{ENTRY_ALREADY_EXISTS, NO_SUCH_OBJECT, NOT_ALLOWED_ON_NON_LEAF};

impl Tree {
    /// Refuses the name of a new entry with noSuchObject (32) where it has no place in the
    /// directory with this suffix, else with entryAlreadyExists (68) where an entry has it.
    pub(crate) fn check_place(&self, suffix: &Dn, dn: &Dn) -> Result<(), OpFault>
        ensures ok { OnOk result (codes.add_target_code suffix.now self.now dn.now ≡ None) }
        ensures fault { IfErr result
            (HasOpCode (codes.add_target_code suffix.now self.now dn.now)) }
    {
        if self.has_no_place(suffix, dn) {
            return Err(OpFault::Code(NO_SUCH_OBJECT));
        }
        if self.has_name(dn) {
            return Err(OpFault::Code(ENTRY_ALREADY_EXISTS));
        }
        Ok(())
    }

    /// Whether the name is not at or below the suffix, or is below it and its parent has no entry.
    fn has_no_place(&self, suffix: &Dn, dn: &Dn) -> bool
        ensures { result ≡ codes.has_no_place suffix.now self.now dn.now }
    {
        if !dn.is_at_or_below(suffix) {
            return true;
        }
        if dn.same(suffix) {
            return false;
        }
        !self.has_parent(dn)
    }

    /// Whether an entry has the name.
    pub(crate) fn has_name(&self, dn: &Dn) -> bool
        ensures { result ≡ state.has_name self.now dn.now }
    {
        first_at(&self.names, dn.path()).is_some()
    }

    /// Whether an entry has the name of the parent; the empty name has none.
    fn has_parent(&self, dn: &Dn) -> bool
        ensures { result ≡ state.has_parent self.now dn.now }
    {
        if dn.rdns().is_empty() {
            return false;
        }
        first_at(&self.names, dn.parent_path()).is_some()
    }

    /// Whether an entry is below the name.
    fn has_below(&self, dn: &Dn) -> bool
        ensures { result ≡ state.has_below self.now dn.now }
    {
        has_longer(&self.names, dn.path())
    }

    /// Refuses a Delete (RFC 4511, section 4.8) of the name that these entries have with
    /// noSuchObject (32) where there are none, else with notAllowedOnNonLeaf (66) where there are
    /// entries below it.
    pub(crate) fn check_delete(&self, dn: &Dn, named: &[&Entry]) -> Result<(), OpFault>
        requires { map (λ e. e.now) named.now ≡ filter (state.is_named dn.now) self.now }
        ensures ok { OnOk result (codes.delete_code self.now dn.now ≡ None) }
        ensures fault { IfErr result (HasOpCode (codes.delete_code self.now dn.now)) }
    {
        if named.is_empty() {
            return Err(OpFault::Code(NO_SUCH_OBJECT));
        }
        if self.has_below(dn) {
            return Err(OpFault::Code(NOT_ALLOWED_ON_NON_LEAF));
        }
        Ok(())
    }
}
