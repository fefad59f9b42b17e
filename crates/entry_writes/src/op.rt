//! Writes, with names, types and values that were read.
use crate::edit::Edits;
use crate::entry::EntryList;
use csn_cookie::Csn;
use dn_names::{Dn, Rdn};
use schema_rules::Attrs;
use sync_messages::IdList;

/// What a write does.
pub enum Op {
    /// Adds an entry (RFC 4511, section 4.7).
    Add(Dn, Attrs),
    /// Deletes the entry of that name (RFC 4511, section 4.8).
    Delete(Dn),
    /// Edits the attributes of the entry of that name (RFC 4511, section 4.6).
    Modify(Dn, Edits),
    /// Gives the entry of that name another RDN, and another superior where one is reported; all
    /// below it move with it. The values of the old RDN go where this is asked for (RFC 4511,
    /// section 4.9).
    Rename(Dn, Rdn, bool, Option<Dn>),
    /// Puts entries, each in the place of one of its identity, and drops the identities that it
    /// does not put: what a replica takes from its provider at one time (RFC 4533, section 3.3). No
    /// client asks for it.
    Commit(EntryList, IdList),
}

/// A call of its own, so that what drops an operation is one step, whatever it asks for.
impl Drop for Op {
    fn drop(self) {
        match self {
            Op::Add(_name, _attrs) => {}
            Op::Delete(_name) => {}
            Op::Modify(_name, _edits) => {}
            Op::Rename(_name, _rdn, _, _superior) => {}
            Op::Commit(_puts, _drops) => {}
        }
    }
}

/// A write that was accepted, with its CSN.
#[derive(Drop)]
pub struct Write {
    pub csn: Csn,
    pub op: Op,
}
