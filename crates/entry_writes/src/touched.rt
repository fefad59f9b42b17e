//! What a write changes.
ghost use Rattle.std.specs.Prelude.{◌≡◌, [], ◌∷◌, ◌++◌, IfOk, OnOk, OnErr};
ghost use Rattle.std.specs.Option.{option_copied};

use crate::bytes::{is_one_entry, is_one_found};
use crate::entry::Entry;
use ldap_ber::NoMemory;
use std::alloc::Global;
use std::marker::Model;

/// An identity whose entry a write changes: what it had, and what it has.
pub struct EntryChange {
    pub uuid: u128,
    pub before: Option<Entry>,
    pub after: Option<Entry>,
}

/// A call of its own, so that what drops a change is one step.
impl Drop for EntryChange {
    fn drop(self) {
        let EntryChange {
            uuid: _,
            before: _before,
            after: _after,
        } = self;
    }
}

/// What a write changes, in ascending order of identity.
#[derive(Drop)]
pub struct Touched {
    items: Vec<EntryChange>,
}

impl Model for Touched {
    ghost use Rattle.std.specs.Prelude.{List};
    ghost use Rattle.entry_writes.specs.declared.touched.EntryChange.{EntryChange};

    ghost Value = { List EntryChange };

    ghost view = { λ t. t.items.items };
}

impl Touched {
    ghost use Rattle.std.specs.Prelude.{filter, Some};
    ghost use Rattle.entry_writes.specs.Touched.{is_change};

    /// Makes a list without changes.
    pub fn new(alloc: Global) -> Touched
        ensures { result ≡ [] }
    {
        Touched {
            items: Vec::new(alloc),
        }
    }

    /// Puts the change at the end. It is `NoMemory` where memory runs out, and the list is as
    /// before.
    pub fn push(&mut self, item: EntryChange) -> Result<(), NoMemory>
        ensures ok { OnOk result (self.new ≡ self.old ++ item ∷ []) }
        ensures err { OnErr result (self.new ≡ self.old) }
    {
        self.items.push(item)?;
        Ok(())
    }

    /// Puts what an identity had and its entry at the end, where these differ. It is `NoMemory`
    /// where memory runs out, and the list is as before.
    pub fn push_change(&mut self, was: Option<&Entry>, now: &Entry) -> Result<(), NoMemory>
        ensures ok { OnOk result (self.new ≡ self.old ++ filter is_change
            (record { uuid = now.now.uuid; before = option_copied was.entry; after = Some now.now }
            ∷ [])) }
        ensures err { OnErr result (self.new ≡ self.old) }
    {
        let uuid = now.uuid;
        match was {
            None => self.push(EntryChange {
                uuid,
                before: None,
                after: Some(now.copy()?),
            }),
            Some(was) => {
                if is_one_entry(was, now) {
                    return Ok(());
                }
                self.push(EntryChange {
                    uuid,
                    before: Some(was.copy()?),
                    after: Some(now.copy()?),
                })
            }
        }
    }

    /// Puts what an identity had and has at the end, where these differ. It is `NoMemory` where
    /// memory runs out, and the list is as before.
    pub fn push_difference(
        &mut self,
        uuid: u128,
        was: Option<&Entry>,
        now: Option<&Entry>,
    ) -> Result<(), NoMemory>
        ensures ok { OnOk result (self.new ≡ self.old ++ filter is_change
            (record {
              uuid = uuid;
              before = option_copied was.entry;
              after = option_copied now.entry;
            }
            ∷ [])) }
        ensures err { OnErr result (self.new ≡ self.old) }
    {
        if is_one_found(was, now) {
            return Ok(());
        }
        self.push(EntryChange {
            uuid,
            before: copy_of(was)?,
            after: copy_of(now)?,
        })
    }

    /// Lends the changes, in their order.
    pub fn list(&self) -> &[EntryChange]
        ensures { result.now ≡ self.now }
    {
        self.items.as_slice()
    }
}

fn copy_of(entry: Option<&Entry>) -> Result<Option<Entry>, NoMemory>
    ensures { IfOk result (λ copy. copy ≡ option_copied entry.entry) }
{
    match entry {
        None => Ok(None),
        Some(entry) => Ok(Some(entry.copy()?)),
    }
}
