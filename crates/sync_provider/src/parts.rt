//! The messages of a refresh that are decided and not handed out.

ghost use Rattle.std.specs.Prelude.{◌≡◌, [], drop, option_map, slice_get, false, IfOk};
ghost use Rattle.sync_model.specs.Law.{is_nil};
ghost use Rattle.sync_provider.specs.Search.{message_of, messages_of};

use crate::NoMemory;
use crate::refresh_item::RefreshItem;
use std::alloc::{AllocError, Global};
use std::marker::Model;
use std::sync::Arc;

/// Messages that are handed out one after the other. Copies share them.
#[derive(Drop)]
pub(crate) struct Parts {
    /// None once all were handed out.
    items: Option<Arc<Vec<RefreshItem>>>,
    /// How many were handed out.
    handed: usize,
}

impl Model for Parts {
    ghost use Rattle.std.specs.Prelude.{List, [], drop, option_map, unwrap_or};
    ghost use Rattle.sync_model.specs.Message.{SyncMessage};
    ghost use Rattle.sync_provider.specs.Search.{messages_of};

    ghost Value = { List SyncMessage };

    ghost view = { λ p. unwrap_or
        (option_map (λ items. messages_of (drop p.handed items.value.items)) p.items) [] };
}

impl Parts {
    /// No messages, which takes no memory.
    pub(crate) fn none() -> Parts
        ensures { result ≡ [] }
    {
        Parts {
            items: None,
            handed: 0,
        }
    }

    pub(crate) fn new(alloc: Global, items: Vec<RefreshItem>) -> Result<Parts, NoMemory>
        ensures { IfOk result (λ parts. parts ≡ messages_of items.items) }
    {
        let items = shared(alloc, items)?;
        Ok(Parts {
            items: Some(items),
            handed: 0,
        })
    }

    /// The same once more. It is `NoMemory` where no more copies can be counted.
    pub(crate) fn copy(&self) -> Result<Parts, NoMemory>
        ensures { IfOk result (λ copy. copy ≡ self.now) }
    {
        let items = match &self.items {
            None => None,
            Some(items) => Some(items.clone()?),
        };
        Ok(Parts {
            items,
            handed: self.handed,
        })
    }

    /// The first that was not handed out.
    #[tactic(auto, using(crate::proofs::LeftOver::first_lent))]
    pub(crate) fn first(&self) -> Option<&RefreshItem>
        ensures { option_map (λ item. message_of item.now) result ≡ slice_get self.now 0 }
    {
        match &self.items {
            None => None,
            Some(items) => items.get(self.handed),
        }
    }

    /// The first counts as handed out.
    pub(crate) fn advance(&mut self)
        requires { is_nil self.old ≡ false }
        ensures { self.new ≡ drop 1 self.old }
    {
        self.handed += 1;
        if !self.is_empty() {
            return;
        }
        self.items = None;
    }

    /// Whether all were handed out.
    #[tactic(auto, using(crate::proofs::LeftOver::none_lent))]
    pub(crate) fn is_empty(&self) -> bool
        ensures { result ≡ is_nil self.now }
    {
        self.first().is_none()
    }
}

/// A value that copies can share.
pub(crate) fn shared<T: Drop>(alloc: Global, value: T) -> Result<Arc<T>, NoMemory>
    ensures { IfOk result (λ shared. shared.value ≡ value) }
{
    match Arc::new(alloc, value) {
        Ok(shared) => Ok(shared),
        Err(_) => Err(AllocError),
    }
}
