//! What the threads of all connections share.

use crate::bell::Bell;
use ldap_server::{Access, Gate};
use shared_directory::SharedDirectory;
use std::alloc::Global;
use std::sync::Wait;

/// What the threads of all connections share.
pub(crate) struct Server<'a, R: Wait, G: Gate> {
    pub(crate) rt: &'a R,
    pub(crate) alloc: Global,
    pub(crate) directory: &'a SharedDirectory,
    /// Who may write.
    pub(crate) access: &'a Access,
    pub(crate) gate: &'a G,
    pub(crate) bell: &'a Bell,
}

impl<R: Wait, G: Gate> Drop for Server<'_, R, G> {
    fn drop(self) {
        let Self {
            rt: _,
            alloc: _,
            directory: _,
            access: _,
            gate: _,
            bell: _,
        } = self;
    }
}
