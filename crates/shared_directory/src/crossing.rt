//! What may cross threads: a directory may be shared, and a pass or a desk sent.

use crate::desk::Desk;
use crate::directory::{DirectoryPass, SharedDirectory};
use std::sync::Wait;

fn shares<T: Sync>(_shared: &T) {}

fn sends<T: Send>(_sent: &T) {}

/// A directory may be shared by threads.
pub fn directories_are_shared(directory: &SharedDirectory) {
    shares(directory)
}

/// A pass may go to another thread.
pub fn passes_are_sent(pass: &DirectoryPass) {
    sends(pass)
}

/// So may a desk, where threads may share its runtime.
pub fn desks_are_sent<R: Wait + Sync>(desk: &Desk<R>) {
    sends(desk)
}
