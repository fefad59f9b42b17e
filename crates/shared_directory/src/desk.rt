//! The port of a pass at a shared directory.

ghost use Rattle.std.specs.Prelude.{◌≡◌, true, length, is_some};
ghost use Rattle.sync_provider.specs.Ports.{HasMet, IsReplied};
ghost use Rattle.turn_cell.specs.Passes.{view_of};
ghost use Rattle.shared_directory.specs.Passes.{
  directory_id,
  port_of,
  view_or,
  cell_or,
  IsPassOf,
  IsUpToDate,
};

use crate::calls::Call;
use crate::directory::{DirectoryPass, SharedDirectory};
use crate::turning::{take_turn, take_turn_beside};
use std::sync::Wait;
use turn_cell::seen;

/// The port of a pass. Each call is one turn, and waits for it.
pub struct Desk<'a, R: Wait> {
    pub(crate) directory: &'a SharedDirectory,
    pub(crate) rt: &'a R,
    /// It is there between two calls.
    pub(crate) pass: Option<DirectoryPass>,
    ghost has: { is_some pass ≡ true },
    ghost seated: { cell_or (directory_id directory.now) pass ≡ directory_id directory.now },
    ghost up_to_date: { IsUpToDate (view_or pass) },
}

impl<R: Wait> Drop for Desk<'_, R> {
    fn drop(self) {
        let Self {
            directory: _,
            rt: _,
            pass,
        } = self;
        drop(pass);
    }
}

impl<'a, R: Wait> Desk<'a, R> {
    /// One turn, which makes this call.
    pub(crate) fn call<C: Call>(&mut self, call: C) -> C::Answer
        ensures home { self.new.directory.now ≡ self.old.directory.now }
        ensures replies { IsReplied (port_of (view_or self.old.pass))
            (λ p. C.replies call result p (port_of (view_or self.new.pass))) }
    {
        let Some(pass) = self.pass.take() else {
            unreachable!()
        };
        let (pass, answer) = take_turn(self.rt, &self.directory.cell, pass, call);
        self.pass = Some(pass);
        answer
    }

    /// One turn, which shows what another desk of the directory has seen.
    pub(crate) fn turn_beside(&mut self, other: &mut Desk<'a, R>)
        requires { self.old.directory.now ≡ other.old.directory.now }
        ensures home { self.new.directory.now ≡ self.old.directory.now }
        ensures met { HasMet (port_of (view_or self.old.pass)) (port_of (view_or other.old.pass))
            (port_of (view_or self.new.pass)) }
        ensures other_home { other.new.directory.now ≡ other.old.directory.now }
        ensures other { port_of (view_or other.new.pass) ≡ port_of (view_or other.old.pass) }
    {
        let Some(pass) = self.pass.take() else {
            unreachable!()
        };
        let Some(mut beside) = other.pass.take() else {
            unreachable!()
        };
        let pass = take_turn_beside(self.rt, &self.directory.cell, pass, &mut beside);
        self.pass = Some(pass);
        other.pass = Some(beside);
    }

    /// Gives the pass back. Its searches stay open.
    pub fn leave(self) -> DirectoryPass
        ensures pass { IsPassOf (directory_id self.entry.directory.now) result }
        ensures port { port_of (view_of result) ≡ port_of (view_or self.entry.pass) }
    {
        let Desk {
            directory: _,
            rt: _,
            pass,
        } = self;
        match pass {
            Some(pass) => pass,
            None => unreachable!(),
        }
    }
}

/// How many entries the journal has that the desk has seen.
pub fn journal_seen<R: Wait>(desk: &Desk<'_, R>) -> u64
    ensures { result ≡ length (port_of (view_or desk.now.pass)).journal }
{
    match &desk.pass {
        Some(pass) => seen(pass),
        None => unreachable!(),
    }
}
