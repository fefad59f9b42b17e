//! What threads hand in once they are done.
ghost use Rattle.std.specs.Prelude.{◌≡◌};
ghost use Rattle.turn_cell.specs.Journals.{Every};
ghost use Rattle.turn_cell.specs.Passes.{cell_id};
ghost use Rattle.shared_directory.specs.Passes.{IsPassOf};
ghost use Rattle.desk_tests.specs.Groups.{AreGivenBack};

use crate::asking::take_next;
use crate::passing::put_back;
use crate::tasks::{FollowedSearch, Noted, Tried};
use crate::working::{Four, Worked};
use ldap_ber::discard;
use shared_directory::{DirectoryPass, SharedDirectory};
use std::alloc::Global;
use std::process::Abort;
use std::sync::Wait;
use sync_consumer::Consumer;
use sync_provider::Port;

/// What threads noted.
#[derive(Drop)]
pub(crate) struct Gathered {
    pub(crate) tried: Vec<Tried>,
    /// Of each thread that followed the directory.
    pub(crate) consumers: Vec<Consumer>,
}

impl Gathered {
    pub(crate) fn new(alloc: Global) -> Gathered {
        Gathered {
            tried: Vec::new(alloc),
            consumers: Vec::new(alloc),
        }
    }

    fn add(&mut self, rt: &impl Abort, noted: Option<Noted>) {
        let Some(noted) = noted else {
            panic!(rt; "a thread gave up")
        };
        let (tried, search) = noted.into_parts();
        self.tried
            .extend_from_slice(tried.as_slice())
            .expect(rt, "memory");
        if let Some(search) = search {
            self.keep(rt, search);
        }
    }

    fn keep(&mut self, rt: &impl Abort, search: FollowedSearch) {
        let consumer = search.into_consumer();
        self.consumers.push(consumer).expect(rt, "memory");
    }
}

// Nothing is left early while what a thread hands in stands, whose drop would be written out there:
// what is missing ends the test.

/// Puts the pass of a thread back, and gathers what it noted. Its consumer takes what is pending
/// first. No other thread writes any more.
pub(crate) fn hand_in<R: Wait + Abort>(
    rt: &R,
    directory: &SharedDirectory,
    passes: &mut Vec<DirectoryPass>,
    worked: Worked,
    gathered: &mut Gathered,
)
    requires passes { Every (λ pass. IsPassOf (cell_id directory.now.cell) pass) passes.old.items }
    requires worked { IsPassOf (cell_id directory.now.cell) worked.0 }
    ensures { Every (λ pass. IsPassOf (cell_id directory.now.cell) pass) passes.new.items }
{
    let (pass, noted) = worked;
    let (pass, noted) = caught_up(rt, directory, pass, noted);
    gathered.add(rt, noted);
    let Some(()) = put_back(directory, passes, pass) else {
        panic!(rt; "out of memory")
    };
}

/// The same of four threads.
pub(crate) fn hand_in_four<R: Wait + Abort>(
    rt: &R,
    directory: &SharedDirectory,
    passes: &mut Vec<DirectoryPass>,
    four: Four,
    gathered: &mut Gathered,
)
    requires passes { Every (λ pass. IsPassOf (cell_id directory.now.cell) pass) passes.old.items }
    requires four { AreGivenBack (cell_id directory.now.cell) four }
    ensures { Every (λ pass. IsPassOf (cell_id directory.now.cell) pass) passes.new.items }
{
    let ((first, second), (third, fourth)) = four;
    hand_in(rt, directory, passes, first, gathered);
    hand_in(rt, directory, passes, second, gathered);
    hand_in(rt, directory, passes, third, gathered);
    hand_in(rt, directory, passes, fourth, gathered);
}

/// The pass, with what was noted once all that is pending is taken.
fn caught_up<R: Wait>(
    rt: &R,
    directory: &SharedDirectory,
    pass: DirectoryPass,
    noted: Option<Noted>,
) -> Worked
    requires { IsPassOf (cell_id directory.now.cell) pass }
    ensures { IsPassOf (cell_id directory.now.cell) result.0 }
{
    let mut desk = directory.desk(rt, pass);
    let noted = with_pending(&mut desk, noted);
    (desk.leave(), noted)
}

fn with_pending<P: Port>(port: &mut P, noted: Option<Noted>) -> Option<Noted>
    ensures { P.home port.new ≡ P.home port.old }
{
    let mut noted = noted?;
    match take_pending(port, &mut noted.search) {
        Some('-') => Some(noted),
        _ => {
            discard(noted);
            None
        }
    }
}

/// Takes all messages that are pending. `-` where there were less than 10,000.
fn take_pending<P: Port>(port: &mut P, search: &mut Option<FollowedSearch>) -> Option<char>
    ensures { P.home port.new ≡ P.home port.old }
{
    let Some(search) = search else {
        return Some('-');
    };
    let mut letter = Some('m');
    for _ in 0..10_000u32 {
        if letter != Some('m') {
            break;
        }
        letter = take_next(port, search);
    }
    letter
}
