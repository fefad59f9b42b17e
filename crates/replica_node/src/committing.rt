//! The messages of a round, and their commits.

ghost use Rattle.std.specs.Prelude.{◌≡◌};
ghost use Rattle.replica_node.specs.Following.{CommitsOrEnds, IsCounted, TakesOrEnds, outcome_of_fault, replica_at};
ghost use Rattle.sync_consumer.specs.Taking.{AreFit};

use crate::end::RoundOutcome;
use crate::reporting::{report_end, report_fault};
use ldap_messages::Message;
use sync_consumer::{Commit, Consumer, Taken};
use sync_io::{Clock, Dial};
use sync_provider::{CommitFault, Port};

/// Takes a message, and commits the stage that took effect with it. None where the round goes on.
pub(crate) fn take<P: Port, C: Clock, D: Dial>(
    dial: &D,
    port: &mut P,
    consumer: &mut Consumer,
    clock: &mut C,
    message: &Message,
    stored: &mut u64,
) -> Option<RoundOutcome>
    requires counted { IsCounted (P.state port.old) stored.old }
    ensures home { P.home port.new ≡ P.home port.old }
    ensures takes { TakesOrEnds (replica_at consumer.old.copy (P.state port.old) stored.old)
        message.now result (replica_at consumer.new.copy (P.state port.new) stored.new) }
    ensures counted { IsCounted (P.state port.new) stored.new }
    ensures spec { consumer.new.spec ≡ consumer.old.spec }
    ensures reload { consumer.new.reload ≡ consumer.old.reload }
{
    match consumer.take(message) {
        Taken::Staged => None,
        Taken::Stored(commit) => commit_stage(port, clock, commit, stored),
        Taken::Copied(commit) => commit_stage(port, clock, commit, stored),
        Taken::Over(code) => {
            report_end(dial, code);
            Some(RoundOutcome::Over)
        }
        Taken::Fault(fault) => {
            report_fault(dial, fault);
            Some(RoundOutcome::Over)
        }
        Taken::NoMemory => Some(RoundOutcome::NoMemory),
    }
}

/// Commits a stage that took effect. None where the round goes on.
fn commit_stage<P: Port, C: Clock>(
    port: &mut P,
    clock: &mut C,
    commit: Commit,
    stored: &mut u64,
) -> Option<RoundOutcome>
    requires fit { AreFit commit.puts }
    requires counted { IsCounted (P.state port.old) stored.old }
    ensures home { P.home port.new ≡ P.home port.old }
    ensures commits { CommitsOrEnds (P.state port.old) stored.old commit result
        (P.state port.new) stored.new }
    ensures counted { IsCounted (P.state port.new) stored.new }
{
    let Commit {
        puts,
        drops,
        cookie: _cookie,
    } = commit;
    match port.commit(puts, drops, clock.now()) {
        Ok(_) => {
            let counted = stored.saturating_add(1);
            *stored = counted;
            None
        }
        Err(fault) => Some(outcome_of_fault(fault)),
    }
}

/// What comes after a commit that is refused.
fn outcome_of_fault(fault: CommitFault) -> RoundOutcome
    ensures { result ≡ outcome_of_fault fault }
{
    match fault {
        CommitFault::LimitReached(limit) => RoundOutcome::LimitReached(limit),
        CommitFault::NoMemory => RoundOutcome::NoMemory,
        CommitFault::DuplicateName(_, _) => RoundOutcome::Over,
        CommitFault::NotAReplica => RoundOutcome::Over,
    }
}
