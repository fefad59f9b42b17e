//! How a write is answered (RFC 4511, sections 4.6 to 4.9).

ghost use Rattle.std.specs.Prelude.{◌≡◌};
ghost use Rattle.ldap_server.specs.Encoding.{write_response};
ghost use Rattle.ldap_server.specs.Points.{PerformedOrBegun};
ghost use Rattle.ldap_server.specs.Seen.{point_in};
ghost use Rattle.ldap_server.specs.Table.{AnswersCode, ChangeGives, FindsCode};
ghost use Rattle.ldap_session.specs.Binding.{may_write};

use crate::response::Response;
use crate::session::Session;
use entry_tree::{OpFault, read_op};
use ldap_ber::NoMemory;
use ldap_constants::{INSUFFICIENT_ACCESS_RIGHTS, OTHER};
use ldap_session::{Access, may_write};
use schema_rules::Change;
use std::alloc::Global;
use sync_provider::Port;

/// The kind of response that answers a write.
pub(crate) fn write_response(change: &Change) -> Response
    ensures { result ≡ write_response change.now }
{
    match change {
        Change::Add(_, _) => Response::Add,
        Change::Delete(_) => Response::Delete,
        Change::Modify(_, _) => Response::Modify,
        Change::Rename(_, _, _, _) => Response::Rename,
    }
}

/// The code of a write, which the port is asked for where the session may write.
fn code_of_write<P: Port>(
    alloc: Global,
    port: &mut P,
    allowed: bool,
    change: &Change,
    now: u64,
) -> u32
    ensures home { P.home port.new ≡ P.home port.old }
    ensures finds { FindsCode (ChangeGives allowed change.now now)
        (P.state port.old) result (P.state port.new) }
{
    if !allowed {
        return INSUFFICIENT_ACCESS_RIGHTS;
    }
    match read_op(alloc, change) {
        Ok(op) => port.write(op, now).code,
        Err(OpFault::Code(code)) => code,
        Err(OpFault::NoMemory) => OTHER,
    }
}

impl<P: Port> Session<P> {
    /// Answers a write, which came at this time.
    pub(crate) fn answer_write(
        &mut self,
        access: &Access,
        id: u32,
        change: &Change,
        now: u64,
    ) -> Result<(), NoMemory>
        ensures home { P.home self.new.port ≡ P.home self.old.port }
        ensures answer { PerformedOrBegun
            (AnswersCode (ChangeGives (may_write access.now self.old.bound) change.now now)
            id (write_response change.now))
            (point_in P.state self.old) result (point_in P.state self.new) }
    {
        let allowed = may_write(access, self.bound);
        let code = code_of_write(self.alloc, &mut self.port, allowed, change, now);
        self.respond(id, write_response(change), code)
    }
}
