//! How a comparison is answered (RFC 4511, section 4.10).

ghost use Rattle.std.specs.Prelude.{◌≡◌};
ghost use Rattle.ldap_server.specs.Points.{PerformedOrBegun};
ghost use Rattle.ldap_server.specs.Seen.{point_in};
ghost use Rattle.ldap_server.specs.Table.{AnswersCode, FindsCode, CompareGives};

use crate::naming::name_of;
use crate::response::Response;
use crate::session::Session;
use ldap_ber::{NoMemory, Octets};
use std::alloc::Global;
use sync_provider::Port;

/// What is compared: the name of an entry, the name of a type, and a value.
#[derive(Drop)]
pub(crate) struct Comparison {
    pub(crate) entry: Octets,
    pub(crate) name: Octets,
    pub(crate) value: Octets,
}

/// The code of a comparison.
fn code_of_comparison<P: Port>(alloc: Global, port: &mut P, asked: &Comparison) -> u32
    ensures home { P.home port.new ≡ P.home port.old }
    ensures finds { FindsCode (CompareGives asked.now.entry asked.now.name asked.now.value)
        (P.state port.old) result (P.state port.new) }
{
    match name_of(alloc, &asked.entry) {
        Ok(dn) => port.compare(&dn, asked.name.as_slice(), asked.value.as_slice()),
        Err(code) => code,
    }
}

impl<P: Port> Session<P> {
    /// Answers a comparison.
    pub(crate) fn answer_comparison(&mut self, id: u32, asked: &Comparison) -> Result<(), NoMemory>
        ensures home { P.home self.new.port ≡ P.home self.old.port }
        ensures answer { PerformedOrBegun
            (AnswersCode (CompareGives asked.now.entry asked.now.name asked.now.value)
            id Response.Compare)
            (point_in P.state self.old) result (point_in P.state self.new) }
    {
        let code = code_of_comparison(self.alloc, &mut self.port, asked);
        self.respond(id, Response::Compare, code)
    }
}
