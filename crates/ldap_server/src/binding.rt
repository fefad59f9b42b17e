//! How a bind is answered (RFC 4511, section 4.2).

ghost use Rattle.std.specs.Prelude.{◌≡◌};
ghost use Rattle.ldap_server.specs.Points.{PerformedOrBegun};
ghost use Rattle.ldap_server.specs.Seen.{point_in};
ghost use Rattle.ldap_server.specs.Table.{BindAnswer};

use crate::response::Response;
use crate::session::Session;
use ldap_ber::{NoMemory, Octets};
use ldap_messages::Authentication;
use ldap_session::{Access, bind_code, binds_as};
use std::alloc::AllocError;
use sync_provider::Port;

/// What a bind is asked with.
#[derive(Drop)]
pub(crate) struct Bind {
    pub(crate) version: u8,
    pub(crate) name: Octets,
    pub(crate) authentication: Authentication,
}

impl<P: Port> Session<P> {
    /// Answers a bind. It drops the open searches, whatever its code.
    pub(crate) fn answer_bind(
        &mut self,
        access: &Access,
        id: u32,
        bind: &Bind,
    ) -> Result<(), NoMemory>
        ensures home { P.home self.new.port ≡ P.home self.old.port }
        ensures answer { PerformedOrBegun (BindAnswer access.now id
            bind.now.version bind.now.name bind.now.authentication)
            (point_in P.state self.old) result (point_in P.state self.new) }
    {
        let Ok(code) = bind_code(
            self.alloc,
            access,
            bind.version,
            &bind.name,
            &bind.authentication,
        ) else {
            return Err(AllocError);
        };
        self.drop_searches();
        self.bound = binds_as(code, &bind.authentication);
        self.respond(id, Response::Bind, code)
    }
}
