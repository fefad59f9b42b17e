//! How one connection is served.

ghost use Rattle.std.specs.Prelude.{◌≡◌, IfErr, IfOk};
ghost use Rattle.turn_cell.specs.Passes.{view_of};
ghost use Rattle.shared_directory.specs.Passes.{IsPassOf, directory_id, port_of, view_or};
ghost use Rattle.ldap_server.specs.Seen.{connected_by, home_in};
ghost use Rattle.ldap_server.specs.Session.{fresh};
ghost use Rattle.ldap_listener.specs.Sessions.{HasServed, seen_by};

use crate::ended_connection::EndedConnection;
use crate::server::Server;
use ldap_ber::NoMemory;
use ldap_server::{Access, Connection, Ended, Gate, serve_connection};
use shared_directory::{Desk, DirectoryPass};
use std::sync::Wait;
use sync_io::{Clock, Link};

fn copy_of(access: &Access) -> Result<Access, NoMemory>
    ensures { IfOk result (λ copy. copy ≡ access.now) }
{
    match access {
        Access::Free => Ok(Access::Free),
        Access::Named(name, password) => {
            let name = name.copy()?;
            let password = password.copy()?;
            Ok(Access::Named(name, password))
        }
    }
}

/// A session that has just begun, or the desk where memory runs out.
fn begin<'a, R: Wait, G: Gate>(
    server: &Server<'a, R, G>,
    desk: Desk<'a, R>,
) -> Result<Connection<Desk<'a, R>>, Desk<'a, R>>
    ensures ok { IfOk result (λ connection. connected_by (λ d. port_of (view_or d.pass)) connection
        ≡ fresh (port_of (view_or desk.entry.pass)) server.entry.now.access.now) }
    ensures home { IfOk result (λ connection.
        home_in (λ d. d.directory.now) connection ≡ desk.entry.directory.now) }
    ensures err { IfErr result (λ refused. refused ≡ desk.entry) }
{
    let Ok(access) = copy_of(server.access) else {
        return Err(desk);
    };
    match Connection::new(server.alloc, desk, access) {
        Ok(connection) => Ok(connection),
        Err((_, desk)) => Err(desk),
    }
}

/// Serves a connection to its end over the port of a pass, which it gives back.
fn serve_link<R: Wait, L: Link, K: Clock, G: Gate>(
    server: &Server<'_, R, G>,
    clock: K,
    number: u64,
    pass: DirectoryPass,
    link: &mut L,
) -> (DirectoryPass, Ended)
    requires pass { IsPassOf (directory_id server.now.directory.now) pass }
    ensures pass { IsPassOf (directory_id server.entry.now.directory.now) result.0 }
    ensures served { HasServed
        (seen_by L.bytes_left L.bytes_read L.bytes_held L.read_fault_count L.write_fault_count)
        server.entry.now.access.now (port_of (view_of pass)) link.old
        (port_of (view_of result.0)) link.new }
{
    let desk = server.directory.desk(server.rt, pass);
    match begin(server, desk) {
        Ok(connection) => {
            let mut connection = connection;
            let ended = serve_connection(
                server.rt,
                number,
                &mut connection,
                link,
                clock,
                server.gate,
            );
            (connection.into_port().leave(), ended)
        }
        Err(desk) => (desk.leave(), Ended::NoMemory),
    }
}

/// Serves a connection to its end, and rings.
pub(crate) fn serve_one<R: Wait, L: Link, K: Clock, G: Gate>(
    server: &Server<'_, R, G>,
    clock: K,
    place: usize,
    number: u64,
    pass: DirectoryPass,
    link: L,
) -> EndedConnection<L>
    requires pass { IsPassOf (directory_id server.now.directory.now) pass }
    ensures pass { IsPassOf (directory_id server.entry.now.directory.now) result.pass }
    ensures served { HasServed
        (seen_by L.bytes_left L.bytes_read L.bytes_held L.read_fault_count L.write_fault_count)
        server.entry.now.access.now (port_of (view_of pass)) link
        (port_of (view_of result.pass)) result.link }
{
    let mut link = link;
    let (pass, ended) = serve_link(server, clock, number, pass, &mut link);
    server.bell.ring(place);
    EndedConnection { pass, link, ended }
}
