//! A session over a link.

ghost use Rattle.std.specs.Prelude.{◌≡◌, ◌<◌, ◌≤◌, ℕ, None, Some, IsNone, length};
ghost use Rattle.ldap_server.specs.Seen.{connected_by, home_in};
ghost use Rattle.ldap_server.specs.Serving.{LinkBytes, Serves, Takes};
ghost use Rattle.ldap_server.specs.Session.{HandlesEvent};
ghost use Rattle.ldap_session.specs.declared.ended.Ended.TheVariants.{ReadFault, WriteFault};
ghost use Rattle.ldap_session.specs.declared.event.LinkEvent.TheVariants as event;
ghost use Rattle.sync_io.specs.Faults.{CountHasRisen};

use crate::connection::{Connection, Out};
use crate::gate::Gate;
use ldap_session::Ended;
use std::sync::Wait;
use sync_io::{Clock, Link, Piece, Source, write_whole};
use sync_provider::Port;

/// How many bytes one read takes at most.
const PIECE: usize = 65_536;

/// A connection's number, and how many pieces of it were read.
#[derive(Clone, Copy, Debug)]
struct PieceCount {
    connection: u64,
    pieces: u64,
}

/// Gives a piece that was read to the session, once the gate lets it pass.
fn pass_on<P: Port, C: Clock, G: Gate>(
    connection: &mut Connection<P>,
    piece: &[u8],
    clock: &mut C,
    gate: &G,
    count: &mut PieceCount,
) -> Out
    ensures home { home_in P.home connection.new ≡ home_in P.home connection.old }
    ensures handles { (now : ℕ) × HandlesEvent (connected_by P.state connection.old)
        (event.Piece piece.now now) result.bytes result.ended
        (connected_by P.state connection.new) }
{
    count.pieces = count.pieces.saturating_add(1);
    gate.pass(count.connection, count.pieces);
    let now = clock.now();
    connection.on_bytes(piece, now)
}

/// Takes what one read gives. None where it failed.
fn take_next<P: Port, S: Source, C: Clock, G: Gate>(
    connection: &mut Connection<P>,
    source: &mut S,
    buffer: &mut [u8],
    clock: &mut C,
    gate: &G,
    count: &mut PieceCount,
) -> Option<Out>
    requires room { 0 < length buffer.old }
    ensures home { home_in P.home connection.new ≡ home_in P.home connection.old }
    ensures takes { Takes (connected_by P.state connection.old)
        (S.bytes_left source.old) (S.bytes_read source.old)
        (S.bytes_left source.new) (S.bytes_read source.new)
        result (connected_by P.state connection.new) }
    ensures apart { S.sink_side source.new ≡ S.sink_side source.old }
    ensures failed { IsNone result
        → CountHasRisen (S.read_fault_count source.old) (S.read_fault_count source.new) }
    ensures later { S.read_fault_count source.old ≤ S.read_fault_count source.new }
{
    match source.read(buffer) {
        Piece::Got(size) => {
            let (piece, _) = buffer.split_at(size);
            Some(pass_on(connection, piece, clock, gate, count))
        }
        Piece::Quiet => Some(connection.on_quiet()),
        Piece::End => Some(connection.on_end()),
        Piece::Failed => None,
    }
}

/// Serves a session until it ends: reads, and writes at once all that is sent for a piece. On a
/// link that waits it may wait.
pub fn serve_connection<R: Wait, P: Port, L: Link, C: Clock, G: Gate>(
    rt: &R,
    number: u64,
    connection: &mut Connection<P>,
    link: &mut L,
    clock: C,
    gate: &G,
) -> Ended
    ensures home { home_in P.home connection.new ≡ home_in P.home connection.old }
    ensures serves { Serves (connected_by P.state connection.old)
        (record {
          left = L.bytes_left link.old;
          read = L.bytes_read link.old;
          held = L.bytes_held link.old;
        })
        result (connected_by P.state connection.new)
        (record {
          left = L.bytes_left link.new;
          read = L.bytes_read link.new;
          held = L.bytes_held link.new;
        }) }
    ensures read_failed { (connected_by P.state connection.old).ended ≡ None → result ≡ ReadFault
        → CountHasRisen (L.read_fault_count link.old) (L.read_fault_count link.new) }
    ensures write_failed { (connected_by P.state connection.old).ended ≡ None → result ≡ WriteFault
        → CountHasRisen (L.write_fault_count link.old) (L.write_fault_count link.new) }
{
    let mut buffer = [0u8; PIECE];
    let mut clock = clock;
    let mut count = PieceCount {
        connection: number,
        pieces: 0,
    };
    for _ in rt.forever() {
        let next = take_next(connection, link, &mut buffer, &mut clock, gate, &mut count);
        let Some(out) = next else {
            return Ended::ReadFault;
        };
        if !write_whole(link, out.bytes.as_slice()) {
            return Ended::WriteFault;
        }
        if let Some(ended) = out.ended {
            return ended;
        }
    }
    unreachable!()
}
