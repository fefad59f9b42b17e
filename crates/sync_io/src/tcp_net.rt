//! A net over TCP.
ghost use Rattle.std.specs.Prelude.{◌≡◌, None};

use crate::faults::count_fault;
use crate::tcp_dial::net_fault;
use crate::{Dial, Net, NetFault, TcpDial, TcpLink};
use std::io::ErrorKind;
use std::net::{TcpListener, TcpStream};
use std::time::Clock;
use std::{io, net};

/// A net over TCP. An address is that of a host and a port, as `localhost:389`. It reports nothing
/// of what it was asked. Where it listens it says on standard error.
pub struct TcpNet<
    'a,
    R: net::Net<Listener = TcpListener, Stream = TcpStream> + Eprint + Sync + Clock,
> {
    rt: &'a R,
    faults: u64,
}

impl<R: net::Net<Listener = TcpListener, Stream = TcpStream> + Eprint + Sync + Clock> Drop
    for TcpNet<'_, R> {
    fn drop(self) {
        let Self { rt: _, faults: _ } = self;
    }
}

impl<'a, R: net::Net<Listener = TcpListener, Stream = TcpStream> + Eprint + Sync + Clock> TcpNet<
    'a,
    R,
> {
    /// A net that was asked nothing yet.
    pub fn new(rt: &'a R) -> TcpNet<'a, R>
        ensures faults { result.faults ≡ 0 }
    {
        TcpNet { rt, faults: 0 }
    }
}

/// Says where a door is, with the port that the system chose where the address left that open. A
/// line that can't be written is passed over.
fn announce<R: Eprint>(rt: &R, door: &TcpListener) {
    if let Ok(address) = door.local_addr() {
        let _ = eprintln!(rt; "syncrepl: listening on {address}");
    }
}

/// Accepts the next connection. One that its peer has given up before is passed over.
fn accept_next(door: &TcpListener) -> io::Result<TcpStream> {
    for _ in 0..u64::MAX {
        match door.accept() {
            Ok((stream, _)) => return Ok(stream),
            Err(error) if is_passed_over(&error) => {}
            Err(error) => return Err(error),
        }
    }
    Err(io::Error::from(ErrorKind::Interrupted))
}

fn is_passed_over(error: &io::Error) -> bool {
    matches!(
        error.kind(),
        ErrorKind::ConnectionAborted | ErrorKind::Interrupted
    )
}

impl<'a, R: net::Net<Listener = TcpListener, Stream = TcpStream> + Eprint + Sync + Clock> Net
    for TcpNet<'a, R> {
    type Door = TcpListener;

    type Link = TcpLink;

    type Caller = TcpDial<'a, R>;

    ghost served = { λ _. None };

    ghost net_fault_count = { λ n. n.faults };

    fn faults(&self) -> u64 {
        self.faults
    }

    fn listen(&mut self, address: &str) -> Result<TcpListener, NetFault> {
        match TcpListener::bind(self.rt, address) {
            Ok(door) => {
                announce(self.rt, &door);
                Ok(door)
            }
            Err(error) => Err(net_fault(error, &mut self.faults)),
        }
    }

    fn accept(&mut self, door: &mut TcpListener) -> Result<TcpLink, NetFault> {
        match accept_next(door) {
            Ok(stream) => Ok(TcpLink::new(stream)),
            Err(error) => Err(net_fault(error, &mut self.faults)),
        }
    }

    fn release(&mut self, _link: TcpLink) {}

    fn caller(&mut self) -> Result<TcpDial<'a, R>, NetFault> {
        Ok(TcpDial::new(self.rt))
    }

    fn retire(&mut self, caller: TcpDial<'a, R>) {
        if caller.faults() > 0 {
            count_fault(&mut self.faults);
        }
    }

    fn let_go(&mut self, _caller: TcpDial<'a, R>) {}

    ghost links_within = { λ _. tt };

    ghost callers_within = { λ _. tt };
}
