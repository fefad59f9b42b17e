//! Links over TCP, asked for by address.
ghost use Rattle.std.specs.Prelude.{◌≡◌, ◌≢◌, ◌≤◌, None};
ghost use Rattle.sync_io.specs.declared.dial.NetFault.TheVariants.{Failed};
ghost use Rattle.sync_io.specs.Faults.{CountHasRisen};

use crate::faults::count_fault;
use crate::retries::Retries;
use crate::{Dial, FaultDetail, NetFault, Sink, Source, TcpLink};
use std::io::ErrorKind;
use std::net::{TcpListener, TcpStream};
use std::time::Clock;
use std::{io, net};

/// What an error of the system is reported as. It counts a fault, but not where out of memory.
pub(crate) fn net_fault(error: io::Error, faults: &mut u64) -> NetFault
    ensures failed { result ≡ Failed → CountHasRisen faults.old faults.new }
    ensures sound { result ≢ Failed → faults.new ≡ faults.old }
    ensures later { faults.old ≤ faults.new }
{
    if error.kind() == ErrorKind::OutOfMemory {
        return NetFault::NoMemory;
    }
    count_fault(faults);
    NetFault::Failed
}

/// A dialler over TCP. An address is that of a host and a port, as `localhost:389`. It reports
/// nothing of what it was asked. Where it is asked again, it does so at once, and then after 1, 2,
/// 4 .. 30 seconds, until a link has lasted 30 seconds; it says on standard error when there is no
/// link, when there is one again, and what is reported of one.
pub struct TcpDial<'a, R: net::Net<Listener = TcpListener, Stream = TcpStream> + Eprint + Clock> {
    rt: &'a R,
    retries: Retries,
    faults: u64,
}

impl<R: net::Net<Listener = TcpListener, Stream = TcpStream> + Eprint + Clock> Drop
    for TcpDial<'_, R> {
    fn drop(self) {
        let Self {
            rt: _,
            retries: _,
            faults: _,
        } = self;
    }
}

impl<'a, R: net::Net<Listener = TcpListener, Stream = TcpStream> + Eprint + Clock> TcpDial<'a, R> {
    /// A dialler that was asked nothing yet.
    pub fn new(rt: &'a R) -> TcpDial<'a, R>
        ensures faults { result.faults ≡ 0 }
    {
        TcpDial {
            rt,
            retries: Retries::new(),
            faults: 0,
        }
    }
}

impl<'a, R: net::Net<Listener = TcpListener, Stream = TcpStream> + Eprint + Clock> Dial
    for TcpDial<'a, R> {
    type Link = TcpLink;

    ghost dialled = { λ _. None };

    ghost dial_fault_count = { λ d. d.faults };

    fn faults(&self) -> u64 {
        self.faults
    }

    fn connect(&mut self, address: &str) -> Result<TcpLink, NetFault> {
        self.retries.pause(self.rt, address);
        match TcpStream::connect(self.rt, address) {
            Ok(stream) => {
                self.retries.come(self.rt, address);
                Ok(TcpLink::new(stream))
            }
            Err(error) => Err(net_fault(error, &mut self.faults)),
        }
    }

    fn hang_up(&mut self, link: TcpLink) {
        self.retries.hang_up(self.rt);
        if link.read_faults() > 0 || link.write_faults() > 0 {
            count_fault(&mut self.faults);
        }
    }

    fn report(&self, fault: &str, detail: FaultDetail) {
        let _ = match detail {
            FaultDetail::Nothing => eprintln!(self.rt; "syncrepl: upstream: {fault}"),
            FaultDetail::Code(code) => eprintln!(self.rt; "syncrepl: upstream: {fault} {code}"),
            FaultDetail::Number(number) => {
                eprintln!(self.rt; "syncrepl: upstream: {fault} {number}")
            }
            FaultDetail::Entry(uuid) => {
                eprintln!(self.rt; "syncrepl: upstream: {fault} {uuid:032x}")
            }
            FaultDetail::Entries(one, other) => {
                eprintln!(self.rt; "syncrepl: upstream: {fault} {one:032x} {other:032x}")
            }
        };
    }

    ghost within = { λ _. tt };
}
