//! A link over TCP.
ghost use Rattle.std.specs.Prelude.{◌≡◌, None, Some, true, refl};
ghost use Rattle.std.specs.Io.{ReadsAtMost};

use crate::faults::count_fault;
use crate::{Link, Piece, Put, Sink, Source};
use libc::net::{POLLIN, poll};
use libc::types::pollfd;
use std::io::{ErrorKind, Read, Write};
use std::net::TcpStream;
use std::os::fd::AsRawFd;
use std::time::Duration;
use std::{io, mem};

/// How many milliseconds a read waits at most, and how many where bytes went a short while ago:
/// whoever was just answered mostly has more to ask, and a search that stays mostly has more to
/// send.
const WAIT: i32 = 20;

const SHORT_WAIT: i32 = 1;

/// How many reads after bytes went in or out wait shortly.
const SHORT_READS: u8 = 16;

/// After this many bytes a read does not wait: what was written together was mostly not all.
const LARGE: usize = 4_096;

/// A link over TCP. It reports none of its bytes. A read waits for a moment, and is then quiet.
#[derive(Drop)]
pub struct TcpLink {
    stream: TcpStream,
    /// How many of the next reads wait shortly.
    short_reads: u8,
    /// How many bytes were written since the last read.
    written: usize,
    read_faults: u64,
    write_faults: u64,
}

impl TcpLink {
    /// A link over this stream, of which no call has failed yet. What is written is sent at once.
    pub fn new(stream: TcpStream) -> TcpLink
        ensures read_faults { result.read_faults ≡ 0 }
        ensures write_faults { result.write_faults ≡ 0 }
    {
        let _ = stream.set_nodelay(true);
        let _ = stream.set_read_timeout(Some(Duration::from_millis(WAIT as u64)));
        TcpLink {
            stream,
            short_reads: 0,
            written: 0,
            read_faults: 0,
            write_faults: 0,
        }
    }

    /// Reads as the stream does, once something has come, or gives up after a while.
    fn read_soon(&mut self, buffer: &mut [u8]) -> io::Result<usize>
        ensures bound { ReadsAtMost result buffer.new }
        ensures read_faults { self.new.read_faults ≡ self.old.read_faults }
        ensures write_faults { self.new.write_faults ≡ self.old.write_faults }
    {
        let written = mem::replace(&mut self.written, 0);
        let wait = next_wait(written, &mut self.short_reads);
        if !is_ready(&self.stream, wait) {
            return Err(io::Error::from(ErrorKind::WouldBlock));
        }
        self.stream.read(buffer)
    }
}

/// How many milliseconds the next read waits: none after much was written, few while reads wait
/// shortly.
fn next_wait(written: usize, short_reads: &mut u8) -> i32 {
    if LARGE <= written {
        return 0;
    }
    if *short_reads == 0 {
        return WAIT;
    }
    *short_reads -= 1;
    SHORT_WAIT
}

/// Whether something has come, or the end, in this many milliseconds at most. They are of the
/// system's fine clock. A timeout of the stream itself is one in ticks: of one millisecond it may
/// make eight. Where the call fails, the read is to find why.
fn is_ready(stream: &TcpStream, wait: i32) -> bool {
    let mut asked = [pollfd {
        fd: stream.as_raw_fd(),
        events: POLLIN,
        revents: 0,
    }];
    poll(&mut asked, wait) != 0
}

/// Whether a read ended because no byte came in its time.
fn is_quiet(error: &io::Error) -> bool {
    matches!(
        error.kind(),
        ErrorKind::WouldBlock | ErrorKind::TimedOut | ErrorKind::Interrupted
    )
}

impl Source for TcpLink {
    ghost bytes_left = { λ _. None };

    ghost bytes_read = { λ _. None };

    ghost waits = { λ _. true };

    ghost read_fault_count = { λ l. l.read_faults };

    ghost sink_side = { λ l. Some (record { held = None; faults = l.write_faults }) };

    fn read_faults(&self) -> u64 {
        self.read_faults
    }

    fn read(&mut self, buffer: &mut [u8]) -> Piece {
        match self.read_soon(buffer) {
            Ok(0) => Piece::End,
            Ok(count) => {
                self.short_reads = SHORT_READS;
                Piece::Got(count)
            }
            Err(error) if is_quiet(&error) => Piece::Quiet,
            Err(_) => {
                count_fault(&mut self.read_faults);
                Piece::Failed
            }
        }
    }
}

impl Sink for TcpLink {
    ghost bytes_held = { λ _. None };

    ghost write_fault_count = { λ l. l.write_faults };

    ghost source_side = { λ l. Some (record {
      left = None;
      read = None;
      waits = true;
      faults = l.read_faults;
    }) };

    fn write_faults(&self) -> u64 {
        self.write_faults
    }

    fn write(&mut self, piece: &[u8]) -> Put {
        self.short_reads = SHORT_READS;
        self.written = self.written.saturating_add(piece.len());
        match self.stream.write(piece) {
            Ok(0) | Err(_) => {
                count_fault(&mut self.write_faults);
                Put::Failed
            }
            Ok(count) => Put::Wrote(count),
        }
    }

    fn flush(&mut self) -> bool {
        match self.stream.flush() {
            Ok(()) => true,
            Err(_) => {
                count_fault(&mut self.write_faults);
                false
            }
        }
    }
}

impl Link for TcpLink {
    ghost reads_apart = { λ _. refl };

    ghost writes_apart = { λ _. refl };

    ghost reads_reported = { λ _ left. left };
}
