//! Where a program's bytes come from and where they go, as traits whose faults are counted: an
//! answer that reports a failure comes only where the object's own count of faults has risen.
//!
//! - [`Source`] and [`Sink`] are what the program is written against, and with them [`Shelf`] for
//!   files, [`Net`] and [`Dial`] for links, [`Clock`] and [`Words`]. A [`Link`] is a source and a
//!   sink in one.
//! - [`Reading`] and [`Writing`] make a source or a sink of any reader or writer of std.
//!   [`FileShelf`], [`TcpNet`], [`TcpDial`], [`SystemClock`] and [`DrawnWords`] are the system's.
//! - [`MemorySource`] and [`MemorySink`] hold their bytes in memory, and so report them, as
//!   [`MemoryShelf`], [`MemoryNet`] and [`MemoryDial`] do. [`FixedClock`] and [`FixedWords`] give
//!   what they were made of.
//! - [`FaultySource`] and [`FaultySink`] report their bytes too, and fail where they are asked to.
//!   [`MemoryLink`] is one of each.
#![tactic(auto)]

mod buffers;
mod clock;
mod dial;
mod drawn_words;
mod fault_detail;
mod faults;
mod faulty_sink;
mod faulty_source;
mod file_shelf;
mod link;
mod memory_dial;
mod memory_link;
mod memory_net;
mod memory_shelf;
mod memory_sink;
mod memory_source;
mod net;
mod reading;
mod retries;
mod shelf;
mod sink;
mod source;
mod system_clock;
mod tcp_dial;
mod tcp_link;
mod tcp_net;
mod words;
mod writing;

pub use buffers::keep_rest;
pub use clock::{Clock, FixedClock};
pub use dial::{Dial, NetFault};
pub use drawn_words::DrawnWords;
pub use fault_detail::FaultDetail;
pub use faulty_sink::FaultySink;
pub use faulty_source::{FaultySource, Step};
pub use file_shelf::FileShelf;
pub use link::Link;
pub use memory_dial::{DialAttempt, MemoryDial};
pub use memory_link::{LinkPlan, MemoryLink};
pub use memory_net::{MemoryDoor, MemoryNet};
pub use memory_shelf::{MemoryShelf, NamedFile};
pub use memory_sink::MemorySink;
pub use memory_source::MemorySource;
pub use net::Net;
pub use reading::Reading;
pub use shelf::{Shelf, ShelfFault};
pub use sink::{Put, Sink, write_whole};
pub use source::{Piece, Source};
pub use system_clock::SystemClock;
pub use tcp_dial::TcpDial;
pub use tcp_link::TcpLink;
pub use tcp_net::TcpNet;
pub use words::{FixedWords, Words};
pub use writing::Writing;
