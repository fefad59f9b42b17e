//! `syncrepl`: an LDAP directory with replication by content synchronisation, driven by a script,
//! drilled by threads or served over a net; and a client that searches one.
#![tactic(auto)]

#[cfg(test)]
mod cut_tests;
#[cfg(test)]
mod drill_tests;
mod drill_words;
mod drilling;
#[cfg(test)]
mod following_tests;
mod numbers;
mod run;
#[cfg(test)]
mod search_tests;
mod search_words;
mod searching;
mod serve;
#[cfg(test)]
mod serve_tests;
mod serving;
#[cfg(test)]
mod tests;

use cascade_world::World;
use run::run;
use std::alloc::AllocError;
use std::process::ExitCode;
use std::{env, io};
use sync_io::{DrawnWords, FileShelf, Reading, Sink, SystemClock, TcpNet, Writing, write_whole};

/// The status when out of memory.
const NO_MEMORY: u8 = 6;

fn main(rt: HostRuntime) -> ExitCode {
    let mut input = Reading::new(rt.reader());
    let mut output = Writing::new(io::writer(&rt));
    let mut errors = Writing::new(rt.stderr());
    let (Ok(words), Ok(mut world)) = (words_of(&rt), World::new(rt.alloc())) else {
        return out_of_memory(&mut errors);
    };
    let status = run(
        &rt,
        rt.alloc(),
        words.as_slice(),
        &mut world,
        &mut input,
        &mut output,
        &mut errors,
        &mut FileShelf::new(&rt),
        &mut TcpNet::new(&rt),
        &mut SystemClock::new(&rt),
        &mut DrawnWords::draw(&rt),
    );
    match status {
        Ok(status) => ExitCode::from(status.code),
        Err(_) => out_of_memory(&mut errors),
    }
}

fn out_of_memory<E: Sink>(errors: &mut E) -> ExitCode {
    let _ = write_whole(errors, b"syncrepl: out of memory\n");
    ExitCode::from(NO_MEMORY)
}

/// The words after the program's name, or none of them where one is no text; an `Err` where there
/// is no memory for them.
fn words_of(rt: &HostRuntime) -> Result<Vec<String>, AllocError> {
    let mut words = Vec::new(rt.alloc());
    match env::args(rt) {
        Ok(args) => {
            for word in args.skip(1) {
                words.push(word)?;
            }
        }
        Err(error) if error.kind() == io::ErrorKind::OutOfMemory => return Err(AllocError),
        Err(_) => {}
    }
    Ok(words)
}
