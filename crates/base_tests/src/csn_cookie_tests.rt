//! Change numbers and cookies as text, and numbers that are drawn.
use crate::rows::{check_rows, number, push_answer, shown};
use csn_cookie::{Cookie, Csn, CsnMaker, is_blank};
use std::alloc::{AllocError, Global};

/// Texts, and what is read of them: of a change number its parts and how it is written, of a cookie
/// its parts, of which the history is a number in decimal digits; and the change numbers that are
/// drawn, each above the one before, and the last one then.
const ROWS: &str = "\
csn 19700101000000.000000Z#000001#001#000000 => (0, 1, 1, 0, \"19700101000000.000000Z#000001#001#000000\")
csn 19700101000001.000000Z#000000#001#000000 => (1000000, 0, 1, 0, \"19700101000001.000000Z#000000#001#000000\")
csn 20000229120000.000001Z#00000a#0ff#0000ff => (951825600000001, 10, 255, 255, \"20000229120000.000001Z#00000a#0ff#0000ff\")
csn 20240229235959.999999Z#abcdef#fff#ffffff => (1709251199999999, 11259375, 4095, 16777215, \"20240229235959.999999Z#abcdef#fff#ffffff\")
csn 20380119031408.000000Z#000000#000#000000 => (2147483648000000, 0, 0, 0, \"20380119031408.000000Z#000000#000#000000\")
csn 21000228010203.000045Z#000000#002#000001 => (4107459723000045, 0, 2, 1, \"21000228010203.000045Z#000000#002#000001\")
csn 99991230220001.000000Z#000000#003#000000 => (253402207201000000, 0, 3, 0, \"99991230220001.000000Z#000000#003#000000\")
csn 99991231235959.999999Z#ffffff#004#000000 => (253402300799999999, 16777215, 4, 0, \"99991231235959.999999Z#ffffff#004#000000\")
csn 20240229235959.999999Z#ABCDEF#FFF#FFffFF => (1709251199999999, 11259375, 4095, 16777215, \"20240229235959.999999Z#abcdef#fff#ffffff\")
# No length but 40, no other signs in their places, no day or second that is not there, no year before 1970 or above 9999
csn  => NotACsn
csn 20240229235959.999999Z#000000#000#00000 => NotACsn
csn 20240229235959.999999Z#000000#000#0000000 => NotACsn
csn 20240229235959.999999z#000000#000#000000 => NotACsn
csn 20240229235959.999999Z#00000g#000#000000 => NotACsn
csn 20240229235959,999999Z#000000#000#000000 => NotACsn
csn 20240229235959.99999aZ#000000#000#000000 => NotACsn
csn 20230229235959.000000Z#000000#000#000000 => NotACsn
csn 21000229000000.000000Z#000000#000#000000 => NotACsn
csn 20240431000000.000000Z#000000#000#000000 => NotACsn
csn 20240001000000.000000Z#000000#000#000000 => NotACsn
csn 20240100000000.000000Z#000000#000#000000 => NotACsn
csn 19691231235959.999999Z#000000#000#000000 => NotACsn
csn 100000101000000.00000Z#000000#000#000000 => NotACsn
csn 20240101240000.000000Z#000000#000#000000 => NotACsn
csn 20240101235960.000000Z#000000#000#000000 => NotACsn
# Drawn one after another, each where the clock shows the number
draw 0 1000000 500000 18446744073709551615 => (true, true, \"19700101000000.000000Z#000001#001#000000\"),(true, true, \"19700101000001.000000Z#000000#001#000000\"),(true, true, \"19700101000001.000000Z#000001#001#000000\"),(true, true, \"99991231235959.999999Z#000000#001#000000\"),
# Cookies, and whether a text is a blank one
start => rid=000,sid=001,csn=19700101000000.000000Z#000000#001#000000,gen=00000000000000000000000000000001
cookie rid=000,sid=001,csn=19700101000000.000000Z#000000#001#000000,gen=00000000000000000000000000000001 => (0, 1, \"19700101000000.000000Z#000000#001#000000\", 1, false)
cookie rid=907,sid=abc,csn=20240229235959.999999Z#ABCDEF#fff#ffffff,gen=0123456789abcdef0123456789abcdef => (907, 2748, \"20240229235959.999999Z#abcdef#fff#ffffff\", 1512366075204170929049582354406559215, false)
cookie rid=00a,sid=001,csn=19700101000000.000000Z#000000#001#000000,gen=00000000000000000000000000000001 => (NotACookie, false)
cookie rid=000,sid=ABC,csn=19700101000000.000000Z#000000#001#000000,gen=00000000000000000000000000000001 => (NotACookie, false)
cookie rid=000,sid=001,csn=19691231000000.000000Z#000000#001#000000,gen=00000000000000000000000000000001 => (NotACookie, false)
cookie rid=000,sid=001,csn=19700101000000.000000Z#000000#001#000000,gen=0000000000000000000000000000000A => (NotACookie, false)
cookie rid=000,sid=001,csn=19700101000000.000000Z#000000#001#000000,gen=000000000000000000000000000000011 => (NotACookie, false)
cookie  => (NotACookie, true)
cookie rid=001 => (NotACookie, true)
cookie rid=001,sid=0af => (NotACookie, true)
cookie rid=01 => (NotACookie, false)
cookie rid=001, => (NotACookie, false)
cookie rid=001,sid=0AF => (NotACookie, false)
";

#[test]
fn change_numbers_and_cookies(rt: HostRuntime) {
    check_rows(&rt, rt.alloc(), ROWS);
}

pub(crate) fn reported(alloc: Global, word: &str, text: &str) -> Result<String, AllocError> {
    match word {
        "csn" => csn_read(alloc, text),
        "cookie" => cookie_read(alloc, text),
        "draw" => drawn(alloc, text),
        _ => start_written(alloc),
    }
}

fn csn_read(alloc: Global, text: &str) -> Result<String, AllocError> {
    match Csn::parse(text.as_bytes()) {
        Ok(csn) => csn_reported(alloc, csn),
        Err(fault) => shown(alloc, &fault),
    }
}

fn csn_reported(alloc: Global, csn: Csn) -> Result<String, AllocError> {
    let written = csn.write();
    let text = text_of(&written);
    shown(
        alloc,
        &(csn.micros(), csn.count(), csn.sid(), csn.part(), text),
    )
}

fn text_of(bytes: &[u8]) -> &str {
    str::from_utf8(bytes).unwrap_or("?")
}

/// A cookie's parts, and whether the text is a blank one.
fn cookie_read(alloc: Global, text: &str) -> Result<String, AllocError> {
    let blank = is_blank(text.as_bytes());
    match Cookie::parse(text.as_bytes()) {
        Ok(cookie) => cookie_reported(alloc, cookie, blank),
        Err(fault) => shown(alloc, &(fault, blank)),
    }
}

fn cookie_reported(alloc: Global, cookie: Cookie, blank: bool) -> Result<String, AllocError> {
    let written = cookie.csn.write();
    let csn = text_of(&written);
    shown(alloc, &(cookie.rid, cookie.sid, csn, cookie.history, blank))
}

/// The cookie of the directory 1 before all writes, as it is written.
fn start_written(alloc: Global) -> Result<String, AllocError> {
    let start = Cookie {
        rid: 0,
        sid: 1,
        csn: Csn::start(1),
        history: 1,
    };
    text_of(&start.write()).to_string(alloc)
}

/// For each time whether the number is above the one before, whether it is the last one then, and
/// how it is written.
fn drawn(alloc: Global, times: &str) -> Result<String, AllocError> {
    let mut maker = CsnMaker::new(1);
    let mut text = String::new(alloc);
    for time in times.split(' ') {
        push_answer(&mut text, drawn_at(alloc, &mut maker, number(time)))?;
    }
    Ok(text)
}

fn drawn_at(alloc: Global, maker: &mut CsnMaker, time: u64) -> Result<String, AllocError> {
    let before = maker.last();
    match maker.next(time) {
        Ok(csn) => order_shown(alloc, before < csn, maker.last() == csn, csn),
        Err(_) => "spent".to_string(alloc),
    }
}

fn order_shown(alloc: Global, rises: bool, is_last: bool, csn: Csn) -> Result<String, AllocError> {
    shown(alloc, &(rises, is_last, text_of(&csn.write())))
}
