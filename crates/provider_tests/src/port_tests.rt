//! A provider through its port, and the journal that it keeps.
use crate::rows::{number, parted, push_counted, push_made, push_word};
use crate::searches::{asked, push_accepted, spec};
use crate::writes::change;
use dn_names::Dn;
use entry_tree::{OpFault, read_op};
use ldap_ber::{NoMemory, discard};
use std::alloc::Global;
use std::test::Fail;
use sync_provider::{
    ClosedSearch, HandOutStop, Handed, Kind, PlainSearch, Port, Provider, SearchChange,
    SearchEvent, SearchReply,
};

/// Calls of a port.
const CALLS: &str = "first; search; open once; hand 1; hand 1; open stay; open stay; \
    add ou=a,dc=x; add ou=a,dc=x; hand 1; hand 1; hand 1; hand 1; drop 1; drop 1; drop 2; \
    compare; count";

/// What the calls answer: writes their code and number, a search how many entries were found,
/// searches that are opened their number and that of the writes, hand-outs a message, an end with
/// its code, or that nothing is there.
const ANSWERS: &str = "0:1 f1 s1@1 m e0 s1@1 s2@1 0:2 68:2 m m m nothing dropped none dropped c6 2";

/// The events of the searches: `+` or `-` with the number, after how many writes; at an end also
/// how many messages had been handed out. Last the length of the journal.
const EVENTS: &str = "1+1 1-1h2 1+1 1+2 2-1h3 2-2h0 j8";

#[test]
fn a_provider_is_a_port(rt: HostRuntime) -> Result<(), Fail> {
    let (answers, events) = called(rt.alloc(), CALLS, "")?;
    assert!(rt; answers.as_str() == ANSWERS, "{answers}");
    assert!(rt; events.as_str() == EVENTS, "{events}");
    Ok(())
}

/// The same for a search that a write is too much for once its refresh is handed out: at the end
/// also how many messages had been handed out when it was.
const OVERFLOW: &str = "1+1 2-1h3o2 j4";

#[test]
fn an_overflow_stands_beside_the_end(rt: HostRuntime) -> Result<(), Fail> {
    let calls = "first; open stay; hand 1; hand 1";
    let later = "add ou=a,dc=x; hand 1; hand 1";
    let (answers, events) = called(rt.alloc(), calls, later)?;
    assert!(rt; answers.as_str() == "0:1 s1@1 m m 0:2 e none", "{answers}");
    assert!(rt; events.as_str() == OVERFLOW, "{events}");
    Ok(())
}

/// The same where messages are handed out together: how many, and why there are no more.
const TOGETHER: &str = "0:1 s1@1 0enough 1enough 1nothing 0none 0:2 1nothing s2@2 2e0 0none";

#[test]
fn messages_come_together(rt: HostRuntime) -> Result<(), Fail> {
    let calls = "first; open stay; some 1 0; some 1 1; some 1 4; some 2 4; add ou=a,dc=x; \
        some 1 4; open once; some 2 4; some 2 4";
    let (answers, _) = called(rt.alloc(), calls, "")?;
    assert!(rt; answers.as_str() == TOGETHER, "{answers}");
    Ok(())
}

fn fresh(alloc: Global) -> Result<Provider, Fail> {
    let suffix = Dn::parse(alloc, b"dc=x")?;
    Ok(Provider::new(alloc, suffix, 1, 1, Kind::Root)?)
}

/// What a new provider answers to these calls, and to later ones with a queue limit of 0, if there
/// are some; and its journal then.
fn called(alloc: Global, calls: &str, later: &str) -> Result<(String, String), Fail> {
    let mut provider = fresh(alloc)?;
    let mut answers = String::new(alloc);
    let mut events = String::new(alloc);
    let done = call_provider(
        alloc,
        &mut provider,
        calls,
        later,
        &mut answers,
        &mut events,
    );
    discard(provider);
    done?;
    Ok((answers, events))
}

fn call_provider(
    alloc: Global,
    provider: &mut Provider,
    calls: &str,
    later: &str,
    answers: &mut String,
    events: &mut String,
) -> Result<(), Fail> {
    call_each(alloc, provider, calls, answers)?;
    if !later.is_empty() {
        provider.set_queue_limit(0);
        call_each(alloc, provider, later, answers)?;
    }
    push_journal(alloc, provider, events)
}

fn call_each<P: Port>(
    alloc: Global,
    port: &mut P,
    calls: &str,
    text: &mut String,
) -> Result<(), Fail> {
    for call in calls.split(';') {
        make_call(alloc, port, call.trim_ascii(), text)?;
    }
    Ok(())
}

fn make_call<P: Port>(
    alloc: Global,
    port: &mut P,
    call: &str,
    text: &mut String,
) -> Result<(), Fail> {
    let (word, of) = parted(call);
    match word {
        "search" => search(alloc, port, text),
        "open" => open(alloc, port, of, text),
        "hand" => hand_out(port, number(of), text),
        "some" => together(alloc, port, of, text),
        "drop" => drop_search(port, number(of), text),
        "compare" => compare(alloc, port, text),
        "count" => push_counted(alloc, text, "", port.writes()),
        _ => write(alloc, port, word, of, text),
    }
}

fn write<P: Port>(
    alloc: Global,
    port: &mut P,
    word: &str,
    of: &str,
    text: &mut String,
) -> Result<(), Fail> {
    let change = change(alloc, word, of)?;
    let op = read_op(alloc, &change);
    discard(change);
    match op {
        Ok(op) => {
            let reply = port.write(op, 0);
            push_made(text, format!(in alloc; "{}:{}", reply.code, reply.number))
        }
        Err(OpFault::Code(_)) => Err(Fail::from("refused by its form")),
        Err(OpFault::NoMemory) => Err(Fail::from("out of memory")),
    }
}

fn search<P: Port>(alloc: Global, port: &mut P, text: &mut String) -> Result<(), Fail> {
    let ask = PlainSearch {
        spec: spec(alloc, "dc=x", "*")?,
        size_limit: 0,
    };
    let reply = port.search(&ask);
    discard(ask);
    let count = match &reply {
        SearchReply::Found(found) => Some(found.list().len()),
        SearchReply::Over(_) | SearchReply::NoSuchBase | SearchReply::NoMemory => None,
    };
    discard(reply);
    let count = count.ok_or("nothing is found")?;
    push_counted(alloc, text, "f", count as u64)
}

fn compare<P: Port>(alloc: Global, port: &mut P, text: &mut String) -> Result<(), Fail> {
    let dn = Dn::parse(alloc, b"dc=x")?;
    let code = port.compare(&dn, b"o", b"x");
    discard(dn);
    push_counted(alloc, text, "c", u64::from(code))
}

fn open<P: Port>(alloc: Global, port: &mut P, mode: &str, text: &mut String) -> Result<(), Fail> {
    let accepted = port.accept(asked(alloc, mode, "dc=x * -")?);
    push_accepted(alloc, &accepted, text)
}

fn hand_out<P: Port>(port: &mut P, search: u64, text: &mut String) -> Result<(), Fail> {
    let handed = port.hand_out(search);
    let word = match &handed {
        Handed::Message(_) => "m",
        Handed::Ended(0, _) => "e0",
        Handed::Ended(_, _) => "e",
        Handed::Nothing => "nothing",
        Handed::NoSuchSearch => "none",
        Handed::NoMemory => "memory",
    };
    discard(handed);
    push_word(text, word)
}

fn together<P: Port>(alloc: Global, port: &mut P, of: &str, text: &mut String) -> Result<(), Fail> {
    let (search, most) = parted(of);
    let most = number(most).min(9) as usize;
    let given = port.hand_out_several(number(search), most, Vec::with_capacity(alloc, most)?);
    let (count, stop) = (given.messages.len(), stop_word(&given.stop));
    discard(given);
    push_made(text, format!(in alloc; "{count}{stop}"))
}

fn stop_word(stop: &HandOutStop) -> &'static str {
    match stop {
        HandOutStop::Enough => "enough",
        HandOutStop::Ended(0, _) => "e0",
        HandOutStop::Ended(_, _) => "e",
        HandOutStop::Nothing => "nothing",
        HandOutStop::NoSuchSearch => "none",
        HandOutStop::NoMemory => "memory",
    }
}

fn drop_search<P: Port>(port: &mut P, search: u64, text: &mut String) -> Result<(), Fail> {
    let was_open = port.drop_search(search);
    push_word(text, if was_open { "dropped" } else { "none" })
}

fn push_journal(alloc: Global, provider: &Provider, text: &mut String) -> Result<(), Fail> {
    push_events(alloc, provider.search_events(), text)?;
    push_counted(alloc, text, "j", provider.journal_len())
}

fn push_events(alloc: Global, events: &[SearchEvent], text: &mut String) -> Result<(), Fail> {
    for event in events {
        push_made(text, event_word(alloc, event))?;
    }
    Ok(())
}

fn event_word(alloc: Global, event: &SearchEvent) -> Result<String, NoMemory> {
    match &event.change {
        SearchChange::Opened(opened) => {
            format!(in alloc; "{}+{}", event.writes, opened.number())
        }
        SearchChange::Closed(end) => end_word(alloc, event.writes, end),
    }
}

fn end_word(alloc: Global, writes: u64, end: &ClosedSearch) -> Result<String, NoMemory> {
    let (number, handed) = (end.number, end.handed);
    match end.over {
        Some(over) => format!(in alloc; "{writes}-{number}h{handed}o{over}"),
        None => format!(in alloc; "{writes}-{number}h{handed}"),
    }
}
