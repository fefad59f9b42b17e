//! A consumer holds what the plain copy holds, after each message of all sequences of three.
use crate::messages::{ID, sent};
use crate::plain_copy::{Answer, PlainCopy, name_of};
use crate::rows::new_consumer;
use entry_tree::Entry;
use ldap_ber::{NoMemory, discard};
use ldap_messages::Message;
use std::alloc::Global;
use std::mem;
use std::test::Fail;
use sync_consumer::{Consumer, Taken};
use sync_messages::Mode;

/// What each search begins with: two entries and a cookie.
const FIRST: &str = "\
add 1 - o=a CSN
add 2 - o=b CSN
done 0 c0
";

/// Entries that are added, modified, deleted and present, with a cookie or without; sets of
/// identities; a new cookie; the ends of phases, and with each the refresh; ends of the search; and
/// references.
const TOLD: &str = "\
add 1 - o=d CSN
modify 2 c1 o=e CSN
add 3 - o=c CSN
delete 1 - o=a CSN
present 1 - o=a CSN
present 3 - o=c CSN
uncontrolled o=a CSN
presents - 2,1
deletes c2 3,2
newcookie c3
deleteGoesOn c4
refreshDelete c5
presentEnds
refreshPresent
done 0 c6
doneDeletes 0 -
done 0
done 4096
reference
otherReference
";

/// A consumer and a plain copy that take the same messages.
#[derive(Drop)]
struct Pair {
    consumer: Consumer,
    plain: PlainCopy,
}

impl Pair {
    fn copy(&self) -> Result<Pair, NoMemory> {
        let (consumer, plain) = both(self.consumer.copy(), self.plain.clone())?;
        Ok(Pair { consumer, plain })
    }

    /// Begins a search from both.
    fn ask(&mut self, mode: Mode) -> Result<(), NoMemory> {
        discard(self.consumer.request(ID, mode)?);
        self.plain.ask(ID, mode == Mode::RefreshAndPersist);
        Ok(())
    }

    /// Whether both make the same of a message.
    fn take(&mut self, alloc: Global, text: &str) -> Result<bool, Fail> {
        let message = sent(alloc, text)?;
        let agrees = self.take_sent(alloc, &message);
        discard(message);
        Ok(agrees?)
    }

    fn take_sent(&mut self, alloc: Global, message: &Message) -> Result<bool, NoMemory> {
        let answer = self.plain.take(alloc, message)?;
        if answer_of(&mut self.consumer, message) != Some(answer) {
            return Ok(false);
        }
        agree(&self.consumer, &self.plain)
    }
}

fn both<A: Drop, B: Drop>(
    one: Result<A, NoMemory>,
    other: Result<B, NoMemory>,
) -> Result<(A, B), NoMemory> {
    Ok((one?, other?))
}

/// Puts the item at the end of the list.
fn push<T: Drop>(list: &mut Vec<T>, item: T) -> Result<(), NoMemory> {
    list.push(item)?;
    Ok(())
}

/// What comes of a message, or None where memory runs out.
fn answer_of(consumer: &mut Consumer, message: &Message) -> Option<Answer> {
    let taken = consumer.take(message);
    let answer = match &taken {
        Taken::Staged => Some(Answer::Staged),
        Taken::Stored(_) => Some(Answer::Stored),
        Taken::Copied(_) => Some(Answer::Copied),
        Taken::Over(code) => Some(Answer::Over(*code)),
        Taken::Fault(_) => Some(Answer::Refused),
        Taken::NoMemory => None,
    };
    discard(taken);
    answer
}

/// Whether both hold the same entries and the same cookie, and run a search or none.
fn agree(consumer: &Consumer, plain: &PlainCopy) -> Result<bool, NoMemory> {
    let entries = consumer.entries().list()?;
    Ok(
        entries.len() == plain.held.len()
            && consumer.has_session() == plain.session.is_some()
            && plain.has_cookie(consumer.cookie())
            && holds_each(plain, &entries)?,
    )
}

fn holds_each(plain: &PlainCopy, entries: &[&Entry]) -> Result<bool, NoMemory> {
    for entry in entries {
        if !plain.holds(entry.uuid, name_of(entry)?.as_slice()) {
            return Ok(false);
        }
    }
    Ok(true)
}

/// Whether both make the same of the first messages. Then they begin a search anew.
fn begins(alloc: Global, pair: &mut Pair, mode: Mode) -> Result<bool, Fail> {
    pair.ask(Mode::RefreshOnly)?;
    for text in FIRST.lines() {
        if !pair.take(alloc, text)? {
            return Ok(false);
        }
    }
    pair.ask(mode)?;
    Ok(true)
}

/// Whether copies of the pair make the same of each message. They are put at the end of the copies.
fn copies_agree(alloc: Global, pair: &Pair, copies: &mut Vec<Pair>) -> Result<bool, Fail> {
    for text in TOLD.lines() {
        if !copy_agrees(alloc, pair, text, copies)? {
            return Ok(false);
        }
    }
    Ok(true)
}

fn copy_agrees(
    alloc: Global,
    pair: &Pair,
    text: &str,
    copies: &mut Vec<Pair>,
) -> Result<bool, Fail> {
    let mut copy = pair.copy()?;
    let agrees = copy.take(alloc, text);
    let pushed = push(copies, copy);
    let agrees = agrees?;
    pushed?;
    Ok(agrees)
}

/// Whether copies of each pair make the same of each message. They take the place of the pairs.
fn all_agree(alloc: Global, pairs: &mut Vec<Pair>) -> Result<bool, Fail> {
    let earlier = mem::replace(pairs, Vec::new(alloc));
    let agrees = each_agrees(alloc, earlier.as_slice(), pairs);
    discard(earlier);
    agrees
}

fn each_agrees(alloc: Global, pairs: &[Pair], copies: &mut Vec<Pair>) -> Result<bool, Fail> {
    for pair in pairs {
        if !copies_agree(alloc, pair, copies)? {
            return Ok(false);
        }
    }
    Ok(true)
}

/// Whether both make the same of all sequences of three messages after the first ones, after one of
/// which at least the search goes on.
fn sequences_agree(
    alloc: Global,
    mut pair: Pair,
    mode: Mode,
    pairs: &mut Vec<Pair>,
) -> Result<bool, Fail> {
    let begins = begins(alloc, &mut pair, mode);
    let pushed = push(pairs, pair);
    let begins = begins?;
    pushed?;
    if !begins {
        return Ok(false);
    }
    for _ in 0..3 {
        if !all_agree(alloc, pairs)? {
            return Ok(false);
        }
    }
    Ok(pairs.iter().any(|pair| pair.plain.session.is_some()))
}

fn mode_agrees(alloc: Global, mode: Mode) -> Result<bool, Fail> {
    let pair = Pair {
        consumer: new_consumer(alloc)?,
        plain: PlainCopy::new(alloc),
    };
    let mut pairs = Vec::new(alloc);
    let agrees = sequences_agree(alloc, pair, mode, &mut pairs);
    discard(pairs);
    agrees
}

#[test]
fn all_sequences_of_three_messages(rt: HostRuntime) -> Result<(), Fail> {
    for mode in [Mode::RefreshOnly, Mode::RefreshAndPersist] {
        assert!(rt; mode_agrees(rt.alloc(), mode)?, "{mode:?}");
    }
    Ok(())
}
