//! The commands of the language, each on its line.
ghost use Rattle.std.specs.Prelude.{◌≡◌, Some};
ghost use Rattle.entry_tree.specs.Selection.{search_of};
ghost use Rattle.ldap_ber.specs.Gives.{Gives};
ghost use Rattle.cascade_script.specs.Fault.{ScriptFails};
ghost use Rattle.cascade_script.specs.Grammar as spec;
ghost use Rattle.cascade_script.specs.Grammar.{saying_of};
ghost use Rattle.cascade_script.specs.Words.{greatest_number};

use crate::words::{
    after_prefix, at_end, name_in, named, node_name, number, only_if, quoted, search_in,
    spells_node_name, until_mark,
};
use crate::{Command, ScriptFault};
use entry_tree::Spec;
use ldap_ber::Octets;
use std::alloc::Global;

/// The greatest time of a clock, in microseconds: the last of the year 9999.
const MOST_TIME: u64 = 253_402_300_799_999_999;

/// The most messages of one command, and the greatest limit of a log or a queue.
const MOST_COUNT: u64 = 1_000_000;

/// What a line says.
#[derive(Drop)]
pub enum Heading {
    /// A command by itself.
    Whole(Command),
    /// A write to the provider of that name, whose record follows.
    Writes(Octets),
}

/// What a line says. A line outside the grammar is `BadCommand`, and out of memory it is
/// `NoMemory`.
#[tactic(auto, unfolding(crate::specs::Grammar::saying))]
pub fn heading_of(alloc: Global, text: &[u8], line: u64) -> Result<Heading, ScriptFault>
    ensures { Gives (ScriptFails line) (λ saying. Some (saying_of saying)) result
        (spec.saying text.now) }
{
    let (word, rest) = until_mark(text, b' ', line)?;
    said_by(alloc, word, rest, line)
}

/// What a line says that begins with this word.
fn said_by(alloc: Global, word: &[u8], rest: &[u8], line: u64) -> Result<Heading, ScriptFault>
    ensures { Gives (ScriptFails line) (λ saying. Some (saying_of saying)) result
        (spec.said_by spec.keywords word.now rest.now) }
{
    if word == b"provider".as_slice() {
        return provider_line(alloc, rest, line);
    }
    if word == b"consumer".as_slice() {
        return consumer_line(alloc, rest, line);
    }
    if word == b"replica".as_slice() {
        return replica_line(alloc, rest, line);
    }
    if word == b"clock".as_slice() {
        return clock_line(rest, line);
    }
    if word == b"write".as_slice() {
        return write_line(alloc, rest, line);
    }
    if word == b"settle".as_slice() {
        return settle_line(alloc, rest, line);
    }
    if word == b"show".as_slice() {
        return show_line(alloc, rest, line);
    }
    said_of_search(alloc, word, rest, line)
}

/// What a line says whose word is that of a search or its messages, or one of those after them.
#[tactic(auto, unfolding(crate::specs::Grammar::search_keywords))]
fn said_of_search(
    alloc: Global,
    word: &[u8],
    rest: &[u8],
    line: u64,
) -> Result<Heading, ScriptFault>
    ensures { Gives (ScriptFails line) (λ saying. Some (saying_of saying)) result
        (spec.said_by spec.search_keywords word.now rest.now) }
{
    if word == b"open".as_slice() {
        return open_line(alloc, rest, line);
    }
    if word == b"send".as_slice() {
        return send_line(alloc, rest, line);
    }
    if word == b"take".as_slice() {
        return take_line(alloc, rest, line);
    }
    if word == b"cut".as_slice() {
        return cut_line(alloc, rest, line);
    }
    if word == b"lose".as_slice() {
        return lose_line(alloc, rest, line);
    }
    said_of_holding(alloc, word, rest, line)
}

/// What a line says whose word is that of what a consumer holds or wants, or of a limit.
#[tactic(auto, unfolding(crate::specs::Grammar::holding_keywords))]
fn said_of_holding(
    alloc: Global,
    word: &[u8],
    rest: &[u8],
    line: u64,
) -> Result<Heading, ScriptFault>
    ensures { Gives (ScriptFails line) (λ saying. Some (saying_of saying)) result
        (spec.said_by spec.holding_keywords word.now rest.now) }
{
    if word == b"cookie".as_slice() {
        return cookie_line(alloc, rest, line);
    }
    if word == b"repoint".as_slice() {
        return repoint_line(alloc, rest, line);
    }
    if word == b"respec".as_slice() {
        return respec_line(alloc, rest, line);
    }
    if word == b"log".as_slice() {
        return log_line(alloc, rest, line);
    }
    if word == b"queue".as_slice() {
        return queue_line(alloc, rest, line);
    }
    Err(ScriptFault::bad_command(line))
}

/// `P "SUFFIX"`.
#[tactic(auto, unfolding(crate::specs::Grammar::provider_line))]
fn provider_line(alloc: Global, text: &[u8], line: u64) -> Result<Heading, ScriptFault>
    ensures { Gives (ScriptFails line) (λ saying. Some (saying_of saying)) result
        (spec.provider_line text.now) }
{
    let (name, rest) = named(alloc, text, line)?;
    let (suffix, rest) = quoted(rest, line)?;
    let suffix = name_in(alloc, suffix, line)?;
    at_end(rest, line)?;
    Ok(Heading::Whole(Command::Provider(name, suffix)))
}

/// A consumer's name, its provider's, what it wants, and what stands after that.
#[derive(Drop)]
struct Wanting<'a> {
    name: Octets,
    source: Octets,
    spec: Spec,
    rest: &'a [u8],
}

/// `C from P SCOPE "BASE" "FILTER"`, and what stands after it.
#[tactic(auto, unfolding(crate::specs::Grammar::following))]
fn following(alloc: Global, text: &[u8], line: u64) -> Result<Wanting<'_>, ScriptFault>
    ensures { Gives (ScriptFails line)
        (λ x. Some ((x.name, x.source), (search_of x.spec, x.rest.now))) result
        (spec.following text.now) }
{
    let (name, rest) = named(alloc, text, line)?;
    let rest = after_prefix(rest, b"from ", line)?;
    let (source, rest) = named(alloc, rest, line)?;
    let (spec, rest) = search_in(alloc, rest, line)?;
    Ok(Wanting {
        name,
        source,
        spec,
        rest,
    })
}

/// Whether ` reload` stands before the end of the line.
#[tactic(auto, unfolding(crate::specs::Grammar::reload_at))]
fn reload_at(rest: &[u8], line: u64) -> Result<bool, ScriptFault>
    ensures { Gives (ScriptFails line) (λ x. Some x) result (spec.reload_at rest.now) }
{
    if rest == b" reload".as_slice() {
        return Ok(true);
    }
    at_end(rest, line)?;
    Ok(false)
}

#[tactic(auto, unfolding(crate::specs::Grammar::consumer_line))]
fn consumer_line(alloc: Global, text: &[u8], line: u64) -> Result<Heading, ScriptFault>
    ensures { Gives (ScriptFails line) (λ saying. Some (saying_of saying)) result
        (spec.consumer_line text.now) }
{
    let found = following(alloc, text, line)?;
    let reload = reload_at(found.rest, line)?;
    let command = Command::Consumer(found.name, found.source, found.spec, reload);
    Ok(Heading::Whole(command))
}

#[tactic(auto, unfolding(crate::specs::Grammar::replica_line))]
fn replica_line(alloc: Global, text: &[u8], line: u64) -> Result<Heading, ScriptFault>
    ensures { Gives (ScriptFails line) (λ saying. Some (saying_of saying)) result
        (spec.replica_line text.now) }
{
    let found = following(alloc, text, line)?;
    let reload = reload_at(found.rest, line)?;
    let command = Command::Replica(found.name, found.source, found.spec, reload);
    Ok(Heading::Whole(command))
}

#[tactic(auto, unfolding(crate::specs::Grammar::clock_line))]
fn clock_line(text: &[u8], line: u64) -> Result<Heading, ScriptFault>
    ensures { Gives (ScriptFails line) (λ saying. Some (saying_of saying)) result
        (spec.clock_line text.now) }
{
    let time = number(text, MOST_TIME, line)?;
    Ok(Heading::Whole(Command::Clock(time)))
}

#[tactic(auto, unfolding(crate::specs::Grammar::write_line))]
fn write_line(alloc: Global, text: &[u8], line: u64) -> Result<Heading, ScriptFault>
    ensures { Gives (ScriptFails line) (λ saying. Some (saying_of saying)) result
        (spec.write_line text.now) }
{
    Ok(Heading::Writes(node_name(alloc, text, line)?))
}

#[tactic(auto, unfolding(crate::specs::Grammar::settle_line))]
fn settle_line(alloc: Global, text: &[u8], line: u64) -> Result<Heading, ScriptFault>
    ensures { Gives (ScriptFails line) (λ saying. Some (saying_of saying)) result
        (spec.settle_line text.now) }
{
    let name = node_name(alloc, text, line)?;
    Ok(Heading::Whole(Command::Settle(name)))
}

#[tactic(auto, unfolding(crate::specs::Grammar::show_line))]
fn show_line(alloc: Global, text: &[u8], line: u64) -> Result<Heading, ScriptFault>
    ensures { Gives (ScriptFails line) (λ saying. Some (saying_of saying)) result
        (spec.show_line text.now) }
{
    let name = node_name(alloc, text, line)?;
    Ok(Heading::Whole(Command::Show(name)))
}

/// `C once`, or `C stay` for a search that goes on after its refresh.
#[tactic(auto, unfolding(crate::specs::Grammar::open_line))]
fn open_line(alloc: Global, text: &[u8], line: u64) -> Result<Heading, ScriptFault>
    ensures { Gives (ScriptFails line) (λ saying. Some (saying_of saying)) result
        (spec.open_line text.now) }
{
    let (name, mode) = named(alloc, text, line)?;
    if mode == b"stay".as_slice() {
        return Ok(Heading::Whole(Command::OpenStay(name)));
    }
    only_if(mode == b"once".as_slice(), line)?;
    Ok(Heading::Whole(Command::OpenOnce(name)))
}

/// `P N`.
#[tactic(auto, unfolding(crate::specs::Grammar::limited))]
fn limited(alloc: Global, text: &[u8], line: u64) -> Result<(Octets, u64), ScriptFault>
    ensures { Gives (ScriptFails line) (λ x. Some x) result (spec.limited text.now) }
{
    let (name, rest) = named(alloc, text, line)?;
    let limit = number(rest, MOST_COUNT, line)?;
    Ok((name, limit))
}

#[tactic(auto, unfolding(crate::specs::Grammar::log_line))]
fn log_line(alloc: Global, text: &[u8], line: u64) -> Result<Heading, ScriptFault>
    ensures { Gives (ScriptFails line) (λ saying. Some (saying_of saying)) result
        (spec.log_line text.now) }
{
    let (name, limit) = limited(alloc, text, line)?;
    Ok(Heading::Whole(Command::Log(name, limit)))
}

#[tactic(auto, unfolding(crate::specs::Grammar::queue_line))]
fn queue_line(alloc: Global, text: &[u8], line: u64) -> Result<Heading, ScriptFault>
    ensures { Gives (ScriptFails line) (λ saying. Some (saying_of saying)) result
        (spec.queue_line text.now) }
{
    let (name, limit) = limited(alloc, text, line)?;
    Ok(Heading::Whole(Command::Queue(name, limit)))
}

/// `C`, which stands for `C 1`, or `C N`.
#[tactic(auto, unfolding(crate::specs::Grammar::counted, crate::specs::Words::node_name))]
fn counted(alloc: Global, text: &[u8], line: u64) -> Result<(Octets, u64), ScriptFault>
    ensures { Gives (ScriptFails line) (λ x. Some x) result (spec.counted text.now) }
{
    if spells_node_name(text) {
        return Ok((Octets::from_slice(alloc, text)?, 1));
    }
    let (name, rest) = named(alloc, text, line)?;
    let count = number(rest, MOST_COUNT, line)?;
    only_if(1 <= count, line)?;
    Ok((name, count))
}

#[tactic(auto, unfolding(crate::specs::Grammar::send_line))]
fn send_line(alloc: Global, text: &[u8], line: u64) -> Result<Heading, ScriptFault>
    ensures { Gives (ScriptFails line) (λ saying. Some (saying_of saying)) result
        (spec.send_line text.now) }
{
    let (name, count) = counted(alloc, text, line)?;
    Ok(Heading::Whole(Command::Send(name, count)))
}

#[tactic(auto, unfolding(crate::specs::Grammar::take_line))]
fn take_line(alloc: Global, text: &[u8], line: u64) -> Result<Heading, ScriptFault>
    ensures { Gives (ScriptFails line) (λ saying. Some (saying_of saying)) result
        (spec.take_line text.now) }
{
    let (name, count) = counted(alloc, text, line)?;
    Ok(Heading::Whole(Command::Take(name, count)))
}

#[tactic(auto, unfolding(crate::specs::Grammar::cut_line))]
fn cut_line(alloc: Global, text: &[u8], line: u64) -> Result<Heading, ScriptFault>
    ensures { Gives (ScriptFails line) (λ saying. Some (saying_of saying)) result
        (spec.cut_line text.now) }
{
    let name = node_name(alloc, text, line)?;
    Ok(Heading::Whole(Command::Cut(name)))
}

#[tactic(auto, unfolding(crate::specs::Grammar::lose_line))]
fn lose_line(alloc: Global, text: &[u8], line: u64) -> Result<Heading, ScriptFault>
    ensures { Gives (ScriptFails line) (λ saying. Some (saying_of saying)) result
        (spec.lose_line text.now) }
{
    let name = node_name(alloc, text, line)?;
    Ok(Heading::Whole(Command::Lose(name)))
}

/// `C "TEXT"`.
#[tactic(auto, unfolding(crate::specs::Grammar::cookie_line))]
fn cookie_line(alloc: Global, text: &[u8], line: u64) -> Result<Heading, ScriptFault>
    ensures { Gives (ScriptFails line) (λ saying. Some (saying_of saying)) result
        (spec.cookie_line text.now) }
{
    let (name, rest) = named(alloc, text, line)?;
    let (cookie, rest) = quoted(rest, line)?;
    at_end(rest, line)?;
    let cookie = Octets::from_slice(alloc, cookie)?;
    Ok(Heading::Whole(Command::Cookie(name, cookie)))
}

/// `C P`.
#[tactic(auto, unfolding(crate::specs::Grammar::repoint_line))]
fn repoint_line(alloc: Global, text: &[u8], line: u64) -> Result<Heading, ScriptFault>
    ensures { Gives (ScriptFails line) (λ saying. Some (saying_of saying)) result
        (spec.repoint_line text.now) }
{
    let (name, source) = named(alloc, text, line)?;
    let source = node_name(alloc, source, line)?;
    Ok(Heading::Whole(Command::Repoint(name, source)))
}

/// `C SCOPE "BASE" "FILTER"`.
#[tactic(auto, unfolding(crate::specs::Grammar::respec_line))]
fn respec_line(alloc: Global, text: &[u8], line: u64) -> Result<Heading, ScriptFault>
    ensures { Gives (ScriptFails line) (λ saying. Some (saying_of saying)) result
        (spec.respec_line text.now) }
{
    let (name, rest) = named(alloc, text, line)?;
    let (wanted, rest) = search_in(alloc, rest, line)?;
    at_end(rest, line)?;
    Ok(Heading::Whole(Command::Respec(name, wanted)))
}
