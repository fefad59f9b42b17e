ghost use Rattle.std.specs.Fmt.{decimal};
ghost use Rattle.std.specs.Prelude.{◌≡◌, ◌↔◌, ◌≢◌, ◌≤◌, ◌++◌, false, IfNone, IfOk, IfSome, IsOk, IsTrue, OnErr, ℕ, List, []};
ghost use Rattle.sync_io.specs.Faults.{CountHasRisen};
ghost use Rattle.cascade_script.specs.Reader.{reader_of};
ghost use Rattle.cascade_world.specs.World.{no_nodes};
ghost use Rattle.std.specs.String.{string_bytes};
ghost use Rattle.cascade_script.specs.declared.fault.Cause.TheVariants.{NoMemory};
ghost use Rattle.syncrepl_tool.specs.Serving.{net_view};
ghost use Rattle.syncrepl_tool.specs.Texts.{Says, usage_text, read_fault_text, write_fault_text, refusal_text, cause_text, limit_text, later_cookie_text};
ghost use Rattle.syncrepl_tool.specs.Cascade.{WritesPrefix, status_of, Ends, RunEnds, IsInput, IsOutputSound, IsTakenFrom, OnCode, Decides, IsCascade, IsForm, IsStatus, IsCascadeStatus, streams, MayEndWith};
ghost use Rattle.ldap_listener.specs.Sessions.{seen_by};
ghost use Rattle.syncrepl_tool.specs.Serve.{EndsServing, IsServe, outside};
ghost use Rattle.syncrepl_tool.specs.Searching.{EndsSearch, IsNoSearch, IsSearch, SearchAsked, search_side};
ghost use Rattle.ldap_client.specs.Links.{link_by};
ghost use Rattle.drill_plan.specs.declared.plan.DrillPlan.{DrillPlan};
ghost use Rattle.syncrepl_tool.specs.DrillWords.{EndsDrill, IsDrill, IsNoDrill, drill_side};

use crate::drill_words::drill_words;
use crate::drilling::run_drill;
use crate::search_words::search_words;
use crate::searching::search_for;
use crate::serve::serve_with;
use cascade_world::{Cause, NoMemory, Script, ScriptFault, World, read_event};
use ldap_ber::Octets;
use ldap_server::OpenGate;
use std::alloc::{AllocError, Global};
use std::sync::Wait;
use std::thread::Threads;
use sync_io::{Clock, Net, Piece, Shelf, Sink, Source, Words, write_whole};

/// The most bytes of a script.
const MOST_BYTES: usize = 67_108_864;

/// How a run ended.
#[derive(Clone, Copy, Debug, PartialEq, Eq)]
pub struct Status {
    /// 0 done, 2 other words, 3 a refused text, 4 a read fault, 5 a write fault, 7 a net fault, 8 a
    /// text that passes a limit, 9 a fault of the peer.
    pub code: u8,
}

/// Does what the words say. They leave out the program's name. It is `NoMemory` where memory runs
/// out, but never for words of no form.
pub fn run<
    R: Threads + Wait + Sync,
    I: Source,
    O: Sink,
    E: Sink,
    F: Shelf,
    N: Net,
    K: Clock,
    W: Words,
>(
    rt: &R,
    alloc: Global,
    words: &[String],
    world: &mut World,
    input: &mut I,
    output: &mut O,
    errors: &mut E,
    shelf: &mut F,
    net: &mut N,
    clock: &mut K,
    random: &mut W,
) -> Result<Status, NoMemory>
    requires fresh { world.old ≡ no_nodes }
    requires prompt { I.waits input.old ≡ false }

    // The prefix of accepted writes that a `stored` line names reaches at least as far as they did
    // when the search was opened, and what the line reports is all that the specification selects
    // from it, and no more. It is what the consumer holds, and a `show` prints, up to its next
    // line. A search is refused with e-syncRefreshRequired exactly where the consumer's cookie is
    // in its way. Each consumer is what the lines of its messages make of it. Each event gives the
    // lines that belong to it, and no others. The world is left as these events leave it.
    ensures headline { IsNoSearch words.now → IsNoDrill words.now
        → IfSome (I.bytes_left input.old) (λ text.
        WritesPrefix (reader_of text) (O.bytes_held output.old) (O.bytes_held output.new)
        world.new) }

    ensures answer { IsCascade words.now → IfOk result (MayEndWith
        (streams (I.bytes_left input.old) (I.read_fault_count input.old)
        (O.bytes_held output.old) (O.write_fault_count output.old)
        (E.bytes_held errors.old) (E.write_fault_count errors.old))
        (streams (I.bytes_left input.new) (I.read_fault_count input.new)
        (O.bytes_held output.new) (O.write_fault_count output.new)
        (E.bytes_held errors.new) (E.write_fault_count errors.new))
        world.new) }

    // The directory of a configuration is served to each connection, by its own session of LDAP.
    ensures serves { (name : List ℕ) → IsServe words.now name → EndsServing
        (net_view
        (seen_by N.Link.bytes_left N.Link.bytes_read N.Link.bytes_held
        N.Link.read_fault_count N.Link.write_fault_count)
        (link_by N.Caller.Link.bytes_left N.Caller.Link.bytes_read N.Caller.Link.bytes_held
        N.Caller.Link.read_fault_count N.Caller.Link.write_fault_count)
        N.Caller.dialled)
        name
        (outside (E.bytes_held errors.old) (E.write_fault_count errors.old)
        (F.files shelf.old) (F.shelf_fault_count shelf.old)
        (N.served net.old) (N.net_fault_count net.old) (W.word_fault_count random.old))
        (outside (E.bytes_held errors.new) (E.write_fault_count errors.new)
        (F.files shelf.new) (F.shelf_fault_count shelf.new)
        (N.served net.new) (N.net_fault_count net.new) (W.word_fault_count random.new))
        result }
    // What is served reads no input and writes no report.
    ensures apart { (name : List ℕ) → IsServe words.now name
        → (world.new ≡ world.old) × (input.new ≡ input.old) × (output.new ≡ output.old) }
    // A search is asked over one link, and its answer, or a line for each cookie that it stores, is
    // printed.
    ensures searches { (asked : SearchAsked) → IsSearch words.now asked → EndsSearch
        (link_by N.Caller.Link.bytes_left N.Caller.Link.bytes_read N.Caller.Link.bytes_held
        N.Caller.Link.read_fault_count N.Caller.Link.write_fault_count)
        N.Caller.dialled asked
        (search_side (O.bytes_held output.old) (O.write_fault_count output.old)
        (E.bytes_held errors.old) (E.write_fault_count errors.old)
        (N.served net.old) (N.net_fault_count net.old))
        (search_side (O.bytes_held output.new) (O.write_fault_count output.new)
        (E.bytes_held errors.new) (E.write_fault_count errors.new)
        (N.served net.new) (N.net_fault_count net.new))
        result }
    // It reads no input, no file and no random word.
    ensures unread { (asked : SearchAsked) → IsSearch words.now asked
        → (world.new ≡ world.old) × (input.new ≡ input.old) × (shelf.new ≡ shelf.old)
        × (random.new ≡ random.old) }
    // A drill is done at a directory of its own, and what it prints depends on its words alone.
    ensures drills { (plan : DrillPlan) → IsDrill words.now plan → EndsDrill plan
        (drill_side (O.bytes_held output.old) (O.write_fault_count output.old)
        (E.bytes_held errors.old) (E.write_fault_count errors.old))
        (drill_side (O.bytes_held output.new) (O.write_fault_count output.new)
        (E.bytes_held errors.new) (E.write_fault_count errors.new))
        result }
    // It reads no input, no file and no random word, and needs no net.
    ensures by_itself { (plan : DrillPlan) → IsDrill words.now plan
        → (world.new ≡ world.old) × (input.new ≡ input.old) × (shelf.new ≡ shelf.old)
        × (net.new ≡ net.old) × (random.new ≡ random.old) }
    // A script is run without files, a net and random words.
    ensures alone { IsCascade words.now
        → (shelf.new ≡ shelf.old) × (net.new ≡ net.old) × (random.new ≡ random.old) }

    ensures usage { IfOk result (λ status. (status.code ≡ 2) ↔ (IsForm words.now → ⊥)) }
    ensures usage_reported { IfOk result (OnCode 2 (Says usage_text
        (E.bytes_held errors.old) (E.bytes_held errors.new)
        (E.write_fault_count errors.old) (E.write_fault_count errors.new))) }
    // Other words are answered whether there is memory or not, and nothing is read, done or
    // reported.
    ensures other { (IsForm words.now → ⊥) → IsOk result
        × (world.new ≡ world.old) × (input.new ≡ input.old) × (output.new ≡ output.old)
        × (shelf.new ≡ shelf.old) × (net.new ≡ net.old) × (random.new ≡ random.old) }

    // Where there is no memory nothing was said, and neither the input nor the output failed.
    ensures unsaid { OnErr result (errors.new ≡ errors.old) }
    ensures sound { OnErr result
        ((I.read_fault_count input.new ≡ I.read_fault_count input.old)
        × (O.write_fault_count output.new ≡ O.write_fault_count output.old)) }
    // The input is read from its front, and files are only read.
    ensures taken { IsTakenFrom (I.bytes_left input.old) (I.bytes_left input.new) }
    ensures files { F.files shelf.new ≡ F.files shelf.old }

    // Each form of the words has its statuses.
    ensures codes { IfOk result (λ status. IsStatus words.now status.code) }
    // Where nothing failed, a script without a refusal is done, and every other text is refused.
    ensures complete { IfOk result (λ status. IsCascade words.now
        → (CountHasRisen (I.read_fault_count input.old) (I.read_fault_count input.new) → ⊥)
        → (CountHasRisen (O.write_fault_count output.old) (O.write_fault_count output.new) → ⊥)
        → IfSome (I.bytes_left input.old) (Decides status.code)) }
{
    if is_cascade(words) {
        return run_cascade(alloc, world, input, output, errors);
    }
    if let Some(name) = served_file(words) {
        return serve_with(
            rt, alloc, name, errors, shelf, net, clock, random, &OpenGate,
        );
    }
    if let Some(plan) = drill_words(words) {
        return run_drill(rt, alloc, &plan, output, errors);
    }
    match search_words(words) {
        Some(asked) => search_for(rt, alloc, asked, output, errors, net),
        None => Ok(usage(errors)),
    }
}

fn is_cascade(words: &[String]) -> bool
    ensures { IsTrue result ↔ IsCascade words.now }
{
    words.len() == 1 && words[0].as_str() == "cascade"
}

/// The name of the file whose directory is to be served.
#[tactic(auto, using(crate::proofs::Forms::serve_words))]
fn served_file(words: &[String]) -> Option<&str>
    ensures some { IfSome result (λ name. IsServe words.now name.now) }
    ensures none { IfNone result ((name : List ℕ) → IsServe words.now name → ⊥) }
{
    if words.len() != 2 {
        return None;
    }
    if words[0].as_str() != "serve" {
        return None;
    }
    let name = words[1].as_str();
    if name.as_bytes().starts_with(b"-") {
        return None;
    }
    Some(name)
}

/// Says how the program is called.
#[tactic(auto, unfolding(crate::specs::Texts::usage_text))]
fn usage<E: Sink>(errors: &mut E) -> Status
    ensures code { result.code ≡ 2 }
    ensures says { Says usage_text
        (E.bytes_held errors.old) (E.bytes_held errors.new)
        (E.write_fault_count errors.old) (E.write_fault_count errors.new) }
{
    end_with(
        errors,
        b"usage: syncrepl cascade | drill SEED WRITERS CONSUMERS SIZE | serve FILE | search ADDRESS BASE SCOPE FILTER [COUNT]\n",
        2,
    )
}

/// Says a text of the program's own, and ends with this status. Where it can't be written nothing
/// else is done.
pub(crate) fn end_with<E: Sink>(errors: &mut E, text: &[u8], code: u8) -> Status
    ensures code { result.code ≡ code }
    ensures says { Says text.now
        (E.bytes_held errors.old) (E.bytes_held errors.new)
        (E.write_fault_count errors.old) (E.write_fault_count errors.new) }
{
    let _ = write_whole(errors, text);
    Status { code }
}

/// Runs the script of the input in a world without nodes. It is `NoMemory` where memory runs out.
pub fn run_cascade<I: Source, O: Sink, E: Sink>(
    alloc: Global,
    world: &mut World,
    input: &mut I,
    output: &mut O,
    errors: &mut E,
) -> Result<Status, NoMemory>
    requires fresh { world.old ≡ no_nodes }
    requires prompt { I.waits input.old ≡ false }

    // The report is right, as `run` says in words.
    ensures headline { IfSome (I.bytes_left input.old) (λ text.
        WritesPrefix (reader_of text) (O.bytes_held output.old) (O.bytes_held output.new)
        world.new) }

    ensures answer { IfOk result (MayEndWith
        (streams (I.bytes_left input.old) (I.read_fault_count input.old)
        (O.bytes_held output.old) (O.write_fault_count output.old)
        (E.bytes_held errors.old) (E.write_fault_count errors.old))
        (streams (I.bytes_left input.new) (I.read_fault_count input.new)
        (O.bytes_held output.new) (O.write_fault_count output.new)
        (E.bytes_held errors.new) (E.write_fault_count errors.new))
        world.new) }

    // Where there is no memory nothing was said, and neither the input nor the output failed.
    ensures unsaid { OnErr result (errors.new ≡ errors.old) }
    ensures sound { OnErr result
        ((I.read_fault_count input.new ≡ I.read_fault_count input.old)
        × (O.write_fault_count output.new ≡ O.write_fault_count output.old)) }
    // The input is read from its front.
    ensures taken { IsTakenFrom (I.bytes_left input.old) (I.bytes_left input.new) }

    ensures codes { IfOk result (λ status. IsCascadeStatus status.code) }
    // Where nothing failed, a script without a refusal is done, and every other text is refused.
    ensures complete { IfOk result (λ status.
        (CountHasRisen (I.read_fault_count input.old) (I.read_fault_count input.new) → ⊥)
        → (CountHasRisen (O.write_fault_count output.old) (O.write_fault_count output.new) → ⊥)
        → IfSome (I.bytes_left input.old) (Decides status.code)) }
{
    match read_text(alloc, input)? {
        Input::Text(text) => run_text(alloc, world, text, output, errors),
        Input::Failed => Ok(read_fault(errors)),
    }
}

#[tactic(auto, unfolding(crate::specs::Texts::read_fault_text))]
pub(crate) fn read_fault<E: Sink>(errors: &mut E) -> Status
    ensures code { result.code ≡ 4 }
    ensures says { Says read_fault_text
        (E.bytes_held errors.old) (E.bytes_held errors.new)
        (E.write_fault_count errors.old) (E.write_fault_count errors.new) }
{
    end_with(errors, b"syncrepl: read fault\n", 4)
}

#[tactic(auto, unfolding(crate::specs::Texts::write_fault_text))]
pub(crate) fn write_fault<E: Sink>(errors: &mut E) -> Status
    ensures code { result.code ≡ 5 }
    ensures says { Says write_fault_text
        (E.bytes_held errors.old) (E.bytes_held errors.new)
        (E.write_fault_count errors.old) (E.write_fault_count errors.new) }
{
    end_with(errors, b"syncrepl: write fault\n", 5)
}

/// Says at which line the script is refused, and why.
fn refuse<E: Sink>(alloc: Global, errors: &mut E, fault: ScriptFault) -> Result<Status, NoMemory>
    ensures says { IfOk result (λ status. (status.code ≡ status_of fault.cause)
        × Says (refusal_text fault.line fault.cause)
        (E.bytes_held errors.old) (E.bytes_held errors.new)
        (E.write_fault_count errors.old) (E.write_fault_count errors.new)) }
    ensures unsaid { OnErr result (errors.new ≡ errors.old) }
{
    let text = refusal_text(alloc, &fault)?;
    Ok(end_with(errors, &text, status_of(&fault.cause)))
}

/// The status of a refusal.
fn status_of(cause: &Cause) -> u8
    ensures { result ≡ status_of cause.now }
{
    match cause {
        Cause::LimitReached(_) => 8,
        _ => 3,
    }
}

/// The place of a refusal and its cause.
#[tactic(auto, unfolding(crate::specs::Texts::refusal_text))]
fn refusal_text(alloc: Global, fault: &ScriptFault) -> Result<Vec<u8>, NoMemory>
    ensures { IfOk result (λ text. text.items ≡ refusal_text fault.now.line fault.now.cause) }
{
    let line = fault.line;
    let place = format!(in alloc; "syncrepl: line {line}: ")?;
    let cause = cause_text(alloc, &fault.cause)?;
    let mut text = place.as_bytes().to_vec(alloc)?;
    text.extend_from_slice(&cause)?;
    text.push(b'\n')?;
    Ok(text)
}

/// The name of a cause, with the limit that is passed or the cookies that are compared.
#[tactic(auto, unfolding(crate::specs::Texts::cause_text))]
fn cause_text(alloc: Global, cause: &Cause) -> Result<Vec<u8>, NoMemory>
    ensures { IfOk result (λ text. text.items ≡ cause_text cause.now) }
{
    match cause {
        Cause::BadCommand => b"BadCommand".to_vec(alloc),
        Cause::UnknownNode => b"UnknownNode".to_vec(alloc),
        Cause::NameTaken => b"NameTaken".to_vec(alloc),
        Cause::BadRecord => b"BadRecord".to_vec(alloc),
        Cause::LimitReached(number) => limit_text(alloc, *number),
        Cause::Circle => b"Circle".to_vec(alloc),
        Cause::OutsideSuffix => b"OutsideSuffix".to_vec(alloc),
        Cause::LaterCookie(held, given) => later_cookie_text(alloc, held, given),
        Cause::NoMemory => b"NoMemory".to_vec(alloc),
    }
}

fn limit_text(alloc: Global, number: u64) -> Result<Vec<u8>, NoMemory>
    ensures { IfOk result (λ text. text.items ≡ limit_text number) }
{
    with_number(alloc, b"LimitReached ", number)
}

/// A name, and then a number.
pub(crate) fn with_number(alloc: Global, name: &[u8], number: u64) -> Result<Vec<u8>, NoMemory>
    ensures { IfOk result (λ text. text.items ≡ name.now ++ decimal number) }
{
    let digits = format!(in alloc; "{number}")?;
    let mut text = name.to_vec(alloc)?;
    text.extend_from_slice(digits.as_bytes())?;
    Ok(text)
}

/// `LaterCookie HELD GIVEN`, where `-` stands for no cookie.
fn later_cookie_text(
    alloc: Global,
    held: &Option<Octets>,
    given: &Octets,
) -> Result<Vec<u8>, NoMemory>
    ensures { IfOk result (λ text. text.items ≡ later_cookie_text held.now given.now) }
{
    let mut text = b"LaterCookie ".to_vec(alloc)?;
    match held {
        Some(held) => text.extend_from_slice(held.as_slice())?,
        None => text.push(b'-')?,
    }
    text.push(b' ')?;
    text.extend_from_slice(given.as_slice())?;
    Ok(text)
}

/// How reading the input ended.
#[derive(Drop)]
pub enum Input {
    /// All of it, or, where it is too long, more than the most bytes of a script.
    Text(Octets),
    Failed,
}

fn read_text<I: Source>(alloc: Global, input: &mut I) -> Result<Input, NoMemory>
    requires { I.waits input.old ≡ false }
    ensures input { IfOk result (IsInput (I.bytes_left input.old) (I.bytes_left input.new)
        (I.read_fault_count input.old) (I.read_fault_count input.new)) }
    ensures sound { OnErr result
        (I.read_fault_count input.new ≡ I.read_fault_count input.old) }
    ensures taken { IsTakenFrom (I.bytes_left input.old) (I.bytes_left input.new) }
{
    let mut text = Vec::new(alloc);
    let mut buffer = [0u8; 4096];
    while text.len() <= MOST_BYTES {
        match input.read(&mut buffer) {
            Piece::Got(count) => text.extend_from_slice(&buffer[..count])?,
            Piece::Quiet => unreachable!(),
            Piece::End => return Ok(Input::Text(Octets::from(text))),
            Piece::Failed => return Ok(Input::Failed),
        }
    }
    Ok(Input::Text(Octets::from(text)))
}

/// Runs the script of a text.
fn run_text<O: Sink, E: Sink>(
    alloc: Global,
    world: &mut World,
    text: Octets,
    output: &mut O,
    errors: &mut E,
) -> Result<Status, NoMemory>
    requires fresh { world.old ≡ no_nodes }
    ensures prefix { WritesPrefix (reader_of text) (O.bytes_held output.old)
        (O.bytes_held output.new) world.new }
    ensures ends { IfOk result (λ status. RunEnds (reader_of text)
        (O.bytes_held output.old) (O.bytes_held output.new) world.new
        (O.write_fault_count output.old) (O.write_fault_count output.new)
        (E.bytes_held errors.old) (E.bytes_held errors.new)
        (E.write_fault_count errors.old) (E.write_fault_count errors.new) status.code) }
    ensures output_sound { IfOk result (λ status. status.code ≢ 5
        → O.write_fault_count output.new ≡ O.write_fault_count output.old) }
    ensures sound { OnErr result
        (O.write_fault_count output.new ≡ O.write_fault_count output.old) }
    ensures unsaid { OnErr result (errors.new ≡ errors.old) }
{
    let mut script = Script::new(text);
    let outcome = run_events(alloc, world, &mut script, output)?;
    if !output.flush() {
        return Ok(write_fault(errors));
    }
    match outcome {
        Outcome::Done => Ok(Status { code: 0 }),
        Outcome::Refused(fault) => refuse(alloc, errors, fault),
        Outcome::WriteFault => Ok(write_fault(errors)),
    }
}

/// How the events of a script ended.
#[derive(Drop)]
pub enum Outcome {
    Done,
    /// The script is refused.
    Refused(ScriptFault),
    WriteFault,
}

/// Does and reports the events of a script one after another.
fn run_events<O: Sink>(
    alloc: Global,
    world: &mut World,
    script: &mut Script,
    output: &mut O,
) -> Result<Outcome, NoMemory>
    requires fresh { world.old ≡ no_nodes }
    ensures prefix { WritesPrefix script.old (O.bytes_held output.old) (O.bytes_held output.new)
        world.new }
    ensures ends { IfOk result (Ends script.old
        (O.bytes_held output.old) (O.bytes_held output.new) world.new
        (O.write_fault_count output.old) (O.write_fault_count output.new)) }
    ensures sound { IsOutputSound result
        (O.write_fault_count output.old) (O.write_fault_count output.new) }
    ensures later { O.write_fault_count output.old ≤ O.write_fault_count output.new }
{
    loop {
        let event = match read_event(alloc, script) {
            Ok(Some(event)) => event,
            Ok(None) => return Ok(Outcome::Done),
            Err(fault) => return refused(fault),
        };
        match world.step(event) {
            Ok(lines) => {
                if !write_whole(output, lines.as_slice()) {
                    return Ok(Outcome::WriteFault);
                }
            }
            Err(fault) => return refused(fault),
        }
    }
}

/// How the events end with a refusal; out of memory is no outcome.
fn refused(fault: ScriptFault) -> Result<Outcome, NoMemory>
    ensures { IfOk result (λ outcome.
        (fault.cause ≢ NoMemory) × (outcome ≡ Outcome.Refused fault)) }
{
    match fault.cause {
        Cause::NoMemory => Err(AllocError),
        _ => Ok(Outcome::Refused(fault)),
    }
}
