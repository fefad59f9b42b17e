//! A refresh of 300 entries is cut after each of its messages, and a settling after it changes
//! nothing. The report of each would be long, so these are steps of a world, over objects in
//! memory.
use crate::tests::started;
use cascade_world::{Script, World, read_event};
use ldap_ber::{NoMemory, Octets, discard};
use std::alloc::Global;
use std::test::Fail;

/// The last lines of a settling with 300 entries.
const LARGE_CONTENT: &str =
    "stored c 300 entries 300 sha256 ba9a3ddceb2d32efebce8cd21cf1b57ee5de250918df0b577fb80232bac12619 origin p 300\nsettled c 300\n";

/// The start, and 299 units.
fn large_script(alloc: Global) -> Result<Vec<u8>, NoMemory> {
    let mut script = started(alloc, b"")?;
    for k in 0..299u32 {
        let record = format!(in alloc;
            "write p\ndn: ou=u{k},dc=x\nobjectClass: organizationalUnit\nou: u{k}\n\n"
        )?;
        script.extend_from_slice(record.as_bytes())?;
    }
    Ok(script)
}

/// More events than the scripts of these tests have.
const MOST_EVENTS: u32 = 1_000;

/// The lines of the next event of a script, or None at its end.
fn next_lines(
    alloc: Global,
    world: &mut World,
    script: &mut Script,
) -> Result<Option<Octets>, Fail> {
    match read_event(alloc, script) {
        Ok(Some(event)) => match world.step(event) {
            Ok(lines) => Ok(Some(lines)),
            Err(_) => Err(Fail::from("the event is refused")),
        },
        Ok(None) => Ok(None),
        Err(_) => Err(Fail::from("the script is refused")),
    }
}

/// The lines of the last event of a script.
pub(crate) fn last_lines(alloc: Global, world: &mut World, text: &[u8]) -> Result<Octets, Fail> {
    let mut script = Script::new(Octets::from_slice(alloc, text)?);
    let mut last = Octets::from_slice(alloc, b"")?;
    for _ in 0..MOST_EVENTS {
        match next_lines(alloc, world, &mut script)? {
            Some(lines) => last = lines,
            None => return Ok(last),
        }
    }
    Err(Fail::from("the script goes on"))
}

fn large_world(alloc: Global) -> Result<World, Fail> {
    let script = large_script(alloc)?;
    let mut world = World::new(alloc)?;
    match last_lines(alloc, &mut world, script.as_slice()) {
        Ok(_) => Ok(world),
        Err(fault) => {
            discard(world);
            Err(fault)
        }
    }
}

/// Whether the refresh of 300 entries, cut after n messages, changes nothing of a settling. Both
/// are without a cookie.
fn is_settled(alloc: Global, world: &mut World, count: u32) -> Result<bool, Fail> {
    let script = format!(in alloc;
        "lose c\nopen c once\nsend c {count}\ntake c {count}\ncut c\nlose c\nsettle c\n"
    )?;
    let lines = last_lines(alloc, world, script.as_bytes())?;
    Ok(lines.as_slice().ends_with(LARGE_CONTENT.as_bytes()))
}

/// The messages of that refresh: one for each entry, and its end.
const MESSAGES: u32 = 301;

/// How many messages there are after which a cut changes nothing.
fn settled(alloc: Global) -> Result<u32, Fail> {
    let mut world = large_world(alloc)?;
    let count = count_settled(alloc, &mut world);
    discard(world);
    count
}

fn count_settled(alloc: Global, world: &mut World) -> Result<u32, Fail> {
    let mut count = 0_u32;
    for messages in 1..=MESSAGES {
        if is_settled(alloc, world, messages)? {
            count = count.saturating_add(1);
        }
    }
    Ok(count)
}

#[test]
fn cuts_after_each_message_change_no_settling(rt: HostRuntime) -> Result<(), Fail> {
    assert!(rt; settled(rt.alloc())? == MESSAGES);
    Ok(())
}
