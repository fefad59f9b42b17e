//! What a directory reports of writes before they are done, and what then comes of them. The codes
//! are those of RFC 4511; the CSNs rise by the clock, or by the count where it stands or goes back.
ghost use Rattle.std.specs.Prelude.{◌≡◌, true, false, IfOk};
ghost use Rattle.entry_tree.specs.Fitting.{fits};
ghost use Rattle.entry_tree.specs.Sound.{is_sound_op, is_commit};
ghost use Rattle.directory_writes.specs.Directory.{entries_of};

use crate::commits::{drops_of, puts_of};
use crate::rows::{number, parted, push_counted, push_csn, push_made, push_word};
use crate::writes::change;
use directory_writes::{Directory, DirectoryCommitFault, Preview, Ready, Standing, Start};
use dn_names::Dn;
use entry_tree::{EntryChange, Op, OpFault, read_op};
use ldap_ber::{NoMemory, discard};
use std::alloc::Global;
use std::process::Abort;
use std::test::Fail;

/// Steps of a directory, each with what the clock shows, and what is reported of it. Of a write
/// that is not yet done: its CSN and a letter for each entry that it adds, changes or deletes, or
/// its code; the numbers of writes and entries then; and when it is done its code, these numbers,
/// and the last CSN. Of a commit that something rejects: that alone. A plan is a commit that is not
/// done, and turns are two, of which the second is judged as it would be after the first.
const ROWS: &str = "\
0 first => 19700101000000.000000Z#000001#001#000000 a n0 e0 c0 n1 e1 19700101000000.000000Z#000001#001#000000
0 plan 9:ou=a,dc=x 7:ou=b,dc=x => 19700101000000.000000Z#000002#001#000000 aa n1 e1
0 plan 9:ou=a,dc=x 7:ou=a,dc=x => same7,9
5 add ou=a,dc=x => 19700101000000.000005Z#000000#001#000000 a n1 e1 c0 n2 e2 19700101000000.000005Z#000000#001#000000
6 add ou=a,dc=x => c68 n2 e2 c68 n2 e2 19700101000000.000005Z#000000#001#000000
6 delete dc=x => c66 n2 e2 c66 n2 e2 19700101000000.000005Z#000000#001#000000
4 add ou=b,ou=a,dc=x => 19700101000000.000005Z#000001#001#000000 a n2 e2 c0 n3 e3 19700101000000.000005Z#000001#001#000000
1000000 rename ou=a,dc=x ou=c => 19700101000001.000000Z#000000#001#000000 cc n3 e3 c0 n4 e3 19700101000001.000000Z#000000#001#000000
1000001 delete ou=b,ou=c,dc=x => 19700101000001.000001Z#000000#001#000000 d n4 e3 c0 n5 e2 19700101000001.000001Z#000000#001#000000
1000002 delete ou=b,ou=c,dc=x => c32 n5 e2 c32 n5 e2 19700101000001.000001Z#000000#001#000000
0 commit 9:ou=b,dc=x 7:ou=a,dc=x => 19700101000001.000001Z#000001#001#000000 aa n5 e2 c0 n6 e4 19700101000001.000001Z#000001#001#000000
0 plan 9:ou=a,dc=x 7:ou=b,dc=x => 19700101000001.000001Z#000002#001#000000 cc n6 e4
0 plan 8:ou=b,dc=x 9:ou=d,dc=x => 19700101000001.000001Z#000002#001#000000 ac n6 e4
0 plan 8:ou=A,dc=x -7 => 19700101000001.000001Z#000002#001#000000 da n6 e4
0 plan 9:ou=b,dc=x => 19700101000001.000001Z#000002#001#000000  n6 e4
0 plan 8:ou=e,dc=x 9:ou=E,dc=x => same8,9
0 plan 7:ou=b,dc=x => same7,9
0 commit 9:OU=A,dc=x => same7,9
0 commit 9:OU=A,dc=x -7 => 19700101000001.000001Z#000002#001#000000 dc n6 e4 c0 n7 e3 19700101000001.000001Z#000002#001#000000
0 commit 8:ou=d,dc=x 7:ou=d,dc=x => same7,8
0 commit -7 -8 => 19700101000001.000001Z#000003#001#000000  n7 e3 c0 n8 e3 19700101000001.000001Z#000003#001#000000
0 commit 9:OU=A,dc=x -9 => 19700101000001.000001Z#000004#001#000000  n8 e3 c0 n9 e3 19700101000001.000001Z#000004#001#000000
0 since => 7 9 2 3
0 turns 10:ou=f,dc=x & 11:ou=f,dc=x => 19700101000001.000001Z#000005#001#000000 a same10,11 n9 e3
0 turns 10:ou=f,dc=x & 10:ou=g,dc=x => 19700101000001.000001Z#000005#001#000000 a 19700101000001.000001Z#000006#001#000000 c n9 e3
";

#[test]
fn writes_are_notified_before_they_are_done(rt: HostRuntime) -> Result<(), Fail> {
    let alloc = rt.alloc();
    let suffix = Dn::parse(alloc, b"dc=x")?;
    let mut directory = Directory::new(alloc, suffix, 1, 1);
    let done = check_rows(&rt, alloc, &mut directory);
    discard(directory);
    done
}

fn check_rows(rt: &impl Abort, alloc: Global, directory: &mut Directory) -> Result<(), Fail> {
    for row in ROWS.lines() {
        check_row(rt, alloc, directory, row)?;
    }
    Ok(())
}

fn check_row(
    rt: &impl Abort,
    alloc: Global,
    directory: &mut Directory,
    row: &str,
) -> Result<(), Fail> {
    let (step, wanted) = row.split_once(" => ").ok_or(row)?;
    let mut text = String::new(alloc);
    take_step(alloc, directory, step, &mut text)?;
    assert!(rt; text.as_str() == wanted, "{row}: {text}");
    Ok(())
}

fn take_step(
    alloc: Global,
    directory: &mut Directory,
    step: &str,
    text: &mut String,
) -> Result<(), Fail> {
    let (now, step) = parted(step);
    let (word, of) = parted(step);
    match word {
        "commit" => commit(alloc, directory, of, text),
        "plan" => plan(alloc, directory, of, text),
        "since" => push_since(alloc, directory, text),
        "turns" => turns(alloc, directory, of, text),
        _ => write(alloc, directory, word, of, number(now), text),
    }
}

fn write(
    alloc: Global,
    directory: &mut Directory,
    word: &str,
    of: &str,
    now: u64,
    text: &mut String,
) -> Result<(), Fail> {
    let op = sound_op(alloc, word, of)?;
    done(alloc, directory, op, now, text)
}

fn sound_op(alloc: Global, word: &str, of: &str) -> Result<Op, Fail>
    ensures sound { IfOk result (λ op. is_sound_op op ≡ true) }
    ensures asked { IfOk result (λ op. is_commit op ≡ false) }
{
    let change = change(alloc, word, of)?;
    let op = read_op(alloc, &change);
    discard(change);
    match op {
        Ok(op) => Ok(op),
        Err(OpFault::Code(_)) => Err(Fail::from("refused by its form")),
        Err(OpFault::NoMemory) => Err(Fail::from("out of memory")),
    }
}

fn commit(
    alloc: Global,
    directory: &mut Directory,
    of: &str,
    text: &mut String,
) -> Result<(), Fail> {
    let puts = puts_of(alloc, of)?;
    let drops = drops_of(alloc, of)?;
    match directory.check_commit(puts.list(), drops.list(), 0) {
        Ok(()) => done(alloc, directory, Op::Commit(puts, drops), 0, text),
        Err(fault) => push_fault(alloc, fault, text),
    }
}

/// Reports of a commit that is not done.
fn plan(alloc: Global, directory: &Directory, of: &str, text: &mut String) -> Result<(), Fail> {
    let puts = puts_of(alloc, of)?;
    let drops = drops_of(alloc, of)?;
    let preview = directory.preview_commit(puts.list(), drops.list(), 0);
    discard(puts);
    discard(drops);
    let done = push_plan(alloc, directory, &preview, text);
    discard(preview);
    done
}

fn push_plan(
    alloc: Global,
    directory: &Directory,
    preview: &Result<Preview, DirectoryCommitFault>,
    text: &mut String,
) -> Result<(), Fail> {
    push_judged(alloc, preview, text)?;
    match preview {
        Ok(_) => push_numbers(alloc, directory, text),
        Err(_) => Ok(()),
    }
}

fn push_judged(
    alloc: Global,
    preview: &Result<Preview, DirectoryCommitFault>,
    text: &mut String,
) -> Result<(), Fail> {
    match preview {
        Ok(preview) => push_planned(preview, text),
        Err(fault) => push_fault(alloc, *fault, text),
    }
}

/// Reports of two commits, with ` & ` between them, the second as it would be after the first.
/// Neither is done.
fn turns(alloc: Global, directory: &Directory, of: &str, text: &mut String) -> Result<(), Fail> {
    let (first, second) = of.split_once(" & ").ok_or(of)?;
    let ready = ready(alloc, directory.standing(), first)?;
    let judged = judge_after(alloc, &ready, second, text);
    discard(ready);
    judged?;
    push_numbers(alloc, directory, text)
}

/// Reports of a commit that is ready, and of another as it would be after it.
fn judge_after(alloc: Global, ready: &Ready, of: &str, text: &mut String) -> Result<(), Fail> {
    push_planned(&ready.preview, text)?;
    judge(alloc, &ready.after, of, text)
}

/// Makes a commit ready by what is kept beside the writes before it.
fn ready(alloc: Global, standing: &Standing, of: &str) -> Result<Ready, Fail> {
    let puts = puts_of(alloc, of)?;
    let drops = drops_of(alloc, of)?;
    let entries = puts.list();
    let identities = drops.list();
    let Ok(preview) = standing.preview_commit(entries, identities, 0) else {
        return Err(Fail::from("the first is rejected"));
    };
    let op = Op::Commit(puts, drops);
    let ready = standing.ready(&op, preview);
    discard(op);
    Ok(ready?)
}

/// Reports of a commit by what is kept beside the writes before it.
fn judge(alloc: Global, standing: &Standing, of: &str, text: &mut String) -> Result<(), Fail> {
    let puts = puts_of(alloc, of)?;
    let drops = drops_of(alloc, of)?;
    let preview = standing.preview_commit(puts.list(), drops.list(), 0);
    discard(puts);
    discard(drops);
    let done = push_judged(alloc, &preview, text);
    discard(preview);
    done
}

/// Two entries of one name, which alone may be against a commit here.
fn push_fault(alloc: Global, fault: DirectoryCommitFault, text: &mut String) -> Result<(), Fail> {
    match fault {
        DirectoryCommitFault::DuplicateName(one, other) => {
            push_made(text, format!(in alloc; "same{one},{other}"))
        }
        DirectoryCommitFault::LimitReached(_) | DirectoryCommitFault::NoMemory => Err(Fail::from(
            "a limit, or out of memory",
        )),
    }
}

/// Reports of the write, does it, and reports what came of it.
fn done(
    alloc: Global,
    directory: &mut Directory,
    op: Op,
    now: u64,
    text: &mut String,
) -> Result<(), Fail>
    requires sound { is_sound_op op ≡ true }
    requires fits { fits (entries_of directory.old.state) op ≡ true }
{
    let preview = directory.preview(&op, now);
    let notified = push_preview(alloc, directory, &preview, text);
    discard(preview);
    let code = directory.write(op, now);
    notified?;
    push_counted(alloc, text, "c", u64::from(code?))?;
    push_state(alloc, directory, text)
}

fn push_preview(
    alloc: Global,
    directory: &Directory,
    preview: &Result<Preview, OpFault>,
    text: &mut String,
) -> Result<(), Fail> {
    match preview {
        Ok(preview) => push_planned(preview, text)?,
        Err(OpFault::Code(code)) => push_counted(alloc, text, "c", u64::from(*code))?,
        Err(OpFault::NoMemory) => return Err(Fail::from("out of memory")),
    }
    push_numbers(alloc, directory, text)
}

/// Its CSN, and a letter for each entry that it adds, changes or deletes.
fn push_planned(preview: &Preview, text: &mut String) -> Result<(), Fail> {
    push_csn(text, preview.csn)?;
    push_word(text, "")?;
    Ok(push_letters(text, preview.touched.list())?)
}

/// How many writes and entries there are.
fn push_numbers(alloc: Global, directory: &Directory, text: &mut String) -> Result<(), Fail> {
    push_counted(alloc, text, "n", directory.accepted().len() as u64)?;
    push_counted(alloc, text, "e", directory.tree().len() as u64)
}

fn push_letters(text: &mut String, entry_changes: &[EntryChange]) -> Result<(), NoMemory> {
    for entry_change in entry_changes {
        text.push(match (&entry_change.before, &entry_change.after) {
            (None, _) => 'a',
            (Some(_), Some(_)) => 'c',
            (Some(_), None) => 'd',
        })?;
    }
    Ok(())
}

fn push_state(alloc: Global, directory: &Directory, text: &mut String) -> Result<(), Fail> {
    push_numbers(alloc, directory, text)?;
    match directory.accepted().last() {
        Some(write) => push_csn(text, write.csn),
        None => push_word(text, "none"),
    }
}

/// The identities that were touched after the first write, each by its last 62 bits, which are the
/// number of the write that gave it.
fn push_since(alloc: Global, directory: &Directory, text: &mut String) -> Result<(), Fail> {
    if directory.accepted().is_empty() {
        return Err(Fail::from("no write"));
    }
    let Start::DeletePhase(number) = directory.start_at(Some(1)) else {
        return Err(Fail::from("the log is too short"));
    };
    for uuid in &directory.touched_since(number)? {
        push_counted(alloc, text, "", (*uuid % (1 << 62)) as u64)?;
    }
    Ok(())
}
