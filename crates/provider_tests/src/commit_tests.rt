//! Commits to a small directory: what they touch and leave, and why they are refused.
use crate::commits::{drops_of, puts_of};
use crate::rows::push_made;
use crate::tree_lines::push_difference;
use crate::tree_rows::{Row, check_rows};
use crate::tree_writes::{NEXT, csn_of};
use dn_names::Dn;
use entry_tree::{CommitRefusal, Entry, Op, OpFault, Touched, Tree, check_content};
use ldap_ber::{NoMemory, discard};
use std::alloc::Global;
use std::test::Fail;

/// Commits to the first directory, what each touches, and whether its preview reported the same.
const COMMITS: [Row; 11] = [
    ("commit", "true"),
    // New entries, reported in ascending order; nothing asks for a superior.
    (
        "commit 9:8:ou=e,ou=z,o=x|objectClass=organizationalUnit|ou=e \
         7:9:ou=c,o=x|objectClass=organizationalUnit|ou=c",
        "+7 9 ou=c,o=x objectClass=organizationalUnit|ou=c\n\
         +9 8 ou=e,ou=z,o=x objectClass=organizationalUnit|ou=e\n\
         true",
    ),
    // In the place of an entry, with another name.
    (
        "commit 3:9:ou=d,o=x|objectClass=organizationalUnit|ou=d",
        "-3 3 ou=b,o=x objectClass=organizationalUnit|ou=b|ou=bb|l=p\n\
         +3 9 ou=d,o=x objectClass=organizationalUnit|ou=d\n\
         true",
    ),
    // Dropped, and one that is not there.
    (
        "commit -8 -5",
        "-5 5 ou=s,ou=a,o=x objectClass=organizationalUnit|ou=s\ntrue",
    ),
    // An entry with others below it.
    (
        "commit -2",
        "-2 2 ou=a,o=x objectClass=organizationalUnit|ou=a\ntrue",
    ),
    // Dropped and put: it is put.
    (
        "commit 3:9:ou=d,o=x|objectClass=organizationalUnit|ou=d -5 -3",
        "-3 3 ou=b,o=x objectClass=organizationalUnit|ou=b|ou=bb|l=p\n\
         +3 9 ou=d,o=x objectClass=organizationalUnit|ou=d\n\
         -5 5 ou=s,ou=a,o=x objectClass=organizationalUnit|ou=s\n\
         true",
    ),
    // What was there, byte for byte, also where it is dropped.
    (
        "commit 5:5:ou=s,ou=a,o=x|objectClass=organizationalUnit|ou=s",
        "true",
    ),
    (
        "commit 5:5:ou=s,ou=a,o=x|objectClass=organizationalUnit|ou=s -5",
        "true",
    ),
    // Another CSN alone.
    (
        "commit 5:6:ou=s,ou=a,o=x|objectClass=organizationalUnit|ou=s",
        "-5 5 ou=s,ou=a,o=x objectClass=organizationalUnit|ou=s\n\
         +5 6 ou=s,ou=a,o=x objectClass=organizationalUnit|ou=s\n\
         true",
    ),
    // The later of two puts of an identity.
    (
        "commit 7:9:ou=c,o=x|objectClass=organizationalUnit|ou=c \
         7:8:ou=d,o=x|objectClass=organizationalUnit|ou=d",
        "+7 8 ou=d,o=x objectClass=organizationalUnit|ou=d\ntrue",
    ),
    // The name of an entry that is dropped.
    (
        "commit 7:9:ou=B,o=x|objectClass=organizationalUnit|ou=B -3",
        "-3 3 ou=b,o=x objectClass=organizationalUnit|ou=b|ou=bb|l=p\n\
         +7 9 ou=B,o=x objectClass=organizationalUnit|ou=B\n\
         true",
    ),
];

/// Two entries go, one comes and one is replaced: what is left, what it weighs, and whether a copy
/// has the same. The units of the identities 2 and 5 weigh as much as those of 3 and 6 that are
/// put; 3 loses `bb` and `p`, with their types, of the 175 that the first entries weigh.
const LEFT: [Row; 1] = [(
    "commit 6:9:ou=f,o=x|objectClass=organizationalUnit|ou=f \
         3:9:ou=d,o=x|objectClass=organizationalUnit|ou=d -5 -2 -3 / left",
    "-2 2 ou=a,o=x objectClass=organizationalUnit|ou=a\n\
         -3 3 ou=b,o=x objectClass=organizationalUnit|ou=b|ou=bb|l=p\n\
         +3 9 ou=d,o=x objectClass=organizationalUnit|ou=d\n\
         -5 5 ou=s,ou=a,o=x objectClass=organizationalUnit|ou=s\n\
         +6 9 ou=f,o=x objectClass=organizationalUnit|ou=f\n\
         true =1 1 o=x objectClass=organization|o=x\n\
         =3 9 ou=d,o=x objectClass=organizationalUnit|ou=d\n\
         =4 4 cn=j,ou=a,o=x objectClass=inetOrgPerson|cn=j|cn=k|sn=s|employeeNumber=1\n\
         =6 9 ou=f,o=x objectClass=organizationalUnit|ou=f\n\
         137 true",
)];

/// Commits, and the two entries that would have one name.
const REFUSED: [Row; 5] = [
    (
        "commit 7:9:OU=B,o=X|objectClass=organizationalUnit|ou=b",
        "SameName(3, 7)",
    ),
    (
        "commit 3:9:ou=A,o=x|objectClass=organizationalUnit|ou=A",
        "SameName(2, 3)",
    ),
    // The first of the others.
    (
        "commit 7:9:ou=b,o=x|objectClass=organizationalUnit|ou=b \
         6:9:ou=b,o=x|objectClass=organizationalUnit|ou=b",
        "SameName(3, 6)",
    ),
    (
        "commit 7:9:ou=b,o=x|objectClass=organizationalUnit|ou=b \
         6:9:ou=b,o=x|objectClass=organizationalUnit|ou=b -3",
        "SameName(6, 7)",
    ),
    // The first whose name another has.
    (
        "commit 6:9:ou=s,ou=a,o=x|objectClass=organizationalUnit|ou=s \
         7:9:o=x|objectClass=organization|o=x",
        "SameName(1, 7)",
    ),
];

/// Three entries of which two have one name, and two of them: whether a directory may have them.
const HELD: [Row; 2] = [
    (
        "held 9:1:ou=b,o=x|objectClass=organizationalUnit|ou=b \
         6:1:ou=c,o=x|objectClass=organizationalUnit|ou=c \
         7:1:OU=B,o=x|objectClass=organizationalUnit|ou=b",
        "Err(SameName(9, 7))",
    ),
    (
        "held 6:1:ou=c,o=x|objectClass=organizationalUnit|ou=c \
         7:1:OU=B,o=x|objectClass=organizationalUnit|ou=b",
        "Ok(())",
    ),
];

#[test]
fn commits(rt: HostRuntime) -> Result<(), Fail> {
    check_rows(&rt, rt.alloc(), &COMMITS)?;
    check_rows(&rt, rt.alloc(), &LEFT)?;
    check_rows(&rt, rt.alloc(), &REFUSED)?;
    check_rows(&rt, rt.alloc(), &HELD)
}

/// Reports what a commit touches, and whether its preview reported the same, or what refuses it.
pub(crate) fn commit(
    alloc: Global,
    tree: &mut Tree,
    of: &str,
    text: &mut String,
) -> Result<(), Fail> {
    let refusal = refusal_of(alloc, tree, of)?;
    match refusal {
        Some(refusal) => push_made(text, format!(in alloc; "{refusal:?}")),
        None => commit_whole(alloc, tree, of, text),
    }
}

fn refusal_of(alloc: Global, tree: &Tree, of: &str) -> Result<Option<CommitRefusal>, Fail> {
    let puts = puts_of(alloc, of)?;
    let drops = drops_of(alloc, of)?;
    let refusal = tree.check_commit(puts.list(), drops.list()).err();
    discard(puts);
    discard(drops);
    Ok(refusal)
}

fn commit_whole(alloc: Global, tree: &mut Tree, of: &str, text: &mut String) -> Result<(), Fail> {
    let seen = previewed(alloc, tree, of)?;
    let done = applied(alloc, tree, of)?;
    let is_same = seen.as_str() == done.as_str();
    push_made(text, format!(in alloc; "{seen}{is_same}"))
}

/// What a commit to the directory would touch.
fn previewed(alloc: Global, tree: &Tree, of: &str) -> Result<String, Fail> {
    let suffix = Dn::parse(alloc, b"o=x")?;
    let csn = csn_of(alloc, NEXT)?;
    let drops = drops_of(alloc, of)?;
    let puts = puts_of(alloc, of)?;
    tree.check_commit(puts.list(), drops.list())?;
    let op = Op::Commit(puts, drops);
    let entry_changes = tree.preview(&op, &suffix, u128::from(NEXT), csn);
    discard(op);
    shown(alloc, entry_changes)
}

/// What a commit to the directory touches.
fn applied(alloc: Global, tree: &mut Tree, of: &str) -> Result<String, Fail> {
    let suffix = Dn::parse(alloc, b"o=x")?;
    let csn = csn_of(alloc, NEXT)?;
    let drops = drops_of(alloc, of)?;
    let puts = puts_of(alloc, of)?;
    tree.check_commit(puts.list(), drops.list())?;
    let op = Op::Commit(puts, drops);
    let entry_changes = tree.apply(&op, &suffix, u128::from(NEXT), csn);
    discard(op);
    shown(alloc, entry_changes)
}

fn shown(alloc: Global, outcome: Result<Touched, OpFault>) -> Result<String, Fail> {
    let entry_changes = outcome?;
    let mut text = String::new(alloc);
    let done = push_difference(alloc, &mut text, &entry_changes);
    discard(entry_changes);
    done?;
    Ok(text)
}

fn each_of(alloc: Global, entries: &[Entry]) -> Result<Vec<&Entry>, NoMemory> {
    let mut each = Vec::new(alloc);
    for entry in entries {
        each.push(entry)?;
    }
    Ok(each)
}

/// Whether a directory may have these entries.
fn held(alloc: Global, entries: &[Entry]) -> Result<(), CommitRefusal> {
    check_content(alloc, &each_of(alloc, entries)?)
}

/// Reports whether a directory may have these entries.
pub(crate) fn hold(alloc: Global, of: &str, text: &mut String) -> Result<(), Fail> {
    let entries = puts_of(alloc, of)?;
    let held = held(alloc, entries.list());
    discard(entries);
    push_made(text, format!(in alloc; "{held:?}"))
}
