//! Which entry a name finds after writes, and which names are below others.
use crate::tree_rows::{Row, check_rows};
use std::test::Fail;

/// Writes, and the identity of the entry that a name finds after it, in the tree and in a copy.
const FOUND: [Row; 11] = [
    (
        "rename ou=s,ou=a,o=x|ou=t|drop / find ou=t,ou=a,o=x",
        "0 Some(5) Some(5)",
    ),
    (
        "rename ou=s,ou=a,o=x|ou=t|drop / find ou=s,ou=a,o=x",
        "0 None None",
    ),
    (
        "rename ou=a,o=x|ou=c|drop / find CN=K,OU=C,O=X",
        "0 None None",
    ),
    (
        "rename ou=a,o=x|ou=c|drop / find CN=J,OU=C,O=X",
        "0 Some(4) Some(4)",
    ),
    (
        "rename ou=a,o=x|ou=c|drop / find cn=j,ou=a,o=x",
        "0 None None",
    ),
    (
        "rename ou=a,o=x|OU=A|keep / find cn=j,ou=a,o=x",
        "0 Some(4) Some(4)",
    ),
    ("delete cn=j,ou=a,o=x / find cn=j,ou=a,o=x", "0 None None"),
    ("delete cn=j,ou=a,o=x / find ou=a,o=x", "0 Some(2) Some(2)"),
    (
        "add ou=c,o=x|objectClass=organizationalUnit|ou=c / find OU=C,o=x",
        "0 Some(9) Some(9)",
    ),
    ("modify ou=b,o=x|=l=q / find ou=b,o=x", "0 Some(3) Some(3)"),
    ("modify ou=b,o=x|=l=q / find ", "0 None None"),
];

#[test]
fn names_are_found(rt: HostRuntime) -> Result<(), Fail> {
    check_rows(&rt, rt.alloc(), &FOUND)
}

/// Entries beside `ou=b,o=x`, and the code of its removal with these: only what is below it keeps
/// it.
const BESIDE: [Row; 4] = [
    (
        "add ou=bb,o=x|objectClass=organizationalUnit|ou=bb / delete ou=b,o=x",
        "0 0",
    ),
    (
        "add ou=b,ou=a,o=x|objectClass=organizationalUnit|ou=b / delete ou=b,o=x",
        "0 0",
    ),
    (
        "add l=c+ou=b,o=x|objectClass=organizationalUnit|ou=b|l=c / delete ou=b,o=x",
        "0 0",
    ),
    (
        "add ou=c,ou=B,o=x|objectClass=organizationalUnit|ou=c / delete ou=b,o=x",
        "0 66",
    ),
];

/// A unit with 5,000 entries below it is renamed twenty times, and how many identities each of these
/// writes changes.
const MOVES: [Row; 1] = [(
    "wide 5000 / moves 20",
    "5001 5001 5001 5001 5001 5001 5001 5001 5001 5001 \
         5001 5001 5001 5001 5001 5001 5001 5001 5001 5001",
)];

#[test]
fn names_below_keep_an_entry(rt: HostRuntime) -> Result<(), Fail> {
    check_rows(&rt, rt.alloc(), &BESIDE)?;
    check_rows(&rt, rt.alloc(), &MOVES)
}
