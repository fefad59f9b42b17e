//! Writes to a small directory: their codes, and what they leave.
use crate::tree_rows::{Row, check_rows};
use crate::writes::values_of;
use entry_tree::{Edit, Edits};
use schema_rules::{AttributeType, How};
use std::alloc::Global;
use std::test::Fail;

/// Adds, and their codes.
const ADD_CODES: [Row; 16] = [
    // Names, types and values are read first.
    ("add zz|foo=1", "34"),
    ("add ou=c,o=x|foo=1|entryUUID=1", "17"),
    ("add ou=c,o=x|entryUUID=1|foo=1", "19"),
    ("add ou=c,o=x|ou=|foo=1", "21"),
    ("add ou=c,o=x|ou", "21"),
    ("add ou=c,o=x|ou=c|OU=C", "20"),
    ("add ou=c,o=x|ou=c|ou=C|foo=1", "17"),
    // Outside the suffix, or without a parent.
    ("add o=y|objectClass=organization|o=y", "32"),
    (
        "add ou=c,ou=z,o=x|objectClass=organizationalUnit|ou=c",
        "32",
    ),
    ("add OU=A,O=X|objectClass=top", "68"),
    ("add o=X|objectClass=organization|o=x", "68"),
    // The check of the entry, and then its RDN.
    (
        "add o=c,o=x|objectClass=organization;dcObject|o=c|dc=c;d",
        "19",
    ),
    ("add ou=c,o=x|ou=d", "65"),
    ("add ou=c,o=x|objectClass=organizationalUnit|ou=d", "64"),
    ("add ou=c+l=p,o=x|objectClass=organizationalUnit|ou=c", "64"),
    (
        "add ou=c+l=p,o=x|objectClass=organizationalUnit|ou=C|l=P",
        "0",
    ),
];

/// Removals, and their codes.
const DELETE_CODES: [Row; 5] = [
    ("delete zz", "34"),
    ("delete ou=z,o=x", "32"),
    ("delete o=x", "66"),
    ("delete ou=a,o=x", "66"),
    ("delete OU=B,O=X", "0"),
];

/// Modifications, and their codes.
const MODIFY_CODES: [Row; 26] = [
    // Edits are read, and then judged one after the other.
    ("modify zz|+foo=1", "34"),
    ("modify ou=z,o=x|+foo=1", "17"),
    ("modify ou=b,o=x|-l=|+entryCSN=1", "21"),
    ("modify ou=b,o=x|+entryCSN=1|-l=", "19"),
    ("modify ou=b,o=x|+l", "21"),
    ("modify ou=z,o=x|+l=q", "32"),
    ("modify ou=b,o=x|+l=P", "20"),
    ("modify ou=b,o=x|+description=d;D", "20"),
    ("modify ou=b,o=x|-description=d;D", "20"),
    ("modify ou=b,o=x|=description=d;D", "20"),
    ("modify ou=b,o=x|-l=p;P", "20"),
    ("modify ou=b,o=x|-l=q", "16"),
    ("modify ou=b,o=x|-l=p;q", "16"),
    ("modify ou=b,o=x|-description", "16"),
    ("modify ou=b,o=x|=description", "0"),
    ("modify ou=b,o=x|+description=d|-description=D", "0"),
    ("modify ou=b,o=x|+description=d|+description=D", "20"),
    ("modify ou=b,o=x|-description|-objectClass", "16"),
    ("modify ou=b,o=x", "0"),
    // The check of the entry, and then its RDN.
    ("modify ou=b,o=x|+mail=a@x", "65"),
    ("modify ou=b,o=x|-objectClass", "65"),
    ("modify ou=b,o=x|-ou", "65"),
    ("modify cn=j,ou=a,o=x|=employeeNumber=1;2", "19"),
    ("modify ou=b,o=x|-ou=b", "67"),
    ("modify ou=b,o=x|=ou=c", "67"),
    ("modify ou=b,o=x|-ou|+ou=B", "0"),
];

/// Renames, and their codes.
const RENAME_CODES: [Row; 16] = [
    ("rename zz|ou=c|keep", "34"),
    ("rename ou=b,o=x|foo=c|keep", "34"),
    ("rename ou=b,o=x|ou=c|keep|zz", "34"),
    ("rename ou=z,o=x|ou=c|keep", "32"),
    ("rename o=x|o=y|keep|ou=z,o=x", "32"),
    ("rename O=X|o=y|keep", "53"),
    ("rename ou=a,o=x|ou=a|keep|OU=A,o=x", "53"),
    ("rename ou=a,o=x|ou=c|keep|ou=s,ou=a,o=x", "53"),
    ("rename ou=b,o=x|ou=A|keep", "68"),
    ("rename ou=b,o=x|ou=S|keep|ou=a,o=x", "68"),
    ("rename ou=a,o=x|OU=A|drop", "0"),
    ("rename ou=b,o=x|cn=c|keep", "65"),
    ("rename ou=b,o=x|l=c|keep", "0"),
    ("rename ou=s,ou=a,o=x|l=c|drop", "65"),
    ("rename cn=j,ou=a,o=x|employeeNumber=2|keep", "19"),
    ("rename ou=a,o=x|ou=c|drop|ou=b,o=x", "0"),
];

/// Writes one after another around the greatest weight of an entry. Each value weighs its bytes and
/// those of its type's name: the suffix 25, the units 102, the person 48. The longest description
/// that the unit may get has 65,493 letters, as it weighs 11 + 18 and 2 + 1 without, and the type
/// of the description 11.
const HEAVY: [Row; 1] = [(
    "weight / long 65494 d modify ou=a,o=x|+description=* / \
         long 65493 d modify ou=a,o=x|+description=* / rename ou=a,o=x|ou=aa|drop / \
         rename ou=a,o=x|ou=c|drop / \
         long 65494 d add ou=d,o=x|objectClass=organizationalUnit|ou=d|description=* / weight",
    "175 11 0 11 0 11 65679",
)];

/// Writes to a directory whose deepest entry has 32 RDNs.
const DEEP: [Row; 1] = [
    // The deepest would have 33 RDNs below the new superior; the entry itself would have 33, twice.
    (
        "deep / len / rename ou=d,ou=b,o=x|ou=e|drop|ou=s,ou=a,o=x / \
         long 30 ou=d, rename cn=j,ou=a,o=x|cn=j|keep|*ou=b,o=x / \
         long 30 ou=d, rename cn=j,ou=a,o=x|dc=j|keep|*ou=b,o=x / \
         rename ou=d,ou=b,o=x|ou=e|drop|ou=a,o=x",
        "35 11 11 65 0",
    ),
];

#[test]
fn codes(rt: HostRuntime) -> Result<(), Fail> {
    check_rows(&rt, rt.alloc(), &ADD_CODES)?;
    check_rows(&rt, rt.alloc(), &DELETE_CODES)?;
    check_rows(&rt, rt.alloc(), &MODIFY_CODES)?;
    check_rows(&rt, rt.alloc(), &RENAME_CODES)?;
    check_rows(&rt, rt.alloc(), &HEAVY)?;
    check_rows(&rt, rt.alloc(), &DEEP)
}

/// Writes, and what they touch.
const EFFECTS: [Row; 4] = [
    (
        "touch add OU=c,o=x|objectClass=organizationalUnit|OU=c|description=d|ou=cc",
        "0 +9 9 ou=c,o=x objectClass=organizationalUnit|ou=c|ou=cc|description=d\n",
    ),
    (
        "touch delete ou=s,ou=a,o=x",
        "0 -5 5 ou=s,ou=a,o=x objectClass=organizationalUnit|ou=s\n",
    ),
    // The entries below move too, with their own RDNs, and each gets the CSN.
    (
        "touch rename ou=a,o=x|ou=n|drop|OU=B,o=x",
        "0 -2 2 ou=a,o=x objectClass=organizationalUnit|ou=a\n\
         +2 9 ou=n,ou=B,o=x objectClass=organizationalUnit|ou=n\n\
         -4 4 cn=j,ou=a,o=x objectClass=inetOrgPerson|cn=j|cn=k|sn=s|employeeNumber=1\n\
         +4 9 cn=j,ou=n,ou=B,o=x objectClass=inetOrgPerson|cn=j|cn=k|sn=s|employeeNumber=1\n\
         -5 5 ou=s,ou=a,o=x objectClass=organizationalUnit|ou=s\n\
         +5 9 ou=s,ou=n,ou=B,o=x objectClass=organizationalUnit|ou=s\n",
    ),
    (
        "touch rename cn=j,ou=a,o=x|cn=J+sn=t|drop",
        "0 -4 4 cn=j,ou=a,o=x objectClass=inetOrgPerson|cn=j|cn=k|sn=s|employeeNumber=1\n\
         +4 9 cn=J+sn=t,ou=a,o=x objectClass=inetOrgPerson|cn=j|cn=k|sn=s|sn=t|employeeNumber=1\n",
    ),
];

/// Writes that touch one entry.
const UNITS: [Row; 13] = [
    // An added value goes last, and so does an added type.
    (
        "touch modify ou=b,o=x|+ou=c|+description=d",
        "0 -3 3 ou=b,o=x objectClass=organizationalUnit|ou=b|ou=bb|l=p\n\
         +3 9 ou=b,o=x objectClass=organizationalUnit|ou=b|ou=bb|ou=c|l=p|description=d\n",
    ),
    // A replace keeps the place of a type that is there.
    (
        "touch modify ou=b,o=x|=ou=z;B",
        "0 -3 3 ou=b,o=x objectClass=organizationalUnit|ou=b|ou=bb|l=p\n\
         +3 9 ou=b,o=x objectClass=organizationalUnit|ou=z|ou=B|l=p\n",
    ),
    (
        "touch modify ou=b,o=x|=description=d|=l=q",
        "0 -3 3 ou=b,o=x objectClass=organizationalUnit|ou=b|ou=bb|l=p\n\
         +3 9 ou=b,o=x objectClass=organizationalUnit|ou=b|ou=bb|l=q|description=d\n",
    ),
    // A type without values goes.
    (
        "touch modify ou=b,o=x|=l|=description",
        "0 -3 3 ou=b,o=x objectClass=organizationalUnit|ou=b|ou=bb|l=p\n\
         +3 9 ou=b,o=x objectClass=organizationalUnit|ou=b|ou=bb\n",
    ),
    (
        "touch modify ou=b,o=x|-l=P|-ou=BB",
        "0 -3 3 ou=b,o=x objectClass=organizationalUnit|ou=b|ou=bb|l=p\n\
         +3 9 ou=b,o=x objectClass=organizationalUnit|ou=b\n",
    ),
    (
        "touch modify ou=b,o=x|-ou|+ou=b",
        "0 -3 3 ou=b,o=x objectClass=organizationalUnit|ou=b|ou=bb|l=p\n\
         +3 9 ou=b,o=x objectClass=organizationalUnit|l=p|ou=b\n",
    ),
    // The CSN alone.
    (
        "touch modify ou=b,o=x",
        "0 -3 3 ou=b,o=x objectClass=organizationalUnit|ou=b|ou=bb|l=p\n\
         +3 9 ou=b,o=x objectClass=organizationalUnit|ou=b|ou=bb|l=p\n",
    ),
    (
        "touch modify ou=b,o=x|+description=d|-description=d",
        "0 -3 3 ou=b,o=x objectClass=organizationalUnit|ou=b|ou=bb|l=p\n\
         +3 9 ou=b,o=x objectClass=organizationalUnit|ou=b|ou=bb|l=p\n",
    ),
    // A value of the new RDN goes last where it is not there, and one of the old RDN goes where
    // this is asked for.
    (
        "touch rename ou=b,o=x|OU=c|keep",
        "0 -3 3 ou=b,o=x objectClass=organizationalUnit|ou=b|ou=bb|l=p\n\
         +3 9 ou=c,o=x objectClass=organizationalUnit|ou=b|ou=bb|ou=c|l=p\n",
    ),
    (
        "touch rename ou=b,o=x|ou=c|drop",
        "0 -3 3 ou=b,o=x objectClass=organizationalUnit|ou=b|ou=bb|l=p\n\
         +3 9 ou=c,o=x objectClass=organizationalUnit|ou=bb|ou=c|l=p\n",
    ),
    (
        "touch rename ou=b,o=x|ou=B|drop",
        "0 -3 3 ou=b,o=x objectClass=organizationalUnit|ou=b|ou=bb|l=p\n\
         +3 9 ou=B,o=x objectClass=organizationalUnit|ou=b|ou=bb|l=p\n",
    ),
    (
        "touch rename ou=b,o=x|ou=BB|drop",
        "0 -3 3 ou=b,o=x objectClass=organizationalUnit|ou=b|ou=bb|l=p\n\
         +3 9 ou=BB,o=x objectClass=organizationalUnit|ou=bb|l=p\n",
    ),
    (
        "touch rename ou=b,o=x|ou=b|keep|ou=s,ou=a,o=x",
        "0 -3 3 ou=b,o=x objectClass=organizationalUnit|ou=b|ou=bb|l=p\n\
         +3 9 ou=b,ou=s,ou=a,o=x objectClass=organizationalUnit|ou=b|ou=bb|l=p\n",
    ),
];

/// Writes with their numbers: the code of a preview, whether it leaves the entries, and whether it
/// answers as the write then does.
const PREVIEWS: [Row; 16] = [
    (
        "preview 9 add ou=c,o=x|objectClass=organizationalUnit|ou=c",
        "0 true true",
    ),
    // An identity that is there.
    (
        "preview 5 add ou=c,o=x|objectClass=organizationalUnit|ou=c",
        "0 true true",
    ),
    (
        "preview 9 add ou=c,ou=z,o=x|objectClass=organizationalUnit|ou=c",
        "32 true true",
    ),
    ("preview 9 add OU=A,O=X|objectClass=top", "68 true true"),
    ("preview 9 add ou=c,o=x|ou=d", "65 true true"),
    ("preview 9 delete ou=s,ou=a,o=x", "0 true true"),
    ("preview 9 delete ou=a,o=x", "66 true true"),
    ("preview 9 delete ou=z,o=x", "32 true true"),
    (
        "preview 9 modify ou=b,o=x|+ou=c|+description=d",
        "0 true true",
    ),
    // The CSN that is there.
    ("preview 3 modify ou=b,o=x", "0 true true"),
    ("preview 9 modify ou=b,o=x|-l=q", "16 true true"),
    ("preview 9 modify ou=b,o=x|-ou=b", "67 true true"),
    // The entries below move too.
    (
        "preview 9 rename ou=a,o=x|ou=n|drop|OU=B,o=x",
        "0 true true",
    ),
    ("preview 9 rename ou=b,o=x|l=c|keep", "0 true true"),
    (
        "preview 9 rename ou=a,o=x|ou=c|keep|ou=s,ou=a,o=x",
        "53 true true",
    ),
    ("preview 9 rename ou=b,o=x|ou=A|keep", "68 true true"),
];

/// What is found of entries.
const ENTRIES: [Row; 3] = [
    // An entry that is added with an identity that is there takes the place of the other.
    (
        "len / touch 5 add ou=c,o=x|objectClass=organizationalUnit|ou=c / len",
        "5 0 -5 5 ou=s,ou=a,o=x objectClass=organizationalUnit|ou=s\n\
         +5 5 ou=c,o=x objectClass=organizationalUnit|ou=c\n 5",
    ),
    (
        "find CN=J,OU=A,O=X / name 4 CN=J,OU=A,O=X / get 9",
        "Some(4) Some(4) true none",
    ),
    // As a copy of it has it.
    (
        "get 4",
        "=4 4 cn=j,ou=a,o=x objectClass=inetOrgPerson|cn=j|cn=k|sn=s|employeeNumber=1\n",
    ),
];

/// Scopes, types and bases: whether the specification is the same as itself, and the identities of
/// the entries there that have the type.
const SELECTED: [Row; 8] = [
    ("select sub objectClass ", "true [1, 2, 3, 4, 5]"),
    ("select sub objectClass OU=A,o=x", "true [2, 4, 5]"),
    ("select one objectClass OU=A,o=x", "true [4, 5]"),
    ("select base objectClass OU=A,o=x", "true [2]"),
    ("select sub L o=x", "true [3]"),
    ("select sub foo o=x", "true []"),
    // Entries beside `ou=b,o=x`: the one's value begins as that one's does, and the other's RDN has
    // its pair with another.
    (
        "6 add ou=bb,o=x|objectClass=organizationalUnit|ou=bb / \
         7 add cn=b+ou=b,o=x|objectClass=inetOrgPerson|cn=b|sn=s|ou=b / \
         select sub objectClass OU=B,o=x / select sub objectClass ou=bb,o=x / \
         select sub objectClass ou=b+cn=b,o=x",
        "0 0 true [3] true [6] true [7]",
    ),
    // Names of which one begins another as a text, and one that has two pairs
    (
        "new / 1 add o=x|objectClass=organization|o=x / \
         2 add ou=a,o=x|objectClass=organizationalUnit|ou=a / \
         3 add ou=ab,o=x|objectClass=organizationalUnit|ou=ab / \
         4 add cn=a+ou=a,o=x|objectClass=inetOrgPerson|cn=a|ou=a|sn=s / \
         select sub objectClass ou=a,o=x / select base objectClass ou=a,o=x / \
         select one objectClass ou=a,o=x / select sub objectClass ou=ab,o=x / \
         select sub objectClass ou=a+cn=a,o=x / select one objectClass o=x / \
         select sub objectClass ",
        "0 0 0 0 true [2] true [2] true [] true [3] true [4] true [2, 3, 4] true [1, 2, 3, 4]",
    ),
];

/// Equalities directly below a base, where each entry that has the type has it as its whole RDN, and
/// where one has it otherwise. They are True of an entry some value of which matches (RFC 4511,
/// section 4.5.1.7), whatever its name.
const EQUALITIES: [Row; 6] = [
    (
        "modify ou=b,o=x|-ou=bb / select one (ou=a) o=x / select one (OU=B) O=X / \
         select one (ou=s) o=x / select one (ou=s) OU=A,o=x / select one (foo=a) o=x / \
         select base (ou=a) ou=a,o=x / select sub (ou=s) o=x",
        "0 true [2] true [3] true [] true [5] true [] true [2] true [5]",
    ),
    (
        "modify ou=b,o=x|-ou=bb / select one (&(objectClass=organizationalUnit)(ou=B)) o=x / \
         select one (&(objectClass=*)(ou=B)) o=x / select one (&(ou=b)(l=q)) o=x / \
         select one (&(ou=a)(ou=b)) o=x / select one (|(ou=a)(ou=b)) o=x / \
         select one (!(ou=a)) o=x",
        "0 true [3] true [3] true [] true [] true [2, 3] true [3]",
    ),
    // A further value, for a while.
    (
        "modify ou=b,o=x|-ou=bb / modify ou=b,o=x|+ou=A / select one (ou=a) o=x / \
         modify ou=b,o=x|-ou=a / select one (ou=a) o=x",
        "0 0 true [2, 3] 0 true [2]",
    ),
    // An entry that has a name of another type, until it goes.
    (
        "modify ou=b,o=x|-ou=bb / rename ou=b,o=x|l=p|keep / select one (ou=b) o=x / \
         modify l=p,o=x|+ou=A / select one (ou=a) o=x / delete l=p,o=x / \
         select one (ou=a) o=x / select one (ou=b) o=x",
        "0 0 true [3] 0 true [2, 3] 0 true [2] true []",
    ),
    // An RDN of two pairs.
    (
        "modify ou=b,o=x|-ou=bb / \
         add ou=c+l=d,o=x|objectClass=organizationalUnit|ou=c|l=d / \
         select one (ou=C) o=x / select one (l=d) o=x / select one (ou=a) o=x",
        "0 0 true [9] true [9] true [2]",
    ),
    // A value that is spelled otherwise than in the name.
    (
        "modify ou=b,o=x|-ou=bb / modify ou=b,o=x|-ou|+ou=B / select one (ou=b) o=x / \
         select one (ou=a) o=x",
        "0 0 true [3] true [2]",
    ),
];

#[test]
fn equalities(rt: HostRuntime) -> Result<(), Fail> {
    check_rows(&rt, rt.alloc(), &EQUALITIES)
}

#[test]
fn effects(rt: HostRuntime) -> Result<(), Fail> {
    check_rows(&rt, rt.alloc(), &EFFECTS)?;
    check_rows(&rt, rt.alloc(), &UNITS)?;
    check_rows(&rt, rt.alloc(), &PREVIEWS)?;
    check_rows(&rt, rt.alloc(), &ENTRIES)?;
    check_rows(&rt, rt.alloc(), &SELECTED)
}

/// Edits of types by their names, in order.
const EDITS: [(How, &str); 3] = [(How::Replace, "sn"), (How::Add, "cn"), (How::Delete, "sn")];

fn edits_of(alloc: Global, rows: &[(How, &str)]) -> Result<Edits, Fail> {
    let mut edits = Edits::new(alloc);
    for (how, name) in rows {
        edits.push(Edit {
            how: *how,
            kind: AttributeType::find(name.as_bytes()).ok_or(*name)?,
            values: values_of(alloc, name, ';')?,
        })?;
    }
    Ok(edits)
}

/// Whether the edit has this name, and one value.
fn is_edit(edit: &Edit, how: How, name: &str) -> bool {
    edit.how == how && edit.kind.name() == name.as_bytes() && edit.values.list().len() == 1
}

#[test]
fn edits_in_order(rt: HostRuntime) -> Result<(), Fail> {
    let edits = edits_of(rt.alloc(), &EDITS)?;
    assert!(rt; edits.list().len() == EDITS.len());
    for (edit, (how, name)) in edits.list().iter().zip(&EDITS) {
        assert!(rt; is_edit(edit, *how, name), "{name}");
    }
    Ok(())
}
