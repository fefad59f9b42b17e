//! Records and texts from outside: after the examples of RFC 2849, and its rules one by one.
use crate::assertions::{Row, assert_same, shown};
use csn_cookie::Csn;
use ldap_ber::{NoMemory, Octets, OctetsList, discard};
use ldif_text::{LdifFault, Records, write_entry};
use schema_rules::{Attrs, Change, EditList, How, RawAttribute, RawList, SchemaFault};
use std::alloc::{AllocError, Global};
use std::process::Abort;

/// Appends the type with its values, as ` cn|a|b`.
fn push_attribute(text: &mut Vec<u8>, attribute: &RawAttribute) -> Result<(), NoMemory> {
    text.push(b' ')?;
    text.extend_from_slice(attribute.name.as_slice())?;
    for value in attribute.values.list() {
        text.push(b'|')?;
        text.extend_from_slice(value.as_slice())?;
    }
    Ok(())
}

fn push_word(text: &mut Vec<u8>, word: &[u8], name: &[u8]) -> Result<(), NoMemory> {
    text.extend_from_slice(word)?;
    text.push(b' ')?;
    text.extend_from_slice(name)?;
    Ok(())
}

/// Appends the added entry.
fn push_add(text: &mut Vec<u8>, name: &Octets, list: &RawList) -> Result<(), NoMemory> {
    push_word(text, b"add", name.as_slice())?;
    for attribute in list.list() {
        push_attribute(text, attribute)?;
    }
    Ok(())
}

fn sign_of(how: How) -> &'static [u8] {
    match how {
        How::Add => b" +",
        How::Delete => b" -",
        How::Replace => b" =",
    }
}

/// Appends the entry with its edits, each after its sign.
fn push_modify(text: &mut Vec<u8>, name: &Octets, edits: &EditList) -> Result<(), NoMemory> {
    push_word(text, b"modify", name.as_slice())?;
    for edit in edits.list() {
        text.extend_from_slice(sign_of(edit.how))?;
        push_attribute(text, &edit.attribute)?;
    }
    Ok(())
}

fn push_superior(text: &mut Vec<u8>, superior: &Option<Octets>) -> Result<(), NoMemory> {
    match superior {
        Some(superior) => push_word(text, b" below", superior.as_slice()),
        None => Ok(()),
    }
}

/// Appends the entry with what its name becomes.
fn push_rename(
    text: &mut Vec<u8>,
    name: &Octets,
    rdn: &Octets,
    drops: bool,
    superior: &Option<Octets>,
) -> Result<(), NoMemory> {
    push_word(text, b"rename", name.as_slice())?;
    push_word(text, b" to", rdn.as_slice())?;
    if drops {
        text.extend_from_slice(b" dropping")?;
    }
    push_superior(text, superior)
}

fn push_change(text: &mut Vec<u8>, change: &Change) -> Result<(), NoMemory> {
    match change {
        Change::Add(name, list) => push_add(text, name, list),
        Change::Delete(name) => push_word(text, b"delete", name.as_slice()),
        Change::Modify(name, list) => push_modify(text, name, list),
        Change::Rename(name, rdn, drops, superior) => {
            push_rename(text, name, rdn, *drops, superior)
        }
    }
}

/// Appends the record with the number of its last line, after which the reading goes on.
fn push_record(
    alloc: Global,
    text: &mut Vec<u8>,
    change: &Change,
    line: u64,
) -> Result<bool, NoMemory> {
    push_change(text, change)?;
    let line = format!(in alloc; " @{line}\n")?;
    text.extend_from_slice(line.as_bytes())?;
    Ok(true)
}

/// Appends what refuses the text, with which the reading ends.
fn push_fault(alloc: Global, text: &mut Vec<u8>, fault: LdifFault) -> Result<bool, NoMemory> {
    if fault == LdifFault::NoMemory {
        return Err(AllocError);
    }
    text.extend_from_slice(shown(alloc, &fault)?.as_bytes())?;
    Ok(false)
}

fn push_end(text: &mut Vec<u8>) -> Result<bool, NoMemory> {
    text.extend_from_slice(b"end")?;
    Ok(false)
}

/// Appends what was read, or how the reading ends, and answers whether it goes on.
fn push_read(
    alloc: Global,
    text: &mut Vec<u8>,
    read: &Result<Option<Change>, LdifFault>,
    line: u64,
) -> Result<bool, NoMemory> {
    match read {
        Ok(Some(change)) => push_record(alloc, text, change, line),
        Ok(None) => push_end(text),
        Err(fault) => push_fault(alloc, text, *fault),
    }
}

/// Appends the next record, or how the reading ends, and answers whether it goes on.
fn push_next(alloc: Global, text: &mut Vec<u8>, records: &mut Records) -> Result<bool, NoMemory> {
    let read = records.next(alloc);
    let goes_on = push_read(alloc, text, &read, records.line());
    discard(read);
    goes_on
}

/// The records of the text, each with the number of its last line, and how the reading ends.
fn reported(alloc: Global, text: &[u8]) -> Result<Vec<u8>, NoMemory> {
    let mut records = Records::new(text, 1);
    let mut reported = Vec::new(alloc);
    for _ in 0..10 {
        if !push_next(alloc, &mut reported, &mut records)? {
            break;
        }
    }
    Ok(reported)
}

/// The examples 1 to 7 of RFC 2849, and what is read of each. Left out are the empty lines that the
/// ends of pages put into 4, 5 and 6, one comment of 4, and the line of 6 that has a URL.
const EXAMPLES: [Row; 7] = [
    (
        "version: 1
dn: cn=Barbara Jensen, ou=Product Development, dc=airius, dc=com
objectclass: top
objectclass: person
objectclass: organizationalPerson
cn: Barbara Jensen
cn: Barbara J Jensen
cn: Babs Jensen
sn: Jensen
uid: bjensen
telephonenumber: +1 408 555 1212
description: A big sailing fan.

dn: cn=Bjorn Jensen, ou=Accounting, dc=airius, dc=com
objectclass: top
objectclass: person
objectclass: organizationalPerson
cn: Bjorn Jensen
sn: Jensen
telephonenumber: +1 408 555 1212
",
        "add cn=Barbara Jensen, ou=Product Development, dc=airius, dc=com objectclass|top|person|organizationalPerson cn|Barbara Jensen|Barbara J Jensen|Babs Jensen sn|Jensen uid|bjensen telephonenumber|+1 408 555 1212 description|A big sailing fan. @12
add cn=Bjorn Jensen, ou=Accounting, dc=airius, dc=com objectclass|top|person|organizationalPerson cn|Bjorn Jensen sn|Jensen telephonenumber|+1 408 555 1212 @20
end",
    ),
    (
        "version: 1
dn:cn=Barbara Jensen, ou=Product Development, dc=airius, dc=com
objectclass:top
objectclass:person
objectclass:organizationalPerson
cn:Barbara Jensen
cn:Barbara J Jensen
cn:Babs Jensen
sn:Jensen
uid:bjensen
telephonenumber:+1 408 555 1212
description:Babs is a big sailing fan, and travels extensively in sea
 rch of perfect sailing conditions.
title:Product Manager, Rod and Reel Division
",
        "add cn=Barbara Jensen, ou=Product Development, dc=airius, dc=com objectclass|top|person|organizationalPerson cn|Barbara Jensen|Barbara J Jensen|Babs Jensen sn|Jensen uid|bjensen telephonenumber|+1 408 555 1212 description|Babs is a big sailing fan, and travels extensively in search of perfect sailing conditions. title|Product Manager, Rod and Reel Division @14
end",
    ),
    (
        "version: 1
dn: cn=Gern Jensen, ou=Product Testing, dc=airius, dc=com
objectclass: top
objectclass: person
objectclass: organizationalPerson
cn: Gern Jensen
cn: Gern O Jensen
sn: Jensen
uid: gernj
telephonenumber: +1 408 555 1212
description:: V2hhdCBhIGNhcmVmdWwgcmVhZGVyIHlvdSBhcmUhICBUaGlzIHZhbHVl
 IGlzIGJhc2UtNjQtZW5jb2RlZCBiZWNhdXNlIGl0IGhhcyBhIGNvbnRyb2wgY2hhcmFjdG
 VyIGluIGl0IChhIENSKS4NICBCeSB0aGUgd2F5LCB5b3Ugc2hvdWxkIHJlYWxseSBnZXQg
 b3V0IG1vcmUu
",
        "add cn=Gern Jensen, ou=Product Testing, dc=airius, dc=com objectclass|top|person|organizationalPerson cn|Gern Jensen|Gern O Jensen sn|Jensen uid|gernj telephonenumber|+1 408 555 1212 description|What a careful reader you are!  This value is base-64-encoded because it has a control character in it (a CR).\r  By the way, you should really get out more. @14
end",
    ),
    // Types are not checked in reading.
    (
        "version: 1
dn:: b3U95Za25qWt6YOoLG89QWlyaXVz
# dn:: ou=<JapaneseOU>,o=Airius
objectclass: top
objectclass: organizationalUnit
ou:: 5Za25qWt6YOo
# ou:: <JapaneseOU>
ou;lang-ja:: 5Za25qWt6YOo
# ou;lang-ja:: <JapaneseOU>
ou;lang-ja;phonetic:: 44GI44GE44GO44KH44GG44G2
# ou;lang-ja:: <JapaneseOU_in_phonetic_representation>
ou;lang-en: Sales
description: Japanese office

dn:: dWlkPXJvZ2FzYXdhcmEsb3U95Za25qWt6YOoLG89QWlyaXVz
# dn:: uid=<uid>,ou=<JapaneseOU>,o=Airius
userpassword: {SHA}O3HSv1MusyL4kTjP+HKI5uxuNoM=
objectclass: top
objectclass: person
objectclass: organizationalPerson
objectclass: inetOrgPerson
uid: rogasawara
mail: rogasawara@airius.co.jp
givenname;lang-ja:: 44Ot44OJ44OL44O8
# givenname;lang-ja:: <JapaneseGivenname>
sn;lang-ja:: 5bCP56yg5Y6f
# sn;lang-ja:: <JapaneseSn>
cn;lang-ja:: 5bCP56yg5Y6fIOODreODieODi+ODvA==
# cn;lang-ja:: <JapaneseCn>
title;lang-ja:: 5Za25qWt6YOoIOmDqOmVtw==
# title;lang-ja:: <JapaneseTitle>
preferredlanguage: ja
givenname:: 44Ot44OJ44OL44O8
# givenname:: <JapaneseGivenname>
sn:: 5bCP56yg5Y6f
# sn:: <JapaneseSn>
cn:: 5bCP56yg5Y6fIOODreODieODi+ODvA==
# cn:: <JapaneseCn>
title:: 5Za25qWt6YOoIOmDqOmVtw==
# title:: <JapaneseTitle>
givenname;lang-ja;phonetic:: 44KN44Gp44Gr44O8
sn;lang-ja;phonetic:: 44GK44GM44GV44KP44KJ
# sn;lang-ja;phonetic:: <JapaneseSn_in_phonetic_representation_kana>
cn;lang-ja;phonetic:: 44GK44GM44GV44KP44KJIOOCjeOBqeOBq+ODvA==
# cn;lang-ja;phonetic:: <JapaneseCn_in_phonetic_representation_kana>
title;lang-ja;phonetic:: 44GI44GE44GO44KH44GG44G2IOOBtuOBoeOCh+OBhg==
# title;lang-ja;phonetic::
# <JapaneseTitle_in_phonetic_representation_kana>
givenname;lang-en: Rodney
sn;lang-en: Ogasawara
cn;lang-en: Rodney Ogasawara
title;lang-en: Sales, Director
",
        "add ou=営業部,o=Airius objectclass|top|organizationalUnit ou|営業部 ou;lang-ja|営業部 ou;lang-ja;phonetic|えいぎょうぶ ou;lang-en|Sales description|Japanese office @13
add uid=rogasawara,ou=営業部,o=Airius userpassword|{SHA}O3HSv1MusyL4kTjP+HKI5uxuNoM= objectclass|top|person|organizationalPerson|inetOrgPerson uid|rogasawara mail|rogasawara@airius.co.jp givenname;lang-ja|ロドニー sn;lang-ja|小笠原 cn;lang-ja|小笠原 ロドニー title;lang-ja|営業部 部長 preferredlanguage|ja givenname|ロドニー sn|小笠原 cn|小笠原 ロドニー title|営業部 部長 givenname;lang-ja;phonetic|ろどにー sn;lang-ja;phonetic|おがさわら cn;lang-ja;phonetic|おがさわら ろどにー title;lang-ja;phonetic|えいぎょうぶ ぶちょう givenname;lang-en|Rodney sn;lang-en|Ogasawara cn;lang-en|Rodney Ogasawara title;lang-en|Sales, Director @52
end",
    ),
    // A URL in place of a value.
    (
        "version: 1
dn: cn=Horatio Jensen, ou=Product Testing, dc=airius, dc=com
objectclass: top
objectclass: person
objectclass: organizationalPerson
cn: Horatio Jensen
cn: Horatio N Jensen
sn: Jensen
uid: hjensen
telephonenumber: +1 408 555 1212
jpegphoto:< file:///usr/local/directory/photos/hjensen.jpg
",
        "BadLine(11)",
    ),
    (
        "version: 1
# Add a new entry
dn: cn=Fiona Jensen, ou=Marketing, dc=airius, dc=com
changetype: add
objectclass: top
objectclass: person
objectclass: organizationalPerson
cn: Fiona Jensen
sn: Jensen
uid: fiona
telephonenumber: +1 408 555 1212

# Delete an existing entry
dn: cn=Robert Jensen, ou=Marketing, dc=airius, dc=com
changetype: delete

# Modify an entry's relative distinguished name
dn: cn=Paul Jensen, ou=Product Development, dc=airius, dc=com
changetype: modrdn
newrdn: cn=Paula Jensen
deleteoldrdn: 1

# Rename an entry and move all of its children to a new location in
# the directory tree (only implemented by LDAPv3 servers).
dn: ou=PD Accountants, ou=Product Development, dc=airius, dc=com
changetype: modrdn
newrdn: ou=Product Development Accountants
deleteoldrdn: 0
newsuperior: ou=Accounting, dc=airius, dc=com

# Modify an entry: add an additional value to the postaladdress
# attribute, completely delete the description attribute, replace
# the telephonenumber attribute with two values, and delete a specific
# value from the facsimiletelephonenumber attribute
dn: cn=Paula Jensen, ou=Product Development, dc=airius, dc=com
changetype: modify
add: postaladdress
postaladdress: 123 Anystreet $ Sunnyvale, CA $ 94086
-
delete: description
-
replace: telephonenumber
telephonenumber: +1 408 555 1234
telephonenumber: +1 408 555 5678
-
delete: facsimiletelephonenumber
facsimiletelephonenumber: +1 408 555 9876
-

# Modify an entry: replace the postaladdress attribute with an empty
# set of values (which will cause the attribute to be removed), and
# delete the entire description attribute. Note that the first will
# always succeed, while the second will only succeed if at least
# one value for the description attribute is present.
dn: cn=Ingrid Jensen, ou=Product Support, dc=airius, dc=com
changetype: modify
replace: postaladdress
-
delete: description
-
",
        "add cn=Fiona Jensen, ou=Marketing, dc=airius, dc=com objectclass|top|person|organizationalPerson cn|Fiona Jensen sn|Jensen uid|fiona telephonenumber|+1 408 555 1212 @11
delete cn=Robert Jensen, ou=Marketing, dc=airius, dc=com @15
rename cn=Paul Jensen, ou=Product Development, dc=airius, dc=com to cn=Paula Jensen dropping @21
rename ou=PD Accountants, ou=Product Development, dc=airius, dc=com to ou=Product Development Accountants below ou=Accounting, dc=airius, dc=com @29
modify cn=Paula Jensen, ou=Product Development, dc=airius, dc=com + postaladdress|123 Anystreet $ Sunnyvale, CA $ 94086 - description = telephonenumber|+1 408 555 1234|+1 408 555 5678 - facsimiletelephonenumber|+1 408 555 9876 @48
modify cn=Ingrid Jensen, ou=Product Support, dc=airius, dc=com = postaladdress - description @60
end",
    ),
    // What follows the name is no `changetype:`, so these are the attributes of an add.
    (
        "version: 1
# Delete an entry. The operation will attach the LDAPv3
# Tree Delete Control defined in [9]. The criticality
# field is \"true\" and the controlValue field is
# absent, as required by [9].
dn: ou=Product Development, dc=airius, dc=com
control: 1.2.840.113556.1.4.805 true
changetype: delete
",
        "add ou=Product Development, dc=airius, dc=com control|1.2.840.113556.1.4.805 true changetype|delete @8
end",
    ),
];

const RULES: [Row; 45] = [
    ("", "end"),
    ("\n# c\n d\n\n", "end"),
    ("dn: a\r\ncn:  x \r\n", "add a cn|x  @2\nend"),
    ("dn: a\nCN: x\nsn: y\ncn: z", "add a CN|x|z sn|y @4\nend"),
    ("dn: a\ncn: x\n# c\n d\n", "add a cn|x @2\nend"),
    (
        "dn: a\ncn: x\n \n y\n\n\ndn: b\nsn:",
        "add a cn|xy @4\nadd b sn| @8\nend",
    ),
    ("dn:: YQ==\ncn: <x\nsn: :y\n", "add a cn|<x sn|:y @3\nend"),
    (
        "version: 1\n\n# c\n\ndn: a\nchangetype: delete",
        "delete a @6\nend",
    ),
    ("dn: a\nchangetype: modify\n", "modify a @2\nend"),
    (
        "dn: a\nchangetype: modify\nadd: cn\nCN: x",
        "modify a + cn|x @4\nend",
    ),
    (
        "dn: a\nchangetype: modify\nreplace: cn\n-\n",
        "modify a = cn @4\nend",
    ),
    ("dn: a\nchangetype:: ZGVsZXRl\n", "delete a @2\nend"),
    ("dn: a\ncontrol: 1\n", "add a control|1 @2\nend"),
    // Lines that are no lines of a record.
    (" dn: a\n", "BadLine(1)"),
    ("dn: a\ncn: x\n\n y\n", "add a cn|x @2\nBadLine(4)"),
    ("dn: a\ncn\n", "BadLine(2)"),
    ("dn: a\ncn:< file:///x\n", "BadLine(2)"),
    ("dn: a\ncn:<x\n", "BadLine(2)"),
    ("dn: a\n-\n", "BadLine(2)"),
    ("dn: a\nchangetype: modify\n-\n", "BadLine(3)"),
    ("dn: a\nchangetype: modify\nadd: cn\n-\n-\n", "BadLine(5)"),
    ("dn: a\nchangetype: delete\n-\n", "BadLine(3)"),
    // Values that are not in the padded standard form.
    ("dn: a\ncn:: eA\n", "BadBase64(2)"),
    ("dn: a\ncn:: eB==\n", "BadBase64(2)"),
    ("dn: a\ncn:: eA==x\n", "BadBase64(2)"),
    ("dn: a\ncn:: eA=\n = \n", "BadBase64(2)"),
    // Other departures, at their line or at the last one.
    ("version: 1\n# c\n", "BadChange(1)"),
    ("version: 2\ndn: a\ncn: x\n", "BadChange(1)"),
    (
        "dn: a\ncn: x\n\nversion: 1\ndn: b\n",
        "add a cn|x @2\nBadChange(4)",
    ),
    ("cn: a\n", "BadChange(1)"),
    ("DN: a\ncn: x\n", "BadChange(1)"),
    ("dn: a\n b\n# c\n", "BadChange(2)"),
    ("dn: a\nchangetype: add\n", "BadChange(2)"),
    ("dn: a\nchangetype: moved\n", "BadChange(2)"),
    ("dn: a\nchangetype: delete\ncn: x\n", "BadChange(3)"),
    ("dn: a\nchangetype: delete\ncontrol: 1\n", "BadChange(3)"),
    (
        "dn: a\nchangetype: modify\nadd: cn\ncn: x\nadd: sn\n",
        "BadChange(5)",
    ),
    (
        "dn: a\nchangetype: modify\nincrement: uidNumber\n",
        "BadChange(3)",
    ),
    (
        "dn: a\nchangetype: modify\nadd: cn\nsn: x\n",
        "BadChange(4)",
    ),
    ("dn: a\nchangetype: modrdn\n", "BadChange(2)"),
    (
        "dn: a\nchangetype: modrdn\nnewrdn: b\n \n\n",
        "BadChange(4)",
    ),
    (
        "dn: a\nchangetype: modrdn\nnewrdn: b\ndeleteoldrdn: 2\n",
        "BadChange(4)",
    ),
    (
        "dn: a\nchangetype: modrdn\ndeleteoldrdn: 1\nnewrdn: b\n",
        "BadChange(3)",
    ),
    (
        "dn: a\nchangetype: moddn\nnewrdn: b\ndeleteoldrdn: 1\nsuperior: c\n",
        "BadChange(5)",
    ),
    (
        "dn: a\nchangetype: moddn\nnewrdn: b\ndeleteoldrdn: 1\nnewsuperior: c\ncn: x\n",
        "BadChange(6)",
    ),
];

fn check_rows(rt: &impl Abort, alloc: Global, rows: &[Row]) {
    for (text, wanted) in rows {
        let found = reported(alloc, text.as_bytes()).expect(rt, text);
        assert_same(rt, text, &found.as_slice(), &wanted.as_bytes());
    }
}

#[test]
fn records(rt: HostRuntime) {
    check_rows(&rt, rt.alloc(), &EXAMPLES);
    check_rows(&rt, rt.alloc(), &RULES);
    check_refusals(&rt, rt.alloc());
    check_million(&rt, rt.alloc());
}

/// A refusal changes nothing: what is reported of a text that is read on after it, which begins at
/// line 7.
const REFUSED_TWICE: &str = "add a cn|x @8\nBadLine(11)BadLine(11)";

fn check_refusals(rt: &impl Abort, alloc: Global) {
    let mut records = Records::new(b"dn: a\ncn: x\n\ndn: b\ncn\n", 7);
    assert_same(rt, "first line", &records.line(), &7);
    let reported = three_reported(alloc, &mut records).expect(rt, "memory");
    let wanted = REFUSED_TWICE.as_bytes();
    assert_same(rt, "refusals", &reported.as_slice(), &wanted);
    assert_same(rt, "last line", &records.line(), &8);
}

fn three_reported(alloc: Global, records: &mut Records) -> Result<Vec<u8>, NoMemory> {
    let mut reported = Vec::new(alloc);
    for _ in 0..3 {
        push_next(alloc, &mut reported, records)?;
    }
    Ok(reported)
}

/// The types and values of an entry.
type Lines = &'static [(&'static [u8], &'static [u8])];

fn raw_attribute(alloc: Global, name: &[u8], value: &[u8]) -> Result<RawAttribute, NoMemory> {
    let mut values = OctetsList::new(alloc);
    values.push(Octets::from_slice(alloc, value)?)?;
    let name = Octets::from_slice(alloc, name)?;
    Ok(RawAttribute { name, values })
}

fn raw_list(alloc: Global, lines: Lines) -> Result<RawList, NoMemory> {
    let mut list = RawList::new(alloc);
    for (name, value) in lines {
        list.push(raw_attribute(alloc, name, value)?)?;
    }
    Ok(list)
}

/// A name, what its entry has, the identity and the CSN, and the lines of it all.
type Marked = (&'static [u8], Lines, u128, &'static [u8], &'static [u8]);

const MARKED: [Marked; 2] = [
    (
        b"dc=x",
        &[
            (b"objectClass", b"organization"),
            (b"objectClass", b"dcObject"),
            (b"o", b"X"),
            (b"dc", b"x"),
        ],
        0x0000_0000_0001_8000_8000_0000_0000_0001,
        b"19700101000000.000000Z#000001#001#000000",
        b"dn: dc=x
objectClass: organization
objectClass: dcObject
o: X
dc: x
entryUUID: 00000000-0001-8000-8000-000000000001
entryCSN: 19700101000000.000000Z#000001#001#000000

",
    ),
    (
        b"ou=a,dc=x",
        &[(b"objectClass", b"organizationalUnit"), (b"ou", b"a")],
        0x0000_0000_0001_8000_8000_0000_0000_0002,
        b"19700101000000.000000Z#000002#001#000000",
        b"dn: ou=a,dc=x
objectClass: organizationalUnit
ou: a
entryUUID: 00000000-0001-8000-8000-000000000002
entryCSN: 19700101000000.000000Z#000002#001#000000

",
    ),
];

/// The lines of a name and an entry with its operational attributes.
fn written(
    alloc: Global,
    name: &[u8],
    lines: Lines,
    operational: Option<(u128, Csn)>,
) -> Result<Vec<u8>, SchemaFault> {
    let list = raw_list(alloc, lines)?;
    let attrs = Attrs::read(alloc, &list)?;
    Ok(write_entry(alloc, name, &attrs, operational)?)
}

fn check_marked(rt: &impl Abort, alloc: Global, row: &Marked) {
    let (name, lines, uuid, csn, wanted) = *row;
    let csn = Csn::parse(csn).expect(rt, "a CSN");
    let found = written(alloc, name, lines, Some((uuid, csn)));
    let found = found.expect(rt, "an entry");
    assert_same(rt, "entry", &found.as_slice(), &wanted);
}

/// Names, and the lines that they are written on.
const NAMES: [Row; 15] = [
    ("", "dn: \n\n"),
    ("cn=x", "dn: cn=x\n\n"),
    ("a: b <c>", "dn: a: b <c>\n\n"),
    ("#x", "dn: #x\n\n"),
    ("\x7f", "dn: \x7f\n\n"),
    ("a\tb", "dn: a\tb\n\n"),
    (" ", "dn:: IA==\n\n"),
    (" x", "dn:: IHg=\n\n"),
    ("x ", "dn:: eCA=\n\n"),
    (":x", "dn:: Ong=\n\n"),
    ("<x", "dn:: PHg=\n\n"),
    ("\x00", "dn:: AA==\n\n"),
    ("a\nb", "dn:: YQpi\n\n"),
    ("a\rb", "dn:: YQ1i\n\n"),
    ("é", "dn:: w6k=\n\n"),
];

fn assert_line(rt: &impl Abort, alloc: Global, name: &[u8], want: &str) {
    let found = written(alloc, name, &[], None).expect(rt, want);
    assert_same(rt, want, &found.as_slice(), &want.as_bytes());
}

fn check_lines(rt: &impl Abort, alloc: Global) {
    for (name, wanted) in &NAMES {
        assert_line(rt, alloc, name.as_bytes(), wanted);
    }
    assert_line(rt, alloc, b"\xff", "dn:: /w==\n\n");
}

#[test]
fn entries(rt: HostRuntime) {
    for row in &MARKED {
        check_marked(&rt, rt.alloc(), row);
    }
    check_lines(&rt, rt.alloc());
}

/// A record of a million lines: comments, values, and what continues those.
fn million_lines(alloc: Global) -> Result<Vec<u8>, NoMemory> {
    let mut text = Vec::from_slice(alloc, b"dn: a\n")?;
    for _ in 0..333_333 {
        text.extend_from_slice(b"# c\ncn: x\n y\n")?;
    }
    Ok(text)
}

/// How many values the one attribute of an added entry has, or 0 for any other change.
fn added_values(change: &Option<Change>) -> usize {
    match change {
        Some(Change::Add(_, list)) => match list.list() {
            [attribute] => attribute.values.list().len(),
            _ => 0,
        },
        _ => 0,
    }
}

/// How many values the first record adds, and the line after it.
fn first_added(alloc: Global, text: &[u8]) -> Result<(usize, u64), LdifFault> {
    let mut records = Records::new(text, 1);
    let change = records.next(alloc)?;
    let values = added_values(&change);
    discard(change);
    Ok((values, records.line()))
}

fn check_million(rt: &impl Abort, alloc: Global) {
    let text = million_lines(alloc).expect(rt, "memory");
    let found = first_added(alloc, text.as_slice()).expect(rt, "a record");
    assert_same(rt, "a million lines", &found, &(333_333, 1_000_000));
}
