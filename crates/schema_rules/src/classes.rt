//! The object classes of this directory (RFC 4512, section 2.4).
ghost use Rattle.std.specs.Prelude.{◌≡◌, ◌<◌, ◌≤◌, ◌==◌, ◌∷◌, ◌++◌, length, map, position, bytes_eq, IfSome, OnOk, option_map};
ghost use Rattle.std.specs.Str.{str_eq_ignore_ascii_case};
ghost use Rattle.std.specs.List.{slice_index_or, list_any};
ghost use Rattle.schema_rules.specs.Rows.{listed_class};
ghost use Rattle.schema_rules.specs.Schema as schema;

use crate::types::is_same_name;
use ldap_ber::NoMemory;
use std::marker::Model;

#[derive(Clone, Copy, Debug, PartialEq, Eq)]
pub(crate) enum ClassKind {
    Abstract,
    Structural,
    Auxiliary,
}

/// What the schema says of one class.
#[derive(Clone, Copy)]
struct ClassRow {
    name: &'static [u8],
    kind: ClassKind,
    /// The name of the class that it is derived from.
    superior: Option<&'static [u8]>,
    /// The names of the types that an entry of the class has.
    must: &'static [&'static [u8]],
    /// The names of the types that it may have besides.
    may: &'static [&'static [u8]],
}

const CLASS_COUNT: usize = 10;

static CLASSES: [ClassRow; CLASS_COUNT] = [
    ClassRow {
        name: b"top",
        kind: ClassKind::Abstract,
        superior: None,
        must: &[b"objectClass"],
        may: &[],
    },
    ClassRow {
        name: b"organization",
        kind: ClassKind::Structural,
        superior: Some(b"top"),
        must: &[b"o"],
        may: &[b"description", b"l", b"telephoneNumber"],
    },
    ClassRow {
        name: b"organizationalUnit",
        kind: ClassKind::Structural,
        superior: Some(b"top"),
        must: &[b"ou"],
        may: &[b"description", b"l", b"telephoneNumber"],
    },
    ClassRow {
        name: b"person",
        kind: ClassKind::Structural,
        superior: Some(b"top"),
        must: &[b"sn", b"cn"],
        may: &[b"telephoneNumber", b"description"],
    },
    ClassRow {
        name: b"organizationalPerson",
        kind: ClassKind::Structural,
        superior: Some(b"person"),
        must: &[],
        may: &[b"title", b"ou", b"l"],
    },
    ClassRow {
        name: b"inetOrgPerson",
        kind: ClassKind::Structural,
        superior: Some(b"organizationalPerson"),
        must: &[],
        may: &[
            b"givenName",
            b"displayName",
            b"uid",
            b"mail",
            b"departmentNumber",
            b"employeeNumber",
            b"o",
        ],
    },
    ClassRow {
        name: b"posixGroup",
        kind: ClassKind::Structural,
        superior: Some(b"top"),
        must: &[b"cn", b"gidNumber"],
        may: &[b"memberUid", b"description"],
    },
    ClassRow {
        name: b"dcObject",
        kind: ClassKind::Auxiliary,
        superior: Some(b"top"),
        must: &[b"dc"],
        may: &[],
    },
    ClassRow {
        name: b"posixAccount",
        kind: ClassKind::Auxiliary,
        superior: Some(b"top"),
        must: &[b"cn", b"uid", b"uidNumber", b"gidNumber", b"homeDirectory"],
        may: &[b"description"],
    },
    ClassRow {
        name: b"syncSubject",
        kind: ClassKind::Auxiliary,
        superior: Some(b"top"),
        must: &[],
        may: &[b"syncActive", b"syncExpiry"],
    },
];

/// A class, as its number in the table of classes.
#[derive(Clone, Copy, Debug, PartialEq, Eq)]
pub(crate) struct ObjectClass {
    number: u8,
}

impl Model for ObjectClass {
    ghost use Rattle.std.specs.Prelude.{ℕ, ◌<◌};

    ghost Value = { ℕ };

    ghost view = { λ c. c.number };

    ghost invariant = { λ c. c.number < 10 };

    ghost inverse = { λ n. record { number = n } };
}

impl ObjectClass {
    /// The class of this name, whatever the case of its letters.
    pub(crate) fn find(name: &[u8]) -> Option<ObjectClass>
        ensures { result ≡ schema.class_named name.now }
    {
        let place = place_of(&CLASSES, name)?;
        Some(ObjectClass {
            number: place as u8,
        })
    }

    pub(crate) fn is_structural(&self) -> bool
        ensures { result ≡ schema.is_structural self.now }
    {
        matches!(self.row().kind, ClassKind::Structural)
    }

    /// The class that this one is derived from.
    pub(crate) fn superior(&self) -> Option<ObjectClass>
        ensures value { result ≡ schema.superior_of self.now }
        ensures line { schema.line_of self.now
            ≡ self.now ∷ schema.line_from (schema.superior_of self.now) }
        ensures lower { schema.height (schema.superior_of self.now) ≤ self.now }
    {
        ObjectClass::find(self.row().superior?)
    }

    /// Whether an entry with this class has this type, or may have it.
    pub(crate) fn allows(&self, name: &[u8]) -> bool
        ensures { result ≡ schema.allows self.now name.now }
    {
        is_among(name, self.row().must) || is_among(name, self.row().may)
    }

    /// The names of the types that an entry with this class has.
    pub(crate) fn required(&self) -> &'static [&'static [u8]]
        ensures { map (λ n. n.now) result.now ≡ schema.required_types self.now }
    {
        self.row().must
    }

    /// Whether the other class is this one or a superior of it.
    pub(crate) fn is_at_or_below(&self, other: ObjectClass) -> bool
        ensures { result ≡ list_any (λ class. class == other) (schema.line_of self.now) }
    {
        let mut next = Some(*self);
        while let Some(class) = next {
            next = class.superior();
            if class == other {
                return true;
            }
        }
        false
    }

    fn row(&self) -> &'static ClassRow
        ensures kind { result.now.kind ≡ (schema.class_row self.now).kind }
        ensures superior { option_map (λ n. n.now) result.now.superior
            ≡ (schema.class_row self.now).superior }
        ensures must { map (λ n. n.now) result.now.must.now ≡ (schema.class_row self.now).must }
        ensures may { map (λ n. n.now) result.now.may.now ≡ (schema.class_row self.now).may }
        ensures line { schema.line_of self.now
            ≡ self.now ∷ schema.line_from (schema.superior_of self.now) }
        ensures lower { schema.height (schema.superior_of self.now) ≤ self.now }
    {
        row_at(&CLASSES, self.number as usize)
    }
}

/// Puts the class and its superiors at the end, the nearest first.
pub(crate) fn push_line(line: &mut Vec<ObjectClass>, class: ObjectClass) -> Result<(), NoMemory>
    ensures { OnOk result (line.new.items ≡ line.old.items ++ schema.line_of class) }
{
    let mut next = Some(class);
    while let Some(class) = next {
        line.push(class)?;
        next = class.superior();
    }
    Ok(())
}

fn is_among(name: &[u8], names: &[&[u8]]) -> bool
    ensures { result ≡ schema.is_among name.now (map (λ n. n.now) names.now) }
{
    names.contains(&name)
}

fn row_at(rows: &'static [ClassRow], number: usize) -> &'static ClassRow
    requires { number < length rows.now }
    ensures { listed_class result.now
        ≡ slice_index_or (map listed_class rows.entry.now) number schema.no_class }
{
    &rows[number]
}

/// The place of the class of this name.
fn place_of(rows: &[ClassRow], name: &[u8]) -> Option<usize>
    ensures value { result
        ≡ position (λ row. str_eq_ignore_ascii_case row.name.now name.now) rows.now }
    ensures within { IfSome result (λ place. place < length rows.now) }
{
    rows.iter().position(|row| is_same_name(row.name, name))
}
