//! The attribute types of this directory (RFC 4512, section 2.5).
ghost use Rattle.std.specs.Prelude.{◌≡◌, ◌<◌, length, map, position, Some, IfSome};
ghost use Rattle.std.specs.Str.{str_eq_ignore_ascii_case};
ghost use Rattle.std.specs.List.{slice_index_or};
ghost use Rattle.schema_rules.specs.Rows.{listed_type};
ghost use Rattle.schema_rules.specs.Schema as schema;

use std::marker::Model;

/// How values of a type are compared.
#[derive(Clone, Copy, Debug, PartialEq, Eq)]
pub enum Rule {
    /// The name of a class, without regard to ASCII case.
    Class,
    /// Text without regard to case, with runs of spaces as one.
    Folded,
    /// As `Folded`, and ASCII alone.
    FoldedAscii,
    /// ASCII text, its case kept, with runs of spaces as one.
    ExactAscii,
    /// A whole number of 64 bits with sign.
    Whole,
    /// `TRUE` or `FALSE`.
    Flag,
    /// A date and a time of UTC.
    Time,
    /// Kept by the directory itself, and given by no client.
    Operational,
}

/// What the schema says of one type.
#[derive(Clone, Copy)]
struct TypeRow {
    name: &'static [u8],
    rule: Rule,
    single: bool,
}

macro_rules! type_rows {
    ($($name:literal $rule:ident $single:ident;)*) => {
        [$(TypeRow { name: $name, rule: Rule::$rule, single: $single }),*]
    };
}

const MANY: bool = false;

const SINGLE: bool = true;

static TYPES: [TypeRow; 24] = type_rows! {
    b"objectClass" Class MANY;
    b"cn" Folded MANY;
    b"sn" Folded MANY;
    b"givenName" Folded MANY;
    b"displayName" Folded SINGLE;
    b"uid" Folded MANY;
    b"mail" FoldedAscii MANY;
    b"title" Folded MANY;
    b"description" Folded MANY;
    b"ou" Folded MANY;
    b"o" Folded MANY;
    b"l" Folded MANY;
    b"dc" FoldedAscii SINGLE;
    b"telephoneNumber" FoldedAscii MANY;
    b"departmentNumber" Folded MANY;
    b"employeeNumber" Folded SINGLE;
    b"uidNumber" Whole SINGLE;
    b"gidNumber" Whole SINGLE;
    b"memberUid" ExactAscii MANY;
    b"homeDirectory" ExactAscii SINGLE;
    b"syncActive" Flag SINGLE;
    b"syncExpiry" Time SINGLE;
    b"entryUUID" Operational SINGLE;
    b"entryCSN" Operational SINGLE;
};

/// A type, as its number in the table of types.
#[derive(Clone, Copy, Debug, PartialEq, Eq, PartialOrd, Ord)]
pub struct AttributeType {
    number: u8,
}

impl Model for AttributeType {
    ghost use Rattle.std.specs.Prelude.{ℕ, ◌<◌};

    ghost Value = { ℕ };

    ghost view = { λ k. k.number };

    ghost invariant = { λ k. k.number < 24 };

    ghost inverse = { λ n. record { number = n } };
}

impl AttributeType {
    /// The type of this name, whatever the case of its letters.
    pub fn find(name: &[u8]) -> Option<AttributeType>
        ensures { result ≡ schema.type_named name.now }
    {
        let place = place_of(&TYPES, name)?;
        Some(AttributeType {
            number: place as u8,
        })
    }

    /// The number of the type in the table of types, from 0.
    pub fn number(&self) -> u32
        ensures { result ≡ self.now }
    {
        u32::from(self.number)
    }

    /// The name of the type, as it is written.
    pub fn name(&self) -> &'static [u8]
        ensures value { result.now ≡ schema.type_name self.now }
        ensures known { self.now < length schema.types }
        ensures found { schema.type_named (schema.type_name self.now) ≡ Some self.now }
    {
        self.row().name
    }

    /// Gives the rule by which values of the type are read and compared.
    pub fn rule(&self) -> Rule
        ensures { result ≡ schema.type_rule self.now }
    {
        self.row().rule
    }

    /// Reports whether an entry has at most one value of the type (SINGLE-VALUE of RFC 4512,
    /// section 4.1.2).
    pub fn single(&self) -> bool
        ensures { result ≡ schema.is_single self.now }
    {
        self.row().single
    }

    /// Reports whether the type is operational (RFC 4512, section 3.4), so that no client writes
    /// it.
    pub fn operational(&self) -> bool
        ensures { result ≡ schema.is_operational self.now }
    {
        matches!(self.rule(), Rule::Operational)
    }

    fn row(&self) -> &'static TypeRow
        ensures name { result.now.name.now ≡ schema.type_name self.now }
        ensures rule { result.now.rule ≡ schema.type_rule self.now }
        ensures single { result.now.single ≡ schema.is_single self.now }
        ensures known { self.now < length schema.types }
        ensures found { schema.type_named (schema.type_name self.now) ≡ Some self.now }
    {
        row_at(&TYPES, self.number as usize)
    }
}

fn row_at(rows: &'static [TypeRow], number: usize) -> &'static TypeRow
    requires { number < length rows.now }
    ensures { listed_type result.now
        ≡ slice_index_or (map listed_type rows.entry.now) number schema.no_type }
{
    &rows[number]
}

/// The place of the type of this name.
fn place_of(rows: &[TypeRow], name: &[u8]) -> Option<usize>
    ensures value { result
        ≡ position (λ row. str_eq_ignore_ascii_case row.name.now name.now) rows.now }
    ensures within { IfSome result (λ place. place < length rows.now) }
{
    rows.iter().position(|row| is_same_name(row.name, name))
}

/// Whether the names differ in the case of ASCII letters alone. Most that do not are of another
/// length, and most that do are written as they are listed.
#[tactic(auto, using(crate::proofs::Names::same_octets, crate::proofs::Names::other_lengths))]
pub(crate) fn is_same_name(one: &[u8], other: &[u8]) -> bool
    ensures { result ≡ str_eq_ignore_ascii_case one.now other.now }
{
    if one.len() != other.len() {
        return false;
    }
    if one == other {
        return true;
    }
    one.eq_ignore_ascii_case(other)
}
