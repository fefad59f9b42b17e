//! What one line says.
ghost use Rattle.std.specs.Prelude.{◌≡◌, Ok};
ghost use Rattle.std.specs.Str.{str_eq_ignore_ascii_case};
ghost use Rattle.ldap_ber.specs.Gives.{Gives};
ghost use Rattle.ldif_text.specs.Fault.{Refuses};
ghost use Rattle.ldif_text.specs.Field as spec;

use crate::fault::LdifFault;
use crate::lines::{Line, cut_at};
use base64::DecodeAllocError;
use base64::engine::general_purpose::STANDARD;
use ldap_ber::Octets;
use std::alloc::Global;

/// A line as a name and a value.
#[derive(Drop)]
pub struct Field {
    pub name: Octets,
    pub value: Octets,
}

/// The name before the first colon of the line, and the value after it (RFC 2849). It is `BadLine`
/// for a line that has none, continues nothing or gives a URL, `BadBase64` for a value that is not
/// in the padded standard form, or `NoMemory`.
#[tactic(auto, unfolding(crate::specs::Field::field_of))]
pub fn field_of(alloc: Global, line: &Line) -> Result<Field, LdifFault>
    ensures { Gives Refuses (λ x. Ok x) result (spec.field_of line.now) }
{
    if line.is_continuation() {
        return Err(LdifFault::BadLine(line.first));
    }
    match cut_at(line.text.as_slice(), b':') {
        (_, None) => Err(LdifFault::BadLine(line.first)),
        (name, Some(bytes)) => {
            let value = value_after(alloc, bytes, line.first)?;
            let name = Octets::from_slice(alloc, name)?;
            Ok(Field { name, value })
        }
    }
}

/// The value that stands after a colon.
fn value_after(alloc: Global, bytes: &[u8], number: u64) -> Result<Octets, LdifFault>
    ensures { Gives Refuses (λ x. Ok x) result (spec.value_after number bytes.now) }
{
    match bytes {
        [b':', encoded @ ..] => base64_value(alloc, unspaced(encoded), number),
        [b'<', ..] => Err(LdifFault::BadLine(number)),
        plain => Ok(Octets::from_slice(alloc, unspaced(plain))?),
    }
}

#[tactic(auto, unfolding(crate::specs::Field::base64_value))]
fn base64_value(alloc: Global, text: &[u8], number: u64) -> Result<Octets, LdifFault>
    ensures { Gives Refuses (λ x. Ok x) result (spec.base64_value number text.now) }
{
    match STANDARD.decode(alloc, text) {
        Ok(value) => Ok(value.into()),
        Err(DecodeAllocError::DecodeError(_)) => Err(LdifFault::BadBase64(number)),
        Err(DecodeAllocError::OutOfMemory) => Err(LdifFault::NoMemory),
    }
}

/// The bytes without the spaces at their beginning.
fn unspaced(bytes: &[u8]) -> &[u8]
    ensures { result.now ≡ spec.unspaced bytes.now }
{
    for (i, b) in bytes.iter().enumerate() {
        if *b != b' ' {
            return &bytes[i..];
        }
    }
    b""
}

/// The value of a line of this very name. Else it is a fault of `field_of`, or `BadChange`.
#[tactic(auto, unfolding(crate::specs::Field::keyword))]
pub fn keyword(alloc: Global, name: &[u8], line: &Line) -> Result<Octets, LdifFault>
    ensures { Gives Refuses (λ x. Ok x) result (spec.keyword name.now line.now) }
{
    let field = field_of(alloc, line)?;
    if field.name.as_slice() == name {
        Ok(field.value)
    } else {
        Err(LdifFault::BadChange(line.first))
    }
}

/// The value of a line of this type, whose name is without regard to ASCII case. Else it is a fault
/// of `field_of`, or `BadChange`.
#[tactic(auto, unfolding(crate::specs::Field::value_of_type))]
pub fn value_of_type(alloc: Global, name: &[u8], line: &Line) -> Result<Octets, LdifFault>
    ensures { Gives Refuses (λ x. Ok x) result (spec.value_of_type name.now line.now) }
{
    let field = field_of(alloc, line)?;
    if is_same_type(field.name.as_slice(), name) {
        Ok(field.value)
    } else {
        Err(LdifFault::BadChange(line.first))
    }
}

/// Whether two names of types differ in the case of ASCII letters alone (RFC 4512, section 2.5).
pub fn is_same_type(one: &[u8], other: &[u8]) -> bool
    ensures { result ≡ str_eq_ignore_ascii_case one.now other.now }
{
    one.eq_ignore_ascii_case(other)
}
