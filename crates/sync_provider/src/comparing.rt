//! How a provider compares a value (RFC 4511, section 4.10).

ghost use Rattle.std.specs.Prelude.{◌≡◌, ◌≢◌, ◌==◌, find, IfOk};
ghost use Rattle.std.specs.Option.{option_copied};
ghost use Rattle.directory_writes.specs.Directory as directory;
ghost use Rattle.ldap_constants.specs.declared.result_codes.TheConstants as codes;
ghost use Rattle.sync_provider.specs.Comparing as comparing;

use crate::NoMemory;
use crate::sync_directory::SyncDirectory;
use dn_names::Dn;
use ldap_constants::{
    COMPARE_FALSE, COMPARE_TRUE, INVALID_ATTRIBUTE_SYNTAX, NO_SUCH_ATTRIBUTE, NO_SUCH_OBJECT,
    OTHER, UNDEFINED_ATTRIBUTE_TYPE,
};
use schema_rules::{Attribute, AttributeType, any_has_key, known_key};
use std::alloc::Global;

impl SyncDirectory {
    /// Whether the entry of that name has the value (RFC 4511, section 4.10): compareTrue where a
    /// value of that type matches, compareFalse where none does. Before that come noSuchObject
    /// where no entry has the name, undefinedAttributeType where the type is not known or is
    /// operational, invalidAttributeSyntax where the value is not of the type's syntax, and
    /// noSuchAttribute where the entry has no value of the type. It is other where memory runs out.
    pub fn compare(&self, dn: &Dn, name: &[u8], value: &[u8]) -> u32
        ensures { result ≢ codes.OTHER
            → result ≡ comparing.compare_code (directory.entries_of self.now.directory)
            dn.now name.now value.now }
    {
        match self.compared(dn, name, value) {
            Ok(code) => code,
            Err(_) => OTHER,
        }
    }

    /// The same where memory suffices.
    #[tactic(auto, using(crate::proofs::Comparisons::no_entry, crate::proofs::Comparisons::no_type, crate::proofs::Comparisons::operational_type, crate::proofs::Comparisons::typed))]
    fn compared(&self, dn: &Dn, name: &[u8], value: &[u8]) -> Result<u32, NoMemory>
        ensures { IfOk result (λ code.
            code ≡ comparing.compare_code (directory.entries_of self.now.directory)
            dn.now name.now value.now) }
    {
        let Some(entry) = self.directory.tree().find(dn) else {
            return Ok(NO_SUCH_OBJECT);
        };
        let Some(kind) = AttributeType::find(name) else {
            return Ok(UNDEFINED_ATTRIBUTE_TYPE);
        };
        if kind.operational() {
            return Ok(UNDEFINED_ATTRIBUTE_TYPE);
        }
        code_of_value(self.alloc, entry.attrs.list(), kind, value)
    }
}

/// The code of a value of a type that clients give, on these attributes.
#[tactic(auto, using(crate::proofs::Comparisons::other_syntax, crate::proofs::Comparisons::no_attribute, crate::proofs::Comparisons::value_matches, crate::proofs::Comparisons::no_value_matches))]
fn code_of_value(
    alloc: Global,
    attributes: &[Attribute],
    kind: AttributeType,
    value: &[u8],
) -> Result<u32, NoMemory>
    ensures { IfOk result (λ code. code ≡ comparing.value_code attributes.now kind value.now) }
{
    let Some(key) = known_key(alloc, kind, value)? else {
        return Ok(INVALID_ATTRIBUTE_SYNTAX);
    };
    let Some(attribute) = attribute_of(attributes, kind) else {
        return Ok(NO_SUCH_ATTRIBUTE);
    };
    if any_has_key(alloc, kind, key.as_slice(), attribute.values.list())? {
        Ok(COMPARE_TRUE)
    } else {
        Ok(COMPARE_FALSE)
    }
}

/// The attribute of that type.
fn attribute_of(attributes: &[Attribute], kind: AttributeType) -> Option<&Attribute>
    ensures { option_copied result ≡ find (λ a. a.kind == kind) attributes.now }
{
    attributes.iter().find(|attribute| attribute.kind == kind)
}
