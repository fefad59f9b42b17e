//! Laws of elements and their spellings.

ghost use Rattle.std.specs.Prelude.{◌≡◌, ◌≢◌, ℕ, ◌<◌, ◌≤◌, ◌^◌, ◌%◌, List, [], ◌++◌, length, All, Ok, Err, ℤ, FitsSigned};
ghost use Rattle.ldap_ber.specs.declared.fault.BerKind.TheVariants.{Short};
ghost use Rattle.std.specs.Int.{w64};
ghost use Rattle.ldap_ber.specs.Element.{Begins, IsLength, integer_of};
ghost use Rattle.ldap_ber.specs.Reader.{fault, element_at};
ghost use Rattle.ldap_ber.specs.Reading.{octets_at};
ghost use Rattle.ldap_ber.specs.Canonical.{element, length_octets, integer_octets, IsShortest};

/// What is read was spelled so, and what is spelled so is read.
pub fn elements_are_read()
    ensures found { (tag stop : ℕ) (bytes body rest : List ℕ)
        → octets_at tag stop bytes ≡ Ok (body, rest) → Begins bytes tag body rest }
    ensures only { (tag stop : ℕ) (bytes body rest : List ℕ)
        → Begins bytes tag body rest → octets_at tag stop bytes ≡ Ok (body, rest) }
{}

/// The canonical spelling of an element is one of its spellings, whatever follows it, and no
/// other length is shorter; the canonical body of an integer is one of that integer, and the
/// shortest one.
pub fn canonical_spellings()
    ensures element { (tag : ℕ) (body rest : List ℕ) → tag % 32 ≢ 31 → length body < 2 ^ 32
        → Begins (element tag body ++ rest) tag body rest }
    ensures length { (octets : List ℕ) (count : ℕ) → All (λ octet. octet < 256) octets
        → IsLength octets count → length (length_octets count) ≤ length octets }
    ensures integer { (value : ℤ) → FitsSigned w64 value
        → integer_of (integer_octets value) ≡ value }
    ensures shortest { (value : ℤ) → IsShortest (integer_octets value) }
{}

/// A proper prefix of a spelling is refused as short, and so no spelling is one of another's.
pub fn no_spelling_begins_another()
    ensures cut { (stop tag : ℕ) (prefix more body : List ℕ)
        → Begins (prefix ++ more) tag body [] → more ≢ []
        → element_at stop prefix ≡ Err (fault Short stop prefix) }
    ensures one { (prefix more : List ℕ) (tag other : ℕ) (body another : List ℕ)
        → Begins prefix tag body [] → Begins (prefix ++ more) other another [] → more ≡ [] }
{}
