//! Laws of components and their spellings.

ghost use Rattle.std.specs.Prelude.{◌≡◌, ◌≢◌, ℕ, ◌<◌, ◌≤◌, ◌%◌, ◌^◌, true, List, ◌++◌, Option, Some};
ghost use Rattle.ldap_ber.specs.Reader.{tag_at};
ghost use Rattle.ldap_ber.specs.Writer.{IsSmall};
ghost use Rattle.schema_rules.specs.declared.raw.RawAttribute.{RawAttribute};
ghost use Rattle.ldap_filter.specs.FilterTree.{FilterTree, depth};
ghost use Rattle.ldap_parts.specs.declared.control.Control.{Control};
ghost use Rattle.ldap_parts.specs.Agreement.{Agree, IsASpelling};
ghost use Rattle.ldap_parts.specs.Components.{RangeForm, OptionForm, StringsForm, range_at, option_at, strings_at, number_octets, string_octets, strings_octets};
ghost use Rattle.ldap_parts.specs.Attributes.{AttributesForm, attributes_at, attributes_octets};
ghost use Rattle.ldap_parts.specs.Controls.{ControlsForm, controls_at, controls_octets};
ghost use Rattle.ldap_parts.specs.Filters.{AssertionForm, FilterIn, assertion_at, filter_in, assertion_octets, filter_octets, have_piece};

/// What is read was spelled so, and what is spelled so is read.
pub fn components_are_read()
    ensures option { (tag : ℕ) → Agree (OptionForm tag) (option_at tag) }
    ensures range { (least most tag : ℕ)
        → Agree (RangeForm least most tag) (range_at least most tag) }
    ensures strings { (tag : ℕ) → Agree (StringsForm tag) (strings_at tag) }
    ensures attributes { Agree AttributesForm attributes_at }
    ensures controls { Agree ControlsForm controls_at }
    ensures assertion { (tag : ℕ) → Agree (AssertionForm tag) (assertion_at tag) }
    ensures filter { (levels : ℕ) → Agree (FilterIn levels) (filter_in levels) }
{}

/// What is written is one of the spellings of its value. An optional component may not stand before
/// an element with its tag; a number is within its bounds; a filter is in n levels, and each
/// substring filter in it has a piece.
pub fn canonical_spellings()
    ensures option { (tag : ℕ) (option : Option (List ℕ)) (rest : List ℕ) → tag % 32 ≢ 31
        → IsSmall (string_octets tag option) → tag_at rest ≢ Some tag
        → OptionForm tag (string_octets tag option ++ rest) option rest }
    ensures range { (least most tag number : ℕ) → tag % 32 ≢ 31 → most < 2 ^ 63
        → least ≤ number → number ≤ most
        → IsASpelling (RangeForm least most tag) (number_octets tag) number }
    ensures strings { (tag : ℕ) (strings : List (List ℕ)) → tag % 32 ≢ 31
        → IsASpelling (StringsForm tag) (strings_octets tag) strings }
    ensures attributes { (attributes : List RawAttribute)
        → IsASpelling AttributesForm attributes_octets attributes }
    ensures controls { (controls : List Control) (rest : List ℕ)
        → IsSmall (controls_octets controls) → tag_at rest ≢ Some 160
        → ControlsForm (controls_octets controls ++ rest) controls rest }
    ensures assertion { (tag : ℕ) (item : List ℕ × List ℕ) → tag % 32 ≢ 31
        → IsASpelling (AssertionForm tag) (assertion_octets tag) item }
    ensures filter { (levels : ℕ) (filter : FilterTree) → depth filter ≤ levels
        → have_piece filter ≡ true → IsASpelling (FilterIn levels) filter_octets filter }
{}
