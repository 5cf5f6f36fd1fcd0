//! Laws of lines for programs.

ghost use Rattle.std.specs.Prelude.{◌≡◌, ◌++◌, ◌∷◌, ◌<◌, ◌≤◌, ◌^◌, ℕ, List, [], codes, map, true};
ghost use Rattle.std.specs.Str.{byte};
ghost use Rattle.lgp_fields.specs.Escaped.{escaped};
ghost use Rattle.lgp_fields.specs.Plain.{field, Number, Numbers, Plain, PlainField, Text};
ghost use Rattle.lgp_fields.specs.Printed.{field_json, field_line, number_json, record_json, value_json, value_text};
ghost use Rattle.std.specs.Str.Parse.{digits_value};
ghost use Rattle.lgp_fields.specs.Pieces.{inside, pieces};
ghost use Rattle.lgp_fields.specs.ReadBack.{are_bytes, has_no_blank, has_text, key_of, string_of, unescaped, value_of};

/// The bytes of an escaped text can be had back, also of a string of JSON with anything after it.
#[tactic(auto, unfolding(crate::specs::Printed::value_json))]
pub fn texts_are_read_back()
    ensures line { (text : List ℕ) → are_bytes text ≡ true → unescaped (escaped text) ≡ text }
    ensures json { (text rest : List ℕ) → are_bytes text ≡ true
        → string_of (value_json (Text text) ++ rest) ≡ text }
{}

/// The digits of a number give it back: of a large number in JSON, those in its string.
pub fn numbers_are_read_back()
    ensures line { (number : ℕ) → number < 2 ^ 64
        → digits_value 10 (value_text (Number number)) ≡ number }
    ensures json { (number : ℕ) → number < 9007199254740992
        → digits_value 10 (value_json (Number number)) ≡ number }
    ensures large { (number : ℕ) → 9007199254740992 ≤ number → number < 2 ^ 64
        → digits_value 10 (string_of (value_json (Number number))) ≡ number }
{}

/// A line gives back its key and the text of its value, up to the line feed at its end.
pub fn lines_are_read_back()
    ensures key { (key : List ℕ) (value : Plain) → has_no_blank key ≡ true
        → has_text value ≡ true → key_of (field_line (field key value)) ≡ key }
    ensures value { (key : List ℕ) (value : Plain) → has_no_blank key ≡ true
        → has_text value ≡ true
        → value_of (field_line (field key value)) ≡ value_text value ++ codes "\n" }
{}

/// The fields of an object of JSON are its pieces between commas, and the numbers of an array likewise.
pub fn objects_are_read_back()
    ensures fields { (first : PlainField) (more : List PlainField)
        → pieces (byte ",") (inside (record_json (first ∷ more)))
        ≡ map field_json (first ∷ more) }
    ensures numbers { (first : ℕ) (more : List ℕ)
        → pieces (byte ",") (inside (value_json (Numbers (first ∷ more))))
        ≡ map number_json (first ∷ more) }
{}

/// A field of an object of JSON has two pieces, the string of its key and its value.
pub fn fields_are_read_back()
    ensures pieces { (field : PlainField)
        → pieces (byte ":") (field_json field)
        ≡ value_json (Text field.key) ∷ value_json field.value ∷ [] }
    ensures key { (field : PlainField) → are_bytes field.key ≡ true
        → string_of (field_json field) ≡ field.key }
{}
