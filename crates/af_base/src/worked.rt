//! Worked values: which value a text is, by RFC 8259 and by the limits here, computed by the checker.
ghost use Rattle.std.specs.Prelude.{◌≡◌, [], ◌∷◌, ◌++◌, codes, option_and_then, replicate, is_some, None, Some, true};
ghost use Rattle.serde_json.specs.Data.{unsigned, null, number, string, array, object, no_items, no_members, member};
ghost use Rattle.serde_json.specs.Find.{as_i64, as_number, as_u64};
ghost use Rattle.af_base.specs.Parsed.{json_of};

/// Texts and what they are: the last of two members with a name stays, a pair of surrogates is a character, and half a pair is none.
pub fn texts_by_the_rule()
    ensures empty { json_of [] ≡ None }
    ensures space { json_of (codes " [ ] ") ≡ Some (array no_items) }
    ensures comma { json_of (codes "[1,]") ≡ None }
    ensures twice { json_of (codes "{\"a\":true,\"a\":null}") ≡ Some (object (member (codes "a") null no_members)) }
    ensures order { json_of (codes "{\"b\":null,\"a\":null}") ≡ json_of (codes "{\"a\":null,\"b\":null}") }
    ensures pair { json_of (codes "\"\\ud83d\\ude00\"") ≡ Some (string (0xf0 ∷ 0x9f ∷ 0x98 ∷ 0x80 ∷ [])) }
    ensures half { json_of (codes "\"\\ud83d\"") ≡ None }
    ensures bytes { json_of (34 ∷ 255 ∷ 34 ∷ []) ≡ None }
    ensures more { json_of (codes "{} 1") ≡ None }
{}

/// Numbers: integers of 64 bits, with a sign or without; `-0` is no integer, and what no finite float is near is refused.
pub fn numbers_by_the_rule()
    ensures largest { json_of (codes "18446744073709551615") ≡ Some (number (unsigned 18_446_744_073_709_551_615)) }
    ensures past { option_and_then as_u64 (option_and_then as_number (json_of (codes "18446744073709551616"))) ≡ None }
    ensures below { option_and_then as_i64 (option_and_then as_number (json_of (codes "-0"))) ≡ None }
    ensures point { option_and_then as_u64 (option_and_then as_number (json_of (codes "1.0"))) ≡ None }
    ensures far { json_of (codes "1e400") ≡ None }
    ensures zeros { json_of (codes "01") ≡ None }
{}

/// Lists and objects nest 127 deep at most.
pub fn nesting_by_the_rule()
    ensures deepest { is_some (json_of (replicate 127 91 ++ replicate 127 93)) ≡ true }
    ensures too_deep { json_of (replicate 128 91 ++ replicate 128 93) ≡ None }
{}
