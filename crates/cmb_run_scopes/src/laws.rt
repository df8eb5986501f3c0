//! The laws of declarations with scopes.

ghost use Rattle.std.specs.Prelude.{◌≡◌, ℕ, ◌<◌, ◌≤◌, ◌==◌, List, [], false, length, get_or, count_by, All};
ghost use Rattle.cmb_run_scopes.specs.Reading.{declared};
ghost use Rattle.cmb_run_scopes.specs.Scopes.{declarations_of, in_form, parts};

/// Each net is declared exactly once, and there where the parts of its name say: in these scopes, each in the one
/// before, and under the last part.
pub fn nets_are_declared_once()
    ensures once { (names : List (List ℕ)) (place : ℕ) → All (λ name. length name ≤ 255) names → place < length names
        → count_by (λ found. found.0 == place) (declared [] (declarations_of names)) ≡ 1 }
    ensures there { (names : List (List ℕ)) → All (λ name. length name ≤ 255) names
        → All (λ found. found.1 ≡ parts (get_or names found.0 [])) (declared [] (declarations_of names)) }
{}

/// Without scopes a text stays as it is.
pub fn plain_text_stays()
    ensures { (names : List (List ℕ)) (text : List ℕ) → in_form false names text ≡ text }
{}
