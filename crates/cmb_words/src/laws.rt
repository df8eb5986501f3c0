//! What the list of a mask's places holds: theorems on its definition, the contract of a function that does nothing.

ghost use Rattle.std.specs.Prelude.{◌≡◌, ℕ, ◌<◌, true, All, Contains};
ghost use Rattle.cmb_words.specs.Bits.{is_set_at, places_set};

/// The list of a mask's places holds places below 64 that are set, and all of them.
pub fn places_are_those_set()
    ensures each { (mask : ℕ) → All (λ place. (place < 64) × (is_set_at mask place ≡ true)) (places_set mask) }
    ensures all { (mask place : ℕ) → place < 64 → is_set_at mask place ≡ true → Contains (places_set mask) place }
{}
