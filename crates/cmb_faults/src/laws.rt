//! A law: faults and their explanations have the same numbers.

ghost use Rattle.std.specs.Prelude.{◌≡◌, ℕ};
ghost use Rattle.cmb_explain.specs.Known.{IsFaultNumber};
ghost use Rattle.cmb_faults.specs.Numbers.{number_of};
ghost use Rattle.cmb_faults.specs.declared.fault.Fault.{Fault};

/// Each fault has a number that is explained, and each number that is explained is that of a fault.
pub fn faults_are_explained()
    ensures explained { (fault : Fault) → IsFaultNumber (number_of fault) }
    ensures is_fault { (number : ℕ) → IsFaultNumber number → (fault : Fault) × (number_of fault ≡ number) }
{}
