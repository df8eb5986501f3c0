//! Laws: each text has one cutting, and spells one netlist or has one first fault, and never both; numbers and names of
//! nets belong together.
ghost use Rattle.std.specs.Prelude.{◌≡◌, ℕ, List, ◌⊎◌};
ghost use Rattle.cmb_bench.specs.declared.fault.BenchFault.{BenchFault};
ghost use Rattle.cmb_netlist.specs.Netlist.{Netlist};
ghost use Rattle.cmb_bench.specs.Meaning.{Reads};
ghost use Rattle.cmb_bench.specs.FirstFault.{IsFirstFault};
ghost use Rattle.cmb_bench.specs.Text.{Snippet, IsCutting};

/// Each text has one cutting into snippets, and no other.
pub fn one_cutting()
    ensures { (bytes : List ℕ) → (snippets : List Snippet) × IsCutting bytes snippets
        × ((others : List Snippet) → IsCutting bytes others → others ≡ snippets) }
{}

/// Each text spells a netlist or has a first fault.
pub fn either_one()
    ensures { (bytes : List ℕ) → ((c : Netlist) × Reads bytes c) ⊎ ((f : BenchFault) × IsFirstFault bytes f) }
{}

/// A text that spells a netlist has no first fault.
pub fn never_both()
    ensures { (bytes : List ℕ) (c : Netlist) (f : BenchFault) → Reads bytes c → IsFirstFault bytes f → ⊥ }
{}

/// A text has at most one first fault.
pub fn one_first_fault()
    ensures { (bytes : List ℕ) (f : BenchFault) (g : BenchFault) → IsFirstFault bytes f → IsFirstFault bytes g → f ≡ g }
{}

/// A text spells at most one netlist.
pub fn one_netlist()
    ensures { (bytes : List ℕ) (c : Netlist) (d : Netlist) → Reads bytes c → Reads bytes d → c ≡ d }
{}
