//! The laws of the text.

ghost use Rattle.std.specs.Prelude.{◌≡◌, ◌≢◌, ℕ, ◌+◌, ◌<◌, ◌≤◌, List, ◌++◌, length, map, slice_index, All, Ok, Err};
ghost use Rattle.std.specs.List.{range_with_len};
ghost use Rattle.std.specs.Result.{result_map_both};
ghost use Rattle.cmb_wave.specs.declared.level.Level.{Level};
ghost use Rattle.cmb_wave.specs.Wave.{IsExactWave, Piece, Wave, cut_of};
ghost use Rattle.cmb_netlist.specs.Netlist.{name_of};
ghost use Rattle.cmb_design_model.specs.Design.{Design};
ghost use Rattle.cmb_design_model.specs.Exact.{IsExactIn, nets_of};
ghost use Rattle.cmb_design_model.specs.Plain.{whole_waves};
ghost use Rattle.cmb_design_model.specs.Value.{value};
ghost use Rattle.cmb_run_text.specs.declared.fault.CollectFault.TheVariants.{Clash};
ghost use Rattle.cmb_run_text.specs.Chosen.{vcd_of};
ghost use Rattle.cmb_run_text.specs.Collector.{Collector, IsComplete, IsExactFor, IsExactFrom, adopted, collected};
ghost use Rattle.cmb_run_text.specs.Collector.{collected_level, forgot, least, new_collector, wave_of};
ghost use Rattle.cmb_run_text.specs.Vcd.{code, part_text, ticks_text, vcd};

/// Codes of different nets differ.
pub fn codes_differ()
    ensures { (net other : ℕ) → code net ≡ code other → net ≡ other }
{}

/// The text as far as the levels are known depends on the known levels alone, and each part begins the later ones.
/// What it gains from one tick to another depends on the levels from one tick before the first on. It says nothing of
/// a span, after tick 0, in which no net changes.
pub fn text_grows()
    ensures depends { (names : List (List ℕ)) (horizon : ℕ) (levels others : ℕ → ℕ → Level) (upto : ℕ)
        → ((net tick : ℕ) → net < length names → tick < upto → levels net tick ≡ others net tick)
        → part_text names horizon levels upto ≡ part_text names horizon others upto }
    ensures begins { (names : List (List ℕ)) (horizon : ℕ) (levels : ℕ → ℕ → Level) (from to : ℕ) → from ≤ to
        → from < horizon → (rest : List ℕ)
        × (part_text names horizon levels to ≡ part_text names horizon levels from ++ rest) }
    ensures onward { (names : List (List ℕ)) (horizon : ℕ) (levels others : ℕ → ℕ → Level) (from to : ℕ) (rest : List ℕ)
        → from ≤ to → to ≤ horizon
        → ((net tick : ℕ) → net < length names → from ≤ tick + 1 → tick < to
        → levels net tick ≡ others net tick)
        → part_text names horizon levels to ≡ part_text names horizon levels from ++ rest
        → part_text names horizon others to ≡ part_text names horizon others from ++ rest }
    ensures still { (nets : ℕ) (levels : ℕ → ℕ → Level) (from more : ℕ) → 1 ≤ from
        → ((net tick : ℕ) → net < nets → from ≤ tick + 1 → tick + 1 < from + more
        → levels net tick ≡ levels net (tick + 1))
        → ticks_text nets levels (from + more) ≡ ticks_text nets levels from }
{}

/// A new collector is exact, and stays so when it takes exact pieces, of which none is refused by 49, and when it takes
/// exact waves over. One that is known further than its net's is to it as its changes from tick 0 on in one piece.
/// The text of an exact collector is that of the design, as far as all its waves are known.
pub fn exact_collectors_stay_exact()
    ensures opens { (design : Design) → IsExactFor design (new_collector design) }
    ensures takes { (design : Design) (collector next : Collector) (piece : Piece) → IsExactFor design collector
        → IsExactIn design piece → collected collector piece ≡ Ok next → IsExactFor design next }
    ensures adopts { (design : Design) (collector : Collector) (wave : Wave) → IsExactFor design collector
        → wave.net < length collector.waves → wave.base ≡ 0 → IsExactWave (value design wave.net) design.horizon wave
        → IsExactFor design (adopted collector wave) }
    ensures as_taken { (design : Design) (collector : Collector) (wave : Wave) → IsExactFor design collector
        → wave.net < length collector.waves → wave.base ≡ 0 → IsExactWave (value design wave.net) design.horizon wave
        → (wave_of collector.waves wave.net).clock < wave.clock
        → collected collector (cut_of wave 0) ≡ Ok (adopted collector wave) }
    ensures no_clash { (design : Design) (collector : Collector) (piece : Piece) (tick : ℕ)
        → IsExactFor design collector → IsExactIn design piece → collected collector piece ≢ Err (Clash tick) }
    ensures tells { (design : Design) (collector : Collector) (upto : ℕ) → IsExactFor design collector
        → upto ≤ least collector → part_text design.netlist.names design.horizon (collected_level collector.waves) upto
        ≡ part_text design.netlist.names design.horizon (value design) upto }
{}

/// What is exact and has forgotten nothing is exact from each tick on. What is exact from a tick on may forget what
/// lies below that tick or a later one up to which all is known, and is exact from there on. It stays so when it takes
/// exact pieces, of which none is refused by 49, and its least clock stays. It takes and refuses what it would have,
/// and then is what it would have been, less what it forgot.
pub fn collectors_may_forget()
    ensures whole { (design : Design) (from : ℕ) (collector : Collector) → IsExactFor design collector
        → IsExactFrom design from collector }
    ensures start { (design : Design) (collector : Collector) → IsExactFrom design 0 collector
        → IsExactFor design collector }
    ensures forgets { (design : Design) (from upto : ℕ) (collector : Collector) → IsExactFrom design from collector
        → from ≤ upto → upto ≤ least collector → IsExactFrom design upto (forgot collector upto) }
    ensures takes { (design : Design) (from : ℕ) (collector next : Collector) (piece : Piece)
        → IsExactFrom design from collector → IsExactIn design piece → collected collector piece ≡ Ok next
        → IsExactFrom design from next }
    ensures no_clash { (design : Design) (from : ℕ) (collector : Collector) (piece : Piece) (tick : ℕ)
        → IsExactFrom design from collector → IsExactIn design piece
        → collected collector piece ≢ Err (Clash tick) }
    ensures least { (collector : Collector) (upto : ℕ) → least (forgot collector upto) ≡ least collector }
    ensures answers { (design : Design) (from upto : ℕ) (collector : Collector) (piece : Piece)
        → IsExactFrom design from collector → upto ≤ least collector → collected (forgot collector upto) piece
        ≡ result_map_both (λ next. forgot next upto) (λ fault. fault) (collected collector piece) }
{}

/// The whole waves of a design's nets make a complete and exact collector.
pub fn whole_waves_are_collected()
    ensures exact { (design : Design) → IsExactFor design
        (record { waves = whole_waves design; horizon = design.horizon }) }
    ensures complete { (design : Design)
        → IsComplete (record { waves = whole_waves design; horizon = design.horizon }) }
{}

/// The text of all nets is that of the design. And where a design is a part of another, with the names and the levels
/// of some of its nets, nets that are chosen from the part have the text there that they have in the whole.
pub fn chosen_nets_have_their_text()
    ensures all { (design : Design) → vcd_of design (range_with_len 0 (nets_of design)) ≡ vcd design }
    ensures part { (design part : Design) (nets chosen : List ℕ) → part.horizon ≡ design.horizon
        → ((net : ℕ) → net < length nets → name_of part.netlist net ≡ name_of design.netlist (slice_index nets net))
        → ((net tick : ℕ) → net < length nets → value part net tick ≡ value design (slice_index nets net) tick)
        → All (λ net. net < length nets) chosen → vcd_of part chosen ≡ vcd_of design (map (slice_index nets) chosen) }
{}
