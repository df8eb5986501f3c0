//! The laws of waveforms, waves, pieces and promises: theorems on the definitions, each the contract of a function that
//! does nothing.

ghost use Rattle.std.specs.Prelude.{◌≡◌, ℕ, ◌+◌, ◌<◌, ◌≤◌, List, ◌++◌, length, Ok};
ghost use Rattle.std.specs.Result.{result_map_both};
ghost use Rattle.cmb_wave.specs.declared.level.Level.{Level};
ghost use Rattle.cmb_wave.specs.declared.level.Change.{Change};
ghost use Rattle.cmb_wave.specs.declared.level.Promise.{Promise};
ghost use Rattle.cmb_wave.specs.Waveform.{changes_between, count_below, level_at, level_before, IsTrace};
ghost use Rattle.cmb_wave.specs.Wave.{Piece, Wave, IsExactPiece, IsExactWave, IsRightPromise, wave_with_piece};
ghost use Rattle.cmb_wave.specs.Wave.{wave_from, cut_of};
ghost use Rattle.cmb_wave.specs.Calls.{taken, hears, heard_wave, cut, promised};

/// Changes of spans that meet, one after the other, are the changes of the whole span.
pub fn changes_append()
    ensures { (level : ℕ → Level) (from mid to : ℕ) → from ≤ mid → mid ≤ to
        → changes_between level from mid ++ changes_between level mid to ≡ changes_between level from to }
{}

/// The changes tell the level: it is that of the last change at or before the tick.
pub fn level_from_changes()
    ensures { (level : ℕ → Level) (from to tick : ℕ) → from ≤ tick → tick < to
        → level_at (level_before level from) (changes_between level from to) tick ≡ level tick }
{}

/// The counts of spans that meet add up.
pub fn counts_add()
    ensures { (level : ℕ → Level) (from to : ℕ) → from ≤ to
        → count_below level to ≡ count_below level from + length (changes_between level from to) }
{}

/// The changes of a span are the one trace of it that has the level at each of its ticks.
pub fn changes_are_one_list()
    ensures trace { (level : ℕ → Level) (from to : ℕ) → from ≤ to
        → IsTrace (level_before level from) from (changes_between level from to) to }
    ensures one { (level : ℕ → Level) (from to : ℕ) (changes : List Change)
        → IsTrace (level_before level from) from changes to
        → ((tick : ℕ) → from ≤ tick → tick < to → level_at (level_before level from) changes tick ≡ level tick)
        → changes ≡ changes_between level from to }
{}

/// An exact wave takes each exact piece that goes on from it, never with a clash, and is exact after
/// it; so it is after a right promise, and after it forgot. What is cut of it is exact, what it
/// promises is right, and it has the waveform's levels.
pub fn exact_waves_stay_exact()
    ensures takes { (level : ℕ → Level) (horizon : ℕ) (wave : Wave) (piece : Piece) → IsExactWave level horizon wave
        → IsExactPiece level horizon piece → piece.from ≤ wave.clock → wave.clock < piece.to
        → taken wave piece ≡ Ok (wave_with_piece wave piece) }
    ensures taken { (level : ℕ → Level) (horizon : ℕ) (wave : Wave) (piece : Piece) → IsExactWave level horizon wave
        → IsExactPiece level horizon piece → piece.from ≤ wave.clock → wave.clock ≤ piece.to
        → IsExactWave level horizon (wave_with_piece wave piece) }
    ensures heard { (level : ℕ → Level) (horizon : ℕ) (wave : Wave) (promise : Promise) → IsExactWave level horizon wave
        → IsRightPromise level horizon promise → IsExactWave level horizon (heard_wave wave promise) }
    ensures forgot { (level : ℕ → Level) (horizon : ℕ) (wave : Wave) (upto : ℕ) → IsExactWave level horizon wave
        → wave.base ≤ upto → upto ≤ wave.clock → IsExactWave level horizon (wave_from wave upto) }
    ensures cuts { (level : ℕ → Level) (horizon : ℕ) (wave : Wave) (from : ℕ) → IsExactWave level horizon wave
        → wave.base ≤ from → from < wave.clock → IsExactPiece level horizon (cut_of wave from) }
    ensures promises { (level : ℕ → Level) (horizon : ℕ) (wave : Wave) → IsExactWave level horizon wave
        → IsRightPromise level horizon (promised wave) }
    ensures tells { (level : ℕ → Level) (horizon : ℕ) (wave : Wave) (tick : ℕ) → IsExactWave level horizon wave
        → wave.base ≤ tick → tick < wave.clock → level_at wave.kept wave.changes tick ≡ level tick }
{}

/// A wave that forgot takes and refuses the pieces that it would have, and then is what it would have
/// been, less what it forgot; so for promises. From its base on it has the same levels and is cut
/// into the same pieces.
pub fn forgetting_changes_no_answer()
    ensures takes { (wave : Wave) (piece : Piece) (upto : ℕ) → IsTrace wave.kept wave.base wave.changes wave.clock
        → upto ≤ wave.clock → taken (wave_from wave upto) piece
        ≡ result_map_both (λ after. wave_from after upto) (λ fault. fault) (taken wave piece) }
    ensures hears { (wave : Wave) (promise : Promise) (upto : ℕ)
        → hears (wave_from wave upto) promise ≡ hears wave promise }
    ensures heard { (wave : Wave) (promise : Promise) (upto : ℕ)
        → heard_wave (wave_from wave upto) promise ≡ wave_from (heard_wave wave promise) upto }
    ensures tells { (wave : Wave) (upto tick : ℕ) → IsTrace wave.kept wave.base wave.changes wave.clock → upto ≤ tick
        → level_at (wave_from wave upto).kept (wave_from wave upto).changes tick
        ≡ level_at wave.kept wave.changes tick }
    ensures cuts { (wave : Wave) (upto from : ℕ) → upto ≤ from → cut (wave_from wave upto) from ≡ cut wave from }
    ensures promises { (wave : Wave) (upto : ℕ) → promised (wave_from wave upto) ≡ promised wave }
{}
