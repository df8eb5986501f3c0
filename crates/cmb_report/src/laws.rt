//! A law: the progress of a text of whole lines is that of what the lines say.

ghost use Rattle.std.specs.Prelude.{◌≡◌, ℕ, List};
ghost use Rattle.std.specs.List.{AllByRecursion};
ghost use Rattle.cmb_report.specs.Lines.{IsLine, bytes_of, changes_in, last_tick};
ghost use Rattle.cmb_report.specs.Progress.{limited, no_text, advanced};

/// Of whole lines the progress has the number of those that tell a change, and the last tick that one of them tells.
pub fn progress_goes_by_lines()
    ensures changes { (lines : List (List ℕ)) → AllByRecursion IsLine lines
        → (advanced no_text (bytes_of lines)).changes ≡ limited (changes_in lines) }
    ensures tick { (lines : List (List ℕ)) → AllByRecursion IsLine lines
        → (advanced no_text (bytes_of lines)).tick ≡ last_tick 0 lines }
{}
