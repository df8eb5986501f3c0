//! What is reported on standard error beside the one line of a fault.

ghost use Rattle.std.specs.Prelude.{◌≡◌, Some, codes, false, true};
ghost use Rattle.clap.specs.Matches.{found_of, one_text};

use clap::ArgMatches;

/// Whether nothing is reported of a pipe that its reader closed: on a terminal, where words aren't turned off.
pub(crate) fn is_quiet(matches: &ArgMatches<'_>, on_terminal: bool) -> bool
    ensures terminal { (result ≡ true) → (on_terminal ≡ true) }
    ensures off { (one_text (found_of matches.now) (codes "no-explain") ≡ Some (codes "true")) → (result ≡ false) }
    ensures usual { (one_text (found_of matches.now) (codes "no-explain") ≡ Some (codes "false"))
        → (result ≡ on_terminal) }
{
    on_terminal && !matches.get_flag("no-explain")
}

/// Whether a fault is reported in words: where that is asked for, and as a rule on a terminal.
pub(crate) fn is_explained(matches: &ArgMatches<'_>, is_usual: bool) -> bool
    ensures usual { (is_usual ≡ true) → (result ≡ true) }
    ensures asked { (one_text (found_of matches.now) (codes "explain") ≡ Some (codes "true")) → (result ≡ true) }
    ensures unasked { (one_text (found_of matches.now) (codes "explain") ≡ Some (codes "false"))
        → (result ≡ is_usual) }
{
    is_usual || matches.get_flag("explain")
}
