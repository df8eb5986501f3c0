//! Who makes a run's text, some windows at a time.

ghost use Rattle.std.specs.Prelude.{◌≡◌, ◌<◌, IfOk, OnOk};

use crate::buffer::TextBuffer;
use std::alloc::AllocError;

/// Makes a run's text, some windows at a time.
pub trait TextMaker: Sized + Drop {
    ghost use Rattle.cmb_dump_stream.specs.Parts.{IsAtEndOf, Made};

    /// Of what the text was made, and up to which tick.
    ghost made: { Self → Made };

    /// Goes on by some windows, whose text comes behind what is kept.
    fn step(self, kept: &mut TextBuffer<'_>) -> Result<Self, AllocError>
        requires here { IsAtEndOf kept.old (made self) }
        requires open { kept.old.clock < kept.old.subject.design.horizon }
        ensures here { IfOk result (λ next. IsAtEndOf kept.new (made next)) }
        ensures subject { OnOk result (kept.new.subject ≡ kept.old.subject) }
        ensures given { OnOk result (kept.new.given ≡ kept.old.given) }
        ensures later { OnOk result (kept.old.clock < kept.new.clock) };
}
