//! The text of a run as the engine goes on.

ghost use Rattle.std.specs.Prelude.{◌≡◌, ℕ, ◌+◌, ◌<◌, ◌≤◌, ◌++◌, IfOk, OnOk};
ghost use Rattle.cmb_design_model.specs.Exact.{nets_of};
ghost use Rattle.cmb_design_model.specs.Value.{value};
ghost use Rattle.cmb_dump.specs.Shown.{CanShow, shown_by, subject_of, text_upto};
ghost use Rattle.cmb_dump_stream.specs.Parts.{IsAtEndOf, IsStream, made_text};
ghost use Rattle.cmb_words.specs.Changes.{RisesWithin, Tells};

use crate::buffer::TextBuffer;
use crate::first::{first_text, keep_window};
use crate::text_maker::TextMaker;
use cmb_design_model::Design;
use cmb_dump::{Dump, Shown};
use cmb_engine::Engine;
use cmb_words::Changed;
use std::alloc::{AllocError, Global};
use std::marker::Model;

/// Makes the text of a run in one thread: an engine makes windows, and a dump their text.
#[derive(Drop)]
pub struct Stream<'a> {
    engine: Engine<'a>,
    dump: Dump<'a>,
    changed: Vec<Changed>,
}

impl<'a> Model for Stream<'a> {
    ghost use Rattle.cmb_dump_stream.specs.Parts.{IsStream, Made};

    ghost Value = { Made };

    ghost view = { λ s. record { subject = s.dump.subject; clock = s.engine.clock } };

    ghost invariant = { λ s. IsStream s.engine s.dump };
}

impl<'a> Stream<'a> {
    /// The text up to tick 1: the declarations of the nets that are shown, and their levels at tick 0. What goes on
    /// from there is beside it.
    pub fn open(
        alloc: Global,
        design: &'a Design,
        shown: Shown<'a>,
    ) -> Result<(Stream<'a>, TextBuffer<'a>), AllocError>
        requires { CanShow (nets_of design.now) (shown_by shown) }
        ensures here { IfOk result (λ begun. IsAtEndOf begun.1 begun.0) }
        ensures subject { IfOk result (λ begun. begun.1.subject ≡ subject_of design.entry.now shown.entry) }
        ensures given { IfOk result (λ begun. begun.1.given ≡ 0) }
    {
        let changed = Vec::with_capacity(alloc, design.netlist().len())?;
        let engine = Engine::open(alloc, design)?;
        let Ok((dump, kept)) = first_text(alloc, design, shown) else {
            drop((engine, changed));
            return Err(AllocError);
        };
        Ok((
            Stream {
                engine,
                dump,
                changed,
            },
            kept,
        ))
    }
}

impl<'a> TextMaker for Stream<'a> {
    ghost made = { λ s. s };

    // Goes on by a window.
    fn step(self, kept: &mut TextBuffer<'_>) -> Result<Self, AllocError> {
        let Stream {
            engine,
            mut dump,
            mut changed,
        } = self;
        let upto = engine.next_end();
        let Ok(engine) = engine.advance(upto, &mut changed) else {
            drop((dump, changed));
            return Err(AllocError);
        };
        match keep_window(&mut dump, &changed, engine.clock(), kept) {
            Ok(()) => Ok(Stream {
                engine,
                dump,
                changed,
            }),
            Err(error) => {
                drop((engine, dump, changed));
                Err(error)
            }
        }
    }
}
