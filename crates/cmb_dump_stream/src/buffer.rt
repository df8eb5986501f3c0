//! What was made of a run's text and not handed on.

ghost use Rattle.std.specs.Prelude.{◌≡◌, ℕ, ◌+◌, ◌-◌, ◌^◌, ◌<◌, ◌≤◌, ◌++◌, List, Option, false, true, length, take};
ghost use Rattle.std.specs.Prelude.{IfErr, IfOk, OnOk};
ghost use Rattle.std.specs.Io.KnownBytes.{Appends};
ghost use Rattle.cmb_design_model.specs.Exact.{nets_of};
ghost use Rattle.cmb_dump.specs.Shown.{CanShow, shown_by, subject_of, whole_text};
ghost use Rattle.cmb_dump_stream.specs.Parts.{made_text};
ghost use Rattle.cmb_dump_stream.specs.Streams.{IsBrokenOff};

use cmb_design_model::Design;
use cmb_dump::{Dump, Shown};
use cmb_io::{Sink, WriteFault, write_whole};
use std::alloc::{AllocError, Global};
use std::marker::Model;
use std::mem::swap;

/// The text of a design's run, of all nets or of chosen ones, as far as it was made. Of that a front was handed on, and
/// the rest is kept.
#[derive(Drop)]
pub struct TextBuffer<'a> {
    design: &'a Design,
    shown: Shown<'a>,
    clock: u32,
    text: Vec<u8>,
    given: u64,
}

impl<'a> Model for TextBuffer<'a> {
    ghost use Rattle.cmb_dump_stream.specs.Parts.{IsKept, TextBuffer};

    ghost Value = { TextBuffer };

    ghost use Rattle.cmb_dump.specs.Shown.{subject_of};

    ghost view = { λ k. record { subject = subject_of k.design.now k.shown; clock = k.clock; given = k.given } };

    ghost invariant = { λ k. IsKept (subject_of k.design.now k.shown) k.clock k.given k.text.items };
}

impl<'a> TextBuffer<'a> {
    /// The text up to tick 1, which the dump begins with.
    pub fn open(
        alloc: Global,
        design: &'a Design,
        shown: Shown<'a>,
        dump: &Dump<'_>,
    ) -> Result<TextBuffer<'a>, AllocError>
        requires shown { CanShow (nets_of design.now) (shown_by shown) }
        requires text { dump.now.text ≡ made_text (subject_of design.now shown) 1 }
        ensures subject { IfOk result (λ kept. kept.subject ≡ subject_of design.entry.now shown.entry) }
        ensures clock { IfOk result (λ kept. kept.clock ≡ 1) }
        ensures given { IfOk result (λ kept. kept.given ≡ 0) }
    {
        // The proof learns here that the design is lawful.
        let _horizon = design.horizon();
        Ok(TextBuffer {
            design,
            shown,
            clock: 1,
            text: dump.text().to_vec(alloc)?,
            given: 0,
        })
    }

    /// Whether the whole text was made.
    pub fn is_done(&self) -> bool
        ensures done { result ≡ true → self.now.clock ≡ self.now.subject.design.horizon }
        ensures open { result ≡ false → self.now.clock < self.now.subject.design.horizon }
    {
        self.clock >= self.design.horizon()
    }

    /// The tick below which the text was made.
    pub fn clock(&self) -> u32
        ensures value { result ≡ self.now.clock }
        ensures begun { 1 ≤ result }
    {
        self.clock
    }

    // Adds a copy of the text of the ticks from the clock on below `upto`. Where memory runs out nothing changes.
    fn grow(&mut self, text: &[u8], upto: u32) -> Result<(), AllocError>
        requires order { self.old.clock ≤ upto }
        requires within { upto ≤ self.old.subject.design.horizon }
        requires text { made_text self.old.subject upto ≡ made_text self.old.subject self.old.clock ++ text.now }
        ensures clock { OnOk result (self.new.clock ≡ upto) }
        ensures subject { self.new.subject ≡ self.old.subject }
        ensures given { self.new.given ≡ self.old.given }
    {
        self.text.extend_from_slice(text)?;
        self.clock = upto;
        Ok(())
    }

    /// Adds the text that a dump gave last: that of the ticks from the clock on below `upto`. Where nothing is kept the
    /// text is taken from the dump, else it is copied.
    pub fn grow_by(&mut self, dump: &mut Dump<'_>, upto: u32) -> Result<(), AllocError>
        requires order { self.old.clock ≤ upto }
        requires within { upto ≤ self.old.subject.design.horizon }
        requires text { made_text self.old.subject upto ≡ made_text self.old.subject self.old.clock ++ dump.old.text }
        ensures clock { OnOk result (self.new.clock ≡ upto) }
        ensures subject { self.new.subject ≡ self.old.subject }
        ensures given { self.new.given ≡ self.old.given }
        ensures dumped { dump.new ≡ record dump.old { text = dump.new.text } }
    {
        if self.text.is_empty() {
            dump.swap_text(&mut self.text);
            self.clock = upto;
            return Ok(());
        }
        self.grow(dump.text(), upto)
    }

    /// Adds a text of the ticks from the clock on below `end`. Where nothing is kept the text is taken, and room is
    /// left in its place; else it is copied.
    pub fn take_text(&mut self, text: &mut Vec<u8>, end: u32) -> Result<(), AllocError>
        requires order { self.old.clock ≤ end }
        requires within { end ≤ self.old.subject.design.horizon }
        requires text { made_text self.old.subject end ≡ made_text self.old.subject self.old.clock ++ text.old.items }
        ensures clock { OnOk result (self.new.clock ≡ end) }
        ensures subject { self.new.subject ≡ self.old.subject }
        ensures given { self.new.given ≡ self.old.given }
    {
        if !self.text.is_empty() {
            return self.grow(text, end);
        }
        swap(&mut self.text, text);
        self.clock = end;
        Ok(())
    }

    /// How many bytes are kept: those that were made and not handed on.
    pub fn len(&self) -> usize
        ensures { self.now.given + result ≡ length (made_text self.now.subject self.now.clock) }
    {
        self.text.len()
    }

    /// How many bytes were handed on.
    pub fn given(&self) -> u64
        ensures { result ≡ self.now.given }
    {
        self.given
    }

    /// Hands on what is kept. After an Err it isn't to be used again.
    pub fn give<S: Sink>(&mut self, sink: &mut S) -> Result<(), WriteFault>
        requires room { S.failures sink.old < 2 ^ 64 - 1 }
        ensures text { (start : Option (List ℕ))
            → Appends start (S.taken sink.old) (take self.old.given (whole_text self.old.subject))
            → OnOk result (Appends start (S.taken sink.new) (take self.new.given (whole_text self.old.subject))) }
        ensures given { OnOk result (self.new.given ≡ length (made_text self.old.subject self.old.clock)) }
        ensures subject { self.new.subject ≡ self.old.subject }
        ensures clock { self.new.clock ≡ self.old.clock }
        ensures no_failure { OnOk result (S.failures sink.new ≡ S.failures sink.old) }
        ensures fault { (start : Option (List ℕ))
            → Appends start (S.taken sink.old) (take self.old.given (whole_text self.old.subject))
            → IfErr result (IsBrokenOff (whole_text self.old.subject) start (S.taken sink.new) (S.failures sink.old)
            (S.failures sink.new)) }
    {
        match write_whole(sink, &self.text) {
            Ok(()) => {
                self.given += self.text.len() as u64;
                self.text.clear();
                Ok(())
            }
            Err(count) => Err(WriteFault::Write {
                written: self.given + count as u64,
            }),
        }
    }
}
