//! The engine of a design.

ghost use Rattle.std.specs.Prelude.{◌≡◌, ◌+◌, ◌<◌, ◌≤◌, IfOk};
ghost use Rattle.cmb_design_model.specs.Exact.{nets_of};
ghost use Rattle.cmb_design_model.specs.Value.{value};
ghost use Rattle.cmb_engine.specs.Shares.{EachChanges};
ghost use Rattle.cmb_words.specs.Changes.{IsWindow, Tells};

use crate::share::ShareEngine;
use crate::windows::Windows;
use cmb_design_model::Design;
use cmb_words::Changed;
use std::alloc::{AllocError, Global};
use std::marker::Model;

/// The most ticks of a window: a word has the tick before it too.
pub const LONGEST_WINDOW: u32 = 63;

/// Simulates a design, window by window of ticks. It is the engine of the share that is all nets, to which nothing is
/// given.
///
/// What it needs of memory depends on the nets, their delays and the changes under way. On the horizon it depends by 24
/// bytes for each 64 ticks alone.
#[derive(Drop)]
pub struct Engine<'d> {
    share: ShareEngine<'d>,
    windows: Windows,
}

impl<'d> Model for Engine<'d> {
    ghost use Rattle.cmb_engine.specs.Engines.{Engine};
    ghost use Rattle.cmb_engine.specs.Inner.States.{IsWhole};

    ghost Value = { Engine };

    ghost view = { λ engine. record {
      design = engine.share.design;
      width = engine.share.width;
      clock = engine.share.clock;
    } };

    ghost invariant = { λ engine. IsWhole engine.share engine.windows };
}

impl<'d> Engine<'d> {
    /// The engine of a design, of which tick 0 is known.
    pub fn open(alloc: Global, design: &'d Design) -> Result<Engine<'d>, AllocError>
        ensures design { IfOk result (λ engine. engine.design ≡ design.entry.now) }
        ensures clock { IfOk result (λ engine. engine.clock ≡ 1) }
    {
        let driven = vec![in alloc; true; design.netlist().len()]?;
        let share = ShareEngine::open(alloc, design, driven.as_slice(), driven.as_slice());
        drop(driven);
        let share = share?;
        match Windows::of(alloc, design, share.width()) {
            Ok(windows) => Ok(Engine { share, windows }),
            Err(error) => {
                drop(share);
                Err(error)
            }
        }
    }

    /// The most ticks of a window.
    pub fn width(&self) -> u32
        ensures value { result ≡ self.now.width }
        ensures some { 2 ≤ result }
        ensures most { result < LONGEST_WINDOW }
    {
        self.share.width()
    }

    /// The tick below which all nets are known, in ticks.
    pub fn clock(&self) -> u32
        ensures value { result ≡ self.now.clock }
        ensures begun { 1 ≤ result }
        ensures within { result ≤ self.now.design.horizon }
    {
        self.share.clock()
    }

    /// Where the next window may end to be made quickly.
    pub fn next_end(&self) -> u32
        requires { self.now.clock < self.now.design.horizon }
        ensures later { self.now.clock < result }
        ensures short { result ≤ self.now.clock + self.now.width }
        ensures within { result ≤ self.now.design.horizon }
    {
        self.windows.end(self.share.clock())
    }

    /// Goes on by a window up to the tick `upto`. `changed` gets the nets that changed in it, by rising number, each
    /// with its levels up to the window's end, in place of what it had.
    pub fn advance(self, upto: u32, changed: &mut Vec<Changed>) -> Result<Engine<'d>, AllocError>
        requires later { self.clock < upto }
        requires short { upto ≤ self.clock + self.width }
        requires within { upto ≤ self.design.horizon }
        ensures design { IfOk result (λ engine. engine.design ≡ self.entry.design) }
        ensures width { IfOk result (λ engine. engine.width ≡ self.entry.width) }
        ensures clock { IfOk result (λ engine. engine.clock ≡ upto) }
        ensures window { IfOk result (λ engine. IsWindow (nets_of self.entry.design) self.entry.design.horizon
            self.entry.clock engine.clock changed.new.items) }
        ensures tells { IfOk result (λ engine. Tells (value self.entry.design) (nets_of self.entry.design)
            self.entry.clock engine.clock changed.new.items) }
        ensures changes { IfOk result (λ engine. EachChanges self.entry.clock engine.clock changed.new.items) }
    {
        let Engine { share, windows } = self;
        match share.advance(upto, &[], changed) {
            Ok(share) => Ok(Engine { share, windows }),
            Err(error) => {
                drop(windows);
                Err(error)
            }
        }
    }
}
