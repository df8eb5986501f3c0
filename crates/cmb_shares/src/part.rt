//! A thread's part of a run, before it is at work.

ghost use Rattle.std.specs.Prelude.{◌≡◌, IfSome};
ghost use Rattle.cmb_shares.specs.Inner.Runs.{subject_in};
ghost use Rattle.cmb_shares.specs.Inner.Texts.{IsOf};

use crate::berth::Berth;
use crate::clerk::Clerk;
use crate::desk::Desk;
use crate::executor::Executor;
use crate::flow::Flow;
use crate::share_run::ShareRun;
use crate::shelf::Shelf;
use crate::stages::Free;
use cmb_design_model::Design;
use cmb_dump::Shown;
use std::alloc::{AllocError, Global};
use std::marker::Model;
use std::sync::{Mutex, Wait};

/// Where the shares lie and which of them is the thread's own, what the text is of, and where windows are taken from
/// and texts go.
#[derive(Drop)]
pub struct Part<'a, 'd, T: ShareRun> {
    alloc: Global,
    design: &'a Design,
    shown: Shown<'a>,
    berths: &'d [Mutex<Berth<'a, T>>],
    desk: &'d Mutex<Desk<T>>,
    shelf: &'d Mutex<Shelf<T>>,
    home: usize,
}

impl<'a, 'd, T: ShareRun> Model for Part<'a, 'd, T> {
    ghost use Rattle.std.specs.Prelude.{ℕ};
    ghost use Rattle.cmb_shares.specs.Inner.Texts.{IsOf};

    // The place of its own share.
    ghost Value = { ℕ };

    ghost view = { λ part. part.home };

    ghost invariant = { λ part. IsOf T.run part.design.now part.shown };
}

/// So many parts, of which each of the first ones has a share of its own. Errors: memory was refused.
pub(crate) fn parts_of<'a, 'd, T: ShareRun>(
    alloc: Global,
    design: &'a Design,
    shown: Shown<'a>,
    berths: &'d [Mutex<Berth<'a, T>>],
    desk: &'d Mutex<Desk<T>>,
    shelf: &'d Mutex<Shelf<T>>,
    count: usize,
) -> Result<Vec<Part<'a, 'd, T>>, AllocError>
    requires { IsOf T.run design.now shown }
{
    let mut parts = Vec::new(alloc);
    for home in 0..count {
        parts.push(Part {
            alloc,
            design,
            shown,
            berths,
            desk,
            shelf,
            home,
        })?;
    }
    Ok(parts)
}

impl<'a, 'd, T: ShareRun> Part<'a, 'd, T> {
    // Its executor. There is none where memory was refused.
    fn open(self) -> Option<Executor<'a, 'd, T>> {
        let Part {
            alloc,
            design,
            shown,
            berths,
            desk,
            shelf,
            home,
        } = self;
        match Free::open(alloc, design, shown) {
            Ok(free) => Some(Executor::new(berths, home, Clerk::new(alloc, free, desk, shelf))),
            Err(_) => None,
        }
    }

    /// Is at work until the run ends.
    pub(crate) fn run<R: Wait>(self, rt: &R) {
        if let Some(mut executor) = self.open() {
            executor.run(rt);
        }
    }

    /// The calling thread's part, which puts the texts in order besides. There is none where memory was refused.
    pub(crate) fn open_flow<R: Wait>(self, rt: &'d R) -> Option<Flow<'a, 'd, T, R>>
        ensures subject { IfSome result (λ flow. flow.subject ≡ subject_in T.run) }
        ensures clock { IfSome result (λ flow. flow.clock ≡ 1) }
    {
        let shelf = self.shelf;
        let executor = self.open()?;
        Some(Flow::new(rt, shelf, executor))
    }
}
