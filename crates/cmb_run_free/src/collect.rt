//! What the calling thread of a free run does while the workers run: it collects what they put.

ghost use Rattle.std.specs.Prelude.{◌≡◌};

use crate::backlog::Backlog;
use crate::crew::Lookout;
use crate::ends::TakeEnd;
use cmb_run_exact::{ClusterRun, RunFault};
use std::alloc::AllocError;
use std::sync::Wait;

// How many pieces are taken from a link before the next one has its turn.
const MOST: u32 = 64;

// Takes what waits in a link, up to so many pieces, and says whether there was one.
fn take_some<T: ClusterRun, R: Wait>(
    rt: &R,
    end: &mut TakeEnd<T>,
    backlog: &mut Backlog<T>,
) -> Result<bool, AllocError>
    ensures { backlog.new.written ≡ backlog.old.written }
{
    let mut found = false;
    for _ in 0..MOST {
        let Some(posted) = end.take(rt) else {
            break;
        };
        let taken = backlog.take(&posted);
        drop(posted);
        taken?;
        found = true;
    }
    Ok(found)
}

/// What was found in the links of all workers.
#[derive(Clone, Copy)]
pub(crate) enum Found {
    /// A piece at least.
    Pieces,
    /// No piece, and workers may still put some.
    Nothing,
    /// No piece, and all workers that were started had finished before: none will come.
    End,
}

/// Takes what waits in the links, up to so many pieces each.
pub(crate) fn take_round<T: ClusterRun, R: Wait>(
    rt: &R,
    lookout: &mut Lookout<T>,
    started: usize,
    backlog: &mut Backlog<T>,
) -> Result<Found, AllocError>
    ensures { backlog.new.written ≡ backlog.old.written }
{
    let over = lookout.finished() as usize >= started;
    let mut any = false;
    for end in lookout.ends.iter_mut() {
        any |= take_some(rt, end, backlog)?;
    }
    Ok(match (any, over) {
        (true, _) => Found::Pieces,
        (false, false) => Found::Nothing,
        (false, true) => Found::End,
    })
}

/// What the calling thread has of a run that it collects. `S` is where the text goes.
pub(crate) trait Collect<T: ClusterRun, S> {
    ghost use Rattle.std.specs.Prelude.{ℕ, Result};
    ghost use Rattle.cmb_run_exact.specs.declared.run_fault.RunFault.{RunFault as Fault};

    /// What it needs before anything is collected.
    ghost is_ready: { Self → S → Type 0 };

    /// What collecting comes to, from before to after.
    ghost is_told: { Self → Self → S → S → Result ℕ Fault → Type 0 };

    /// Collects until all workers that were started have finished, and the links are empty. Gives the number of bytes
    /// that were written.
    fn collect<R: Wait>(
        &mut self,
        rt: &R,
        lookout: &mut Lookout<T>,
        started: usize,
        sink: &mut S,
    ) -> Result<u64, RunFault>
        requires { is_ready self.old sink.old }
        ensures { is_told self.old self.new sink.old sink.new result };
}

/// Where a run's text goes whose text isn't written.
#[derive(Drop)]
pub(crate) struct Nowhere;

impl<T: ClusterRun> Collect<T, Nowhere> for Backlog<T> {
    ghost use Rattle.std.specs.Prelude.{⊤, IfErr};
    ghost use Rattle.cmb_run_exact.specs.declared.run_fault.RunFault.TheVariants.{Memory};

    ghost is_ready = { λ backlog sink. ⊤ };

    // What is written stays as it was, and only memory can be refused.
    ghost is_told = { λ old new before after given.
        (new.written ≡ old.written) × IfErr given (λ fault. fault ≡ Memory) };

    fn collect<R: Wait>(
        &mut self,
        rt: &R,
        lookout: &mut Lookout<T>,
        started: usize,
        _sink: &mut Nowhere,
    ) -> Result<u64, RunFault> {
        for _ in rt.forever() {
            match take_round(rt, lookout, started, self)? {
                Found::End => break,
                found => lookout.rest_after(rt, found),
            }
        }
        Ok(0)
    }
}
