//! A net that goes from worker to worker.

ghost use Rattle.std.specs.Prelude.{◌≡◌, map, All, IfOk, IfSome, OnErr};
ghost use Rattle.std.specs.List.{Contains};

use cmb_run_exact::{ClusterRun, ExactCluster, Posted};
use std::alloc::{AllocError, Global};

/// A net that goes from worker to worker, and a tick: one who sends it has sent it up to there, and one who is given it
/// knows it up to there at least.
#[derive(Clone, Copy)]
pub struct Passing {
    pub net: u32,
    pub upto: u32,
}

/// These nets, of which nothing was sent and nothing is known.
pub(crate) fn unsent(alloc: Global, nets: &[u32]) -> Result<Vec<Passing>, AllocError>
    ensures { IfOk result (λ passing. passing.items ≡ map (λ net. record { net = net; upto = 0 }) nets.now) }
{
    nets.iter()
        .map(|net| Passing { net: *net, upto: 0 })
        .collect(alloc)
}

/// Leaves out the nets that were sent or are known up to the horizon.
pub(crate) fn leave_out_done(nets: &mut Vec<Passing>, horizon: u32)
    ensures { All (Contains nets.old.items) nets.new.items }
{
    nets.retain(|passing| passing.upto < horizon);
}

impl Passing {
    ghost use Rattle.cmb_run_free.specs.Inner.Channels.{IsCut};
    ghost use Rattle.cmb_run_free.specs.Inner.Turns.{IsCutOf};

    /// What is new of the net. A piece without changes isn't put where the board says as much to the reader;
    /// the next piece then begins at the same tick. Up to the horizon no piece follows, so the net is done.
    pub(crate) fn cut<T: ClusterRun>(
        &mut self,
        cluster: &ExactCluster<T>,
        takes_empty: bool,
    ) -> Result<Option<Posted<T>>, AllocError>
        ensures net { self.new.net ≡ self.old.net }
        ensures cut { IfOk result (IsCut T.design.horizon self.old self.new) }
        ensures of { IfOk result (λ posted. IfSome posted (IsCutOf cluster.now)) }
        ensures same { OnErr result (self.new ≡ self.old) }
    {
        let Some(posted) = cluster.post(self.net, self.upto)? else {
            return Ok(None);
        };
        let to = posted.piece().to();
        if !takes_empty && posted.piece().changes().is_empty() {
            if to >= cluster.horizon() {
                self.upto = to;
            }
            drop(posted);
            return Ok(None);
        }
        self.upto = to;
        Ok(Some(posted))
    }
}
