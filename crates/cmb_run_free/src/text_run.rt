//! A free run whose text is written while it runs.

ghost use Rattle.std.specs.Prelude.{◌≡◌, ◌-◌, ◌^◌, ◌<◌, length};
ghost use Rattle.cmb_design_model.specs.Exact.{nets_of};
ghost use Rattle.cmb_run_exact.specs.OfRun.{IsOfRun};
ghost use Rattle.cmb_run_free.specs.FreeRuns.{IsTextRun};

use crate::collect::{Collect, Found};
use crate::crew::{Crew, Lookout};
use crate::run::{run_crew, settled};
use crate::text_writer::TextWriter;
use crate::turnstile::Turnstile;
use cmb_core_cluster::Clustering;
use cmb_design_model::Design;
use cmb_io::Sink;
use cmb_links::Workers;
use cmb_run_exact::{ClusterRun, RunFault};
use std::alloc::Global;
use std::marker::Brand;
use std::sync::Wait;
use std::thread::Threads;

// While pieces come in every round, the text is written once in so many rounds.
const ROUNDS: u32 = 64;

impl<'a, T: ClusterRun, S: Sink> Collect<T, S> for TextWriter<'a, T> {
    ghost use Rattle.std.specs.Prelude.{◌≡◌, ◌-◌, ◌^◌, ◌<◌, None};
    ghost use Rattle.cmb_run_free.specs.Inner.TextWriters.{IsTold};

    ghost is_ready = { λ text_writer sink. (S.failures sink < 2 ^ 64 - 1) × (text_writer.written ≡ None) };

    ghost is_told = { λ old new before after given.
        IsTold T.design (S.taken before) (S.taken after) (S.failures before) (S.failures after) new given };

    // Writes the text of all that was collected, part after part.
    fn collect<R: Wait>(
        &mut self,
        rt: &R,
        lookout: &mut Lookout<T>,
        started: usize,
        sink: &mut S,
    ) -> Result<u64, RunFault> {
        let mut fresh = 0;
        for _ in rt.forever() {
            let found = self.take_round(rt, lookout, started)?;
            let is_due = match found {
                Found::Pieces => {
                    fresh += 1;
                    fresh >= ROUNDS
                }
                Found::Nothing => fresh > 0,
                Found::End => break,
            };
            if is_due {
                self.write_to(sink)?;
                fresh = 0;
            }
            lookout.rest_after(rt, found);
        }
        self.write_to(sink)
    }
}

// The run of the design and the clustering that T names.
fn run_named<T: ClusterRun + Send + Sync, G: Turnstile + Sync, S: Sink, R: Threads + Wait + Sync>(
    rt: &R,
    alloc: Global,
    design: &Design,
    clustering: &Clustering,
    workers: Workers,
    gate: &G,
    sink: &mut S,
) -> Result<u64, RunFault>
    requires room { S.failures sink.old < 2 ^ 64 - 1 }
    requires run { IsOfRun T.design T.clustering design.now clustering.now }
    requires each { clustering.now.clusters ≡ workers }
    ensures { IsTextRun S.Sink design.now sink.old sink.new result }
{
    let text_writer = TextWriter::<T>::open(alloc, design)?;
    let Ok(crew) = Crew::<T>::open(alloc, design, clustering, workers) else {
        drop(text_writer);
        return Err(RunFault::Memory);
    };
    let (text_writer, given, refused) = run_crew(rt, alloc, crew, text_writer, gate, sink);
    let (given, collector) = settled(given, refused, text_writer.into_collector())?;
    drop(collector);
    Ok(given)
}

/// Simulates a design as `run_free` does, and writes its text while the workers run. Gives the text's
/// length. Whatever the fault, the sink took a beginning of the text. A failed write stops the
/// run, and the answer is 62 then and only then, whatever else happened. Else 70 comes where memory or a worker's
/// thread was refused, and 53 where the run was stopped before all was known.
pub fn run_free_text<G: Turnstile + Sync, S: Sink, R: Threads + Wait + Sync>(
    rt: &R,
    alloc: Global,
    design: &Design,
    clustering: &Clustering,
    workers: Workers,
    gate: &G,
    sink: &mut S,
) -> Result<u64, RunFault>
    requires room { S.failures sink.old < 2 ^ 64 - 1 }
    requires nets { length clustering.now.assign ≡ nets_of design.now }
    ensures { IsTextRun S.Sink design.now sink.old sink.new result }
{
    let merged = clustering.merged(alloc, workers.count())?;
    run_named::<Brand, G, S, R>(rt, alloc, design, &merged, workers, gate, sink)
}
