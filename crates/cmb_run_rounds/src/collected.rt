//! What is collected of a run in rounds, exact in the run's design by its type.

ghost use Rattle.std.specs.Prelude.{◌≡◌, ◌≤◌, ℕ};
ghost use Rattle.std.specs.List.{AllByRecursion};
ghost use Rattle.cmb_design_model.specs.Exact.{IsExactWaveIn};
ghost use Rattle.cmb_run_text.specs.Collector.{IsExactFor, wave_of};

use cmb_design_model::Design;
use cmb_run_exact::ClusterRun;
use cmb_run_text::Collector;
use cmb_wave::Wave;
use std::alloc::{AllocError, Global};
use std::marker::{Model, PhantomData};

/// What is collected of the run.
#[derive(Drop)]
pub struct Collected<T: ClusterRun> {
    collector: Collector,
    of: PhantomData<T>,
}

impl<T: ClusterRun> Model for Collected<T> {
    ghost use Rattle.cmb_run_text.specs.Collector.{Collector, IsExactFor};

    ghost Value = { Collector };

    ghost view = { λ c. c.collector };

    ghost invariant = { λ c. IsExactFor T.design c.collector };
}

impl<T: ClusterRun> Collected<T> {
    /// Nothing is known.
    pub(crate) fn open(alloc: Global, design: &Design) -> Result<Collected<T>, AllocError>
        requires { design.now ≡ T.design }
    {
        let collector = Collector::open(alloc, design)?;
        Ok(Collected {
            collector,
            of: PhantomData,
        })
    }

    /// Takes waves over, where nothing of them was forgotten.
    pub(crate) fn adopt_all(&mut self, mut waves: Vec<Wave>)
        requires { AllByRecursion (IsExactWaveIn T.design) waves.items }
        ensures keeps { (net : ℕ) → (wave_of self.old.waves net).clock ≤ (wave_of self.new.waves net).clock }
        ensures given { AllByRecursion (λ wave. wave.base ≡ 0 → wave.clock ≤ (wave_of self.new.waves wave.net).clock)
            waves.items }
    {
        while let Some(wave) = waves.pop() {
            self.adopt(wave);
        }
    }

    // Takes a wave over, where nothing of it was forgotten.
    fn adopt(&mut self, wave: Wave)
        requires { IsExactWaveIn T.design wave }
        ensures keeps { (net : ℕ) → (wave_of self.old.waves net).clock ≤ (wave_of self.new.waves net).clock }
        ensures given { wave.base ≡ 0 → wave.clock ≤ (wave_of self.new.waves wave.net).clock }
    {
        if wave.base() == 0 {
            self.collector.adopt(wave);
        }
    }

    /// The collector.
    pub(crate) fn into_collector(self) -> Collector
        ensures collector { result ≡ self }
        ensures exact { IsExactFor T.design result }
    {
        self.collector
    }
}
