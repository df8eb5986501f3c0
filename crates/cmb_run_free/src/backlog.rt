//! What is collected of a free run and isn't written yet, exact in the run's design by its type.

ghost use Rattle.std.specs.Prelude.{◌≡◌, ◌≤◌, None, Option, Some, Ok, Err, unwrap_or, IfOk, OnOk};
ghost use Rattle.cmb_run_text.specs.Collector.{Collector as CollectorOf, IsExactFor, IsExactFrom, collected, forgot};
ghost use Rattle.cmb_run_text.specs.Collector.{least};
ghost use Rattle.cmb_run_text.specs.Writer.{IsNotBefore};
ghost use Rattle.cmb_run_text.specs.declared.fault.CollectFault.{CollectFault as Refusal};

use cmb_design_model::Design;
use cmb_run_exact::{ClusterRun, Posted};
use cmb_run_text::{CollectFault, Collector};
use std::alloc::{AllocError, Global};
use std::marker::{Model, PhantomData};

/// The waves of the run's nets, less what of them is written.
#[derive(Drop)]
pub struct Backlog<T: ClusterRun> {
    collector: Collector,
    written: Option<u32>,
    of: PhantomData<T>,
}

impl<T: ClusterRun> Model for Backlog<T> {
    ghost use Rattle.std.specs.Prelude.{unwrap_or};
    ghost use Rattle.cmb_run_text.specs.Collector.{IsExactFrom};
    ghost use Rattle.cmb_run_free.specs.Inner.TextWriters.{Backlog};

    ghost Value = { Backlog };

    ghost view = { λ b. record { collector = b.collector; written = b.written } };

    ghost invariant = { λ b. IsExactFrom T.design (unwrap_or b.written 0) b.collector };
}

impl<T: ClusterRun> Backlog<T> {
    /// Nothing is known, and nothing is written.
    pub(crate) fn open(alloc: Global, design: &Design) -> Result<Backlog<T>, AllocError>
        requires { design.now ≡ T.design }
        ensures { IfOk result (λ backlog. backlog.written ≡ None) }
    {
        let collector = Collector::open(alloc, design)?;
        Ok(Backlog {
            collector,
            written: None,
            of: PhantomData,
        })
    }

    /// Goes on by a piece of a net. What the collector refuses (49 to 52) changes nothing and isn't reported;
    /// of the pieces of a run none is.
    pub(crate) fn take(&mut self, posted: &Posted<T>) -> Result<(), AllocError>
        ensures taken { (collector : CollectorOf) → collected self.old.collector posted.now ≡ Ok collector
            → OnOk result (self.new.collector ≡ collector) }
        ensures refused { (fault : Refusal) → collected self.old.collector posted.now ≡ Err fault
            → self.new.collector ≡ self.old.collector }
        ensures written { self.new.written ≡ self.old.written }
    {
        match self.collector.take(posted.piece()) {
            Err(CollectFault::Memory) => Err(AllocError),
            _ => Ok(()),
        }
    }

    /// The tick up to which the text is written, None where nothing is.
    pub(crate) fn written(&self) -> Option<u32>
        ensures { result ≡ self.now.written }
    {
        self.written
    }

    /// The text is written up to a tick, up to which all is known: what lies below it is forgotten.
    pub(crate) fn wrote(&mut self, upto: u32)
        requires known { upto ≤ least self.old.collector }
        requires later { IsNotBefore self.old.written upto }
        ensures { self.new ≡ record { collector = forgot self.old.collector upto; written = Some upto } }
    {
        self.collector.forget(upto);
        self.written = Some(upto);
    }

    /// What is known so far.
    pub(crate) fn collector(&self) -> &Collector
        ensures collector { result.now ≡ self.now.collector }
        ensures exact { IsExactFrom T.design (unwrap_or self.now.written 0) result.now }
    {
        &self.collector
    }

    /// The collector.
    pub(crate) fn into_collector(self) -> Collector
        ensures collector { result ≡ self.collector }
        ensures exact { IsExactFrom T.design (unwrap_or self.written 0) result }
        ensures whole { self.written ≡ None → IsExactFor T.design result }
    {
        self.collector
    }
}
