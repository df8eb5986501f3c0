//! A free run whose text is written part after part, as it is collected.

ghost use Rattle.std.specs.Prelude.{◌≡◌, ◌-◌, ◌^◌, ◌<◌, List, ℕ, None, Option, length, unwrap_or, IfOk, IfErr, OnOk};
ghost use Rattle.std.specs.Io.KnownBytes.{Appends};
ghost use Rattle.cmb_run_text.specs.Collector.{IsExactFrom, least};
ghost use Rattle.cmb_run_free.specs.FreeRuns.{IsCutAt};
ghost use Rattle.cmb_run_free.specs.Inner.TextWriters.{IsToldTo, told};

use crate::backlog::Backlog;
use crate::collect::{Found, take_round};
use crate::crew::Lookout;
use cmb_design_model::Design;
use cmb_io::{Sink, write_whole};
use cmb_run_exact::{ClusterRun, RunFault};
use cmb_run_text::{Collector, VcdWriter};
use std::alloc::{AllocError, Global};
use std::marker::Model;
use std::sync::Wait;

/// What is collected of the run, and who writes its text, part after part. Contracts see what isn't written yet.
#[derive(Drop)]
pub struct TextWriter<'a, T: ClusterRun> {
    backlog: Backlog<T>,
    writer: VcdWriter<'a>,
    given: u64,
}

impl<'a, T: ClusterRun> Model for TextWriter<'a, T> {
    ghost use Rattle.cmb_run_free.specs.Inner.TextWriters.{Backlog, IsTextWriter};

    ghost Value = { Backlog };

    ghost view = { λ t. t.backlog };

    ghost invariant = { λ t. IsTextWriter T.design t.backlog t.writer t.given };
}

impl<'a, T: ClusterRun> TextWriter<'a, T> {
    /// Nothing is known, and nothing is written.
    pub fn open(alloc: Global, design: &'a Design) -> Result<TextWriter<'a, T>, AllocError>
        requires { design.now ≡ T.design }
        ensures { IfOk result (λ text_writer. text_writer.written ≡ None) }
    {
        // The proof learns here that the design is lawful.
        let _horizon = design.horizon();
        let backlog = Backlog::open(alloc, design)?;
        let Ok(writer) = VcdWriter::open(alloc, design) else {
            drop(backlog);
            return Err(AllocError);
        };
        Ok(TextWriter {
            backlog,
            writer,
            given: 0,
        })
    }

    /// Takes what waits in the links, as `collect::take_round` does.
    pub fn take_round<R: Wait>(
        &mut self,
        rt: &R,
        lookout: &mut Lookout<T>,
        started: usize,
    ) -> Result<Found, AllocError>
        ensures { self.new.written ≡ self.old.written }
    {
        take_round(rt, lookout, started, &mut self.backlog)
    }

    /// Writes what is new of the text, now that so much is collected, and forgets what is written. Gives how many bytes
    /// of the text the sink took so far. After an Err the writer isn't to be used again.
    pub fn write_to<S: Sink>(&mut self, sink: &mut S) -> Result<u64, RunFault>
        requires { S.failures sink.old < 2 ^ 64 - 1 }
        ensures ok { (start : Option (List ℕ)) → Appends start (S.taken sink.old) (told T.design self.old.written)
            → OnOk result (Appends start (S.taken sink.new) (told T.design self.new.written)) }
        ensures count { IfOk result (λ given. given ≡ length (told T.design self.new.written)) }
        ensures upto { OnOk result (IsToldTo T.design self.new.written (least self.new.collector)) }
        ensures no_failure { OnOk result (S.failures sink.new ≡ S.failures sink.old) }
        ensures fault { (start : Option (List ℕ)) → Appends start (S.taken sink.old) (told T.design self.old.written)
            → IfErr result (IsCutAt T.design start (S.taken sink.new) (S.failures sink.old) (S.failures sink.new)) }
    {
        let given = self.given;
        let collector = self.backlog.collector();
        let least = collector.least();
        match self.backlog.written() {
            Some(written) if least <= written => return Ok(given),
            _ => {}
        }
        let part = self.writer.extend(collector)?;
        self.backlog.wrote(least);
        self.given += part.len() as u64;
        match write_whole(sink, &part) {
            Ok(()) => Ok(self.given),
            Err(count) => Err(RunFault::Write {
                written: given + count as u64,
            }),
        }
    }

    /// What was collected.
    pub fn into_collector(self) -> Collector
        ensures collector { result ≡ self.entry.collector }
        ensures exact { IsExactFrom T.design (unwrap_or self.entry.written 0) result }
    {
        self.backlog.into_collector()
    }
}
