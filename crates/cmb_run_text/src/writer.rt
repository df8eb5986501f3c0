//! The text of a run in parts, as the waves of a collector go on.

ghost use Rattle.std.specs.Prelude.{◌≡◌, ◌++◌, Some, unwrap_or, IfOk, OnOk, OnErr};
ghost use Rattle.cmb_design_model.specs.Value.{value};
ghost use Rattle.cmb_run_text.specs.Collector.{IsExactFrom, IsFor, collected_level, least};
ghost use Rattle.cmb_run_text.specs.Writer.{IsNotBefore, begun_text, done_text, new_writer};

use crate::collector::Collector;
use crate::lines::push_header;
use crate::ready_codes::Codes;
use crate::text::push_part;
use cmb_design_model::Design;
use std::alloc::{AllocError, Global};
use std::marker::Model;

/// Gives the text of a design's run part after part.
#[derive(Drop)]
pub struct VcdWriter<'a> {
    design: &'a Design,
    declarations: Vec<u8>,
    codes: Codes,
    done: Option<u32>,
}

impl<'a> Model for VcdWriter<'a> {
    ghost use Rattle.std.specs.Prelude.{◌≡◌};
    ghost use Rattle.cmb_run_text.specs.Vcd.{header};
    ghost use Rattle.cmb_run_text.specs.Writer.{Writer};

    ghost Value = { Writer };

    ghost view = { λ w. record { design = w.design.now; done = w.done } };

    ghost invariant = { λ w. w.declarations.items ≡ header w.design.now.netlist.names };
}

impl<'a> VcdWriter<'a> {
    /// A writer that gave nothing yet.
    pub fn open(alloc: Global, design: &'a Design) -> Result<VcdWriter<'a>, AllocError>
        ensures { IfOk result (λ writer. writer ≡ new_writer design.entry.now) }
    {
        let mut declarations = Vec::new(alloc);
        push_header(&mut declarations, design.netlist())?;
        Ok(VcdWriter {
            design,
            declarations,
            codes: Codes::new(alloc, design.netlist().len() as u16)?,
            done: None,
        })
    }

    /// The tick up to which the text was given, None where nothing was.
    pub fn done(&self) -> Option<u32>
        ensures { result ≡ self.now.done }
    {
        self.done
    }

    // What a part begins with.
    fn begin(&self) -> Result<Vec<u8>, AllocError>
        ensures { IfOk result (λ text. text.items ≡ begun_text self.now) }
    {
        match self.done {
            None => self.declarations.clone(),
            Some(_) => Ok(Vec::new(*self.declarations.allocator())),
        }
    }

    /// What is new of the text now that the collector's waves are known up to its least clock. What lies below the tick
    /// up to which the text was given isn't looked at again, and may be forgotten.
    pub fn extend(&mut self, collector: &Collector) -> Result<Vec<u8>, AllocError>
        requires opened { IsFor self.old.design collector.now }
        requires later { IsNotBefore self.old.done (least collector.now) }
        ensures text { let level = collected_level collector.now.waves in
            IfOk result (λ text. done_text self.old.design level (Some (least collector.now))
            ≡ done_text self.old.design level self.old.done ++ text.items) }
        ensures exact { let level = value self.old.design in
            IsExactFrom self.old.design (unwrap_or self.old.done 0) collector.now
            → IfOk result (λ text. done_text self.old.design level (Some (least collector.now))
            ≡ done_text self.old.design level self.old.done ++ text.items) }
        ensures done { OnOk result (self.new ≡ record self.old { done = Some (least collector.now) }) }
        ensures unchanged { OnErr result (self.new ≡ self.old) }
    {
        let least = collector.least();
        let from = self.done.unwrap_or(0);
        let horizon = self.design.horizon();
        let mut text = self.begin()?;
        push_part(
            &mut text,
            &self.codes,
            collector.waves(),
            horizon,
            from,
            least,
        )?;
        self.done = Some(least);
        Ok(text)
    }
}
