//! The whole text of a run.

ghost use Rattle.std.specs.Prelude.{◌≡◌, ◌-◌, ◌^◌, ◌<◌};
ghost use Rattle.cmb_design_model.specs.Exact.{nets_of};
ghost use Rattle.cmb_dump.specs.Shown.{CanShow, shown_by, vcd_shown, whole_text};
ghost use Rattle.cmb_dump_stream.specs.Parts.{IsAtEndOf};
ghost use Rattle.cmb_dump_stream.specs.Streams.{IsWrittenTo};

use crate::buffer::TextBuffer;
use crate::stream::Stream;
use crate::text_maker::TextMaker;
use cmb_design_model::Design;
use cmb_dump::Shown;
use cmb_io::{Sink, WriteFault};
use std::alloc::Global;

// What is written at a time has so many bytes at least.
const PART: usize = 65_536;

/// Makes the rest of a text of which nothing was handed on and writes it, part after part. Gives the text's length.
/// Whatever the fault, the sink took a beginning of the text. A failed write is the answer then and only then; else
/// memory was refused.
pub fn write_rest<M: TextMaker, S: Sink>(
    maker: M,
    kept: TextBuffer<'_>,
    sink: &mut S,
) -> Result<u64, WriteFault>
    requires room { S.failures sink.old < 2 ^ 64 - 1 }
    requires here { IsAtEndOf kept (M.made maker) }
    requires all { kept.given ≡ 0 }
    ensures { IsWrittenTo S.Sink (whole_text kept.entry.subject) sink.old sink.new result }
{
    let mut maker = maker;
    let mut kept = kept;
    while !kept.is_done() {
        if kept.len() >= PART {
            kept.give(sink)?;
        }
        maker = maker.step(&mut kept)?;
    }
    kept.give(sink)?;
    Ok(kept.given())
}

/// Writes the VCD text of a design's run while it is made, of the nets that are shown, and gives its length. What it
/// needs of memory hardly grows with the horizon. Whatever the fault, the sink took a beginning of the text. A failed
/// write is the answer then and only then; else memory was refused.
pub fn write_stream<S: Sink>(
    alloc: Global,
    design: &Design,
    shown: Shown<'_>,
    sink: &mut S,
) -> Result<u64, WriteFault>
    requires shown { CanShow (nets_of design.now) (shown_by shown) }
    requires room { S.failures sink.old < 2 ^ 64 - 1 }
    ensures { IsWrittenTo S.Sink (vcd_shown design.now (shown_by shown.entry)) sink.old sink.new result }
{
    let (stream, kept) = Stream::open(alloc, design, shown)?;
    write_rest(stream, kept, sink)
}
