//! A text that is there whole, written to a sink.

ghost use Rattle.std.specs.Prelude.{◌-◌, ◌^◌, ◌<◌, IfErr, OnOk};
ghost use Rattle.cmb_inputs.specs.Outputs.{HasTaken, IsCutShort, written_to};

use cmb_faults::Fault;
use cmb_io::{Sink, write_whole};

/// Writes a text that is there whole: 62 at the number of bytes that were written where a write fails.
pub fn write_text<O: Sink>(out: &mut O, text: &[u8]) -> Result<(), Fault>
    requires { O.failures out.old < 2 ^ 64 - 1 }
    ensures text { OnOk result (HasTaken text.now (written_to O.Sink out.old out.new)) }
    ensures fault { IfErr result (IsCutShort text.now (written_to O.Sink out.old out.new)) }
{
    match write_whole(out, text) {
        Ok(()) => Ok(()),
        Err(written) => Err(Fault::Write {
            written: written as u64,
        }),
    }
}
