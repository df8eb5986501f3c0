//! VCD texts.

use std::alloc::{AllocError, Global};

const CODES: &str = "!\"#$%&'";

/// The text of at most seven nets: their references, and the lines behind the header, `$dumpvars` and its `$end` left
/// out.
pub fn text_of(alloc: Global, references: &str, body: &str) -> Result<String, AllocError> {
    let mut text = String::from_str(
        alloc,
        "$version cmbsim 1 $end\n$timescale 1 ns $end\n$scope module top $end\n",
    )?;
    for (reference, code) in references.split_whitespace().zip(CODES.chars()) {
        write!(text, "$var wire 1 {code} {reference} $end\n")?;
    }
    text.push_str("$upscope $end\n$enddefinitions $end\n")?;
    let mut ticks = 0u32;
    for line in body.split_whitespace() {
        if line.starts_with("#") {
            ticks = ticks.saturating_add(1);
            if ticks == 2 {
                text.push_str("$end\n")?;
            }
        }
        text.push_str(line)?;
        text.push_str("\n")?;
        if line == "#0" {
            text.push_str("$dumpvars\n")?;
        }
    }
    Ok(text)
}
