//! The texts of `cmbsim explain`.

ghost use Rattle.std.specs.Prelude.{◌≡◌, ◌↔◌, ◌++◌, IfOk, OnOk, IsSome, string_bytes};
ghost use Rattle.cmb_explain.specs.Known.{IsFaultNumber};
ghost use Rattle.cmb_explain.specs.Listed.{ListsUpTo, row, word_of};

use crate::explanation::{Explanation, Place, explanation_of};
use std::alloc::{AllocError, Global};

// The greatest number of a fault.
const LAST: u32 = 70;

const LIST_HEAD: &str = "\
A fault is told by one line on standard error, `cmbsim: fault N at P`, with status 1:

 N  P       is
";

const LIST_END: &str = "
The inputs are 1 the netlist, 2 the delays, 3 the stimuli, 4 the clocks, 5 the list of nets, 6 the
first levels and 7 what is expected. The record of a table is counted from 1, its header being the
first; lines that are empty don't count. Delays are read first, then stimuli, clocks and first levels,
and their rows are then checked in that order; then what is expected. The line of fault 38 is that of
the list.

`cmbsim explain N` has an example of fault N, and says what to do. An empty netlist is no fault:
its waveforms have no nets, and some viewers refuse to open them.
";

// What P is, in a word.
fn place_word(place: Place) -> &'static str
    ensures { result.now ≡ word_of place }
{
    match place {
        Place::Line => "line",
        Place::Record => "record",
        Place::Listed => "line",
        Place::Net => "net",
        Place::Input => "input",
        Place::Bytes => "bytes",
        Place::Nowhere => "0",
    }
}

// What P is.
fn place_words(place: Place) -> &'static str {
    match place {
        Place::Line => "the line of the netlist",
        Place::Record => {
            "the record of the table, its header being 1; lines that are empty don't count"
        }
        Place::Listed => "the line of the list of nets",
        Place::Net => "the number of a net that wasn't complete, the first of the netlist being 0",
        Place::Input => {
            "the input: 1 the netlist, 2 delays, 3 stimuli, 4 clocks, 5 the list of nets, 6 first levels, \
             7 what is expected"
        }
        Place::Bytes => "how many bytes were written",
        Place::Nowhere => "always 0",
    }
}

fn push_explanation(text: &mut String, entry: Explanation) -> Result<(), AllocError> {
    let number = entry.number;
    let place = place_words(entry.place);
    let meaning = entry.meaning;
    write!(
        text,
        "Fault {number} at P: {meaning}\nP is {place}.\n\nAn example:\n"
    )?;
    for line in entry.example.lines() {
        write!(text, "    {line}\n")?;
    }
    let advice = entry.advice;
    write!(text, "\n{advice}\n")
}

/// All that there is to say about the fault with this number: what it means, what its place is, what gives it, and what
/// to do. `None` where a simulation has no such fault.
pub fn explained(alloc: Global, number: u32) -> Result<Option<String>, AllocError>
    ensures { IfOk result (λ text. IsSome text ↔ IsFaultNumber number) }
{
    let Some(entry) = explanation_of(number) else {
        return Ok(None);
    };
    let mut text = String::new(alloc);
    push_explanation(&mut text, entry)?;
    Ok(Some(text))
}

fn push_row(text: &mut String, entry: Explanation) -> Result<(), AllocError>
    ensures { OnOk result (string_bytes text.new
        ≡ string_bytes text.old ++ row entry.number (word_of entry.place) entry.meaning.now) }
{
    let number = entry.number;
    let place = place_word(entry.place);
    let meaning = entry.meaning;
    write!(text, "{number:>2}  {place:<7} {meaning}\n")
}

/// The list of all faults by rising numbers, a line for each.
pub fn fault_list(alloc: Global) -> Result<String, AllocError>
    ensures { IfOk result (λ text. ListsUpTo 70 (string_bytes text)) }
{
    let mut text = String::from_str(alloc, LIST_HEAD)?;
    for number in 1..=LAST {
        if let Some(entry) = explanation_of(number) {
            push_row(&mut text, entry)?;
        }
    }
    text.push_str(LIST_END)?;
    Ok(text)
}
