//! What `explain` asks for: one fault's explanation, or the list of all.

use crate::help::{EXPLAIN_COMMAND, EXPLAIN_NUMBER};
use crate::reading::LineFault;
use clap::{Arg, ArgMatches, Command};
use cmb_explain::{explained, explanation_of, fault_list};
use std::alloc::{AllocError, Global};

// The command line of `explain`.
pub(crate) fn explain_command<'a>(alloc: Global) -> Result<Command<'a>, AllocError> {
    Command::new(alloc, "explain").about(EXPLAIN_COMMAND).arg(
        Arg::new(alloc, "number")
            .value_name("N")
            .help(EXPLAIN_NUMBER),
    )
}

// Whether there is an answer: a number, where one is given, has to be that of a fault.
pub(crate) fn explain_fault(matches: &ArgMatches<'_>) -> LineFault {
    let Some(text) = matches.get_str("number") else {
        return LineFault::Help;
    };
    match text.parse::<u32>() {
        Ok(number) if explanation_of(number).is_some() => LineFault::Help,
        _ => LineFault::Wrong,
    }
}

// The explanation of the fault with the number that the text has, or that there is none.
fn one_message(alloc: Global, text: &str) -> Result<String, AllocError> {
    if let Ok(number) = text.parse::<u32>() {
        if let Some(message) = explained(alloc, number)? {
            return Ok(message);
        }
    }
    format!(in alloc;
        "error: no fault has the number '{text}'\n\n`cmbsim explain` lists all faults.\n"
    )
}

// The answer, or what is wrong with the number.
pub(crate) fn explain_message(
    alloc: Global,
    matches: &ArgMatches<'_>,
) -> Result<String, AllocError> {
    match matches.get_str("number") {
        Some(text) => one_message(alloc, text),
        None => fault_list(alloc),
    }
}
