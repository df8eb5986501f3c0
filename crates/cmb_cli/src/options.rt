//! The options of the program's commands.

use crate::help::{
    ALL, CLOCK, CLOCKS, CLUSTERS, DELAYS, EXPECTED, EXPLAIN_OPTION, HORIZON, INIT, INITIAL, MODE,
    NO_EXPLAIN, ONLY, ONLY_OUTPUTS, PROGRESS, SCOPES, STATS, STIMULI, THREADS, WORKERS,
};
use clap::builder::ValueParser;
use clap::{Arg, ArgAction, Command};
use std::alloc::{AllocError, Global};

/// What an option takes, and how help calls that.
#[derive(Clone, Copy)]
enum Takes {
    /// It is there or not.
    Nothing,
    Text(&'static str),
    /// A number from 1 to this one.
    Number(&'static str, u64),
    /// One of these values.
    OneOf(&'static str, &'static [&'static str]),
}

/// An option.
#[derive(Clone, Copy)]
pub(crate) struct Choosable {
    name: &'static str,
    takes: Takes,
    /// Its first line is what `-h` shows of the option.
    help: &'static str,
    /// The options beside which it can't stand.
    excludes: &'static [&'static str],
}

/// Of all commands but `explain`: what is simulated, and whether a fault is reported in words.
pub(crate) const SETTINGS: &[Choosable] = &[
    Choosable {
        name: "horizon",
        takes: Takes::Number("N", 1_000_000),
        help: HORIZON,
        excludes: &[],
    },
    Choosable {
        name: "clock",
        takes: Takes::Text("F:P"),
        help: CLOCK,
        excludes: &[],
    },
    Choosable {
        name: "init",
        takes: Takes::OneOf("LEVEL", &["0", "1", "x"]),
        help: INIT,
        excludes: &[],
    },
    Choosable {
        name: "delays",
        takes: Takes::Text("FILE"),
        help: DELAYS,
        excludes: &[],
    },
    Choosable {
        name: "stimuli",
        takes: Takes::Text("FILE"),
        help: STIMULI,
        excludes: &[],
    },
    Choosable {
        name: "clocks",
        takes: Takes::Text("FILE"),
        help: CLOCKS,
        excludes: &[],
    },
    Choosable {
        name: "initial",
        takes: Takes::Text("FILE"),
        help: INITIAL,
        excludes: &[],
    },
    Choosable {
        name: "explain",
        takes: Takes::Nothing,
        help: EXPLAIN_OPTION,
        excludes: &[],
    },
    Choosable {
        name: "no-explain",
        takes: Takes::Nothing,
        help: NO_EXPLAIN,
        excludes: &["explain"],
    },
];

/// Of those that simulate: how that is done. `threads` says how many share the work, where nobody says who has which
/// nets.
pub(crate) const RUNNING: &[Choosable] = &[
    Choosable {
        name: "mode",
        takes: Takes::OneOf("MODE", &["rounds", "free", "plain"]),
        help: MODE,
        excludes: &[],
    },
    Choosable {
        name: "threads",
        takes: Takes::Number("N", 64),
        help: THREADS,
        excludes: &["workers", "clusters"],
    },
    Choosable {
        name: "workers",
        takes: Takes::Number("W", 64),
        help: WORKERS,
        excludes: &[],
    },
    Choosable {
        name: "clusters",
        takes: Takes::Number("K", 64),
        help: CLUSTERS,
        excludes: &[],
    },
];

/// Of `run` and `activity`: which nets are written.
pub(crate) const CHOOSING: &[Choosable] = &[
    Choosable {
        name: "only",
        takes: Takes::Text("FILE"),
        help: ONLY,
        excludes: &["only-outputs"],
    },
    Choosable {
        name: "only-outputs",
        takes: Takes::Nothing,
        help: ONLY_OUTPUTS,
        excludes: &[],
    },
];

/// Of `run`: how the nets are declared.
pub(crate) const SCOPING: &[Choosable] = &[Choosable {
    name: "scopes",
    takes: Takes::Nothing,
    help: SCOPES,
    excludes: &[],
}];

/// Of `expect`: what is compared.
pub(crate) const EXPECTING: &[Choosable] = &[Choosable {
    name: "expected",
    takes: Takes::Text("FILE"),
    help: EXPECTED,
    excludes: &[],
}];

/// Of `check`: how much is named.
pub(crate) const CHECKING: &[Choosable] = &[Choosable {
    name: "all",
    takes: Takes::Nothing,
    help: ALL,
    excludes: &[],
}];

/// Of `run`: what is reported of it on standard error.
pub(crate) const REPORTING: &[Choosable] = &[
    Choosable {
        name: "progress",
        takes: Takes::Nothing,
        help: PROGRESS,
        excludes: &[],
    },
    Choosable {
        name: "stats",
        takes: Takes::Nothing,
        help: STATS,
        excludes: &[],
    },
];

/// The first line of a text of help, which `-h` shows.
pub(crate) fn first_line(text: &'static str) -> &'static str {
    match text.split_once('\n') {
        Some((line, _)) => line,
        None => text,
    }
}

// An option that takes this. The horizon has to be given, and what is compared.
fn taking<'a>(arg: Arg<'a>, takes: Takes) -> Arg<'a> {
    match takes {
        Takes::Nothing => arg.action(ArgAction::SetTrue),
        Takes::Text(value) => arg.value_name(value),
        Takes::Number(value, most) => arg
            .value_name(value)
            .value_parser(ValueParser::unsigned(1, most)),
        Takes::OneOf(value, values) => arg.value_name(value).value_parser(values),
    }
}

// An option as clap knows it.
fn arg_of<'a>(alloc: Global, option: &Choosable) -> Result<Arg<'a>, AllocError> {
    let arg = Arg::new(alloc, option.name)
        .long(option.name)
        .help(first_line(option.help))
        .long_help(option.help)
        .required(option.name == "horizon" || option.name == "expected");
    let mut arg = taking(arg, option.takes);
    for other in option.excludes {
        arg = arg.conflicts_with(*other)?;
    }
    Ok(arg)
}

/// The command with these options.
pub(crate) fn with_options<'a>(
    alloc: Global,
    command: Command<'a>,
    options: &[Choosable],
) -> Result<Command<'a>, AllocError> {
    let mut command = command;
    for option in options {
        command = command.arg(arg_of(alloc, option)?)?;
    }
    Ok(command)
}
