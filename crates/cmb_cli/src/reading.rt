//! The words of the program's command line, and what is said of words that ask for nothing.

ghost use Rattle.std.specs.Prelude.{◌≡◌, ◌≤◌, ◌↔◌, IfOk, IsSome, Some, false, true};
ghost use Rattle.std.specs.Prelude.{codes, option_map, string_bytes};
ghost use Rattle.clap.specs.Matches.{first_value, found_of, one_text};
ghost use Rattle.cmb_cli.specs.Inner.Clocks.{IsClockIn};
ghost use Rattle.cmb_cli_line.specs.declared.choice.Choice.TheVariants.{Only};
ghost use Rattle.cmb_cli_line.specs.declared.choice.Pick.TheVariants.{Listed};

use crate::clock::{clock_message, clock_of};
use crate::explaining::{explain_command, explain_fault, explain_message};
use crate::help::{
    ABOUT, ACTIVITY, BEGIN, BELOW_ACTIVITY, BELOW_EXPECT, BELOW_RUN, CHECK, EXPECT, NETLIST_HINT,
    NO_COMMAND, RUN, USUAL, VERSION,
};
use crate::options::{
    CHECKING, CHOOSING, EXPECTING, REPORTING, RUNNING, SCOPING, SETTINGS, first_line, with_options,
};
use crate::reporting::{is_explained, is_quiet};
use clap::error::ErrorKind;
use clap::{ArgMatches, Command, Error};
use cmb_cli_line::{Choice, Line, Mode, Pick, Task};
use cmb_design_model::Settings;
use cmb_netlist::PartCount;
use cmb_wave::Level;
use std::alloc::{AllocError, Global};

/// Why the words ask for nothing that is done with a design.
#[derive(Clone, Copy, Debug, PartialEq, Eq)]
pub enum LineFault {
    /// They ask for help, for the version, or for the explanation of a fault.
    Help,
    /// They aren't a line of the program. To ask for a fault that there isn't is none.
    Wrong,
    /// The value of `--clock` isn't `F:P`, in a line that isn't otherwise wrong.
    Clock,
    Memory,
}

impl From<AllocError> for LineFault {
    ghost use Rattle.cmb_cli.specs.declared.reading.LineFault.TheVariants.{Memory};

    ghost from_gives = { λ _ e. e ≡ Memory };

    fn from(_e: AllocError) -> LineFault {
        LineFault::Memory
    }
}

const MOST_TICKS: u32 = 1_000_000;

/// How many a check names of each thing that it counts.
const NAMED: usize = 20;

/// No netlist has more nets, so all are named.
const ALL_NAMED: usize = 65_535;

// The command line of `run`.
fn run_command<'a>(alloc: Global) -> Result<Command<'a>, AllocError> {
    let command = Command::new(alloc, "run")
        .about(first_line(RUN))
        .long_about(RUN)
        .before_help(USUAL)
        .after_long_help(BELOW_RUN);
    let command = with_options(alloc, command, SETTINGS)?;
    let command = with_options(alloc, command, RUNNING)?;
    let command = with_options(alloc, command, CHOOSING)?;
    let command = with_options(alloc, command, SCOPING)?;
    with_options(alloc, command, REPORTING)
}

// The command line of `activity`.
fn activity_command<'a>(alloc: Global) -> Result<Command<'a>, AllocError> {
    let command = Command::new(alloc, "activity")
        .about(ACTIVITY)
        .after_long_help(BELOW_ACTIVITY);
    let command = with_options(alloc, command, SETTINGS)?;
    let command = with_options(alloc, command, RUNNING)?;
    with_options(alloc, command, CHOOSING)
}

// The command line of `expect`.
fn expect_command<'a>(alloc: Global) -> Result<Command<'a>, AllocError> {
    let command = Command::new(alloc, "expect")
        .about(EXPECT)
        .after_long_help(BELOW_EXPECT);
    let command = with_options(alloc, command, SETTINGS)?;
    let command = with_options(alloc, command, RUNNING)?;
    with_options(alloc, command, EXPECTING)
}

// The command line of `check`.
fn check_command<'a>(alloc: Global) -> Result<Command<'a>, AllocError> {
    let command = Command::new(alloc, "check")
        .about(first_line(CHECK))
        .long_about(CHECK);
    let command = with_options(alloc, command, SETTINGS)?;
    with_options(alloc, command, CHECKING)
}

// The program's command line without its commands.
fn bare_command<'a>(alloc: Global) -> Result<Command<'a>, AllocError> {
    Ok(
        Command::new(alloc, "cmbsim")
            .version(VERSION)
            .about(ABOUT)
            .before_help(USUAL)
            .after_long_help(BELOW_RUN)
            .bin_name("cmbsim")?
            .no_binary_name(true)
            .subcommand_required(true),
    )
}

// A command line with one more command, where that could be made.
fn with_command<'a>(
    line: Command<'a>,
    command: Result<Command<'a>, AllocError>,
) -> Result<Command<'a>, AllocError> {
    line.subcommand(command?)
}

// The whole command line.
fn whole_command<'a>(alloc: Global) -> Result<Command<'a>, AllocError> {
    let line = with_command(bare_command(alloc)?, run_command(alloc))?;
    let line = with_command(line, activity_command(alloc))?;
    let line = with_command(line, expect_command(alloc))?;
    let line = with_command(line, check_command(alloc))?;
    with_command(line, explain_command(alloc))
}

fn parse<'a>(alloc: Global, words: &'a [String]) -> Result<ArgMatches<'a>, Error> {
    whole_command(alloc)?.try_get_matches_from(words)
}

fn fault_of(kind: ErrorKind) -> LineFault {
    match kind {
        ErrorKind::DisplayHelp | ErrorKind::DisplayVersion => LineFault::Help,
        ErrorKind::OutOfMemory => LineFault::Memory,
        _ => LineFault::Wrong,
    }
}

fn number_of(text: &str) -> Result<u32, LineFault> {
    text.parse::<u32>().map_err(|_| LineFault::Wrong)
}

fn horizon_of(matches: &ArgMatches<'_>) -> Result<u32, LineFault>
    ensures { IfOk result (λ n. (1 ≤ n) × (n ≤ 1000000)) }
{
    let Some(text) = matches.get_str("horizon") else {
        return Err(LineFault::Wrong);
    };
    match number_of(text)? {
        n if 1 <= n && n <= MOST_TICKS => Ok(n),
        _ => Err(LineFault::Wrong),
    }
}

// How many workers, clusters or threads there are, where the line says that.
fn part_count_of(matches: &ArgMatches<'_>, name: &str) -> Result<Option<PartCount>, LineFault> {
    let Some(text) = matches.get_str(name) else {
        return Ok(None);
    };
    match PartCount::new(number_of(text)?) {
        Some(parts) => Ok(Some(parts)),
        None => Err(LineFault::Wrong),
    }
}

// The mode's name. Where none is given it is rounds, but free where progress is to be seen.
fn mode_name<'a>(matches: &ArgMatches<'a>) -> &'a str {
    match matches.get_str("mode") {
        Some(name) => name,
        None if matches.get_flag("progress") => "free",
        None => "rounds",
    }
}

// How the design is run: by one worker with one cluster, where the line doesn't say.
fn mode_of(matches: &ArgMatches<'_>) -> Result<Mode, LineFault> {
    let workers = part_count_of(matches, "workers")?.unwrap_or(PartCount::ONE);
    let clusters = part_count_of(matches, "clusters")?.unwrap_or(PartCount::ONE);
    match mode_name(matches) {
        "plain" => Ok(Mode::Plain),
        "free" => Ok(Mode::Free { workers, clusters }),
        _ => Ok(Mode::Rounds { workers, clusters }),
    }
}

// Which nets are written, where a list is named or isn't.
fn choice_of(matches: &ArgMatches<'_>, is_listed: bool) -> Choice
    ensures { (result ≡ Only Listed) ↔ (is_listed ≡ true) }
{
    if is_listed {
        Choice::Only(Pick::Listed)
    } else if matches.get_flag("only-outputs") {
        Choice::Only(Pick::Outputs)
    } else {
        Choice::All
    }
}

fn init_of(matches: &ArgMatches<'_>) -> Level {
    match matches.get_str("init") {
        Some("0") => Level::Zero,
        Some("1") => Level::One,
        _ => Level::X,
    }
}

// How many a check names of each thing that it counts, at most.
fn named_of(matches: &ArgMatches<'_>) -> usize {
    if matches.get_flag("all") {
        ALL_NAMED
    } else {
        NAMED
    }
}

fn common_clock(matches: &ArgMatches<'_>) -> Result<Option<(u32, u32)>, LineFault>
    ensures { IfOk result (IsClockIn (found_of matches.now)) }
{
    match matches.get_str("clock") {
        Some(text) => match clock_of(text) {
            Some(clock) => Ok(Some(clock)),
            None => Err(LineFault::Clock),
        },
        None => Ok(None),
    }
}

fn file_of(
    alloc: Global,
    matches: &ArgMatches<'_>,
    name: &str,
) -> Result<Option<String>, AllocError>
    ensures { IfOk result (λ file. option_map string_bytes file ≡ first_value (found_of matches.now) name.now) }
{
    match matches.get_str(name) {
        Some(text) => Ok(Some(String::from_str(alloc, text)?)),
        None => Ok(None),
    }
}

// The files that a line names.
#[derive(Drop)]
struct Files {
    delays: Option<String>,
    stimuli: Option<String>,
    clocks: Option<String>,
    initial: Option<String>,
    only: Option<String>,
    expected: Option<String>,
}

fn files_of(alloc: Global, matches: &ArgMatches<'_>) -> Result<Files, AllocError>
    ensures delays { IfOk result (λ of. option_map string_bytes of.delays
        ≡ first_value (found_of matches.now) (codes "delays")) }
    ensures stimuli { IfOk result (λ of. option_map string_bytes of.stimuli
        ≡ first_value (found_of matches.now) (codes "stimuli")) }
    ensures clocks { IfOk result (λ of. option_map string_bytes of.clocks
        ≡ first_value (found_of matches.now) (codes "clocks")) }
    ensures initial { IfOk result (λ of. option_map string_bytes of.initial
        ≡ first_value (found_of matches.now) (codes "initial")) }
    ensures only { IfOk result (λ of. option_map string_bytes of.only
        ≡ first_value (found_of matches.now) (codes "only")) }
    ensures expected { IfOk result (λ of. option_map string_bytes of.expected
        ≡ first_value (found_of matches.now) (codes "expected")) }
{
    Ok(Files {
        delays: file_of(alloc, matches, "delays")?,
        stimuli: file_of(alloc, matches, "stimuli")?,
        clocks: file_of(alloc, matches, "clocks")?,
        initial: file_of(alloc, matches, "initial")?,
        only: file_of(alloc, matches, "only")?,
        expected: file_of(alloc, matches, "expected")?,
    })
}

fn settings_of(matches: &ArgMatches<'_>) -> Result<Settings, LineFault>
    ensures horizon { IfOk result (λ settings. (1 ≤ settings.horizon) × (settings.horizon ≤ 1000000)) }
    ensures clock { IfOk result (λ settings. IsClockIn (found_of matches.now) settings.clock) }
{
    let horizon = horizon_of(matches)?;
    let clock = common_clock(matches)?;
    let init = init_of(matches);
    Ok(Settings {
        horizon,
        clock,
        init,
    })
}

fn line_of(
    alloc: Global,
    task: Task,
    matches: &ArgMatches<'_>,
    on_terminal: bool,
) -> Result<Line, LineFault>
    ensures horizon { IfOk result (λ line. (1 ≤ line.settings.horizon) × (line.settings.horizon ≤ 1000000)) }
    ensures clock { IfOk result (λ line. IsClockIn (found_of matches.now) line.settings.clock) }
    ensures choice { IfOk result (λ line. (line.choice ≡ Only Listed) ↔ IsSome line.only) }
    ensures scopes { IfOk result (λ line. (one_text (found_of matches.now) (codes "scopes") ≡ Some (codes "true"))
        → (line.scopes ≡ true)) }
    ensures plain { IfOk result (λ line. (one_text (found_of matches.now) (codes "scopes") ≡ Some (codes "false"))
        → (line.scopes ≡ false)) }
    ensures quiet { IfOk result (λ line. (line.quiet ≡ true) → (on_terminal ≡ true) × (line.explain ≡ true)) }
    ensures delays { IfOk result (λ line. option_map string_bytes line.delays
        ≡ first_value (found_of matches.now) (codes "delays")) }
    ensures stimuli { IfOk result (λ line. option_map string_bytes line.stimuli
        ≡ first_value (found_of matches.now) (codes "stimuli")) }
    ensures clocks { IfOk result (λ line. option_map string_bytes line.clocks
        ≡ first_value (found_of matches.now) (codes "clocks")) }
    ensures initial { IfOk result (λ line. option_map string_bytes line.initial
        ≡ first_value (found_of matches.now) (codes "initial")) }
    ensures only { IfOk result (λ line. option_map string_bytes line.only
        ≡ first_value (found_of matches.now) (codes "only")) }
    ensures expected { IfOk result (λ line. option_map string_bytes line.expected
        ≡ first_value (found_of matches.now) (codes "expected")) }
{
    let mode = mode_of(matches)?;
    let threads = part_count_of(matches, "threads")?;
    let settings = settings_of(matches)?;
    let files = files_of(alloc, matches)?;
    let quiet = is_quiet(matches, on_terminal);
    Ok(Line {
        task,
        explain: is_explained(matches, quiet),
        quiet,
        progress: matches.get_flag("progress"),
        stats: matches.get_flag("stats"),
        settings,
        mode,
        threads,
        choice: choice_of(matches, files.only.is_some()),
        scopes: matches.get_flag("scopes"),
        named: named_of(matches),
        delays: files.delays,
        stimuli: files.stimuli,
        clocks: files.clocks,
        initial: files.initial,
        only: files.only,
        expected: files.expected,
    })
}

// The line of the command that is met.
fn line_in(alloc: Global, matches: &ArgMatches<'_>, on_terminal: bool) -> Result<Line, LineFault>
    ensures horizon { IfOk result (λ line. (1 ≤ line.settings.horizon) × (line.settings.horizon ≤ 1000000)) }
    ensures choice { IfOk result (λ line. (line.choice ≡ Only Listed) ↔ IsSome line.only) }
    ensures quiet { IfOk result (λ line. (line.quiet ≡ true) → (on_terminal ≡ true) × (line.explain ≡ true)) }
{
    if let Some(run) = matches.subcommand_matches("run") {
        line_of(alloc, Task::Run, run, on_terminal)
    } else if let Some(activity) = matches.subcommand_matches("activity") {
        line_of(alloc, Task::Activity, activity, on_terminal)
    } else if let Some(expect) = matches.subcommand_matches("expect") {
        line_of(alloc, Task::Expect, expect, on_terminal)
    } else if let Some(check) = matches.subcommand_matches("check") {
        line_of(alloc, Task::Check, check, on_terminal)
    } else if let Some(explain) = matches.subcommand_matches("explain") {
        Err(explain_fault(explain))
    } else {
        Err(LineFault::Wrong)
    }
}

/// Reads the words after the program's name: `run`, `activity`, `expect` or `check`, and its options. The horizon of a
/// line is 1 to 1,000,000 ticks; it chooses the nets of a list just where it names one. Errors: `Help` where the words
/// ask for help, the version or the explanation of a fault, `Wrong` where they aren't a line of the program, `Clock`
/// where only the value of `--clock` has another form, and `Memory`.
///
/// Where standard error is a terminal a fault is reported in words, unless `--no-explain` turns that off.
pub fn read_line(alloc: Global, words: &[String], on_terminal: bool) -> Result<Line, LineFault>
    ensures horizon { IfOk result (λ line. (1 ≤ line.settings.horizon) × (line.settings.horizon ≤ 1000000)) }
    ensures choice { IfOk result (λ line. (line.choice ≡ Only Listed) ↔ IsSome line.only) }
    ensures quiet { IfOk result (λ line. (line.quiet ≡ true) → (on_terminal ≡ true) × (line.explain ≡ true)) }
{
    match parse(alloc, words) {
        Ok(matches) => line_in(alloc, &matches, on_terminal),
        Err(error) => Err(fault_of(error.kind())),
    }
}

// The line begins with an option, where a command should stand.
fn begins_with_option(words: &[String]) -> bool {
    match words.first() {
        Some(word) => word.as_str().starts_with('-'),
        None => false,
    }
}

// A word that belongs to no option is a file, or an option that names the output.
fn is_of_file(text: &str) -> bool {
    match text.strip_prefix("error: unexpected argument '") {
        Some(word) => !word.starts_with('-') || word.starts_with("-o") || word.starts_with("--out"),
        None => false,
    }
}

// What is said further of a wrong line, by what clap says of it.
fn hint(kind: ErrorKind, text: &str) -> &'static str {
    match kind {
        ErrorKind::InvalidSubcommand => NETLIST_HINT,
        ErrorKind::UnknownArgument if is_of_file(text) => NETLIST_HINT,
        _ => "",
    }
}

// What is said of words that aren't a line, or that ask for help or the version.
fn error_message(alloc: Global, words: &[String], error: &Error) -> Result<String, AllocError> {
    match error.kind() {
        ErrorKind::OutOfMemory => Err(AllocError),
        ErrorKind::MissingSubcommand => String::from_str(alloc, BEGIN),
        ErrorKind::UnknownArgument if begins_with_option(words) => {
            String::from_str(alloc, NO_COMMAND)
        }
        kind => {
            let mut text = format!(in alloc; "{error}")?;
            let more = hint(kind, text.as_str());
            text.push_str(more)?;
            Ok(text)
        }
    }
}

// What is said of the options of a line that was read: how a clock is written, where words are wanted.
fn options_message(
    alloc: Global,
    matches: &ArgMatches<'_>,
    on_terminal: bool,
) -> Result<String, AllocError> {
    match matches.get_str("clock") {
        Some(text) if is_explained(matches, is_quiet(matches, on_terminal)) => {
            clock_message(alloc, text)
        }
        _ => Ok(String::new(alloc)),
    }
}

// What is said of a line that was read: the explanation that it asks for, or of its options.
fn answer_message(
    alloc: Global,
    matches: &ArgMatches<'_>,
    on_terminal: bool,
) -> Result<String, AllocError> {
    match matches.subcommand() {
        Some(("explain", explain)) => explain_message(alloc, explain),
        Some((_, options)) => options_message(alloc, options, on_terminal),
        None => Ok(String::new(alloc)),
    }
}

/// What the program says of words that ask for nothing that is done with a design: the text of help, the version or the
/// explanation where they ask for that, else what is wrong with them and how they are written. Where only the value of
/// `--clock` has another form, that is said to a terminal or where words are asked for. Of other words it is empty.
pub fn line_message(
    alloc: Global,
    words: &[String],
    on_terminal: bool,
) -> Result<String, AllocError> {
    match parse(alloc, words) {
        Ok(matches) => answer_message(alloc, &matches, on_terminal),
        Err(error) => error_message(alloc, words, &error),
    }
}
