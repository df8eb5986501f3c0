//! Command lines.

use crate::checks::{contains, holds, same};
use cmb_cli::{LineFault, line_message, read_line};
use cmb_cli_line::{Choice, Line, Mode, Pick, Task};
use cmb_netlist::PartCount;
use cmb_wave::Level;
use std::alloc::{AllocError, Global};
use std::process::Abort;
use std::test::Fail;

fn words(alloc: Global, line: &str) -> Result<Vec<String>, AllocError> {
    let mut all = Vec::new(alloc);
    for word in line.split_whitespace() {
        all.push(String::from_str(alloc, word)?)?;
    }
    Ok(all)
}

// What is read of a line.
fn answer_of(alloc: Global, line: &str) -> Result<Result<Line, LineFault>, AllocError> {
    let words = words(alloc, line)?;
    Ok(read_line(alloc, words.as_slice(), false))
}

// What a line asks for.
fn line_of(alloc: Global, line: &str) -> Result<Line, Fail> {
    match answer_of(alloc, line)? {
        Ok(line) => Ok(line),
        Err(_) => Err(Fail::new("a line is refused")),
    }
}

// A line that isn't read, and why.
fn refused(rt: &impl Abort, alloc: Global, line: &str, want: LineFault) -> Result<(), Fail> {
    let fault = answer_of(alloc, line)?.err();
    same(rt, (line, fault), (line, Some(want)));
    Ok(())
}

// A line that asks for a run in this mode.
fn runs(rt: &impl Abort, alloc: Global, line: &str, mode: Mode) -> Result<(), Fail> {
    let line = line_of(alloc, line)?;
    same(rt, (line.task, line.mode), (Task::Run, mode));
    Ok(())
}

#[test]
fn wrong_settings_and_modes(rt: HostRuntime) -> Result<(), Fail> {
    for line in [
        "run",
        "run --mode plain",
        "run --horizon 0 --mode plain",
        "run --horizon 1000001 --mode plain",
        "run --horizon 10 --mode slow",
        "run --horizon 10 --workers 0",
        "run --horizon 10 --workers 65",
        "run --horizon 10 --clusters 0",
        "run --horizon 10 --clusters 65",
        "run --horizon 10 --threads 0",
        "run --horizon 10 --threads 65",
        "run --horizon 10 --threads 2 --workers 2",
        "run --horizon 10 --clusters 1 --threads 2",
        "run --horizon 10 --mode plain --init y",
        "run --horizon 0 --mode plain --clock 2-4",
    ] {
        refused(&rt, rt.alloc(), line, LineFault::Wrong)?;
    }
    Ok(())
}

#[test]
fn wrong_words_of_runs(rt: HostRuntime) -> Result<(), Fail> {
    for line in [
        "run --horizon 10 --only nets --only-outputs",
        "run --horizon 10 --only",
        "run --horizon 10 --horizon 11 --mode plain",
        "run --horizon 10 --mode plain more",
        "run --version",
        "run --horizon 10 netlist.bench",
        "run --horizon 10 --explain yes",
        "run --horizon 10 --stats yes",
        "run --horizon 10 --scopes yes",
        "run --horizon 10 --progress --progress",
    ] {
        refused(&rt, rt.alloc(), line, LineFault::Wrong)?;
    }
    Ok(())
}

#[test]
fn wrong_tasks(rt: HostRuntime) -> Result<(), Fail> {
    for line in [
        "",
        "check --horizon 10 --only nets",
        "walk",
        "netlist.bench",
        "check",
        "check --horizon 10 --mode plain",
        "check --horizon 10 --stats",
        "check --horizon 10 --progress",
        "check --horizon 10 --scopes",
        "activity --horizon 10 --scopes",
        "expect --horizon 10 --expected want.csv --scopes",
        "expect --horizon 10",
        "expect --expected want.csv",
        "expect --horizon 10 --expected want.csv --only nets",
        "expect --horizon 10 --expected want.csv --progress",
        "run --horizon 10 --expected want.csv",
        "run --horizon 10 --all",
        "activity --horizon 10 --all",
        "explain 9",
        "explain all",
        "explain 1 2",
    ] {
        refused(&rt, rt.alloc(), line, LineFault::Wrong)?;
    }
    Ok(())
}

#[test]
fn wrong_clocks(rt: HostRuntime) -> Result<(), Fail> {
    for line in [
        "run --horizon 10 --mode plain --clock 2-4",
        "run --horizon 10 --mode plain --clock 2:12345678",
        "check --horizon 10 --clock 2-4",
    ] {
        refused(&rt, rt.alloc(), line, LineFault::Clock)?;
    }
    Ok(())
}

#[test]
fn help_and_explanations(rt: HostRuntime) -> Result<(), Fail> {
    for line in [
        "--help",
        "-h",
        "help",
        "help run",
        "run --help",
        "run -h",
        "--version",
        "-V",
        "explain",
        "explain 23",
        "explain --help",
    ] {
        refused(&rt, rt.alloc(), line, LineFault::Help)?;
    }
    Ok(())
}

#[test]
fn whole_line(rt: HostRuntime) -> Result<(), Fail> {
    let words = "run --horizon=012 --clock 2:4 --init 0 --mode plain --stimuli in.csv";
    let line = line_of(rt.alloc(), words)?;
    same(
        &rt,
        (line.settings.horizon, line.settings.clock),
        (12, Some((2, 4))),
    );
    same(&rt, line.settings.init, Level::Zero);
    holds(
        &rt,
        line.stimuli.is_some_and(|name| name.as_str() == "in.csv"),
    );
    holds(&rt, line.delays.is_none() && line.clocks.is_none());
    holds(&rt, line.initial.is_none());
    Ok(())
}

// A line that asks for this task, with a fault in words or without.
fn asks_for(
    rt: &impl Abort,
    alloc: Global,
    line: &str,
    task: Task,
    explain: bool,
) -> Result<(), Fail> {
    let line = line_of(alloc, line)?;
    same(rt, (line.task, line.explain), (task, explain));
    Ok(())
}

#[test]
fn tasks_of_lines(rt: HostRuntime) -> Result<(), Fail> {
    let alloc = rt.alloc();
    asks_for(&rt, alloc, "run --horizon 10", Task::Run, false)?;
    asks_for(&rt, alloc, "run --explain --horizon 10", Task::Run, true)?;
    let expect = "expect --horizon 10 --expected want.csv";
    asks_for(&rt, alloc, expect, Task::Expect, false)?;
    asks_for(
        &rt,
        alloc,
        "check --horizon 10 --clock 2:4",
        Task::Check,
        false,
    )?;
    asks_for(
        &rt,
        alloc,
        "check --horizon 10 --explain",
        Task::Check,
        true,
    )
}

#[test]
fn names_of_a_check(rt: HostRuntime) -> Result<(), Fail> {
    let few = line_of(rt.alloc(), "check --horizon 10")?;
    same(&rt, few.named, 20);
    let all = line_of(rt.alloc(), "check --horizon 10 --all")?;
    same(&rt, all.named, 65_535);
    Ok(())
}

const ONE: PartCount = PartCount::ONE;

const ALONE: Mode = Mode::Rounds {
    workers: ONE,
    clusters: ONE,
};

const ALONE_FREELY: Mode = Mode::Free {
    workers: ONE,
    clusters: ONE,
};

// So many workers, clusters or threads.
fn parts(n: u32) -> Result<PartCount, Fail> {
    match PartCount::new(n) {
        Some(parts) => Ok(parts),
        None => Err(Fail::new("a number of parts is refused")),
    }
}

// A run in this mode, which shows how far it is and tells what it took, or doesn't.
fn tells(
    rt: &impl Abort,
    alloc: Global,
    line: &str,
    mode: Mode,
    told: (bool, bool),
) -> Result<(), Fail> {
    let line = line_of(alloc, line)?;
    same(rt, (line.mode, (line.progress, line.stats)), (mode, told));
    Ok(())
}

#[test]
fn telling_of_lines(rt: HostRuntime) -> Result<(), Fail> {
    let alloc = rt.alloc();
    tells(&rt, alloc, "run --horizon 10", ALONE, (false, false))?;
    tells(&rt, alloc, "run --horizon 10 --stats", ALONE, (false, true))?;
    let line = "run --horizon 10 --progress";
    tells(&rt, alloc, line, ALONE_FREELY, (true, false))?;
    let line = "run --horizon 10 --progress --mode rounds";
    tells(&rt, alloc, line, ALONE, (true, false))?;
    let line = "run --horizon 10 --progress --stats --mode plain";
    tells(&rt, alloc, line, Mode::Plain, (true, true))?;
    let line = "run --horizon 10 --progress --threads 2";
    tells(&rt, alloc, line, ALONE_FREELY, (true, false))
}

#[test]
fn modes_of_lines(rt: HostRuntime) -> Result<(), Fail> {
    let alloc = rt.alloc();
    let rounds = |workers, clusters| Mode::Rounds { workers, clusters };
    runs(&rt, alloc, "run --horizon 10", ALONE)?;
    let line = "run --horizon 10 --mode rounds --workers 64";
    runs(&rt, alloc, line, rounds(parts(64)?, ONE))?;
    let line = "run --horizon 10 --clusters 64 --workers 2";
    runs(&rt, alloc, line, rounds(parts(2)?, parts(64)?))?;
    let free = Mode::Free {
        workers: parts(3)?,
        clusters: parts(5)?,
    };
    let line = "run --horizon 10 --mode free --clusters 5 --workers 3";
    runs(&rt, alloc, line, free)
}

// A line that asks for a run in this mode, by so many threads where it says that.
fn shares(
    rt: &impl Abort,
    alloc: Global,
    line: &str,
    mode: Mode,
    threads: Option<PartCount>,
) -> Result<(), Fail> {
    let line = line_of(alloc, line)?;
    same(rt, (line.mode, line.threads), (mode, threads));
    Ok(())
}

#[test]
fn threads_of_lines(rt: HostRuntime) -> Result<(), Fail> {
    let alloc = rt.alloc();
    let line = "run --horizon 10 --threads 1";
    shares(&rt, alloc, line, ALONE, Some(ONE))?;
    let line = "run --horizon 10 --mode free --threads 64";
    shares(&rt, alloc, line, ALONE_FREELY, Some(parts(64)?))?;
    let line = "run --horizon 10 --threads 4 --mode plain";
    shares(&rt, alloc, line, Mode::Plain, Some(parts(4)?))?;
    shares(&rt, alloc, "run --horizon 10", ALONE, None)
}

// A line that chooses these nets, by the list in this file where one is named.
fn chooses(
    rt: &impl Abort,
    alloc: Global,
    line: &str,
    choice: Choice,
    only: Option<&str>,
) -> Result<(), Fail> {
    let line = line_of(alloc, line)?;
    same(rt, line.choice, choice);
    holds(rt, line.only.as_ref().map(|name| name.as_str()) == only);
    Ok(())
}

#[test]
fn choices_of_lines(rt: HostRuntime) -> Result<(), Fail> {
    let alloc = rt.alloc();
    chooses(&rt, alloc, "run --horizon 10", Choice::All, None)?;
    let listed = Choice::Only(Pick::Listed);
    chooses(
        &rt,
        alloc,
        "run --horizon 10 --only nets",
        listed,
        Some("nets"),
    )?;
    let outputs = Choice::Only(Pick::Outputs);
    chooses(&rt, alloc, "run --horizon 10 --only-outputs", outputs, None)
}

#[test]
fn scopes_of_lines(rt: HostRuntime) -> Result<(), Fail> {
    let line = line_of(rt.alloc(), "run --horizon 10 --only-outputs --scopes")?;
    holds(
        &rt,
        line.scopes && line.choice == Choice::Only(Pick::Outputs),
    );
    let line = line_of(rt.alloc(), "run --horizon 10 --mode free --stats")?;
    holds(&rt, !line.scopes);
    Ok(())
}

fn message_of(alloc: Global, line: &str) -> Result<String, AllocError> {
    let words = words(alloc, line)?;
    line_message(alloc, words.as_slice(), false)
}

#[test]
fn messages(rt: HostRuntime) -> Result<(), Fail> {
    let alloc = rt.alloc();
    for (line, part) in [
        ("--help", "Usage: cmbsim <COMMAND>"),
        ("run --help", "Usage: cmbsim run [OPTIONS] --horizon <N>"),
        ("run --help", "cmbsim run --horizon 10 --stimuli"),
        ("run --horizon 0 --mode plain", "error: invalid value '0'"),
        (
            "run --horizon 10 --mode slow",
            "error: invalid value 'slow'",
        ),
        ("run --mode plain", "--horizon <N>"),
        ("", "cmbsim run --horizon 1000 --stimuli stimuli.csv <"),
        ("--help", "The usual case"),
        ("run --help", "The usual case"),
        ("run --horizon 10 n.bench", "< netlist.bench"),
        ("netlist.bench", "< netlist.bench"),
        ("run --horizon 10 -o waves.vcd", "> waves.vcd"),
        ("run --horizon 10 --output waves.vcd", "> waves.vcd"),
        ("--horizon 10", "error: options stand behind a command\n"),
        ("run --horizon 10 --explain --clock 5", "--clock 9:10"),
        ("explain", "\n70  0       out of memory\n"),
        ("explain 70", "Fault 70 at P: out of memory\n"),
        ("explain 9", "error: no fault has the number '9'\n"),
    ] {
        let message = message_of(alloc, line)?;
        contains(&rt, message.as_str(), part);
    }
    Ok(())
}

#[test]
fn version(rt: HostRuntime) -> Result<(), Fail> {
    let alloc = rt.alloc();
    let message = message_of(alloc, "--version")?;
    same(&rt, message.as_str(), "cmbsim 1\n");
    let message = message_of(alloc, "run --horizon 10 --slow")?;
    holds(&rt, !message.as_str().contains("< netlist.bench"));
    Ok(())
}

#[test]
fn help_has_the_forms(rt: HostRuntime) -> Result<(), Fail> {
    let alloc = rt.alloc();
    for line in ["--help", "run --help", "help", "help run"] {
        let message = message_of(alloc, line)?;
        for part in [
            "\n    INPUT(a)\n    y = NAND(a, b)\n",
            "\n    by,name,delay\n    kind,NAND,3\n",
            "\n    tick,net,value\n    5,a,1\n",
            "\n    net,first,period\n    q,4,10\n",
            "one tick as 1 ns",
            "Status 0:",
            "Status 1: a fault",
            "Status 2:",
            "`cmbsim: fault N at P`",
            "\n    cmbsim run --horizon 10 --stimuli stimuli.csv < netlist.bench > inverter.vcd",
        ] {
            contains(&rt, message.as_str(), part);
        }
    }
    Ok(())
}

// What `-h` says has the usage, but not the forms of the files nor a second line of an option.
#[test]
fn short_help(rt: HostRuntime) -> Result<(), Fail> {
    for line in ["-h", "run -h"] {
        let message = message_of(rt.alloc(), line)?;
        contains(&rt, message.as_str(), "\nUsage: cmbsim ");
        for part in ["INPUT(a)", "by,name,delay", "Status 1", "same in each mode"] {
            holds(&rt, !message.as_str().contains(part));
        }
    }
    Ok(())
}

// Both forms of help have each option of `run`.
#[test]
fn help_has_each_option(rt: HostRuntime) -> Result<(), Fail> {
    options_stand_in(&rt, rt.alloc(), "run --help")?;
    options_stand_in(&rt, rt.alloc(), "run -h")
}

fn options_stand_in(rt: &impl Abort, alloc: Global, line: &str) -> Result<(), Fail> {
    let message = message_of(alloc, line)?;
    for option in [
        "--explain",
        "--progress",
        "--stats",
        "--horizon <N>",
        "--clock <F:P>",
        "--init <LEVEL>",
        "--delays <FILE>",
        "--stimuli <FILE>",
        "--clocks <FILE>",
        "--initial <FILE>",
        "--mode <MODE>",
        "--threads <N>",
        "--workers <W>",
        "--clusters <K>",
        "--only <FILE>",
        "--only-outputs",
        "--scopes",
    ] {
        contains(rt, message.as_str(), option);
    }
    Ok(())
}

// A line, where standard error is a terminal or isn't: whether it tells words, and whether a closed pipe is quiet.
fn says(
    rt: &impl Abort,
    alloc: Global,
    line: &str,
    on_terminal: bool,
    want: (bool, bool),
) -> Result<(), Fail> {
    let words = words(alloc, line)?;
    let Ok(line) = read_line(alloc, words.as_slice(), on_terminal) else {
        return Err(Fail::new("a line is refused"));
    };
    same(rt, (line.explain, line.quiet), want);
    Ok(())
}

#[test]
fn words_unasked(rt: HostRuntime) -> Result<(), Fail> {
    let alloc = rt.alloc();
    for (line, piped, shown) in [
        ("run --horizon 10", (false, false), (true, true)),
        ("run --horizon 10 --explain", (true, false), (true, true)),
        (
            "run --horizon 10 --no-explain",
            (false, false),
            (false, false),
        ),
        ("check --horizon 10", (false, false), (true, true)),
    ] {
        says(&rt, alloc, line, false, piped)?;
        says(&rt, alloc, line, true, shown)?;
    }
    refused(
        &rt,
        alloc,
        "run --horizon 10 --explain --no-explain",
        LineFault::Wrong,
    )
}

// The form of a clock is shown to a terminal, and into a pipe where words are asked for.
#[test]
fn form_of_clocks(rt: HostRuntime) -> Result<(), Fail> {
    let alloc = rt.alloc();
    for (line, on_terminal, is_shown) in [
        ("run --horizon 10 --clock 5", false, false),
        ("run --horizon 10 --clock 5", true, true),
        ("run --horizon 10 --clock 5 --no-explain", true, false),
        ("run --horizon 10 --clock 5 --explain", false, true),
    ] {
        let words = words(alloc, line)?;
        let message = line_message(alloc, words.as_slice(), on_terminal)?;
        same(
            &rt,
            message.as_str().contains("--clock 5 isn't F:P"),
            is_shown,
        );
    }
    Ok(())
}
