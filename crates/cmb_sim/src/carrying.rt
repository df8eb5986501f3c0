//! What a line asks for, done with sources and a sink.

ghost use Rattle.std.specs.Prelude.{◌≡◌, ◌-◌, ◌^◌, ◌<◌};
ghost use Rattle.cmb_inputs.specs.Inputs.{HaveRoom, in_order, listed, read_from};
ghost use Rattle.cmb_inputs.specs.Outputs.{written_to};
ghost use Rattle.cmb_sim.specs.Tasks.{IsDone, choice_in, last_input};

use crate::activities::measure;
use crate::checking::check;
use crate::expecting::compare;
use crate::simulation::simulate_chosen;
use cmb_cli_line::{Choice, Line, Pick, Request, Task};
use cmb_faults::{Done, Fault};
use cmb_io::{Sink, Source};
use std::sync::Wait;
use std::thread::Threads;

/// Does what a line asks for, with what its inputs have: simulates and writes the waveforms of the nets that the line
/// chooses, or how active these are, or what came otherwise than was expected; or counts and writes the counts. The
/// list of nets is read where the line names one and asks for waveforms or activities; it is the table of what is
/// expected where the line asks for that. The faults are those of `simulate_chosen`, of `measure`, of `compare` and of
/// `check`.
pub fn carry_out<
    R: AllocGlobal + Threads + Wait + Sync,
    B: Source,
    D: Source,
    S: Source,
    C: Source,
    I: Source,
    L: Source,
    O: Sink,
>(
    rt: &R,
    line: &Line,
    bench: &mut B,
    delays: &mut D,
    stimuli: &mut S,
    clocks: &mut C,
    initial: &mut I,
    list: &mut L,
    out: &mut O,
) -> Result<Done, Fault>
    requires sources { HaveRoom (B.failures bench.old) (D.failures delays.old)
        (S.failures stimuli.old) (C.failures clocks.old) (I.failures initial.old) }
    requires list { L.failures list.old < 2 ^ 64 - 1 }
    requires out { O.failures out.old < 2 ^ 64 - 1 }
    ensures done { IsDone line.now (in_order (read_from B.Source 1 bench.old bench.new)
        (read_from D.Source 2 delays.old delays.new) (read_from S.Source 3 stimuli.old stimuli.new)
        (read_from C.Source 4 clocks.old clocks.new) (read_from I.Source 6 initial.old initial.new)
        (listed (choice_in line.now) (read_from L.Source (last_input line.now) list.old list.new)))
        (written_to O.Sink out.old out.new) result }
    ensures unread { (choice_in line.now ≡ Choice.Only Pick.Listed → ⊥) → list.new ≡ list.old }
{
    let settings = line.settings;
    let request = Request {
        settings,
        mode: line.mode,
        threads: line.threads,
        choice: line.choice,
        scopes: line.scopes,
    };
    match line.task {
        Task::Run => {
            let report = simulate_chosen(
                rt, bench, delays, stimuli, clocks, initial, list, request, out,
            )?;
            Ok(Done::Ran(report))
        }
        Task::Activity => {
            let alloc = rt.alloc();
            let report = measure(
                alloc, bench, delays, stimuli, clocks, initial, list, request, out,
            )?;
            Ok(Done::Measured(report))
        }
        Task::Expect => {
            let alloc = rt.alloc();
            let told = compare(
                alloc, bench, delays, stimuli, clocks, initial, list, request, out,
            )?;
            Ok(Done::Compared(told))
        }
        Task::Check => {
            let alloc = rt.alloc();
            let named = line.named;
            let counts = check(
                alloc, bench, delays, stimuli, clocks, initial, settings, named, out,
            )?;
            Ok(Done::Checked(counts))
        }
    }
}
