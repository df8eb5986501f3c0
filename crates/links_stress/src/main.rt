//! A stress test of boards and links, behind their worked examples. Threads publish, look, put and take over one
//! circuit, and check what the contracts say: each promise that is found is right, was published, and is not
//! below an earlier one; each piece that is taken is exact and begins where the one before it ended; the stop word and
//! the number of finished workers never go back.
#![tactic(auto)]

mod circuit;
mod closing;
mod ends;
mod exact;
mod examples;
mod run;
mod trouble;
mod watch;
mod worker;

use examples::run_examples;
use run::run;
use std::process::ExitCode;

/// The ticks of a run.
const HORIZON: u32 = 4_000;

/// How many pieces the links of a run hold.
const CAPACITIES: [usize; 4] = [1, 2, 8, 64];

fn main(rt: HostRuntime) -> ExitCode {
    if !run_examples(&rt, rt.alloc()) {
        return ExitCode::from(1);
    }
    for capacity in CAPACITIES {
        let told = match run(&rt, rt.alloc(), HORIZON, capacity) {
            Ok(()) => println!(rt; "links of {capacity}: all is right, exact and in order"),
            Err(trouble) => {
                let _ = println!(rt; "links of {capacity}: {trouble}");
                return ExitCode::from(1);
            }
        };
        if told.is_err() {
            return ExitCode::from(1);
        }
    }
    ExitCode::SUCCESS
}
