//! What a command line asks for.

use crate::choice::Choice;
use crate::mode::Mode;
use cmb_design_model::Settings;
use cmb_netlist::PartCount;

/// What is done with a design.
#[derive(Clone, Copy, Debug, PartialEq, Eq)]
pub enum Task {
    /// It is simulated, and its waveforms are written.
    Run,
    /// It is simulated, and how active its nets are is written.
    Activity,
    /// It is simulated, and what was expected of that and came otherwise is written.
    Expect,
    /// It is read and counted.
    Check,
}

/// What a simulation is asked for.
#[derive(Clone, Copy)]
pub struct Request {
    pub settings: Settings,
    pub mode: Mode,
    /// By so many threads at most, that share the work in the place of workers.
    pub threads: Option<PartCount>,
    /// Which nets are written.
    pub choice: Choice,
    /// Names are parted at `.` into modules, and `led[3]` is bit 3 of bus `led`.
    pub scopes: bool,
}

/// What a line asks for.
#[derive(Drop)]
pub struct Line {
    pub task: Task,
    /// A fault is told in words too, and so is what looks like a slip in a line that was done.
    pub explain: bool,
    /// Nothing is told where the reader of the output closed its pipe.
    pub quiet: bool,
    /// How far the run is, is shown meanwhile.
    pub progress: bool,
    /// What the run took is told at its end.
    pub stats: bool,
    pub settings: Settings,
    pub mode: Mode,
    /// How many threads share the work, where that is said.
    pub threads: Option<PartCount>,
    /// Which nets are written: those of a list exactly where `only` names its file.
    pub choice: Choice,
    /// Names are parted at `.` into modules, and `led[3]` is bit 3 of bus `led`.
    pub scopes: bool,
    /// How many a check names of each thing that it counts, at most.
    pub named: usize,
    /// The file of the delay table. The table is empty where no file is given.
    pub delays: Option<String>,
    /// The file of the stimuli. The table is empty where no file is given.
    pub stimuli: Option<String>,
    /// The file of the clock table. The table is empty where no file is given.
    pub clocks: Option<String>,
    /// The file of the table of first levels. The table is empty where no file is given.
    pub initial: Option<String>,
    /// The file of the list of nets.
    pub only: Option<String>,
    /// The file of the table of what is expected.
    pub expected: Option<String>,
}
