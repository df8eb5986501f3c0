//! The texts of help, which stand here alone. The manual page, the completions and the guide's table of options are
//! made of what the program prints. Of an option and of a command `-h` shows the first line, and `--help` all.

/// The program's version, which `$version` of its dumps has too.
pub const VERSION: &str = "1";

/// The usual case, above all else that help says.
pub const USUAL: &str = "\
The usual case, where flip-flops sample at the ticks 9, 19, 29 and so on:
    cmbsim run --horizon 1000 --clock 9:10 --stimuli stimuli.csv < netlist.bench > waves.vcd";

/// What is said to a line without a command.
pub const BEGIN: &str = "\
error: no command was given

To simulate a netlist for 1,000 ticks, with what drives its inputs in a table:
    cmbsim run --horizon 1000 --stimuli stimuli.csv < netlist.bench > waves.vcd
If it has flip-flops, --clock 9:10 makes them sample at the ticks 9, 19, 29 and so on.

To read what a fault means:
    cmbsim explain

For more information, try 'cmbsim --help'.
";

/// What is said further if a word of the line belongs to no option.
pub const NETLIST_HINT: &str = "
The netlist is read from standard input, and the waveforms go to standard output:
    cmbsim run --horizon 1000 < netlist.bench > waves.vcd
";

/// What is said to a line that begins with an option.
pub const NO_COMMAND: &str = "\
error: options stand behind a command

To simulate a netlist the command is run:
    cmbsim run --horizon 1000 < netlist.bench > waves.vcd

For more information, try 'cmbsim --help'.
";

pub const ABOUT: &str =
    "Simulates a gate-level netlist, and writes the waveforms of its nets or how active they are";

pub const RUN: &str = "\
Reads a netlist from standard input and writes a value change dump (VCD) to standard output

The dump (IEEE 1364-2005, clause 18) has the waveforms of all nets, or of chosen ones. It is the
same text in each mode and with any number of threads, workers and clusters, and it is proved to be
the one that the inputs define.";

pub const ACTIVITY: &str =
    "Reads what run would simulate, and writes how active each net is, as comma-separated values";

pub const EXPECT: &str =
    "Reads what run would simulate, and writes which of the expected levels come otherwise";

pub const CHECK: &str = "\
Reads what run would simulate, and counts its nets, gates, flip-flops, clocks and rows

It has the faults and statuses of run. It prints how many nets, inputs, gates of each kind and
flip-flops there are; how many inputs are x at all ticks, and flip-flops never sample; how many nets
are in feedback loops, and in loops of gates alone; how many drive nothing and are no outputs; the
largest delay and the longest path; how many different clocks flip-flops sample by; and how many
rows each table has. Below a count stand the first twenty names of what it counts, each on a line
with a dash in the number's place, and below a longest path the net where it ends. For the first
twenty clocks it prints the longest paths to their flip-flops: from flip-flops of the same clock,
from inputs, and from other clocks; and by how much a clock's period is shorter than the first.";

pub const ALL: &str = "Names all that is counted, and not the first twenty alone";

pub const EXPLAIN_OPTION: &str = "\
Says a fault in words too, with its file and its line or record

A second line on standard error has the file by its path, the line in it, what is wrong,
and what stands there. If a file can't be read it has the system's message. A netlist
without nets and inputs without stimuli are reported too. All that is the default where
standard error is a terminal. Then a pipe that its reader closed isn't reported at all,
as by `cmbsim run .. | head`; the status is 1.";

pub const NO_EXPLAIN: &str = "Says a fault by its one line alone, on a terminal too";

pub const PROGRESS: &str = "\
Shows meanwhile how far the text is; selects mode free unless --mode is given

One line on standard error has the tick that the text has reached, and the changes so
far. It is rewritten a few times a second, and removed at the end. In modes rounds and
plain nothing is written before the run is complete.";

pub const STATS: &str = "\
Reports at the end, on standard error, what the run took

That is nets, ticks, changes and bytes; the seconds of reading, of simulating and of
writing; the processor time of all threads together; and the most memory that the
program used. What the system doesn't report is left out.";

pub const EXPLAIN_COMMAND: &str =
    "Says what a fault means and what to do about it; without N it lists all faults";

pub const EXPLAIN_NUMBER: &str = "The fault's number, as in `cmbsim: fault N at P`";

pub const HORIZON: &str = "Simulates the ticks 0 to N-1, N from 1 to 1,000,000";

pub const CLOCK: &str = "\
Flip-flops sample at ticks F, F+P ..; F is at most 1,000,000, P 1 to 1,000,000

It is the clock of all flip-flops without a row in the table of clocks.";

pub const INIT: &str = "\
First level of each flip-flop [default: x]

It has this level until its first sample shows. A row of --initial gives one of its own.";

pub const DELAYS: &str = "Table of delays in ticks; a pin without a row has a delay of 1";

pub const STIMULI: &str = "Table of the levels of inputs; an input is x before its first row";

pub const CLOCKS: &str = "Table of when single flip-flops sample, in the place of --clock";

pub const INITIAL: &str = "Table of the first levels of single flip-flops, in the place of --init";

pub const EXPECTED: &str = "Table of the levels that nets are expected to have at ticks";

pub const ONLY: &str = "\
Writes only the nets whose names are in this file, one a line

In the file # begins a comment, and a repeated name counts once. A name that no net has
stands for the bits of the bus that has it. Nets on which none of
them depends aren't simulated, except in mode plain.";

pub const ONLY_OUTPUTS: &str = "\
Writes only the nets that OUTPUT statements name

Else it does what --only does, with which it can't be combined.";

pub const SCOPES: &str = "\
Parts names at dots into modules, and declares led[3] as bit 3 of the bus led

A viewer shows the nets as a tree then. A name with an empty part isn't parted. The text
is held in memory whole before any of it is written, in each mode.";

pub const MODE: &str = "\
How the text is made, and when it is written [default: rounds]

The text is the same in each mode:
    rounds  made in windows of ticks, by what changes; written once all is done
    free    made in the same way; written meanwhile
    plain   read off a table with a place for each net and tick, at most 16,777,216
There are rounds only in a short run of several --workers. Else one thread has all nets,
or several share them by --threads.";

pub const THREADS: &str = "\
Threads that share the work as it pays, 1 to 64 [default: 1]

It counts in modes rounds and free, if all nets are written; at most N threads run. A
large clocked netlist in a long run is cut at flip-flops, into a share of its nets for
each thread; those that wait make the text. Else, if there is much text, one thread
simulates and others make the text; and else one does all. It can't be combined with
--workers and --clusters, which say who has which nets.";

pub const WORKERS: &str = "\
Or, in a short run: workers with nets of their own, 1 to 64 [default: 1]

In mode rounds they pass on what is new after each round, in mode free at any time. That
is so with several workers and clusters, in a run of at most 262,144 nets times ticks. A
longer one is made as with --threads, by the smaller of W and K.";

pub const CLUSTERS: &str = "\
Clusters of nets that workers share out, 1 to 64 [default: 1]

The nets go to the clusters in turn, and these to the workers. A worker without a
cluster gets no thread: give at least as many clusters as workers.";

/// What stands below the options of `activity`.
pub const BELOW_ACTIVITY: &str = "\
Of each net, in order: how often it changes after tick 0, and at how many of the ticks it is 0, 1
and x. That of an inverter whose input rises at tick 5 of 10:
    net,changes,low,high,unknown
    a,1,5,5,0
    y,2,4,5,1
A name with a double quote is quoted, as CSV has it. The table is made whole before any of it is
written. The netlist, the tables, the list, the statuses and the faults are those of run, whose help
has their forms. One thread counts, in each mode; in mode plain a design is refused where run
refuses it.

Example, in the repository's folder examples/inverter:
    cmbsim activity --horizon 10 --stimuli stimuli.csv < netlist.bench > activity.csv";

/// What stands below the options of `expect`.
pub const BELOW_EXPECT: &str = "\
--expected FILE has the form of the stimuli, and its rows are of any nets: a row says that its net
has this level at this tick, and x that it is x. What isn't to be compared has no row.
    tick,net,value
    5,y,0
Of each row that differs, in order, a line is written:
    tick,net,expected,value
    5,y,0,1
Status 0: all came as expected. Status 3: some didn't, and standard error says `1 of 20 rows differ`.
The netlist, the tables, the other statuses and the faults are those of run, whose help has their
forms; a fault of the expected rows stands at their record, and as input this table is 7. Nets on
which no row depends aren't simulated, and one thread does it in each mode; in mode plain a design
is refused where run refuses it.

Example, in the repository's folder examples/inverter:
    cmbsim expect --horizon 10 --stimuli stimuli.csv --expected expected.csv < netlist.bench";

/// What stands below the options of `run`: the files, the statuses and a line to begin with.
pub const BELOW_RUN: &str = "\
Time is whole ticks; the VCD has one tick as 1 ns. A level is 0, 1 or x, which is: not known.
All nets are x before tick 0. A file has at most 16,777,216 bytes; a table not given is empty.

The netlist, on standard input, in the .bench form of the ISCAS sets; # begins a comment:
    INPUT(a)
    y = NAND(a, b)
Kinds: AND, NAND, OR, NOR, XOR, XNOR, NOT, BUFF (or BUF), and DFF, a flip-flop with its data.
NOT, BUFF and DFF take one operand, the others one or more. A flip-flop's clock is no net.
OUTPUT(y) may stand too: all nets are written, or with --only-outputs those alone that it names.

--delays FILE: the delay, 1 to 1,000,000 ticks, by kind, net or pin (y:2 is y's second operand).
A pin's row beats its net's, and that its kind's. A delay is a transport delay: every pulse passes.
    by,name,delay
    kind,NAND,3

--stimuli FILE: the level that an input has from a tick on.
    tick,net,value
    5,a,1

--clocks FILE: a flip-flop samples at the ticks first, first+period, first+2*period and so on.
    net,first,period
    q,4,10

--initial FILE: the level that a flip-flop has until its first sample shows.
    net,value
    q,1

--only FILE: the names of the nets that are written, one a line.
    y

Status 0: the text was written. Status 2: the command line is wrong.
Status 1: a fault, reported by one line on standard error, `cmbsim: fault N at P`. By N, P is
    1 to 8              the line of the netlist
    20 to 22            0: the horizon, --clock, or a flip-flop without a clock
    23 to 32, 34 to 37  the record of a table, the header being record 1; 39 too
    33                  0: mode plain would need more than 16,777,216 places
    38                  the line of the list: no net has that name
    60, 61              1 the netlist, 2 delays, 3 stimuli, 4 clocks, 5 list, 6 first levels: too long,
                        or not readable
    62                  the number of bytes after which the output failed
    70                  0: memory was wanting, or a thread was refused
`cmbsim explain N` says what fault N means and what to do, and `cmbsim explain` lists all.
Nothing is on standard output then, but with 62, and in mode free with 70, a beginning of the text
may be.

Example, in the repository's folder examples/inverter:
    cmbsim run --horizon 10 --stimuli stimuli.csv < netlist.bench > inverter.vcd";
