//! The worked examples of collectors and texts, and what sinks take. The texts were made by another simulator.

ghost use Rattle.std.specs.Prelude.{◌≡◌, ◌<◌, ◌≤◌, ◌^◌};
ghost use Rattle.cmb_run_text.specs.Collector.{IsComplete, IsFor};

use crate::checks::{holds, same};
use crate::netlists::inputs;
use crate::toggle::{D, Q, TOGGLE, at};
use cmb_design_model::Design;
use cmb_io::{Limited, Room, Sink, ToWriter, write_whole};
use cmb_run_text::{CollectFault, Collector, VcdWriter, vcd_text, vcd_text_of};
use cmb_wave::{Change, Level, Piece, Wave};
use std::alloc::Global;
use std::process::Abort;
use std::test::Fail;
use worked_designs::{bare, of_design, or_fail, sampled, text_of};

// What is found out about a netlist without rows, whose flip-flops sample at ticks 2, 6, 10 and so on.
fn of_bare<T: Drop, F: FnOnce(&Design) -> Result<T, Fail> + Drop>(
    alloc: Global,
    netlist: &[u8],
    horizon: u32,
    find: F,
) -> Result<T, Fail>
    requires { F.IsAlwaysCallable find }
{
    of_design(alloc, bare(netlist), sampled(horizon), find)
}

fn take(rt: &impl Abort, collector: &mut Collector, piece: &Piece) -> Result<u32, CollectFault> {
    holds(rt, piece.to() <= collector.horizon());
    collector.take(piece)
}

// The piece of a net with these changes has this answer.
fn answers(
    rt: &impl Abort,
    collector: &mut Collector,
    net: u32,
    from: u32,
    to: u32,
    changes: Vec<Change>,
    answer: Result<u32, CollectFault>,
) -> Result<(), Fail> {
    let piece = Piece::new(net, from, to, changes)?;
    let found = take(rt, collector, &piece);
    same(rt, (net, from, to, found == answer), (net, from, to, true));
    Ok(())
}

// Of all nets of a design all is collected.
fn is_whole(rt: &impl Abort, design: &Design, collector: &Collector)
    ensures opened { IsFor design.now collector.now }
    ensures complete { IsComplete collector.now }
{
    holds(rt, collector.complete());
    holds(rt, collector.waves().len() == design.netlist().len());
    holds(rt, collector.horizon() == design.horizon());
}

fn whole_text(
    rt: &impl Abort,
    alloc: Global,
    design: &Design,
    collector: &Collector,
) -> Result<Vec<u8>, Fail> {
    is_whole(rt, design, collector);
    Ok(vcd_text(alloc, design, collector)?)
}

fn toggle_answers(rt: &impl Abort, alloc: Global, toggle: &mut Collector) -> Result<(), Fail> {
    let unknown = vec![in alloc; at(0, Level::X)]?;
    let clash = Err(CollectFault::Clash { tick: 0 });
    answers(rt, toggle, Q, 0, 3, unknown, clash)?;
    let gap = Err(CollectFault::Gap { clock: 0 });
    answers(rt, toggle, Q, 3, 7, vec![in alloc; at(3, Level::One)]?, gap)?;
    answers(
        rt,
        toggle,
        Q,
        0,
        3,
        vec![in alloc; at(0, Level::Zero)]?,
        Ok(3),
    )?;
    let double = Err(CollectFault::Double { clock: 3 });
    answers(
        rt,
        toggle,
        Q,
        0,
        3,
        vec![in alloc; at(0, Level::Zero)]?,
        double,
    )?;
    answers(
        rt,
        toggle,
        2,
        0,
        3,
        Vec::new(alloc),
        Err(CollectFault::Stranger),
    )
}

fn opened(alloc: Global) -> Result<Collector, Fail> {
    of_bare(
        alloc,
        TOGGLE,
        12,
        |design| or_fail(Collector::open(alloc, design)),
    )
}

fn is_begun(rt: &impl Abort, toggle: &Collector) {
    holds(rt, toggle.least() == 0);
    holds(rt, !toggle.complete());
}

#[test]
fn collector(rt: HostRuntime) -> Result<(), Fail> {
    let mut toggle = opened(rt.alloc())?;
    toggle_answers(&rt, rt.alloc(), &mut toggle)?;
    is_begun(&rt, &toggle);
    Ok(())
}

fn adopt(rt: &impl Abort, collector: &mut Collector, wave: Wave) {
    holds(rt, (wave.net() as usize) < collector.waves().len());
    holds(rt, wave.base() == 0);
    holds(rt, wave.clock() <= collector.horizon());
    collector.adopt(wave);
}

// A wave that is known further takes the place of its net's, and one that isn't doesn't.
fn adopts_the_later(rt: &impl Abort, alloc: Global, toggle: &mut Collector) -> Result<(), Fail> {
    let mut later = Wave::new(alloc, D);
    later.take(&Piece::new(D, 0, 4, vec![in alloc; at(1, Level::One)]?)?)?;
    adopt(rt, toggle, later);
    adopt(rt, toggle, Wave::new(alloc, D));
    holds(
        rt,
        toggle
            .waves()
            .get(1)
            .is_some_and(|wave| wave.promise().upto == 4),
    );
    let next = vec![in alloc; at(4, Level::Zero)]?;
    answers(rt, toggle, D, 4, 5, next, Ok(5))
}

#[test]
fn waves_are_adopted(rt: HostRuntime) -> Result<(), Fail> {
    let mut toggle = opened(rt.alloc())?;
    adopts_the_later(&rt, rt.alloc(), &mut toggle)
}

#[test]
fn numbers(rt: HostRuntime) {
    same(&rt, CollectFault::Clash { tick: 0 }.number(), 49);
    same(&rt, CollectFault::Gap { clock: 0 }.number(), 50);
    same(&rt, CollectFault::Double { clock: 0 }.number(), 51);
    same(&rt, CollectFault::Stranger.number(), 52);
    same(&rt, CollectFault::Memory.number(), 70);
}

fn tells_inverted(rt: &impl Abort, alloc: Global, design: &Design) -> Result<(), Fail> {
    let mut inverter = Collector::open(alloc, design)?;
    let one = vec![in alloc; at(0, Level::One)]?;
    answers(rt, &mut inverter, 0, 0, 10, one, Ok(10))?;
    answers(rt, &mut inverter, 1, 0, 10, Vec::new(alloc), Ok(10))?;
    let text = whole_text(rt, alloc, design, &inverter)?;
    let wanted = text_of(alloc, "a y", "#0 1! x\" #10")?;
    holds(rt, text.as_slice() == wanted.as_bytes());
    Ok(())
}

// The text is that of the waves that were collected, whatever the design says.
#[test]
fn collector_tells_its_own(rt: HostRuntime) -> Result<(), Fail> {
    let alloc = rt.alloc();
    of_bare(
        alloc,
        b"INPUT(a) OUTPUT(y) y = NOT(a)",
        10,
        |design| tells_inverted(&rt, alloc, design),
    )
}

const TOGGLE_HEADER: &[u8] = b"$version cmbsim 1 $end
$timescale 1 ns $end
$scope module top $end
$var wire 1 ! q $end
$var wire 1 \" d $end
$upscope $end
$enddefinitions $end
";

const BELOW_3: &[u8] = b"#0\n$dumpvars\n0!\nx\"\n$end\n#1\n1\"\n";

const BELOW_4: &[u8] = b"#3\n1!\n";

const BELOW_12: &[u8] = b"#4\n0\"\n#7\n0!\n#8\n1\"\n#11\n1!\n#12\n";

// The next part of the text is this one, and it tells the levels below this tick.
fn goes_on(
    rt: &impl Abort,
    design: &Design,
    writer: &mut VcdWriter<'_>,
    collector: &Collector,
    part: &[u8],
    upto: u32,
) -> Result<(), Fail>
    requires { writer.old.design ≡ design.now }
    ensures { writer.new.design ≡ design.now }
{
    holds(rt, collector.waves().len() == design.netlist().len());
    holds(rt, collector.horizon() == design.horizon());
    holds(rt, writer.done().unwrap_or(0) <= collector.least());
    let text = writer.extend(collector)?;
    same(rt, (upto, text.as_slice() == part), (upto, true));
    holds(rt, writer.done() == Some(upto));
    Ok(())
}

fn collect_first(rt: &impl Abort, alloc: Global, toggle: &mut Collector) -> Result<(), Fail> {
    let first = vec![in alloc; at(0, Level::Zero)]?;
    let inverse = vec![in alloc; at(1, Level::One)]?;
    answers(rt, toggle, Q, 0, 3, first, Ok(3))?;
    answers(rt, toggle, D, 0, 4, inverse, Ok(4))
}

fn collect_second(rt: &impl Abort, alloc: Global, toggle: &mut Collector) -> Result<(), Fail> {
    let second = vec![in alloc; at(3, Level::One)]?;
    answers(rt, toggle, Q, 3, 7, second, Ok(7))
}

fn collect_rest(rt: &impl Abort, alloc: Global, toggle: &mut Collector) -> Result<(), Fail> {
    let inverse = vec![in alloc; at(4, Level::Zero), at(8, Level::One)]?;
    let rest = vec![in alloc; at(7, Level::Zero), at(11, Level::One)]?;
    answers(rt, toggle, D, 4, 12, inverse, Ok(12))?;
    answers(rt, toggle, Q, 7, 12, rest, Ok(12))
}

fn tells_first_parts(
    rt: &impl Abort,
    alloc: Global,
    design: &Design,
    writer: &mut VcdWriter<'_>,
    toggle: &mut Collector,
) -> Result<(), Fail>
    requires { writer.old.design ≡ design.now }
    ensures { writer.new.design ≡ design.now }
{
    goes_on(rt, design, writer, toggle, TOGGLE_HEADER, 0)?;
    collect_first(rt, alloc, toggle)?;
    goes_on(rt, design, writer, toggle, BELOW_3, 3)?;
    collect_second(rt, alloc, toggle)?;
    goes_on(rt, design, writer, toggle, BELOW_4, 4)
}

fn tells_last_parts(
    rt: &impl Abort,
    alloc: Global,
    design: &Design,
    writer: &mut VcdWriter<'_>,
    toggle: &mut Collector,
) -> Result<(), Fail>
    requires { writer.old.design ≡ design.now }
{
    collect_rest(rt, alloc, toggle)?;
    goes_on(rt, design, writer, toggle, BELOW_12, 12)?;
    goes_on(rt, design, writer, toggle, b"", 12)
}

fn tells_parts(rt: &impl Abort, alloc: Global, design: &Design) -> Result<(), Fail> {
    let mut toggle = Collector::open(alloc, design)?;
    let mut writer = VcdWriter::open(alloc, design)?;
    tells_first_parts(rt, alloc, design, &mut writer, &mut toggle)?;
    tells_last_parts(rt, alloc, design, &mut writer, &mut toggle)
}

#[test]
fn text_in_parts(rt: HostRuntime) -> Result<(), Fail> {
    let alloc = rt.alloc();
    of_bare(alloc, TOGGLE, 12, |design| tells_parts(&rt, alloc, design))
}

// Lets what lies below a tick be forgotten, where all is known up to it and no wave has forgotten more.
fn forget(rt: &impl Abort, toggle: &mut Collector, upto: u32) {
    holds(rt, upto <= toggle.least());
    holds(rt, toggle.waves().iter().all(|wave| wave.base() <= upto));
    toggle.forget(upto);
}

// Whether each wave keeps so many changes, and has had so many.
fn keeps(toggle: &Collector, kept: usize, had: u32) -> bool {
    toggle
        .waves()
        .iter()
        .all(|wave| wave.changes().len() == kept && wave.count() == had)
}

// What the text says of a period of the toggle, four ticks from this one on.
fn period_lines(alloc: Global, from: u32, q: u32) -> Result<String, Fail>
    requires { (from < 2 ^ 31) × (q ≤ 1) }
{
    let mut lines = String::new(alloc);
    write!(lines, "#{from}\n{q}!\n#{}\n{}\"\n", from + 1, 1 - q)?;
    Ok(lines)
}

// Collects a period of the toggle, four ticks from this one on, in which q changes to this level and d to the other.
fn collect_period(
    rt: &impl Abort,
    alloc: Global,
    toggle: &mut Collector,
    from: u32,
    q: Level,
    d: Level,
) -> Result<(), Fail>
    requires { from < 2 ^ 31 }
{
    let changes = vec![in alloc; at(from, q)]?;
    let inverse = vec![in alloc; at(from + 1, d)]?;
    answers(rt, toggle, Q, from, from + 4, changes, Ok(from + 4))?;
    answers(rt, toggle, D, from + 1, from + 5, inverse, Ok(from + 5))
}

// A period is collected, written and forgotten: of its changes one of each net waits, and then none.
fn tells_period(
    rt: &impl Abort,
    alloc: Global,
    design: &Design,
    writer: &mut VcdWriter<'_>,
    toggle: &mut Collector,
    period: u32,
) -> Result<(), Fail>
    requires design { writer.old.design ≡ design.now }
    requires period { period < 1000 }
    ensures { writer.new.design ≡ design.now }
{
    let from = 4 * period + 3;
    let (digit, q, d) = if period % 2 == 0 {
        (1, Level::One, Level::Zero)
    } else {
        (0, Level::Zero, Level::One)
    };
    collect_period(rt, alloc, toggle, from, q, d)?;
    same(rt, (period, keeps(toggle, 1, period + 2)), (period, true));
    let lines = period_lines(alloc, from, digit)?;
    goes_on(rt, design, writer, toggle, lines.as_bytes(), from + 4)?;
    forget(rt, toggle, from + 4);
    same(rt, (period, keeps(toggle, 0, period + 2)), (period, true));
    Ok(())
}

fn tells_periods(rt: &impl Abort, alloc: Global, design: &Design) -> Result<(), Fail> {
    let mut toggle = Collector::open(alloc, design)?;
    let mut writer = VcdWriter::open(alloc, design)?;
    collect_first(rt, alloc, &mut toggle)?;
    let begun = [TOGGLE_HEADER, BELOW_3].concat(alloc)?;
    goes_on(rt, design, &mut writer, &toggle, begun.as_slice(), 3)?;
    forget(rt, &mut toggle, 3);
    for period in 0..1000 {
        tells_period(rt, alloc, design, &mut writer, &mut toggle, period)?;
    }
    Ok(())
}

#[test]
fn what_is_written_is_forgotten(rt: HostRuntime) -> Result<(), Fail> {
    let alloc = rt.alloc();
    of_bare(
        alloc,
        TOGGLE,
        4010,
        |design| tells_periods(&rt, alloc, design),
    )
}

fn collected_toggle(rt: &impl Abort, alloc: Global, design: &Design) -> Result<Collector, Fail> {
    let mut toggle = Collector::open(alloc, design)?;
    collect_first(rt, alloc, &mut toggle)?;
    collect_second(rt, alloc, &mut toggle)?;
    collect_rest(rt, alloc, &mut toggle)?;
    Ok(toggle)
}

// The whole text is its parts.
fn tells_whole(rt: &impl Abort, alloc: Global, design: &Design) -> Result<(), Fail> {
    let toggle = collected_toggle(rt, alloc, design)?;
    let text = whole_text(rt, alloc, design, &toggle)?;
    let parts = [TOGGLE_HEADER, BELOW_3, BELOW_4, BELOW_12].concat(alloc)?;
    holds(rt, text.len() == 209);
    holds(rt, text == parts);
    Ok(())
}

#[test]
fn text_of_toggle(rt: HostRuntime) -> Result<(), Fail> {
    let alloc = rt.alloc();
    of_bare(alloc, TOGGLE, 12, |design| tells_whole(&rt, alloc, design))
}

// The text of a net is its lines in that of all nets, by the code of the first.
fn tells_second(rt: &impl Abort, alloc: Global, design: &Design) -> Result<(), Fail> {
    let toggle = collected_toggle(rt, alloc, design)?;
    is_whole(rt, design, &toggle);
    holds(rt, design.netlist().len() == 2);
    let text = vcd_text_of(alloc, design, toggle, &[1])?;
    let wanted = text_of(alloc, "d", "#0 x! #1 1! #4 0! #8 1! #12")?;
    holds(rt, text.as_slice() == wanted.as_bytes());
    Ok(())
}

#[test]
fn text_of_a_chosen_net(rt: HostRuntime) -> Result<(), Fail> {
    let alloc = rt.alloc();
    of_bare(alloc, TOGGLE, 12, |design| tells_second(&rt, alloc, design))
}

// Each net is collected in one piece without changes.
fn unknown_text(rt: &impl Abort, alloc: Global, design: &Design) -> Result<Vec<u8>, Fail> {
    let mut collector = Collector::open(alloc, design)?;
    let horizon = design.horizon();
    for net in 0..design.netlist().len() {
        let none = Vec::new(alloc);
        answers(
            rt,
            &mut collector,
            net as u32,
            0,
            horizon,
            none,
            Ok(horizon),
        )?;
    }
    whole_text(rt, alloc, design, &collector)
}

const SEVENTEEN_LEVELS: &[u8] =
    b"#0\n$dumpvars\nx!\nx\"\nx#\nx$\nx%\nx&\nx'\nx(\nx)\nx*\nx+\nx,\nx-\nx.\nx/\nx0\nx1\n$end\n#1000000\n";

// The text of the inputs of which nothing is known has this length, and ends with these bytes.
fn ends_with(
    rt: &impl Abort,
    alloc: Global,
    design: &Design,
    len: usize,
    end: &[u8],
) -> Result<(), Fail> {
    let text = unknown_text(rt, alloc, design)?;
    holds(rt, text.len() == len);
    holds(rt, text.as_slice().ends_with(end));
    Ok(())
}

// A table with a place for each net and tick would be too large.
#[test]
fn too_large(rt: HostRuntime) -> Result<(), Fail> {
    let alloc = rt.alloc();
    let bench = inputs(alloc, 17)?;
    of_bare(
        alloc,
        bench.as_bytes(),
        1_000_000,
        |design| ends_with(&rt, alloc, design, 561, SEVENTEEN_LEVELS),
    )
}

#[test]
fn largest_netlist(rt: HostRuntime) -> Result<(), Fail> {
    let alloc = rt.alloc();
    let bench = inputs(alloc, 65_535)?;
    let end = b"x0G'\nx1G'\n$end\n#1\n";
    of_bare(
        alloc,
        bench.as_bytes(),
        1,
        |design| ends_with(&rt, alloc, design, 2_133_620, end),
    )
}

#[test]
fn room(rt: HostRuntime) -> Result<(), Fail> {
    let mut room = Room::new(rt.alloc(), 5)?;
    holds(&rt, write_whole(&mut room, b"three") == Ok(()));
    holds(&rt, room.bytes.as_slice() == b"three".as_slice());
    Ok(())
}

#[test]
fn limited(rt: HostRuntime) {
    let mut limited = Limited::new(rt.alloc(), 3);
    holds(&rt, limited.write(b"th") == Ok(2));
    holds(&rt, limited.failures < 10);
    holds(&rt, write_whole(&mut limited, b"ree") == Err(1));
    holds(&rt, limited.bytes.as_slice() == b"thr".as_slice());
    holds(&rt, limited.failures == 1);
}

#[test]
fn to_writer(rt: HostRuntime) {
    let mut list = ToWriter::new(Vec::new(rt.alloc()));
    holds(&rt, write_whole(&mut list, b"three") == Ok(()));
    holds(&rt, list.writer.as_slice() == b"three".as_slice());
    holds(&rt, list.failures == 0);
}
