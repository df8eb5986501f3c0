//! Where windows end. Any end serves, and these are quick: a flip-flop whose sample was taken before a window is known
//! when the window begins, so windows end where samples arrive.

ghost use Rattle.std.specs.Prelude.{◌≡◌, ℕ, ◌<◌, ◌≤◌, true, All, Contains, IfOk, OnOk, MatchOption};
ghost use Rattle.cmb_design_model.specs.Exact.{nets_of};
ghost use Rattle.cmb_design_model.specs.Nets.{pins_at};
ghost use Rattle.cmb_engine.specs.Crossings.{IsCrossing};
ghost use Rattle.cmb_engine.specs.Inner.Ends.{IsPaced, AreEnding, pace_of};
ghost use Rattle.cmb_engine.specs.Windows.{arrival_from};

use crate::exports::is_marked;
use cmb_design_model::Design;
use cmb_netlist::Driver;
use std::alloc::{AllocError, Global};
use std::marker::Model;

/// A clock with a shorter period ends no window. Its flip-flops are ordered and visited as gates are; those of others
/// begin a window, as inputs do.
pub(crate) const SHORTEST_CYCLE: u32 = 12;

// A clock whose period is as long as this, and which is the only one, ends a window however soon it arrives.
const LONG: u32 = 36;

// Where there are more clocks and delays no arrival ends a window.
const MOST: usize = 64;

// Windows that all shares have alike are tried, so many of them; each is as long as this at least on the average.
const TRIED: u32 = 64;

const SHORTEST_MEAN: u32 = 8;

/// When the samples of flip-flops with one clock and delay arrive: at a tick first, and then every so many ticks. An
/// arrival ends a window only where it is at least `lead` ticks behind the window's beginning.
#[derive(Clone, Copy, PartialEq, Eq)]
pub struct Pace {
    pub first: u32,
    pub period: u32,
    pub lead: u32,
}

impl Pace {
    // That of a flip-flop. Samples that were taken before a window don't end it.
    fn of(design: &Design, net: usize) -> Pace
        requires net { net < nets_of design.now }
        requires pin { 1 ≤ pins_at design.now.netlist net }
        ensures paced { IsPaced result }
        ensures value { result ≡ pace_of design.now net }
    {
        let clock = design.clock(net);
        let delay = design.delay(net, 1);
        Pace {
            first: clock.first + delay,
            period: clock.period,
            lead: delay,
        }
    }

    // The same, where windows have so many ticks at most. Arrivals that come soon would cut them too short, those of
    // several clocks above all.
    fn spaced(self, several: bool, width: u32) -> Pace
        requires paced { IsPaced self }
        requires width { width ≤ 63 }
        ensures { IsPaced result }
    {
        let least = match (several, self.period < LONG) {
            (true, _) => width / 2 + 1,
            (false, true) => width / 8 + 1,
            (false, false) => 1,
        };
        Pace {
            lead: self.lead.max(least),
            ..self
        }
    }

    // The first tick from one on at which samples arrive.
    fn arrival_from(self, tick: u32) -> u32
        requires paced { IsPaced self }
        requires tick { tick ≤ 2000000 }
        ensures value { result ≡ arrival_from self tick }
        ensures later { tick ≤ result }
    {
        if self.first < tick {
            tick + self.period - 1 - (tick - 1 - self.first) % self.period
        } else {
            self.first
        }
    }
}

// Adds a pace that isn't among them, as long as they aren't too many.
fn add(paces: &mut Vec<Pace>, pace: Pace) -> Result<(), AllocError>
    requires paces { All IsPaced paces.old.items }
    requires pace { IsPaced pace }
    ensures { All IsPaced paces.new.items }
{
    if paces.len() <= MOST && !paces.contains(&pace) {
        paces.push(pace)?;
    }
    Ok(())
}

// The paces of a design's flip-flops, or some of them where they are too many.
fn paces_of(alloc: Global, design: &Design) -> Result<Vec<Pace>, AllocError>
    ensures { IfOk result (λ paces. All IsPaced paces.items) }
{
    let netlist = design.netlist();
    let mut paces = Vec::new(alloc);
    for net in 0..netlist.len() {
        if let Driver::Flop(_) = netlist.driver(net) {
            add(&mut paces, Pace::of(design, net))?;
        }
    }
    Ok(paces)
}

// Those that end windows of so many ticks at most.
fn ending(alloc: Global, paces: &[Pace], width: u32) -> Result<Vec<Pace>, AllocError>
    requires paces { All IsPaced paces.now }
    requires width { width ≤ 63 }
    ensures { IfOk result (λ ending. All IsPaced ending.items) }
{
    let mut ending = Vec::new(alloc);
    if paces.len() > MOST {
        return Ok(ending);
    }
    for pace in paces {
        if pace.period >= SHORTEST_CYCLE {
            ending.push(pace.spaced(paces.len() > 1, width))?;
        }
    }
    Ok(ending)
}

// The pace of a crossing flip-flop. Of each other net there is none.
fn crossing_pace(design: &Design, crossing: &[bool], net: usize) -> Option<Pace>
    requires { net < nets_of design.now }
    ensures { MatchOption result (IsCrossing design.now crossing.now net → ⊥)
        (λ pace. IsPaced pace × (pace ≡ pace_of design.now net)) }
{
    match design.netlist().driver(net) {
        Driver::Flop(_) if is_marked(crossing, net) => Some(Pace::of(design, net)),
        _ => None,
    }
}

// Whether a pace is among these.
fn is_among(paces: &[Pace], pace: Pace) -> bool
    ensures { result ≡ true → Contains paces.now pace }
{
    paces.contains(&pace)
}

// Adds the paces of crossing flip-flops, as long as they are few and their delays shorter than a window. Says whether
// all were added.
fn add_crossing(
    paces: &mut Vec<Pace>,
    design: &Design,
    crossing: &[bool],
    width: u32,
) -> Result<bool, AllocError>
    requires paces { All IsPaced paces.old.items }
    ensures paced { OnOk result (All IsPaced paces.new.items) }
    ensures ending { IfOk result (λ all. all ≡ true → AreEnding design.now crossing.now width paces.new.items) }
{
    for net in 0..design.netlist().len() {
        if let Some(pace) = crossing_pace(design, crossing, net) {
            if pace.lead >= width || paces.len() > 2 * MOST {
                return Ok(false);
            }
            if !is_among(paces, pace) {
                paces.push(pace)?;
            }
        }
    }
    Ok(true)
}

/// Where the windows of a design's run end: a function of the tick at which one begins. Shares of one design have the
/// same.
#[derive(Drop)]
pub struct Windows {
    width: u32,
    horizon: u32,
    paces: Vec<Pace>,
}

impl Model for Windows {
    ghost use Rattle.std.specs.Prelude.{◌≤◌, All};
    ghost use Rattle.cmb_engine.specs.Inner.Ends.{IsPaced};
    ghost use Rattle.cmb_engine.specs.Windows.{Windows};

    ghost Value = { Windows };

    ghost view = { λ w. record { width = w.width; horizon = w.horizon; paces = w.paces.items } };

    ghost invariant = { λ w. (1 ≤ w.width) × (w.width ≤ 63) × (w.horizon ≤ 1000000) × All IsPaced w.paces.items };
}

impl Windows {
    ghost use Rattle.std.specs.Prelude.{◌≡◌, ℕ, ◌+◌, ◌<◌, ◌≤◌, IfOk, IfSome};
    ghost use Rattle.cmb_design_model.specs.Timing.{delay};
    ghost use Rattle.cmb_engine.specs.Crossings.{IsCrossing, AreWithinLookahead};
    ghost use Rattle.cmb_engine.specs.Windows.{HaveTicks, end_of};

    /// Windows of a design, of at most so many ticks.
    pub fn of(alloc: Global, design: &Design, width: u32) -> Result<Windows, AllocError>
        requires some { 1 ≤ width }
        requires narrow { width ≤ 63 }
        ensures width { IfOk result (λ windows. windows.width ≡ width) }
        ensures horizon { IfOk result (λ windows. windows.horizon ≡ design.now.horizon) }
    {
        let paces = paces_of(alloc, design)?;
        let paces = ending(alloc, &paces, width)?;
        Ok(Windows {
            width,
            horizon: design.horizon(),
            paces,
        })
    }

    /// The same for shares that tell one another crossing flip-flops: a window ends, at the latest, at the first
    /// arrival of a crossing flip-flop's sample that was taken in it. None where a crossing flip-flop's delay isn't
    /// shorter than a window may be, where they have too many clocks and delays, or where windows would be a few ticks
    /// long.
    pub fn between(
        alloc: Global,
        design: &Design,
        crossing: &[bool],
        width: u32,
    ) -> Result<Option<Windows>, AllocError>
        requires some { 1 ≤ width }
        requires narrow { width ≤ 63 }
        ensures width { IfOk result (λ made. IfSome made (λ windows. windows.width ≡ width)) }
        ensures horizon { IfOk result (λ made. IfSome made (λ windows. windows.horizon ≡ design.now.horizon)) }
        ensures ahead { IfOk result (λ made. IfSome made (AreWithinLookahead design.now crossing.now)) }
        ensures soon { IfOk result (λ made. IfSome made (λ windows. (net : ℕ) → IsCrossing design.now crossing.now net
            → delay design.now net 1 < width)) }
        ensures each { IfOk result (λ made. IfSome made HaveTicks) }
    {
        let paces = paces_of(alloc, design)?;
        let mut paces = ending(alloc, &paces, width)?;
        if !add_crossing(&mut paces, design, crossing, width)? {
            return Ok(None);
        }
        let windows = Windows {
            width,
            horizon: design.horizon(),
            paces,
        };
        Ok(if windows.are_long() {
            Some(windows)
        } else {
            None
        })
    }

    // Whether windows are long enough on the average: some are tried, from the tick on at which all samples arrive.
    fn are_long(&self) -> bool {
        let begin = self.paces.iter().map(|pace| pace.first).max().unwrap_or(1);
        let mut clock = begin;
        for _ in 0..TRIED {
            if clock >= self.horizon {
                return true;
            }
            clock = self.end(clock);
        }
        clock - begin >= TRIED * SHORTEST_MEAN
    }

    /// The same windows. Errors: memory was refused.
    pub fn copy(&self) -> Result<Windows, AllocError>
        ensures { IfOk result (λ windows. windows ≡ self.now) }
    {
        let paces = self.paces.clone()?;
        Ok(Windows { paces, ..*self })
    }

    /// The most ticks of a window.
    pub fn width(&self) -> u32
        ensures value { result ≡ self.now.width }
        ensures some { 1 ≤ result }
        ensures most { result ≤ 63 }
    {
        self.width
    }

    /// The tick at which the last window ends.
    pub fn horizon(&self) -> u32
        ensures value { result ≡ self.now.horizon }
        ensures most { result ≤ 1000000 }
    {
        self.horizon
    }

    /// Where a window ends that begins at a tick.
    pub fn end(&self, clock: u32) -> u32
        requires { clock < self.now.horizon }
        ensures value { result ≡ end_of self.now clock }
        ensures later { clock < result }
        ensures short { result ≤ clock + self.now.width }
        ensures within { result ≤ self.now.horizon }
    {
        let mut end = (clock + self.width).min(self.horizon);
        for pace in &self.paces {
            end = end.min(pace.arrival_from(clock + pace.lead));
        }
        end
    }
}
