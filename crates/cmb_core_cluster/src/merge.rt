//! Merging the changes of a process's operands into those of its output.

ghost use Rattle.std.specs.Prelude.{◌≡◌, ℕ, ◌-◌, ◌≤◌, ◌<◌, ◌++◌, OnOk, length, not};
ghost use Rattle.cmb_wave.specs.Waveform.{same_level};
ghost use Rattle.cmb_core_cluster.specs.Inner.Spans.{changes_over};
ghost use Rattle.cmb_netlist.specs.Netlist.{MayTake};
ghost use Rattle.cmb_core_cluster.specs.Inner.Arrivals.{arrived, arrives, due_of, gate_at, levels, Advanced, Passed};

use crate::span::Span;
use cmb_design_model::gates::gate;
use cmb_netlist::netlist::Kind;
use cmb_wave::{Change, Level};
use std::alloc::AllocError;

/// When a change of an operand reaches the output.
#[derive(Clone, Copy)]
pub enum Lag {
    Delay(u32),
    Sampled { first: u32, period: u32, delay: u32 },
}

impl Lag {
    pub(crate) fn arrival(&self, tick: u32) -> u64
        ensures { result ≡ arrives self.now tick }
    {
        let tick = u64::from(tick);
        match self {
            Lag::Delay(delay) => tick + u64::from(*delay),
            Lag::Sampled {
                first,
                period,
                delay,
            } => {
                let first = u64::from(*first);
                let period = u64::from(*period).max(1);
                let periods = (tick.saturating_sub(first) + (period - 1)) / period;
                first + periods * period + u64::from(*delay)
            }
        }
    }
}

/// An operand: the level that has reached the output, and the changes that haven't yet.
#[derive(Clone, Copy)]
pub struct PinCursor<'a> {
    pub rest: &'a [Change],
    pub lag: Lag,
    pub level: Level,
}

impl<'a> PinCursor<'a> {
    // When the first change that hasn't reached the output does, beyond any tick where there is none.
    fn due(&self) -> u64
        ensures { result ≡ due_of self.now.lag self.now.rest.now }
    {
        match self.rest.first() {
            Some(first) => self.lag.arrival(first.tick),
            None => u64::MAX,
        }
    }

    // Lets the changes through that reach the output by `now`, and answers when the next one does.
    #[tactic(auto, using(crate::proofs::Merging::due_none))]
    fn advance(&mut self, now: u32) -> u64
        ensures { Advanced self.old self.new now result }
    {
        let mut due = self.due();
        while due <= u64::from(now) {
            let Some((first, others)) = self.rest.split_first() else {
                return u64::MAX;
            };
            self.level = first.level;
            self.rest = others;
            due = self.due();
        }
        due
    }
}

// Lets the changes of each pin through that reach the output by `now`, and answers the tick up to which the
// levels that they leave stay, at most `until`.
fn let_through(pins: &mut [PinCursor], now: u32, until: u32) -> u32
    requires { now < until }
    ensures { Passed pins.old pins.new now until result }
{
    let mut next = until;
    for pin in pins.iter_mut() {
        let arrival = pin.advance(now);
        if arrival < u64::from(next) {
            next = arrival as u32;
        }
    }
    next
}

// Puts the levels that have reached the output in the place of others.
fn read_levels(pins: &[PinCursor], seen: &mut Vec<Level>) -> Result<(), AllocError>
    ensures { OnOk result (seen.new.items ≡ levels pins.now) }
{
    seen.clear();
    for pin in pins {
        seen.push(pin.level)?;
    }
    Ok(())
}

/// Whether two levels are different ones.
pub(crate) fn differ(level: Level, other: Level) -> bool
    ensures { result ≡ not (same_level level other) }
{
    level != other
}

/// Goes on with a gate's changes over a span.
pub(crate) fn merge(
    kind: Kind,
    pins: &mut [PinCursor],
    changes: &mut Vec<Change>,
    span: Span,
) -> Result<(), AllocError>
    requires { MayTake kind (length pins.old) }
    ensures { OnOk result (changes.new.items ≡ changes.old.items ++ changes_over (gate_at kind pins.old) span) }
{
    let mut seen = Vec::with_capacity(*changes.allocator(), pins.len())?;
    let mut last = span.before;
    let mut now = span.from;
    while now < span.until {
        let next = let_through(pins, now, span.until);
        read_levels(pins, &mut seen)?;
        let level = gate(kind, &seen);
        if differ(level, last) {
            changes.push(Change { tick: now, level })?;
            last = level;
        }
        now = next;
    }
    Ok(())
}

/// Goes on with the changes of an output that shows what its only operand is, over a span: `level` has reached it, and
/// `rest` hasn't yet.
pub(crate) fn follow(
    lag: Lag,
    level: Level,
    rest: &[Change],
    changes: &mut Vec<Change>,
    span: Span,
) -> Result<(), AllocError>
    ensures { OnOk result (changes.new.items ≡ changes.old.items ++ changes_over (arrived lag level rest.now) span) }
{
    let mut pins = [PinCursor { rest, lag, level }];
    merge(Kind::Buff, &mut pins, changes, span)
}
