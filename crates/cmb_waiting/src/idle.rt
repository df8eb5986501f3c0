//! A thread that looks again, then gives the processor away, and then sleeps, while it finds nothing to do.

ghost use Rattle.std.specs.Prelude.{◌≡◌, ◌≤◌, ◌+◌, ℕ, min};
ghost use Rattle.cmb_waiting.specs.declared.idle.TheConstants.{PATIENCE};

use std::marker::Model;
use std::sync::Wait;
use std::thread::Parker;
use std::time::Duration;
use std::{hint, thread};

// How many times a thread looks again at once: some microseconds.
const SPINS: u32 = 400;

// From then on it gives the processor away at each of so many looks. Between them it looks again at once: a thread that
// calls the system without end takes from those that share its core.
const STEP: u32 = 30;

/// How many times a thread looks again, at once or after it gave the processor away, before it sleeps.
pub const PATIENCE: u32 = 1_600;

// How long it sleeps at a time, in microseconds. Nobody wakes it, so what comes meanwhile waits for as long.
const NAP: u64 = 50;

/// A thread that may have had nothing to do for a while: how many times in a row, counted up to `PATIENCE`.
#[derive(Drop)]
pub struct Idle {
    turns: u32,
    parker: Parker,
}

impl Model for Idle {
    ghost Value = { ℕ };

    ghost view = { λ idle. idle.turns };

    ghost invariant = { λ idle. idle.turns ≤ PATIENCE };
}

impl Idle {
    /// A thread that has something to do.
    pub fn new() -> Idle
        ensures { result ≡ 0 }
    {
        Idle {
            turns: 0,
            parker: Parker::new(),
        }
    }

    /// There is something to do again.
    pub fn end(&mut self)
        ensures { self.new ≡ 0 }
    {
        self.turns = 0;
    }

    /// There is nothing to do: returns at once for a while, then gives the processor away at times, then sleeps for a
    /// moment.
    pub fn rest<R: Wait>(&mut self, rt: &R)
        ensures { self.new ≡ min (self.old + 1) PATIENCE }
    {
        if self.turns == PATIENCE {
            self.parker.park_timeout(rt, Duration::from_micros(NAP));
            return;
        }
        self.turns += 1;
        if self.turns > SPINS && self.turns % STEP == 0 {
            thread::yield_now();
        } else {
            hint::spin_loop();
        }
    }
}
