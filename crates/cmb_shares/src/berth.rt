//! The shares of a run, each in a berth, where any thread can go on with it.

ghost use Rattle.std.specs.Prelude.{◌≡◌, All, IfOk};
ghost use Rattle.cmb_shares.specs.Inner.Stations.{Covers};

use crate::channel::{Next, Watched};
use crate::share_run::ShareRun;
use crate::station::{Station, Told};
use std::alloc::{AllocError, Global};
use std::marker::Model;
use std::mem::replace;
use std::sync::Mutex;

// Where so many looks of other threads in a row found the only share as it was, its thread may have lost its processor.
// Before that it is left alone: they all make its text, and its words are in its own processor's cache.
const PATIENCE: u32 = 32;

/// A share that made its windows up to a tick, and receives from all shares that own what it is given.
#[derive(Drop)]
pub struct Resting<'a, T: ShareRun> {
    station: Station<'a, T>,
}

impl<'a, T: ShareRun> Model for Resting<'a, T> {
    ghost use Rattle.cmb_shares.specs.Inner.Stations.{Covers, Standing};

    ghost Value = { Standing };

    ghost view = { λ resting. resting.station };

    ghost invariant = { λ resting. Covers T.run resting.station.number resting.station.senders };
}

/// A share's logical process between the visits of threads.
#[derive(Drop)]
pub enum Process<'a, T: ShareRun> {
    /// It has still to tell others of the next window.
    Resting(Resting<'a, T>),
    /// It did so, and has still to make the window.
    Told(Told<'a, T>),
}

/// Where a share lies between the visits of threads. It is empty once all windows are made, or where memory was refused
/// or another share ended early.
#[derive(Drop)]
pub struct Berth<'a, T: ShareRun> {
    process: Option<Process<'a, T>>,
    /// How many looks of other threads in a row found it as it was, and how many have to.
    looks: u32,
    patience: u32,
}

/// A berth for each share. Errors: memory was refused.
pub(crate) fn berths_of<'a, T: ShareRun>(
    alloc: Global,
    stations: Vec<Station<'a, T>>,
) -> Result<Vec<Mutex<Berth<'a, T>>>, AllocError>
    requires covers { All (λ station. Covers T.run station.number station.senders) stations.items }
{
    let patience = if stations.len() == 1 { PATIENCE } else { 0 };
    let mut berths = Vec::new(alloc);
    for station in stations {
        let process = Some(Process::Resting(Resting { station }));
        berths.push(Mutex::new(Berth {
            process,
            looks: 0,
            patience,
        }))?;
    }
    Ok(berths)
}

impl<'a, T: ShareRun> Resting<'a, T> {
    // Whether it can tell others of the next window. It needn't wait where all its windows are made.
    fn look(&mut self) -> Next {
        if self.station.is_done() {
            Next::Come
        } else {
            self.station.look()
        }
    }

    // Tells others of the next window, if there is one and where there is room.
    fn go_on(self) -> Option<Process<'a, T>> {
        let Resting { mut station } = self;
        if station.is_done() {
            drop(station);
            return None;
        }
        match station.look() {
            Next::Come => match station.tell() {
                Some(told) => Some(Process::Told(told)),
                None => None,
            },
            Next::Awaited => Some(Process::Resting(Resting { station })),
            Next::Never => {
                drop(station);
                None
            }
        }
    }
}

// Ends a turn: makes a window of which others told. Begins the next one, if there is room: tells others of it.
fn end_turn<'a, T: ShareRun>(told: Told<'a, T>) -> Option<Process<'a, T>> {
    let station = told.hear()?;
    Resting { station }.go_on()
}

impl<'a, T: ShareRun> Process<'a, T> {
    // Whether it can go on by a window.
    fn look(&mut self) -> Next {
        match self {
            Process::Resting(resting) => resting.look(),
            Process::Told(told) => told.look(),
        }
    }

    // Goes on by a window. There is none any more once all windows are made, or where memory was refused, another share
    // ended early, or it would have to wait.
    fn go_on(self) -> Option<Process<'a, T>> {
        match self {
            Process::Resting(resting) => resting.go_on(),
            Process::Told(told) => end_turn(told),
        }
    }
}

impl<'a, T: ShareRun> Berth<'a, T> {
    // Whether the share that lies here can go on by a window.
    fn look(&mut self) -> Next {
        match &mut self.process {
            Some(process) => process.look(),
            None => Next::Awaited,
        }
    }

    // Has the share go on by a window.
    fn make_window(&mut self) {
        if let Some(process) = self.process.take() {
            let next = process.go_on();
            drop(replace(&mut self.process, next));
        }
    }

    /// Goes on by a window with the share that lies here, unless it would have to wait for others. Says whether there
    /// was anything to do.
    pub(crate) fn go_on(&mut self) -> bool {
        if matches!(self.look(), Next::Awaited) {
            return false;
        }
        self.looks = 0;
        self.make_window();
        true
    }

    /// The same for another thread than its own. The only share is left to its own one, unless that seems to be away.
    pub(crate) fn help(&mut self) -> bool {
        self.looks = self.looks.saturating_add(1);
        self.looks > self.patience && self.go_on()
    }
}
