//! A thread at work: it goes on with shares, its own before others, and makes text where its own would have to wait.

use crate::berth::Berth;
use crate::clerk::Clerk;
use crate::share_run::ShareRun;
use cmb_waiting::Idle;
use std::sync::{Mutex, Wait};

// After so many looks in a row at which it found nothing to do, it goes on with others' shares: their threads may have
// lost their processors. Before that it leaves them alone, since a share's words are in its own processor's cache.
const LOYAL: u32 = 10;

/// A thread at work.
#[derive(Drop)]
pub struct Executor<'a, 'd, T: ShareRun> {
    berths: &'d [Mutex<Berth<'a, T>>],
    /// The place of its own share.
    home: usize,
    clerk: Clerk<'a, 'd, T>,
    idle: Idle,
    /// How many looks in a row found nothing to do.
    looks: u32,
}

impl<'a, 'd, T: ShareRun> Executor<'a, 'd, T> {
    /// One whose own share has this place.
    pub(crate) fn new(
        berths: &'d [Mutex<Berth<'a, T>>],
        home: usize,
        clerk: Clerk<'a, 'd, T>,
    ) -> Executor<'a, 'd, T> {
        Executor {
            berths,
            home,
            clerk,
            idle: Idle::new(),
            looks: 0,
        }
    }

    // Goes on with its own share by a window, if it has one, unless that would have to wait or another thread is at
    // it. Says whether it did so.
    fn visit(&self) -> bool {
        let Some(berth) = self.berths.get(self.home) else {
            return false;
        };
        match berth.try_lock() {
            Some(mut berth) => berth.go_on(),
            None => false,
        }
    }

    // Goes on with another share than its own, where it found nothing to do for a while.
    fn help(&mut self) -> bool {
        self.looks = self.looks.saturating_add(1);
        if self.looks < LOYAL {
            return false;
        }
        let count = self.berths.len();
        if count == 0 {
            return false;
        }
        let place = self.home.wrapping_add(self.looks as usize) % count;
        let Some(berth) = self.berths.get(place) else {
            return false;
        };
        match berth.try_lock() {
            Some(mut berth) => berth.help(),
            None => false,
        }
    }

    // Goes on by a window of its own share, by a piece of a text or by another's window. Says whether there was
    // anything to do.
    fn work<R: Wait>(&mut self, rt: &R) -> bool {
        if self.visit() {
            self.looks = 0;
            self.clerk.keep_up(rt);
            return true;
        }
        if self.clerk.go_on(rt) {
            self.looks = 0;
            return true;
        }
        self.help()
    }

    /// Goes on by a little, or rests for a moment where there is nothing to do. Says whether it can go on: not where
    /// the desk was closed.
    pub(crate) fn go_on<R: Wait>(&mut self, rt: &R) -> bool {
        if self.work(rt) {
            self.idle.end();
        } else {
            self.idle.rest(rt);
        }
        self.clerk.is_able()
    }

    /// Is at work until the desk is closed.
    pub(crate) fn run<R: Wait>(&mut self, rt: &R) {
        for _ in rt.forever() {
            if !self.go_on(rt) {
                return;
            }
        }
        unreachable!()
    }
}
