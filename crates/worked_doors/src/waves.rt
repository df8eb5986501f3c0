//! `cmb_wave`: pieces, waves and promises.

use crate::checks::{holds, same};
use cmb_wave::{Change, Heard, Level, Piece, PieceFault, Promise, Wave};
use std::alloc::Global;
use std::process::Abort;
use std::test::Fail;

/// A change to 1 at a tick.
pub fn rise(tick: u32) -> Change {
    Change {
        tick,
        level: Level::One,
    }
}

// A piece of net 3 with one change.
fn rising(alloc: Global, from: u32, to: u32, tick: u32) -> Result<Result<Piece, PieceFault>, Fail> {
    let mut changes = Vec::new(alloc);
    changes.push(rise(tick))?;
    Ok(Piece::new(3, from, to, changes))
}

// The level at a tick that is known and kept.
fn level_at(rt: &impl Abort, wave: &Wave, tick: u32) -> Level {
    holds(rt, wave.base() <= tick);
    holds(rt, tick < wave.clock());
    wave.level_at(tick)
}

#[test]
fn pieces_and_promises(rt: HostRuntime) -> Result<(), Fail> {
    let alloc = rt.alloc();
    same(
        &rt,
        rising(alloc, 0, 4, 4)?.err(),
        Some(PieceFault::Outside),
    );
    let piece = rising(alloc, 0, 5, 2)??;
    let mut wave = Wave::new(alloc, piece.net());
    same(&rt, wave.take(&piece)?, 5);
    same(&rt, level_at(&rt, &wave, 1), Level::X);
    same(&rt, level_at(&rt, &wave, 2), Level::One);
    let promise = Promise {
        net: 3,
        count: 1,
        upto: 9,
    };
    same(&rt, Promise::of_word(3, promise.word()), promise);
    holds(&rt, wave.net() == 3);
    same(&rt, wave.hear(promise), Heard::Extended);
    same(&rt, (wave.clock(), wave.count()), (9, 1));
    Ok(())
}
