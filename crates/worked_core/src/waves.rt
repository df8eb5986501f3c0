//! The worked examples of pieces, waves and promises. Their values follow by hand from one circuit:
//! a flip-flop q that samples its data d at ticks 2, 6, 10, and d the inverse of q, each with delay 1.

use crate::checks::{holds, same};
use crate::toggle::{D, Q, at, pair, pulse};
use cmb_wave::{Change, Heard, Level, Piece, PieceFault, Promise, Wave, WaveFault};
use std::alloc::Global;
use std::process::Abort;
use std::test::Fail;

fn level_at(rt: &impl Abort, wave: &Wave, tick: u32) -> Level {
    holds(rt, wave.base() <= tick);
    holds(rt, tick < wave.clock());
    wave.level_at(tick)
}

fn forget(rt: &impl Abort, wave: &mut Wave, upto: u32) {
    holds(rt, wave.base() <= upto);
    holds(rt, upto <= wave.clock());
    wave.forget(upto);
}

fn cut(rt: &impl Abort, wave: &Wave, from: u32) -> Result<Option<Piece>, Fail> {
    holds(rt, wave.base() <= from);
    holds(rt, from <= wave.clock());
    Ok(wave.cut(from)?)
}

// The same of a wave that is known to stay as it is from its clock up to a later tick.
fn cut_up_to(rt: &impl Abort, wave: &Wave, from: u32, upto: u32) -> Result<Option<Piece>, Fail> {
    holds(rt, wave.base() <= from);
    holds(rt, from <= upto);
    holds(rt, wave.clock() <= upto);
    Ok(wave.cut_up_to(from, upto)?)
}

// A piece of d from tick 4 up to tick 12, cut or copied.
fn is_rest_of_data(rt: &impl Abort, piece: &Piece) {
    same(rt, piece.net(), D);
    same(rt, piece.from(), 4);
    same(rt, piece.to(), 12);
    same(
        rt,
        piece.changes(),
        [at(4, Level::Zero), at(8, Level::One)].as_slice(),
    );
}

#[test]
fn pieces_out_of_order(rt: HostRuntime) -> Result<(), Fail> {
    let alloc = rt.alloc();
    let first = pulse(alloc, D, 0, 4, at(1, Level::One))?;
    let second = pulse(alloc, D, 4, 8, at(4, Level::Zero))?;
    let third = pulse(alloc, D, 8, 12, at(8, Level::One))?;
    let mut wave = Wave::new(alloc, D);
    same(&rt, wave.take(&third), Err(WaveFault::Gap { clock: 0 }));
    same(&rt, wave.take(&first), Ok(4));
    same(&rt, wave.take(&first), Err(WaveFault::Old { clock: 4 }));
    same(&rt, wave.take(&second), Ok(8));
    same(&rt, wave.take(&third), Ok(12));

    let rest = cut(&rt, &wave, 4)?.ok_or("a piece")?;
    is_rest_of_data(&rt, &rest);
    is_rest_of_data(&rt, &rest.try_copy()?);
    holds(&rt, cut(&rt, &wave, 12)?.is_none());
    Ok(())
}

// The second half of the example: a piece that overlaps the wave.
#[test]
fn pieces_out_of_order_overlap(rt: HostRuntime) -> Result<(), Fail> {
    let alloc = rt.alloc();
    let mut wave = Wave::new(alloc, D);
    let both = pair(alloc, D, 8, at(1, Level::One), at(4, Level::Zero))?;
    same(
        &rt,
        wave.take(&pulse(alloc, D, 0, 4, at(1, Level::One))?),
        Ok(4),
    );
    same(&rt, wave.take(&both), Ok(8));
    same(&rt, wave.count(), 2);
    same(&rt, wave.changes(), both.changes());
    Ok(())
}

fn refused(rt: &impl Abort, to: u32, changes: Vec<Change>, fault: PieceFault, number: u32) {
    let from = if fault == PieceFault::EmptySpan {
        to
    } else {
        0
    };
    same(rt, Piece::new(Q, from, to, changes).err(), Some(fault));
    same(rt, fault.number(), number);
}

#[test]
fn piece_faults(rt: HostRuntime) -> Result<(), Fail> {
    let alloc = rt.alloc();
    let twice = vec![in alloc; at(1, Level::One), at(1, Level::Zero)]?;
    let same = vec![in alloc; at(0, Level::One), at(2, Level::One)]?;
    refused(&rt, 4, Vec::new(alloc), PieceFault::EmptySpan, 10);
    refused(&rt, 3, twice, PieceFault::Order, 11);
    refused(
        &rt,
        3,
        vec![in alloc; at(3, Level::One)]?,
        PieceFault::Outside,
        12,
    );
    refused(&rt, 3, same, PieceFault::SameLevel, 13);
    Ok(())
}

#[test]
fn piece_faults_clash(rt: HostRuntime) -> Result<(), Fail> {
    let alloc = rt.alloc();
    let unknown = pulse(alloc, Q, 0, 2, at(0, Level::X))?;
    let clash = WaveFault::Clash { tick: 0 };
    same(&rt, Wave::new(alloc, Q).take(&unknown), Err(clash));
    same(&rt, clash.number(), 16);
    same(&rt, WaveFault::Gap { clock: 0 }.number(), 14);
    same(&rt, WaveFault::Old { clock: 0 }.number(), 15);
    same(&rt, WaveFault::Memory.number(), 70);
    same(&rt, PieceFault::Memory.number(), 70);
    Ok(())
}

#[test]
fn two_clusters(rt: HostRuntime) -> Result<(), Fail> {
    let alloc = rt.alloc();
    let mut output = Wave::new(alloc, Q);
    let piece = output.grow(3, vec![in alloc; at(0, Level::Zero)]?)?;
    same(&rt, piece.net(), Q);
    same(&rt, piece.from(), 0);
    same(&rt, piece.to(), 3);
    same(&rt, piece.changes(), [at(0, Level::Zero)].as_slice());

    let promise = output.promise();
    same(
        &rt,
        promise,
        Promise {
            net: Q,
            count: 1,
            upto: 3,
        },
    );
    let mut input = Wave::new(alloc, Q);
    same(&rt, input.hear(promise), Heard::Ahead);
    same(&rt, input.take(&piece), Ok(3));
    same(&rt, input.hear(promise), Heard::Old);
    Ok(())
}

#[test]
fn promise_overtakes(rt: HostRuntime) -> Result<(), Fail> {
    let alloc = rt.alloc();
    let mut wave = Wave::new(alloc, Q);
    let rest = Piece::new(Q, 3, 12, Vec::new(alloc))?;
    same(
        &rt,
        wave.take(&pulse(alloc, Q, 0, 3, at(0, Level::Zero))?),
        Ok(3),
    );
    let promise = Promise {
        net: Q,
        count: 1,
        upto: 12,
    };
    same(&rt, wave.hear(promise), Heard::Extended);
    same(&rt, wave.clock(), 12);
    same(&rt, wave.take(&rest), Err(WaveFault::Old { clock: 12 }));
    Ok(())
}

#[test]
fn trim_row(rt: HostRuntime) -> Result<(), Fail> {
    let alloc = rt.alloc();
    let mut wave = Wave::new(alloc, Q);
    same(
        &rt,
        wave.take(&pulse(alloc, Q, 0, 3, at(0, Level::Zero))?),
        Ok(3),
    );
    forget(&rt, &mut wave, 3);
    same(&rt, wave.base(), 3);
    same(&rt, wave.clock(), 3);
    same(&rt, wave.count(), 1);
    same(&rt, wave.last_level(), Level::Zero);

    let longer = pair(alloc, Q, 7, at(0, Level::Zero), at(3, Level::One))?;
    same(&rt, wave.take(&longer), Ok(7));
    same(&rt, wave.count(), 2);
    same(&rt, wave.changes(), [at(3, Level::One)].as_slice());
    Ok(())
}

// q up to tick 12.
fn toggle_wave(alloc: Global) -> Result<Wave, Fail> {
    let mut wave = Wave::new(alloc, Q);
    let changes = [
        at(0, Level::Zero),
        at(3, Level::One),
        at(7, Level::Zero),
        at(11, Level::One),
    ];
    wave.extend(12, &changes)?;
    Ok(wave)
}

#[test]
fn toggle(rt: HostRuntime) -> Result<(), Fail> {
    let mut wave = toggle_wave(rt.alloc())?;
    for (tick, level) in [
        (0, Level::Zero),
        (2, Level::Zero),
        (3, Level::One),
        (10, Level::Zero),
        (11, Level::One),
    ] {
        same(&rt, (tick, level_at(&rt, &wave, tick)), (tick, level));
    }
    forget(&rt, &mut wave, 4);
    same(&rt, wave.kept(), Level::One);
    same(&rt, level_at(&rt, &wave, 7), Level::Zero);
    forget(&rt, &mut wave, 8);
    same(&rt, wave.kept(), Level::Zero);
    same(&rt, wave.count(), 4);
    same(&rt, wave.changes(), [at(11, Level::One)].as_slice());
    Ok(())
}

// A piece that ends behind the wave's own clock has the changes there are; the wave stays as it was.
#[test]
fn cut_beyond_the_clock(rt: HostRuntime) -> Result<(), Fail> {
    let wave = toggle_wave(rt.alloc())?;
    let piece = cut_up_to(&rt, &wave, 8, 15)?.ok_or("a piece")?;
    same(&rt, piece.net(), Q);
    same(&rt, piece.from(), 8);
    same(&rt, piece.to(), 15);
    same(&rt, piece.changes(), [at(11, Level::One)].as_slice());
    holds(&rt, cut_up_to(&rt, &wave, 15, 15)?.is_none());
    same(&rt, wave.clock(), 12);
    Ok(())
}

#[test]
fn board_words(rt: HostRuntime) {
    let promise = Promise {
        net: Q,
        count: 1,
        upto: 3,
    };
    same(&rt, promise.word(), 4_294_967_299);
    same(&rt, Promise::of_word(Q, 4_294_967_299), promise);
    let nothing = Promise {
        net: Q,
        count: 0,
        upto: 0,
    };
    same(&rt, nothing.word(), 0);
}
