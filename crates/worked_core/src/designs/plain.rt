//! The plain program on worked examples.

use crate::checks::same;
use crate::netlists::inputs;
use crate::toggle::{D, Q, TOGGLE, at};
use cmb_design_model::{DesignFault, Settings, plain_waves};
use cmb_wave::{Change, Level, Wave};
use std::alloc::Global;
use std::process::Abort;
use std::test::Fail;
use worked_designs::{Inputs, bare, of_design, or_fail, sampled, stimulated};

// The waves of the design of these texts.
fn waves_of(alloc: Global, inputs: Inputs<'_>, settings: Settings) -> Result<Vec<Wave>, Fail> {
    of_design(
        alloc,
        inputs,
        settings,
        |design| or_fail(plain_waves(alloc, design)),
    )
}

// The wave of a net is whole, and has these changes.
fn shows(rt: &impl Abort, waves: &[Wave], net: u32, horizon: u32, changes: &[Change]) {
    match waves.get(net as usize) {
        None => assert!(rt; false, "net {net} has no wave"),
        Some(wave) => {
            same(
                rt,
                (wave.net(), wave.base(), wave.clock()),
                (net, 0, horizon),
            );
            same(rt, wave.changes(), changes);
        }
    }
}

// q shows at ticks 3, 7 and 11 what d was at 2, 6 and 10, and d is the inverse of q a tick before.
#[test]
fn toggle(rt: HostRuntime) -> Result<(), Fail> {
    let waves = waves_of(rt.alloc(), bare(TOGGLE), sampled(12))?;
    let q = [
        at(0, Level::Zero),
        at(3, Level::One),
        at(7, Level::Zero),
        at(11, Level::One),
    ];
    shows(&rt, &waves, Q, 12, &q);
    let d = [at(1, Level::One), at(4, Level::Zero), at(8, Level::One)];
    shows(&rt, &waves, D, 12, &d);
    same(&rt, waves.len(), 2);
    Ok(())
}

const UNCLOCKED: Settings = Settings {
    horizon: 10,
    clock: None,
    init: Level::X,
};

#[test]
fn pulse(rt: HostRuntime) -> Result<(), Fail> {
    let texts = stimulated(
        b"INPUT(a)\nb = NOT(a)\ny = AND(a, b)\n",
        b"tick,net,value\n0,a,0\n5,a,1\n",
    );
    let waves = waves_of(rt.alloc(), texts, UNCLOCKED)?;
    let a = [at(0, Level::Zero), at(5, Level::One)];
    shows(&rt, &waves, 0, 10, &a);
    let b = [at(1, Level::One), at(6, Level::Zero)];
    shows(&rt, &waves, 1, 10, &b);
    let y = [at(1, Level::Zero), at(6, Level::One), at(7, Level::Zero)];
    shows(&rt, &waves, 2, 10, &y);
    Ok(())
}

#[test]
fn far_ticks(rt: HostRuntime) -> Result<(), Fail> {
    let texts = stimulated(
        b"INPUT(a)",
        b"tick,net,value\n4294967298,a,1\n5,a,1\n9999999999,a,x\n0,a,0\n",
    );
    let waves = waves_of(rt.alloc(), texts, UNCLOCKED)?;
    let a = [at(0, Level::Zero), at(5, Level::One)];
    shows(&rt, &waves, 0, 10, &a);
    Ok(())
}

// Why the design of these texts has no table, if it has none.
fn fault_of(
    alloc: Global,
    inputs: Inputs<'_>,
    settings: Settings,
) -> Result<Option<DesignFault>, Fail> {
    of_design(
        alloc,
        inputs,
        settings,
        |design| Ok(plain_waves(alloc, design).err()),
    )
}

#[test]
fn too_large(rt: HostRuntime) -> Result<(), Fail> {
    let settings = Settings {
        horizon: 1_000_000,
        ..UNCLOCKED
    };
    let bench = inputs(rt.alloc(), 17)?;
    let fault = fault_of(rt.alloc(), bare(bench.as_bytes()), settings)?;
    same(&rt, fault, Some(DesignFault::TableTooLarge));
    Ok(())
}
