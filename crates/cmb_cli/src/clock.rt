//! The value of `--clock`.

ghost use Rattle.std.specs.Prelude.{◌<◌, IfSome};
ghost use Rattle.cmb_cli.specs.Inner.Clocks.{IsClock, Spells};

use std::alloc::{AllocError, Global};

// One to seven digits.
fn ticks_of(text: &str) -> Option<u32>
    ensures few { IfSome result (λ n. n < 10000000) }
    ensures spelled { IfSome result (Spells text.now) }
{
    if text.len() > 7 || !text.bytes().all(|b| b.is_ascii_digit()) {
        return None;
    }
    match text.parse::<u32>() {
        Ok(n) if n < 10_000_000 => Some(n),
        _ => None,
    }
}

/// The clock that `F:P` names, each one to seven digits: its first sample tick and its period, in ticks.
pub(crate) fn clock_of(text: &str) -> Option<(u32, u32)>
    ensures { IfSome result (λ clock. IsClock text.now clock.0 clock.1) }
{
    let (first, period) = text.split_once(':')?;
    Some((ticks_of(first)?, ticks_of(period)?))
}

/// What is said of a value of `--clock` that has another form.
pub(crate) fn clock_message(alloc: Global, text: &str) -> Result<String, AllocError> {
    let text = text.escape_debug();
    format!(in alloc;
        "cmbsim: --clock {text} isn't F:P, the first tick and the period: --clock 9:10 samples at 9, 19, 29 and so on\n"
    )
}
