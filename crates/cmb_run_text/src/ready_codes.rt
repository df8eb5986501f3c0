//! Identifier codes that are made once, and lines that are written from them.

ghost use Rattle.std.specs.Prelude.{◌≡◌, ◌+◌, ◌%◌, ◌++◌, ◌∷◌, [], length, IfOk, OnOk};
ghost use Rattle.cmb_run_text.specs.ReadyCodes.{code_bytes};
ghost use Rattle.cmb_run_text.specs.Vcd.{code, level_line};

use crate::lines::byte_of;
use cmb_wave::Level;
use std::alloc::{AllocError, Global};
use std::marker::Model;

/// A net's identifier code: a byte for each digit.
#[derive(Clone, Copy)]
pub enum Code {
    One(u8),
    Two(u8, u8),
    Three(u8, u8, u8),
}

/// The codes of nets, by their numbers.
#[derive(Drop)]
pub struct Codes {
    codes: Vec<Code>,
}

impl Model for Codes {
    ghost use Rattle.std.specs.Prelude.{List};
    ghost use Rattle.cmb_run_text.specs.declared.ready_codes.Code.{Code};
    ghost use Rattle.cmb_run_text.specs.ReadyCodes.{AreCodes};

    ghost Value = { List Code };

    ghost view = { λ c. c.codes.items };

    ghost invariant = { λ c. AreCodes c.codes.items };
}

// The least digit of a number.
fn digit(number: u16) -> u8
    ensures { result ≡ 33 + number % 94 }
{
    33 + (number % 94) as u8
}

/// The code of a net.
pub fn code_of(net: u16) -> Code
    ensures { code_bytes result ≡ code net }
{
    if net < 94 {
        return Code::One(digit(net));
    }
    let second = net / 94 - 1;
    if second < 94 {
        return Code::Two(digit(net), digit(second));
    }
    let third = second / 94 - 1;
    Code::Three(digit(net), digit(second), digit(third))
}

// One line, written at once.
fn push_line(out: &mut Vec<u8>, first: u8, code: Code) -> Result<(), AllocError>
    ensures { OnOk result (out.new.items ≡ out.old.items ++ first ∷ (code_bytes code ++ 10 ∷ [])) }
{
    match code {
        Code::One(a) => out.extend_from_slice(&[first, a, b'\n']),
        Code::Two(a, b) => out.extend_from_slice(&[first, a, b, b'\n']),
        Code::Three(a, b, c) => out.extend_from_slice(&[first, a, b, c, b'\n']),
    }
}

impl Codes {
    /// The codes of so many nets.
    pub(crate) fn new(alloc: Global, nets: u16) -> Result<Codes, AllocError>
        ensures { IfOk result (λ codes. length codes ≡ nets) }
    {
        let mut codes = Vec::with_capacity(alloc, nets as usize)?;
        for net in 0..nets {
            codes.push(code_of(net))?;
        }
        Ok(Codes { codes })
    }

    // The code of a net; that of a net beyond the codes is made anew.
    fn of(&self, net: u16) -> Code
        ensures { code_bytes result ≡ code net }
    {
        let place = net as usize;
        if place >= self.codes.len() {
            return code_of(net);
        }
        self.codes[place]
    }

    /// The line of a net's level.
    #[tactic(auto, unfolding(crate::specs::Vcd::level_line))]
    pub(crate) fn push(&self, out: &mut Vec<u8>, level: Level, net: u16) -> Result<(), AllocError>
        ensures { OnOk result (out.new.items ≡ out.old.items ++ level_line level net) }
    {
        push_line(out, byte_of(level), self.of(net))
    }
}
