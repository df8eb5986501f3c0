//! Sources that give a byte at a time.

ghost use Rattle.std.specs.Prelude.{◌≡◌, Some};

use cmb_sim::{Failed, Source};

/// Gives one byte a call, and fails at the read after a number of them.
#[derive(Drop)]
pub struct Drip<'a> {
    rest: &'a [u8],
    left: u32,
    pub failures: u64,
}

impl<'a> Source for Drip<'a> {
    ghost remaining = { λ s. Some s.rest.now };

    ghost failures = { λ s. s.failures };

    fn read(&mut self, buffer: &mut [u8]) -> Result<usize, Failed> {
        if self.left == 0 {
            self.failures += 1;
            return Err(Failed);
        }
        self.left -= 1;
        let count = buffer.len().min(self.rest.len()).min(1);
        let (front, rest) = self.rest.split_at(count);
        buffer[..count].copy_from_slice(front);
        self.rest = rest;
        Ok(count)
    }
}

/// The bytes one by one, up to so many reads.
pub fn dripping(rest: &[u8], left: u32) -> Drip<'_>
    ensures { result.failures ≡ 0 }
{
    Drip {
        rest,
        left,
        failures: 0,
    }
}
