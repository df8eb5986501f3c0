//! What a text of waveforms says as it goes by: how far it is, and how many changes it has.

ghost use Rattle.std.specs.Prelude.{◌≡◌, length};
ghost use Rattle.cmb_report.specs.Progress.{advanced, begun, counted, lengthened, no_text};
ghost use Rattle.cmb_report.specs.Progress.{place_after, placed, stepped};

// Where in a line the next byte stands.
#[derive(Clone, Copy, Debug, PartialEq, Eq)]
enum At {
    Start,
    Tick,
    Rest,
}

/// How much of a text of waveforms went by. A level at tick 0 counts as a change.
#[derive(Clone, Copy, Debug, PartialEq, Eq)]
pub struct TextProgress {
    pub bytes: u64,
    pub changes: u64,
    /// The last tick that the text has begun.
    pub tick: u64,
    at: At,
    digits: u64,
}

impl TextProgress {
    /// Nothing went by.
    pub fn new() -> TextProgress
        ensures bytes { result.bytes ≡ 0 }
        ensures changes { result.changes ≡ 0 }
        ensures tick { result.tick ≡ 0 }
        ensures new { result ≡ no_text }
    {
        TextProgress {
            bytes: 0,
            changes: 0,
            tick: 0,
            at: At::Start,
            digits: 0,
        }
    }

    // The first byte of a line says what it is: `#` a tick, a level a change.
    fn begin(&mut self, byte: u8)
        ensures { self.new ≡ begun self.old byte }
    {
        self.at = match byte {
            b'\n' => At::Start,
            b'#' => {
                self.digits = 0;
                At::Tick
            }
            b'0' | b'1' | b'x' => {
                self.changes = self.changes.saturating_add(1);
                At::Rest
            }
            _ => At::Rest,
        };
    }

    // A byte that is no digit of a tick ends the line, or doesn't.
    fn pass(&mut self, byte: u8)
        ensures { self.new ≡ placed self.old (place_after byte) }
    {
        self.at = if byte == b'\n' { At::Start } else { At::Rest };
    }

    // A digit of a tick, or the end of its digits.
    fn count(&mut self, byte: u8)
        ensures { self.new ≡ counted self.old byte }
    {
        if byte.is_ascii_digit() {
            let digit = u64::from(byte - b'0');
            self.digits = self.digits.saturating_mul(10).saturating_add(digit);
            return;
        }
        self.tick = self.digits;
        self.pass(byte);
    }

    // One byte more went by.
    fn step(&mut self, byte: u8)
        ensures { self.new ≡ stepped self.old byte }
    {
        match self.at {
            At::Start => self.begin(byte),
            At::Tick => self.count(byte),
            At::Rest => self.pass(byte),
        }
    }

    /// Some more of the text went by.
    pub fn add(&mut self, text: &[u8])
        ensures { self.new ≡ lengthened (advanced self.old text.now) (length text.now) }
    {
        for byte in text {
            self.step(*byte);
        }
        self.bytes = self.bytes.saturating_add(text.len() as u64);
    }
}
