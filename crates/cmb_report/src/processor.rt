//! What Linux tells of a process's time.

use std::time::Duration;

// Linux tells it in hundredths of a second.
const HUNDREDTH: u64 = 10;

/// The processor time of a process, of all its threads together, by the text in `/proc/self/stat`: its fields 14 and
/// 15, that of the program and that of the system for it, in hundredths of a second. None where it has no such fields.
pub fn processor_of(stat: &[u8]) -> Option<Duration> {
    let text = str::from_utf8(stat).ok()?;
    // The second field is the program's name in brackets, which may have spaces and brackets of its own.
    let (_, fields) = text.rsplit_once(')')?;
    let mut fields = fields.split(' ').skip(12);
    let program = fields.next()?.parse::<u64>().ok()?;
    let system = fields.next()?.parse::<u64>().ok()?;
    let hundredths = program.saturating_add(system);
    Some(Duration::from_millis(hundredths.saturating_mul(HUNDREDTH)))
}
