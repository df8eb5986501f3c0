//! Lines: slots that show another net's waveform some ticks later. What a net's words say of it is scheduled for the
//! lines ahead.

ghost use Rattle.std.specs.Prelude.{◌≡◌, ◌+◌, ◌^◌, ◌<◌, ◌≤◌, All, IfOk, OnOk, length};
ghost use Rattle.cmb_wheel.specs.Calendars.{SameTicks};
ghost use Rattle.cmb_words.specs.Changes.{RisesWithin};
ghost use Rattle.cmb_engine.specs.Inner.Lines.{AreFollowers, IsAhead, IsOfChange, IsOfFollower, IsOfLine, NotesEach};
ghost use Rattle.cmb_engine.specs.Inner.Windows.{HasWindow};

use crate::cell::Pin;
use crate::readers::{Readers, empty_lists, push_reader};
use cmb_wheel::{Calendar, LevelEvent};
use cmb_words::{Changed, Places, Word};
use std::alloc::{AllocError, Global};

/// For each of so many nets the numbers of the lines that follow it. Most designs have no lines.
pub(crate) fn followers_of(alloc: Global, lines: &[Pin], nets: usize) -> Result<Readers, AllocError>
    requires nets { All (λ line. line.net < nets) lines.now }
    requires few { length lines.now < 2 ^ 32 }
    ensures { IfOk result (λ lists. AreFollowers lines.now nets lists) }
{
    if lines.is_empty() {
        return Readers::empty(alloc, nets);
    }
    let mut followers = empty_lists(alloc, nets)?;
    for (number, line) in lines.iter().enumerate() {
        push_reader(&mut followers, line.net as usize, number as u32)?;
    }
    Readers::joined(alloc, &followers)
}

// Notes the changes of a word from a place on, for a slot that shows them so many ticks later.
fn note_changes(
    word: Word,
    slot: u32,
    delay: u32,
    calendar: &mut Calendar,
    to: u32,
    first: u32,
) -> Result<(), AllocError>
    requires delay { delay ≤ 1000000 }
    requires ahead { calendar.old.clock + 64 ≤ to + first + delay }
    requires window { HasWindow to first }
    ensures notes { OnOk result (NotesEach (IsOfChange word slot delay to first) calendar.old calendar.new) }
    ensures ticks { SameTicks calendar.old calendar.new }
{
    let changes = word.changes_from(first);
    for place in Places::of(changes) {
        calendar.note(LevelEvent {
            tick: to + place - 64 + delay,
            slot,
            level: word.level(place),
        })?;
    }
    Ok(())
}

// Notes the changes of a word for each of some lines.
fn note_followers(
    word: Word,
    followers: &[u32],
    lines: &[Pin],
    nets: u32,
    calendar: &mut Calendar,
    to: u32,
    first: u32,
) -> Result<(), AllocError>
    requires within { All (λ number. number < length lines.now) followers.now }
    requires few { nets + length lines.now < 2 ^ 32 }
    requires ahead { All (IsAhead calendar.old to first) lines.now }
    requires window { HasWindow to first }
    ensures notes { OnOk result (NotesEach
        (IsOfFollower word followers.now lines.now nets to first)
        calendar.old calendar.new) }
    ensures ticks { SameTicks calendar.old calendar.new }
{
    for number in followers {
        let delay = lines[*number as usize].delay;
        note_changes(word, nets + *number, delay, calendar, to, first)?;
    }
    Ok(())
}

/// Notes what the lines show of the nets that changed: each change from a place on of the words that end before a tick,
/// as many ticks later as the line's delay says. Nothing is noted that lies at the horizon or behind it.
pub(crate) fn note_lines(
    changed: &[Changed],
    followers: &Readers,
    lines: &[Pin],
    calendar: &mut Calendar,
    to: u32,
    first: u32,
) -> Result<(), AllocError>
    requires changed { RisesWithin 0 (length followers.now) changed.now }
    requires followers { AreFollowers lines.now (length followers.now) followers.now }
    requires few { length followers.now + length lines.now < 2 ^ 32 }
    requires ahead { All (IsAhead calendar.old to first) lines.now }
    requires window { HasWindow to first }
    ensures notes { OnOk result (NotesEach
        (IsOfLine changed.now lines.now (length followers.now) to first)
        calendar.old calendar.new) }
    ensures ticks { SameTicks calendar.old calendar.new }
{
    if lines.is_empty() {
        return Ok(());
    }
    let nets = followers.len() as u32;
    for one in changed {
        let numbers = followers.of(one.net as usize);
        note_followers(one.word, numbers, lines, nets, calendar, to, first)?;
    }
    Ok(())
}
