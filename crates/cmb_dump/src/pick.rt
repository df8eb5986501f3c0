//! The changes of chosen nets, picked out of those of all nets.

ghost use Rattle.std.specs.Prelude.{◌≡◌, ℕ, length, IfOk, IfSome, OnOk};
ghost use Rattle.cmb_dump.specs.Shown.{AreAmong};
ghost use Rattle.cmb_dump.specs.Inner.Picks.{ArePlaces, IsTaken, changes_of, picked_of, shown_of};
ghost use Rattle.cmb_words.specs.Changes.{RisesWithin};

use cmb_words::Changed;
use std::alloc::{AllocError, Global};
use std::marker::Model;

/// Picks the changes of chosen nets out of those of all nets.
#[derive(Drop)]
pub(crate) struct Picker<'a> {
    nets: &'a [u32],
    /// For each net its place among the chosen ones, or how many they are.
    places: Vec<u16>,
    /// The changes that were picked last.
    changes: Vec<Changed>,
}

impl<'a> Model for Picker<'a> {
    ghost use Rattle.std.specs.Prelude.{length};
    ghost use Rattle.cmb_dump.specs.Inner.Picks.{ArePicked, Picker};

    ghost Value = { Picker };

    ghost view = { λ p. record { count = length p.places.items; nets = p.nets.now; changes = p.changes.items } };

    ghost invariant = { λ p. ArePicked p.nets.now p.places.items };
}

// For each of so many nets its place in the list, and for one that isn't there the list's length.
fn places_of(alloc: Global, count: usize, nets: &[u32]) -> Result<Vec<u16>, AllocError>
    requires { AreAmong count nets.now }
    ensures { IfOk result (λ places. ArePlaces count nets.now places.items) }
{
    let mut places = vec![in alloc; nets.len() as u16; count]?;
    for (place, net) in nets.iter().enumerate() {
        places[*net as usize] = place as u16;
    }
    Ok(places)
}

// Gives a list the changes of the nets whose places are below `count`, by their places.
fn pick(
    places: &[u16],
    count: usize,
    changed: &[Changed],
    picked: &mut Vec<Changed>,
) -> Result<(), AllocError>
    requires { RisesWithin 0 (length places.now) changed.now }
    ensures { OnOk result (picked.new.items ≡ picked_of places.now count changed.now) }
{
    picked.clear();
    for one in changed {
        let place = places[one.net as usize];
        if (place as usize) < count {
            picked.push(Changed {
                net: place,
                word: one.word,
            })?;
        }
    }
    Ok(())
}

impl<'a> Picker<'a> {
    /// Picks these of so many nets.
    pub(crate) fn new(
        alloc: Global,
        count: usize,
        nets: &'a [u32],
    ) -> Result<Picker<'a>, AllocError>
        requires { AreAmong count nets.now }
        ensures count { IfOk result (λ pick. pick.count ≡ count) }
        ensures nets { IfOk result (λ pick. pick.nets ≡ nets.entry.now) }
    {
        Ok(Picker {
            nets,
            places: places_of(alloc, count, nets)?,
            changes: Vec::new(alloc),
        })
    }

    // Picks its nets' changes out of those of all nets in a window.
    fn take(&mut self, changed: &[Changed]) -> Result<(), AllocError>
        requires { RisesWithin 0 self.old.count changed.now }
        ensures count { self.new.count ≡ self.old.count }
        ensures nets { self.new.nets ≡ self.old.nets }
        ensures taken { OnOk result (IsTaken changed.now self.new) }
    {
        pick(&self.places, self.nets.len(), changed, &mut self.changes)
    }
}

/// Picks the changes of the nets that are shown out of those of all nets in a window.
pub(crate) fn take_shown(
    pick: &mut Option<Picker<'_>>,
    changed: &[Changed],
) -> Result<(), AllocError>
    requires { IfSome pick.old (λ p. RisesWithin 0 p.count changed.now) }
    ensures shown { shown_of pick.new ≡ shown_of pick.old }
    ensures count { (count : ℕ) → IfSome pick.old (λ p. p.count ≡ count) → IfSome pick.new (λ p. p.count ≡ count) }
    ensures taken { OnOk result (IfSome pick.new (IsTaken changed.now)) }
{
    match pick {
        Some(it) => it.take(changed),
        None => Ok(()),
    }
}

/// The changes of the nets that are shown, by their places, where they were picked if they aren't all nets.
pub(crate) fn changes_shown<'b>(
    pick: &'b Option<Picker<'_>>,
    changed: &'b [Changed],
) -> &'b [Changed]
    ensures { result.now ≡ changes_of pick.now changed.now }
{
    match pick {
        Some(it) => &it.changes,
        None => changed,
    }
}
