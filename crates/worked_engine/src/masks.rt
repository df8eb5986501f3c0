//! The worked examples of masks: their bits follow by hand from the numbers.

use crate::checks::same;
use cmb_words::{Places, every, lowest, without_lowest};

#[test]
fn every_fourth_place_from_the_third(rt: HostRuntime) {
    same(&rt, every(2, 4), 0x4444_4444_4444_4444);
    same(&rt, every(0, 1), u64::MAX);
    same(&rt, every(5, 1_000_000), 0x20);
    same(&rt, every(63, 1), 0x8000_0000_0000_0000);
    same(&rt, every(64, 3), 0);
}

#[test]
fn the_lowest_place(rt: HostRuntime) {
    same(&rt, lowest(0), None);
    same(&rt, lowest(0b110_1000), Some(3));
    same(&rt, lowest(1 << 63), Some(63));
    same(&rt, without_lowest(0b110_1000), 0b110_0000);
    same(&rt, without_lowest(0), 0);
}

#[test]
fn the_places_of_a_mask(rt: HostRuntime) {
    let mut places = Places::of(0x8000_0000_0000_0029);
    same(&rt, places.next(), Some(0));
    same(&rt, places.next(), Some(3));
    same(&rt, places.next(), Some(5));
    same(&rt, places.next(), Some(63));
    same(&rt, places.next(), None);
    same(&rt, places.next(), None);
}
