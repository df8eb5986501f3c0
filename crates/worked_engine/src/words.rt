//! The worked examples of words and gates. The tables of the gates are those of IEEE 1364-2005, 7.2 and 7.3; the other
//! values follow by hand.

use crate::checks::{holds, same};
use cmb_netlist::Kind;
use cmb_wave::Level;
use cmb_wave::Level::{One, X, Zero};
use cmb_words::{
    Word, completed, completed_known, gate1, gate2, gate2_known, held, held_known, join,
    join_known, spliced,
};
use std::process::Abort;

// The word that begins with these levels and repeats the last one.
fn word_of(rt: &impl Abort, levels: &[Level]) -> Word {
    let mut word = Word::constant(X);
    for (place, level) in levels.iter().enumerate() {
        holds(rt, place < 64);
        word = word.with_from(place as u32, *level);
    }
    word
}

fn is_at(rt: &impl Abort, word: Word, place: u32, level: Level) {
    holds(rt, place < 64);
    same(rt, word.level(place), level);
}

fn begins_with(rt: &impl Abort, word: Word, levels: &[Level]) {
    for (place, level) in levels.iter().enumerate() {
        holds(rt, place < 64);
        is_at(rt, word, place as u32, *level);
    }
}

// The pairs of levels of the tables, in the order of 0, 1, x.
fn first_operand(rt: &impl Abort) -> Word {
    word_of(rt, &[Zero, Zero, Zero, One, One, One, X, X, X])
}

fn second_operand(rt: &impl Abort) -> Word {
    word_of(rt, &[Zero, One, X, Zero, One, X, Zero, One, X])
}

// The table of a kind, and of the kind that inverts it.
fn has_table(rt: &impl Abort, kind: Kind, levels: &[Level]) {
    let (a, b) = (first_operand(rt), second_operand(rt));
    begins_with(rt, gate2(kind, a, b), levels);
    begins_with(rt, completed(kind, join(kind, a, b)), levels);
}

#[test]
fn and_tables(rt: HostRuntime) {
    has_table(
        &rt,
        Kind::And,
        &[Zero, Zero, Zero, Zero, One, X, Zero, X, X],
    );
    has_table(&rt, Kind::Nand, &[One, One, One, One, Zero, X, One, X, X]);
}

#[test]
fn or_tables(rt: HostRuntime) {
    has_table(&rt, Kind::Or, &[Zero, One, X, One, One, One, X, One, X]);
    has_table(
        &rt,
        Kind::Nor,
        &[One, Zero, X, Zero, Zero, Zero, X, Zero, X],
    );
}

#[test]
fn xor_tables(rt: HostRuntime) {
    has_table(&rt, Kind::Xor, &[Zero, One, X, One, Zero, X, X, X, X]);
    has_table(&rt, Kind::Xnor, &[One, Zero, X, Zero, One, X, X, X, X]);
}

#[test]
fn one_operand(rt: HostRuntime) {
    let levels = word_of(&rt, &[Zero, One, X]);
    begins_with(&rt, gate1(Kind::Not, levels), &[One, Zero, X]);
    begins_with(&rt, gate1(Kind::Nor, levels), &[One, Zero, X]);
    begins_with(&rt, gate1(Kind::Buff, levels), &[Zero, One, X]);
    begins_with(&rt, gate1(Kind::Xor, levels), &[Zero, One, X]);
}

#[test]
fn three_operands(rt: HostRuntime) {
    let a = word_of(&rt, &[One, One, One, Zero]);
    let b = word_of(&rt, &[One, One, X, X]);
    let c = word_of(&rt, &[One, Zero, One, One]);
    let odd = completed(Kind::Xnor, join(Kind::Xnor, join(Kind::Xnor, a, b), c));
    begins_with(&rt, odd, &[Zero, One, X, X]);
    let all = completed(Kind::Nand, join(Kind::Nand, join(Kind::Nand, a, b), c));
    begins_with(&rt, all, &[Zero, One, X, One]);
}

#[test]
fn known_operands(rt: HostRuntime) {
    same(&rt, gate2_known(Kind::And, 0b1100, 0b1010), 0b1000);
    same(
        &rt,
        gate2_known(Kind::Nor, 0b1100, 0b1010),
        u64::MAX - 0b1110,
    );
    same(&rt, gate2_known(Kind::Xor, 0b1100, 0b1010), 0b0110);
}

// Three known operands, that have each of the eight rows of a table at a place of its own.
fn of_three(kind: Kind) -> u64 {
    let joined = join_known(kind, 0b1111_0000, 0b1100_1100);
    completed_known(kind, join_known(kind, joined, 0b1010_1010))
}

#[test]
fn three_known_operands(rt: HostRuntime) {
    same(&rt, of_three(Kind::And), 0b1000_0000);
    same(&rt, of_three(Kind::Nor), u64::MAX - 0b1111_1110);
    same(&rt, of_three(Kind::Xor), 0b1001_0110);
    same(&rt, of_three(Kind::Xnor), u64::MAX - 0b1001_0110);
}

#[test]
fn later_and_earlier(rt: HostRuntime) {
    let word = word_of(&rt, &[Zero, One, X, One, Zero]);
    let late = word.delayed(2);
    is_at(&rt, late, 2, Zero);
    is_at(&rt, late, 4, X);
    is_at(&rt, late, 6, Zero);
    begins_with(&rt, word.advanced(1), &[One, X, One, Zero, Zero]);
    let last = word.with_from(63, X).advanced(63);
    begins_with(&rt, last, &[X, X]);
    is_at(&rt, last, 63, X);
}

#[test]
fn places_that_change(rt: HostRuntime) {
    let word = word_of(&rt, &[X, One, One, Zero, X]);
    same(&rt, word.changes(), 0b1_1010);
    same(&rt, word.changes_from(4), 0b1_0000);
    same(&rt, word.is_steady_from(4), false);
    same(&rt, word.is_steady_from(5), true);
}

#[test]
fn words_put_together(rt: HostRuntime) {
    let word = spliced(Word::constant(One), Word::constant(X), 3);
    begins_with(&rt, word, &[One, One, One, X, X]);
    same(&rt, word.differs_from(Word::constant(X), 3), false);
    same(&rt, word.differs_from(Word::constant(X), 2), true);
    begins_with(&rt, word.repeated_from(2), &[One, One, One, One]);
}

// The flip-flop gets samples, with a delay of 2, at place 3 and every third place after it: 1 at place 3, x at place 6,
// and 0 at place 9 and from there on.
#[test]
fn a_flip_flop(rt: HostRuntime) {
    let own = word_of(&rt, &[Zero, Zero]);
    let data = word_of(&rt, &[X, One, Zero, Zero, X, One, One, Zero]);
    let word = held(own, data, 2, 3, 3, 2);
    let levels = [Zero, Zero, Zero, One, One, One, X, X, X, Zero];
    begins_with(&rt, word, &levels);
    is_at(&rt, word, 63, Zero);
}

// Where no sample arrives before the last place, the flip-flop keeps its level.
#[test]
fn a_flip_flop_without_a_sample(rt: HostRuntime) {
    let own = word_of(&rt, &[Zero, Zero]);
    let data = word_of(&rt, &[X, One, Zero, Zero, X, One, One, Zero]);
    is_at(&rt, held(own, data, 2, 64, 3, 2), 63, Zero);
}

// Samples arrive at place 3 and at every third place after it: of the data, places 1, 4, 7 and so on count.
#[test]
fn a_known_flip_flop(rt: HostRuntime) {
    let word = held_known(0b01, 0b1010_0110, 2, 3, 3, 2);
    same(&rt, word, 0b1110_0011_1001);
    same(&rt, held_known(0b10, 0, 2, 64, 3, 2), u64::MAX - 1);
}
