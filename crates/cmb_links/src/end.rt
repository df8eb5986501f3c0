//! What an end of a link knows, and what holds of a link. No value of `End` is made.

use cmb_design_model::Design;
use cmb_wave::Piece;
use crossbeam_queue::protocol::{Join, Lesson, Outcome, Protocol, Split};
use std::collections::LinkedList;
use std::marker::{Brand, PhantomData};

pub enum EndRole {
    Fresh,
    Puts,
    Takes,
    Closes,
    Spent,
}

/// What a link carries: pieces of a design, of these nets.
pub struct Cargo {
    pub design: Design,
    pub nets: LinkedList<u32>,
}

/// What a link carries, how many pieces it holds at most, and what was put and taken at this end, in order.
pub struct End {
    pub role: EndRole,
    pub cargo: Cargo,
    pub capacity: usize,
    pub sent: LinkedList<Piece>,
    pub received: LinkedList<Piece>,
}

/// Names what a link carries, and its capacity. `Brand` stands for any that a call picks.
pub trait Naming {
    ghost use Rattle.std.specs.Prelude.{ℕ};
    ghost use Rattle.cmb_links.specs.declared.end.Cargo.{Cargo as Carries};

    ghost cargo: { Carries };

    ghost capacity: { ℕ };
}

impl Naming for Brand {
    ghost use Rattle.cmb_links.specs.Inner.Ends.{no_cargo};

    ghost cargo = { no_cargo };

    ghost capacity = { 0 };
}

pub struct InOrder;

impl Protocol<Piece, End> for InOrder {
    ghost use Rattle.cmb_links.specs.Inner.Ends.{IsLinked, fresh};

    ghost holds = { IsLinked };

    ghost first = { fresh };
}

// How the first pass becomes the two ends of a link.
pub struct Ends<D> {
    cargo: PhantomData<D>,
}

impl<D: Naming> Split<End> for Ends<D> {
    ghost use Rattle.std.specs.Prelude.{[]};
    ghost use Rattle.cmb_links.specs.Inner.Ends.{putting, taking};

    ghost left = { λ v. putting D.cargo D.capacity [] };

    ghost right = { λ v. taking D.cargo D.capacity [] };
}

// How the two ends of a link become the one that closes it.
pub struct Closing;

impl Join<End> for Closing {
    ghost use Rattle.cmb_links.specs.Inner.Ends.{closing, spent};

    ghost both = { λ v w. closing v.cargo v.capacity v.sent w.received };

    ghost spent = { spent };
}

pub struct Sent;

impl Outcome<Piece, End> for Sent {
    ghost use Rattle.cmb_links.specs.Inner.Ends.{Sends};

    ghost then = { Sends };
}

impl Lesson<Piece, End> for Sent {
    ghost use Rattle.std.specs.Prelude.{◌≤◌, length};

    ghost fact = { λ v held. length held ≤ length v.sent };
}

pub struct Received;

impl Outcome<Piece, End> for Received {
    ghost use Rattle.cmb_links.specs.Inner.Ends.{Receives};

    ghost then = { Receives };
}

impl Lesson<Piece, End> for Received {
    ghost use Rattle.std.specs.Prelude.{⊤};

    ghost fact = { λ v held. ⊤ };
}

pub struct Left;

impl Outcome<Piece, End> for Left {
    ghost use Rattle.cmb_links.specs.Inner.Ends.{Empties};

    ghost then = { Empties };
}

impl Lesson<Piece, End> for Left {
    ghost use Rattle.cmb_links.specs.Inner.Ends.{Leaves};

    ghost fact = { Leaves };
}
