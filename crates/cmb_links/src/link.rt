//! A link passes pieces of some nets of one design from one thread to another, whole, in order and without a gap.

use crate::end::{Closing, End, Ends, InOrder, Left, Naming, Received, Sent};
use crate::fault::LinkFault;
use cmb_design_model::Design;
use cmb_wave::Piece;
use crossbeam_queue::{Pass, RuledArrayQueue};
use std::alloc::{AllocError, Global};
use std::marker::{Brand, Model};
use std::sync::Wait;
use thiserror::Error;

type Queue = RuledArrayQueue<Piece, End, InOrder>;

/// The largest capacity of a link, in pieces.
pub const MOST: usize = 65_536;

/// The link was full, and the piece comes back.
#[derive(Debug, Drop, Error)]
#[error("the link is full")]
pub struct Full(pub Piece);

/// A bounded queue of pieces. Contracts see which one it is, and its capacity.
#[derive(Drop)]
#[derive_where(Debug)]
pub struct Link {
    #[derive_where(skip)]
    queue: Queue,
}

impl Model for Link {
    ghost use Rattle.std.specs.Prelude.{◌≡◌};
    ghost use Rattle.cmb_links.specs.Links.{LinkData};

    ghost Value = { LinkData };

    ghost view = { λ l. record { link = l.queue.table.shared.table_id; capacity = l.queue.cap } };

    ghost invariant = { λ l. l.queue.table.shared.table_id.slots ≡ l.queue.cap };
}

/// The end of a link that puts. Contracts see the link, what it carries and what was put, in
/// order.
#[derive(Drop)]
#[derive_where(Debug)]
pub struct PutPass {
    #[derive_where(skip)]
    pass: Pass<Piece, End>,
}

impl Model for PutPass {
    ghost use Rattle.std.specs.Prelude.{◌≡◌, [], All};
    ghost use Rattle.cmb_design_model.specs.Exact.{IsExactIn};
    ghost use Rattle.cmb_links.specs.Links.{PutData};
    ghost use Rattle.cmb_links.specs.Inner.Ends.{putting};

    ghost Value = { PutData };

    ghost view = { λ p. record {
      link = p.pass.table_id;
      design = p.pass.me.0.client.cargo.design;
      nets = p.pass.me.0.client.cargo.nets;
      sent = p.pass.me.0.client.sent;
    } };

    // All that was put is exact.
    ghost invariant = { λ p. (p.pass.me.1 ≡ [])
        × (p.pass.me.0.client ≡ putting p.pass.me.0.client.cargo p.pass.table_id.slots p.pass.me.0.client.sent)
        × All (IsExactIn p.pass.me.0.client.cargo.design) p.pass.me.0.client.sent };
}

/// The end of a link that takes. Contracts see the link, what it carries and what was taken, in
/// order.
#[derive(Drop)]
#[derive_where(Debug)]
pub struct TakePass {
    #[derive_where(skip)]
    pass: Pass<Piece, End>,
}

impl Model for TakePass {
    ghost use Rattle.std.specs.Prelude.{◌≡◌, [], All};
    ghost use Rattle.cmb_design_model.specs.Exact.{IsExactIn};
    ghost use Rattle.cmb_links.specs.Links.{TakeData};
    ghost use Rattle.cmb_links.specs.Inner.Ends.{taking};

    ghost Value = { TakeData };

    ghost view = { λ p. record {
      link = p.pass.table_id;
      design = p.pass.me.0.client.cargo.design;
      nets = p.pass.me.0.client.cargo.nets;
      received = p.pass.me.0.client.received;
    } };

    // All that was taken is exact.
    ghost invariant = { λ p. (p.pass.me.1 ≡ [])
        × (p.pass.me.0.client ≡ taking p.pass.me.0.client.cargo p.pass.table_id.slots p.pass.me.0.client.received)
        × All (IsExactIn p.pass.me.0.client.cargo.design) p.pass.me.0.client.received };
}

impl Link {
    ghost use Rattle.std.specs.Prelude.{◌≡◌, ◌<◌, ◌≤◌, ◌↔◌, ◌⊎◌, ◌++◌, All, length, vec_len, IfOk, OnOk, IfErr, OnErr};
    ghost use Rattle.std.specs.Prelude.{IfSome, IfNone, Err};
    ghost use Rattle.cmb_design_model.specs.Exact.{IsExactIn};
    ghost use Rattle.std.specs.List.{Contains};
    ghost use Rattle.cmb_links.specs.Links.{IsNewLink, after_put, after_take, channel_clock};

    /// A link for some nets of a design with nothing in it, the end that puts and the end that takes. Fault 48 where
    /// the capacity isn't 1 to 65,536 pieces, 70 where memory was refused.
    pub fn open(
        alloc: Global,
        design: &Design,
        nets: &[u32],
        capacity: usize,
    ) -> Result<(Link, PutPass, TakePass), LinkFault>
        ensures ok { IfOk result (λ opened. IsNewLink design.now nets.now capacity opened.0 opened.1 opened.2) }
        ensures capacity { (result ≡ Err LinkFault.Capacity) ↔ ((capacity ≡ 0) ⊎ (65536 < capacity)) }
    {
        if capacity == 0 || capacity > MOST {
            return Err(LinkFault::Capacity);
        }
        Ok(Link::named::<Brand>(alloc, design, nets, capacity)?)
    }

    // The same, for what D names.
    fn named<D: Naming>(
        alloc: Global,
        design: &Design,
        nets: &[u32],
        capacity: usize,
    ) -> Result<(Link, PutPass, TakePass), AllocError>
        requires some { 0 < capacity }
        requires capacity { capacity ≡ D.capacity }
        requires design { design.now ≡ D.cargo.design }
        requires nets { nets.now ≡ D.cargo.nets }
        ensures { IfOk result (λ opened. IsNewLink design.now nets.now capacity opened.0 opened.1 opened.2) }
    {
        let _ = design;
        let _ = nets;
        let (queue, mut first) = Queue::ruled(alloc, capacity)?;
        let second = queue.another::<Ends<D>>(&mut first);
        Ok((
            Link { queue },
            PutPass { pass: first },
            TakePass { pass: second },
        ))
    }

    /// Puts a piece behind the others: exact in the pass's design, of one of its nets, and beginning no later than
    /// those of its net that were put ended. Gives it back where the queue was full. The
    /// contract says that it comes back unchanged, and that at least as many were put before as the link holds; that it
    /// comes back only from a full queue is tested, not proved.
    pub fn put<R: Wait>(&self, rt: &R, pass: &mut PutPass, piece: Piece) -> Result<(), Full>
        requires link { pass.old.link ≡ self.now.link }
        requires exact { IsExactIn pass.old.design piece }
        requires net { Contains pass.old.nets piece.net }
        requires joined { piece.from ≤ channel_clock piece.net pass.old.sent }
        ensures ok { OnOk result (pass.new ≡ after_put pass.old piece) }
        ensures back { IfErr result (λ full. full.0 ≡ piece) }
        ensures same { OnErr result (pass.new ≡ pass.old) }
        ensures full { OnErr result (self.now.capacity ≤ length pass.old.sent) }
    {
        match self.queue.push_as::<Sent, R>(rt, &mut pass.pass, piece) {
            Ok(()) => Ok(()),
            Err(piece) => Err(Full(piece)),
        }
    }

    /// Takes the piece that was put first of those held. Gives none where the queue was empty; that it gives none only
    /// then is tested, not proved.
    pub fn take<R: Wait>(&self, rt: &R, pass: &mut TakePass) -> Option<Piece>
        requires link { pass.old.link ≡ self.now.link }
        ensures some { IfSome result (λ piece. pass.new ≡ after_take pass.old piece) }
        ensures exact { IfSome result (λ piece. IsExactIn pass.old.design piece) }
        ensures net { IfSome result (λ piece. Contains pass.old.nets piece.net) }
        ensures joined { IfSome result (λ piece. piece.from ≤ channel_clock piece.net pass.old.received) }
        ensures none { IfNone result (pass.new ≡ pass.old) }
    {
        self.queue.pop_as::<Received, R>(rt, &mut pass.pass)
    }

    /// Ends the link, and answers what was put and not taken, in order: with what was taken it is all that was put.
    /// There are no more pieces than the link holds. Where memory is refused they are given up with the link.
    pub fn close<R: Wait>(
        self,
        rt: &R,
        alloc: Global,
        put: PutPass,
        take: TakePass,
    ) -> Result<Vec<Piece>, AllocError>
        requires put { put.link ≡ self.link }
        requires take { take.link ≡ self.link }
        ensures order { IfOk result (λ left. put.sent ≡ take.received ++ left.items) }
        ensures room { IfOk result (λ left. vec_len left ≤ self.capacity) }
        ensures exact { IfOk result (λ left. All (IsExactIn put.design) left.items) }
    {
        let Link { queue } = self;
        let PutPass { pass: mut both } = put;
        let TakePass { pass: other } = take;
        queue.absorb::<Closing>(&mut both, other);
        queue.learn_as::<Left>(&mut both);
        let mut left = Vec::with_capacity(alloc, queue.capacity())?;
        while let Some(piece) = queue.pop_as::<Left, R>(rt, &mut both) {
            left.push_reserved(piece);
        }
        Ok(left)
    }
}
