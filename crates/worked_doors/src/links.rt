//! `cmb_links`: workers, boards of promises, and links for messages.

ghost use Rattle.std.specs.Prelude.{◌≡◌};

use crate::checks::{holds, same};
use crate::designs::of_toggle;
use crate::protocol::spread;
use cmb_core::Clustering;
use cmb_design::Design;
use cmb_links::{Board, Link, LinkFault, Workers};
use std::alloc::{AllocError, Global};
use std::sync::Wait;
use std::test::Fail;

#[test]
fn workers(rt: HostRuntime) {
    same(
        &rt,
        Workers::new(65).err().map(|fault| fault.number()),
        Some(54),
    );
}

// Whether a board that two workers have and nobody used ends with a promise for each of two nets, and with nobody done.
fn ends_unused(
    alloc: Global,
    design: &Design,
    clustering: &Clustering,
    workers: Workers,
) -> Result<bool, AllocError>
    requires two { workers ≡ 2 }
{
    let (board, seats) = Board::open(alloc, design, clustering, workers)?;
    let ending = board.close(alloc, seats)?;
    Ok(!ending.is_raised && ending.promises.len() == 2 && ending.finished == 0)
}

fn board_ends(alloc: Global, design: &Design) -> Result<bool, Fail> {
    let workers = Workers::new(2)?;
    let clustering = spread(alloc, design, 2)?;
    Ok(ends_unused(alloc, design, &clustering, workers)?)
}

#[test]
fn boards(rt: HostRuntime) -> Result<(), Fail> {
    let alloc = rt.alloc();
    let is_ended = of_toggle(alloc, |design| board_ends(alloc, design))?;
    holds(&rt, is_ended);
    Ok(())
}

// Whether a link for the messages of net 0 is empty, and so is what is left of it.
fn is_empty_link<R: AllocGlobal + Wait>(rt: &R, design: &Design) -> Result<bool, Fail> {
    let (link, put, mut take) = Link::open(rt.alloc(), design, &[0], 2)?;
    let is_empty = link.take(rt, &mut take).is_none();
    Ok(link.close(rt, rt.alloc(), put, take)?.is_empty() && is_empty)
}

fn is_refused(alloc: Global, design: &Design) -> bool {
    Link::open(alloc, design, &[0], 0).err() == Some(LinkFault::Capacity)
}

#[test]
fn links(rt: HostRuntime) -> Result<(), Fail> {
    let alloc = rt.alloc();
    holds(
        &rt,
        of_toggle(alloc, |design| Ok(is_refused(alloc, design)))?,
    );
    holds(&rt, of_toggle(alloc, |design| is_empty_link(&rt, design))?);
    Ok(())
}
