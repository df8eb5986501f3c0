//! The two ends of a link of the run.

ghost use Rattle.std.specs.Prelude.{◌≡◌, ◌≤◌, [], IfOk, OnOk, IfErr, OnErr, IfSome, IfNone};
ghost use Rattle.std.specs.List.{Contains};
ghost use Rattle.cmb_links.specs.Links.{after_put, after_take, channel_clock};

use cmb_design_model::Design;
use cmb_links::{Full, Link, PutPass, TakePass};
use cmb_run_exact::{ClusterRun, Posted};
use std::alloc::{AllocError, Global};
use std::marker::{Model, PhantomData};
use std::sync::{Arc, Wait};

/// How many pieces a link of the run holds.
const CAPACITY: usize = 64;

/// The end that puts. Contracts see its pass.
#[derive(Drop)]
pub struct PutEnd<T: ClusterRun> {
    link: Arc<Link>,
    pass: PutPass,
    of: PhantomData<T>,
}

impl<T: ClusterRun> Model for PutEnd<T> {
    ghost use Rattle.std.specs.Prelude.{◌≡◌};
    ghost use Rattle.std.specs.Arc.{arc_value};
    ghost use Rattle.cmb_links.specs.Links.{PutData};

    ghost Value = { PutData };

    ghost view = { λ e. e.pass };

    ghost invariant = { λ e. (e.pass.link ≡ (arc_value e.link).link) × (e.pass.design ≡ T.design) };
}

/// The end that takes. Contracts see its pass.
#[derive(Drop)]
pub struct TakeEnd<T: ClusterRun> {
    link: Arc<Link>,
    pass: TakePass,
    of: PhantomData<T>,
}

impl<T: ClusterRun> Model for TakeEnd<T> {
    ghost use Rattle.std.specs.Prelude.{◌≡◌};
    ghost use Rattle.std.specs.Arc.{arc_value};
    ghost use Rattle.cmb_links.specs.Links.{TakeData};

    ghost Value = { TakeData };

    ghost view = { λ e. e.pass };

    ghost invariant = { λ e. (e.pass.link ≡ (arc_value e.link).link) × (e.pass.design ≡ T.design) };
}

/// The two ends of a new link for these nets.
pub(crate) fn open_link<T: ClusterRun>(
    alloc: Global,
    design: &Design,
    nets: &[u32],
) -> Result<(PutEnd<T>, TakeEnd<T>), AllocError>
    requires { design.now ≡ T.design }
    ensures put { IfOk result (λ ends. (ends.0.nets ≡ nets.now) × (ends.0.sent ≡ [])) }
    ensures take { IfOk result (λ ends. (ends.1.nets ≡ nets.now) × (ends.1.received ≡ [])) }
{
    let Ok((link, put, take)) = Link::open(alloc, design, nets, CAPACITY) else {
        return Err(AllocError);
    };
    let link = Arc::new(alloc, link)?;
    let other = Arc::try_clone(&link)?;
    let put = PutEnd {
        link,
        pass: put,
        of: PhantomData,
    };
    let take = TakeEnd {
        link: other,
        pass: take,
        of: PhantomData,
    };
    Ok((put, take))
}

impl<T: ClusterRun> PutEnd<T> {
    ghost use Rattle.cmb_run_free.specs.Inner.Channels.{MayFollow};

    /// Puts a piece, or gives it back where the link was full.
    pub(crate) fn put<R: Wait>(&mut self, rt: &R, posted: Posted<T>) -> Result<(), Posted<T>>
        requires { MayFollow self.old posted }
        ensures ok { OnOk result (self.new ≡ after_put self.old posted) }
        ensures back { IfErr result (λ back. back ≡ posted) }
        ensures same { OnErr result (self.new ≡ self.old) }
    {
        match self.link.put(rt, &mut self.pass, posted.into_piece()) {
            Ok(()) => Ok(()),
            Err(Full(piece)) => Err(Posted::new(piece)),
        }
    }
}

impl<T: ClusterRun> TakeEnd<T> {
    /// Takes the next piece, none where the link was empty.
    pub(crate) fn take<R: Wait>(&mut self, rt: &R) -> Option<Posted<T>>
        ensures some { IfSome result (λ piece. self.new ≡ after_take self.old piece) }
        ensures net { IfSome result (λ piece. Contains self.old.nets piece.net) }
        ensures joined { IfSome result (λ piece. piece.from ≤ channel_clock piece.net self.old.received) }
        ensures none { IfNone result (self.new ≡ self.old) }
    {
        match self.link.take(rt, &mut self.pass) {
            Some(piece) => Some(Posted::new(piece)),
            None => None,
        }
    }
}
