//! The two ends of a link.

ghost use Rattle.std.specs.Prelude.{◌≡◌, ◌≤◌, [], ◌∷◌, IfSome, IfErr};
ghost use Rattle.cmb_design_model.specs.Exact.{IsExactIn};
ghost use Rattle.cmb_links.specs.Links.{channel_clock};

use cmb_links::{Full, Link, PutPass, TakePass};
use cmb_wave::Piece;
use std::sync::Wait;

/// The end that puts the pieces of one net, and the tick up to which they were put.
#[derive(Drop)]
pub struct Out<'a> {
    link: &'a Link,
    pass: PutPass,
    net: u32,
    upto: u32,
    ghost same: { pass.link ≡ link.now.link },
    ghost carried: { pass.nets ≡ net ∷ [] },
    ghost reached: { upto ≤ channel_clock net pass.sent },
}

/// The end that takes.
#[derive(Drop)]
pub struct In<'a> {
    link: &'a Link,
    pass: TakePass,
    ghost same: { pass.link ≡ link.now.link },
}

impl<'a> Out<'a> {
    pub fn new(link: &'a Link, pass: PutPass, net: u32) -> Out<'a>
        requires link { pass.link ≡ link.now.link }
        requires net { pass.nets ≡ net ∷ [] }
        ensures { result.pass ≡ pass }
    {
        Out {
            link,
            pass,
            net,
            upto: 0,
        }
    }

    /// Puts an exact piece of the net, or gives it back where the link was full. One of another net, or behind a gap,
    /// is given back too.
    pub fn put<R: Wait>(&mut self, rt: &R, piece: Piece) -> Result<(), Full>
        requires { IsExactIn self.old.pass.design piece }
        ensures back { IfErr result (λ full. IsExactIn self.old.pass.design full.0) }
        ensures same { self.new.pass.design ≡ self.old.pass.design }
        ensures link { self.new.pass.link ≡ self.old.pass.link }
    {
        if piece.net() != self.net || piece.from() > self.upto {
            return Err(Full(piece));
        }
        let to = piece.to();
        self.link.put(rt, &mut self.pass, piece)?;
        self.upto = to;
        Ok(())
    }

    /// Gives the pass back.
    pub fn into_pass(self) -> PutPass
        ensures { result ≡ self.entry.pass }
    {
        self.pass
    }
}

impl<'a> In<'a> {
    pub fn new(link: &'a Link, pass: TakePass) -> In<'a>
        requires { pass.link ≡ link.now.link }
        ensures { result.pass ≡ pass }
    {
        In { link, pass }
    }

    /// Takes the next piece, none where the link was empty.
    pub fn take<R: Wait>(&mut self, rt: &R) -> Option<Piece>
        ensures exact { IfSome result (λ piece. IsExactIn self.old.pass.design piece) }
        ensures same { self.new.pass.design ≡ self.old.pass.design }
        ensures link { self.new.pass.link ≡ self.old.pass.link }
    {
        self.link.take(rt, &mut self.pass)
    }

    /// Gives the pass back.
    pub fn into_pass(self) -> TakePass
        ensures { result ≡ self.entry.pass }
    {
        self.pass
    }
}
