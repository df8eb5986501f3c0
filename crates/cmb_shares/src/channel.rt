//! Channels.

ghost use Rattle.std.specs.Prelude.{◌≡◌, ◌<◌, IfOk, IfSome, IsFalse, IsTrue};
ghost use Rattle.cmb_shares.specs.Inner.Channels.{Follows, greeting};

use crate::message::{Envelope, InOrder, Message};
use crate::share_run::ShareRun;
use rtrb::{Consumer, Producer, RingBuffer};
use std::alloc::{AllocError, Global};
use std::marker::Model;

/// Whether the next message of a channel has come, or there is room for one. It never will where the other end was
/// dropped before.
#[derive(Clone, Copy)]
pub enum Next {
    Come,
    Awaited,
    Never,
}

/// Where a thread looks whether it can go on.
pub trait Watched {
    /// Whether the next message has come, or there is room for one.
    fn look(&mut self) -> Next
        ensures { self.new ≡ self.old };
}

/// Whether that is so of some channels.
pub(crate) fn look_at<C: Watched>(channels: &mut [C]) -> Next
    ensures { channels.new ≡ channels.old }
{
    for place in 0..channels.len() {
        match channels[place].look() {
            Next::Come => {}
            other => return other,
        }
    }
    Next::Come
}

/// The end of a channel at which messages come.
#[derive(Drop)]
pub struct Inlet<T: ShareRun> {
    ring: Consumer<Message<T>, Global, InOrder<T>>,
}

impl<T: ShareRun> Model for Inlet<T> {
    ghost use Rattle.std.specs.Prelude.{◌≤◌, length, map};
    ghost use Rattle.rtrb.specs.Ring.{received};
    ghost use Rattle.cmb_shares.specs.declared.message.Envelope.{Envelope};
    ghost use Rattle.cmb_shares.specs.Inner.Channels.{latest_of};

    // That of the last message that came.
    ghost Value = { Envelope };

    ghost view = { λ inlet. latest_of (map (λ m. m.envelope) (received inlet.ring)) };

    ghost invariant = { λ inlet. 1 ≤ length (received inlet.ring) };
}

/// The end of a channel at which messages go.
#[derive(Drop)]
pub struct Outlet<T: ShareRun> {
    ring: Producer<Message<T>, Global, InOrder<T>>,
}

impl<T: ShareRun> Model for Outlet<T> {
    ghost use Rattle.std.specs.Prelude.{◌≤◌, length, map};
    ghost use Rattle.rtrb.specs.Ring.{sent};
    ghost use Rattle.cmb_shares.specs.declared.message.Envelope.{Envelope};
    ghost use Rattle.cmb_shares.specs.Inner.Channels.{latest_of};

    // That of the last message that went.
    ghost Value = { Envelope };

    ghost view = { λ outlet. latest_of (map (λ m. m.envelope) (sent outlet.ring)) };

    ghost invariant = { λ outlet. 1 ≤ length (sent outlet.ring) };
}

/// A channel from a share to another one or to the text. It holds so many messages. Errors: memory was refused.
pub(crate) fn channel<T: ShareRun>(
    alloc: Global,
    sender: u32,
    reader: u32,
    room: usize,
) -> Result<(Outlet<T>, Inlet<T>), AllocError>
    requires { 0 < room }
    ensures outlet { IfOk result (λ ends. ends.0 ≡ greeting sender reader) }
    ensures inlet { IfOk result (λ ends. ends.1 ≡ greeting sender reader) }
{
    let (mut outlet, mut inlet) = RingBuffer::with_protocol::<Global, InOrder<T>>(alloc, room)?;
    outlet.push_reserved(Message::greeting(sender, reader, Vec::new(alloc)));
    inlet.slots_beside(&mut outlet);
    drop(inlet.pop_known());
    Ok((Outlet { ring: outlet }, Inlet { ring: inlet }))
}

impl<T: ShareRun> Inlet<T> {
    /// The next message, if it has come.
    pub(crate) fn take(&mut self) -> Option<Message<T>>
        ensures follows { IfSome result (λ message. Follows T.run.windows self.old message.envelope) }
        ensures last { IfSome result (λ message. self.new ≡ message.envelope) }
    {
        let Ok(message) = self.ring.pop() else {
            return None;
        };
        Some(message)
    }
}

impl<T: ShareRun> Watched for Inlet<T> {
    fn look(&mut self) -> Next {
        if !self.ring.is_empty() {
            Next::Come
        } else if self.ring.is_abandoned() && self.ring.is_empty() {
            Next::Never
        } else {
            Next::Awaited
        }
    }
}

impl<T: ShareRun> Outlet<T> {
    /// Sends a message. Says whether there was room for it.
    pub(crate) fn send(&mut self, message: Message<T>) -> bool
        requires { Follows T.run.windows self.old message.envelope }
        ensures sent { IsTrue result → self.new ≡ message.envelope }
        ensures kept { IsFalse result → self.new ≡ self.old }
    {
        let Ok(()) = self.ring.push(message) else {
            return false;
        };
        true
    }
}

impl<T: ShareRun> Watched for Outlet<T> {
    fn look(&mut self) -> Next {
        if !self.ring.is_full() {
            Next::Come
        } else if self.ring.is_abandoned() {
            Next::Never
        } else {
            Next::Awaited
        }
    }
}
