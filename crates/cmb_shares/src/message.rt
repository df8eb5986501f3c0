//! What a share sends of a window.

ghost use Rattle.std.specs.Prelude.{◌≡◌, map};
ghost use Rattle.std.proofs.Props.{props};
ghost use Rattle.cmb_shares.specs.Inner.Channels.{MayGo, greeting};
ghost use Rattle.cmb_shares.specs.Inner.Messages.{IsMessage};

use crate::share_run::ShareRun;
use cmb_words::Changed;
use rtrb::Protocol;
use std::marker::PhantomData;

/// From which share a message is, to which, and of which ticks: from `from` on below `upto`.
#[derive(Clone, Copy)]
pub struct Envelope {
    pub sender: u32,
    pub reader: u32,
    pub from: u32,
    pub upto: u32,
}

/// What a share sends to another one, or to the text, of a window of the run that `T` names. One without changes is a
/// null message.
#[derive(Drop)]
pub struct Message<T: ShareRun> {
    pub envelope: Envelope,
    pub changes: Vec<Changed>,
    run: PhantomData<T>,
    ghost tells: { IsMessage T.run envelope changes.items } by { Prim.hlevel props },
}

impl<T: ShareRun> Message<T> {
    /// A message of such changes.
    pub(crate) fn new(envelope: Envelope, changes: Vec<Changed>) -> Message<T>
        requires { IsMessage T.run envelope changes.items }
        ensures { result.envelope ≡ envelope }
    {
        Message {
            envelope,
            changes,
            run: PhantomData,
        }
    }

    /// The first message of a channel, with such room. It is of no tick.
    pub(crate) fn greeting(sender: u32, reader: u32, room: Vec<Changed>) -> Message<T>
        ensures { result.envelope ≡ greeting sender reader }
    {
        let mut room = room;
        room.clear();
        let envelope = Envelope {
            sender,
            reader,
            from: 1,
            upto: 1,
        };
        Message::new(envelope, room)
    }
}

/// The messages of a channel: each begins where the last one ended.
pub struct InOrder<T: ShareRun> {
    run: PhantomData<T>,
}

impl<T: ShareRun> Protocol<Message<T>> for InOrder<T> {
    ghost allows = { λ before message.
        MayGo T.run.windows (map (λ m. m.envelope) before) message.envelope };
}
