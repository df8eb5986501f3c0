//! What shares send for the text, taken window by window by any thread that makes text.

ghost use Rattle.std.specs.Prelude.{◌≡◌, ◌<◌, [], length, map, IfOk, OnOk};
ghost use Rattle.std.proofs.Props.{props};
ghost use Rattle.cmb_shares.specs.Inner.Channels.{Follows};
ghost use Rattle.cmb_shares.specs.Inner.Flows.{AreSources, IsInbox, IsJob};
ghost use Rattle.cmb_shares.specs.Inner.Processes.{Turns, text_of};
ghost use Rattle.cmb_shares.specs.Inner.Runs.{IsRun, IsTurn};

use crate::channel::{Inlet, Next, Watched, look_at};
use crate::message::Message;
use crate::share_run::ShareRun;
use cmb_engine::Windows;
use cmb_words::Changed;
use rtrb::Producer;
use std::alloc::{AllocError, Global};
use std::marker::Model;

/// The channel by which a share sends changes for the text, and by which their buffers go back to it.
#[derive(Drop)]
pub struct Inflow<T: ShareRun> {
    pub inlet: Inlet<T>,
    pub back: Producer<Vec<Changed>>,
}

impl<T: ShareRun> Model for Inflow<T> {
    ghost use Rattle.cmb_shares.specs.declared.message.Envelope.{Envelope};

    // That of the last message that came.
    ghost Value = { Envelope };

    ghost view = { λ source. source.inlet };
}

/// What all shares sent of a window: a message from each, in the order of their numbers.
#[derive(Drop)]
pub struct Job<T: ShareRun> {
    pub from: u32,
    pub upto: u32,
    pub parts: Vec<Message<T>>,
    ghost sent: { IsJob T.run from upto (map (λ m. m.envelope) parts.items) } by { Prim.hlevel props },
}

/// The channels from all shares to the text, and the tick up to which messages were taken from them.
#[derive(Drop)]
pub struct Inbox<T: ShareRun> {
    alloc: Global,
    windows: Windows,
    sources: Vec<Inflow<T>>,
    clock: u32,
}

impl<T: ShareRun> Model for Inbox<T> {
    ghost use Rattle.std.specs.Prelude.{ℕ};
    ghost use Rattle.cmb_shares.specs.Inner.Flows.{IsInbox};

    // The tick up to which messages were taken.
    ghost Value = { ℕ };

    ghost view = { λ inbox. inbox.clock };

    ghost invariant = { λ inbox. IsInbox T.run inbox.windows inbox.clock inbox.sources.items };
}

/// The same for all threads, of which one at a time takes a window. It is closed once no more text is made.
#[derive(Drop)]
pub struct Desk<T: ShareRun> {
    inbox: Option<Inbox<T>>,
}

impl<T: ShareRun> Inflow<T> {
    // What the share sent of the next window, if it has come.
    fn take(&mut self) -> Result<Message<T>, AllocError>
        ensures follows { OnOk result (Follows T.run.windows self.old self.new) }
        ensures last { IfOk result (λ message. self.new ≡ message.envelope) }
    {
        match self.inlet.take() {
            Some(message) => Ok(message),
            None => Err(AllocError),
        }
    }

    // Gives room back to the share, which may have ended.
    fn give_back(&mut self, room: Vec<Changed>)
        ensures { self.new ≡ self.old }
    {
        drop(self.back.push(room));
    }
}

impl<T: ShareRun> Watched for Inflow<T> {
    fn look(&mut self) -> Next {
        self.inlet.look()
    }
}

// Takes what all shares sent of a window, where it has come: a turn of the text's process.
fn take_parts<T: ShareRun>(
    sources: &mut [Inflow<T>],
    from: u32,
    upto: u32,
    parts: &mut Vec<Message<T>>,
) -> Result<(), AllocError>
    requires lawful { IsRun T.run }
    requires turn { IsTurn T.run from upto }
    requires count { length sources.old ≡ length T.run.driven }
    requires sources { AreSources T.run from sources.old }
    requires none { parts.old.items ≡ [] }
    ensures len { length sources.new ≡ length sources.old }
    ensures sources { OnOk result (AreSources T.run upto sources.new) }
    ensures parts { OnOk result (IsJob T.run from upto (map (λ m. m.envelope) parts.new.items)) }
    ensures turns { OnOk result (Turns T.run (text_of T.run from sources.old) (text_of T.run upto sources.new)) }
{
    for place in 0..sources.len() {
        let part = sources[place].take()?;
        parts.push(part)?;
    }
    Ok(())
}

// Gives a message's room back to the share from which it came.
fn give_back<T: ShareRun>(sources: &mut [Inflow<T>], message: Message<T>)
    ensures { sources.new ≡ sources.old }
{
    let Message {
        envelope,
        changes,
        ..
    } = message;
    let place = envelope.sender as usize;
    if place < sources.len() {
        sources[place].give_back(changes);
    } else {
        drop(changes);
    }
}

// The same of some messages.
fn give_all_back<T: ShareRun>(sources: &mut [Inflow<T>], spent: &mut Vec<Message<T>>)
    ensures { sources.new ≡ sources.old }
{
    while let Some(message) = spent.pop() {
        give_back(sources, message);
    }
}

impl<T: ShareRun> Inbox<T> {
    // Gives room back to the shares from which it came.
    fn give_back(&mut self, spent: &mut Vec<Message<T>>)
        ensures { self.new ≡ self.old }
    {
        give_all_back(&mut self.sources, spent);
    }

    // Whether all shares sent of the next window.
    fn look(&mut self) -> Next
        ensures { self.new ≡ self.old }
    {
        look_at(&mut self.sources)
    }

    // Goes on by a window, of which all shares sent. Errors: memory was refused.
    fn take(self) -> Result<(Inbox<T>, Job<T>), AllocError>
        requires { self < T.run.windows.horizon }
    {
        let Inbox {
            alloc,
            windows,
            mut sources,
            clock: from,
        } = self;
        let upto = windows.end(from);
        let mut parts = Vec::new(alloc);
        let Ok(()) = take_parts(&mut sources, from, upto, &mut parts) else {
            drop((windows, sources, parts));
            return Err(AllocError);
        };
        let inbox = Inbox {
            alloc,
            windows,
            sources,
            clock: upto,
        };
        Ok((inbox, Job { from, upto, parts }))
    }
}

impl<T: ShareRun> Desk<T> {
    /// The channels from all shares, along which nothing went yet.
    pub(crate) fn new(alloc: Global, windows: Windows, sources: Vec<Inflow<T>>) -> Desk<T>
        requires { IsInbox T.run windows 1 sources.items }
    {
        Desk {
            inbox: Some(Inbox {
                alloc,
                windows,
                sources,
                clock: 1,
            }),
        }
    }

    /// What all shares sent of the next window, if it has come, and unless texts enough were made. Gives the room of
    /// earlier ones back. Errors: the desk is closed, a share ended early, or memory was refused.
    pub(crate) fn take(
        &mut self,
        spent: &mut Vec<Message<T>>,
        is_ahead: bool,
    ) -> Result<Option<Job<T>>, AllocError> {
        let Some(mut inbox) = self.inbox.take() else {
            return Err(AllocError);
        };
        inbox.give_back(spent);
        if is_ahead || inbox.clock >= inbox.windows.horizon() {
            self.inbox = Some(inbox);
            return Ok(None);
        }
        match inbox.look() {
            Next::Come => {
                let (inbox, job) = inbox.take()?;
                self.inbox = Some(inbox);
                Ok(Some(job))
            }
            Next::Awaited => {
                self.inbox = Some(inbox);
                Ok(None)
            }
            Next::Never => {
                drop(inbox);
                Err(AllocError)
            }
        }
    }

    /// No more text is made: shares that wait for room end.
    pub(crate) fn close(&mut self) {
        self.inbox = None;
    }
}
