//! What lets a worker into its next turn.

/// Asked by a worker before each of its turns. It may wait.
pub trait Turnstile {
    /// True lets the worker into its turn; false stops the whole run, which ends once every worker has
    /// come back from `pass`. Turns are counted from 0 and stay at 2^32 - 1.
    fn pass(&self, worker: u32, turn: u32) -> bool;
}

/// Lets everyone in.
#[derive(Clone, Copy)]
pub struct OpenGate;

impl Turnstile for OpenGate {
    ghost use Rattle.std.specs.Prelude.{◌≡◌, true};

    fn pass(&self, _worker: u32, _turn: u32) -> bool
        ensures { result ≡ true }
    {
        true
    }
}
