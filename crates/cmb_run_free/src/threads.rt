//! The threads of a free run: one for each worker.

ghost use Rattle.std.specs.Prelude.{◌≡◌, vec_len};

use crate::crew::Lookout;
use crate::turnstile::Turnstile;
use crate::worker::Worker;
use cmb_run_exact::ClusterRun;
use std::alloc::Global;
use std::sync::Wait;
use std::thread::{JoinHandle, Scope, Threads};

/// The threads that were started, and whether memory or a thread was refused.
#[derive(Drop)]
pub struct Started {
    threads: Vec<JoinHandle<bool>>,
    refused: bool,
}

impl Started {
    /// How many threads were started.
    pub(crate) fn count(&self) -> usize
        ensures { result ≡ vec_len self.now.threads }
    {
        self.threads.len()
    }

    // Takes the handle of a thread, if there is one, and says whether it could.
    fn take(&mut self, thread: Option<JoinHandle<bool>>) -> bool {
        match thread {
            Some(thread) => self.threads.push(thread).is_ok(),
            None => false,
        }
    }

    /// Waits for the threads' ends. Says whether memory or a thread was refused, here or in one of them.
    pub(crate) fn join<R: Threads + Wait>(self, rt: &R) -> bool {
        let mut refused = self.refused;
        for thread in self.threads {
            refused |= thread.join(rt);
        }
        refused
    }
}

// Runs a worker in a thread of its own, None where that was refused.
fn spawned<'s, E, T: ClusterRun + Send + Sync + 's, G: Turnstile + Sync, R: Threads + Wait + Sync>(
    rt: &'s R,
    scope: &Scope<'s, E>,
    worker: Worker<T>,
    gate: &'s G,
) -> Option<JoinHandle<bool>> {
    scope.spawn(move || worker.run(rt, gate)).ok()
}

/// Runs each worker in a thread of its own. Where one is refused the stop word is raised.
pub(crate) fn start<
    's,
    E,
    T: ClusterRun + Send + Sync + 's,
    G: Turnstile + Sync,
    R: Threads + Wait + Sync,
>(
    rt: &'s R,
    alloc: Global,
    scope: &Scope<'s, E>,
    workers: Vec<Worker<T>>,
    gate: &'s G,
    lookout: &mut Lookout<T>,
) -> Started {
    let mut started = Started {
        threads: Vec::new(alloc),
        refused: false,
    };
    for worker in workers {
        if !started.take(spawned(rt, scope, worker, gate)) {
            started.refused = true;
            lookout.raise();
        }
    }
    started
}
