//! The laws of the machine of shares, of every network, over every list of events.

ghost use Rattle.std.specs.Prelude.{◌≡◌, ℕ, ◌<◌, ◌≤◌, ◌⊎◌, true, List, length};
ghost use Rattle.cmb_shares_protocol.specs.Network.{Network, IsNetwork, ahead};
ghost use Rattle.cmb_shares_protocol.specs.Machine.{Process, Processes, Event, Advance, CanHappen, after};
ghost use Rattle.cmb_shares_protocol.specs.Runs.{start, LeadTo, IsReachable, NotBelow, IsComplete};
ghost use Rattle.cmb_shares_protocol.specs.Runs.{IsEnd, CanGoOn, IsKnown, AreAlike, most_events};
ghost use Rattle.cmb_shares_protocol.specs.Turns.{GoesBy, HasWindows, IsAt, IsOver, own, turn, turned, turns};

/// No event lowers a clock.
pub fn clocks_rise()
    ensures { (network : Network) (processes : Processes) (event : Event) → IsNetwork network
        → (number : ℕ) → NotBelow (processes number) (after network processes event number) }
{}

/// Nothing is sent that lies beyond the sender's lookahead, nothing is received that wasn't sent, no channel holds more
/// than it has room for, and no process made more than it received. So one that makes a window was sent, up to the
/// window's end, all that it reads.
pub fn told_is_known()
    ensures channels { (network : Network) (processes : Processes) (sender reader : ℕ) → IsNetwork network
        → IsReachable network processes → network.leads sender reader ≡ true
        → IsKnown network processes sender reader }
    ensures advance { (network : Network) (processes : Processes) (sender reader : ℕ) → IsNetwork network
        → IsReachable network processes → network.leads sender reader ≡ true
        → CanHappen network processes (Advance reader)
        → ahead network (processes reader).clock ≤ (processes sender).sent reader }
{}

/// There is no deadlock: unless all is done, it is the turn of some process, and whatever that may do first needn't
/// wait.
pub fn some_process_goes_on()
    ensures { (network : Network) (processes : Processes) → IsNetwork network → IsReachable network processes
        → IsComplete network processes
        ⊎ ((number : ℕ) × (number ≤ network.shares) × CanGoOn network processes number) }
{}

/// Each order of events ends.
pub fn runs_end()
    ensures { (network : Network) (processes : Processes) (events : List Event) → IsNetwork network
        → LeadTo network (start network) events processes → length events ≤ most_events network }
{}

/// All orders of events end alike: with all done.
pub fn ends_are_alike()
    ensures complete { (network : Network) (processes : Processes) → IsNetwork network
        → IsReachable network processes → IsEnd network processes → IsComplete network processes }
    ensures alike { (network : Network) (one other : Processes) → IsNetwork network → IsReachable network one
        → IsReachable network other → IsEnd network one → IsEnd network other → AreAlike network one other }
{}

/// What each process does by itself, each event due in its turn until nothing is, joins into one order of events: there
/// is a list of events that can happen one after the other, in which each process does just what it did.
pub fn histories_join()
    ensures { (network : Network) (histories : ℕ → List Event) (ends : Processes) → IsNetwork network
        → ((number : ℕ) → number ≤ network.shares → GoesBy network number (start network number) (histories number)
        (ends number) × IsOver network number (ends number))
        → (events : List Event) × (now : Processes) × LeadTo network (start network) events now
        × ((number : ℕ) → number ≤ network.shares → own number events ≡ histories number) }
{}

/// So do the turns of all processes, from the first window to the last: that is a run of the machine.
pub fn turns_join()
    ensures { (network : Network) (many : ℕ) → IsNetwork network → HasWindows network many
        → (events : List Event) × (now : Processes) × LeadTo network (start network) events now
        × ((number : ℕ) → number ≤ network.shares → own number events ≡ turns network number many) }
{}

/// The events of a turn are due, one after the other, if a process made, sent and received all below a tick. Then it
/// has done so below the end of its next window.
pub fn turns_are_due()
    ensures { (network : Network) (number tick : ℕ) (process : Process) → IsNetwork network
        → number ≤ network.shares → tick < network.horizon → IsAt network number tick process
        → GoesBy network number process (turn network number) (turned network number process)
        × IsAt network number (ahead network tick) (turned network number process) }
{}
