//! Local causality: what shares look at, they know. So what they make and tell is exact.

ghost use Rattle.std.specs.Prelude.{◌≡◌, ℕ, ◌<◌, ◌≤◌, true, List, Bool};
ghost use Rattle.cmb_design_model.specs.Design.{Design};
ghost use Rattle.cmb_design_model.specs.Value.{value};
ghost use Rattle.cmb_engine.specs.Crossings.{AreWithinLookahead, IsCrossing};
ghost use Rattle.cmb_engine.specs.Rows.{LooksAt};
ghost use Rattle.cmb_engine.specs.Shares.{IsDriven};
ghost use Rattle.cmb_engine.specs.Windows.{Windows, end_of};
ghost use Rattle.cmb_shares_protocol.specs.Machine.{Advance, CanHappen, Processes};
ghost use Rattle.cmb_shares_protocol.specs.Network.{IsNetwork, Network, ahead};
ghost use Rattle.cmb_shares_protocol.specs.Runs.{IsReachable};
ghost use Rattle.cmb_netlist.specs.Netlist.{driver_of};
ghost use Rattle.cmb_shares.specs.Traces.{AreMade, Serves, Sharing};
ghost use Rattle.cmb_wave.specs.declared.level.Level.{Level};

/// Where a crossing flip-flop's changes in a window are sent ahead, its levels there depend on earlier ticks alone. And
/// where a share may make a window, the levels of all nets there depend on ticks below those up to which it took what
/// other shares sent to it.
pub fn windows_look_back()
    ensures told { (design : Design) (crossing : List Bool) (windows : Windows) (net clock tick other past : ℕ)
        → AreWithinLookahead design crossing windows → IsCrossing design crossing net
        → clock < windows.horizon → clock ≤ tick → tick < end_of windows clock
        → LooksAt design net tick (driver_of design.netlist net) other past → past < clock }
    ensures made { (network : Network) (processes : Processes) (sender reader : ℕ)
        → network.leads sender reader ≡ true → CanHappen network processes (Advance reader)
        → (design : Design) (net tick other past : ℕ) → tick < ahead network (processes reader).clock
        → LooksAt design net tick (driver_of design.netlist net) other past
        → past < (processes reader).received sender }
{}

/// What shares make and tell is exact, in each state of the machine of shares to which events lead, in any order: where
/// their levels are right by themselves, they are those of the design.
pub fn shares_are_exact()
    ensures made { (network : Network) (sharing : Sharing) (processes : Processes) (level : ℕ → ℕ → ℕ → Level)
        → IsNetwork network → Serves network sharing → IsReachable network processes
        → AreMade network sharing processes level → (share net tick : ℕ) → share < network.shares
        → IsDriven (sharing.driven share) net → tick < (processes share).clock
        → level share net tick ≡ value sharing.design net tick }
    ensures told { (network : Network) (sharing : Sharing) (processes : Processes) (level : ℕ → ℕ → ℕ → Level)
        → IsNetwork network → Serves network sharing → IsReachable network processes
        → AreMade network sharing processes level → (share net tick : ℕ) → share < network.shares
        → IsDriven (sharing.driven share) net → IsCrossing sharing.design sharing.crossing net
        → tick < ahead network (processes share).clock → level share net tick ≡ value sharing.design net tick }
{}
