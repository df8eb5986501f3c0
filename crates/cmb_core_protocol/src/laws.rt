//! The laws of the machine of clocks, over every list of events.

ghost use Rattle.std.specs.Prelude.{◌≡◌, ◌≢◌, ℕ, min, List};
ghost use Rattle.std.specs.List.{AllByRecursion};
ghost use Rattle.cmb_netlist.specs.Netlist.{IsNetlist};
ghost use Rattle.cmb_design_model.specs.Design.{Design};
ghost use Rattle.cmb_design_model.specs.Exact.{nets_of, IsExactIn, IsRightIn};
ghost use Rattle.cmb_core_protocol.specs.declared.event.Event.{Event};
ghost use Rattle.cmb_core_protocol.specs.declared.event.Event.TheVariants.{Step};
ghost use Rattle.cmb_core_cluster.specs.Clustering.{Clustering, IsClustering, cluster_of};
ghost use Rattle.cmb_core_protocol.specs.Clocks.{Clocks, start, play, piece_of, promise_of};
ghost use Rattle.cmb_core_protocol.specs.Run.{IsReachable, IsWithin, NotBelow, IsQuiet, IsComplete};
ghost use Rattle.cmb_core_protocol.specs.Run.{AtLeast, rounds};

/// No clock is ever above the horizon, and no event lowers one.
pub fn clocks_rise()
    ensures within { (design : Design) (clustering : Clustering) (clocks : Clocks)
        → IsReachable design clustering clocks → IsWithin design clocks }
    ensures rises { (design : Design) (clustering : Clustering) (clocks : Clocks) (event : Event)
        → IsReachable design clustering clocks → NotBelow clocks (play design clustering clocks event).clocks }
{}

/// There is no deadlock: a state in which nothing can go on is one in which all is done.
pub fn quiet_is_complete()
    ensures { (design : Design) (clustering : Clustering) (clocks : Clocks) → IsNetlist design.netlist
        → IsClustering (nets_of design) clustering → IsReachable design clustering clocks
        → IsQuiet design clustering clocks → IsComplete design clocks }
{}

/// After k rounds every clock is at least k, or at the horizon.
pub fn rounds_go_on()
    ensures { (design : Design) (clustering : Clustering) (clocks : Clocks) (many : ℕ) → IsNetlist design.netlist
        → IsClustering (nets_of design) clustering → IsReachable design clustering clocks
        → AtLeast design clustering (min design.horizon many) (rounds design clustering many clocks) }
{}

/// Whatever was sent is exact, and whatever was promised is right.
pub fn sent_is_exact()
    ensures posts { (design : Design) (clustering : Clustering) (clocks : Clocks) → IsReachable design clustering clocks
        → AllByRecursion (λ span. IsExactIn design (piece_of design span)) clocks.posts }
    ensures promises { (design : Design) (clustering : Clustering) (clocks : Clocks)
        → IsReachable design clustering clocks
        → AllByRecursion (λ bound. IsRightIn design (promise_of design bound)) clocks.promises }
{}

/// Steps of nets of different clusters leave the same clocks in either order.
pub fn steps_commute()
    ensures { (design : Design) (clustering : Clustering) (clocks : Clocks) (net other : ℕ)
        → cluster_of clustering net ≢ cluster_of clustering other
        → (play design clustering (play design clustering clocks (Step net)).clocks (Step other)).clocks
        ≡ (play design clustering (play design clustering clocks (Step other)).clocks (Step net)).clocks }
{}
