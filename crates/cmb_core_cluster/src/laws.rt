//! The laws of clusters: of their steps, sweeps and nets, and of trimming.

ghost use Rattle.std.specs.Prelude.{◌≡◌, ℕ, ◌<◌, List, is_some};
ghost use Rattle.std.specs.List.{AllByRecursion};
ghost use Rattle.cmb_wave.specs.declared.level.Promise.{Promise};
ghost use Rattle.cmb_wave.specs.Calls.{heard_wave};
ghost use Rattle.cmb_wave.specs.Wave.{Piece, Wave};
ghost use Rattle.cmb_netlist.specs.Netlist.{driver_of, IsNetlist};
ghost use Rattle.cmb_design_model.specs.Design.{Design};
ghost use Rattle.cmb_design_model.specs.Exact.{nets_of, IsExactIn, IsExactWaveIn};
ghost use Rattle.cmb_core_cluster.specs.Clustering.{Clustering, has_input};
ghost use Rattle.cmb_core_cluster.specs.Clusters.{Cluster, IsDrivenHere, IsSameButWaves, IsSound, input_slot};
ghost use Rattle.cmb_core_cluster.specs.Clusters.{delivered};
ghost use Rattle.cmb_core_cluster.specs.Clusters.{heard_at, step_answer, step_waves};
ghost use Rattle.cmb_core_cluster.specs.Exactness.{IsExactCluster};
ghost use Rattle.cmb_core_cluster.specs.Onward.{GoesOn};
ghost use Rattle.cmb_core_cluster.specs.Opened.{IsClusterOf, IsOwnNet, own_nets};
ghost use Rattle.cmb_core_cluster.specs.Reach.{IsKept};
ghost use Rattle.cmb_core_cluster.specs.Sweep.{stepped_waves};
ghost use Rattle.cmb_core_cluster.specs.Step.{wave_at, told_from, step_reach, step_piece, with_wave};
ghost use Rattle.cmb_core_cluster.specs.Trims.{trimmed, IsTrim, AreTrims, IsTrimOf, AreAlike, AreTraces};

/// A step of each net that a cluster drives lowers no clock, and leaves those of what it is given. Where all that the
/// cluster holds was known up to a tick below the horizon, what it drives is known a tick further afterwards, since no
/// delay is less than a tick.
pub fn sweeps_go_on()
    ensures { (design : Design) (clustering : Clustering) (cluster : ℕ) (s : Cluster) → IsNetlist design.netlist
        → IsClusterOf design clustering cluster s
        → GoesOn design clustering cluster s.waves (stepped_waves design s.waves (own_nets design clustering cluster)) }
{}

/// What a process makes of exact waves, which are kept as far back as it looks, is exact.
pub fn steps_are_exact()
    ensures { (design : Design) (waves : List Wave) (wave : Wave) → AllByRecursion (IsExactWaveIn design) waves
        → IsExactWaveIn design wave → IsKept design (told_from waves) wave.net wave.clock
        (driver_of design.netlist wave.net) → wave.clock < step_reach design waves wave.net
        → IsExactIn design (step_piece design waves wave) }
{}

/// A cluster of a design drives its own nets, and is given just those that these read from others. A
/// call that keeps all but the waves keeps it so.
pub fn clusters_hold_their_nets()
    ensures driven { (design : Design) (clustering : Clustering) (cluster : ℕ) (s : Cluster) (net : ℕ)
        → IsClusterOf design clustering cluster s → IsOwnNet design clustering cluster net → IsDrivenHere s net }
    ensures given { (design : Design) (clustering : Clustering) (cluster : ℕ) (s : Cluster) (net : ℕ)
        → IsClusterOf design clustering cluster s → net < nets_of design
        → is_some (input_slot s net) ≡ has_input design clustering cluster net }
    ensures stays { (design : Design) (clustering : Clustering) (cluster : ℕ) (old new : Cluster)
        → IsSameButWaves old new → IsClusterOf design clustering cluster old
        → IsClusterOf design clustering cluster new }
{}

/// A cluster that was trimmed, at whatever times, answers steps, pieces and promises as the same
/// cluster would that never was, and stays that one, less what its waves forgot. That a cluster is
/// sound is told by `Cluster::inputs`, and the waves of an exact one are traces.
pub fn trims_change_no_answer()
    ensures same { (s : Cluster) → IsTrimOf s s }
    ensures traces { (design : Design) (clustering : Clustering) (cluster : ℕ) (s : Cluster)
        → IsExactCluster design clustering cluster s → AreTraces s.waves }
    ensures trims { (s less : Cluster) → AreTraces s.waves → IsTrimOf s less → IsTrimOf s (trimmed less) }
    ensures steps { (design : Design) (clustering : Clustering) (cluster : ℕ) (s less : Cluster) (net : ℕ)
        → IsClusterOf design clustering cluster less → IsSound less → AreTraces s.waves → IsTrimOf s less
        → IsOwnNet design clustering cluster net
        → step_answer design less.waves (wave_at less.waves net) ≡ step_answer design s.waves (wave_at s.waves net) }
    ensures stepped { (design : Design) (clustering : Clustering) (cluster : ℕ) (s less : Cluster) (net : ℕ)
        → IsClusterOf design clustering cluster less → IsSound less → AreTraces s.waves → IsTrimOf s less
        → IsOwnNet design clustering cluster net
        → AreTrims (step_waves design s.waves (wave_at s.waves net))
        (step_waves design less.waves (wave_at less.waves net)) }
    ensures delivers { (s less : Cluster) (piece : Piece) → AreTraces s.waves → IsTrimOf s less
        → AreAlike (delivered s piece) (delivered less piece) }
    ensures hears { (s less : Cluster) (promise : Promise) → IsTrimOf s less
        → heard_at less promise (input_slot less promise.net) ≡ heard_at s promise (input_slot s promise.net) }
    ensures heard { (s less : Cluster) (promise : Promise) → IsTrimOf s less
        → IsTrim (heard_wave (wave_at s.waves promise.net) promise)
        (heard_wave (wave_at less.waves promise.net) promise) }
    ensures put { (waves lesses : List Wave) (wave less : Wave) → AreTrims waves lesses → IsTrim wave less
        → AreTrims (with_wave waves wave) (with_wave lesses less) }
{}
