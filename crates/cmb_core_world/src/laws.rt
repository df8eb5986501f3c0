//! The law of worlds, over every list of events.

ghost use Rattle.std.specs.Prelude.{◌≡◌, List};
ghost use Rattle.cmb_netlist.specs.Netlist.{IsNetlist};
ghost use Rattle.cmb_design_model.specs.Design.{Design};
ghost use Rattle.cmb_design_model.specs.Exact.{nets_of};
ghost use Rattle.cmb_core_cluster.specs.Clustering.{Clustering, IsClustering};
ghost use Rattle.cmb_core_protocol.specs.declared.event.Event.{Event};
ghost use Rattle.cmb_core_protocol.specs.Clocks.{start};
ghost use Rattle.cmb_core_protocol.specs.Run.{clocks_after, replies_to};
ghost use Rattle.cmb_core_world.specs.World.{new_world, world_after, world_replies, Shows};

/// Whatever events come in whatever order, the world of newly opened clusters replies as the sequential waveforms do,
/// its clocks, posts and promises are theirs, and every wave is exact up to its clock.
pub fn any_order_is_sequential()
    ensures { (design : Design) (clustering : Clustering) (events : List Event) → IsNetlist design.netlist
        → IsClustering (nets_of design) clustering
        → Shows design clustering (world_after design clustering (new_world design clustering) events)
        (clocks_after design clustering (start design clustering) events)
        × (world_replies design clustering (new_world design clustering) events
        ≡ replies_to design clustering (start design clustering) events) }
{}
