//! Clusterings of designs.

ghost use Rattle.std.specs.Prelude.{◌≡◌, IfOk, length};
ghost use Rattle.cmb_design_model.specs.Exact.{nets_of};

use cmb_core_cluster::Clustering;
use cmb_design_model::Design;
use std::alloc::Global;
use std::test::Fail;

/// The nets of a design, spread over so many clusters.
pub fn spread(alloc: Global, design: &Design, clusters: u32) -> Result<Clustering, Fail>
    ensures { IfOk result (λ clustering. length clustering.assign ≡ nets_of design.now) }
{
    let nets = design.netlist().len();
    let clustering = Clustering::spread(alloc, nets as u32, clusters)?;
    if clustering.nets() != nets {
        return Err(Fail::new("a clustering of other nets"));
    }
    Ok(clustering)
}
