//! The name of a run: a type parameter, so that values of two runs can't mix.

use std::marker::Brand;

/// Names the design of a run and its clustering. `Brand` stands for any two that a call picks.
pub trait ClusterRun {
    ghost use Rattle.cmb_core_cluster.specs.Clustering.{Clustering};
    ghost use Rattle.cmb_design_model.specs.Design.{Design};

    ghost design: { Design };

    ghost clustering: { Clustering };
}

impl ClusterRun for Brand {
    ghost use Rattle.cmb_run_text.specs.Examples.{nothing};
    ghost use Rattle.cmb_run_exact.specs.Inner.Runs.{no_clustering};

    ghost design = { nothing };

    ghost clustering = { no_clustering };
}
