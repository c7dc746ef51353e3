//! What a run was given, for its contracts.
ghost use Rattle.std.specs.Prelude.{List, []};
ghost use Rattle.dine_graph.specs.Plan.{SeenPlan};

use std::marker::Brand;

/// The plan and the jobs that a run was given. Only contracts see them; the call that begins the run picks them.
pub trait Given<J> {
    // The jobs as they were before the run, by site.
    ghost given: { List J };

    // The plan.
    ghost plan: { SeenPlan };
}

impl<J> Given<J> for Brand {
    ghost given = { [] };

    ghost plan = { record {
      version = 0;
      sites = [];
      edges = [];
      values = [];
    } };
}
