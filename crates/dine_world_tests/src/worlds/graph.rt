//! A plan by its numbers alone.

/// How many jobs each site has, and the two ends of each edge, either first; which jobs of each site fail, bit 0 for
/// the first; and which sites resign.
#[derive(Clone, Copy)]
pub(super) struct Graph<'a> {
    pub(super) jobs: &'a [u32],
    pub(super) edges: &'a [(u32, u32)],
    pub(super) failing: &'a [u32],
    pub(super) resigning: &'a [bool],
}

/// The plan of a site for each number of jobs, none of which fails, and of these edges.
pub(super) fn graph_of<'a>(jobs: &'a [u32], edges: &'a [(u32, u32)]) -> Graph<'a> {
    Graph {
        jobs,
        edges,
        failing: &[],
        resigning: &[],
    }
}

impl Graph<'_> {
    pub(super) fn sites(&self) -> u32 {
        u32::try_from(self.jobs.len()).unwrap_or(u32::MAX)
    }

    /// How many meals are due to the site.
    pub(super) fn due_of(&self, site: u32) -> u32 {
        self.jobs.get(site as usize).copied().unwrap_or(0)
    }

    /// Whether job `k` of the site fails, from 1.
    pub(super) fn fails(&self, site: u32, k: u32) -> bool {
        let failing = self.failing.get(site as usize).copied().unwrap_or(0);
        1 <= k && k <= 32 && (failing >> (k - 1)) % 2 == 1
    }

    /// Whether the site drops the jobs that it has left once one failed.
    pub(super) fn resigns(&self, site: u32) -> bool {
        self.resigning.get(site as usize).copied().unwrap_or(false)
    }
}
