//! The output of the command `check`.
ghost use Rattle.std.specs.Prelude.{◌≡◌, ◌++◌, IfOk, OnOk, string_bytes};
ghost use Rattle.dine_words.specs.Check.{check_text, job_total, sizes_line};

use dine_graph::Plan;
use std::alloc::{AllocError, Global};

/// Makes the line that says how large the plan is.
///
/// # Errors
///
/// Returns `AllocError` if an allocation fails.
pub fn check_text(alloc: Global, plan: &Plan) -> Result<String, AllocError>
    ensures { IfOk result (λ text. string_bytes text ≡ check_text plan.now) }
{
    let mut text = String::new(alloc);
    push_sizes(&mut text, plan.sites(), plan.edges(), job_total(plan))?;
    Ok(text)
}

// Adds the line with these numbers of sites, edges and jobs to the text.
fn push_sizes(text: &mut String, sites: u32, edges: u32, jobs: u64) -> Result<(), AllocError>
    ensures { OnOk result (string_bytes text.new ≡ string_bytes text.old ++ sizes_line sites edges jobs) }
{
    writeln!(text, "ok: {sites} sites, {edges} edges, {jobs} jobs")
}

// The number of jobs of all sites.
fn job_total(plan: &Plan) -> u64
    ensures { result ≡ job_total plan.now }
{
    let mut total = 0u64;
    for site in 0..plan.sites() {
        total += u64::from(plan.jobs(site));
    }
    total
}
