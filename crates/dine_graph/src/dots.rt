//! A plan as a graph in the language of Graphviz.
ghost use Rattle.std.specs.Prelude.{◌≡◌, ◌++◌, IfOk, Some, codes, string_bytes};
ghost use Rattle.std.specs.Fmt.{WritesOnOk};
ghost use Rattle.dine_graph.specs.Dot.{dot_edges, dot_sites, dot_text};

use crate::plans::Plan;
use std::alloc::{AllocError, Global};
use std::fmt;

/// Writes the plan as a graph in the language of Graphviz: a line for each site, in order, and then a line for each
/// edge, in order, with the names of its ends.
impl fmt::Display for Plan {
    ghost output = { λ plan. Some (dot_text plan) };

    fn fmt<W: fmt::Write>(&self, f: &mut fmt::Formatter<W>) -> fmt::Result {
        f.write_str("graph {\n")?;
        write_sites(f, self)?;
        write_edges(f, self)?;
        f.write_str("}\n")
    }
}

impl Plan {
    /// Returns the text that `Display` writes: the plan as a graph in the language of Graphviz.
    ///
    /// # Errors
    ///
    /// Returns `AllocError` if an allocation fails.
    pub fn to_dot(&self, alloc: Global) -> Result<String, AllocError>
        ensures { IfOk result (λ text. string_bytes text ≡ dot_text self.now) }
    {
        self.to_string(alloc)
    }
}

// Writes the lines of the sites.
fn write_sites<W: fmt::Write>(f: &mut fmt::Formatter<W>, plan: &Plan) -> fmt::Result
    ensures { WritesOnOk W.write_str_gives f.old result (dot_sites plan.now) f.new }
{
    for site in 0..plan.sites() {
        write_site(f, plan.name(site))?;
    }
    Ok(())
}

// Writes the line of a site with this name.
fn write_site<W: fmt::Write>(f: &mut fmt::Formatter<W>, name: &str) -> fmt::Result
    ensures { WritesOnOk W.write_str_gives f.old result (codes "  \"" ++ name.now ++ codes "\";\n") f.new }
{
    write!(f, "  \"{name}\";\n")
}

// Writes the lines of the edges.
fn write_edges<W: fmt::Write>(f: &mut fmt::Formatter<W>, plan: &Plan) -> fmt::Result
    ensures { WritesOnOk W.write_str_gives f.old result (dot_edges plan.now) f.new }
{
    for edge in 0..plan.edges() {
        let (lower, higher) = plan.ends(edge);
        write_edge(f, plan.name(lower), plan.name(higher))?;
    }
    Ok(())
}

// Writes the line of an edge between sites with these names.
fn write_edge<W: fmt::Write>(f: &mut fmt::Formatter<W>, lower: &str, higher: &str) -> fmt::Result
    ensures { WritesOnOk W.write_str_gives f.old result
        (codes "  \"" ++ lower.now ++ codes "\" -- \"" ++ higher.now ++ codes "\";\n") f.new }
{
    write!(f, "  \"{lower}\" -- \"{higher}\";\n")
}
