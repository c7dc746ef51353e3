// Things that are removed by site and place, from one row for each site.
ghost use Rattle.std.specs.Prelude.{◌≡◌, ◌≢◌, ◌≤◌, Some, map, vec_capacity, vec_len};
ghost use Rattle.dine_graph.specs.Plan.{edge_count};
ghost use Rattle.dine_threads.specs.private.Spots.{ArePairsAt, AreFull, slot_at};

use dine_graph::Plan;
use dine_rules::laws;

// The things at the two ends of an edge.
#[derive(Drop)]
pub struct EdgePair<P> {
    pub low: P,
    pub high: P,
}

// A place of a site.
#[derive(Clone, Copy)]
pub struct Spot {
    pub site: u32,
    pub at: u32,
}

// Removes the thing at the place and returns it, if there is one.
pub fn remove_at<P: Drop>(rows: &mut Vec<Vec<Option<P>>>, spot: Spot) -> Option<P>
    ensures value { result ≡ slot_at rows.old.items spot }
    ensures others { (other : _) → other ≢ spot → slot_at rows.new.items other ≡ slot_at rows.old.items other }
{
    let site = spot.site as usize;
    let at = spot.at as usize;
    if site >= rows.len() {
        return None;
    }
    let row = &mut rows[site];
    if at >= row.len() {
        return None;
    }
    row[at].take()
}

// Moves the things into the row, each into a slot of its own.
pub fn fill_row<P: Drop>(things: Vec<P>, row: &mut Vec<Option<P>>)
    requires room { vec_len things ≤ vec_capacity row.old }
    requires none { vec_len row.old ≡ 0 }
    ensures { row.new.items ≡ map Some things.items }
{
    for thing in things {
        row.push_reserved(Some(thing));
    }
}

// Takes the things at the two ends of each edge, and adds them to the pairs, by edge.
pub fn pair_up<P: Drop>(plan: &Plan, rows: &mut Vec<Vec<Option<P>>>, pairs: &mut Vec<EdgePair<P>>)
    requires full { AreFull plan.now rows.old.items }
    requires room { edge_count plan.now ≤ vec_capacity pairs.old }
    requires none { vec_len pairs.old ≡ 0 }
    ensures count { vec_len pairs.new ≡ edge_count plan.now }
    ensures each { ArePairsAt plan.now rows.old.items pairs.new.items }
{
    laws::edges_have_a_place_at_each_end();
    for edge in 0..plan.edges() {
        let (lower, higher) = plan.ends(edge);
        let low = remove_at(
            rows,
            Spot {
                site: lower,
                at: plan.place(edge, lower),
            },
        )
        .unwrap();
        let high = remove_at(
            rows,
            Spot {
                site: higher,
                at: plan.place(edge, higher),
            },
        )
        .unwrap();
        pairs.push_reserved(EdgePair { low, high });
    }
}
