//! Heat in a square of 16 tiles, each on a thread of its own. Between two neighbouring tiles is a strip of cells, the
//! value of their edge. In a meal a tile lets heat flow between its own cells and those of its strips.
#![tactic(auto)]

ghost use Rattle.std.specs.Prelude.{◌<◌};

use anyhow::{Result, bail};
use dine_run::{Job, OpenFault, Place, Plan, PlanBuilder, PlanFault, SiteId, Table, run_jobs};
use std::alloc::{AllocError, Global};
use std::time::Instant;

const WIDE: u32 = 4;

const CELLS: usize = 16;

const MEALS: u32 = 200;

const HEAT: u32 = 1_000_000;

#[derive(Drop)]
struct Tile {
    cells: Vec<u32>,
}

// Lets heat flow from the hotter of two cells to the other until they differ by at most one.
fn level(a: u32, b: u32) -> (u32, u32) {
    if a > b {
        let flow = (a - b) / 2;
        (a - flow, b + flow)
    } else {
        let flow = (b - a) / 2;
        (a + flow, b - flow)
    }
}

// Levels two cells of a tile, if it has both.
fn level_cells(cells: &mut Vec<u32>, i: usize, j: usize) {
    if i < cells.len() && j < cells.len() {
        let (a, b) = level(cells[i], cells[j]);
        cells[i] = a;
        cells[j] = b;
    }
}

// Levels each two neighbouring cells of a tile.
fn spread(cells: &mut Vec<u32>) {
    for row in 0..CELLS {
        for column in 0..CELLS {
            let here = row * CELLS + column;
            if column + 1 < CELLS {
                level_cells(cells, here, here + 1);
            }
            if row + 1 < CELLS {
                level_cells(cells, here, here + CELLS);
            }
        }
    }
}

// Returns cell i of a tile on its side to a neighbour.
fn cell_at(tile: SiteId, neighbour: SiteId, i: usize) -> usize
    requires { i < 16 }
{
    if neighbour.0 < tile.0 {
        if tile.0 - neighbour.0 == 1 {
            i * CELLS
        } else {
            i
        }
    } else if neighbour.0 - tile.0 == 1 {
        i * CELLS + CELLS - 1
    } else {
        (CELLS - 1) * CELLS + i
    }
}

impl Job<Vec<u32>> for Tile {
    type Fault = OpenFault;

    fn run(&mut self, table: &Table<'_, Vec<u32>>) -> Result<(), OpenFault> {
        for place in 0..table.places() {
            let place = Place(place);
            let neighbour = table.neighbour(place).ok_or(OpenFault::NoEdge)?;
            let mut guard = table.open(place)?;
            let strip = &mut *guard;
            for i in 0..CELLS {
                let here = cell_at(table.site(), neighbour, i);
                if here < self.cells.len() && i < strip.len() {
                    let (a, b) = level(self.cells[here], strip[i]);
                    self.cells[here] = a;
                    strip[i] = b;
                }
            }
        }
        spread(&mut self.cells);
        Ok(())
    }
}

// Returns the plan of the tiles of the square, row by row.
fn square(alloc: Global) -> Result<Plan, PlanFault> {
    let mut plan = PlanBuilder::open(alloc);
    for n in 0..WIDE * WIDE {
        let name = format!(in alloc; "t{n}")?;
        plan.site(name.as_str(), MEALS)?;
    }
    for n in 0..WIDE * WIDE {
        if n % WIDE + 1 < WIDE {
            plan.edge(SiteId(n), SiteId(n + 1))?;
        }
        if n + WIDE < WIDE * WIDE {
            plan.edge(SiteId(n), SiteId(n + WIDE))?;
        }
    }
    plan.finish()
}

// Returns a strip for each edge, all of them cold.
fn strips_of(alloc: Global, plan: &Plan) -> Result<Vec<Vec<u32>>, AllocError> {
    let mut strips = Vec::new(alloc);
    for _ in 0..plan.edges() {
        strips.push(Vec::from_elem(alloc, 0u32, CELLS)?)?;
    }
    Ok(strips)
}

// Returns a tile for each site. Only the first is hot.
fn tiles_of(alloc: Global, plan: &Plan) -> Result<Vec<Tile>, AllocError> {
    let mut tiles = Vec::new(alloc);
    for n in 0..plan.sites() {
        let heat = if n == 0 { HEAT } else { 0 };
        let cells = Vec::from_elem(alloc, heat, CELLS * CELLS)?;
        tiles.push(Tile { cells })?;
    }
    Ok(tiles)
}

fn sum(cells: &[u32]) -> u64 {
    let mut total = 0u64;
    for cell in cells {
        total = total.saturating_add(*cell as u64);
    }
    total
}

fn main(rt: HostRuntime) -> Result<()> {
    let alloc = rt.alloc();
    let plan = square(alloc)?;
    let strips = strips_of(alloc, &plan)?;
    let tiles = tiles_of(alloc, &plan)?;
    let start = Instant::now(&rt)?;
    let done = run_jobs(&rt, alloc, &plan, strips, tiles)?;
    let took = start.elapsed(&rt)?;
    eprintln!(rt; "the run took {} microseconds", took.as_micros())?;
    let mut total = 0u64;
    for site in done.sites {
        if !site.failures.is_empty() {
            bail!("a tile could not open a strip");
        }
        total = total.saturating_add(sum(site.job.cells.as_slice()));
    }
    for strip in done.values {
        total = total.saturating_add(sum(strip.value.as_slice()));
    }
    println!(rt; "total {total}")?;
    if total != HEAT as u64 * (CELLS * CELLS) as u64 {
        bail!("heat was lost or made");
    }
    Ok(())
}
