//! The table of a meal: what a job sees and opens while it runs.
ghost use Rattle.std.specs.Prelude.{◌≡◌, ◌==◌, ◌<◌, ◌≤◌, ◌↔◌, IfOk, IfSome, IsErrOf, IsNone, OnOk, Some, false, length};
ghost use Rattle.std.specs.Prelude.{slice_get, vec_len};
ghost use Rattle.dine_token.specs.Fork.{SeenFork, other_end};
ghost use Rattle.dine_jobs.specs.EdgeValues.{edge_open};
ghost use Rattle.dine_jobs.specs.JobFaults.{open_fault_words};
ghost use Rattle.dine_jobs.specs.Places.{HasEdge, HasNeighbour};

use crate::open_value::OpenValue;
use crate::places::Place;
use crate::values::Values;
use dine_graph::{EdgeId, SiteId};
use dine_site_thread::JobFault;
use dine_token::Meal;
use std::error::Error;
use std::fmt;
use std::marker::Model;

/// Why a value was not opened.
#[derive(Clone, Copy, Debug, PartialEq, Eq)]
pub enum OpenFault {
    /// The site has no such place, edge or neighbour.
    NoEdge,
    /// The value is open already. In all tests the job itself had opened it.
    Open,
}

/// `the site has no such edge` or `the value is open already`.
impl fmt::Display for OpenFault {
    ghost output = { λ fault. Some (open_fault_words fault) };

    fn fmt<W: fmt::Write>(&self, f: &mut fmt::Formatter<W>) -> fmt::Result {
        match self {
            OpenFault::NoEdge => f.write_str("the site has no such edge"),
            OpenFault::Open => f.write_str("the value is open already"),
        }
    }
}

impl Error for OpenFault {}

/// With this, `?` ends a job that could not open a value. The job failed.
impl From<OpenFault> for JobFault {
    fn from(_fault: OpenFault) -> JobFault {
        JobFault
    }
}

/// A meal of a site, and the values of the edges whose forks it eats with.
///
/// The edges of the site have places, from 0, in the order of their numbers. A value is opened by its place, by its
/// edge, or by the neighbour with whom the site shares it.
#[derive(Drop)]
pub struct Table<'a, T: Drop> {
    meal: &'a Meal,
    values: &'a Values<T>,
    ghost within: { (i : _) (fork : SeenFork)
        → slice_get meal.now.forks i ≡ Some fork → fork.edge < vec_len values.now.cells },
}

impl<'a, T: Drop> Model for Table<'a, T> {
    ghost use Rattle.dine_token.specs.Meal.{SeenMeal};

    ghost Value = { SeenMeal };

    ghost view = { λ table. table.meal.now };
}

impl<'a, T: Drop> Table<'a, T> {
    // Returns the table of a meal. There is a value for each edge of the meal.
    pub(crate) fn new(meal: &'a Meal, values: &'a Values<T>) -> Table<'a, T>
        requires { (i : _) (fork : SeenFork)
            → slice_get meal.now.forks i ≡ Some fork → fork.edge < vec_len values.now.cells }
        ensures { result ≡ meal.now }
    {
        Table { meal, values }
    }

    /// Returns the site that eats.
    pub fn site(&self) -> SiteId
        ensures { result.0 ≡ self.now.site }
    {
        SiteId(self.meal.site())
    }

    /// Returns the number of the meal, from 1, which is the number of the job.
    pub fn k(&self) -> u32
        ensures { result ≡ self.now.k }
    {
        self.meal.k()
    }

    /// Returns how many edges the site has.
    pub fn places(&self) -> u32
        ensures { result ≡ length self.now.forks }
    {
        self.meal.len()
    }

    /// Returns the edge at a place. It is None exactly if the site has no such place.
    pub fn edge(&self, place: Place) -> Option<EdgeId>
        ensures edge { IfSome result (λ edge. (fork : SeenFork)
            × (slice_get self.now.forks place.0 ≡ Some fork) × (fork.edge ≡ edge.0)) }
        ensures none { length self.now.forks ≤ place.0 ↔ IsNone result }
    {
        if place.0 >= self.meal.len() {
            return None;
        }
        Some(EdgeId(self.meal.fork(place.0).edge()))
    }

    /// Returns the site at the other end of the edge at a place. It is None exactly if the site has no such place.
    pub fn neighbour(&self, place: Place) -> Option<SiteId>
        ensures site { IfSome result (λ site. (fork : SeenFork)
            × (slice_get self.now.forks place.0 ≡ Some fork) × (site.0 ≡ other_end fork self.now.site)) }
        ensures none { length self.now.forks ≤ place.0 ↔ IsNone result }
    {
        if place.0 >= self.meal.len() {
            return None;
        }
        let (lower, higher) = self.meal.fork(place.0).ends();
        Some(SiteId(if lower == self.meal.site() {
            higher
        } else {
            lower
        }))
    }

    /// Returns whether the site is the lower end of the edge at a place: whether its number is less than that of the
    /// neighbour there. It is false if the site has no such place.
    pub fn is_lower(&self, place: Place) -> bool
        ensures end { (fork : SeenFork) → slice_get self.now.forks place.0 ≡ Some fork
            → result ≡ (self.now.site == fork.ends.0) }
        ensures none { length self.now.forks ≤ place.0 → result ≡ false }
    {
        if place.0 >= self.meal.len() {
            return false;
        }
        let (lower, _) = self.meal.fork(place.0).ends();
        self.meal.site() == lower
    }

    /// Opens the value of the edge at a place, until what is returned is dropped, and at most for this meal. It never
    /// waits.
    ///
    /// # Errors
    ///
    /// `NoEdge` if the site has no such place. `Open` if the value is open already.
    pub fn open(&self, place: Place) -> Result<OpenValue<'_, T>, OpenFault>
        ensures edge { IfOk result (λ lent. (fork : SeenFork)
            × (slice_get self.now.forks place.0 ≡ Some fork) × (edge_open lent ≡ fork.edge)) }
        ensures outside { length self.now.forks ≤ place.0 ↔ IsErrOf result OpenFault.NoEdge }
    {
        let Some(edge) = self.edge(place) else {
            return Err(OpenFault::NoEdge);
        };
        self.values.open(edge.0)
    }

    /// Opens the value of an edge, as [`Table::open`] does.
    ///
    /// # Errors
    ///
    /// `NoEdge` if it is no edge of the site. `Open` if the value is open already.
    pub fn open_edge(&self, edge: EdgeId) -> Result<OpenValue<'_, T>, OpenFault>
        ensures edge { IfOk result (λ lent. edge_open lent ≡ edge.0) }
        ensures forked { OnOk result (HasEdge self.now.forks edge.0) }
        ensures none { IsErrOf result OpenFault.NoEdge ↔ (HasEdge self.now.forks edge.0 → ⊥) }
    {
        for place in 0..self.meal.len() {
            if self.meal.fork(place).edge() == edge.0 {
                return self.open(Place(place));
            }
        }
        Err(OpenFault::NoEdge)
    }

    /// Opens the value that the site shares with a neighbour, as [`Table::open`] does.
    ///
    /// # Errors
    ///
    /// `NoEdge` if the site has no edge to that one. `Open` if the value is open already.
    pub fn open_with(&self, neighbour: SiteId) -> Result<OpenValue<'_, T>, OpenFault>
        ensures edge { IfOk result (λ lent. (place : _) × (fork : SeenFork)
            × (slice_get self.now.forks place ≡ Some fork) × (neighbour.0 ≡ other_end fork self.now.site)
            × (edge_open lent ≡ fork.edge)) }
        ensures none { IsErrOf result OpenFault.NoEdge ↔ (HasNeighbour self.now.forks self.now.site neighbour.0 → ⊥) }
    {
        for place in 0..self.meal.len() {
            if self.neighbour(Place(place)) == Some(neighbour) {
                return self.open(Place(place));
            }
        }
        Err(OpenFault::NoEdge)
    }
}
