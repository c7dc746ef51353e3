//! A value with the number of its edge.
ghost use Rattle.std.specs.Prelude.{◌≡◌, ◌==◌, ◌≤◌, map, vec_capacity, vec_len};
ghost use Rattle.dine_jobs.specs.EdgeValues.{BelongInOrder};

use dine_graph::EdgeId;

/// The value of an edge, and the number of this edge, which stays beside it for the whole run.
#[derive(Drop)]
pub struct EdgeValue<T: Drop> {
    edge: u32,
    /// The value.
    pub value: T,
}

impl<T: Drop> EdgeValue<T> {
    /// Returns the edge that the value belongs to.
    pub fn edge(&self) -> EdgeId
        ensures { result.0 ≡ self.now.edge }
    {
        EdgeId(self.edge)
    }

    // Returns whether the value belongs to the edge with this number.
    pub(crate) fn is_of(&self, edge: usize) -> bool
        ensures { result ≡ (self.now.edge == edge) }
    {
        self.edge as usize == edge
    }

    // Returns the value alone.
    pub(crate) fn alone(self) -> T
        ensures { result ≡ self.value }
    {
        let EdgeValue { value, .. } = self;
        value
    }

    // Moves the values into a list that has capacity for them, each with its edge: value e belongs to edge e.
    pub(crate) fn number(
        count: u32,
        values: Vec<T>,
        mut numbered: Vec<EdgeValue<T>>,
    ) -> Vec<EdgeValue<T>>
        requires count { count ≡ vec_len values }
        requires empty { vec_len numbered ≡ 0 }
        requires room { vec_len values ≤ vec_capacity numbered }
        ensures values { map (λ it. it.value) result.items ≡ values.items }
        ensures edges { BelongInOrder result.items }
    {
        let mut waiting = values.into_iter();
        for edge in 0..count {
            let value = waiting.next().unwrap();
            numbered.push_reserved(EdgeValue { edge, value });
        }
        numbered
    }

    // Moves the values into a list that has capacity for them, without the numbers of their edges.
    pub(crate) fn bare(numbered: Vec<EdgeValue<T>>, mut plain: Vec<T>) -> Vec<T>
        requires empty { vec_len plain ≡ 0 }
        requires room { vec_len numbered ≤ vec_capacity plain }
        ensures { result.items ≡ map (λ it. it.value) numbered.items }
    {
        for it in numbered {
            plain.push_reserved(it.alone());
        }
        plain
    }
}
