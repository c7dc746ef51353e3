//! Laws over the definitions alone. Each function does nothing: its contract is the law.

ghost use Rattle.std.specs.Prelude.{◌≡◌, ℕ, List, None, Some};
ghost use Rattle.toml.specs.Data.{Data};
ghost use Rattle.dine_graph.specs.Plan.{SeenPlan};
ghost use Rattle.dine_reader.specs.PlanOf.{IsPlain, IsPlanOf};
ghost use Rattle.dine_reader.specs.RefusalTests.{first_fault, first_refusal};
ghost use Rattle.dine_reader.specs.RefusalFacts.{Refuses, IsFirst};
ghost use Rattle.dine_draft.specs.declared.plan_fault.PlanFault.{PlanFault};
ghost use Rattle.dine_draft.specs.declared.plan_fault.PlanFault.TheVariants.{UnknownEnd, Loop, EdgeTwice};

/// The first refusal of a document is the first cause of the list that holds of it, at the least position at which it
/// holds. If there is no first refusal, no cause holds.
pub fn first_refusal_is_first()
    ensures first { (doc : Data) (fault : PlanFault) → first_refusal doc ≡ Some fault → IsFirst doc fault }
    ensures none { (doc : Data) (fault : PlanFault) → first_refusal doc ≡ None → Refuses doc fault → ⊥ }
{}

/// An edge with an end that is no site's name is no loop, and does not join two sites that an earlier edge joins.
pub fn loops_and_pairs_are_of_known_ends()
    ensures loops { (doc : Data) (edge : ℕ) → Refuses doc (UnknownEnd edge) → Refuses doc (Loop edge) → ⊥ }
    ensures pairs { (doc : Data) (edge : ℕ) → Refuses doc (UnknownEnd edge) → Refuses doc (EdgeTwice edge) → ⊥ }
{}

/// A plan of version 1 has no values: each edge has the value 0, each meal adds 0 to it, and no site resigns.
pub fn first_version_has_no_values()
    ensures plain { (text : List ℕ) (p : SeenPlan)
        → first_fault text ≡ None → IsPlanOf text p → p.version ≡ 1 → IsPlain p }
{}
