//! The laws of plans: one over the definitions alone, whose function does nothing, and those of the crates below.

ghost use Rattle.std.specs.Prelude.{◌≡◌, ◌↔◌, ℕ, List, None};
ghost use Rattle.dine_graph.specs.Plan.{SeenPlan};
ghost use Rattle.dine_reader.specs.PlanOf.{IsPlanOf};
ghost use Rattle.dine_reader.specs.RefusalTests.{first_fault};
ghost use Rattle.dine_builder.specs.Draft.{Draft};
ghost use Rattle.dine_builder.specs.DraftPlan.{HasTextJobs, first_fault_of, plan_of_draft, text_of};
ghost use Rattle.dine_draft.specs.Refusals.{first_of_draft};
ghost use Rattle.dine_plan.specs.DraftDocument.{Says};

pub use dine_reader::laws::{
    first_refusal_is_first, first_version_has_no_values, loops_and_pairs_are_of_known_ends,
};

/// What a builder returns is what `read_plan` returns for any text that says the same, if no site has more jobs than a
/// text may have: the same plan, or the same refusal. In any case the text is refused as what a text can say of the
/// draft is refused.
pub fn built_is_read()
    ensures texts { (text : List ℕ) (draft : Draft)
        → Says text draft → first_fault text ≡ first_of_draft (text_of draft) }
    ensures faults { (text : List ℕ) (draft : Draft)
        → Says text draft → HasTextJobs draft → first_fault text ≡ first_fault_of draft }
    ensures plans { (text : List ℕ) (draft : Draft) (p : SeenPlan)
        → Says text draft → HasTextJobs draft → first_fault_of draft ≡ None
        → IsPlanOf text p ↔ (p ≡ plan_of_draft draft) }
{}
