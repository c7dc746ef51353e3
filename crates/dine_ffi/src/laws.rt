//! Laws over the definitions alone. Each function does nothing: its contract is the law.
ghost use Rattle.std.specs.Prelude.{Bool, List, ℕ, ℤ};
ghost use Rattle.dine_graph.specs.Plan.{SeenPlan};
ghost use Rattle.dine_rules.specs.declared.letters.Letter.{Letter};
ghost use Rattle.dine_rules.specs.Local.{LocalState, start_of};
ghost use Rattle.dine_rules.specs.Steps as step;
ghost use Rattle.dine_rules.specs.Steps.{Step};
ghost use Rattle.dine_ffi.specs.Acts.{put_step};
ghost use Rattle.dine_ffi.specs.Calls.{AreStepsOf, Call, CallsLead, StepsLead};
ghost use Rattle.dine_ffi.specs.OwnSites.{IsOpened, OwnSteps, SeenOwnSite, SiteBegins, SiteEnds, SitePuts, SiteSteps};
ghost use Rattle.dine_ffi.specs.OwnSites.{SiteTakes, StandsFor};
ghost use Rattle.dine_ffi.specs.declared.acts.PutKind.{PutKind};

/// Each call of a site that does something is a step of the rules. A site that was opened represents the state at the
/// start. If a site represents a state, and a call does what its contract says, the state allowed the step, and the
/// site represents the state after it: with its letters, its meal, and the forks that it keeps.
pub fn calls_are_steps()
    ensures opened { (plan : SeenPlan) (run number : ℕ) (own : SeenOwnSite) → IsOpened plan run number own
        → StandsFor (start_of plan number) own }
    ensures hungry { (old new : SeenOwnSite) → SiteSteps step.Hungry old new → OwnSteps step.Hungry old new }
    ensures quit { (old new : SeenOwnSite) → SiteSteps step.Quit old new → OwnSteps step.Quit old new }
    ensures begin { (old new : SeenOwnSite) → SiteBegins old new → OwnSteps step.Begin old new }
    ensures end { (failed : Bool) (old new : SeenOwnSite) → SiteEnds failed old new
        → OwnSteps (step.End failed) old new }
    ensures puts { (kind : PutKind) (i : ℕ) (letter : Letter) (old new : SeenOwnSite)
        → SitePuts i (put_step kind i) old new letter → OwnSteps (put_step kind i) old new }
    ensures takes { (bytes : List ℕ) (i : ℕ) (letter : Letter) (old new : SeenOwnSite)
        → SiteTakes bytes i letter old new → OwnSteps (step.Take i letter) old new }
{}

/// Any list of calls does what the rules allow. Suppose that calls, one after the other, lead from a site that was
/// opened to another, each as its contract says. Then the site represents a state to which the rules lead from the
/// start, by the steps of the calls that did not refuse, in order.
pub fn lists_of_calls_are_steps()
    ensures { (plan : SeenPlan) (run number : ℕ) (opened own : SeenOwnSite) (calls : List (Call × ℤ))
        → IsOpened plan run number opened → CallsLead calls opened own
        → (steps : List Step) × (state : LocalState) × AreStepsOf plan run number calls steps
        × StepsLead plan number steps (start_of plan number) state × StandsFor state own }
{}
