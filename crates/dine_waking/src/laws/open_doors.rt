// Laws on sites that are on call: their jobs come from outside while a run goes on.

ghost use Rattle.std.specs.Prelude.{◌≡◌, ◌<◌, ℕ, Bool, List, true};
ghost use Rattle.dine_graph.specs.Plan.{IsPlan, SeenPlan, site_count};
ghost use Rattle.dine_rules.specs.Local.{is_thinking};
ghost use Rattle.dine_rules.specs.World.{IsComplete, Reaches, WorldState, state_of};
ghost use Rattle.dine_rules.specs.declared.events.Event.{Event};
ghost use Rattle.dine_jobs.specs.Queues.{IsAnswered, IsClosed, IsEnded, IsPut, IsTaken, SeenQueue};
ghost use Rattle.dine_waking.specs.Doors.{AllRestAtDoors, Busy, Door, DoorStep, IsReachedDoor, Sleeps, is_called};
ghost use Rattle.dine_waking.specs.Doors.{is_ended};
ghost use Rattle.dine_waking.specs.Queues.{IsDoorOf, with_answer, with_queue, with_ring};
ghost use Rattle.dine_waking.specs.Resting.{AllRestWell};

/// Nobody waits for a site that thinks. Take a world that events reach from the start. If each of its sites has
/// finished, or rests, although it may have jobs left, then all sites think. So none is hungry, and none eats: each
/// site that was called to a job has done it.
pub fn worlds_at_rest_have_served()
    ensures thinks { (plan : SeenPlan) (events : List Event) (world : WorldState) (s : ℕ) → IsPlan plan
        → Reaches plan events world → AllRestWell plan world → s < site_count plan
        → is_thinking (state_of world s).phase ≡ true }
{}

/// A site that is called, to a task or to its end, does not sleep, unless somebody outside has yet to ring for it.
pub fn called_sites_are_rung_for()
    ensures rung { (door : Door) → IsReachedDoor door → door.thinker ≡ Sleeps → is_called door ≡ true
        → 0 < door.owed }
{}

/// If all doors are closed at last, or the epoch is over at all of them, nobody sleeps for ever. Take a world that
/// events reach from the start, in which each site has finished or rests at its door. If each site is called to its end
/// there, and nobody outside has yet to ring, the world is complete.
pub fn closed_doors_end_the_run()
    ensures complete { (plan : SeenPlan) (events : List Event) (world : WorldState) (doors : ℕ → Door) → IsPlan plan
        → Reaches plan events world → AllRestAtDoors plan world doors
        → ((s : ℕ) → s < site_count plan → IsReachedDoor (doors s))
        → ((s : ℕ) → s < site_count plan → is_ended (doors s) ≡ true)
        → ((s : ℕ) → s < site_count plan → (doors s).owed ≡ 0) → IsComplete plan world }
{}

/// The queue of a site does what its door does. The clause `door` of a function of `Queue` in `dine_jobs` says what it
/// does to the queue, and that is a step of the door: `put` is `Submits`, `close` is `Closes`, `end_epoch` is `Ends`,
/// `calls` is `Asks`, and `next` is `Begins`. Who put, closed or ended owes a ring exactly if the function returns so.
pub fn queues_step_as_doors_do()
    ensures put { (door : Door) (old new : SeenQueue) (rings : Bool) → IsDoorOf old door → IsPut old new rings
        → DoorStep door (with_ring rings (with_queue door new)) }
    ensures close { (door : Door) (old new : SeenQueue) (rings : Bool) → IsDoorOf old door → IsClosed old new rings
        → DoorStep door (with_ring rings (with_queue door new)) }
    ensures end_epoch { (door : Door) (old new : SeenQueue) (rings : Bool) → IsDoorOf old door → IsEnded old new rings
        → DoorStep door (with_ring rings (with_queue door new)) }
    ensures calls { (door : Door) (old new : SeenQueue) (called : Bool) → IsDoorOf old door → door.thinker ≡ Busy
        → IsAnswered old new called → DoorStep door (with_answer called (with_queue door new)) }
    ensures next { (door : Door) (old new : SeenQueue) → IsDoorOf old door → door.thinker ≡ Busy → IsTaken old new
        → DoorStep door (with_queue door new) }
{}
