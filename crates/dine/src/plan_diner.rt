//! The diner that does the jobs of a site of a plan.
ghost use Rattle.std.specs.Prelude.{◌≡◌, ◌<◌, [], IfOk};
ghost use Rattle.dine_graph.specs.Plan.{site_count, job_count};
ghost use Rattle.dine.specs.PlanDiners.{IsDinerOf, fails_of, first_word, fits_marks, mark_of};

use dine_graph::Plan;
use dine_site_thread::{Call, CallLog, Diner, JobFault};
use dine_token::Meal;
use std::alloc::{AllocError, Global};
use std::marker::Model;

// The word before the first turn. A turn never makes 0 of any other word.
const FIRST_WORD: u32 = 2_463_534_242;

// What a diner has to know of a job: the number of its turns, and whether it fails.
#[derive(Clone, Copy)]
struct Chore {
    turns: u32,
    fails: bool,
}

// The chore of a meal without a job.
const NO_CHORE: Chore = Chore {
    turns: 0,
    fails: false,
};

/// The diner of one site of a plan. In meal `k`, from 1, it does job `k` of the site: it takes the job's turns, and
/// returns `JobFault` if and only if the job fails. A meal without a job takes no turn and does not fail.
///
/// A turn is one step of xorshift on a word of 32 bits, which the diner keeps from meal to meal. Each step needs the
/// result of the step before, so a compiler cannot shorten the loop, as it can if a loop only counts. A job takes at
/// most 1,000,000 turns. Only `open` allocates; a meal does not.
#[derive(Drop)]
pub struct PlanDiner {
    site: u32,
    log: CallLog,
    chores: Vec<Chore>,
    word: u32,
}

impl Model for PlanDiner {
    ghost use Rattle.std.specs.Prelude.{map};
    ghost use Rattle.dine.specs.PlanDiners.{SeenPlanDiner};

    ghost Value = { SeenPlanDiner };

    ghost view = { λ diner.
        record {
          site = diner.site;
          calls = diner.log.calls;
          marks = map (λ chore. chore.fails) diner.chores.items;
          room = diner.log.room;
          word = diner.word;
        } };
}

impl PlanDiner {
    /// Returns a diner for the jobs of a site, whose number is below `sites` of the plan. It has no call yet, and
    /// capacity for one call for each job.
    ///
    /// # Errors
    ///
    /// `AllocError` if there is no memory for the calls or the jobs.
    pub fn open(alloc: Global, plan: &Plan, site: u32) -> Result<PlanDiner, AllocError>
        requires { site < site_count plan.now }
        ensures site { IfOk result (λ diner. diner.site ≡ site) }
        ensures calls { IfOk result (λ diner. diner.calls ≡ []) }
        ensures marks { IfOk result (λ diner. diner.marks ≡ fails_of plan.now site) }
        ensures room { IfOk result (λ diner. diner.room ≡ job_count plan.now site) }
        ensures word { IfOk result (λ diner. diner.word ≡ first_word) }
    {
        let jobs = plan.jobs(site);
        let log = CallLog::open(alloc, jobs)?;
        let mut chores = Vec::with_capacity(alloc, jobs as usize)?;
        for done in 0..jobs {
            let job = plan.job(site, done + 1);
            chores.push_reserved(Chore {
                turns: job.turns,
                fails: job.fails,
            });
        }
        Ok(PlanDiner {
            site,
            log,
            chores,
            word: FIRST_WORD,
        })
    }

    /// Returns all calls so far, in order.
    pub fn calls(&self) -> &[Call]
        ensures { result.now ≡ self.now.calls }
    {
        self.log.calls()
    }

    /// Returns the word after all turns so far: 2,463,534,242 before the first turn, and each turn makes of it the next
    /// word of xorshift with the shifts 13, 17 and 5.
    pub fn word(&self) -> u32
        ensures { result ≡ self.now.word }
    {
        self.word
    }

    // Returns the chore of meal `k`.
    fn chore(&self, k: u32) -> Chore
        ensures { result.fails ≡ mark_of self.now.marks k }
    {
        if k == 0 {
            return NO_CHORE;
        }
        match self.chores.get((k - 1) as usize) {
            Some(chore) => *chore,
            None => NO_CHORE,
        }
    }
}

impl Diner for PlanDiner {
    ghost calls = { λ diner. diner.calls };

    ghost marks = { λ diner. diner.marks };

    ghost fits = { fits_marks };

    ghost room_left = { λ diner. diner.room };

    // Its own site, in a plan in which the site has its jobs.
    ghost expects = { IsDinerOf };

    fn room(&self) -> u32 {
        self.log.room()
    }

    fn eat(&mut self, k: u32, _meal: &Meal) -> Result<(), JobFault> {
        let chore = self.chore(k);
        self.word = turned(self.word, chore.turns);
        self.log.note(k, !chore.fails);
        if chore.fails { Err(JobFault) } else { Ok(()) }
    }
}

// Returns the word after this number of turns.
fn turned(word: u32, turns: u32) -> u32 {
    let mut word = word;
    for _ in 0..turns {
        word = turned_once(word);
    }
    word
}

// Returns the word after one turn: one step of xorshift with the shifts 13, 17 and 5.
fn turned_once(word: u32) -> u32 {
    let word = word ^ (word << 13);
    let word = word ^ (word >> 17);
    word ^ (word << 5)
}
