// A diner with a mark.
ghost use Rattle.std.specs.Prelude.{◌∷◌, [], true, slice_index_or};
ghost use Rattle.std.proofs.Math.Bool.{beq};

use dine_site_thread::{CallLog, Diner, JobFault};
use dine_token::Meal;

// All jobs of the diner go well or all fail, as its one mark says.
#[derive(Drop)]
pub struct Marked {
    pub log: CallLog,
    pub goes_well: bool,
}

impl Diner for Marked {
    ghost calls = { λ diner. diner.log.calls };

    ghost marks = { λ diner. diner.goes_well ∷ [] };

    ghost fits = { λ marks k ok. beq ok (slice_index_or marks 0 true) };

    ghost room_left = { λ diner. diner.log.room };

    fn room(&self) -> u32 {
        self.log.room()
    }

    fn eat(&mut self, k: u32, _meal: &Meal) -> Result<(), JobFault> {
        self.log.note(k, self.goes_well);
        if self.goes_well {
            Ok(())
        } else {
            Err(JobFault)
        }
    }
}
