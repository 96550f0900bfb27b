// What is read from a state; 10 for one that isn't well formed.
ghost use Rattle.std.specs.Prelude.{◌≡◌, true, false, MatchResult};
ghost use Rattle.rules.specs.Table.{job_count};
ghost use Rattle.rules.specs.Waiting.{waiting_word};
ghost use Rattle.table.specs.Arrays.{table_of};
ghost use Rattle.table.specs.Refusals.{in_numbers};
ghost use Rattle.table.specs.declared.Refusal.TheVariants.{NotWellFormed};
ghost use Rattle.station.specs.Arrays.{state_of};
ghost use Rattle.station.specs.WellFormed.{well_formed};
ghost use Rattle.station.specs.Reading.{ceiling_answer, system_ceiling_answer, running_answer, waiting_answer, word_answer, level_said, job_said};

use crate::State;
use table::{JobNo, Level, Refusal};

impl State {
    /// The ceiling of a resource, as its free units are: 10, then 15 for a resource that is not listed.
    #[tactic(auto, unfolding(crate::specs::Reading::ceiling_answer, rules::specs::Choice::first_bad))]
    pub fn ceiling(&self, resource: u8) -> Result<Level, Refusal>
        ensures { level_said result ≡ ceiling_answer self.now resource }
    {
        self.tested()?;
        let resource = usize::from(resource);
        if resource >= self.table.listed_units().len() {
            return Err(Refusal::NoSuchResource);
        }
        Ok(self.ceiling_with(resource, self.free_of(resource)))
    }

    /// The system ceiling.
    #[tactic(auto, unfolding(crate::specs::Reading::system_ceiling_answer, rules::specs::Choice::first_bad))]
    pub fn system_ceiling(&self) -> Result<Level, Refusal>
        ensures { level_said result ≡ system_ceiling_answer self.now }
    {
        self.tested()?;
        Ok(self.ceiling_now())
    }

    /// The running job, if any.
    #[tactic(auto, unfolding(crate::specs::Reading::running_answer, rules::specs::Choice::first_bad))]
    pub fn running(&self) -> Result<Option<JobNo>, Refusal>
        ensures { job_said result ≡ running_answer self.now }
    {
        self.tested()?;
        Ok(self.started().last().map(|running| running.job))
    }

    /// The number waiting.
    #[tactic(auto, using(crate::proofs::Back::counted), unfolding(crate::specs::Reading::waiting_answer, rules::specs::Choice::first_bad))]
    pub fn number_waiting(&self) -> Result<u8, Refusal>
        ensures { in_numbers result ≡ waiting_answer self.now }
    {
        self.tested()?;
        Ok(self.waiting_count)
    }

    /// The waiting word: bit j is set if job j waits.
    #[tactic(auto, unfolding(crate::specs::Reading::word_answer, rules::specs::Choice::first_bad))]
    pub fn waiting_word(&self) -> Result<u32, Refusal>
        ensures { in_numbers result ≡ word_answer self.now }
    {
        self.tested()?;
        Ok(self.word())
    }

    /// 10 if the state is not well formed.
    fn tested(&self) -> Result<(), Refusal>
        ensures { MatchResult result (λ u. well_formed self.now ≡ true) (λ refusal. (well_formed self.now ≡ false) × (refusal ≡ NotWellFormed)) }
    {
        if !self.is_well_formed() {
            return Err(Refusal::NotWellFormed);
        }
        Ok(())
    }

    /// The waiting word of a well-formed state.
    pub(crate) fn word(&self) -> u32
        requires { well_formed self.now ≡ true }
        ensures { result ≡ waiting_word (job_count (table_of self.now.table)) (state_of self.now).waiting }
    {
        let mut word = 0;
        for job in self.waiting_jobs() {
            word += 1 << job.0;
        }
        word
    }
}
