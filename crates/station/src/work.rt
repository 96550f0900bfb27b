// A state that is known to be well formed, with its system ceiling: it was made fresh, and only events have changed it. So an event tests
// neither again. A replay keeps one; the stack memory is no part of it.
ghost use Rattle.std.specs.Prelude.{◌≡◌, true};
ghost use Rattle.rules.specs.Ceilings.{system_ceiling};
ghost use Rattle.table.specs.Arrays.{table_of};
ghost use Rattle.station.specs.Arrays.{state_of};
ghost use Rattle.station.specs.WellFormed.{well_formed};

use crate::State;
use table::{JobNo, Level, Refusal, Table};
use tagged_event::Event;

/// A station at work: its state, which is well formed, and the system ceiling.
#[derive(Debug, Drop)]
pub struct Station {
    state: State,
    ceiling: Level,
    ghost formed: { well_formed state ≡ true },
    ghost known: { ceiling.0 ≡ system_ceiling (table_of state.table) (state_of state).stack },
}

impl Station {
    ghost use Rattle.std.specs.Prelude.{length, MatchResult};
    ghost use Rattle.rules.specs.Table.{job_count};
    ghost use Rattle.rules.specs.State.{running};
    ghost use Rattle.rules.specs.Waiting.{waiting_word};
    ghost use Rattle.table.specs.Judging.{table_judged};
    ghost use Rattle.table.specs.Refusals.{number_of};
    ghost use Rattle.tagged_event.specs.Answers.{event_of};
    ghost use Rattle.station.specs.Arrays.{who, fresh_state};
    ghost use Rattle.station.specs.Reading.{job_said};
    ghost use Rattle.station.specs.Working.{Made, Worked};

    /// The station of a table that could be written, with nothing started, waiting or held: else 2, 4, 5.
    pub fn new(table: Table) -> Result<Station, Refusal>
        ensures { Made table result }
    {
        let fresh = State::fresh(table);
        fresh.made?;
        let ceiling = fresh.state.ceiling_now();
        Ok(Station {
            state: fresh.state,
            ceiling,
        })
    }

    /// Applies an event: the job started, if any, or the refusal. Whoever keeps a stack memory clears the frame of a job that is started.
    pub fn apply(&mut self, event: Event) -> Result<Option<JobNo>, Refusal>
        ensures { Worked self.old (event_of event) result self.new }
    {
        let tested = self.state.step(event)?;
        match tested {
            Some(tested) => {
                self.ceiling = tested.ceiling;
                Ok(tested.started)
            }
            None => {
                self.ceiling = self.state.ceiling_now();
                Ok(None)
            }
        }
    }

    /// The running job, if any.
    pub fn running(&self) -> Option<JobNo>
        ensures { who result ≡ running (state_of self.now.state).stack }
    {
        self.state.started().last().map(|running| running.job)
    }

    /// The system ceiling.
    pub fn system_ceiling(&self) -> Level
        ensures { result.0 ≡ system_ceiling (table_of self.now.state.table) (state_of self.now.state).stack }
    {
        self.ceiling
    }

    /// The number waiting.
    #[tactic(auto, using(crate::proofs::Back::counted))]
    pub fn number_waiting(&self) -> u8
        ensures { result ≡ length (state_of self.now.state).waiting }
    {
        self.state.waiting_count
    }

    /// The waiting word.
    pub fn waiting_word(&self) -> u32
        ensures { result ≡ waiting_word (job_count (table_of self.now.state.table)) (state_of self.now.state).waiting }
    {
        self.state.word()
    }
}
