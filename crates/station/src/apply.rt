// Applying one event to a state and the lent stack memory.
ghost use Rattle.std.specs.Prelude.{◌≡◌, true, length};
ghost use Rattle.rules.specs.Events as R;
ghost use Rattle.rules.specs.Events.{is_tested};
ghost use Rattle.table.specs.Arrays.{table_of};
ghost use Rattle.table.specs.Judging.{judged_number};
ghost use Rattle.tagged_event.specs.Answers.{event_of};
ghost use Rattle.station.specs.Arrays.{state_of};
ghost use Rattle.station.specs.Reading.{job_said};
ghost use Rattle.station.specs.WellFormed.{well_formed};
ghost use Rattle.station.specs.Applying.{answer, state_after, memory_after, changed, job_started, Stepped};

use crate::State;
use crate::jobs::unit_places;
use crate::start::Tested;
use table::{JobNo, Refusal};
use tagged_event::Event;

impl State {
    /// Applies an event: the job started, if any, or the refusal. A refused event changes neither the state nor a byte of the stack memory;
    /// a start makes the new frame zero, and changes no other byte.
    pub fn apply(&mut self, event: Event, memory: &mut [u8]) -> Result<Option<JobNo>, Refusal>
        ensures answer { job_said result ≡ answer self.old (length memory.old) (event_of event) }
        ensures state { self.new ≡ state_after self.old (length memory.old) (event_of event) }
        ensures memory { memory.new ≡ memory_after self.old memory.old (event_of event) }
    {
        if !self.is_well_formed() {
            return Err(Refusal::NotWellFormed);
        }
        if memory.len() != usize::from(self.table.size) {
            return Err(Refusal::WrongMemoryLength);
        }
        let started = started_by(self.step(event)?);
        if started.is_some() {
            self.clear_top(memory);
        }
        Ok(started)
    }

    /// One event on a well-formed state: the start test's answer, where one is made.
    pub(crate) fn step(&mut self, event: Event) -> Result<Option<Tested>, Refusal>
        requires { well_formed self.old ≡ true }
        ensures { Stepped self.old (event_of event) result self.new }
    {
        unit_places(&self.table);
        self.change(event)?;
        if !is_tested(event) {
            return Ok(None);
        }
        Ok(Some(self.start_test()))
    }

    /// The refusal of an event, or else what it changes before any start test.
    fn change(&mut self, event: Event) -> Result<(), Refusal>
        requires { well_formed self.old ≡ true }
        ensures answer { judged_number result ≡ R.refusal (table_of self.old.table) (state_of self.old) (event_of event) }
        ensures state { self.new ≡ changed self.old (event_of event) }
    {
        match event {
            Event::Arrive(job) => self.arrive(job),
            Event::Acquire {
                job,
                resource,
                amount,
            } => self.acquire(job, resource, amount),
            Event::Release {
                job,
                resource,
                amount,
            } => self.release(job, resource, amount),
            Event::Finish(job) => self.finish(job),
            Event::ReleaseAll(job) => self.release_all(job),
        }
    }
}

/// The start test is made after every event but an acquire.
fn is_tested(event: Event) -> bool
    ensures { result ≡ is_tested (event_of event) }
{
    match event {
        Event::Acquire { .. } => false,
        Event::Arrive(_) | Event::Release { .. } | Event::Finish(_) | Event::ReleaseAll(_) => true,
    }
}

/// The job that the start test started, where one was made.
fn started_by(tested: Option<Tested>) -> Option<JobNo>
    ensures { result ≡ job_started tested }
{
    match tested {
        Some(tested) => tested.started,
        None => None,
    }
}
