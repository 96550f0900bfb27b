// The five events before any start test: the refusal of each, and what it changes. Nothing is changed before the last test.
ghost use Rattle.std.specs.Prelude.{◌≡◌, ◌<◌, ltb, true, [], ◌∷◌, take, IfErr, IfOk, OnOk};
ghost use Rattle.rules.specs.Choice.{first_bad};
ghost use Rattle.rules.specs.State.{running_held};
ghost use Rattle.rules.specs.Events.{arrive, acquire, release, finish, release_all, refusal, by_running, no_such_resource, no_amount};
ghost use Rattle.rules.specs.Table.{need_of, resource_count};
ghost use Rattle.rules.specs.Counting.{total};
ghost use Rattle.table.specs.Arrays.{table_of};
ghost use Rattle.table.specs.Judging.{judged_number};
ghost use Rattle.table.specs.Refusals.{number_of};
ghost use Rattle.station.specs.Arrays.{state_of};
ghost use Rattle.station.specs.WellFormed.{held_blank, well_formed};
ghost use Rattle.station.specs.Applying.{changed};

use crate::{Started, State};
use table::{JobNo, Refusal};

#[tactic(auto, using(crate::proofs::Refusing::telling), unfolding(rules::specs::Choice::first_bad, rules::specs::Events::refusal, crate::specs::Applying::changed))]
impl State {
    /// Arrive: 12, 13.
    pub(crate) fn arrive(&mut self, job: JobNo) -> Result<(), Refusal>
        requires { well_formed self.old ≡ true }
        ensures answer { judged_number result ≡ refusal (table_of self.old.table) (state_of self.old) (arrive job.0) }
        ensures state { self.new ≡ changed self.old (arrive job.0) }
    {
        if !self.is_listed(job) {
            return Err(Refusal::NoSuchJob);
        }
        if self.is_active(job) {
            return Err(Refusal::AlreadyActive);
        }
        self.enter(job);
        Ok(())
    }

    /// Acquire: 12, 14, 15, 16, 17, 18.
    pub(crate) fn acquire(&mut self, job: JobNo, resource: u8, amount: u16) -> Result<(), Refusal>
        requires { well_formed self.old ≡ true }
        ensures answer { judged_number result ≡ refusal (table_of self.old.table) (state_of self.old) (acquire job.0 resource amount) }
        ensures state { self.new ≡ changed self.old (acquire job.0 resource amount) }
    {
        let running = self.runs(job)?;
        self.amount_of(resource, amount)?;
        let resource = usize::from(resource);
        let held = running.held[resource];
        if u32::from(held) + u32::from(amount) > u32::from(self.need_of(job, resource)) {
            return Err(Refusal::AboveNeed);
        }
        if u32::from(amount) > self.free_of(resource) {
            return Err(Refusal::AboveFree);
        }
        self.hold(resource, held + amount);
        Ok(())
    }

    /// Release: 12, 14, 15, 16, 19.
    pub(crate) fn release(&mut self, job: JobNo, resource: u8, amount: u16) -> Result<(), Refusal>
        requires { well_formed self.old ≡ true }
        ensures answer { judged_number result ≡ refusal (table_of self.old.table) (state_of self.old) (release job.0 resource amount) }
        ensures state { self.new ≡ changed self.old (release job.0 resource amount) }
    {
        let running = self.runs(job)?;
        self.amount_of(resource, amount)?;
        let resource = usize::from(resource);
        let held = running.held[resource];
        if amount > held {
            return Err(Refusal::AboveHeld);
        }
        self.hold(resource, held - amount);
        Ok(())
    }

    /// Finish: 12, 14, 20.
    pub(crate) fn finish(&mut self, job: JobNo) -> Result<(), Refusal>
        requires { well_formed self.old ≡ true }
        ensures answer { judged_number result ≡ refusal (table_of self.old.table) (state_of self.old) (finish job.0) }
        ensures state { self.new ≡ changed self.old (finish job.0) }
    {
        if self.runs(job)?.holds_units() {
            return Err(Refusal::StillHolds);
        }
        self.leave();
        Ok(())
    }

    /// Release all: 12, 14, 21.
    pub(crate) fn release_all(&mut self, job: JobNo) -> Result<(), Refusal>
        requires { well_formed self.old ≡ true }
        ensures answer { judged_number result ≡ refusal (table_of self.old.table) (state_of self.old) (release_all job.0) }
        ensures state { self.new ≡ changed self.old (release_all job.0) }
    {
        if !self.runs(job)?.holds_units() {
            return Err(Refusal::HoldsNothing);
        }
        self.hold_nothing();
        Ok(())
    }

    /// 12, 14: only the running job acquires, releases and finishes. Its place of the stack, or the refusal.
    fn runs(&self, job: JobNo) -> Result<&Started, Refusal>
        requires { well_formed self.now ≡ true }
        ensures refused { IfErr result (λ refusal. number_of refusal ≡ first_bad (by_running (table_of self.now.table) (state_of self.now) job.0 [])) }
        ensures passed { OnOk result (first_bad (by_running (table_of self.now.table) (state_of self.now) job.0 []) ≡ 0) }
        ensures held { IfOk result (λ running. running_held (state_of self.now).stack ≡ take self.now.table.resource_count running.now.held) }
        ensures blank { IfOk result (λ running. held_blank self.now.table.resource_count running.now ≡ true) }
    {
        if !self.is_listed(job) {
            return Err(Refusal::NoSuchJob);
        }
        let Some(running) = self.started().last() else {
            return Err(Refusal::NotRunning);
        };
        if running.job != job {
            return Err(Refusal::NotRunning);
        }
        Ok(running)
    }

    /// 15, 16: an amount of a resource.
    fn amount_of(&self, resource: u8, amount: u16) -> Result<(), Refusal>
        ensures { judged_number result ≡ first_bad (no_such_resource (table_of self.now.table) resource ∷ no_amount amount ∷ []) }
    {
        if usize::from(resource) >= self.table.listed_units().len() {
            return Err(Refusal::NoSuchResource);
        }
        if amount == 0 {
            return Err(Refusal::AmountZero);
        }
        Ok(())
    }

    /// The need of a job of a resource.
    fn need_of(&self, job: JobNo, resource: usize) -> u16
        requires well_formed { well_formed self.now ≡ true }
        requires listed { resource < resource_count (table_of self.now.table) }
        ensures { result ≡ need_of (table_of self.now.table) job.0 resource }
    {
        match self.table.listed_jobs().get(usize::from(job.0)) {
            Some(listed) => listed.needs[resource],
            None => 0,
        }
    }
}

impl Started {
    /// Does the job hold units?
    fn holds_units(&self) -> bool
        ensures { result ≡ ltb 0 (total self.now.held) }
    {
        self.held.iter().any(|&units| units > 0)
    }
}
