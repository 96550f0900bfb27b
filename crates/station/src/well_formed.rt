// The test of a well-formed state, part by part.
ghost use Rattle.std.specs.Prelude.{◌≡◌, ◌<◌, true, false, not, [], get_or, set, take, drop, ltb};
ghost use Rattle.rules.specs.Limits.{max_jobs};
ghost use Rattle.rules.specs.Counting.{every, none_above, each_once};
ghost use Rattle.rules.specs.Table.{job_count};
ghost use Rattle.rules.specs.State.{started_jobs, waiting_jobs};
ghost use Rattle.rules.specs.WellFormed.{all_listed, none_twice, levels_rise, in_order, within_needs, within_units, well_kept};
ghost use Rattle.table.specs.Arrays.{table_of};
ghost use Rattle.station.specs.Arrays.{state_of};
ghost use Rattle.station.specs.Seen.{Marks};
ghost use Rattle.station.specs.WellFormed.{table_fits, counts_fit, held_blank, started_blank, stack_blank, waiting_blank, blank, well_formed};

use crate::{Started, State};
use rules::JOBS;
use table::{Job, JobNo, Level};

impl State {
    /// Is the state well formed?
    #[tactic(auto, unfolding(crate::specs::WellFormed::well_formed))]
    pub fn is_well_formed(&self) -> bool
        ensures { result ≡ well_formed self.now }
    {
        self.table_fits() && self.counts_fit() && self.blank() && self.well_kept()
    }

    /// Could its table be written?
    fn table_fits(&self) -> bool
        ensures { result ≡ table_fits self.now }
    {
        self.table.judge().is_ok()
    }

    /// Is there room for as many jobs as are counted?
    fn counts_fit(&self) -> bool
        ensures { result ≡ counts_fit self.now }
    {
        usize::from(self.depth) <= JOBS && usize::from(self.waiting_count) <= JOBS
    }

    /// Are the entries past a count zero?
    fn blank(&self) -> bool
        ensures { result ≡ blank self.now }
    {
        self.stack_blank() && self.waiting_blank()
    }

    /// Are the stack's entries past a count zero?
    fn stack_blank(&self) -> bool
        ensures { result ≡ stack_blank self.now }
    {
        self.holdings_blank() && self.places_blank()
    }

    /// Is what the started jobs hold past the resource count zero?
    fn holdings_blank(&self) -> bool
        ensures { result ≡ every (held_blank self.now.table.resource_count) (take self.now.depth self.now.stack) }
    {
        let resources = usize::from(self.table.resource_count);
        self.started()
            .iter()
            .all(|started| started.held_blank(resources))
    }

    /// Are the places past the depth zero?
    fn places_blank(&self) -> bool
        ensures { result ≡ every started_blank (drop self.now.depth self.now.stack) }
    {
        self.stack
            .iter()
            .skip(usize::from(self.depth))
            .all(|started| started.blank())
    }

    /// Are the waiting jobs' entries past their count zero?
    fn waiting_blank(&self) -> bool
        ensures { result ≡ waiting_blank self.now }
    {
        self.waiting
            .iter()
            .skip(usize::from(self.waiting_count))
            .all(|job| job.0 == 0)
    }

    /// Do the tests of its jobs hold?
    fn well_kept(&self) -> bool
        requires { table_fits self.now ≡ true }
        ensures { result ≡ well_kept (table_of self.now.table) (state_of self.now) }
    {
        self.all_listed()
            && self.none_twice()
            && self.levels_rise()
            && self.in_order()
            && self.within_needs()
            && self.within_units()
    }

    /// Are the started and the waiting jobs listed?
    #[tactic(auto, using(crate::proofs::Formed::listed_parts))]
    fn all_listed(&self) -> bool
        ensures { result ≡ all_listed (table_of self.now.table) (state_of self.now) }
    {
        self.started_listed() && self.waiting_listed()
    }

    /// Are the started jobs listed?
    fn started_listed(&self) -> bool
        ensures { result ≡ every (λ j. ltb j (job_count (table_of self.now.table))) (started_jobs (state_of self.now).stack) }
    {
        self.started()
            .iter()
            .all(|started| self.is_listed(started.job))
    }

    /// Are the waiting jobs listed?
    fn waiting_listed(&self) -> bool
        ensures { result ≡ every (λ j. ltb j (job_count (table_of self.now.table))) (waiting_jobs (state_of self.now).waiting) }
    {
        self.waiting_jobs().iter().all(|&job| self.is_listed(job))
    }

    /// Is each of them there once, and none both started and waiting?
    fn none_twice(&self) -> bool
        requires fits { table_fits self.now ≡ true }
        requires listed { all_listed (table_of self.now.table) (state_of self.now) ≡ true }
        ensures { result ≡ none_twice (state_of self.now) }
    {
        let mut seen = [false; JOBS];
        self.see_started(&mut seen) && self.see_waiting(&mut seen)
    }

    /// Marks the started jobs, where none is marked: false if one is there twice.
    fn see_started(&self, seen: &mut [bool; JOBS]) -> bool
        requires fits { table_fits self.now ≡ true }
        requires listed { all_listed (table_of self.now.table) (state_of self.now) ≡ true }
        requires none_seen { Marks seen.old [] }
        ensures once { result ≡ each_once (started_jobs (state_of self.now).stack) }
        ensures marked { result ≡ true → Marks seen.new (started_jobs (state_of self.now).stack) }
    {
        for started in self.started() {
            if !see(seen, started.job) {
                return false;
            }
        }
        true
    }

    /// Marks the waiting jobs, where the started ones are marked: false if one is there twice, or is started.
    fn see_waiting(&self, seen: &mut [bool; JOBS]) -> bool
        requires fits { table_fits self.now ≡ true }
        requires listed { all_listed (table_of self.now.table) (state_of self.now) ≡ true }
        requires started { each_once (started_jobs (state_of self.now).stack) ≡ true }
        requires started_seen { Marks seen.old (started_jobs (state_of self.now).stack) }
        ensures { result ≡ none_twice (state_of self.now) }
    {
        for &job in self.waiting_jobs() {
            if !see(seen, job) {
                return false;
            }
        }
        true
    }

    /// Do levels rise strictly up the stack?
    fn levels_rise(&self) -> bool
        ensures { result ≡ levels_rise (table_of self.now.table) (state_of self.now).stack }
    {
        let mut below = Level(0);
        for started in self.started() {
            let level = self.level_of(started.job);
            if level <= below {
                return false;
            }
            below = level;
        }
        true
    }

    /// Do the waiting levels never rise from head to tail?
    fn in_order(&self) -> bool
        ensures { result ≡ in_order (table_of self.now.table) (state_of self.now).waiting }
    {
        let mut before = Level(u8::MAX);
        for &job in self.waiting_jobs() {
            let level = self.level_of(job);
            if level > before {
                return false;
            }
            before = level;
        }
        true
    }

    /// Does no started job hold more than its need?
    fn within_needs(&self) -> bool
        requires fits { table_fits self.now ≡ true }
        requires listed { all_listed (table_of self.now.table) (state_of self.now) ≡ true }
        ensures { result ≡ within_needs (table_of self.now.table) (state_of self.now).stack }
    {
        let resources = usize::from(self.table.resource_count);
        for started in self.started() {
            let job = &self.table.jobs[usize::from(started.job.0)];
            if !started.within_need(job, resources) {
                return false;
            }
        }
        true
    }

    /// Are no more units of a resource held than there are?
    fn within_units(&self) -> bool
        requires { table_fits self.now ≡ true }
        ensures { result ≡ within_units (table_of self.now.table) (state_of self.now).stack }
    {
        self.held()
            .iter()
            .zip(self.table.listed_units())
            .all(|(&held, &units)| held <= u32::from(units))
    }
}

impl Started {
    /// Is what the place holds past so many resources zero?
    fn held_blank(&self, resources: usize) -> bool
        ensures { result ≡ held_blank resources self.now }
    {
        self.held.iter().skip(resources).all(|&units| units == 0)
    }

    /// Is all of the place zero?
    fn blank(&self) -> bool
        ensures { result ≡ started_blank self.now }
    {
        self.job.0 == 0 && self.held_blank(0)
    }

    /// Does it hold no more than the job's need, of so many resources?
    fn within_need(&self, job: &Job, resources: usize) -> bool
        ensures { result ≡ none_above (take resources job.now.needs) (take resources self.now.held) }
    {
        job.needs
            .iter()
            .take(resources)
            .zip(&self.held)
            .all(|(need, held)| held <= need)
    }
}

/// Marks a job: false if it is marked already.
fn see(seen: &mut [bool; JOBS], job: JobNo) -> bool
    requires { job.0 < max_jobs }
    ensures first { result ≡ not (get_or seen.old job.0 false) }
    ensures marked { seen.new ≡ set seen.old job.0 true }
{
    let job = usize::from(job.0);
    let first = !seen[job];
    seen[job] = true;
    first
}
