// Judging a table: its counts first, then its values with what stands past the counts, then its worst stack.
ghost use Rattle.std.specs.Prelude.{◌≡◌, take, drop};
ghost use Rattle.rules.specs.Limits.{max_units};
ghost use Rattle.rules.specs.Counting.{within, every, none_above};
ghost use Rattle.rules.specs.Table.{job_good};
ghost use Rattle.table.specs.Arrays.{job_in, table_of};
ghost use Rattle.table.specs.Refusals.{in_numbers};
ghost use Rattle.table.specs.Judging.{is_zero, needs_blank, job_blank, blank, counts_fit, values_fit, table_judged, judged_number, worst_answer};

use crate::{Job, Refusal, Table};
use rules::{JOBS, RESOURCES, UNITS};

impl Table {
    /// The worst stack, also one above the stack size.
    #[tactic(auto, unfolding(crate::specs::Judging::worst_answer, rules::specs::Choice::first_bad))]
    pub fn worst_stack(&self) -> Result<u32, Refusal>
        ensures { in_numbers result ≡ worst_answer self.now }
    {
        if !self.counts_fit() {
            return Err(Refusal::WrongTagOrCount);
        }
        if !self.values_fit() {
            return Err(Refusal::ValueOutOfRange);
        }
        Ok(self.largest_frames())
    }

    /// Could the table be written?
    #[tactic(auto, unfolding(crate::specs::Judging::worst_answer, crate::specs::Judging::table_judged, rules::specs::Choice::first_bad))]
    pub fn judge(&self) -> Result<(), Refusal>
        ensures { judged_number result ≡ table_judged self.now }
    {
        if self.worst_stack()? > u32::from(self.size) {
            return Err(Refusal::StackTooSmall);
        }
        Ok(())
    }

    /// Are the counts in range?
    fn counts_fit(&self) -> bool
        ensures { result ≡ counts_fit self.now }
    {
        usize::from(self.resource_count) <= RESOURCES
            && (1..=JOBS).contains(&(usize::from(self.job_count)))
    }

    /// Are the values in range, and the entries past a count zero?
    fn values_fit(&self) -> bool
        ensures { result ≡ values_fit self.now }
    {
        self.size > 0 && self.units_fit() && self.jobs_fit() && self.blank()
    }

    /// Are the listed units in range?
    fn units_fit(&self) -> bool
        ensures { result ≡ every (within 1 max_units) (table_of self.now).units }
    {
        self.listed_units()
            .iter()
            .all(|units| (1..=UNITS).contains(units))
    }

    /// Are the listed jobs' values in range?
    fn jobs_fit(&self) -> bool
        ensures { result ≡ every (job_good (table_of self.now).units) (table_of self.now).jobs }
    {
        self.listed_jobs().iter().all(|job| self.job_fits(job))
    }

    /// Are the values of a listed job in range?
    fn job_fits(&self, job: &Job) -> bool
        ensures { result ≡ job_good (table_of self.now).units (job_in self.now.resource_count job.now) }
    {
        job.level.0 > 0 && job.frame > 0 && self.needs_fit(job)
    }

    /// Is no need of a listed job above the resource's units?
    fn needs_fit(&self, job: &Job) -> bool
        ensures { result ≡ none_above (table_of self.now).units (job_in self.now.resource_count job.now).needs }
    {
        self.listed_units()
            .iter()
            .zip(&job.needs)
            .all(|(units, need)| need <= units)
    }

    /// Are the entries past a count zero?
    fn blank(&self) -> bool
        ensures { result ≡ blank self.now }
    {
        self.units_blank() && self.needs_blank() && self.places_blank()
    }

    /// Are the units past the resource count zero?
    fn units_blank(&self) -> bool
        ensures { result ≡ every is_zero (drop self.now.resource_count self.now.units) }
    {
        self.units
            .iter()
            .skip(usize::from(self.resource_count))
            .all(|&units| units == 0)
    }

    /// Are the listed jobs' needs past the resource count zero?
    fn needs_blank(&self) -> bool
        ensures { result ≡ every (needs_blank self.now.resource_count) (take self.now.job_count self.now.jobs) }
    {
        self.listed_jobs()
            .iter()
            .all(|job| job.needs_blank(usize::from(self.resource_count)))
    }

    /// Are the places past the job count zero?
    fn places_blank(&self) -> bool
        ensures { result ≡ every job_blank (drop self.now.job_count self.now.jobs) }
    {
        self.jobs
            .iter()
            .skip(usize::from(self.job_count))
            .all(|job| job.blank())
    }
}

impl Job {
    /// Are its needs past so many resources zero?
    fn needs_blank(&self, resources: usize) -> bool
        ensures { result ≡ needs_blank resources self.now }
    {
        self.needs.iter().skip(resources).all(|&need| need == 0)
    }

    /// Is all of it zero?
    fn blank(&self) -> bool
        ensures { result ≡ job_blank self.now }
    {
        self.level.0 == 0 && self.frame == 0 && self.needs_blank(0)
    }
}
