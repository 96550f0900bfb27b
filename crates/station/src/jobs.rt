// What a state says of its jobs, whatever it holds: counts above an array's length list the whole array, and a job that is not listed has
// level 0, frame 0 and no need.
ghost use Rattle.std.specs.Prelude.{◌≡◌, length, take, ltb};
ghost use Rattle.rules.specs.Limits.{max_resources};
ghost use Rattle.rules.specs.Counting.{contains};
ghost use Rattle.rules.specs.Table.{job_count, level_of, frame_of, need_of};
ghost use Rattle.rules.specs.State.{active_jobs};
ghost use Rattle.table.specs.Arrays.{table_of};
ghost use Rattle.station.specs.Arrays.{state_of};

use crate::{Started, State};
use table::{JobNo, Level, Table};

impl State {
    /// The started jobs, from the lowest up.
    pub(crate) fn started(&self) -> &[Started]
        ensures { result.now ≡ take self.now.depth self.now.stack }
    {
        self.stack
            .get(..usize::from(self.depth))
            .unwrap_or(&self.stack)
    }

    /// The waiting jobs, from the head on.
    pub(crate) fn waiting_jobs(&self) -> &[JobNo]
        ensures { result.now ≡ take self.now.waiting_count self.now.waiting }
    {
        self.waiting
            .get(..usize::from(self.waiting_count))
            .unwrap_or(&self.waiting)
    }

    /// Is the job listed?
    pub(crate) fn is_listed(&self, job: JobNo) -> bool
        ensures { result ≡ ltb job.0 (job_count (table_of self.now.table)) }
    {
        usize::from(job.0) < self.table.listed_jobs().len()
    }

    /// The job's level.
    pub(crate) fn level_of(&self, job: JobNo) -> Level
        ensures { result.0 ≡ level_of (table_of self.now.table) job.0 }
    {
        match self.table.listed_jobs().get(usize::from(job.0)) {
            Some(listed) => listed.level,
            None => Level(0),
        }
    }

    /// The job's frame.
    pub(crate) fn frame_of(&self, job: JobNo) -> u16
        ensures { result ≡ frame_of (table_of self.now.table) job.0 }
    {
        match self.table.listed_jobs().get(usize::from(job.0)) {
            Some(listed) => listed.frame,
            None => 0,
        }
    }

    /// Is the job started or waiting?
    pub(crate) fn is_active(&self, job: JobNo) -> bool
        ensures { result ≡ contains job.0 (active_jobs (state_of self.now)) }
    {
        self.started().iter().any(|started| started.job == job)
            || self.waiting_jobs().contains(&job)
    }
}

/// How many places the array of a table's units has, for the proof of a function that has the table inside a state.
pub(crate) fn unit_places(table: &Table)
    ensures { length table.now.units ≡ max_resources }
{
    // The check knows it of a table that is read.
    let _size = table.size;
}
