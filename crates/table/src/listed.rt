// What a table lists: the entries up to each count. A count above an array's length lists the whole array.
ghost use Rattle.std.specs.Prelude.{◌≡◌, take};

use crate::{Job, Table};

impl Table {
    /// The units of the listed resources.
    pub fn listed_units(&self) -> &[u16]
        ensures { result.now ≡ take self.now.resource_count self.now.units }
    {
        self.units
            .get(..usize::from(self.resource_count))
            .unwrap_or(&self.units)
    }

    /// The listed jobs.
    pub fn listed_jobs(&self) -> &[Job]
        ensures { result.now ≡ take self.now.job_count self.now.jobs }
    {
        self.jobs
            .get(..usize::from(self.job_count))
            .unwrap_or(&self.jobs)
    }
}
