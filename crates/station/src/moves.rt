// The five ways in which a state changes: a job comes in, the running job's holdings are replaced, it leaves, the head starts.
ghost use Rattle.std.specs.Prelude.{◌≡◌, ◌<◌, ◌≤◌, ◌∷◌, ◌++◌, true, set, take, drop, length};
ghost use Rattle.rules.specs.Limits.{max_jobs};
ghost use Rattle.rules.specs.Table.{resource_count};
ghost use Rattle.rules.specs.State.{running_held, nothing_held};
ghost use Rattle.rules.specs.Waiting.{insert};
ghost use Rattle.rules.specs.Start.{with_start};
ghost use Rattle.rules.specs.Events.{enter, hold, leave, applied};
ghost use Rattle.table.specs.Arrays.{table_of};
ghost use Rattle.station.specs.Arrays.{state_of, entry_of, arrays_of};
ghost use Rattle.station.specs.WellFormed.{well_formed};

use crate::{Started, State};
use rules::RESOURCES;
use table::JobNo;

impl State {
    /// The running job holds so many units of a resource.
    pub(crate) fn hold(&mut self, resource: usize, units: u16)
        requires well_formed { well_formed self.old ≡ true }
        requires runs { 0 < self.old.depth }
        requires listed { resource < resource_count (table_of self.old.table) }
        ensures { self.new ≡ arrays_of self.old.table (applied (table_of self.old.table) (state_of self.old) (hold (set (running_held (state_of self.old).stack) resource units))) }
    {
        let top = usize::from(self.depth) - 1;
        self.stack[top].held[resource] = units;
    }

    /// The running job gives back everything.
    pub(crate) fn hold_nothing(&mut self)
        requires well_formed { well_formed self.old ≡ true }
        requires runs { 0 < self.old.depth }
        ensures { self.new ≡ arrays_of self.old.table (applied (table_of self.old.table) (state_of self.old) (hold (nothing_held (table_of self.old.table)))) }
    {
        let top = usize::from(self.depth) - 1;
        self.stack[top].held = [0; RESOURCES];
    }

    /// The running job leaves.
    pub(crate) fn leave(&mut self)
        requires well_formed { well_formed self.old ≡ true }
        requires runs { 0 < self.old.depth }
        ensures { self.new ≡ arrays_of self.old.table (applied (table_of self.old.table) (state_of self.old) leave) }
    {
        let top = usize::from(self.depth) - 1;
        self.stack[top] = Started::default();
        self.depth -= 1;
    }

    /// A job comes in: it goes before the first waiting job that has a lower level.
    pub(crate) fn enter(&mut self, job: JobNo)
        requires well_formed { well_formed self.old ≡ true }
        requires room { self.old.waiting_count < max_jobs }
        ensures { self.new ≡ arrays_of self.old.table (applied (table_of self.old.table) (state_of self.old) (enter (entry_of job))) }
    {
        let at = self.place_of(job);
        // The last entry is past the count: it makes room.
        self.waiting[at..].rotate_right(1);
        self.waiting[at] = job;
        self.waiting_count += 1;
    }

    /// The place of a job that comes in: that of the first waiting job that has a lower level.
    fn place_of(&self, job: JobNo) -> usize
        ensures within { result ≤ length (state_of self.now).waiting }
        ensures place { insert (table_of self.now.table) (entry_of job) (state_of self.now).waiting ≡ take result (state_of self.now).waiting ++ (entry_of job ∷ drop result (state_of self.now).waiting) }
    {
        let level = self.level_of(job);
        let mut at = 0;
        for &other in self.waiting_jobs() {
            if self.level_of(other) < level {
                break;
            }
            at += 1;
        }
        at
    }

    /// The head starts.
    pub(crate) fn start_head(&mut self)
        requires well_formed { well_formed self.old ≡ true }
        requires waits { 0 < self.old.waiting_count }
        requires room { self.old.depth < max_jobs }
        ensures { self.new ≡ arrays_of self.old.table (with_start (table_of self.old.table) (state_of self.old) (state_of self.old).waiting) }
    {
        self.stack[usize::from(self.depth)] = Started {
            job: self.waiting[0],
            held: [0; RESOURCES],
        };
        self.depth += 1;
        // Past the count the entries are zero, as the one that comes last.
        self.waiting[0] = JobNo(0);
        self.waiting.rotate_left(1);
        self.waiting_count -= 1;
    }
}
