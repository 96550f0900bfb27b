// The units that are held and free, and the ceilings, of any state.
ghost use Rattle.std.specs.Prelude.{◌≡◌, not, ℕ, ◌+◌, ◌-◌, ◌^◌, ◌<◌, leb, get_or};
ghost use Rattle.rules.specs.Counting.{every_below};
ghost use Rattle.rules.specs.State.{held_in, free_in, running_level};
ghost use Rattle.rules.specs.Ceilings.{ceiling, system_ceiling};
ghost use Rattle.table.specs.Arrays.{table_of};
ghost use Rattle.rules.specs.Table.{resource_count};
ghost use Rattle.station.specs.Arrays.{state_of};

use crate::State;
use rules::RESOURCES;
use table::{Job, Level};

impl State {
    /// The units of each resource that the started jobs hold.
    pub(crate) fn held(&self) -> [u32; RESOURCES]
        ensures { (r : ℕ) → r < resource_count (table_of self.now.table) → get_or result r 0 ≡ held_in (state_of self.now).stack r }
    {
        let mut held = [0; RESOURCES];
        for started in self.started() {
            add(&mut held, &started.held);
        }
        held
    }

    /// The units of a resource that are free.
    pub(crate) fn free_of(&self, resource: usize) -> u32
        requires { resource < resource_count (table_of self.now.table) }
        ensures { result ≡ free_in (table_of self.now.table) (state_of self.now).stack resource }
    {
        let mut held: u32 = 0;
        for started in self.started() {
            held += u32::from(entry(&started.held, resource));
        }
        u32::from(entry(&self.table.units, resource)).saturating_sub(held)
    }

    /// The free units of each resource.
    pub(crate) fn free(&self) -> [u32; RESOURCES]
        ensures { (r : ℕ) → r < resource_count (table_of self.now.table) → get_or result r 0 ≡ free_in (table_of self.now.table) (state_of self.now).stack r }
    {
        left(&self.table.units, &self.held())
    }

    /// The ceiling of a resource with so many units free.
    pub(crate) fn ceiling_with(&self, resource: usize, free: u32) -> Level
        requires { resource < resource_count (table_of self.now.table) }
        ensures { result.0 ≡ ceiling (table_of self.now.table) resource free }
    {
        let mut largest = Level(0);
        for job in self.table.listed_jobs() {
            if job.level > largest && u32::from(entry(&job.needs, resource)) > free {
                largest = job.level;
            }
        }
        largest
    }

    /// The running job's level; 0 if nothing runs.
    pub(crate) fn running_level(&self) -> Level
        ensures { result.0 ≡ running_level (table_of self.now.table) (state_of self.now).stack }
    {
        match self.started().last() {
            Some(running) => self.level_of(running.job),
            None => Level(0),
        }
    }

    /// The system ceiling: the largest level among the jobs with a need above the free units, and the running job's.
    pub(crate) fn ceiling_now(&self) -> Level
        ensures { result.0 ≡ system_ceiling (table_of self.now.table) (state_of self.now).stack }
    {
        let free = self.free();
        let resources = self.table.listed_units().len();
        let mut largest = self.running_level();
        for job in self.table.listed_jobs() {
            if job.level > largest && needs_more(job, &free, resources) {
                largest = job.level;
            }
        }
        largest
    }
}

/// Adds the units that one job holds to those held, of which there are so few that the sums fit.
fn add(held: &mut [u32; RESOURCES], more: &[u16; RESOURCES])
    requires { (r : ℕ) → get_or held.old r 0 < 2 ^ 31 }
    ensures sum { (r : ℕ) → get_or held.new r 0 ≡ get_or held.old r 0 + get_or more.now r 0 }
    ensures small { (r : ℕ) → get_or held.new r 0 < get_or held.old r 0 + 2 ^ 16 }
{
    for r in 0..RESOURCES {
        held[r] += u32::from(more[r]);
    }
}

/// What is left of the units of each resource.
fn left(units: &[u16; RESOURCES], held: &[u32; RESOURCES]) -> [u32; RESOURCES]
    ensures { (r : ℕ) → get_or result r 0 ≡ get_or units.now r 0 - get_or held.now r 0 }
{
    let mut free = [0; RESOURCES];
    for r in 0..RESOURCES {
        free[r] = u32::from(units[r]).saturating_sub(held[r]);
    }
    free
}

/// The entry of a resource; 0 past the array's end.
fn entry(entries: &[u16; RESOURCES], resource: usize) -> u16
    ensures { result ≡ get_or entries.now resource 0 }
{
    entries.get(resource).copied().unwrap_or(0)
}

/// Does the job need more of some of the first resources than is free?
fn needs_more(job: &Job, free: &[u32; RESOURCES], resources: usize) -> bool
    ensures { result ≡ not (every_below resources (λ r. leb (get_or job.now.needs r 0) (get_or free.now r 0))) }
{
    job.needs
        .iter()
        .zip(free)
        .take(resources)
        .any(|(&need, &free)| u32::from(need) > free)
}
