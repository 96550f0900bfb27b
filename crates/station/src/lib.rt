// The scheduler: the station's state, events one at a time, and the running job's part of the stack memory.
#![tactic(auto)]

mod apply;
mod ceilings;
mod events;
mod frame;
mod fresh;
mod jobs;
mod moves;
mod readers;
mod start;
mod well_formed;
mod work;

ghost use Rattle.std.specs.Prelude.{◌≡◌};

pub use fresh::FreshState;
use rules::{JOBS, RESOURCES};
use table::{JobNo, Table};
pub use work::Station;

/// A place of the stack: a started, unfinished job, and the units that it holds of each resource.
#[derive(Clone, Copy, Debug, PartialEq, Eq)]
pub struct Started {
    pub job: JobNo,
    pub held: [u16; RESOURCES],
}

/// A place of zeros.
impl Default for Started {
    ghost use Rattle.station.specs.Arrays.{started_of_zeros};

    ghost is_default = { λ started. started ≡ started_of_zeros };

    fn default() -> Started
        ensures { result ≡ started_of_zeros }
    {
        Started {
            job: JobNo(0),
            held: [0; RESOURCES],
        }
    }
}

/// The station's state: its table, the started jobs from the lowest of the stack up to the running one, and the waiting jobs from the
/// head on. Entries past a count are zero. The fields are public: a state may be made by hand, and is tested before anything is done by it.
#[derive(Debug, Drop, PartialEq, Eq)]
pub struct State {
    pub table: Table,
    // Arrays with their counts beside them, as in `Table`.
    pub stack: [Started; JOBS],
    pub depth: u8,
    pub waiting: [JobNo; JOBS],
    pub waiting_count: u8,
}

/// A state of zeros.
impl Default for State {
    ghost use Rattle.station.specs.Arrays.{state_of_zeros};

    ghost is_default = { λ state. state ≡ state_of_zeros };

    fn default() -> State
        ensures { result ≡ state_of_zeros }
    {
        State {
            table: Table::default(),
            stack: [Started::default(); JOBS],
            depth: 0,
            waiting: [JobNo(0); JOBS],
            waiting_count: 0,
        }
    }
}
