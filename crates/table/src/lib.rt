// The job table of a station as the programs hold it, and the refusals in words.
#![tactic(auto)]

ghost use Rattle.std.specs.Prelude.{◌≡◌};
ghost use Rattle.table.specs.Arrays.{Shaped};

use rules::{JOBS, RESOURCES};

mod judge;
mod listed;
mod worst;

/// A job's level. A level and a job's number are both one byte, in types of their own, so that neither is ever passed for the other.
#[derive(Clone, Copy, Debug, PartialEq, Eq, PartialOrd, Ord)]
pub struct Level(pub u8);

/// A job's number, from 0 in table order.
#[derive(Clone, Copy, Debug, PartialEq, Eq)]
pub struct JobNo(pub u8);

/// A job: its level, its frame (stack bytes), and its need of each resource.
#[derive(Clone, Copy, Debug, PartialEq, Eq)]
pub struct Job {
    pub level: Level,
    pub frame: u16,
    // An array, as those of `Table`, whose `resource_count` is its count.
    pub needs: [u16; RESOURCES],
}

/// A job of zeros. Written out, as that of `Table`: a derived `Default` says of an array that each element is a default, and no more.
impl Default for Job {
    ghost use Rattle.table.specs.Arrays.{job_of_zeros};

    ghost is_default = { λ job. job ≡ job_of_zeros };

    fn default() -> Job
        ensures { result ≡ job_of_zeros }
    {
        Job {
            level: Level(0),
            frame: 0,
            needs: [0; RESOURCES],
        }
    }
}

/// A table: the stack size, the units of each resource, the jobs. Entries past a count are zero.
#[derive(Debug, Drop, PartialEq, Eq)]
pub struct Table {
    pub size: u16,
    // Arrays with their counts beside them: a station has no heap, so no `Vec`; and `shape` takes, and `blank` (specs/Judging) refuses with 4,
    // tables with something past a count, which an `ArrayVec` can't hold.
    pub units: [u16; RESOURCES],
    pub resource_count: u8,
    pub jobs: [Job; JOBS],
    pub job_count: u8,
}

/// A table of zeros.
impl Default for Table {
    ghost use Rattle.table.specs.Arrays.{table_of_zeros};

    ghost is_default = { λ table. table ≡ table_of_zeros };

    fn default() -> Table
        ensures { result ≡ table_of_zeros }
    {
        Table {
            size: 0,
            units: [0; RESOURCES],
            resource_count: 0,
            jobs: [Job::default(); JOBS],
            job_count: 0,
        }
    }
}

/// Why something is refused, each with its number.
#[derive(Clone, Copy, Debug, PartialEq, Eq)]
pub enum Refusal {
    InputEnds = 1,
    WrongTagOrCount = 2,
    WrongLength = 3,
    ValueOutOfRange = 4,
    StackTooSmall = 5,
    BufferTooShort = 6,
    NotWellFormed = 10,
    WrongMemoryLength = 11,
    NoSuchJob = 12,
    AlreadyActive = 13,
    NotRunning = 14,
    NoSuchResource = 15,
    AmountZero = 16,
    AboveNeed = 17,
    AboveFree = 18,
    AboveHeld = 19,
    StillHolds = 20,
    HoldsNothing = 21,
}

impl From<Refusal> for u8 {
    ghost use Rattle.table.specs.Refusals.{number_of};

    ghost from_gives = { λ refusal number. number ≡ number_of refusal };

    fn from(refusal: Refusal) -> u8
        ensures { result ≡ number_of refusal }
    {
        refusal as u8
    }
}

/// Why a reading is refused, and the place.
#[derive(Clone, Copy, Debug, PartialEq, Eq)]
pub struct RefusedAt {
    pub refusal: Refusal,
    pub place: usize,
}

/// The same table, with what its types say of it, for a caller that has none of it. It takes the table and hands it back, since only what
/// is owned tells the lengths of its arrays.
pub fn shape(table: Table) -> Table
    ensures value { result ≡ table }
    ensures shaped { Shaped table }
{
    table
}
