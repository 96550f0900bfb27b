// Tables and states made by hand: arrays and counts as a record has them, whatever they are.
ghost use Rattle.std.specs.Prelude.{◌≤◌};

use field::Place;
use rules::{JOBS, RESOURCES};
use station::{Started, State};
use table::{Job, JobNo, Level, Table};

// Where the parts of a table stand, from its start.
const RESOURCE_COUNT_AT: usize = 2;

const UNITS_AT: usize = 3;

const JOB_COUNT_AT: usize = 19;

const JOBS_AT: usize = 20;

const JOB_BYTES: usize = 19;

// Where the parts of a record of the stack and the waiting jobs stand.
const STACK_AT: usize = 1;

const STARTED_BYTES: usize = 17;

const WAITING_COUNT_AT: usize = STACK_AT + STARTED_BYTES * JOBS;

const WAITING_AT: usize = WAITING_COUNT_AT + 1;

/// The length of a memory, in the four bytes at the front of a record.
pub(crate) fn length_in(record: &[u8]) -> usize {
    let front = Place {
        bytes: record,
        at: 0,
    };
    usize::from(front.pair(0)) * 65536 + usize::from(front.pair(2))
}

/// The table that stands at a place of a record.
pub(crate) fn table_in(record: &[u8], at: usize) -> Table
    requires { at ≤ 1000 }
{
    let place = Place { bytes: record, at };
    let mut table = Table::default();
    table.size = place.pair(0);
    table.resource_count = place.byte(RESOURCE_COUNT_AT);
    table.units = numbers_at(record, at + UNITS_AT);
    table.job_count = place.byte(JOB_COUNT_AT);
    for j in 0..JOBS {
        table.jobs[j] = job_at(record, at + JOBS_AT + JOB_BYTES * j);
    }
    table
}

/// The job that stands at a place.
fn job_at(record: &[u8], at: usize) -> Job
    requires { at ≤ 2000 }
{
    let place = Place { bytes: record, at };
    Job {
        level: Level(place.byte(0)),
        frame: place.pair(1),
        needs: numbers_at(record, at + 3),
    }
}

/// Stores the stack and the waiting jobs in a record.
pub(crate) fn put_jobs(state: &mut State, record: &[u8]) {
    let front = Place {
        bytes: record,
        at: 0,
    };
    state.depth = front.byte(0);
    for place in 0..JOBS {
        state.stack[place] = started_at(record, STACK_AT + STARTED_BYTES * place);
    }
    state.waiting_count = front.byte(WAITING_COUNT_AT);
    put_waiting(state, record);
}

/// Stores the waiting jobs in a record.
fn put_waiting(state: &mut State, record: &[u8]) {
    let first = Place {
        bytes: record,
        at: WAITING_AT,
    };
    for place in 0..JOBS {
        state.waiting[place] = JobNo(first.byte(place));
    }
}

/// The started job that stands at a place.
fn started_at(record: &[u8], at: usize) -> Started
    requires { at ≤ 2000 }
{
    let place = Place { bytes: record, at };
    Started {
        job: JobNo(place.byte(0)),
        held: numbers_at(record, at + 1),
    }
}

/// The eight numbers that stand at a place.
fn numbers_at(record: &[u8], at: usize) -> [u16; RESOURCES] {
    let place = Place { bytes: record, at };
    let mut numbers = [0; RESOURCES];
    for r in 0..RESOURCES {
        numbers[r] = place.pair(2 * r as u16);
    }
    numbers
}
