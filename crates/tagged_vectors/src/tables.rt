// The records of tables: reading one, writing one.
ghost use Rattle.std.specs.Prelude.{◌≤◌};

use crate::written::{FILL, put_written};
use field::Place;
use rules::{JOBS, RESOURCES};
use std::alloc::{AllocError, Global};
use table::{Job, Level, RefusedAt, Table};
use tagged_table::{read_table, write_table};

// Where the parts of a record stand whose table is to be written.
const SIZE_AT: u16 = 2;

const RESOURCE_COUNT_AT: usize = 4;

const UNITS_AT: usize = 5;

const JOB_COUNT_AT: usize = 21;

const JOBS_AT: usize = 22;

const JOB_BYTES: usize = 19;

/// Appends what reading a table answers.
pub(crate) fn put_read(out: &mut String, input: &[u8]) -> Result<(), AllocError> {
    let answer = read_table(input);
    match answer.end {
        Ok(took) => {
            write!(out, "took {took}; ")?;
            put_table(out, &answer.table)
        }
        Err(RefusedAt { refusal, place }) => {
            let number = u8::from(refusal);
            let zeros = zeros(answer.table == Table::default());
            write!(out, "refused {number} at {place}; table {zeros}")
        }
    }
}

/// Appends what writing a table answers, then its worst stack, then how it is judged.
pub(crate) fn put_write(alloc: Global, out: &mut String, record: &[u8]) -> Result<(), AllocError> {
    let front = Place {
        bytes: record,
        at: 0,
    };
    let mut buffer = vec![in alloc; FILL; usize::from(front.pair(0))]?;
    let table = table_in(record);
    let answer = write_table(&table, buffer.as_mut_slice());
    put_written(out, answer, buffer.as_slice())?;
    put_worst(out, &table)
}

/// Appends a table's worst stack, and 0 or the number that it is refused with.
fn put_worst(out: &mut String, table: &Table) -> Result<(), AllocError> {
    match table.worst_stack() {
        Ok(sum) => write!(out, "; worst {sum}")?,
        Err(refusal) => write!(out, "; worst refused {}", u8::from(refusal))?,
    }
    match table.judge() {
        Ok(()) => out.push_str("; judged 0"),
        Err(refusal) => write!(out, "; judged {}", u8::from(refusal)),
    }
}

/// Appends the entries up to the counts, and whether those past them are zero.
fn put_table(out: &mut String, table: &Table) -> Result<(), AllocError> {
    write!(out, "size {}; units", table.size)?;
    put_numbers(out, table.listed_units())?;
    for job in table.listed_jobs() {
        write!(out, "; job {} {}", job.level.0, job.frame)?;
        put_numbers(out, needs_of(job, table.resource_count))?;
    }
    write!(out, "; rest {}", zeros(rest_is_zero(table)))
}

/// Appends numbers, each behind a space.
fn put_numbers(out: &mut String, numbers: &[u16]) -> Result<(), AllocError> {
    for number in numbers {
        write!(out, " {number}")?;
    }
    Ok(())
}

/// A job's needs of so many resources.
fn needs_of(job: &Job, resources: u8) -> &[u16] {
    job.needs
        .get(..usize::from(resources))
        .unwrap_or(&job.needs)
}

/// Are the entries past the counts zero?
fn rest_is_zero(table: &Table) -> bool {
    let resources = usize::from(table.resource_count);
    let jobs = usize::from(table.job_count);
    all_zero(&table.units, resources)
        && table
            .listed_jobs()
            .iter()
            .all(|job| all_zero(&job.needs, resources))
        && table
            .jobs
            .iter()
            .skip(jobs)
            .all(|job| *job == Job::default())
}

/// Are the numbers zero, from a place on?
fn all_zero(numbers: &[u16], from: usize) -> bool {
    numbers.iter().skip(from).all(|&number| number == 0)
}

fn zeros(holds: bool) -> &'static str {
    if holds { "zeros" } else { "not zeros" }
}

/// The table in a record, its counts and what stands past them as they come.
fn table_in(record: &[u8]) -> Table {
    let front = Place {
        bytes: record,
        at: 0,
    };
    let mut table = Table::default();
    table.size = front.pair(SIZE_AT);
    table.resource_count = front.byte(RESOURCE_COUNT_AT);
    table.units = numbers_at(record, UNITS_AT);
    table.job_count = front.byte(JOB_COUNT_AT);
    for j in 0..JOBS {
        table.jobs[j] = job_at(record, JOBS_AT + JOB_BYTES * j);
    }
    table
}

/// The job that stands at a place.
fn job_at(record: &[u8], at: usize) -> Job
    requires { at ≤ 1000 }
{
    let place = Place { bytes: record, at };
    Job {
        level: Level(place.byte(0)),
        frame: place.pair(1),
        needs: numbers_at(record, at + 3),
    }
}

/// The eight numbers that stand at a place.
fn numbers_at(record: &[u8], at: usize) -> [u16; RESOURCES] {
    let place = Place { bytes: record, at };
    let mut numbers = [0; RESOURCES];
    for r in 0..RESOURCES {
        numbers[r] = place.pair(2 * r as u16);
    }
    numbers
}
