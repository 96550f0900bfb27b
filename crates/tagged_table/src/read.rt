// Reading a table: the walk over its fields.
ghost use Rattle.std.specs.Prelude.{◌≡◌, ℕ, ◌≤◌, ◌<◌, length, drop, Result, Ok, Err, OnOk};
ghost use Rattle.rules.specs.Choice.{pick};
ghost use Rattle.rules.specs.Limits.{max_resources, max_jobs};
ghost use Rattle.rules.specs.Table.{job_good};
ghost use Rattle.table.specs.Arrays.{table_of, arrays_of, table_of_zeros};
ghost use Rattle.tagged_table.specs.Form.{may_follow, length_wanted, table_reading};
ghost use Rattle.tagged_table.specs.Tags.{number_of_tag, number_of_last};
ghost use Rattle.tagged_table.specs.Answers.{end_said, end_of, table_in, Answers};
ghost use Rattle.tagged_table.specs.Parts.{job_answer, end_answer, Stores};

use crate::tag::Tag;
use crate::{TableRead, VERSION};
use field::{Head, Place};
use rules::{JOBS, RESOURCES, UNITS};
use table::{Job, Level, Refusal, RefusedAt, Table};

/// A refusal, at its place.
fn refused<T>(refusal: Refusal, place: usize) -> Result<T, RefusedAt>
    ensures { result ≡ Err (record { refusal = refusal; place = place }) }
{
    Err(RefusedAt { refusal, place })
}

/// Whether a field with this tag may stand after the last one, with so many resources and jobs read.
fn may_follow(last: Option<Tag>, resources: u8, jobs: u8, tag: Tag) -> bool
    ensures { result ≡ may_follow (number_of_last last) resources jobs (number_of_tag tag) }
{
    match tag {
        Tag::Version => last.is_none(),
        Tag::Size => matches!(last, Some(Tag::Version)),
        Tag::Resource => {
            matches!(last, Some(Tag::Size | Tag::Resource)) && usize::from(resources) < RESOURCES
        }
        Tag::Job => {
            matches!(last, Some(Tag::Size | Tag::Resource | Tag::Job)) && usize::from(jobs) < JOBS
        }
        Tag::End => matches!(last, Some(Tag::Job)),
    }
}

/// The length that a field with this tag has, with so many resources read.
fn length_wanted(resources: u8, tag: Tag) -> u16
    ensures { result ≡ length_wanted resources (number_of_tag tag) }
{
    match tag {
        Tag::Version => 1,
        Tag::Size | Tag::Resource => 2,
        Tag::Job => 3 + 2 * u16::from(resources),
        Tag::End => 0,
    }
}

/// The job in the value of its field, which stands at `place`: 4 if its level, its frame or a need is out of range.
fn read_job(units: &[u16], value: &Place, place: usize) -> Result<Job, RefusedAt>
    requires { length units.now ≤ max_resources }
    ensures { result ≡ job_answer units.now (drop value.now.at value.now.bytes.now) place }
{
    let mut job = Job {
        level: Level(value.byte(0)),
        frame: value.pair(1),
        needs: [0; RESOURCES],
    };
    if job.level.0 == 0 || job.frame == 0 {
        return refused(Refusal::ValueOutOfRange, place);
    }
    'needs: {
        for (r, &most) in units.iter().enumerate() {
            let need = value.pair(3 + 2 * r as u16);
            if most < need {
                break 'needs refused(Refusal::ValueOutOfRange, place);
            }
            job.needs[r] = need;
        }
        Ok(job)
    }
}

/// Stores what a field's value gives, for a field that stands at `place`: 4 if it is out of range.
fn store(table: &mut Table, tag: Tag, value: &Place, place: usize) -> Result<(), RefusedAt>
    requires room_for_units { number_of_tag tag ≡ 3 → table.old.resource_count < max_resources }
    requires room_for_a_job { number_of_tag tag ≡ 4 → table.old.job_count < max_jobs }
    requires few { table.old.resource_count ≤ max_resources }
    ensures { Stores table.old table.new (number_of_tag tag) (drop value.now.at value.now.bytes.now) place result }
{
    match tag {
        Tag::Version => {
            if value.byte(0) != VERSION {
                return refused(Refusal::ValueOutOfRange, place);
            }
        }
        Tag::Size => {
            let size = value.pair(0);
            if size == 0 {
                return refused(Refusal::ValueOutOfRange, place);
            }
            table.size = size;
        }
        Tag::Resource => {
            let units = value.pair(0);
            if units == 0 || units > UNITS {
                return refused(Refusal::ValueOutOfRange, place);
            }
            table.units[usize::from(table.resource_count)] = units;
            table.resource_count += 1;
        }
        Tag::Job => {
            let job = read_job(table.listed_units(), value, place)?;
            table.jobs[usize::from(table.job_count)] = job;
            table.job_count += 1;
        }
        Tag::End => {}
    }
    Ok(())
}

/// What the end field answers, with the place after it: 5 if the worst stack is greater than the stack size.
fn ended(table: &Table, place: usize) -> Result<usize, RefusedAt>
    ensures { result ≡ end_answer (table_of table.now) place }
{
    if table.largest_frames() > u32::from(table.size) {
        return refused(Refusal::StackTooSmall, place);
    }
    Ok(place)
}

/// The walk over the fields: the first bad one decides. The table is all zeros before it.
fn walk(input: &[u8], table: &mut Table) -> Result<usize, RefusedAt>
    requires { table.old ≡ table_of_zeros }
    ensures end { end_said result ≡ end_of (table_reading input.now) }
    ensures read { OnOk result (table.new ≡ arrays_of (table_in (table_reading input.now))) }
{
    let mut last = None;
    let mut at = 0;
    'walk: loop {
        let field = Place { bytes: input, at };
        let Some(Head { tag, length }) = field.header() else {
            break 'walk refused(Refusal::InputEnds, at);
        };
        let Ok(tag) = Tag::try_from(tag) else {
            break 'walk refused(Refusal::WrongTagOrCount, at);
        };
        if !may_follow(last, table.resource_count, table.job_count, tag) {
            break 'walk refused(Refusal::WrongTagOrCount, at);
        }
        if length != length_wanted(table.resource_count, tag) {
            break 'walk refused(Refusal::WrongLength, at);
        }
        let Some(start) = field.value(length) else {
            break 'walk refused(Refusal::InputEnds, at);
        };
        let value = Place {
            bytes: input,
            at: start,
        };
        if let Err(bad) = store(table, tag, &value, at) {
            break 'walk Err(bad);
        }
        if let Tag::End = tag {
            break 'walk ended(table, start);
        }
        last = Some(tag);
        at = start + usize::from(length);
    }
}

/// Reads the table at the front of the input. Bytes after its end field are left unread; a refused reading hands back a table of zeros.
pub fn read_table(input: &[u8]) -> TableRead
    ensures { Answers result (table_reading input.now) }
{
    let mut table = Table::default();
    let end = walk(input, &mut table);
    if end.is_err() {
        table = Table::default();
    }
    TableRead { end, table }
}
