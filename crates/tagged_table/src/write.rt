// Writing a table, field after field, into the front of the output.
ghost use Rattle.std.specs.Prelude.{◌≡◌, ℕ, ◌+◌, ◌*◌, ◌≤◌, length, map};
ghost use Rattle.std.proofs.lemmas.List.Edits.{sets};
ghost use Rattle.rules.specs.Limits.{max_resources};
ghost use Rattle.rules.specs.Table.{job_count, resource_count};
ghost use Rattle.table.specs.Arrays.{job_in, table_of};
ghost use Rattle.table.specs.Refusals.{in_numbers};
ghost use Rattle.table.specs.Judging.{table_judged};
ghost use Rattle.field.specs.Field.{two, field};
ghost use Rattle.tagged_table.specs.Form.{each, resource_bytes, job_bytes, table_bytes};
ghost use Rattle.tagged_table.specs.Answers.{write_answer, write_out};

use crate::VERSION;
use crate::tag::Tag;
use field::{Head, Stored};
use table::{Job, Refusal, Table};

/// A field of a number in two bytes.
fn put_number(out: &mut [u8], at: usize, tag: u8, number: u16)
    requires { at + 5 ≤ length out.old }
    ensures { out.new ≡ sets out.old at (field tag (two number)) }
{
    Head { tag, length: 2 }.put(out, at);
    number.put(out, at + 3);
}

/// A field for each resource; the place after them.
fn put_resources(units: &[u16], out: &mut [u8], at: usize) -> usize
    requires { at + 5 * length units.now ≤ length out.old }
    ensures end { result ≡ at + 5 * length units.now }
    ensures bytes { out.new ≡ sets out.old at (each resource_bytes units.now) }
{
    let mut end = at;
    for &number in units {
        put_number(out, end, Tag::Resource as u8, number);
        end += 5;
    }
    end
}

/// The needs, one after the other.
fn put_needs(needs: &[u16], out: &mut [u8], at: usize)
    requires { at + 2 * length needs.now ≤ length out.old }
    ensures { out.new ≡ sets out.old at (each two needs.now) }
{
    let mut end = at;
    for &need in needs {
        need.put(out, end);
        end += 2;
    }
}

/// A job's field, with its needs of so many resources.
fn put_job(job: &Job, resources: u8, out: &mut [u8], at: usize)
    requires few { resources ≤ max_resources }
    requires room { at + (6 + 2 * resources) ≤ length out.old }
    ensures length { length (job_bytes (job_in resources job.now)) ≡ 6 + 2 * resources }
    ensures bytes { out.new ≡ sets out.old at (job_bytes (job_in resources job.now)) }
{
    let needs = &job.needs[..usize::from(resources)];
    let length = 3 + 2 * u16::from(resources);
    Head {
        tag: Tag::Job as u8,
        length,
    }
    .put(out, at);
    job.level.0.put(out, at + 3);
    job.frame.put(out, at + 4);
    put_needs(needs, out, at + 6);
}

/// A field for each job; the place after them.
fn put_jobs(jobs: &[Job], resources: u8, out: &mut [u8], at: usize) -> usize
    requires few { resources ≤ max_resources }
    requires room { at + (6 + 2 * resources) * length jobs.now ≤ length out.old }
    ensures end { result ≡ at + (6 + 2 * resources) * length jobs.now }
    ensures bytes { out.new ≡ sets out.old at (each job_bytes (map (job_in resources) jobs.now)) }
{
    let size = 6 + 2 * usize::from(resources);
    let mut end = at;
    for job in jobs {
        put_job(job, resources, out, end);
        end += size;
    }
    end
}

/// How many bytes a table takes that could be written, and that its counts are those of what is listed.
fn table_length(table: &Table) -> usize
    requires { table_judged table.now ≡ 0 }
    ensures bytes { result ≡ length (table_bytes (table_of table.now)) }
    ensures sum { result ≡ 12 + 5 * table.now.resource_count + (6 + 2 * table.now.resource_count) * table.now.job_count }
    ensures few { table.now.resource_count ≤ max_resources }
    ensures resources { resource_count (table_of table.now) ≡ table.now.resource_count }
    ensures jobs { job_count (table_of table.now) ≡ table.now.job_count }
{
    let resources = usize::from(table.resource_count);
    let jobs = usize::from(table.job_count);
    12 + 5 * resources + (6 + 2 * resources) * jobs
}

/// Writes a table into the front of the output: the number of bytes. A refused write changes no byte.
pub fn write_table(table: &Table, out: &mut [u8]) -> Result<usize, Refusal>
    ensures answer { in_numbers result ≡ write_answer table.now (length out.old) }
    ensures bytes { out.new ≡ write_out table.now out.old }
{
    table.judge()?;
    let length = table_length(table);
    if out.len() < length {
        return Err(Refusal::BufferTooShort);
    }
    Head {
        tag: Tag::Version as u8,
        length: 1,
    }
    .put(out, 0);
    VERSION.put(out, 3);
    put_number(out, 4, Tag::Size as u8, table.size);
    let end = put_resources(table.listed_units(), out, 9);
    let end = put_jobs(table.listed_jobs(), table.resource_count, out, end);
    Head {
        tag: Tag::End as u8,
        length: 0,
    }
    .put(out, end);
    Ok(length)
}
