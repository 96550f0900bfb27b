// Runs the reading and the writing of tables and events over the records on standard input, and prints a line for each: what was answered,
// and whether the memory handed back or lent is as it has to be. outside/make_vectors.py makes the records and the lines that are expected,
// and says what each consists of.
#![tactic(auto)]

mod events;
mod tables;
mod written;

use field::{Head, Place};
use std::alloc::{AllocError, Global};
use std::io;
use std::io::Read;

/// A record: its kind, and its bytes.
#[derive(Clone, Copy)]
struct Record<'a> {
    kind: u8,
    bytes: &'a [u8],
}

/// The record at the front of some bytes, and what stands behind it.
fn first_record(bytes: &[u8]) -> Option<(Record<'_>, &[u8])> {
    let front = Place { bytes, at: 0 };
    let Head { tag, length } = front.header()?;
    let start = front.value(length)?;
    let (bytes, behind) = bytes.get(start..)?.split_at_checked(usize::from(length))?;
    Some((Record { kind: tag, bytes }, behind))
}

/// Appends the line of a record.
fn put_line(alloc: Global, out: &mut String, record: &Record) -> Result<(), AllocError> {
    match record.kind {
        1 => tables::put_read(out, record.bytes)?,
        2 => tables::put_write(alloc, out, record.bytes)?,
        3 => events::put_read(out, record.bytes)?,
        4 => events::put_write(alloc, out, record.bytes)?,
        _ => out.push_str("no such kind")?,
    }
    out.push_str("\n")
}

/// The lines of all records. There are no more of them than bytes, since each takes at least the three of its kind and length.
fn lines(alloc: Global, input: &[u8]) -> Result<String, AllocError> {
    let mut out = String::new(alloc);
    let mut rest = input;
    for _ in 0..input.len() {
        let Some((record, behind)) = first_record(rest) else {
            break;
        };
        put_line(alloc, &mut out, &record)?;
        rest = behind;
    }
    if !rest.is_empty() {
        out.push_str("a record is cut\n")?;
    }
    Ok(out)
}

fn main(rt: HostRuntime) -> io::Result<()> {
    let mut input = Vec::new(rt.alloc());
    rt.stdin().read_to_end(&mut input)?;
    rt.print(lines(rt.alloc(), input.as_slice())?)
}
