// Runs the scheduler over the records on standard input, and prints a line for each: what was answered, what is read from the state after
// it, and a digest of the whole state and the whole stack memory. outside/make_station_vectors.py makes the records and the lines that are
// expected, and says what each consists of.
#![tactic(auto)]

mod by_hand;
mod digest;
mod readers;
mod under_test;

use field::{Head, Place};
use std::alloc::{AllocError, Global};
use std::io;
use std::io::Read;
use under_test::UnderTest;

/// A record: its kind, and its bytes; and all of the input from its kind on, as which an event is read.
#[derive(Clone, Copy)]
struct Record<'a> {
    kind: u8,
    bytes: &'a [u8],
    from_kind: &'a [u8],
}

/// The record at the front of some bytes, and what stands behind it.
fn first_record(from_kind: &[u8]) -> Option<(Record<'_>, &[u8])> {
    let front = Place {
        bytes: from_kind,
        at: 0,
    };
    let Head { tag, length } = front.header()?;
    let start = front.value(length)?;
    let (bytes, behind) = from_kind
        .get(start..)?
        .split_at_checked(usize::from(length))?;
    let record = Record {
        kind: tag,
        bytes,
        from_kind,
    };
    Some((record, behind))
}

/// Does what a record says, and appends its line.
fn put_line(
    alloc: Global,
    out: &mut String,
    station: &mut UnderTest,
    record: &Record,
) -> Result<(), AllocError> {
    match record.kind {
        1 => station.make_fresh(alloc, out, record.bytes)?,
        2 => station.hold_table(out, record.bytes)?,
        3 => station.hold_state(out, record.bytes)?,
        4 => station.lend(alloc, out, record.bytes)?,
        5 => station.ask(out, record.bytes)?,
        _ => station.apply(out, record.from_kind)?,
    }
    station.put_state(out)
}

/// The lines of all records. There are no more of them than bytes, since each takes at least the three of its kind and length.
fn lines(alloc: Global, input: &[u8]) -> Result<String, AllocError> {
    let mut out = String::new(alloc);
    let mut station = UnderTest::new(alloc);
    let mut rest = input;
    for _ in 0..input.len() {
        let Some((record, behind)) = first_record(rest) else {
            break;
        };
        put_line(alloc, &mut out, &mut station, &record)?;
        rest = behind;
    }
    if !rest.is_empty() {
        out.push_str("a record is cut\n")?;
    }
    Ok(out)
}

fn main(rt: HostRuntime) -> io::Result<()> {
    let mut input = Vec::new(rt.alloc());
    rt.stdin().read_to_end(&mut input)?;
    rt.print(lines(rt.alloc(), input.as_slice())?)
}
