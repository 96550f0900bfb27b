// Replays the logs of the records on standard input, and prints what each gave: the whole output, or of a long one its length, a digest, and
// its first and last line. outside/make_replay_vectors.py makes the records and the lines that are expected, and says what each consists of.
#![tactic(auto)]

mod digest;
mod logs;
mod outputs;

use field::{Head, Place};
use logs::{length_in, long_log, room_for};
use outputs::put_output;
use std::alloc::{AllocError, Global};
use std::io;
use std::io::Read;

// The bytes of a buffer's length at the front of a record.
const LENGTH_BYTES: usize = 4;

/// A record: its kind, and its bytes.
#[derive(Clone, Copy)]
struct Record<'a> {
    kind: u8,
    bytes: &'a [u8],
}

/// The record at the front of some bytes, and what stands behind it.
fn first_record(bytes: &[u8]) -> Option<(Record<'_>, &[u8])> {
    let front = Place { bytes, at: 0 };
    let Head { tag, length } = front.header()?;
    let start = front.value(length)?;
    let (bytes, behind) = bytes.get(start..)?.split_at_checked(usize::from(length))?;
    Some((Record { kind: tag, bytes }, behind))
}

/// Appends the lines of a record.
fn put_lines(alloc: Global, out: &mut String, record: &Record) -> Result<(), AllocError> {
    let behind_length = record.bytes.get(LENGTH_BYTES..).unwrap_or(&[]);
    match record.kind {
        1 => put_output(alloc, out, record.bytes, room_for(record.bytes)),
        2 => put_output(alloc, out, behind_length, length_in(record.bytes)),
        3 => {
            let log = long_log(alloc, record.bytes)?;
            put_output(alloc, out, log.as_slice(), room_for(log.as_slice()))
        }
        4 => {
            let log = long_log(alloc, behind_length)?;
            put_output(alloc, out, log.as_slice(), length_in(record.bytes))
        }
        _ => out.push_str("no such kind\n"),
    }
}

/// The lines of all records. There are no more of them than bytes, since each takes at least the three of its kind and length.
fn lines(alloc: Global, input: &[u8]) -> Result<String, AllocError> {
    let mut out = String::new(alloc);
    let mut rest = input;
    for _ in 0..input.len() {
        let Some((record, behind)) = first_record(rest) else {
            break;
        };
        put_lines(alloc, &mut out, &record)?;
        rest = behind;
    }
    if !rest.is_empty() {
        out.push_str("a record is cut\n")?;
    }
    Ok(out)
}

fn main(rt: HostRuntime) -> io::Result<()> {
    let mut input = Vec::new(rt.alloc());
    rt.stdin().read_to_end(&mut input)?;
    rt.print(lines(rt.alloc(), input.as_slice())?)
}
