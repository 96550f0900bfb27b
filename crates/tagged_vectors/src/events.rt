// The records of events: reading one, writing one.

use crate::written::{FILL, put_written};
use field::Place;
use std::alloc::{AllocError, Global};
use table::{JobNo, RefusedAt};
use tagged_event::{Event, read_event, write_event};

/// Appends what reading an event answers.
pub(crate) fn put_read(out: &mut String, record: &[u8]) -> Result<(), AllocError> {
    let at = number_at(record, 0);
    let input = record.get(2..).unwrap_or(&[]);
    match read_event(input, usize::from(at)) {
        Ok((event, next)) => {
            out.push_str("took ")?;
            put_event(out, &event)?;
            write!(out, "; next {next}")
        }
        Err(RefusedAt { refusal, place }) => {
            let number = u8::from(refusal);
            write!(out, "refused {number} at {place}")
        }
    }
}

/// Appends what writing an event answers.
pub(crate) fn put_write(alloc: Global, out: &mut String, record: &[u8]) -> Result<(), AllocError> {
    let room = number_at(record, 0);
    let mut buffer = vec![in alloc; FILL; usize::from(room)]?;
    let answer = write_event(&event_in(record), buffer.as_mut_slice());
    put_written(out, answer, buffer.as_slice())
}

/// Appends an event: its name, and its numbers.
fn put_event(out: &mut String, event: &Event) -> Result<(), AllocError> {
    match *event {
        Event::Arrive(job) => write!(out, "arrive {}", job.0),
        Event::Acquire {
            job,
            resource,
            amount,
        } => write!(out, "acquire {} {resource} {amount}", job.0),
        Event::Release {
            job,
            resource,
            amount,
        } => write!(out, "release {} {resource} {amount}", job.0),
        Event::Finish(job) => write!(out, "finish {}", job.0),
        Event::ReleaseAll(job) => write!(out, "release all {}", job.0),
    }
}

/// The event in a record: its number from 0, then job, resource and amount, behind the two bytes of the buffer's length.
fn event_in(record: &[u8]) -> Event {
    let place = Place {
        bytes: record,
        at: 2,
    };
    let job = JobNo(place.byte(1));
    let resource = place.byte(2);
    let amount = place.pair(3);
    match place.byte(0) {
        0 => Event::Arrive(job),
        1 => Event::Acquire {
            job,
            resource,
            amount,
        },
        2 => Event::Release {
            job,
            resource,
            amount,
        },
        3 => Event::Finish(job),
        _ => Event::ReleaseAll(job),
    }
}

/// The number in the two bytes at a place.
fn number_at(record: &[u8], at: usize) -> u16 {
    Place { bytes: record, at }.pair(0)
}
