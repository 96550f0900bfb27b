// Logs that are longer than a record, and the buffers that the output of a log needs.

use field::Place;
use report::MOST_BYTES;
use std::alloc::{AllocError, Global};

// The buffer of a log: so many bytes for each of its bytes, and so many besides.
const ROOM_FOR_A_BYTE: usize = 12;

const ROOM_BESIDES: usize = 96;

// Where the parts of a long log stand in a record, behind its length.
const FRONT_LENGTH_AT: usize = 4;

const FRONT_AT: usize = 6;

/// The length of the buffer that the output of a log surely fits.
pub(crate) fn room_for(log: &[u8]) -> usize {
    ROOM_FOR_A_BYTE * log.len().min(MOST_BYTES) + ROOM_BESIDES
}

/// The length in the four bytes at the front of a record.
pub(crate) fn length_in(record: &[u8]) -> usize {
    let front = Place {
        bytes: record,
        at: 0,
    };
    usize::from(front.pair(0)) * 65536 + usize::from(front.pair(2))
}

/// The long log in a record: its front, and what follows the front again and again.
pub(crate) fn long_log(alloc: Global, record: &[u8]) -> Result<Vec<u8>, AllocError> {
    let front_length = Place {
        bytes: record,
        at: FRONT_LENGTH_AT,
    };
    let parts = record.get(FRONT_AT..).unwrap_or(&[]);
    let (front, again) = parts
        .split_at_checked(usize::from(front_length.pair(0)))
        .unwrap_or((parts, &[]));
    let bytes = front.iter().chain(again.iter().cycle());
    let mut log = Vec::new(alloc);
    for &byte in bytes.take(length_in(record)) {
        log.push(byte)?;
    }
    Ok(log)
}
