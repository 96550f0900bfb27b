// What the two writers answer, and what they left in the buffer that they were lent.

use std::alloc::AllocError;
use table::Refusal;

/// What every byte of a buffer is before a write.
pub(crate) const FILL: u8 = 0xee;

/// Appends how a write ended: the bytes written, or the refusal's number, and whether the other bytes are as they were.
pub(crate) fn put_written(
    out: &mut String,
    answer: Result<usize, Refusal>,
    buffer: &[u8],
) -> Result<(), AllocError> {
    match answer {
        Ok(count) => {
            let Some((written, rest)) = buffer.split_at_checked(count) else {
                return write!(out, "wrote {count} bytes, more than there are");
            };
            out.push_str("bytes ")?;
            put_hex(out, written)?;
            write!(out, "; rest {}", kept(rest))
        }
        Err(refusal) => {
            let number = u8::from(refusal);
            write!(out, "refused {number}; buffer {}", kept(buffer))
        }
    }
}

/// Whether these bytes are as they were before the write.
fn kept(bytes: &[u8]) -> &'static str {
    if bytes.iter().all(|&byte| byte == FILL) {
        "kept"
    } else {
        "changed"
    }
}

/// Appends bytes, each as two hex digits.
fn put_hex(out: &mut String, bytes: &[u8]) -> Result<(), AllocError> {
    for byte in bytes {
        write!(out, "{byte:02x}")?;
    }
    Ok(())
}
