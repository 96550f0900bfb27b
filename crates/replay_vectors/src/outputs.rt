// What replay answers, and what it left in the buffer that it was lent.

use crate::digest::digest_of;
use report::replay;
use std::alloc::{AllocError, Global};

// What every byte of a buffer is before a replay.
const FILL: u8 = 0xee;

// A longer output is not printed as a whole.
const LONGEST_WHOLE: usize = 2000;

/// Replays a log into a new buffer of a length, and appends how it ended.
pub(crate) fn put_output(
    alloc: Global,
    out: &mut String,
    log: &[u8],
    room: usize,
) -> Result<(), AllocError> {
    let mut buffer = vec![in alloc; FILL; room]?;
    match replay(log, buffer.as_mut_slice()) {
        Ok(count) => put_written(out, count, buffer.as_slice()),
        Err(refusal) => {
            let number = u8::from(refusal);
            writeln!(out, "refused {number}; buffer {}", kept(buffer.as_slice()))
        }
    }
}

/// Appends how many bytes were written, whether those behind them are as they were, and the text.
fn put_written(out: &mut String, count: usize, buffer: &[u8]) -> Result<(), AllocError> {
    let Some((written, rest)) = buffer.split_at_checked(count) else {
        return writeln!(out, "wrote {count} bytes, more than there are");
    };
    write!(out, "{count} bytes; rest {}", kept(rest))?;
    let Ok(text) = str::from_utf8(written) else {
        return out.push_str("; no text\n");
    };
    if count > LONGEST_WHOLE {
        writeln!(out, "; digest {:08x}", digest_of(written))?;
        return put_ends(out, text);
    }
    out.push_str("\n")?;
    out.push_str(text)
}

/// Appends the first and the last line of a text.
fn put_ends(out: &mut String, text: &str) -> Result<(), AllocError> {
    for line in [text.lines().next(), text.lines().last()] {
        writeln!(out, "{}", line.unwrap_or("no line"))?;
    }
    Ok(())
}

/// Whether these bytes are as they were before the replay.
fn kept(bytes: &[u8]) -> &'static str {
    if bytes.iter().all(|&byte| byte == FILL) {
        "kept"
    } else {
        "changed"
    }
}
