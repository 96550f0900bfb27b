// Replays the log on standard input, and prints what came of it: a line for the table, then one for each event. docs/RULES.md says which.
#![tactic(auto)]

use report::{MOST_BYTES, replay, room_for};
use std::io;
use std::io::{Read, Write};

// One byte more than is replayed is enough to see that an input is too long.
const LOOKED_AT: usize = MOST_BYTES + 1;

fn main(rt: HostRuntime) -> io::Result<()> {
    let mut input = Vec::new(rt.alloc());
    rt.stdin().take(LOOKED_AT as u64).read_to_end(&mut input)?;
    let mut out = vec![in rt.alloc(); 0; room_for(input.len())]?;
    // The buffer has the room that is needed, so this is not refused.
    let count = replay(input.as_slice(), out.as_mut_slice()).unwrap_or(0);
    rt.stdout()
        .write_all(out.as_slice().get(..count).unwrap_or(&[]))
}
