// What replay prints: the lines of a table, of events, and of what is refused, as bytes in lent memory.
#![tactic(auto)]

mod lines;
mod log;
mod words;

pub use log::{MOST_BYTES, replay, room_for};
