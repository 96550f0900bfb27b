// A station's table in its tagged form: reading one and writing one.
#![tactic(auto)]

mod read;
mod tag;
mod write;

pub use read::read_table;
use table::{RefusedAt, Table};
pub use write::write_table;

/// What reading answers: how it ended, with the bytes that it took, and the table.
#[derive(Debug, Drop, PartialEq, Eq)]
pub struct TableRead {
    pub end: Result<usize, RefusedAt>,
    // Beside the end, and not in its `Ok`: a refused reading hands back a table of zeros (`Answers.table`, specs/Answers).
    pub table: Table,
}

// The version that is read and written.
const VERSION: u8 = 1;
