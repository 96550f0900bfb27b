// A table, read from bytes, and its fresh state.
ghost use Rattle.std.specs.Prelude.{◌≡◌, length};
ghost use Rattle.tagged_table.specs.Form.{table_reading};
ghost use Rattle.driver.specs.Numbers.{in_64};
ghost use Rattle.driver.specs.Answers.{table_bytes_taken, stopped_at, fresh_answer, fresh_out};

use crate::numbers::{done, number, refused};
use state_form::put_state;
use station::State;
use tagged_table::read_table;

/// How many bytes the table at the front of the input takes, or the refusal.
#[unsafe(no_mangle)]
pub extern "C" fn urzalinda_read_table(input: &[u8]) -> u64
    ensures { result ≡ in_64 (table_bytes_taken (table_reading input.now)) }
{
    match read_table(input).end {
        Ok(bytes) => bytes as u64,
        Err(bad) => refused(bad.refusal),
    }
}

/// Where the reading of the table stopped: at the refused field, or else behind the table.
#[unsafe(no_mangle)]
pub extern "C" fn urzalinda_refused_at(input: &[u8]) -> u64
    ensures { result ≡ stopped_at (table_reading input.now) }
{
    match read_table(input).end {
        Ok(bytes) => bytes as u64,
        Err(bad) => bad.place as u64,
    }
}

/// Stores the fresh state of the table at the front of the input: 0, or the refusal, which changes no byte.
#[unsafe(no_mangle)]
pub extern "C" fn urzalinda_fresh(table: &[u8], state: &mut [u8]) -> u32
    ensures answer { result ≡ fresh_answer (table_reading table.now) (length state.old) }
    ensures state { state.new ≡ fresh_out (table_reading table.now) state.old }
{
    let read = read_table(table);
    if let Err(bad) = read.end {
        return number(bad.refusal);
    }
    let fresh = State::fresh(read.table);
    done(put_state(&fresh.state, state))
}
