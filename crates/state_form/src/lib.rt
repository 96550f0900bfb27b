// A station's state as bytes, of one length whatever the table, so that a caller in another language keeps it.
#![tactic(auto)]

mod item;
mod read;
mod write;

ghost use Rattle.std.specs.Prelude.{◌≡◌};
ghost use Rattle.state_form.specs.Form.{state_size};

pub use read::get_state;
use rules::{JOBS, RESOURCES};
pub use write::put_state;

// Where each part of the bytes stands.
const JOB_BYTES: usize = 3 + 2 * RESOURCES;

const STARTED_BYTES: usize = 1 + 2 * RESOURCES;

const UNITS_AT: usize = 2;

const RESOURCE_COUNT_AT: usize = UNITS_AT + 2 * RESOURCES;

const JOBS_AT: usize = RESOURCE_COUNT_AT + 1;

const JOB_COUNT_AT: usize = JOBS_AT + JOB_BYTES * JOBS;

const STACK_AT: usize = JOB_COUNT_AT + 1;

const DEPTH_AT: usize = STACK_AT + STARTED_BYTES * JOBS;

const WAITING_AT: usize = DEPTH_AT + 1;

const WAITING_COUNT_AT: usize = WAITING_AT + JOBS;

/// How many bytes a state takes.
pub const STATE_BYTES: usize = WAITING_COUNT_AT + 1;

/// The number of the code is that of the definitions.
fn limits() -> usize
    ensures { result ≡ state_size }
{
    STATE_BYTES
}
