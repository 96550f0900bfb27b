// Reading a state.
ghost use Rattle.std.specs.Prelude.{◌≡◌, length};
ghost use Rattle.table.specs.Refusals.{in_numbers};
ghost use Rattle.state_form.specs.Form.{state_read, state_size, get_answer};

use crate::item::read_items;
use crate::{
    DEPTH_AT, JOB_COUNT_AT, JOBS_AT, RESOURCE_COUNT_AT, STACK_AT, STATE_BYTES, UNITS_AT,
    WAITING_AT, WAITING_COUNT_AT,
};
use field::Place;
use station::State;
use table::Refusal;

/// Reads a state that was stored as bytes: 10 for bytes of another length. Whether it is well formed is tested where it is used.
pub fn get_state(bytes: &[u8]) -> Result<State, Refusal>
    ensures { in_numbers result ≡ get_answer bytes.now }
{
    if bytes.len() != STATE_BYTES {
        return Err(Refusal::NotWellFormed);
    }
    Ok(get_all(bytes))
}

/// Every field from its place.
fn get_all(bytes: &[u8]) -> State
    requires { length bytes.now ≡ state_size }
    ensures { result ≡ state_read bytes.now }
{
    let whole = Place { bytes, at: 0 };
    let mut state = State::default();
    state.table.size = whole.pair(0);
    read_items(bytes, UNITS_AT, &mut state.table.units);
    state.table.resource_count = whole.byte(RESOURCE_COUNT_AT);
    read_items(bytes, JOBS_AT, &mut state.table.jobs);
    state.table.job_count = whole.byte(JOB_COUNT_AT);
    read_items(bytes, STACK_AT, &mut state.stack);
    state.depth = whole.byte(DEPTH_AT);
    read_items(bytes, WAITING_AT, &mut state.waiting);
    state.waiting_count = whole.byte(WAITING_COUNT_AT);
    state
}
