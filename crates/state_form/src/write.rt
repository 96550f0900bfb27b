// Storing a state.
ghost use Rattle.std.specs.Prelude.{◌≡◌, length, Ok};
ghost use Rattle.std.proofs.lemmas.List.Edits.{sets};
ghost use Rattle.table.specs.Judging.{judged_number};
ghost use Rattle.state_form.specs.Form.{state_bytes, state_size, put_answer, put_out, get_answer, StateFull};

use crate::item::put_items;
use crate::{
    DEPTH_AT, JOB_COUNT_AT, JOBS_AT, RESOURCE_COUNT_AT, STACK_AT, STATE_BYTES, UNITS_AT,
    WAITING_AT, WAITING_COUNT_AT,
};
use field::Stored;
use station::State;
use table::Refusal;

/// Stores a state as bytes: 6 if the buffer is not as long as a state's bytes; then no byte of it is changed.
pub fn put_state(state: &State, out: &mut [u8]) -> Result<(), Refusal>
    ensures answer { judged_number result ≡ put_answer (length out.old) }
    ensures bytes { out.new ≡ put_out state.now out.old }
    // What is stored is read back as it was.
    ensures back { judged_number result ≡ 0 → get_answer out.new ≡ Ok state.now }
{
    if out.len() != STATE_BYTES {
        return Err(Refusal::BufferTooShort);
    }
    put_all(state, out);
    Ok(())
}

/// Every field in its place.
fn put_all(state: &State, out: &mut [u8])
    requires { length out.old ≡ state_size }
    ensures full { StateFull state.now }
    ensures width { length (state_bytes state.now) ≡ state_size }
    ensures bytes { out.new ≡ sets out.old 0 (state_bytes state.now) }
{
    state.table.size.put(out, 0);
    put_items(&state.table.units, out, UNITS_AT);
    state.table.resource_count.put(out, RESOURCE_COUNT_AT);
    put_items(&state.table.jobs, out, JOBS_AT);
    state.table.job_count.put(out, JOB_COUNT_AT);
    put_items(&state.stack, out, STACK_AT);
    state.depth.put(out, DEPTH_AT);
    put_items(&state.waiting, out, WAITING_AT);
    state.waiting_count.put(out, WAITING_COUNT_AT);
}
