// Applying an event to a state that is kept as bytes.
ghost use Rattle.std.specs.Prelude.{◌≡◌, length};
ghost use Rattle.tagged_event.specs.Form.{event_reading};
ghost use Rattle.state_form.specs.Form.{state_bytes, state_size};
ghost use Rattle.driver.specs.Numbers.{job_in_32};
ghost use Rattle.driver.specs.Answers.{applied};

use crate::numbers::{job_number, number};
use state_form::{get_state, put_state};
use station::State;
use tagged_event::read_event;

/// Applies the event at the front of the bytes: the job started, 0 if none, or the refusal, which changes no byte of the state or the memory.
#[unsafe(no_mangle)]
pub extern "C" fn urzalinda_apply(state: &mut [u8], event: &[u8], memory: &mut [u8]) -> u32
    ensures answer { result ≡ job_in_32 (applied (event_reading event.now 0) state.old memory.old).answer }
    ensures state { state.new ≡ (applied (event_reading event.now 0) state.old memory.old).state }
    ensures memory { memory.new ≡ (applied (event_reading event.now 0) state.old memory.old).memory }
{
    let event = match read_event(event, 0) {
        Ok((event, _)) => event,
        Err(bad) => return number(bad.refusal),
    };
    let mut held = match get_state(state) {
        Ok(held) => held,
        Err(refusal) => return number(refusal),
    };
    let started = held.apply(event, memory);
    if started.is_ok() {
        store(&held, state);
    }
    job_number(started)
}

/// Stores a state over the bytes of another one.
fn store(state: &State, bytes: &mut [u8])
    requires { length bytes.old ≡ state_size }
    ensures { bytes.new ≡ state_bytes state.now }
{
    _ = put_state(state, bytes);
}
