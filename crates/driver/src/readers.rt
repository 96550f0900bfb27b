// What is read from a state that is kept as bytes.
ghost use Rattle.std.specs.Prelude.{◌≡◌};
ghost use Rattle.station.specs.Reading.{running_answer, system_ceiling_answer, ceiling_answer, waiting_answer, word_answer};
ghost use Rattle.state_form.specs.Form.{get_answer};
ghost use Rattle.driver.specs.Numbers.{in_32, in_64, job_in_32};
ghost use Rattle.driver.specs.Answers.{said_of};

use crate::numbers::{count_number, job_number, level_number, number, refused, word_number};
use state_form::get_state;

/// The running job, 0 if nothing runs, or the refusal.
#[unsafe(no_mangle)]
pub extern "C" fn urzalinda_running(state: &[u8]) -> u32
    ensures { result ≡ job_in_32 (said_of (get_answer state.now) running_answer) }
{
    match get_state(state) {
        Ok(state) => job_number(state.running()),
        Err(refusal) => number(refusal),
    }
}

/// The system ceiling, or the refusal.
#[unsafe(no_mangle)]
pub extern "C" fn urzalinda_system_ceiling(state: &[u8]) -> u32
    ensures { result ≡ in_32 (said_of (get_answer state.now) system_ceiling_answer) }
{
    match get_state(state) {
        Ok(state) => level_number(state.system_ceiling()),
        Err(refusal) => number(refusal),
    }
}

/// The ceiling of a resource, or the refusal.
#[unsafe(no_mangle)]
pub extern "C" fn urzalinda_ceiling(state: &[u8], resource: u8) -> u32
    ensures { result ≡ in_32 (said_of (get_answer state.now) (λ s. ceiling_answer s resource)) }
{
    match get_state(state) {
        Ok(state) => level_number(state.ceiling(resource)),
        Err(refusal) => number(refusal),
    }
}

/// The number waiting, or the refusal.
#[unsafe(no_mangle)]
pub extern "C" fn urzalinda_number_waiting(state: &[u8]) -> u32
    ensures { result ≡ in_32 (said_of (get_answer state.now) waiting_answer) }
{
    match get_state(state) {
        Ok(state) => count_number(state.number_waiting()),
        Err(refusal) => number(refusal),
    }
}

/// The waiting word, or the refusal.
#[unsafe(no_mangle)]
pub extern "C" fn urzalinda_waiting_word(state: &[u8]) -> u64
    ensures { result ≡ in_64 (said_of (get_answer state.now) word_answer) }
{
    match get_state(state) {
        Ok(state) => word_number(state.waiting_word()),
        Err(refusal) => refused(refusal),
    }
}
