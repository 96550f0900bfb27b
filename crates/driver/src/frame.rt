// The running job's frame in the stack memory, by a state that is kept as bytes.
ghost use Rattle.std.specs.Prelude.{◌≡◌, ◌≤◌, ◌-◌};
ghost use Rattle.state_form.specs.Form.{get_answer};
ghost use Rattle.station.specs.Frame.{part_between};
ghost use Rattle.driver.specs.Answers.{frame_of};

use state_form::get_state;

/// Where the frame starts in a stack memory of so many bytes; 0 if there is none.
#[unsafe(no_mangle)]
pub extern "C" fn urzalinda_frame_start(state: &[u8], memory_length: u64) -> u64
    ensures { result ≡ (frame_of (get_answer state.now) memory_length).start }
{
    frame(state, memory_length).0 as u64
}

/// The frame's length; 0 if there is none.
#[unsafe(no_mangle)]
pub extern "C" fn urzalinda_frame_length(state: &[u8], memory_length: u64) -> u64
    ensures { result ≡ (frame_of (get_answer state.now) memory_length).length }
{
    let (start, end) = frame(state, memory_length);
    (end - start) as u64
}

/// Where the frame starts and ends.
fn frame(state: &[u8], memory_length: u64) -> (usize, usize)
    ensures within { result.0 ≤ result.1 }
    ensures part { frame_of (get_answer state.now) memory_length ≡ part_between result.0 result.1 }
{
    match get_state(state) {
        Ok(state) => state.running_bytes(memory_length as usize),
        Err(_) => (0, 0),
    }
}
