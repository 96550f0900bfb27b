// Replaying a log.
ghost use Rattle.std.specs.Prelude.{◌≡◌, length};
ghost use Rattle.report.specs.Replay.{room_of, replay_answer, replay_out};
ghost use Rattle.driver.specs.Numbers.{in_64};

use crate::numbers::refused;

/// Writes the whole output of a replay of the input into the front of the output: how many bytes, or the refusal.
#[unsafe(no_mangle)]
pub extern "C" fn urzalinda_replay(input: &[u8], out: &mut [u8]) -> u64
    ensures answer { result ≡ in_64 (replay_answer input.now (length out.old)) }
    ensures bytes { out.new ≡ replay_out input.now out.old }
{
    match report::replay(input, out) {
        Ok(bytes) => bytes as u64,
        Err(refusal) => refused(refusal),
    }
}

/// How long a buffer has to be for the replay of so many bytes.
#[unsafe(no_mangle)]
pub extern "C" fn urzalinda_room(bytes: u64) -> u64
    ensures { result ≡ room_of bytes }
{
    report::room_for(bytes as usize) as u64
}
