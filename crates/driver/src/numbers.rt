// The one number that each exported function answers.
ghost use Rattle.std.specs.Prelude.{◌≡◌};
ghost use Rattle.table.specs.Refusals.{number_of, in_numbers};
ghost use Rattle.table.specs.Judging.{judged_number};
ghost use Rattle.station.specs.Reading.{job_said, level_said};
ghost use Rattle.driver.specs.Numbers.{refused, in_64, answered, in_32, job_in_32};

use table::{JobNo, Level, Refusal};

/// A refusal in 32 bits.
pub(crate) fn number(refusal: Refusal) -> u32
    ensures { result ≡ number_of refusal }
{
    u32::from(u8::from(refusal))
}

/// A refusal in 64 bits: above every answer.
pub(crate) fn refused(refusal: Refusal) -> u64
    ensures { result ≡ refused (number_of refusal) }
{
    (1 << 32) + u64::from(u8::from(refusal))
}

/// A number in 32 bits: above every refusal.
pub(crate) fn answered(number: u8) -> u32
    ensures { result ≡ answered number }
{
    256 + u32::from(number)
}

/// A job in 32 bits, 0 for none, or the refusal.
pub(crate) fn job_number(job: Result<Option<JobNo>, Refusal>) -> u32
    ensures { result ≡ job_in_32 (job_said job) }
{
    match job {
        Ok(Some(job)) => answered(job.0),
        Ok(None) => 0,
        Err(refusal) => number(refusal),
    }
}

/// A level, or the refusal.
pub(crate) fn level_number(level: Result<Level, Refusal>) -> u32
    ensures { result ≡ in_32 (level_said level) }
{
    match level {
        Ok(level) => answered(level.0),
        Err(refusal) => number(refusal),
    }
}

/// How many, or the refusal.
pub(crate) fn count_number(count: Result<u8, Refusal>) -> u32
    ensures { result ≡ in_32 (in_numbers count) }
{
    match count {
        Ok(count) => answered(count),
        Err(refusal) => number(refusal),
    }
}

/// A word, or the refusal.
pub(crate) fn word_number(word: Result<u32, Refusal>) -> u64
    ensures { result ≡ in_64 (in_numbers word) }
{
    match word {
        Ok(word) => u64::from(word),
        Err(refusal) => refused(refusal),
    }
}

/// 0, or the refusal.
pub(crate) fn done(made: Result<(), Refusal>) -> u32
    ensures { result ≡ judged_number made }
{
    match made {
        Ok(()) => 0,
        Err(refusal) => number(refusal),
    }
}
