// What is read from a state.

use station::State;
use std::alloc::AllocError;
use table::{JobNo, Level, Refusal};

/// Appends the running job, the system ceiling, the number waiting and the waiting word.
pub(crate) fn put_readers(out: &mut String, state: &State) -> Result<(), AllocError> {
    match state.running() {
        Ok(running) => put_job(out, running)?,
        Err(refusal) => put_refusal(out, refusal)?,
    }
    put_level(out, state.system_ceiling())?;
    match state.number_waiting() {
        Ok(number) => write!(out, " {number}")?,
        Err(refusal) => put_refusal(out, refusal)?,
    }
    match state.waiting_word() {
        Ok(word) => write!(out, " {word:08x}"),
        Err(refusal) => put_refusal(out, refusal),
    }
}

/// Appends whether the state is well formed.
pub(crate) fn put_well_formed(out: &mut String, state: &State) -> Result<(), AllocError> {
    out.push_str(if state.is_well_formed() {
        " well"
    } else {
        " ill"
    })
}

/// Appends a job, or that there is none.
pub(crate) fn put_job(out: &mut String, job: Option<JobNo>) -> Result<(), AllocError> {
    match job {
        Some(job) => write!(out, " {}", job.0),
        None => out.push_str(" -"),
    }
}

/// Appends a ceiling, or the refusal.
pub(crate) fn put_level(
    out: &mut String,
    answer: Result<Level, Refusal>,
) -> Result<(), AllocError> {
    match answer {
        Ok(level) => write!(out, " {}", level.0),
        Err(refusal) => put_refusal(out, refusal),
    }
}

/// Appends the number that a reader is refused with.
fn put_refusal(out: &mut String, refusal: Refusal) -> Result<(), AllocError> {
    write!(out, " r{}", u8::from(refusal))
}
