// The digest of a state and a stack memory: the 32-bit FNV-1a over all of their bytes, numbers with the high byte first.

use station::State;
use table::Table;

// The digest of no bytes, and what it is multiplied with at each byte.
const START: u32 = 0x811c_9dc5;

const FACTOR: u32 = 0x0100_0193;

/// The digest of the bytes so far.
#[derive(Clone, Copy)]
pub(crate) struct Digest(pub(crate) u32);

impl Digest {
    /// The digest of a state and a memory.
    pub(crate) fn of(state: &State, memory: &[u8]) -> Digest {
        Digest(START)
            .with_table(&state.table)
            .with_jobs(state)
            .with_bytes(memory)
    }

    /// The same with one more byte.
    fn with_byte(self, byte: u8) -> Digest {
        Digest((self.0 ^ u32::from(byte)).wrapping_mul(FACTOR))
    }

    /// The same with more bytes.
    fn with_bytes(self, bytes: &[u8]) -> Digest {
        bytes
            .iter()
            .fold(self, |digest, &byte| digest.with_byte(byte))
    }

    /// The same with a number.
    fn with_number(self, number: u16) -> Digest {
        let [high, low] = number.to_be_bytes();
        self.with_byte(high).with_byte(low)
    }

    /// The same with numbers.
    fn with_numbers(self, numbers: &[u16]) -> Digest {
        numbers
            .iter()
            .fold(self, |digest, &number| digest.with_number(number))
    }

    /// The same with a table, its counts and what stands past them.
    fn with_table(self, table: &Table) -> Digest {
        let mut digest = self
            .with_number(table.size)
            .with_byte(table.resource_count)
            .with_numbers(&table.units)
            .with_byte(table.job_count);
        for job in &table.jobs {
            digest = digest
                .with_byte(job.level.0)
                .with_number(job.frame)
                .with_numbers(&job.needs);
        }
        digest
    }

    /// The same with the stack and the waiting jobs, the counts and what stands past them.
    fn with_jobs(self, state: &State) -> Digest {
        let mut digest = self.with_byte(state.depth);
        for started in &state.stack {
            digest = digest.with_byte(started.job.0).with_numbers(&started.held);
        }
        state
            .waiting
            .iter()
            .fold(digest.with_byte(state.waiting_count), |digest, job| {
                digest.with_byte(job.0)
            })
    }
}
