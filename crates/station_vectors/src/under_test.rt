// The state and the stack memory that the records change.

use crate::by_hand::{length_in, put_jobs, table_in};
use crate::digest::Digest;
use crate::readers::{put_job, put_level, put_readers, put_well_formed};
use station::{FreshState, State};
use std::alloc::{AllocError, Global};
use table::Refusal;
use tagged_event::read_event;

// A new memory has the bytes 1 to this, again and again.
const PATTERN: usize = 251;

/// A state, the stack memory that is lent to it, and the byte that the running job's frame is filled with next.
#[derive(Drop)]
pub(crate) struct UnderTest {
    state: State,
    memory: Vec<u8>,
    next_fill: u8,
}

impl UnderTest {
    /// A state of zeros, with no memory.
    pub(crate) fn new(alloc: Global) -> UnderTest {
        UnderTest {
            state: State::default(),
            memory: Vec::new(alloc),
            next_fill: 1,
        }
    }

    /// The state becomes the fresh state of the table in a record, with a new memory.
    pub(crate) fn make_fresh(
        &mut self,
        alloc: Global,
        out: &mut String,
        record: &[u8],
    ) -> Result<(), AllocError> {
        self.take_memory(alloc, record)?;
        let FreshState { made, state } = State::fresh(table_in(record, 4));
        self.state = state;
        match made {
            Ok(()) => out.push_str("fresh 0"),
            Err(refusal) => write!(out, "fresh {}", u8::from(refusal)),
        }
    }

    /// The table in a record is stored into the state, as it is.
    pub(crate) fn hold_table(&mut self, out: &mut String, record: &[u8]) -> Result<(), AllocError> {
        self.state.table = table_in(record, 0);
        out.push_str("table")?;
        put_well_formed(out, &self.state)
    }

    /// The stack and the waiting jobs in a record are stored into the state, as they are. The memory has its pattern again.
    pub(crate) fn hold_state(&mut self, out: &mut String, record: &[u8]) -> Result<(), AllocError> {
        put_jobs(&mut self.state, record);
        self.put_pattern();
        out.push_str("state")?;
        put_well_formed(out, &self.state)
    }

    /// There is a new memory, as long as a record says.
    pub(crate) fn lend(
        &mut self,
        alloc: Global,
        out: &mut String,
        record: &[u8],
    ) -> Result<(), AllocError> {
        self.take_memory(alloc, record)?;
        out.push_str("memory -")
    }

    /// Takes a memory whose length stands at the front of a record.
    fn take_memory(&mut self, alloc: Global, record: &[u8]) -> Result<(), AllocError> {
        self.memory = vec![in alloc; 0; length_in(record)]?;
        self.put_pattern();
        Ok(())
    }

    /// Gives the memory its pattern.
    fn put_pattern(&mut self) {
        self.next_fill = 1;
        for (place, byte) in self.memory.iter_mut().enumerate() {
            *byte = 1 + (place % PATTERN) as u8;
        }
    }

    /// Asks for the ceiling of the resource in a record.
    pub(crate) fn ask(&self, out: &mut String, record: &[u8]) -> Result<(), AllocError> {
        out.push_str("ceiling")?;
        match record.first() {
            Some(&resource) => put_level(out, self.state.ceiling(resource)),
            None => out.push_str(" of none"),
        }
    }

    /// Applies the event at the front of some bytes.
    pub(crate) fn apply(&mut self, out: &mut String, bytes: &[u8]) -> Result<(), AllocError> {
        let Ok((event, _)) = read_event(bytes, 0) else {
            return out.push_str("no such record");
        };
        match self.state.apply(event, self.memory.as_mut_slice()) {
            Ok(started) => {
                out.push_str("0")?;
                put_job(out, started)
            }
            Err(refusal) => put_refused(out, refusal),
        }
    }

    /// Appends what is read from the state, the length of the running job's frame, and the digest; then fills the frame.
    pub(crate) fn put_state(&mut self, out: &mut String) -> Result<(), AllocError> {
        put_readers(out, &self.state)?;
        let Digest(digest) = Digest::of(&self.state, self.memory.as_slice());
        let frame = self.state.running_frame(self.memory.as_mut_slice());
        let length = frame.len();
        writeln!(out, " {length} {digest:08x}")?;
        frame.fill(self.next_fill);
        self.next_fill = if self.next_fill == u8::MAX {
            1
        } else {
            self.next_fill + 1
        };
        Ok(())
    }
}

/// Appends the number of a refused event, which starts no job.
fn put_refused(out: &mut String, refusal: Refusal) -> Result<(), AllocError> {
    write!(out, "{} -", u8::from(refusal))
}
