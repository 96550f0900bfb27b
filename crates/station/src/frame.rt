// Frames: their places in the stack memory, the running job's as a part that is lent on, and the clearing of a new one.
ghost use Rattle.std.specs.Prelude.{◌≡◌, ◌≤◌, true, length, replicate};
ghost use Rattle.std.specs.Borrow.{sem};
ghost use Rattle.station.specs.Frame.{IsPart, part_between, top_frame, running_part, LendsFrame};
ghost use Rattle.rules.specs.Memory.{frame_start, cleared_frame};
ghost use Rattle.table.specs.Arrays.{table_of};
ghost use Rattle.station.specs.Arrays.{state_of};
ghost use Rattle.station.specs.WellFormed.{well_formed};

use crate::State;

impl State {
    /// The running job's own part of the stack memory, to be written. Its length is 0 if the state is not well formed, the memory's length is
    /// not the stack size, or nothing runs.
    pub fn running_frame<'a>(&self, memory: &'a mut [u8]) -> &'a mut [u8]
        ensures* lends { sem 𝓛 (LendsFrame self.now memory.entry result) }
        ensures region { IsPart (running_part self.now (length memory.old)) memory.entry result }
    {
        let (start, end) = self.running_bytes(memory.len());
        &mut memory[start..end]
    }

    /// Where the running job's frame starts and ends in a stack memory of so many bytes.
    pub fn running_bytes(&self, size: usize) -> (usize, usize)
        ensures within { (result.0 ≤ result.1) × (result.1 ≤ size) }
        ensures part { running_part self.now size ≡ part_between result.0 result.1 }
    {
        if size != usize::from(self.table.size) || !self.is_well_formed() {
            return (0, 0);
        }
        self.top_bytes()
    }

    /// Where the frame on top of the stack starts and ends.
    fn top_bytes(&self) -> (usize, usize)
        requires { well_formed self.now ≡ true }
        ensures within { (result.0 ≤ result.1) × (result.1 ≤ self.now.table.size) }
        ensures part { top_frame (table_of self.now.table) (state_of self.now).stack ≡ part_between result.0 result.1 }
    {
        let Some(running) = self.started().last() else {
            return (0, 0);
        };
        let end = self.frames();
        (end - usize::from(self.frame_of(running.job)), end)
    }

    /// The frame on top of the stack becomes zero.
    pub(crate) fn clear_top(&self, memory: &mut [u8])
        requires well_formed { well_formed self.now ≡ true }
        requires memory { length memory.old ≡ self.now.table.size }
        ensures { memory.new ≡ cleared_frame (table_of self.now.table) (state_of self.now).stack memory.old }
    {
        let (start, end) = self.top_bytes();
        clear(&mut memory[start..end]);
    }

    /// The bytes that the started jobs' frames take: where a frame above them starts.
    pub(crate) fn frames(&self) -> usize
        ensures { result ≡ frame_start (table_of self.now.table) (state_of self.now).stack }
    {
        let mut start = 0;
        for started in self.started() {
            start += usize::from(self.frame_of(started.job));
        }
        start
    }
}

/// Every byte of the frame becomes zero.
fn clear(frame: &mut [u8])
    ensures { frame.new ≡ replicate (length frame.old) 0 }
{
    frame.fill(0);
}
