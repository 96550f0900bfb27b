// The worst stack of a table: for each level in use the largest frame at that level, added up.
ghost use Rattle.std.specs.Prelude.{◌≡◌, ℕ, ◌≤◌, get_or};
ghost use Rattle.std.specs.List.{sum};
ghost use Rattle.rules.specs.Limits.{max_level};
ghost use Rattle.rules.specs.Table.{largest_at, worst};
ghost use Rattle.table.specs.Arrays.{table_of};

use crate::Table;

// Levels are one byte, from 0.
const LEVELS: usize = 256;

impl Table {
    /// The largest frame at each level, 0 where a level is not in use.
    #[tactic(auto, using(crate::proofs::Largest::largest_all))]
    fn largest_by_level(&self) -> [u16; LEVELS]
        ensures { (l : ℕ) → l ≤ max_level → get_or result l 0 ≡ largest_at (table_of self.now) l }
    {
        let mut largest = [0; LEVELS];
        for job in self.listed_jobs() {
            let level = usize::from(job.level.0);
            largest[level] = largest[level].max(job.frame);
        }
        largest
    }

    /// The largest frame at each level in use, added up: the worst stack, whatever the counts and values are.
    #[tactic(auto, using(crate::proofs::Largest::entries_worst))]
    pub fn largest_frames(&self) -> u32
        ensures { result ≡ worst (table_of self.now) }
    {
        added_up(&self.largest_by_level())
    }
}

/// The frames added up.
fn added_up(frames: &[u16; LEVELS]) -> u32
    ensures { result ≡ sum frames.now }
{
    frames.iter().map(|&frame| u32::from(frame)).sum()
}
