// The start test.
ghost use Rattle.std.specs.Prelude.{◌≡◌, true};
ghost use Rattle.std.proofs.Math.Option.{none};
ghost use Rattle.rules.specs.Choice.{pick};
ghost use Rattle.rules.specs.Ceilings.{system_ceiling};
ghost use Rattle.rules.specs.Waiting.{head_of};
ghost use Rattle.rules.specs.Start.{starts, start_test};
ghost use Rattle.table.specs.Arrays.{table_of};
ghost use Rattle.station.specs.Arrays.{state_of, arrays_of, who};
ghost use Rattle.station.specs.WellFormed.{well_formed};

use crate::State;
use table::{JobNo, Level};

/// What a start test answers: the job that it started, if any, and the system ceiling that it leaves.
#[derive(Clone, Copy, Debug, PartialEq, Eq)]
pub(crate) struct Tested {
    pub(crate) started: Option<JobNo>,
    pub(crate) ceiling: Level,
}

impl State {
    /// The head starts exactly when its level is greater than the system ceiling.
    pub(crate) fn start_test(&mut self) -> Tested
        requires { well_formed self.old ≡ true }
        ensures started { who result.started ≡ pick (starts (table_of self.old.table) (state_of self.old).stack (state_of self.old).waiting) (head_of (state_of self.old).waiting) none }
        ensures ceiling { result.ceiling.0 ≡ system_ceiling (table_of self.old.table) (start_test (table_of self.old.table) (state_of self.old)).stack }
        ensures state { self.new ≡ arrays_of self.old.table (start_test (table_of self.old.table) (state_of self.old)) }
    {
        let ceiling = self.ceiling_now();
        let Some(&head) = self.waiting_jobs().first() else {
            return Tested {
                started: None,
                ceiling,
            };
        };
        let level = self.level_of(head);
        if level.0 <= ceiling.0 {
            return Tested {
                started: None,
                ceiling,
            };
        }
        self.start_head();
        Tested {
            started: Some(head),
            ceiling: level,
        }
    }
}
