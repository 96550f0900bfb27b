// A fresh state: nothing started, waiting or held.
ghost use Rattle.std.specs.Prelude.{◌≡◌};
ghost use Rattle.table.specs.Judging.{table_judged, judged_number};
ghost use Rattle.station.specs.Arrays.{fresh_state};
ghost use Rattle.station.specs.Sequence.{Sequence};
ghost use Rattle.station.specs.Demand3.{Demand3};

use crate::State;
use table::{Refusal, Table};

/// What making a fresh state answers: whether the table could be written, and the state.
#[derive(Debug, Drop, PartialEq, Eq)]
pub struct FreshState {
    pub made: Result<(), Refusal>,
    // Beside the answer, and not in its `Ok`: a refused fresh state is a state of zeros.
    pub state: State,
}

impl State {
    /// The fresh state of a table that could be written: else 2, 4, 5, and a state of zeros.
    pub fn fresh(table: Table) -> FreshState
        ensures made { judged_number result.made ≡ table_judged table }
        ensures state { result.state ≡ fresh_state table }
        // Whatever is applied to it, event after event.
        ensures demand_3 { judged_number result.made ≡ 0 → (events : Sequence result.state) → Demand3 events }
    {
        let made = table.judge();
        let mut state = State::default();
        if made.is_ok() {
            state.table = table;
        }
        FreshState { made, state }
    }
}
