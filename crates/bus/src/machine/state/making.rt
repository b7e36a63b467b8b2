ghost use Rattle.std.specs.Prelude.{◌≡◌};
ghost use Rattle.bus.specs.States.{standing};
ghost use Rattle.model.specs.Schedule.{started};
ghost use Rattle.streams.specs.Tables.{table_of};

use crate::machine::row::Row;
use crate::machine::state::State;
use std::array;
use streams::Table;

impl State {
    // A table at its start: instant 0, its histories, nothing waiting or in transit.
    pub(crate) fn started(table: &Table) -> State
        ensures { standing result ≡ started (table_of table.now) }
    {
        State {
            now: 0,
            rows: array::from_fn(|i| table.stream(i as u64).map(Row::fresh)),
            transit: None,
        }
    }
}
