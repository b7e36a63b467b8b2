ghost use Rattle.std.specs.Prelude.{◌≡◌};
ghost use Rattle.bus.specs.Machines.{state_of};
ghost use Rattle.model.specs.Schedule.{started};
ghost use Rattle.streams.specs.Tables.{table_of};

use crate::machine::Machine;
use crate::machine::state::State;
use streams::Table;

impl Machine {
    // A table at its start: instant 0, its histories, nothing waiting or in transit.
    pub fn start(table: &Table) -> Machine
        ensures { state_of result ≡ started (table_of table.now) }
    {
        Machine {
            state: State::started(table),
        }
    }
}
