ghost use Rattle.std.specs.Prelude.{◌≡◌};
ghost use Rattle.bench.specs.Stands.{state_in, table_in};
ghost use Rattle.model.specs.Schedule.{started};

use crate::laid::Laid;
use crate::running::Running;
use bus::{Machine, Rule};

impl<R: Rule> Laid<R> {
    // Starts the bench: the bus is at instant 0, with the histories of the table, nothing waiting and nothing in transit.
    pub fn start(self) -> Running<R>
        ensures state { state_in result ≡ started (table_in self) }
        ensures table { result.table ≡ self.table }
        ensures rule { result.rule ≡ self.rule }
    {
        let Laid { rule, table } = self;
        let machine = Machine::start(&table);
        Running {
            rule,
            table,
            machine,
        }
    }
}
